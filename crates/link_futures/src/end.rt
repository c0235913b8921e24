//! Why a line ended.

/// Why a line ended. The discriminants are the numbers that reports use.
#[derive(Clone, Copy, Debug, PartialEq, Eq)]
pub enum End {
    /// The reader ended between two frames, and all replies are written.
    Finished = 1,
    /// The reader ended inside a frame, and all replies are written.
    CutShort = 2,
    /// A size that no body may have came, or the desk closed, or the last number of a frame is used. All replies to earlier
    /// frames are written.
    Closed = 3,
    /// A poll of the reader failed.
    ReadFault = 4,
    /// A poll of the writer failed, or took no byte.
    WriteFault = 5,
    /// Memory was short. Nothing was lost: what was read is still unanswered or its answer unsent.
    NoMemory = 6,
}
