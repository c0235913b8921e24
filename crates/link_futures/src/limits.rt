//! The limits of a line. All of them are ours.

/// The most replies that are unsent when a frame is answered, without its own.
pub(crate) const MOST_REPLIES: usize = 64;

/// The most bytes of replies that are unsent when a frame is answered, without those of its own.
pub(crate) const MOST_BYTES: usize = 8_388_608;

/// The most parts of one vectored write.
pub(crate) const MOST_PARTS: usize = 16;

/// The bytes of a frame's size.
pub(crate) const SIZE_BYTES: usize = 4;

/// The most bytes of one read.
pub(crate) const LARGEST_READ: usize = 65_536;
