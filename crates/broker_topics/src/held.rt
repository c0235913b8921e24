//! A reply that waits for records.

/// The reply to a Fetch that found fewer bytes than the client wants. It waits until the missing bytes were appended to the partitions
/// that the Fetch names, or until its time is over.
#[derive(Drop)]
pub struct Held {
    /// For how long the reply may be held, in milliseconds.
    pub max_wait_ms: u32,
    /// How many more bytes end the wait.
    pub(crate) missing: u64,
    pub(crate) parts: Vec<HeldPart>,
}

/// A partition for whose records a reply waits, by the place of its topic and by its number.
#[derive(Clone, Copy)]
pub(crate) struct HeldPart {
    pub(crate) topic: usize,
    pub(crate) partition: i32,
    /// How many bytes had been appended to it when the reply was made.
    pub(crate) appended: u64,
}
