//! The replies that are held.

use coord_node::Stamp;
use std::alloc::{AllocError, Global};
use std::collections::BTreeMap;

/// What the replies wait for that are held, by the numbers of their connections and frames.
#[derive(Drop)]
pub(crate) struct HeldReplies<H> {
    replies: BTreeMap<(u64, u64), H>,
}

impl<H: Drop> HeldReplies<H> {
    /// None. Takes no memory.
    pub(crate) fn new(alloc: Global) -> HeldReplies<H> {
        HeldReplies {
            replies: BTreeMap::new(alloc),
        }
    }

    /// Holds the reply to the frame with this stamp. Fails for want of memory.
    pub(crate) fn hold(&mut self, stamp: Stamp, held: H) -> Result<(), AllocError> {
        match self.replies.insert((stamp.connection, stamp.frame), held) {
            Ok(_) => Ok(()),
            Err(_) => Err(AllocError),
        }
    }

    /// What the reply to the frame with this stamp waits for, if it is held.
    pub(crate) fn get(&self, stamp: Stamp) -> Option<&H> {
        self.replies.get(&(stamp.connection, stamp.frame))
    }

    /// Lets the reply to the frame with this stamp go.
    pub(crate) fn release(&mut self, stamp: Stamp) {
        let _ = self.replies.remove(&(stamp.connection, stamp.frame));
    }

    /// Forgets those of a connection.
    pub(crate) fn forget(&mut self, connection: u64) {
        self.replies.retain(|place, _| place.0 != connection);
    }

    /// Whether there is none.
    pub(crate) fn is_empty(&self) -> bool {
        self.replies.is_empty()
    }
}
