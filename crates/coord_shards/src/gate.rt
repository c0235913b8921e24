//! Where a program may hold its threads up.
ghost use Rattle.std.specs.Prelude.{IsTrue};

use group_types::Stamp;

/// Where tests hold threads up: under a shard's lock, and before a reply is written.
pub trait Gate {
    /// Is called under the lock of the shard with this number, before its step.
    fn inside(&self, shard: usize);

    /// Whether the reply to the frame with this stamp may be written.
    fn may_reply(&self, stamp: Stamp) -> bool;
}

/// A gate that holds nobody up.
#[derive(Clone, Copy, Debug)]
pub struct AlwaysOpen;

impl Gate for AlwaysOpen {
    fn inside(&self, _shard: usize) {}

    fn may_reply(&self, _stamp: Stamp) -> bool
        ensures { IsTrue result }
    {
        true
    }
}
