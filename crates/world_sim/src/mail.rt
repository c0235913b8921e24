//! Requests and replies that were sent.
ghost use Rattle.std.specs.Prelude.{◌≤◌, length};
ghost use Rattle.group_types.specs.Limits.{LARGEST_BODY};

use crate::frame::Frame;
use coord_node::Stamp;

/// A request that was sent. The connection of its stamp is its sender's number.
#[derive(Drop)]
pub(crate) struct Request {
    pub(crate) stamp: Stamp,
    pub(crate) frame: Frame,
    pub(crate) ghost small: { length frame ≤ LARGEST_BODY },
}

/// A reply that was sent.
#[derive(Drop)]
pub(crate) struct Reply {
    /// The place of the request that it answers, from 0.
    pub(crate) request: usize,
    pub(crate) frame: Frame,
}
