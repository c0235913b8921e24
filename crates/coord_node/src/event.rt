//! What comes to a node, and what becomes of a frame.

use group_types::{Moment, Stamp};
use topic_meta::Image;

/// What comes to a node.
#[derive(Drop)]
pub enum NodeEvent {
    /// The body of a frame, with the stamp and the moment at which it came.
    Frame {
        body: Vec<u8>,
        stamp: Stamp,
        moment: Moment,
    },
    /// The time at a moment: members whose deadline has come leave.
    Tick {
        moment: Moment,
    },
    /// A new image of the topics.
    Image {
        image: Image,
    },
}

/// What became of a frame.
#[derive(Clone, Copy, Debug, PartialEq, Eq)]
pub enum Answered {
    /// The frame of a reply was appended.
    Replied,
    /// Nothing was appended, and the connection is to be closed.
    Closes,
}
