//! What an act shows.

use crate::frame::Frame;
use crate::state::ClientState;

/// What an act shows that isn't refused. Messages are named by their numbers.
#[derive(Drop)]
pub enum Shown {
    /// A request was sent.
    Sent { request: usize },
    /// A request was answered: the reply is in its pool.
    Replied { reply: usize },
    /// A request was not answered.
    Closed,
    /// The client is now in a state.
    Is { state: ClientState },
    /// The client doesn't wait for this reply.
    Ignored,
    /// A commit was made.
    Committed { commit: usize },
    /// A commit was answered by this frame, which is not kept.
    Answered { reply: Frame },
    /// Members were removed: this is their number.
    Removed { members: usize },
    /// Nothing is to be shown.
    Done,
}
