//! The states of a client.

/// The state of a client. One that waits for a reply has the state from which it sent.
#[derive(Clone, Copy, Debug, PartialEq, Eq)]
pub enum ClientState {
    /// It has yet to join.
    Outside,
    /// It is inside its group, and is shown all that it owns.
    Steady,
    /// It is inside its group, and has to release some of what it owns.
    Releasing,
    /// It is gone for good.
    Gone,
}
