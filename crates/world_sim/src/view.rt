//! What is to be seen of a client.

use crate::state::ClientState;
use member_core::{EpochNumber, PartSet};

/// What is to be seen of a client.
pub struct ClientView<'a> {
    pub state: ClientState,
    /// Its id, where it has one; a client that is fenced keeps it.
    pub id: Option<&'a str>,
    /// The member epoch that it knows, 0 outside its group.
    pub epoch: EpochNumber,
    /// The partitions that it reads.
    pub own: &'a PartSet,
}
