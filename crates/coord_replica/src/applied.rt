//! What was applied.

use crate::fault::ReplicaFault;
use coord_node::Answered;

/// What a replica says of a place that it applied.
#[derive(Clone, Copy, Debug, PartialEq, Eq)]
pub enum Applied {
    /// The number of a frame's leadership, that of its connection under it, its own on the connection, and what became of it.
    Frame {
        leadership: u32,
        connection: u32,
        number: u64,
        answered: Answered,
    },
    /// How many members a tick removed.
    Tick {
        removed: usize,
    },
    /// The topics of the cluster were set.
    Topics,
    /// The leadership with this number began.
    Leads {
        leadership: u32,
    },
    /// The entry was refused by this fault, and passed over: its place is applied, and nothing else has changed.
    PassedOver {
        fault: ReplicaFault,
    },
}
