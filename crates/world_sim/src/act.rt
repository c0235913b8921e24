//! What can happen in a world.

use coord_node::{Image, Moment};
use member_core::{Array, CommitRequestTopic, Kind, Partition, Quit};

/// What can happen in a world. Clients, requests, replies and commits have numbers from 1, each kind by itself, in the
/// order in which they were made.
#[derive(Drop)]
pub enum Act<'a> {
    /// A client asks to join.
    Join {
        client: usize,
    },
    /// A client sends a heartbeat of a kind.
    Beat {
        client: usize,
        kind: Kind,
    },
    /// A client leaves, for good or for a while.
    Quit {
        client: usize,
        quit: Quit,
    },
    /// A client waits no longer for the reply to its request.
    GiveUp {
        client: usize,
    },
    /// A request is delivered, for the first time or again.
    Deliver {
        request: usize,
    },
    /// A reply is given to the client whose request it answers.
    Take {
        reply: usize,
    },
    /// A client releases a partition.
    Release {
        client: usize,
        partition: Partition,
    },
    /// A client commits offsets.
    Commit {
        client: usize,
        topics: Array<CommitRequestTopic<'a>>,
    },
    /// A commit is brought to the coordinator, for the first time or again.
    Bring {
        commit: usize,
    },
    /// The clock is set.
    Clock {
        moment: Moment,
    },
    /// The clock is set, and every group meets the moment.
    Tick {
        moment: Moment,
    },
    /// The coordinator sees a new image of the topics.
    Image {
        image: Image,
    },
}

/// What a client asks for.
#[derive(Clone, Copy, Debug, PartialEq, Eq)]
pub(crate) enum Ask {
    Join,
    Beat(Kind),
    Quit(Quit),
}
