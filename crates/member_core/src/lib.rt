//! The client side of a consumer group: what a member asks of its coordinator, and what it makes of the replies
//! (KIP-848, "Consumer").
//!
//! A member's type says where it stands: it has yet to join, is inside its group with or without something to release,
//! waits for a reply, or is gone. So a second heartbeat before the reply to the first doesn't compile, nor does a commit
//! from outside. Each call is a step of the client machine (`specs/Client.antt`), and `src/laws.rt` has laws about that
//! machine. Start from [`Member`].
#![tactic(auto)]

mod acceptance;
mod ask;
mod counts;
mod fault;
mod frame;
mod laws;
mod listing;
mod machine;
mod meaning;
mod member;
mod news;
mod settings;
mod stage;

pub use ask::{Kind, Quit};
pub use fault::BeatFault;
pub use group_types::{EpochNumber, PartSet, Partition};
pub use kip_msgs::{Array, CommitRequestTopic};
pub use laws::{
    asks_are_made, fenced_members_own_nothing, members_own_only_inside, one_outcome_a_reply,
    releases_leave_the_rest, replies_are_taken_once, replies_have_an_outcome,
};
pub use member::{Member, Next, Released};
pub use settings::Settings;
pub use stage::{Commits, Gone, Idle, Outside, Present, Releasing, Sent, Stage, Steady};
