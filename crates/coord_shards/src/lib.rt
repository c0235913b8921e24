//! Nodes behind locks: each shard is a coordinator of its own, with a journal of what came to it.
//!
//! Whatever threads send, each shard is what its entries, run one after the other through the machine of KIP-848, make of
//! the opening state.
#![tactic(auto)]

mod close;
mod compare;
mod counts;
mod event;
mod fault;
mod gate;
mod homes;
mod incoming;
mod laws;
pub mod limits;
mod locked_shard;
mod octets;
mod reader;
mod registry;
mod seat;
mod settle;
mod shard;
mod shards;

pub use close::Unclosed;
pub use coord_node::{Answered, Image, Moment, Node, Stamp};
pub use event::{Answer, Event};
pub use fault::{CallFault, ShardFault};
pub use gate::{AlwaysOpen, Gate};
pub use homes::home;
pub use laws::{constants_are_the_limits, one_home};
pub use octets::Octets;
pub use reader::NodeReader;
pub use seat::{Seat, SentEvent};
pub use shard::{JournalEntry, Shard};
pub use shards::Shards;
