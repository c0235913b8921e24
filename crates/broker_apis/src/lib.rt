//! What answers the requests that a broker's clients send besides heartbeats and commits: its topics, and what the coordinator's shards have
//! of groups.
//!
//! Each answer is one frame with the request's correlation id, or nothing. Start from [`BrokerApis`].
#![tactic(auto)]

mod held;
mod names;
mod parts;

pub use broker_topics::{Topics, TopicsFault, TopicsPlan};
pub use held::HeldFetch;
pub use parts::BrokerApis;
