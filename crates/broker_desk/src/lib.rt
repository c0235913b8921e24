//! The desk of a broker: a coordinator's desk, and the answers to what stock Kafka clients ask besides.
//!
//! Heartbeats of version 0 and commits of version 9 are answered exactly as the coordinator's desk answers them, and a heartbeat of
//! version 1 as that desk answers its translation. Every other API leaves that desk as it was, and its answer is one frame with the
//! request's correlation id, or the end of the connection. Start from [`BrokerDesk`].
#![tactic(auto)]

mod desk;
mod held;
mod others;

pub use broker_requests::TopicNames;
pub use desk::BrokerDesk;
pub use others::{OtherApis, OwnAnswer};
