//! The offsets that a consumer group's members commit (KIP-848, "OffsetCommit").
//!
//! A commit is taken at its member's present epoch alone, and then each of its partitions is answered by itself: callers see
//! [`Offsets`] as the map from each topic's name and index to what was last committed there. Start from [`Offsets::new`] and
//! [`Offsets::commit`].
#![tactic(auto)]

mod checks;
mod committed;
mod listing;
mod offsets;
mod reply;
mod store;
mod topic_offsets;

pub use committed::Committed;
pub use group_epochs::Records;
pub use kip_msgs::{CommitReply, CommitRequest};
pub use listing::CommittedAt;
pub use offsets::Offsets;
pub use topic_meta::Image;
