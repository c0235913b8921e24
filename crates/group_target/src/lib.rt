//! The target assignment of a consumer group: who is to own which partition (KIP-848, "Target Assignment").
//!
//! A [`Target`] is renewed by the assignor that the group's members ask for. Start from [`Target::new`] and
//! [`Target::renew`].
#![tactic(auto)]

mod target;

pub use group_types::{AssignorName, EpochNumber, MemberId, PartSet, Wanted};
pub use range_assign::{Share, Subs, Subscriber};
pub use target::Target;
pub use topic_meta::View;
