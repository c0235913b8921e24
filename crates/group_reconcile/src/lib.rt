//! Who may read which partition (KIP-848, "Current Assignment" and "Reconciliation of the group").
//!
//! Callers see [`Grants`] as the map from each partition that is held to its holder and the epoch of the target under which
//! it was granted. Start from [`Grants::new`] and [`Grants::offer`].
#![tactic(auto)]

mod cell;
mod grants;
mod member_target;
mod members;
mod settle;
mod table;
mod verdict;

pub use grants::Grants;
pub use group_types::{EpochNumber, MemberId, PartSet, Partition, Wanted};
pub use member_target::MemberTarget;
pub use verdict::Verdict;
