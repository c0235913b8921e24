//! The assignors of consumer groups: who owns which partition of a view (KIP-848, "Server Side Assignors").
//!
//! An [`Assignor`] makes of a group's members and topics a [`Spread`], in which each subscribed partition has exactly
//! one owner, who subscribes it. [`Range`] is one. Start from [`Subs::of`] and [`Assignor::assign`].
#![tactic(auto)]

mod assignor;
mod laws;
mod marks;
mod range;
mod spread;
mod subs;

pub use assignor::Assignor;
pub use group_types::{AssignorName, MemberId, NameSet, PartSet, Partition};
pub use laws::{range_is_lawful, subscribed_partitions_have_an_owner};
pub use marks::marks_of;
pub use range::Range;
pub use spread::{Share, Spread};
pub use subs::{Subs, Subscriber};
pub use topic_meta::{View, ViewTopic};
