//! The assignor `uniform` of consumer groups (KIP-848, "Server Side Assignors"): who owns which partition of a view so
//! that the members own nearly as many, and few partitions change their owners.
//!
//! [`Uniform`] is an [`Assignor`]. Start from [`Assignor::assign`].
#![tactic(auto)]

mod board;
mod classes;
mod count_set;
mod count_sets;
mod draft;
mod fill;
mod former;
mod givers;
mod keep;
mod lawful;
mod laws;
mod level;
mod order;
mod pile;
mod piles;
mod seats;
mod settle;
mod shares;
mod stay;
mod takers;
mod uniform;

pub use group_types::{AssignorName, MemberId, NameSet, PartSet, Partition};
pub use laws::{
    lawful_and_even_owners_stay, uniform_has_a_spread, uniform_is_even, uniform_is_lawful,
    uniform_is_one_spread,
};
pub use range_assign::{Assignor, Share, Spread, Subs, Subscriber};
pub use topic_meta::{View, ViewTopic};
pub use uniform::Uniform;
