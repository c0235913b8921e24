//! What a consumer group knows of its members' epochs (KIP-848, "Group Coordinator").
//!
//! Start from [`Past`], the ids of former members that a group remembers.
#![tactic(auto)]

mod counts;
mod deadlines;
mod draft;
mod entry;
mod given;
mod locate;
mod lookup;
mod names;
mod order;
mod past;
mod record;
mod records;
mod refusal;
mod restore;
mod sets;
mod subscribers;
mod table;

pub use draft::{Draft, Place};
pub use group_types::{
    AssignorName, Code, Epoch, EpochNumber, MemberId, Moment, NameSet, PartSet, Stamp,
};
pub use kip_msgs::HeartbeatRequest;
pub use lookup::place_of;
pub use names::NewNames;
pub use past::Past;
pub use range_assign::{Subs, Subscriber};
pub use record::{Record, RecordFields};
pub use records::{NewMember, Records};
pub use refusal::Refusal;
pub use topic_meta::{Image, View};
