//! What clients ask about groups and a coordinator's own protocol doesn't tell: OffsetFetch, ListGroups and ConsumerGroupDescribe.
//!
//! The answers come from the coordinator's state, which is read under the locks of its shards, a part at a time, and is not changed. Start
//! from [`GroupsRequest::answer`].
#![tactic(auto)]

mod answer;
mod consumer_group_describe;
mod described;
mod fault;
mod list_groups;
mod offset_fetch;
mod room;
mod state;

pub use answer::GroupsRequest;
