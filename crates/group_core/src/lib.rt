//! One consumer group: what a heartbeat does to it, and what is answered.
//!
//! [`Group`] holds a group's whole state, and [`Group::heartbeat`] moves it by exactly one step of the group's machine
//! (KIP-848), or says that memory is short and changes nothing.
//! [`Group::commit`] and [`Group::tick`] likewise.
//!
//! A heartbeat goes through stages, a file each: the checks (`checks`, `judge`), the draft of its record (`naming`), the change and the
//! renewal (`change`), what is told and what else needs memory (`plan`), the settling (`settle`), and what is stored (`carry`, and `place`,
//! which ends a take-over). A beat that gives nothing, of a member that has nothing to be told, skips them (`steady`,
//! `mark`). Start from [`Group::new`].
#![tactic(auto)]

mod carry;
mod change;
mod checks;
mod draft;
mod fitting;
mod group;
mod heartbeat;
mod judge;
mod laws;
mod leave;
mod listing;
mod mark;
mod member_heartbeat;
mod naming;
mod outcome;
mod owners;
mod place;
mod plan;
mod reported;
mod restoring;
mod settle;
mod shown;
mod state;
mod steady;
mod taking;
mod tick;

pub use group::Group;
pub use group_epochs::{Record, RecordFields, Records};
pub use group_reconcile::Grants;
pub use group_target::Target;
pub use group_types::{
    AssignorName, Code, Epoch, EpochNumber, MemberId, Moment, NameSet, PartSet, Partition, Stamp,
    Wanted,
};
pub use kip_msgs::{Array, CommitReply, CommitRequest, HeartbeatRequest, TopicPartitions};
pub use laws::{
    assignors_are_lawful, first_joins_are_answered, heartbeats_have_an_answer,
    heartbeats_have_one_answer, targets_exist, targets_follow_members,
};
pub use member_heartbeat::MemberHeartbeat;
pub use offset_guard::{Committed, CommittedAt, Offsets};
pub use outcome::{Outcome, Reply};
pub use range_assign::Share;
pub use restoring::{GroupNumbers, Restoring};
pub use shown::Shown;
pub use topic_meta::{Image, View};
