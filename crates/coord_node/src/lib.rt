//! The coordinator of one node: the bodies of requests in, the frames of replies out.
//!
//! For every list of frames, ticks and images, the bytes that a [`Node`] appends are those of the coordinator's run
//! (KIP-848), and its state is the run's. Start from [`Node::answer`] for one frame, and from [`Node::run`] for a list
//! of events.
#![tactic(auto)]

mod absent;
mod admission;
mod commit_frame;
mod event;
mod frame;
mod heartbeat_frame;
mod kept;
mod laws;
mod node;
mod parsed;
mod restored;
mod run;
mod success;
mod tick;

pub use event::{Answered, NodeEvent};
pub use group_core::{
    AssignorName, Code, Committed, CommittedAt, Epoch, EpochNumber, Grants, Group, Image, MemberId,
    Moment, NameSet, Offsets, PartSet, Partition, Record, Records, Stamp, Target, View, Wanted,
};
pub use kip_msgs::Request;
pub use laws::{
    coordinators_serve, events_are_answered, groups_are_made_by_success, groups_are_sound,
    one_answer, path_is_answered, replies_fit, runs_are_answered, steps_are_sound,
    ticks_are_of_all_groups,
};
pub use node::Node;
pub use parsed::ParsedBody;
pub use restored::NamedGroup;
