//! A replica: a coordinator that applies the entries of a replicated log, so that its groups outlive the machine.
//!
//! Whatever leaders come and go, and whatever entries are proposed and lost, every reply that any replica gave for a place of the log
//! is the one that the run over the log gives there. What is believed is that the log is one list, of which each replica applies a
//! beginning. Start from [`Replica`] with [`Replica::propose`] and [`Replica::apply`]; `specs/Histories.antt` has the histories.
#![tactic(auto)]

mod applied;
mod applying;
mod fault;
mod laws;
mod leading;
mod proposing;
mod replica;
mod snapshot;

pub use applied::Applied;
pub use coord_node::{Answered, Moment, Node};
pub use fault::ReplicaFault;
pub use laws::{
    all_parts_are_the_snapshot, answers_are_the_logs, clocks_follow_the_log,
    deposed_leaders_follow, every_replica_catches_up, leaders_keep_time, leaderships_begin_quietly,
    logs_can_be_restored, logs_never_fall, logs_serve, logs_with_few_offsets_can_be_written,
    one_answer_a_place, one_state_a_snapshot, parts_follow, proposals_are_taken,
    removed_members_were_silent, replicas_are_runs, replicas_at_a_place_are_the_same,
    replicas_follow_the_log, restored_follows_the_log, restored_is_written_the_same,
    same_entries_same_replica, sections_make_a_snapshot, stamps_rise_over_leaderships,
};
pub use leading::Leading;
pub use replica::Replica;
pub use replica_entries::EntryFault;
pub use replica_snapshots::SnapshotFault;
pub use snapshot::Snapshot;
pub use topic_meta::{ImageFault, TopicEntry};
