//! Laws of worlds whose coordinator is what replicas make of one log: whatever leaders come and go, no two members of one group hold one
//! partition, and a commit is taken only while what its maker held is granted.
//!
//! Nothing here runs. `specs/ReplicaWorlds.antt` has these worlds, and what is believed of the stamps under which requests come; start from
//! `specs/Laws.antt`.
#![tactic(auto)]

mod laws;

pub use laws::{
    commits_are_taken_while_held_over_replicas, members_hold_apart_over_replicas,
    replica_worlds_are_worlds, replicas_make_the_world, replies_are_the_logs,
    replies_show_what_is_granted_over_replicas, targets_are_renewed_lawfully_over_replicas,
    the_laws_are_met_over_replicas, worlds_follow_their_log,
};
