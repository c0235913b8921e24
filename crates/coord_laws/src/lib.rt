//! Laws of the coordinator's runs, group by group: each group of a node goes its own way, and a commit that was answered with no error
//! stays until the next one for its place.
//!
//! Nothing here runs. Start from `specs/GroupRuns.antt` and `specs/AnsweredCommits.antt`.
#![tactic(auto)]

mod laws;

pub use laws::{answered_commits_stay, node_runs_are_group_runs, steps_leave_other_groups};
