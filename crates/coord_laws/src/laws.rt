//! Laws of the coordinator's runs, proved where nothing runs.
ghost use Rattle.coord_laws.specs.AnsweredCommits.{AnsweredCommitsStay};
ghost use Rattle.coord_laws.specs.GroupRuns.{NodeRunsAreGroupRuns, StepsLeaveOtherGroups};
ghost use Rattle.coord_node.specs.Steps.{Step};

use coord_node::steps_are_sound;
use group_types::offsets_are_the_last;
use kip_msgs::one_request_a_body;

/// A frame leaves each group as it was that it isn't a request to, and a new image leaves all.
pub fn steps_leave_other_groups()
    ensures { StepsLeaveOtherGroups Step }
{}

/// Whatever came to a node since its opening: each of its groups is what a run of that group alone comes to.
pub fn node_runs_are_group_runs()
    ensures { NodeRunsAreGroupRuns }
{
    steps_are_sound();
}

/// Whatever came to a node since its opening: what a group has committed for a place is what the last commit asked for that was answered
/// with no error there.
pub fn answered_commits_stay()
    ensures { AnsweredCommitsStay }
{
    one_request_a_body();
    offsets_are_the_last();
    steps_are_sound();
}
