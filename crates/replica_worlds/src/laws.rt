//! Laws of worlds over replicas, proved where nothing runs.
ghost use Rattle.world_sim.specs.Exclusivity.{CommitHeld, HoldApart, HoldGranted, ShowGranted, SinceGranted};
ghost use Rattle.replica_worlds.specs.Examples.{SomebodyHoldsOverLeaderships};
ghost use Rattle.replica_worlds.specs.Laws.{BringHeldOverReplicas, OverReplicas, RenewLawfullyOverReplicas, ReplicaWorldsAreWorlds};
ghost use Rattle.replica_worlds.specs.Logs.{RepliesAreTheLogs, ReplicasMakeTheWorld, WorldsFollowTheirLog};

use coord_node::one_answer;
use coord_replica::{answers_are_the_logs, replicas_follow_the_log, same_entries_same_replica};
use kip_msgs::one_request_a_body;
use world_sim::{
    commits_are_taken_while_held, every_act_keeps_the_invariant, members_hold_apart,
    replies_show_what_is_granted, targets_are_renewed_lawfully,
};

/// Whatever leaders come and go, and whatever is lost, repeated or overtaken: a world over replicas is one that acts lead to, but for the
/// numbers of stamps.
pub fn replica_worlds_are_worlds()
    ensures { ReplicaWorldsAreWorlds }
{
    one_request_a_body();
    one_answer();
    every_act_keeps_the_invariant();
}

/// Whatever leaders come and go, no two members of one group hold one partition, and each holds only what its id is granted.
pub fn members_hold_apart_over_replicas()
    ensures apart { OverReplicas HoldApart }
    ensures granted { OverReplicas HoldGranted }
{
    one_request_a_body();
    one_answer();
    every_act_keeps_the_invariant();
    members_hold_apart();
}

/// Whatever leaders come and go, a reply of success that a waiting client may still take, and whose id has a record, shows only what the
/// id is granted.
pub fn replies_show_what_is_granted_over_replicas()
    ensures { OverReplicas ShowGranted }
{
    one_request_a_body();
    one_answer();
    every_act_keeps_the_invariant();
    replies_show_what_is_granted();
}

/// Whatever leaders come and go, a commit is taken only while all that its maker held has been granted to its id from then on, without a
/// break.
pub fn commits_are_taken_while_held_over_replicas()
    ensures taken { OverReplicas CommitHeld }
    ensures since { OverReplicas SinceGranted }
    ensures brought { BringHeldOverReplicas }
{
    one_request_a_body();
    one_answer();
    every_act_keeps_the_invariant();
    commits_are_taken_while_held();
}

/// Whatever leaders come and go, wherever an entry renews a group's target, the new one gives each partition that a member subscribes
/// exactly one owner, who subscribes it.
pub fn targets_are_renewed_lawfully_over_replicas()
    ensures { RenewLawfullyOverReplicas }
{
    one_request_a_body();
    one_answer();
    every_act_keeps_the_invariant();
    targets_are_renewed_lawfully();
}

/// What a world has of its log is what the run over the log comes to.
pub fn worlds_follow_their_log()
    ensures { WorldsFollowTheirLog }
{}

/// Whatever leaders come and go, the replicas of every history over a world's log are those of the world: each that has applied all of it
/// has the world's coordinator, and every answer that any of them gave is the one that the run over the log gives at its place.
pub fn replicas_make_the_world()
    ensures { ReplicasMakeTheWorld }
{
    answers_are_the_logs();
    replicas_follow_the_log();
    same_entries_same_replica();
}

/// Every reply that was ever sent is what the run over the log answers at some place.
pub fn replies_are_the_logs()
    ensures { RepliesAreTheLogs }
{}

/// The laws aren't empty: a client joins under one leadership and takes the reply under the next, and holds a partition then.
pub fn the_laws_are_met_over_replicas()
    ensures { SomebodyHoldsOverLeaderships }
{}
