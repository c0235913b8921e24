//! Laws of the world, proved where nothing runs: what holds after every list of acts, from clients that haven't
//! asked for anything, and that an act has one outcome.
ghost use Rattle.world_sim.specs.Convergence.{Convergence};
ghost use Rattle.world_sim.specs.Examples.{SomebodyHolds, SomeCommitIsBroughtAgain, SomeCommitIsTaken, SomeReplyShows, SomeRoundsMove, SomeTargetIsRenewed, SomeWorldCanSettle, TwoHold};
ghost use Rattle.world_sim.specs.Existence.{ActsHaveAnOutcome, ActsLeaveLiveWorlds, NewWorldsAreLive, RunsOfActsExist, SettlingEnds};
ghost use Rattle.world_sim.specs.GroupExamples.{SomeMemberGivesUp, SomeOffsetIsStored};
ghost use Rattle.world_sim.specs.Exclusivity.{ActsLawfully, Always, BringsHeld, CommitHeld, HoldApart, HoldGranted, ShowGranted, SinceGranted};
ghost use Rattle.world_sim.specs.Invariant.{Keeps};
ghost use Rattle.world_sim.specs.Laws.{OneOutcomeAnAct, OneRunOfActs};
ghost use Rattle.world_sim.specs.StaticExamples.{SomeStaticMemberIsTakenOver};
ghost use Rattle.world_sim.specs.Underway.{RoundsGo, RoundsKeepClients};
ghost use Rattle.world_sim.specs.Viewing.{RepliesAreSpelled};

use coord_node::{one_answer, steps_are_sound};
use group_core::{assignors_are_lawful, heartbeats_have_an_answer};
use group_types::every_group_is_sound;
use kip_msgs::{one_body_a_message, one_reply_a_body, one_request_a_body};
use member_core::{asks_are_made, one_outcome_a_reply};

/// Why Exclusivity and Convergence hold: what every act keeps.
pub fn every_act_keeps_the_invariant()
    ensures { Always Keeps }
{
    one_request_a_body();
    one_reply_a_body();
    steps_are_sound();
    every_group_is_sound();
}

/// No two members of one group hold one partition, and each holds only what its id is granted.
pub fn members_hold_apart()
    ensures apart { Always HoldApart }
    ensures granted { Always HoldGranted }
{
    every_act_keeps_the_invariant();
}

/// A reply of success that a waiting client may still take, and whose id has a record, shows only what the id is granted.
pub fn replies_show_what_is_granted()
    ensures { Always ShowGranted }
{
    every_act_keeps_the_invariant();
}

/// A commit is taken only while all that its maker held has been granted to its id from then on, without a break.
pub fn commits_are_taken_while_held()
    ensures taken { Always CommitHeld }
    ensures since { Always SinceGranted }
    ensures brought { Always BringsHeld }
{
    one_request_a_body();
    one_reply_a_body();
    every_act_keeps_the_invariant();
}

/// Wherever an act renews a group's target, the new one gives each partition that a member subscribes exactly one owner,
/// who subscribes it.
pub fn targets_are_renewed_lawfully()
    ensures { Always ActsLawfully }
{
    assignors_are_lawful();
    every_group_is_sound();
    every_act_keeps_the_invariant();
}

/// Every reply that was ever sent spells a reply to a heartbeat.
pub(crate) fn replies_are_spelled()
    ensures { Always RepliesAreSpelled }
{}

/// An act has one outcome in a world, and leaves one world; and so does a list of acts.
pub fn an_act_has_one_outcome()
    ensures act { OneOutcomeAnAct }
    ensures acts { OneRunOfActs }
{
    one_body_a_message();
    one_request_a_body();
    one_reply_a_body();
    one_answer();
    one_outcome_a_reply();
}

/// An act leaves a live world live.
pub fn acts_leave_live_worlds()
    ensures { ActsLeaveLiveWorlds }
{
    steps_are_sound();
}

/// Whatever acts are done from clients that haven't asked for anything yet, each has its outcome.
pub fn runs_of_acts_exist()
    ensures { RunsOfActsExist }
{
    acts_have_an_outcome();
    acts_leave_live_worlds();
}

/// A new world, of clients whose settings a request can say, is live.
pub fn new_worlds_are_live()
    ensures { NewWorldsAreLive }
{}

/// An act has an outcome in a live world: one whose coordinator serves, whose clients can say what they know, and whose
/// messages are what their pools are for. With `an_act_has_one_outcome` it has exactly one.
pub fn acts_have_an_outcome()
    ensures { ActsHaveAnOutcome }
{
    every_group_is_sound();
    steps_are_sound();
    heartbeats_have_an_answer();
    asks_are_made();
    one_reply_a_body();
}

/// Three rounds in which no message is lost settle everything: each member then owns its target, at the target's epoch.
pub fn three_rounds_settle()
    ensures { Convergence }
{
    one_request_a_body();
    one_reply_a_body();
    steps_are_sound();
    every_group_is_sound();
    every_act_keeps_the_invariant();
}

/// While three rounds are made nothing is refused but a beat that is too large: each client may ask when its turn comes,
/// a beat that was sent is answered by a reply, and its client takes that. No client comes or goes.
pub fn rounds_go_on()
    ensures go { Always RoundsGo }
    ensures clients { Always RoundsKeepClients }
{
    one_request_a_body();
    one_reply_a_body();
    steps_are_sound();
    every_group_is_sound();
    every_act_keeps_the_invariant();
}

/// Where three rounds can be made, and no heartbeat in them is too large, there is a world that they leave, and it has settled.
pub fn settling_ends()
    ensures { SettlingEnds }
{
    acts_have_an_outcome();
    acts_leave_live_worlds();
    rounds_go_on();
    three_rounds_settle();
}

/// The laws aren't empty: in worlds that acts lead to a member holds a partition, two members of one group each hold one,
/// a reply that may be taken shows one, a commit that is taken was made while one was held, one is brought and accepted twice, a
/// target is renewed, a world with a member meets the condition of the three rounds, and three rounds are made in which a member
/// gives up a partition that its target doesn't give it. In one run a static member goes away, another client takes its place over, and
/// a client joins under a former member's id.
pub fn the_laws_are_met()
    ensures holds { SomebodyHolds }
    ensures two_hold { TwoHold }
    ensures shows { SomeReplyShows }
    ensures takes { SomeCommitIsTaken }
    ensures brings { SomeCommitIsBroughtAgain }
    ensures renews { SomeTargetIsRenewed }
    ensures settles { SomeWorldCanSettle }
    ensures moves { SomeRoundsMove }
    ensures takes_over { SomeStaticMemberIsTakenOver }
{}

/// Nor are the laws of one group (`crates/group_types/src/laws.rt`): a member is asked to give up a partition, and by its next beat goes
/// on to the target's epoch; and an offset is committed.
pub fn the_groups_laws_are_met()
    ensures gives_up { SomeMemberGivesUp }
    ensures stores { SomeOffsetIsStored }
{
    every_group_is_sound();
}
