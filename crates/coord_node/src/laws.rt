//! Laws of the coordinator's steps, proved where nothing runs.
ghost use Rattle.coord_node.specs.EachGroup.{GroupsAreMadeBySuccess, TicksAreOfAllGroups};
ghost use Rattle.coord_node.specs.Existence.{CoordinatorsServe, EventsAreAnswered, RunsAreAnswered};
ghost use Rattle.coord_node.specs.Laws.{AnswersFirstJoins, GroupsAreSound, OneAnswer, RepliesFit, StepsAreSound};
ghost use Rattle.coord_node.specs.Steps.{Step};

use group_core::{heartbeats_have_an_answer, heartbeats_have_one_answer};
use group_types::{commits_are_sound, every_group_is_sound, heartbeats_are_sound, ticks_are_sound};
use kip_msgs::one_request_a_body;

/// An event has one answer at a node, and leaves one node.
pub fn one_answer()
    ensures { OneAnswer }
{
    one_request_a_body();
    heartbeats_have_one_answer();
}

/// A join with no member id and no instance id is answered and never closes, whether its group isn't there or is a sound
/// one.
pub fn path_is_answered()
    ensures { AnswersFirstJoins Step }
{
    one_request_a_body();
}

/// The frame of a reply is never longer than the bytes that are reserved for it before its step.
pub fn replies_fit()
    ensures { RepliesFit }
{}

/// An event leaves a coordinator that serves where there was one: its groups are sound, and its topics are an image's.
pub fn steps_are_sound()
    ensures { StepsAreSound Step }
{
    every_group_is_sound();
    heartbeats_are_sound();
    ticks_are_sound();
    commits_are_sound();
}

/// Whatever came to a coordinator since its opening, each of its groups is sound: in none do two members hold one
/// partition, among others.
pub fn groups_are_sound()
    ensures { GroupsAreSound Step }
{
    steps_are_sound();
}

/// Whatever comes to a coordinator that serves is answered, and it serves on; with `one_answer` exactly one answer. Bodies are of
/// bytes, and images have an image's topics.
pub fn events_are_answered()
    ensures { EventsAreAnswered }
{
    heartbeats_have_an_answer();
    every_group_is_sound();
    steps_are_sound();
}

/// Whatever comes to a coordinator since its opening, each event has its answer.
pub fn runs_are_answered()
    ensures { RunsAreAnswered }
{
    events_are_answered();
}

/// Whatever came to a coordinator since its opening, it serves.
pub fn coordinators_serve()
    ensures { CoordinatorsServe }
{
    steps_are_sound();
}

/// A node's tick is a tick of each of its groups, and it answers how many members they lost together.
pub fn ticks_are_of_all_groups()
    ensures { TicksAreOfAllGroups Step }
{}

/// A group that isn't there is there after a heartbeat exactly where that is answered with no error.
pub fn groups_are_made_by_success()
    ensures { GroupsAreMadeBySuccess }
{}
