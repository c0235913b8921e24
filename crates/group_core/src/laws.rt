//! Laws of the group's machine, proved where nothing runs.

ghost use Rattle.group_core.specs.Existence.{HasAnAnswer, TargetsExist};
ghost use Rattle.group_types.specs.Targets.{AssignorsAreLawful, TargetsFollowMembers};
ghost use Rattle.group_core.specs.Laws.{FirstJoinsAreAnswered, HasOneAnswer, RenamingMayComeLast};

use group_types::targets_follow_by_lawful_assignors;
use range_assign::range_is_lawful;
use uniform_assign::uniform_is_lawful;

/// A heartbeat has one answer in a group, and leaves one group.
pub fn heartbeats_have_one_answer()
    ensures { HasOneAnswer }
{}

/// There is a target over the topics of an image, whatever the members, the assignor that they ask for and the former owners.
pub fn targets_exist()
    ensures { TargetsExist }
{}

/// A heartbeat has an answer in every group: together with `heartbeats_have_one_answer` exactly one. Of the stored view and
/// the node's image it is asked that they are of the topics of an image.
pub fn heartbeats_have_an_answer()
    ensures { HasAnAnswer }
{}

/// A join of a group that nobody has joined, under no member id and no instance id, is answered and never closes: it is
/// refused exactly by the checks of its request and where the epoch is the greatest, and else the first member gets all
/// that it subscribes, at the next epoch.
pub fn first_joins_are_answered()
    ensures { FirstJoinsAreAnswered }
{}

/// A take-over comes to the same whether its member is renamed first, as in the machine's definition (KIP-848, "Static
/// Membership"), or last, as here. That no two members of a group have one instance is what it rests on.
pub fn renaming_may_come_last()
    ensures { RenamingMayComeLast }
{}

/// The owners under each assignor are lawful: each partition that some member subscribes has exactly one owner, who subscribes it, and
/// nothing else is owned.
pub fn assignors_are_lawful()
    ensures { AssignorsAreLawful }
{
    range_is_lawful();
    uniform_is_lawful();
}

/// Whatever came to a group: once a join or a beat was accepted, below the greatest epoch, its view is that of the node's image for the
/// present members, and its target is lawful for both.
pub fn targets_follow_members()
    ensures { TargetsFollowMembers }
{
    assignors_are_lawful();
    targets_follow_by_lawful_assignors();
}
