//! Laws of the machine's definitions, proved where nothing runs.
ghost use Rattle.machine_laws.specs.AnsweredCodes.{CodesAreOfTheirRequests};
ghost use Rattle.machine_laws.specs.Codes.{JoinsAreRefusedExactly, UnknownMembersAreTold};
ghost use Rattle.machine_laws.specs.Deadlines.{DeadlinesSaturate};
ghost use Rattle.machine_laws.specs.Ends.{GroupsEnd};
ghost use Rattle.machine_laws.specs.Epochs.{LeavesAndTicksRaise};
ghost use Rattle.machine_laws.specs.Examples.{TheMachinesLawsAreMet};
ghost use Rattle.machine_laws.specs.Former.{FormerMembersStay};
ghost use Rattle.machine_laws.specs.Holdings.{MembersHoldWhatIsFree};
ghost use Rattle.machine_laws.specs.Ids.{IdsAreMadeInOrder};
ghost use Rattle.machine_laws.specs.Limits.{LimitsByHand};
ghost use Rattle.machine_laws.specs.Names.{AssignorsAreNamed, IdsByHand};
ghost use Rattle.machine_laws.specs.OtherMembers.{OthersKeepTheirGrants};
ghost use Rattle.machine_laws.specs.Renewals.{HeartbeatsKeepOwners, RenewalsKeepOwners};
ghost use Rattle.machine_laws.specs.Replies.{RepliesAreThese, TextsByHand};
ghost use Rattle.machine_laws.specs.Requests.{RequestsByReason};
ghost use Rattle.machine_laws.specs.Stamps.{StampsAreOrdered};
ghost use Rattle.machine_laws.specs.TakeOvers.{HeirsAskAsBefore};
ghost use Rattle.machine_laws.specs.Uniform.{UniformByHand};
ghost use Rattle.machine_laws.specs.Views.{ViewsAreOfTheSubscribed};
ghost use Rattle.machine_laws.specs.Whole.{CommitsAreAnsweredWhole, TicksCountWhoGoes};

use uniform_assign::{lawful_and_even_owners_stay, uniform_is_one_spread};

/// A leave raises the group epoch by one, and a tick by one where somebody leaves; a tick at which nobody is due leaves it.
pub fn leaves_and_ticks_raise()
    ensures { LeavesAndTicksRaise }
{}

/// A former member stays remembered until 4,096 others left after it, or it joins.
pub fn former_members_stay()
    ensures { FormerMembersStay }
{}

/// Each field of a refusal, of the reply to a leave, and of an acceptance.
pub fn replies_are_these()
    ensures { RepliesAreThese }
{}

/// The text of each error of a heartbeat.
pub fn texts_by_hand()
    ensures { TextsByHand }
{}

/// A deadline is the sum of its moment and its time, and 2^64 - 1 where the sum is past that.
pub fn deadlines_saturate()
    ensures { DeadlinesSaturate }
{}

/// A static member that comes back under another id asks for what the old id did, but for what its join gives, and raises the group epoch exactly
/// where that is something else.
pub fn heirs_ask_as_before()
    ensures { HeirsAskAsBefore }
{}

/// The reasons of INVALID_REQUEST and of UNSUPPORTED_ASSIGNOR, and when a heartbeat says all, one by one.
pub fn requests_by_reason()
    ensures { RequestsByReason }
{}

/// A join is answered with UNRELEASED_INSTANCE_ID and with GROUP_MAX_SIZE_REACHED for these reasons and for no others.
pub fn joins_are_refused_exactly()
    ensures { JoinsAreRefusedExactly }
{}

/// A heartbeat is answered with UNKNOWN_MEMBER_ID for these reasons and for no others.
pub fn unknown_members_are_told()
    ensures { UnknownMembersAreTold }
{}

/// Under uniform a renewal leaves a target that is lawful and even for the members of now.
pub fn renewals_keep_owners()
    ensures { RenewalsKeepOwners }
{
    lawful_and_even_owners_stay();
}

/// So an accepted join or beat leaves a target that is lawful and even for the members of then, unless it takes another member's place over.
pub fn heartbeats_keep_owners()
    ensures { HeartbeatsKeepOwners }
{
    renewals_keep_owners();
}

/// By a join again or a beat a member that has given up what it lost holds all of its target that nobody else held, and nothing more; any other one
/// holds what it held.
pub fn members_hold_what_is_free()
    ensures { MembersHoldWhatIsFree }
{}

/// A heartbeat leaves to each other member, whether it is away or not, the partitions that it was granted.
pub fn others_keep_their_grants()
    ensures { OthersKeepTheirGrants }
{}

/// Each limit, each time and each member epoch that means something is this number.
pub fn limits_by_hand()
    ensures { LimitsByHand }
{}

/// `range` and `uniform` are the names of the assignors, and no other text is the name of one.
pub fn assignors_are_named()
    ensures { AssignorsAreNamed }
{}

/// The ids that are made of a salt and a serial, for three of them.
pub fn ids_by_hand()
    ensures { IdsByHand }
{}

/// A join without an id gets that of the first serial whose id the group doesn't know. Nothing else uses a serial up.
pub fn ids_are_made_in_order()
    ensures { IdsAreMadeInOrder }
{}

/// The later of two stamps is that of the later connection, and on one connection that of the later frame.
pub fn stamps_are_ordered()
    ensures { StampsAreOrdered }
{}

/// A view has a topic of the image exactly where some member subscribes its name.
pub fn views_are_of_the_subscribed()
    ensures { ViewsAreOfTheSubscribed }
{}

/// A heartbeat and a commit are answered with their own codes alone. A group never answers that it isn't there.
pub fn codes_are_of_their_requests()
    ensures { CodesAreOfTheirRequests }
{}

/// A group answers COORDINATOR_NOT_AVAILABLE for these reasons and for no others.
pub fn groups_end()
    ensures { GroupsEnd }
{}

/// What uniform gives of one topic: of several members with the fewest partitions the first is given one, and of several with the most the first
/// gives its first one away.
pub fn uniform_by_hand()
    ensures { UniformByHand }
{
    uniform_is_one_spread();
}

/// A tick answers how many members it takes.
pub fn ticks_count_who_goes()
    ensures { TicksCountWhoGoes }
{}

/// The reply to a commit has each partition of its request, in the request's order.
pub fn commits_are_answered_whole()
    ensures { CommitsAreAnsweredWhole }
{}

/// These laws aren't empty: a renewal moves a partition, under range and under uniform; a connection is closed on a heartbeat that comes again; and
/// a later one is accepted.
pub fn the_machines_laws_are_met()
    ensures { TheMachinesLawsAreMet }
{}
