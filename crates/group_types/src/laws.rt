//! Laws of the machine's definitions, proved where nothing runs.
ghost use Rattle.group_types.specs.Assignments.{AssignmentsAreNews};
ghost use Rattle.group_types.specs.CommitCodes.{CommitsAreAnsweredInOrder};
ghost use Rattle.group_types.specs.Deadlines.{ReleasesAreTimed, SessionsLast, TicksTakeTheDue};
ghost use Rattle.group_types.specs.ByHand.{AssignorsByHand, CodesAreTheGuides, MemberOrderByHand, RangeByHand};
ghost use Rattle.group_types.specs.Clocks.{ClocksGoOn};
ghost use Rattle.group_types.specs.EpochRises.{EpochsRiseOnChanges};
ghost use Rattle.group_types.specs.FirstChecks.{HeartbeatsAreCheckedInOrder};
ghost use Rattle.group_types.specs.Fences.{FencesTheLate};
ghost use Rattle.group_types.specs.Given.{RequestsAreStored};
ghost use Rattle.group_types.specs.PreviousEpochs.{PreviousEpochsAreFormer};
ghost use Rattle.group_types.specs.StoredOffsets.{CommitsLookAtTheImage, OffsetsAreTheLast};
ghost use Rattle.group_types.specs.Targets.{TargetsFollowByLawfulAssignors};
ghost use Rattle.group_types.specs.Fencing.{AcceptsOnce, ClosesOnTheOvertaken};
ghost use Rattle.group_types.specs.FormerMembers.{LeaversAreRemembered, TheDueAreRemembered};
ghost use Rattle.group_types.specs.GoingAway.{GoingAwayKeepsPlace};
ghost use Rattle.group_types.specs.Laws.{CommitsAreAtEpoch, CommitsAreSound, EveryGroupIsSound, HeartbeatsAreSound, LeavesAreSound, RefusalsChangeNothing, TicksAreSound};
ghost use Rattle.group_types.specs.Limits.{ConstantsAreTheLimits};
ghost use Rattle.group_types.specs.MemberEpochs.{EpochsRiseWithinTargets};
ghost use Rattle.group_types.specs.TakeOvers.{HeirsHaveAll};

/// Each constant of the code is the literal that the definitions cite.
pub fn constants_are_the_limits()
    ensures { ConstantsAreTheLimits }
{}

/// A connection is closed on exactly the heartbeats that are in order and were overtaken by one of their member.
pub fn closes_on_the_overtaken()
    ensures { ClosesOnTheOvertaken }
{}

/// After an accepted heartbeat none of its member with the same stamp or an earlier one is accepted.
pub fn accepts_once()
    ensures { AcceptsOnce }
{}

/// A heartbeat that is refused with an error changes nothing.
pub fn refusals_change_nothing()
    ensures { RefusalsChangeNothing }
{}

/// A heartbeat leaves a sound group, whatever it is and whatever is answered, where the node's topics are an image's.
pub fn heartbeats_are_sound()
    ensures { HeartbeatsAreSound }
{}

/// Whoever leaves, for good or for a while, leaves a sound group.
pub fn leaves_are_sound()
    ensures { LeavesAreSound }
{}

/// A tick leaves a sound group.
pub fn ticks_are_sound()
    ensures { TicksAreSound }
{}

/// A commit leaves a sound group, and changes nothing but the offsets.
pub fn commits_are_sound()
    ensures { CommitsAreSound }
{}

/// A member's commit is taken at its present epoch alone.
pub fn commits_are_at_epoch()
    ensures { CommitsAreAtEpoch }
{}

/// Whatever came to a group since it was new, it is sound: no two members hold one partition, and its view is of an image, among
/// others.
pub fn every_group_is_sound()
    ensures { EveryGroupIsSound }
{}

/// A static member that goes away for a while keeps what it holds and is to own, and the group its epochs.
pub fn going_away_keeps_place()
    ensures { GoingAwayKeepsPlace }
{}

/// A static member that comes back under another id holds and is to own what the old id did.
pub fn heirs_have_all()
    ensures { HeirsHaveAll }
{}

/// Who leaves is remembered with the stamp by which it left.
pub fn leavers_are_remembered()
    ensures { LeaversAreRemembered }
{}

/// Whom a tick takes from a group is remembered with its last stamp.
pub fn the_due_are_remembered()
    ensures { TheDueAreRemembered }
{}

/// A deadline is due at its moment and not before: a tick takes exactly the members that are due from a group.
pub fn ticks_take_the_due()
    ensures { TicksTakeTheDue }
{}

/// A session lasts from the member's last accepted heartbeat on.
pub fn sessions_last()
    ensures { SessionsLast }
{}

/// A member that is to give up what it lost has its rebalance timeout for it, from when it was first asked.
pub fn releases_are_timed()
    ensures { ReleasesAreTimed }
{}

/// A member epoch rises only where the member has given up all that isn't its target.
pub fn epochs_rise_within_targets()
    ensures { EpochsRiseWithinTargets }
{}

/// An assignment stands in a reply exactly where the heartbeat was full or its member wasn't sent that already.
pub fn assignments_are_news()
    ensures { AssignmentsAreNews }
{}

/// The code of a commit is that of the first reason that applies.
pub fn commits_are_answered_in_order()
    ensures { CommitsAreAnsweredInOrder }
{}

/// A member's previous epoch is the one that it had before its present one.
pub fn previous_epochs_are_former()
    ensures { PreviousEpochsAreFormer }
{}

/// A timeout, topic names, an assignor, a rack and an instance that a request gives are stored with its member, and those that it
/// leaves out stay as they were.
pub fn requests_are_stored()
    ensures { RequestsAreStored }
{}

/// A member that beats is fenced exactly where its heartbeat is at another epoch than its own, or at the one before without
/// a report of granted partitions alone.
pub fn fences_the_late()
    ensures { FencesTheLate }
{}

/// An accepted heartbeat and a tick leave a group's clock at the greater of itself and their moment.
pub fn clocks_go_on()
    ensures { ClocksGoOn }
{}

/// The offset of a place is the last one that was committed for it and answered with no error, whatever else came to the group.
pub fn offsets_are_the_last()
    ensures { OffsetsAreTheLast }
{}

/// A commit is judged by the members and the node's image, and not by the group's view.
pub fn commits_look_at_the_image()
    ensures { CommitsLookAtTheImage }
{}

/// Once a join or a beat was accepted, below the greatest epoch, the view is that of the node's image for the present members and the
/// target is lawful for both, whatever came to the group before; given that the owners under each assignor are lawful.
pub fn targets_follow_by_lawful_assignors()
    ensures { TargetsFollowByLawfulAssignors }
{}

/// A join or a beat raises the group epoch exactly where its member is new or asks for something else, or the view is another one.
pub fn epochs_rise_on_changes()
    ensures { EpochsRiseOnChanges }
{}

/// A heartbeat that is wrong in itself is answered so, whatever the group knows of its member.
pub fn heartbeats_are_checked_in_order()
    ensures { HeartbeatsAreCheckedInOrder }
{}

/// The numbers of the error codes are those of the protocol guide.
pub fn codes_are_the_guides()
    ensures { CodesAreTheGuides }
{}

/// Range, member order and the choice of the assignor come to what was worked out by hand.
pub fn assignors_by_hand()
    ensures range { RangeByHand }
    ensures order { MemberOrderByHand }
    ensures assignor { AssignorsByHand }
{}
