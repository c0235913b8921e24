//! Laws of logs and replicas, proved where nothing runs.
ghost use Rattle.coord_replica.specs.Laws.{AllPartsAreTheSnapshot, AnswersAreTheLogs, ClocksFollowTheLog, DeposedLeadersFollow, EveryReplicaCatchesUp, LeadershipsBeginQuietly, LeadersKeepTime, LogsCanBeRestored, LogsNeverFall, LogsServe};
ghost use Rattle.coord_replica.specs.Laws.{LogsWithFewOffsetsCanBeWritten, OneAnswerAPlace, OneStateAPlace, OneStateASnapshot, PartsFollow, ProposalsAreTaken, RemovedWereSilent, ReplicasAreRuns, ReplicasFollowTheLog, RestoredFollowsTheLog, RestoredIsWrittenTheSame, SameEntriesSameReplica, SectionsMakeASnapshot, StampsRise};

use coord_node::{
    coordinators_serve, events_are_answered, one_answer, steps_are_sound, ticks_are_of_all_groups,
};
use group_types::{every_group_is_sound, ticks_take_the_due};
use replica_snapshots::runs_with_few_offsets_can_be_written;

/// A replica that applied a log since its opening has the state, and gave the answers, of the coordinator's run over the events of the
/// entries that were taken.
pub fn replicas_are_runs()
    ensures { ReplicasAreRuns }
{}

/// Replicas that applied the same log are the same: they took the same entries, with the same answers, and passed over the others.
pub fn same_entries_same_replica()
    ensures { SameEntriesSameReplica }
{
    one_answer();
}

/// No log holds a replica up, whatever late appends and other bytes stand in it: it comes to the end of each, and to one state there. Only
/// bytes of a later library's version hold it up.
pub fn every_replica_catches_up()
    ensures { EveryReplicaCatchesUp }
{
    one_answer();
    events_are_answered();
}

/// Whatever log a replica has applied since its opening, its coordinator serves.
pub fn logs_serve()
    ensures { LogsServe }
{
    coordinators_serve();
}

/// A stamp is above all stamps of earlier leaderships.
pub fn stamps_rise_over_leaderships()
    ensures { StampsRise }
{}

/// Along the entries that were taken of a log no leadership falls, and no moment.
pub fn logs_never_fall()
    ensures { LogsNeverFall }
{}

/// What a leader proposed is the next entry of every log of its leadership that has come no further in time: it is not refused.
pub fn proposals_are_taken()
    ensures { ProposalsAreTaken }
{}

/// A replica leads on while no leadership begins, and no longer.
pub fn deposed_leaders_follow()
    ensures { DeposedLeadersFollow }
{}

/// The moments of a leader's proposals go on from the log's. They stand still while nobody leads, and go as fast as the leader's clock, and
/// no faster.
pub fn leaders_keep_time()
    ensures { LeadersKeepTime }
{}

/// The beginning of a leadership changes neither the coordinator nor the moment.
pub fn leaderships_begin_quietly()
    ensures { LeadershipsBeginQuietly }
{}

/// Whatever log a replica has applied since its opening, no group has used a later moment than the log's.
pub fn clocks_follow_the_log()
    ensures { ClocksFollowTheLog }
{
    every_group_is_sound();
    steps_are_sound();
    ticks_are_of_all_groups();
}

/// Whom a leader's tick removes had been silent for the rest of its session while this leader led; or it hadn't given up, in the rest of its
/// rebalance timeout, what it lost.
pub fn removed_members_were_silent()
    ensures { RemovedWereSilent }
{
    ticks_are_of_all_groups();
    ticks_take_the_due();
}

/// Whatever leaders come and go, and whatever is proposed and lost: what a replica has is what a beginning of the log comes to.
pub fn replicas_follow_the_log()
    ensures { ReplicasFollowTheLog }
{}

/// Whatever leaders come and go, replicas that have come to one place are the same: one that leads from there on has all groups as the
/// former leader left them.
pub fn replicas_at_a_place_are_the_same()
    ensures { OneStateAPlace }
{
    one_answer();
}

/// Whatever leaders come and go, every answer that any replica gave for a place of the log is the one that the run over the log gives
/// there.
pub fn answers_are_the_logs()
    ensures { AnswersAreTheLogs }
{}

/// Whatever leaders come and go, no two replicas ever give different answers to one entry.
pub fn one_answer_a_place()
    ensures { OneAnswerAPlace }
{
    one_answer();
}

/// Bytes are the snapshot of at most one state: so what is restored of a snapshot that was written is what it was written of.
pub fn one_state_a_snapshot()
    ensures { OneStateASnapshot }
{}

/// Whatever log a replica has applied since its opening, another is restored of its snapshot, unless memory is short.
pub fn logs_can_be_restored()
    ensures { LogsCanBeRestored }
{}

/// Whatever log a replica has applied since its opening, no part of its snapshot is refused but for want of memory, where no group has
/// more offsets than a count can say.
pub fn logs_with_few_offsets_can_be_written()
    ensures { LogsWithFewOffsetsCanBeWritten }
{
    runs_with_few_offsets_can_be_written();
}

/// All sections of a replica, one behind the other, are its snapshot.
pub fn sections_make_a_snapshot()
    ensures { SectionsMakeASnapshot }
{}

/// One part of a snapshot behind another is a part.
pub fn parts_follow()
    ensures { PartsFollow }
{}

/// All parts of a snapshot, one behind the other, are the snapshot, and no more.
pub fn all_parts_are_the_snapshot()
    ensures { AllPartsAreTheSnapshot }
{}

/// A replica that was restored of a snapshot is written as the bytes that it was read of.
pub fn restored_is_written_the_same()
    ensures { RestoredIsWrittenTheSame }
{}

/// A replica that was restored of a snapshot has the state that the snapshot is of, and doesn't lead.
pub fn restored_follows_the_log()
    ensures { RestoredFollowsTheLog }
{}
