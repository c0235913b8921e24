//! The calls that are for replicas.
ghost use Rattle.std.specs.Prelude.{◌≡◌, ◌≢◌, ◌⊎◌, ◌+◌, ◌≤◌, ◌<◌, [], true, false, IfOk, length, take};
ghost use Rattle.topic_meta.specs.Images.{entries_of};
ghost use Rattle.replica_entries.specs.Spelling.{entry_fields};
ghost use Rattle.replica_entries.specs.Values.{image, tick};
ghost use Rattle.coord_replica.specs.Proposing.{ProposesBytes, begun, frame_proposed, moment_proposed, next_leadership};
ghost use Rattle.coord_replica.specs.Replicas.{log_of, replica_state};
ghost use Rattle.coord_c.specs.Machines.{ForReplicas, is_replica};
ghost use Rattle.coord_c.specs.Reads.{IsPart, IsRefused, IsSnapshotFault, IsUnled, IsUnapplied, TellsApplied, applied_shown, connection_shown, frame_shown, is_applied, replica_fault_shown, snapshot_fault_shown};

use crate::code::{CLOSES, DONE, EMPTY, NO_MEMORY, OUT_OF_PLACE, SHORT};
use crate::embedded::{Embedded, copies, take_bytes};
use crate::machine::Machine;
use coord_node::Answered;
use coord_replica::{Applied, Replica, ReplicaFault, SnapshotFault};
use std::alloc::Global;

impl Embedded {
    /// Writes how many entries were applied, the number of the last leadership, and the greatest moment.
    pub(crate) fn place(&self, applied: &mut u64, leadership: &mut u32, moment: &mut u64) -> i32
        ensures coordinator { is_replica self.now.machine ≡ false
            → (result ≡ EMPTY) × (applied.new ≡ applied.old) × (leadership.new ≡ leadership.old) × (moment.new ≡ moment.old) }
        ensures known { is_replica self.now.machine ≡ true → result ≡ DONE }
        ensures place { ForReplicas self.now.machine self.now.machine (λ r _.
            (applied.new ≡ r.applied) × (leadership.new ≡ r.leadership) × (moment.new ≡ r.moment)) }
    {
        let Machine::Replica(replica) = &self.machine else {
            return EMPTY;
        };
        *applied = replica.place();
        *leadership = replica.leadership();
        *moment = replica.moment().millis();
        DONE
    }

    /// Writes a part of the snapshot, in place of the entry that waits.
    pub(crate) fn snapshot(
        &mut self,
        alloc: Global,
        place: u64,
        from: usize,
        size: usize,
        next: &mut usize,
    ) -> i32
        ensures coordinator { is_replica self.old.machine ≡ false → result ≡ EMPTY }
        ensures known { is_replica self.old.machine ≡ true → result ≢ EMPTY }
        ensures out_of_place { ForReplicas self.old.machine self.new.machine (λ r q. place ≢ r.applied → result ≡ OUT_OF_PLACE) }
        ensures written { ForReplicas self.old.machine self.new.machine (λ r q. result ≡ DONE → IsPart r from size next.new self.new.entry.items) }
        ensures refused { ForReplicas self.old.machine self.new.machine (λ r q. place ≡ r.applied → result ≢ DONE → IsSnapshotFault result) }
        ensures unchanged { result ≢ DONE → (self.new ≡ self.old) × (next.new ≡ next.old) }
        ensures others { (self.new.machine ≡ self.old.machine) × (self.new.replies ≡ self.old.replies) × (self.new.topics ≡ self.old.topics) }
    {
        let Machine::Replica(replica) = &self.machine else {
            return EMPTY;
        };
        if place != replica.place() {
            return OUT_OF_PLACE;
        }
        let mut entry = Vec::new(alloc);
        match part_of(replica, from, size, &mut entry) {
            Ok(behind) => {
                self.entry = entry;
                *next = behind;
                DONE
            }
            Err(fault) => snapshot_code(fault),
        }
    }

    /// Proposes the next leadership.
    pub(crate) fn lead(&mut self, alloc: Global) -> i32
        ensures coordinator { is_replica self.old.machine ≡ false → (result ≡ EMPTY) × (self.new ≡ self.old) }
        ensures proposed { ForReplicas self.old.machine self.new.machine (λ r q. result ≡ DONE → self.new.entry.items ≡ entry_fields (next_leadership (replica_state r))) }
        ensures refused { ForReplicas self.old.machine self.new.machine (λ r q. result ≢ DONE →
            (self.new.entry ≡ self.old.entry) × IsUnled (replica_state r) result) }
        ensures others { (self.new.machine ≡ self.old.machine) × (self.new.replies ≡ self.old.replies) × (self.new.topics ≡ self.old.topics) }
    {
        let Machine::Replica(replica) = &self.machine else {
            return EMPTY;
        };
        let mut entry = Vec::new(alloc);
        match replica.lead(&mut entry) {
            Ok(()) => {
                self.entry = entry;
                DONE
            }
            Err(fault) => fault_code(fault),
        }
    }

    /// Leads from here on.
    pub(crate) fn begin(&mut self, clock: u64) -> i32
        ensures kind { is_replica self.new.machine ≡ is_replica self.old.machine }
        ensures coordinator { is_replica self.old.machine ≡ false → (result ≡ EMPTY) × (self.new ≡ self.old) }
        ensures known { is_replica self.old.machine ≡ true → result ≡ DONE }
        ensures begun { ForReplicas self.old.machine self.new.machine (λ r q. (replica_state q ≡ begun (replica_state r) clock) × (q.node ≡ r.node)) }
        ensures others { (self.new.replies ≡ self.old.replies) × (self.new.topics ≡ self.old.topics) × (self.new.entry ≡ self.old.entry) }
    {
        let Machine::Replica(replica) = &mut self.machine else {
            return EMPTY;
        };
        replica.begin(clock);
        DONE
    }

    /// Proposes a frame.
    pub(crate) fn propose(
        &mut self,
        alloc: Global,
        body: &[u8],
        connection: u32,
        frame: u64,
        clock: u64,
    ) -> i32
        ensures kind { is_replica self.new.machine ≡ is_replica self.old.machine }
        ensures coordinator { is_replica self.old.machine ≡ false → (result ≡ EMPTY) × (self.new ≡ self.old) }
        ensures proposed { ForReplicas self.old.machine self.new.machine (λ r q. result ≡ DONE →
            ProposesBytes (replica_state r) (frame_proposed (replica_state r) clock connection frame body.now) (replica_state q) [] self.new.entry.items) }
        ensures refused { ForReplicas self.old.machine self.new.machine (λ r q. result ≢ DONE →
            (q ≡ r) × (self.new.entry ≡ self.old.entry) × IsRefused (replica_state r) (frame_proposed (replica_state r) clock connection frame body.now) result) }
        ensures node { ForReplicas self.old.machine self.new.machine (λ r q. q.node ≡ r.node) }
        ensures others { (self.new.replies ≡ self.old.replies) × (self.new.topics ≡ self.old.topics) }
    {
        let Machine::Replica(replica) = &mut self.machine else {
            return EMPTY;
        };
        let mut entry = Vec::new(alloc);
        match replica.propose(body, connection, frame, clock, &mut entry) {
            Ok(()) => {
                self.entry = entry;
                DONE
            }
            Err(fault) => fault_code(fault),
        }
    }

    /// Proposes a tick.
    pub(crate) fn propose_tick(&mut self, alloc: Global, clock: u64) -> i32
        ensures kind { is_replica self.new.machine ≡ is_replica self.old.machine }
        ensures coordinator { is_replica self.old.machine ≡ false → (result ≡ EMPTY) × (self.new ≡ self.old) }
        ensures proposed { ForReplicas self.old.machine self.new.machine (λ r q. result ≡ DONE →
            ProposesBytes (replica_state r) (tick (moment_proposed (replica_state r) clock)) (replica_state q) [] self.new.entry.items) }
        ensures refused { ForReplicas self.old.machine self.new.machine (λ r q. result ≢ DONE →
            (q ≡ r) × (self.new.entry ≡ self.old.entry) × IsRefused (replica_state r) (tick (moment_proposed (replica_state r) clock)) result) }
        ensures node { ForReplicas self.old.machine self.new.machine (λ r q. q.node ≡ r.node) }
        ensures others { (self.new.replies ≡ self.old.replies) × (self.new.topics ≡ self.old.topics) }
    {
        let Machine::Replica(replica) = &mut self.machine else {
            return EMPTY;
        };
        let mut entry = Vec::new(alloc);
        match replica.propose_tick(clock, &mut entry) {
            Ok(()) => {
                self.entry = entry;
                DONE
            }
            Err(fault) => fault_code(fault),
        }
    }

    /// Proposes the topics that were added. They are gone then; where memory is short they stay.
    pub(crate) fn propose_topics(&mut self, alloc: Global) -> i32
        ensures kind { is_replica self.new.machine ≡ is_replica self.old.machine }
        ensures coordinator { is_replica self.old.machine ≡ false → (result ≡ EMPTY) × (self.new ≡ self.old) }
        ensures proposed { ForReplicas self.old.machine self.new.machine (λ r q. result ≡ DONE →
            ProposesBytes (replica_state r) (image (entries_of self.old.topics.items)) (replica_state q) [] self.new.entry.items) }
        ensures refused { ForReplicas self.old.machine self.new.machine (λ r q. result ≢ DONE →
            (q ≡ r) × (self.new.entry ≡ self.old.entry) × ((result ≡ NO_MEMORY) ⊎ IsRefused (replica_state r) (image (entries_of self.old.topics.items)) result)) }
        ensures node { ForReplicas self.old.machine self.new.machine (λ r q. q.node ≡ r.node) }
        ensures gone { is_replica self.old.machine ≡ true → result ≢ NO_MEMORY → self.new.topics.items ≡ [] }
        ensures no_memory { result ≡ NO_MEMORY → self.new.topics.items ≡ self.old.topics.items }
        ensures replies { self.new.replies ≡ self.old.replies }
    {
        let Machine::Replica(replica) = &mut self.machine else {
            return EMPTY;
        };
        let Ok(topics) = copies(alloc, self.topics.as_slice()) else {
            return NO_MEMORY;
        };
        let mut entry = Vec::new(alloc);
        match replica.propose_topics(topics, &mut entry) {
            Ok(()) => {
                self.entry = entry;
                self.topics.clear();
                DONE
            }
            Err(fault) => self.keep_or_forget(fault_code(fault)),
        }
    }

    /// Moves the entry that was proposed last into a buffer, where it has room for it, and says how many bytes it has.
    pub(crate) fn take_entry(&mut self, to: &mut [u8], size: &mut usize) -> i32
        ensures coordinator { is_replica self.old.machine ≡ false → (result ≡ EMPTY) × (self.new ≡ self.old) × (to.new ≡ to.old) × (size.new ≡ size.old) }
        ensures size { is_replica self.old.machine ≡ true → size.new ≡ length self.old.entry.items }
        ensures taken { is_replica self.old.machine ≡ true → length self.old.entry.items ≤ length to.old
            → (result ≡ DONE) × (take size.new to.new ≡ self.old.entry.items) × (self.new.entry.items ≡ []) }
        ensures short { is_replica self.old.machine ≡ true → length to.old < length self.old.entry.items
            → (result ≡ SHORT) × (to.new ≡ to.old) × (self.new.entry.items ≡ self.old.entry.items) }
        ensures others { (self.new.machine ≡ self.old.machine) × (self.new.replies ≡ self.old.replies) × (self.new.topics ≡ self.old.topics) }
    {
        let Machine::Replica(_) = &self.machine else {
            return EMPTY;
        };
        take_bytes(&mut self.entry, to, size)
    }

    /// Applies a place of the log, and writes the present leadership, the number of a frame's connection, and its own number on the
    /// connection; of a tick how many members it removed.
    pub(crate) fn apply(
        &mut self,
        place: u64,
        entry: &[u8],
        leadership: &mut u32,
        connection: &mut u32,
        frame: &mut u64,
    ) -> i32
        ensures kind { is_replica self.new.machine ≡ is_replica self.old.machine }
        ensures coordinator { is_replica self.old.machine ≡ false → (result ≡ EMPTY) × (self.new ≡ self.old) }
        ensures applied { ForReplicas self.old.machine self.new.machine (λ r q. is_applied result ≡ true →
            (place ≡ r.applied + 1) × TellsApplied (replica_state r) entry.now (replica_state q) self.old.replies.items self.new.replies.items
            (record { code = result; leadership = leadership.new; connection = connection.new; frame = frame.new })) }
        ensures refused { ForReplicas self.old.machine self.new.machine (λ r q. is_applied result ≡ false →
            (q ≡ r) × (self.new.replies.items ≡ self.old.replies.items) × IsUnapplied (log_of r) place entry.now result) }
        ensures unchanged { is_applied result ≡ false → (leadership.new ≡ leadership.old) × (connection.new ≡ connection.old) × (frame.new ≡ frame.old) }
        ensures others { (self.new.topics ≡ self.old.topics) × (self.new.entry ≡ self.old.entry) }
    {
        let Machine::Replica(replica) = &mut self.machine else {
            return EMPTY;
        };
        match replica.apply(place, entry, &mut self.replies) {
            Ok(applied) => {
                *leadership = replica.leadership();
                *connection = connection_of(applied);
                *frame = frame_of(applied);
                applied_code(applied)
            }
            Err(fault) => fault_code(fault),
        }
    }
}

/// The code of a place that was applied: of one that was passed over that of the fault.
fn applied_code(applied: Applied) -> i32
    ensures { result ≡ applied_shown applied }
{
    match applied {
        Applied::Frame {
            answered: Answered::Closes,
            ..
        } => CLOSES,
        Applied::PassedOver { fault } => fault_code(fault),
        _ => DONE,
    }
}

/// The number of a frame's connection.
fn connection_of(applied: Applied) -> u32
    ensures { result ≡ connection_shown applied }
{
    match applied {
        Applied::Frame { connection, .. } => connection,
        _ => 0,
    }
}

/// The number of a frame, or how many members a tick removed.
fn frame_of(applied: Applied) -> u64
    ensures { result ≡ frame_shown applied }
{
    match applied {
        Applied::Frame { number, .. } => number,
        Applied::Tick { removed } => removed as u64,
        _ => 0,
    }
}

/// The code of a fault.
fn fault_code(fault: ReplicaFault) -> i32
    ensures { result ≡ replica_fault_shown fault }
{
    match fault {
        ReplicaFault::NoMemory => NO_MEMORY,
        other => i32::from(other.number()),
    }
}

/// Appends a part of a replica's snapshot, and gives the number of the next section.
fn part_of(
    replica: &Replica,
    from: usize,
    size: usize,
    out: &mut Vec<u8>,
) -> Result<usize, SnapshotFault>
    requires { out.old.items ≡ [] }
    ensures { IfOk result (λ next. IsPart replica.now from size next out.new.items) }
{
    let snapshot = replica.snapshot()?;
    snapshot.put(from, size, out)
}

/// The code of a snapshot's fault.
pub(crate) fn snapshot_code(fault: SnapshotFault) -> i32
    ensures { result ≡ snapshot_fault_shown fault }
{
    match fault {
        SnapshotFault::NoMemory => NO_MEMORY,
        other => 30 + i32::from(other.number()),
    }
}

/// The byte that a snapshot's fault is at, 0 where it is at none.
pub(crate) fn place_of_fault(fault: SnapshotFault) -> usize {
    fault.place().unwrap_or(0)
}
