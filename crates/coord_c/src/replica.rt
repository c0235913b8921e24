//! The functions for replicas, and the one that makes them.
ghost use Rattle.std.specs.Prelude.{◌≡◌, ◌≢◌, ◌⊎◌, ◌+◌, ◌≤◌, ◌<◌, [], true, false, None, length, take};
ghost use Rattle.topic_meta.specs.Images.{entries_of};
ghost use Rattle.replica_entries.specs.Spelling.{entry_fields};
ghost use Rattle.replica_entries.specs.Values.{image, tick};
ghost use Rattle.coord_replica.specs.Proposing.{ProposesBytes, begun, frame_proposed, moment_proposed, next_leadership};
ghost use Rattle.coord_node.specs.Nodes.{coordinator_of};
ghost use Rattle.coord_replica.specs.Replicas.{log_of, replica_state, value_opening};
ghost use Rattle.coord_replica.specs.Snapshots.{FitsSnapshot, SnapshotValue, restored, snapshot_fields};
ghost use Rattle.replica_snapshots.specs.Restoring.{CanBeNode};
ghost use Rattle.coord_c.specs.Reads.{IsPart, IsRefused, IsSnapshotFault, IsUnapplied, IsUnled, TellsApplied, is_applied};
ghost use Rattle.coord_c.specs.Slots.{in_slot, IsFull, Has, HasReplica, Becomes, BecomesReplica};

use crate::code::{DONE, EMPTY, FULL, NO_MEMORY, OUT_OF_PLACE, SHORT};
use crate::fill;
use crate::keys::Keys;
use crate::machine::Machine;
use crate::replicated::{place_of_fault, snapshot_code};
use crate::slot::Slot;
use coord_replica::Replica;
use std::alloc::Global;
use std::collections::hash_map::RandomState;

/// Makes a replica in an empty slot. The salt is that of all replicas of its log; its tables are keyed by the random bytes.
#[unsafe(no_mangle)]
pub extern "C" fn migwelun_make_replica(
    slot: &mut Slot,
    alloc: Global,
    salt: u64,
    keys: &[u8; 16],
) -> i32
    ensures full { IsFull slot.old → (result ≡ FULL) × (in_slot slot.new ≡ in_slot slot.old) }
    ensures made { result ≡ DONE → IsFull slot.new }
    ensures opening { result ≡ DONE → Has slot.new (λ y. (y.machine ≡ Machine.Replica (value_opening salt)) × (y.replies.items ≡ [])
        × (y.topics.items ≡ []) × (y.entry.items ≡ [])) }
    ensures no_memory { result ≡ NO_MEMORY → in_slot slot.new ≡ None }
    ensures known { (result ≡ DONE) ⊎ ((result ≡ NO_MEMORY) ⊎ (result ≡ FULL)) }
{
    if slot.is_full() {
        return FULL;
    }
    let Ok(hasher) = RandomState::new(&Keys { bytes: keys }) else {
        return NO_MEMORY;
    };
    fill(
        slot,
        alloc,
        Machine::Replica(Replica::new(alloc, salt, hasher)),
    )
}

/// Makes a replica in an empty slot of a snapshot's bytes: it has applied what the one had that they were written of, and doesn't lead.
/// Its own snapshot has the same bytes, until it applies an entry. A snapshot that was written is never refused but for want of memory.
/// Writes the place of the byte that a fault is at.
#[unsafe(no_mangle)]
pub extern "C" fn migwelun_restore(
    slot: &mut Slot,
    alloc: Global,
    snapshot: &[u8],
    keys: &[u8; 16],
    at: &mut usize,
) -> i32
    ensures full { IsFull slot.old → (result ≡ FULL) × (in_slot slot.new ≡ in_slot slot.old) }
    ensures made { result ≡ DONE → IsFull slot.new }
    ensures found { result ≡ DONE → Has slot.new (λ y. (v : SnapshotValue) × FitsSnapshot v × (snapshot.now ≡ snapshot_fields v)
        × (y.machine ≡ Machine.Replica (restored v))) }
    ensures replica { result ≡ DONE → HasReplica slot.new }
    ensures only { (v : SnapshotValue) → FitsSnapshot v → snapshot.now ≡ snapshot_fields v → result ≡ DONE
        → Has slot.new (λ y. y.machine ≡ Machine.Replica (restored v)) }
    ensures nothing_waits { result ≡ DONE → Has slot.new (λ y. (y.replies.items ≡ []) × (y.topics.items ≡ []) × (y.entry.items ≡ [])) }
    ensures whole { (v : SnapshotValue) → FitsSnapshot v → CanBeNode (coordinator_of v.node) → snapshot.now ≡ snapshot_fields v
        → ¬ IsFull slot.old → result ≢ DONE → result ≡ NO_MEMORY }
    ensures refused { ¬ IsFull slot.old → result ≢ DONE → (in_slot slot.new ≡ None) × IsSnapshotFault result }
    ensures at { result ≡ DONE → at.new ≡ at.old }
{
    if slot.is_full() {
        return FULL;
    }
    let Ok(hasher) = RandomState::new(&Keys { bytes: keys }) else {
        return NO_MEMORY;
    };
    match Replica::restore(alloc, hasher, snapshot) {
        Ok(replica) => fill(slot, alloc, Machine::Replica(replica)),
        Err(fault) => {
            *at = place_of_fault(fault);
            snapshot_code(fault)
        }
    }
}

/// Writes a part of a replica's snapshot, if it has applied so many entries: sections from one number on, until there are `size` bytes of
/// them or none is left. All parts, one behind the other, are the snapshot: the same bytes, wherever one part ends and the next begins. It
/// waits for [`migwelun_take_entry`]. Writes the number of the next section.
#[unsafe(no_mangle)]
pub extern "C" fn migwelun_snapshot(
    slot: &mut Slot,
    alloc: Global,
    place: u64,
    from: usize,
    size: usize,
    next: &mut usize,
) -> i32
    ensures empty { ¬ HasReplica slot.old → (result ≡ EMPTY) × (in_slot slot.new ≡ in_slot slot.old) × (next.new ≡ next.old) }
    ensures full { HasReplica slot.old → HasReplica slot.new × (result ≢ EMPTY) }
    ensures out_of_place { BecomesReplica slot.old slot.new (λ x y r q. place ≢ r.applied → result ≡ OUT_OF_PLACE) }
    ensures written { BecomesReplica slot.old slot.new (λ x y r q. result ≡ DONE → IsPart r from size next.new y.entry.items) }
    ensures refused { BecomesReplica slot.old slot.new (λ x y r q. place ≡ r.applied → result ≢ DONE → IsSnapshotFault result) }
    ensures unchanged { result ≢ DONE → (in_slot slot.new ≡ in_slot slot.old) × (next.new ≡ next.old) }
    ensures others { Becomes slot.old slot.new (λ x y. (y.machine ≡ x.machine) × (y.replies ≡ x.replies) × (y.topics ≡ x.topics)) }
{
    let Some(mut embedded) = slot.take(alloc) else {
        return EMPTY;
    };
    let code = embedded.snapshot(alloc, place, from, size, next);
    slot.put(embedded);
    code
}

/// Writes how many entries a replica has applied, the number of the last leadership that began, and the greatest moment.
#[unsafe(no_mangle)]
pub extern "C" fn migwelun_place(
    slot: &mut Slot,
    alloc: Global,
    applied: &mut u64,
    leadership: &mut u32,
    moment: &mut u64,
) -> i32
    ensures empty { ¬ HasReplica slot.old → (result ≡ EMPTY) × (applied.new ≡ applied.old) × (leadership.new ≡ leadership.old) × (moment.new ≡ moment.old) }
    ensures known { HasReplica slot.old → result ≡ DONE }
    ensures unchanged { in_slot slot.new ≡ in_slot slot.old }
    ensures place { BecomesReplica slot.old slot.new (λ x y r q.
        (applied.new ≡ r.applied) × (leadership.new ≡ r.leadership) × (moment.new ≡ r.moment)) }
{
    let Some(embedded) = slot.take(alloc) else {
        return EMPTY;
    };
    let code = embedded.place(applied, leadership, moment);
    slot.put(embedded);
    code
}

/// Proposes the entry by which the next leadership begins: it waits for [`migwelun_take_entry`].
#[unsafe(no_mangle)]
pub extern "C" fn migwelun_lead(slot: &mut Slot, alloc: Global) -> i32
    ensures empty { ¬ HasReplica slot.old → (result ≡ EMPTY) × (in_slot slot.new ≡ in_slot slot.old) }
    ensures full { HasReplica slot.old → HasReplica slot.new × (result ≢ EMPTY) }
    ensures proposed { BecomesReplica slot.old slot.new (λ x y r q. result ≡ DONE → y.entry.items ≡ entry_fields (next_leadership (replica_state r))) }
    ensures refused { BecomesReplica slot.old slot.new (λ x y r q. result ≢ DONE → (y.entry ≡ x.entry) × IsUnled (replica_state r) result) }
    ensures others { Becomes slot.old slot.new (λ x y. (y.machine ≡ x.machine) × (y.replies ≡ x.replies) × (y.topics ≡ x.topics)) }
{
    let Some(mut embedded) = slot.take(alloc) else {
        return EMPTY;
    };
    let code = embedded.lead(alloc);
    slot.put(embedded);
    code
}

/// Leads under the present leadership from here on: a replica whose own entry of it was applied.
#[unsafe(no_mangle)]
pub extern "C" fn migwelun_begin(slot: &mut Slot, alloc: Global, clock: u64) -> i32
    ensures empty { ¬ HasReplica slot.old → (result ≡ EMPTY) × (in_slot slot.new ≡ in_slot slot.old) }
    ensures full { HasReplica slot.old → HasReplica slot.new × (result ≡ DONE) }
    ensures begun { BecomesReplica slot.old slot.new (λ x y r q. (replica_state q ≡ begun (replica_state r) clock) × (q.node ≡ r.node)) }
    ensures others { Becomes slot.old slot.new (λ x y. (y.replies ≡ x.replies) × (y.topics ≡ x.topics) × (y.entry ≡ x.entry)) }
{
    let Some(mut embedded) = slot.take(alloc) else {
        return EMPTY;
    };
    let code = embedded.begin(clock);
    slot.put(embedded);
    code
}

/// Proposes the entry of a frame that came to this leader: it waits for [`migwelun_take_entry`].
#[unsafe(no_mangle)]
pub extern "C" fn migwelun_propose(
    slot: &mut Slot,
    alloc: Global,
    body: &[u8],
    connection: u32,
    frame: u64,
    clock: u64,
) -> i32
    ensures empty { ¬ HasReplica slot.old → (result ≡ EMPTY) × (in_slot slot.new ≡ in_slot slot.old) }
    ensures full { HasReplica slot.old → HasReplica slot.new × (result ≢ EMPTY) }
    ensures proposed { BecomesReplica slot.old slot.new (λ x y r q. result ≡ DONE →
        ProposesBytes (replica_state r) (frame_proposed (replica_state r) clock connection frame body.now) (replica_state q) [] y.entry.items) }
    ensures refused { BecomesReplica slot.old slot.new (λ x y r q. result ≢ DONE →
        (q ≡ r) × (y.entry ≡ x.entry) × IsRefused (replica_state r) (frame_proposed (replica_state r) clock connection frame body.now) result) }
    ensures node { BecomesReplica slot.old slot.new (λ x y r q. q.node ≡ r.node) }
    ensures others { Becomes slot.old slot.new (λ x y. (y.replies ≡ x.replies) × (y.topics ≡ x.topics)) }
{
    let Some(mut embedded) = slot.take(alloc) else {
        return EMPTY;
    };
    let code = embedded.propose(alloc, body, connection, frame, clock);
    slot.put(embedded);
    code
}

/// Proposes the entry of a tick: it waits for [`migwelun_take_entry`].
#[unsafe(no_mangle)]
pub extern "C" fn migwelun_propose_tick(slot: &mut Slot, alloc: Global, clock: u64) -> i32
    ensures empty { ¬ HasReplica slot.old → (result ≡ EMPTY) × (in_slot slot.new ≡ in_slot slot.old) }
    ensures full { HasReplica slot.old → HasReplica slot.new × (result ≢ EMPTY) }
    ensures proposed { BecomesReplica slot.old slot.new (λ x y r q. result ≡ DONE →
        ProposesBytes (replica_state r) (tick (moment_proposed (replica_state r) clock)) (replica_state q) [] y.entry.items) }
    ensures refused { BecomesReplica slot.old slot.new (λ x y r q. result ≢ DONE →
        (q ≡ r) × (y.entry ≡ x.entry) × IsRefused (replica_state r) (tick (moment_proposed (replica_state r) clock)) result) }
    ensures node { BecomesReplica slot.old slot.new (λ x y r q. q.node ≡ r.node) }
    ensures others { Becomes slot.old slot.new (λ x y. (y.replies ≡ x.replies) × (y.topics ≡ x.topics)) }
{
    let Some(mut embedded) = slot.take(alloc) else {
        return EMPTY;
    };
    let code = embedded.propose_tick(alloc, clock);
    slot.put(embedded);
    code
}

/// Proposes the entry of the topics that were added: it waits for [`migwelun_take_entry`]. The topics are gone then; where memory is short
/// they stay.
#[unsafe(no_mangle)]
pub extern "C" fn migwelun_propose_topics(slot: &mut Slot, alloc: Global) -> i32
    ensures empty { ¬ HasReplica slot.old → (result ≡ EMPTY) × (in_slot slot.new ≡ in_slot slot.old) }
    ensures full { HasReplica slot.old → HasReplica slot.new × (result ≢ EMPTY) }
    ensures proposed { BecomesReplica slot.old slot.new (λ x y r q. result ≡ DONE →
        ProposesBytes (replica_state r) (image (entries_of x.topics.items)) (replica_state q) [] y.entry.items) }
    ensures refused { BecomesReplica slot.old slot.new (λ x y r q. result ≢ DONE →
        (q ≡ r) × (y.entry ≡ x.entry) × ((result ≡ NO_MEMORY) ⊎ IsRefused (replica_state r) (image (entries_of x.topics.items)) result)) }
    ensures node { BecomesReplica slot.old slot.new (λ x y r q. q.node ≡ r.node) }
    ensures gone { HasReplica slot.old → Becomes slot.old slot.new (λ x y. result ≢ NO_MEMORY → y.topics.items ≡ []) }
    ensures no_memory { Becomes slot.old slot.new (λ x y. result ≡ NO_MEMORY → y.topics.items ≡ x.topics.items) }
    ensures replies { Becomes slot.old slot.new (λ x y. y.replies ≡ x.replies) }
{
    let Some(mut embedded) = slot.take(alloc) else {
        return EMPTY;
    };
    let code = embedded.propose_topics(alloc);
    slot.put(embedded);
    code
}

/// Moves the entry that was proposed last into a buffer, where it has room for it, and says how many bytes it has.
#[unsafe(no_mangle)]
pub extern "C" fn migwelun_take_entry(
    slot: &mut Slot,
    alloc: Global,
    to: &mut [u8],
    size: &mut usize,
) -> i32
    ensures empty { ¬ HasReplica slot.old → (result ≡ EMPTY) × (to.new ≡ to.old) × (size.new ≡ size.old) × (in_slot slot.new ≡ in_slot slot.old) }
    ensures full { HasReplica slot.old → HasReplica slot.new }
    ensures size { HasReplica slot.old → Has slot.old (λ x. size.new ≡ length x.entry.items) }
    ensures taken { HasReplica slot.old → Becomes slot.old slot.new (λ x y. length x.entry.items ≤ length to.old →
        (result ≡ DONE) × (take size.new to.new ≡ x.entry.items) × (y.entry.items ≡ [])) }
    ensures short { HasReplica slot.old → Becomes slot.old slot.new (λ x y. length to.old < length x.entry.items →
        (result ≡ SHORT) × (to.new ≡ to.old) × (y.entry.items ≡ x.entry.items)) }
    ensures others { Becomes slot.old slot.new (λ x y. (y.machine ≡ x.machine) × (y.replies ≡ x.replies) × (y.topics ≡ x.topics)) }
{
    let Some(mut embedded) = slot.take(alloc) else {
        return EMPTY;
    };
    let code = embedded.take_entry(to, size);
    slot.put(embedded);
    code
}

/// Applies a place of the log; the frame of a reply waits for [`migwelun_take`]. Writes the present leadership, the number of a frame's
/// connection, and that of the frame on it; of a tick how many members it removed. An entry that is refused is passed over: its place is
/// applied, and the code says why.
#[unsafe(no_mangle)]
pub extern "C" fn migwelun_apply(
    slot: &mut Slot,
    alloc: Global,
    place: u64,
    entry: &[u8],
    leadership: &mut u32,
    connection: &mut u32,
    frame: &mut u64,
) -> i32
    ensures empty { ¬ HasReplica slot.old → (result ≡ EMPTY) × (in_slot slot.new ≡ in_slot slot.old) }
    ensures full { HasReplica slot.old → HasReplica slot.new × (result ≢ EMPTY) }
    ensures applied { BecomesReplica slot.old slot.new (λ x y r q. is_applied result ≡ true →
        (place ≡ r.applied + 1) × TellsApplied (replica_state r) entry.now (replica_state q) x.replies.items y.replies.items
        (record { code = result; leadership = leadership.new; connection = connection.new; frame = frame.new })) }
    ensures refused { BecomesReplica slot.old slot.new (λ x y r q. is_applied result ≡ false →
        (q ≡ r) × (y.replies.items ≡ x.replies.items) × IsUnapplied (log_of r) place entry.now result) }
    ensures unchanged { is_applied result ≡ false → (leadership.new ≡ leadership.old) × (connection.new ≡ connection.old) × (frame.new ≡ frame.old) }
    ensures others { Becomes slot.old slot.new (λ x y. (y.topics ≡ x.topics) × (y.entry ≡ x.entry)) }
{
    let Some(mut embedded) = slot.take(alloc) else {
        return EMPTY;
    };
    let code = embedded.apply(place, entry, leadership, connection, frame);
    slot.put(embedded);
    code
}
