//! A coordinator or a replica for C, in a slot that C owns.
//!
//! Each function says over what lies at its pointers what [`coord_node::Node`] or [`coord_replica::Replica`] says of the call that it
//! makes; those for replicas are in `replica.rt`. The header
//! `include/migwelun.h` has them for C. C gives each slot to one call at a time, and neither reads nor writes what is in it.
#![tactic(auto)]

ghost use Rattle.std.specs.Prelude.{◌≡◌, ◌≢◌, ◌⊎◌, ◌≤◌, ◌<◌, ◌++◌, ◌∷◌, [], Some, None, IfSome, IsUtf8, length, take};
ghost use Rattle.std.specs.FinMap as finite;
ghost use Rattle.topic_meta.specs.Images.{entries_of, first_fault, topics_of};
ghost use Rattle.coord_node.specs.Answers.{Answers, ClosesAtOnce};
ghost use Rattle.coord_node.specs.Coordinator.{Done, Frame, Tick, committed_at, is_remembered_at};
ghost use Rattle.coord_node.specs.Nodes.{node_opening};
ghost use Rattle.coord_node.specs.Steps.{Step};
ghost use Rattle.coord_c.specs.Machines.{coordinator_of};
ghost use Rattle.coord_c.specs.Reads.{ShowsCommitted, epochs_shown, fault_shown, size_shown, yes_or_no};
ghost use Rattle.coord_c.specs.Slots.{in_slot, IsFull, Has, HasCoordinator, Becomes};

mod code;
mod embedded;
mod handle;
mod keys;
mod loose;
mod machine;
mod replica;
mod replicated;
mod slot;

use crate::code::{
    CLOSES, DONE, EMPTY, FULL, NO, NO_MEMBER, NO_MEMORY, NO_OFFSET, NOT_TEXT, SHORT, YES,
};
use crate::embedded::Embedded;
use crate::keys::Keys;
use crate::machine::Machine;
pub use crate::replica::{
    migwelun_apply, migwelun_begin, migwelun_lead, migwelun_make_replica, migwelun_place,
    migwelun_propose, migwelun_propose_tick, migwelun_propose_topics, migwelun_restore,
    migwelun_snapshot, migwelun_take_entry,
};
pub use crate::slot::Slot;
use coord_node::{Answered, Moment, Node, Stamp};
use std::alloc::Global;
use std::collections::hash_map::RandomState;

/// Makes a coordinator in an empty slot. The salt is the first half of the ids that it makes; its tables are keyed by the random
/// bytes.
#[unsafe(no_mangle)]
pub extern "C" fn migwelun_make(slot: &mut Slot, alloc: Global, salt: u64, keys: &[u8; 16]) -> i32
    ensures full { IsFull slot.old → (result ≡ FULL) × (in_slot slot.new ≡ in_slot slot.old) }
    ensures made { result ≡ DONE → IsFull slot.new }
    ensures opening { result ≡ DONE → Has slot.new (λ y. (y.machine ≡ Machine.Coordinator (node_opening salt)) × (y.replies.items ≡ []) × (y.topics.items ≡ [])) }
    ensures no_memory { result ≡ NO_MEMORY → in_slot slot.new ≡ None }
    ensures known { (result ≡ DONE) ⊎ ((result ≡ NO_MEMORY) ⊎ (result ≡ FULL)) }
{
    if slot.is_full() {
        return FULL;
    }
    let Ok(hasher) = RandomState::new(&Keys { bytes: keys }) else {
        return NO_MEMORY;
    };
    fill(
        slot,
        alloc,
        Machine::Coordinator(Node::new(alloc, salt, hasher)),
    )
}

/// Puts a coordinator or a replica into an empty slot.
pub(crate) fn fill(slot: &mut Slot, alloc: Global, machine: Machine) -> i32
    requires { in_slot slot.old ≡ None }
    ensures filled { result ≡ DONE → IsFull slot.new }
    ensures content { result ≡ DONE → Has slot.new (λ y. (y.machine ≡ machine) × (y.replies.items ≡ []) × (y.topics.items ≡ []) × (y.entry.items ≡ [])) }
    ensures no_memory { result ≡ NO_MEMORY → in_slot slot.new ≡ None }
    ensures known { (result ≡ DONE) ⊎ (result ≡ NO_MEMORY) }
{
    match Box::new(alloc, Embedded::new(alloc, machine)) {
        Ok(embedded) => {
            slot.put(embedded);
            DONE
        }
        Err(_) => NO_MEMORY,
    }
}

/// Frees what a slot has, if there is anything. The slot is empty then.
#[unsafe(no_mangle)]
pub extern "C" fn migwelun_drop(slot: &mut Slot, alloc: Global)
    ensures { in_slot slot.new ≡ None }
{
    if let Some(embedded) = slot.take(alloc) {
        drop(embedded);
    }
}

/// Answers the body of one frame, which came with a stamp at a moment. The frame of the reply waits for [`migwelun_take`].
#[unsafe(no_mangle)]
pub extern "C" fn migwelun_answer(
    slot: &mut Slot,
    alloc: Global,
    body: &[u8],
    connection: u64,
    frame: u64,
    moment: u64,
) -> i32
    ensures empty { ¬ HasCoordinator slot.old → (result ≡ EMPTY) × (in_slot slot.new ≡ in_slot slot.old) }
    ensures full { HasCoordinator slot.old → HasCoordinator slot.new × (result ≢ EMPTY) }
    ensures replied { Becomes slot.old slot.new (λ x y. result ≡ DONE →
        Answers (coordinator_of x.machine) (Frame body.now (record { connection = connection; frame = frame }) moment) Answered.Replied
        (coordinator_of y.machine) x.replies.items y.replies.items) }
    ensures closes { Becomes slot.old slot.new (λ x y. result ≡ CLOSES →
        Answers (coordinator_of x.machine) (Frame body.now (record { connection = connection; frame = frame }) moment) Answered.Closes
        (coordinator_of y.machine) x.replies.items y.replies.items) }
    ensures no_memory { Becomes slot.old slot.new (λ x y. result ≡ NO_MEMORY →
        (y.machine ≡ x.machine) × (y.replies.items ≡ x.replies.items)) }
    ensures known { (result ≡ EMPTY) ⊎ ((result ≡ DONE) ⊎ ((result ≡ CLOSES) ⊎ (result ≡ NO_MEMORY))) }
    // A body that closes at once takes no memory.
    ensures at_once { HasCoordinator slot.old → ClosesAtOnce body.now → result ≡ CLOSES }
    ensures topics { Becomes slot.old slot.new (λ x y. y.topics ≡ x.topics) }
{
    let Some(mut embedded) = slot.take(alloc) else {
        return EMPTY;
    };
    let stamp = Stamp { connection, frame };
    let code = embedded.answer(body, stamp, Moment::of_millis(moment));
    slot.put(embedded);
    code
}

/// Moves the frames of the replies that wait into a buffer, where it has room for all of them, and says how many bytes they are.
#[unsafe(no_mangle)]
pub extern "C" fn migwelun_take(
    slot: &mut Slot,
    alloc: Global,
    to: &mut [u8],
    size: &mut usize,
) -> i32
    ensures empty { in_slot slot.old ≡ None → (result ≡ EMPTY) × (to.new ≡ to.old) × (size.new ≡ size.old) }
    ensures full { IsFull slot.old → IsFull slot.new }
    ensures size { Has slot.old (λ x. size.new ≡ length x.replies.items) }
    ensures taken { Becomes slot.old slot.new (λ x y. length x.replies.items ≤ length to.old →
        (result ≡ DONE) × (take size.new to.new ≡ x.replies.items) × (y.replies.items ≡ [])) }
    ensures short { Becomes slot.old slot.new (λ x y. length to.old < length x.replies.items →
        (result ≡ SHORT) × (to.new ≡ to.old) × (y.replies.items ≡ x.replies.items)) }
    ensures others { Becomes slot.old slot.new (λ x y. (y.machine ≡ x.machine) × (y.topics ≡ x.topics) × (y.entry ≡ x.entry)) }
{
    let Some(mut embedded) = slot.take(alloc) else {
        return EMPTY;
    };
    let code = embedded.take_replies(to, size);
    slot.put(embedded);
    code
}

/// Tells the coordinator a moment: members whose deadline has come leave, and it says how many.
#[unsafe(no_mangle)]
pub extern "C" fn migwelun_tick(
    slot: &mut Slot,
    alloc: Global,
    moment: u64,
    removed: &mut usize,
) -> i32
    ensures empty { ¬ HasCoordinator slot.old → (result ≡ EMPTY) × (removed.new ≡ removed.old) × (in_slot slot.new ≡ in_slot slot.old) }
    ensures full { HasCoordinator slot.old → HasCoordinator slot.new × (result ≡ DONE) }
    ensures ticked { Becomes slot.old slot.new (λ x y. result ≡ DONE →
        Step (coordinator_of x.machine) (Tick moment) (Done removed.new) (coordinator_of y.machine)) }
    ensures others { Becomes slot.old slot.new (λ x y. (y.replies ≡ x.replies) × (y.topics ≡ x.topics)) }
{
    let Some(mut embedded) = slot.take(alloc) else {
        return EMPTY;
    };
    let code = embedded.tick(Moment::of_millis(moment), removed);
    slot.put(embedded);
    code
}

/// Adds a topic to those that [`migwelun_set_topics`] will set, or [`migwelun_propose_topics`] propose.
#[unsafe(no_mangle)]
pub extern "C" fn migwelun_add_topic(
    slot: &mut Slot,
    alloc: Global,
    name: &[u8],
    id: &[u8; 16],
    partitions: i32,
) -> i32
    ensures empty { in_slot slot.old ≡ None → result ≡ EMPTY }
    ensures full { IsFull slot.old → IsFull slot.new × (result ≢ EMPTY) }
    ensures added { Becomes slot.old slot.new (λ x y. result ≡ DONE → entries_of y.topics.items
        ≡ entries_of x.topics.items ++ record { name = name.now; id = id.now; count = partitions } ∷ []) }
    ensures refused { Becomes slot.old slot.new (λ x y. result ≢ DONE → y.topics.items ≡ x.topics.items) }
    ensures not_text { result ≡ NOT_TEXT → ¬ IsUtf8 name.now }
    ensures text { result ≡ DONE → IsUtf8 name.now }
    ensures known { (result ≡ EMPTY) ⊎ ((result ≡ DONE) ⊎ ((result ≡ NO_MEMORY) ⊎ (result ≡ NOT_TEXT))) }
    ensures others { Becomes slot.old slot.new (λ x y. (y.machine ≡ x.machine) × (y.replies ≡ x.replies) × (y.entry ≡ x.entry)) }
{
    let Some(mut embedded) = slot.take(alloc) else {
        return EMPTY;
    };
    let code = embedded.add_topic(alloc, name, *id, partitions);
    slot.put(embedded);
    code
}

/// Sets the topics that were added: 0, or the number of the fault that they have. They are gone then. Where memory is short they
/// stay.
#[unsafe(no_mangle)]
pub extern "C" fn migwelun_set_topics(slot: &mut Slot, alloc: Global) -> i32
    ensures empty { ¬ HasCoordinator slot.old → (result ≡ EMPTY) × (in_slot slot.new ≡ in_slot slot.old) }
    ensures full { HasCoordinator slot.old → HasCoordinator slot.new × (result ≢ EMPTY) }
    ensures code { HasCoordinator slot.old → Has slot.old (λ x.
        (result ≡ NO_MEMORY) ⊎ (result ≡ fault_shown (first_fault (entries_of x.topics.items)))) }
    ensures set { Becomes slot.old slot.new (λ x y. result ≡ DONE →
        coordinator_of y.machine ≡ record (coordinator_of x.machine) { image = topics_of (entries_of x.topics.items) }) }
    ensures refused { Becomes slot.old slot.new (λ x y. result ≢ DONE → y.machine ≡ x.machine) }
    ensures gone { HasCoordinator slot.old → Becomes slot.old slot.new (λ x y. result ≢ NO_MEMORY → y.topics.items ≡ []) }
    ensures no_memory { Becomes slot.old slot.new (λ x y. result ≡ NO_MEMORY → y.topics.items ≡ x.topics.items) }
    ensures replies { Becomes slot.old slot.new (λ x y. y.replies ≡ x.replies) }
{
    let Some(mut embedded) = slot.take(alloc) else {
        return EMPTY;
    };
    let code = embedded.set_topics(alloc);
    slot.put(embedded);
    code
}

/// Whether a group has a member, or remembers it as a former one. Changes nothing.
#[unsafe(no_mangle)]
pub extern "C" fn migwelun_remembers(
    slot: &mut Slot,
    alloc: Global,
    group: &[u8],
    member: &[u8],
) -> i32
    ensures empty { in_slot slot.old ≡ None → result ≡ EMPTY }
    ensures unchanged { in_slot slot.new ≡ in_slot slot.old }
    ensures text { Has slot.old (λ x. IsUtf8 group.now → IsUtf8 member.now →
        result ≡ yes_or_no (is_remembered_at (finite.get (coordinator_of x.machine).groups group.now) member.now)) }
    ensures not_text { result ≡ NOT_TEXT → ¬ (IsUtf8 group.now × IsUtf8 member.now) }
    ensures known { (result ≡ EMPTY) ⊎ ((result ≡ YES) ⊎ ((result ≡ NO) ⊎ (result ≡ NOT_TEXT))) }
{
    let Some(embedded) = slot.take(alloc) else {
        return EMPTY;
    };
    let code = embedded.remembers(group, member);
    slot.put(embedded);
    code
}

/// Writes the member epoch of a member and the one before it, where a group has the member. Changes nothing else.
#[unsafe(no_mangle)]
pub extern "C" fn migwelun_epochs(
    slot: &mut Slot,
    alloc: Global,
    group: &[u8],
    member: &[u8],
    epoch: &mut i32,
    previous: &mut i32,
) -> i32
    ensures empty { in_slot slot.old ≡ None → result ≡ EMPTY }
    ensures unchanged { in_slot slot.new ≡ in_slot slot.old }
    ensures found { Has slot.old (λ x. result ≡ DONE →
        epochs_shown (finite.get (coordinator_of x.machine).groups group.now) member.now ≡ Some (epoch.new, previous.new)) }
    ensures no_member { Has slot.old (λ x. result ≡ NO_MEMBER → epochs_shown (finite.get (coordinator_of x.machine).groups group.now) member.now ≡ None) }
    ensures not_text { result ≡ NOT_TEXT → ¬ (IsUtf8 group.now × IsUtf8 member.now) }
    ensures not_found { result ≢ DONE → (epoch.new ≡ epoch.old) × (previous.new ≡ previous.old) }
    ensures known { (result ≡ EMPTY) ⊎ ((result ≡ DONE) ⊎ ((result ≡ NO_MEMBER) ⊎ (result ≡ NOT_TEXT))) }
{
    let Some(embedded) = slot.take(alloc) else {
        return EMPTY;
    };
    let code = embedded.epochs(group, member, epoch, previous);
    slot.put(embedded);
    code
}

/// Writes what was last committed in a group for an index of a topic. Changes nothing else.
#[unsafe(no_mangle)]
pub extern "C" fn migwelun_committed(
    slot: &mut Slot,
    alloc: Global,
    group: &[u8],
    topic: &[u8],
    index: i32,
    offset: &mut i64,
    leader_epoch: &mut i32,
    metadata: &mut [u8],
    size: &mut usize,
) -> i32
    ensures empty { in_slot slot.old ≡ None → result ≡ EMPTY }
    ensures unchanged { in_slot slot.new ≡ in_slot slot.old }
    ensures found { Has slot.old (λ x. result ≡ DONE →
        IfSome (committed_at (finite.get (coordinator_of x.machine).groups group.now) (topic.now, index)) (λ it.
        ShowsCommitted it (record { offset = offset.new; leader_epoch = leader_epoch.new; metadata = metadata.new; size = size.new }))) }
    ensures no_offset { Has slot.old (λ x. result ≡ NO_OFFSET →
        committed_at (finite.get (coordinator_of x.machine).groups group.now) (topic.now, index) ≡ None) }
    ensures short { Has slot.old (λ x. result ≡ SHORT →
        IfSome (committed_at (finite.get (coordinator_of x.machine).groups group.now) (topic.now, index)) (λ it.
        (size.new ≡ size_shown it.metadata) × (length metadata.old < size.new))) }
    ensures not_text { result ≡ NOT_TEXT → ¬ (IsUtf8 group.now × IsUtf8 topic.now) }
    ensures not_found { result ≢ DONE → (offset.new ≡ offset.old) × (leader_epoch.new ≡ leader_epoch.old) × (metadata.new ≡ metadata.old) }
    ensures known { (result ≡ EMPTY) ⊎ ((result ≡ DONE) ⊎ ((result ≡ NO_OFFSET) ⊎ ((result ≡ SHORT) ⊎ (result ≡ NOT_TEXT)))) }
{
    let Some(embedded) = slot.take(alloc) else {
        return EMPTY;
    };
    let code = embedded.committed(group, topic, index, offset, leader_epoch, metadata, size);
    slot.put(embedded);
    code
}
