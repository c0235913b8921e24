//! The members of a group by their ids' texts: what the records do to them.

ghost use Rattle.std.specs.Prelude.{Ok, ◌≡◌, ◌↔◌, ◌<◌, ◌≤◌, ◌-◌, ◌++◌, ◌∷◌, [], ℕ, length, false, true, slice_get, MatchOption, None, Some, IsSome, IsTrue, map, string_bytes};
ghost use Rattle.group_types.specs.Text.{Text, text_cmp};
ghost use Rattle.std.specs.List.{list_any};
ghost use Rattle.std.specs.Ordering.{eq_by_cmp};
ghost use Rattle.std.specs.String.{string_eq};
ghost use Rattle.std.specs.VecDeque.{deque_capacity, deque_len};
ghost use Rattle.indexmap.specs.IndexMap.{IsUnique, get, get_by_text, index_map_len, spare};
ghost use Rattle.group_epochs.specs.declared.entry.Entry.{Entry as Stored};
ghost use Rattle.group_types.specs.Places.{renumbered};
ghost use Rattle.group_epochs.specs.Table.{Adds, IsIdOrder, IsMarkedBefore, IsMemberOrder, IsRank, Rewrites, TakesOut, is_due_at, is_row_due, marked_at, with_away, with_beat, with_record_kept, text_at, texts_in};

use crate::entry::{Entry, Table};
use crate::lookup::place_of;
use crate::order::{add_place, drop_place, guessed_rank, move_place};
use crate::record::Record;
use group_types::{EpochNumber, Moment, Stamp};
use std::cmp::Ordering;
use std::collections::VecDeque;
use std::mem;

/// A member comes in under its id, for which there is room. Takes no memory.
pub fn add(
    members: &mut Table,
    by_id: &mut VecDeque<usize>,
    in_member_order: &mut VecDeque<usize>,
    text: String,
    entry: Entry,
)
    requires room { 0 < spare members.old }
    requires order_room { deque_len by_id.old < deque_capacity by_id.old }
    requires member_room { deque_len in_member_order.old < deque_capacity in_member_order.old }
    requires absent { get string_eq members.old text ≡ None }
    requires order { IsIdOrder (texts_in members.old.entries) by_id.old.items }
    requires member_order { IsMemberOrder members.old.entries in_member_order.old.items }
    ensures added { Adds members.old members.new (string_bytes text) entry }
    ensures order { IsIdOrder (texts_in members.new.entries) by_id.new.items }
    ensures member_order { IsMemberOrder members.new.entries in_member_order.new.items }
{
    add_place(
        members,
        in_member_order,
        entry.kept.instance(),
        text.as_str(),
    );
    add_rank(members, by_id, text.as_str());
    add_row(members, text, entry);
}

/// A new member's row comes last, for which there is room. Takes no memory.
fn add_row(members: &mut Table, text: String, entry: Entry)
    requires room { 0 < spare members.old }
    requires absent { get string_eq members.old text ≡ None }
    ensures added { Adds members.old members.new (string_bytes text) entry }
    ensures rows { members.new.entries ≡ members.old.entries ++ (text, entry) ∷ [] }
{
    let Ok(_) = members.insert(text, entry) else {
        unreachable!()
    };
}

/// The place that comes next is that of a new id. Takes no memory.
fn add_rank(members: &Table, by_id: &mut VecDeque<usize>, id: &str)
    requires room { deque_len by_id.old < deque_capacity by_id.old }
    requires absent { list_any (eq_by_cmp text_cmp id.now) (texts_in members.now.entries) ≡ false }
    requires order { IsIdOrder (texts_in members.now.entries) by_id.old.items }
    ensures { IsIdOrder (texts_in members.now.entries ++ id.now ∷ []) by_id.new.items }
{
    let Err(rank) = rank_of(members, by_id, id) else {
        unreachable!()
    };
    let Ok(()) = by_id.insert(rank, members.len()) else {
        unreachable!()
    };
}

/// Replaces the record of a member, takes its mark away, and gives the former record. Takes no memory.
pub fn put(
    members: &mut Table,
    in_member_order: &mut VecDeque<usize>,
    id: &str,
    record: Record,
) -> Record
    requires there { IsSome (get_by_text members.old id.now) }
    requires distinct { IsUnique string_eq members.old }
    requires member_order { IsMemberOrder members.old.entries in_member_order.old.items }
    ensures given { (e : Stored) → get_by_text members.old id.now ≡ Some e → result ≡ e.kept }
    ensures rewritten { Rewrites members.old members.new id.now (with_record_kept «record») }
    ensures member_order { IsMemberOrder members.new.entries in_member_order.new.items }
{
    move_place(members, in_member_order, id, &record);
    let Some(entry) = members.get_mut(id) else {
        unreachable!()
    };
    entry.mark = None;
    mem::replace(&mut entry.kept, record)
}

/// Stores the stamp and the time of a heartbeat that gives nothing else, where the member is marked at the epoch and the stamp
/// comes after its last one. Says whether it did; if not, nothing has changed. Takes no memory, and one look-up, which begins with
/// the member that was looked up last.
pub fn beat_marked(
    members: &mut Table,
    last: &mut usize,
    id: &str,
    epoch: EpochNumber,
    stamp: Stamp,
    now: Moment,
) -> bool
    ensures there { IsTrue result → IsSome (get_by_text members.old id.now) }
    ensures marked { (e : Stored) → get_by_text members.old id.now ≡ Some e → (IsTrue result ↔ IsMarkedBefore epoch stamp e) }
    ensures yes { IsTrue result → Rewrites members.old members.new id.now (with_beat stamp now) }
    ensures no { result ≡ false → members.new ≡ members.old }
{
    let Some(place) = place_of(members, *last, id) else {
        return false;
    };
    *last = place;
    let Some(entry) = members.get_index_mut(place) else {
        unreachable!()
    };
    if entry.mark != Some(epoch) || !stamp.is_above(entry.kept.stamp()) {
        return false;
    }
    entry.kept.beat(stamp, now);
    true
}

/// Marks a member as settled at this epoch of the target. Takes no memory.
pub fn mark(members: &mut Table, id: &str, epoch: EpochNumber)
    requires { IsSome (get_by_text members.old id.now) }
    ensures { Rewrites members.old members.new id.now (marked_at epoch) }
{
    let Some(entry) = members.get_mut(id) else {
        unreachable!()
    };
    entry.mark = Some(epoch);
}

/// A static member goes away for a while, and its mark is taken away. Takes no memory.
pub fn go_away(members: &mut Table, id: &str, stamp: Stamp, now: Moment)
    requires { IsSome (get_by_text members.old id.now) }
    ensures { Rewrites members.old members.new id.now (with_away stamp now) }
{
    let Some(entry) = members.get_mut(id) else {
        unreachable!()
    };
    entry.kept.go_away(stamp, now);
    entry.mark = None;
}

/// A member goes, and gives what was kept of it. Takes no memory.
pub fn take_out(
    members: &mut Table,
    by_id: &mut VecDeque<usize>,
    in_member_order: &mut VecDeque<usize>,
    id: &str,
) -> Entry
    requires there { IsSome (get_by_text members.old id.now) }
    requires distinct { IsUnique string_eq members.old }
    requires order { IsIdOrder (texts_in members.old.entries) by_id.old.items }
    requires member_order { IsMemberOrder members.old.entries in_member_order.old.items }
    ensures given { (e : Stored) → get_by_text members.old id.now ≡ Some e → result ≡ e }
    ensures taken { TakesOut members.old members.new id.now result.id }
    ensures order_room { deque_len by_id.new < deque_capacity by_id.new }
    ensures member_room { deque_len in_member_order.new < deque_capacity in_member_order.new }
    ensures order { IsIdOrder (texts_in members.new.entries) by_id.new.items }
    ensures member_order { IsMemberOrder members.new.entries in_member_order.new.items }
{
    let Ok(rank) = rank_of(members, by_id, id) else {
        unreachable!()
    };
    take_out_at(members, by_id, in_member_order, rank)
}

/// The member at a rank goes, and gives what was kept of it. Takes no memory.
pub fn take_out_at(
    members: &mut Table,
    by_id: &mut VecDeque<usize>,
    in_member_order: &mut VecDeque<usize>,
    rank: usize,
) -> Entry
    requires there { rank < length by_id.old.items }
    requires distinct { IsUnique string_eq members.old }
    requires order { IsIdOrder (texts_in members.old.entries) by_id.old.items }
    requires member_order { IsMemberOrder members.old.entries in_member_order.old.items }
    ensures given { (m : Text) (e : Stored) → IsRank (texts_in members.old.entries) by_id.old.items m (Ok rank) → get_by_text members.old m ≡ Some e → result ≡ e }
    ensures taken { (m : Text) → IsRank (texts_in members.old.entries) by_id.old.items m (Ok rank) → TakesOut members.old members.new m result.id }
    ensures order_room { deque_len by_id.new < deque_capacity by_id.new }
    ensures member_room { deque_len in_member_order.new < deque_capacity in_member_order.new }
    ensures order { IsIdOrder (texts_in members.new.entries) by_id.new.items }
    ensures member_order { IsMemberOrder members.new.entries in_member_order.new.items }
{
    let place = by_id[rank];
    drop_place(members, in_member_order, place);
    renumber(members, by_id, place);
    by_id.remove(rank);
    let Some((_, entry)) = members.swap_remove_index(place) else {
        unreachable!()
    };
    entry
}

/// The last place gets another number.
fn renumber(members: &Table, places: &mut VecDeque<usize>, to: usize)
    requires some { 0 < index_map_len members.now }
    requires distinct { IsUnique string_eq members.now }
    requires order { IsIdOrder (texts_in members.now.entries) places.old.items }
    ensures numbered { places.new.items ≡ map (renumbered (index_map_len members.now - 1) to) places.old.items }
    ensures room { deque_capacity places.new ≡ deque_capacity places.old }
{
    let rank = last_rank(members, places);
    places[rank] = to;
}

/// The rank of the last place, in the order of ids.
fn last_rank(members: &Table, places: &VecDeque<usize>) -> usize
    requires some { 0 < index_map_len members.now }
    requires order { IsIdOrder (texts_in members.now.entries) places.now.items }
    ensures { IsRank (texts_in members.now.entries) places.now.items (text_at (texts_in members.now.entries) (index_map_len members.now - 1)) (Ok result) }
{
    if let Some(rank) = guessed_rank(places, members.len() - 1) {
        return rank;
    }
    let Some((text, _)) = members.last() else {
        unreachable!()
    };
    let Ok(rank) = rank_of(members, places, text.as_str()) else {
        unreachable!()
    };
    rank
}

/// The rank of an id among the places in the order of ids, or the rank at which its place goes.
fn rank_of(members: &Table, by_id: &VecDeque<usize>, id: &str) -> Result<usize, usize>
    requires { IsIdOrder (texts_in members.now.entries) by_id.now.items }
    ensures { IsRank (texts_in members.now.entries) by_id.now.items id.now result }
{
    by_id.binary_search_by(|place| compare(members, *place, id))
}

/// How the id of the member at a place and an id are ordered.
fn compare(members: &Table, place: usize, id: &str) -> Ordering
    ensures { result ≡ text_cmp (text_at (texts_in members.now.entries) place) id.now }
{
    match members.get_index(place) {
        Some((text, _)) => text.as_str().cmp(id),
        None => "".cmp(id),
    }
}

/// The first rank, from one on, at whose place a member is due.
pub fn first_due(
    members: &Table,
    places: &VecDeque<usize>,
    from: usize,
    clock: Moment,
) -> Option<usize>
    ensures { MatchOption result ((k : ℕ) → from ≤ k → k < length places.now.items → is_due_at members.now.entries places.now.items clock k ≡ false)
        (λ rank. (rank < length places.now.items) × (from ≤ rank) × (is_due_at members.now.entries places.now.items clock rank ≡ true)
        × ((k : ℕ) → from ≤ k → k < rank → is_due_at members.now.entries places.now.items clock k ≡ false)) }
{
    for rank in from..places.len() {
        if is_due(members, places[rank], clock) {
            return Some(rank);
        }
    }
    None
}

/// Whether a deadline has come of the member at a place.
fn is_due(members: &Table, place: usize, clock: Moment) -> bool
    ensures { result ≡ is_row_due (slice_get members.now.entries place) clock }
{
    match members.get_index(place) {
        Some((_, entry)) => entry.kept.is_due(clock),
        None => false,
    }
}
