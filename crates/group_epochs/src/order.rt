//! The places of a group's members in member order: those with an instance, by its bytes; then the others, by their ids' bytes.

ghost use Rattle.std.specs.Prelude.{◌≡◌, ◌<◌, ◌++◌, [], ◌∷◌, IsSome, IsTrue, IfSome, MatchOption, Some, false, slice_get};
ghost use Rattle.std.specs.List.{list_any, swap_remove};
ghost use Rattle.std.specs.Option.{option_copied};
ghost use Rattle.std.specs.Ordering.{eq_by_cmp};
ghost use Rattle.std.specs.String.{string_eq};
ghost use Rattle.std.specs.VecDeque.{deque_capacity, deque_len};
ghost use Rattle.std.specs.VecDeque.Iter.{deque_iter_rest};
ghost use Rattle.indexmap.specs.IndexMap.{IsUnique, get_by_text, index_map_len};
ghost use Rattle.group_types.specs.Assignors.{instance_cmp};
ghost use Rattle.group_types.specs.Text.{text_cmp};
ghost use Rattle.group_types.specs.Places.{IsOrder, IsRankIn, key_at, keys_at};
ghost use Rattle.group_epochs.specs.Table.{IsMemberOrder, IsNobodys, IsOfMemberWith, IsSplitAt, instance_order, key_cmp, keys_in, no_key, rekeyed, texts_in};
ghost use Rattle.std.specs.List.Sorted.{IsStrictlySortedBy};

use crate::entry::{Entry, Table};
use crate::record::Record;
use std::cmp::Ordering;
use std::collections::VecDeque;
use std::collections::vec_deque::Iter;

/// The place that comes next is that of a new member. Takes no memory.
pub fn add_place(members: &Table, places: &mut VecDeque<usize>, instance: Option<&str>, id: &str)
    requires room { deque_len places.old < deque_capacity places.old }
    requires absent { list_any (eq_by_cmp text_cmp id.now) (texts_in members.now.entries) ≡ false }
    requires order { IsMemberOrder members.now.entries places.old.items }
    ensures { IsOrder key_cmp no_key (keys_in members.now.entries ++ (option_copied instance.entry, id.now) ∷ []) places.new.items }
{
    let Err(rank) = rank_of_key(members, places, instance, id) else {
        unreachable!()
    };
    let Ok(()) = places.insert(rank, members.len()) else {
        unreachable!()
    };
}

/// The member at a place is to leave, and the last one is to come to its place. Takes no memory.
pub fn drop_place(members: &Table, places: &mut VecDeque<usize>, place: usize)
    requires there { place < index_map_len members.now }
    requires distinct { IsUnique string_eq members.now }
    requires order { IsMemberOrder members.now.entries places.old.items }
    ensures order { IsOrder key_cmp no_key (swap_remove (keys_in members.now.entries) place (key_at no_key (keys_in members.now.entries) place)) places.new.items }
    ensures room { deque_len places.new < deque_capacity places.new }
{
    let rank = rank_of_place(members, places, place);
    let last = rank_of_place(members, places, members.len() - 1);
    places[last] = place;
    places.remove(rank);
}

/// A member is to have another record: where its instance is another one, its place goes where the new one's is. Takes no memory.
pub fn move_place(members: &Table, places: &mut VecDeque<usize>, id: &str, record: &Record)
    requires there { IsSome (get_by_text members.now id.now) }
    requires distinct { IsUnique string_eq members.now }
    requires order { IsMemberOrder members.now.entries places.old.items }
    ensures { IsOrder key_cmp no_key (rekeyed id.now «record».now.instance (keys_in members.now.entries)) places.new.items }
{
    let Some(place) = members.get_index_of(id) else {
        unreachable!()
    };
    if has_instance_of(members, place, record) {
        return;
    }
    let rank = rank_of_place(members, places, place);
    places.remove(rank);
    let Err(rank) = rank_of_key(members, places, record.instance(), id) else {
        unreachable!()
    };
    let Ok(()) = places.insert(rank, place) else {
        unreachable!()
    };
}

/// The entry of the member that has an instance id, which is found by halves; none where nobody has it. Takes no memory.
pub fn with_instance<'a>(
    members: &'a Table,
    places: &VecDeque<usize>,
    instance: &str,
) -> Option<&'a Entry>
    requires distinct { IsUnique string_eq members.now }
    requires order { IsMemberOrder members.now.entries places.now.items }
    ensures { MatchOption result (IsNobodys instance.now members.now) (λ entry. IsOfMemberWith instance.now members.now entry.now) }
{
    let Ok(rank) = places.binary_search_by(|place| compare_instances(members, *place, instance))
    else {
        return None;
    };
    let Some((_, entry)) = members.get_index(places[rank]) else {
        unreachable!()
    };
    Some(entry)
}

/// The places of the members that come before one with this instance and this id, and those of the others, in member order.
pub fn around<'a>(
    members: &Table,
    places: &'a VecDeque<usize>,
    instance: Option<&str>,
    id: &str,
) -> (Iter<'a, usize>, Iter<'a, usize>)
    requires { IsMemberOrder members.now.entries places.now.items }
    ensures { IsSplitAt (keys_in members.now.entries) places.now.items (option_copied instance.entry, id.now) (deque_iter_rest result.0) (deque_iter_rest result.1) }
{
    let rank = places.partition_point(|place| compare_keys(members, *place, instance, id).is_lt());
    (places.range(..rank), places.range(rank..))
}

/// The rank of a place where it is as far behind the first rank as its number is above the first number. So it is where members
/// that joined in an order leave in that order.
pub fn guessed_rank(places: &VecDeque<usize>, place: usize) -> Option<usize>
    ensures { IfSome result (λ rank. slice_get places.now.items rank ≡ Some place) }
{
    let guess = place.saturating_sub(*places.front()?);
    if guess < places.len() && places[guess] == place {
        return Some(guess);
    }
    None
}

/// The rank of a member's place, in member order. Where members that joined in that order leave in it, no member is looked at.
fn rank_of_place(members: &Table, places: &VecDeque<usize>, place: usize) -> usize
    requires there { place < index_map_len members.now }
    requires distinct { IsUnique string_eq members.now }
    requires order { IsMemberOrder members.now.entries places.now.items }
    ensures { slice_get places.now.items result ≡ Some place }
{
    if let Some(rank) = guessed_rank(places, place) {
        return rank;
    }
    let Some((text, entry)) = members.get_index(place) else {
        unreachable!()
    };
    let Ok(rank) = rank_of_key(members, places, entry.kept.instance(), text.as_str()) else {
        unreachable!()
    };
    rank
}

/// The rank of a member among the places in member order, or the rank at which its place goes.
fn rank_of_key(
    members: &Table,
    places: &VecDeque<usize>,
    instance: Option<&str>,
    id: &str,
) -> Result<usize, usize>
    requires { IsStrictlySortedBy key_cmp (keys_at no_key (keys_in members.now.entries) places.now.items) }
    ensures { IsRankIn key_cmp no_key (keys_in members.now.entries) places.now.items (option_copied instance.entry, id.now) result }
{
    places.binary_search_by(|place| compare_keys(members, *place, instance, id))
}

/// How the member at a place and one with this instance and this id are ordered.
fn compare_keys(members: &Table, place: usize, instance: Option<&str>, id: &str) -> Ordering
    ensures { result ≡ key_cmp (key_at no_key (keys_in members.now.entries) place) (option_copied instance.entry, id.now) }
{
    match members.get_index(place) {
        Some((text, entry)) => order_of(entry.kept.instance(), instance, text.as_str().cmp(id)),
        None => order_of(None, instance, "".cmp(id)),
    }
}

/// A static member comes before others, static members by their instances, and then as ids are ordered.
fn order_of(one: Option<&str>, other: Option<&str>, ids: Ordering) -> Ordering
    ensures { result ≡ instance_cmp (option_copied one.entry) (option_copied other.entry) ids }
{
    match (one, other) {
        (Some(one), Some(other)) => one.cmp(other).then(ids),
        (Some(_), None) => Ordering::Less,
        (None, Some(_)) => Ordering::Greater,
        (None, None) => ids,
    }
}

/// How the instance of the member at a place and another one are ordered: no instance comes behind all.
fn compare_instances(members: &Table, place: usize, instance: &str) -> Ordering
    ensures { result ≡ instance_order instance.now (key_at no_key (keys_in members.now.entries) place).0 }
{
    match members.get_index(place) {
        Some((_, entry)) => order_to(entry.kept.instance(), instance),
        None => Ordering::Greater,
    }
}

/// How an instance, if there is one, and another one are ordered: none comes behind all.
fn order_to(own: Option<&str>, instance: &str) -> Ordering
    ensures { result ≡ instance_order instance.now (option_copied own.entry) }
{
    match own {
        Some(own) => own.cmp(instance),
        None => Ordering::Greater,
    }
}

/// Whether the member at a place has the instance of a record, or neither has one.
fn has_instance_of(members: &Table, place: usize, record: &Record) -> bool
    ensures { IsTrue result → (key_at no_key (keys_in members.now.entries) place).0 ≡ «record».now.instance }
{
    match members.get_index(place) {
        Some((_, entry)) => entry.kept.has_instance_of(record),
        None => false,
    }
}
