//! Whether the former owners are lawful, told from their sets without a board.

ghost use Rattle.std.specs.Prelude.{◌≡◌, ℕ, IfOk, IfSome, false, length};
ghost use Rattle.std.specs.Bool.{OnTrue};
ghost use Rattle.group_types.specs.Owners.{IsLawful};
ghost use Rattle.range_assign.specs.Members.{subscribers_in};
ghost use Rattle.uniform_assign.specs.Marks.{AddsMark, AddsMarks, AreAllMarked, AreNamed, HasId, HasIdAt, IsFull, IsPartAt, is_marked};

use group_types::{PartSet, Partition};
use range_assign::{Spread, Subscriber, marks_of};
use std::alloc::{AllocError, Global};
use std::collections::BTreeMap;
use topic_meta::{View, ViewTopic};
use uuid::Uuid;

/// Whether each owner is a member that subscribes what it owns, and each partition of the view has an owner. The members
/// are looked for in the order of the owners' ids, so it may be false where some of them are static.
pub(crate) fn are_lawful(
    alloc: Global,
    former: &Spread,
    members: &[Subscriber<'_>],
    view: &View,
) -> Result<bool, AllocError>
    ensures { IfOk result (λ lawful. OnTrue lawful (IsLawful view.now (subscribers_in members.now) former.now)) }
{
    let topics = view.topics();
    let places = places_by_id(alloc, topics)?;
    let mut marks = no_marks(alloc, topics)?;
    let mut near = 0;
    for share in former.shares() {
        let Some(at) = member_from(members, share.id.as_str(), near) else {
            return Ok(false);
        };
        let named = marks_of(alloc, topics, members[at].names)?;
        if !mark_share(topics, &places, &named, &share.set, &mut marks) {
            return Ok(false);
        }
        near = at.saturating_add(1);
    }
    Ok(are_all_marked(topics, &marks))
}

/// The place of the member with this id, if it is not before the place `near`.
fn member_from(members: &[Subscriber<'_>], id: &str, near: usize) -> Option<usize>
    ensures { IfSome result (HasIdAt (subscribers_in members.now) id.now) }
{
    for at in near..members.len() {
        if members[at].id.is(id) {
            return Some(at);
        }
    }
    None
}

/// The place of each topic, by its id.
fn places_by_id(alloc: Global, topics: &[ViewTopic]) -> Result<BTreeMap<Uuid, usize>, AllocError> {
    let mut places = BTreeMap::new(alloc);
    for (at, topic) in topics.iter().enumerate() {
        places.insert(topic.id, at)?;
    }
    Ok(places)
}

/// For each topic a mark for each of its partitions, none of which is set.
fn no_marks(alloc: Global, topics: &[ViewTopic]) -> Result<Vec<Vec<bool>>, AllocError>
    ensures { IfOk result (λ marks. (t i : ℕ) → is_marked marks.items t i ≡ false) }
{
    let mut marks = Vec::with_capacity(alloc, topics.len())?;
    for topic in topics {
        marks.push(vec![in alloc; false; topic.count as usize]?)?;
    }
    Ok(marks)
}

/// Marks the partitions of the set, and says whether each is of a topic that is named.
fn mark_share(
    topics: &[ViewTopic],
    places: &BTreeMap<Uuid, usize>,
    named: &[bool],
    set: &PartSet,
    marks: &mut Vec<Vec<bool>>,
) -> bool
    requires { length named.now ≡ length topics.now }
    ensures named { OnTrue result (AreNamed topics.now named.now set.now) }
    ensures marked { AddsMarks topics.now set.now marks.old.items marks.new.items }
{
    let mut near = 0;
    for partition in set.iter() {
        let Some((at, index)) = place_in(topics, places, named, partition, near) else {
            return false;
        };
        mark(marks, at, index);
        near = at;
    }
    true
}

/// The place of the partition's topic, if that is named, and the partition's index in it. The topic isn't looked up where
/// it is at `near`.
fn place_in(
    topics: &[ViewTopic],
    places: &BTreeMap<Uuid, usize>,
    named: &[bool],
    partition: &Partition,
    near: usize,
) -> Option<(usize, usize)>
    requires { length named.now ≡ length topics.now }
    ensures { IfSome result (λ at. IsPartAt topics.now named.now partition.now at.0 at.1) }
{
    let at = topic_near(topics, places, &partition.topic, near)?;
    let index = usize::try_from(partition.index).ok()?;
    if named[at] && index < topics[at].count as usize {
        Some((at, index))
    } else {
        None
    }
}

/// The place of the topic with this id, which isn't looked up where it is `near`.
fn topic_near(
    topics: &[ViewTopic],
    places: &BTreeMap<Uuid, usize>,
    id: &Uuid,
    near: usize,
) -> Option<usize>
    ensures { IfSome result (HasId topics.now id.now) }
{
    if has_id(topics, id, near) {
        return Some(near);
    }
    let at = *places.get(id)?;
    if has_id(topics, id, at) {
        Some(at)
    } else {
        None
    }
}

/// Whether the topic at the place has this id.
fn has_id(topics: &[ViewTopic], id: &Uuid, at: usize) -> bool
    ensures { OnTrue result (HasId topics.now id.now at) }
{
    at < topics.len() && topics[at].id == *id
}

/// Sets the mark with an index of the topic at a place, if there is such a mark.
fn mark(marks: &mut Vec<Vec<bool>>, at: usize, index: usize)
    ensures { AddsMark at index marks.old.items marks.new.items }
{
    if at < marks.len() && index < marks[at].len() {
        marks[at][index] = true;
    }
}

/// Whether each partition of each topic is marked.
fn are_all_marked(topics: &[ViewTopic], marks: &[Vec<bool>]) -> bool
    ensures { OnTrue result (AreAllMarked topics.now marks.now) }
{
    if marks.len() < topics.len() {
        return false;
    }
    for at in 0..topics.len() {
        if !is_full(&marks[at], topics[at].count as usize) {
            return false;
        }
    }
    true
}

/// Whether the first `count` marks are set.
fn is_full(marks: &[bool], count: usize) -> bool
    ensures { OnTrue result (IsFull marks.now count) }
{
    if marks.len() < count {
        return false;
    }
    for at in 0..count {
        if !marks[at] {
            return false;
        }
    }
    true
}
