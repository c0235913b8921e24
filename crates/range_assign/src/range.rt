//! The assignor `range`.

ghost use Rattle.std.specs.Prelude.{◌≡◌, ◌<◌, ◌≤◌, ◌+◌, ◌^◌, ◌↔◌, ℕ, false, if◌then◌else◌, length, slice_index, slice_index_or, take, All, IfOk, OnOk};
ghost use Rattle.std.specs.Bool.{OnTrue};
ghost use Rattle.group_types.specs.declared.partition.Partition.{Partition as Key};
ghost use Rattle.group_types.specs.Owners.{IsLawful, IsRange, range_place};
ghost use Rattle.group_types.specs.Sets.{of_list};
ghost use Rattle.range_assign.specs.Marks.{NamesRise};
ghost use Rattle.range_assign.specs.Members.{subscribers_in};
ghost use Rattle.range_assign.specs.Shares.{shares_in};
ghost use Rattle.range_assign.specs.Turns.{AddsDealt, AddsRun, AreDealt, IsRangeShare, counts_of, with_dealt};

use crate::assignor::Assignor;
use crate::marks::{mark, marks_of};
use crate::spread::{Share, Spread};
use crate::subs::{Subs, Subscriber};
use group_types::{MemberId, PartSet, Partition};
use std::alloc::{AllocError, Global};
use topic_meta::{View, ViewTopic};
use uuid::Uuid;

/// The assignor `range`: of each topic, the partitions go in rising runs to the subscribers in member order, and the
/// first of these get one more than the rest where the numbers don't divide.
#[derive(Clone, Copy, Debug)]
pub struct Range;

impl Assignor for Range {
    fn assign(
        &self,
        alloc: Global,
        _former: &Spread,
        subs: &Subs<'_>,
        view: &View,
    ) -> Result<Spread, AllocError>
        ensures lawful { IfOk result (λ spread. IsLawful view.now subs.now spread) }
        ensures range { IfOk result (λ spread. IsRange view.now subs.now spread) }
    {
        let members = subs.members();
        let topics = view.topics();
        let counts = subscriber_counts(alloc, topics, members)?;
        let mut places = vec![in alloc; 0; topics.len()]?;
        let mut shares = Vec::new(alloc);
        let mut at = 0;
        while at < members.len() && !are_dealt(topics, &counts, &places) {
            deal(
                alloc,
                members,
                at,
                topics,
                &counts,
                &mut places,
                &mut shares,
            )?;
            at += 1;
        }
        Ok(Spread::of(shares))
    }
}

/// How many members subscribe each topic. The topics are in the order of their names.
fn subscriber_counts(
    alloc: Global,
    topics: &[ViewTopic],
    members: &[Subscriber<'_>],
) -> Result<Vec<usize>, AllocError>
    requires { NamesRise topics.now }
    ensures { IfOk result (λ counts. counts.items ≡ counts_of topics.now (subscribers_in members.now)) }
{
    let mut counts = vec![in alloc; 0; topics.len()]?;
    let mut marks = Vec::new(alloc);
    for member in members {
        mark(topics, member.names, &mut marks)?;
        count_marks(&mut counts, &marks, members.len());
    }
    Ok(counts)
}

/// Counts one more for each topic that is marked, of which there are fewer than `most` so far.
fn count_marks(counts: &mut Vec<usize>, marks: &[bool], most: usize)
    requires as_many { length marks.now ≡ length counts.old.items }
    requires fewer { All (λ n. n < most) counts.old.items }
    ensures as_many { length counts.new.items ≡ length counts.old.items }
    ensures counted { (t : ℕ) → t < length counts.old.items
        → slice_index counts.new.items t ≡ slice_index counts.old.items t + (if slice_index_or marks.now t false then 1 else 0) }
{
    for (t, marked) in marks.iter().enumerate() {
        if *marked {
            counts[t] += 1;
        }
    }
}

/// Whether nobody from here on gets a partition: of each topic, all partitions are dealt or all subscribers had their turn.
fn are_dealt(topics: &[ViewTopic], counts: &[usize], places: &[usize]) -> bool
    requires counted { length counts.now ≡ length topics.now }
    requires placed { length places.now ≡ length topics.now }
    ensures { OnTrue result (AreDealt topics.now counts.now places.now) }
{
    for (t, topic) in topics.iter().enumerate() {
        if places[t] < counts[t] && places[t] < topic.count as usize {
            return false;
        }
    }
    true
}

/// Adds the share of the member at a place among the members, where that has a partition. The topics' places go on as in
/// [`take_turns`].
fn deal(
    alloc: Global,
    members: &[Subscriber<'_>],
    at: usize,
    topics: &[ViewTopic],
    counts: &[usize],
    places: &mut [usize],
    shares: &mut Vec<Share>,
) -> Result<(), AllocError>
    requires within { at < length members.now }
    requires rise { NamesRise topics.now }
    requires few { All (λ t. t.count ≤ 2 ^ 31) topics.now }
    requires counted { counts.now ≡ counts_of topics.now (subscribers_in members.now) }
    requires placed { places.old ≡ counts_of topics.now (take at (subscribers_in members.now)) }
    ensures moved { OnOk result (places.new ≡ counts_of topics.now (take (at + 1) (subscribers_in members.now))) }
    ensures share { OnOk result (AddsDealt topics.now (subscribers_in members.now) at (shares_in shares.old.items) (shares_in shares.new.items)) }
{
    let member = &members[at];
    let set = take_turns(alloc, members, at, topics, counts, places)?;
    add_share(alloc, shares, member.id, set)?;
    Ok(())
}

/// Adds a member's share, where it has a partition. Where memory is short, the shares stay as they were.
fn add_share(
    alloc: Global,
    shares: &mut Vec<Share>,
    id: &MemberId,
    set: PartSet,
) -> Result<(), AllocError>
    ensures { OnOk result (shares_in shares.new.items ≡ with_dealt (shares_in shares.old.items) (id.now, set)) }
{
    if set.is_empty() {
        return Ok(());
    }
    let id = id.copy(alloc)?;
    shares.push(Share { id, set })?;
    Ok(())
}

/// The partitions of the member at a place among the members. The topics' places are those of the next subscribers, and
/// go on past this member where it subscribes.
fn take_turns(
    alloc: Global,
    members: &[Subscriber<'_>],
    at: usize,
    topics: &[ViewTopic],
    counts: &[usize],
    places: &mut [usize],
) -> Result<PartSet, AllocError>
    requires within { at < length members.now }
    requires rise { NamesRise topics.now }
    requires few { All (λ t. t.count ≤ 2 ^ 31) topics.now }
    requires counted { counts.now ≡ counts_of topics.now (subscribers_in members.now) }
    requires placed { places.old ≡ counts_of topics.now (take at (subscribers_in members.now)) }
    ensures moved { OnOk result (places.new ≡ counts_of topics.now (take (at + 1) (subscribers_in members.now))) }
    ensures share { IfOk result (IsRangeShare topics.now (subscribers_in members.now) at) }
{
    let member = &members[at];
    let marks = marks_of(alloc, topics, member.names)?;
    let mut parts = Vec::new(alloc);
    for (t, topic) in topics.iter().enumerate() {
        if marks[t] {
            let (first, end) = run_of(topic.count as usize, counts[t], places[t]);
            add_run(&mut parts, topic.id, first, end)?;
            places[t] += 1;
        }
    }
    Ok(PartSet::of_vec(parts))
}

/// The indexes of the subscriber at a place: the first, and one past the last.
pub(crate) fn run_of(count: usize, subscribers: usize, place: usize) -> (usize, usize)
    requires { place < subscribers }
    ensures run { (i : ℕ) → i < count → ((result.0 ≤ i) × (i < result.1)) ↔ (range_place count subscribers i ≡ place) }
    ensures within { (result.0 ≤ result.1) × (result.1 ≤ count) }
{
    let (shorter, longer_runs) = (count / subscribers, count % subscribers);
    if place < longer_runs {
        let first = place * (shorter + 1);
        (first, first + shorter + 1)
    } else {
        let first = place * shorter + longer_runs;
        (first, first + shorter)
    }
}

/// Adds the partitions of a topic with the indexes from the first to before the end. Where memory is short, some of
/// them may be in already.
fn add_run(
    parts: &mut Vec<Partition>,
    topic: Uuid,
    first: usize,
    end: usize,
) -> Result<(), AllocError>
    requires rise { first ≤ end }
    requires few { end ≤ 2 ^ 31 }
    ensures { OnOk result (AddsRun (of_list parts.old.items) (of_list parts.new.items) topic first end) }
{
    for index in first..end {
        parts.push(Partition {
            topic,
            index: index as i32,
        })?;
    }
    Ok(())
}
