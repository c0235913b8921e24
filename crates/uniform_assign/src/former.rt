//! The former owners of the partitions, found by the partitions' places.

ghost use Rattle.std.specs.Prelude.{◌≡◌, ◌≤◌, ◌+◌, IfOk, IfSome, IsSorted, Some, length};
ghost use Rattle.std.specs.Bool.{OnTrue};
ghost use Rattle.group_types.specs.Assignors.{IdsAreApart, member_cmp};
ghost use Rattle.range_assign.specs.Members.{subscriber_of, subscribers_in};
ghost use Rattle.uniform_assign.specs.Boards.{IsBare};
ghost use Rattle.uniform_assign.specs.Former.{AreFirsts, AreFormerOwners, EndsOwners, IsPlaceOf, IsShared, OwnNothingFrom};

use crate::board::Board;
use crate::draft::no_owners;
use group_types::{PartSet, Partition};
use range_assign::{Spread, Subscriber};
use std::alloc::{AllocError, Global};
use std::collections::BTreeMap;
use uuid::Uuid;

impl Board<'_> {
    /// For each place the former owner of its partition, if it is one of the members, by its place among them.
    pub fn former_owners(
        &self,
        alloc: Global,
        former: &Spread,
        members: &[Subscriber<'_>],
    ) -> Result<Vec<Option<usize>>, AllocError>
        requires board { IsBare self.now }
        requires apart { IdsAreApart (subscribers_in members.now) }
        requires sorted { IsSorted member_cmp (subscribers_in members.now) }
        ensures as_many { IfOk result (λ owners. length owners.items ≡ length self.now.places.items) }
        ensures owners { IfOk result (λ owners. AreFormerOwners former.now (subscribers_in members.now) self.now.places.items owners.items) }
    {
        let firsts = self.firsts(alloc)?;
        let mut owners = no_owners(alloc, self.places.len())?;
        let mut near = 0;
        for at in 0..last_owner_end(former, members) {
            if let Some((set, next)) = former.share_near(members[at].id.as_str(), near) {
                self.add_share(&firsts, &mut owners, set, at);
                near = next;
            }
        }
        Ok(owners)
    }

    /// The place of each topic's first partition, by the topic's id.
    fn firsts(&self, alloc: Global) -> Result<BTreeMap<Uuid, usize>, AllocError>
        requires { IsBare self.now }
        ensures { IfOk result (AreFirsts self.now.places.items) }
    {
        let mut firsts = BTreeMap::new(alloc);
        for (at, place) in self.places.iter().enumerate() {
            if place.partition.index == 0 {
                firsts.insert(place.partition.topic, at)?;
            }
        }
        Ok(firsts)
    }

    /// Gives the partitions of the set to the member at a place.
    fn add_share(
        &self,
        firsts: &BTreeMap<Uuid, usize>,
        owners: &mut Vec<Option<usize>>,
        set: &PartSet,
        member: usize,
    )
        requires board { IsBare self.now }
        requires firsts { AreFirsts self.now.places.items firsts.now }
        requires as_many { length owners.old.items ≡ length self.now.places.items }
        ensures as_many { length owners.new.items ≡ length owners.old.items }
        ensures shared { IsShared self.now.places.items set.now member owners.old.items owners.new.items }
    {
        let mut first = 0;
        for partition in set.iter() {
            if let Some(at) = self.place_near(firsts, partition, first) {
                owners[at] = Some(member);
                first = at.saturating_sub(index_of(partition));
            }
        }
    }

    /// Where the partition is in partition order. Its topic isn't looked up where the topic's first partition is at `first`.
    fn place_near(
        &self,
        firsts: &BTreeMap<Uuid, usize>,
        partition: &Partition,
        first: usize,
    ) -> Option<usize>
        requires board { IsBare self.now }
        requires firsts { AreFirsts self.now.places.items firsts.now }
        ensures { IsPlaceOf self.now.places.items partition.now result }
    {
        if let Some(index) = self.index_behind(partition, first) {
            return Some(first + index);
        }
        self.place_of(firsts, partition)
    }

    /// The partition's index, if its topic's first partition is at `first` and the topic has a partition with that index. It looks at no other
    /// place, since the former owners' partitions are all over the list.
    fn index_behind(&self, partition: &Partition, first: usize) -> Option<usize>
        requires { IsBare self.now }
        ensures { IfSome result (λ index. IsPlaceOf self.now.places.items partition.now (Some (first + index))) }
    {
        if self.places.len() <= first {
            return None;
        }
        let place = self.places[first];
        if place.partition.index != 0 || place.partition.topic != partition.topic {
            return None;
        }
        let index = usize::try_from(partition.index).ok()?;
        if index < self.view.topics()[place.topic].count as usize {
            Some(index)
        } else {
            None
        }
    }

    /// Where the partition is in partition order.
    fn place_of(&self, firsts: &BTreeMap<Uuid, usize>, partition: &Partition) -> Option<usize>
        requires board { IsBare self.now }
        requires firsts { AreFirsts self.now.places.items firsts.now }
        ensures { IsPlaceOf self.now.places.items partition.now result }
    {
        let first = *firsts.get(&partition.topic)?;
        let index = usize::try_from(partition.index).ok()?;
        let at = first.checked_add(index)?;
        if at < self.places.len() && self.places[at].partition.cmp(partition).is_eq() {
            Some(at)
        } else {
            None
        }
    }
}

/// The partition's index, or 0 where it is none.
fn index_of(partition: &Partition) -> usize {
    usize::try_from(partition.index).unwrap_or(0)
}

/// A place from which on no member owned a partition. It is found without a walk over the members.
pub(crate) fn last_owner_end(former: &Spread, members: &[Subscriber<'_>]) -> usize
    requires { IsSorted member_cmp (subscribers_in members.now) }
    ensures within { result ≤ length members.now }
    ensures none { OwnNothingFrom former.now (subscribers_in members.now) result }
{
    let mut low = 0;
    let mut high = members.len();
    while low < high {
        let middle = low + (high - low) / 2;
        if ends_owners(former, &members[middle]) {
            high = middle;
        } else {
            low = middle + 1;
        }
    }
    high
}

/// Whether neither the member owned a partition, nor those behind it in member order.
fn ends_owners(former: &Spread, member: &Subscriber<'_>) -> bool
    ensures { OnTrue result (EndsOwners former.now (subscriber_of member.now)) }
{
    member.instance.is_none() && former.none_from(member.id.as_str())
}
