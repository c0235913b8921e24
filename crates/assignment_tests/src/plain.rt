//! The rule of the assignor `uniform` as it is written down, by plain lists: what the assignor is compared with.
//!
//! A partition stays with its former owner where that one still subscribes it. The others go, in partition order, to the
//! subscriber that owns the fewest, and of several such to the first in member order. Then, while a partition has an owner that
//! owns two more than a subscriber of its topic, one moves: of such owners the one with the most (of several the first) gives
//! its first such partition to the subscriber with the fewest (of several the first).

use group_types::Partition;
use range_assign::{Spread, Subs, Subscriber};
use std::alloc::{AllocError, Global};
use topic_meta::View;

/// A partition with its topic's place in the view, and the place of its owner among the members.
#[derive(Clone, Copy)]
struct Spot {
    topic: usize,
    partition: Partition,
    owner: Option<usize>,
}

/// The partitions in partition order, and the members' counts.
#[derive(Drop)]
struct Table {
    spots: Vec<Spot>,
    /// For each topic its subscribers, in member order.
    takers: Vec<Vec<usize>>,
    counts: Vec<usize>,
}

/// Each member's partitions under the rule, in member order.
pub fn plain_owners(
    alloc: Global,
    former: &Spread,
    subs: &Subs<'_>,
    view: &View,
) -> Result<Vec<Vec<Partition>>, AllocError> {
    let mut table = Table {
        spots: spots_of(alloc, view)?,
        takers: takers_of(alloc, subs.members(), view)?,
        counts: vec![in alloc; 0; subs.members().len()]?,
    };
    table.keep(former, subs.members());
    table.fill();
    table.level();
    owned_of(alloc, &table)
}

fn spots_of(alloc: Global, view: &View) -> Result<Vec<Spot>, AllocError> {
    let mut spots = Vec::new(alloc);
    for (topic, shown) in view.topics().iter().enumerate() {
        for number in 0..shown.count {
            let index = i32::try_from(number).unwrap_or(0);
            let partition = Partition {
                topic: shown.id,
                index,
            };
            spots.push(Spot {
                topic,
                partition,
                owner: None,
            })?;
        }
    }
    Ok(spots)
}

fn takers_of(
    alloc: Global,
    members: &[Subscriber<'_>],
    view: &View,
) -> Result<Vec<Vec<usize>>, AllocError> {
    let mut all = Vec::new(alloc);
    for topic in view.topics() {
        let mut takers = Vec::new(alloc);
        for (at, member) in members.iter().enumerate() {
            if member.names.contains(topic.name.as_str()) {
                takers.push(at)?;
            }
        }
        all.push(takers)?;
    }
    Ok(all)
}

fn owned_of(alloc: Global, table: &Table) -> Result<Vec<Vec<Partition>>, AllocError> {
    let mut all = Vec::new(alloc);
    for at in 0..table.counts.len() {
        let mut owned = Vec::new(alloc);
        for spot in &table.spots {
            if spot.owner == Some(at) {
                owned.push(spot.partition)?;
            }
        }
        owned.sort_unstable();
        all.push(owned)?;
    }
    Ok(all)
}

/// Whether the former owner of the partition is the member.
fn owned_before(former: &Spread, member: &Subscriber<'_>, partition: &Partition) -> bool {
    match former.share_of(member.id.as_str()) {
        Some(set) => set.contains(partition),
        None => false,
    }
}

impl Table {
    fn count(&self, member: usize) -> usize {
        self.counts.get(member).copied().unwrap_or(0)
    }

    fn is_taker(&self, topic: usize, member: usize) -> bool {
        match self.takers.get(topic) {
            Some(takers) => takers.contains(&member),
            None => false,
        }
    }

    /// The partition at a place goes to the member.
    fn give(&mut self, at: usize, member: usize) {
        let Some(spot) = self.spots.get(at).copied() else {
            return;
        };
        if let Some(old) = spot.owner {
            let fewer = self.count(old).saturating_sub(1);
            self.set_count(old, fewer);
        }
        let more = self.count(member).saturating_add(1);
        self.set_count(member, more);
        if let Some(place) = self.spots.get_mut(at) {
            place.owner = Some(member);
        }
    }

    fn set_count(&mut self, member: usize, count: usize) {
        if let Some(place) = self.counts.get_mut(member) {
            *place = count;
        }
    }

    fn keep(&mut self, former: &Spread, members: &[Subscriber<'_>]) {
        for at in 0..self.spots.len() {
            for (place, member) in members.iter().enumerate() {
                if self.stays(at, place, former, member) {
                    self.give(at, place);
                }
            }
        }
    }

    /// Whether the partition at a place stays with the member at a place.
    fn stays(&self, at: usize, place: usize, former: &Spread, member: &Subscriber<'_>) -> bool {
        match self.spots.get(at) {
            Some(spot) => {
                self.is_taker(spot.topic, place) && owned_before(former, member, &spot.partition)
            }
            None => false,
        }
    }

    /// The topic's subscriber that owns the fewest.
    fn fewest(&self, topic: usize) -> Option<usize> {
        let takers = self.takers.get(topic)?;
        let mut best = *takers.first()?;
        for taker in takers {
            if self.count(*taker) < self.count(best) {
                best = *taker;
            }
        }
        Some(best)
    }

    fn fill(&mut self) {
        for at in 0..self.spots.len() {
            if let Some(member) = self.missing(at) {
                self.give(at, member);
            }
        }
    }

    /// Who gets the partition at a place, if it has no owner and somebody subscribes it.
    fn missing(&self, at: usize) -> Option<usize> {
        let spot = self.spots.get(at)?;
        match spot.owner {
            Some(_) => None,
            None => self.fewest(spot.topic),
        }
    }

    fn level(&mut self) {
        for _ in 0..u64::MAX {
            let Some((at, to)) = self.next_move() else {
                return;
            };
            self.give(at, to);
        }
    }

    /// The place of the partition that moves next, and who gets it.
    fn next_move(&self) -> Option<(usize, usize)> {
        let mut best = None;
        let mut giver = None;
        for (at, spot) in self.spots.iter().enumerate() {
            if let (Some(from), Some(to)) = (spot.owner, self.fewest(spot.topic)) {
                if self.count(to).saturating_add(1) < self.count(from)
                    && self.comes_before(from, giver)
                {
                    best = Some((at, to));
                    giver = Some(from);
                }
            }
        }
        best
    }

    /// Whether a member gives before the one that was found, which may be nobody.
    fn comes_before(&self, member: usize, found: Option<usize>) -> bool {
        match found {
            Some(other) => {
                let (count, most) = (self.count(member), self.count(other));
                count > most || (count == most && member < other)
            }
            None => true,
        }
    }
}
