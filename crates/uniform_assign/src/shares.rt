//! The members' shares of a draft.

ghost use Rattle.std.specs.Prelude.{◌≡◌, ◌≤◌, IfOk, filter, length, map};
ghost use Rattle.group_types.specs.Sets.{nothing};
ghost use Rattle.range_assign.specs.Members.{subscribers_in};
ghost use Rattle.range_assign.specs.Shares.{AreShares, shares_in, spread_of};
ghost use Rattle.uniform_assign.specs.Boards.{IsBare};
ghost use Rattle.uniform_assign.specs.Drafts.{IsDraft, drawn_on};
ghost use Rattle.uniform_assign.specs.Hands.{has_parts, hands_in};

use crate::board::Board;
use crate::draft::Draft;
use group_types::{MemberId, PartSet, Partition};
use range_assign::{Share, Subscriber};
use std::alloc::{AllocError, Global};

/// A member's partitions as they are dealt: in partition order, which goes by the topics' names.
#[derive(Drop)]
pub struct Hand<'a> {
    pub id: &'a MemberId,
    pub parts: Vec<Partition>,
}

impl Board<'_> {
    /// The partitions of each member that owns any.
    pub fn shares(&self, alloc: Global, draft: &Draft) -> Result<Vec<Share>, AllocError>
        requires board { IsBare self.now }
        requires draft { IsDraft self.now draft.now }
        ensures shares { IfOk result (λ shares. AreShares (shares_in shares.items)) }
        ensures drawn { IfOk result (λ shares. spread_of (shares_in shares.items) ≡ drawn_on self.now draft.now.owners.items) }
    {
        let mut hands = no_partitions(alloc, self.members, &draft.counts)?;
        for (at, place) in self.places.iter().enumerate() {
            if let Some(owner) = draft.owners[at] {
                hands[owner].parts.push(place.partition)?;
            }
        }
        shares_of(alloc, hands)
    }
}

/// A hand without a partition for each member, with room for as many as the member's count.
fn no_partitions<'a>(
    alloc: Global,
    members: &[Subscriber<'a>],
    counts: &[usize],
) -> Result<Vec<Hand<'a>>, AllocError>
    requires { length members.now ≤ length counts.now }
    ensures { IfOk result (λ hands. hands_in hands.items ≡ map (λ m. (m.id, nothing)) (subscribers_in members.now)) }
{
    // rounded up, so that a growing group asks the allocator for one size again and again
    let room = (members.len() / 1024 + 1) * 1024;
    let mut hands = Vec::with_capacity(alloc, room)?;
    for (at, member) in members.iter().enumerate() {
        let parts = Vec::with_capacity(alloc, counts[at])?;
        hands.push(Hand {
            id: member.id,
            parts,
        })?;
    }
    Ok(hands)
}

/// The hands that have a partition, as shares. The others cost no memory.
fn shares_of(alloc: Global, hands: Vec<Hand<'_>>) -> Result<Vec<Share>, AllocError>
    ensures { IfOk result (λ shares. shares_in shares.items ≡ hands_in (filter has_parts hands.entry.items)) }
{
    let mut shares = Vec::new(alloc);
    for hand in hands {
        if !hand.parts.is_empty() {
            let id = hand.id.copy(alloc)?;
            let set = PartSet::of_vec(hand.parts);
            shares.push(Share { id, set })?;
        }
    }
    Ok(shares)
}
