//! Each member's partitions while they move, so that the first that can move is found without a look at the others.

ghost use Rattle.std.specs.Prelude.{◌≡◌, ◌⊎◌, ◌<◌, ℕ, List, [], All, IfOk, IfSome, OnOk, Some, length, slice_set};
ghost use Rattle.uniform_assign.specs.declared.draft.Draft.{Draft as Drafted};
ghost use Rattle.uniform_assign.specs.Boards.{IsBoard};
ghost use Rattle.uniform_assign.specs.Drafts.{IsDraft};
ghost use Rattle.uniform_assign.specs.Piles.{AreListed, ArePiles, Hand, IsDrawn, IsInHand, IsInClass, IsListedIn, IsPileOf, Listed};

use crate::board::Board;
use crate::draft::Draft;
use crate::pile::Pile;
use std::alloc::{AllocError, Global};

/// A partition by its place in partition order, and its class.
#[derive(Clone, Copy)]
pub(crate) struct Owned {
    pub class: usize,
    pub place: usize,
}

/// Each member's partitions. Most members give none away, so a member's piles are made when it is first asked for one.
#[derive(Drop)]
pub(crate) struct Piles {
    /// For each member what it owned when the moves began and is in none of its piles yet, in partition order.
    pub listed: Vec<Vec<Owned>>,
    /// For each member its piles, one a class.
    pub hands: Vec<Vec<Pile>>,
}

impl Board<'_> {
    /// Each member's partitions.
    pub fn piles(&self, alloc: Global, draft: &Draft) -> Result<Piles, AllocError>
        requires board { IsBoard self.now }
        requires draft { IsDraft self.now draft.now }
        ensures { IfOk result (ArePiles self.now draft.now) }
    {
        Ok(Piles {
            listed: self.listed(alloc, draft)?,
            hands: no_piles(alloc, draft.counts.len())?,
        })
    }

    /// Each member's partitions, in partition order.
    fn listed(&self, alloc: Global, draft: &Draft) -> Result<Vec<Vec<Owned>>, AllocError>
        requires board { IsBoard self.now }
        requires draft { IsDraft self.now draft.now }
        ensures { IfOk result (λ listed. AreListed self.now draft.now (length self.now.places.items) listed.items) }
    {
        let mut listed = no_lists(alloc, &draft.counts)?;
        for at in 0..self.places.len() {
            if let Some(owner) = draft.owners[at] {
                listed[owner].push(Owned {
                    class: self.class_at(at),
                    place: at,
                })?;
            }
        }
        Ok(listed)
    }

    /// Puts what is listed of a member into its piles.
    pub fn make_piles(
        &self,
        alloc: Global,
        piles: &mut Piles,
        member: usize,
    ) -> Result<(), AllocError>
        requires member { member < length piles.old.hands.items }
        requires piles { (draft : Drafted) × ArePiles self.now draft piles.old }
        ensures made { OnOk result (IsDrawn piles.new member) }
        ensures piles { OnOk result ((draft : Drafted) → ArePiles self.now draft piles.old → ArePiles self.now draft piles.new) }
    {
        draw(alloc, &piles.listed[member], &mut piles.hands[member])?;
        piles.listed[member] = Vec::new(alloc);
        Ok(())
    }

    /// Adds the partition at a place to the piles of a member, which is given it.
    pub fn gain(
        &self,
        alloc: Global,
        piles: &mut Piles,
        member: usize,
        at: usize,
    ) -> Result<(), AllocError>
        requires board { IsBoard self.now }
        requires member { member < length piles.old.hands.items }
        requires within { at < length self.now.places.items }
        ensures { OnOk result ((old new : Drafted) → ArePiles self.now old piles.old
            → length new.counts.items ≡ length old.counts.items
            → new.owners.items ≡ slice_set old.owners.items at (Some member) → ArePiles self.now new piles.new) }
    {
        add(alloc, &mut piles.hands[member], self.class_at(at), at)?;
        Ok(())
    }
}

/// For each member an empty list, with room for as many partitions as it owns.
fn no_lists(alloc: Global, counts: &[usize]) -> Result<Vec<Vec<Owned>>, AllocError>
    ensures as_many { IfOk result (λ lists. length lists.items ≡ length counts.now) }
    ensures empty { IfOk result (λ lists. All (λ (list : Listed). list.items ≡ []) lists.items) }
{
    let mut lists = Vec::with_capacity(alloc, counts.len())?;
    for count in counts {
        lists.push(Vec::with_capacity(alloc, *count)?)?;
    }
    Ok(lists)
}

/// No pile for each member.
fn no_piles(alloc: Global, members: usize) -> Result<Vec<Vec<Pile>>, AllocError>
    ensures as_many { IfOk result (λ piles. length piles.items ≡ members) }
    ensures empty { IfOk result (λ piles. All (λ (hand : Hand). hand.items ≡ []) piles.items) }
{
    let mut piles = Vec::with_capacity(alloc, members)?;
    for _ in 0..members {
        piles.push(Vec::new(alloc))?;
    }
    Ok(piles)
}

/// Adds what is listed to a member's piles.
fn draw(alloc: Global, listed: &[Owned], hand: &mut Vec<Pile>) -> Result<(), AllocError>
    ensures drawn { OnOk result ((t k : ℕ) → IsListedIn listed.now t k → IsInHand hand.new.items k) }
    ensures kept { OnOk result ((k : ℕ) → IsInHand hand.old.items k → IsInHand hand.new.items k) }
    ensures classes { OnOk result ((t k : ℕ) → IsInClass hand.new.items t k
        → IsInClass hand.old.items t k ⊎ IsListedIn listed.now t k) }
{
    for one in listed {
        add(alloc, hand, one.class, one.place)?;
    }
    Ok(())
}

/// Adds a place to the member's pile of the class.
pub(crate) fn add(
    alloc: Global,
    hand: &mut Vec<Pile>,
    class: usize,
    place: usize,
) -> Result<(), AllocError>
    ensures added { OnOk result (IsInHand hand.new.items place) }
    ensures kept { OnOk result ((k : ℕ) → IsInHand hand.old.items k → IsInHand hand.new.items k) }
    ensures classes { OnOk result ((t k : ℕ) → IsInClass hand.new.items t k
        → IsInClass hand.old.items t k ⊎ ((t ≡ class) × (k ≡ place))) }
{
    match pile_of(hand, class) {
        Some(at) => hand[at].push(place)?,
        None => hand.push(Pile::of(alloc, class, place))?,
    }
    Ok(())
}

/// Where a pile of the class is. The last is tried first, since the partitions come in their topics' order, and mostly so in that of their classes: so no other is
/// tried where the last is of a class before this one. Once partitions have moved, a member may then get a second pile.
fn pile_of(hand: &[Pile], class: usize) -> Option<usize>
    ensures { IfSome result (IsPileOf hand.now class) }
{
    if ends_before(hand, class) {
        return None;
    }
    let mut at = hand.len();
    while at > 0 {
        at -= 1;
        if hand[at].class == class {
            return Some(at);
        }
    }
    None
}

/// Whether the last pile is of a class before this one.
fn ends_before(hand: &[Pile], class: usize) -> bool {
    match hand.last() {
        Some(pile) => pile.class < class,
        None => false,
    }
}
