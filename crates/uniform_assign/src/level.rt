//! Moves from members that own many partitions to members that own few.

ghost use Rattle.std.specs.Prelude.{◌≡◌, ◌<◌, ◌+◌, ℕ, [], IfOk, None, OnOk, Some, length, slice_get};
ghost use Rattle.std.specs.Bool.{OnTrue};
ghost use Rattle.uniform_assign.specs.Boards.{IsBoard, members_on};
ghost use Rattle.uniform_assign.specs.Drafts.{IsDraft, IsLevelled, drawn_on};
ghost use Rattle.uniform_assign.specs.Moves.{IsEarlier, IsFirstAmong, IsFirstOf, IsMoveOf, IsNext};
ghost use Rattle.uniform_assign.specs.Orders.{IsOrder, IsOrderBut};
ghost use Rattle.uniform_assign.specs.Piles.{AreOfClass, ArePiles, IsHand, IsIn};
ghost use Rattle.uniform_assign.specs.CountSets.{AreCountSets};

use crate::board::Board;
use crate::count_set::CountSet;
use crate::draft::Draft;
use crate::givers::{are_within, givers_limit, raised_limit};
use crate::order::Order;
use crate::pile::Pile;
use crate::piles::Piles;
use std::alloc::{AllocError, Global};

/// A partition moves from one member to another, each at a place.
#[derive(Clone, Copy)]
pub(crate) struct Move {
    pub partition: usize,
    pub from: usize,
    pub to: usize,
}

impl Board<'_> {
    /// Moves one partition after the other until none can move.
    pub fn level(&self, alloc: Global, draft: &mut Draft) -> Result<(), AllocError>
        requires board { IsBoard self.now }
        requires draft { IsDraft self.now draft.old }
        ensures draft { OnOk result (IsDraft self.now draft.new) }
        ensures levelled { OnOk result (IsLevelled self.now.view.now (members_on self.now)
            (drawn_on self.now draft.old.owners.items) (drawn_on self.now draft.new.owners.items)) }
    {
        let mut sets = self.count_sets(alloc, draft)?;
        if self.is_level(draft, &sets) {
            return Ok(());
        }
        self.move_each(alloc, draft, &mut sets)
    }

    /// Moves one partition after the other until none can move: each is found by the order of the members, the orders of
    /// the classes' takers and the members' piles.
    fn move_each(
        &self,
        alloc: Global,
        draft: &mut Draft,
        sets: &mut Vec<CountSet>,
    ) -> Result<(), AllocError>
        requires board { IsBoard self.now }
        requires draft { IsDraft self.now draft.old }
        requires sets { AreCountSets self.now draft.old.counts.items sets.old.items }
        ensures draft { OnOk result (IsDraft self.now draft.new) }
        ensures levelled { OnOk result (IsLevelled self.now.view.now (members_on self.now)
            (drawn_on self.now draft.old.owners.items) (drawn_on self.now draft.new.owners.items)) }
    {
        let seats = self.seats(alloc)?;
        let mut order = Order::of(alloc, &draft.counts)?;
        let mut piles = self.piles(alloc, draft)?;
        while let Some(next) = self.next_move(alloc, draft, sets, &mut order, &mut piles)? {
            self.gain(alloc, &mut piles, next.to, next.partition)?;
            draft.give(next.partition, next.to);
            self.renew(sets, &seats[next.from], next.from, draft.counts[next.from]);
            self.renew(sets, &seats[next.to], next.to, draft.counts[next.to]);
            order.set(next.from, draft.counts[next.from]);
            order.set(next.to, draft.counts[next.to]);
        }
        Ok(())
    }

    /// Whether no partition can move.
    fn is_level(&self, draft: &Draft, sets: &[CountSet]) -> bool
        requires board { IsBoard self.now }
        requires draft { IsDraft self.now draft.now }
        requires sets { AreCountSets self.now draft.now.counts.items sets.now }
        ensures { OnTrue result (IsNext self.now draft.now (length self.now.places.items) None) }
    {
        if are_within(&draft.counts, givers_limit(sets)) {
            return true;
        }
        for at in 0..self.places.len() {
            if self.move_of(draft, sets, at).is_some() {
                return false;
            }
        }
        true
    }

    /// The move that follows, if a partition can move: of the members that can give one away, the one that owns the
    /// most gives the first that it can to the subscriber that owns the fewest.
    fn next_move(
        &self,
        alloc: Global,
        draft: &Draft,
        sets: &[CountSet],
        order: &mut Order,
        piles: &mut Piles,
    ) -> Result<Option<Move>, AllocError>
        requires board { IsBoard self.now }
        requires draft { IsDraft self.now draft.now }
        requires sets { AreCountSets self.now draft.now.counts.items sets.now }
        requires order { IsOrder draft.now.counts.items order.old }
        requires piles { ArePiles self.now draft.now piles.old }
        ensures order { OnOk result (IsOrder draft.now.counts.items order.new) }
        ensures piles { OnOk result (ArePiles self.now draft.now piles.new) }
        ensures next { IfOk result (IsNext self.now draft.now (length self.now.places.items)) }
    {
        let mut aside = Vec::new(alloc);
        let next = self.move_in_order(alloc, draft, sets, order, piles, &mut aside)?;
        order.put_back(&aside, &draft.counts);
        Ok(next)
    }

    /// The same, looked for member by member in their order. The members before the one that gives are set aside. The limit is looked for
    /// once the first member has nothing to give.
    fn move_in_order(
        &self,
        alloc: Global,
        draft: &Draft,
        sets: &[CountSet],
        order: &mut Order,
        piles: &mut Piles,
        aside: &mut Vec<usize>,
    ) -> Result<Option<Move>, AllocError>
        requires board { IsBoard self.now }
        requires draft { IsDraft self.now draft.now }
        requires sets { AreCountSets self.now draft.now.counts.items sets.now }
        requires order { IsOrder draft.now.counts.items order.old }
        requires piles { ArePiles self.now draft.now piles.old }
        requires none { aside.old.items ≡ [] }
        ensures order { OnOk result (IsOrderBut draft.now.counts.items aside.new.items order.new) }
        ensures piles { OnOk result (ArePiles self.now draft.now piles.new) }
        ensures next { IfOk result (IsNext self.now draft.now (length self.now.places.items)) }
    {
        let mut limit = 0;
        while let Some(from) = order.first_above(limit) {
            let found = self.move_from(alloc, draft, sets, piles, from)?;
            if found.is_some() {
                return Ok(found);
            }
            order.set(from, 0);
            aside.push(from)?;
            limit = raised_limit(sets, limit);
        }
        Ok(None)
    }

    /// The move of the first partition that the member at a place can give away.
    fn move_from(
        &self,
        alloc: Global,
        draft: &Draft,
        sets: &[CountSet],
        piles: &mut Piles,
        from: usize,
    ) -> Result<Option<Move>, AllocError>
        requires board { IsBoard self.now }
        requires draft { IsDraft self.now draft.now }
        requires sets { AreCountSets self.now draft.now.counts.items sets.now }
        requires piles { ArePiles self.now draft.now piles.old }
        requires member { from < length draft.now.counts.items }
        ensures piles { OnOk result (ArePiles self.now draft.now piles.new) }
        ensures first { IfOk result (IsFirstOf self.now draft.now from) }
    {
        self.make_piles(alloc, piles, from)?;
        Ok(self.first_move(draft, sets, &mut piles.hands[from], from))
    }

    /// The same, looked for pile by pile.
    fn first_move(
        &self,
        draft: &Draft,
        sets: &[CountSet],
        hand: &mut Vec<Pile>,
        from: usize,
    ) -> Option<Move>
        requires board { IsBoard self.now }
        requires draft { IsDraft self.now draft.now }
        requires sets { AreCountSets self.now draft.now.counts.items sets.now }
        requires hand { IsHand self.now draft.now from hand.old.items }
        ensures hand { IsHand self.now draft.now from hand.new.items }
        ensures first { IsFirstOf self.now draft.now from result }
    {
        let mut best = None;
        for at in 0..hand.len() {
            let found = self.first_in(draft, sets, &mut hand[at], from);
            best = earlier(best, found);
        }
        best
    }

    /// The move of the first partition of a pile that the member can give away.
    fn first_in(
        &self,
        draft: &Draft,
        sets: &[CountSet],
        pile: &mut Pile,
        from: usize,
    ) -> Option<Move>
        requires board { IsBoard self.now }
        requires draft { IsDraft self.now draft.now }
        requires sets { AreCountSets self.now draft.now.counts.items sets.now }
        requires pile { AreOfClass self.now pile.old }
        ensures class { pile.new.class ≡ pile.old.class }
        ensures fewer { (k : ℕ) → IsIn k pile.new → IsIn k pile.old }
        ensures kept { (k : ℕ) → IsIn k pile.old → slice_get draft.now.owners.items k ≡ Some (Some from) → IsIn k pile.new }
        ensures first { IsFirstAmong self.now draft.now from (λ k. IsIn k pile.new) result }
    {
        let at = pile.first_owned(&draft.owners, from)?;
        self.move_of(draft, sets, at)
    }

    /// The move of the partition at a place to the subscriber that owns the fewest, if it can move.
    fn move_of(&self, draft: &Draft, sets: &[CountSet], at: usize) -> Option<Move>
        requires board { IsBoard self.now }
        requires draft { IsDraft self.now draft.now }
        requires sets { AreCountSets self.now draft.now.counts.items sets.now }
        requires within { at < length self.now.places.items }
        ensures { IsMoveOf self.now draft.now at result }
    {
        let from = draft.owners[at]?;
        let class = self.class_at(at);
        let first = sets[class].first()?;
        if first.count + 1 < draft.counts[from] {
            Some(Move {
                partition: at,
                from,
                to: self.takers[class][first.place],
            })
        } else {
            None
        }
    }
}

/// Of two moves that of the earlier partition.
fn earlier(one: Option<Move>, other: Option<Move>) -> Option<Move>
    ensures { IsEarlier one other result }
{
    let (Some(first), Some(second)) = (one, other) else {
        return one.or(other);
    };
    if second.partition < first.partition {
        other
    } else {
        one
    }
}
