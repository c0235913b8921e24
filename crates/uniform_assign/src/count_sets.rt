//! The takers of each class in the order of their counts, while partitions move.

ghost use Rattle.std.specs.Prelude.{◌<◌, ℕ, List, IfOk, length, slice_set};
ghost use Rattle.uniform_assign.specs.Boards.{IsBoard};
ghost use Rattle.uniform_assign.specs.Drafts.{IsDraft};
ghost use Rattle.uniform_assign.specs.CountSets.{AreCountSets};
ghost use Rattle.uniform_assign.specs.Seats.{AreSeatsOf};

use crate::board::Board;
use crate::count_set::CountSet;
use crate::draft::Draft;
use crate::seats::Seat;
use std::alloc::{AllocError, Global};

impl Board<'_> {
    /// For each class its takers in order.
    pub fn count_sets(&self, alloc: Global, draft: &Draft) -> Result<Vec<CountSet>, AllocError>
        requires board { IsBoard self.now }
        requires draft { IsDraft self.now draft.now }
        ensures { IfOk result (λ sets. AreCountSets self.now draft.now.counts.items sets.items) }
    {
        let mut sets = Vec::with_capacity(alloc, self.takers.len())?;
        for class in 0..self.takers.len() {
            sets.push(CountSet::of(alloc, &draft.counts, &self.takers[class])?)?;
        }
        Ok(sets)
    }

    /// Writes the count of a member in the order of each class that it is a taker of.
    pub fn renew(&self, sets: &mut Vec<CountSet>, seats: &[Seat], member: usize, count: usize)
        requires board { IsBoard self.now }
        requires seats { AreSeatsOf self.now member seats.now }
        requires known { (counts : List ℕ) × (member < length counts) × AreCountSets self.now counts sets.old.items }
        ensures { (counts : List ℕ) → member < length counts → AreCountSets self.now counts sets.old.items
            → AreCountSets self.now (slice_set counts member count) sets.new.items }
    {
        for seat in seats {
            sets[seat.class].set(seat.place, count);
        }
    }
}
