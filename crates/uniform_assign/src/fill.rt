//! Owners for the partitions that have none.

ghost use Rattle.std.specs.Prelude.{◌≡◌, ◌<◌, None, OnOk, Some, length, slice_get};
ghost use Rattle.group_types.specs.declared.partition.Partition.{Partition as Key};
ghost use Rattle.group_types.specs.Text.{Text};
ghost use Rattle.group_types.specs.Uniform.{AreFilled, Fills, in_partition_order};
ghost use Rattle.uniform_assign.specs.Boards.{IsBoard, IsOfClass, members_on};
ghost use Rattle.uniform_assign.specs.CountSets.{IsSetOf};
ghost use Rattle.uniform_assign.specs.Drafts.{IsDraft, drawn_on};

use crate::board::Board;
use crate::count_set::CountSet;
use crate::draft::Draft;
use std::alloc::{AllocError, Global};

/// The takers of a class in the order of their counts, by their places among them.
#[derive(Drop)]
struct Queue {
    class: usize,
    counts: CountSet,
}

impl Board<'_> {
    /// Gives each partition without an owner, in partition order, to the subscriber that owns the fewest, if anybody
    /// subscribes it.
    pub fn fill(&self, alloc: Global, draft: &mut Draft) -> Result<(), AllocError>
        requires board { IsBoard self.now }
        requires draft { IsDraft self.now draft.old }
        ensures draft { OnOk result (IsDraft self.now draft.new) }
        ensures filled { OnOk result (AreFilled (members_on self.now) (drawn_on self.now draft.old.owners.items)
            (in_partition_order self.now.view.now) (drawn_on self.now draft.new.owners.items)) }
    {
        let mut queue = Queue {
            class: self.takers.len(),
            counts: CountSet::of(alloc, &draft.counts, &[])?,
        };
        for at in 0..self.places.len() {
            if draft.owners[at].is_none() {
                self.turn_to(alloc, draft, &mut queue, self.class_at(at))?;
                self.give_first(draft, &mut queue, at);
            }
        }
        Ok(())
    }

    /// Makes the queue that of a class, if it isn't.
    fn turn_to(
        &self,
        alloc: Global,
        draft: &Draft,
        queue: &mut Queue,
        class: usize,
    ) -> Result<(), AllocError>
        requires board { IsBoard self.now }
        requires draft { IsDraft self.now draft.now }
        requires class_in { class < length self.now.takers.items }
        requires queue { IsSetOf self.now draft.now queue.old.class queue.old.counts }
        ensures class { OnOk result (queue.new.class ≡ class) }
        ensures queue { OnOk result (IsSetOf self.now draft.now class queue.new.counts) }
    {
        if queue.class != class {
            queue.counts = CountSet::of(alloc, &draft.counts, &self.takers[class])?;
            queue.class = class;
        }
        Ok(())
    }

    /// Gives a partition of the queue's class to the first in the queue, if anybody is in it.
    fn give_first(&self, draft: &mut Draft, queue: &mut Queue, at: usize)
        requires board { IsBoard self.now }
        requires draft { IsDraft self.now draft.old }
        requires free { slice_get draft.old.owners.items at ≡ Some None }
        requires class { IsOfClass self.now at queue.old.class }
        requires queue { IsSetOf self.now draft.old queue.old.class queue.old.counts }
        ensures draft { IsDraft self.now draft.new }
        ensures class { queue.new.class ≡ queue.old.class }
        ensures queue { IsSetOf self.now draft.new queue.old.class queue.new.counts }
        ensures filled { (x : Text × Key) → slice_get (in_partition_order self.now.view.now) at ≡ Some x
            → Fills (members_on self.now) (drawn_on self.now draft.old.owners.items) x (drawn_on self.now draft.new.owners.items) }
    {
        if let Some(first) = queue.counts.first() {
            let member = self.takers[queue.class][first.place];
            draft.give(at, member);
            queue.counts.set(first.place, draft.counts[member]);
        }
    }
}
