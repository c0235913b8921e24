//! The owners of the partitions while they are worked out.

ghost use Rattle.std.specs.Prelude.{◌≡◌, ◌<◌, ℕ, All, IfOk, None, Some, length, replicate, slice_get, slice_set};
ghost use Rattle.std.specs.Bool.{OnTrue};
ghost use Rattle.uniform_assign.specs.Drafts.{AreCounts, IsSingle};
ghost use Rattle.uniform_assign.specs.Moves.{one_moved};

use std::alloc::{AllocError, Global};

/// The owners of the partitions while they are worked out.
#[derive(Drop)]
pub(crate) struct Draft {
    /// For each partition, in partition order, the place of its owner among the members.
    pub owners: Vec<Option<usize>>,
    /// For each member, in member order, how many partitions it owns.
    pub counts: Vec<usize>,
}

impl Draft {
    /// A draft of partitions without owners, among members.
    pub fn new(alloc: Global, partitions: usize, members: usize) -> Result<Draft, AllocError>
        ensures owners { IfOk result (λ draft. draft.owners.items ≡ replicate partitions None) }
        ensures counts { IfOk result (λ draft. draft.counts.items ≡ replicate members 0) }
    {
        let owners = no_owners(alloc, partitions)?;
        let counts = vec![in alloc; 0; members]?;
        Ok(Draft { owners, counts })
    }

    /// Whether each partition has an owner, which owns no other.
    pub fn is_single(&self) -> bool
        requires { AreCounts self.now.owners.items self.now.counts.items }
        ensures { OnTrue result (IsSingle self.now) }
    {
        for owner in &self.owners {
            let Some(member) = *owner else {
                return false;
            };
            if self.counts[member] > 1 {
                return false;
            }
        }
        true
    }

    /// Gives the partition at a place to the member at a place, from its owner if it has one.
    pub fn give(&mut self, partition: usize, member: usize)
        requires partition_in { partition < length self.old.owners.items }
        requires member_in { member < length self.old.counts.items }
        requires counts { AreCounts self.old.owners.items self.old.counts.items }
        ensures owners { self.new.owners.items ≡ slice_set self.old.owners.items partition (Some member) }
        ensures counts { AreCounts self.new.owners.items self.new.counts.items }
        ensures moved { (owner : ℕ) → slice_get self.old.owners.items partition ≡ Some (Some owner)
            → self.new.counts.items ≡ one_moved self.old.counts.items owner member }
        ensures as_many { length self.new.counts.items ≡ length self.old.counts.items }
    {
        if let Some(owner) = self.owners[partition] {
            self.counts[owner] -= 1;
        }
        self.owners[partition] = Some(member);
        self.counts[member] += 1;
    }
}

/// No owner for each partition.
pub(crate) fn no_owners(alloc: Global, partitions: usize) -> Result<Vec<Option<usize>>, AllocError>
    ensures { IfOk result (λ owners. owners.items ≡ replicate partitions None) }
{
    vec![in alloc; None; partitions]
}
