//! What a target wants of a member.
ghost use Rattle.std.specs.Prelude.{◌≡◌, IfOk, unwrap_or};
ghost use Rattle.std.specs.Option.{option_copied};
ghost use Rattle.group_types.specs.Sets.{nothing, has};

use crate::epoch::EpochNumber;
use crate::part_set::PartSet;
use crate::partition::Partition;
use std::alloc::{AllocError, Global};
use std::marker::Model;

/// The partitions of a member in a target, and the target's epoch.
#[derive(Drop)]
pub struct Wanted<'a> {
    partitions: Option<&'a PartSet>,
    epoch: EpochNumber,
}

impl<'a> Model for Wanted<'a> {
    ghost use Rattle.std.specs.Prelude.{unwrap_or};
    ghost use Rattle.std.specs.Option.{option_copied};
    ghost use Rattle.group_types.specs.Sets.{nothing};
    ghost use Rattle.group_types.specs.Wanted.{TargetPart, target_part_code};

    ghost Value = { TargetPart };

    ghost coded = { target_part_code };

    ghost view = { λ w. record { partitions = unwrap_or (option_copied w.partitions) nothing; epoch = w.epoch } };
}

impl<'a> Wanted<'a> {
    /// What a target of this epoch wants, no partition where it has no set for the member.
    pub fn new(set: Option<&'a PartSet>, epoch: EpochNumber) -> Wanted<'a>
        ensures partitions { result.partitions ≡ unwrap_or (option_copied set.entry) nothing }
        ensures epoch { result.epoch ≡ epoch }
    {
        Wanted {
            partitions: set,
            epoch,
        }
    }

    /// Whether the target has the partition for the member.
    pub fn contains(&self, p: &Partition) -> bool
        ensures { result ≡ has self.now.partitions p.now }
    {
        match self.set() {
            Some(set) => set.contains(p),
            None => false,
        }
    }

    /// The epoch of the target.
    pub fn epoch(&self) -> EpochNumber
        ensures { result ≡ self.now.epoch }
    {
        self.epoch
    }

    /// The member's set in the target. Where the target has no partition for it, that is no set or an empty one.
    pub fn set(&self) -> Option<&'a PartSet>
        ensures { unwrap_or (option_copied result) nothing ≡ self.now.partitions }
    {
        self.partitions
    }

    /// A copy of the member's partitions. Fails where memory is short.
    pub fn copy_set(&self, alloc: Global) -> Result<PartSet, AllocError>
        ensures { IfOk result (λ copy. copy ≡ self.now.partitions) }
    {
        match self.set() {
            Some(set) => set.copy(alloc),
            None => Ok(PartSet::new(alloc)),
        }
    }
}
