//! What a group is stored as.
ghost use Rattle.std.specs.Prelude.{◌≡◌};
ghost use Rattle.std.specs.FinMap as finite;
ghost use Rattle.group_types.specs.Group.{starting_group};

use group_epochs::Records;
use group_reconcile::Grants;
use group_target::Target;
use group_types::{EpochNumber, Moment};
use offset_guard::Offsets;
use std::alloc::Global;
use std::collections::hash_map::RandomState;
use topic_meta::View;

/// The state of a group, field by field (KIP-848, "Group Coordinator").
#[derive(Drop)]
pub struct State {
    pub alloc: Global,
    pub salt: u64,
    pub epoch: EpochNumber,
    pub target: Target,
    pub records: Records,
    pub grants: Grants,
    /// What the members have committed.
    pub offsets: Offsets,
    pub view: View,
    /// The greatest moment that was used.
    pub clock: Moment,
    /// The serial of the last id that was made.
    pub ids_made: u64,
}

impl State {
    ghost use Rattle.group_core.specs.GroupView.{group_of};

    /// A group that nobody has joined, whose epoch and target epoch are this one. Takes no memory.
    pub fn starting_at(alloc: Global, salt: u64, hasher: RandomState, epoch: EpochNumber) -> State
        ensures group { group_of result ≡ starting_group salt epoch }
        ensures marks { result.records.marks ≡ finite.empty }
        ensures holders { result.grants ≡ finite.empty }
    {
        State {
            alloc,
            salt,
            epoch,
            target: Target::new(alloc, epoch),
            records: Records::new(alloc, hasher),
            grants: Grants::new(alloc),
            offsets: Offsets::new(alloc, hasher),
            view: View::empty(alloc),
            clock: Moment::of_millis(0),
            ids_made: 0,
        }
    }
}
