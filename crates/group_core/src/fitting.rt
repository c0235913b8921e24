//! The members of a group that was read: what is looked at before it goes on.
ghost use Rattle.std.specs.Prelude.{◌≡◌, ◌↔◌, IsTrue, Some};
ghost use Rattle.std.specs.FinMap as finite;
ghost use Rattle.std.specs.List.{list_all};
ghost use Rattle.group_types.specs.declared.partition.Partition.{Partition as Key};
ghost use Rattle.group_types.specs.Leave.{last_epoch};
ghost use Rattle.group_types.specs.Sets.{has, in_order};
ghost use Rattle.group_reconcile.specs.Holders.{pairs};
ghost use Rattle.group_core.specs.GroupView.{group_of};
ghost use Rattle.group_core.specs.Restoring.{MemberFits, MembersFit};

use crate::state::State;
use group_epochs::Record;
use group_reconcile::Grants;
use group_target::Target;
use group_types::{EpochNumber, PartSet, Wanted};

/// Whether each member's epoch is at most the target's, and at the target's it holds no more than its target. Takes no memory.
pub fn members_fit(state: &State) -> bool
    ensures { IsTrue result ↔ MembersFit (group_of state.now) }
{
    for rank in 0..state.records.len() {
        let Some((id, record)) = state.records.member_at(rank) else {
            unreachable!()
        };
        if !member_fits(state, id.as_str(), record) {
            return false;
        }
    }
    true
}

/// Whether the member's epoch is at most the target's, and at the target's it holds no more than its target.
fn member_fits(state: &State, id: &str, record: &Record) -> bool
    ensures { IsTrue result ↔ MemberFits (group_of state.now) id.now «record».now }
{
    let last = last_epoch(record);
    let target = state.target.epoch();
    last < target || (last == target && holds_its_own(&state.grants, &state.target, id))
}

/// The last member epoch that was a number.
fn last_epoch(record: &Record) -> EpochNumber
    ensures { result ≡ last_epoch «record».now }
{
    match record.epoch().number() {
        Some(epoch) => epoch,
        None => record.previous_epoch(),
    }
}

/// Whether the member holds no more than its target.
fn holds_its_own(grants: &Grants, target: &Target, id: &str) -> bool
    ensures { IsTrue result ↔ ((p : Key) → IsTrue (has (pairs grants.now) (id.now, p)) → finite.get target.now.owners p ≡ Some id.now) }
{
    match grants.held(id) {
        Some(held) => are_wanted(&target.of(id), held),
        None => true,
    }
}

/// Whether the target has each partition of the set for the member.
fn are_wanted(wanted: &Wanted<'_>, set: &PartSet) -> bool
    ensures { result ≡ list_all (has wanted.now.partitions) (in_order set.now) }
{
    set.iter().all(|p| wanted.contains(p))
}
