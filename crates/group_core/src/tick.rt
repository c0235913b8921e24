//! Ticks: members whose deadline has come leave (KIP-848, "Session Management", "Rebalance Timeout").
ghost use Rattle.std.specs.Prelude.{◌≡◌, IsSome, Some, length};
ghost use Rattle.group_types.specs.Text.{Text};
ghost use Rattle.group_types.specs.Group.{Record};
ghost use Rattle.group_types.specs.Leave.{without_member};
ghost use Rattle.group_types.specs.Sound.{IsSound};
ghost use Rattle.group_types.specs.Tick.{due, removed_by_tick, ticked, without_members};
ghost use Rattle.group_epochs.specs.Table.{member_at};
ghost use Rattle.group_reconcile.specs.Offers.{KeepsSince};
ghost use Rattle.group_core.specs.GroupView.{group_of};
ghost use Rattle.group_core.specs.Steady.{AreMarked};

use crate::leave::risen;
use crate::state::State;
use group_types::Moment;

/// Removes the members whose deadline has come, and says how many. Takes no memory.
pub fn tick(state: &mut State, moment: Moment) -> usize
    requires sound { IsSound (group_of state.old) }
    requires marks { AreMarked (group_of state.old) state.old.records.marks }
    ensures ticked { group_of state.new ≡ ticked (group_of state.old) moment }
    ensures removed { result ≡ removed_by_tick (group_of state.old) moment }
    ensures since { KeepsSince state.old.grants state.new.grants }
    ensures marks { AreMarked (group_of state.new) state.new.records.marks }
{
    state.clock = state.clock.later(moment);
    let removed = remove_due(state);
    if removed != 0 {
        state.epoch = risen(state.epoch);
    }
    removed
}

/// Removes the members whose deadline has come by the group's clock, in the order of their ids, and says how many. Takes no memory.
fn remove_due(state: &mut State) -> usize
    requires sound { IsSound (group_of state.old) }
    requires marks { AreMarked (group_of state.old) state.old.records.marks }
    ensures group { group_of state.new ≡ without_members (group_of state.old) (due (group_of state.old)) }
    ensures removed { result ≡ length (due (group_of state.old)) }
    ensures since { KeepsSince state.old.grants state.new.grants }
    ensures marks { AreMarked (group_of state.new) state.new.records.marks }
{
    let mut removed = 0;
    while let Some(rank) = state.records.due(state.clock) {
        remove_at(state, rank);
        removed += 1;
    }
    removed
}

/// Target, grants and records lose the member at a rank, whose id is remembered with its last stamp. Takes no memory.
fn remove_at(state: &mut State, rank: usize)
    requires there { IsSome (member_at state.old.records.records rank) }
    requires marks { AreMarked (group_of state.old) state.old.records.marks }
    ensures group { (m : Text) (r : Record) → member_at state.old.records.records rank ≡ Some (m, r)
        → group_of state.new ≡ without_member (group_of state.old) m r.stamp }
    ensures since { KeepsSince state.old.grants state.new.grants }
    ensures marks { AreMarked (group_of state.new) state.new.records.marks }
{
    let Some(id) = state.records.id_at(rank) else {
        unreachable!()
    };
    let id = id.as_str();
    state.target.drop_member(id);
    state.grants.drop_member(id);
    state.records.leave_at(rank);
}
