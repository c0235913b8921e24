//! Marks members that have nothing to be told.
ghost use Rattle.std.specs.Prelude.{◌≡◌, IsTrue};
ghost use Rattle.group_core.specs.GroupView.{group_of};
ghost use Rattle.group_core.specs.Steady.{AreMarked, IsSettledAt, IsSteady};

use crate::outcome::Outcome;
use crate::state::State;
use group_epochs::Record;
use group_types::{Epoch, EpochNumber, PartSet};

/// Marks the member that is replied to, where it has nothing to be told now. Takes no memory.
pub fn mark_replied(state: &mut State, outcome: &Outcome)
    requires { AreMarked (group_of state.old) state.old.records.marks }
    ensures group { group_of state.new ≡ group_of state.old }
    ensures target { state.new.target ≡ state.old.target }
    ensures holders { state.new.grants ≡ state.old.grants }
    ensures marks { AreMarked (group_of state.new) state.new.records.marks }
{
    if let Outcome::Reply(reply) = outcome {
        if let Some(id) = &reply.member {
            let id = id.as_str();
            if is_steady(state, id) {
                state.records.mark(id, state.target.epoch());
            }
        }
    }
}

/// Whether the member is at the target's epoch, holds its part of the target and nothing else, was sent it, and is asked nothing.
fn is_steady(state: &State, member: &str) -> bool
    ensures { IsTrue result → IsSteady (group_of state.now) member.now }
{
    let nothing = PartSet::new(state.alloc);
    let target = state.target.of(member);
    let wanted = target.set().unwrap_or(&nothing);
    let held = state.grants.held(member).unwrap_or(&nothing);
    let Some(record) = state.records.get(member) else {
        return false;
    };
    if !held.equals(wanted) || record.is_news(wanted) {
        return false;
    }
    is_settled_at(record, state.target.epoch())
}

/// Whether the member is at the epoch, and is asked nothing.
fn is_settled_at(record: &Record, epoch: EpochNumber) -> bool
    ensures { IsTrue result → IsSettledAt «record».now epoch }
{
    match record.epoch() {
        Epoch::At(number) => number == epoch && !record.is_releasing(),
        Epoch::Away => false,
    }
}
