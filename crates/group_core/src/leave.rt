//! A member leaves for good (KIP-848, "Consumer Group Heartbeat", member epoch -1), or a static one goes away for a while ("Static
//! Membership", member epoch -2).
ghost use Rattle.std.specs.Prelude.{◌≡◌, ◌≤◌, ◌-◌, IfOk, OnOk, Some, length, vec_capacity};
ghost use Rattle.std.specs.FinMap as finite;
ghost use Rattle.group_types.specs.Group.{Record};
ghost use Rattle.group_types.specs.Leave.{gone_away, left, risen};
ghost use Rattle.group_types.specs.Limits.{LONGEST_STRING};
ghost use Rattle.group_types.specs.Request.{GOES_AWAY_AT, LEAVES_AT};
ghost use Rattle.group_types.specs.HeartbeatStep.{Replied, farewell};
ghost use Rattle.group_types.specs.Topics.{Topics};
ghost use Rattle.group_epochs.specs.Records.{IsMember};
ghost use Rattle.group_core.specs.GroupView.{Keeps, KeepsHolders, group_of};
ghost use Rattle.group_core.specs.Outcome.{answer_of, IsResponse};
ghost use Rattle.group_core.specs.Steady.{AreMarked};

use crate::outcome::{Outcome, Reply};
use crate::plan::id_with_room;
use crate::state::State;
use group_types::{EpochNumber, Moment, Stamp};
use std::alloc::AllocError;

/// Answers a leave that the checks accept: records, target and grants lose the member, and the group epoch rises below its
/// greatest value. Where memory is short, the group is as it was.
pub fn leave(
    state: &mut State,
    member: &str,
    stamp: Stamp,
    moment: Moment,
    out: &mut Vec<u8>,
) -> Result<Outcome, AllocError>
    requires marks { AreMarked (group_of state.old) state.old.records.marks }
    requires there { IsMember state.old.records member.now }
    requires id { length member.now ≤ LONGEST_STRING }
    ensures answer { IfOk result (λ outcome. answer_of outcome ≡ Replied (farewell member.now LEAVES_AT)) }
    ensures group { OnOk result (group_of state.new ≡ left (group_of state.old) member.now stamp moment) }
    ensures response { (image : Topics) → IfOk result (λ outcome. IsResponse (answer_of outcome) (group_of state.new) image (vec_capacity out.new - length out.new.items)) }
    ensures keeps { Keeps result state.old state.new out.old.items out.new.items }
    ensures holders { KeepsHolders result state.old state.new }
{
    let id = id_with_room(state.alloc, member, &None, out)?;
    state.records.leave(member, stamp);
    state.target.drop_member(member);
    state.grants.drop_member(member);
    state.epoch = risen(state.epoch);
    state.clock = state.clock.later(moment);
    Ok(Outcome::Reply(Reply::farewell(id, -1)))
}

/// Answers a heartbeat that the checks accept and by which a member goes away: its record says so, and its target, its grants and the
/// group epoch stay. Where memory is short, the group is as it was.
pub fn go_away(
    state: &mut State,
    member: &str,
    stamp: Stamp,
    moment: Moment,
    out: &mut Vec<u8>,
) -> Result<Outcome, AllocError>
    requires marks { AreMarked (group_of state.old) state.old.records.marks }
    requires there { IsMember state.old.records member.now }
    requires id { length member.now ≤ LONGEST_STRING }
    ensures answer { IfOk result (λ outcome. answer_of outcome ≡ Replied (farewell member.now GOES_AWAY_AT)) }
    ensures group { OnOk result ((r : Record) × (finite.get state.old.records.records member.now ≡ Some r)
        × (group_of state.new ≡ gone_away (group_of state.old) member.now r stamp moment)) }
    ensures response { (image : Topics) → IfOk result (λ outcome. IsResponse (answer_of outcome) (group_of state.new) image (vec_capacity out.new - length out.new.items)) }
    ensures keeps { Keeps result state.old state.new out.old.items out.new.items }
    ensures holders { KeepsHolders result state.old state.new }
{
    let id = id_with_room(state.alloc, member, &None, out)?;
    let now = state.clock.later(moment);
    state.records.away(member, stamp, now);
    state.clock = now;
    Ok(Outcome::Reply(Reply::farewell(id, -2)))
}

/// The epoch after this one, or the greatest one again.
pub fn risen(epoch: EpochNumber) -> EpochNumber
    ensures { result ≡ risen epoch }
{
    epoch.next().unwrap_or(epoch)
}
