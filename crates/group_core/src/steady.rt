//! A beat that gives nothing, of a member that has nothing to be told: no walk and no look at another member (ours).
ghost use Rattle.std.specs.Prelude.{◌≡◌, ◌≤◌, ◌-◌, IfNone, IfOk, IfSome, IsSome, IsTrue, length, vec_capacity};
ghost use Rattle.group_types.specs.Limits.{LONGEST_STRING};
ghost use Rattle.group_types.specs.Topics.{Topics};
ghost use Rattle.group_types.specs.HeartbeatStep.{HeartbeatStep};
ghost use Rattle.kip_msgs.specs.Views.{heartbeat_request_value};
ghost use Rattle.group_epochs.specs.Records.{GivesNothing, IsMarkedBeat};
ghost use Rattle.group_epochs.specs.Request.{arrival_of, heartbeat_of};
ghost use Rattle.group_core.specs.GroupView.{IsGroup, Keeps, KeepsHolders, group_of};
ghost use Rattle.group_core.specs.Outcome.{answer_of, IsCurrent, IsResponse};
ghost use Rattle.group_core.specs.Steady.{IsSteadyBeat};

use crate::checks;
use crate::outcome::{Outcome, Reply};
use crate::plan::id_with_room;
use crate::state::State;
use group_types::{Epoch, Moment, Stamp};
use kip_msgs::HeartbeatRequest;
use std::alloc::AllocError;

/// Whether the heartbeat is a steady beat, but for what its member's record says. Takes no memory, and no look-up.
pub fn is_steady_beat(state: &State, request: &HeartbeatRequest<'_>) -> bool
    ensures { IsTrue result → IsSteadyBeat state.now (heartbeat_of (heartbeat_request_value request.now)) }
{
    let epoch = state.target.epoch();
    if request.member_epoch < 1 || !gives_nothing(request) {
        return false;
    }
    if state.epoch != epoch || epoch.as_i32() != request.member_epoch {
        return false;
    }
    checks::refusal_of(request).is_none()
}

/// Whether the heartbeat gives nothing for its member's record.
fn gives_nothing(request: &HeartbeatRequest<'_>) -> bool
    ensures { IsTrue result → GivesNothing (heartbeat_of (heartbeat_request_value request.now)) }
{
    request.rack_id.is_none()
        && request.subscribed_topic_names.is_none()
        && request.server_assignor.is_none()
        && request.rebalance_timeout_ms == -1
}

/// Answers a steady beat whose member is marked at the target's epoch, where the stamp comes after its last one: the stamp and
/// the time are stored. Has no answer for another beat, and the group is as it was. Takes the reply's id and the room in `out`, both
/// before anything is stored, and one look-up.
pub fn beat_steadily(
    state: &mut State,
    request: &HeartbeatRequest<'_>,
    stamp: Stamp,
    moment: Moment,
    out: &mut Vec<u8>,
) -> Result<Option<Outcome>, AllocError>
    requires group { IsGroup state.old }
    requires id { length request.now.member_id.now ≤ LONGEST_STRING }
    requires steady { IsSteadyBeat state.old (heartbeat_of (heartbeat_request_value request.now)) }
    ensures step { (image : Topics) → IsCurrent (group_of state.old) image → IfOk result (λ answer. IfSome answer (λ outcome. HeartbeatStep (group_of state.old)
        (arrival_of (heartbeat_request_value request.now) stamp moment image) (answer_of outcome) (group_of state.new))) }
    ensures response { (image : Topics) → IsCurrent (group_of state.old) image → IfOk result (λ answer. IfSome answer (λ outcome.
        IsResponse (answer_of outcome) (group_of state.new) image (vec_capacity out.new - length out.new.items))) }
    ensures some { IsMarkedBeat state.old.records request.now.member_id.now state.old.target.epoch stamp → IfOk result (λ answer. IsSome answer) }
    ensures none { IfOk result (λ answer. IfNone answer (state.new ≡ state.old)) }
    ensures keeps { Keeps result state.old state.new out.old.items out.new.items }
    ensures holders { KeepsHolders result state.old state.new }
{
    let id = id_with_room(state.alloc, request.member_id, &None, out)?;
    let now = state.clock.later(moment);
    let epoch = state.target.epoch();
    if !state
        .records
        .beat_marked(request.member_id, epoch, stamp, now)
    {
        return Ok(None);
    }
    state.clock = now;
    let reply = Reply::acceptance(id, Epoch::At(epoch), None);
    Ok(Some(Outcome::Reply(reply)))
}
