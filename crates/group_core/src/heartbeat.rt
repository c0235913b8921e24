//! One heartbeat at a group (KIP-848, "Consumer Group Heartbeat").
ghost use Rattle.std.specs.Prelude.{◌≡◌, ◌≤◌, ◌-◌, IfOk, OnErr, true, length, vec_capacity};
ghost use Rattle.group_types.specs.Limits.{LONGEST_STRING};
ghost use Rattle.group_types.specs.Sound.{IsSound};
ghost use Rattle.group_types.specs.Request.{kind_of};
ghost use Rattle.group_types.specs.Checks.{Accepted, sender_of, verdict_on};
ghost use Rattle.group_types.specs.HeartbeatStep.{HeartbeatStep, StepOf};
ghost use Rattle.kip_msgs.specs.Views.{heartbeat_request_value};
ghost use Rattle.group_epochs.specs.Request.{arrival_of, heartbeat_of};
ghost use Rattle.group_core.specs.GroupView.{IsGroup, Keeps, KeepsHolders, group_of};
ghost use Rattle.group_core.specs.Outcome.{answer_of, IsCurrent, IsResponse};
ghost use Rattle.group_core.specs.Steady.{AreMarked};

use crate::judge::judge;
use crate::leave::{go_away, leave};
use crate::mark::mark_replied;
use crate::outcome::Outcome;
use crate::state::State;
use crate::steady::{beat_steadily, is_steady_beat};
use crate::taking::{enter, refuse};
use group_epochs::Refusal;
use group_types::{Moment, Stamp};
use kip_msgs::HeartbeatRequest;
use std::alloc::AllocError;
use topic_meta::Image;

/// Answers a heartbeat, where it may be known that the view is that of the image. Where memory is short, the group is
/// as it was.
pub fn respond(
    state: &mut State,
    request: &HeartbeatRequest<'_>,
    stamp: Stamp,
    moment: Moment,
    image: &Image,
    is_current: bool,
    out: &mut Vec<u8>,
) -> Result<Outcome, AllocError>
    requires group { IsGroup state.old }
    requires id { length request.now.member_id.now ≤ LONGEST_STRING }
    requires current { is_current ≡ true → IsCurrent (group_of state.old) image.now }
    ensures step { IfOk result (λ outcome. HeartbeatStep (group_of state.old)
        (arrival_of (heartbeat_request_value request.now) stamp moment image.now) (answer_of outcome) (group_of state.new)) }
    ensures response { IfOk result (λ outcome. IsResponse (answer_of outcome) (group_of state.new) image.now (vec_capacity out.new - length out.new.items)) }
    ensures keeps { Keeps result state.old state.new out.old.items out.new.items }
    ensures holders { KeepsHolders result state.old state.new }
{
    if is_current && is_steady_beat(state, request) {
        if let Some(outcome) = beat_steadily(state, request, stamp, moment, out)? {
            return Ok(outcome);
        }
    }
    let outcome = answer(state, request, stamp, moment, image, out)?;
    mark_replied(state, &outcome);
    Ok(outcome)
}

/// Answers a heartbeat. Where memory is short, the group is as it was.
fn answer(
    state: &mut State,
    request: &HeartbeatRequest<'_>,
    stamp: Stamp,
    moment: Moment,
    image: &Image,
    out: &mut Vec<u8>,
) -> Result<Outcome, AllocError>
    requires group { IsGroup state.old }
    requires id { length request.now.member_id.now ≤ LONGEST_STRING }
    ensures step { IfOk result (λ outcome. HeartbeatStep (group_of state.old)
        (arrival_of (heartbeat_request_value request.now) stamp moment image.now) (answer_of outcome) (group_of state.new)) }
    ensures response { IfOk result (λ outcome. IsResponse (answer_of outcome) (group_of state.new) image.now (vec_capacity out.new - length out.new.items)) }
    ensures keeps { Keeps result state.old state.new out.old.items out.new.items }
    ensures holders { KeepsHolders result state.old state.new }
{
    match judge(state, request, stamp) {
        Ok(()) => accept(state, request, stamp, moment, image, out),
        Err(Refusal::Refused(code)) => refuse(code, out),
        Err(Refusal::Overtaken) => Ok(Outcome::Overtaken),
    }
}

/// Answers a heartbeat that the checks accept. Where memory is short, the group is as it was.
fn accept(
    state: &mut State,
    request: &HeartbeatRequest<'_>,
    stamp: Stamp,
    moment: Moment,
    image: &Image,
    out: &mut Vec<u8>,
) -> Result<Outcome, AllocError>
    requires group { IsGroup state.old }
    requires id { length request.now.member_id.now ≤ LONGEST_STRING }
    requires accepted { let q = heartbeat_of (heartbeat_request_value request.now) in
        verdict_on (kind_of q.epoch) (sender_of state.old.records.records q) (group_of state.old) q stamp ≡ Accepted }
    ensures step { let a = arrival_of (heartbeat_request_value request.now) stamp moment image.now in
        IfOk result (λ outcome. StepOf (kind_of a.heartbeat.epoch) (sender_of state.old.records.records a.heartbeat)
        (group_of state.old) a (answer_of outcome) (group_of state.new)) }
    ensures response { IfOk result (λ outcome. IsResponse (answer_of outcome) (group_of state.new) image.now (vec_capacity out.new - length out.new.items)) }
    ensures keeps { Keeps result state.old state.new out.old.items out.new.items }
    ensures holders { KeepsHolders result state.old state.new }
{
    match request.member_epoch {
        0.. => enter(state, request, stamp, moment, image, out),
        -2 => go_away(state, request.member_id, stamp, moment, out),
        _ => leave(state, request.member_id, stamp, moment, out),
    }
}
