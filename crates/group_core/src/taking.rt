//! A join or a beat (KIP-848, "Consumer Group Heartbeat", member epochs from 0 on): its draft, its change, its renewal, its settling and
//! its reply.
ghost use Rattle.std.specs.Prelude.{◌≡◌, ◌≢◌, ◌≤◌, ◌≤ℤ◌, ◌-◌, IfOk, length, pos, vec_capacity};
ghost use Rattle.group_types.specs.Limits.{LONGEST_STRING};
ghost use Rattle.group_types.specs.Request.{kind_of};
ghost use Rattle.group_types.specs.Checks.{Accepted, sender_of, verdict_on};
ghost use Rattle.group_types.specs.Topics.{Topics};
ghost use Rattle.group_types.specs.Group.{Group};
ghost use Rattle.group_types.specs.HeartbeatStep.{Replied, StepOf, refusal};
ghost use Rattle.group_core.specs.CodeOrder.{TakesInLate};
ghost use Rattle.kip_msgs.specs.Views.{heartbeat_request_value};
ghost use Rattle.group_epochs.specs.Request.{arrival_of, heartbeat_of};
ghost use Rattle.group_core.specs.GroupView.{IsGroup, Keeps, KeepsHolders, group_of};
ghost use Rattle.group_core.specs.Outcome.{answer_of, IsResponse};
ghost use Rattle.group_core.specs.Stages.{IsFit, draft_in};

use crate::change::renewal_of;
use crate::draft::Draft;
use crate::naming::draft_of;
use crate::outcome::{Outcome, Reply};
use crate::plan::make_room;
use crate::settle::settle;
use crate::state::State;
use group_types::{Code, Moment, Stamp};
use kip_msgs::HeartbeatRequest;
use std::alloc::AllocError;
use topic_meta::Image;

/// Answers a join or a beat that the checks accept. Where memory is short, the group is as it was.
pub fn enter(
    state: &mut State,
    request: &HeartbeatRequest<'_>,
    stamp: Stamp,
    moment: Moment,
    image: &Image,
    out: &mut Vec<u8>,
) -> Result<Outcome, AllocError>
    requires group { IsGroup state.old }
    requires id { length request.now.member_id.now ≤ LONGEST_STRING }
    requires epoch { pos 0 ≤ℤ request.now.member_epoch }
    requires accepted { let q = heartbeat_of (heartbeat_request_value request.now) in
        verdict_on (kind_of q.epoch) (sender_of state.old.records.records q) (group_of state.old) q stamp ≡ Accepted }
    ensures step { let a = arrival_of (heartbeat_request_value request.now) stamp moment image.now in
        IfOk result (λ outcome. StepOf (kind_of a.heartbeat.epoch) (sender_of state.old.records.records a.heartbeat)
        (group_of state.old) a (answer_of outcome) (group_of state.new)) }
    ensures response { IfOk result (λ outcome. IsResponse (answer_of outcome) (group_of state.new) image.now (vec_capacity out.new - length out.new.items)) }
    ensures keeps { Keeps result state.old state.new out.old.items out.new.items }
    ensures holders { KeepsHolders result state.old state.new }
{
    let now = state.clock.later(moment);
    match draft_of(state, request, stamp, now)? {
        Some(draft) => take_in(state, draft, request, now, image, out),
        None => refuse(Code::CoordinatorNotAvailable, out),
    }
}

/// Takes in a draft, over the node's image. Where memory is short, the group is as it was.
fn take_in(
    state: &mut State,
    draft: Draft,
    request: &HeartbeatRequest<'_>,
    now: Moment,
    image: &Image,
    out: &mut Vec<u8>,
) -> Result<Outcome, AllocError>
    requires group { IsGroup state.old }
    requires fit { IsFit state.old draft }
    requires epoch { pos 0 ≤ℤ request.now.member_epoch }
    ensures step { IfOk result (λ outcome. TakesInLate (group_of state.old) (draft_in (group_of state.old) draft now)
        (heartbeat_of (heartbeat_request_value request.now)) image.now (answer_of outcome) (group_of state.new)) }
    ensures response { IfOk result (λ outcome. IsResponse (answer_of outcome) (group_of state.new) image.now (vec_capacity out.new - length out.new.items)) }
    ensures keeps { Keeps result state.old state.new out.old.items out.new.items }
    ensures holders { KeepsHolders result state.old state.new }
{
    match renewal_of(state, &draft, image)? {
        Some(renewal) => settle(state, draft, renewal, request, now, out),
        None => refuse(Code::CoordinatorNotAvailable, out),
    }
}

/// Refuses a heartbeat; there is room for the reply in `out` then.
pub fn refuse(code: Code, out: &mut Vec<u8>) -> Result<Outcome, AllocError>
    requires { code ≢ Code.NoError }
    ensures answer { IfOk result (λ outcome. answer_of outcome ≡ Replied (refusal code)) }
    ensures response { (g : Group) (image : Topics) → IfOk result (λ outcome. IsResponse (answer_of outcome) g image (vec_capacity out.new - length out.new.items)) }
    ensures out { out.new.items ≡ out.old.items }
{
    make_room(out, "", &None)?;
    Ok(Outcome::Reply(Reply::refusal(code)))
}
