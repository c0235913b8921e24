//! Settles a draft whose target was renewed, and replies to it.
ghost use Rattle.std.specs.Prelude.{◌≡◌, ◌≤◌, ◌≤ℤ◌, ◌-◌, IfOk, OnErr, Some, length, pos, vec_capacity};
ghost use Rattle.group_types.specs.Topics.{Topics};
ghost use Rattle.group_types.specs.Request.{reported};
ghost use Rattle.group_core.specs.CodeOrder.{TakesInLate};
ghost use Rattle.kip_msgs.specs.Views.{heartbeat_request_value};
ghost use Rattle.group_epochs.specs.Request.{heartbeat_of};
ghost use Rattle.group_core.specs.GroupView.{IsGroup, Keeps, KeepsHolders, group_of};
ghost use Rattle.group_core.specs.Outcome.{answer_of, IsResponse, room_for};
ghost use Rattle.group_core.specs.Stages.{AreOfView, IsFit, IsOffered, IsPlan, IsRenewalOf, draft_in, target_then};

use crate::carry::carry_out;
use crate::change::Renewal;
use crate::draft::Draft;
use crate::outcome::Outcome;
use crate::plan::{Plan, plan_of, target_of};
use crate::reported::reported;
use crate::state::State;
use group_reconcile::{MemberTarget, Verdict};
use group_types::{Moment, PartSet};
use kip_msgs::HeartbeatRequest;
use std::alloc::AllocError;

/// Settles the member of a draft on the target that its renewal leaves, and replies (KIP-848, "Reconciliation of the group").
/// Where memory is short, the group is as it was.
pub fn settle(
    state: &mut State,
    draft: Draft,
    renewal: Renewal,
    request: &HeartbeatRequest<'_>,
    now: Moment,
    out: &mut Vec<u8>,
) -> Result<Outcome, AllocError>
    requires group { IsGroup state.old }
    requires fit { IsFit state.old draft }
    requires renewal { (image : Topics) × IsRenewalOf state.old draft image renewal }
    requires epoch { pos 0 ≤ℤ request.now.member_epoch }
    ensures step { (image : Topics) → IsRenewalOf state.old draft image renewal → IfOk result (λ outcome. TakesInLate (group_of state.old)
        (draft_in (group_of state.old) draft now) (heartbeat_of (heartbeat_request_value request.now)) image (answer_of outcome) (group_of state.new)) }
    ensures response { (image : Topics) → IsRenewalOf state.old draft image renewal → IfOk result (λ outcome.
        IsResponse (answer_of outcome) (group_of state.new) image (vec_capacity out.new - length out.new.items)) }
    ensures keeps { Keeps result state.old state.new out.old.items out.new.items }
    ensures holders { KeepsHolders result state.old state.new }
{
    let (plan, moves) = prepare(state, &draft, &renewal, request, out)?;
    let reply = carry_out(state, draft, renewal, plan, moves, now);
    Ok(Outcome::Reply(reply))
}

/// Makes all that the reply to a draft needs of memory, and offers the draft's member its part of the target, which is the last that
/// may fail. Says whether the member moves. Where memory is short, the state is as it was.
fn prepare(
    state: &mut State,
    draft: &Draft,
    renewal: &Renewal,
    request: &HeartbeatRequest<'_>,
    out: &mut Vec<u8>,
) -> Result<(Plan, bool), AllocError>
    requires owned { AreOfView (target_then state.old renewal.now).owners renewal.now.view }
    requires epoch { pos 0 ≤ℤ request.now.member_epoch }
    ensures plan { let q = heartbeat_of (heartbeat_request_value request.now) in
        IfOk result (λ made. IsPlan state.old draft.now renewal.now q (reported q) made.0) }
    ensures offer { let q = heartbeat_of (heartbeat_request_value request.now) in
        IfOk result (λ made. IsOffered state.old draft.now renewal.now (reported q) made.1 state.new) }
    ensures room { IfOk result (λ made. room_for (Some made.0.id) made.0.assignment ≤ vec_capacity out.new - length out.new.items) }
    ensures out { out.new.items ≡ out.old.items }
    ensures err { OnErr result (state.new ≡ state.old) }
{
    let owned = reported(state.alloc, request)?;
    let plan = plan_of(state, draft, renewal, &owned, request, out)?;
    let moves = offered(state, draft, renewal, &owned)?;
    Ok((plan, moves))
}

/// Offers the draft's member its part of the target, and says whether it moves.
fn offered(
    state: &mut State,
    draft: &Draft,
    renewal: &Renewal,
    owned: &Option<PartSet>,
) -> Result<bool, AllocError>
    requires owned { AreOfView (target_then state.old renewal.now).owners renewal.now.view }
    ensures offer { IfOk result (λ moves. IsOffered state.old draft.now renewal.now owned.now moves state.new) }
    ensures err { OnErr result (state.new ≡ state.old) }
{
    let id = &draft.member.id;
    let target = target_of(&renewal.target, &state.target);
    let target = MemberTarget {
        wanted: target.of(id.as_str()),
    };
    let verdict = state.grants.offer(id, &target, owned.as_ref())?;
    Ok(matches!(verdict, Verdict::Moves))
}
