//! Carries out what was planned for a draft: its record, its target and its view are stored, which can't fail.
ghost use Rattle.std.specs.Prelude.{◌≡◌, IfSome, suc, unwrap_or};
ghost use Rattle.group_types.specs.Settle.{settled_record};
ghost use Rattle.group_types.specs.HeartbeatStep.{acceptance, sent_after};
ghost use Rattle.group_reconcile.specs.Holders.{pairs};
ghost use Rattle.group_epochs.specs.Records.{KeepsMarks};
ghost use Rattle.group_core.specs.GroupView.{group_of};
ghost use Rattle.group_core.specs.Outcome.{reply_of};
ghost use Rattle.group_core.specs.Since.{HasSameSince};
ghost use Rattle.group_core.specs.Stages.{HasNothing, IsFit, IsSuccessor, carried, heir_id, heir_in, record_after, stored_in, target_then};

use crate::change::Renewal;
use crate::draft::Draft;
use crate::outcome::Reply;
use crate::place::{Successor, store};
use crate::plan::Plan;
use crate::state::State;
use group_epochs::Record;
use group_types::{Epoch, EpochNumber, Moment, PartSet};

/// Stores a draft's record, where its member moves or not, and all that its renewal changed, and replies. Takes no memory.
pub fn carry_out(
    state: &mut State,
    draft: Draft,
    renewal: Renewal,
    plan: Plan,
    moves: bool,
    now: Moment,
) -> Reply
    requires fit { IsFit state.old draft }
    requires successor { IsSuccessor plan.successor (heir_id draft) }
    requires heir { IfSome (heir_id draft) (HasNothing (target_then state.old renewal).owners (pairs state.old.grants)) }
    ensures reply { reply_of result ≡ acceptance plan.id (record_after state.old draft renewal moves now) plan.assignment }
    ensures group { group_of state.new ≡ stored_in (carried state.old draft now renewal) draft.member.id
        (sent_after (record_after state.old draft renewal moves now) plan.sent) (heir_in state.old draft) }
    ensures since { HasSameSince state.old.grants state.new.grants }
    ensures marks { KeepsMarks state.old.records state.new.records draft.member.id }
{
    let Plan {
        id,
        assignment,
        sent,
        successor,
    } = plan;
    renew(state, renewal);
    let epoch = store_draft(state, draft, successor, moves, sent, now);
    Reply::acceptance(id, epoch, assignment)
}

/// Stores what a renewal changed. Takes no memory.
fn renew(state: &mut State, renewal: Renewal)
    ensures { state.new ≡ record state.old { epoch = renewal.epoch; view = renewal.view; target = unwrap_or renewal.target state.old.target } }
{
    state.epoch = renewal.epoch;
    state.view = renewal.view;
    if let Some(target) = renewal.target {
        state.target = target;
    }
}

/// Stores a draft's record once its member was settled and was sent a set, if any, and gives its epoch. Takes no memory.
fn store_draft(
    state: &mut State,
    draft: Draft,
    successor: Option<Successor>,
    moves: bool,
    sent: Option<PartSet>,
    now: Moment,
) -> Epoch
    requires fit { IsFit state.old draft }
    requires successor { IsSuccessor successor (heir_id draft) }
    requires heir { IfSome (heir_id draft) (HasNothing state.old.target.owners (pairs state.old.grants)) }
    ensures epoch { result ≡ (settled_record moves draft.member.record state.old.target.epoch now).epoch }
    ensures group { group_of state.new ≡ stored_in (record (group_of state.old) { clock = now; serial = suc draft.ids_made }) draft.member.id
        (sent_after (settled_record moves draft.member.record state.old.target.epoch now) sent) (heir_in state.old draft) }
    ensures since { HasSameSince state.old.grants state.new.grants }
    ensures marks { KeepsMarks state.old.records state.new.records draft.member.id }
{
    let Draft {
        mut member,
        ids_made,
    } = draft;
    settle_record(&mut member.record, moves, state.target.epoch(), sent, now);
    let epoch = member.record.epoch();
    state.clock = now;
    state.ids_made = ids_made;
    store(state, member, successor);
    epoch
}

/// The record's member was settled, and was sent a set, if any. Takes no memory.
fn settle_record(
    kept: &mut Record,
    moves: bool,
    epoch: EpochNumber,
    sent: Option<PartSet>,
    now: Moment,
)
    ensures { kept.new ≡ sent_after (settled_record moves kept.old epoch now) sent }
{
    kept.settle(moves, epoch, now);
    if let Some(set) = sent {
        kept.send(set);
    }
}
