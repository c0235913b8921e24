//! Whether a heartbeat is a change, and what it renews (KIP-848, "Target Assignment").
ghost use Rattle.std.specs.Prelude.{◌≡◌, IfOk, MatchOption};
ghost use Rattle.std.specs.FinMap as finite;
ghost use Rattle.group_types.specs.Checks.{Accepted, Refused};
ghost use Rattle.group_types.specs.Renewal.{IsChange, IsTarget};
ghost use Rattle.group_types.specs.HeartbeatStep.{verdict_on_change};
ghost use Rattle.group_core.specs.Stages.{CannotRise, IsRenewalOf, epoch_if};

use crate::draft::Draft;
use crate::state::State;
use group_target::Target;
use group_types::{Code, EpochNumber};
use std::alloc::AllocError;
use topic_meta::{Image, View};

/// What a draft makes of the group epoch, the stored view and the target.
#[derive(Drop)]
pub struct Renewal {
    pub epoch: EpochNumber,
    pub view: View,
    /// The renewed target, or none where the target stays.
    pub target: Option<Target>,
}

/// What a draft makes of the group epoch, the view and the target over an image; none where the epoch can't rise. Fails where
/// memory is short.
pub fn renewal_of(
    state: &State,
    draft: &Draft,
    image: &Image,
) -> Result<Option<Renewal>, AllocError>
    ensures { IfOk result (λ renewal. MatchOption renewal (CannotRise state.now draft.now image.now) (IsRenewalOf state.now draft.now image.now)) }
{
    let view = state
        .records
        .view_with(image, draft.member.id.as_str(), &draft.member.record)?;
    let is_change = is_change(state, draft, &view);
    let Some(epoch) = epoch_after(state.epoch, is_change) else {
        return Ok(None);
    };
    let target = renewed_target(state, draft, &view, epoch)?;
    Ok(Some(Renewal {
        epoch,
        view,
        target,
    }))
}

/// Whether the draft is a change, where this is the view of the present image: the member is new, asks anew, or the view isn't
/// the stored one. Takes no memory.
fn is_change(state: &State, draft: &Draft, view: &View) -> bool
    ensures { IsChange result (finite.get state.now.records.records draft.now.member.id) draft.now.member.record state.now.view view.now }
{
    match state.records.get(draft.member.id.as_str()) {
        Some(former) => !(former.asks_as(&draft.member.record) && state.view.equals(view)),
        None => true,
    }
}

/// The group epoch after a change, or after none; none where the epoch can't rise.
fn epoch_after(epoch: EpochNumber, is_change: bool) -> Option<EpochNumber>
    ensures { MatchOption result (verdict_on_change is_change epoch ≡ Refused Code.CoordinatorNotAvailable)
        (λ next. (verdict_on_change is_change epoch ≡ Accepted) × (next ≡ epoch_if is_change epoch)) }
{
    if is_change { epoch.next() } else { Some(epoch) }
}

/// The target of the epoch, with the draft's record and over the view; none where the stored target is of that epoch. Fails
/// where memory is short.
fn renewed_target(
    state: &State,
    draft: &Draft,
    view: &View,
    epoch: EpochNumber,
) -> Result<Option<Target>, AllocError>
    ensures { IfOk result (λ renewed. MatchOption renewed (epoch ≡ state.now.target.epoch) (λ target.
        (¬ (epoch ≡ state.now.target.epoch)) × (target.epoch ≡ epoch)
        × IsTarget (finite.insert state.now.records.records draft.now.member.id draft.now.member.record) view.now state.now.target.owners target.owners)) }
{
    if epoch == state.target.epoch() {
        return Ok(None);
    }
    let subs = state
        .records
        .subs_with(&draft.member.id, &draft.member.record)?;
    let target = state.target.renew(state.alloc, &subs, view, epoch)?;
    Ok(Some(target))
}
