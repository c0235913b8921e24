//! Where a draft is stored, and a take-over's end (KIP-848, "Static Membership").
ghost use Rattle.std.specs.Prelude.{◌≡◌, IfSome};
ghost use Rattle.std.specs.FinMap as finite;
ghost use Rattle.group_reconcile.specs.Holders.{pairs};
ghost use Rattle.group_epochs.specs.Drafts.{CanStore, placed_heir};
ghost use Rattle.group_epochs.specs.Records.{IsInstanceFreeFor, KeepsMarks};
ghost use Rattle.group_core.specs.GroupView.{group_of};
ghost use Rattle.group_core.specs.Since.{HasSameSince};
ghost use Rattle.group_core.specs.Stages.{HasNothing, IsSuccessor, heir_of, stored_in};

use crate::state::State;
use group_epochs::Draft;
use group_types::MemberId;

/// An heir, once for each part of a group that names members beside the records.
#[derive(Drop)]
pub struct Successor {
    pub in_target: MemberId,
    pub in_grants: MemberId,
}

/// Stores a draft, which hands over what its member is to own and holds where an heir takes its place. Takes no memory.
pub fn store(state: &mut State, draft: Draft, successor: Option<Successor>)
    requires room { CanStore state.old.records draft.id draft.record draft.place }
    requires instance { IsInstanceFreeFor state.old.records.records draft.id draft.record }
    requires successor { IsSuccessor successor (placed_heir draft.place) }
    requires heir { IfSome (placed_heir draft.place) (HasNothing state.old.target.owners (pairs state.old.grants)) }
    ensures group { group_of state.new ≡ stored_in (group_of state.old) draft.id draft.record (heir_of (finite.get state.old.records.records draft.id) (placed_heir draft.place)) }
    ensures since { HasSameSince state.old.grants state.new.grants }
    ensures marks { KeepsMarks state.old.records state.new.records draft.id }
{
    match successor {
        None => state.records.join(draft),
        Some(heir) => {
            state.target.rename(draft.id.as_str(), heir.in_target);
            state.grants.hand_over(draft.id.as_str(), heir.in_grants);
            state.records.take_over(draft);
        }
    }
}
