//! The id under which a member joins, and its draft.
ghost use Rattle.std.specs.Prelude.{◌≡◌, ◌≤◌, IfOk, IfSome, MatchOption, Some, None, [], length};
ghost use Rattle.group_types.specs.Sound.{IsSound};
ghost use Rattle.group_types.specs.Join.{IsNamed};
ghost use Rattle.group_types.specs.Limits.{LONGEST_STRING};
ghost use Rattle.kip_msgs.specs.Views.{heartbeat_request_value};
ghost use Rattle.group_epochs.specs.Drafts.{CanStore};
ghost use Rattle.group_epochs.specs.Request.{heartbeat_of};
ghost use Rattle.group_core.specs.GroupView.{group_of};
ghost use Rattle.group_core.specs.Stages.{IsDraft, name_in};

use crate::draft::Draft;
use crate::state::State;
use group_types::{MemberId, Moment, Stamp};
use kip_msgs::HeartbeatRequest;
use std::alloc::AllocError;

/// An id, and the serial of the last id that was made.
#[derive(Drop)]
pub struct Name {
    pub id: MemberId,
    pub ids_made: u64,
}

/// The draft of a join or a beat, or none where no id is left for it. Where memory is short, or else, nothing changes but the room of the
/// records.
pub fn draft_of(
    state: &mut State,
    request: &HeartbeatRequest<'_>,
    stamp: Stamp,
    now: Moment,
) -> Result<Option<Draft>, AllocError>
    requires sound { IsSound (group_of state.old) }
    requires id { length request.now.member_id.now ≤ LONGEST_STRING }
    ensures draft { let q = heartbeat_of (heartbeat_request_value request.now) in
        IfOk result (λ draft. MatchOption draft (IsNamed (group_of state.old) q.member None) (IsDraft (group_of state.old) q stamp now)) }
    ensures room { IfOk result (λ draft. IfSome draft (λ d. CanStore state.new.records d.member.id d.member.record d.member.place)) }
    ensures group { group_of state.new ≡ group_of state.old }
    ensures marks { state.new.records.marks ≡ state.old.records.marks }
    ensures holders { state.new.grants ≡ state.old.grants }
{
    let Some(name) = name_for(state, request.member_id)? else {
        return Ok(None);
    };
    let Name { id, ids_made } = name;
    let member = state.records.draft(id, request, stamp, now)?;
    Ok(Some(Draft { member, ids_made }))
}

/// The id under which a member joins or beats: the one that it names, or one that is made where it names none; none where no serial is
/// left. Fails where memory is short.
fn name_for(state: &State, member: &str) -> Result<Option<Name>, AllocError>
    requires { length member.now ≤ LONGEST_STRING }
    ensures { IfOk result (λ name. IsNamed (group_of state.now) member.now (name_in name)) }
{
    if member.is_empty() {
        return made_name(state);
    }
    let id = MemberId::of(state.alloc, member)?;
    Ok(Some(Name {
        id,
        ids_made: state.ids_made,
    }))
}

/// The id of the next serial whose id isn't remembered. Fails where memory is short.
fn made_name(state: &State) -> Result<Option<Name>, AllocError>
    ensures { IfOk result (λ name. IsNamed (group_of state.now) [] (name_in name)) }
{
    let mut ids_made = state.ids_made;
    while ids_made < u64::MAX {
        ids_made += 1;
        let id = MemberId::made(state.alloc, state.salt, ids_made)?;
        if !state.records.remembers(id.as_str()) {
            return Ok(Some(Name { id, ids_made }));
        }
    }
    Ok(None)
}
