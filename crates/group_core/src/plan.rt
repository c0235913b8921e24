//! What a member is to be told, and all that its reply needs of memory.
ghost use Rattle.std.specs.Prelude.{◌≡◌, ◌||◌, unwrap_or, ◌≤◌, ◌-◌, IfOk, IfSome, None, OnOk, Some, length, vec_capacity};
ghost use Rattle.group_types.specs.Limits as limits;
ghost use Rattle.group_types.specs.Request.{is_full};
ghost use Rattle.group_types.specs.HeartbeatStep.{assignment_of, is_news};
ghost use Rattle.group_types.specs.Sets.{size};
ghost use Rattle.kip_msgs.specs.Views.{heartbeat_request_value};
ghost use Rattle.group_epochs.specs.Drafts.{placed_heir};
ghost use Rattle.group_epochs.specs.Request.{heartbeat_of};
ghost use Rattle.group_core.specs.Outcome.{room_for};
ghost use Rattle.group_core.specs.Stages.{AreOfView, IsPlan, IsSuccessor, assignment_then, shown_then, target_then};

use crate::change::Renewal;
use crate::draft::Draft;
use crate::place::Successor;
use crate::shown::Shown;
use crate::state::State;
use group_epochs::{Draft as MemberDraft, Record};
use group_target::Target;
use group_types::{MemberId, PartSet};
use kip_msgs::HeartbeatRequest;
use std::alloc::{AllocError, Global};

/// How many bytes the frame of a reply takes at most but for its member id and its partitions.
const FIXED_ROOM: usize = 100;

/// How many bytes a partition takes at most in the frame of a reply: its index, and the entry of its topic.
const PARTITION_ROOM: usize = 30;

/// What is made for a draft that was renewed, before anything is stored.
#[derive(Drop)]
pub struct Plan {
    pub id: MemberId,
    /// The assignment of the reply, where one is said, and a copy of it to be kept as what was sent.
    pub assignment: Option<Shown>,
    pub sent: Option<PartSet>,
    pub successor: Option<Successor>,
}

/// Plans the reply to a member whose draft was renewed and that reports so; there is room for it in `out` then. Fails where memory is
/// short.
pub fn plan_of(
    state: &State,
    draft: &Draft,
    renewal: &Renewal,
    owned: &Option<PartSet>,
    request: &HeartbeatRequest<'_>,
    out: &mut Vec<u8>,
) -> Result<Plan, AllocError>
    requires { AreOfView (target_then state.now renewal.now).owners renewal.now.view }
    ensures plan { IfOk result (IsPlan state.now draft.now renewal.now (heartbeat_of (heartbeat_request_value request.now)) owned.now) }
    ensures room { IfOk result (λ plan. room_for (Some plan.id) plan.assignment ≤ vec_capacity out.new - length out.new.items) }
    ensures out { out.new.items ≡ out.old.items }
{
    let alloc = state.alloc;
    let said = assignment_of(state, draft, renewal, owned, request)?;
    let id = id_with_room(alloc, draft.told_id().as_str(), &said.0, out)?;
    let successor = successor_of(alloc, &draft.member)?;
    let (assignment, sent) = said;
    Ok(Plan {
        id,
        assignment,
        sent,
        successor,
    })
}

/// The assignment in the reply to the member of a draft that was renewed, where one is said, and its copy. Fails where memory is short.
fn assignment_of(
    state: &State,
    draft: &Draft,
    renewal: &Renewal,
    owned: &Option<PartSet>,
    request: &HeartbeatRequest<'_>,
) -> Result<(Option<Shown>, Option<PartSet>), AllocError>
    requires { AreOfView (target_then state.now renewal.now).owners renewal.now.view }
    ensures said { let q = heartbeat_of (heartbeat_request_value request.now) in
        IfOk result (λ said. (said.0 ≡ assignment_then state.now draft.now renewal.now q owned.now) × (said.1 ≡ said.0)) }
    ensures few { IfOk result (λ said. IfSome said.0 (λ set. size set ≤ limits.MOST_PARTITIONS)) }
{
    // so that the view is known to have no more partitions than an image
    let _ = renewal.view.topics();
    let shown = shown_of(state, draft, renewal, owned)?;
    let is_said = is_said(request, &draft.member.record, &shown);
    said_of(state.alloc, shown, is_said)
}

/// The id in a reply, and room in `out` for a reply with it and this assignment. Fails where memory is short.
pub fn id_with_room(
    alloc: Global,
    id: &str,
    assignment: &Option<Shown>,
    out: &mut Vec<u8>,
) -> Result<MemberId, AllocError>
    requires id { length id.now ≤ limits.LONGEST_STRING }
    requires few { IfSome assignment.now (λ set. size set ≤ limits.MOST_PARTITIONS) }
    ensures id { IfOk result (λ r. r ≡ id.now) }
    ensures room { IfOk result (λ r. room_for (Some r) assignment.now ≤ vec_capacity out.new - length out.new.items) }
    ensures out { out.new.items ≡ out.old.items }
{
    let id = MemberId::of(alloc, id)?;
    make_room(out, id.as_str(), assignment)?;
    Ok(id)
}

/// What the member of a draft that was renewed is shown, where it reports so. Fails where memory is short.
fn shown_of(
    state: &State,
    draft: &Draft,
    renewal: &Renewal,
    owned: &Option<PartSet>,
) -> Result<PartSet, AllocError>
    ensures { IfOk result (λ shown. shown ≡ shown_then state.now draft.now renewal.now owned.now) }
{
    let id = draft.member.id.as_str();
    let wanted = target_of(&renewal.target, &state.target).of(id);
    state.grants.shown_after(id, &wanted, owned.as_ref())
}

/// The shown set, where it is said, and its copy. Fails where memory is short.
fn said_of(
    alloc: Global,
    shown: PartSet,
    is_said: bool,
) -> Result<(Option<Shown>, Option<PartSet>), AllocError>
    ensures assignment { IfOk result (λ said. said.0 ≡ assignment_of is_said shown) }
    ensures sent { IfOk result (λ said. said.1 ≡ assignment_of is_said shown) }
{
    if !is_said {
        return Ok((None, None));
    }
    let sent = shown.copy(alloc)?;
    let assignment = Shown::of(alloc, shown)?;
    Ok((Some(assignment), Some(sent)))
}

/// The heir of a draft, if there is one, for the target and the grants. Fails where memory is short.
fn successor_of(alloc: Global, draft: &MemberDraft) -> Result<Option<Successor>, AllocError>
    ensures { IfOk result (λ successor. IsSuccessor successor (placed_heir draft.now.place)) }
{
    let Some(heir) = draft.heir() else {
        return Ok(None);
    };
    let in_target = heir.copy(alloc)?;
    let in_grants = heir.copy(alloc)?;
    Ok(Some(Successor {
        in_target,
        in_grants,
    }))
}

/// Whether an assignment stands in the reply to a request, where the member has this record and is shown this set.
fn is_said(request: &HeartbeatRequest<'_>, record: &Record, shown: &PartSet) -> bool
    ensures { result ≡ (is_full (heartbeat_of (heartbeat_request_value request.now)) || is_news «record».now.sent shown.now) }
{
    is_full(request) || record.is_news(shown)
}

/// The target that a renewal leaves: the renewed one, or else the stored one.
pub fn target_of<'a>(renewed: &'a Option<Target>, stored: &'a Target) -> &'a Target
    ensures { result.now ≡ unwrap_or renewed.now stored.now }
{
    match renewed {
        Some(target) => target,
        None => stored,
    }
}

/// Whether all that a member may say is said in the request.
fn is_full(request: &HeartbeatRequest<'_>) -> bool
    ensures { result ≡ is_full (heartbeat_of (heartbeat_request_value request.now)) }
{
    request.member_epoch == 0
        || (request.rebalance_timeout_ms != -1
            && request.subscribed_topic_names.is_some()
            && request.topic_partitions.is_some())
}

/// Makes room in `out` for a reply with this id and assignment.
pub fn make_room(out: &mut Vec<u8>, id: &str, assignment: &Option<Shown>) -> Result<(), AllocError>
    requires { IfSome assignment.now (λ set. size set ≤ limits.MOST_PARTITIONS) }
    ensures room { OnOk result (room_for (Some id.now) assignment.now ≤ vec_capacity out.new - length out.new.items) }
    ensures out { out.new.items ≡ out.old.items }
{
    let partitions = assignment.as_ref().map_or(0, |shown| shown.set().len());
    out.reserve(FIXED_ROOM + id.len() + PARTITION_ROOM * partitions)
}
