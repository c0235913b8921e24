//! The checks of a heartbeat, which look at nothing but the request.
ghost use Rattle.std.specs.Prelude.{◌≡◌, ◌↔◌, IsTrue, MatchOption, not};
ghost use Rattle.std.specs.List.{flat_map, list_any};
ghost use Rattle.group_types.specs.Request.{is_empty, is_invalid, is_invalid_join, is_unsupported};
ghost use Rattle.group_types.specs.Checks.{Accepted, Refused};
ghost use Rattle.kip_msgs.specs.Topics.{topic_partitions_values};
ghost use Rattle.kip_msgs.specs.Views.{heartbeat_request_value};
ghost use Rattle.group_epochs.specs.Request.{heartbeat_of, partitions_of};
ghost use Rattle.group_core.specs.Checks.{MakesMember, verdict_on_request};

use group_types::{AssignorName, Code};
use kip_msgs::{Array, HeartbeatRequest, TopicPartitions};

/// Whether the heartbeat joins under no member id and no instance id (KIP-848, "Consumer Group Heartbeat").
#[inline(always)]
pub fn makes_member(request: &HeartbeatRequest<'_>) -> bool
    ensures { IsTrue result ↔ MakesMember (heartbeat_of (heartbeat_request_value request.now)) }
{
    request.member_epoch == 0 && request.member_id.is_empty() && request.instance_id.is_none()
}

/// The code that the request is refused with, whatever the group (KIP-848, "ConsumerGroupHeartbeat API").
#[inline(always)]
#[tactic(auto, using(crate::proofs::Verdicts::request_verdict))]
pub fn refusal_of(request: &HeartbeatRequest<'_>) -> Option<Code>
    ensures { let q = heartbeat_of (heartbeat_request_value request.now) in
        MatchOption result (verdict_on_request q ≡ Accepted) (λ code. verdict_on_request q ≡ Refused code) }
{
    if is_invalid(request) {
        return Some(Code::InvalidRequest);
    }
    if is_unsupported(request) {
        return Some(Code::UnsupportedAssignor);
    }
    None
}

/// Whether the request is invalid, by its member epoch: INVALID_REQUEST.
#[inline(always)]
fn is_invalid(request: &HeartbeatRequest<'_>) -> bool
    ensures { result ≡ is_invalid (heartbeat_of (heartbeat_request_value request.now)) }
{
    let has_no_id = request.member_id.is_empty();
    let has_no_timeout = request.rebalance_timeout_ms < -1;
    request.group_id.is_empty()
        || match request.member_epoch {
            0 => has_no_timeout || is_invalid_join(request),
            1.. => has_no_id || has_no_timeout,
            -1 => has_no_id,
            -2 => has_no_id || request.instance_id.is_none(),
            _ => true,
        }
}

/// Whether a join lacks what a join must say, or says that it owns a partition.
#[inline(always)]
fn is_invalid_join(request: &HeartbeatRequest<'_>) -> bool
    ensures { result ≡ is_invalid_join (heartbeat_of (heartbeat_request_value request.now)) }
{
    let has_empty_instance = request.instance_id.is_some_and(|id| id.is_empty());
    let owns = match &request.topic_partitions {
        Some(list) => names_partition(list),
        None => false,
    };
    request.rebalance_timeout_ms == -1
        || request.subscribed_topic_names.is_none()
        || has_empty_instance
        || owns
}

/// Whether the list names a partition: an entry without indexes names none.
#[inline(always)]
fn names_partition(list: &Array<TopicPartitions<'_>>) -> bool
    ensures { result ≡ not (is_empty (flat_map partitions_of (topic_partitions_values list.now))) }
{
    has_index(list.as_slice())
}

/// Whether some entry has an index.
#[inline(always)]
fn has_index(entries: &[TopicPartitions<'_>]) -> bool
    ensures { result ≡ list_any (λ entry. not (is_empty entry.partitions)) entries.now }
{
    entries.iter().any(|entry| !entry.partitions.is_empty())
}

/// Whether a join or a beat names an assignor that there isn't: UNSUPPORTED_ASSIGNOR.
#[inline(always)]
fn is_unsupported(request: &HeartbeatRequest<'_>) -> bool
    ensures { result ≡ is_unsupported (heartbeat_of (heartbeat_request_value request.now)) }
{
    request.member_epoch >= 0
        && request
            .server_assignor
            .is_some_and(|name| AssignorName::of(name).is_none())
}
