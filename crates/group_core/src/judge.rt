//! The checks of a heartbeat, in their order (KIP-848, "ConsumerGroupHeartbeat API").
ghost use Rattle.std.specs.Prelude.{◌≡◌, ℕ, pos, Some, unwrap_or};
ghost use Rattle.std.specs.List.{flat_map, list_all};
ghost use Rattle.std.specs.Option.{option_copied, option_map};
ghost use Rattle.group_types.specs.Request.{Beats, kind_of};
ghost use Rattle.group_types.specs.Checks.{Sender, are_granted, epoch_checks, first_of, sender_of, verdict_on};
ghost use Rattle.group_types.specs.Sets.{has, nothing};
ghost use Rattle.group_types.specs.Sound.{IsSound};
ghost use Rattle.group_reconcile.specs.Holders.{pairs};
ghost use Rattle.kip_msgs.specs.Topics.{topic_partitions_values};
ghost use Rattle.kip_msgs.specs.Views.{heartbeat_request_value};
ghost use Rattle.group_epochs.specs.Checks.{verdict_of};
ghost use Rattle.group_epochs.specs.Request.{heartbeat_of, partitions_of};
ghost use Rattle.group_core.specs.GroupView.{group_of};

use crate::checks;
use crate::state::State;
use group_epochs::{Record, Records, Refusal};
use group_reconcile::Grants;
use group_types::{Code, PartSet, Partition, Stamp};
use kip_msgs::{Array, HeartbeatRequest, TopicPartitions};

/// What the checks of a heartbeat come to.
pub fn judge(state: &State, request: &HeartbeatRequest<'_>, stamp: Stamp) -> Result<(), Refusal>
    requires sound { IsSound (group_of state.now) }
    ensures { let q = heartbeat_of (heartbeat_request_value request.now) in
        verdict_of result ≡ verdict_on (kind_of q.epoch) (sender_of state.now.records.records q) (group_of state.now) q stamp }
{
    if let Some(code) = checks::refusal_of(request) {
        return Err(Refusal::Refused(code));
    }
    match state.records.locate(request, stamp) {
        Err(refusal) => Err(refusal),
        Ok(own) => {
            if request.member_epoch < 1 {
                return Ok(());
            }
            let Some(member) = own else { unreachable!() };
            check_epoch(&state.grants, member, request)
        }
    }
}

/// The check of a beat on its member epoch: it is that of the member, or the one before where all that is reported is granted.
fn check_epoch(
    grants: &Grants,
    member: &Record,
    request: &HeartbeatRequest<'_>,
) -> Result<(), Refusal>
    ensures { let q = heartbeat_of (heartbeat_request_value request.now) in
        (n : ℕ) (sender : Sender) → request.now.member_epoch ≡ pos n → sender.own ≡ Some member.now
        → verdict_of result ≡ first_of (epoch_checks (Beats n) sender (pairs grants.now) q) }
{
    let passes = Records::check_epoch(member, request.member_epoch)?;
    if passes || are_granted(grants, request.member_id, &request.topic_partitions) {
        return Ok(());
    }
    Err(Refusal::Refused(Code::FencedMemberEpoch))
}

/// Whether partitions are reported, and each is granted to the member, which is looked up once.
fn are_granted(grants: &Grants, member: &str, owned: &Option<Array<TopicPartitions<'_>>>) -> bool
    ensures { result ≡ are_granted (pairs grants.now) member.now (option_map (λ list. flat_map partitions_of (topic_partitions_values list)) owned.now) }
{
    match owned {
        Some(list) => are_among(grants.held(member), list.as_slice()),
        None => false,
    }
}

/// Whether each partition of the entries is in the set; none is where there is no set.
fn are_among(set: Option<&PartSet>, entries: &[TopicPartitions<'_>]) -> bool
    ensures { result ≡ list_all (λ e. list_all (λ i. has (unwrap_or (option_copied set.entry) nothing) (record { topic = e.topic_id; index = i })) e.partitions) entries.now }
{
    entries.iter().all(|entry| is_among(set, entry))
}

/// Whether each partition of the entry is in the set; none is where there is no set.
fn is_among(set: Option<&PartSet>, entry: &TopicPartitions<'_>) -> bool
    ensures { result ≡ list_all (λ i. has (unwrap_or (option_copied set.entry) nothing) (record { topic = entry.now.topic_id; index = i })) entry.now.partitions }
{
    entry.partitions.as_slice().iter().all(|index| {
        is_in(
            set,
            &Partition {
                topic: entry.topic_id,
                index: *index,
            },
        )
    })
}

/// Whether the partition is in the set; none is where there is no set.
fn is_in(set: Option<&PartSet>, p: &Partition) -> bool
    ensures { result ≡ has (unwrap_or (option_copied set.entry) nothing) p.now }
{
    match set {
        Some(set) => set.contains(p),
        None => false,
    }
}
