//! What a member reports that it owns.
ghost use Rattle.std.specs.Prelude.{◌≡◌, ◌≤ℤ◌, ◌++◌, IfOk, OnOk, pos};
ghost use Rattle.std.specs.List.{flat_map};
ghost use Rattle.group_types.specs.Sets.{of_list};
ghost use Rattle.group_types.specs.Request.{reported};
ghost use Rattle.kip_msgs.specs.Topics.{topic_partitions_value, topic_partitions_values};
ghost use Rattle.kip_msgs.specs.Views.{heartbeat_request_value};
ghost use Rattle.group_epochs.specs.Request.{heartbeat_of, partitions_of};

use group_types::{PartSet, Partition};
use kip_msgs::{HeartbeatRequest, TopicPartitions};
use std::alloc::{AllocError, Global};

/// What a join or a beat reports that the member owns: a join nothing, and none where a beat says nothing of it. Fails where
/// memory is short.
pub fn reported(
    alloc: Global,
    request: &HeartbeatRequest<'_>,
) -> Result<Option<PartSet>, AllocError>
    requires { pos 0 ≤ℤ request.now.member_epoch }
    ensures { IfOk result (λ owned. owned ≡ reported (heartbeat_of (heartbeat_request_value request.now))) }
{
    if request.member_epoch == 0 {
        return Ok(Some(PartSet::new(alloc)));
    }
    match &request.topic_partitions {
        Some(list) => Ok(Some(set_of(alloc, list.as_slice())?)),
        None => Ok(None),
    }
}

/// The partitions that the entries name. Fails where memory is short.
fn set_of(alloc: Global, entries: &[TopicPartitions<'_>]) -> Result<PartSet, AllocError>
    ensures { IfOk result (λ set. set ≡ of_list (flat_map partitions_of (topic_partitions_values entries.now))) }
{
    let mut parts = Vec::new(alloc);
    for entry in entries {
        add_entry(&mut parts, entry)?;
    }
    Ok(PartSet::of_vec(parts))
}

/// Adds the partitions that an entry names.
fn add_entry(parts: &mut Vec<Partition>, entry: &TopicPartitions<'_>) -> Result<(), AllocError>
    ensures { OnOk result (parts.new.items ≡ parts.old.items ++ partitions_of (topic_partitions_value entry.now)) }
{
    for index in entry.partitions.as_slice() {
        parts.push(Partition {
            topic: entry.topic_id,
            index: *index,
        })?;
    }
    Ok(())
}
