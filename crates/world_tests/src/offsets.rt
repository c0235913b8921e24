//! Offsets that are committed, as requests list them.

ghost use Rattle.std.specs.Prelude.{IfOk, map, All};
ghost use Rattle.kip_msgs.specs.Views.{commit_request_partition_value, commit_request_topic_value};
ghost use Rattle.kip_msgs.specs.Writable.{IsWritableCommitRequestPartition};
ghost use Rattle.member_core.specs.Writing.{HasShortTopic};

use flex_wire::TaggedFields;
use kip_msgs::{Array, CommitRequestPartition, CommitRequestTopic};
use std::alloc::{AllocError, Global};

/// Offset 5 of `count` partitions of the topic `t`, from the index `first` on.
pub fn offsets_of(
    alloc: Global,
    first: i32,
    count: u16,
) -> Result<Array<CommitRequestTopic<'static>>, AllocError>
    ensures { IfOk result (λ topics. All HasShortTopic (map commit_request_topic_value topics)) }
{
    let mut topics = Array::new(alloc);
    topics.push(CommitRequestTopic {
        name: "t",
        partitions: partitions_of(alloc, first, count)?,
        tags: TaggedFields::new(alloc),
    })?;
    Ok(topics)
}

fn partitions_of(
    alloc: Global,
    first: i32,
    count: u16,
) -> Result<Array<CommitRequestPartition<'static>>, AllocError>
    ensures { IfOk result (λ partitions. All IsWritableCommitRequestPartition (map commit_request_partition_value partitions)) }
{
    let mut partitions = Array::new(alloc);
    for place in 0..count {
        partitions.push(offset_of(alloc, first.saturating_add(i32::from(place))))?;
    }
    Ok(partitions)
}

/// Offset 5 of one partition, with no leader epoch and no text.
fn offset_of(alloc: Global, partition_index: i32) -> CommitRequestPartition<'static>
    ensures { IsWritableCommitRequestPartition (commit_request_partition_value result) }
{
    CommitRequestPartition {
        partition_index,
        committed_offset: 5,
        committed_leader_epoch: -1,
        committed_metadata: None,
        tags: TaggedFields::new(alloc),
    }
}
