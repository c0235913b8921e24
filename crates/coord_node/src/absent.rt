//! The answer to a commit of a group that the node doesn't have.
ghost use Rattle.std.specs.Prelude.{◌≡◌, IfOk};
ghost use Rattle.kip_msgs.specs.Views.{commit_reply_partition_value, commit_reply_topic_value, commit_reply_value as reply_value, commit_request_topic_value, commit_request_value};
ghost use Rattle.group_types.specs.declared.code.Code.TheVariants.{GroupIdNotFound};
ghost use Rattle.group_types.specs.Commit.{answers_by};
ghost use Rattle.group_epochs.specs.Request.{commit_of};
ghost use Rattle.offset_guard.specs.Requests.{topic_of};
ghost use Rattle.offset_guard.specs.Replies.{commit_reply_value, reply_partition_value, reply_topic_value};
ghost use Rattle.coord_node.specs.Absent.{absent_topic};

use flex_wire::TaggedFields;
use group_types::Code;
use kip_msgs::{
    Array, CommitReply, CommitReplyPartition, CommitReplyTopic, CommitRequest, CommitRequestTopic,
};
use std::alloc::{AllocError, Global};

/// GROUP_ID_NOT_FOUND for each partition, in the request's order (Kafka protocol guide, "OffsetCommit Response v9"). Fails where
/// memory is short.
pub(crate) fn reply_of_absent<'a>(
    alloc: Global,
    request: &CommitRequest<'a>,
) -> Result<CommitReply<'a>, AllocError>
    ensures { IfOk result (λ reply. reply_value reply ≡ commit_reply_value (answers_by (λ name x. GroupIdNotFound) (commit_of (commit_request_value request.now)))) }
{
    let mut topics = Vec::new(alloc);
    for topic in request.topics.as_slice() {
        topics.push(topic_reply(alloc, topic)?)?;
    }
    Ok(CommitReply {
        throttle_time_ms: 0,
        topics: Array::of_vec(topics),
        tags: TaggedFields::new(alloc),
    })
}

/// The same for the partitions of one topic.
fn topic_reply<'a>(
    alloc: Global,
    topic: &CommitRequestTopic<'a>,
) -> Result<CommitReplyTopic<'a>, AllocError>
    ensures { IfOk result (λ reply. commit_reply_topic_value reply ≡ reply_topic_value (absent_topic (topic_of (commit_request_topic_value topic.now)))) }
{
    let mut partitions = Vec::new(alloc);
    for partition in topic.partitions.as_slice() {
        partitions.push(partition_reply(alloc, partition.partition_index))?;
    }
    Ok(CommitReplyTopic {
        name: topic.name,
        partitions: Array::of_vec(partitions),
        tags: TaggedFields::new(alloc),
    })
}

/// The same for one partition. Takes no memory.
fn partition_reply<'a>(alloc: Global, index: i32) -> CommitReplyPartition<'a>
    ensures { commit_reply_partition_value result ≡ reply_partition_value (index, GroupIdNotFound) }
{
    CommitReplyPartition {
        partition_index: index,
        error_code: Code::GroupIdNotFound.number(),
        tags: TaggedFields::new(alloc),
    }
}
