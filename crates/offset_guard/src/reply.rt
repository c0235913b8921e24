//! The answer to a commit.

ghost use Rattle.std.specs.Prelude.{◌≡◌, IfOk};
ghost use Rattle.kip_msgs.specs.Views.{commit_reply_partition_value, commit_reply_topic_value, commit_reply_value as reply_value, commit_request_topic_value, commit_request_value};
ghost use Rattle.group_types.specs.Commit.{commit_reply};
ghost use Rattle.group_epochs.specs.Request.{commit_of};
ghost use Rattle.offset_guard.specs.Requests.{topic_of};
ghost use Rattle.offset_guard.specs.Replies.{commit_reply_value, reply_partition_value, reply_topic_value, topic_answer};

use crate::checks::{code_of, partitions_of};
use flex_wire::TaggedFields;
use group_types::Code;
use kip_msgs::{
    Array, CommitReply, CommitReplyPartition, CommitReplyTopic, CommitRequest, CommitRequestTopic,
};
use std::alloc::{AllocError, Global};
use topic_meta::Image;

/// The answer to a commit that is refused with a code, or taken. Fails where memory is short.
pub fn reply_to<'a>(
    alloc: Global,
    refusal: Option<Code>,
    request: &CommitRequest<'a>,
    image: &Image,
) -> Result<CommitReply<'a>, AllocError>
    ensures { IfOk result (λ reply. reply_value reply ≡ commit_reply_value (commit_reply refusal (commit_of (commit_request_value request.now)) image.now)) }
{
    let mut topics = Vec::new(alloc);
    for topic in request.topics.as_slice() {
        topics.push(topic_reply(alloc, refusal, topic, image)?)?;
    }
    Ok(CommitReply {
        throttle_time_ms: 0,
        topics: Array::of_vec(topics),
        tags: TaggedFields::new(alloc),
    })
}

/// The answer for the partitions of one topic.
fn topic_reply<'a>(
    alloc: Global,
    refusal: Option<Code>,
    topic: &CommitRequestTopic<'a>,
    image: &Image,
) -> Result<CommitReplyTopic<'a>, AllocError>
    ensures { IfOk result (λ reply. commit_reply_topic_value reply ≡ reply_topic_value (topic_answer refusal image.now (topic_of (commit_request_topic_value topic.now)))) }
{
    let count = partitions_of(image, topic.name);
    let mut partitions = Vec::new(alloc);
    for partition in topic.partitions.as_slice() {
        let code = code_of(refusal, count, partition);
        partitions.push(partition_reply(alloc, partition.partition_index, code))?;
    }
    Ok(CommitReplyTopic {
        name: topic.name,
        partitions: Array::of_vec(partitions),
        tags: TaggedFields::new(alloc),
    })
}

/// The answer for one partition.
fn partition_reply<'a>(alloc: Global, index: i32, code: Code) -> CommitReplyPartition<'a>
    ensures { commit_reply_partition_value result ≡ reply_partition_value (index, code) }
{
    CommitReplyPartition {
        partition_index: index,
        error_code: code.number(),
        tags: TaggedFields::new(alloc),
    }
}
