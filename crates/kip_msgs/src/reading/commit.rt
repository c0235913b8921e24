//! Commits and their replies.

ghost use Rattle.std.specs.Option.{option_copied};
ghost use Rattle.flex_wire.specs.Reading.{ReadsInMemory};
ghost use Rattle.kip_msgs.specs.Reading.{commit_request_partition_at, commit_request_topic_at, commit_request_at, commit_body_at, commit_reply_partition_at, commit_reply_topic_at, commit_reply_at, commit_reply_body_at};
ghost use Rattle.kip_msgs.specs.Views.{request_header_value, response_header_value, commit_request_partition_value, commit_request_topic_value, commit_request_value, commit_reply_partition_value, commit_reply_topic_value, commit_reply_value};

use super::arrays::{TakeElement, take_array};
use super::header::{take_request_header, take_response_header};
use crate::commit::{
    CommitReply, CommitReplyPartition, CommitReplyTopic, CommitRequest, CommitRequestPartition,
    CommitRequestTopic,
};
use crate::header::{RequestHeader, ResponseHeader};
use flex_wire::{
    WireFault, take_compact_str, take_i16, take_i32, take_i64, take_nullable_str, take_tags,
};
use std::alloc::Global;

/// What stands behind the key and version of a commit: the rest of the header, and the message.
#[tactic(auto, unfolding(crate::specs::Reading::commit_body_at))]
pub(super) fn take_commit<'a>(
    alloc: Global,
    bytes: &'a [u8],
) -> Result<(RequestHeader<'a>, CommitRequest<'a>, &'a [u8]), WireFault>
    ensures { ReadsInMemory (λ x. ((request_header_value x.0, commit_request_value x.1), x.2.now)) result (commit_body_at bytes.now) }
{
    let (header, rest) = take_request_header(alloc, bytes)?;
    let (message, rest) = take_commit_request(alloc, rest)?;
    Ok((header, message, rest))
}

#[tactic(auto, unfolding(crate::specs::Reading::commit_request_at))]
fn take_commit_request<'a>(
    alloc: Global,
    bytes: &'a [u8],
) -> Result<(CommitRequest<'a>, &'a [u8]), WireFault>
    ensures { ReadsInMemory (λ x. (commit_request_value x.0, x.1.now)) result (commit_request_at bytes.now) }
{
    let (group_id, rest) = take_compact_str(bytes)?;
    let (generation_id_or_member_epoch, rest) = take_i32(rest)?;
    let (member_id, rest) = take_compact_str(rest)?;
    let (group_instance_id, rest) = take_nullable_str(rest)?;
    let (topics, rest) = take_array(alloc, rest)?;
    let (tags, rest) = take_tags(alloc, rest)?;
    let message = CommitRequest {
        group_id,
        generation_id_or_member_epoch,
        member_id,
        group_instance_id,
        topics,
        tags,
    };
    Ok((message, rest))
}

impl<'a> TakeElement<'a> for CommitRequestTopic<'a> {
    ghost use Rattle.kip_msgs.specs.Values.{CommitRequestTopicValue};
    ghost use Rattle.kip_msgs.specs.Reading.{commit_request_topic_at};
    ghost use Rattle.kip_msgs.specs.Views.{commit_request_topic_value};

    ghost Value = { CommitRequestTopicValue };

    ghost value_of = { commit_request_topic_value };

    ghost element_at = { commit_request_topic_at };

    #[tactic(auto, unfolding(crate::specs::Reading::commit_request_topic_at))]
    fn take(alloc: Global, bytes: &'a [u8]) -> Result<(Self, &'a [u8]), WireFault> {
        let (name, rest) = take_compact_str(bytes)?;
        let (partitions, rest) = take_array(alloc, rest)?;
        let (tags, rest) = take_tags(alloc, rest)?;
        let topic = CommitRequestTopic {
            name,
            partitions,
            tags,
        };
        Ok((topic, rest))
    }
}

impl<'a> TakeElement<'a> for CommitRequestPartition<'a> {
    ghost use Rattle.kip_msgs.specs.Values.{CommitRequestPartitionValue};
    ghost use Rattle.kip_msgs.specs.Reading.{commit_request_partition_at};
    ghost use Rattle.kip_msgs.specs.Views.{commit_request_partition_value};

    ghost Value = { CommitRequestPartitionValue };

    ghost value_of = { commit_request_partition_value };

    ghost element_at = { commit_request_partition_at };

    #[tactic(auto, unfolding(crate::specs::Reading::commit_request_partition_at))]
    fn take(alloc: Global, bytes: &'a [u8]) -> Result<(Self, &'a [u8]), WireFault> {
        let (partition_index, rest) = take_i32(bytes)?;
        let (committed_offset, rest) = take_i64(rest)?;
        let (committed_leader_epoch, rest) = take_i32(rest)?;
        let (committed_metadata, rest) = take_nullable_str(rest)?;
        let (tags, rest) = take_tags(alloc, rest)?;
        let partition = CommitRequestPartition {
            partition_index,
            committed_offset,
            committed_leader_epoch,
            committed_metadata,
            tags,
        };
        Ok((partition, rest))
    }
}

/// The body of a reply to a commit: its header, and the reply.
#[tactic(auto, unfolding(crate::specs::Reading::commit_reply_body_at))]
pub(super) fn take_commit_answer<'a>(
    alloc: Global,
    bytes: &'a [u8],
) -> Result<(ResponseHeader<'a>, CommitReply<'a>, &'a [u8]), WireFault>
    ensures { ReadsInMemory (λ x. ((response_header_value x.0, commit_reply_value x.1), x.2.now)) result (commit_reply_body_at bytes.now) }
{
    let (header, rest) = take_response_header(alloc, bytes)?;
    let (reply, rest) = take_commit_reply(alloc, rest)?;
    Ok((header, reply, rest))
}

#[tactic(auto, unfolding(crate::specs::Reading::commit_reply_at))]
fn take_commit_reply<'a>(
    alloc: Global,
    bytes: &'a [u8],
) -> Result<(CommitReply<'a>, &'a [u8]), WireFault>
    ensures { ReadsInMemory (λ x. (commit_reply_value x.0, x.1.now)) result (commit_reply_at bytes.now) }
{
    let (throttle_time_ms, rest) = take_i32(bytes)?;
    let (topics, rest) = take_array(alloc, rest)?;
    let (tags, rest) = take_tags(alloc, rest)?;
    let reply = CommitReply {
        throttle_time_ms,
        topics,
        tags,
    };
    Ok((reply, rest))
}

impl<'a> TakeElement<'a> for CommitReplyTopic<'a> {
    ghost use Rattle.kip_msgs.specs.Values.{CommitReplyTopicValue};
    ghost use Rattle.kip_msgs.specs.Reading.{commit_reply_topic_at};
    ghost use Rattle.kip_msgs.specs.Views.{commit_reply_topic_value};

    ghost Value = { CommitReplyTopicValue };

    ghost value_of = { commit_reply_topic_value };

    ghost element_at = { commit_reply_topic_at };

    #[tactic(auto, unfolding(crate::specs::Reading::commit_reply_topic_at))]
    fn take(alloc: Global, bytes: &'a [u8]) -> Result<(Self, &'a [u8]), WireFault> {
        let (name, rest) = take_compact_str(bytes)?;
        let (partitions, rest) = take_array(alloc, rest)?;
        let (tags, rest) = take_tags(alloc, rest)?;
        let topic = CommitReplyTopic {
            name,
            partitions,
            tags,
        };
        Ok((topic, rest))
    }
}

impl<'a> TakeElement<'a> for CommitReplyPartition<'a> {
    ghost use Rattle.kip_msgs.specs.Values.{CommitReplyPartitionValue};
    ghost use Rattle.kip_msgs.specs.Reading.{commit_reply_partition_at};
    ghost use Rattle.kip_msgs.specs.Views.{commit_reply_partition_value};

    ghost Value = { CommitReplyPartitionValue };

    ghost value_of = { commit_reply_partition_value };

    ghost element_at = { commit_reply_partition_at };

    #[tactic(auto, unfolding(crate::specs::Reading::commit_reply_partition_at))]
    fn take(alloc: Global, bytes: &'a [u8]) -> Result<(Self, &'a [u8]), WireFault> {
        let (partition_index, rest) = take_i32(bytes)?;
        let (error_code, rest) = take_i16(rest)?;
        let (tags, rest) = take_tags(alloc, rest)?;
        let partition = CommitReplyPartition {
            partition_index,
            error_code,
            tags,
        };
        Ok((partition, rest))
    }
}
