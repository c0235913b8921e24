//! Heartbeats and their replies.

ghost use Rattle.std.specs.Prelude.{map, option_map};
ghost use Rattle.std.specs.Option.{option_copied};
ghost use Rattle.flex_wire.specs.Reading.{ReadsInMemory};
ghost use Rattle.kip_msgs.specs.Reading.{topic_partitions_at, heartbeat_rest_at, heartbeat_request_at, heartbeat_body_at, assignment_at, nullable_struct_at, heartbeat_reply_rest_at, heartbeat_reply_at, heartbeat_reply_body_at};
ghost use Rattle.kip_msgs.specs.Topics.{topic_partitions_value, topic_partitions_values};
ghost use Rattle.kip_msgs.specs.Views.{request_header_value, heartbeat_request_value, response_header_value, assignment_value, heartbeat_reply_value};

use super::arrays::{TakeElement, take_array, take_indexes, take_nullable_array};
use super::header::{take_request_header, take_response_header};
use crate::array::Array;
use crate::header::{RequestHeader, ResponseHeader};
use crate::heartbeat::{Assignment, HeartbeatReply, HeartbeatRequest, TopicPartitions};
use flex_wire::{
    TaggedFields, WireFault, take_compact_str, take_i16, take_i32, take_mark, take_nullable_str,
    take_tags, take_uuid,
};
use std::alloc::Global;

/// What stands behind the key and version of a heartbeat: the rest of the header, and the message.
#[tactic(auto, unfolding(crate::specs::Reading::heartbeat_body_at))]
#[inline(always)]
pub(super) fn take_heartbeat<'a>(
    alloc: Global,
    bytes: &'a [u8],
) -> Result<(RequestHeader<'a>, HeartbeatRequest<'a>, &'a [u8]), WireFault>
    ensures { ReadsInMemory (λ x. ((request_header_value x.0, heartbeat_request_value x.1), x.2.now)) result (heartbeat_body_at bytes.now) }
{
    let (header, rest) = take_request_header(alloc, bytes)?;
    let (message, rest) = take_heartbeat_request(alloc, rest)?;
    Ok((header, message, rest))
}

#[tactic(auto, unfolding(crate::specs::Reading::heartbeat_request_at))]
#[inline(always)]
fn take_heartbeat_request<'a>(
    alloc: Global,
    bytes: &'a [u8],
) -> Result<(HeartbeatRequest<'a>, &'a [u8]), WireFault>
    ensures { ReadsInMemory (λ x. (heartbeat_request_value x.0, x.1.now)) result (heartbeat_request_at bytes.now) }
{
    let (group_id, rest) = take_compact_str(bytes)?;
    let (member_id, rest) = take_compact_str(rest)?;
    let (member_epoch, rest) = take_i32(rest)?;
    let (instance_id, rest) = take_nullable_str(rest)?;
    let (rack_id, rest) = take_nullable_str(rest)?;
    let (others, rest) = take_request_rest(alloc, rest)?;
    let (rebalance_timeout_ms, subscribed_topic_names, server_assignor, topic_partitions, tags) =
        others;
    let message = HeartbeatRequest {
        group_id,
        member_id,
        member_epoch,
        instance_id,
        rack_id,
        rebalance_timeout_ms,
        subscribed_topic_names,
        server_assignor,
        topic_partitions,
        tags,
    };
    Ok((message, rest))
}

/// The timeout, the subscribed names, the assignor, the owned partitions and the tagged fields of a
/// heartbeat.
type RequestRest<'a> = (
    i32,
    Option<Array<&'a str>>,
    Option<&'a str>,
    Option<Array<TopicPartitions<'a>>>,
    TaggedFields<'a>,
);

/// A heartbeat from its timeout on.
#[inline(always)]
fn take_request_rest<'a>(
    alloc: Global,
    bytes: &'a [u8],
) -> Result<(RequestRest<'a>, &'a [u8]), WireFault>
    ensures { ReadsInMemory (λ x. (
      (x.0.0, (option_map (map (λ name. name.now)) x.0.1, (option_copied x.0.2, (option_map topic_partitions_values x.0.3, (x.0.4, tt))))),
      x.1.now,
    )) result (heartbeat_rest_at bytes.now) }
{
    let (timeout, rest) = take_i32(bytes)?;
    let (names, rest) = take_nullable_array(alloc, rest)?;
    let (assignor, rest) = take_nullable_str(rest)?;
    let (topics, rest) = take_nullable_array(alloc, rest)?;
    let (tags, rest) = take_tags(alloc, rest)?;
    Ok(((timeout, names, assignor, topics, tags), rest))
}

impl<'a> TakeElement<'a> for TopicPartitions<'a> {
    ghost use Rattle.kip_msgs.specs.Values.{TopicPartitionsValue};
    ghost use Rattle.kip_msgs.specs.Reading.{topic_partitions_at};
    ghost use Rattle.kip_msgs.specs.Topics.{topic_partitions_value, topic_partitions_values};

    ghost Value = { TopicPartitionsValue };

    ghost value_of = { topic_partitions_value };

    ghost element_at = { topic_partitions_at };

    fn take(alloc: Global, bytes: &'a [u8]) -> Result<(TopicPartitions<'a>, &'a [u8]), WireFault> {
        take_topic_partitions(alloc, bytes)
    }
}

#[tactic(auto, unfolding(crate::specs::Reading::topic_partitions_at))]
fn take_topic_partitions<'a>(
    alloc: Global,
    bytes: &'a [u8],
) -> Result<(TopicPartitions<'a>, &'a [u8]), WireFault>
    ensures { ReadsInMemory (λ x. (topic_partitions_value x.0, x.1.now)) result (topic_partitions_at bytes.now) }
{
    let (topic_id, rest) = match take_uuid(bytes) {
        Ok(found) => found,
        Err(fault) => return Err(fault),
    };
    let (partitions, rest) = take_indexes(alloc, rest)?;
    let (tags, rest) = take_tags(alloc, rest)?;
    let topic = TopicPartitions {
        topic_id,
        partitions,
        tags,
    };
    Ok((topic, rest))
}

/// The body of a reply to a heartbeat: its header, and the reply.
#[tactic(auto, unfolding(crate::specs::Reading::heartbeat_reply_body_at))]
pub(super) fn take_heartbeat_answer<'a>(
    alloc: Global,
    bytes: &'a [u8],
) -> Result<(ResponseHeader<'a>, HeartbeatReply<'a>, &'a [u8]), WireFault>
    ensures { ReadsInMemory (λ x. ((response_header_value x.0, heartbeat_reply_value x.1), x.2.now)) result (heartbeat_reply_body_at bytes.now) }
{
    let (header, rest) = take_response_header(alloc, bytes)?;
    let (reply, rest) = take_heartbeat_reply(alloc, rest)?;
    Ok((header, reply, rest))
}

#[tactic(auto, unfolding(crate::specs::Reading::heartbeat_reply_at))]
fn take_heartbeat_reply<'a>(
    alloc: Global,
    bytes: &'a [u8],
) -> Result<(HeartbeatReply<'a>, &'a [u8]), WireFault>
    ensures { ReadsInMemory (λ x. (heartbeat_reply_value x.0, x.1.now)) result (heartbeat_reply_at bytes.now) }
{
    let (throttle_time_ms, rest) = take_i32(bytes)?;
    let (error_code, rest) = take_i16(rest)?;
    let (error_message, rest) = take_nullable_str(rest)?;
    let (member_id, rest) = take_nullable_str(rest)?;
    let (member_epoch, rest) = take_i32(rest)?;
    let (heartbeat_interval_ms, assignment, tags, rest) = take_reply_rest(alloc, rest)?;
    let reply = HeartbeatReply {
        throttle_time_ms,
        error_code,
        error_message,
        member_id,
        member_epoch,
        heartbeat_interval_ms,
        assignment,
        tags,
    };
    Ok((reply, rest))
}

/// A reply from its interval on: that, the assignment and the tagged fields.
fn take_reply_rest<'a>(
    alloc: Global,
    bytes: &'a [u8],
) -> Result<(i32, Option<Assignment<'a>>, TaggedFields<'a>, &'a [u8]), WireFault>
    ensures { ReadsInMemory (λ x. ((x.0, (option_map assignment_value x.1, (x.2, tt))), x.3.now)) result (heartbeat_reply_rest_at bytes.now) }
{
    let (interval, rest) = take_i32(bytes)?;
    let (assignment, rest) = take_nullable_assignment(alloc, rest)?;
    let (tags, rest) = take_tags(alloc, rest)?;
    Ok((interval, assignment, tags, rest))
}

/// An assignment behind the mark that says whether it is there.
#[tactic(auto, unfolding(crate::specs::Reading::nullable_struct_at))]
fn take_nullable_assignment<'a>(
    alloc: Global,
    bytes: &'a [u8],
) -> Result<(Option<Assignment<'a>>, &'a [u8]), WireFault>
    ensures { ReadsInMemory (λ x. (option_map assignment_value x.0, x.1.now)) result (nullable_struct_at assignment_at bytes.now) }
{
    let (is_there, rest) = take_mark(bytes)?;
    if !is_there {
        return Ok((None, rest));
    }
    let (assignment, rest) = take_assignment(alloc, rest)?;
    Ok((Some(assignment), rest))
}

#[tactic(auto, unfolding(crate::specs::Reading::assignment_at))]
fn take_assignment<'a>(
    alloc: Global,
    bytes: &'a [u8],
) -> Result<(Assignment<'a>, &'a [u8]), WireFault>
    ensures { ReadsInMemory (λ x. (assignment_value x.0, x.1.now)) result (assignment_at bytes.now) }
{
    let (topic_partitions, rest) = take_array(alloc, bytes)?;
    let (tags, rest) = take_tags(alloc, rest)?;
    let assignment = Assignment {
        topic_partitions,
        tags,
    };
    Ok((assignment, rest))
}
