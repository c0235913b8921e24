//! Heartbeats and their replies.

ghost use Rattle.std.specs.Prelude.{option_map, IfSome, OnOk};
ghost use Rattle.flex_wire.specs.Writing.{AppendsUpTo};
ghost use Rattle.kip_msgs.specs.Spelling.{topic_partitions_fields, FitsTopicPartitions, heartbeat_request_fields, FitsHeartbeatRequest, nullable_struct, assignment_fields, FitsAssignment, heartbeat_reply_fields, FitsHeartbeatReply};
ghost use Rattle.kip_msgs.specs.Writable.{IsWritableTopic, IsWritableHeartbeatRequest, IsWritableAssignment, IsWritableHeartbeatReply};
ghost use Rattle.kip_msgs.specs.Topics.{topic_partitions_value};
ghost use Rattle.kip_msgs.specs.Views.{heartbeat_request_value, assignment_value, heartbeat_reply_value};

use super::arrays::{PutElement, put_array, put_indexes, put_nullable_array};
use super::fields::{put_id, put_text, put_text_or_null};
use crate::heartbeat::{Assignment, HeartbeatReply, HeartbeatRequest, TopicPartitions};
use flex_wire::{put_i16, put_i32, put_mark, put_tags};
use std::alloc::AllocError;

#[tactic(auto, unfolding(crate::specs::Spelling::heartbeat_request_fields))]
pub(super) fn put_heartbeat_request(
    out: &mut Vec<u8>,
    message: &HeartbeatRequest<'_>,
) -> Result<(), AllocError>
    requires { IsWritableHeartbeatRequest (heartbeat_request_value message.now) }
    ensures appends { AppendsUpTo result out.old out.new (heartbeat_request_fields (heartbeat_request_value message.now)) }
    ensures fits { OnOk result (FitsHeartbeatRequest (heartbeat_request_value message.now)) }
{
    put_text(out, message.group_id)?;
    put_text(out, message.member_id)?;
    put_i32(out, message.member_epoch)?;
    put_text_or_null(out, message.instance_id)?;
    put_text_or_null(out, message.rack_id)?;
    put_i32(out, message.rebalance_timeout_ms)?;
    put_nullable_array(out, &message.subscribed_topic_names)?;
    put_text_or_null(out, message.server_assignor)?;
    put_nullable_array(out, &message.topic_partitions)?;
    put_tags(out, &message.tags)
}

impl PutElement for TopicPartitions<'_> {
    ghost use Rattle.kip_msgs.specs.Values.{TopicPartitionsValue};
    ghost use Rattle.kip_msgs.specs.Spelling.{topic_partitions_fields, FitsTopicPartitions};
    ghost use Rattle.kip_msgs.specs.Writable.{IsWritableTopic};
    ghost use Rattle.kip_msgs.specs.Topics.{topic_partitions_value};

    ghost Value = { TopicPartitionsValue };

    ghost value_of = { topic_partitions_value };

    ghost spelling = { topic_partitions_fields };

    ghost Fits = { FitsTopicPartitions };

    ghost IsWritable = { IsWritableTopic };

    #[tactic(auto, unfolding(crate::specs::Spelling::topic_partitions_fields))]
    fn put(&self, out: &mut Vec<u8>) -> Result<(), AllocError> {
        put_id(out, &self.topic_id)?;
        put_indexes(out, &self.partitions)?;
        put_tags(out, &self.tags)
    }
}

#[tactic(auto, unfolding(crate::specs::Spelling::heartbeat_reply_fields))]
pub(super) fn put_heartbeat_reply(
    out: &mut Vec<u8>,
    reply: &HeartbeatReply<'_>,
) -> Result<(), AllocError>
    requires { IsWritableHeartbeatReply (heartbeat_reply_value reply.now) }
    ensures appends { AppendsUpTo result out.old out.new (heartbeat_reply_fields (heartbeat_reply_value reply.now)) }
    ensures fits { OnOk result (FitsHeartbeatReply (heartbeat_reply_value reply.now)) }
{
    put_i32(out, reply.throttle_time_ms)?;
    put_i16(out, reply.error_code)?;
    put_text_or_null(out, reply.error_message)?;
    put_text_or_null(out, reply.member_id)?;
    put_i32(out, reply.member_epoch)?;
    put_i32(out, reply.heartbeat_interval_ms)?;
    put_nullable_assignment(out, &reply.assignment)?;
    put_tags(out, &reply.tags)
}

/// An assignment behind the mark that says whether it is there.
#[tactic(auto, unfolding(crate::specs::Spelling::nullable_struct))]
fn put_nullable_assignment(
    out: &mut Vec<u8>,
    assignment: &Option<Assignment<'_>>,
) -> Result<(), AllocError>
    requires { IfSome (option_map assignment_value assignment.now) IsWritableAssignment }
    ensures appends { AppendsUpTo result out.old out.new (nullable_struct assignment_fields (option_map assignment_value assignment.now)) }
    ensures fits { OnOk result (IfSome (option_map assignment_value assignment.now) FitsAssignment) }
{
    match assignment {
        None => put_mark(out, false),
        Some(assignment) => {
            put_mark(out, true)?;
            put_assignment(out, assignment)
        }
    }
}

#[tactic(auto, unfolding(crate::specs::Spelling::assignment_fields))]
fn put_assignment(out: &mut Vec<u8>, assignment: &Assignment<'_>) -> Result<(), AllocError>
    requires { IsWritableAssignment (assignment_value assignment.now) }
    ensures appends { AppendsUpTo result out.old out.new (assignment_fields (assignment_value assignment.now)) }
    ensures fits { OnOk result (FitsAssignment (assignment_value assignment.now)) }
{
    put_array(out, &assignment.topic_partitions)?;
    put_tags(out, &assignment.tags)
}
