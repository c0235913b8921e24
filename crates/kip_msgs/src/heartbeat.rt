//! ConsumerGroupHeartbeat: the request and the reply.

use crate::array::Array;
use flex_wire::TaggedFields;
use uuid::Uuid;

/// A ConsumerGroupHeartbeat request (KIP-848, version 0).
#[derive(Debug, Drop)]
pub struct HeartbeatRequest<'a> {
    pub group_id: &'a str,
    /// Empty where the coordinator is to give one.
    pub member_id: &'a str,
    /// The member's epoch; 0 to join, -1 to leave, -2 to leave for a while with an instance id.
    pub member_epoch: i32,
    pub instance_id: Option<&'a str>,
    pub rack_id: Option<&'a str>,
    /// In milliseconds; -1 where it hasn't changed.
    pub rebalance_timeout_ms: i32,
    pub subscribed_topic_names: Option<Array<&'a str>>,
    pub server_assignor: Option<&'a str>,
    /// The partitions that the member owns.
    pub topic_partitions: Option<Array<TopicPartitions<'a>>>,
    pub tags: TaggedFields<'a>,
}

/// A ConsumerGroupHeartbeat response (KIP-848, version 0).
#[derive(Debug, Drop)]
pub struct HeartbeatReply<'a> {
    pub throttle_time_ms: i32,
    /// 0 where there was no error.
    pub error_code: i16,
    pub error_message: Option<&'a str>,
    pub member_id: Option<&'a str>,
    pub member_epoch: i32,
    pub heartbeat_interval_ms: i32,
    /// Null where the member's assignment hasn't changed.
    pub assignment: Option<Assignment<'a>>,
    pub tags: TaggedFields<'a>,
}

/// What a member is to own (KIP-848, "Assignment").
#[derive(Debug, Drop)]
pub struct Assignment<'a> {
    pub topic_partitions: Array<TopicPartitions<'a>>,
    pub tags: TaggedFields<'a>,
}

/// Partitions of one topic (KIP-848, "TopicPartitions").
#[derive(Debug, Drop)]
pub struct TopicPartitions<'a> {
    pub topic_id: Uuid,
    pub partitions: Array<i32>,
    pub tags: TaggedFields<'a>,
}
