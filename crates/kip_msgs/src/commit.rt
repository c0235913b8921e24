//! OffsetCommit: the request and the reply.

use crate::array::Array;
use flex_wire::TaggedFields;

/// An OffsetCommit request (Kafka protocol guide, "OffsetCommit Request v9").
#[derive(Debug, Drop)]
pub struct CommitRequest<'a> {
    pub group_id: &'a str,
    /// The member's epoch; negative where no member of the group commits.
    pub generation_id_or_member_epoch: i32,
    pub member_id: &'a str,
    pub group_instance_id: Option<&'a str>,
    pub topics: Array<CommitRequestTopic<'a>>,
    pub tags: TaggedFields<'a>,
}

/// Offsets of one topic to be committed.
#[derive(Debug, Drop)]
pub struct CommitRequestTopic<'a> {
    pub name: &'a str,
    pub partitions: Array<CommitRequestPartition<'a>>,
    pub tags: TaggedFields<'a>,
}

/// An offset of one partition to be committed.
#[derive(Debug, Drop)]
pub struct CommitRequestPartition<'a> {
    pub partition_index: i32,
    pub committed_offset: i64,
    /// The epoch of the leader from which the last record came; -1 where it isn't known.
    pub committed_leader_epoch: i32,
    pub committed_metadata: Option<&'a str>,
    pub tags: TaggedFields<'a>,
}

/// An OffsetCommit response (Kafka protocol guide, "OffsetCommit Response v9").
#[derive(Debug, Drop)]
pub struct CommitReply<'a> {
    pub throttle_time_ms: i32,
    /// The request's topics and partitions, in their order.
    pub topics: Array<CommitReplyTopic<'a>>,
    pub tags: TaggedFields<'a>,
}

/// What came of one topic's partitions.
#[derive(Debug, Drop)]
pub struct CommitReplyTopic<'a> {
    pub name: &'a str,
    pub partitions: Array<CommitReplyPartition<'a>>,
    pub tags: TaggedFields<'a>,
}

/// What came of one partition.
#[derive(Debug, Drop)]
pub struct CommitReplyPartition<'a> {
    pub partition_index: i32,
    /// 0 where the offset was taken.
    pub error_code: i16,
    pub tags: TaggedFields<'a>,
}
