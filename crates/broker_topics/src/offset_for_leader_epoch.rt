//! The answer to OffsetForLeaderEpoch.

use crate::fetched::{UNKNOWN_LEADER_EPOCH, UNKNOWN_TOPIC_OR_PARTITION};
use crate::partition::LEADER_EPOCH;
use crate::request::{TopicsRequest, Unanswered};
use crate::topics::Topics;
use broker_messages::{
    OffsetForLeaderEpochReply, OffsetForLeaderEpochReplyPartition, OffsetForLeaderEpochReplyTopic,
    OffsetForLeaderEpochRequest, OffsetForLeaderEpochRequestPartition,
    OffsetForLeaderEpochRequestTopic,
};
use std::alloc::{AllocError, Global};
use std::sync::Wait;

impl Topics {
    /// Where the records of a leader end (Kafka protocol guide, "OffsetForLeaderEpoch API"). There was one leader only, so its records end
    /// where the log does.
    pub(crate) fn offset_for_leader_epoch<'a, R: Wait>(
        &self,
        rt: &R,
        alloc: Global,
        request: &TopicsRequest<'a>,
    ) -> Result<OffsetForLeaderEpochReply<'a>, Unanswered> {
        let asked = OffsetForLeaderEpochRequest::read(alloc, request.head.version, request.rest)?;
        let mut topics = Vec::with_capacity(alloc, asked.topics.len())?;
        for topic in &asked.topics {
            topics.push(self.epochs_of_topic(rt, alloc, topic)?)?;
        }
        Ok(OffsetForLeaderEpochReply {
            throttle_time_ms: 0,
            topics,
        })
    }

    fn epochs_of_topic<'a, R: Wait>(
        &self,
        rt: &R,
        alloc: Global,
        topic: &OffsetForLeaderEpochRequestTopic<'a>,
    ) -> Result<OffsetForLeaderEpochReplyTopic<'a>, AllocError> {
        let place = self.place_of(topic.topic);
        let mut partitions = Vec::with_capacity(alloc, topic.partitions.len())?;
        for asked in &topic.partitions {
            partitions.push(self.end_of_epoch(rt, place, asked))?;
        }
        Ok(OffsetForLeaderEpochReplyTopic {
            topic: topic.topic,
            partitions,
        })
    }

    fn end_of_epoch<R: Wait>(
        &self,
        rt: &R,
        place: Option<usize>,
        asked: &OffsetForLeaderEpochRequestPartition,
    ) -> OffsetForLeaderEpochReplyPartition {
        let mut reply = OffsetForLeaderEpochReplyPartition {
            error_code: 0,
            partition: asked.partition,
            leader_epoch: -1,
            end_offset: -1,
        };
        let partition = match place {
            Some(place) => self.partition(place, asked.partition),
            None => None,
        };
        let Some(partition) = partition else {
            reply.error_code = UNKNOWN_TOPIC_OR_PARTITION;
            return reply;
        };
        if asked.current_leader_epoch > 0 {
            reply.error_code = UNKNOWN_LEADER_EPOCH;
            return reply;
        }
        if asked.leader_epoch == LEADER_EPOCH {
            reply.leader_epoch = LEADER_EPOCH;
            reply.end_offset = partition.lock(rt).log.end_offset() as i64;
        }
        reply
    }
}
