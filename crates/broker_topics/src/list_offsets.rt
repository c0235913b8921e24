//! The answer to ListOffsets.

use crate::fetched::{UNKNOWN_LEADER_EPOCH, UNKNOWN_TOPIC_OR_PARTITION};
use crate::limits::MOST_SEARCHED;
use crate::partition::LEADER_EPOCH;
use crate::request::{TopicsRequest, Unanswered};
use crate::topics::Topics;
use broker_messages::{
    ListOffsetsReply, ListOffsetsReplyPartition, ListOffsetsReplyTopic, ListOffsetsRequest,
    ListOffsetsRequestPartition, ListOffsetsRequestTopic,
};
use std::alloc::{AllocError, Global};
use std::sync::Wait;
use topic_logs::PartitionLog;

/// What stands in place of a timestamp for the log's end, and for its beginning (Kafka protocol guide, "ListOffsets API").
const LATEST: i64 = -1;

const EARLIEST: i64 = -2;

/// The error codes (Kafka protocol guide, "Error Codes").
const REQUEST_TIMED_OUT: i16 = 7;

const UNSUPPORTED_VERSION: i16 = 35;

impl Topics {
    /// Where logs begin and end, and where the records of a moment begin (Kafka protocol guide, "ListOffsets API"). A timestamp is looked
    /// for among batches: what is told is the offset of the first record of the first batch that has a record of that moment or later.
    pub(crate) fn list_offsets<'a, R: Wait>(
        &self,
        rt: &R,
        alloc: Global,
        request: &TopicsRequest<'a>,
    ) -> Result<ListOffsetsReply<'a>, Unanswered> {
        let asked = ListOffsetsRequest::read(alloc, request.head.version, request.rest)?;
        let mut topics = Vec::with_capacity(alloc, asked.topics.len())?;
        let mut searchable = MOST_SEARCHED;
        for topic in &asked.topics {
            topics.push(self.list_topic(rt, alloc, topic, &mut searchable)?)?;
        }
        Ok(ListOffsetsReply {
            throttle_time_ms: 0,
            topics,
        })
    }

    fn list_topic<'a, R: Wait>(
        &self,
        rt: &R,
        alloc: Global,
        topic: &ListOffsetsRequestTopic<'a>,
        searchable: &mut usize,
    ) -> Result<ListOffsetsReplyTopic<'a>, AllocError> {
        let place = self.place_of(topic.name);
        let mut partitions = Vec::with_capacity(alloc, topic.partitions.len())?;
        for asked in &topic.partitions {
            partitions.push(self.list_partition(rt, place, asked, searchable))?;
        }
        Ok(ListOffsetsReplyTopic {
            name: topic.name,
            partitions,
        })
    }

    fn list_partition<R: Wait>(
        &self,
        rt: &R,
        place: Option<usize>,
        asked: &ListOffsetsRequestPartition,
        searchable: &mut usize,
    ) -> ListOffsetsReplyPartition {
        let Some(place) = place else {
            return unlisted(asked.partition_index, UNKNOWN_TOPIC_OR_PARTITION);
        };
        let Some(partition) = self.partition(place, asked.partition_index) else {
            return unlisted(asked.partition_index, UNKNOWN_TOPIC_OR_PARTITION);
        };
        if asked.current_leader_epoch > 0 {
            return unlisted(asked.partition_index, UNKNOWN_LEADER_EPOCH);
        }
        listed(&partition.lock(rt).log, asked, searchable)
    }
}

/// The answer for a partition.
fn listed(
    log: &PartitionLog,
    asked: &ListOffsetsRequestPartition,
    searchable: &mut usize,
) -> ListOffsetsReplyPartition {
    let (start, end) = (log.start_offset(), log.end_offset());
    let (timestamp, offset) = match asked.timestamp {
        LATEST => (-1, end as i64),
        EARLIEST => (-1, start as i64),
        timestamp if timestamp < 0 => {
            return unlisted(asked.partition_index, UNSUPPORTED_VERSION);
        }
        timestamp => {
            let batches = log.batch_count();
            if *searchable < batches {
                return unlisted(asked.partition_index, REQUEST_TIMED_OUT);
            }
            *searchable -= batches;
            match log.offset_of_timestamp(timestamp) {
                Some((timestamp, offset)) => (timestamp, i64::try_from(offset).unwrap_or(-1)),
                None => (-1, -1),
            }
        }
    };
    ListOffsetsReplyPartition {
        partition_index: asked.partition_index,
        error_code: 0,
        timestamp,
        offset,
        leader_epoch: LEADER_EPOCH,
    }
}

/// The answer for a partition with no offset, for this reason.
fn unlisted(partition_index: i32, error_code: i16) -> ListOffsetsReplyPartition {
    ListOffsetsReplyPartition {
        partition_index,
        error_code,
        timestamp: -1,
        offset: -1,
        leader_epoch: -1,
    }
}
