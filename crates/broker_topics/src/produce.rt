//! The answer to Produce.

ghost use Rattle.std.specs.Prelude.{◌≡◌, negsuc};

use crate::fetched::UNKNOWN_TOPIC_OR_PARTITION;
use crate::request::{TopicsRequest, Unanswered};
use crate::topics::Topics;
use broker_messages::{
    ProduceReply, ProduceReplyPartition, ProduceReplyTopic, ProduceRequest,
    ProduceRequestPartition, ProduceRequestTopic,
};
use std::alloc::Global;
use std::sync::Wait;
use topic_logs::producible;

/// The error codes (Kafka protocol guide, "Error Codes").
const MESSAGE_TOO_LARGE: i16 = 10;

const INVALID_REQUIRED_ACKS: i16 = 21;

const INVALID_TXN_STATE: i16 = 48;

const TRANSACTIONAL_ID_AUTHORIZATION_FAILED: i16 = 53;

/// A reply to a Produce.
#[derive(Drop)]
pub(crate) struct Produced<'a> {
    pub(crate) reply: ProduceReply<'a>,
    /// With `acks` 0 the client wants no reply.
    pub(crate) acks: i16,
    pub(crate) has_error: bool,
}

impl Topics {
    /// Appends the batches of a Produce to their logs (Kafka protocol guide, "Produce API"). There are no transactions.
    pub(crate) fn produce<'a, R: Wait>(
        &self,
        rt: &R,
        alloc: Global,
        request: &TopicsRequest<'a>,
    ) -> Result<Produced<'a>, Unanswered> {
        let asked = ProduceRequest::read(alloc, request.head.version, request.rest)?;
        let refusal = refusal_of(&asked);
        let mut produced = Produced {
            reply: ProduceReply {
                topics: Vec::with_capacity(alloc, asked.topics.len())?,
                throttle_time_ms: 0,
            },
            acks: asked.acks,
            has_error: false,
        };
        for topic in &asked.topics {
            let topic = self.produce_topic(rt, alloc, topic, refusal)?;
            if topic.partitions.iter().any(|reply| reply.error_code != 0) {
                produced.has_error = true;
            }
            produced.reply.topics.push(topic)?;
        }
        Ok(produced)
    }

    /// The answer for a topic: each partition's own, unless all are refused.
    fn produce_topic<'a, R: Wait>(
        &self,
        rt: &R,
        alloc: Global,
        topic: &ProduceRequestTopic<'a>,
        refusal: Option<i16>,
    ) -> Result<ProduceReplyTopic<'a>, Unanswered> {
        let place = self.place_of(topic.name);
        let mut partitions = Vec::with_capacity(alloc, topic.partitions.len())?;
        for asked in &topic.partitions {
            partitions.push(match (refusal, place) {
                (Some(code), _) => refused(alloc, asked.index, code),
                (None, Some(place)) => self.produce_partition(rt, alloc, place, asked),
                (None, None) => refused(alloc, asked.index, UNKNOWN_TOPIC_OR_PARTITION),
            })?;
        }
        Ok(ProduceReplyTopic {
            name: topic.name,
            partitions,
        })
    }

    /// The answer for a partition of the topic at this place: the batch is appended, and the workers are woken that wait for it. The batch
    /// is verified before the partition's lock is taken.
    fn produce_partition<R: Wait>(
        &self,
        rt: &R,
        alloc: Global,
        place: usize,
        asked: &ProduceRequestPartition<'_>,
    ) -> ProduceReplyPartition<'static> {
        let index = asked.index;
        let Some(partition) = self.partition(place, index) else {
            return refused(alloc, index, UNKNOWN_TOPIC_OR_PARTITION);
        };
        let records = asked.records.unwrap_or(&[]);
        if records.len() > self.plan.retain {
            return refused(alloc, index, MESSAGE_TOO_LARGE);
        }
        let batch = match producible(records) {
            Ok(batch) => batch,
            Err(fault) => return refused(alloc, index, fault.code()),
        };
        if batch.is_transactional() {
            return refused(alloc, index, INVALID_TXN_STATE);
        }
        let mut locked = partition.lock(rt);
        let reply = locked.produce(alloc, index, &batch, self.plan.retain);
        let waiting = locked.take_waiting();
        drop(locked);
        self.bells.ring(rt, waiting);
        reply
    }
}

/// Why all partitions are refused, if they are.
fn refusal_of(asked: &ProduceRequest<'_>) -> Option<i16> {
    if asked.transactional_id.is_some() {
        return Some(TRANSACTIONAL_ID_AUTHORIZATION_FAILED);
    }
    if asked.acks < -1 || 1 < asked.acks {
        return Some(INVALID_REQUIRED_ACKS);
    }
    None
}

/// The answer for a partition whose records are refused.
pub(crate) fn refused(alloc: Global, index: i32, error_code: i16) -> ProduceReplyPartition<'static>
    ensures error { result.error_code ≡ error_code }
    ensures offset { result.base_offset ≡ negsuc 0 }
{
    ProduceReplyPartition {
        index,
        error_code,
        base_offset: -1,
        log_append_time_ms: -1,
        log_start_offset: -1,
        record_errors: Vec::new(alloc),
        error_message: None,
    }
}
