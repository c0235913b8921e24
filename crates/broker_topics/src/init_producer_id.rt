//! The answer to InitProducerId.

use crate::request::{TopicsRequest, Unanswered};
use crate::topics::Topics;
use broker_messages::{InitProducerIdReply, InitProducerIdRequest};
use std::alloc::Global;
use std::sync::atomic::Ordering;

/// The error code of a producer with transactions, of which there are none (Kafka protocol guide, "Error Codes").
const TRANSACTIONAL_ID_AUTHORIZATION_FAILED: i16 = 53;

/// The greatest producer id, an INT64.
const GREATEST_ID: u64 = 0x7fff_ffff_ffff_ffff;

impl Topics {
    /// A new id for an idempotent producer, whatever id it has (KIP-98, KIP-360), with the epoch 0.
    pub(crate) fn init_producer_id(
        &self,
        alloc: Global,
        request: &TopicsRequest<'_>,
    ) -> Result<InitProducerIdReply, Unanswered> {
        let asked = InitProducerIdRequest::read(alloc, request.head.version, request.rest)?;
        if asked.transactional_id.is_some() {
            return Ok(InitProducerIdReply {
                throttle_time_ms: 0,
                error_code: TRANSACTIONAL_ID_AUTHORIZATION_FAILED,
                producer_id: -1,
                producer_epoch: -1,
            });
        }
        let given = self.producers.fetch_add(1, Ordering::SeqCst);
        Ok(InitProducerIdReply {
            throttle_time_ms: 0,
            error_code: 0,
            producer_id: (given & GREATEST_ID) as i64,
            producer_epoch: 0,
        })
    }
}
