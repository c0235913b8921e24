//! InitProducerId (key 22, versions 0 to 4): the id with which an idempotent producer numbers its batches.

use crate::api::BrokerApi;
use crate::fault::MessageFault;
use crate::fields::Fields;
use crate::output::{Output, PutFields};
use std::alloc::Global;

/// An InitProducerId request.
#[derive(Clone, Copy, Debug)]
pub struct InitProducerIdRequest<'a> {
    /// Null of a producer without transactions.
    pub transactional_id: Option<&'a str>,
    pub transaction_timeout_ms: i32,
    /// From version 3 on: the id that the producer has, or -1.
    pub producer_id: i64,
    /// From version 3 on: the epoch that the producer has, or -1.
    pub producer_epoch: i16,
}

/// The answer to it.
#[derive(Clone, Copy)]
pub struct InitProducerIdReply {
    pub throttle_time_ms: i32,
    pub error_code: i16,
    /// -1 after an error.
    pub producer_id: i64,
    /// -1 after an error.
    pub producer_epoch: i16,
}

impl<'a> InitProducerIdRequest<'a> {
    /// Reads what comes after the head. Faults: a field's. Takes no memory.
    pub fn read(
        _alloc: Global,
        version: i16,
        bytes: &'a [u8],
    ) -> Result<InitProducerIdRequest<'a>, MessageFault> {
        let mut fields = Fields::of(BrokerApi::InitProducerId, version, bytes);
        let transactional_id = fields.nullable_string()?;
        let transaction_timeout_ms = fields.int32()?;
        let producer_id = fields.int64_since(3, -1)?;
        let producer_epoch = if fields.since(3) { fields.int16()? } else { -1 };
        fields.tags()?;
        Ok(InitProducerIdRequest {
            transactional_id,
            transaction_timeout_ms,
            producer_id,
            producer_epoch,
        })
    }
}

impl PutFields for InitProducerIdReply {
    fn put_fields(&self, output: &mut Output) -> Result<(), MessageFault> {
        output.int32(self.throttle_time_ms)?;
        output.int16(self.error_code)?;
        output.int64(self.producer_id)?;
        output.int16(self.producer_epoch)?;
        output.tags()
    }
}
