//! Produce (key 0, versions 3 to 8): batches of records for the ends of logs.

use crate::api::BrokerApi;
use crate::fault::MessageFault;
use crate::fields::{Fields, TakeFields};
use crate::output::{Output, PutFields};
use std::alloc::Global;

/// A Produce request. One with `acks` 0 has no reply at all.
#[derive(Debug, Drop)]
pub struct ProduceRequest<'a> {
    /// Null of a producer without transactions.
    pub transactional_id: Option<&'a str>,
    /// How many replicas have to have the records before the reply: 0 for none, and then there is no reply; -1 for all.
    pub acks: i16,
    pub timeout_ms: i32,
    pub topics: Vec<ProduceRequestTopic<'a>>,
}

/// A topic, by its name.
#[derive(Debug, Drop)]
pub struct ProduceRequestTopic<'a> {
    pub name: &'a str,
    pub partitions: Vec<ProduceRequestPartition<'a>>,
}

/// Records for a partition.
#[derive(Clone, Copy, Debug)]
pub struct ProduceRequestPartition<'a> {
    pub index: i32,
    /// Batches of records, one after the other.
    pub records: Option<&'a [u8]>,
}

/// The answer to a Produce, but for one with `acks` 0, which has none.
#[derive(Drop)]
pub struct ProduceReply<'a> {
    pub topics: Vec<ProduceReplyTopic<'a>>,
    pub throttle_time_ms: i32,
}

/// A topic, by its name.
#[derive(Drop)]
pub struct ProduceReplyTopic<'a> {
    pub name: &'a str,
    pub partitions: Vec<ProduceReplyPartition<'a>>,
}

/// What became of the records for a partition.
#[derive(Drop)]
pub struct ProduceReplyPartition<'a> {
    pub index: i32,
    pub error_code: i16,
    /// The offset of the first record; -1 after an error.
    pub base_offset: i64,
    /// -1 if the records keep the producer's timestamps.
    pub log_append_time_ms: i64,
    /// From version 5 on.
    pub log_start_offset: i64,
    /// From version 8 on: the records because of which the batch was refused.
    pub record_errors: Vec<RecordError<'a>>,
    /// From version 8 on.
    pub error_message: Option<&'a str>,
}

/// A record because of which a batch was refused.
#[derive(Clone, Copy)]
pub struct RecordError<'a> {
    /// Its index in the batch.
    pub batch_index: i32,
    pub batch_index_error_message: Option<&'a str>,
}

impl<'a> ProduceRequest<'a> {
    /// Reads what comes after the head. Faults: a field's; memory.
    pub fn read(
        alloc: Global,
        version: i16,
        bytes: &'a [u8],
    ) -> Result<ProduceRequest<'a>, MessageFault> {
        let mut fields = Fields::of(BrokerApi::Produce, version, bytes);
        let transactional_id = fields.nullable_string()?;
        let acks = fields.int16()?;
        let timeout_ms = fields.int32()?;
        let topics = fields.array(alloc)?;
        Ok(ProduceRequest {
            transactional_id,
            acks,
            timeout_ms,
            topics,
        })
    }
}

impl<'a> TakeFields<'a> for ProduceRequestTopic<'a> {
    fn take_fields(
        alloc: Global,
        fields: &mut Fields<'a>,
    ) -> Result<ProduceRequestTopic<'a>, MessageFault> {
        let name = fields.string()?;
        let partitions = fields.array(alloc)?;
        Ok(ProduceRequestTopic { name, partitions })
    }
}

impl<'a> TakeFields<'a> for ProduceRequestPartition<'a> {
    fn take_fields(
        _alloc: Global,
        fields: &mut Fields<'a>,
    ) -> Result<ProduceRequestPartition<'a>, MessageFault> {
        let index = fields.int32()?;
        let records = fields.records()?;
        Ok(ProduceRequestPartition { index, records })
    }
}

impl PutFields for ProduceReply<'_> {
    fn put_fields(&self, output: &mut Output) -> Result<(), MessageFault> {
        output.array(&self.topics)?;
        output.int32(self.throttle_time_ms)
    }
}

impl PutFields for ProduceReplyTopic<'_> {
    fn put_fields(&self, output: &mut Output) -> Result<(), MessageFault> {
        output.string(self.name)?;
        output.array(&self.partitions)
    }
}

impl PutFields for ProduceReplyPartition<'_> {
    fn put_fields(&self, output: &mut Output) -> Result<(), MessageFault> {
        output.int32(self.index)?;
        output.int16(self.error_code)?;
        output.int64(self.base_offset)?;
        output.int64(self.log_append_time_ms)?;
        output.int64_since(5, self.log_start_offset)?;
        output.array_since(8, &self.record_errors)?;
        output.nullable_string_since(8, self.error_message)
    }
}

impl PutFields for RecordError<'_> {
    fn put_fields(&self, output: &mut Output) -> Result<(), MessageFault> {
        output.int32(self.batch_index)?;
        output.nullable_string(self.batch_index_error_message)
    }
}
