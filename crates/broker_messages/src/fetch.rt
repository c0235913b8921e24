//! Fetch (key 1, versions 4 to 11): the records from an offset on.

use crate::api::BrokerApi;
use crate::fault::MessageFault;
use crate::fields::{Fields, TakeFields};
use crate::output::{Output, PutFields};
use std::alloc::Global;

/// A Fetch request.
#[derive(Debug, Drop)]
pub struct FetchRequest<'a> {
    /// -1 of a consumer.
    pub replica_id: i32,
    /// How long the reply may wait for `min_bytes`.
    pub max_wait_ms: i32,
    pub min_bytes: i32,
    pub max_bytes: i32,
    /// 0 for all records, 1 for those of finished transactions alone.
    pub isolation_level: i8,
    pub session: FetchSession,
    pub topics: Vec<FetchRequestTopic<'a>>,
    /// From version 7 on: what the session asks for no longer.
    pub forgotten_topics: Vec<ForgottenTopic<'a>>,
    /// From version 11 on; else empty.
    pub rack_id: &'a str,
}

/// A fetch session (KIP-227): from version 7 on. With no session each request says all that it wants.
#[derive(Clone, Copy, Debug)]
pub struct FetchSession {
    /// 0 if there is none.
    pub id: i32,
    /// -1 if there is none.
    pub epoch: i32,
}

/// Partitions of a topic, by its name.
#[derive(Debug, Drop)]
pub struct FetchRequestTopic<'a> {
    pub topic: &'a str,
    pub partitions: Vec<FetchRequestPartition>,
}

/// Where in a partition the records are to begin.
#[derive(Clone, Copy, Debug)]
pub struct FetchRequestPartition {
    pub partition: i32,
    /// From version 9 on; -1 if the client doesn't know it.
    pub current_leader_epoch: i32,
    pub fetch_offset: i64,
    /// From version 5 on; -1 of a consumer.
    pub log_start_offset: i64,
    pub partition_max_bytes: i32,
}

/// Partitions of a topic, by its name, that a session asks for no longer.
#[derive(Debug, Drop)]
pub struct ForgottenTopic<'a> {
    pub topic: &'a str,
    pub partitions: Vec<i32>,
}

/// The answer to a Fetch.
#[derive(Drop)]
pub struct FetchReply<'a> {
    pub throttle_time_ms: i32,
    /// From version 7 on.
    pub error_code: i16,
    /// From version 7 on: 0 if there is no session.
    pub session_id: i32,
    pub topics: Vec<FetchReplyTopic<'a>>,
}

/// A topic, by its name.
#[derive(Drop)]
pub struct FetchReplyTopic<'a> {
    pub topic: &'a str,
    pub partitions: Vec<FetchReplyPartition>,
}

/// A partition. It lists no aborted transactions.
#[derive(Drop)]
pub struct FetchReplyPartition {
    pub partition_index: i32,
    pub error_code: i16,
    /// -1 if it isn't known, as are the next two.
    pub high_watermark: i64,
    pub last_stable_offset: i64,
    /// From version 5 on.
    pub log_start_offset: i64,
    /// From version 11 on; -1 for none.
    pub preferred_read_replica: i32,
    /// Batches of records, one after the other.
    pub records: Vec<u8>,
}

impl<'a> FetchRequest<'a> {
    /// Reads what comes after the head. Faults: a field's; memory.
    pub fn read(
        alloc: Global,
        version: i16,
        bytes: &'a [u8],
    ) -> Result<FetchRequest<'a>, MessageFault> {
        let mut fields = Fields::of(BrokerApi::Fetch, version, bytes);
        let replica_id = fields.int32()?;
        let max_wait_ms = fields.int32()?;
        let min_bytes = fields.int32()?;
        let max_bytes = fields.int32()?;
        let isolation_level = fields.int8()?;
        let session = FetchSession {
            id: fields.int32_since(7, 0)?,
            epoch: fields.int32_since(7, -1)?,
        };
        let topics = fields.array(alloc)?;
        let forgotten_topics = take_forgotten(alloc, &mut fields)?;
        let rack_id = take_rack(&mut fields)?;
        Ok(FetchRequest {
            replica_id,
            max_wait_ms,
            min_bytes,
            max_bytes,
            isolation_level,
            session,
            topics,
            forgotten_topics,
            rack_id,
        })
    }
}

fn take_forgotten<'a>(
    alloc: Global,
    fields: &mut Fields<'a>,
) -> Result<Vec<ForgottenTopic<'a>>, MessageFault> {
    if fields.since(7) {
        return fields.array(alloc);
    }
    Ok(Vec::new(alloc))
}

fn take_rack<'a>(fields: &mut Fields<'a>) -> Result<&'a str, MessageFault> {
    if fields.since(11) {
        return fields.string();
    }
    Ok("")
}

impl<'a> TakeFields<'a> for FetchRequestTopic<'a> {
    fn take_fields(
        alloc: Global,
        fields: &mut Fields<'a>,
    ) -> Result<FetchRequestTopic<'a>, MessageFault> {
        let topic = fields.string()?;
        let partitions = fields.array(alloc)?;
        Ok(FetchRequestTopic { topic, partitions })
    }
}

impl<'a> TakeFields<'a> for FetchRequestPartition {
    fn take_fields(
        _alloc: Global,
        fields: &mut Fields<'a>,
    ) -> Result<FetchRequestPartition, MessageFault> {
        Ok(FetchRequestPartition {
            partition: fields.int32()?,
            current_leader_epoch: fields.int32_since(9, -1)?,
            fetch_offset: fields.int64()?,
            log_start_offset: fields.int64_since(5, -1)?,
            partition_max_bytes: fields.int32()?,
        })
    }
}

impl<'a> TakeFields<'a> for ForgottenTopic<'a> {
    fn take_fields(
        alloc: Global,
        fields: &mut Fields<'a>,
    ) -> Result<ForgottenTopic<'a>, MessageFault> {
        let topic = fields.string()?;
        let partitions = fields.array(alloc)?;
        Ok(ForgottenTopic { topic, partitions })
    }
}

impl PutFields for FetchReply<'_> {
    fn put_fields(&self, output: &mut Output) -> Result<(), MessageFault> {
        output.int32(self.throttle_time_ms)?;
        output.int16_since(7, self.error_code)?;
        output.int32_since(7, self.session_id)?;
        output.array(&self.topics)
    }
}

impl PutFields for FetchReplyTopic<'_> {
    fn put_fields(&self, output: &mut Output) -> Result<(), MessageFault> {
        output.string(self.topic)?;
        output.array(&self.partitions)
    }
}

impl PutFields for FetchReplyPartition {
    fn put_fields(&self, output: &mut Output) -> Result<(), MessageFault> {
        output.int32(self.partition_index)?;
        output.int16(self.error_code)?;
        output.int64(self.high_watermark)?;
        output.int64(self.last_stable_offset)?;
        output.int64_since(5, self.log_start_offset)?;
        // No aborted transactions.
        output.int32(0)?;
        output.int32_since(11, self.preferred_read_replica)?;
        output.records(&self.records)
    }
}
