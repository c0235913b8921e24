//! ListOffsets (key 2, versions 1 to 5): where a log begins and ends, and which record came at a moment.

use crate::api::BrokerApi;
use crate::fault::MessageFault;
use crate::fields::{Fields, TakeFields};
use crate::output::{Output, PutFields};
use std::alloc::Global;

/// A ListOffsets request.
#[derive(Debug, Drop)]
pub struct ListOffsetsRequest<'a> {
    /// -1 of a consumer.
    pub replica_id: i32,
    /// From version 2 on: 0 for all records, 1 for those of finished transactions alone.
    pub isolation_level: i8,
    pub topics: Vec<ListOffsetsRequestTopic<'a>>,
}

/// Partitions of a topic, by its name.
#[derive(Debug, Drop)]
pub struct ListOffsetsRequestTopic<'a> {
    pub name: &'a str,
    pub partitions: Vec<ListOffsetsRequestPartition>,
}

/// What is asked of a partition.
#[derive(Clone, Copy, Debug)]
pub struct ListOffsetsRequestPartition {
    pub partition_index: i32,
    /// From version 4 on; -1 if the client doesn't know it.
    pub current_leader_epoch: i32,
    /// In milliseconds; -1 for the end of the log, -2 for its beginning.
    pub timestamp: i64,
}

/// The answer to it.
#[derive(Drop)]
pub struct ListOffsetsReply<'a> {
    /// From version 2 on.
    pub throttle_time_ms: i32,
    pub topics: Vec<ListOffsetsReplyTopic<'a>>,
}

/// A topic, by its name.
#[derive(Drop)]
pub struct ListOffsetsReplyTopic<'a> {
    pub name: &'a str,
    pub partitions: Vec<ListOffsetsReplyPartition>,
}

/// A partition.
#[derive(Clone, Copy)]
pub struct ListOffsetsReplyPartition {
    pub partition_index: i32,
    pub error_code: i16,
    /// In milliseconds; -1 for none.
    pub timestamp: i64,
    /// -1 for none.
    pub offset: i64,
    /// From version 4 on; -1 for none.
    pub leader_epoch: i32,
}

impl<'a> ListOffsetsRequest<'a> {
    /// Reads what comes after the head. Faults: a field's; memory.
    pub fn read(
        alloc: Global,
        version: i16,
        bytes: &'a [u8],
    ) -> Result<ListOffsetsRequest<'a>, MessageFault> {
        let mut fields = Fields::of(BrokerApi::ListOffsets, version, bytes);
        let replica_id = fields.int32()?;
        let isolation_level = if fields.since(2) { fields.int8()? } else { 0 };
        let topics = fields.array(alloc)?;
        Ok(ListOffsetsRequest {
            replica_id,
            isolation_level,
            topics,
        })
    }
}

impl<'a> TakeFields<'a> for ListOffsetsRequestTopic<'a> {
    fn take_fields(
        alloc: Global,
        fields: &mut Fields<'a>,
    ) -> Result<ListOffsetsRequestTopic<'a>, MessageFault> {
        let name = fields.string()?;
        let partitions = fields.array(alloc)?;
        Ok(ListOffsetsRequestTopic { name, partitions })
    }
}

impl<'a> TakeFields<'a> for ListOffsetsRequestPartition {
    fn take_fields(
        _alloc: Global,
        fields: &mut Fields<'a>,
    ) -> Result<ListOffsetsRequestPartition, MessageFault> {
        Ok(ListOffsetsRequestPartition {
            partition_index: fields.int32()?,
            current_leader_epoch: fields.int32_since(4, -1)?,
            timestamp: fields.int64()?,
        })
    }
}

impl PutFields for ListOffsetsReply<'_> {
    fn put_fields(&self, output: &mut Output) -> Result<(), MessageFault> {
        output.int32_since(2, self.throttle_time_ms)?;
        output.array(&self.topics)
    }
}

impl PutFields for ListOffsetsReplyTopic<'_> {
    fn put_fields(&self, output: &mut Output) -> Result<(), MessageFault> {
        output.string(self.name)?;
        output.array(&self.partitions)
    }
}

impl PutFields for ListOffsetsReplyPartition {
    fn put_fields(&self, output: &mut Output) -> Result<(), MessageFault> {
        output.int32(self.partition_index)?;
        output.int16(self.error_code)?;
        output.int64(self.timestamp)?;
        output.int64(self.offset)?;
        output.int32_since(4, self.leader_epoch)
    }
}
