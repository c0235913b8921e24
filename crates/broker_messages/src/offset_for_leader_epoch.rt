//! OffsetForLeaderEpoch (key 23, versions 2 and 3): where the records of a leader end, so that readers see a log that was cut.

use crate::api::BrokerApi;
use crate::fault::MessageFault;
use crate::fields::{Fields, TakeFields};
use crate::output::{Output, PutFields};
use std::alloc::Global;

/// An OffsetForLeaderEpoch request.
#[derive(Debug, Drop)]
pub struct OffsetForLeaderEpochRequest<'a> {
    /// From version 3 on: -1 of a consumer; else -2.
    pub replica_id: i32,
    pub topics: Vec<OffsetForLeaderEpochRequestTopic<'a>>,
}

/// Partitions of a topic, by its name.
#[derive(Debug, Drop)]
pub struct OffsetForLeaderEpochRequestTopic<'a> {
    pub topic: &'a str,
    pub partitions: Vec<OffsetForLeaderEpochRequestPartition>,
}

/// What is asked of a partition.
#[derive(Clone, Copy, Debug)]
pub struct OffsetForLeaderEpochRequestPartition {
    pub partition: i32,
    /// -1 if the client doesn't know it.
    pub current_leader_epoch: i32,
    /// The epoch whose end is asked for.
    pub leader_epoch: i32,
}

/// The answer to it.
#[derive(Drop)]
pub struct OffsetForLeaderEpochReply<'a> {
    pub throttle_time_ms: i32,
    pub topics: Vec<OffsetForLeaderEpochReplyTopic<'a>>,
}

/// A topic, by its name.
#[derive(Drop)]
pub struct OffsetForLeaderEpochReplyTopic<'a> {
    pub topic: &'a str,
    pub partitions: Vec<OffsetForLeaderEpochReplyPartition>,
}

/// Where the epoch ends.
#[derive(Clone, Copy)]
pub struct OffsetForLeaderEpochReplyPartition {
    pub error_code: i16,
    pub partition: i32,
    /// -1 if the epoch isn't known.
    pub leader_epoch: i32,
    /// The offset after its last record; -1 if the epoch isn't known.
    pub end_offset: i64,
}

impl<'a> OffsetForLeaderEpochRequest<'a> {
    /// Reads what comes after the head. Faults: a field's; memory.
    pub fn read(
        alloc: Global,
        version: i16,
        bytes: &'a [u8],
    ) -> Result<OffsetForLeaderEpochRequest<'a>, MessageFault> {
        let mut fields = Fields::of(BrokerApi::OffsetForLeaderEpoch, version, bytes);
        let replica_id = fields.int32_since(3, -2)?;
        let topics = fields.array(alloc)?;
        Ok(OffsetForLeaderEpochRequest { replica_id, topics })
    }
}

impl<'a> TakeFields<'a> for OffsetForLeaderEpochRequestTopic<'a> {
    fn take_fields(
        alloc: Global,
        fields: &mut Fields<'a>,
    ) -> Result<OffsetForLeaderEpochRequestTopic<'a>, MessageFault> {
        let topic = fields.string()?;
        let partitions = fields.array(alloc)?;
        Ok(OffsetForLeaderEpochRequestTopic { topic, partitions })
    }
}

impl<'a> TakeFields<'a> for OffsetForLeaderEpochRequestPartition {
    fn take_fields(
        _alloc: Global,
        fields: &mut Fields<'a>,
    ) -> Result<OffsetForLeaderEpochRequestPartition, MessageFault> {
        Ok(OffsetForLeaderEpochRequestPartition {
            partition: fields.int32()?,
            current_leader_epoch: fields.int32()?,
            leader_epoch: fields.int32()?,
        })
    }
}

impl PutFields for OffsetForLeaderEpochReply<'_> {
    fn put_fields(&self, output: &mut Output) -> Result<(), MessageFault> {
        output.int32(self.throttle_time_ms)?;
        output.array(&self.topics)
    }
}

impl PutFields for OffsetForLeaderEpochReplyTopic<'_> {
    fn put_fields(&self, output: &mut Output) -> Result<(), MessageFault> {
        output.string(self.topic)?;
        output.array(&self.partitions)
    }
}

impl PutFields for OffsetForLeaderEpochReplyPartition {
    fn put_fields(&self, output: &mut Output) -> Result<(), MessageFault> {
        output.int16(self.error_code)?;
        output.int32(self.partition)?;
        output.int32(self.leader_epoch)?;
        output.int64(self.end_offset)
    }
}
