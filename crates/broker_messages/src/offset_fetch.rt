//! OffsetFetch (key 9, version 9): what groups have committed.

use crate::api::BrokerApi;
use crate::fault::MessageFault;
use crate::fields::{Fields, TakeFields};
use crate::output::{Output, PutFields};
use std::alloc::Global;

/// An OffsetFetch request.
#[derive(Debug, Drop)]
pub struct OffsetFetchRequest<'a> {
    pub groups: Vec<OffsetFetchRequestGroup<'a>>,
    /// Whether offsets of open transactions are to be waited for.
    pub require_stable: bool,
}

/// A group, and who asks for its offsets.
#[derive(Debug, Drop)]
pub struct OffsetFetchRequestGroup<'a> {
    pub group_id: &'a str,
    /// Null if no member asks.
    pub member_id: Option<&'a str>,
    /// -1 if no member asks.
    pub member_epoch: i32,
    /// Null for all that the group has committed.
    pub topics: Option<Vec<OffsetFetchRequestTopic<'a>>>,
}

/// Partitions of a topic, by its name.
#[derive(Debug, Drop)]
pub struct OffsetFetchRequestTopic<'a> {
    pub name: &'a str,
    pub partition_indexes: Vec<i32>,
}

/// The answer to it, group by group.
#[derive(Drop)]
pub struct OffsetFetchReply<'a> {
    pub throttle_time_ms: i32,
    pub groups: Vec<OffsetFetchReplyGroup<'a>>,
}

/// A group's offsets.
#[derive(Drop)]
pub struct OffsetFetchReplyGroup<'a> {
    pub group_id: &'a str,
    pub topics: Vec<OffsetFetchReplyTopic<'a>>,
    pub error_code: i16,
}

/// A topic, by its name.
#[derive(Drop)]
pub struct OffsetFetchReplyTopic<'a> {
    pub name: &'a str,
    pub partitions: Vec<OffsetFetchReplyPartition<'a>>,
}

/// What is committed of a partition.
#[derive(Clone, Copy)]
pub struct OffsetFetchReplyPartition<'a> {
    pub partition_index: i32,
    /// -1 for none.
    pub committed_offset: i64,
    /// -1 for none.
    pub committed_leader_epoch: i32,
    pub metadata: Option<&'a str>,
    pub error_code: i16,
}

impl<'a> OffsetFetchRequest<'a> {
    /// Reads what comes after the head. Faults: a field's; memory.
    pub fn read(
        alloc: Global,
        version: i16,
        bytes: &'a [u8],
    ) -> Result<OffsetFetchRequest<'a>, MessageFault> {
        let mut fields = Fields::of(BrokerApi::OffsetFetch, version, bytes);
        let groups = fields.array(alloc)?;
        let require_stable = fields.boolean()?;
        fields.tags()?;
        Ok(OffsetFetchRequest {
            groups,
            require_stable,
        })
    }
}

impl<'a> TakeFields<'a> for OffsetFetchRequestGroup<'a> {
    fn take_fields(
        alloc: Global,
        fields: &mut Fields<'a>,
    ) -> Result<OffsetFetchRequestGroup<'a>, MessageFault> {
        let group_id = fields.string()?;
        let member_id = fields.nullable_string()?;
        let member_epoch = fields.int32()?;
        let topics = fields.nullable_array(alloc)?;
        fields.tags()?;
        Ok(OffsetFetchRequestGroup {
            group_id,
            member_id,
            member_epoch,
            topics,
        })
    }
}

impl<'a> TakeFields<'a> for OffsetFetchRequestTopic<'a> {
    fn take_fields(
        alloc: Global,
        fields: &mut Fields<'a>,
    ) -> Result<OffsetFetchRequestTopic<'a>, MessageFault> {
        let name = fields.string()?;
        let partition_indexes = fields.array(alloc)?;
        fields.tags()?;
        Ok(OffsetFetchRequestTopic {
            name,
            partition_indexes,
        })
    }
}

impl PutFields for OffsetFetchReply<'_> {
    fn put_fields(&self, output: &mut Output) -> Result<(), MessageFault> {
        output.int32(self.throttle_time_ms)?;
        output.array(&self.groups)?;
        output.tags()
    }
}

impl PutFields for OffsetFetchReplyGroup<'_> {
    fn put_fields(&self, output: &mut Output) -> Result<(), MessageFault> {
        output.string(self.group_id)?;
        output.array(&self.topics)?;
        output.int16(self.error_code)?;
        output.tags()
    }
}

impl PutFields for OffsetFetchReplyTopic<'_> {
    fn put_fields(&self, output: &mut Output) -> Result<(), MessageFault> {
        output.string(self.name)?;
        output.array(&self.partitions)?;
        output.tags()
    }
}

impl PutFields for OffsetFetchReplyPartition<'_> {
    fn put_fields(&self, output: &mut Output) -> Result<(), MessageFault> {
        output.int32(self.partition_index)?;
        output.int64(self.committed_offset)?;
        output.int32(self.committed_leader_epoch)?;
        output.nullable_string(self.metadata)?;
        output.int16(self.error_code)?;
        output.tags()
    }
}
