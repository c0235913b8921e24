//! Metadata (key 3, versions 0 to 12): the brokers, and the topics with their ids, partitions and leaders.

use crate::api::BrokerApi;
use crate::fault::MessageFault;
use crate::fields::{Fields, TakeFields};
use crate::output::{Output, PutFields};
use std::alloc::Global;
use uuid::Uuid;

/// What stands in place of the set of operations that a client may do, if it isn't told.
pub const OPERATIONS_NOT_TOLD: i32 = i32::MIN;

/// A Metadata request.
#[derive(Debug, Drop)]
pub struct MetadataRequest<'a> {
    /// The topics that are asked for; `None` for all.
    pub topics: Option<Vec<MetadataRequestTopic<'a>>>,
    /// From version 4 on; else true.
    pub allow_auto_topic_creation: bool,
    /// In versions 8 to 10; else false.
    pub include_cluster_authorized_operations: bool,
    /// From version 8 on; else false.
    pub include_topic_authorized_operations: bool,
}

/// A topic that is asked for by its name, or by its id if the name is null.
#[derive(Clone, Copy, Debug)]
pub struct MetadataRequestTopic<'a> {
    /// From version 10 on; else all zero.
    pub topic_id: Uuid,
    /// Null from version 10 on alone.
    pub name: Option<&'a str>,
}

/// The answer to it.
#[derive(Drop)]
pub struct MetadataReply<'a> {
    /// From version 3 on.
    pub throttle_time_ms: i32,
    pub brokers: Vec<MetadataBroker<'a>>,
    /// From version 2 on.
    pub cluster_id: Option<&'a str>,
    /// From version 1 on; -1 for none.
    pub controller_id: i32,
    pub topics: Vec<MetadataTopic<'a>>,
    /// In versions 8 to 10.
    pub cluster_authorized_operations: i32,
}

/// A broker.
#[derive(Clone, Copy)]
pub struct MetadataBroker<'a> {
    pub node_id: i32,
    pub host: &'a str,
    pub port: i32,
    /// From version 1 on.
    pub rack: Option<&'a str>,
}

/// A topic.
#[derive(Drop)]
pub struct MetadataTopic<'a> {
    pub error_code: i16,
    /// Null if it isn't known; before version 12 an empty name is written then.
    pub name: Option<&'a str>,
    /// From version 10 on.
    pub topic_id: Uuid,
    /// From version 1 on.
    pub is_internal: bool,
    pub partitions: Vec<MetadataPartition>,
    /// From version 8 on.
    pub topic_authorized_operations: i32,
}

/// A partition of a topic.
#[derive(Drop)]
pub struct MetadataPartition {
    pub error_code: i16,
    pub partition_index: i32,
    pub leader_id: i32,
    /// From version 7 on.
    pub leader_epoch: i32,
    pub replica_nodes: Vec<i32>,
    pub isr_nodes: Vec<i32>,
    /// From version 5 on.
    pub offline_replicas: Vec<i32>,
}

impl<'a> MetadataRequest<'a> {
    /// Reads what comes after the head. Faults: a field's; memory.
    pub fn read(
        alloc: Global,
        version: i16,
        bytes: &'a [u8],
    ) -> Result<MetadataRequest<'a>, MessageFault> {
        let mut fields = Fields::of(BrokerApi::Metadata, version, bytes);
        let topics = take_topics(alloc, &mut fields)?;
        let allow_auto_topic_creation = !fields.since(4) || fields.boolean()?;
        let include_cluster_authorized_operations = fields.since(8)
            && !fields.since(11)
            && fields.boolean()?;
        let include_topic_authorized_operations = fields.since(8) && fields.boolean()?;
        fields.tags()?;
        Ok(MetadataRequest {
            topics,
            allow_auto_topic_creation,
            include_cluster_authorized_operations,
            include_topic_authorized_operations,
        })
    }
}

/// The topics that are asked for. All are asked for by null, and in version 0, which has no null, by none.
fn take_topics<'a>(
    alloc: Global,
    fields: &mut Fields<'a>,
) -> Result<Option<Vec<MetadataRequestTopic<'a>>>, MessageFault> {
    match fields.nullable_array(alloc)? {
        Some(topics) if topics.is_empty() && !fields.since(1) => Ok(None),
        topics => Ok(topics),
    }
}

impl<'a> TakeFields<'a> for MetadataRequestTopic<'a> {
    fn take_fields(
        _alloc: Global,
        fields: &mut Fields<'a>,
    ) -> Result<MetadataRequestTopic<'a>, MessageFault> {
        let topic = if fields.since(10) {
            MetadataRequestTopic {
                topic_id: fields.uuid()?,
                name: fields.nullable_string()?,
            }
        } else {
            MetadataRequestTopic {
                topic_id: Uuid::nil(),
                name: Some(fields.string()?),
            }
        };
        fields.tags()?;
        Ok(topic)
    }
}

impl PutFields for MetadataReply<'_> {
    fn put_fields(&self, output: &mut Output) -> Result<(), MessageFault> {
        output.int32_since(3, self.throttle_time_ms)?;
        output.array(&self.brokers)?;
        output.nullable_string_since(2, self.cluster_id)?;
        output.int32_since(1, self.controller_id)?;
        output.array(&self.topics)?;
        if output.since(8) && !output.since(11) {
            output.int32(self.cluster_authorized_operations)?;
        }
        output.tags()
    }
}

impl PutFields for MetadataBroker<'_> {
    fn put_fields(&self, output: &mut Output) -> Result<(), MessageFault> {
        output.int32(self.node_id)?;
        output.string(self.host)?;
        output.int32(self.port)?;
        output.nullable_string_since(1, self.rack)?;
        output.tags()
    }
}

impl PutFields for MetadataTopic<'_> {
    fn put_fields(&self, output: &mut Output) -> Result<(), MessageFault> {
        output.int16(self.error_code)?;
        self.put_name(output)?;
        output.uuid_since(10, &self.topic_id)?;
        output.boolean_since(1, self.is_internal)?;
        output.array(&self.partitions)?;
        output.int32_since(8, self.topic_authorized_operations)?;
        output.tags()
    }
}

impl MetadataTopic<'_> {
    ghost use Rattle.std.specs.Prelude.{◌≡◌};

    fn put_name(&self, output: &mut Output) -> Result<(), MessageFault>
        ensures { output.new ≡ output.old }
    {
        match self.name {
            None if !output.since(12) => output.string(""),
            name => output.nullable_string(name),
        }
    }
}

impl PutFields for MetadataPartition {
    fn put_fields(&self, output: &mut Output) -> Result<(), MessageFault> {
        output.int16(self.error_code)?;
        output.int32(self.partition_index)?;
        output.int32(self.leader_id)?;
        output.int32_since(7, self.leader_epoch)?;
        output.array(&self.replica_nodes)?;
        output.array(&self.isr_nodes)?;
        output.array_since(5, &self.offline_replicas)?;
        output.tags()
    }
}
