//! The answer to Metadata.

use crate::fetched::UNKNOWN_TOPIC_OR_PARTITION;
use crate::partition::LEADER_EPOCH;
use crate::request::{TopicsRequest, Unanswered};
use crate::topics::{Topic, Topics, number_of};
use broker_messages::{
    MetadataBroker, MetadataPartition, MetadataReply, MetadataRequest, MetadataRequestTopic,
    MetadataTopic, OPERATIONS_NOT_TOLD,
};
use std::alloc::{AllocError, Global};

/// The id of this broker, the only one.
pub(crate) const NODE_ID: i32 = 0;

/// The name of the cluster.
const CLUSTER_ID: &str = "coord-broker";

/// The error code of a topic whose id isn't known (Kafka protocol guide, "Error Codes").
const UNKNOWN_TOPIC_ID: i16 = 100;

impl Topics {
    /// This broker, and the topics that are asked for (Kafka protocol guide, "Metadata API"). A topic that is there is answered once,
    /// however often it is asked for. No topic is made.
    pub(crate) fn metadata<'a>(
        &'a self,
        alloc: Global,
        request: &TopicsRequest<'a>,
    ) -> Result<MetadataReply<'a>, Unanswered> {
        let asked = MetadataRequest::read(alloc, request.head.version, request.rest)?;
        let topics = match &asked.topics {
            Some(asked) => self.topics_asked(alloc, asked)?,
            None => self.all_topics(alloc)?,
        };
        let mut brokers = Vec::new(alloc);
        brokers.push(MetadataBroker {
            node_id: NODE_ID,
            host: self.plan.host.as_str(),
            port: i32::from(self.plan.port),
            rack: None,
        })?;
        Ok(MetadataReply {
            throttle_time_ms: 0,
            brokers,
            cluster_id: Some(CLUSTER_ID),
            controller_id: NODE_ID,
            topics,
            cluster_authorized_operations: OPERATIONS_NOT_TOLD,
        })
    }

    fn all_topics<'a>(&'a self, alloc: Global) -> Result<Vec<MetadataTopic<'a>>, AllocError> {
        let mut told = Vec::with_capacity(alloc, self.topics().len())?;
        for topic in self.topics() {
            told.push(told_topic(alloc, topic)?)?;
        }
        Ok(told)
    }

    fn topics_asked<'a>(
        &'a self,
        alloc: Global,
        asked: &[MetadataRequestTopic<'a>],
    ) -> Result<Vec<MetadataTopic<'a>>, AllocError> {
        let mut told = Vec::new(alloc);
        let mut is_told = vec![in alloc; false; self.topics().len()]?;
        for asked in asked {
            match self.place_asked(asked) {
                Some(place) => {
                    let (Some(topic), Some(is_told)) = (
                        self.topics().get(place),
                        is_told.get_mut(place),
                    ) else {
                        continue;
                    };
                    if !*is_told {
                        *is_told = true;
                        told.push(told_topic(alloc, topic)?)?;
                    }
                }
                None => told.push(unknown_topic(alloc, asked))?,
            }
        }
        Ok(told)
    }

    /// The place of the topic that is asked for by its name, or by its id if the name is null.
    fn place_asked(&self, asked: &MetadataRequestTopic<'_>) -> Option<usize> {
        match asked.name {
            Some(name) => self.place_of(name),
            None => self.place_of_id(&asked.topic_id),
        }
    }
}

/// What is told of a topic.
fn told_topic<'a>(alloc: Global, topic: &'a Topic) -> Result<MetadataTopic<'a>, AllocError> {
    let count = topic.partitions.len();
    let mut partitions = Vec::with_capacity(alloc, count)?;
    for index in 0..count {
        partitions.push(told_partition(alloc, number_of(index))?)?;
    }
    Ok(MetadataTopic {
        error_code: 0,
        name: Some(topic.name.as_str()),
        topic_id: topic.id,
        is_internal: false,
        partitions,
        topic_authorized_operations: OPERATIONS_NOT_TOLD,
    })
}

/// What is told of a partition: this broker leads it, and alone has it.
fn told_partition(alloc: Global, index: i32) -> Result<MetadataPartition, AllocError> {
    let mut replica_nodes = Vec::with_capacity(alloc, 1)?;
    replica_nodes.push(NODE_ID)?;
    let mut isr_nodes = Vec::with_capacity(alloc, 1)?;
    isr_nodes.push(NODE_ID)?;
    Ok(MetadataPartition {
        error_code: 0,
        partition_index: index,
        leader_id: NODE_ID,
        leader_epoch: LEADER_EPOCH,
        replica_nodes,
        isr_nodes,
        offline_replicas: Vec::new(alloc),
    })
}

/// What is told of a topic that isn't there.
fn unknown_topic<'a>(alloc: Global, asked: &MetadataRequestTopic<'a>) -> MetadataTopic<'a> {
    let error_code = match asked.name {
        Some(_) => UNKNOWN_TOPIC_OR_PARTITION,
        None => UNKNOWN_TOPIC_ID,
    };
    MetadataTopic {
        error_code,
        name: asked.name,
        topic_id: asked.topic_id,
        is_internal: false,
        partitions: Vec::new(alloc),
        topic_authorized_operations: OPERATIONS_NOT_TOLD,
    }
}
