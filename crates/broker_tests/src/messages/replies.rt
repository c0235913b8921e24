//! Replies that librdkafka 2.14.2 was given by another broker, and has read.

use broker_messages::{
    ApiVersionsReply, AssignedTopic, BrokerApi, ConsumerGroupDescribeReply, Coordinator,
    DescribedGroup, DescribedMember, FetchReply, FetchReplyPartition, FetchReplyTopic,
    FindCoordinatorReply, InitProducerIdReply, ListGroupsReply, ListOffsetsReply,
    ListOffsetsReplyPartition, ListOffsetsReplyTopic, ListedGroup, MessageFault, MetadataBroker,
    MetadataReply, OPERATIONS_NOT_TOLD, OffsetFetchReply, OffsetFetchReplyGroup,
    OffsetFetchReplyPartition, OffsetFetchReplyTopic, OffsetForLeaderEpochReply,
    OffsetForLeaderEpochReplyPartition, OffsetForLeaderEpochReplyTopic, ProduceReply,
    ProduceReplyPartition, ProduceReplyTopic, PutFields, RecordError, ReplyHead, put_reply,
};
use std::alloc::{AllocError, Global};
use test_support::frames::put_hex;
use test_support::tables::{Answers, cut, number};
use uuid::Uuid;

/// A reply's version and correlation id, and its bytes. Those after the first five, for which there is no recording, were worked out
/// by hand from the protocol guide.
pub const TABLE: &str = r#"
FindCoordinator 2 2 = 00000002000000000000ffff0000000000093132372e302e302e3100002385
Metadata 12 2 = 00000002000000000002000000000a3132372e302e302e310000238500000c636f6f72642d7365727665000000000100
ListOffsets 5 3 = 00000003000000000000000100066f726465727300000001000000030000ffffffffffffffff000000000000000000000000
OffsetFetch 9 5 = 00000005000000000002026702076f726465727303000000020000000000000005000000000100000000000003000000000000000500000000010000000000000000
Fetch 11 8 = 00000008000000000000000000000000000100066f72646572730000000100000000000000000000000000050000000000000005000000000000000000000000ffffffff00000003aabbcc
ApiVersions 0 1 = 0000000100230000000d00000003000800010004000b00020001000500030000000c000800090009000900090009000a00000004001000000005001200000003001600000004001700020003004400000001004500000001
Produce 8 9 = 000000090000000100016100000001000000020057ffffffffffffffffffffffffffffffff00000000000000000000000100000003ffff000362616400000000
InitProducerId 4 2 = 00000002000000000000000000000000000007000000
ListGroups 5 3 = 000000030000000000000002026709636f6e73756d657207537461626c6509636f6e73756d65720000
ConsumerGroupDescribe 1 4 = 00000004000000000002000000026707537461626c65000000030000000308756e69666f726d02026d0000000000030363310b2f3132372e302e302e3102026100021111111111111111111111111111111102610200000000000001000100800000000000
OffsetForLeaderEpoch 3 5 = 00000005000000000000000100016100000001000000000002000000050000000000000009
"#;

pub struct Replies;

impl Answers for Replies {
    fn answer(&self, alloc: Global, question: &str, out: &mut String) -> Result<(), AllocError> {
        let (name, words) = cut(question);
        let (version, correlation_id) = cut(words);
        let head = ReplyHead {
            api: api_of(name),
            version: number(version),
            correlation_id: number(correlation_id),
        };
        match head.api {
            BrokerApi::FindCoordinator => tell(alloc, head, &find_coordinator(alloc)?, out),
            BrokerApi::Metadata => tell(alloc, head, &metadata(alloc)?, out),
            BrokerApi::ListOffsets => tell(alloc, head, &list_offsets(alloc)?, out),
            BrokerApi::OffsetFetch => tell(alloc, head, &offset_fetch(alloc)?, out),
            BrokerApi::Fetch => tell(alloc, head, &fetch(alloc)?, out),
            BrokerApi::Produce => tell(alloc, head, &produce(alloc)?, out),
            BrokerApi::ListGroups => tell(alloc, head, &list_groups(alloc)?, out),
            BrokerApi::ConsumerGroupDescribe => tell(alloc, head, &describe(alloc)?, out),
            BrokerApi::OffsetForLeaderEpoch => tell(alloc, head, &epoch_ends(alloc)?, out),
            BrokerApi::InitProducerId => tell(alloc, head, &PRODUCER, out),
            _ => tell(alloc, head, &UNSUPPORTED_VERSION, out),
        }
    }
}

/// The API of a name; ApiVersions if there is none.
fn api_of(name: &str) -> BrokerApi {
    for api in BrokerApi::ALL {
        if api.name() == name {
            return api;
        }
    }
    BrokerApi::ApiVersions
}

/// The answer to a version of ApiVersions that isn't spoken.
const UNSUPPORTED_VERSION: ApiVersionsReply = ApiVersionsReply {
    error_code: 35,
    throttle_time_ms: 0,
};

/// The first epoch of producer 7.
const PRODUCER: InitProducerIdReply = InitProducerIdReply {
    throttle_time_ms: 0,
    error_code: 0,
    producer_id: 7,
    producer_epoch: 0,
};

fn tell<M: PutFields>(
    alloc: Global,
    head: ReplyHead,
    message: &M,
    out: &mut String,
) -> Result<(), AllocError> {
    let mut bytes = Vec::new(alloc);
    match put_reply(alloc, &mut bytes, &head, message) {
        Ok(()) => put_hex(out, &bytes),
        Err(MessageFault::NoMemory) => Err(AllocError),
        Err(fault) => write!(out, "{fault:?}"),
    }
}

/// One coordinator, of group `g`.
fn find_coordinator(alloc: Global) -> Result<FindCoordinatorReply<'static>, AllocError> {
    let coordinator = Coordinator {
        key: "g",
        node_id: 0,
        host: "127.0.0.1",
        port: 9093,
        error_code: 0,
        error_message: None,
    };
    Ok(FindCoordinatorReply {
        throttle_time_ms: 0,
        coordinators: vec![in alloc; coordinator]?,
    })
}

/// One broker, and no topic.
fn metadata(alloc: Global) -> Result<MetadataReply<'static>, AllocError> {
    let broker = MetadataBroker {
        node_id: 0,
        host: "127.0.0.1",
        port: 9093,
        rack: None,
    };
    Ok(MetadataReply {
        throttle_time_ms: 0,
        brokers: vec![in alloc; broker]?,
        cluster_id: Some("coord-serve"),
        controller_id: 0,
        topics: Vec::new(alloc),
        cluster_authorized_operations: OPERATIONS_NOT_TOLD,
    })
}

/// Where partition 3 of `orders` begins.
fn list_offsets(alloc: Global) -> Result<ListOffsetsReply<'static>, AllocError> {
    let partition = ListOffsetsReplyPartition {
        partition_index: 3,
        error_code: 0,
        timestamp: -1,
        offset: 0,
        leader_epoch: 0,
    };
    let topic = ListOffsetsReplyTopic {
        name: "orders",
        partitions: vec![in alloc; partition]?,
    };
    Ok(ListOffsetsReply {
        throttle_time_ms: 0,
        topics: vec![in alloc; topic]?,
    })
}

fn offset_five(partition_index: i32) -> OffsetFetchReplyPartition<'static> {
    OffsetFetchReplyPartition {
        partition_index,
        committed_offset: 5,
        committed_leader_epoch: 0,
        metadata: Some(""),
        error_code: 0,
    }
}

/// Offset 5 of partitions 2 and 3 of `orders`.
fn offset_fetch(alloc: Global) -> Result<OffsetFetchReply<'static>, AllocError> {
    let topic = OffsetFetchReplyTopic {
        name: "orders",
        partitions: vec![in alloc; offset_five(2), offset_five(3)]?,
    };
    let group = OffsetFetchReplyGroup {
        group_id: "g",
        topics: vec![in alloc; topic]?,
        error_code: 0,
    };
    Ok(OffsetFetchReply {
        throttle_time_ms: 0,
        groups: vec![in alloc; group]?,
    })
}

/// Three bytes, in place of the batches, of partition 0 of `orders`.
fn fetch(alloc: Global) -> Result<FetchReply<'static>, AllocError> {
    let partition = FetchReplyPartition {
        partition_index: 0,
        error_code: 0,
        high_watermark: 5,
        last_stable_offset: 5,
        log_start_offset: 0,
        preferred_read_replica: -1,
        records: vec![in alloc; 0xaa, 0xbb, 0xcc]?,
    };
    let topic = FetchReplyTopic {
        topic: "orders",
        partitions: vec![in alloc; partition]?,
    };
    Ok(FetchReply {
        throttle_time_ms: 0,
        error_code: 0,
        session_id: 0,
        topics: vec![in alloc; topic]?,
    })
}

/// A batch for partition 2 of `a` that was refused because of its record 3 (INVALID_RECORD, 87).
fn produce(alloc: Global) -> Result<ProduceReply<'static>, AllocError> {
    let error = RecordError {
        batch_index: 3,
        batch_index_error_message: None,
    };
    let partition = ProduceReplyPartition {
        index: 2,
        error_code: 87,
        base_offset: -1,
        log_append_time_ms: -1,
        log_start_offset: 0,
        record_errors: vec![in alloc; error]?,
        error_message: Some("bad"),
    };
    let topic = ProduceReplyTopic {
        name: "a",
        partitions: vec![in alloc; partition]?,
    };
    Ok(ProduceReply {
        topics: vec![in alloc; topic]?,
        throttle_time_ms: 0,
    })
}

/// Group `g`.
fn list_groups(alloc: Global) -> Result<ListGroupsReply<'static>, AllocError> {
    let group = ListedGroup {
        group_id: "g",
        protocol_type: "consumer",
        group_state: "Stable",
        group_type: "consumer",
    };
    Ok(ListGroupsReply {
        throttle_time_ms: 0,
        error_code: 0,
        groups: vec![in alloc; group]?,
    })
}

/// Group `g` of a member that has partition 0 of `a`, and is to have nothing.
fn describe(alloc: Global) -> Result<ConsumerGroupDescribeReply<'static>, AllocError> {
    let topic = AssignedTopic {
        topic_id: Uuid::from_bytes([0x11; 16]),
        topic_name: "a",
        partitions: vec![in alloc; 0]?,
    };
    let member = DescribedMember {
        member_id: "m",
        instance_id: None,
        rack_id: None,
        member_epoch: 3,
        client_id: "c1",
        client_host: "/127.0.0.1",
        subscribed_topic_names: vec![in alloc; "a"]?,
        subscribed_topic_regex: None,
        assignment: vec![in alloc; topic]?,
        target_assignment: Vec::new(alloc),
        member_type: 1,
    };
    let group = DescribedGroup {
        error_code: 0,
        error_message: None,
        group_id: "g",
        group_state: "Stable",
        group_epoch: 3,
        assignment_epoch: 3,
        assignor_name: "uniform",
        members: vec![in alloc; member]?,
        authorized_operations: OPERATIONS_NOT_TOLD,
    };
    Ok(ConsumerGroupDescribeReply {
        throttle_time_ms: 0,
        groups: vec![in alloc; group]?,
    })
}

/// Epoch 5 of partition 2 of `a` ends at offset 9.
fn epoch_ends(alloc: Global) -> Result<OffsetForLeaderEpochReply<'static>, AllocError> {
    let partition = OffsetForLeaderEpochReplyPartition {
        error_code: 0,
        partition: 2,
        leader_epoch: 5,
        end_offset: 9,
    };
    let topic = OffsetForLeaderEpochReplyTopic {
        topic: "a",
        partitions: vec![in alloc; partition]?,
    };
    Ok(OffsetForLeaderEpochReply {
        throttle_time_ms: 0,
        topics: vec![in alloc; topic]?,
    })
}
