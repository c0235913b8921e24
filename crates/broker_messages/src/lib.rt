//! The messages of the APIs that a stock Kafka client asks a broker for, in the versions that the clients of today use (Kafka protocol
//! guide), besides those that `kip_msgs` reads exactly.
//!
//! A request begins with its head: [`read_head`]. What comes after the head is read by the request's own type, as
//! [`MetadataRequest::read`], which takes any bytes and gives a request or the first fault. A reply is written with its head by
//! [`put_reply`], which only appends. A heartbeat of version 1 is read exactly ([`read_heartbeat_1`]) and rewritten as the heartbeat of
//! version 0 that means the same ([`Heartbeat1::put_as_version_0`]).
#![tactic(auto)]

mod api;
mod api_versions;
mod consumer_group_describe;
mod fault;
mod fetch;
mod fields;
mod find_coordinator;
mod head;
mod heartbeat;
mod init_producer_id;
mod list_groups;
mod list_offsets;
mod metadata;
mod offset_fetch;
mod offset_for_leader_epoch;
mod output;
mod produce;
mod reply;

pub use api::BrokerApi;
pub use api_versions::{ApiVersionsReply, ApiVersionsRequest};
pub use consumer_group_describe::{
    AssignedTopic, ConsumerGroupDescribeReply, ConsumerGroupDescribeRequest, DescribedGroup,
    DescribedMember,
};
pub use fault::{HeadFault, MessageFault};
pub use fetch::{
    FetchReply, FetchReplyPartition, FetchReplyTopic, FetchRequest, FetchRequestPartition,
    FetchRequestTopic, FetchSession, ForgottenTopic,
};
pub use find_coordinator::{Coordinator, FindCoordinatorReply, FindCoordinatorRequest};
pub use head::{ReplyHead, RequestHead, read_head};
pub use heartbeat::{Heartbeat1, read_heartbeat_1};
pub use init_producer_id::{InitProducerIdReply, InitProducerIdRequest};
pub use list_groups::{ListGroupsReply, ListGroupsRequest, ListedGroup};
pub use list_offsets::{
    ListOffsetsReply, ListOffsetsReplyPartition, ListOffsetsReplyTopic, ListOffsetsRequest,
    ListOffsetsRequestPartition, ListOffsetsRequestTopic,
};
pub use metadata::{
    MetadataBroker, MetadataPartition, MetadataReply, MetadataRequest, MetadataRequestTopic,
    MetadataTopic, OPERATIONS_NOT_TOLD,
};
pub use offset_fetch::{
    OffsetFetchReply, OffsetFetchReplyGroup, OffsetFetchReplyPartition, OffsetFetchReplyTopic,
    OffsetFetchRequest, OffsetFetchRequestGroup, OffsetFetchRequestTopic,
};
pub use offset_for_leader_epoch::{
    OffsetForLeaderEpochReply, OffsetForLeaderEpochReplyPartition, OffsetForLeaderEpochReplyTopic,
    OffsetForLeaderEpochRequest, OffsetForLeaderEpochRequestPartition,
    OffsetForLeaderEpochRequestTopic,
};
pub use output::{Output, PutFields};
pub use produce::{
    ProduceReply, ProduceReplyPartition, ProduceReplyTopic, ProduceRequest,
    ProduceRequestPartition, ProduceRequestTopic, RecordError,
};
pub use reply::put_reply;
