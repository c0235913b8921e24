//! The messages of KIP-848's consumer group heartbeat and of offset commits, over the bytes of the
//! Kafka protocol guide.
//!
//! A message is read exactly where the bytes spell one, and then it is that message; it is written
//! as its one spelling. Start from [`Request`] with [`read_request`] and [`put_request`], and from
//! [`Reply`] with [`read_reply`] and [`put_reply`].
#![tactic(auto)]

mod api;
mod array;
mod commit;
mod fault;
mod header;
mod heartbeat;
mod laws;
mod listing;
mod message;
mod reading;
mod tag_count;
mod writing;

pub use api::Api;
pub use array::Array;
pub use commit::{
    CommitReply, CommitReplyPartition, CommitReplyTopic, CommitRequest, CommitRequestPartition,
    CommitRequestTopic,
};
pub use fault::MsgFault;
pub use flex_wire::{TaggedField, TaggedFields, WireFault};
pub use header::{RequestHeader, ResponseHeader};
pub use heartbeat::{Assignment, HeartbeatReply, HeartbeatRequest, TopicPartitions};
pub use laws::{one_body_a_message, one_reply_a_body, one_request_a_body};
pub use listing::list_partition;
pub use message::{Reply, Request};
pub use reading::{api_of, read_reply, read_request};
pub use writing::{put_reply, put_request};
