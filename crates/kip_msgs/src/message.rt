//! Whole bodies: a header and the message of its API.

use crate::commit::{CommitReply, CommitRequest};
use crate::header::{RequestHeader, ResponseHeader};
use crate::heartbeat::{HeartbeatReply, HeartbeatRequest};

/// A request body: a header and the message of its API.
#[derive(Debug, Drop)]
pub enum Request<'a> {
    Heartbeat(RequestHeader<'a>, HeartbeatRequest<'a>),
    Commit(RequestHeader<'a>, CommitRequest<'a>),
}

/// A reply body: a header and the message of its API.
#[derive(Debug, Drop)]
pub enum Reply<'a> {
    Heartbeat(ResponseHeader<'a>, HeartbeatReply<'a>),
    Commit(ResponseHeader<'a>, CommitReply<'a>),
}
