//! The headers of requests and replies.

use flex_wire::TaggedFields;

/// A request's header (Kafka protocol guide, "Request Header v2"). The API key and version are not
/// kept, since they are the message's own.
#[derive(Debug, Drop)]
pub struct RequestHeader<'a> {
    pub correlation_id: i32,
    pub client_id: Option<&'a str>,
    pub tags: TaggedFields<'a>,
}

/// A response's header (Kafka protocol guide, "Response Header v1"). Its correlation id is the
/// request's.
#[derive(Debug, Drop)]
pub struct ResponseHeader<'a> {
    pub correlation_id: i32,
    pub tags: TaggedFields<'a>,
}
