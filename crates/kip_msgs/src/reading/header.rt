//! The headers of requests and replies, read.

ghost use Rattle.flex_wire.specs.Reading.{ReadsInMemory};
ghost use Rattle.kip_msgs.specs.Reading.{request_header_at, response_header_at};
ghost use Rattle.kip_msgs.specs.Views.{request_header_value, response_header_value};

use crate::header::{RequestHeader, ResponseHeader};
use flex_wire::{WireFault, take_i32, take_old_str, take_tags};
use std::alloc::Global;

/// What stands behind the key and version of a request's header.
#[tactic(auto, unfolding(crate::specs::Reading::request_header_at))]
#[inline(always)]
pub(super) fn take_request_header<'a>(
    alloc: Global,
    bytes: &'a [u8],
) -> Result<(RequestHeader<'a>, &'a [u8]), WireFault>
    ensures { ReadsInMemory (λ x. (request_header_value x.0, x.1.now)) result (request_header_at bytes.now) }
{
    let (correlation_id, rest) = take_i32(bytes)?;
    let (client_id, rest) = take_old_str(rest)?;
    let (tags, rest) = take_tags(alloc, rest)?;
    let header = RequestHeader {
        correlation_id,
        client_id,
        tags,
    };
    Ok((header, rest))
}

#[tactic(auto, unfolding(crate::specs::Reading::response_header_at))]
pub(super) fn take_response_header<'a>(
    alloc: Global,
    bytes: &'a [u8],
) -> Result<(ResponseHeader<'a>, &'a [u8]), WireFault>
    ensures { ReadsInMemory (λ x. (response_header_value x.0, x.1.now)) result (response_header_at bytes.now) }
{
    let (correlation_id, rest) = take_i32(bytes)?;
    let (tags, rest) = take_tags(alloc, rest)?;
    let header = ResponseHeader {
        correlation_id,
        tags,
    };
    Ok((header, rest))
}
