//! The headers of requests and replies, written.

ghost use Rattle.std.specs.Prelude.{OnOk};
ghost use Rattle.flex_wire.specs.Writing.{AppendsUpTo};
ghost use Rattle.flex_wire.specs.Spelling.{FitsTaggedFields};
ghost use Rattle.kip_msgs.specs.declared.api.Api.{Api};
ghost use Rattle.kip_msgs.specs.Spelling.{request_header_fields, FitsRequestHeader, response_header_fields, FitsResponseHeader};
ghost use Rattle.kip_msgs.specs.Writable.{IsWritableHeader};
ghost use Rattle.kip_msgs.specs.Views.{request_header_value, response_header_value};

use super::fields::put_old_text_or_null;
use crate::api::Api;
use crate::header::{RequestHeader, ResponseHeader};
use flex_wire::{put_i16, put_i32, put_tags};
use std::alloc::AllocError;

#[tactic(auto, unfolding(crate::specs::Spelling::request_header_fields))]
pub(super) fn put_request_header(
    out: &mut Vec<u8>,
    api: Api,
    header: &RequestHeader<'_>,
) -> Result<(), AllocError>
    requires { IsWritableHeader (request_header_value header.now) }
    ensures appends { AppendsUpTo result out.old out.new (request_header_fields api (request_header_value header.now)) }
    ensures fits { OnOk result (FitsRequestHeader (request_header_value header.now)) }
{
    put_i16(out, api.key())?;
    put_i16(out, api.version())?;
    put_i32(out, header.correlation_id)?;
    put_old_text_or_null(out, header.client_id)?;
    put_tags(out, &header.tags)
}

#[tactic(auto, unfolding(crate::specs::Spelling::response_header_fields))]
pub(super) fn put_response_header(
    out: &mut Vec<u8>,
    header: &ResponseHeader<'_>,
) -> Result<(), AllocError>
    requires { FitsTaggedFields header.now.tags }
    ensures appends { AppendsUpTo result out.old out.new (response_header_fields (response_header_value header.now)) }
    ensures fits { OnOk result (FitsResponseHeader (response_header_value header.now)) }
{
    put_i32(out, header.correlation_id)?;
    put_tags(out, &header.tags)
}
