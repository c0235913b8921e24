//! Bodies of requests and replies, written at the end of a `Vec`.

ghost use Rattle.std.specs.Prelude.{OnOk};
ghost use Rattle.flex_wire.specs.Writing.{Appends, AppendsUpTo};
ghost use Rattle.kip_msgs.specs.Spelling.{FitsRequest, request_body, FitsReply, reply_body};
ghost use Rattle.kip_msgs.specs.Writable.{IsWritableRequest, IsWritableReply};
ghost use Rattle.kip_msgs.specs.Views.{request_value, reply_value};

mod arrays;
mod commit;
mod fields;
mod header;
mod heartbeat;

use crate::api::Api;
use crate::message::{Reply, Request};
use commit::{put_commit_reply, put_commit_request};
use header::{put_request_header, put_response_header};
use heartbeat::{put_heartbeat_reply, put_heartbeat_request};
use std::alloc::AllocError;

#[tactic(auto, unfolding(crate::specs::Spelling::request_body))]
fn request_up_to(out: &mut Vec<u8>, request: &Request<'_>) -> Result<(), AllocError>
    requires { IsWritableRequest (request_value request.now) }
    ensures appends { AppendsUpTo result out.old out.new (request_body (request_value request.now)) }
    ensures fits { OnOk result (FitsRequest (request_value request.now)) }
{
    match request {
        Request::Heartbeat(header, message) => {
            put_request_header(out, Api::Heartbeat, header)?;
            put_heartbeat_request(out, message)
        }
        Request::Commit(header, message) => {
            put_request_header(out, Api::Commit, header)?;
            put_commit_request(out, message)
        }
    }
}

/// Appends a request body (Kafka protocol guide, "Request Header v2"; KIP-848), without the size in
/// front of it: the one spelling of the request, which says that all of the appended bytes are that
/// request.
///
/// Fails only by want of memory, which doesn't come where there is room for the whole body, and then
/// no byte has changed. The capacity never shrinks.
pub fn put_request(out: &mut Vec<u8>, request: &Request<'_>) -> Result<(), AllocError>
    requires { IsWritableRequest (request_value request.now) }
    ensures appends { Appends result out.old out.new (request_body (request_value request.now)) }
    ensures fits { OnOk result (FitsRequest (request_value request.now)) }
{
    let before = out.len();
    let done = request_up_to(out, request);
    if done.is_err() {
        out.truncate(before);
    }
    done
}

#[tactic(auto, unfolding(crate::specs::Spelling::reply_body))]
fn reply_up_to(out: &mut Vec<u8>, reply: &Reply<'_>) -> Result<(), AllocError>
    requires { IsWritableReply (reply_value reply.now) }
    ensures appends { AppendsUpTo result out.old out.new (reply_body (reply_value reply.now)) }
    ensures fits { OnOk result (FitsReply (reply_value reply.now)) }
{
    match reply {
        Reply::Heartbeat(header, message) => {
            put_response_header(out, header)?;
            put_heartbeat_reply(out, message)
        }
        Reply::Commit(header, message) => {
            put_response_header(out, header)?;
            put_commit_reply(out, message)
        }
    }
}

/// Appends a reply body (Kafka protocol guide, "Response Header v1"; KIP-848), without the size in
/// front of it: the one spelling of the reply, which says that all of the appended bytes are that
/// reply. The caller may take the body's length from that of `out` before and after.
///
/// Fails only by want of memory, which doesn't come where there is room for the whole body, and then
/// no byte has changed. The capacity never shrinks.
pub fn put_reply(out: &mut Vec<u8>, reply: &Reply<'_>) -> Result<(), AllocError>
    requires { IsWritableReply (reply_value reply.now) }
    ensures appends { Appends result out.old out.new (reply_body (reply_value reply.now)) }
    ensures fits { OnOk result (FitsReply (reply_value reply.now)) }
{
    let before = out.len();
    let done = reply_up_to(out, reply);
    if done.is_err() {
        out.truncate(before);
    }
    done
}
