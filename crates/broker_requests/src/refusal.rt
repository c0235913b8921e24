//! The reply to a heartbeat whose regular expression is none.
ghost use Rattle.std.specs.Prelude.{◌≡◌, ◌++◌, ℕ, List, OnOk, OnErr};
ghost use Rattle.flex_wire.specs.Spelling.{int32};
ghost use Rattle.flex_wire.specs.Writing.{AppendsUpTo};
ghost use Rattle.group_types.specs.Frames.{IsFrame, frame_of};
ghost use Rattle.kip_msgs.specs.Views.{reply_value};
ghost use Rattle.kip_msgs.specs.Writable.{IsWritableReply};
ghost use Rattle.broker_requests.specs.Refusals.{IsRefusalTo, refusal_to};

use flex_wire::{TaggedFields, put_i32};
use kip_msgs::{HeartbeatReply, Reply, ResponseHeader, put_reply};
use std::alloc::{AllocError, Global};

/// The error code (Kafka protocol guide, "Error Codes").
const INVALID_REGULAR_EXPRESSION: i16 = 128;

/// What the member is told.
const MESSAGE: &str = "invalid regular expression";

/// Appends a size and the body. After a failure a part of them may have been appended.
fn frame_up_to(out: &mut Vec<u8>, size: i32, body: &[u8]) -> Result<(), AllocError>
    ensures { AppendsUpTo result out.old out.new (int32 size ++ body.now) }
{
    put_i32(out, size)?;
    out.extend_from_slice(body)
}

/// Appends a frame: an INT32 size, and a body of that size (Kafka protocol guide, "Protocol"). Fails if memory is short, and if the body's
/// size is no INT32. Then nothing has changed.
fn put_frame(out: &mut Vec<u8>, body: &[u8]) -> Result<(), AllocError>
    ensures ok { OnOk result (IsFrame body.now (frame_of body.now) × (out.new.items ≡ out.old.items ++ frame_of body.now)) }
    ensures err { OnErr result (out.new.items ≡ out.old.items) }
{
    let Ok(size) = i32::try_from(body.len()) else {
        return Err(AllocError);
    };
    let before = out.len();
    if frame_up_to(out, size, body).is_err() {
        out.truncate(before);
        return Err(AllocError);
    }
    Ok(())
}

/// The reply to the heartbeat with this correlation id.
fn refusal_to(alloc: Global, correlation_id: i32) -> Reply<'static>
    ensures value { reply_value result ≡ refusal_to correlation_id }
    ensures writable { IsWritableReply (reply_value result) }
{
    let header = ResponseHeader {
        correlation_id,
        tags: TaggedFields::new(alloc),
    };
    let message = HeartbeatReply {
        throttle_time_ms: 0,
        error_code: INVALID_REGULAR_EXPRESSION,
        error_message: Some(MESSAGE),
        member_id: None,
        member_epoch: 0,
        heartbeat_interval_ms: 0,
        assignment: None,
        tags: TaggedFields::new(alloc),
    };
    Reply::Heartbeat(header, message)
}

/// Appends the frame of the reply to the heartbeat with this correlation id, which says INVALID_REGULAR_EXPRESSION (KIP-848,
/// "SubscribedTopicRegex"). Fails for want of memory, and then nothing has changed.
pub fn put_refusal(alloc: Global, correlation_id: i32, out: &mut Vec<u8>) -> Result<(), AllocError>
    ensures ok { OnOk result ((frame : List ℕ) × IsRefusalTo correlation_id frame × (out.new.items ≡ out.old.items ++ frame)) }
    ensures err { OnErr result (out.new.items ≡ out.old.items) }
{
    let reply = refusal_to(alloc, correlation_id);
    let mut body = Vec::new(alloc);
    put_reply(&mut body, &reply)?;
    put_frame(out, &body)
}
