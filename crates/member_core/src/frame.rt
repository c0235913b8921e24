//! The frame of a request.
ghost use Rattle.std.specs.Prelude.{◌≡◌, ◌≤◌, false, length, IfOk, IfErr};
ghost use Rattle.kip_msgs.specs.Views.{request_value};
ghost use Rattle.group_types.specs.Limits.{LARGEST_BODY as MOST};
ghost use Rattle.group_types.specs.Frames.{IsFrame};
ghost use Rattle.member_core.specs.Framing.{IsRequestFrame};
ghost use Rattle.member_core.specs.Refusing.{size_refusal, IsFault};
ghost use Rattle.member_core.specs.Writing.{HasShortRequest, are_few as few};

use crate::counts::are_few;
use crate::fault::BeatFault;
use flex_wire::put_i32;
use group_types::limits::LARGEST_BODY;
use kip_msgs::{Request, put_request};
use std::alloc::{AllocError, Global};

/// The frame of a request: an INT32 size, and the body of that many bytes (Kafka protocol guide, "Protocol"). Refused
/// where the body has more bytes than a frame may have, which takes no memory to see where an array has more elements than that;
/// or where memory is short.
pub(crate) fn frame_of(alloc: Global, request: &Request<'_>) -> Result<Vec<u8>, BeatFault>
    requires { HasShortRequest (request_value request.now) }
    ensures frame { IfOk result (λ frame. IsRequestFrame (request_value request.now) frame.items) }
    ensures fault { IfErr result (λ fault. IsFault (size_refusal (request_value request.now)) fault) }
    ensures many { few (request_value request.now) ≡ false → result ≡ Err BeatFault.TooLarge }
{
    if !are_few(request) {
        return Err(BeatFault::TooLarge);
    }
    let mut body = Vec::new(alloc);
    put_request(&mut body, request)?;
    if body.len() > LARGEST_BODY {
        return Err(BeatFault::TooLarge);
    }
    let frame = framed(alloc, &body)?;
    Ok(frame)
}

/// A body behind its size.
fn framed(alloc: Global, body: &Vec<u8>) -> Result<Vec<u8>, AllocError>
    requires { length body.now.items ≤ MOST }
    ensures { IfOk result (λ frame. IsFrame body.now.items frame.items) }
{
    let mut frame = Vec::with_capacity(alloc, body.len() + 4)?;
    put_i32(&mut frame, body.len() as i32)?;
    frame.extend_from_slice(body.as_slice())?;
    Ok(frame)
}
