//! Replies as frames.

ghost use Rattle.std.specs.Prelude.{◌≡◌, IfOk, OnOk, OnErr};
ghost use Rattle.broker_topics.specs.Answers.{AddsFrame, AddsUnsized};
ghost use Rattle.broker_messages.specs.Head.{GoesOn};

use broker_messages::{MessageFault, PutFields, ReplyHead, put_reply};
use flex_wire::{WireFault, put_i32};
use group_types::limits::LARGEST_BODY;
use std::alloc::Global;

/// The length of a frame's size.
const SIZE: usize = 4;

/// Appends a frame with 0 in place of its size, and gives its body's length. After a fault some of it may be there.
fn put_unsized<M: PutFields>(
    alloc: Global,
    head: &ReplyHead,
    message: &M,
    out: &mut Vec<u8>,
) -> Result<usize, MessageFault>
    ensures ok { IfOk result (λ size. AddsUnsized head.now.correlation_id size out.old.items out.new.items) }
    ensures err { OnErr result (GoesOn out.old.items out.new.items) }
{
    let start = out.len();
    match put_i32(out, 0) {
        Ok(()) => {}
        Err(_) => return Err(MessageFault::NoMemory),
    }
    put_reply(alloc, out, head, message)?;
    let size = out.len() - start - SIZE;
    if size > LARGEST_BODY {
        return Err(MessageFault::Wire(WireFault::TooLong));
    }
    Ok(size)
}

/// Appends the frame of a reply (Kafka protocol guide, "Protocol"): an INT32 size, and a body of that many bytes, the head and the message.
///
/// Faults: memory; `TooLong` if a text has over 32,767 bytes, an array too many elements, or the body more than 8,388,608 bytes. After a
/// fault nothing has changed.
pub fn put_frame<M: PutFields>(
    alloc: Global,
    head: &ReplyHead,
    message: &M,
    out: &mut Vec<u8>,
) -> Result<(), MessageFault>
    ensures ok { OnOk result (AddsFrame head.now.correlation_id out.old.items out.new.items) }
    ensures err { OnErr result (out.new.items ≡ out.old.items) }
{
    let start = out.len();
    match put_unsized(alloc, head, message, out) {
        Ok(size) => {
            let size: [u8; 4] = (size as i32).to_be_bytes();
            out[start..start + SIZE].copy_from_slice(&size);
            Ok(())
        }
        Err(fault) => {
            out.truncate(start);
            Err(fault)
        }
    }
}
