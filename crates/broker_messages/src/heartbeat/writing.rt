//! The heartbeat of version 0 that means the same, written.

ghost use Rattle.std.specs.Prelude.{◌≡◌, List, [], ◌++◌, option_map, unwrap_or, OnOk, OnErr, IfOk, IfSome};
ghost use Rattle.flex_wire.specs.Writing.{AppendsUpTo};
ghost use Rattle.kip_msgs.specs.Values.{RequestValue};
ghost use Rattle.kip_msgs.specs.Spelling.{SpellsRequest, FitsRequest};
ghost use Rattle.kip_msgs.specs.Writable.{IsShort, IsWritableArray, IsWritableHeartbeatRequest};
ghost use Rattle.kip_msgs.specs.Views.{heartbeat_request_value, request_value};
ghost use Rattle.broker_messages.specs.Heartbeat.{texts, with_names, HasWritten};
ghost use Rattle.broker_messages.specs.Front.{as_version_0};

use super::Heartbeat1;
use crate::fault::MessageFault;
use flex_wire::{LONGEST_STRING, WireFault, put_i16};
use kip_msgs::{Array, HeartbeatRequest, Request, put_request, read_request};
use std::alloc::{AllocError, Global};

fn cut_up_to(out: &mut Vec<u8>, heartbeat: &Heartbeat1<'_>) -> Result<(), AllocError>
    ensures { AppendsUpTo result out.old out.new (as_version_0 heartbeat.now) }
{
    put_i16(out, 68)?;
    put_i16(out, 0)?;
    out.extend_from_slice(heartbeat.front)?;
    out.extend_from_slice(heartbeat.back)
}

/// Appends the heartbeat without its regular expression, in version 0.
pub(super) fn put_without_expression(
    out: &mut Vec<u8>,
    heartbeat: &Heartbeat1<'_>,
) -> Result<(), MessageFault>
    ensures ok { OnOk result (out.new.items ≡ out.old.items ++ as_version_0 heartbeat.now) }
    ensures err { OnErr result (out.new.items ≡ out.old.items) }
{
    let before = out.len();
    if cut_up_to(out, heartbeat).is_err() {
        out.truncate(before);
        return Err(MessageFault::NoMemory);
    }
    Ok(())
}

/// The names and the further ones.
fn all_names<'a>(
    alloc: Global,
    names: Option<Array<&'a str>>,
    further: &[&'a str],
) -> Result<Array<&'a str>, MessageFault>
    requires { IfSome (option_map texts names) (IsWritableArray IsShort) }
    ensures names { IfOk result (λ all. texts all ≡ unwrap_or (option_map texts names.entry) [] ++ texts further.now) }
    ensures writable { IfOk result (λ all. IsWritableArray IsShort (texts all)) }
{
    let mut all = match names {
        Some(names) => names,
        None => Array::new(alloc),
    };
    for name in further {
        if name.len() > LONGEST_STRING {
            return Err(MessageFault::Wire(WireFault::TooLong));
        }
        all.push(*name)?;
    }
    if all.len() >= u32::MAX as usize {
        return Err(MessageFault::Wire(WireFault::TooLong));
    }
    Ok(all)
}

/// The message with the further names after its own.
fn add_names<'a>(
    alloc: Global,
    message: HeartbeatRequest<'a>,
    further: &[&'a str],
) -> Result<HeartbeatRequest<'a>, MessageFault>
    requires { IsWritableHeartbeatRequest (heartbeat_request_value message) }
    ensures value { IfOk result (λ m. heartbeat_request_value m ≡ with_names (texts further.now) (heartbeat_request_value message.entry)) }
    ensures writable { IfOk result (λ m. IsWritableHeartbeatRequest (heartbeat_request_value m)) }
{
    let names = all_names(alloc, message.subscribed_topic_names, further)?;
    Ok(HeartbeatRequest {
        group_id: message.group_id,
        member_id: message.member_id,
        member_epoch: message.member_epoch,
        instance_id: message.instance_id,
        rack_id: message.rack_id,
        rebalance_timeout_ms: message.rebalance_timeout_ms,
        subscribed_topic_names: Some(names),
        server_assignor: message.server_assignor,
        topic_partitions: message.topic_partitions,
        tags: message.tags,
    })
}

fn put_request_with_names<'a>(
    alloc: Global,
    out: &mut Vec<u8>,
    request: Request<'a>,
    further: &[&'a str],
) -> Result<(), MessageFault>
    requires { FitsRequest (request_value request) }
    ensures ok { OnOk result (HasWritten (texts further.now) (request_value request.entry) out.old.items out.new.items) }
    ensures err { OnErr result (out.new.items ≡ out.old.items) }
{
    let Request::Heartbeat(header, message) = request else {
        return Err(MessageFault::OtherMessage);
    };
    let message = add_names(alloc, message, further)?;
    match put_request(out, &Request::Heartbeat(header, message)) {
        Ok(()) => Ok(()),
        Err(_) => Err(MessageFault::NoMemory),
    }
}

/// Appends the heartbeat in version 0, with the further names in place of its regular expression.
pub(super) fn put_with_names(
    alloc: Global,
    out: &mut Vec<u8>,
    heartbeat: &Heartbeat1<'_>,
    further: &[&str],
) -> Result<(), MessageFault>
    ensures ok { OnOk result ((r : RequestValue) × SpellsRequest r (as_version_0 heartbeat.now)
        × HasWritten (texts further.now) r out.old.items out.new.items) }
    ensures err { OnErr result (out.new.items ≡ out.old.items) }
{
    let mut body = Vec::new(alloc);
    put_without_expression(&mut body, heartbeat)?;
    match read_request(alloc, &body) {
        Ok(request) => put_request_with_names(alloc, out, request, further),
        Err(fault) => Err(MessageFault::from(fault)),
    }
}
