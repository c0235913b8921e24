//! The front of a heartbeat, read.

ghost use Rattle.std.specs.Prelude.{◌≡◌, pos, ℕ, List, ◌++◌, option_map, Option, IfOk, IsOkAnd, MatchResult};
ghost use Rattle.std.specs.Option.{option_copied};
ghost use Rattle.flex_wire.specs.declared.fault.WireFault.TheVariants.{NoMemory};
ghost use Rattle.flex_wire.specs.Spelling.{int16, compact_nullable_string, FitsNullableText};
ghost use Rattle.flex_wire.specs.Reading.{Reads, ReadsInMemory, compact_string_at};
ghost use Rattle.flex_wire.specs.Composed.{elements_at, nullable_array_at};
ghost use Rattle.kip_msgs.specs.Values.{RequestHeaderValue, HeartbeatRequestValue};
ghost use Rattle.broker_messages.specs.Heartbeat.{texts, SpellsHeartbeat1};
ghost use Rattle.broker_messages.specs.Front.{SenderValue, SaidValue, FitsFront, front_fields, sender_at, said_at, front_at, cut_at, head_at, IsFront, IsCut};

use super::Heartbeat1;
use crate::fault::MessageFault;
use flex_wire::{
    TaggedFields, WireFault, take_compact_str, take_i16, take_i32, take_nullable_count,
    take_nullable_str, take_old_str, take_tags,
};
use std::alloc::Global;

/// The correlation id, the client id and the tagged fields of the header, the group id and the member id.
type Sender<'a> = (i32, Option<&'a str>, TaggedFields<'a>, &'a str, &'a str);

/// The member epoch, the instance id, the rack id, the rebalance timeout and the subscribed names.
type Said<'a> = (
    i32,
    Option<&'a str>,
    Option<&'a str>,
    i32,
    Option<Vec<&'a str>>,
);

#[tactic(auto, unfolding(crate::specs::Front::sender_at))]
fn take_sender<'a>(alloc: Global, bytes: &'a [u8]) -> Result<(Sender<'a>, &'a [u8]), WireFault>
    ensures { ReadsInMemory (λ x. ((x.0.0, (option_copied x.0.1, (x.0.2, (x.0.3.now, x.0.4.now)))), x.1.now)) result (sender_at bytes.now) }
{
    let (correlation_id, rest) = take_i32(bytes)?;
    let (client_id, rest) = take_old_str(rest)?;
    let (tags, rest) = take_tags(alloc, rest)?;
    let (group_id, rest) = take_compact_str(rest)?;
    let (member_id, rest) = take_compact_str(rest)?;
    Ok(((correlation_id, client_id, tags, group_id, member_id), rest))
}

#[tactic(auto, unfolding(crate::specs::Front::said_at))]
fn take_said<'a>(alloc: Global, bytes: &'a [u8]) -> Result<(Said<'a>, &'a [u8]), WireFault>
    ensures { ReadsInMemory (λ x. (
      (x.0.0, (option_copied x.0.1, (option_copied x.0.2, (x.0.3, option_map (λ names. texts names.items) x.0.4)))),
      x.1.now,
    )) result (said_at bytes.now) }
{
    let (member_epoch, rest) = take_i32(bytes)?;
    let (instance_id, rest) = take_nullable_str(rest)?;
    let (rack_id, rest) = take_nullable_str(rest)?;
    let (rebalance_timeout_ms, rest) = take_i32(rest)?;
    let (names, rest) = take_names(alloc, rest)?;
    Ok((
        (
            member_epoch,
            instance_id,
            rack_id,
            rebalance_timeout_ms,
            names,
        ),
        rest,
    ))
}

fn names_of<'a>(
    alloc: Global,
    count: u32,
    bytes: &'a [u8],
) -> Result<(Vec<&'a str>, &'a [u8]), WireFault>
    ensures { ReadsInMemory (λ x. (texts x.0.items, x.1.now)) result (elements_at compact_string_at count bytes.now) }
{
    let mut names = Vec::new(alloc);
    let mut rest = bytes;
    for _ in 0..count {
        let (name, after) = take_compact_str(rest)?;
        names.push(name)?;
        rest = after;
    }
    Ok((names, rest))
}

#[tactic(auto, unfolding(flex_wire::specs::Composed::nullable_array_at))]
fn take_names<'a>(
    alloc: Global,
    bytes: &'a [u8],
) -> Result<(Option<Vec<&'a str>>, &'a [u8]), WireFault>
    ensures { ReadsInMemory (λ x. (option_map (λ names. texts names.items) x.0, x.1.now)) result (nullable_array_at compact_string_at bytes.now) }
{
    let (count, rest) = take_nullable_count(bytes)?;
    let Some(count) = count else {
        return Ok((None, rest));
    };
    let (names, rest) = names_of(alloc, count, rest)?;
    Ok((Some(names), rest))
}

#[tactic(auto, unfolding(crate::specs::Front::front_at))]
fn front_of<'a>(
    alloc: Global,
    bytes: &'a [u8],
) -> Result<(Sender<'a>, Said<'a>, &'a [u8]), WireFault>
    ensures { ReadsInMemory (λ x. (
      (
        (x.0.0, (option_copied x.0.1, (x.0.2, (x.0.3.now, x.0.4.now)))),
        (x.1.0, (option_copied x.1.1, (option_copied x.1.2, (x.1.3, option_map (λ names. texts names.items) x.1.4)))),
      ),
      x.2.now,
    )) result (front_at bytes.now) }
{
    let (sender, rest) = take_sender(alloc, bytes)?;
    let (said, rest) = take_said(alloc, rest)?;
    Ok((sender, said, rest))
}

/// What stands after the front, the regular expression, and what stands after that.
#[tactic(auto, unfolding(crate::specs::Front::cut_at))]
fn cut_of<'a>(
    alloc: Global,
    bytes: &'a [u8],
) -> Result<(&'a [u8], Option<&'a str>, &'a [u8]), WireFault>
    ensures { ReadsInMemory (λ x. ((x.0.now, option_copied x.1), x.2.now)) result (cut_at bytes.now) }
{
    let (_sender, _said, rest) = front_of(alloc, bytes)?;
    let (regex, back) = take_nullable_str(rest)?;
    Ok((rest, regex, back))
}

/// What comes after the key and the version of a heartbeat, cut at its regular expression.
fn take_cut<'a>(alloc: Global, bytes: &'a [u8]) -> Result<Heartbeat1<'a>, WireFault>
    ensures found { IfOk result (λ h. IsFront h.front.now × FitsNullableText (option_copied h.subscribed_topic_regex)
        × (bytes.now ≡ h.front.now ++ (compact_nullable_string (option_copied h.subscribed_topic_regex) ++ h.back.now))) }
    ensures only { (f : SenderValue × SaidValue) (regex : Option (List ℕ)) (back : List ℕ) → FitsFront f → FitsNullableText regex →
        bytes.now ≡ front_fields f ++ (compact_nullable_string regex ++ back) →
        MatchResult result (λ h. option_copied h.subscribed_topic_regex ≡ regex) (λ e. e ≡ NoMemory) }
{
    let (rest, regex, back) = cut_of(alloc, bytes)?;
    let size = bytes.len() - rest.len();
    Ok(Heartbeat1 {
        front: &bytes[..size],
        subscribed_topic_regex: regex,
        back,
    })
}

#[tactic(auto, unfolding(crate::specs::Front::head_at))]
fn head_of(body: &[u8]) -> Result<(i16, i16, &[u8]), WireFault>
    ensures { Reads (λ x. ((x.0, x.1), x.2.now)) result (head_at body.now) }
{
    let (key, rest) = take_i16(body)?;
    let (version, rest) = take_i16(rest)?;
    Ok((key, version, rest))
}

/// What stands after the key and the version.
fn after_head(body: &[u8]) -> Result<&[u8], MessageFault>
    ensures found { IfOk result (λ rest. body.now ≡ int16 (pos 68) ++ (int16 (pos 1) ++ rest.now)) }
    ensures only { (rest : List ℕ) → body.now ≡ int16 (pos 68) ++ (int16 (pos 1) ++ rest) → IsOkAnd result (λ x. x.now ≡ rest) }
{
    let (key, version, rest) = head_of(body)?;
    if key != 68 {
        return Err(MessageFault::OtherMessage);
    }
    if version != 1 {
        return Err(MessageFault::OtherMessage);
    }
    Ok(rest)
}

/// Reads a body of a heartbeat of version 1 (KIP-848), its head included, as far as its regular expression, and cuts it there. A body
/// that is such a heartbeat is cut at its expression.
///
/// Faults: `OtherMessage`; the first field's that has one; memory.
pub fn read_heartbeat_1<'a>(alloc: Global, body: &'a [u8]) -> Result<Heartbeat1<'a>, MessageFault>
    ensures found { IfOk result (λ h. IsCut h body.now) }
    ensures only { (header : RequestHeaderValue) (v : HeartbeatRequestValue) (regex : Option (List ℕ)) →
        SpellsHeartbeat1 header v regex body.now →
        MatchResult result (λ h. option_copied h.subscribed_topic_regex ≡ regex) (λ e. e ≡ MessageFault.NoMemory) }
{
    let message = after_head(body)?;
    let heartbeat = take_cut(alloc, message)?;
    Ok(heartbeat)
}
