//! COMPACT_STRING, COMPACT_NULLABLE_STRING and NULLABLE_STRING: texts behind their length.

ghost use Rattle.std.specs.Prelude.{◌≡◌, ℕ, ◌≤◌, List, ◌++◌, length, Option, IfOk, IfSome, Ok};
ghost use Rattle.std.specs.Option.{ForSome, option_copied};
ghost use Rattle.flex_wire.specs.Spelling.{compact_string, compact_nullable_string, nullable_string, FitsText, FitsNullableText};
ghost use Rattle.flex_wire.specs.Reading.{Reads, Takes, text_at, compact_text_at, compact_string_at, compact_nullable_string_at, nullable_string_at};
ghost use Rattle.flex_wire.specs.Writing.{Appends, AppendsUpTo};

use crate::fault::WireFault;
use crate::int::{put_i16, take_i16};
use crate::raw::bytes_of;
use crate::varint::{put_varint, take_varint};
use std::alloc::AllocError;
use std::str::from_utf8;

/// The greatest number of bytes that a text may have (Kafka protocol guide, "Protocol Primitive Types").
pub const LONGEST_STRING: usize = 32_767;

#[tactic(auto, unfolding(crate::specs::Reading::text_at))]
#[inline(always)]
fn text_of(bytes: &[u8], size: usize) -> Result<(&str, &[u8]), WireFault>
    ensures { Reads (λ x. (x.0.now, x.1.now)) result (text_at size bytes.now) }
{
    let (front, rest) = bytes_of(bytes, size)?;
    match from_utf8(front) {
        Ok(text) => Ok((text, rest)),
        Err(_) => Err(WireFault::NotUtf8),
    }
}

/// The text behind a length that was read as `code`, which is one more.
#[tactic(auto, unfolding(crate::specs::Reading::compact_text_at))]
#[inline(always)]
fn compact_text_of(bytes: &[u8], code: u32) -> Result<(&str, &[u8]), WireFault>
    requires { 1 ≤ code }
    ensures { Reads (λ x. (x.0.now, x.1.now)) result (compact_text_at code bytes.now) }
{
    let size = code as usize - 1;
    if size > LONGEST_STRING {
        return Err(WireFault::TooLong);
    }
    text_of(bytes, size)
}

#[tactic(auto, unfolding(crate::specs::Reading::compact_string_at))]
#[inline(always)]
fn compact_str_of(bytes: &[u8]) -> Result<(&str, &[u8]), WireFault>
    ensures { Reads (λ x. (x.0.now, x.1.now)) result (compact_string_at bytes.now) }
{
    let (code, rest) = take_varint(bytes)?;
    if code == 0 {
        return Err(WireFault::BadCount);
    }
    compact_text_of(rest, code)
}

/// Takes a COMPACT_STRING (protocol guide; KIP-482): a varint of the length in bytes and one, and
/// that many bytes of UTF-8. The text is lent from `bytes`.
///
/// Faults, in this order: those of the varint; `BadCount` at the varint 0; `TooLong` over [`LONGEST_STRING`]
/// bytes; `Short`; `NotUtf8`.
#[inline(always)]
pub fn take_compact_str(bytes: &[u8]) -> Result<(&str, &[u8]), WireFault>
    ensures found { IfOk result (λ x. FitsText x.0.now × (bytes.now ≡ compact_string x.0.now ++ x.1.now)) }
    ensures only { (text rest : List ℕ) → FitsText text → bytes.now ≡ compact_string text ++ rest →
        Takes (λ x. (x.0.now, x.1.now)) result text rest }
    ensures exact { Reads (λ x. (x.0.now, x.1.now)) result (compact_string_at bytes.now) }
{
    compact_str_of(bytes)
}

#[tactic(auto, unfolding(crate::specs::Reading::compact_nullable_string_at))]
#[inline(always)]
fn nullable_str_of(bytes: &[u8]) -> Result<(Option<&str>, &[u8]), WireFault>
    ensures { Reads (λ x. (option_copied x.0, x.1.now)) result (compact_nullable_string_at bytes.now) }
{
    let (code, rest) = take_varint(bytes)?;
    if code == 0 {
        return Ok((None, rest));
    }
    let (text, rest) = compact_text_of(rest, code)?;
    Ok((Some(text), rest))
}

/// Takes a COMPACT_NULLABLE_STRING (protocol guide; KIP-482): a COMPACT_STRING, or the varint 0 for
/// null.
///
/// Faults: those of [`take_compact_str`] without `BadCount`.
#[inline(always)]
pub fn take_nullable_str(bytes: &[u8]) -> Result<(Option<&str>, &[u8]), WireFault>
    ensures found { IfOk result (λ x. FitsNullableText (option_copied x.0)
        × (bytes.now ≡ compact_nullable_string (option_copied x.0) ++ x.1.now)) }
    ensures only { (text : Option (List ℕ)) (rest : List ℕ) → FitsNullableText text → bytes.now ≡ compact_nullable_string text ++ rest →
        Takes (λ x. (option_copied x.0, x.1.now)) result text rest }
    ensures exact { Reads (λ x. (option_copied x.0, x.1.now)) result (compact_nullable_string_at bytes.now) }
{
    nullable_str_of(bytes)
}

#[tactic(auto, unfolding(crate::specs::Reading::nullable_string_at, crate::specs::Reading::nullable_text_at))]
#[inline(always)]
fn old_str_of(bytes: &[u8]) -> Result<(Option<&str>, &[u8]), WireFault>
    ensures { Reads (λ x. (option_copied x.0, x.1.now)) result (nullable_string_at bytes.now) }
{
    let (size, rest) = take_i16(bytes)?;
    if size == -1 {
        return Ok((None, rest));
    }
    if size < 0 {
        return Err(WireFault::BadCount);
    }
    let (text, rest) = text_of(rest, size as usize)?;
    Ok((Some(text), rest))
}

/// Takes a NULLABLE_STRING (protocol guide), the form of older headers: an INT16 of the length in
/// bytes, -1 for null, and that many bytes of UTF-8.
///
/// Faults, in this order: `Short`; `BadCount` at a length below -1; `Short` in the text; `NotUtf8`.
#[inline(always)]
pub fn take_old_str(bytes: &[u8]) -> Result<(Option<&str>, &[u8]), WireFault>
    ensures found { IfOk result (λ x. FitsNullableText (option_copied x.0)
        × (bytes.now ≡ nullable_string (option_copied x.0) ++ x.1.now)) }
    ensures only { (text : Option (List ℕ)) (rest : List ℕ) → FitsNullableText text → bytes.now ≡ nullable_string text ++ rest →
        Takes (λ x. (option_copied x.0, x.1.now)) result text rest }
    ensures exact { Reads (λ x. (option_copied x.0, x.1.now)) result (nullable_string_at bytes.now) }
{
    old_str_of(bytes)
}

#[tactic(auto, unfolding(crate::specs::Spelling::compact_string))]
fn compact_str_up_to(out: &mut Vec<u8>, text: &str) -> Result<(), AllocError>
    requires { length text.now ≤ LONGEST_STRING }
    ensures { AppendsUpTo result out.old out.new (compact_string text.now) }
{
    put_varint(out, text.len() as u32 + 1)?;
    out.extend_from_slice(text.as_bytes())
}

/// Appends a COMPACT_STRING (protocol guide; KIP-482) of at most [`LONGEST_STRING`] bytes.
///
/// Fails only by want of memory, and then no byte has changed.
pub fn put_compact_str(out: &mut Vec<u8>, text: &str) -> Result<(), AllocError>
    requires { length text.now ≤ LONGEST_STRING }
    ensures { Appends result out.old out.new (compact_string text.now) }
{
    let before = out.len();
    let done = compact_str_up_to(out, text);
    if done.is_err() {
        out.truncate(before);
    }
    done
}

/// Appends a COMPACT_NULLABLE_STRING (protocol guide; KIP-482), a text of at most [`LONGEST_STRING`] bytes or
/// null.
///
/// Fails only by want of memory, and then no byte has changed.
#[tactic(auto, unfolding(crate::specs::Spelling::compact_nullable_string))]
pub fn put_nullable_str(out: &mut Vec<u8>, text: Option<&str>) -> Result<(), AllocError>
    requires { ForSome text (λ t. length t.now ≤ LONGEST_STRING) }
    ensures { Appends result out.old out.new (compact_nullable_string (option_copied text.entry)) }
{
    match text {
        None => put_varint(out, 0),
        Some(text) => put_compact_str(out, text),
    }
}

#[tactic(auto, unfolding(crate::specs::Spelling::nullable_string))]
fn old_str_up_to(out: &mut Vec<u8>, text: &str) -> Result<(), AllocError>
    requires { length text.now ≤ LONGEST_STRING }
    ensures { AppendsUpTo result out.old out.new (nullable_string (Some text.now)) }
{
    put_i16(out, text.len() as i16)?;
    out.extend_from_slice(text.as_bytes())
}

/// Appends a NULLABLE_STRING (protocol guide), a text of at most [`LONGEST_STRING`] bytes or null.
///
/// Fails only by want of memory, and then no byte has changed.
#[tactic(auto, unfolding(crate::specs::Spelling::nullable_string))]
pub fn put_old_str(out: &mut Vec<u8>, text: Option<&str>) -> Result<(), AllocError>
    requires { ForSome text (λ t. length t.now ≤ LONGEST_STRING) }
    ensures { Appends result out.old out.new (nullable_string (option_copied text.entry)) }
{
    let Some(text) = text else {
        return put_i16(out, -1);
    };
    let before = out.len();
    let done = old_str_up_to(out, text);
    if done.is_err() {
        out.truncate(before);
    }
    done
}
