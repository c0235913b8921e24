//! UNSIGNED_VARINT: groups of seven bits, the lowest first.

ghost use Rattle.std.specs.Prelude.{◌≡◌, ℕ, ◌+◌, ◌*◌, ◌%◌, ◌^◌, ◌<◌, ◌≤◌, List, ◌++◌, IfOk};
ghost use Rattle.flex_wire.specs.Spelling.{varint, FitsVarint};
ghost use Rattle.flex_wire.specs.Reading.{Reads, Takes, varint_at, groups_at};
ghost use Rattle.flex_wire.specs.Writing.{Appends};

use crate::fault::WireFault;
use std::alloc::AllocError;

/// The bit that is set on each byte of a varint but its last.
const MORE: u8 = 0x80;

/// The greatest last group of a varint of five bytes.
const FIFTH: u8 = 0x0f;

/// The groups behind the first; behind the next of them at most `more` may stand.
#[tactic(auto, unfolding(crate::specs::Reading::groups_at))]
fn groups_of(bytes: &[u8], more: u8) -> Result<(u32, &[u8]), WireFault>
    requires { more ≤ 3 }
    ensures { Reads (λ x. (x.0, x.1.now)) result (groups_at more bytes.now) }
{
    let [byte, rest @ ..] = bytes else {
        return Err(WireFault::Short);
    };
    if more == 0 && *byte > FIFTH {
        return Err(WireFault::TooLong);
    }
    if *byte == 0 {
        return Err(WireFault::NotShortest);
    }
    if *byte < MORE {
        return Ok((u32::from(*byte), rest));
    }
    let (high, rest) = groups_of(rest, more - 1)?;
    Ok((u32::from(*byte - MORE) + 128 * high, rest))
}

#[tactic(auto, unfolding(crate::specs::Reading::varint_at))]
#[inline(always)]
fn varint_of(bytes: &[u8]) -> Result<(u32, &[u8]), WireFault>
    ensures { Reads (λ x. (x.0, x.1.now)) result (varint_at bytes.now) }
{
    let [byte, rest @ ..] = bytes else {
        return Err(WireFault::Short);
    };
    if *byte < MORE {
        return Ok((u32::from(*byte), rest));
    }
    let (high, rest) = groups_of(rest, 3)?;
    Ok((u32::from(*byte - MORE) + 128 * high, rest))
}

/// Takes an UNSIGNED_VARINT (protocol guide; KIP-482) in its shortest form, a number below 2^32.
///
/// Faults: `Short`; `TooLong` where the fifth byte is above 0f; `NotShortest` where there is more
/// than one byte and the last is 00, a rule of this crate.
#[inline(always)]
pub fn take_varint(bytes: &[u8]) -> Result<(u32, &[u8]), WireFault>
    ensures found { IfOk result (λ x. FitsVarint x.0 × (bytes.now ≡ varint x.0 ++ x.1.now)) }
    ensures only { (n : ℕ) (rest : List ℕ) → FitsVarint n → bytes.now ≡ varint n ++ rest →
        Takes (λ x. (x.0, x.1.now)) result n rest }
    ensures exact { Reads (λ x. (x.0, x.1.now)) result (varint_at bytes.now) }
{
    varint_of(bytes)
}

/// The lowest seven bits, in a byte that says that more follow.
fn low(number: u32) -> u8
    ensures { result ≡ number % 128 + 128 }
{
    (number % 128) as u8 + MORE
}

/// Appends an UNSIGNED_VARINT (protocol guide; KIP-482).
///
/// Fails only by want of memory, and then no byte has changed.
pub fn put_varint(out: &mut Vec<u8>, number: u32) -> Result<(), AllocError>
    ensures { Appends result out.old out.new (varint number) }
{
    match number {
        0..0x80 => out.extend_from_slice(&[number as u8]),
        0x80..0x4000 => out.extend_from_slice(&[low(number), (number >> 7) as u8]),
        0x4000..0x20_0000 => {
            out.extend_from_slice(&[low(number), low(number >> 7), (number >> 14) as u8])
        }
        0x20_0000..0x1000_0000 => out.extend_from_slice(&[
            low(number),
            low(number >> 7),
            low(number >> 14),
            (number >> 21) as u8,
        ]),
        _ => out.extend_from_slice(&[
            low(number),
            low(number >> 7),
            low(number >> 14),
            low(number >> 21),
            (number >> 28) as u8,
        ]),
    }
}
