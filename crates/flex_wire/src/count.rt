//! The number of elements that a COMPACT_ARRAY begins with.

ghost use Rattle.std.specs.Prelude.{◌≡◌, ℕ, ◌+◌, ◌^◌, ◌<◌, List, ◌++◌, Option, IfOk};
ghost use Rattle.std.specs.Option.{ForSome};
ghost use Rattle.flex_wire.specs.Spelling.{array_count, nullable_array_count, FitsCount, FitsNullableCount};
ghost use Rattle.flex_wire.specs.Reading.{Reads, Takes, array_count_at, nullable_array_count_at};
ghost use Rattle.flex_wire.specs.Writing.{Appends};

use crate::fault::WireFault;
use crate::varint::{put_varint, take_varint};
use std::alloc::AllocError;

#[tactic(auto, unfolding(crate::specs::Reading::array_count_at))]
#[inline(always)]
fn count_of(bytes: &[u8]) -> Result<(u32, &[u8]), WireFault>
    ensures { Reads (λ x. (x.0, x.1.now)) result (array_count_at bytes.now) }
{
    let (code, rest) = take_varint(bytes)?;
    if code == 0 {
        return Err(WireFault::BadCount);
    }
    Ok((code - 1, rest))
}

/// Takes the head of a COMPACT_ARRAY (protocol guide; KIP-482), a varint of the number of elements
/// and one, and gives the number of elements.
///
/// Faults: those of the varint; `BadCount` at the varint 0.
#[inline(always)]
pub fn take_count(bytes: &[u8]) -> Result<(u32, &[u8]), WireFault>
    ensures found { IfOk result (λ x. FitsCount x.0 × (bytes.now ≡ array_count x.0 ++ x.1.now)) }
    ensures only { (count : ℕ) (rest : List ℕ) → FitsCount count → bytes.now ≡ array_count count ++ rest →
        Takes (λ x. (x.0, x.1.now)) result count rest }
    ensures exact { Reads (λ x. (x.0, x.1.now)) result (array_count_at bytes.now) }
{
    count_of(bytes)
}

#[tactic(auto, unfolding(crate::specs::Reading::nullable_array_count_at))]
#[inline(always)]
fn count_or_null_of(bytes: &[u8]) -> Result<(Option<u32>, &[u8]), WireFault>
    ensures { Reads (λ x. (x.0, x.1.now)) result (nullable_array_count_at bytes.now) }
{
    let (code, rest) = take_varint(bytes)?;
    let count = if code == 0 { None } else { Some(code - 1) };
    Ok((count, rest))
}

/// Takes the head of a nullable COMPACT_ARRAY (protocol guide; KIP-482), and gives the number of
/// elements, or `None` for null, the varint 0.
///
/// Faults: those of the varint.
#[inline(always)]
pub fn take_nullable_count(bytes: &[u8]) -> Result<(Option<u32>, &[u8]), WireFault>
    ensures found { IfOk result (λ x. FitsNullableCount x.0 × (bytes.now ≡ nullable_array_count x.0 ++ x.1.now)) }
    ensures only { (count : Option ℕ) (rest : List ℕ) → FitsNullableCount count → bytes.now ≡ nullable_array_count count ++ rest →
        Takes (λ x. (x.0, x.1.now)) result count rest }
    ensures exact { Reads (λ x. (x.0, x.1.now)) result (nullable_array_count_at bytes.now) }
{
    count_or_null_of(bytes)
}

/// Appends the head of a COMPACT_ARRAY (protocol guide; KIP-482) of `count` elements.
///
/// Fails only by want of memory, and then no byte has changed.
#[tactic(auto, unfolding(crate::specs::Spelling::array_count))]
pub fn put_count(out: &mut Vec<u8>, count: u32) -> Result<(), AllocError>
    requires { count + 1 < 2 ^ 32 }
    ensures { Appends result out.old out.new (array_count count) }
{
    put_varint(out, count + 1)
}

/// Appends the head of a nullable COMPACT_ARRAY (protocol guide; KIP-482): of `count` elements, or
/// of null.
///
/// Fails only by want of memory, and then no byte has changed.
#[tactic(auto, unfolding(crate::specs::Spelling::nullable_array_count))]
pub fn put_nullable_count(out: &mut Vec<u8>, count: Option<u32>) -> Result<(), AllocError>
    requires { ForSome count (λ n. n + 1 < 2 ^ 32) }
    ensures { Appends result out.old out.new (nullable_array_count count) }
{
    match count {
        None => put_varint(out, 0),
        Some(count) => put_count(out, count),
    }
}
