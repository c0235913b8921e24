//! Arrays of any elements that can be read.

ghost use Rattle.std.specs.Prelude.{List, ℕ, map, option_map};
ghost use Rattle.std.specs.Int.{w32};
ghost use Rattle.flex_wire.specs.Reading.{ReadsInMemory, signed_at};
ghost use Rattle.flex_wire.specs.Composed.{elements_at, array_at, nullable_array_at};

use crate::array::Array;
use flex_wire::{WireFault, take_compact_str, take_count, take_i32, take_nullable_count};
use std::alloc::Global;

/// An element of an array, read from the front of bytes.
pub(super) trait TakeElement<'a>: Drop {
    ghost use Rattle.flex_wire.specs.Reading.{Read};

    /// What contracts see of an element.
    ghost Value: { Type 0 };

    ghost value_of: { Self → Value };

    /// How an element is read.
    ghost element_at: { List ℕ → Read Value };

    fn take(alloc: Global, bytes: &'a [u8]) -> Result<(Self, &'a [u8]), WireFault>
        ensures { ReadsInMemory (λ x. (value_of x.0, x.1.now)) result (element_at bytes.now) };
}

impl<'a> TakeElement<'a> for &'a str {
    ghost use Rattle.flex_wire.specs.Reading.{compact_string_at};

    ghost Value = { List ℕ };

    ghost value_of = { λ text. text.now };

    ghost element_at = { compact_string_at };

    fn take(_alloc: Global, bytes: &'a [u8]) -> Result<(&'a str, &'a [u8]), WireFault> {
        take_compact_str(bytes)
    }
}

impl<'a> TakeElement<'a> for i32 {
    ghost use Rattle.std.specs.Prelude.{ℤ};
    ghost use Rattle.std.specs.Int.{w32};
    ghost use Rattle.flex_wire.specs.Reading.{signed_at};

    ghost Value = { ℤ };

    ghost value_of = { λ number. number };

    ghost element_at = { signed_at w32 };

    fn take(_alloc: Global, bytes: &'a [u8]) -> Result<(i32, &'a [u8]), WireFault> {
        take_i32(bytes)
    }
}

fn elements_of<'a, T: TakeElement<'a>>(
    alloc: Global,
    count: u32,
    bytes: &'a [u8],
) -> Result<(Vec<T>, &'a [u8]), WireFault>
    ensures { ReadsInMemory (λ x. (map T.value_of x.0.items, x.1.now)) result (elements_at T.element_at count bytes.now) }
{
    let mut elements = Vec::new(alloc);
    let mut rest = bytes;
    for _ in 0..count {
        let (element, after) = T::take(alloc, rest)?;
        elements.push(element)?;
        rest = after;
    }
    Ok((elements, rest))
}

/// A COMPACT_ARRAY (KIP-482); no memory is taken for an element before it is read.
#[tactic(auto, unfolding(flex_wire::specs::Composed::array_at))]
pub(super) fn take_array<'a, T: TakeElement<'a>>(
    alloc: Global,
    bytes: &'a [u8],
) -> Result<(Array<T>, &'a [u8]), WireFault>
    ensures { ReadsInMemory (λ x. (map T.value_of x.0, x.1.now)) result (array_at T.element_at bytes.now) }
{
    let (count, rest) = take_count(bytes)?;
    let (elements, rest) = elements_of(alloc, count, rest)?;
    Ok((Array::of_vec(elements), rest))
}

/// A nullable COMPACT_ARRAY (KIP-482); no memory is taken for an element before it is read.
#[tactic(auto, unfolding(flex_wire::specs::Composed::nullable_array_at))]
#[inline(always)]
pub(super) fn take_nullable_array<'a, T: TakeElement<'a>>(
    alloc: Global,
    bytes: &'a [u8],
) -> Result<(Option<Array<T>>, &'a [u8]), WireFault>
    ensures { ReadsInMemory (λ x. (option_map (map T.value_of) x.0, x.1.now)) result (nullable_array_at T.element_at bytes.now) }
{
    let (count, rest) = take_nullable_count(bytes)?;
    let Some(count) = count else {
        return Ok((None, rest));
    };
    let (elements, rest) = elements_of(alloc, count, rest)?;
    Ok((Some(Array::of_vec(elements)), rest))
}

/// A COMPACT_ARRAY of INT32 (KIP-482).
pub(super) fn take_indexes(alloc: Global, bytes: &[u8]) -> Result<(Array<i32>, &[u8]), WireFault>
    ensures { ReadsInMemory (λ x. (x.0, x.1.now)) result (array_at (signed_at w32) bytes.now) }
{
    take_array(alloc, bytes)
}
