//! Arrays of any elements that can be written.

ghost use Rattle.std.specs.Prelude.{List, ℕ, All, map, option_map, IfSome, OnOk, FitsSigned, length};
ghost use Rattle.std.specs.Int.{w32};
ghost use Rattle.std.specs.List.{flat_map};
ghost use Rattle.flex_wire.specs.Writing.{AppendsUpTo};
ghost use Rattle.flex_wire.specs.Spelling.{int32, FitsCount};
ghost use Rattle.flex_wire.specs.Composed.{array, FitsArray, nullable_array, FitsNullableArray};
ghost use Rattle.kip_msgs.specs.Writable.{IsWritableArray};

use crate::array::Array;
use flex_wire::{put_compact_str, put_count, put_i32, put_nullable_count};
use std::alloc::AllocError;

/// An element of an array, written at the end of a `Vec`.
pub(super) trait PutElement {
    /// What contracts see of an element.
    ghost Value: { Type 0 };

    ghost value_of: { Self → Value };

    /// How an element is spelled.
    ghost spelling: { Value → List ℕ };

    /// The values that have a spelling.
    ghost Fits: { Value → Type 0 };

    /// The values that may be written.
    ghost IsWritable: { Value → Type 0 };

    fn put(&self, out: &mut Vec<u8>) -> Result<(), AllocError>
        requires { IsWritable (value_of self.now) }
        ensures appends { AppendsUpTo result out.old out.new (spelling (value_of self.now)) }
        ensures fits { OnOk result (Fits (value_of self.now)) };
}

impl PutElement for i32 {
    ghost use Rattle.std.specs.Prelude.{ℤ, ⊤};

    ghost Value = { ℤ };

    ghost value_of = { λ number. number };

    ghost spelling = { int32 };

    ghost Fits = { FitsSigned w32 };

    ghost IsWritable = { λ _. ⊤ };

    fn put(&self, out: &mut Vec<u8>) -> Result<(), AllocError> {
        put_i32(out, *self)
    }
}

impl PutElement for &str {
    ghost use Rattle.flex_wire.specs.Spelling.{compact_string, FitsText};
    ghost use Rattle.kip_msgs.specs.Writable.{IsShort};

    ghost Value = { List ℕ };

    ghost value_of = { λ text. text.now };

    ghost spelling = { compact_string };

    ghost Fits = { FitsText };

    ghost IsWritable = { IsShort };

    fn put(&self, out: &mut Vec<u8>) -> Result<(), AllocError> {
        put_compact_str(out, *self)
    }
}

fn put_each<T: PutElement>(out: &mut Vec<u8>, elements: &[T]) -> Result<(), AllocError>
    requires { All T.IsWritable (map T.value_of elements.now) }
    ensures appends { AppendsUpTo result out.old out.new (flat_map T.spelling (map T.value_of elements.now)) }
    ensures fits { OnOk result (All T.Fits (map T.value_of elements.now)) }
{
    for element in elements {
        element.put(out)?;
    }
    Ok(())
}

/// A COMPACT_ARRAY (KIP-482).
pub(super) fn put_array<T: PutElement>(
    out: &mut Vec<u8>,
    elements: &Array<T>,
) -> Result<(), AllocError>
    requires { IsWritableArray T.IsWritable (map T.value_of elements.now) }
    ensures appends { AppendsUpTo result out.old out.new (array T.spelling (map T.value_of elements.now)) }
    ensures fits { OnOk result (FitsArray T.Fits (map T.value_of elements.now)) }
{
    put_count(out, elements.len() as u32)?;
    put_each(out, elements.as_slice())
}

/// A nullable COMPACT_ARRAY (KIP-482).
#[tactic(auto, unfolding(flex_wire::specs::Spelling::nullable_array_count))]
pub(super) fn put_nullable_array<T: PutElement>(
    out: &mut Vec<u8>,
    elements: &Option<Array<T>>,
) -> Result<(), AllocError>
    requires { IfSome (option_map (map T.value_of) elements.now) (IsWritableArray T.IsWritable) }
    ensures appends { AppendsUpTo result out.old out.new (nullable_array T.spelling (option_map (map T.value_of) elements.now)) }
    ensures fits { OnOk result (FitsNullableArray T.Fits (option_map (map T.value_of) elements.now)) }
{
    match elements {
        None => put_nullable_count(out, None),
        Some(elements) => put_array(out, elements),
    }
}

/// A COMPACT_ARRAY of INT32 (KIP-482).
pub(super) fn put_indexes(out: &mut Vec<u8>, indexes: &Array<i32>) -> Result<(), AllocError>
    requires { FitsCount (length indexes.now) }
    ensures appends { AppendsUpTo result out.old out.new (array int32 indexes.now) }
    ensures fits { OnOk result (FitsArray (FitsSigned w32) indexes.now) }
{
    put_array(out, indexes)
}
