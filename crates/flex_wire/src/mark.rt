//! The byte that says whether a nullable struct is there.

ghost use Rattle.std.specs.Prelude.{◌≡◌, ℕ, Bool, List, ◌++◌, IfOk};
ghost use Rattle.flex_wire.specs.Spelling.{mark};
ghost use Rattle.flex_wire.specs.Reading.{Reads, Takes, mark_at};
ghost use Rattle.flex_wire.specs.Writing.{Appends};

use crate::fault::WireFault;
use std::alloc::AllocError;

#[tactic(auto, unfolding(crate::specs::Reading::mark_at))]
fn mark_of(bytes: &[u8]) -> Result<(bool, &[u8]), WireFault>
    ensures { Reads (λ x. (x.0, x.1.now)) result (mark_at bytes.now) }
{
    match bytes {
        [] => Err(WireFault::Short),
        [0xff, rest @ ..] => Ok((false, rest)),
        [0x01, rest @ ..] => Ok((true, rest)),
        [_, ..] => Err(WireFault::BadMark),
    }
}

/// Takes the INT8 that a nullable struct begins with (protocol guide): `true` where the struct is
/// present, the byte 01, and `false` where it is null, the byte ff.
///
/// Faults: `Short`; `BadMark` at any other byte.
pub fn take_mark(bytes: &[u8]) -> Result<(bool, &[u8]), WireFault>
    ensures found { IfOk result (λ x. bytes.now ≡ mark x.0 ++ x.1.now) }
    ensures only { (present : Bool) (rest : List ℕ) → bytes.now ≡ mark present ++ rest →
        Takes (λ x. (x.0, x.1.now)) result present rest }
    ensures exact { Reads (λ x. (x.0, x.1.now)) result (mark_at bytes.now) }
{
    mark_of(bytes)
}

/// Appends the INT8 that a nullable struct begins with (protocol guide).
///
/// Fails only by want of memory, and then no byte has changed.
pub fn put_mark(out: &mut Vec<u8>, present: bool) -> Result<(), AllocError>
    ensures { Appends result out.old out.new (mark present) }
{
    let byte = if present { 0x01 } else { 0xff };
    out.extend_from_slice(&[byte])
}
