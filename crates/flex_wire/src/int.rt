//! INT16, INT32 and INT64: big-endian two's complement.

ghost use Rattle.std.specs.Prelude.{◌≡◌, ℕ, ℤ, List, ◌++◌, FitsSigned, IfOk};
ghost use Rattle.std.specs.Int.{w16, w32, w64};
ghost use Rattle.flex_wire.specs.Spelling.{int16, int32, int64};
ghost use Rattle.flex_wire.specs.Reading.{Reads, Takes, signed_at};
ghost use Rattle.flex_wire.specs.Writing.{Appends};

use crate::fault::WireFault;
use crate::raw::bytes_of;
use std::alloc::AllocError;

#[tactic(auto, unfolding(crate::specs::Reading::signed_at))]
#[inline(always)]
fn i16_of(bytes: &[u8]) -> Result<(i16, &[u8]), WireFault>
    ensures { Reads (λ x. (x.0, x.1.now)) result (signed_at w16 bytes.now) }
{
    let (front, rest) = bytes_of(bytes, 2)?;
    let mut number = [0; 2];
    number.copy_from_slice(front);
    Ok((i16::from_be_bytes(number), rest))
}

/// Takes an INT16 (protocol guide).
///
/// Fault: `Short`.
#[inline(always)]
pub fn take_i16(bytes: &[u8]) -> Result<(i16, &[u8]), WireFault>
    ensures found { IfOk result (λ x. FitsSigned w16 x.0 × (bytes.now ≡ int16 x.0 ++ x.1.now)) }
    ensures only { (z : ℤ) (rest : List ℕ) → FitsSigned w16 z → bytes.now ≡ int16 z ++ rest →
        Takes (λ x. (x.0, x.1.now)) result z rest }
    ensures exact { Reads (λ x. (x.0, x.1.now)) result (signed_at w16 bytes.now) }
{
    i16_of(bytes)
}

#[tactic(auto, unfolding(crate::specs::Reading::signed_at))]
#[inline(always)]
fn i32_of(bytes: &[u8]) -> Result<(i32, &[u8]), WireFault>
    ensures { Reads (λ x. (x.0, x.1.now)) result (signed_at w32 bytes.now) }
{
    let (front, rest) = bytes_of(bytes, 4)?;
    let mut number = [0; 4];
    number.copy_from_slice(front);
    Ok((i32::from_be_bytes(number), rest))
}

/// Takes an INT32 (protocol guide).
///
/// Fault: `Short`.
#[inline(always)]
pub fn take_i32(bytes: &[u8]) -> Result<(i32, &[u8]), WireFault>
    ensures found { IfOk result (λ x. FitsSigned w32 x.0 × (bytes.now ≡ int32 x.0 ++ x.1.now)) }
    ensures only { (z : ℤ) (rest : List ℕ) → FitsSigned w32 z → bytes.now ≡ int32 z ++ rest →
        Takes (λ x. (x.0, x.1.now)) result z rest }
    ensures exact { Reads (λ x. (x.0, x.1.now)) result (signed_at w32 bytes.now) }
{
    i32_of(bytes)
}

#[tactic(auto, unfolding(crate::specs::Reading::signed_at))]
#[inline(always)]
fn i64_of(bytes: &[u8]) -> Result<(i64, &[u8]), WireFault>
    ensures { Reads (λ x. (x.0, x.1.now)) result (signed_at w64 bytes.now) }
{
    let (front, rest) = bytes_of(bytes, 8)?;
    let mut number = [0; 8];
    number.copy_from_slice(front);
    Ok((i64::from_be_bytes(number), rest))
}

/// Takes an INT64 (protocol guide).
///
/// Fault: `Short`.
#[inline(always)]
pub fn take_i64(bytes: &[u8]) -> Result<(i64, &[u8]), WireFault>
    ensures found { IfOk result (λ x. FitsSigned w64 x.0 × (bytes.now ≡ int64 x.0 ++ x.1.now)) }
    ensures only { (z : ℤ) (rest : List ℕ) → FitsSigned w64 z → bytes.now ≡ int64 z ++ rest →
        Takes (λ x. (x.0, x.1.now)) result z rest }
    ensures exact { Reads (λ x. (x.0, x.1.now)) result (signed_at w64 bytes.now) }
{
    i64_of(bytes)
}

/// Appends an INT16 (protocol guide).
///
/// Fails only by want of memory, and then no byte has changed.
#[tactic(auto, unfolding(crate::specs::Spelling::signed))]
pub fn put_i16(out: &mut Vec<u8>, number: i16) -> Result<(), AllocError>
    ensures { Appends result out.old out.new (int16 number) }
{
    let bytes: [u8; 2] = number.to_be_bytes();
    out.extend_from_slice(&bytes)
}

/// Appends an INT32 (protocol guide).
///
/// Fails only by want of memory, and then no byte has changed.
#[tactic(auto, unfolding(crate::specs::Spelling::signed))]
pub fn put_i32(out: &mut Vec<u8>, number: i32) -> Result<(), AllocError>
    ensures { Appends result out.old out.new (int32 number) }
{
    let bytes: [u8; 4] = number.to_be_bytes();
    out.extend_from_slice(&bytes)
}

/// Appends an INT64 (protocol guide).
///
/// Fails only by want of memory, and then no byte has changed.
#[tactic(auto, unfolding(crate::specs::Spelling::signed))]
pub fn put_i64(out: &mut Vec<u8>, number: i64) -> Result<(), AllocError>
    ensures { Appends result out.old out.new (int64 number) }
{
    let bytes: [u8; 8] = number.to_be_bytes();
    out.extend_from_slice(&bytes)
}
