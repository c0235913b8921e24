//! Big-endian fields at fixed places.

ghost use Rattle.std.specs.Prelude.{◌≡◌, ◌+◌, ◌≤◌, length};
ghost use Rattle.topic_logs.specs.Format.{uint32_at, int16_at, int32_at, int64_at};

#[tactic(auto, unfolding(crate::specs::Format::uint32_at))]
#[inline(always)]
pub(crate) fn u32_at(bytes: &[u8], at: usize) -> u32
    requires { at + 4 ≤ length bytes.now }
    ensures { result ≡ uint32_at at bytes.now }
{
    let mut number = [0; 4];
    number.copy_from_slice(&bytes[at..at + 4]);
    u32::from_be_bytes(number)
}

#[tactic(auto, unfolding(crate::specs::Format::int16_at))]
#[inline(always)]
pub(crate) fn i16_at(bytes: &[u8], at: usize) -> i16
    requires { at + 2 ≤ length bytes.now }
    ensures { result ≡ int16_at at bytes.now }
{
    let mut number = [0; 2];
    number.copy_from_slice(&bytes[at..at + 2]);
    i16::from_be_bytes(number)
}

#[tactic(auto, unfolding(crate::specs::Format::int32_at))]
#[inline(always)]
pub(crate) fn i32_at(bytes: &[u8], at: usize) -> i32
    requires { at + 4 ≤ length bytes.now }
    ensures { result ≡ int32_at at bytes.now }
{
    let mut number = [0; 4];
    number.copy_from_slice(&bytes[at..at + 4]);
    i32::from_be_bytes(number)
}

#[tactic(auto, unfolding(crate::specs::Format::int64_at))]
#[inline(always)]
pub(crate) fn i64_at(bytes: &[u8], at: usize) -> i64
    requires { at + 8 ≤ length bytes.now }
    ensures { result ≡ int64_at at bytes.now }
{
    let mut number = [0; 8];
    number.copy_from_slice(&bytes[at..at + 8]);
    i64::from_be_bytes(number)
}
