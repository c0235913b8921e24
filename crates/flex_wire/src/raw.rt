//! Bytes of a known number.

ghost use Rattle.std.specs.Prelude.{◌≡◌, length, IfOk};
ghost use Rattle.flex_wire.specs.Reading.{Reads, bytes_at};

use crate::fault::WireFault;

/// The first `size` bytes, and the rest.
#[tactic(auto, unfolding(crate::specs::Reading::bytes_at))]
#[inline(always)]
pub(crate) fn bytes_of(bytes: &[u8], size: usize) -> Result<(&[u8], &[u8]), WireFault>
    ensures exact { Reads (λ x. (x.0.now, x.1.now)) result (bytes_at size bytes.now) }
    ensures size { IfOk result (λ x. length x.0.now ≡ size) }
{
    if bytes.len() < size {
        return Err(WireFault::Short);
    }
    Ok(bytes.split_at(size))
}
