//! UUID: sixteen bytes.

ghost use Rattle.std.specs.Prelude.{◌≡◌, ℕ, List, ◌++◌, IfOk};
ghost use Rattle.flex_wire.specs.Spelling.{uuid, FitsUuid};
ghost use Rattle.flex_wire.specs.Reading.{Reads, Takes, uuid_at};
ghost use Rattle.flex_wire.specs.Writing.{Appends};

use crate::fault::WireFault;
use crate::raw::bytes_of;
use std::alloc::AllocError;
use uuid::Uuid;

#[tactic(auto, unfolding(crate::specs::Reading::uuid_at))]
fn uuid_of(bytes: &[u8]) -> Result<(Uuid, &[u8]), WireFault>
    ensures { Reads (λ x. (x.0, x.1.now)) result (uuid_at bytes.now) }
{
    let (front, rest) = bytes_of(bytes, 16)?;
    let mut id = [0; 16];
    id.copy_from_slice(front);
    Ok((Uuid::from_bytes(id), rest))
}

/// Takes a UUID (protocol guide): its sixteen bytes.
///
/// Fault: `Short`.
pub fn take_uuid(bytes: &[u8]) -> Result<(Uuid, &[u8]), WireFault>
    ensures found { IfOk result (λ x. FitsUuid x.0 × (bytes.now ≡ uuid x.0 ++ x.1.now)) }
    ensures only { (id rest : List ℕ) → FitsUuid id → bytes.now ≡ uuid id ++ rest →
        Takes (λ x. (x.0, x.1.now)) result id rest }
    ensures exact { Reads (λ x. (x.0, x.1.now)) result (uuid_at bytes.now) }
{
    uuid_of(bytes)
}

/// Appends a UUID (protocol guide).
///
/// Fails only by want of memory, and then no byte has changed.
pub fn put_uuid(out: &mut Vec<u8>, id: &Uuid) -> Result<(), AllocError>
    ensures { Appends result out.old out.new (uuid id.now) }
{
    out.extend_from_slice(id.as_bytes())
}
