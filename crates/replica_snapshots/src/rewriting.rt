//! What was read is compared with what is written of it.

ghost use Rattle.std.specs.Prelude.{◌≡◌, ◌++◌, ℕ, List, IfOk, IsOk};

use crate::fault::SnapshotFault;

/// The bytes behind the front, where the front is just that.
pub fn behind<'a>(bytes: &'a [u8], front: &[u8]) -> Result<&'a [u8], SnapshotFault>
    ensures found { IfOk result (λ rest. bytes.now ≡ front.now ++ rest.now) }
    ensures whole { (rest : List ℕ) → bytes.now ≡ front.now ++ rest → IsOk result }
{
    match bytes.strip_prefix(front) {
        Some(rest) => Ok(rest),
        None => Err(SnapshotFault::Respelled(first_difference(bytes, front))),
    }
}

/// The first place where the two aren't the same.
fn first_difference(bytes: &[u8], front: &[u8]) -> usize {
    for (place, (one, other)) in bytes.iter().zip(front).enumerate() {
        if one != other {
            return place;
        }
    }
    bytes.len()
}
