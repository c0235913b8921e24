//! Sets that a record may have.

ghost use Rattle.std.specs.Prelude.{◌≡◌, IfOk};

use group_types::PartSet;
use std::alloc::{AllocError, Global};

/// A copy of a set, where there is one. Fails where memory is short.
pub fn copy_of(alloc: Global, set: &Option<PartSet>) -> Result<Option<PartSet>, AllocError>
    ensures { IfOk result (λ copy. copy ≡ set.now) }
{
    match set {
        Some(set) => Ok(Some(set.copy(alloc)?)),
        None => Ok(None),
    }
}
