//! What C keeps of a coordinator on the heap.
ghost use Rattle.std.specs.Prelude.{◌≡◌, Option, Some, None};
ghost use Rattle.coord_c.specs.declared.embedded.Embedded.{Embedded};
ghost use Rattle.coord_c.specs.Held.{held, kept_code, HasEmbedded};

use crate::embedded::Embedded;
use crate::loose::Loose;
use std::alloc::Global;
use std::marker::{Model, Send};

/// The pointer to a coordinator, which it owns, or to nothing. It can't be dropped: it is made a box again, or let go where it
/// owns nothing.
#[repr(C)]
pub struct Handle {
    at: *mut u8,
    pub(crate) ghost kept: { Option Embedded } by { kept_code },
}

impl Model for Handle {
    ghost also_owns = { λ h. held h.at h.kept };
}

// Its coordinator may go to another thread with it.
unsafe impl Send for Handle {}

impl Handle {
    /// A handle of nothing.
    pub(crate) fn empty() -> Handle
        ensures { result.kept ≡ None }
    {
        Handle {
            at: std::ptr::null_mut(),
        }
    }

    /// The handle of what a loose box has.
    pub(crate) fn of(loose: Loose<Embedded, Global>) -> Handle
        ensures { result.kept ≡ Some loose.value }
    {
        let Loose { at, alloc: _ } = loose;
        Handle { at: at as *mut u8 }
    }

    /// The loose box of a handle that has something.
    pub(crate) fn into_loose(self, alloc: Global) -> Loose<Embedded, Global>
        requires { HasEmbedded self.kept }
        ensures { Some result.value ≡ self.kept }
    {
        let Handle { at } = self;
        Loose {
            at: at as *mut Embedded,
            alloc,
        }
    }

    /// Lets go of a handle of nothing.
    pub(crate) fn let_go(self)
        requires { self.kept ≡ None }
    {
        let Handle { at: _ } = self;
    }
}
