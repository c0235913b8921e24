//! Where C keeps a coordinator, or none.
ghost use Rattle.std.specs.Prelude.{◌≡◌, Some, None, is_some};
ghost use Rattle.coord_c.specs.Held.{unboxed};

use crate::embedded::Embedded;
use crate::handle::Handle;
use crate::loose::Loose;
use std::alloc::Global;
use std::mem;

/// A coordinator, or none: C begins with zeros, which are an empty slot.
#[repr(C)]
pub struct Slot {
    pub(crate) held: Handle,
    full: bool,
    ghost says: { full ≡ is_some held.kept },
}

impl Slot {
    fn empty() -> Slot
        ensures { result.held.kept ≡ None }
    {
        Slot {
            held: Handle::empty(),
            full: false,
        }
    }

    fn of(embedded: Box<Embedded>) -> Slot
        ensures { result.held.kept ≡ Some embedded.value }
    {
        Slot {
            held: Handle::of(Loose::of(embedded)),
            full: true,
        }
    }

    /// Whether there is a coordinator.
    pub(crate) fn is_full(&self) -> bool
        ensures { result ≡ is_some self.now.held.kept }
    {
        self.full
    }

    /// Takes the coordinator out, where there is one: the slot is empty then.
    pub(crate) fn take(&mut self, alloc: Global) -> Option<Box<Embedded>>
        ensures empty { self.new.held.kept ≡ None }
        ensures taken { unboxed result ≡ self.old.held.kept }
    {
        if !self.full {
            return None;
        }
        let Slot { held, full: _ } = mem::replace(self, Slot::empty());
        Some(held.into_loose(alloc).into_box())
    }

    /// Puts a coordinator into an empty slot.
    pub(crate) fn put(&mut self, embedded: Box<Embedded>)
        requires { self.old.held.kept ≡ None }
        ensures { self.new.held.kept ≡ Some embedded.value }
    {
        let Slot { held, full: _ } = mem::replace(self, Slot::of(embedded));
        held.let_go();
    }
}
