//! Members that release partitions.
ghost use Rattle.std.specs.Prelude.{◌≡◌};
ghost use Rattle.member_core.specs.Releasing.{after_release};
ghost use Rattle.member_core.specs.Next.{IsReleased};

use super::Member;
use crate::machine::Machine;
use crate::stage::{Releasing, Steady};
use group_types::Partition;

/// A member after a release.
#[derive(Drop)]
pub enum Released {
    /// Nothing is left to release.
    Steady(Member<Steady>),
    Releasing(Member<Releasing>),
}

impl Member<Releasing> {
    /// Releases a partition that the member owns and isn't shown (KIP-848, "Reconciliation of the group"). Another
    /// partition changes nothing. Takes no memory.
    pub fn release(self, p: &Partition) -> Released
        ensures { IsReleased (after_release self p.now) result }
    {
        let mut machine = self.into_machine();
        machine.release(p);
        if machine.has_to_release() {
            Released::Releasing(Member::of(machine))
        } else {
            Released::Steady(Member::of(machine))
        }
    }
}
