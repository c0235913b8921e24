//! What an assignor does.

use crate::spread::Spread;
use crate::subs::Subs;
use std::alloc::{AllocError, Global};
use topic_meta::View;

/// A server-side assignor (KIP-848, "Server Side Assignors").
pub trait Assignor {
    ghost use Rattle.std.specs.Prelude.{IfOk};
    ghost use Rattle.group_types.specs.Owners.{IsLawful};

    /// Who owns which partition of the view, where the former owners are known.
    ///
    /// Each partition that some member subscribes has exactly one owner, who subscribes it, and nothing else is owned.
    /// Fails where memory is short.
    fn assign(
        &self,
        alloc: Global,
        former: &Spread,
        subs: &Subs<'_>,
        view: &View,
    ) -> Result<Spread, AllocError>
        ensures lawful { IfOk result (λ spread. IsLawful view.now subs.now spread) };
}
