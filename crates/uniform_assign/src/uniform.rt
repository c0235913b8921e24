//! The assignor `uniform`.

ghost use Rattle.std.specs.Prelude.{◌≡◌, IfOk};
ghost use Rattle.group_types.specs.Owners.{IsLawful};
ghost use Rattle.group_types.specs.Uniform.{IsEven, IsUniform};

use crate::board::Board;
use crate::stay::stay;
use range_assign::{Assignor, Spread, Subs};
use std::alloc::{AllocError, Global};
use topic_meta::View;

/// The assignor `uniform`: the former owners that still subscribe their partitions keep them, each other partition goes
/// to the subscriber that owns the fewest, and then partitions move, one after the other, until no owner has two more
/// than a subscriber of its partition. The rule is this project's own: KIP-848, "Server Side Assignors", names the
/// assignor and leaves its rule open.
#[derive(Clone, Copy, Debug)]
pub struct Uniform;

impl Assignor for Uniform {
    fn assign(
        &self,
        alloc: Global,
        former: &Spread,
        subs: &Subs<'_>,
        view: &View,
    ) -> Result<Spread, AllocError>
        ensures lawful { IfOk result (λ spread. IsLawful view.now subs.now spread) }
        ensures uniform { IfOk result (λ spread. IsUniform view.now subs.now former.now spread) }
        ensures even { IfOk result (λ spread. IsEven view.now subs.now spread) }
        ensures stays { IsLawful view.now subs.now former.now → IsEven view.now subs.now former.now
            → IfOk result (λ spread. spread ≡ former.now) }
    {
        if stay(alloc, former, subs, view)? {
            return former.copy(alloc);
        }
        assigned(alloc, former, subs, view)
    }
}

/// The owners under the rule, worked out on a board.
fn assigned(
    alloc: Global,
    former: &Spread,
    subs: &Subs<'_>,
    view: &View,
) -> Result<Spread, AllocError>
    ensures { IfOk result (λ spread. IsUniform view.now subs.now former.now spread) }
{
    let mut board = Board::of(alloc, subs, view)?;
    let mut draft = board.kept(alloc, former)?;
    board.settle(alloc, &mut draft)?;
    Ok(Spread::of(board.shares(alloc, &draft)?))
}
