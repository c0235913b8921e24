//! Whether the former owners stay as they are, told from their sets alone.

ghost use Rattle.std.specs.Prelude.{◌≡◌, ◌≤◌, ℕ, IfOk, Some, slice_get};
ghost use Rattle.std.specs.Bool.{OnTrue};
ghost use Rattle.group_types.specs.Owners.{IsLawful};
ghost use Rattle.group_types.specs.Sets.{size};
ghost use Rattle.group_types.specs.Text.{Text};
ghost use Rattle.group_types.specs.Topics.{Topics};
ghost use Rattle.group_types.specs.Uniform.{IsEven, count};
ghost use Rattle.group_types.specs.Partition.{Partitions};
ghost use Rattle.range_assign.specs.Members.{subscribers_in};
ghost use Rattle.range_assign.specs.Shares.{shares_in};

use crate::lawful::are_lawful;
use range_assign::{Share, Spread, Subs, Subscriber};
use std::alloc::{AllocError, Global};
use topic_meta::View;

/// Whether the former owners stay: each subscribes its partitions, each partition has one, and no owner has two more than
/// a member. It may be false where that is so.
pub(crate) fn stay(
    alloc: Global,
    former: &Spread,
    subs: &Subs<'_>,
    view: &View,
) -> Result<bool, AllocError>
    ensures lawful { IfOk result (λ stay. OnTrue stay (IsLawful view.now subs.now former.now)) }
    ensures even { IfOk result (λ stay. OnTrue stay (IsEven view.now subs.now former.now)) }
{
    let members = subs.members();
    if former.shares().len() > members.len() || !are_even(former, members) {
        return Ok(false);
    }
    are_lawful(alloc, former, members, view)
}

/// Whether no owner owns more than one partition more than a member. It may be false where that is so.
pub(crate) fn are_even(former: &Spread, members: &[Subscriber<'_>]) -> bool
    ensures { OnTrue result ((view : Topics) → IsEven view (subscribers_in members.now) former.now) }
{
    let most = most_owned(former.shares());
    // nobody owns less than nothing: no walk over the members
    if most <= 1 {
        return true;
    }
    let mut near = 0;
    for member in members {
        let (owned, next) = owned_near(former, member.id.as_str(), near);
        if owned.saturating_add(1) < most {
            return false;
        }
        near = next;
    }
    true
}

/// How many partitions the member with this id owns, and where the share after its own is. The place is told as
/// [`Spread::share_near`] tells it.
fn owned_near(former: &Spread, id: &str, near: usize) -> (usize, usize)
    ensures { result.0 ≡ count former.now id.now }
{
    match former.share_near(id, near) {
        Some((set, next)) => (set.len(), next),
        None => (0, near),
    }
}

/// How many partitions the largest share has.
fn most_owned(shares: &[Share]) -> usize
    ensures { (k : ℕ) (s : Text × Partitions) → slice_get (shares_in shares.now) k ≡ Some s → size s.1 ≤ result }
{
    let mut most = 0;
    for share in shares {
        most = greater_of_two(most, share.set.len());
    }
    most
}

/// The greater of two numbers.
fn greater_of_two(one: usize, other: usize) -> usize
    ensures first { one ≤ result }
    ensures second { other ≤ result }
{
    if one < other { other } else { one }
}
