//! Which members have nothing to give away, told by the counts alone.

ghost use Rattle.std.specs.Prelude.{◌≤◌, ℕ, List, All};
ghost use Rattle.std.specs.Bool.{OnTrue};
ghost use Rattle.uniform_assign.specs.declared.board.Board.{Board};
ghost use Rattle.uniform_assign.specs.Moves.{IsGiversLimit};
ghost use Rattle.uniform_assign.specs.CountSets.{AreCountSets};

use crate::count_set::CountSet;

/// A count from which on members may have a partition to give away: it is at most one more than that of each taker.
pub(crate) fn givers_limit(sets: &[CountSet]) -> usize
    ensures { (board : Board) (counts : List ℕ) → AreCountSets board counts sets.now → IsGiversLimit board counts result }
{
    let mut limit = usize::MAX;
    for set in sets {
        if let Some(first) = set.first() {
            limit = least_of_two(limit, first.count.saturating_add(1));
        }
    }
    limit
}

/// A limit, which is looked for where it is 0.
pub(crate) fn raised_limit(sets: &[CountSet], limit: usize) -> usize
    ensures { (board : Board) (counts : List ℕ) → AreCountSets board counts sets.now → IsGiversLimit board counts limit
        → IsGiversLimit board counts result }
{
    if limit == 0 {
        givers_limit(sets)
    } else {
        limit
    }
}

/// The lesser of two numbers.
fn least_of_two(one: usize, other: usize) -> usize
    ensures first { result ≤ one }
    ensures second { result ≤ other }
{
    if one < other { one } else { other }
}

/// Whether no count is greater than the limit.
pub(crate) fn are_within(counts: &[usize], limit: usize) -> bool
    ensures { OnTrue result (All (λ n. n ≤ limit) counts.now) }
{
    for count in counts {
        if *count > limit {
            return false;
        }
    }
    true
}
