//! The time at all groups.
ghost use Rattle.std.specs.Prelude.{◌≡◌, ◌≤◌, ℕ, Option, length};
ghost use Rattle.std.specs.List.{AllByRecursion};
ghost use Rattle.group_types.specs.Limits.{MOST_GROUPS};
ghost use Rattle.group_types.specs.Topics.{Topics};
ghost use Rattle.coord_node.specs.Kept.{HasRightNumber};
ghost use Rattle.coord_node.specs.NodeView.{groups_of};
ghost use Rattle.coord_node.specs.Steps.{all_ticked, removed_from_all};

use crate::kept::Kept;
use group_types::Moment;
use indexmap::IndexMap;
use std::collections::hash_map::RandomState;

/// Every group meets the moment, in its place. Says how many members were removed. Takes no memory.
pub(crate) fn tick_all(groups: &mut IndexMap<String, Kept, RandomState>, now: Moment) -> usize
    requires few { length groups.old.entries ≤ MOST_GROUPS }
    ensures groups { groups_of groups.new.entries ≡ all_ticked (groups_of groups.old.entries) now }
    ensures removed { result ≡ removed_from_all (groups_of groups.old.entries) now }
    ensures kept { (generation : Option ℕ) (image : Topics) → AllByRecursion (λ e. HasRightNumber generation image e.1) groups.old.entries
        → AllByRecursion (λ e. HasRightNumber generation image e.1) groups.new.entries }
    ensures few { length groups.new.entries ≤ MOST_GROUPS }
{
    let mut removed = 0;
    for place in 0..groups.len() {
        removed += groups[place].tick(now);
    }
    removed
}
