//! Which topics have the same subscribers.

ghost use Rattle.std.specs.Prelude.{◌≡◌, ◌⊎◌, ◌++◌, ◌∷◌, [], ℕ, IfOk, OnOk};
ghost use Rattle.std.specs.Bool.{OnTrue};
ghost use Rattle.std.specs.Global.{Vec as HeapVec};
ghost use Rattle.uniform_assign.specs.Boards.{AreClasses, IsListAt};

use std::alloc::{AllocError, Global};
use std::collections::BTreeMap;

/// For each topic its class, and for each class the takers of its topics.
#[derive(Drop)]
pub(crate) struct Classes {
    pub classes: Vec<usize>,
    pub takers: Vec<Vec<usize>>,
}

/// The classes of the topics that have these takers: topics with the same takers are of one class.
pub(crate) fn classes_of(alloc: Global, lists: &[Vec<usize>]) -> Result<Classes, AllocError>
    ensures { IfOk result (λ found. AreClasses lists.now found.classes.items found.takers.items) }
{
    let mut classes = Vec::with_capacity(alloc, lists.len())?;
    let mut takers = Vec::new(alloc);
    let mut known = BTreeMap::new(alloc);
    for list in lists {
        classes.push(class_of(alloc, &mut takers, &mut known, list)?)?;
    }
    Ok(Classes { classes, takers })
}

/// The class of a list of takers: that of a list which is the same, or else one more.
fn class_of(
    alloc: Global,
    takers: &mut Vec<Vec<usize>>,
    known: &mut BTreeMap<Vec<usize>, usize>,
    list: &Vec<usize>,
) -> Result<usize, AllocError>
    ensures class { IfOk result (IsListAt takers.new.items list.now.items) }
    ensures more { OnOk result ((takers.new.items ≡ takers.old.items)
        ⊎ ((one : HeapVec ℕ) × (one.items ≡ list.now.items) × (takers.new.items ≡ takers.old.items ++ one ∷ []))) }
{
    if let Some(class) = known.get(list) {
        if is_at(takers, *class, list) {
            return Ok(*class);
        }
    }
    let class = takers.len();
    known.insert(Vec::from_slice(alloc, list)?, class)?;
    takers.push(Vec::from_slice(alloc, list)?)?;
    Ok(class)
}

/// Whether the list is at a place.
fn is_at(lists: &[Vec<usize>], place: usize, list: &[usize]) -> bool
    ensures { OnTrue result (IsListAt lists.now list.now place) }
{
    place < lists.len() && lists[place].as_slice() == list
}
