//! The groups of a node as they are read out.
ghost use Rattle.std.specs.Prelude.{◌≡◌, IfOk, length, map, slice_get};
ghost use Rattle.std.specs.Option.{option_map};
ghost use Rattle.std.specs.FinMap as finite;
ghost use Rattle.coord_node.specs.NodeView.{groups_of, named_in};
ghost use Rattle.coord_node.specs.Restored.{listed_named};

use crate::kept::Kept;
use group_core::Group;
use indexmap::IndexMap;
use std::alloc::{AllocError, Global};
use std::collections::hash_map::RandomState;

/// A group and its name.
#[derive(Clone, Copy)]
pub struct NamedGroup<'a> {
    pub name: &'a str,
    pub group: &'a Group,
}

/// The group at a place, with its name.
pub(crate) fn named_at(
    groups: &IndexMap<String, Kept, RandomState>,
    place: usize,
) -> Option<NamedGroup<'_>>
    ensures { option_map listed_named result ≡ slice_get (map named_in groups.now.entries) place }
{
    match groups.get_index(place) {
        Some((name, kept)) => Some(NamedGroup {
            name: name.as_str(),
            group: &kept.group,
        }),
        None => None,
    }
}

/// The groups with their names, in their order. Fails where memory is short.
pub(crate) fn listed(
    alloc: Global,
    groups: &IndexMap<String, Kept, RandomState>,
) -> Result<Vec<NamedGroup<'_>>, AllocError>
    ensures groups { IfOk result (λ list. map listed_named list.items ≡ map named_in groups.now.entries) }
    ensures once { length groups.now.entries ≡ finite.len (groups_of groups.now.entries) }
{
    let mut list = Vec::new(alloc);
    for place in 0..groups.len() {
        let Some((name, kept)) = groups.get_index(place) else {
            unreachable!()
        };
        list.push(NamedGroup {
            name: name.as_str(),
            group: &kept.group,
        })?;
    }
    Ok(list)
}
