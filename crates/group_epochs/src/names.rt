//! Sets of names.

ghost use Rattle.std.specs.Prelude.{◌≡◌, IfOk, OnOk, map, string_bytes};
ghost use Rattle.group_types.specs.Sets.{in_order, with_one};

use group_types::NameSet;
use std::alloc::{AllocError, Global};
use std::marker::Model;

/// Names that a member is about to subscribe, with what counting them needs of memory. Callers see them as a set.
#[derive(Drop)]
pub struct NewNames {
    texts: Vec<String>,
}

impl Model for NewNames {
    ghost use Rattle.group_types.specs.Topics.{Names};
    ghost use Rattle.group_epochs.specs.Stored.{names_code};

    ghost Value = { Names };

    ghost coded = { names_code };

    ghost use Rattle.std.specs.Prelude.{◌≡◌, map, string_bytes};
    ghost use Rattle.group_types.specs.Sets.{in_order, of_list};
    ghost use Rattle.group_types.specs.Text.{text_cmp};

    ghost view = { λ a. of_list (map string_bytes a.texts.items) };

    ghost invariant = { λ a. in_order (of_list {R = text_cmp} (map string_bytes a.texts.items)) ≡ map string_bytes a.texts.items };
}

impl NewNames {
    /// The names of a set. Fails where memory is short.
    pub(crate) fn of(alloc: Global, names: &NameSet) -> Result<NewNames, AllocError>
        ensures { IfOk result (λ new. new ≡ names.now) }
    {
        let mut texts = Vec::with_capacity(alloc, names.len())?;
        for name in names.iter() {
            texts.push(String::from_str(alloc, name.as_str())?)?;
        }
        Ok(NewNames { texts })
    }

    /// The texts of the names, rising. Takes no memory.
    pub(crate) fn into_texts(self) -> Vec<String>
        ensures { map string_bytes result.items ≡ in_order self }
    {
        let NewNames { texts } = self;
        texts
    }
}

/// Adds a name. Takes memory where it is new alone; where memory is short, the set stays as it was.
pub fn add_name(alloc: Global, names: &mut NameSet, name: &str) -> Result<(), AllocError>
    ensures { OnOk result (names.new ≡ with_one names.old name.now) }
{
    if !names.contains(name) {
        names.insert(alloc, name)?;
    }
    Ok(())
}
