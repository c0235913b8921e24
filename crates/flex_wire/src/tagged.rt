//! Tagged fields: kept as they came, and not interpreted.

ghost use Rattle.std.specs.Prelude.{◌≡◌, ◌==◌, [], length};

use std::alloc::Global;
use std::marker::Model;

/// A tagged field (KIP-482): its tag, and its bytes, lent from where they stand.
#[derive(Clone, Copy, Debug)]
pub struct TaggedField<'a> {
    pub tag: u32,
    pub value: &'a [u8],
}

/// The tagged fields behind a message or an entry of it, seen by contracts as the list of them.
#[derive(Debug, Drop)]
pub struct TaggedFields<'a> {
    fields: Vec<TaggedField<'a>>,
}

impl<'a> Model for TaggedFields<'a> {
    ghost use Rattle.std.specs.Prelude.{List};
    ghost use Rattle.flex_wire.specs.Spelling.{Tagged};

    ghost Value = { List Tagged };

    ghost use Rattle.flex_wire.specs.Tags.{all_tagged};

    ghost view = { λ a. all_tagged a.fields.items };
}

impl<'a> TaggedFields<'a> {
    ghost use Rattle.flex_wire.specs.Tags.{all_tagged};

    /// No fields. Takes no memory.
    pub fn new(alloc: Global) -> Self
        ensures { result ≡ [] }
    {
        Self {
            fields: Vec::new(alloc),
        }
    }

    /// These fields, in their order. Takes no memory.
    pub fn of_vec(fields: Vec<TaggedField<'a>>) -> Self
        ensures { result ≡ all_tagged fields.entry.items }
    {
        Self { fields }
    }

    /// The fields, in their order. Takes no memory.
    pub fn into_vec(self) -> Vec<TaggedField<'a>>
        ensures { all_tagged result.items ≡ self.entry }
    {
        let TaggedFields { fields } = self;
        fields
    }

    /// The fields, in their order.
    pub fn as_slice(&self) -> &[TaggedField<'a>]
        ensures { all_tagged result.now ≡ self.now }
    {
        &self.fields
    }

    /// The number of fields.
    pub fn len(&self) -> usize
        ensures { result ≡ length self.now }
    {
        self.fields.len()
    }

    /// Whether there are no fields.
    pub fn is_empty(&self) -> bool
        ensures { result ≡ (length self.now == 0) }
    {
        self.fields.is_empty()
    }
}
