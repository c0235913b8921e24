//! The cells of all partitions.

ghost use Rattle.std.specs.Prelude.{◌≡◌, ◌≤ℤ◌, length, pos, OnOk, IsSome};
ghost use Rattle.std.specs.FinMap as finite;
ghost use Rattle.group_types.specs.Owners.{IsIndex};
ghost use Rattle.group_reconcile.specs.Tables.{AddsBlanks, HasRoom, KeepsRoom, SetsCell, cell_at};

use crate::cell::Cell;
use group_types::Partition;
use std::alloc::{AllocError, Global};
use std::collections::BTreeMap;
use std::marker::Model;
use uuid::Uuid;

/// The cells of all partitions: a table a topic id, indexed by partition. A table never shrinks, and all go together.
#[derive(Drop)]
pub struct Table {
    topics: BTreeMap<Uuid, Vec<Option<Cell>>>,
}

impl Model for Table {
    ghost use Rattle.group_reconcile.specs.Tables.{TableState, table_code, cells_in, sizes_in};

    ghost Value = { TableState };

    ghost coded = { table_code };

    ghost view = { λ a. record { cells = cells_in a.topics.entries; sizes = sizes_in a.topics.entries } };
}

impl Table {
    /// The table with no cell. Takes no memory.
    pub fn new(alloc: Global) -> Table
        ensures { result.cells ≡ finite.empty }
    {
        Table {
            topics: BTreeMap::new(alloc),
        }
    }

    /// The cell of a partition, or none where the partition is free. Takes no memory.
    pub fn get(&self, p: &Partition) -> Option<Cell>
        ensures { result ≡ finite.get self.now.cells p.now }
    {
        match self.topics.get(&p.topic) {
            Some(cells) => cell_at(cells, p.index),
            None => None,
        }
    }

    /// Makes room for a partition's cell. If memory is short, no cell has changed.
    pub fn make_room(&mut self, alloc: Global, p: &Partition) -> Result<(), AllocError>
        requires { pos 0 ≤ℤ p.now.index }
        ensures cells { self.new.cells ≡ self.old.cells }
        ensures kept { KeepsRoom self.old.sizes self.new.sizes }
        ensures room { OnOk result (HasRoom self.new.sizes p.now) }
    {
        self.open(alloc, &p.topic)?;
        self.lengthen(p)
    }

    /// Gives a topic a table, where it has none. Where memory is short, nothing has changed.
    fn open(&mut self, alloc: Global, topic: &Uuid) -> Result<(), AllocError>
        ensures cells { self.new.cells ≡ self.old.cells }
        ensures kept { KeepsRoom self.old.sizes self.new.sizes }
        ensures topic { OnOk result (IsSome (finite.get self.new.sizes topic.now)) }
    {
        if !self.topics.contains_key(topic) {
            self.topics.insert(*topic, Vec::new(alloc))?;
        }
        Ok(())
    }

    /// Makes room for a partition's cell, whose topic has a table. Where memory is short, no cell has changed.
    fn lengthen(&mut self, p: &Partition) -> Result<(), AllocError>
        requires topic { IsSome (finite.get self.old.sizes p.now.topic) }
        requires index { pos 0 ≤ℤ p.now.index }
        ensures cells { self.new.cells ≡ self.old.cells }
        ensures kept { KeepsRoom self.old.sizes self.new.sizes }
        ensures room { OnOk result (HasRoom self.new.sizes p.now) }
    {
        match self.topics.get_mut(&p.topic) {
            Some(cells) => add_blanks(cells, p.index),
            None => Ok(()),
        }
    }

    /// Puts a cell, for which there is room. Takes no memory.
    pub fn put(&mut self, p: &Partition, cell: Cell)
        requires { HasRoom self.old.sizes p.now }
        ensures cells { self.new.cells ≡ finite.insert self.old.cells p.now cell }
        ensures sizes { self.new.sizes ≡ self.old.sizes }
    {
        if let Some(cells) = self.topics.get_mut(&p.topic) {
            set_cell(cells, p.index, Some(cell));
        }
    }

    /// Frees a partition. Takes no memory.
    pub fn clear(&mut self, p: &Partition)
        ensures cells { self.new.cells ≡ finite.remove self.old.cells p.now }
        ensures sizes { self.new.sizes ≡ self.old.sizes }
    {
        if let Some(cells) = self.topics.get_mut(&p.topic) {
            set_cell(cells, p.index, None);
        }
    }

    /// Frees every partition, and gives all room back. Takes no memory.
    pub fn clear_all(&mut self)
        ensures { self.new.cells ≡ finite.empty }
    {
        self.topics.clear();
    }
}

/// The cell at an index, or none where there is no such cell.
fn cell_at(cells: &Vec<Option<Cell>>, index: i32) -> Option<Cell>
    ensures { result ≡ cell_at cells.now.items index }
{
    let index = usize::try_from(index).ok()?;
    if index < cells.len() {
        cells[index]
    } else {
        None
    }
}

/// Makes the cells go as far as an index. If memory is short, they stay as they were.
fn add_blanks(cells: &mut Vec<Option<Cell>>, index: i32) -> Result<(), AllocError>
    requires { pos 0 ≤ℤ index }
    ensures blanks { AddsBlanks cells.old.items cells.new.items }
    ensures far { OnOk result (IsIndex index (length cells.new.items)) }
{
    let Ok(index) = usize::try_from(index) else {
        unreachable!()
    };
    if index < cells.len() {
        return Ok(());
    }
    cells.resize(index + 1, None)
}

/// Writes the cell at an index, where there is one.
fn set_cell(cells: &mut Vec<Option<Cell>>, index: i32, cell: Option<Cell>)
    ensures len { length cells.new.items ≡ length cells.old.items }
    ensures written { SetsCell cells.old.items cells.new.items index cell }
{
    let Ok(index) = usize::try_from(index) else {
        return;
    };
    if index < cells.len() {
        cells[index] = cell;
    }
}
