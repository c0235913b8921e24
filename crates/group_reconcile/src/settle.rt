//! What settling a member does to the cells.

ghost use Rattle.std.specs.Prelude.{◌≡◌, IfOk, IsSome, OnOk};
ghost use Rattle.std.specs.List.{AllByRecursion};
ghost use Rattle.std.specs.Option.{option_copied};
ghost use Rattle.slab.specs.Slab.{get};
ghost use Rattle.group_types.specs.Sets.{in_order, minus, nothing};
ghost use Rattle.group_types.specs.Settle.{may_move};
ghost use Rattle.group_reconcile.specs.Holders.{AreFromZero};
ghost use Rattle.group_reconcile.specs.Members.{SetsParts, parts_of};
ghost use Rattle.group_reconcile.specs.Tables.{HasRoom};
ghost use Rattle.group_reconcile.specs.Settling.{IsNext, cells_cleared, cells_put, cells_without, is_kept, may_take, put_where_free, taken_of, with_if_free};

use crate::cell::Cell;
use crate::members::Members;
use crate::table::Table;
use group_types::{EpochNumber, PartSet, Partition, Wanted};
use std::alloc::{AllocError, Global};

/// Whether a member that holds these partitions and reports what it owns, or nothing, may go on to its target: it owns
/// nothing of what isn't its target any more.
pub fn may_move(parts: &PartSet, target: &Wanted<'_>, owned: Option<&PartSet>) -> bool
    ensures { result ≡ may_move (minus parts.now target.now.partitions) (option_copied owned.entry) }
{
    for p in parts.iter() {
        if is_kept(p, target, owned) {
            return false;
        }
    }
    true
}

/// Whether the partition isn't one of the target, and the member hasn't said that it gave it up.
fn is_kept(p: &Partition, target: &Wanted<'_>, owned: Option<&PartSet>) -> bool
    ensures { result ≡ is_kept target.now.partitions (option_copied owned.entry) p.now }
{
    if target.contains(p) {
        return false;
    }
    match owned {
        Some(owned) => owned.contains(p),
        None => true,
    }
}

/// The partitions of its target that are free or that the member with this number holds already. Fails where memory is
/// short.
pub fn next_of(
    table: &Table,
    alloc: Global,
    number: Option<usize>,
    target: &Wanted<'_>,
) -> Result<PartSet, AllocError>
    ensures { IfOk result (λ next. IsNext table.now.cells number target.now.partitions next) }
{
    match target.set() {
        Some(set) => free_of(table, alloc, number, set),
        None => Ok(PartSet::new(alloc)),
    }
}

/// The partitions of a set that are free or that the member with this number holds already.
fn free_of(
    table: &Table,
    alloc: Global,
    number: Option<usize>,
    set: &PartSet,
) -> Result<PartSet, AllocError>
    ensures { IfOk result (λ next. next ≡ taken_of table.now.cells number nothing (in_order set.now)) }
{
    let mut next = PartSet::new(alloc);
    for p in set.iter() {
        add_if_free(&mut next, table, number, p)?;
    }
    Ok(next)
}

/// Adds the partition where it is free or the member with this number holds it.
fn add_if_free(
    next: &mut PartSet,
    table: &Table,
    number: Option<usize>,
    p: &Partition,
) -> Result<(), AllocError>
    ensures { OnOk result (next.new ≡ with_if_free table.now.cells number next.old p.now) }
{
    if may_take(table, number, p) {
        next.insert(*p)?;
    }
    Ok(())
}

/// Whether the partition is free, or the member with this number holds it.
fn may_take(table: &Table, number: Option<usize>, p: &Partition) -> bool
    ensures { result ≡ may_take table.now.cells number p.now }
{
    match table.get(p) {
        Some(cell) => number == Some(cell.holder),
        None => true,
    }
}

/// Settles the member with this number on its next partitions: what it gives up is free, and what is free becomes its own.
/// Takes no memory.
pub fn settle(
    table: &mut Table,
    members: &mut Members,
    number: usize,
    next: PartSet,
    since: EpochNumber,
)
    requires there { IsSome (get members.old number) }
    requires room { AllByRecursion (HasRoom table.old.sizes) (in_order next) }
    ensures cells { table.new.cells ≡ cells_put (cells_cleared table.old.cells next (in_order (parts_of members.old number))) (record { holder = number; since = since }) (in_order next) }
    ensures members { SetsParts members.old members.new number next }
{
    let Some(member) = members.get(number) else {
        unreachable!()
    };
    clear_all(table, &member.parts, &next);
    let cell = Cell {
        holder: number,
        since,
    };
    put_all(table, &next, &cell);
    members.set_parts(number, next);
}

/// Makes room for the cells of all these partitions. If memory is short, no cell has changed.
pub fn make_room_for(table: &mut Table, alloc: Global, next: &PartSet) -> Result<(), AllocError>
    requires { AreFromZero next.now }
    ensures cells { table.new.cells ≡ table.old.cells }
    ensures room { OnOk result (AllByRecursion (HasRoom table.new.sizes) (in_order next.now)) }
{
    for p in next.iter() {
        table.make_room(alloc, p)?;
    }
    Ok(())
}

/// Frees all of these partitions. Takes no memory.
pub fn clear_each(table: &mut Table, parts: &PartSet)
    ensures { table.new.cells ≡ cells_without table.old.cells (in_order parts.now) }
{
    for p in parts.iter() {
        table.clear(p);
    }
}

/// Frees those of the partitions that aren't among the next ones. Takes no memory.
pub fn clear_all(table: &mut Table, parts: &PartSet, next: &PartSet)
    ensures cells { table.new.cells ≡ cells_cleared table.old.cells next.now (in_order parts.now) }
    ensures sizes { table.new.sizes ≡ table.old.sizes }
{
    for p in parts.iter() {
        if !next.contains(p) {
            table.clear(p);
        }
    }
}

/// Puts the cell for each of the partitions that has none. Takes no memory.
pub fn put_all(table: &mut Table, next: &PartSet, cell: &Cell)
    requires { AllByRecursion (HasRoom table.old.sizes) (in_order next.now) }
    ensures cells { table.new.cells ≡ cells_put table.old.cells cell.now (in_order next.now) }
    ensures sizes { table.new.sizes ≡ table.old.sizes }
{
    for p in next.iter() {
        put_if_free(table, p, cell);
    }
}

/// Puts the cell for a partition that has none.
fn put_if_free(table: &mut Table, p: &Partition, cell: &Cell)
    requires { HasRoom table.old.sizes p.now }
    ensures cells { table.new.cells ≡ put_where_free table.old.cells cell.now p.now }
    ensures sizes { table.new.sizes ≡ table.old.sizes }
{
    if table.get(p).is_none() {
        table.put(p, *cell);
    }
}
