//! The operations, called where they may be. A call that may not be ends the test.

ghost use Rattle.std.specs.Prelude.{◌<◌, All, IsTrue};
ghost use Rattle.gm_columns.specs.Columns.{IsStorable};

use gm_base::NoMemory;
use gm_columns::{Cells, Column, TypedCells};
use gm_kernels::{
    Parts, append, apply1, apply2, are_of, choose, constant, expand, flags_of, fold_at, folds_into,
    gather, gather_between, partition, pick, places_of, put_column, reduce,
};
use gm_value::{Op1, Op2, Reduce, VType, Value};
use std::alloc::Global;

/// What an operation gives on each value.
pub(crate) fn on_values(
    alloc: Global,
    op: Op1,
    column: &Column,
) -> Result<Option<Column>, NoMemory> {
    if !op.fits(column.vtype()) {
        return Err(NoMemory);
    }
    apply1(alloc, op, column)
}

/// What an operation gives on each pair of values.
pub(crate) fn on_pairs(
    alloc: Global,
    op: Op2,
    left: &Column,
    right: &Column,
) -> Result<Option<Column>, NoMemory> {
    if !op.fits(left.vtype(), right.vtype()) || left.len() != right.len() {
        return Err(NoMemory);
    }
    apply2(alloc, op, left, right)
}

/// Of each pair of values the one that the truth value beside them says.
pub(crate) fn chosen(
    alloc: Global,
    truths: &Column,
    yes: &Column,
    no: &Column,
) -> Result<Column, NoMemory> {
    if truths.vtype() != VType::Flag || yes.vtype() != no.vtype() {
        return Err(NoMemory);
    }
    let flags = flags_of(truths);
    if yes.len() != flags.len() || no.len() != flags.len() {
        return Err(NoMemory);
    }
    choose(alloc, flags, yes, no)
}

// Whether places are among so many.
fn are_within(places: &[u32], count: usize) -> bool
    ensures { IsTrue result → All (λ place. place < count) places.now }
{
    places.iter().all(|place| (*place as usize) < count)
}

/// The places where truth values are True.
pub(crate) fn places(alloc: Global, flags: &[bool]) -> Result<Vec<u32>, NoMemory> {
    if flags.len() >= 4294967296 {
        return Err(NoMemory);
    }
    places_of(alloc, flags)
}

/// Rows parted by the truth values beside them.
pub(crate) fn parted(alloc: Global, flags: &[bool], rows: &[u32]) -> Result<Parts, NoMemory> {
    if rows.len() != flags.len() {
        return Err(NoMemory);
    }
    partition(alloc, flags, rows)
}

/// The numbers at some rows of others.
pub(crate) fn picked(alloc: Global, numbers: &[u32], rows: &[u32]) -> Result<Vec<u32>, NoMemory> {
    if !are_within(rows, numbers.len()) {
        return Err(NoMemory);
    }
    pick(alloc, numbers, rows)
}

/// The values of cells at some nodes.
pub(crate) fn values_at(
    alloc: Global,
    cells: &Cells,
    nodes: &[u32],
) -> Result<Option<Column>, NoMemory> {
    if !are_within(nodes, cells.len()) {
        return Err(NoMemory);
    }
    gather(alloc, cells, nodes)
}

/// The values of cells at the nodes from one up to another.
pub(crate) fn values_between(
    alloc: Global,
    cells: &Cells,
    from: usize,
    to: usize,
) -> Result<Option<Column>, NoMemory> {
    if to < from || cells.len() < to {
        return Err(NoMemory);
    }
    gather_between(alloc, cells, from, to)
}

/// Cells after the values of a column were written at some nodes.
pub(crate) fn written(cells: Cells, nodes: &[u32], column: &Column) -> Result<Cells, NoMemory> {
    let mut cells = cells;
    if !are_of(&cells, column.vtype()) {
        return Err(NoMemory);
    }
    if !are_within(nodes, cells.len()) || column.len() != nodes.len() {
        return Err(NoMemory);
    }
    put_column(&mut cells, nodes, column);
    Ok(cells)
}

/// Numbers of 32 bits with a column behind them.
pub(crate) fn appended(rows: Vec<i32>, column: &Column) -> Result<TypedCells, NoMemory> {
    if column.vtype() != VType::I32 {
        return Err(NoMemory);
    }
    let mut rows = TypedCells::Ints(rows);
    append(&mut rows, column)?;
    Ok(rows)
}

/// Each value as often as the count beside it says.
pub(crate) fn expanded(alloc: Global, counts: &[u32], column: &Column) -> Result<Column, NoMemory> {
    if column.len() != counts.len() {
        return Err(NoMemory);
    }
    expand(alloc, counts, column)
}

/// Numbers of 32 bits after others were folded into those at places, or nothing where one was out of range.
pub(crate) fn folded_ints(
    alloc: Global,
    op: Reduce,
    cells: &[i32],
    places: &[u32],
    values: &Column,
) -> Result<Option<TypedCells>, NoMemory> {
    if !folds_into(op, VType::I32, values.vtype()) {
        return Err(NoMemory);
    }
    if !are_within(places, cells.len()) || values.len() != places.len() {
        return Err(NoMemory);
    }
    let mut cells = TypedCells::Ints(Vec::from_slice(alloc, cells)?);
    if fold_at(op, &mut cells, places, values) {
        return Ok(None);
    }
    Ok(Some(cells))
}

/// Numbers of 64 bits after others were folded into those at places, or nothing where one was out of range.
pub(crate) fn folded_longs(
    alloc: Global,
    op: Reduce,
    cells: &[i64],
    places: &[u32],
    values: &Column,
) -> Result<Option<TypedCells>, NoMemory> {
    if !folds_into(op, VType::I64, values.vtype()) {
        return Err(NoMemory);
    }
    if !are_within(places, cells.len()) || values.len() != places.len() {
        return Err(NoMemory);
    }
    let mut cells = TypedCells::Longs(Vec::from_slice(alloc, cells)?);
    if fold_at(op, &mut cells, places, values) {
        return Ok(None);
    }
    Ok(Some(cells))
}

// Whether a value has a place in memory.
fn is_storable(value: Value) -> bool
    ensures { IsTrue result → IsStorable value }
{
    match value {
        Value::At(Some(node)) => node < u32::MAX,
        _ => true,
    }
}

/// A column of one value.
pub(crate) fn constant_of(alloc: Global, value: Value, rows: usize) -> Result<Column, NoMemory> {
    if !is_storable(value) {
        return Err(NoMemory);
    }
    constant(alloc, value, rows)
}

/// A value with all of a column folded into it, or nothing where a result was out of range.
pub(crate) fn folded_all(
    op: Reduce,
    held: Value,
    column: &Column,
) -> Result<Option<Value>, NoMemory> {
    if !folds_into(op, held.type_of(), column.vtype()) || !is_storable(held) {
        return Err(NoMemory);
    }
    Ok(reduce(op, held, column))
}
