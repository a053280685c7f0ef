//! Values folded into what slots hold.

ghost use Rattle.std.specs.Prelude.{◌≡◌, ◌<◌, [], All, IsTrue, IfOk, IfSome, None, Some, length, map, replicate, slice_index_or, slice_set};
ghost use Rattle.gm_columns.specs.Cells.{values_of};
ghost use Rattle.gm_columns.specs.TypedRows.{typed_row};
ghost use Rattle.gm_batch_handlers.specs.Gifts.{Adds, IsBy, held_in, with_totals};

use crate::row_states::SlotTotal;
use gm_base::NoMemory;
use gm_columns::{Cells, Column, TypedCells};
use gm_kernels::{fold_at, folds_into};
use gm_value::{Reduce, VType, Value};
use std::alloc::Global;

// The same number in each row.
fn ints(alloc: Global, cell: i32, rows: usize) -> Result<Vec<i32>, NoMemory>
    ensures { IfOk result (λ cells. cells.items ≡ replicate rows cell) }
{
    Ok(vec![in alloc; cell; rows]?)
}

// The same long number in each row.
fn longs(alloc: Global, cell: i64, rows: usize) -> Result<Vec<i64>, NoMemory>
    ensures { IfOk result (λ cells. cells.items ≡ replicate rows cell) }
{
    Ok(vec![in alloc; cell; rows]?)
}

// The same truth value in each row.
fn flags(alloc: Global, cell: bool, rows: usize) -> Result<Vec<bool>, NoMemory>
    ensures { IfOk result (λ cells. cells.items ≡ replicate rows cell) }
{
    Ok(vec![in alloc; cell; rows]?)
}

// The cells of one value in each row, one by one, where it is a number or a truth value.
fn filled(alloc: Global, value: Value, rows: usize) -> Result<Option<TypedCells>, NoMemory>
    ensures { IfOk result (λ got. IfSome got (λ cells. (typed_row cells).values ≡ replicate rows value)) }
{
    match value {
        Value::I32(cell) => Ok(Some(TypedCells::Ints(ints(alloc, cell, rows)?))),
        Value::I64(cell) => Ok(Some(TypedCells::Longs(longs(alloc, cell, rows)?))),
        Value::Flag(cell) => Ok(Some(TypedCells::Flags(flags(alloc, cell, rows)?))),
        Value::At(_) => Ok(None),
    }
}

// Cells of one type with the values of others, one by one, or nothing, where these may be of several types.
fn copied(alloc: Global, cells: &Cells) -> Result<Option<TypedCells>, NoMemory>
    ensures { IfOk result (λ got. IfSome got (λ typed. (typed_row typed).values ≡ values_of cells.now)) }
{
    match cells {
        Cells::Uniform { value, nodes } => filled(alloc, *value, *nodes),
        Cells::Ints(cells) => Ok(Some(TypedCells::Ints(Vec::from_slice(alloc, cells)?))),
        Cells::Longs(cells) => Ok(Some(TypedCells::Longs(Vec::from_slice(alloc, cells)?))),
        Cells::Flags(cells) => Ok(Some(TypedCells::Flags(Vec::from_slice(alloc, cells)?))),
        Cells::Nodes(cells) => Ok(Some(TypedCells::Nodes(Vec::from_slice(alloc, cells)?))),
        Cells::Mixed(_) => Ok(None),
    }
}

// The cells of a field with the same values.
fn stored(cells: TypedCells) -> Cells
    ensures { values_of result ≡ (typed_row cells).values }
{
    match cells {
        TypedCells::Ints(cells) => Cells::Ints(cells),
        TypedCells::Longs(cells) => Cells::Longs(cells),
        TypedCells::Flags(cells) => Cells::Flags(cells),
        TypedCells::Nodes(cells) => Cells::Nodes(cells),
    }
}

// The type of the values of cells.
fn vtype_of(cells: &TypedCells) -> VType
    ensures { result ≡ (typed_row cells.now).vtype }
{
    match cells {
        TypedCells::Ints(_) => VType::I32,
        TypedCells::Longs(_) => VType::I64,
        TypedCells::Flags(_) => VType::Flag,
        TypedCells::Nodes(_) => VType::Node,
    }
}

// Whether a total is by a reduction and at a place of the image.
fn is_by(total: &SlotTotal, reduce: Reduce, place: u32) -> bool
    ensures { IsTrue result → IsBy reduce place (Some total.now) }
{
    total.reduce == reduce && total.place == place
}

// Folds values at places into what a slot holds, and answers whether that could be done.
fn add_more(reduce: Reduce, place: u32, total: &mut SlotTotal, at: &[u32], column: &Column) -> bool
    requires within { All (λ place. place < length (typed_row total.old.cells).values) at.now }
    requires rows { length column.now.values ≡ length at.now }
    ensures { IsTrue result → Adds reduce place (typed_row total.old.cells).values (Some total.old) at.now column.now.values (Some total.new) }
{
    if !is_by(total, reduce, place) {
        return false;
    }
    if !folds_into(reduce, vtype_of(&total.cells), column.vtype()) {
        return false;
    }
    !fold_at(reduce, &mut total.cells, at, column)
}

// Folds values at places into what a slot holds at first, and answers what it holds then, where that could be done.
fn add_first(
    alloc: Global,
    reduce: Reduce,
    place: u32,
    held: &Cells,
    at: &[u32],
    column: &Column,
) -> Result<Option<SlotTotal>, NoMemory>
    requires within { All (λ place. place < length (values_of held.now)) at.now }
    requires rows { length column.now.values ≡ length at.now }
    ensures { IfOk result (λ got. IfSome got (λ total. Adds reduce place (values_of held.now) None at.now column.now.values (Some total))) }
{
    let Some(mut cells) = copied(alloc, held)? else {
        return Ok(None);
    };
    if !folds_into(reduce, vtype_of(&cells), column.vtype()) {
        return Ok(None);
    }
    if fold_at(reduce, &mut cells, at, column) {
        return Ok(None);
    }
    Ok(Some(SlotTotal {
        reduce,
        place,
        cells,
    }))
}

/// Folds values at places into what a slot holds, each at the place beside it, by a reduction and at a place of the image. It
/// answers whether that could be done; if not, the total is to be given up.
pub(crate) fn add(
    alloc: Global,
    reduce: Reduce,
    place: u32,
    held: &Cells,
    total: &mut Option<SlotTotal>,
    at: &[u32],
    column: &Column,
) -> Result<bool, NoMemory>
    requires within { All (λ place. place < length (values_of held.now)) at.now }
    requires rows { length column.now.values ≡ length at.now }
    requires long { length (held_in (values_of held.now) total.old) ≡ length (values_of held.now) }
    ensures { IfOk result (λ done. IsTrue done → Adds reduce place (values_of held.now) total.old at.now column.now.values total.new) }
{
    if let Some(total) = total {
        return Ok(add_more(reduce, place, total, at, column));
    }
    let Some(first) = add_first(alloc, reduce, place, held, at, column)? else {
        return Ok(false);
    };
    *total = Some(first);
    Ok(true)
}

// Puts what a slot holds into its field, where something was folded into it.
fn store_one(fields: &mut Vec<Cells>, slot: usize, total: Option<SlotTotal>)
    requires { slot < length fields.old.items }
    ensures { map values_of fields.new.items ≡ slice_set (map values_of fields.old.items) slot (held_in (slice_index_or (map values_of fields.old.items) slot []) total) }
{
    match total {
        Some(total) => fields[slot] = stored(total.cells),
        None => {}
    }
}

/// Puts what slots hold into their fields.
pub(crate) fn store(fields: &mut Vec<Cells>, totals: Vec<Option<SlotTotal>>)
    requires { length totals.items ≡ length fields.old.items }
    ensures { map values_of fields.new.items ≡ with_totals (map values_of fields.old.items) totals.items }
{
    let mut totals = totals;
    'storing: while let Some(total) = totals.pop() {
        store_one(fields, totals.len(), total);
    }
}
