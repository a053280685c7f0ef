//! Values that rows fold onto their fields.

ghost use Rattle.std.specs.Prelude.{◌≡◌, ◌<◌, All, IfOk, IfSome, Some, length, replicate};
ghost use Rattle.gm_columns.specs.Cells.{values_of};
ghost use Rattle.gm_columns.specs.TypedRows.{typed_row};
ghost use Rattle.gm_kernels.specs.Folding.{folded_at};

use gm_base::NoMemory;
use gm_columns::{Cells, Column, TypedCells};
use gm_kernels::{fold_at, folds_into};
use gm_value::{Reduce, VType, Value};
use std::alloc::Global;

// The same number in each row.
fn ints(alloc: Global, cell: i32, rows: usize) -> Result<Vec<i32>, NoMemory>
    ensures { IfOk result (λ cells. cells.items ≡ replicate rows cell) }
{
    Ok(vec![in alloc; cell; rows]?)
}

// The same long number in each row.
fn longs(alloc: Global, cell: i64, rows: usize) -> Result<Vec<i64>, NoMemory>
    ensures { IfOk result (λ cells. cells.items ≡ replicate rows cell) }
{
    Ok(vec![in alloc; cell; rows]?)
}

// The same truth value in each row.
fn flags(alloc: Global, cell: bool, rows: usize) -> Result<Vec<bool>, NoMemory>
    ensures { IfOk result (λ cells. cells.items ≡ replicate rows cell) }
{
    Ok(vec![in alloc; cell; rows]?)
}

// The cells of one value in each row, one by one, where it is a number or a truth value.
fn filled(alloc: Global, value: Value, rows: usize) -> Result<Option<TypedCells>, NoMemory>
    ensures { IfOk result (λ got. IfSome got (λ cells. (typed_row cells).values ≡ replicate rows value)) }
{
    match value {
        Value::I32(cell) => Ok(Some(TypedCells::Ints(ints(alloc, cell, rows)?))),
        Value::I64(cell) => Ok(Some(TypedCells::Longs(longs(alloc, cell, rows)?))),
        Value::Flag(cell) => Ok(Some(TypedCells::Flags(flags(alloc, cell, rows)?))),
        Value::At(_) => Ok(None),
    }
}

// Cells of one type with the values of others, one by one, or nothing, where these may be of several types.
fn copied(alloc: Global, cells: &Cells) -> Result<Option<TypedCells>, NoMemory>
    ensures { IfOk result (λ got. IfSome got (λ typed. (typed_row typed).values ≡ values_of cells.now)) }
{
    match cells {
        Cells::Uniform { value, nodes } => filled(alloc, *value, *nodes),
        Cells::Ints(cells) => Ok(Some(TypedCells::Ints(Vec::from_slice(alloc, cells)?))),
        Cells::Longs(cells) => Ok(Some(TypedCells::Longs(Vec::from_slice(alloc, cells)?))),
        Cells::Flags(cells) => Ok(Some(TypedCells::Flags(Vec::from_slice(alloc, cells)?))),
        Cells::Nodes(cells) => Ok(Some(TypedCells::Nodes(Vec::from_slice(alloc, cells)?))),
        Cells::Mixed(_) => Ok(None),
    }
}

// The cells of a field with the same values.
fn stored(cells: TypedCells) -> Cells
    ensures { values_of result ≡ (typed_row cells).values }
{
    match cells {
        TypedCells::Ints(cells) => Cells::Ints(cells),
        TypedCells::Longs(cells) => Cells::Longs(cells),
        TypedCells::Flags(cells) => Cells::Flags(cells),
        TypedCells::Nodes(cells) => Cells::Nodes(cells),
    }
}

// The type of the values of cells.
fn vtype_of(cells: &TypedCells) -> VType
    ensures { result ≡ (typed_row cells.now).vtype }
{
    match cells {
        TypedCells::Ints(_) => VType::I32,
        TypedCells::Longs(_) => VType::I64,
        TypedCells::Flags(_) => VType::Flag,
        TypedCells::Nodes(_) => VType::Node,
    }
}

/// The cells of a field with the values of a column folded into those at some rows, one after another, or nothing, where a
/// result is out of range or columns cannot do it.
pub(crate) fn fold_rows(
    alloc: Global,
    reduce: Reduce,
    held: &Cells,
    rows: &[u32],
    column: &Column,
) -> Result<Option<Cells>, NoMemory>
    requires within { All (λ row. row < length (values_of held.now)) rows.now }
    requires rows { length column.now.values ≡ length rows.now }
    ensures { IfOk result (λ got. IfSome got (λ new. folded_at reduce (values_of held.now) rows.now column.now.values ≡ Some (values_of new))) }
{
    let Some(mut cells) = copied(alloc, held)? else {
        return Ok(None);
    };
    if !folds_into(reduce, vtype_of(&cells), column.vtype()) {
        return Ok(None);
    }
    if fold_at(reduce, &mut cells, rows, column) {
        return Ok(None);
    }
    Ok(Some(stored(cells)))
}
