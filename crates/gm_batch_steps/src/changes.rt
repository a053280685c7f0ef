//! Values that rows get.

ghost use Rattle.std.specs.Prelude.{◌≡◌, ◌<◌, [], All, IfOk, OnOk, IfSome, length, map, slice_index_or, slice_set};
ghost use Rattle.gm_value.specs.declared.values.Value as V;
ghost use Rattle.gm_columns.specs.Cells.{values_of};
ghost use Rattle.gm_kernels.specs.Pointwise.{written_at};

use gm_base::NoMemory;
use gm_columns::{Cells, Column, TypedCells};
use gm_kernels::{are_of, put_column};
use std::alloc::Global;

// Writes the values of a column at some rows of cells of any type, one after another.
fn set_rows(alloc: Global, cells: &mut Cells, rows: &[u32], column: &Column) -> Result<(), NoMemory>
    requires within { All (λ row. row < length (values_of cells.old)) rows.now }
    requires rows { length column.now.values ≡ length rows.now }
    ensures { OnOk result (values_of cells.new ≡ written_at (values_of cells.old) rows.now column.now.values) }
{
    let count = rows.len();
    for i in 0..count {
        cells.set(alloc, rows[i] as usize, column.get(i))?;
    }
    Ok(())
}

// Writes the values of a column at some rows, one after another.
fn write_rows(
    alloc: Global,
    cells: &mut Cells,
    rows: &[u32],
    column: &Column,
) -> Result<(), NoMemory>
    requires within { All (λ row. row < length (values_of cells.old)) rows.now }
    requires rows { length column.now.values ≡ length rows.now }
    ensures { OnOk result (values_of cells.new ≡ written_at (values_of cells.old) rows.now column.now.values) }
{
    if are_of(cells, column.vtype()) {
        put_column(cells, rows, column);
        Ok(())
    } else {
        set_rows(alloc, cells, rows, column)
    }
}

/// Writes the values of a column into a field at some rows. A field that there is not changes nothing.
pub(crate) fn write_field(
    alloc: Global,
    field: u32,
    rows: &[u32],
    column: &Column,
    fields: &mut Vec<Cells>,
) -> Result<(), NoMemory>
    requires within { All (λ cells. All (λ row. row < length (values_of cells)) rows.now) fields.old.items }
    requires rows { length column.now.values ≡ length rows.now }
    ensures { OnOk result (map values_of fields.new.items
        ≡ slice_set (map values_of fields.old.items) field (written_at (slice_index_or (map values_of fields.old.items) field []) rows.now column.now.values)) }
{
    let field = field as usize;
    if field < fields.len() {
        let cells = &mut fields[field];
        write_rows(alloc, cells, rows, column)?;
    }
    Ok(())
}

// Cells with others written at some rows, one after another.
fn written_cells<T: Copy>(
    alloc: Global,
    held: &[T],
    rows: &[u32],
    values: &[T],
) -> Result<Vec<T>, NoMemory>
    requires within { All (λ row. row < length held.now) rows.now }
    requires rows { length values.now ≡ length rows.now }
    ensures { IfOk result (λ cells. cells.items ≡ written_at held.now rows.now values.now) }
{
    let mut cells = Vec::from_slice(alloc, held)?;
    let count = rows.len();
    for i in 0..count {
        cells[rows[i] as usize] = values[i];
    }
    Ok(cells)
}

/// A column with the values of another of its type written at some rows, one after another, or nothing, where the types
/// differ.
pub(crate) fn written(
    alloc: Global,
    held: &Column,
    rows: &[u32],
    column: &Column,
) -> Result<Option<Column>, NoMemory>
    requires within { All (λ row. row < length held.now.values) rows.now }
    requires rows { length column.now.values ≡ length rows.now }
    ensures { IfOk result (λ got. IfSome got (λ new. new.values ≡ written_at held.now.values rows.now column.now.values)) }
{
    let cells = match (held.cells(), column.cells()) {
        (TypedCells::Ints(held), TypedCells::Ints(values)) => TypedCells::Ints(written_cells(
            alloc, held, rows, values,
        )?),
        (TypedCells::Longs(held), TypedCells::Longs(values)) => TypedCells::Longs(written_cells(
            alloc, held, rows, values,
        )?),
        (TypedCells::Flags(held), TypedCells::Flags(values)) => TypedCells::Flags(written_cells(
            alloc, held, rows, values,
        )?),
        (TypedCells::Nodes(held), TypedCells::Nodes(values)) => TypedCells::Nodes(written_cells(
            alloc, held, rows, values,
        )?),
        _ => return Ok(None),
    };
    Ok(Some(Column::of(cells)))
}
