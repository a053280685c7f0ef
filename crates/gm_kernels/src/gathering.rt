//! Columns read from cells at some nodes.

ghost use Rattle.std.specs.Prelude.{ℕ, ◌≡◌, ◌<◌, ◌≤◌, All, IfOk, IfSome, length, map, slice_index_or, slice_range};
ghost use Rattle.std.specs.Option.{option_map};
ghost use Rattle.gm_value.specs.declared.values.Value.{Value as AnyValue};
ghost use Rattle.gm_columns.specs.Cells.{values_of};
ghost use Rattle.gm_kernels.specs.Typed.{column_type};

use crate::constants::constant_if;
use gm_base::NoMemory;
use gm_columns::{Cells, Column, TypedCells};
use std::alloc::Global;

// Reads the cells at some places.
#[inline(always)]
fn read_at<T: Copy>(cells: &[T], places: &[u32], out: &mut [T])
    requires within { All (λ place. place < length cells.now) places.now }
    requires rows { length out.old ≡ length places.now }
    ensures cells { (d : T) → out.new ≡ map (λ place. slice_index_or cells.now place d) places.now }
    ensures rows { length out.new ≡ length out.old }
{
    let rows = places.len();
    for row in 0..rows {
        out[row] = cells[places[row] as usize];
    }
}

// The cells at some places, one after another.
#[inline(never)]
fn cells_at<T: Copy>(
    alloc: Global,
    blank: T,
    cells: &[T],
    places: &[u32],
) -> Result<Vec<T>, NoMemory>
    requires { All (λ place. place < length cells.now) places.now }
    ensures { IfOk result (λ row. (d : T) → row.items ≡ map (λ place. slice_index_or cells.now place d) places.now) }
{
    let mut out = vec![in alloc; blank; places.len()]?;
    read_at(cells, places, &mut out);
    Ok(out)
}

/// The numbers at some rows of others, one after another.
pub fn pick(alloc: Global, numbers: &[u32], rows: &[u32]) -> Result<Vec<u32>, NoMemory>
    requires { All (λ row. row < length numbers.now) rows.now }
    ensures { IfOk result (λ picked. (d : ℕ) → picked.items ≡ map (λ row. slice_index_or numbers.now row d) rows.now) }
{
    cells_at(alloc, 0, numbers, rows)
}

// The cells from one place up to another.
fn cells_between<T: Copy>(
    alloc: Global,
    cells: &[T],
    from: usize,
    to: usize,
) -> Result<Vec<T>, NoMemory>
    requires ordered { from ≤ to }
    requires within { to ≤ length cells.now }
    ensures { IfOk result (λ row. row.items ≡ slice_range cells.now from to) }
{
    Ok(Vec::from_slice(alloc, &cells[from..to])?)
}

/// A copy of a column.
pub fn copy(alloc: Global, column: &Column) -> Result<Column, NoMemory>
    ensures { IfOk result (λ copy. copy ≡ column.now) }
{
    match column.cells() {
        TypedCells::Ints(cells) => Ok(Column::of(TypedCells::Ints(Vec::from_slice(alloc, cells)?))),
        TypedCells::Longs(cells) => Ok(Column::of(TypedCells::Longs(Vec::from_slice(
            alloc, cells,
        )?))),
        TypedCells::Flags(cells) => Ok(Column::of(TypedCells::Flags(Vec::from_slice(
            alloc, cells,
        )?))),
        TypedCells::Nodes(cells) => Ok(Column::of(TypedCells::Nodes(Vec::from_slice(
            alloc, cells,
        )?))),
    }
}

/// The values of cells at some nodes, one after another, in a column, or nothing where the cells have no column: they hold
/// values one by one that may be of several types, or for all nodes a node that has no place in memory.
pub fn gather(alloc: Global, cells: &Cells, nodes: &[u32]) -> Result<Option<Column>, NoMemory>
    requires { All (λ node. node < length (values_of cells.now)) nodes.now }
    ensures vtype { IfOk result (λ given. option_map (λ column. column.vtype) given ≡ column_type cells.now) }
    ensures values { IfOk result (λ given. IfSome given (λ column. (d : AnyValue)
        → column.values ≡ map (λ node. slice_index_or (values_of cells.now) node d) nodes.now)) }
{
    match cells {
        Cells::Uniform { value, .. } => constant_if(alloc, *value, nodes.len()),
        Cells::Ints(cells) => Ok(Some(Column::of(TypedCells::Ints(cells_at(
            alloc, 0, cells, nodes,
        )?)))),
        Cells::Longs(cells) => Ok(Some(Column::of(TypedCells::Longs(cells_at(
            alloc, 0, cells, nodes,
        )?)))),
        Cells::Flags(cells) => Ok(Some(Column::of(TypedCells::Flags(cells_at(
            alloc, false, cells, nodes,
        )?)))),
        Cells::Nodes(cells) => Ok(Some(Column::of(TypedCells::Nodes(cells_at(
            alloc, 0, cells, nodes,
        )?)))),
        Cells::Mixed(_) => Ok(None),
    }
}

/// The values of cells at the nodes from one up to another, in a column, or nothing where the cells have no column, as for
/// [`gather`]. It copies a part of the cells.
pub fn gather_between(
    alloc: Global,
    cells: &Cells,
    from: usize,
    to: usize,
) -> Result<Option<Column>, NoMemory>
    requires ordered { from ≤ to }
    requires within { to ≤ length (values_of cells.now) }
    ensures vtype { IfOk result (λ given. option_map (λ column. column.vtype) given ≡ column_type cells.now) }
    ensures values { IfOk result (λ given. IfSome given (λ column. column.values ≡ slice_range (values_of cells.now) from to)) }
{
    match cells {
        Cells::Uniform { value, .. } => constant_if(alloc, *value, to - from),
        Cells::Ints(cells) => Ok(Some(Column::of(TypedCells::Ints(cells_between(
            alloc, cells, from, to,
        )?)))),
        Cells::Longs(cells) => Ok(Some(Column::of(TypedCells::Longs(cells_between(
            alloc, cells, from, to,
        )?)))),
        Cells::Flags(cells) => Ok(Some(Column::of(TypedCells::Flags(cells_between(
            alloc, cells, from, to,
        )?)))),
        Cells::Nodes(cells) => Ok(Some(Column::of(TypedCells::Nodes(cells_between(
            alloc, cells, from, to,
        )?)))),
        Cells::Mixed(_) => Ok(None),
    }
}
