//! Columns put one behind another, and rows repeated.

ghost use Rattle.std.specs.Prelude.{◌≡◌, ◌++◌, IfOk, OnOk, OnErr, length, map, replicate};
ghost use Rattle.gm_columns.specs.TypedRows.{typed_row};
ghost use Rattle.gm_kernels.specs.Pointwise.{repeated};

use gm_base::NoMemory;
use gm_columns::{Column, TypedCells};
use std::alloc::Global;

/// Adds the rows of a column of the same type behind some rows. Where there is not enough memory they stay as they were.
pub fn append(rows: &mut TypedCells, column: &Column) -> Result<(), NoMemory>
    requires { column.now.vtype ≡ (typed_row rows.old).vtype }
    ensures vtype { (typed_row rows.new).vtype ≡ (typed_row rows.old).vtype }
    ensures values { OnOk result ((typed_row rows.new).values ≡ (typed_row rows.old).values ++ column.now.values) }
    ensures unchanged { OnErr result (typed_row rows.new ≡ typed_row rows.old) }
{
    match (rows, column.cells()) {
        (TypedCells::Ints(cells), TypedCells::Ints(more)) => cells.extend_from_slice(more)?,
        (TypedCells::Longs(cells), TypedCells::Longs(more)) => cells.extend_from_slice(more)?,
        (TypedCells::Flags(cells), TypedCells::Flags(more)) => cells.extend_from_slice(more)?,
        (TypedCells::Nodes(cells), TypedCells::Nodes(more)) => cells.extend_from_slice(more)?,
        _ => unreachable!(),
    }
    Ok(())
}

// Adds a cell so many times.
#[inline(always)]
fn push_copies<T: Copy>(out: &mut Vec<T>, cell: T, count: u32) -> Result<(), NoMemory>
    ensures { OnOk result (out.new.items ≡ out.old.items ++ replicate count cell) }
{
    for _copy in 0..count {
        out.push(cell)?;
    }
    Ok(())
}

// Each cell as often as the count beside it says.
#[inline(never)]
fn repeat_cells<T: Copy>(alloc: Global, counts: &[u32], cells: &[T]) -> Result<Vec<T>, NoMemory>
    requires { length cells.now ≡ length counts.now }
    ensures { IfOk result (λ row. row.items ≡ repeated counts.now cells.now) }
{
    let mut out = Vec::with_capacity(alloc, counts.len())?;
    let rows = counts.len();
    for row in 0..rows {
        push_copies(&mut out, cells[row], counts[row])?;
    }
    Ok(out)
}

/// Each value of a column as often as the count of its row says, in a column.
#[tactic(auto, using(crate::proofs::Repeating::repeated_values))]
pub fn expand(alloc: Global, counts: &[u32], column: &Column) -> Result<Column, NoMemory>
    requires { length column.now.values ≡ length counts.now }
    ensures values { IfOk result (λ expanded. expanded.values ≡ repeated counts.now column.now.values) }
    ensures vtype { IfOk result (λ expanded. expanded.vtype ≡ column.now.vtype) }
{
    match column.cells() {
        TypedCells::Ints(cells) => Ok(Column::of(TypedCells::Ints(repeat_cells(
            alloc, counts, cells,
        )?))),
        TypedCells::Longs(cells) => Ok(Column::of(TypedCells::Longs(repeat_cells(
            alloc, counts, cells,
        )?))),
        TypedCells::Flags(cells) => Ok(Column::of(TypedCells::Flags(repeat_cells(
            alloc, counts, cells,
        )?))),
        TypedCells::Nodes(cells) => Ok(Column::of(TypedCells::Nodes(repeat_cells(
            alloc, counts, cells,
        )?))),
    }
}
