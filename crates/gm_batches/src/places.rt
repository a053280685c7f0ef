//! Values read at the places of rows.

ghost use Rattle.std.specs.Prelude.{◌≡◌, ◌<◌, ◌≤◌, ◌+◌, IfOk, All, Some, length, map, slice_index_or};
ghost use Rattle.gm_columns.specs.Cells.{values_of};
ghost use Rattle.gm_kernels.specs.Typed.{column_type};
ghost use Rattle.gm_machine.specs.Expressions.{value_at};
ghost use Rattle.gm_batches.specs.NodeBatches.{AreRows, AreWithin, HasPlaces, HasRows, IsBatch, place_at, row_count, rows_in};
ghost use Rattle.gm_batches.specs.declared.node_batches.Rows.TheVariants as rows;
ghost use Rattle.gm_batches.specs.ValuesIn.{IsColumn};

use crate::node_batches::{NodeBatch, Places, Rows};
use gm_base::NoMemory;
use gm_columns::{Cells, Column};
use gm_kernels::{copy, gather, gather_between, pick};
use std::alloc::Global;

/// How many rows some rows of a batch are.
pub(crate) fn count_rows(batch: &NodeBatch, rows: Rows) -> usize
    ensures { result ≡ length (rows_in batch.now rows.entry) }
{
    match rows {
        Rows::All => batch.nodes.len(),
        Rows::At(rows) => rows.len(),
    }
}

/// The nodes of some rows.
pub(crate) fn nodes_of(alloc: Global, batch: &NodeBatch, rows: Rows) -> Result<Vec<u32>, NoMemory>
    requires { AreRows batch.now rows }
    ensures { IfOk result (λ nodes. nodes.items ≡ map (λ row. slice_index_or batch.now.nodes.now row 0) (rows_in batch.now rows.entry)) }
{
    match rows {
        Rows::All => Ok(Vec::from_slice(alloc, batch.nodes)?),
        Rows::At(rows) => pick(alloc, batch.nodes, rows),
    }
}

/// The values of a column in some rows.
pub(crate) fn rows_of(
    alloc: Global,
    column: &Column,
    batch: &NodeBatch,
    rows: Rows,
) -> Result<Column, NoMemory>
    requires column { HasRows (row_count batch.now) column.now }
    requires rows { AreRows batch.now rows }
    ensures vtype { IfOk result (λ got. got.vtype ≡ column.now.vtype) }
    ensures values { IfOk result (λ got. got.values ≡ map (λ row. value_at column.now.values row) (rows_in batch.now rows.entry)) }
{
    match rows {
        Rows::All => copy(alloc, column),
        Rows::At(rows) => column.picked(alloc, rows),
    }
}

// Numbers, each with another added.
fn shift(alloc: Global, from: u32, rows: &[u32]) -> Result<Vec<u32>, NoMemory>
    requires { All (λ row. from + row < 4294967296) rows.now }
    ensures { IfOk result (λ shifted. shifted.items ≡ map (λ row. from + row) rows.now) }
{
    let mut shifted = Vec::with_capacity(alloc, rows.len())?;
    let count = rows.len();
    for row in 0..count {
        shifted.push(from + rows[row])?;
    }
    Ok(shifted)
}

// The values of cells at the places of the rows of some numbers.
fn cells_at(
    alloc: Global,
    cells: &Cells,
    batch: &NodeBatch,
    rows: &[u32],
) -> Result<Option<Column>, NoMemory>
    requires places { HasPlaces (row_count batch.now) batch.now.places }
    requires within { AreWithin batch.now.places cells.now }
    requires rows { All (λ row. row < row_count batch.now) rows.now }
    ensures { IfOk result (IsColumn (column_type cells.now) (Some (map (λ row. value_at (values_of cells.now) (place_at batch.now.places row)) rows.now))) }
{
    match batch.places {
        Places::Between { from, .. } => gather(alloc, cells, &shift(alloc, from, rows)?),
        Places::At(numbers) => gather(alloc, cells, &pick(alloc, numbers, rows)?),
    }
}

// The values of cells at the places of all rows.
fn cells_of_all(alloc: Global, cells: &Cells, batch: &NodeBatch) -> Result<Option<Column>, NoMemory>
    requires places { HasPlaces (row_count batch.now) batch.now.places }
    requires within { AreWithin batch.now.places cells.now }
    ensures { IfOk result (IsColumn (column_type cells.now) (Some (map (λ row. value_at (values_of cells.now) (place_at batch.now.places row)) (rows_in batch.now rows.All)))) }
{
    match batch.places {
        Places::Between { from, to } => gather_between(alloc, cells, from as usize, to as usize),
        Places::At(numbers) => gather(alloc, cells, numbers),
    }
}

/// The values of cells at the places of some rows, in a column, where they are of one type.
pub(crate) fn cells_of(
    alloc: Global,
    cells: &Cells,
    batch: &NodeBatch,
    rows: Rows,
) -> Result<Option<Column>, NoMemory>
    requires batch { IsBatch batch.now }
    requires within { AreWithin batch.now.places cells.now }
    requires rows { AreRows batch.now rows }
    ensures { IfOk result (IsColumn (column_type cells.now) (Some (map (λ row. value_at (values_of cells.now) (place_at batch.now.places row)) (rows_in batch.now rows.entry)))) }
{
    match rows {
        Rows::All => cells_of_all(alloc, cells, batch),
        Rows::At(rows) => cells_at(alloc, cells, batch, rows),
    }
}
