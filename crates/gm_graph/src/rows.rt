//! Node columns, spread out over all nodes.

ghost use Rattle.std.specs.Prelude.{◌≡◌, ◌<◌, ◌≤◌, ℕ, All, AllPairs, Contains, IfOk, length, map, slice_index, vec_len};
ghost use Rattle.std.specs.List.Sorted.{IsStrictlyIncreasing};
ghost use Rattle.gm_columns.specs.Columns.{CanHold};
ghost use Rattle.gm_graph.specs.Spreads.{IsRowOf, HasRow, value_in};

use crate::node_numbers::NodeNumbers;
use crate::numberings::Numbering;
use gm_base::NoMemory;
use gm_columns::Column;
use gm_value::Value;
use std::alloc::Global;

// The row of a node that has none.
const NO_ROW: u32 = u32::MAX;

// The row of each node, by index, in columns whose rows belong to the numbers of `extra`.
pub(crate) fn rows_of(
    alloc: Global,
    numbers: &Numbering,
    extra: &NodeNumbers,
) -> Result<Vec<u32>, NoMemory>
    requires ascending { IsStrictlyIncreasing numbers.now }
    requires few_rows { length extra.now ≤ 2147483647 }
    requires known { All (Contains numbers.now) extra.now }
    ensures len { IfOk result (λ rows. vec_len rows ≡ length numbers.now) }
    ensures rows { IfOk result (λ rows. (k : ℕ) → k < length numbers.now
        → IsRowOf extra.now (length extra.now) (slice_index numbers.now k) (slice_index rows.items k)) }
{
    let mut rows = vec![in alloc; NO_ROW; numbers.len()]?;
    for row in 0..extra.len() {
        let node = numbers.index_of(extra.get(row));
        rows[node as usize] = row as u32;
    }
    Ok(rows)
}

// A column's value in a row, or the first value of its type where there is no row.
fn value_in(column: &Column, row: u32) -> Value
    requires { HasRow (length column.now.values) row }
    ensures value { result ≡ value_in column.now row }
    ensures held { CanHold column.now.vtype result }
{
    if row == NO_ROW {
        column.vtype().zero()
    } else {
        column.get(row as usize)
    }
}

// A column's values in some rows.
fn spread(alloc: Global, rows: &[u32], column: &Column) -> Result<Column, NoMemory>
    requires { All (HasRow (length column.now.values)) rows.now }
    ensures vtype { IfOk result (λ spread. spread.vtype ≡ column.now.vtype) }
    ensures values { IfOk result (λ spread. spread.values ≡ map (value_in column.now) rows.now) }
{
    let mut spread = Column::new(alloc, column.vtype());
    for row in rows {
        spread.push(value_in(column, *row))?;
    }
    Ok(spread)
}

// Several columns' values in some rows.
pub(crate) fn spread_all(
    alloc: Global,
    rows: &[u32],
    columns: &[Column],
) -> Result<Vec<Column>, NoMemory>
    requires { All (λ c. All (HasRow (length c.values)) rows.now) columns.now }
    ensures values { IfOk result (λ spread. map (λ c. c.values) spread.items
        ≡ map (λ c. map (value_in c) rows.now) columns.now) }
{
    let mut all = Vec::with_capacity(alloc, columns.len())?;
    for column in columns {
        all.push(spread(alloc, rows, column)?)?;
    }
    Ok(all)
}
