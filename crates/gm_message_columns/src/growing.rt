//! Columns that grow by the rows of others.

ghost use Rattle.std.specs.Prelude.{◌≡◌, ◌<◌, ◌++◌, All, IsTrue, IfOk, OnOk, length, map, slice_index};
ghost use Rattle.gm_message_columns.specs.MessageTables.{all_values, emptied, joined, picked_rows, row_values, types_of, values_in_row};

use gm_base::NoMemory;
use gm_columns::Column;
use gm_value::Value;
use std::alloc::Global;

/// Whether columns have the types of others, one by one.
pub(crate) fn same_types(columns: &[Column], others: &[Column]) -> bool
    ensures { IsTrue result → types_of columns.now ≡ types_of others.now }
{
    let count = columns.len();
    if others.len() != count {
        return false;
    }
    for k in 0..count {
        if columns[k].vtype() != others[k].vtype() {
            return false;
        }
    }
    true
}

/// Columns of the types of others, with no row.
pub(crate) fn empty_columns(alloc: Global, others: &[Column]) -> Result<Vec<Column>, NoMemory>
    ensures { IfOk result (λ columns. columns.items ≡ emptied others.now) }
{
    let mut columns = Vec::with_capacity(alloc, others.len())?;
    for other in others {
        columns.push(Column::new(alloc, other.vtype()))?;
    }
    Ok(columns)
}

/// Puts a row of others of the same types behind columns. Where there is not enough memory some of them may have one more
/// row than others.
#[inline(always)]
pub(crate) fn push_row(
    columns: &mut Vec<Column>,
    others: &[Column],
    row: usize,
) -> Result<(), NoMemory>
    requires types { types_of columns.old.items ≡ types_of others.now }
    requires row { All (λ column. row < length column.values) others.now }
    ensures { OnOk result (columns.new.items ≡ joined columns.old.items (values_in_row others.now row)) }
{
    let count = columns.len();
    for k in 0..count {
        columns[k].push(others[k].get(row))?;
    }
    Ok(())
}

// Puts all rows of a column of the same type behind a column.
fn append_column(column: &mut Column, other: &Column) -> Result<(), NoMemory>
    requires { column.old.vtype ≡ other.now.vtype }
    ensures vtype { column.new.vtype ≡ column.old.vtype }
    ensures added { OnOk result (column.new.values ≡ column.old.values ++ other.now.values) }
{
    let rows = other.len();
    for row in 0..rows {
        column.push(other.get(row))?;
    }
    Ok(())
}

/// Puts all rows of others of the same types behind columns. Where there is not enough memory some of them may have more
/// rows than others.
pub(crate) fn append_columns(columns: &mut Vec<Column>, others: &[Column]) -> Result<(), NoMemory>
    requires { types_of columns.old.items ≡ types_of others.now }
    ensures { OnOk result (columns.new.items ≡ joined columns.old.items (all_values others.now)) }
{
    let count = columns.len();
    for k in 0..count {
        append_column(&mut columns[k], &others[k])?;
    }
    Ok(())
}

/// Columns of the same types with some of the rows of others, in an order.
pub(crate) fn picked_columns(
    alloc: Global,
    others: &[Column],
    rows: &[u32],
) -> Result<Vec<Column>, NoMemory>
    requires { All (λ column. All (λ row. row < length column.values) rows.now) others.now }
    ensures { IfOk result (λ columns. columns.items ≡ picked_rows others.now rows.now) }
{
    let mut columns = Vec::with_capacity(alloc, others.len())?;
    for other in others {
        columns.push(other.picked(alloc, rows)?)?;
    }
    Ok(columns)
}

/// The nodes in some rows, in an order.
pub(crate) fn picked_nodes(alloc: Global, nodes: &[u32], rows: &[u32]) -> Result<Vec<u32>, NoMemory>
    requires { All (λ row. row < length nodes.now) rows.now }
    ensures { IfOk result (λ picked. picked.items ≡ map (slice_index nodes.now) rows.now) }
{
    let mut picked = Vec::with_capacity(alloc, rows.len())?;
    for row in rows {
        picked.push(nodes[*row as usize])?;
    }
    Ok(picked)
}

/// Puts the values in a row of columns into a list.
pub(crate) fn load_row(
    columns: &[Column],
    row: usize,
    into: &mut Vec<Value>,
) -> Result<(), NoMemory>
    requires { All (λ column. row < length column.values) columns.now }
    ensures { OnOk result (into.new.items ≡ row_values columns.now row) }
{
    into.clear();
    for column in columns {
        into.push(column.get(row))?;
    }
    Ok(())
}
