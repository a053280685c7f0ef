//! Columns with one value in each row.

ghost use Rattle.std.specs.Prelude.{◌≡◌, IfOk, IfSome, Some, None, replicate, if◌then◌else◌};
ghost use Rattle.std.specs.Option.{option_map};
ghost use Rattle.gm_value.specs.declared.values.Value.TheVariants.{At};
ghost use Rattle.gm_value.specs.Numbers.{type_of};
ghost use Rattle.gm_columns.specs.Columns.{IsStorable};
ghost use Rattle.gm_columns.specs.Cells.{node_in};
ghost use Rattle.gm_kernels.specs.Typed.{is_storable};

use gm_base::NoMemory;
use gm_columns::{Column, TypedCells};
use gm_value::Value;
use std::alloc::Global;

// The cell that holds a node's index, or the greatest number for NIL.
pub(crate) fn cell_of(node: Option<u32>) -> u32
    requires { IsStorable (At node) }
    ensures { node_in result ≡ At node }
{
    node.unwrap_or(u32::MAX)
}

// The same number in each row.
fn ints(alloc: Global, cell: i32, rows: usize) -> Result<Vec<i32>, NoMemory>
    ensures { IfOk result (λ cells. cells.items ≡ replicate rows cell) }
{
    Ok(vec![in alloc; cell; rows]?)
}

// The same long number in each row.
fn longs(alloc: Global, cell: i64, rows: usize) -> Result<Vec<i64>, NoMemory>
    ensures { IfOk result (λ cells. cells.items ≡ replicate rows cell) }
{
    Ok(vec![in alloc; cell; rows]?)
}

// The same truth value in each row.
fn flags(alloc: Global, cell: bool, rows: usize) -> Result<Vec<bool>, NoMemory>
    ensures { IfOk result (λ cells. cells.items ≡ replicate rows cell) }
{
    Ok(vec![in alloc; cell; rows]?)
}

// The same node's cell in each row.
fn nodes(alloc: Global, cell: u32, rows: usize) -> Result<Vec<u32>, NoMemory>
    ensures { IfOk result (λ cells. cells.items ≡ replicate rows cell) }
{
    Ok(vec![in alloc; cell; rows]?)
}

/// A column with one value in each row.
pub fn constant(alloc: Global, value: Value, rows: usize) -> Result<Column, NoMemory>
    requires { IsStorable value }
    ensures values { IfOk result (λ column. column.values ≡ replicate rows value) }
    ensures vtype { IfOk result (λ column. column.vtype ≡ type_of value) }
{
    match value {
        Value::I32(cell) => Ok(Column::of(TypedCells::Ints(ints(alloc, cell, rows)?))),
        Value::I64(cell) => Ok(Column::of(TypedCells::Longs(longs(alloc, cell, rows)?))),
        Value::Flag(cell) => Ok(Column::of(TypedCells::Flags(flags(alloc, cell, rows)?))),
        Value::At(node) => Ok(Column::of(TypedCells::Nodes(nodes(alloc, cell_of(node), rows)?))),
    }
}

// Whether a value has a place in memory.
fn is_storable(value: Value) -> bool
    ensures { result ≡ is_storable value }
{
    value != Value::At(Some(u32::MAX))
}

/// A column with one value in each row, or nothing where the value has no place in memory.
pub fn constant_if(alloc: Global, value: Value, rows: usize) -> Result<Option<Column>, NoMemory>
    ensures vtype { IfOk result (λ given. option_map (λ column. column.vtype) given ≡ (if is_storable value then Some (type_of value) else None)) }
    ensures values { IfOk result (λ given. IfSome given (λ column. column.values ≡ replicate rows value)) }
{
    if is_storable(value) {
        Ok(Some(constant(alloc, value, rows)?))
    } else {
        Ok(None)
    }
}
