//! A column folded into one value by a reduction.

ghost use Rattle.std.specs.Prelude.{◌≡◌, IsTrue, map};
ghost use Rattle.std.specs.Option.{option_map};
ghost use Rattle.gm_value.specs.declared.values.Value.TheVariants.{I32, I64, Flag};
ghost use Rattle.gm_value.specs.declared.values.VType.TheVariants.{I32 as Int, I64 as Long, Flag as Truth, Node};
ghost use Rattle.gm_value.specs.Numbers.{type_of};
ghost use Rattle.gm_columns.specs.Columns.{IsStorable};
ghost use Rattle.gm_columns.specs.Cells.{node_in};
ghost use Rattle.gm_kernels.specs.Folding.{folded_all, folds_into};

use crate::constants::cell_of;
use crate::foldings::{Both, Either, Folding, Greatest, Least, Products, Sums};
use gm_columns::{Column, TypedCells};
use gm_value::{Reduce, Value};

// A held cell with all of some cells folded into it, one after another, unless a result was out of range on the way.
#[inline(always)]
fn reduce_cells<T: Copy, V: Copy, O: Folding<T, V>>(held: T, cells: &[V]) -> Option<T>
    ensures { option_map O.to result ≡ folded_all O.op (O.to held) (map O.from cells.now) }
{
    let rows = cells.len();
    let mut total = held;
    let mut faults = false;
    for row in 0..rows {
        let (next, fault) = O::fold(total, cells[row]);
        total = next;
        faults |= fault;
    }
    if faults { None } else { Some(total) }
}

// All of some numbers of 32 bits folded into a held one.
fn reduce_ints(op: Reduce, held: i32, cells: &[i32]) -> Option<i32>
    requires { IsTrue (folds_into op Int Int) }
    ensures { option_map (λ z. I32 z) result ≡ folded_all op (I32 held) (map (λ z. I32 z) cells.now) }
{
    match op {
        Reduce::Sum => reduce_cells::<i32, i32, Sums>(held, cells),
        Reduce::Product => reduce_cells::<i32, i32, Products>(held, cells),
        Reduce::Min => reduce_cells::<i32, i32, Least>(held, cells),
        Reduce::Max => reduce_cells::<i32, i32, Greatest>(held, cells),
        _ => unreachable!(),
    }
}

// All of some numbers of 64 bits folded into a held one.
fn reduce_longs(op: Reduce, held: i64, cells: &[i64]) -> Option<i64>
    requires { IsTrue (folds_into op Long Long) }
    ensures { option_map (λ z. I64 z) result ≡ folded_all op (I64 held) (map (λ z. I64 z) cells.now) }
{
    match op {
        Reduce::Sum => reduce_cells::<i64, i64, Sums>(held, cells),
        Reduce::Product => reduce_cells::<i64, i64, Products>(held, cells),
        Reduce::Min => reduce_cells::<i64, i64, Least>(held, cells),
        Reduce::Max => reduce_cells::<i64, i64, Greatest>(held, cells),
        _ => unreachable!(),
    }
}

// All of some numbers of 32 bits folded into a held sum of 64.
fn reduce_widened(op: Reduce, held: i64, cells: &[i32]) -> Option<i64>
    requires { IsTrue (folds_into op Long Int) }
    ensures { option_map (λ z. I64 z) result ≡ folded_all op (I64 held) (map (λ z. I32 z) cells.now) }
{
    match op {
        Reduce::Sum => reduce_cells::<i64, i32, Sums>(held, cells),
        _ => unreachable!(),
    }
}

// All of some truth values folded into a held one.
fn reduce_flags(op: Reduce, held: bool, cells: &[bool]) -> Option<bool>
    requires { IsTrue (folds_into op Truth Truth) }
    ensures { option_map (λ b. Flag b) result ≡ folded_all op (Flag held) (map (λ b. Flag b) cells.now) }
{
    match op {
        Reduce::And => reduce_cells::<bool, bool, Both>(held, cells),
        Reduce::Or => reduce_cells::<bool, bool, Either>(held, cells),
        _ => unreachable!(),
    }
}

// All of some nodes folded into a held one.
fn reduce_nodes(op: Reduce, held: u32, cells: &[u32]) -> Option<u32>
    requires { IsTrue (folds_into op Node Node) }
    ensures { option_map node_in result ≡ folded_all op (node_in held) (map node_in cells.now) }
{
    match op {
        Reduce::Max => reduce_cells::<u32, u32, Greatest>(held, cells),
        _ => unreachable!(),
    }
}

// Found cells as values, if there are some.
fn of_int(found: Option<i32>) -> Option<Value>
    ensures { result ≡ option_map (λ z. I32 z) found }
{
    match found {
        Some(cell) => Some(Value::I32(cell)),
        None => None,
    }
}

fn of_long(found: Option<i64>) -> Option<Value>
    ensures { result ≡ option_map (λ z. I64 z) found }
{
    match found {
        Some(cell) => Some(Value::I64(cell)),
        None => None,
    }
}

fn of_flag(found: Option<bool>) -> Option<Value>
    ensures { result ≡ option_map (λ b. Flag b) found }
{
    match found {
        Some(cell) => Some(Value::Flag(cell)),
        None => None,
    }
}

fn of_node(found: Option<u32>) -> Option<Value>
    ensures { result ≡ option_map node_in found }
{
    match found {
        Some(cell) if cell < u32::MAX => Some(Value::At(Some(cell))),
        Some(_) => Some(Value::At(None)),
        None => None,
    }
}

/// A held value with all values of a column folded into it, one after another, or nothing where a result was out of the
/// range of the held value's type on the way.
pub fn reduce(op: Reduce, held: Value, column: &Column) -> Option<Value>
    requires fits { IsTrue (folds_into op (type_of held) column.now.vtype) }
    requires storable { IsStorable held }
    ensures { result ≡ folded_all op held column.now.values }
{
    match (held, column.cells()) {
        (Value::I32(held), TypedCells::Ints(cells)) => of_int(reduce_ints(op, held, cells)),
        (Value::I64(held), TypedCells::Longs(cells)) => of_long(reduce_longs(op, held, cells)),
        (Value::I64(held), TypedCells::Ints(cells)) => of_long(reduce_widened(op, held, cells)),
        (Value::Flag(held), TypedCells::Flags(cells)) => of_flag(reduce_flags(op, held, cells)),
        (Value::At(held), TypedCells::Nodes(cells)) => of_node(reduce_nodes(
            op,
            cell_of(held),
            cells,
        )),
        _ => unreachable!(),
    }
}
