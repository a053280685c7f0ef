//! Operations on columns, value by value.

ghost use Rattle.std.specs.Prelude.{◌≡◌, ◌<◌, IsTrue, IfOk, IfSome, length, map, replicate, Option};
ghost use Rattle.std.specs.Option.{option_map};
ghost use Rattle.gm_value.specs.declared.values.VType.TheVariants.{I32 as Int, I64 as Long, Flag as Truth, Node};
ghost use Rattle.gm_value.specs.declared.values.Value.TheVariants.{I32, I64, Flag};
ghost use Rattle.gm_value.specs.Numbers.{type_of};
ghost use Rattle.gm_value.specs.Operations.{fits1, fits2, type1, type2};
ghost use Rattle.gm_columns.specs.Cells.{node_in};
ghost use Rattle.gm_kernels.specs.Pointwise.{applied1, applied2};

use crate::cellwise::{Narrowed, Negatives, Opposites, Widened, each};
use crate::pairwise::{
    AtLeast, AtMost, Differences, Equal, Greater, Less, Products, Quotients, Remainders, Sums,
    Unequal, pairs,
};
use gm_base::NoMemory;
use gm_columns::{Column, TypedCells};
use gm_value::{Op1, Op2};
use std::alloc::Global;

// A column of numbers of 32 bits, if there is one.
fn of_ints(row: Option<Vec<i32>>) -> Option<Column>
    ensures values { option_map (λ column. column.values) result ≡ option_map (λ cells. map (λ z. I32 z) cells.items) row }
    ensures vtype { IfSome result (λ column. column.vtype ≡ Int) }
{
    match row {
        Some(cells) => Some(Column::of(TypedCells::Ints(cells))),
        None => None,
    }
}

// A column of numbers of 64 bits, if there is one.
fn of_longs(row: Option<Vec<i64>>) -> Option<Column>
    ensures values { option_map (λ column. column.values) result ≡ option_map (λ cells. map (λ z. I64 z) cells.items) row }
    ensures vtype { IfSome result (λ column. column.vtype ≡ Long) }
{
    match row {
        Some(cells) => Some(Column::of(TypedCells::Longs(cells))),
        None => None,
    }
}

// A column of truth values, if there is one.
fn of_flags(row: Option<Vec<bool>>) -> Option<Column>
    ensures values { option_map (λ column. column.values) result ≡ option_map (λ cells. map (λ b. Flag b) cells.items) row }
    ensures vtype { IfSome result (λ column. column.vtype ≡ Truth) }
{
    match row {
        Some(cells) => Some(Column::of(TypedCells::Flags(cells))),
        None => None,
    }
}

// What an operation gives on each of some cells, or nothing where it faults on one.
fn apply1_ints(alloc: Global, op: Op1, cells: &[i32]) -> Result<Option<Column>, NoMemory>
    requires { IsTrue (fits1 op Int) }
    ensures values { IfOk result (λ given. option_map (λ column. column.values) given ≡ applied1 op (map (λ z. I32 z) cells.now)) }
    ensures vtype { IfOk result (λ given. IfSome given (λ column. column.vtype ≡ type1 op Int)) }
{
    match op {
        Op1::Neg => Ok(of_ints(each::<i32, i32, Negatives>(alloc, 0, cells)?)),
        Op1::ToI32 => Ok(of_ints(each::<i32, i32, Narrowed>(alloc, 0, cells)?)),
        Op1::ToI64 => Ok(of_longs(each::<i32, i64, Widened>(alloc, 0, cells)?)),
        _ => unreachable!(),
    }
}

// What an operation gives on each of some cells, or nothing where it faults on one.
fn apply1_longs(alloc: Global, op: Op1, cells: &[i64]) -> Result<Option<Column>, NoMemory>
    requires { IsTrue (fits1 op Long) }
    ensures values { IfOk result (λ given. option_map (λ column. column.values) given ≡ applied1 op (map (λ z. I64 z) cells.now)) }
    ensures vtype { IfOk result (λ given. IfSome given (λ column. column.vtype ≡ type1 op Long)) }
{
    match op {
        Op1::Neg => Ok(of_longs(each::<i64, i64, Negatives>(alloc, 0, cells)?)),
        Op1::ToI32 => Ok(of_ints(each::<i64, i32, Narrowed>(alloc, 0, cells)?)),
        Op1::ToI64 => Ok(of_longs(each::<i64, i64, Widened>(alloc, 0, cells)?)),
        _ => unreachable!(),
    }
}

// What an operation gives on each of some cells, or nothing where it faults on one.
fn apply1_flags(alloc: Global, op: Op1, cells: &[bool]) -> Result<Option<Column>, NoMemory>
    requires { IsTrue (fits1 op Truth) }
    ensures values { IfOk result (λ given. option_map (λ column. column.values) given ≡ applied1 op (map (λ b. Flag b) cells.now)) }
    ensures vtype { IfOk result (λ given. IfSome given (λ column. column.vtype ≡ type1 op Truth)) }
{
    match op {
        Op1::Not => Ok(of_flags(each::<bool, bool, Opposites>(alloc, false, cells)?)),
        _ => unreachable!(),
    }
}

// What an operation gives on each pair of cells, or nothing where it faults on one.
fn apply2_ints(
    alloc: Global,
    op: Op2,
    left: &[i32],
    right: &[i32],
) -> Result<Option<Column>, NoMemory>
    requires pairs { length left.now ≡ length right.now }
    ensures values { IfOk result (λ given. option_map (λ column. column.values) given ≡ applied2 op (map (λ z. I32 z) left.now) (map (λ z. I32 z) right.now)) }
    ensures vtype { IfOk result (λ given. IfSome given (λ column. column.vtype ≡ type2 op Int)) }
{
    match op {
        Op2::Add => Ok(of_ints(pairs::<i32, i32, Sums>(alloc, 0, left, right)?)),
        Op2::Sub => Ok(of_ints(pairs::<i32, i32, Differences>(alloc, 0, left, right)?)),
        Op2::Mul => Ok(of_ints(pairs::<i32, i32, Products>(alloc, 0, left, right)?)),
        Op2::Div => Ok(of_ints(pairs::<i32, i32, Quotients>(alloc, 0, left, right)?)),
        Op2::Rem => Ok(of_ints(pairs::<i32, i32, Remainders>(alloc, 0, left, right)?)),
        Op2::Eq => Ok(of_flags(pairs::<i32, bool, Equal>(alloc, false, left, right)?)),
        Op2::Ne => Ok(of_flags(pairs::<i32, bool, Unequal>(alloc, false, left, right)?)),
        Op2::Lt => Ok(of_flags(pairs::<i32, bool, Less>(alloc, false, left, right)?)),
        Op2::Le => Ok(of_flags(pairs::<i32, bool, AtMost>(alloc, false, left, right)?)),
        Op2::Gt => Ok(of_flags(pairs::<i32, bool, Greater>(alloc, false, left, right)?)),
        Op2::Ge => Ok(of_flags(pairs::<i32, bool, AtLeast>(alloc, false, left, right)?)),
    }
}

// What an operation gives on each pair of cells, or nothing where it faults on one.
fn apply2_longs(
    alloc: Global,
    op: Op2,
    left: &[i64],
    right: &[i64],
) -> Result<Option<Column>, NoMemory>
    requires pairs { length left.now ≡ length right.now }
    ensures values { IfOk result (λ given. option_map (λ column. column.values) given ≡ applied2 op (map (λ z. I64 z) left.now) (map (λ z. I64 z) right.now)) }
    ensures vtype { IfOk result (λ given. IfSome given (λ column. column.vtype ≡ type2 op Long)) }
{
    match op {
        Op2::Add => Ok(of_longs(pairs::<i64, i64, Sums>(alloc, 0, left, right)?)),
        Op2::Sub => Ok(of_longs(pairs::<i64, i64, Differences>(alloc, 0, left, right)?)),
        Op2::Mul => Ok(of_longs(pairs::<i64, i64, Products>(alloc, 0, left, right)?)),
        Op2::Div => Ok(of_longs(pairs::<i64, i64, Quotients>(alloc, 0, left, right)?)),
        Op2::Rem => Ok(of_longs(pairs::<i64, i64, Remainders>(alloc, 0, left, right)?)),
        Op2::Eq => Ok(of_flags(pairs::<i64, bool, Equal>(alloc, false, left, right)?)),
        Op2::Ne => Ok(of_flags(pairs::<i64, bool, Unequal>(alloc, false, left, right)?)),
        Op2::Lt => Ok(of_flags(pairs::<i64, bool, Less>(alloc, false, left, right)?)),
        Op2::Le => Ok(of_flags(pairs::<i64, bool, AtMost>(alloc, false, left, right)?)),
        Op2::Gt => Ok(of_flags(pairs::<i64, bool, Greater>(alloc, false, left, right)?)),
        Op2::Ge => Ok(of_flags(pairs::<i64, bool, AtLeast>(alloc, false, left, right)?)),
    }
}

// What an operation gives on each pair of cells, or nothing where it faults on one.
fn apply2_flags(
    alloc: Global,
    op: Op2,
    left: &[bool],
    right: &[bool],
) -> Result<Option<Column>, NoMemory>
    requires pairs { length left.now ≡ length right.now }
    requires fits { IsTrue (fits2 op Truth Truth) }
    ensures values { IfOk result (λ given. option_map (λ column. column.values) given ≡ applied2 op (map (λ b. Flag b) left.now) (map (λ b. Flag b) right.now)) }
    ensures vtype { IfOk result (λ given. IfSome given (λ column. column.vtype ≡ type2 op Truth)) }
{
    match op {
        Op2::Eq => Ok(of_flags(pairs::<bool, bool, Equal>(alloc, false, left, right)?)),
        Op2::Ne => Ok(of_flags(pairs::<bool, bool, Unequal>(alloc, false, left, right)?)),
        _ => unreachable!(),
    }
}

// What an operation gives on each pair of cells, or nothing where it faults on one.
fn apply2_nodes(
    alloc: Global,
    op: Op2,
    left: &[u32],
    right: &[u32],
) -> Result<Option<Column>, NoMemory>
    requires pairs { length left.now ≡ length right.now }
    requires fits { IsTrue (fits2 op Node Node) }
    ensures values { IfOk result (λ given. option_map (λ column. column.values) given ≡ applied2 op (map node_in left.now) (map node_in right.now)) }
    ensures vtype { IfOk result (λ given. IfSome given (λ column. column.vtype ≡ type2 op Node)) }
{
    match op {
        Op2::Eq => Ok(of_flags(pairs::<u32, bool, Equal>(alloc, false, left, right)?)),
        Op2::Ne => Ok(of_flags(pairs::<u32, bool, Unequal>(alloc, false, left, right)?)),
        _ => unreachable!(),
    }
}

/// What an operation that fits the type gives on each value of a column, in a column, or nothing where it faults on one.
/// The whole column is looked at in either case, so that there is no branch for a value.
pub fn apply1(alloc: Global, op: Op1, column: &Column) -> Result<Option<Column>, NoMemory>
    requires { IsTrue (fits1 op column.now.vtype) }
    ensures values { IfOk result (λ given. option_map (λ column. column.values) given ≡ applied1 op column.now.values) }
    ensures vtype { IfOk result (λ given. IfSome given (λ given. given.vtype ≡ type1 op column.now.vtype)) }
{
    match column.cells() {
        TypedCells::Ints(cells) => apply1_ints(alloc, op, cells),
        TypedCells::Longs(cells) => apply1_longs(alloc, op, cells),
        TypedCells::Flags(cells) => apply1_flags(alloc, op, cells),
        TypedCells::Nodes(_) => unreachable!(),
    }
}

/// What an operation that fits the types gives on each pair of values of two columns of one length, in a column, or
/// nothing where it faults on a pair.
pub fn apply2(
    alloc: Global,
    op: Op2,
    left: &Column,
    right: &Column,
) -> Result<Option<Column>, NoMemory>
    requires fits { IsTrue (fits2 op left.now.vtype right.now.vtype) }
    requires pairs { length left.now.values ≡ length right.now.values }
    ensures values { IfOk result (λ given. option_map (λ column. column.values) given ≡ applied2 op left.now.values right.now.values) }
    ensures vtype { IfOk result (λ given. IfSome given (λ column. column.vtype ≡ type2 op left.now.vtype)) }
{
    match (left.cells(), right.cells()) {
        (TypedCells::Ints(left), TypedCells::Ints(right)) => apply2_ints(alloc, op, left, right),
        (TypedCells::Longs(left), TypedCells::Longs(right)) => apply2_longs(alloc, op, left, right),
        (TypedCells::Flags(left), TypedCells::Flags(right)) => apply2_flags(alloc, op, left, right),
        (TypedCells::Nodes(left), TypedCells::Nodes(right)) => apply2_nodes(alloc, op, left, right),
        _ => unreachable!(),
    }
}
