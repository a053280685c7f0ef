//! Operations on each value and on each pair of values, and the rows on which one faults.

use crate::calls::{on_pairs, on_values};
use crate::written::{flags, ints, longs, nodes, same};
use gm_columns::Column;
use gm_value::{Op1, Op2};
use std::process::Abort;
use std::test::Fail;

const INT_MAX: i32 = 2147483647;

const INT_MIN: i32 = -2147483648;

const LONG_MAX: i64 = 9223372036854775807;

const LONG_MIN: i64 = -9223372036854775808;

const NIL: u32 = 4294967295;

// Compares what an operation gives on pairs of values.
fn on_columns(
    rt: &(impl Abort + AllocGlobal),
    row: usize,
    op: Op2,
    left: &Column,
    right: &Column,
    want: &str,
) -> Result<(), Fail> {
    let found = on_pairs(rt.alloc(), op, left, right)?;
    same(rt, row, &found, want)
}

// Compares what an operation gives on pairs of numbers of 32 bits.
fn on_ints(
    rt: &(impl Abort + AllocGlobal),
    row: usize,
    op: Op2,
    left: &[i32],
    right: &[i32],
    want: &str,
) -> Result<(), Fail> {
    let left = ints(rt.alloc(), left)?;
    let right = ints(rt.alloc(), right)?;
    on_columns(rt, row, op, &left, &right, want)
}

// Compares what an operation gives on pairs of numbers of 64 bits.
fn on_longs(
    rt: &(impl Abort + AllocGlobal),
    row: usize,
    op: Op2,
    left: &[i64],
    right: &[i64],
    want: &str,
) -> Result<(), Fail> {
    let left = longs(rt.alloc(), left)?;
    let right = longs(rt.alloc(), right)?;
    on_columns(rt, row, op, &left, &right, want)
}

// Compares what an operation gives on pairs of truth values.
fn on_flags(
    rt: &(impl Abort + AllocGlobal),
    row: usize,
    op: Op2,
    left: &[bool],
    right: &[bool],
    want: &str,
) -> Result<(), Fail> {
    let left = flags(rt.alloc(), left)?;
    let right = flags(rt.alloc(), right)?;
    on_columns(rt, row, op, &left, &right, want)
}

// Compares what an operation gives on pairs of nodes.
fn on_nodes(
    rt: &(impl Abort + AllocGlobal),
    row: usize,
    op: Op2,
    left: &[u32],
    right: &[u32],
    want: &str,
) -> Result<(), Fail> {
    let left = nodes(rt.alloc(), left)?;
    let right = nodes(rt.alloc(), right)?;
    on_columns(rt, row, op, &left, &right, want)
}

// Compares what an operation gives on numbers of 32 bits.
fn on_each_int(
    rt: &(impl Abort + AllocGlobal),
    row: usize,
    op: Op1,
    cells: &[i32],
    want: &str,
) -> Result<(), Fail> {
    let column = ints(rt.alloc(), cells)?;
    let found = on_values(rt.alloc(), op, &column)?;
    same(rt, row, &found, want)
}

// Compares what an operation gives on numbers of 64 bits.
fn on_each_long(
    rt: &(impl Abort + AllocGlobal),
    row: usize,
    op: Op1,
    cells: &[i64],
    want: &str,
) -> Result<(), Fail> {
    let column = longs(rt.alloc(), cells)?;
    let found = on_values(rt.alloc(), op, &column)?;
    same(rt, row, &found, want)
}

#[test]
fn sums_and_where_one_is_out_of_range(rt: HostRuntime) -> Result<(), Fail> {
    let none = "None";
    on_ints(
        &rt,
        0,
        Op2::Add,
        &[],
        &[],
        "Some(Column { cells: Ints([]) })",
    )?;
    let one = "Some(Column { cells: Ints([2147483647]) })";
    on_ints(&rt, 1, Op2::Add, &[INT_MAX - 1], &[1], one)?;
    let three = "Some(Column { cells: Ints([0, 5, -3]) })";
    on_ints(&rt, 2, Op2::Add, &[-1, 2, -1], &[1, 3, -2], three)?;
    on_ints(&rt, 3, Op2::Add, &[INT_MAX, 2, 3], &[1, 1, 1], none)?;
    on_ints(&rt, 4, Op2::Add, &[1, INT_MIN, 3], &[1, -1, 1], none)?;
    on_ints(&rt, 5, Op2::Add, &[1, 2, INT_MAX], &[1, 1, 1], none)?;
    on_longs(&rt, 6, Op2::Add, &[1, 2, LONG_MAX], &[1, 1, 1], none)?;
    let wide = "Some(Column { cells: Longs([2147483648]) })";
    on_longs(&rt, 7, Op2::Add, &[2147483647], &[1], wide)
}

#[test]
fn differences_and_products(rt: HostRuntime) -> Result<(), Fail> {
    let none = "None";
    let two = "Some(Column { cells: Ints([-2147483648, 2]) })";
    on_ints(&rt, 0, Op2::Sub, &[INT_MIN + 1, 5], &[1, 3], two)?;
    on_ints(&rt, 1, Op2::Sub, &[INT_MIN, 5], &[1, 3], none)?;
    on_longs(&rt, 2, Op2::Sub, &[0, LONG_MIN], &[0, 1], none)?;
    let products = "Some(Column { cells: Ints([-2147483648, 6]) })";
    on_ints(&rt, 3, Op2::Mul, &[65536, 2], &[-32768, 3], products)?;
    on_ints(&rt, 4, Op2::Mul, &[65536, 2], &[32768, 3], none)?;
    on_longs(&rt, 5, Op2::Mul, &[2, LONG_MAX], &[3, 2], none)
}

#[test]
fn quotients_and_remainders(rt: HostRuntime) -> Result<(), Fail> {
    let none = "None";
    let cut = "Some(Column { cells: Ints([-2, 3, 0]) })";
    on_ints(&rt, 0, Op2::Div, &[-9, 7, 0], &[4, 2, 5], cut)?;
    on_ints(&rt, 1, Op2::Div, &[1, 7, 8], &[0, 2, 5], none)?;
    on_ints(&rt, 2, Op2::Div, &[1, 7, 8], &[1, 2, 0], none)?;
    on_ints(&rt, 3, Op2::Div, &[7, INT_MIN], &[2, -1], none)?;
    let rest = "Some(Column { cells: Ints([-1, 1, 0]) })";
    on_ints(&rt, 4, Op2::Rem, &[-9, 9, INT_MIN], &[4, -4, -1], rest)?;
    on_ints(&rt, 5, Op2::Rem, &[9, 9], &[4, 0], none)?;
    on_longs(&rt, 6, Op2::Div, &[LONG_MIN], &[-1], none)?;
    let long = "Some(Column { cells: Longs([0]) })";
    on_longs(&rt, 7, Op2::Rem, &[LONG_MIN], &[-1], long)
}

#[test]
fn comparisons(rt: HostRuntime) -> Result<(), Fail> {
    let left = [1, 2, 3];
    let right = [2, 2, 2];
    let first = "Some(Column { cells: Flags([true, false, false]) })";
    on_ints(&rt, 0, Op2::Lt, &left, &right, first)?;
    let last = "Some(Column { cells: Flags([false, false, true]) })";
    on_ints(&rt, 1, Op2::Gt, &left, &right, last)?;
    let most = "Some(Column { cells: Flags([true, true, false]) })";
    on_ints(&rt, 2, Op2::Le, &left, &right, most)?;
    let least = "Some(Column { cells: Flags([false, true, true]) })";
    on_ints(&rt, 3, Op2::Ge, &left, &right, least)?;
    let equal = "Some(Column { cells: Flags([false, true, false]) })";
    on_ints(&rt, 4, Op2::Eq, &left, &right, equal)?;
    let unequal = "Some(Column { cells: Flags([true, false, true]) })";
    on_ints(&rt, 5, Op2::Ne, &left, &right, unequal)?;
    let long = "Some(Column { cells: Flags([true, false]) })";
    on_longs(&rt, 6, Op2::Lt, &[LONG_MIN, 5], &[LONG_MAX, 5], long)
}

#[test]
fn truth_values(rt: HostRuntime) -> Result<(), Fail> {
    let found = "Some(Column { cells: Flags([true, false, true]) })";
    let some = [true, true, false];
    on_flags(&rt, 0, Op2::Eq, &some, &[true, false, false], found)
}

#[test]
fn opposites(rt: HostRuntime) -> Result<(), Fail> {
    let truths = flags(rt.alloc(), &[true, true, false])?;
    let found = on_values(rt.alloc(), Op1::Not, &truths)?;
    let want = "Some(Column { cells: Flags([false, false, true]) })";
    same(&rt, 0, &found, want)
}

#[test]
fn nodes_that_differ(rt: HostRuntime) -> Result<(), Fail> {
    let found = "Some(Column { cells: Flags([false, false, true]) })";
    let some = [0, NIL, NIL];
    on_nodes(&rt, 0, Op2::Ne, &some, &[0, NIL, 4294967294], found)
}

#[test]
fn one_operand(rt: HostRuntime) -> Result<(), Fail> {
    let none = "None";
    let negative = "Some(Column { cells: Ints([-1, 2147483647]) })";
    on_each_int(&rt, 0, Op1::Neg, &[1, INT_MIN + 1], negative)?;
    on_each_int(&rt, 1, Op1::Neg, &[1, 2, INT_MIN], none)?;
    let empty = "Some(Column { cells: Longs([]) })";
    on_each_int(&rt, 2, Op1::ToI64, &[], empty)?;
    let wide = "Some(Column { cells: Longs([-2147483648]) })";
    on_each_int(&rt, 3, Op1::ToI64, &[INT_MIN], wide)?;
    let narrow = "Some(Column { cells: Ints([-2147483648, 2147483647]) })";
    on_each_long(&rt, 4, Op1::ToI32, &[-2147483648, 2147483647], narrow)?;
    on_each_long(&rt, 5, Op1::ToI32, &[2147483648, 0], none)?;
    on_each_long(&rt, 6, Op1::ToI32, &[0, -2147483649], none)?;
    on_each_long(&rt, 7, Op1::Neg, &[0, LONG_MIN], none)
}
