//! Columns folded into cells at places, and into one value.

use crate::calls::{folded_all, folded_ints, folded_longs};
use crate::written::{flags, ints, longs, nodes, same};
use gm_columns::Column;
use gm_value::{Reduce, Value};
use std::process::Abort;
use std::test::Fail;

const INT_MAX: i32 = 2147483647;

const LONG_MAX: i64 = 9223372036854775807;

// Compares numbers of 32 bits after others of 32 bits were folded into them.
fn into_ints(
    rt: &(impl Abort + AllocGlobal),
    row: usize,
    op: Reduce,
    cells: &[i32],
    places: &[u32],
    values: &[i32],
    want: &str,
) -> Result<(), Fail> {
    let values = ints(rt.alloc(), values)?;
    let found = folded_ints(rt.alloc(), op, cells, places, &values)?;
    same(rt, row, &found, want)
}

// Compares numbers of 64 bits after others of 32 bits were folded into them.
fn into_longs(
    rt: &(impl Abort + AllocGlobal),
    row: usize,
    op: Reduce,
    cells: &[i64],
    places: &[u32],
    values: &[i32],
    want: &str,
) -> Result<(), Fail> {
    let values = ints(rt.alloc(), values)?;
    let found = folded_longs(rt.alloc(), op, cells, places, &values)?;
    same(rt, row, &found, want)
}

// Compares what comes of a value and all of a column.
fn into_value(
    rt: &(impl Abort + AllocGlobal),
    row: usize,
    op: Reduce,
    held: Value,
    column: &Column,
    want: &str,
) -> Result<(), Fail> {
    let found = folded_all(op, held, column)?;
    same(rt, row, &found, want)
}

#[test]
fn into_numbers_at_places(rt: HostRuntime) -> Result<(), Fail> {
    let fives = [5, 5];
    let at = [1, 1, 0];
    let some = [3, 4, 9];
    into_ints(
        &rt,
        0,
        Reduce::Min,
        &fives,
        &at,
        &some,
        "Some(Ints([5, 3]))",
    )?;
    into_ints(
        &rt,
        1,
        Reduce::Max,
        &fives,
        &at,
        &some,
        "Some(Ints([9, 5]))",
    )?;
    into_ints(
        &rt,
        2,
        Reduce::Product,
        &fives,
        &at,
        &some,
        "Some(Ints([45, 60]))",
    )?;
    into_ints(&rt, 3, Reduce::Sum, &[], &[], &[], "Some(Ints([]))")
}

#[test]
fn sums_at_places_that_leave_the_range(rt: HostRuntime) -> Result<(), Fail> {
    let most = [INT_MAX, 0];
    into_ints(&rt, 0, Reduce::Sum, &most, &[0, 0], &[1, -1], "None")?;
    into_ints(&rt, 1, Reduce::Sum, &most, &[0, 0, 0], &[-1, 1, 1], "None")?;
    let back = "Some(Ints([2147483647, 1]))";
    into_ints(&rt, 2, Reduce::Sum, &most, &[0, 0, 1], &[-1, 1, 1], back)?;
    let back = "Some(Longs([2147483647]))";
    into_longs(&rt, 3, Reduce::Sum, &[2147483647], &[0, 0], &[1, -1], back)?;
    into_longs(&rt, 4, Reduce::Sum, &[LONG_MAX], &[0, 0], &[1, -1], "None")
}

#[test]
fn into_one_number(rt: HostRuntime) -> Result<(), Fail> {
    let some = ints(rt.alloc(), &[3, -4, 9])?;
    let least = "Some(I32(-4))";
    into_value(&rt, 0, Reduce::Min, Value::I32(5), &some, least)?;
    let wide = "Some(I64(2147483655))";
    into_value(&rt, 1, Reduce::Sum, Value::I64(2147483647), &some, wide)?;
    into_value(&rt, 2, Reduce::Sum, Value::I32(2147483645), &some, "None")
}

#[test]
fn nothing_into_one_value(rt: HostRuntime) -> Result<(), Fail> {
    let none = longs(rt.alloc(), &[])?;
    into_value(
        &rt,
        0,
        Reduce::Product,
        Value::I64(7),
        &none,
        "Some(I64(7))",
    )
}

#[test]
fn into_one_truth_value(rt: HostRuntime) -> Result<(), Fail> {
    let some = flags(rt.alloc(), &[true, false])?;
    let no = "Some(Flag(false))";
    into_value(&rt, 0, Reduce::And, Value::Flag(true), &some, no)?;
    let yes = "Some(Flag(true))";
    into_value(&rt, 1, Reduce::Or, Value::Flag(false), &some, yes)
}

#[test]
fn into_one_node(rt: HostRuntime) -> Result<(), Fail> {
    let some = nodes(rt.alloc(), &[4294967295, 4])?;
    into_value(
        &rt,
        0,
        Reduce::Max,
        Value::At(None),
        &some,
        "Some(At(Some(4)))",
    )
}
