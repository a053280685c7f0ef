//! Rows parted by truth values, numbers and values read at the rows of a part, and columns copied.

use crate::calls::{parted, picked};
use crate::written::{ints, nodes, same};
use gm_columns::Column;
use gm_kernels::{all_rows, constant_if, copy};
use gm_value::Value;
use std::process::Abort;
use std::test::Fail;

// Compares the parts of rows.
fn parts_are(
    rt: &(impl Abort + AllocGlobal),
    row: usize,
    truths: &[bool],
    rows: &[u32],
    want: &str,
) -> Result<(), Fail> {
    let found = parted(rt.alloc(), truths, rows)?;
    same(rt, row, &found, want)
}

// Compares the numbers at some rows.
fn numbers_at(
    rt: &(impl Abort + AllocGlobal),
    row: usize,
    numbers: &[u32],
    rows: &[u32],
    want: &str,
) -> Result<(), Fail> {
    let found = picked(rt.alloc(), numbers, rows)?;
    same(rt, row, &found, want)
}

// Compares the rows up to a count.
fn rows_are(
    rt: &(impl Abort + AllocGlobal),
    row: usize,
    count: u32,
    want: &str,
) -> Result<(), Fail> {
    let found = all_rows(rt.alloc(), count)?;
    same(rt, row, &found, want)
}

// Compares a copy of a column.
fn copy_is(
    rt: &(impl Abort + AllocGlobal),
    row: usize,
    column: &Column,
    want: &str,
) -> Result<(), Fail> {
    let found = copy(rt.alloc(), column)?;
    same(rt, row, &found, want)
}

// Compares a column of one value, where there is one.
fn constant_where_it_fits(
    rt: &(impl Abort + AllocGlobal),
    row: usize,
    value: Value,
    want: &str,
) -> Result<(), Fail> {
    let found = constant_if(rt.alloc(), value, 2)?;
    same(rt, row, &found, want)
}

#[test]
fn rows_parted(rt: HostRuntime) -> Result<(), Fail> {
    let two = "Parts { held: [4, 6], left_out: [5] }";
    parts_are(&rt, 0, &[true, false, true], &[4, 5, 6], two)?;
    parts_are(&rt, 1, &[], &[], "Parts { held: [], left_out: [] }")?;
    let none = "Parts { held: [], left_out: [7, 0] }";
    parts_are(&rt, 2, &[false, false], &[7, 0], none)
}

#[test]
fn numbers_of_rows(rt: HostRuntime) -> Result<(), Fail> {
    numbers_at(&rt, 0, &[5, 6, 7], &[2, 0, 2], "[7, 5, 7]")?;
    numbers_at(&rt, 1, &[5, 6, 7], &[], "[]")?;
    rows_are(&rt, 2, 3, "[0, 1, 2]")?;
    rows_are(&rt, 3, 0, "[]")
}

#[test]
fn copies(rt: HostRuntime) -> Result<(), Fail> {
    let some = ints(rt.alloc(), &[7, -8])?;
    copy_is(&rt, 0, &some, "Column { cells: Ints([7, -8]) }")
}

#[test]
fn copies_of_nodes(rt: HostRuntime) -> Result<(), Fail> {
    let some = nodes(rt.alloc(), &[4294967295])?;
    copy_is(&rt, 0, &some, "Column { cells: Nodes([4294967295]) }")
}

#[test]
fn constants_that_have_a_place(rt: HostRuntime) -> Result<(), Fail> {
    let two = "Some(Column { cells: Longs([7, 7]) })";
    constant_where_it_fits(&rt, 0, Value::I64(7), two)?;
    constant_where_it_fits(&rt, 1, Value::At(Some(4294967295)), "None")
}
