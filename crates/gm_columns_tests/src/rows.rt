//! Columns read from cells, written into cells, put behind others and repeated.

use crate::calls::{appended, constant_of, expanded, values_at, values_between, written};
use crate::written::{ints, longs, nodes, same};
use gm_columns::Cells;
use gm_value::Value;
use std::process::Abort;
use std::test::Fail;

// Compares a column of one value.
fn constant_is(
    rt: &(impl Abort + AllocGlobal),
    row: usize,
    value: Value,
    rows: usize,
    want: &str,
) -> Result<(), Fail> {
    let found = constant_of(rt.alloc(), value, rows)?;
    same(rt, row, &found, want)
}

// Compares the values of cells at some nodes.
fn at_nodes(
    rt: &(impl Abort + AllocGlobal),
    row: usize,
    cells: &Cells,
    nodes: &[u32],
    want: &str,
) -> Result<(), Fail> {
    let found = values_at(rt.alloc(), cells, nodes)?;
    same(rt, row, &found, want)
}

// Compares the values of cells from one node up to another.
fn between_nodes(
    rt: &(impl Abort + AllocGlobal),
    row: usize,
    cells: &Cells,
    from: usize,
    to: usize,
    want: &str,
) -> Result<(), Fail> {
    let found = values_between(rt.alloc(), cells, from, to)?;
    same(rt, row, &found, want)
}

// Compares numbers of 64 bits after others were written into them.
fn written_longs(
    rt: &(impl Abort + AllocGlobal),
    row: usize,
    cells: &[i64],
    at: &[u32],
    values: &[i64],
    want: &str,
) -> Result<(), Fail> {
    let cells = Cells::Longs(Vec::from_slice(rt.alloc(), cells)?);
    let values = longs(rt.alloc(), values)?;
    let found = written(cells, at, &values)?;
    same(rt, row, &found, want)
}

// Compares nodes after others were written into them.
fn written_nodes(
    rt: &(impl Abort + AllocGlobal),
    row: usize,
    cells: &[u32],
    at: &[u32],
    values: &[u32],
    want: &str,
) -> Result<(), Fail> {
    let cells = Cells::Nodes(Vec::from_slice(rt.alloc(), cells)?);
    let values = nodes(rt.alloc(), values)?;
    let found = written(cells, at, &values)?;
    same(rt, row, &found, want)
}

// Compares numbers of 32 bits with others put behind them.
fn behind(
    rt: &(impl Abort + AllocGlobal),
    row: usize,
    rows: &[i32],
    more: &[i32],
    want: &str,
) -> Result<(), Fail> {
    let rows = Vec::from_slice(rt.alloc(), rows)?;
    let more = ints(rt.alloc(), more)?;
    let found = appended(rows, &more)?;
    same(rt, row, &found, want)
}

// Compares numbers of 32 bits, each repeated.
fn repeated(
    rt: &(impl Abort + AllocGlobal),
    row: usize,
    counts: &[u32],
    values: &[i32],
    want: &str,
) -> Result<(), Fail> {
    let values = ints(rt.alloc(), values)?;
    let found = expanded(rt.alloc(), counts, &values)?;
    same(rt, row, &found, want)
}

#[test]
fn constants(rt: HostRuntime) -> Result<(), Fail> {
    constant_is(
        &rt,
        0,
        Value::I32(-7),
        2,
        "Column { cells: Ints([-7, -7]) }",
    )?;
    constant_is(&rt, 1, Value::I64(7), 0, "Column { cells: Longs([]) }")?;
    constant_is(
        &rt,
        2,
        Value::Flag(true),
        1,
        "Column { cells: Flags([true]) }",
    )?;
    let nil = "Column { cells: Nodes([4294967295]) }";
    constant_is(&rt, 3, Value::At(None), 1, nil)?;
    constant_is(
        &rt,
        4,
        Value::At(Some(4)),
        1,
        "Column { cells: Nodes([4]) }",
    )
}

#[test]
fn values_of_cells(rt: HostRuntime) -> Result<(), Fail> {
    let cells = Cells::Ints(Vec::from_slice(rt.alloc(), &[5, 6, 7])?);
    let three = "Some(Column { cells: Ints([7, 5, 7]) })";
    at_nodes(&rt, 0, &cells, &[2, 0, 2], three)?;
    let none = "Some(Column { cells: Ints([]) })";
    at_nodes(&rt, 1, &cells, &[], none)?;
    let two = "Some(Column { cells: Ints([6, 7]) })";
    between_nodes(&rt, 2, &cells, 1, 3, two)?;
    between_nodes(&rt, 3, &cells, 3, 3, none)
}

#[test]
fn values_of_cells_of_one_value(rt: HostRuntime) -> Result<(), Fail> {
    let cells = Cells::Uniform {
        value: Value::Flag(true),
        nodes: 9,
    };
    let two = "Some(Column { cells: Flags([true, true]) })";
    at_nodes(&rt, 0, &cells, &[8, 0], two)?;
    let one = "Some(Column { cells: Flags([true]) })";
    between_nodes(&rt, 1, &cells, 4, 5, one)
}

#[test]
fn a_node_that_has_no_place_in_memory(rt: HostRuntime) -> Result<(), Fail> {
    let cells = Cells::Uniform {
        value: Value::At(Some(4294967295)),
        nodes: 9,
    };
    at_nodes(&rt, 0, &cells, &[8], "None")
}

#[test]
fn values_of_several_types(rt: HostRuntime) -> Result<(), Fail> {
    let values = [Value::I32(1), Value::I64(1)];
    let cells = Cells::Mixed(Vec::from_slice(rt.alloc(), &values)?);
    at_nodes(&rt, 0, &cells, &[0], "None")?;
    between_nodes(&rt, 1, &cells, 0, 1, "None")
}

#[test]
fn values_written_at_nodes(rt: HostRuntime) -> Result<(), Fail> {
    let cells = [7, 8, 9];
    let last = "Nodes([4294967295, 8, 3])";
    written_nodes(&rt, 0, &cells, &[2, 0, 2], &[1, 4294967295, 3], last)?;
    written_longs(&rt, 1, &[7, 8, 9], &[], &[], "Longs([7, 8, 9])")
}

#[test]
fn rows_behind_others(rt: HostRuntime) -> Result<(), Fail> {
    behind(&rt, 0, &[], &[7, 8, 9], "Ints([7, 8, 9])")?;
    behind(&rt, 1, &[7, 8, 9], &[], "Ints([7, 8, 9])")?;
    behind(&rt, 2, &[7, 8], &[1], "Ints([7, 8, 1])")
}

#[test]
fn rows_repeated(rt: HostRuntime) -> Result<(), Fail> {
    let found = "Column { cells: Ints([7, 7, 9]) }";
    repeated(&rt, 0, &[2, 0, 1], &[7, 8, 9], found)?;
    repeated(&rt, 1, &[], &[], "Column { cells: Ints([]) }")
}
