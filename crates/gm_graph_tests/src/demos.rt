ghost use Rattle.std.specs.Prelude.{◌≤◌};

use crate::compare::{same, same_bytes};
use gm_base::NoMemory;
use gm_columns::{Column, Values};
use gm_demo::*;
use gm_value::{VType, Value};
use std::alloc::{AllocError, Global};
use std::process::Abort;
use std::test::Fail;

// A column of Int values.
fn ints(alloc: Global, numbers: &[i32]) -> Result<Values, Fail> {
    let mut column = Column::new(alloc, VType::I32);
    for number in numbers {
        column.push(Value::I32(*number))?;
    }
    Ok(Values::new(column))
}

// How often a byte stands in a text.
fn count_of(text: &[u8], byte: u8) -> usize {
    text.iter().filter(|b| **b == byte).count()
}

// The text of a graph of so many nodes.
fn graph_text(alloc: Global, nodes: u32) -> Result<Vec<u8>, NoMemory>
    requires some { 1 ≤ nodes }
    requires few { nodes ≤ 1000000 }
{
    demo_graph(alloc, nodes)
}

#[test]
fn a_graph_of_one_node(rt: HostRuntime) -> Result<(), Fail> {
    let one = graph_text(rt.alloc(), 1)?;
    same_bytes(
        &rt,
        0,
        one.as_slice(),
        b"v 0\n0 0 97\n0 0 96\n0 0 90\n0 0 3\n",
    );
    Ok(())
}

#[test]
fn a_graph_of_two_nodes(rt: HostRuntime) -> Result<(), Fail> {
    let two = graph_text(rt.alloc(), 2)?;
    same_bytes(
        &rt,
        0,
        two.as_slice(),
        b"v 0\nv 1\n0 0 57\n0 1 100\n0 0 66\n0 1 23\n0 0 37\n0 0 14\n0 1 73\n0 0 35\n",
    );
    Ok(())
}

#[test]
fn a_graph_of_many_nodes(rt: HostRuntime) -> Result<(), Fail> {
    let text = graph_text(rt.alloc(), 1000)?;
    same(&rt, 0, text.len(), 48_686);
    same(&rt, 1, count_of(&text, b'\n'), 5000);
    same(&rt, 2, count_of(&text, b'v'), 1000);
    same(&rt, 3, text.as_slice().ends_with(b"\n205 889 41\n"), true);
    Ok(())
}

// Compares the line of a run.
fn compare_line(
    rt: &(impl Abort + AllocGlobal),
    nodes: u32,
    numbers: &[i32],
    turns: u64,
    want: &[u8],
) -> Result<(), Fail> {
    let values = ints(rt.alloc(), numbers)?;
    let line = demo_line(rt.alloc(), nodes, &values, turns)?;
    same_bytes(rt, 0, line.as_slice(), want);
    Ok(())
}

#[test]
fn lines_of_runs(rt: HostRuntime) -> Result<(), Fail> {
    compare_line(
        &rt,
        4,
        &[0, i32::MAX, 97, 3],
        12,
        b"demo 4 edges 16 reached 3 far 97 turns 12\n",
    )?;
    compare_line(
        &rt,
        1,
        &[i32::MAX],
        0,
        b"demo 1 edges 4 reached 0 far 0 turns 0\n",
    )?;
    compare_line(
        &rt,
        1_000_000,
        &[0],
        1,
        b"demo 1000000 edges 4000000 reached 1 far 0 turns 1\n",
    )
}

#[test]
fn the_program(rt: HostRuntime) {
    same(&rt, 0, demo_program().len(), 448);
}
