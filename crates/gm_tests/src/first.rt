//! One short program over graph texts of every kind, and the texts of a program and a graph on one input.

use crate::calls::{PLAIN, both_ways_hold, ends_with, run};
use gm_rows::first::{GRAPHS, PARTED, TEXTS};
use std::alloc::Global;
use std::process::Abort;
use std::sync::Wait;
use std::test::Fail;
use std::thread::Threads;

// The procedure that adds 7 to a property.
const ADD: &str =
    "Procedure add(G: Graph; p: N_P<Int>) {\n  Foreach (n: G.Nodes) { n.p = n.p + 7; }\n}\n";

// The same with the line that parts it from its graph.
const ADD_OVER: &str =
    "Procedure add(G: Graph; p: N_P<Int>) {\n  Foreach (n: G.Nodes) { n.p = n.p + 7; }\n}\n%%\n";

#[test]
fn graphs(rt: HostRuntime) -> Result<(), Fail> {
    both_ways_hold(&rt, rt.alloc(), ADD_OVER, GRAPHS, 25)?;
    both_ways_hold(&rt, rt.alloc(), "", TEXTS, 2)
}

#[test]
fn parted_texts(rt: HostRuntime) -> Result<(), Fail> {
    both_ways_hold(&rt, rt.alloc(), "", PARTED, 12)
}

// Blanks, as many as bring a text to a length, with the text behind them and then a graph.
fn padded(alloc: Global, length: usize, text: &str) -> Result<Vec<u8>, Fail> {
    let mut input = vec![in alloc; b' '; length.saturating_sub(text.len())]?;
    input.extend_from_slice(text.as_bytes())?;
    input.extend_from_slice(b"%%\n5 6\n")?;
    Ok(input)
}

// Whether a program text of so many bytes, blanks before it, has this answer over a graph.
fn padded_holds(
    rt: &(impl Abort + Threads + Wait + Sync),
    alloc: Global,
    length: usize,
    text: &str,
    answer: &str,
) -> Result<(), Fail> {
    let input = padded(alloc, length, text)?;
    let ended = run(rt, alloc, "run - -", input, PLAIN)?;
    ends_with(rt, alloc, &ended, answer, text)
}

#[test]
fn longest_programs(rt: HostRuntime) -> Result<(), Fail> {
    let done = "node p\n5 7\n6 7\nturns 0\n";
    padded_holds(&rt, rt.alloc(), 1_048_576, ADD, done)?;
    let late = "refused TextTooLong at 3:2\n";
    padded_holds(&rt, rt.alloc(), 1_048_577, ADD, late)?;
    let early = "refused TextTooLong at 1:1048577\n";
    padded_holds(&rt, rt.alloc(), 1_200_000, ADD, early)
}
