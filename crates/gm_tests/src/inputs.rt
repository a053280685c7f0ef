//! A program with inputs of several types over faulty graphs and with faulty arguments.

use crate::calls::{PLAIN, Streams, calls_hold};
use gm_rows::inputs::{ARGUMENTS, DONE, GRAPHS};
use std::test::Fail;

const PROGRAM: &str =
    "Procedure f(G: Graph, w: E_P<Bool>, k: Int, p: N_P<Int>, r: Node; q: N_P<Bool>, s: Long)\n{\n}\n%%\n";

#[test]
fn faulty_graphs(rt: HostRuntime) -> Result<(), Fail> {
    calls_hold(&rt, rt.alloc(), PLAIN, PROGRAM, GRAPHS, 18)
}

#[test]
fn faulty_arguments(rt: HostRuntime) -> Result<(), Fail> {
    calls_hold(&rt, rt.alloc(), PLAIN, PROGRAM, ARGUMENTS, 31)
}

#[test]
fn inputs_in_order(rt: HostRuntime) -> Result<(), Fail> {
    calls_hold(&rt, rt.alloc(), PLAIN, PROGRAM, DONE, 4)
}

// A graph that comes in pieces of two bytes is judged as the whole is.
#[test]
fn inputs_in_pieces(rt: HostRuntime) -> Result<(), Fail> {
    let in_pairs = Streams {
        piece_in: 2,
        ..PLAIN
    };
    calls_hold(&rt, rt.alloc(), in_pairs, PROGRAM, GRAPHS, 18)?;
    calls_hold(&rt, rt.alloc(), in_pairs, PROGRAM, DONE, 4)
}

// A read that fails is said before a faulty argument.
#[test]
fn inputs_that_are_not_read(rt: HostRuntime) -> Result<(), Fail> {
    let failing = Streams {
        piece_in: 2,
        fails_in: 50,
        ..PLAIN
    };
    let row = "
~ run - - r=0
0 1 1
0 1 1
0 1 1
=>
read fault -
";
    calls_hold(&rt, rt.alloc(), failing, PROGRAM, row, 1)
}
