//! Graphs in the Matrix Market format, by the whole call.

use crate::calls::{PLAIN, both_ways_hold, joined, run};
use crate::compare::{all_read, same};
use gm_base::Status;
use gm_rows::matrix_market::{DEGREES_OVER, PAIRS, PATHS, PATHS_OVER};
use gm_tables::{is_row, parts_of};
use std::alloc::{AllocError, Global};
use std::process::Abort;
use std::sync::Wait;
use std::test::Fail;
use std::thread::Threads;

// The image that gives each node the number of edges to it.
const DEGREES: &str =
    "gm-image 1\nname degrees\ninputs 0\noutputs 1\nnode I s 0\nresult -\nglobals 0\nfields 1\nI\nregisters 0\ncolumns 0\nkinds 1\n- I\nplaces 1\n2 32\nblocks 2\nblock 0\nbody 2\neach out 1\nsend 0 nb c I 1\nblock 1\non 0 1\nfold sum 0 0 m 0\nbody 0\nmaster 3\nstep 0\nstep 1\nend\n%%\n";

#[test]
fn graphs(rt: HostRuntime) -> Result<(), Fail> {
    both_ways_hold(&rt, rt.alloc(), PATHS, PATHS_OVER, 12)?;
    both_ways_hold(&rt, rt.alloc(), DEGREES, DEGREES_OVER, 2)
}

// A line with the number that it begins with one greater, where it begins with one.
fn one_greater(alloc: Global, line: &str) -> Result<String, AllocError> {
    let (first, rest) = line.split_once(' ').unwrap_or(("", ""));
    match first.parse::<u32>() {
        Ok(number) => format!(in alloc; "{} {rest}\n", u64::from(number) + 1),
        Err(_) => format!(in alloc; "{line}\n"),
    }
}

// A listing with each node's number one greater.
fn numbered_from_one(alloc: Global, listing: &str) -> Result<String, Fail> {
    let mut text = String::new(alloc);
    for line in listing.lines() {
        let numbered = one_greater(alloc, line)?;
        text.push_str(numbered.as_str())?;
    }
    Ok(text)
}

// What a program lists over a graph.
fn listing(
    rt: &(impl Abort + Threads + Wait + Sync),
    alloc: Global,
    words: &str,
    program: &str,
    graph: &str,
) -> Result<String, Fail> {
    let input = joined(alloc, program, graph)?;
    let (status, listed) = run(rt, alloc, words, input, PLAIN)?;
    assert_eq!(rt; status, Status::Done, "{graph}");
    Ok(listed)
}

// Whether a program lists the same over both texts of a graph, but for the numbers of the nodes.
fn lists_the_same(
    rt: &(impl Abort + Threads + Wait + Sync),
    alloc: Global,
    program: &str,
    edges: &str,
    matrix: &str,
) -> Result<(), Fail> {
    let listed = listing(rt, alloc, "run - - root=0", program, edges)?;
    let written = listing(rt, alloc, "run - - root=1 --format mtx", program, matrix)?;
    let wanted = numbered_from_one(alloc, listed.as_str())?;
    same(rt, written.as_str(), wanted.as_str(), matrix);
    Ok(())
}

#[test]
fn edge_lists_give_the_same_listings(rt: HostRuntime) -> Result<(), Fail> {
    let mut read = 0usize;
    for row in PAIRS.split('~') {
        if is_row(row) {
            let (_, edges, matrix) = parts_of(row)?;
            lists_the_same(&rt, rt.alloc(), PATHS, edges, matrix)?;
            read = read.saturating_add(1);
        }
    }
    all_read(&rt, read, 4);
    Ok(())
}
