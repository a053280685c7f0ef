//! The programs of the folder `examples`: what is written of them over their graphs is written of their images before any
//! supersteps are merged.

use crate::compare::all_read;
use crate::runs::lowered_does;
use gm_examples::{COUNT, examples};
use gm_tables::{is_row, parts_of, sides};
use std::alloc::Global;
use std::process::Abort;
use std::sync::Wait;
use std::test::Fail;
use std::thread::Threads;

// Whether an example's image does what is written of the example.
fn example_holds(
    rt: &(impl Abort + Threads + Wait + Sync),
    alloc: Global,
    row: &str,
) -> Result<(), Fail> {
    let (line, given, wanted) = parts_of(row)?;
    let (_, words) = sides(line, ":")?;
    let (text, graph) = sides(given, "%%\n")?;
    lowered_does(rt, alloc, words, text, graph, wanted)
}

#[test]
fn examples_run_as_images(rt: HostRuntime) -> Result<(), Fail> {
    let mut read = 0usize;
    for row in examples().split('~') {
        if is_row(row) {
            example_holds(&rt, rt.alloc(), row)?;
            read = read.saturating_add(1);
        }
    }
    all_read(&rt, read, COUNT);
    Ok(())
}
