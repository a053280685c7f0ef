//! Worked programs: what is written of them over their graphs is written of their images.

use crate::compare::all_read;
use crate::runs::images_do;
use gm_compiler_rows::programs::PROGRAMS;
use gm_tables::{is_row, parts_of, sides};
use std::alloc::Global;
use std::process::Abort;
use std::sync::Wait;
use std::test::Fail;
use std::thread::Threads;

// Whether what is written of a row's program is written of its images too.
fn program_holds(
    rt: &(impl Abort + Threads + Wait + Sync),
    alloc: Global,
    row: &str,
) -> Result<(), Fail> {
    let (words, given, wanted) = parts_of(row)?;
    let (text, graph) = sides(given, "%%\n")?;
    images_do(rt, alloc, words, text, graph, wanted)
}

#[test]
fn worked_programs_run_as_images(rt: HostRuntime) -> Result<(), Fail> {
    let mut read = 0usize;
    for row in PROGRAMS.split('~') {
        if is_row(row) {
            program_holds(&rt, rt.alloc(), row)?;
            read = read.saturating_add(1);
        }
    }
    all_read(&rt, read, 40);
    Ok(())
}
