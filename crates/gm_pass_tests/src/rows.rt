//! The worked programs of the language and the programs of the folder `examples`, each over its graph: what is written is
//! the same before the passes and after each of them.

use crate::compare::{all_read, same};
use crate::passes::{ALL_STEPS, PARTED, PHASES, Pass, WHOLE, after};
use crate::runs::{listing, program_of};
use gm_ast::forms::Work;
use gm_compiler_rows::passes::ROWS;
use gm_examples::{COUNT, examples};
use gm_tables::{parts_of, sides};
use std::alloc::Global;
use std::process::Abort;
use std::test::Fail;

// Whether a program lists what is wanted over a graph.
fn lists(
    rt: &impl Abort,
    alloc: Global,
    program: &Work,
    line: &str,
    graph: &str,
    wanted: &str,
) -> Result<(), Fail> {
    let written = listing(alloc, program, line, graph)?;
    same(rt, written.as_str(), wanted, line);
    Ok(())
}

// What a pass makes of a program, which lists what is wanted.
fn listing_behind(
    rt: &impl Abort,
    alloc: Global,
    pass: Pass,
    program: Work,
    line: &str,
    graph: &str,
    wanted: &str,
) -> Result<Work, Fail> {
    let program = after(alloc, &[pass], program)?;
    lists(rt, alloc, &program, line, graph, wanted)?;
    Ok(program)
}

// Whether a program has its listing after each of some passes.
fn listings_behind(
    rt: &impl Abort,
    alloc: Global,
    passes: &[Pass],
    program: Work,
    line: &str,
    graph: &str,
    wanted: &str,
) -> Result<(), Fail> {
    let mut program = program;
    for pass in passes {
        program = listing_behind(rt, alloc, *pass, program, line, graph, wanted)?;
    }
    Ok(())
}

// Whether a program has its listing before some passes and after each of them.
fn listing_holds(
    rt: &impl Abort,
    alloc: Global,
    line: &str,
    given: &str,
    wanted: &str,
    passes: &[Pass],
) -> Result<(), Fail> {
    let (text, graph) = sides(given, "%%\n")?;
    let program = program_of(rt, alloc, text)?;
    lists(rt, alloc, &program, line, graph, wanted)?;
    listings_behind(rt, alloc, passes, program, line, graph, wanted)
}

// The same on each road.
fn listings_hold(
    rt: &impl Abort,
    alloc: Global,
    line: &str,
    given: &str,
    wanted: &str,
) -> Result<(), Fail> {
    listing_holds(rt, alloc, line, given, wanted, &ALL_STEPS)?;
    listing_holds(rt, alloc, line, given, wanted, &PHASES)?;
    listing_holds(rt, alloc, line, given, wanted, &WHOLE)?;
    listing_holds(rt, alloc, line, given, wanted, &PARTED)
}

// The same of a row.
fn row_holds(rt: &impl Abort, alloc: Global, row: &str) -> Result<(), Fail> {
    let (line, given, wanted) = parts_of(row)?;
    listings_hold(rt, alloc, line, given, wanted)
}

// The same of an example, whose words stand behind its name.
fn example_holds(rt: &impl Abort, alloc: Global, row: &str) -> Result<(), Fail> {
    let (head, given, wanted) = parts_of(row)?;
    let (_, words) = sides(head, ":")?;
    let line = format!(in alloc; "run - - {words}")?;
    listings_hold(rt, alloc, line.as_str(), given, wanted)
}

#[test]
fn worked_programs_run_the_same(rt: HostRuntime) -> Result<(), Fail> {
    let mut read = 0usize;
    for row in ROWS.split('~') {
        if row.len() > 1 {
            row_holds(&rt, rt.alloc(), row)?;
            read = read.saturating_add(1);
        }
    }
    all_read(&rt, read, 33);
    Ok(())
}

#[test]
fn examples_run_the_same(rt: HostRuntime) -> Result<(), Fail> {
    let mut read = 0usize;
    for row in examples().split('~') {
        if row.len() > 1 {
            example_holds(&rt, rt.alloc(), row)?;
            read = read.saturating_add(1);
        }
    }
    all_read(&rt, read, COUNT);
    Ok(())
}
