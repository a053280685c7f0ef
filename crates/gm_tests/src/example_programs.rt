//! The programs of the folder `examples`, each over its graph: by files, and the program on standard input.

use crate::calls::{PLAIN, ends_with, joined, put_file, run, run_with, two_texts};
use crate::compare::all_read;
use gm_base::Status;
use gm_examples::{COUNT, examples};
use gm_files::MemFiles;
use gm_tables::{is_row, parts_of, sides};
use std::alloc::Global;
use std::process::Abort;
use std::sync::Wait;
use std::test::Fail;
use std::thread::Threads;

// The files of an example.
fn files_of(alloc: Global, program: &str, graph: &str) -> Result<MemFiles, Fail> {
    let mut files = Vec::new(alloc);
    put_file(alloc, &mut files, "it.gm", program.as_bytes())?;
    put_file(alloc, &mut files, "it.graph", graph.as_bytes())?;
    Ok(MemFiles::new(files, Vec::new(alloc)))
}

// How a call ends: with these words before and behind those of the example, this standard input and the example's files.
fn ending(
    rt: &(impl Threads + Wait + Sync),
    alloc: Global,
    front: &str,
    behind: &str,
    row: &str,
    input: Vec<u8>,
) -> Result<(Status, String), Fail> {
    let (line, given, _) = parts_of(row)?;
    let (_, words) = sides(line, ":")?;
    let (program, graph) = sides(given, "%%\n")?;
    let mut files = files_of(alloc, program, graph)?;
    let words = format!(in alloc; "{front} {words} {behind}")?;
    run_with(rt, alloc, words.as_str(), input, PLAIN, &mut files)
}

// What is written of an example.
fn written_of(row: &str) -> Result<&str, Fail> {
    let (_, _, written) = parts_of(row)?;
    Ok(written)
}

// An example in two files.
fn holds_in_files(
    rt: &(impl Abort + Threads + Wait + Sync),
    alloc: Global,
    row: &str,
) -> Result<(), Fail> {
    let ended = ending(rt, alloc, "run it.gm it.graph", "", row, Vec::new(alloc))?;
    ends_with(rt, alloc, &ended, written_of(row)?, row)
}

// The program and the graph of an example on standard input.
fn input_of(alloc: Global, row: &str) -> Result<Vec<u8>, Fail> {
    let (_, given, _) = parts_of(row)?;
    let (program, graph) = sides(given, "%%\n")?;
    two_texts(alloc, program, graph)
}

// An example on standard input, by one worker.
fn holds_on_standard_input(
    rt: &(impl Abort + Threads + Wait + Sync),
    alloc: Global,
    row: &str,
) -> Result<(), Fail> {
    let ended = ending(
        rt,
        alloc,
        "run - -",
        "--workers=1",
        row,
        input_of(alloc, row)?,
    )?;
    ends_with(rt, alloc, &ended, written_of(row)?, row)
}

// The program of an example breaks no rule.
fn keeps_the_rules(
    rt: &(impl Abort + Threads + Wait + Sync),
    alloc: Global,
    row: &str,
) -> Result<(), Fail> {
    let (_, given, _) = parts_of(row)?;
    let (program, _) = sides(given, "%%\n")?;
    let input = joined(alloc, program, "")?;
    let ended = run(rt, alloc, "check -", input, PLAIN)?;
    ends_with(rt, alloc, &ended, "accepted\n", row)
}

#[test]
fn examples_in_files(rt: HostRuntime) -> Result<(), Fail> {
    let mut read = 0usize;
    for row in examples().split('~') {
        if is_row(row) {
            holds_in_files(&rt, rt.alloc(), row)?;
            read = read.saturating_add(1);
        }
    }
    all_read(&rt, read, COUNT);
    Ok(())
}

#[test]
fn examples_on_standard_input(rt: HostRuntime) -> Result<(), Fail> {
    for row in examples().split('~') {
        if is_row(row) {
            holds_on_standard_input(&rt, rt.alloc(), row)?;
        }
    }
    Ok(())
}

#[test]
fn examples_keep_the_rules(rt: HostRuntime) -> Result<(), Fail> {
    for row in examples().split('~') {
        if is_row(row) {
            keeps_the_rules(&rt, rt.alloc(), row)?;
        }
    }
    Ok(())
}
