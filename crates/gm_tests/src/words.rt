//! Words that ask for nothing, and demonstrations.

use crate::calls::{PLAIN, calls_hold, ends_with, run};
use crate::compare::all_read;
use gm_rows::words::{DEMOS, FAULTY};
use std::alloc::Global;
use std::process::Abort;
use std::sync::Wait;
use std::test::Fail;
use std::thread::Threads;

const USAGE: &str =
    "usage: gm run PROG GRAPH | check PROG | compile PROG | exec IMAGE GRAPH | demo N\n";

// Whether words are answered by the line of usage.
fn is_told_the_usage(
    rt: &(impl Abort + Threads + Wait + Sync),
    alloc: Global,
    words: &str,
) -> Result<(), Fail> {
    let ended = run(rt, alloc, words, Vec::new(alloc), PLAIN)?;
    ends_with(rt, alloc, &ended, USAGE, words)
}

// Whether so many lines of words are answered by the line of usage.
fn are_told_the_usage(
    rt: &(impl Abort + Threads + Wait + Sync),
    alloc: Global,
    lines: &str,
    count: usize,
) -> Result<(), Fail> {
    let mut read = 0usize;
    for words in lines.lines() {
        is_told_the_usage(rt, alloc, words)?;
        read = read.saturating_add(1);
    }
    all_read(rt, read, count);
    Ok(())
}

#[test]
fn faulty_words(rt: HostRuntime) -> Result<(), Fail> {
    are_told_the_usage(&rt, rt.alloc(), FAULTY, 44)
}

#[test]
fn demonstrations(rt: HostRuntime) -> Result<(), Fail> {
    calls_hold(&rt, rt.alloc(), PLAIN, "", DEMOS, 7)
}
