//! How far standard input is read: what it has left after a call.

use crate::calls::{call, no_files};
use crate::compare::all_read;
use gm_files::{MemSink, MemSource, read_all};
use gm_rows::readings::READINGS;
use gm_tables::{is_row, parts_of};
use std::alloc::Global;
use std::process::Abort;
use std::sync::Wait;
use std::test::Fail;
use std::thread::Threads;

// A call over a source.
fn call_over(
    rt: &(impl Threads + Wait + Sync),
    alloc: Global,
    words: &str,
    source: &mut MemSource,
) -> Result<(), Fail> {
    let mut files = no_files(alloc);
    let mut sink = MemSink::new(alloc, 65536, Vec::new(alloc), 65536)?;
    let _ = call(rt, alloc, words, source, &mut files, &mut sink)?;
    Ok(())
}

// What standard input has left after a call over this text, which is read two bytes at a time.
fn left_after(
    rt: &(impl Threads + Wait + Sync),
    alloc: Global,
    words: &str,
    text: Vec<u8>,
) -> Result<Vec<u8>, Fail> {
    let mut source = MemSource::new(text, 2, Vec::new(alloc));
    call_over(rt, alloc, words, &mut source)?;
    match read_all(alloc, &mut source, 2_000_000) {
        Ok(rest) => Ok(rest),
        Err(_) => Err("a read failed")?,
    }
}

// Whether what is left is what a row says.
fn leaves(rt: &(impl Abort + Threads + Wait + Sync), alloc: Global, row: &str) -> Result<(), Fail> {
    let (words, text, left) = parts_of(row)?;
    let bytes = Vec::from_slice(alloc, text.as_bytes())?;
    let rest = left_after(rt, alloc, words, bytes)?;
    assert_eq!(rt; rest.as_slice(), left.as_bytes(), "{row}");
    Ok(())
}

#[test]
fn texts_are_read_as_far_as_they_are_needed(rt: HostRuntime) -> Result<(), Fail> {
    let mut read = 0usize;
    for row in READINGS.split('~') {
        if is_row(row) {
            leaves(&rt, rt.alloc(), row)?;
            read = read.saturating_add(1);
        }
    }
    all_read(&rt, read, 9);
    Ok(())
}

// Whether so many bytes are left of a text of 1,048,600 blanks, or one less.
fn leaves_about(
    rt: &(impl Abort + Threads + Wait + Sync),
    alloc: Global,
    words: &str,
    left: usize,
) -> Result<(), Fail> {
    let text = vec![in alloc; 32u8; 1_048_600]?;
    let rest = left_after(rt, alloc, words, text)?.len();
    assert!(rt; rest == left || rest.saturating_add(1) == left, "{words}");
    Ok(())
}

#[test]
fn a_long_program_is_read_to_one_byte_past_its_limit(rt: HostRuntime) -> Result<(), Fail> {
    for words in ["check -", "run - none", "run - -"] {
        leaves_about(&rt, rt.alloc(), words, 23)?;
    }
    Ok(())
}
