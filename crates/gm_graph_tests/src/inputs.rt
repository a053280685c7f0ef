//! Inputs in pieces of every size, with ample memory.

ghost use Rattle.std.specs.Prelude.{◌<◌};

use crate::compare::{same, same_bytes, sides_at};
use gm_files::{MemSource, read_all};
use gm_input::{Front, FrontStop, read_front, read_rest};
use std::alloc::{AllocError, Global};
use std::process::Abort;
use std::test::Fail;

// An input that is read in pieces of this size; the call of this number fails.
fn source_of(alloc: Global, text: &[u8], piece: usize, fails: u64) -> Result<MemSource, AllocError>
    requires { 0 < piece }
{
    let fails = vec![in alloc; fails]?;
    Ok(MemSource::new(Vec::from_slice(alloc, text)?, piece, fails))
}

// Writes the graph of an input.
fn put_rest(
    alloc: Global,
    shown: &mut Vec<u8>,
    front: Front,
    source: &mut MemSource,
    limit: usize,
) -> Result<(), AllocError> {
    match read_rest(alloc, front.ahead, front.ended, source, limit) {
        Ok(rest) => shown.extend_from_slice(&rest),
        Err(FrontStop::Failed) => shown.extend_from_slice(b"failed"),
        Err(FrontStop::NoMemory) => Err(AllocError),
    }
}

// The program of an input and its graph, with `|` between.
fn both_parts(
    alloc: Global,
    front: Front,
    source: &mut MemSource,
    limit: usize,
) -> Result<Vec<u8>, AllocError> {
    let mut shown = Vec::from_slice(alloc, &front.program)?;
    shown.extend_from_slice(b"|")?;
    put_rest(alloc, &mut shown, front, source, limit)?;
    Ok(shown)
}

// The program and the graph of an input, at most so many bytes of each, with `|` between.
fn parts_of(
    alloc: Global,
    source: &mut MemSource,
    most: usize,
    limit: usize,
) -> Result<Vec<u8>, AllocError> {
    match read_front(alloc, source, most) {
        Ok(front) => both_parts(alloc, front, source, limit),
        Err(FrontStop::Failed) => Vec::from_slice(alloc, b"failed"),
        Err(FrontStop::NoMemory) => Err(AllocError),
    }
}

// The same of a text that is read in pieces of this size; the call of this number fails.
fn parts(
    alloc: Global,
    text: &[u8],
    piece: usize,
    most: usize,
    limit: usize,
    fails: u64,
) -> Result<Vec<u8>, AllocError>
    requires { 0 < piece }
{
    let mut source = source_of(alloc, text, piece, fails)?;
    parts_of(alloc, &mut source, most, limit)
}

// Inputs, each between `~` and a backtick, and their program and graph.
const PARTED: &str = "\
    ~`|\
    ~a\nb`a\nb|\
    ~a\n%%\n0 1\n`a\n|0 1\n\
    ~a\r\n%%\r\n0 1\r\n`a\r\n|0 1\r\n\
    ~a\n%%`a\n|\
    ~a\n%%\r`a\n|\
    ~a\n%`a\n%|\
    ~%%\n%%\n`|%%\n\
    ~%%\n\n`|\n\
    ~a\n%%b`a\n%%b|\
    ~a\n%%\rb`a\n%%\rb|\
    ~a%%\n%%b\n %%\n% %\n%\n%%%\n%%\r\r\n%%\n7 %%\n8`a%%\n%%b\n %%\n% %\n%\n%%%\n%%\r\r\n|7 %%\n8";

// Compares the parts of an input that is read in pieces of this size.
fn compare_piece(
    rt: &(impl Abort + AllocGlobal),
    text: &str,
    piece: usize,
    shown: &str,
) -> Result<(), Fail>
    requires { 0 < piece }
{
    let read = parts(rt.alloc(), text.as_bytes(), piece, 1_048_577, 1_000, 0)?;
    same_bytes(rt, piece, read.as_slice(), shown.as_bytes());
    Ok(())
}

// Compares the parts of a row's input, which is read in pieces of every size up to 9.
fn compare_pieces(rt: &(impl Abort + AllocGlobal), row: &str) -> Result<(), Fail> {
    let (text, shown) = sides_at(row, "`")?;
    for piece in 1..10 {
        compare_piece(rt, text, piece, shown)?;
    }
    Ok(())
}

#[test]
fn inputs_are_parted_at_the_first_mark(rt: HostRuntime) -> Result<(), Fail> {
    let mut read = 0usize;
    for row in PARTED.split('~') {
        if !row.is_empty() {
            compare_pieces(&rt, row)?;
            read = read.saturating_add(1);
        }
    }
    same(&rt, 0, read, 12);
    Ok(())
}

// Compares what comes of one input within limits: how many bytes of the program, how many of the graph, and which call
// fails.
fn compare_within(
    rt: &(impl Abort + AllocGlobal),
    most: usize,
    limit: usize,
    fails: u64,
    shown: &[u8],
) -> Result<(), Fail> {
    let read = parts(rt.alloc(), b"ab\n%%\n1 2", 2, most, limit, fails)?;
    same_bytes(rt, most, read.as_slice(), shown);
    Ok(())
}

#[test]
fn inputs_are_read_within_their_limits(rt: HostRuntime) -> Result<(), Fail> {
    compare_within(&rt, 5, 3, 0, b"ab\n|1 2")?;
    compare_within(&rt, 4, 3, 0, b"ab\n|1 2")?;
    compare_within(&rt, 4, 2, 0, b"ab\n|1 ")?;
    compare_within(&rt, 2, 9, 0, b"ab|\n%%\n1 2")
}

#[test]
fn failed_reads_are_told(rt: HostRuntime) -> Result<(), Fail> {
    compare_within(&rt, 4, 3, 1, b"failed")?;
    compare_within(&rt, 4, 3, 3, b"failed")?;
    compare_within(&rt, 4, 3, 4, b"ab\n|failed")
}

// What an input has left once so many bytes of its program are read.
fn rest_behind(alloc: Global, source: &mut MemSource, most: usize) -> Result<Vec<u8>, Fail> {
    let _ = read_front(alloc, source, most);
    Ok(read_all(alloc, source, 1_000)?)
}

// Compares what an input has left once at most so many bytes of its program are read.
fn compare_rest(rt: &(impl Abort + AllocGlobal), most: usize, left: &[u8]) -> Result<(), Fail> {
    let mut source = source_of(rt.alloc(), b"abcdef\n%%\n1 2\n3", 2, 0)?;
    let rest = rest_behind(rt.alloc(), &mut source, most)?;
    same_bytes(rt, most, rest.as_slice(), left);
    Ok(())
}

#[test]
fn no_more_is_read_than_the_program_asks_for(rt: HostRuntime) -> Result<(), Fail> {
    compare_rest(&rt, 1, b"cdef\n%%\n1 2\n3")?;
    compare_rest(&rt, 4, b"ef\n%%\n1 2\n3")?;
    compare_rest(&rt, 6, b"\n%%\n1 2\n3")?;
    compare_rest(&rt, 8, b"1 2\n3")
}
