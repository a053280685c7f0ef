//! The command `check`, over a source, files and a sink in memory.

use crate::calls::{PLAIN, Streams, ends_with, run_with};
use crate::compare::all_read;
use gm_files::MemFiles;
use gm_rows::checks::TEXTS;
use gm_tables::{is_row, parts_of};
use std::alloc::Global;
use std::process::Abort;
use std::sync::Wait;
use std::test::Fail;
use std::thread::Threads;

// The rows of these texts.
fn texts() -> &'static str {
    TEXTS
}

// Files in memory, of which there is one, with the numbers of the calls that fail.
fn one_file(alloc: Global, name: &str, text: Vec<u8>, fails: Vec<u64>) -> Result<MemFiles, Fail> {
    let mut files = Vec::new(alloc);
    files.push((String::from_str(alloc, name)?, text))?;
    Ok(MemFiles::new(files, fails))
}

// Whether a check of standard input, which is read in pieces, gives the answer of a row.
fn standard_input_holds(
    rt: &(impl Abort + Threads + Wait + Sync),
    alloc: Global,
    row: &str,
    piece_in: usize,
) -> Result<(), Fail> {
    let (_, program, line) = parts_of(row)?;
    let streams = Streams { piece_in, ..PLAIN };
    let input = Vec::from_slice(alloc, program.as_bytes())?;
    let mut files = one_file(alloc, "-", Vec::new(alloc), Vec::new(alloc))?;
    let ended = run_with(rt, alloc, "check -", input, streams, &mut files)?;
    ends_with(rt, alloc, &ended, line, row)
}

// The same in pieces of each size.
fn pieces_hold(
    rt: &(impl Abort + Threads + Wait + Sync),
    alloc: Global,
    row: &str,
) -> Result<(), Fail> {
    standard_input_holds(rt, alloc, row, 1)?;
    standard_input_holds(rt, alloc, row, 7)?;
    standard_input_holds(rt, alloc, row, 65536)
}

// Whether a check of a file gives the answer of a row.
fn file_holds(
    rt: &(impl Abort + Threads + Wait + Sync),
    alloc: Global,
    row: &str,
) -> Result<(), Fail> {
    let (_, program, line) = parts_of(row)?;
    let text = Vec::from_slice(alloc, program.as_bytes())?;
    let mut files = one_file(alloc, "a.gm", text, Vec::new(alloc))?;
    let input = Vec::from_slice(alloc, b"no program")?;
    let ended = run_with(rt, alloc, "check a.gm", input, PLAIN, &mut files)?;
    ends_with(rt, alloc, &ended, line, row)
}

#[test]
fn checks_of_standard_input(rt: HostRuntime) -> Result<(), Fail> {
    let mut read = 0usize;
    for row in texts().split('~') {
        if is_row(row) {
            pieces_hold(&rt, rt.alloc(), row)?;
            read = read.saturating_add(1);
        }
    }
    all_read(&rt, read, 16);
    Ok(())
}

#[test]
fn checks_of_files(rt: HostRuntime) -> Result<(), Fail> {
    for row in texts().split('~') {
        if is_row(row) {
            file_holds(&rt, rt.alloc(), row)?;
        }
    }
    Ok(())
}

const PROGRAM: &[u8] = b"Procedure f(G: Graph) { }";

// Whether a check with a file of which the read of this number fails writes this.
fn cannot_read(
    rt: &(impl Abort + Threads + Wait + Sync),
    alloc: Global,
    words: &str,
    fails: u64,
    text: &str,
) -> Result<(), Fail> {
    let program = Vec::from_slice(alloc, PROGRAM)?;
    let mut files = one_file(alloc, "a.gm", program, vec![in alloc; fails]?)?;
    let ended = run_with(rt, alloc, words, Vec::new(alloc), PLAIN, &mut files)?;
    ends_with(rt, alloc, &ended, text, words)
}

// Whether a check of standard input of which the read of this number fails says so.
fn cannot_read_standard_input(
    rt: &(impl Abort + Threads + Wait + Sync),
    alloc: Global,
    fails_in: u64,
) -> Result<(), Fail> {
    let streams = Streams {
        piece_in: 20,
        fails_in,
        ..PLAIN
    };
    let program = Vec::from_slice(alloc, PROGRAM)?;
    let mut files = one_file(alloc, "-", Vec::new(alloc), Vec::new(alloc))?;
    let ended = run_with(rt, alloc, "check -", program, streams, &mut files)?;
    ends_with(rt, alloc, &ended, "read fault -\n", "standard input")
}

#[test]
fn checks_that_cannot_read(rt: HostRuntime) -> Result<(), Fail> {
    cannot_read(&rt, rt.alloc(), "check b.gm", 0, "absent b.gm\n")?;
    cannot_read(&rt, rt.alloc(), "check a.gm", 1, "read fault a.gm\n")?;
    cannot_read(&rt, rt.alloc(), "check a.gm", 2, "read fault a.gm\n")?;
    cannot_read(&rt, rt.alloc(), "check -- a.gm", 2, "read fault a.gm\n")?;
    for fails_in in [1, 2, 3] {
        cannot_read_standard_input(&rt, rt.alloc(), fails_in)?;
    }
    Ok(())
}

// Whether the check of a text of so many bytes, blanks with a procedure at its end, writes this.
fn limit_holds(
    rt: &(impl Abort + Threads + Wait + Sync),
    alloc: Global,
    length: usize,
    text: &str,
) -> Result<(), Fail> {
    let mut program = vec![in alloc; b' '; length.saturating_sub(PROGRAM.len())]?;
    program.extend_from_slice(PROGRAM)?;
    let mut files = one_file(alloc, "a.gm", Vec::new(alloc), Vec::new(alloc))?;
    let ended = run_with(rt, alloc, "check -", program, PLAIN, &mut files)?;
    ends_with(rt, alloc, &ended, text, text)
}

// One byte more than the limit is refused at that byte, whatever stands there.
#[test]
fn checks_at_the_limit(rt: HostRuntime) -> Result<(), Fail> {
    let late = "refused TextTooLong at 1:1048577\n";
    limit_holds(&rt, rt.alloc(), 1_048_576, "accepted\n")?;
    limit_holds(&rt, rt.alloc(), 1_048_577, late)?;
    limit_holds(&rt, rt.alloc(), 1_100_000, late)
}
