//! The whole program over streams and files in memory, and tables of its answers.

use crate::compare::{all_read, same};
use gm_base::{Gate, NoMemory, OpenGate, Status};
use gm_driver::gm;
use gm_files::{MemFiles, MemSink, MemSource};
use gm_observe::{Counter, Observer, Table};
use gm_rows::calls::STATUSES;
use gm_tables::{is_row, parts_of};
use std::alloc::{AllocError, Global};
use std::process::Abort;
use std::sync::Wait;
use std::test::Fail;
use std::thread::Threads;

// How the streams of a call behave: the greatest numbers of bytes that a read and a write take, and the numbers of
// the reads and the writes that fail, 0 for none.
#[derive(Clone, Copy, Debug)]
pub struct Streams {
    pub piece_in: usize,
    pub fails_in: u64,
    pub piece_out: usize,
    pub fails_out: u64,
}

// Streams that do not fail, and take many bytes at a time.
pub const PLAIN: Streams = Streams {
    piece_in: 65536,
    fails_in: 0,
    piece_out: 65536,
    fails_out: 0,
};

// Streams that do not fail, and take one byte at a time.
const BYTE_BY_BYTE: Streams = Streams {
    piece_in: 1,
    fails_in: 0,
    piece_out: 1,
    fails_out: 0,
};

// The words of a line, between spaces.
fn words_in(alloc: Global, line: &str) -> Result<Vec<String>, Fail> {
    let mut words = Vec::new(alloc);
    for word in line.split(' ') {
        if !word.is_empty() {
            words.push(String::from_str(alloc, word)?)?;
        }
    }
    Ok(words)
}

// The one call of the program, with these words, this gate and these observers.
pub fn gated_call<G: Gate>(
    rt: &(impl Threads + Wait + Sync),
    alloc: Global,
    words: &str,
    source: &mut MemSource,
    files: &mut MemFiles,
    sink: &mut MemSink,
    gate: &G,
    observers: &mut Vec<Box<dyn Observer>>,
) -> Result<Status, Fail> {
    let words = words_in(alloc, words)?;
    Ok(gm(rt, alloc, &words, source, files, sink, gate, observers))
}

// The call with these observers and an open gate.
pub fn watched_call(
    rt: &(impl Threads + Wait + Sync),
    alloc: Global,
    words: &str,
    source: &mut MemSource,
    files: &mut MemFiles,
    sink: &mut MemSink,
    observers: &mut Vec<Box<dyn Observer>>,
) -> Result<Status, Fail> {
    gated_call(rt, alloc, words, source, files, sink, &OpenGate, observers)
}

// One of the observers of the program.
fn counter(alloc: Global) -> Result<Box<dyn Observer>, NoMemory> {
    let counter: Box<dyn Observer> = Box::new(alloc, Counter::new(alloc))?;
    Ok(counter)
}

// The other.
fn table(alloc: Global) -> Result<Box<dyn Observer>, NoMemory> {
    let table: Box<dyn Observer> = Box::new(alloc, Table::new(alloc))?;
    Ok(table)
}

// Two observers in a row.
pub fn both(
    alloc: Global,
    first: Box<dyn Observer>,
    second: Box<dyn Observer>,
) -> Result<Vec<Box<dyn Observer>>, NoMemory> {
    let mut observers: Vec<Box<dyn Observer>> = Vec::new(alloc);
    observers.push(first)?;
    observers.push(second)?;
    Ok(observers)
}

// The observers of the program.
fn program_observers(alloc: Global) -> Result<Vec<Box<dyn Observer>>, NoMemory> {
    both(alloc, counter(alloc)?, table(alloc)?)
}

// The call with the observers of the program.
pub fn call(
    rt: &(impl Threads + Wait + Sync),
    alloc: Global,
    words: &str,
    source: &mut MemSource,
    files: &mut MemFiles,
    sink: &mut MemSink,
) -> Result<Status, Fail> {
    let mut observers = program_observers(alloc)?;
    watched_call(rt, alloc, words, source, files, sink, &mut observers)
}

// A source of this kind.
fn source_of(alloc: Global, input: Vec<u8>, streams: Streams) -> Result<MemSource, Fail> {
    let fails = vec![in alloc; streams.fails_in]?;
    Ok(MemSource::new(input, streams.piece_in.max(1), fails))
}

// A sink of this kind.
fn sink_of(alloc: Global, streams: Streams) -> Result<MemSink, Fail> {
    let fails = vec![in alloc; streams.fails_out]?;
    Ok(MemSink::new(alloc, streams.piece_out.max(1), fails, 65536)?)
}

// A status, and what a sink took.
fn ended(alloc: Global, status: Status, sink: MemSink) -> Result<(Status, String), Fail> {
    let written = String::from_utf8_lossy(alloc, sink.taken())?;
    Ok((status, written))
}

// The status of a call over these files that these observers watch, and what it wrote.
pub fn run_watched(
    rt: &(impl Threads + Wait + Sync),
    alloc: Global,
    words: &str,
    input: Vec<u8>,
    streams: Streams,
    files: &mut MemFiles,
    observers: &mut Vec<Box<dyn Observer>>,
) -> Result<(Status, String), Fail> {
    let mut sink = sink_of(alloc, streams)?;
    let mut source = source_of(alloc, input, streams)?;
    let status = watched_call(rt, alloc, words, &mut source, files, &mut sink, observers)?;
    ended(alloc, status, sink)
}

// The status of a call over these files, and what it wrote.
pub fn run_with(
    rt: &(impl Threads + Wait + Sync),
    alloc: Global,
    words: &str,
    input: Vec<u8>,
    streams: Streams,
    files: &mut MemFiles,
) -> Result<(Status, String), Fail> {
    let mut observers = program_observers(alloc)?;
    run_watched(rt, alloc, words, input, streams, files, &mut observers)
}

// Adds a file.
pub fn put_file(
    alloc: Global,
    files: &mut Vec<(String, Vec<u8>)>,
    name: &str,
    text: &[u8],
) -> Result<(), AllocError> {
    let bytes = Vec::from_slice(alloc, text)?;
    files.push((String::from_str(alloc, name)?, bytes))?;
    Ok(())
}

// No files.
pub fn no_files(alloc: Global) -> MemFiles {
    MemFiles::new(Vec::new(alloc), Vec::new(alloc))
}

// The status of a call without files, and what it wrote.
pub fn run(
    rt: &(impl Threads + Wait + Sync),
    alloc: Global,
    words: &str,
    input: Vec<u8>,
    streams: Streams,
) -> Result<(Status, String), Fail> {
    let mut files = no_files(alloc);
    run_with(rt, alloc, words, input, streams, &mut files)
}

// Two texts, one behind the other.
pub fn joined(alloc: Global, front: &str, rest: &str) -> Result<Vec<u8>, Fail> {
    let mut text = Vec::from_slice(alloc, front.as_bytes())?;
    text.extend_from_slice(rest.as_bytes())?;
    Ok(text)
}

// A program and a graph, with the line that parts them.
pub fn two_texts(alloc: Global, program: &str, graph: &str) -> Result<Vec<u8>, Fail> {
    let mut text = joined(alloc, program, "\n%%\n")?;
    text.extend_from_slice(graph.as_bytes())?;
    Ok(text)
}

// The name of the status with which a call ends that writes this text. (A loop over words costs its proof far less than a
// match on them.)
pub fn status_of(written: &str) -> &'static str {
    let word = written.split(' ').next().unwrap_or("");
    for line in STATUSES.lines() {
        let (first, name) = line.split_once(' ').unwrap_or(("?", ""));
        if first == word {
            return name;
        }
    }
    "Done"
}

// Compares the end of a call with the text that it is to write and the name of its status.
pub fn ends_as(
    rt: &impl Abort,
    alloc: Global,
    ended: &(Status, String),
    text: &str,
    name: &str,
    what: &str,
) -> Result<(), Fail> {
    let (status, written) = ended;
    same(rt, written.as_str(), text, what);
    let status = format!(in alloc; "{status:?}")?;
    same(rt, status.as_str(), name, what);
    Ok(())
}

// Compares the end of a call with the text that it is to write and the status that belongs to this text.
pub fn ends_with(
    rt: &impl Abort,
    alloc: Global,
    ended: &(Status, String),
    text: &str,
    what: &str,
) -> Result<(), Fail> {
    ends_as(rt, alloc, ended, text, status_of(text), what)
}

// The words of a row's first line, behind the name of the row where it has one.
pub fn words_of(line: &str) -> &str {
    match line.split_once(": ") {
        Some((_, words)) => words,
        None => line,
    }
}

// How a call ends whose standard input has two parts.
fn ending(
    rt: &(impl Threads + Wait + Sync),
    alloc: Global,
    streams: Streams,
    words: &str,
    front: &str,
    rest: &str,
) -> Result<(Status, String), Fail> {
    let input = joined(alloc, front, rest)?;
    run(rt, alloc, words, input, streams)
}

// Whether a call gives its answer, over streams of this kind. The first line of a row has the words, behind the name of
// the row where it has one; then comes what stands on standard input, behind a text that all rows share; last, what is
// written.
fn call_holds(
    rt: &(impl Abort + Threads + Wait + Sync),
    alloc: Global,
    streams: Streams,
    front: &str,
    row: &str,
) -> Result<(), Fail> {
    let (line, rest, text) = parts_of(row)?;
    let ended = ending(rt, alloc, streams, words_of(line), front, rest)?;
    ends_with(rt, alloc, &ended, text, row)
}

// Whether each call of a table, which has so many rows with a `~` before each, gives its answer.
pub fn calls_hold(
    rt: &(impl Abort + Threads + Wait + Sync),
    alloc: Global,
    streams: Streams,
    front: &str,
    table: &str,
    count: usize,
) -> Result<(), Fail> {
    let mut read = 0usize;
    for row in table.split('~') {
        if is_row(row) {
            call_holds(rt, alloc, streams, front, row)?;
            read = read.saturating_add(1);
        }
    }
    all_read(rt, read, count);
    Ok(())
}

// The same, over streams that take many bytes at a time, and over those that take one.
pub fn both_ways_hold(
    rt: &(impl Abort + Threads + Wait + Sync),
    alloc: Global,
    front: &str,
    table: &str,
    count: usize,
) -> Result<(), Fail> {
    calls_hold(rt, alloc, PLAIN, front, table, count)?;
    calls_hold(rt, alloc, BYTE_BY_BYTE, front, table, count)
}
