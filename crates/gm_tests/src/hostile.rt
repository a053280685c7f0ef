//! Streams and files that fail in each of their calls in turn, and graphs that are cut anywhere.

use crate::calls::{
    PLAIN, Streams, call, ends_as, ends_with, joined, no_files, put_file, run, run_with, status_of,
};
use crate::compare::all_read;
use gm_base::{Failed, Status};
use gm_files::{FileFault, Files, MemFiles, MemSink, MemSource, Source};
use gm_rows::hostile::{CUT_ANYWHERE, ENDINGS, FILES, FIRST, READINGS};
use gm_tables::{is_row, number_of, parts_of, sides};
use std::alloc::Global;
use std::process::Abort;
use std::sync::Wait;
use std::test::Fail;
use std::thread::Threads;

// The procedure that adds 7 to a property, a graph, and what is written of them.
const ADD: &str =
    "Procedure add(G: Graph; p: N_P<Int>) { Foreach (n: G.Nodes) { n.p = n.p + 7; } }\n";

const GRAPH: &str = "0 1\n1 2\n";

const WRITTEN: &str = "node p\n0 7\n1 7\n2 7\nturns 0\n";

// A program that breaks a rule, and what is written of it.
const DOUBLE: &str = "Procedure f(G: Graph) { Double d; }\n";

const REFUSED: &str = "refused U1 at 1:25\n";

// The name of the status of a call of whose text so many bytes were taken before a write failed, if one did.
fn name_after(text: &str, before: usize) -> &'static str {
    if before < text.len() {
        "WriteFault"
    } else {
        status_of(text)
    }
}

// How a call ends whose write of this number fails.
fn cut_ending(
    rt: &(impl Threads + Wait + Sync),
    alloc: Global,
    words: &str,
    given: &str,
    piece: usize,
    failing: usize,
) -> Result<(Status, String), Fail> {
    let streams = Streams {
        piece_out: piece,
        fails_out: failing as u64,
        ..PLAIN
    };
    run(rt, alloc, words, joined(alloc, given, "")?, streams)
}

// Whether a sink whose write of this number fails has taken exactly the pieces before it, each of so many bytes.
fn takes_what_came_before(
    rt: &(impl Abort + Threads + Wait + Sync),
    alloc: Global,
    row: &str,
    piece: usize,
    failing: usize,
) -> Result<(), Fail> {
    let (words, given, text) = parts_of(row)?;
    let ended = cut_ending(rt, alloc, words, given, piece, failing)?;
    let before = piece
        .saturating_mul(failing.saturating_sub(1))
        .min(text.len());
    let front = text.get(..before).unwrap_or(text);
    ends_as(rt, alloc, &ended, front, name_after(text, before), row)
}

// Whether each write of pieces of so many bytes fails in turn, until the whole is written.
fn writes_fail(
    rt: &(impl Abort + Threads + Wait + Sync),
    alloc: Global,
    row: &str,
    piece: usize,
    most: usize,
) -> Result<(), Fail> {
    for failing in 1..most {
        takes_what_came_before(rt, alloc, row, piece, failing)?;
    }
    Ok(())
}

#[test]
fn each_write_fails_in_turn(rt: HostRuntime) -> Result<(), Fail> {
    let mut read = 0usize;
    for row in ENDINGS.split('~') {
        if is_row(row) {
            writes_fail(&rt, rt.alloc(), row, 13, 5)?;
            writes_fail(&rt, rt.alloc(), row, 65536, 3)?;
            read = read.saturating_add(1);
        }
    }
    all_read(&rt, read, 10);
    Ok(())
}

#[test]
fn each_write_of_a_byte_fails_in_turn(rt: HostRuntime) -> Result<(), Fail> {
    writes_fail(&rt, rt.alloc(), FIRST, 1, 32)
}

// The files of a program and of its graph, of which the read of this number fails.
fn two_files(alloc: Global, failing: u64) -> Result<MemFiles, Fail> {
    let mut files = Vec::new(alloc);
    put_file(alloc, &mut files, "a.gm", ADD.as_bytes())?;
    put_file(alloc, &mut files, "a.graph", GRAPH.as_bytes())?;
    put_file(alloc, &mut files, "refused.gm", DOUBLE.as_bytes())?;
    Ok(MemFiles::new(files, vec![in alloc; failing]?))
}

// What is written where so many bytes are read of a standard input before a read fails: its reads take so many bytes each,
// and one more finds the end.
fn written_after<'a>(given: &str, text: &'a str, piece: usize, reads_before: usize) -> &'a str {
    if reads_before < given.len().saturating_add(piece) {
        "read fault -\n"
    } else {
        text
    }
}

// How a call ends whose read of this number fails.
fn failed_ending(
    rt: &(impl Threads + Wait + Sync),
    alloc: Global,
    words: &str,
    given: &str,
    piece: usize,
    failing: usize,
) -> Result<(Status, String), Fail> {
    let streams = Streams {
        piece_in: piece,
        fails_in: failing as u64,
        ..PLAIN
    };
    let input = joined(alloc, given, "")?;
    run_with(rt, alloc, words, input, streams, &mut two_files(alloc, 0)?)
}

// Whether a call whose read of this number fails says so, where it comes to that read.
fn says_that_a_read_failed(
    rt: &(impl Abort + Threads + Wait + Sync),
    alloc: Global,
    row: &str,
    piece: usize,
    failing: usize,
) -> Result<(), Fail> {
    let (words, given, text) = parts_of(row)?;
    let ended = failed_ending(rt, alloc, words, given, piece, failing)?;
    let reads_before = piece.saturating_mul(failing.saturating_sub(1));
    let answer = written_after(given, text, piece, reads_before);
    ends_with(rt, alloc, &ended, answer, row)
}

// Whether each read of pieces of so many bytes fails in turn, until the end was read.
fn reads_fail(
    rt: &(impl Abort + Threads + Wait + Sync),
    alloc: Global,
    row: &str,
    piece: usize,
    most: usize,
) -> Result<(), Fail> {
    for failing in 1..most {
        says_that_a_read_failed(rt, alloc, row, piece, failing)?;
    }
    Ok(())
}

#[test]
fn each_read_fails_in_turn(rt: HostRuntime) -> Result<(), Fail> {
    let mut read = 0usize;
    for row in READINGS.split('~') {
        if is_row(row) {
            reads_fail(&rt, rt.alloc(), row, 20, 9)?;
            reads_fail(&rt, rt.alloc(), row, 65536, 4)?;
            read = read.saturating_add(1);
        }
    }
    all_read(&rt, read, 6);
    Ok(())
}

#[test]
fn each_read_of_a_byte_fails_in_turn(rt: HostRuntime) -> Result<(), Fail> {
    let row = "run - -\nProcedure f(G: Graph) { }=>\nturns 0\n";
    reads_fail(&rt, rt.alloc(), row, 1, 29)
}

// Whether a call over the two files gives the answer of a row.
fn file_fails(
    rt: &(impl Abort + Threads + Wait + Sync),
    alloc: Global,
    row: &str,
) -> Result<(), Fail> {
    let (line, _, text) = parts_of(row)?;
    let (number, words) = sides(line, ": ")?;
    let mut files = two_files(alloc, number_of(number)?)?;
    let ended = run_with(rt, alloc, words, Vec::new(alloc), PLAIN, &mut files)?;
    ends_with(rt, alloc, &ended, text, row)
}

#[test]
fn each_read_of_a_file_fails_in_turn(rt: HostRuntime) -> Result<(), Fail> {
    let mut read = 0usize;
    for row in FILES.split('~') {
        if is_row(row) {
            file_fails(&rt, rt.alloc(), row)?;
            read = read.saturating_add(1);
        }
    }
    all_read(&rt, read, 17);
    Ok(())
}

// A graph that takes three reads, behind a long comment, in a file; the read of this number fails.
fn long_file(alloc: Global, failing: u64) -> Result<MemFiles, Fail> {
    let mut graph = vec![in alloc; b'#'; 140_000]?;
    graph.extend_from_slice(b"\n0 1\n1 2\n")?;
    let mut files = Vec::new(alloc);
    put_file(alloc, &mut files, "long.graph", &graph)?;
    Ok(MemFiles::new(files, vec![in alloc; failing]?))
}

// Whether a call over the long file whose read of this number fails writes this.
fn long_file_fails(
    rt: &(impl Abort + Threads + Wait + Sync),
    alloc: Global,
    failing: u64,
    text: &str,
) -> Result<(), Fail> {
    let mut files = long_file(alloc, failing)?;
    let input = joined(alloc, ADD, "")?;
    let ended = run_with(rt, alloc, "run - long.graph", input, PLAIN, &mut files)?;
    ends_with(rt, alloc, &ended, text, text)
}

#[test]
fn each_read_of_a_long_file_fails_in_turn(rt: HostRuntime) -> Result<(), Fail> {
    for failing in [1, 2, 3, 4] {
        long_file_fails(&rt, rt.alloc(), failing, "read fault long.graph\n")?;
    }
    long_file_fails(&rt, rt.alloc(), 5, WRITTEN)
}

// Whether a refused program on standard input leaves the files alone, with these words.
fn touches_no_file(
    rt: &(impl Abort + Threads + Wait + Sync),
    alloc: Global,
    words: &str,
) -> Result<(), Fail> {
    let mut files = two_files(alloc, 1)?;
    let input = joined(alloc, DOUBLE, "")?;
    let ended = run_with(rt, alloc, words, input, PLAIN, &mut files)?;
    ends_with(rt, alloc, &ended, REFUSED, words)?;
    let read = files.read_at("a.graph", 0, &mut [0]);
    assert_eq!(rt; read, Err(FileFault::Failed), "{words}");
    Ok(())
}

// A refused program on standard input leaves the files alone: the first read of them is the test's own, which fails.
#[test]
fn refused_programs_touch_no_file(rt: HostRuntime) -> Result<(), Fail> {
    for words in ["run - a.graph", "run - nofile", "run - -", "check -"] {
        touches_no_file(&rt, rt.alloc(), words)?;
    }
    Ok(())
}

// Whether nothing is read of standard input with these words.
fn nothing_is_read(
    rt: &(impl Abort + Threads + Wait + Sync),
    alloc: Global,
    words: &str,
) -> Result<(), Fail> {
    let mut source = MemSource::new(Vec::new(alloc), 1, vec![in alloc; 1]?);
    let mut files = no_files(alloc);
    let mut sink = MemSink::new(alloc, 100, Vec::new(alloc), 100)?;
    let _status = call(rt, alloc, words, &mut source, &mut files, &mut sink)?;
    assert_eq!(rt; source.read(&mut [0]), Err(Failed), "{words}");
    Ok(())
}

// A usage line and a demonstration ask nothing of standard input: the first read of it is the test's own, which fails.
#[test]
fn nothing_is_read_where_nothing_is_asked(rt: HostRuntime) -> Result<(), Fail> {
    for words in ["run", "check", "demo 1", "run - - --workers 65"] {
        nothing_is_read(&rt, rt.alloc(), words)?;
    }
    Ok(())
}

// The procedure of the shortest paths from a root.
const PATHS: &str =
    "Procedure sssp(G: Graph, root: Node, len: E_P<Int>; dist: N_P<Int>) { N_P<Int> next; N_P<Bool> on; Bool fin = False; G.dist = G == root ? 0 : INF; G.next = G.dist; G.on = G == root; While (!fin) { Foreach (n: G.Nodes) (n.on) { Foreach (s: n.Nbrs) { Edge e = s.ToEdge(); s.next min= n.dist + e.len; } } G.on = G.next < G.dist; G.dist = G.next; fin = !Exist(n: G.Nodes) {n.on}; } }\n%%\n";

// Whether this is written of the shortest paths over so many bytes of a graph.
fn cut_graph_holds(
    rt: &(impl Abort + Threads + Wait + Sync),
    alloc: Global,
    length: usize,
    text: &str,
) -> Result<(), Fail> {
    let graph: &[u8] = b"0 1 40\n2 1 -3\n";
    let mut input = joined(alloc, PATHS, "")?;
    input.extend_from_slice(graph.get(..length).unwrap_or(&[]))?;
    let ended = run(rt, alloc, "run - - root=0", input, PLAIN)?;
    ends_with(rt, alloc, &ended, text, text)
}

#[test]
fn graphs_that_are_cut_anywhere(rt: HostRuntime) -> Result<(), Fail> {
    let mut length = 0usize;
    for row in CUT_ANYWHERE.split('~') {
        if is_row(row) {
            cut_graph_holds(&rt, rt.alloc(), length, row.trim_start())?;
            length = length.saturating_add(1);
        }
    }
    all_read(&rt, length, 15);
    Ok(())
}
