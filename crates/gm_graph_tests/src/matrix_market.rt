//! Matrix Market texts with the graphs that they stand for, or their faults.

ghost use Rattle.std.specs.Prelude.{◌≤◌, IfOk};
ghost use Rattle.gm_loader.specs.GraphText.{HasColumns};

use crate::compare::{same, same_found, same_text, sides};
use crate::edge_lists::parsed;
use crate::graph_texts::{AMPLE, listing, shape_of};
use gm_graph::Graph;
use gm_loader::Limits;
use gm_mtx::{MtxFault, consume_mtx};
use std::alloc::{AllocError, Global};
use std::process::Abort;
use std::test::Fail;

const TIGHT: Limits = Limits {
    nodes: 2,
    edges: 2,
    bytes: 60,
};

// What comes of a graph: its listing, or its fault.
fn outcome(
    alloc: Global,
    answer: Result<Graph, MtxFault>,
    first: u64,
    nodes: u32,
    edges: u32,
) -> Result<String, AllocError>
    requires { IfOk answer (HasColumns nodes edges) }
{
    match answer {
        Ok(graph) => listing(alloc, &graph, first, nodes, edges),
        Err(fault) => format!(in alloc; "{fault:?}"),
    }
}

// What comes of a text, with columns of the types of some letters: the numbers of nodes less a first one.
fn comes_of(
    alloc: Global,
    letters: (&str, &str),
    first: u64,
    limits: &Limits,
    text: &[u8],
) -> Result<String, Fail>
    requires few_nodes { limits.now.nodes ≤ 2147483647 }
    requires few_edges { limits.now.edges ≤ 2147483647 }
{
    let shape = shape_of(alloc, letters)?;
    let nodes = shape.nodes.len();
    let edges = shape.edges.len();
    if nodes >= 100 || edges >= 100 {
        return Err(Fail::from("too many letters"));
    }
    let bytes = Vec::from_slice(alloc, text)?;
    let answer = consume_mtx(alloc, bytes, &shape, limits);
    Ok(outcome(alloc, answer, first, nodes as u32, edges as u32)?)
}

// Compares what comes of a text.
fn compare_case(
    rt: &(impl Abort + AllocGlobal),
    letters: (&str, &str),
    limits: &Limits,
    case: &str,
) -> Result<(), Fail>
    requires few_nodes { limits.now.nodes ≤ 2147483647 }
    requires few_edges { limits.now.edges ≤ 2147483647 }
{
    let (text, want) = sides(case)?;
    let found = comes_of(rt.alloc(), letters, 0, limits, text.as_bytes())?;
    same_found(rt, case, found.as_str(), want);
    Ok(())
}

// Reads texts and compares what comes of each.
fn compare(
    rt: &(impl Abort + AllocGlobal),
    letters: (&str, &str),
    limits: &Limits,
    cases: &str,
    count: usize,
) -> Result<(), Fail>
    requires few_nodes { limits.now.nodes ≤ 2147483647 }
    requires few_edges { limits.now.edges ≤ 2147483647 }
{
    let mut read = 0usize;
    for case in cases.split('~') {
        if !case.is_empty() {
            compare_case(rt, letters, limits, case)?;
            read = read.saturating_add(1);
        }
    }
    same(rt, 0, read, count);
    Ok(())
}

// Headers, each text between `~` and a backtick, and what comes of it.
const HEADERS: &str = "\
~`BadHeader(1)
~
`BadHeader(1)
~% a comment
%%MatrixMarket matrix coordinate integer general
1 1 0
`BadHeader(1)
~%%MatrixMarket
1 1 0
`BadHeader(1)
~%%MatrixMarket matrix coordinate integer
1 1 0
`BadHeader(1)
~%%MatrixMarket matrix coordinate integer general x
1 1 0
`BadHeader(1)
~%MatrixMarket matrix coordinate integer general
1 1 0
`BadHeader(1)
~%%MatrixMarkets matrix array real symmetric
1 1 0
`BadHeader(1)
~%%MatrixMarket matrix coordinate real general
1 1 0
`Unsupported(1)
~%%MatrixMarket matrix coordinate complex general
1 1 0
`Unsupported(1)
~%%MatrixMarket matrix array integer general
1 1
`Unsupported(1)
~%%MatrixMarket vector coordinate integer general
1 1 0
`Unsupported(1)
~%%MatrixMarket matrix coordinate integer symmetric
1 1 0
`Unsupported(1)
~%%MatrixMarket matrix coordinate pattern skew-symmetric
1 1 0
`Unsupported(1)
~%%MatrixMarket matrix coordinate integer hermitian
x`Unsupported(1)
~%%MatrixMarket matrix coordinate integer general
2 2 0
`1;2;
~ %%matrixmarket\tMATRIX  Coordinate PATTERN General \r
2 1 0\r
`1;2;
~%%MATRIXMARKET matrix coordinate InTeGeR gENERAL
0 0 0`
";

#[test]
fn headers_are_judged(rt: HostRuntime) -> Result<(), Fail> {
    compare(&rt, ("", ""), &AMPLE, HEADERS, 18)?;
    Ok(())
}

// Sizes.
const SIZES: &str = "\
~%%MatrixMarket matrix coordinate pattern general`BadLine(2)
~%%MatrixMarket matrix coordinate pattern general
`BadLine(2)
~%%MatrixMarket matrix coordinate pattern general
%
 \t
%% 1 1 1`BadLine(5)
~%%MatrixMarket matrix coordinate pattern general
1 1
`BadLine(2)
~%%MatrixMarket matrix coordinate pattern general
1
`BadLine(2)
~%%MatrixMarket matrix coordinate pattern general
1 x 99999999999999999999
`BadLine(2)
~%%MatrixMarket matrix coordinate pattern general
9223372036854775808 x 1
`OutOfRange(2)
~%%MatrixMarket matrix coordinate pattern general
1 1 9223372036854775808
`OutOfRange(2)
~%%MatrixMarket matrix coordinate pattern general
1 1 9223372036854775807
`TooManyEdges(2)
~%%MatrixMarket matrix coordinate pattern general
9223372036854775807 1 0
`TooManyNodes(2)
~%%MatrixMarket matrix coordinate pattern general
101 101 101
`TooManyNodes(2)
~%%MatrixMarket matrix coordinate pattern general
1 100 101
1 1
`TooManyEdges(2)
~%%MatrixMarket matrix coordinate pattern general
-1 1 0
`BadLine(2)
~%%MatrixMarket matrix coordinate pattern general
# 1 0
`BadLine(2)
~%%MatrixMarket matrix coordinate pattern general

% x
03 2 000 surplus
%y

`1;2;3;
~%%MatrixMarket matrix coordinate pattern general
2 3 0`1;2;3;
";

// Sizes at tight limits.
const SIZES_WITHIN_LIMITS: &str = "\
~%%MatrixMarket matrix coordinate pattern general
2 2 2
1 2
2 1
`TooLong
~%%MatrixMarket matrix coordinate pattern general
2 2 0
     `1;2;
~%%MatrixMarket matrix coordinate pattern general
2 2 0
      `TooLong
~%%MatrixMarket matrix coordinate pattern general
2 2 1
1 2`1 0>2;2;
~%%MatrixMarket matrix coordinate pattern general
3 2 3
`TooManyNodes(2)
~%%MatrixMarket matrix coordinate pattern general
2 2 3
`TooManyEdges(2)
~%%MatrixMarket matrix coordinate pattern general
2 2 2
`CountDiffers(3)
~x                                                            `TooLong
";

#[test]
fn sizes_are_judged(rt: HostRuntime) -> Result<(), Fail> {
    compare(&rt, ("", ""), &AMPLE, SIZES, 16)?;
    compare(&rt, ("", ""), &TIGHT, SIZES_WITHIN_LIMITS, 8)?;
    Ok(())
}

// Entries.
const ENTRIES: &str = "\
~%%MatrixMarket matrix coordinate pattern general
2 3 3
1 3
2 1
1 3
`1 0>3 2>3;2 1>1;3;
~%%MatrixMarket matrix coordinate pattern general\r
% c\r
2 3 2\r
\r
1 3\r
 % 2 2\r
2 2\r
`1 0>3;2 1>2;3;
~%%MatrixMarket matrix coordinate integer general
1 1 2
1 1 x
1 1
`1 0>1 1>1;
~%%MatrixMarket matrix coordinate pattern general
2 3 1
0 1
`OutOfRange(3)
~%%MatrixMarket matrix coordinate pattern general
2 3 1
1 0
`OutOfRange(3)
~%%MatrixMarket matrix coordinate pattern general
2 3 1
3 1
`OutOfRange(3)
~%%MatrixMarket matrix coordinate pattern general
2 3 1
1 4
`OutOfRange(3)
~%%MatrixMarket matrix coordinate pattern general
3 2 1
1 3
`OutOfRange(3)
~%%MatrixMarket matrix coordinate pattern general
2 3 1
1
`BadLine(3)
~%%MatrixMarket matrix coordinate pattern general
2 3 1
1 b
`BadLine(3)
~%%MatrixMarket matrix coordinate pattern general
2 3 1
a 9
`BadLine(3)
~%%MatrixMarket matrix coordinate pattern general
2 3 1
9 a
`OutOfRange(3)
~%%MatrixMarket matrix coordinate pattern general
2 3 1
99999999999999999999 1
`OutOfRange(3)
~%%MatrixMarket matrix coordinate pattern general
2 3 1
1 1
% c
2 2
`CountDiffers(5)
~%%MatrixMarket matrix coordinate pattern general
2 3 1
1 1
2 x
`BadLine(4)
~%%MatrixMarket matrix coordinate pattern general
2 3 2
1 1
%
`CountDiffers(5)
~%%MatrixMarket matrix coordinate pattern general
2 3 0
1 1`CountDiffers(3)
~%%MatrixMarket matrix coordinate pattern general
0 0 1
1 1`OutOfRange(3)
";

#[test]
fn entries_are_judged(rt: HostRuntime) -> Result<(), Fail> {
    compare(&rt, ("", ""), &AMPLE, ENTRIES, 18)?;
    Ok(())
}

// Entries with an Int.
const EDGE_INTS: &str = "\
~%%MatrixMarket matrix coordinate integer general
% demo
3 3 3
1 2 4
1 3 1
3 2 2
`1 0>2/4 1>3/1;2;3 2>2/2;
~%%MatrixMarket matrix coordinate integer general
% demo
3 3 4
1 2 4
1 3 1
3 2 2
`CountDiffers(7)
~%%MatrixMarket matrix coordinate integer general
1 1 1
1 1
`MissingColumn(3)
~%%MatrixMarket matrix coordinate integer general
1 1 1
1 1 4.5
`BadLine(3)
~%%MatrixMarket matrix coordinate integer general
1 1 1
1 1 2147483648
`OutOfRange(3)
~%%MatrixMarket matrix coordinate integer general
1 1 1
1 1 -2147483648 x
`1 0>1/-2147483648;
~%%MatrixMarket matrix coordinate integer general
1 1 1
1 2 x
`OutOfRange(3)
~%%MatrixMarket matrix coordinate integer general
1 1 0
1 1 1
`CountDiffers(3)
~%%MatrixMarket matrix coordinate integer general
1 1 0
1 1 x
`BadLine(3)
~%%MatrixMarket matrix coordinate pattern general
1 1 1
1 1 7
`MissingColumn(3)
~%%MatrixMarket matrix coordinate pattern general
1 1 1
1 2 7
`OutOfRange(3)
~%%MatrixMarket matrix coordinate pattern general
2 2 0
`1;2;
";

// Entries with a Bool, and nodes with values.
const EDGE_FLAGS: &str = "\
~%%MatrixMarket matrix coordinate integer general
2 2 2
1 2 1
2 1 0
`1:0:0 0>2/true;2:0:0 1>1/false;
~%%MatrixMarket matrix coordinate integer general
2 2 1
1 2 2
`BadLine(3)
";

// Entries for two columns.
const EDGE_PAIRS: &str = "\
~%%MatrixMarket matrix coordinate integer general
2 2 1
1 2 3 4
`MissingColumn(3)
~%%MatrixMarket matrix coordinate integer general
2 2 1
1 2 x 4
`BadLine(3)
~%%MatrixMarket matrix coordinate integer general
2 2 0
`1;2;
";

#[test]
fn values_are_judged(rt: HostRuntime) -> Result<(), Fail> {
    compare(&rt, ("", "i"), &AMPLE, EDGE_INTS, 12)?;
    compare(&rt, ("li", "b"), &AMPLE, EDGE_FLAGS, 2)?;
    compare(&rt, ("", "il"), &AMPLE, EDGE_PAIRS, 3)?;
    Ok(())
}

// A number of a row.
fn number_of(text: &str) -> Result<usize, Fail> {
    match text.parse::<usize>() {
        Ok(number) => Ok(number),
        Err(_) => Err(Fail::from("a row without its number")),
    }
}

// The answer of a row, if a length is not beyond it.
fn answer_of(row: &str, length: usize) -> Result<Option<&str>, Fail> {
    let (last, answer) = sides(row)?;
    if length <= number_of(last)? {
        Ok(Some(answer))
    } else {
        Ok(None)
    }
}

// The greatest length of a prefix with an answer, and the answer, in their order.
const ANSWERS: &str = "\
41`BadHeader(1)
47`Unsupported(1)
49`BadLine(2)
57`BadLine(3)
59`CountDiffers(4)
61`BadLine(4)
63`MissingColumn(4)
66`CountDiffers(5)
67`CountDiffers(6)
69`BadLine(6)
71`MissingColumn(6)
72`BadLine(6)
74`1 0>2/40;2;3 1>1/-7;
";

// What is wanted of a prefix of a length.
fn wanted(length: usize) -> Result<&'static str, Fail> {
    for row in ANSWERS.lines() {
        if let Some(answer) = answer_of(row, length)? {
            return Ok(answer);
        }
    }
    Err(Fail::from("no such prefix"))
}

const FILE: &str =
    "%%MatrixMarket matrix coordinate integer general\n% c\n3 2 2\n1 2 40\n\n3 1 -7\n";

// Compares what comes of a prefix.
fn compare_prefix(rt: &(impl Abort + AllocGlobal), length: usize) -> Result<(), Fail> {
    let prefix = FILE.as_bytes().get(..length).unwrap_or(&[]);
    let found = comes_of(rt.alloc(), ("", "i"), 0, &AMPLE, prefix)?;
    same_text(rt, length, found.as_str(), wanted(length)?);
    Ok(())
}

// Each prefix of one file.
#[test]
fn prefixes_are_judged(rt: HostRuntime) -> Result<(), Fail> {
    same(&rt, 0, FILE.len(), 74);
    for length in 0..75 {
        compare_prefix(&rt, length)?;
    }
    Ok(())
}

// A graph as an edge list.
const EDGES: &str = "# a graph\n0 1 4\n0 2 1\n2 1 -2\n2 1 -2\n1 1 0\nv 3 0\n";

// The same graph as a Matrix Market text, whose numbers begin with 1.
const MATRIX: &str =
    "%%MatrixMarket matrix coordinate integer general\n% a graph\n4 3 5\n1 2 4\n1 3 1\n3 2 -2\n3 2 -2\n2 2 0\n";

#[test]
fn edge_lists_give_the_same(rt: HostRuntime) -> Result<(), Fail> {
    let want = "0:0 0>1/4 1>2/1;1:0 4>1/0;2:0 2>1/-2 3>1/-2;3:0;";
    let listed = parsed(rt.alloc(), ("i", "l"), &AMPLE, EDGES.as_bytes())?;
    same_text(&rt, 0, listed.as_str(), want);
    let matrixed = comes_of(rt.alloc(), ("i", "l"), 1, &AMPLE, MATRIX.as_bytes())?;
    same_text(&rt, 1, matrixed.as_str(), want);
    Ok(())
}

// Compares what a fault says.
fn says(rt: &(impl Abort + AllocGlobal), fault: MtxFault, want: &str) -> Result<(), Fail> {
    let text = format!(in rt.alloc(); "{fault}")?;
    same_text(rt, 0, text.as_str(), want);
    Ok(())
}

#[test]
fn faults_say_what_and_where(rt: HostRuntime) -> Result<(), Fail> {
    says(
        &rt,
        MtxFault::BadHeader(1),
        "no Matrix Market header in line 1",
    )?;
    says(
        &rt,
        MtxFault::Unsupported(1),
        "a kind of matrix that is not read in line 1",
    )?;
    says(&rt, MtxFault::BadLine(3), "bad line 3")?;
    says(
        &rt,
        MtxFault::MissingColumn(4),
        "a value is missing in line 4",
    )?;
    says(
        &rt,
        MtxFault::OutOfRange(5),
        "a number is out of range in line 5",
    )
}

#[test]
fn faults_of_counts_say_what_and_where(rt: HostRuntime) -> Result<(), Fail> {
    says(
        &rt,
        MtxFault::CountDiffers(6),
        "another number of entries at line 6",
    )?;
    says(&rt, MtxFault::TooManyNodes(2), "too many nodes in line 2")?;
    says(
        &rt,
        MtxFault::TooManyEdges(18_446_744_073_709_551_615),
        "too many edges in line 18446744073709551615",
    )?;
    says(&rt, MtxFault::TooLong, "too long")?;
    says(&rt, MtxFault::NoMemory, "out of memory")
}
