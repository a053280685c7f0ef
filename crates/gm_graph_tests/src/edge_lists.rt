//! Texts with the graphs that they stand for, or their faults.

ghost use Rattle.std.specs.Prelude.{◌≤◌, IfOk};
ghost use Rattle.gm_loader.specs.GraphText.{HasColumns};

use crate::compare::{same, same_found, same_text, sides};
use crate::graph_texts::{AMPLE, listing, shape_of};
use gm_graph::Graph;
use gm_loader::{GraphFault, Limits, consume_graph, parse_graph};
use std::alloc::{AllocError, Global};
use std::process::Abort;
use std::test::Fail;

const TIGHT: Limits = Limits {
    nodes: 2,
    edges: 2,
    bytes: 20,
};

// What comes of a graph: its listing, or its fault.
fn outcome(
    alloc: Global,
    answer: Result<Graph, GraphFault>,
    nodes: u32,
    edges: u32,
) -> Result<String, AllocError>
    requires { IfOk answer (HasColumns nodes edges) }
{
    match answer {
        Ok(graph) => listing(alloc, &graph, 0, nodes, edges),
        Err(fault) => format!(in alloc; "{fault:?}"),
    }
}

/// What comes of a text by `parse_graph`.
pub(crate) fn parsed(
    alloc: Global,
    letters: (&str, &str),
    limits: &Limits,
    text: &[u8],
) -> Result<String, Fail>
    requires few_nodes { limits.now.nodes ≤ 2147483647 }
    requires few_edges { limits.now.edges ≤ 2147483647 }
{
    let shape = shape_of(alloc, letters)?;
    let nodes = shape.nodes.len();
    let edges = shape.edges.len();
    if nodes >= 100 || edges >= 100 {
        return Err(Fail::from("too many letters"));
    }
    let answer = parse_graph(alloc, text, &shape, limits);
    Ok(outcome(alloc, answer, nodes as u32, edges as u32)?)
}

// What comes of a text by `consume_graph`.
fn consumed(
    alloc: Global,
    letters: (&str, &str),
    limits: &Limits,
    text: &[u8],
) -> Result<String, Fail>
    requires few_nodes { limits.now.nodes ≤ 2147483647 }
    requires few_edges { limits.now.edges ≤ 2147483647 }
{
    let shape = shape_of(alloc, letters)?;
    let nodes = shape.nodes.len();
    let edges = shape.edges.len();
    if nodes >= 100 || edges >= 100 {
        return Err(Fail::from("too many letters"));
    }
    let bytes = Vec::from_slice(alloc, text)?;
    let answer = consume_graph(alloc, bytes, &shape, limits);
    Ok(outcome(alloc, answer, nodes as u32, edges as u32)?)
}

// Compares what comes of a text, with columns of the types of some letters, by `parse_graph` and by `consume_graph`.
fn compare_case(
    rt: &(impl Abort + AllocGlobal),
    letters: (&str, &str),
    limits: &Limits,
    case: &str,
) -> Result<(), Fail>
    requires few_nodes { limits.now.nodes ≤ 2147483647 }
    requires few_edges { limits.now.edges ≤ 2147483647 }
{
    let (text, want) = sides(case)?;
    let found = parsed(rt.alloc(), letters, limits, text.as_bytes())?;
    same_found(rt, case, found.as_str(), want);
    let found = consumed(rt.alloc(), letters, limits, text.as_bytes())?;
    same_found(rt, case, found.as_str(), want);
    Ok(())
}

// Reads texts, with columns of the types of some letters, and compares what comes of each by `parse_graph` and by
// `consume_graph`.
fn compare(
    rt: &(impl Abort + AllocGlobal),
    letters: (&str, &str),
    limits: &Limits,
    cases: &str,
    count: usize,
) -> Result<(), Fail>
    requires few_nodes { limits.now.nodes ≤ 2147483647 }
    requires few_edges { limits.now.edges ≤ 2147483647 }
{
    let mut read = 0usize;
    for case in cases.split('~') {
        if !case.is_empty() {
            compare_case(rt, letters, limits, case)?;
            read = read.saturating_add(1);
        }
    }
    same(rt, 0, read, count);
    Ok(())
}

// Texts without columns, each between `~` and a backtick, and what comes of it.
const PLAIN: &str = "\
~`
~# Directed graph\r
# FromNodeId\tToNodeId\r
30\t1412\r
30\t3352\t99\r
1412\t30\r
`30 0>1412 1>3352;1412 2>30;3352;
~0 1
0 1
1 1
`0 0>1 1>1;1 2>1;
~0 1\r`BadLine(1)
~0 1 \r`0 0>1;1;
~0 1\r
`0 0>1;1;
~\r`BadLine(1)
~007 7`7 0>7;
~9223372036854775807 16777216`16777216;9223372036854775807 0>16777216;
~9223372036854775808 0`OutOfRange(1)
~0 9223372036854775807`0 0>9223372036854775807;9223372036854775807;
~0 9223372036854775808`OutOfRange(1)
~9223372036854775807 9223372036854775807`9223372036854775807 0>9223372036854775807;
~0 1
9223372036854775807 9223372036854775808`OutOfRange(2)
~v 9223372036854775807`9223372036854775807;
~v 9223372036854775808`OutOfRange(1)
~0`BadLine(1)
~0 `BadLine(1)
~-1 0`BadLine(1)
~x 99999999999999999999`BadLine(1)
~99999999999999999999 x`OutOfRange(1)
~v`BadLine(1)
~V 1`BadLine(1)
~v 4

 \t
  # x
v 4
0 x`NodeTwice(5)
";

// More of them.
const MORE_PLAIN: &str = "\
~0\t1
1 0\t
`0 0>1;1 1>0;
~  0  1
0 1 # x
`0 0>1 1>1;1;
~0 1\r
1 0\r`BadLine(2)
~0 1\rx
`BadLine(1)
~0 1x
`BadLine(1)
~0x 1
`BadLine(1)
~0 1
 1
`BadLine(2)
~0
1
`BadLine(1)
~999999999999999999 1000000000000000000
000000000000000000007 7
`7 1>7;999999999999999999 0>1000000000000000000;1000000000000000000;
~900000000000000000 9000000000000000000
`900000000000000000 0>9000000000000000000;9000000000000000000;
~0 1
18446744073709551616 0
`OutOfRange(2)
";

// Texts with an Int at each node.
const NODE_INTS: &str = "\
~5 3
v 3 4
`3:4;5:0 0>3;
~v 7 1
v 3 2
v 5 0
`3:2;5:0;7:1;
~v 3 3000000000`OutOfRange(1)
~v 1 1
v 1 x`BadLine(2)
~v 1 1
v 1`MissingColumn(2)
~v 1 1
v 1 2`NodeTwice(2)
";

#[test]
fn texts_stand_for_graphs(rt: HostRuntime) -> Result<(), Fail> {
    compare(&rt, ("", ""), &AMPLE, PLAIN, 24)?;
    compare(&rt, ("", ""), &AMPLE, MORE_PLAIN, 11)?;
    compare(&rt, ("i", ""), &AMPLE, NODE_INTS, 6)?;
    Ok(())
}

// Texts with an Int at each edge.
const EDGE_INTS: &str = "\
~0 x 1`BadLine(1)
~0 1`MissingColumn(1)
~0 1 `MissingColumn(1)
~0 1 4`0 0>1/4;1;
~0 1 3000000000`OutOfRange(1)
~0 99999999999999999999`OutOfRange(1)
~0 1 2147483647
0 1 -2147483648`0 0>1/2147483647 1>1/-2147483648;1;
~0 1 2147483648`OutOfRange(1)
~0 1 -2147483649`OutOfRange(1)
~0 1 -0
0 1 00012
0 1 -007`0 0>1/0 1>1/12 2>1/-7;1;
~0 1 -`BadLine(1)
~0 1 +1`BadLine(1)
~0 1 1x`BadLine(1)
~0 1 5 x 99999999999999999999`0 0>1/5;1;
";

// Texts with a Long at each edge.
const EDGE_LONGS: &str = "\
~0 1 9223372036854775807
0 1 -9223372036854775808`0 0>1/9223372036854775807 1>1/-9223372036854775808;1;
~0 1 9223372036854775808`OutOfRange(1)
~0 1 -9223372036854775809`OutOfRange(1)
~0 1 99999999999999999999999999999999999999999999999999`OutOfRange(1)
";

// Texts with a Bool at each edge.
const EDGE_FLAGS: &str = "\
~0 1 0
0 1 1
0 1 true
0 1 false
0 1 True
0 1 False`0 0>1/false 1>1/true 2>1/true 3>1/false 4>1/true 5>1/false;1;
~0 1 TRUE`BadLine(1)
~0 1 00`BadLine(1)
~0 1 2`BadLine(1)
";

// Texts at tight limits.
const WITHIN_LIMITS: &str = "\
~0 1
1 2`TooManyNodes(2)
~0 1
1 0
0 0`TooManyEdges(3)
~0 1
0 1
2 3`TooManyNodes(3)
~v 1
v 2
v 3
v 3`TooManyNodes(3)
~20000000 20000001`20000000 0>20000001;20000001;
~0 1
1 2
`TooManyNodes(2)
~2 9
9 2
`2 0>9;9 1>2;
~0 9
1 9
`TooManyNodes(2)
~v 9
9 2
v 0
`TooManyNodes(3)
~                    `
~                     `TooLong
";

#[test]
fn values_have_their_spellings(rt: HostRuntime) -> Result<(), Fail> {
    compare(&rt, ("", "i"), &AMPLE, EDGE_INTS, 14)?;
    compare(&rt, ("", "l"), &AMPLE, EDGE_LONGS, 4)?;
    compare(&rt, ("", "b"), &AMPLE, EDGE_FLAGS, 4)?;
    compare(&rt, ("", ""), &TIGHT, WITHIN_LIMITS, 11)?;
    Ok(())
}

// Compares what a fault says.
fn says(rt: &(impl Abort + AllocGlobal), fault: GraphFault, want: &str) -> Result<(), Fail> {
    let text = format!(in rt.alloc(); "{fault}")?;
    same_text(rt, 0, text.as_str(), want);
    Ok(())
}

#[test]
fn faults_say_what_and_where(rt: HostRuntime) -> Result<(), Fail> {
    says(&rt, GraphFault::BadLine(3), "bad line 3")?;
    says(
        &rt,
        GraphFault::MissingColumn(4),
        "a column is missing in line 4",
    )?;
    says(
        &rt,
        GraphFault::OutOfRange(5),
        "a number is out of range in line 5",
    )?;
    says(
        &rt,
        GraphFault::NodeTwice(6),
        "a second line of one node in line 6",
    )
}

#[test]
fn faults_of_counts_say_what_and_where(rt: HostRuntime) -> Result<(), Fail> {
    says(
        &rt,
        GraphFault::TooManyNodes(7),
        "too many nodes from line 7 on",
    )?;
    says(
        &rt,
        GraphFault::TooManyEdges(18_446_744_073_709_551_615),
        "too many edges from line 18446744073709551615 on",
    )?;
    says(&rt, GraphFault::TooLong, "too long")?;
    says(&rt, GraphFault::NoMemory, "out of memory")
}
