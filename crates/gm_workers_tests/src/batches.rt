// Runs of programs over many nodes, whose nodes workers take in batches, beside the run on one thread, which takes them
// one by one, and beside what the rows say.

ghost use Rattle.std.specs.Prelude.{◌≡◌, ◌≤◌, []};

use crate::batch_rows::{
    BATCHES, COLUMNS, FAULTS, FROM, HEAD, PARTS, PUTS, RANGES, Row, Shape, TAIL, TO, WAYS,
    number_row,
};
use crate::calls::run_alone;
use crate::ends::{same_nodes, without_nodes};
use crate::runs::{TURNS, end_by};
use crate::samples::{graph_of, sound_of};
use gm_graph::Graph;
use gm_image::Sound;
use gm_model::RunEnd;
use gm_partition::Owner;
use std::alloc::{AllocError, Global};
use std::process::Abort;
use std::sync::Wait;
use std::test::Fail;
use std::thread::Threads;

// The text of a program.
fn program_of(alloc: Global, row: &Row) -> Result<String, AllocError> {
    let mut text = String::new(alloc);
    text.push_str(HEAD)?;
    text.push_str(row.first)?;
    text.push_str(row.second)?;
    text.push_str(TAIL)?;
    Ok(text)
}

// The node behind a node of a ring of so many.
fn next_in_ring(node: u32, nodes: u32) -> u32 {
    match node.checked_add(1) {
        Some(next) if next < nodes => next,
        _ => 0,
    }
}

// The edges from a node of a ring: one to itself and two to the next one.
fn ring_edges(alloc: Global, node: u32, next: u32) -> Result<String, AllocError> {
    format!(in alloc; "{node} {node}\n{node} {next}\n{node} {next}\n")
}

// A ring of nodes.
fn ring(alloc: Global, nodes: u32) -> Result<String, AllocError> {
    let mut text = String::new(alloc);
    for node in 0..nodes {
        let edges = ring_edges(alloc, node, next_in_ring(node, nodes))?;
        text.push_str(edges.as_str())?;
    }
    Ok(text)
}

// An edge from node 0 to each of the other nodes.
fn from_first(alloc: Global, nodes: u32) -> Result<String, AllocError> {
    let mut text = String::new(alloc);
    for node in 1..nodes {
        let line = format!(in alloc; "0 {node}\n")?;
        text.push_str(line.as_str())?;
    }
    Ok(text)
}

// An edge to node 0 from each of the other nodes.
fn to_first(alloc: Global, nodes: u32) -> Result<String, AllocError> {
    let mut text = String::new(alloc);
    for node in 1..nodes {
        let line = format!(in alloc; "{node} 0\n")?;
        text.push_str(line.as_str())?;
    }
    Ok(text)
}

// A text so many times.
fn repeated(alloc: Global, part: &str, times: u32) -> Result<String, AllocError> {
    let mut text = String::new(alloc);
    for _time in 0..times {
        text.push_str(part)?;
    }
    Ok(text)
}

// The edges of a graph.
fn edges_of(alloc: Global, shape: Shape) -> Result<String, AllocError> {
    match shape {
        Shape::Ring { nodes } => ring(alloc, nodes),
        Shape::From { nodes, each } => repeated(alloc, from_first(alloc, nodes)?.as_str(), each),
        Shape::To { nodes, each } => repeated(alloc, to_first(alloc, nodes)?.as_str(), each),
    }
}

// How many nodes a graph has.
fn node_count(shape: Shape) -> u32 {
    match shape {
        Shape::Ring { nodes } => nodes,
        Shape::From { nodes, .. } => nodes,
        Shape::To { nodes, .. } => nodes,
    }
}

// The text of a graph. The value of each node is its number.
fn graph_text(alloc: Global, shape: Shape) -> Result<String, AllocError> {
    let mut text = edges_of(alloc, shape)?;
    for node in 0..node_count(shape) {
        let line = format!(in alloc; "v {node} {node}\n")?;
        text.push_str(line.as_str())?;
    }
    Ok(text)
}

// Compares a run's end with a text, but for the fields of the nodes.
fn ends_so(
    rt: &impl Abort,
    alloc: Global,
    end: &RunEnd,
    wanted: &str,
    what: &str,
) -> Result<(), Fail> {
    let found = without_nodes(alloc, end)?;
    assert_eq!(rt; found.as_str(), wanted, "{what}");
    Ok(())
}

// Compares the fields of the nodes at the ends of two runs.
fn nodes_agree(rt: &impl Abort, found: &RunEnd, wanted: &RunEnd, what: &str) {
    assert!(rt; same_nodes(&found.outcome, &wanted.outcome), "{what}");
}

// Compares the end of a run by workers with what a row says and with the end of the run on one thread.
fn workers_agree(
    rt: &(impl Abort + Threads + Wait + Sync),
    alloc: Global,
    image: &Sound,
    graph: &Graph,
    owner: Owner,
    workers: u32,
    alone: &RunEnd,
    row: &Row,
) -> Result<(), Fail>
    requires no_columns { image.now.columns ≡ [] }
    requires none { graph.now.edge_columns ≡ [] }
    requires some { 1 ≤ workers }
    requires few { workers ≤ 64 }
{
    let end = end_by(rt, alloc, image, graph, owner, workers)?;
    ends_so(rt, alloc, &end, row.end, row.name)?;
    nodes_agree(rt, &end, alone, row.name);
    Ok(())
}

// Compares the ends of the runs on one thread, by one worker and by three with what a row says, and with each other; over a
// small graph that by seven as well.
fn runs_agree(
    rt: &(impl Abort + Threads + Wait + Sync),
    alloc: Global,
    image: &Sound,
    graph: &Graph,
    row: &Row,
) -> Result<(), Fail>
    requires no_columns { image.now.columns ≡ [] }
    requires none { graph.now.edge_columns ≡ [] }
{
    let alone = run_alone(alloc, image, graph, &[], TURNS)?;
    ends_so(rt, alloc, &alone, row.end, row.name)?;
    workers_agree(rt, alloc, image, graph, Owner::Mod, 1, &alone, row)?;
    workers_agree(rt, alloc, image, graph, Owner::Block, 3, &alone, row)?;
    if graph.node_count() < 100 {
        workers_agree(rt, alloc, image, graph, Owner::Spread(9), 7, &alone, row)?;
    }
    Ok(())
}

// The same of a row's program over a graph.
fn row_holds(
    rt: &(impl Abort + Threads + Wait + Sync),
    alloc: Global,
    graph: &Graph,
    row: &Row,
) -> Result<(), Fail>
    requires { graph.now.edge_columns ≡ [] }
{
    let program = program_of(alloc, row)?;
    let image = sound_of(alloc, program.as_bytes())?;
    runs_agree(rt, alloc, &image, graph, row)
}

// The same of the programs of all rows.
fn rows_hold(
    rt: &(impl Abort + Threads + Wait + Sync),
    alloc: Global,
    shape: Shape,
    rows: &[Row],
) -> Result<(), Fail> {
    let lines = graph_text(alloc, shape)?;
    let graph = graph_of(alloc, lines.as_bytes())?;
    for row in rows {
        row_holds(rt, alloc, &graph, row)?;
    }
    Ok(())
}

// Compares the end of the run in which each of so many nodes of a ring sends its number.
fn ring_holds(
    rt: &(impl Abort + Threads + Wait + Sync),
    alloc: Global,
    nodes: u32,
    end: &'static str,
) -> Result<(), Fail> {
    rows_hold(rt, alloc, Shape::Ring { nodes }, &[number_row(end)])
}

// A batch is full, one node short, or followed by one of one node. Of the last ring each of three workers has 1,025 nodes.
#[test]
fn last_batches_may_be_short(rt: HostRuntime) -> Result<(), Fail> {
    let alloc = rt.alloc();
    ring_holds(
        &rt,
        alloc,
        1023,
        "[I32(1568259), I64(3064), Flag(false), At(None)] None 0\n2 3069",
    )?;
    ring_holds(
        &rt,
        alloc,
        1024,
        "[I32(1571328), I64(3067), Flag(false), At(None)] None 0\n2 3072",
    )?;
    ring_holds(
        &rt,
        alloc,
        1025,
        "[I32(1574400), I64(3070), Flag(false), At(None)] None 0\n2 3075",
    )?;
    ring_holds(
        &rt,
        alloc,
        2049,
        "[I32(6294528), I64(6142), Flag(false), At(None)] None 0\n2 6147",
    )?;
    ring_holds(
        &rt,
        alloc,
        3075,
        "[I32(14178825), I64(9220), Flag(false), At(None)] None 0\n2 9225",
    )
}

#[test]
fn bodies_and_handlers_go_by_columns(rt: HostRuntime) -> Result<(), Fail> {
    rows_hold(&rt, rt.alloc(), Shape::Ring { nodes: 25 }, &COLUMNS)
}

#[test]
fn others_go_one_by_one(rt: HostRuntime) -> Result<(), Fail> {
    rows_hold(&rt, rt.alloc(), Shape::Ring { nodes: 25 }, &WAYS)
}

#[test]
fn batches_differ(rt: HostRuntime) -> Result<(), Fail> {
    rows_hold(&rt, rt.alloc(), Shape::Ring { nodes: 1025 }, &BATCHES)
}

#[test]
fn least_faults_count(rt: HostRuntime) -> Result<(), Fail> {
    rows_hold(&rt, rt.alloc(), Shape::Ring { nodes: 1025 }, &FAULTS)
}

#[test]
fn totals_may_leave_their_ranges(rt: HostRuntime) -> Result<(), Fail> {
    rows_hold(&rt, rt.alloc(), Shape::Ring { nodes: 1026 }, &[PUTS])?;
    rows_hold(&rt, rt.alloc(), Shape::Ring { nodes: 26 }, &RANGES)
}

#[test]
fn messages_are_handled_in_parts(rt: HostRuntime) -> Result<(), Fail> {
    let shape = Shape::To {
        nodes: 1026,
        each: 3,
    };
    rows_hold(&rt, rt.alloc(), shape, &PARTS)
}

#[test]
fn many_edges_may_lead_from_a_node(rt: HostRuntime) -> Result<(), Fail> {
    let shape = Shape::From {
        nodes: 2001,
        each: 50,
    };
    rows_hold(&rt, rt.alloc(), shape, &[FROM])
}

#[test]
fn many_edges_may_lead_to_a_node(rt: HostRuntime) -> Result<(), Fail> {
    let shape = Shape::To {
        nodes: 2001,
        each: 50,
    };
    rows_hold(&rt, rt.alloc(), shape, &[TO])
}
