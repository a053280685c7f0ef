//! Graphs of 1,023, 1,024 and 1,025 nodes, whose edges lead across the borders of the ranges of nodes by which a graph
//! partitions them: two parallel edges and a self-loop at each node, and one edge far away.

ghost use Rattle.std.specs.Prelude.{◌≡◌, ◌≤◌, ◌<◌, IfOk};
ghost use Rattle.gm_model.specs.Graphs.{HasNode};
ghost use Rattle.gm_loader.specs.GraphText.{HasColumns};
ghost use Rattle.gm_loader.specs.Rows.{weighted};

use crate::compare::same;
use gm_base::Items;
use gm_graph::{Graph, InRows, Shape, Walks};
use gm_loader::{GraphFault, Limits, consume_graph};
use gm_value::{VType, Value};
use std::alloc::{AllocError, Global};
use std::fmt::Write;
use std::process::Abort;
use std::test::Fail;

const LIMITS: Limits = Limits {
    nodes: 1_025,
    edges: 5_000,
    bytes: 300_000,
};

// How many nodes there are, the number of the first, and how far apart the numbers are.
#[derive(Clone, Copy)]
struct Ring {
    nodes: u32,
    least: u64,
    step: u64,
}

// An edge by the places of its nodes.
#[derive(Clone, Copy, PartialEq, Eq)]
struct Ends {
    from: u32,
    to: u32,
}

// The edges away from a node, in their order.
fn ends_of(nodes: u32, node: u32) -> [Ends; 4]
    requires node { node < nodes }
    requires few { nodes ≤ 2000 }
{
    let next = (node + 1) % nodes;
    let far = (7 * node + 3) % nodes;
    [
        Ends {
            from: node,
            to: next,
        },
        Ends {
            from: node,
            to: next,
        },
        Ends {
            from: node,
            to: node,
        },
        Ends {
            from: node,
            to: far,
        },
    ]
}

// All edges, in the order of their lines.
fn all_ends(alloc: Global, nodes: u32) -> Result<Vec<Ends>, AllocError>
    requires { nodes ≤ 2000 }
{
    let mut ends = Vec::new(alloc);
    for node in 0..nodes {
        ends.extend_from_slice(&ends_of(nodes, node))?;
    }
    Ok(ends)
}

// The number of the node at a place.
fn number_at(ring: Ring, place: u32) -> u64 {
    ring.least
        .saturating_add(ring.step.saturating_mul(u64::from(place)))
}

// The text of some edges, each with its own place as its value.
fn text_of(alloc: Global, ring: Ring, ends: &[Ends]) -> Result<Vec<u8>, AllocError> {
    let mut text = String::new(alloc);
    for (place, edge) in ends.iter().enumerate() {
        let from = number_at(ring, edge.from);
        let to = number_at(ring, edge.to);
        write!(text, "{from} {to} {place}\n")?;
    }
    Ok(text.into_bytes())
}

// One Int column of edges.
fn shape(alloc: Global) -> Result<Shape, AllocError>
    ensures { IfOk result (λ shape. shape ≡ weighted) }
{
    Ok(Shape {
        nodes: Items::new(Vec::new(alloc)),
        edges: Items::new(vec![in alloc; VType::I32]?),
        walks: Walks::BothWays,
    })
}

// The graph of a text, with one Int column of edges.
fn graph_of(alloc: Global, text: Vec<u8>) -> Result<Graph, GraphFault>
    ensures { IfOk result (HasColumns 0 1) }
{
    let shape = shape(alloc)?;
    consume_graph(alloc, text, &shape, &LIMITS)
}

// Whether the edges away from a node are among some, in their order, with the value of each.
fn has_out_row(graph: &Graph, ends: &[Ends], node: u32) -> bool
    requires node { HasNode graph.now node }
    requires columns { HasColumns 0 1 graph.now }
{
    let mut least = 0;
    for k in 0..graph.out_degree(node) {
        let edge = graph.out_edge(node, k);
        let to = graph.out_target(node, k);
        let value = graph.out_value(node, k, 0);
        let here = Ends { from: node, to };
        if u64::from(edge) < least || ends.get(edge as usize) != Some(&here) {
            return false;
        }
        if value != Value::I32(i32::try_from(edge).unwrap_or(-1)) {
            return false;
        }
        least = u64::from(edge) + 1;
    }
    true
}

// Whether the edges to a node are among some, in their order, with the value of each.
fn has_in_row(graph: &Graph, rows: &InRows, ends: &[Ends], node: u32) -> bool
    requires rows { rows.now ≡ graph.now }
    requires node { HasNode rows.now node }
    requires columns { HasColumns 0 1 graph.now }
{
    let mut least = 0;
    for k in 0..rows.degree(node) {
        let row = rows.row(node, k);
        let edge = graph.edge_of_row(row);
        let from = rows.source(node, k);
        let value = graph.row_value(row, 0);
        let here = Ends { from, to: node };
        if u64::from(edge) < least || ends.get(edge as usize) != Some(&here) {
            return false;
        }
        if value != Value::I32(i32::try_from(edge).unwrap_or(-1)) {
            return false;
        }
        least = u64::from(edge) + 1;
    }
    true
}

// How many edges away from nodes and to nodes there are in all rows, where each row and each number is as it should be.
fn row_counts(graph: &Graph, rows: &InRows, ring: Ring, ends: &[Ends]) -> Option<(u64, u64)>
    requires rows { rows.now ≡ graph.now }
    requires columns { HasColumns 0 1 graph.now }
{
    let mut out: u64 = 0;
    let mut inward: u64 = 0;
    for node in 0..graph.node_count() {
        if graph.number(node) != number_at(ring, node) {
            return None;
        }
        if !has_out_row(graph, ends, node) || !has_in_row(graph, rows, ends, node) {
            return None;
        }
        out = out.saturating_add(u64::from(graph.out_degree(node)));
        inward = inward.saturating_add(u64::from(rows.degree(node)));
    }
    Some((out, inward))
}

// Compares the graph of a ring with its edges.
fn compare(rt: &(impl Abort + AllocGlobal), ring: Ring) -> Result<(), Fail>
    requires { ring.nodes ≤ 2000 }
{
    let ends = all_ends(rt.alloc(), ring.nodes)?;
    let text = text_of(rt.alloc(), ring, &ends)?;
    let graph = graph_of(rt.alloc(), text)?;
    same(rt, 0, graph.node_count(), ring.nodes);
    let edges = 4 * u64::from(ring.nodes);
    let rows = graph.in_rows(rt.alloc())?;
    let counts = row_counts(&graph, &rows, ring, &ends);
    same(rt, 1, counts, Some((edges, edges)));
    Ok(())
}

// The greatest number of a node.
const GREATEST: u64 = 9_223_372_036_854_775_807;

// Compares rings of so many nodes: with numbers from 0, with numbers up to the greatest, and with numbers that are far
// apart up to the greatest.
fn compare_rings(rt: &(impl Abort + AllocGlobal), nodes: u32) -> Result<(), Fail>
    requires { nodes ≤ 2000 }
{
    let last = u64::from(nodes).saturating_sub(1);
    let far: u64 = 9_000_000_000_000_000;
    for (least, step) in [
        (0, 1),
        (GREATEST.saturating_sub(last), 1),
        (GREATEST.saturating_sub(last.saturating_mul(far)), far),
    ] {
        compare(rt, Ring { nodes, least, step })?;
    }
    Ok(())
}

#[test]
fn rows_reach_across_borders(rt: HostRuntime) -> Result<(), Fail> {
    compare_rings(&rt, 1_023)?;
    compare_rings(&rt, 1_024)?;
    compare_rings(&rt, 1_025)?;
    Ok(())
}
