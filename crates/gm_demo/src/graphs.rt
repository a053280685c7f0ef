//! The text of the graph.

ghost use Rattle.std.specs.Prelude.{◌≡◌, ◌≤◌, ◌++◌, ◌*◌, IfOk, OnOk};
ghost use Rattle.gm_demo.specs.Texts.{node_line, edge_line, node_lines, edge_lines, demo_text};

use crate::draws::Draws;
use crate::edges::{Edge, next_edge};
use crate::writing::{put, put_number};
use gm_base::NoMemory;
use std::alloc::Global;

// The greatest number of bytes that a node's line and the lines of four edges take, where node numbers have at most
// six digits.
const BYTES_PER_NODE: usize = 81;

// Writes a node's line behind a text.
fn put_node(text: &mut Vec<u8>, node: u32) -> Result<(), NoMemory>
    ensures { OnOk result (text.new.items ≡ text.old.items ++ node_line node) }
{
    put_number(text, b"v ", node)?;
    put(text, b"\n")?;
    Ok(())
}

// Writes the lines of the first nodes, as many as a number, behind a text.
fn put_nodes(text: &mut Vec<u8>, nodes: u32) -> Result<(), NoMemory>
    ensures { OnOk result (text.new.items ≡ text.old.items ++ node_lines nodes) }
{
    for node in 0..nodes {
        put_node(text, node)?;
    }
    Ok(())
}

// Writes an edge's line behind a text.
fn put_edge(text: &mut Vec<u8>, edge: Edge) -> Result<(), NoMemory>
    ensures { OnOk result (text.new.items ≡ text.old.items ++ edge_line edge) }
{
    put_number(text, b"", edge.origin)?;
    put_number(text, b" ", edge.target)?;
    put_number(text, b" ", edge.length)?;
    put(text, b"\n")?;
    Ok(())
}

// Writes the lines of the first edges, as many as a number, of the graph with this number of nodes behind a text.
fn put_edges(text: &mut Vec<u8>, nodes: u32, edges: u32) -> Result<(), NoMemory>
    requires { 1 ≤ nodes }
    ensures { OnOk result (text.new.items ≡ text.old.items ++ edge_lines nodes edges) }
{
    let mut draws = Draws {
        held: u64::from(nodes),
    };
    for _edge in 0..edges {
        put_edge(text, next_edge(&mut draws, nodes))?;
    }
    Ok(())
}

/// The text of the graph of `demo N`: a line for each of its N nodes, and then the lines of its 4 N edges, each from a
/// node to a node with a length from 1 to 100. Ends and lengths are drawn from a linear congruential generator that
/// begins at N, so the text is the same at each call. It takes at most 81 bytes a node.
#[tactic(auto, unfolding(crate::specs::Texts::demo_text))]
pub fn demo_graph(alloc: Global, nodes: u32) -> Result<Vec<u8>, NoMemory>
    requires some { 1 ≤ nodes }
    requires few { nodes ≤ 1000000 }
    ensures { IfOk result (λ text. text.items ≡ demo_text nodes) }
{
    let mut text = Vec::with_capacity(alloc, nodes as usize * BYTES_PER_NODE)?;
    put_nodes(&mut text, nodes)?;
    put_edges(&mut text, nodes, 4 * nodes)?;
    Ok(text)
}
