//! How many edges lead from nodes.

ghost use Rattle.std.specs.Prelude.{◌≡◌, IfOk, map};
ghost use Rattle.gm_batches.specs.Degrees.{degree};

use gm_base::NoMemory;
use gm_graph::Graph;
use std::alloc::Global;

// How many edges lead from a node, none where the graph does not have it.
#[inline(always)]
fn out_degree(graph: &Graph, node: u32) -> i32
    ensures { result ≡ degree graph.now node }
{
    if node < graph.node_count() {
        graph.out_degree(node) as i32
    } else {
        0
    }
}

/// How many edges lead from each of some nodes.
pub(crate) fn out_degrees(alloc: Global, graph: &Graph, nodes: &[u32]) -> Result<Vec<i32>, NoMemory>
    ensures { IfOk result (λ degrees. degrees.items ≡ map (degree graph.now) nodes.now) }
{
    let mut degrees = Vec::with_capacity(alloc, nodes.len())?;
    let count = nodes.len();
    for row in 0..count {
        degrees.push(out_degree(graph, nodes[row]))?;
    }
    Ok(degrees)
}
