//! Levels of small graphs, and of a long path.

ghost use Rattle.std.specs.Prelude.{◌≡◌, ◌≤◌, IfOk, length};

use gm_base::{Items, NoMemory};
use gm_graph::{Graph, NodeNumbers, RawGraph, Shape, Walks, build};
use gm_levels::levels_from;
use std::alloc::Global;
use std::fmt::Write;
use std::test::Fail;

// The first ends of some edges, and the second ones.
fn ends(alloc: Global, edges: &[(u64, u64)]) -> Result<(NodeNumbers, NodeNumbers), NoMemory>
    ensures from { IfOk result (λ ends. length ends.0 ≡ length edges.now) }
    ensures to { IfOk result (λ ends. length ends.1 ≡ length edges.now) }
{
    let mut from = NodeNumbers::new(alloc);
    let mut to = NodeNumbers::new(alloc);
    for edge in edges {
        from.push(edge.0)?;
        to.push(edge.1)?;
    }
    Ok((from, to))
}

// The graph of some edges between node numbers, and a node of a number of its own.
fn graph_of(alloc: Global, edges: &[(u64, u64)], lonely: u64) -> Result<Graph, NoMemory>
    requires { length edges.now ≤ 1000000 }
{
    let (from, to) = ends(alloc, edges)?;
    let raw = RawGraph {
        shape: Shape {
            nodes: Items::new(Vec::new(alloc)),
            edges: Items::new(Vec::new(alloc)),
            walks: Walks::BothWays,
        },
        from,
        to,
        edge_columns: Items::new(Vec::new(alloc)),
        extra: NodeNumbers::from_slice(alloc, &[lonely])?,
        node_columns: Items::new(Vec::new(alloc)),
    };
    build(alloc, raw)
}

// The level of each node, and then the nodes of each level.
fn listing(alloc: Global, graph: &Graph, root: u32) -> Result<String, NoMemory> {
    let mut text = String::new(alloc);
    if root < graph.node_count() {
        let levels = levels_from(alloc, graph, root)?;
        for node in 0..graph.node_count() {
            match levels.level(node) {
                Some(level) => write!(text, "{level} ")?,
                None => write!(text, "- ")?,
            }
        }
        for level in 0..levels.count() {
            write!(text, "|")?;
            for node in levels.nodes(level) {
                write!(text, " {node}")?;
            }
        }
    }
    Ok(text)
}

#[test]
fn small_graphs_have_their_levels(rt: HostRuntime) -> Result<(), Fail> {
    let alloc = rt.alloc();
    // A cycle with a tail.
    let graph = graph_of(alloc, &[(0, 1), (1, 2), (2, 0), (2, 3)], 9)?;
    assert_eq!(rt;
        listing(alloc, &graph, 0)?.as_str(),
        "0 1 2 3 - | 0| 1| 2| 3"
    );
    assert_eq!(rt;
        listing(alloc, &graph, 2)?.as_str(),
        "1 2 0 1 - | 2| 0 3| 1"
    );
    // Self-loops.
    let graph = graph_of(alloc, &[(0, 0), (0, 1), (1, 1)], 9)?;
    assert_eq!(rt; listing(alloc, &graph, 0)?.as_str(), "0 1 - | 0| 1");
    // Parallel edges.
    let graph = graph_of(alloc, &[(0, 1), (0, 1), (0, 2), (2, 1), (2, 1)], 9)?;
    assert_eq!(rt; listing(alloc, &graph, 0)?.as_str(), "0 1 1 - | 0| 1 2");
    // Nodes that are found in another order than that of their numbers.
    let graph = graph_of(alloc, &[(0, 3), (0, 1), (3, 4), (1, 2)], 9)?;
    assert_eq!(rt;
        listing(alloc, &graph, 0)?.as_str(),
        "0 1 2 1 2 - | 0| 1 3| 2 4"
    );
    // A root to which edges lead alone, and one without edges.
    let graph = graph_of(alloc, &[(0, 1)], 9)?;
    assert_eq!(rt; listing(alloc, &graph, 1)?.as_str(), "- 0 - | 1");
    assert_eq!(rt; listing(alloc, &graph, 2)?.as_str(), "- - 0 | 2");
    // A short way that comes after a long one.
    let graph = graph_of(alloc, &[(0, 1), (1, 2), (2, 3), (0, 3)], 3)?;
    assert_eq!(rt; listing(alloc, &graph, 0)?.as_str(), "0 1 2 1 | 0| 1 3| 2");
    Ok(())
}

// The edges of a path through the nodes of a thousand numbers.
fn path(alloc: Global) -> Result<Vec<(u64, u64)>, NoMemory>
    ensures { IfOk result (λ edges. length edges.items ≤ 1000000) }
{
    let mut edges = Vec::new(alloc);
    for number in 0..999u64 {
        edges.push((number, number + 1))?;
    }
    Ok(edges)
}

#[test]
fn a_path_has_as_many_levels_as_nodes(rt: HostRuntime) -> Result<(), Fail> {
    let alloc = rt.alloc();
    let edges = path(alloc)?;
    let graph = graph_of(alloc, edges.as_slice(), 0)?;
    assert_eq!(rt; graph.node_count(), 1000);
    let levels = levels_from(alloc, &graph, 0)?;
    assert_eq!(rt; levels.count(), 1000);
    for node in 0..1000 {
        assert_eq!(rt; levels.level(node), Some(node));
        assert_eq!(rt; levels.nodes(node as usize), [node].as_slice());
    }
    assert_eq!(rt; levels.level(1000), None);
    Ok(())
}
