//! Graphs as texts, for tables of what comes of a text.

ghost use Rattle.std.specs.Prelude.{◌≡◌, [], IfOk};
ghost use Rattle.gm_graph.specs.Builds.{IsBuildable};
ghost use Rattle.gm_loader.specs.GraphText.{HasColumns};
ghost use Rattle.gm_loader.specs.Rows.{plain};
ghost use Rattle.gm_model.specs.Graphs.{HasNode, HasStep, out_steps};

use gm_base::{Items, NoMemory};
use gm_columns::Column;
use gm_graph::{Graph, NodeNumbers, RawGraph, Shape, Walks, build};
use gm_loader::Limits;
use gm_value::{VType, Value};
use std::alloc::{AllocError, Global};
use std::fmt::Write;

/// Limits that no small text meets.
pub(crate) const AMPLE: Limits = Limits {
    nodes: 100,
    edges: 100,
    bytes: 1000,
};

/// The graph of some edges and further nodes, with columns.
pub(crate) fn graph_of(
    alloc: Global,
    shape: Shape,
    from: &[u64],
    to: &[u64],
    edge_columns: Items<Column>,
    extra: &[u64],
    node_columns: Items<Column>,
) -> Result<Graph, NoMemory>
    requires { IsBuildable (record {
      shape = shape;
      from = from.now;
      to = to.now;
      edge_columns = edge_columns;
      extra = extra.now;
      node_columns = node_columns;
    }) }
{
    let from = NodeNumbers::from_slice(alloc, from)?;
    let to = NodeNumbers::from_slice(alloc, to)?;
    let extra = NodeNumbers::from_slice(alloc, extra)?;
    build(
        alloc,
        RawGraph {
            shape,
            from,
            to,
            edge_columns,
            extra,
            node_columns,
        },
    )
}

// No columns.
fn no_columns(alloc: Global) -> Shape
    ensures { result ≡ plain }
{
    Shape {
        nodes: Items::new(Vec::new(alloc)),
        edges: Items::new(Vec::new(alloc)),
        walks: Walks::BothWays,
    }
}

/// The graph of some edges and further nodes, without columns.
pub(crate) fn graph_of_edges(
    alloc: Global,
    from: &[u64],
    to: &[u64],
    extra: &[u64],
) -> Result<Graph, NoMemory>
    requires { IsBuildable (record {
      shape = plain;
      from = from.now;
      to = to.now;
      edge_columns = [];
      extra = extra.now;
      node_columns = [];
    }) }
{
    graph_of(
        alloc,
        no_columns(alloc),
        from,
        to,
        Items::new(Vec::new(alloc)),
        extra,
        Items::new(Vec::new(alloc)),
    )
}

// The type that a letter stands for.
fn type_of(letter: u8) -> VType {
    match letter {
        b'i' => VType::I32,
        b'l' => VType::I64,
        _ => VType::Flag,
    }
}

// The types that letters stand for.
fn types(alloc: Global, letters: &str) -> Result<Items<VType>, AllocError> {
    let mut types = Vec::new(alloc);
    for letter in letters.as_bytes() {
        types.push(type_of(*letter))?;
    }
    Ok(Items::new(types))
}

/// Columns of the types of some letters: of the nodes, and of the edges.
pub(crate) fn shape_of(alloc: Global, letters: (&str, &str)) -> Result<Shape, AllocError> {
    Ok(Shape {
        nodes: types(alloc, letters.0)?,
        edges: types(alloc, letters.1)?,
        walks: Walks::BothWays,
    })
}

// Writes a number.
fn put_number(text: &mut String, number: u64) -> Result<(), AllocError> {
    write!(text, "{number}")
}

// Writes a number with its sign.
fn put_signed(text: &mut String, number: i64) -> Result<(), AllocError> {
    write!(text, "{number}")
}

// Writes a truth value.
fn put_flag(text: &mut String, flag: bool) -> Result<(), AllocError> {
    text.push_str(if flag { "true" } else { "false" })
}

// Writes a value behind a mark.
fn put_value(text: &mut String, mark: char, value: Value) -> Result<(), AllocError> {
    text.push(mark)?;
    match value {
        Value::I32(z) => put_signed(text, i64::from(z)),
        Value::I64(z) => put_signed(text, z),
        Value::Flag(b) => put_flag(text, b),
        Value::At(_) => text.push_str("node"),
    }
}

// Writes the number of a node, less a first one.
fn put_node(text: &mut String, graph: &Graph, node: u32, first: u64) -> Result<(), AllocError>
    requires { HasNode graph.now node }
{
    put_number(text, graph.number(node).saturating_sub(first))
}

// Writes the values of a node.
fn put_node_values(
    text: &mut String,
    graph: &Graph,
    node: u32,
    nodes: u32,
    edges: u32,
) -> Result<(), AllocError>
    requires node { HasNode graph.now node }
    requires columns { HasColumns nodes edges graph.now }
{
    for column in 0..nodes {
        put_value(text, ':', graph.start_value(node, column))?;
    }
    Ok(())
}

// Writes the values of the k-th edge from a node.
fn put_edge_values(
    text: &mut String,
    graph: &Graph,
    node: u32,
    k: u32,
    nodes: u32,
    edges: u32,
) -> Result<(), AllocError>
    requires node { HasNode graph.now node }
    requires step { HasStep (out_steps graph.now node) k }
    requires columns { HasColumns nodes edges graph.now }
{
    for column in 0..edges {
        put_value(text, '/', graph.out_value(node, k, column))?;
    }
    Ok(())
}

// Writes the k-th edge from a node: its place, its target, and its values.
fn put_edge(
    text: &mut String,
    graph: &Graph,
    node: u32,
    k: u32,
    first: u64,
    nodes: u32,
    edges: u32,
) -> Result<(), AllocError>
    requires node { HasNode graph.now node }
    requires step { HasStep (out_steps graph.now node) k }
    requires columns { HasColumns nodes edges graph.now }
{
    text.push(' ')?;
    put_number(text, u64::from(graph.out_edge(node, k)))?;
    text.push('>')?;
    put_node(text, graph, graph.out_target(node, k), first)?;
    put_edge_values(text, graph, node, k, nodes, edges)
}

// Writes the edges from a node.
fn put_edges(
    text: &mut String,
    graph: &Graph,
    node: u32,
    first: u64,
    nodes: u32,
    edges: u32,
) -> Result<(), AllocError>
    requires node { HasNode graph.now node }
    requires columns { HasColumns nodes edges graph.now }
{
    for k in 0..graph.out_degree(node) {
        put_edge(text, graph, node, k, first, nodes, edges)?;
    }
    Ok(())
}

/// Each node: its number less a first one, then its values, then its edges by their places, each with its target less
/// the first one and its values.
pub(crate) fn listing(
    alloc: Global,
    graph: &Graph,
    first: u64,
    nodes: u32,
    edges: u32,
) -> Result<String, AllocError>
    requires { HasColumns nodes edges graph.now }
{
    let mut text = String::new(alloc);
    for node in 0..graph.node_count() {
        put_node(&mut text, graph, node, first)?;
        put_node_values(&mut text, graph, node, nodes, edges)?;
        put_edges(&mut text, graph, node, first, nodes, edges)?;
        text.push(';')?;
    }
    Ok(text)
}
