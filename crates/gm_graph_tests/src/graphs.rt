//! A small graph, made and read with ample memory.

ghost use Rattle.std.specs.Prelude.{◌≡◌, [], ◌∷◌, All, IfOk, length};
ghost use Rattle.gm_value.specs.declared.values.VType.TheVariants.{I32};
ghost use Rattle.gm_graph.specs.Builds.{types_of};
ghost use Rattle.gm_model.specs.Graphs.{HasNode};

use crate::compare::{same, same_text};
use crate::graph_texts::{graph_of, graph_of_edges};
use gm_base::{Items, NoMemory};
use gm_columns::{Column, Values};
use gm_graph::{Graph, InRows, NodeNumbers, Shape, Walks};
use gm_value::{VType, Value};
use std::alloc::{AllocError, Global};
use std::fmt::Write;
use std::process::Abort;
use std::test::Fail;

// A column of small numbers, one in each row.
fn counted_rows(alloc: Global, rows: u8) -> Result<Items<Column>, NoMemory>
    ensures vtypes { IfOk result (λ columns. types_of columns ≡ I32 ∷ []) }
    ensures rows { IfOk result (λ columns. All (λ c. length c.values ≡ rows) columns) }
{
    let mut column = Column::new(alloc, VType::I32);
    for row in 0..rows {
        column.push(Value::I32(i32::from(row)))?;
    }
    let mut columns = Vec::new(alloc);
    columns.push(column)?;
    Ok(Items::new(columns))
}

// A column of Int values at each node and at each edge, with rows for some walks.
fn int_columns(alloc: Global, walks: Walks) -> Result<Shape, NoMemory>
    ensures nodes { IfOk result (λ shape. shape.nodes ≡ I32 ∷ []) }
    ensures edges { IfOk result (λ shape. shape.edges ≡ I32 ∷ []) }
{
    Ok(Shape {
        nodes: Items::new(vec![in alloc; VType::I32]?),
        edges: Items::new(vec![in alloc; VType::I32]?),
        walks,
    })
}

// Writes an edge with its place and other end behind a mark.
fn put_edge(text: &mut String, mark: char, edge: u32, end: u32) -> Result<(), AllocError> {
    write!(text, " {mark}{edge}/{end}")
}

// Writes the edges away from a node (`>`).
fn put_edges_away(text: &mut String, graph: &Graph, node: u32) -> Result<(), AllocError>
    requires { HasNode graph.now node }
{
    for k in 0..graph.out_degree(node) {
        put_edge(
            text,
            '>',
            graph.out_edge(node, k),
            graph.out_target(node, k),
        )?;
    }
    Ok(())
}

// Writes the edges to a node (`<`).
fn put_edges_to(
    text: &mut String,
    graph: &Graph,
    rows: &InRows,
    node: u32,
) -> Result<(), AllocError>
    requires rows { rows.now ≡ graph.now }
    requires node { HasNode rows.now node }
{
    for k in 0..rows.degree(node) {
        let edge = graph.edge_of_row(rows.row(node, k));
        put_edge(text, '<', edge, rows.source(node, k))?;
    }
    Ok(())
}

// Writes a node's number.
fn put_number(text: &mut String, number: u64) -> Result<(), AllocError> {
    write!(text, "{number}:")
}

// Each node's number, then its edges with their places and other ends, away from it (`>`) and to it (`<`).
fn listing(alloc: Global, graph: &Graph) -> Result<String, Fail> {
    let rows = graph.in_rows(alloc)?;
    let mut text = String::new(alloc);
    for node in 0..graph.node_count() {
        put_number(&mut text, graph.number(node))?;
        put_edges_away(&mut text, graph, node)?;
        put_edges_to(&mut text, graph, &rows, node)?;
        text.push(';')?;
    }
    Ok(text)
}

// Writes the rows and the other ends of the edges to a node (`<`).
fn put_rows_to(text: &mut String, rows: &InRows, node: u32) -> Result<(), AllocError>
    requires { HasNode rows.now node }
{
    for k in 0..rows.degree(node) {
        put_edge(text, '<', rows.row(node, k), rows.source(node, k))?;
    }
    Ok(())
}

// Each node's number, then the edges to it with their rows and other ends.
fn inward_listing(alloc: Global, graph: &Graph) -> Result<String, Fail> {
    let rows = graph.in_rows(alloc)?;
    let mut text = String::new(alloc);
    for node in 0..graph.node_count() {
        put_number(&mut text, graph.number(node))?;
        put_rows_to(&mut text, &rows, node)?;
        text.push(';')?;
    }
    Ok(text)
}

// The listing of its lines.
const LISTING: &str = "3: >2/1 <0/1 <1/1;7: >0/0 >1/0 >3/1 <2/0 <3/1;9:;";

// The graph of the lines `7 3`, `7 3`, `3 7` and `7 7`, and the nodes 9 and 3 with a value each, with rows for some walks.
fn graph_of_lines(alloc: Global, walks: Walks) -> Result<Graph, NoMemory> {
    let shape = int_columns(alloc, walks)?;
    let edges = counted_rows(alloc, 4)?;
    let nodes = counted_rows(alloc, 2)?;
    graph_of(
        alloc,
        shape,
        &[7, 7, 3, 7],
        &[3, 3, 7, 7],
        edges,
        &[9, 3],
        nodes,
    )
}

// Compares the listing of a graph.
fn compare(rt: &(impl Abort + AllocGlobal), graph: &Graph, want: &str) -> Result<(), Fail> {
    let text = listing(rt.alloc(), graph)?;
    same_text(rt, 0, text.as_str(), want);
    Ok(())
}

#[test]
fn edges_without_rows_are_found(rt: HostRuntime) -> Result<(), Fail> {
    let graph = graph_of_lines(rt.alloc(), Walks::Outward)?;
    compare(&rt, &graph, LISTING)
}

#[test]
fn a_graph_is_made_and_read(rt: HostRuntime) -> Result<(), Fail> {
    let graph = graph_of_lines(rt.alloc(), Walks::BothWays)?;
    compare(&rt, &graph, LISTING)
}

// The rows of the edges to nodes are the same whether the graph was made with them or they are made later.
#[test]
fn rows_made_later_are_the_same(rt: HostRuntime) -> Result<(), Fail> {
    let want = "3: <1/1 <2/1;7: <0/0 <3/1;9:;";
    let with = inward_listing(rt.alloc(), &graph_of_lines(rt.alloc(), Walks::BothWays)?)?;
    same_text(&rt, 5, with.as_str(), want);
    let without = inward_listing(rt.alloc(), &graph_of_lines(rt.alloc(), Walks::Outward)?)?;
    same_text(&rt, 6, without.as_str(), want);
    Ok(())
}

#[test]
fn a_graph_has_its_counts(rt: HostRuntime) -> Result<(), Fail> {
    let graph = graph_of_lines(rt.alloc(), Walks::BothWays)?;
    same(&rt, 1, graph.edge_count(), 4);
    same(&rt, 2, graph.node_column_count(), 1);
    same(&rt, 3, graph.edge_column_count(), 1);
    Ok(())
}

// Compares the node of a number.
fn compare_node(rt: &impl Abort, graph: &Graph, number: u64, node: Option<u32>) {
    same(rt, 4, graph.node_of(number), node);
}

#[test]
fn a_graph_finds_its_nodes(rt: HostRuntime) -> Result<(), Fail> {
    let graph = graph_of_lines(rt.alloc(), Walks::BothWays)?;
    compare_node(&rt, &graph, 3, Some(0));
    compare_node(&rt, &graph, 7, Some(1));
    compare_node(&rt, &graph, 9, Some(2));
    compare_node(&rt, &graph, 0, None);
    compare_node(&rt, &graph, 8, None);
    compare_node(&rt, &graph, u64::MAX, None);
    Ok(())
}

// The listing of the lines `3 4294967295`, `4294967296 3` and `9223372036854775807 3`, of numbers that are far apart.
const FAR_LISTING: &str =
    "3: >0/1 <1/2 <2/3;4294967295: <0/0;4294967296: >1/0;9223372036854775807: >2/0;";

#[test]
fn numbers_far_apart_have_indices(rt: HostRuntime) -> Result<(), Fail> {
    let graph = graph_of_edges(
        rt.alloc(),
        &[3, 4_294_967_296, 9_223_372_036_854_775_807],
        &[4_294_967_295, 3, 3],
        &[],
    )?;
    compare(&rt, &graph, FAR_LISTING)
}

// Some numbers, with room for one at first.
fn numbers_of(alloc: Global, order: &[u64]) -> Result<NodeNumbers, NoMemory> {
    let mut numbers = NodeNumbers::with_capacity(alloc, 1)?;
    for number in order {
        numbers.push(*number)?;
    }
    Ok(numbers)
}

// Compares the number at a place.
fn compare_number(rt: &impl Abort, numbers: &NodeNumbers, place: usize, number: u64) {
    if place < numbers.len() {
        same(rt, 1, numbers.get(place), number);
    }
}

#[test]
fn small_and_large_numbers_keep_their_order(rt: HostRuntime) -> Result<(), Fail> {
    let order: [u64; 5] = [
        7,
        4_294_967_295,
        4_294_967_296,
        0,
        9_223_372_036_854_775_807,
    ];
    let numbers = numbers_of(rt.alloc(), &order)?;
    same(&rt, 0, numbers.len(), 5);
    for (place, number) in order.into_iter().enumerate() {
        compare_number(&rt, &numbers, place, number);
    }
    Ok(())
}

// Compares the value at a place.
fn compare_value(rt: &impl Abort, values: &Values, place: usize, value: Value) {
    if place < values.len() {
        same(rt, place, values.get(place), value);
    }
}

#[test]
fn values_of_any_type_are_kept(rt: HostRuntime) -> Result<(), Fail> {
    let values = Values::of_any_type(vec![in rt.alloc();
        Value::Flag(true),
        Value::I64(-5),
        Value::At(Some(u32::MAX)),
    ]?);
    same(&rt, 0, values.len(), 3);
    compare_value(&rt, &values, 0, Value::Flag(true));
    compare_value(&rt, &values, 1, Value::I64(-5));
    compare_value(&rt, &values, 2, Value::At(Some(u32::MAX)));
    Ok(())
}
