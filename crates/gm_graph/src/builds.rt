//! The making of a graph from its lines.

ghost use Rattle.std.specs.Prelude.{◌≡◌, ◌<◌, ◌≤◌, All, IfOk, IfSome, length, map, vec_len};
ghost use Rattle.gm_graph.specs.Builds.{IsBuildable, IsBuiltOf, HasShape};
ghost use Rattle.gm_graph.specs.Rows.{HaveEachLine, IsGrouped, IsGroupedWith, lines_of, row_of, rows_by_line, value_at};
ghost use Rattle.gm_columns.specs.Columns.{CanHold};

use crate::graphs::Graph;
use crate::groups::Groups;
use crate::node_numbers::NodeNumbers;
use crate::numberings::Numbering;
use crate::ranges::places_of;
use crate::rows::{rows_of, spread_all};
use gm_base::{Items, NoMemory};
use gm_columns::Column;
use gm_value::VType;
use std::alloc::Global;

/// The ways in which the edges of a graph are walked along. Each has rows of its own in memory.
#[derive(Clone, Copy, PartialEq, Eq, Debug)]
pub enum Walks {
    /// From nodes to the ends of their edges only. The rows of the edges that lead to nodes are made where `Graph::in_rows` is
    /// asked for them.
    Outward,
    /// Also from nodes to the starts of the edges that lead to them.
    BothWays,
}

/// What is asked of a graph: the types of its node columns and of its edge columns, in order, and the walks for which it
/// has rows.
#[derive(Debug, Drop)]
pub struct Shape {
    pub nodes: Items<VType>,
    pub edges: Items<VType>,
    pub walks: Walks,
}

/// What a graph is made of. `from` and `to` have the node numbers of the edges, in the order of their lines,
/// and row k of each edge column belongs to edge k. `extra` has numbers of nodes that have a line of their own,
/// and row k of each node column belongs to the node of the number `extra[k]`. The columns have the types of
/// the shape, in order.
#[derive(Debug, Drop)]
pub struct RawGraph {
    pub shape: Shape,
    pub from: NodeNumbers,
    pub to: NodeNumbers,
    pub edge_columns: Items<Column>,
    pub extra: NodeNumbers,
    pub node_columns: Items<Column>,
}

/// Makes a graph. Its nodes are those that an edge or `extra` names, by ascending number; a node that `extra`
/// does not name has 0, False or NIL in each node column.
pub fn build(alloc: Global, raw: RawGraph) -> Result<Graph, NoMemory>
    requires { IsBuildable raw }
    ensures made { IfOk result (IsBuiltOf raw) }
    ensures shape { IfOk result (HasShape raw.shape) }
{
    let numbering = Numbering::new(alloc, &raw.from, &raw.to, &raw.extra)?;
    let sources = numbering.indices(alloc, &raw.from)?;
    drop(raw.from);
    let targets = numbering.indices(alloc, &raw.to)?;
    drop(raw.to);
    let node_rows = rows_of(alloc, &numbering, &raw.extra)?;
    let numbers = numbering.into_numbers();
    let node_columns = spread_all(alloc, node_rows.as_slice(), raw.node_columns.as_slice())?;
    drop(node_rows);
    let rows = edge_rows(alloc, raw.shape.walks, sources, targets, numbers.len())?;
    know_types(raw.edge_columns.as_slice());
    know_types(raw.node_columns.as_slice());
    let edge_columns = columns_by_row(
        alloc,
        rows.outward.edges.as_slice(),
        raw.edge_columns.as_slice(),
    )?;
    Ok(Graph {
        numbers,
        outward: rows.outward,
        inward: rows.inward,
        node_columns,
        edge_columns,
    })
}

// The edges in rows: grouped by the nodes from which they lead, with the line of each, and, where a walk asks for them, by
// the nodes to which they lead, with the row of each among the others.
#[derive(Debug, Drop)]
struct EdgeRows {
    outward: Groups,
    inward: Option<Groups>,
}

// The rows of the edges whose ends stand by line, for some walks.
fn edge_rows(
    alloc: Global,
    walks: Walks,
    sources: Vec<u32>,
    targets: Vec<u32>,
    nodes: usize,
) -> Result<EdgeRows, NoMemory>
    requires sources_within { All (λ node. node < nodes) sources.items }
    requires targets_within { All (λ node. node < nodes) targets.items }
    requires ends { vec_len targets ≡ vec_len sources }
    requires few_edges { vec_len sources ≤ 2147483647 }
    requires few_nodes { nodes ≤ 2147483647 }
    ensures outward { IfOk result (λ rows. IsGrouped nodes sources.items targets.items rows.outward) }
    ensures inward { IfOk result (λ rows. IfSome rows.inward
        (IsGroupedWith nodes targets.items sources.items (rows_by_line rows.outward))) }
{
    match walks {
        Walks::Outward => Ok(EdgeRows {
            outward: outward_rows(alloc, sources, targets, nodes)?,
            inward: None,
        }),
        Walks::BothWays => rows_both_ways(alloc, sources, targets, nodes),
    }
}

// The rows of the edges for walks both ways.
fn rows_both_ways(
    alloc: Global,
    sources: Vec<u32>,
    targets: Vec<u32>,
    nodes: usize,
) -> Result<EdgeRows, NoMemory>
    requires sources_within { All (λ node. node < nodes) sources.items }
    requires targets_within { All (λ node. node < nodes) targets.items }
    requires ends { vec_len targets ≡ vec_len sources }
    requires few_edges { vec_len sources ≤ 2147483647 }
    requires few_nodes { nodes ≤ 2147483647 }
    ensures outward { IfOk result (λ rows. IsGrouped nodes sources.items targets.items rows.outward) }
    ensures inward { IfOk result (λ rows. IfSome rows.inward
        (IsGroupedWith nodes targets.items sources.items (rows_by_line rows.outward))) }
{
    let keys = Vec::from_slice(alloc, sources.as_slice())?;
    let others = Vec::from_slice(alloc, targets.as_slice())?;
    let outward = outward_rows(alloc, keys, others, nodes)?;
    let rows = places_of(alloc, sources.as_slice(), outward.starts.as_slice())?;
    let inward = Groups::new(alloc, targets, sources, rows, nodes)?;
    Ok(EdgeRows {
        outward,
        inward: Some(inward),
    })
}

// The rows of the edges away from nodes, with the line of each.
fn outward_rows(
    alloc: Global,
    sources: Vec<u32>,
    targets: Vec<u32>,
    nodes: usize,
) -> Result<Groups, NoMemory>
    requires sources_within { All (λ node. node < nodes) sources.items }
    requires ends { vec_len targets ≡ vec_len sources }
    requires few_edges { vec_len sources ≤ 2147483647 }
    requires few_nodes { nodes ≤ 2147483647 }
    ensures { IfOk result (IsGrouped nodes sources.items targets.items) }
{
    let lines = all_lines(alloc, sources.len())?;
    Groups::new(alloc, sources, targets, lines, nodes)
}

// So many lines.
fn all_lines(alloc: Global, count: usize) -> Result<Vec<u32>, NoMemory>
    requires { count ≤ 2147483647 }
    ensures { IfOk result (λ lines. lines.items ≡ lines_of count) }
{
    let mut lines = Vec::with_capacity(alloc, count)?;
    for line in 0..count {
        lines.push(line as u32)?;
    }
    Ok(lines)
}

// The row of each line. The rows have these lines.
pub(crate) fn rows_of_lines(alloc: Global, lines: &[u32]) -> Result<Vec<u32>, NoMemory>
    requires few { length lines.now ≤ 2147483647 }
    requires whole { HaveEachLine lines.now }
    ensures { IfOk result (λ rows. rows.items ≡ map (row_of lines.now) (lines_of (length lines.now))) }
{
    let mut rows = vec![in alloc; 0u32; lines.len()]?;
    for (row, line) in lines.iter().enumerate() {
        rows[*line as usize] = row as u32;
    }
    Ok(rows)
}

// Columns whose values stand in the order of the lines, with their values in the order of rows. The rows have these lines.
fn columns_by_row(alloc: Global, lines: &[u32], columns: &[Column]) -> Result<Vec<Column>, NoMemory>
    requires { All (λ c. All (λ line. line < length c.values) lines.now) columns.now }
    ensures { IfOk result (λ placed. map (λ c. c.values) placed.items
        ≡ map (λ c. map (value_at c.values) lines.now) columns.now) }
{
    let mut placed = Vec::with_capacity(alloc, columns.len())?;
    for column in columns {
        placed.push(column.picked(alloc, lines)?)?;
    }
    Ok(placed)
}

// Shows that the values of each column are of its type.
fn know_types(columns: &[Column])
    ensures { All (λ c. All (CanHold c.vtype) c.values) columns.now }
{
    for column in columns {
        let _vtype = column.vtype();
    }
}
