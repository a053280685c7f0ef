//! Graphs in flat rows.

ghost use Rattle.std.specs.Prelude.{◌≡◌, ◌<◌, ◌≤◌, ◌==◌, Some, All, length, map, position, slice_get};
ghost use Rattle.gm_columns.specs.Columns.{cell_at};
ghost use Rattle.gm_model.specs.Graphs.{IsGraph, HasNode, HasEdge, HasStep, HasNodeColumn, HasEdgeColumn, node_count, edge_count, out_steps, nodes_of, edges_of, value_along};
ghost use Rattle.gm_graph.specs.Walks.{edge_at};

use crate::groups::Groups;
use crate::numbers::index_in;
use gm_columns::Column;
use gm_value::Value;
use std::marker::Model;

/// A graph. Contracts see its ascending node numbers, its edges between node indices, in the order of their
/// lines, and the values of its columns. In memory the edges, with their values, stand as a walk along them goes:
/// those away from the first node, then those away from the second, and so on. The place of an edge in this walk is its
/// row; where the value of an edge is asked for, its row leads there at once, and its number by line does not.
#[derive(Debug, Drop)]
pub struct Graph {
    pub(crate) numbers: Vec<u64>,
    // With the line of each edge.
    pub(crate) outward: Groups,
    // With the row of each edge among those of `outward`, where a walk asks for them.
    pub(crate) inward: Option<Groups>,
    pub(crate) node_columns: Vec<Column>,
    // In the order of the rows of `outward`.
    pub(crate) edge_columns: Vec<Column>,
}

impl Model for Graph {
    ghost use Rattle.gm_model.specs.Graphs.{NumberedGraph};

    ghost Value = { NumberedGraph };

    ghost use Rattle.gm_graph.specs.Rows.{numbered, IsHeld};

    ghost view = { numbered };

    ghost invariant = { IsHeld };
}

impl Graph {
    /// How many nodes there are. Their indices are the numbers below.
    pub fn node_count(&self) -> u32
        ensures count { result ≡ node_count self.now }
        ensures known { IsGraph self.now }
    {
        self.numbers.len() as u32
    }

    /// How many edges there are. Their indices, in the order of their lines, are the numbers below.
    pub fn edge_count(&self) -> u32
        ensures count { result ≡ edge_count self.now }
        ensures known { IsGraph self.now }
    {
        self.outward.edges.len() as u32
    }

    /// How many node columns there are. Their indices are the numbers below.
    pub fn node_column_count(&self) -> usize
        ensures { result ≡ length self.now.node_columns }
    {
        self.node_columns.len()
    }

    /// How many edge columns there are. Their indices are the numbers below.
    pub fn edge_column_count(&self) -> usize
        ensures { result ≡ length self.now.edge_columns }
    {
        self.edge_columns.len()
    }

    /// The number of the node of an index.
    pub fn number(&self, node: u32) -> u64
        requires { HasNode self.now node }
        ensures { slice_get self.now.numbers node ≡ Some result }
    {
        self.numbers[node as usize]
    }

    /// The index of the node of a number, or None where no node has it.
    pub fn node_of(&self, number: u64) -> Option<u32>
        ensures { result ≡ position (λ n. n == number) self.now.numbers }
    {
        index_in(self.numbers.as_slice(), number)
    }

    /// How many edges lead from a node.
    pub fn out_degree(&self, node: u32) -> u32
        requires { HasNode self.now node }
        ensures degree { result ≡ length (out_steps self.now node) }
        ensures fits { result ≤ 2147483647 }
    {
        self.outward.size(node)
    }

    /// The k-th edge that leads from a node, from 0 and in the order of the lines: its place among all edges.
    pub fn out_edge(&self, node: u32, k: u32) -> u32
        requires node { HasNode self.now node }
        requires step { HasStep (out_steps self.now node) k }
        ensures edge { slice_get (edges_of (out_steps self.now node)) k ≡ Some result }
        ensures known { HasEdge self.now result }
    {
        self.outward.edge(node, k)
    }

    /// The row of the k-th edge that leads from a node, from 0 and in the order of the lines: its place in the walk.
    pub fn out_row(&self, node: u32, k: u32) -> u32
        requires node { HasNode self.now node }
        requires step { HasStep (out_steps self.now node) k }
        ensures edge { slice_get (edges_of (out_steps self.now node)) k ≡ Some (edge_at self.now (Some result)) }
        ensures known { HasEdge self.now result }
    {
        self.outward.row(node, k)
    }

    /// The node to which the k-th edge leads that leads from a node, from 0 and in the order of the lines.
    pub fn out_target(&self, node: u32, k: u32) -> u32
        requires node { HasNode self.now node }
        requires step { HasStep (out_steps self.now node) k }
        ensures target { slice_get (nodes_of (out_steps self.now node)) k ≡ Some result }
        ensures known { HasNode self.now result }
    {
        self.outward.node(node, k)
    }

    /// The value in an edge column at the k-th edge that leads from a node.
    pub fn out_value(&self, node: u32, k: u32, column: u32) -> Value
        requires node { HasNode self.now node }
        requires step { HasStep (out_steps self.now node) k }
        requires column { HasEdgeColumn self.now column }
        ensures { value_along self.now (out_steps self.now node) k column ≡ Some result }
    {
        cell(
            self.edge_columns.as_slice(),
            column,
            self.outward.row(node, k),
        )
    }

    /// The edge of a row: its place among all edges, in the order of the lines.
    pub fn edge_of_row(&self, row: u32) -> u32
        requires { HasEdge self.now row }
        ensures edge { result ≡ edge_at self.now (Some row) }
        ensures known { HasEdge self.now result }
    {
        self.outward.edges[row as usize]
    }

    /// The value in an edge column at the edge of a row.
    pub fn row_value(&self, row: u32, column: u32) -> Value
        requires row { HasEdge self.now row }
        requires column { HasEdgeColumn self.now column }
        ensures { cell_at self.now.edge_columns column (edge_at self.now (Some row)) ≡ Some result }
    {
        cell(self.edge_columns.as_slice(), column, row)
    }

    /// The value in an edge column at the edge of a row, and at the first edge where no row is named. There is none where
    /// the graph has no such column or no such edge.
    pub fn value_in(&self, row: Option<u32>, column: u32) -> Option<Value>
        ensures { result ≡ cell_at self.now.edge_columns column (edge_at self.now row) }
    {
        match row {
            Some(row) => self.value_at(row, column),
            None => self.first_value(column),
        }
    }

    // The value in an edge column at the edge of a row, if there are such a column and such an edge.
    fn value_at(&self, row: u32, column: u32) -> Option<Value>
        ensures { result ≡ cell_at self.now.edge_columns column (edge_at self.now (Some row)) }
    {
        if row >= self.edge_count() {
            return None;
        }
        if column as usize >= self.edge_column_count() {
            return None;
        }
        Some(self.row_value(row, column))
    }

    // The value in an edge column at the first edge, if there are such a column and an edge.
    fn first_value(&self, column: u32) -> Option<Value>
        ensures { result ≡ cell_at self.now.edge_columns column 0 }
    {
        if self.edge_count() == 0 {
            return None;
        }
        if column as usize >= self.edge_column_count() {
            return None;
        }
        Some(self.edge_value(0, column))
    }

    /// The value of a node in a node column.
    pub fn start_value(&self, node: u32, column: u32) -> Value
        requires node { HasNode self.now node }
        requires column { HasNodeColumn self.now column }
        ensures { cell_at self.now.node_columns column node ≡ Some result }
    {
        cell(self.node_columns.as_slice(), column, node)
    }

    /// The value of an edge in an edge column. The edge's row is searched for, in time that grows with the number of all
    /// edges: along a step it is known, and `out_value` and `row_value` take it from there.
    pub fn edge_value(&self, edge: u32, column: u32) -> Value
        requires edge { HasEdge self.now edge }
        requires column { HasEdgeColumn self.now column }
        ensures { cell_at self.now.edge_columns column edge ≡ Some result }
    {
        let row = self.outward.row_of(edge);
        cell(self.edge_columns.as_slice(), column, row)
    }
}

// The value of a column, of several, at a row.
fn cell(columns: &[Column], column: u32, row: u32) -> Value
    requires column { column < length columns.now }
    requires row { All (λ c. row < length c.values) columns.now }
    ensures { cell_at (map (λ c. c.values) columns.now) column row ≡ Some result }
{
    columns[column as usize].get(row as usize)
}
