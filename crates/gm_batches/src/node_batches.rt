//! Batches of nodes.

use gm_columns::{Cells, Column};
use gm_graph::Graph;
use gm_value::Value;

/// Where the fields of the rows lie in cells: at the places from one up to another, or at places of their own.
#[derive(Clone, Copy)]
pub enum Places<'a> {
    Between { from: u32, to: u32 },
    At(&'a [u32]),
}

/// Some rows of a batch: all of them, or those of some numbers, one after another.
#[derive(Clone, Copy)]
pub enum Rows<'a> {
    All,
    At(&'a [u32]),
}

/// Rows in which an expression is evaluated, each for a node. Several rows may be for one node, as where each is a message
/// to it. There are columns of registers and of the values of messages, by their indices, with a value for each row;
/// fields, by their indices, are read from cells at the places of the rows.
#[derive(Clone, Copy)]
pub struct NodeBatch<'a> {
    pub graph: &'a Graph,
    pub globals: &'a [Value],
    pub nodes: &'a [u32],
    pub places: Places<'a>,
    pub fields: &'a [Cells],
    pub registers: &'a [Column],
    pub message: &'a [Column],
}
