//! Graphs of texts.

ghost use Rattle.std.specs.Prelude.{◌≡◌, ◌≢◌, ◌≤◌, List, IfOk, IfErr, Err, length};
ghost use Rattle.gm_graph.specs.Builds.{IsBuiltOf};
ghost use Rattle.gm_loader.specs.Lines.{Line};
ghost use Rattle.gm_loader.specs.GraphText.{lines_of, raw_of, StandsFor, HasColumns};
ghost use Rattle.gm_loader.specs.Tables.{Holds, HoldsSome, HoldsText};
ghost use Rattle.gm_loader.specs.declared.limits.Limits.{Limits as LimitsValue};

use crate::faults::GraphFault;
use crate::limits::Limits;
use crate::tables::Tables;
use gm_base::{Items, NoMemory};
use gm_graph::{Graph, Shape, build};
use std::alloc::{AllocError, Global};

/// A shape like another.
pub fn shape_like(alloc: Global, shape: &Shape) -> Result<Shape, AllocError>
    ensures { IfOk result (λ copy. copy ≡ shape.now) }
{
    Ok(Shape {
        nodes: Items::new(Vec::from_slice(alloc, shape.nodes.as_slice())?),
        edges: Items::new(Vec::from_slice(alloc, shape.edges.as_slice())?),
        walks: shape.walks,
    })
}

// Reads the lines of a text into tables.
fn read_text(
    alloc: Global,
    text: &[u8],
    shape: &Shape,
    limits: &Limits,
) -> Result<Tables, GraphFault>
    ensures ok { IfOk result (λ tables. HoldsText shape.now limits.now text.now tables) }
    ensures fault { IfErr result (λ e. e ≢ GraphFault.NoMemory
        → lines_of shape.now limits.now text.now ≡ Err e) }
{
    if text.len() as u64 > limits.bytes {
        return Err(GraphFault::TooLong);
    }
    let mut tables = Tables::new(alloc, shape)?;
    let mut rest = text;
    let mut number: u64 = 0;
    'lines: while !rest.is_empty() {
        number += 1;
        match tables.take_first_line(limits, rest) {
            Ok(behind) => rest = behind,
            Err(stop) => return Err(stop.at_line(number)),
        }
    }
    Ok(tables)
}

// The graph of the lines that tables hold.
fn make_graph(alloc: Global, tables: Tables, shape: &Shape) -> Result<Graph, NoMemory>
    requires { HoldsSome shape.now tables }
    ensures { IfOk result (λ graph. (limits : LimitsValue) (before : List Line) → Holds shape.now limits before tables
        → IsBuiltOf (raw_of shape.now before) graph) }
{
    let raw = tables.into_raw(shape_like(alloc, shape)?);
    build(alloc, raw)
}

/// The graph that a text stands for, or the fault of its first line that has one; `TooLong` for a text of more
/// bytes than the limit. The limits on nodes and edges are at most 2,147,483,647.
///
/// # Errors
///
/// The faults of lines with the number of the line, from 1: the fields of a line are judged from left to right,
/// then whether it is the second line of a node, then the limits on nodes and on edges. `TooLong` comes before
/// all of these.
pub fn parse_graph(
    alloc: Global,
    bytes: &[u8],
    shape: &Shape,
    limits: &Limits,
) -> Result<Graph, GraphFault>
    requires few_nodes { limits.now.nodes ≤ 2147483647 }
    requires few_edges { limits.now.edges ≤ 2147483647 }
    ensures graph { IfOk result (StandsFor shape.now limits.now bytes.now) }
    ensures columns { IfOk result (HasColumns (length shape.now.nodes) (length shape.now.edges)) }
    ensures fault { IfErr result (λ e. e ≢ GraphFault.NoMemory
        → lines_of shape.now limits.now bytes.now ≡ Err e) }
{
    let tables = read_text(alloc, bytes, shape, limits)?;
    Ok(make_graph(alloc, tables, shape)?)
}

/// The graph that a text stands for, or the fault of its first line that has one, as `parse_graph` answers. The text is
/// let go as soon as its lines are read, so that it adds nothing to the memory that the making of the graph takes.
///
/// # Errors
///
/// Those of `parse_graph`.
pub fn consume_graph(
    alloc: Global,
    text: Vec<u8>,
    shape: &Shape,
    limits: &Limits,
) -> Result<Graph, GraphFault>
    requires few_nodes { limits.now.nodes ≤ 2147483647 }
    requires few_edges { limits.now.edges ≤ 2147483647 }
    ensures graph { IfOk result (StandsFor shape.now limits.now text.items) }
    ensures columns { IfOk result (HasColumns (length shape.now.nodes) (length shape.now.edges)) }
    ensures fault { IfErr result (λ e. e ≢ GraphFault.NoMemory
        → lines_of shape.now limits.now text.items ≡ Err e) }
{
    let tables = read_text(alloc, &text, shape, limits)?;
    drop(text);
    Ok(make_graph(alloc, tables, shape)?)
}
