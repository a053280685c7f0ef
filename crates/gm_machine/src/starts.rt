//! The nodes before the first superstep.

ghost use Rattle.std.specs.Prelude.{◌≡◌, ◌+◌, OnOk, IfOk, map, length};
ghost use Rattle.gm_model.specs.Graphs.{HasNode, node_count};
ghost use Rattle.gm_image.specs.Views.{program, input};
ghost use Rattle.gm_machine.specs.Fields.{IsFull};
ghost use Rattle.gm_machine.specs.Machine.{properties, with_inputs, row_at, start_nodes};
ghost use Rattle.gm_machine.specs.Starts.{IsBound};
ghost use Rattle.gm_machine.specs.Supersteps.{nodes_of};

use crate::batches::Batch;
use crate::fields::FieldColumns;
use crate::lines::{reset, write};
use crate::supersteps::Nodes;
use gm_base::NoMemory;
use gm_graph::Graph;
use gm_image::{Image, InputItem};
use gm_value::Value;
use std::alloc::Global;

// The number behind a number, where there is one.
fn next(n: u32) -> Result<u32, NoMemory>
    ensures { IfOk result (λ next. next ≡ n + 1) }
{
    match n.checked_add(1) {
        Some(next) => Ok(next),
        None => Err(NoMemory),
    }
}

// Writes the value of a node in the next column into the field of an input, where it is one of nodes, and answers which
// column is next then.
fn bind(
    item: &InputItem,
    graph: &Graph,
    node: u32,
    column: u32,
    fields: &mut Vec<Value>,
) -> Result<u32, NoMemory>
    requires { HasNode graph.now node }
    ensures { IfOk result (λ next. IsBound (input item.now) (row_at graph.now.node_columns node) column fields.old.items next fields.new.items) }
{
    match item {
        InputItem::Node { slot, .. } => {
            if column as usize >= graph.node_column_count() {
                return Ok(column);
            }
            let value = graph.start_value(node, column);
            write(fields, *slot, value);
            let next = next(column)?;
            Ok(next)
        }
        InputItem::Scalar { .. } => Ok(column),
        InputItem::Edge { .. } => Ok(column),
    }
}

// Writes the values of a node in the graph's columns into the fields of the node inputs, in order.
pub(crate) fn bind_properties(
    inputs: &[InputItem],
    graph: &Graph,
    node: u32,
    fields: &mut Vec<Value>,
) -> Result<(), NoMemory>
    requires { HasNode graph.now node }
    ensures { OnOk result (fields.new.items ≡ with_inputs (properties (map input inputs.now)) (row_at graph.now.node_columns node) fields.old.items) }
{
    let mut column = 0u32;
    for item in inputs {
        column = bind(item, graph, node, column, fields)?;
    }
    Ok(())
}

/// The nodes before the first superstep: each field is 0, False, NIL or the node's value in its column.
pub(crate) fn start(alloc: Global, image: &Image, graph: &Graph) -> Result<Nodes, NoMemory>
    ensures nodes { IfOk result (λ s. s.fields.nodes ≡ node_count graph.now) }
    ensures full { IfOk result (λ s. IsFull (length s.fields.rows.items) s.fields) }
    ensures start { IfOk result (λ s. nodes_of s ≡ start_nodes (program image.now) graph.now) }
{
    let types = image.fields.as_slice();
    let inputs = image.inputs.as_slice();
    let nodes = graph.node_count();
    let mut fields = FieldColumns::new(alloc, types, nodes as usize)?;
    let mut row = Vec::new(alloc);
    for node in 0..nodes {
        reset(&mut row, types)?;
        bind_properties(inputs, graph, node, &mut row)?;
        let first = row.as_slice();
        fields.store(alloc, node as usize, first)?;
    }
    Ok(Nodes {
        fields,
        sent: Batch::empty(alloc),
        supersteps: 0,
        messages: 0,
    })
}
