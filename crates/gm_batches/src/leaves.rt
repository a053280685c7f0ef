//! The columns of what stands alone in an expression.

ghost use Rattle.std.specs.Prelude.{◌≡◌, IfOk};
ghost use Rattle.gm_image.specs.Shapes.{leaf_term};
ghost use Rattle.gm_image.specs.Term as T;
ghost use Rattle.gm_model.specs.Graphs.{edge_count, node_count};
ghost use Rattle.gm_machine.specs.Expressions.{count, value_at};
ghost use Rattle.gm_batches.specs.NodeBatches.{AreRows, IsBatch};
ghost use Rattle.gm_batches.specs.ValuesIn.{IsColumnOf};

use crate::degrees::out_degrees;
use crate::node_batches::{NodeBatch, Rows};
use crate::places::{cells_of, count_rows, nodes_of, rows_of};
use gm_base::NoMemory;
use gm_columns::{Column, TypedCells};
use gm_graph::Graph;
use gm_image::Leaf;
use gm_kernels::constant_if;
use gm_value::Value;
use std::alloc::Global;

// The value of an index, NIL where there is none.
fn value_at(values: &[Value], i: u32) -> Value
    ensures { result ≡ value_at values.now i }
{
    match values.get(i as usize) {
        Some(v) => *v,
        None => Value::At(None),
    }
}

/// The column of a constant.
pub(crate) fn constant_column(
    alloc: Global,
    value: Value,
    batch: &NodeBatch,
    rows: Rows,
) -> Result<Option<Column>, NoMemory>
    ensures { IfOk result (IsColumnOf batch.now rows.entry (T.Const value)) }
{
    constant_if(alloc, value, count_rows(batch, rows))
}

// The column of a global.
fn global_column(
    alloc: Global,
    global: u32,
    batch: &NodeBatch,
    rows: Rows,
) -> Result<Option<Column>, NoMemory>
    ensures { IfOk result (IsColumnOf batch.now rows.entry (T.Global global)) }
{
    constant_if(
        alloc,
        value_at(batch.globals, global),
        count_rows(batch, rows),
    )
}

// How many nodes a graph has.
fn nodes_in(graph: &Graph) -> Value
    ensures { result ≡ count (node_count graph.now) }
{
    Value::I32(graph.node_count() as i32)
}

// How many edges a graph has.
fn edges_in(graph: &Graph) -> Value
    ensures { result ≡ count (edge_count graph.now) }
{
    Value::I32(graph.edge_count() as i32)
}

// The column of the number of nodes.
fn node_count_column(
    alloc: Global,
    batch: &NodeBatch,
    rows: Rows,
) -> Result<Option<Column>, NoMemory>
    ensures { IfOk result (IsColumnOf batch.now rows.entry T.NodeCount) }
{
    constant_if(alloc, nodes_in(batch.graph), count_rows(batch, rows))
}

// The column of the number of edges.
fn edge_count_column(
    alloc: Global,
    batch: &NodeBatch,
    rows: Rows,
) -> Result<Option<Column>, NoMemory>
    ensures { IfOk result (IsColumnOf batch.now rows.entry T.EdgeCount) }
{
    constant_if(alloc, edges_in(batch.graph), count_rows(batch, rows))
}

// The column of a field, where its values are of one type.
fn field_column(
    alloc: Global,
    field: u32,
    batch: &NodeBatch,
    rows: Rows,
) -> Result<Option<Column>, NoMemory>
    requires batch { IsBatch batch.now }
    requires rows { AreRows batch.now rows }
    ensures { IfOk result (IsColumnOf batch.now rows.entry (T.Field field)) }
{
    match batch.fields.get(field as usize) {
        Some(cells) => cells_of(alloc, cells, batch, rows),
        None => Ok(None),
    }
}

// The column of the nodes themselves.
fn nodes_column(alloc: Global, batch: &NodeBatch, rows: Rows) -> Result<Option<Column>, NoMemory>
    requires batch { IsBatch batch.now }
    requires rows { AreRows batch.now rows }
    ensures { IfOk result (IsColumnOf batch.now rows.entry T.Self) }
{
    let nodes = nodes_of(alloc, batch, rows)?;
    Ok(Some(Column::of(TypedCells::Nodes(nodes))))
}

// The column of the numbers of edges that lead from the nodes.
fn degree_column(alloc: Global, batch: &NodeBatch, rows: Rows) -> Result<Option<Column>, NoMemory>
    requires { AreRows batch.now rows }
    ensures { IfOk result (IsColumnOf batch.now rows.entry T.OutDegree) }
{
    let nodes = nodes_of(alloc, batch, rows)?;
    let degrees = out_degrees(alloc, batch.graph, nodes.as_slice())?;
    Ok(Some(Column::of(TypedCells::Ints(degrees))))
}

// The column of a register.
fn register_column(
    alloc: Global,
    register: u32,
    batch: &NodeBatch,
    rows: Rows,
) -> Result<Option<Column>, NoMemory>
    requires batch { IsBatch batch.now }
    requires rows { AreRows batch.now rows }
    ensures { IfOk result (IsColumnOf batch.now rows.entry (T.Register register)) }
{
    match batch.registers.get(register as usize) {
        Some(column) => Ok(Some(rows_of(alloc, column, batch, rows)?)),
        None => Ok(None),
    }
}

// The column of a value of the messages.
fn message_column(
    alloc: Global,
    index: u32,
    batch: &NodeBatch,
    rows: Rows,
) -> Result<Option<Column>, NoMemory>
    requires batch { IsBatch batch.now }
    requires rows { AreRows batch.now rows }
    ensures { IfOk result (IsColumnOf batch.now rows.entry (T.Message index)) }
{
    match batch.message.get(index as usize) {
        Some(column) => Ok(Some(rows_of(alloc, column, batch, rows)?)),
        None => Ok(None),
    }
}

/// The column of what stands alone in an expression.
pub(crate) fn leaf(
    alloc: Global,
    leaf: Leaf,
    batch: &NodeBatch,
    rows: Rows,
) -> Result<Option<Column>, NoMemory>
    requires batch { IsBatch batch.now }
    requires rows { AreRows batch.now rows }
    ensures { IfOk result (IsColumnOf batch.now rows.entry (leaf_term leaf)) }
{
    match leaf {
        Leaf::Const(value) => constant_column(alloc, value, batch, rows),
        Leaf::Global(global) => global_column(alloc, global, batch, rows),
        Leaf::NodeCount => node_count_column(alloc, batch, rows),
        Leaf::EdgeCount => edge_count_column(alloc, batch, rows),
        Leaf::Field(field) => field_column(alloc, field, batch, rows),
        Leaf::Id => nodes_column(alloc, batch, rows),
        Leaf::Register(register) => register_column(alloc, register, batch, rows),
        Leaf::Message(index) => message_column(alloc, index, batch, rows),
        Leaf::OutDegree => degree_column(alloc, batch, rows),
        Leaf::InDegree | Leaf::Neighbour | Leaf::Column(_) => Ok(None),
    }
}
