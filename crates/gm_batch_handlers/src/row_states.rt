//! Rows of messages that run the lines of a handler.

ghost use Rattle.std.specs.Prelude.{◌≡◌, ◌<◌, IfOk, IfSome, Some, map, length};
ghost use Rattle.gm_image.specs.Views.{term};
ghost use Rattle.gm_batches.specs.declared.node_batches.NodeBatch.{NodeBatch};
ghost use Rattle.gm_batches.specs.NodeBatches.{row_count, rows_in};
ghost use Rattle.gm_batches.specs.ValuesIn.{values_in};
ghost use Rattle.gm_batch_handlers.specs.RowStates.{AreChosen, IsBatchOf, IsContext, IsFull, view_in};

use gm_base::NoMemory;
use gm_batches::{NodeBatch, Places, Rows, evaluate};
use gm_columns::{Cells, Column, TypedCells};
use gm_graph::Graph;
use gm_image::Expr;
use gm_value::{Reduce, Value};
use std::alloc::Global;

/// What the rows of some messages see and do not change: the graph, the globals, the node to which each message goes and
/// its place, the fields by place, and the values of the messages.
#[derive(Clone, Copy)]
pub(crate) struct RowContext<'a> {
    pub(crate) graph: &'a Graph,
    pub(crate) globals: &'a [Value],
    pub(crate) nodes: &'a [u32],
    pub(crate) places: &'a [u32],
    pub(crate) fields: &'a [Cells],
    pub(crate) message: &'a [Column],
}

/// What a slot holds at each place after what was folded into it, by one reduction and at one place of the image.
#[derive(Drop)]
pub(crate) struct SlotTotal {
    pub(crate) reduce: Reduce,
    pub(crate) place: u32,
    pub(crate) cells: TypedCells,
}

/// What the rows of some messages change: their registers, with a value for each row, and what was folded into each slot, if
/// anything was.
#[derive(Drop)]
pub(crate) struct RowState {
    pub(crate) registers: Vec<Column>,
    pub(crate) totals: Vec<Option<SlotTotal>>,
}

/// The rows that reach a line, by their numbers. Where they are known to be all rows, nothing is picked.
#[derive(Clone, Copy)]
pub(crate) struct Chosen<'a> {
    pub(crate) rows: &'a [u32],
    pub(crate) all: bool,
}

// Rows as expressions see them.
fn batch_of<'x>(context: &RowContext<'x>, registers: &'x [Column]) -> NodeBatch<'x>
    ensures { IsBatchOf result context.now registers.now }
{
    NodeBatch {
        graph: context.graph,
        globals: context.globals,
        nodes: context.nodes,
        places: Places::At(context.places),
        fields: context.fields,
        registers,
        message: context.message,
    }
}

// The rows in which an expression is evaluated.
fn rows_of(chosen: Chosen<'_>) -> Rows<'_>
    ensures { (b : NodeBatch) → AreChosen (row_count b) chosen.entry → rows_in b result ≡ chosen.entry.rows.now }
{
    if chosen.all {
        Rows::All
    } else {
        Rows::At(chosen.rows)
    }
}

/// The value of an expression in each of some rows, in a column, or nothing, where it faults in one of these rows or is none
/// that columns can do.
pub(crate) fn values_of(
    alloc: Global,
    expr: &Expr,
    chosen: Chosen,
    context: &RowContext,
    registers: &[Column],
) -> Result<Option<Column>, NoMemory>
    requires context { IsContext context.now }
    requires chosen { AreChosen (length context.now.nodes.now) chosen }
    requires full { IsFull (length context.now.nodes.now) registers.now }
    ensures { IfOk result (λ got. IfSome got (λ column. values_in (map (view_in context.now registers.now) chosen.entry.rows.now) (term expr.now) ≡ Some column.values)) }
{
    let batch = batch_of(context, registers);
    evaluate(alloc, expr, &batch, rows_of(chosen))
}
