//! Batches of nodes that run a body.

ghost use Rattle.std.specs.Prelude.{◌≡◌, ◌<◌, IfOk, IfSome, Some, map, length};
ghost use Rattle.gm_image.specs.Views.{term};
ghost use Rattle.gm_batches.specs.declared.node_batches.NodeBatch.{NodeBatch};
ghost use Rattle.gm_batches.specs.NodeBatches.{row_count, rows_in};
ghost use Rattle.gm_batches.specs.ValuesIn.{values_in};
ghost use Rattle.gm_batch_steps.specs.BatchStates.{AreChosen, IsBatchOf, IsContext, IsFull, view_in};

use gm_base::NoMemory;
use gm_batches::{NodeBatch, Places, Rows, evaluate};
use gm_columns::{Cells, Column};
use gm_graph::Graph;
use gm_image::Expr;
use gm_machine::Contributions;
use gm_message_columns::MessageColumns;
use gm_value::Value;
use std::alloc::Global;

/// What the rows of a batch see and do not change: the graph, the globals, and the node of each row. With them goes how many
/// places the image has.
#[derive(Clone, Copy)]
pub(crate) struct BatchContext<'a> {
    pub(crate) graph: &'a Graph,
    pub(crate) globals: &'a [Value],
    pub(crate) nodes: &'a [u32],
    pub(crate) places: usize,
}

/// What the rows of a batch change: their fields and registers, with a value for each row, what they sent, and what they put.
#[derive(Drop)]
pub(crate) struct BatchState {
    pub(crate) fields: Vec<Cells>,
    pub(crate) registers: Vec<Column>,
    pub(crate) sent: Option<MessageColumns>,
    pub(crate) puts: Contributions,
}

/// The rows of a batch that reach a line, by their numbers. Where they are known to be all rows, nothing is picked.
#[derive(Clone, Copy)]
pub(crate) struct Chosen<'a> {
    pub(crate) rows: &'a [u32],
    pub(crate) all: bool,
}

// A batch as expressions see it.
fn batch_of<'x>(context: &BatchContext<'x>, state: &'x BatchState) -> NodeBatch<'x>
    requires { length context.now.nodes.now < 4294967296 }
    ensures { IsBatchOf result context.now state.now }
{
    NodeBatch {
        graph: context.graph,
        globals: context.globals,
        nodes: context.nodes,
        places: Places::Between {
            from: 0,
            to: context.nodes.len() as u32,
        },
        fields: state.fields.as_slice(),
        registers: state.registers.as_slice(),
        message: &[],
    }
}

// The rows in which an expression is evaluated.
fn rows_of(chosen: Chosen<'_>) -> Rows<'_>
    ensures { (b : NodeBatch) → AreChosen (row_count b) chosen.entry → rows_in b result ≡ chosen.entry.rows.now }
{
    if chosen.all {
        Rows::All
    } else {
        Rows::At(chosen.rows)
    }
}

/// The value of an expression in each of some rows, in a column, or nothing, where it faults in one of these rows or is none
/// that columns can do.
pub(crate) fn values_of(
    alloc: Global,
    expr: &Expr,
    chosen: Chosen,
    context: &BatchContext,
    state: &BatchState,
) -> Result<Option<Column>, NoMemory>
    requires context { IsContext context.now }
    requires chosen { AreChosen (length context.now.nodes.now) chosen }
    requires full { IsFull (length context.now.nodes.now) state.now }
    ensures { IfOk result (λ got. IfSome got (λ column. values_in (map (view_in context.now state.now) chosen.entry.rows.now) (term expr.now) ≡ Some column.values)) }
{
    let batch = batch_of(context, state);
    evaluate(alloc, expr, &batch, rows_of(chosen))
}
