//! Supersteps: the steps of all nodes, one after another.

ghost use Rattle.std.specs.Prelude.{◌≡◌, ◌+◌, OnOk, IfOk, length};
ghost use Rattle.gm_model.specs.Graphs.{node_count};
ghost use Rattle.gm_image.specs.Views.{program};
ghost use Rattle.gm_machine.specs.Asking.{IsServed};
ghost use Rattle.gm_machine.specs.Duties.{IsDuty, Steps};
ghost use Rattle.gm_machine.specs.Fields.{fields_of, held, IsFull};
ghost use Rattle.gm_machine.specs.Machine.{superstep};
ghost use Rattle.gm_machine.specs.Masters.{FitsGraph};
ghost use Rattle.gm_machine.specs.Steps.{KeepsFields};
ghost use Rattle.gm_machine.specs.Supersteps.{nodes_of, all_after};

use crate::batches::Batch;
use crate::faults::{Fault, lesser};
use crate::fields::{FieldColumns, Fields};
use crate::inboxes::Inbox;
use crate::node_lists::settle_puts;
use crate::node_steps::{Duty, Nodes as TheNodes, steps_of_nodes};
use crate::steps::Sent;
use gm_base::NoMemory;
use gm_graph::{Graph, InRows};
use gm_image::Image;
use gm_value::Value;
use std::alloc::Global;
use std::mem;

/// What supersteps change: the fields of all nodes, the messages that wait, and the counts of supersteps and messages.
#[derive(Drop)]
pub(crate) struct Nodes {
    pub(crate) fields: FieldColumns,
    pub(crate) sent: Batch,
    pub(crate) supersteps: u64,
    pub(crate) messages: u64,
}

// The steps of all nodes, in ascending order.
fn step_all(
    alloc: Global,
    duty: &Duty,
    inbox: &Inbox,
    columns: &mut FieldColumns,
    sent: &mut Sent,
) -> Result<(), NoMemory>
    requires duty { IsDuty duty.now }
    requires inbox { length inbox.now ≡ node_count duty.now.graph.now }
    requires nodes { columns.old.nodes ≡ node_count duty.now.graph.now }
    requires full { IsFull (length columns.old.rows.items) columns.old }
    ensures nodes { OnOk result (columns.new.nodes ≡ columns.old.nodes) }
    ensures full { OnOk result (IsFull (length columns.old.rows.items) columns.new) }
    ensures steps { OnOk result (Steps (all_after duty.now inbox.now (fields_of columns.old)) 0 columns.old.nodes (held columns.old) (held columns.new) sent.old sent.new) }
{
    let count = duty.graph.node_count();
    if count == 0 {
        return Ok(());
    }
    let mut fields = Fields {
        columns: mem::replace(columns, FieldColumns::none(alloc)),
    };
    let nodes = TheNodes::All(count);
    let to = steps_of_nodes(alloc, duty, &nodes, inbox, &mut fields, 0, usize::MAX, sent)?;
    // As many messages as `usize` counts do not fit into memory.
    if to < count as usize {
        return Err(NoMemory);
    }
    *columns = fields.columns;
    Ok(())
}

// A sum, where it is a number.
fn sum(a: u64, b: u64) -> Result<u64, NoMemory>
    ensures { IfOk result (λ sum. sum ≡ a + b) }
{
    match a.checked_add(b) {
        Some(sum) => Ok(sum),
        None => Err(NoMemory),
    }
}

/// One superstep of all nodes with a block: each runs the handlers of its messages and then the body, in ascending
/// order, and then what they put is taken onto the globals. It answers the least fault. Time and memory are in
/// proportion to the nodes, the edges that are visited and the messages.
pub(crate) fn superstep(
    alloc: Global,
    image: &Image,
    graph: &Graph,
    in_rows: &Option<InRows>,
    block: u32,
    globals: &mut Vec<Value>,
    nodes: &mut Nodes,
) -> Result<Option<Fault>, NoMemory>
    requires columns { FitsGraph image.now graph.now }
    requires served { IsServed (program image.now) graph.now in_rows.now }
    requires keeps { KeepsFields (program image.now) block }
    requires nodes { nodes.old.fields.nodes ≡ node_count graph.now }
    requires full { IsFull (length nodes.old.fields.rows.items) nodes.old.fields }
    ensures nodes { OnOk result (nodes.new.fields.nodes ≡ nodes.old.fields.nodes) }
    ensures full { OnOk result (IsFull (length nodes.old.fields.rows.items) nodes.new.fields) }
    ensures superstep { IfOk result (λ f. record { nodes = nodes_of nodes.new; globals = globals.new.items; fault = f }
        ≡ superstep (program image.now) graph.now block globals.old.items (nodes_of nodes.old)) }
{
    let count = graph.node_count() as usize;
    let waiting = mem::replace(&mut nodes.sent, Batch::empty(alloc));
    let inbox = Inbox::sort(alloc, waiting, count)?;
    let mut sent = Sent::empty(alloc);
    let seen = globals.as_slice();
    let duty = Duty {
        image,
        block,
        graph,
        in_rows,
        globals: seen,
    };
    step_all(alloc, &duty, &inbox, &mut nodes.fields, &mut sent)?;
    let put = settle_puts(alloc, image, &sent.puts, globals)?;
    let more = sent.messages.messages() as u64;
    let supersteps = sum(nodes.supersteps, 1)?;
    let messages = sum(nodes.messages, more)?;
    nodes.supersteps = supersteps;
    nodes.messages = messages;
    nodes.sent = sent.messages;
    Ok(lesser(sent.fault, put))
}
