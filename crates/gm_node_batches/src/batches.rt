//! One batch of nodes: those at the places from one up to another.

ghost use Rattle.std.specs.Prelude.{◌≡◌, ◌<◌, ◌≤◌, ◌+◌, ℕ, ◌++◌, false, IsTrue, IfOk, OnOk, List, length, slice_index};
ghost use Rattle.std.specs.List.{flat_map};
ghost use Rattle.gm_model.specs.Graphs.{HasNode};
ghost use Rattle.gm_machine.specs.declared.node_steps.Nodes.TheVariants.{These};
ghost use Rattle.gm_machine.specs.Duties.{AreNodes, IsDuty, place_after, places_of};
ghost use Rattle.gm_machine.specs.Vertex.{Message};
ghost use Rattle.gm_message_columns.specs.MessageTables.{message_rows};
ghost use Rattle.gm_node_batches.specs.Inboxes.{AllEmpty};
ghost use Rattle.gm_node_batches.specs.Taken.{StepsTaken};

use crate::inboxes::Inbox;
use crate::steps::Sent;
use gm_base::NoMemory;
use gm_batch_steps::steps_of_batch;
use gm_machine::{
    Batch, Contributions, Duty, Fields, Inbox as MessageInbox, Nodes, Sent as NodeSent,
    steps_of_nodes,
};
use gm_message_columns::{MessageColumns, Messages};
use std::alloc::Global;
use std::mem;

/// So many nodes make a batch.
pub(crate) const BATCH: usize = 1024;

// Adds messages in columns behind others.
fn append_all(more: Vec<MessageColumns>, messages: &mut Messages) -> Result<(), NoMemory>
    ensures { OnOk result (messages.new ≡ messages.old ++ flat_map message_rows more.items) }
{
    for columns in more {
        messages.append_columns(columns)?;
    }
    Ok(())
}

// The steps of nodes for which no messages wait, by columns. It answers whether that could be done; if not, nothing is
// changed.
fn by_columns(
    alloc: Global,
    duty: &Duty,
    nodes: &[u32],
    from: usize,
    to: usize,
    fields: &mut Fields,
    sent: &mut Sent,
) -> Result<bool, NoMemory>
    requires nodes { (place : ℕ) → place < length nodes.now → HasNode duty.now.graph.now (slice_index nodes.now place) }
    requires fields { length fields.old.rows ≡ length nodes.now }
    requires ordered { from < to }
    requires few { to ≤ from + 1024 }
    requires within { to ≤ length nodes.now }
    ensures steps { IfOk result (λ done. IsTrue done → (boxes : List (List Message)) → AllEmpty boxes
        → StepsTaken (place_after duty.now (These nodes.entry) boxes fields.old.rows) from to fields.old fields.new sent.old sent.new) }
    ensures same_fields { IfOk result (λ done. done ≡ false → fields.new ≡ fields.old) }
    ensures same_sent { IfOk result (λ done. done ≡ false → sent.new ≡ sent.old) }
{
    // What a graph counts in 32 bits, of which each of its nodes is less.
    let _nodes = duty.graph.node_count();
    let count = fields.len();
    let held = mem::replace(fields, Fields::from_columns(0, Vec::new(alloc)));
    let mut columns = held.into_columns();
    let mut made = Vec::new(alloc);
    let done = steps_of_batch(
        alloc,
        duty,
        &nodes[from..to],
        from,
        &mut columns,
        &mut made,
        &mut sent.puts,
    )?;
    *fields = Fields::from_columns(count, columns);
    if done {
        append_all(made, &mut sent.messages)?;
    }
    Ok(done)
}

// The steps of the nodes from a place on, one by one, until all are done or so many messages more are gathered. It answers
// which place comes next.
fn one_by_one(
    alloc: Global,
    duty: &Duty,
    nodes: &Nodes,
    inbox: &MessageInbox,
    fields: &mut Fields,
    from: usize,
    enough: usize,
    sent: &mut Sent,
) -> Result<usize, NoMemory>
    requires duty { IsDuty duty.now }
    requires nodes { AreNodes duty.now.graph.now nodes.now }
    requires inbox { length inbox.now ≡ places_of nodes.now }
    requires fields { length fields.old.rows ≡ places_of nodes.now }
    requires from { from < places_of nodes.now }
    ensures { IfOk result (λ next. StepsTaken (place_after duty.now nodes.now inbox.now fields.old.rows) from next fields.old fields.new sent.old sent.new) }
{
    let mut more = NodeSent {
        messages: Batch::empty(alloc),
        puts: mem::replace(&mut sent.puts, Contributions::empty(alloc)),
        fault: sent.fault,
    };
    let next = steps_of_nodes(alloc, duty, nodes, inbox, fields, from, enough, &mut more)?;
    sent.messages.append_batch(more.messages)?;
    sent.puts = more.puts;
    sent.fault = more.fault;
    Ok(next)
}

/// The steps of the nodes at the places from one up to another, as a batch where that can be done. Otherwise those from the first
/// on one by one, until all are done or so many messages are gathered. It answers which place comes next.
pub(crate) fn step_batch(
    alloc: Global,
    duty: &Duty,
    nodes: &Nodes,
    inbox: &Inbox,
    fields: &mut Fields,
    from: usize,
    to: usize,
    enough: usize,
    sent: &mut Sent,
) -> Result<usize, NoMemory>
    requires duty { IsDuty duty.now }
    requires nodes { AreNodes duty.now.graph.now nodes.now }
    requires inbox { length inbox.now ≡ places_of nodes.now }
    requires fields { length fields.old.rows ≡ places_of nodes.now }
    requires from { from < to }
    requires few { to ≤ from + 1024 }
    requires to { to ≤ places_of nodes.now }
    ensures { IfOk result (λ next. StepsTaken (place_after duty.now nodes.now inbox.now fields.old.rows) from next fields.old fields.new sent.old sent.new) }
{
    if let Nodes::These(list) = *nodes {
        if inbox.empty && by_columns(alloc, duty, list, from, to, fields, sent)? {
            return Ok(to);
        }
    }
    one_by_one(
        alloc,
        duty,
        nodes,
        &inbox.messages,
        fields,
        from,
        enough,
        sent,
    )
}
