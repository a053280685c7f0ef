//! Messages that wait for nodes, before the nodes take their steps.

ghost use Rattle.std.specs.Prelude.{◌≡◌, ◌<◌, ℕ, false, All, IsTrue, IfOk, OnOk, List, length, slice_index};
ghost use Rattle.gm_model.specs.Graphs.{HasNode};
ghost use Rattle.gm_message_columns.specs.MessageTables.{message_rows};
ghost use Rattle.gm_machine.specs.Vertex.{Message};
ghost use Rattle.gm_node_batches.specs.Inboxes.{AllEmpty};
ghost use Rattle.gm_node_batches.specs.Openings.{AreSameSteps, boxes_of};

use crate::inboxes::Inbox;
use gm_base::NoMemory;
use gm_batch_handlers::handlers_of_batch;
use gm_machine::{Duty, Fields};
use gm_message_columns::{MessageColumns, Messages};
use std::alloc::Global;
use std::mem;

// Whether numbers are below one.
fn are_below(numbers: &[u32], count: usize) -> bool
    ensures { IsTrue result → All (λ number. number < count) numbers.now }
{
    numbers.iter().all(|number| (*number as usize) < count)
}

// The handlers are run for all messages at once, by columns. It answers whether that could be done; if not, nothing is
// changed.
fn by_columns(
    alloc: Global,
    duty: &Duty,
    nodes: &[u32],
    messages: &MessageColumns,
    fields: &mut Fields,
) -> Result<bool, NoMemory>
    requires nodes { (place : ℕ) → place < length nodes.now → HasNode duty.now.graph.now (slice_index nodes.now place) }
    requires fields { length fields.old.rows ≡ length nodes.now }
    ensures same_steps { IfOk result (λ done. IsTrue done → (boxes : List (List Message)) → AllEmpty boxes
        → AreSameSteps duty.now nodes.now boxes fields.new.rows (boxes_of (message_rows messages.now) (length nodes.now)) fields.old.rows) }
    ensures long { IfOk result (λ done. IsTrue done → length fields.new.rows ≡ length fields.old.rows) }
    ensures same_fields { IfOk result (λ done. done ≡ false → fields.new ≡ fields.old) }
{
    if !are_below(messages.to(), nodes.len()) {
        return Ok(false);
    }
    // What a graph counts in 32 bits, of which each of its nodes is less.
    let _nodes = duty.graph.node_count();
    let count = fields.len();
    let held = mem::replace(fields, Fields::from_columns(0, Vec::new(alloc)));
    let mut columns = held.into_columns();
    let done = handlers_of_batch(
        alloc,
        duty,
        nodes,
        messages.kind(),
        messages.to(),
        messages.values(),
        &mut columns,
    )?;
    *fields = Fields::from_columns(count, columns);
    Ok(done)
}

/// The messages that wait for nodes, which they name by their places among them, at the start of a superstep. Where the
/// handlers of the duty's block can be run for all of them at once, by columns, they are: then nothing waits any more, and
/// the fields are those that the handlers leave. So the steps of the nodes are the same as before. Messages to no such place
/// are left out.
pub fn open(
    alloc: Global,
    duty: &Duty,
    nodes: &[u32],
    messages: Messages,
    fields: &mut Fields,
) -> Result<Inbox, NoMemory>
    requires nodes { (place : ℕ) → place < length nodes.now → HasNode duty.now.graph.now (slice_index nodes.now place) }
    requires fields { length fields.old.rows ≡ length nodes.now }
    ensures boxes { IfOk result (λ boxes. length boxes ≡ length nodes.now) }
    ensures fields { OnOk result (length fields.new.rows ≡ length nodes.now) }
    ensures same_steps { IfOk result (λ boxes. AreSameSteps duty.now nodes.now boxes fields.new.rows (boxes_of messages (length nodes.now)) fields.old.rows) }
{
    if let Some(columns) = messages.in_columns() {
        if by_columns(alloc, duty, nodes, columns, fields)? {
            return Ok(Inbox::empty(alloc, nodes.len()));
        }
    }
    let waiting = messages.into_batch()?;
    let inbox = Inbox::sort(alloc, waiting, nodes.len())?;
    Ok(inbox)
}
