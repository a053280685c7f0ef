//! The steps of many nodes, batch by batch.

ghost use Rattle.std.specs.Prelude.{◌≡◌, ◌<◌, ◌≤◌, ◌+◌, None, [], IfOk, length};
ghost use Rattle.gm_machine.specs.Duties.{AreNodes, IsDuty, place_after, places_of};
ghost use Rattle.gm_node_batches.specs.Taken.{StepsTaken};

use crate::batches::{BATCH, step_batch};
use crate::inboxes::Inbox;
use gm_base::NoMemory;
use gm_machine::{Contributions, Duty, Fault, Fields, Nodes};
use gm_message_columns::Messages;
use std::alloc::Global;

/// The messages, the contributions and the least fault of the steps of nodes, in order.
#[derive(Drop)]
pub struct Sent {
    pub messages: Messages,
    pub puts: Contributions,
    pub fault: Option<Fault>,
}

impl Sent {
    /// Nothing yet. It keeps the allocator and takes no memory.
    pub fn empty(alloc: Global) -> Self
        ensures messages { result.messages ≡ [] }
        ensures puts { result.puts ≡ [] }
        ensures fault { result.fault ≡ None }
    {
        Sent {
            messages: Messages::empty(alloc),
            puts: Contributions::empty(alloc),
            fault: None,
        }
    }
}

// Where the batch ends that begins at a place.
fn batch_end(from: usize, places: usize) -> usize
    requires { from < places }
    ensures ahead { from < result }
    ensures few { result ≤ from + 1024 }
    ensures within { result ≤ places }
{
    if places - from > BATCH {
        from + BATCH
    } else {
        places
    }
}

/// The vertex steps of nodes on the same globals, in the order of their places, from one place on: until all are done, or
/// until `sent` holds so many messages. It answers which place comes next. The new fields stand in the place of the old
/// ones, and what the nodes send and put stands behind what `sent` holds; a fault is kept in `sent`, the least of all.
/// Where there is not enough memory the run is to be given up. Where no messages wait the nodes go in batches of at most
/// 1,024, each all at once, line by line, by operations on columns, as far as the block is one that this can do and no node
/// faults; the others go one by one.
pub fn steps_of_nodes(
    alloc: Global,
    duty: &Duty,
    nodes: &Nodes,
    inbox: &Inbox,
    fields: &mut Fields,
    from: usize,
    enough: usize,
    sent: &mut Sent,
) -> Result<usize, NoMemory>
    requires duty { IsDuty duty.now }
    requires nodes { AreNodes duty.now.graph.now nodes.now }
    requires inbox { length inbox.now ≡ places_of nodes.now }
    requires fields { length fields.old.rows ≡ places_of nodes.now }
    requires from { from < places_of nodes.now }
    ensures steps { IfOk result (λ to. StepsTaken (place_after duty.now nodes.now inbox.now fields.old.rows) from to fields.old fields.new sent.old sent.new) }
    ensures enough { IfOk result (λ to. to < places_of nodes.now → enough ≤ length sent.new.messages) }
{
    let places = nodes.len();
    let first = batch_end(from, places);
    let mut next = step_batch(alloc, duty, nodes, inbox, fields, from, first, enough, sent)?;
    'batches: while next < places && sent.messages.len() < enough {
        let to = batch_end(next, places);
        next = step_batch(alloc, duty, nodes, inbox, fields, next, to, enough, sent)?;
    }
    Ok(next)
}
