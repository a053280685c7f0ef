//! The written step of one vertex, for all that run images.

ghost use Rattle.std.specs.Prelude.{◌≡◌, ◌<◌, ◌++◌, None, OnOk, [], length};
ghost use Rattle.gm_model.specs.Graphs.{HasNode};
ghost use Rattle.gm_image.specs.Views.{program};
ghost use Rattle.gm_machine.specs.Asking.{IsServed};
ghost use Rattle.gm_machine.specs.Masters.{FitsGraph};
ghost use Rattle.gm_machine.specs.Faults.{lesser};
ghost use Rattle.gm_machine.specs.Steps.{KeepsFields, step_after};

use crate::batches::Batch;
use crate::bodies::{block_at, run_vertex};
use crate::contributions::Contributions;
use crate::expressions::VertexContext;
use crate::faults::{Fault, lesser};
use crate::lines::VertexState;
use gm_base::NoMemory;
use gm_graph::{Graph, InRows};
use gm_image::{Image, Sound};
use gm_value::Value;
use std::alloc::Global;
use std::mem;

/// The messages, the contributions and the least fault of vertex steps, in order.
#[derive(Drop)]
pub struct Sent {
    pub messages: Batch,
    pub puts: Contributions,
    pub fault: Option<Fault>,
}

impl Sent {
    /// Nothing yet. It keeps the allocator and takes no memory.
    pub fn empty(alloc: Global) -> Self
        ensures messages { result.messages ≡ [] }
        ensures puts { result.puts ≡ [] }
        ensures fault { result.fault ≡ None }
    {
        Sent {
            messages: Batch::empty(alloc),
            puts: Contributions::empty(alloc),
            fault: None,
        }
    }
}

// The step of a vertex, for an image whose block sets no field in its handlers.
pub(crate) fn step(
    alloc: Global,
    image: &Image,
    block: u32,
    globals: &[Value],
    graph: &Graph,
    in_rows: &Option<InRows>,
    node: u32,
    fields: &mut Vec<Value>,
    inbox: &Batch,
    sent: &mut Sent,
) -> Result<(), NoMemory>
    requires node { HasNode graph.now node }
    requires columns { FitsGraph image.now graph.now }
    requires served { IsServed (program image.now) graph.now in_rows.now }
    requires keeps { KeepsFields (program image.now) block }
    ensures fields { OnOk result (fields.new.items
        ≡ (step_after (program image.now) block globals.now graph.now node inbox.now fields.old.items).state.fields) }
    ensures messages { OnOk result (sent.new.messages
        ≡ sent.old.messages ++ (step_after (program image.now) block globals.now graph.now node inbox.now fields.old.items).state.messages) }
    ensures puts { OnOk result (sent.new.puts
        ≡ sent.old.puts ++ (step_after (program image.now) block globals.now graph.now node inbox.now fields.old.items).state.puts) }
    ensures fault { OnOk result (sent.new.fault
        ≡ lesser sent.old.fault (step_after (program image.now) block globals.now graph.now node inbox.now fields.old.items).fault) }
{
    let code = block_at(image, block);
    let context = VertexContext {
        graph,
        in_rows,
        columns: image.columns.len(),
        globals,
        node,
        message: &[],
        neighbour: 0,
        row: None,
    };
    let mut state = VertexState::idle(alloc, mem::replace(fields, Vec::new(alloc)));
    mem::swap(&mut state.messages, &mut sent.messages);
    mem::swap(&mut state.puts, &mut sent.puts);
    let mut row = Vec::new(alloc);
    let fault = run_vertex(
        image,
        code,
        &inbox.headers[inbox.taken..],
        &inbox.values,
        &mut row,
        &context,
        &mut state,
    )?;
    *fields = state.fields;
    sent.messages = state.messages;
    sent.puts = state.puts;
    sent.fault = lesser(sent.fault, fault);
    Ok(())
}

/// The written step of one vertex: it puts the new fields in the place of the old ones, and adds what the vertex sent
/// and put behind what `sent` holds. A fault is kept in `sent`, the least of all. Where there is not enough memory the
/// run is to be given up.
pub fn vertex_step(
    alloc: Global,
    image: &Sound,
    block: u32,
    globals: &[Value],
    graph: &Graph,
    in_rows: &Option<InRows>,
    node: u32,
    fields: &mut Vec<Value>,
    inbox: &Batch,
    sent: &mut Sent,
) -> Result<(), NoMemory>
    requires node { HasNode graph.now node }
    requires columns { FitsGraph image.now graph.now }
    requires served { IsServed (program image.now) graph.now in_rows.now }
    ensures fields { OnOk result (fields.new.items
        ≡ (step_after (program image.now) block globals.now graph.now node inbox.now fields.old.items).state.fields) }
    ensures messages { OnOk result (sent.new.messages
        ≡ sent.old.messages ++ (step_after (program image.now) block globals.now graph.now node inbox.now fields.old.items).state.messages) }
    ensures puts { OnOk result (sent.new.puts
        ≡ sent.old.puts ++ (step_after (program image.now) block globals.now graph.now node inbox.now fields.old.items).state.puts) }
    ensures fault { OnOk result (sent.new.fault
        ≡ lesser sent.old.fault (step_after (program image.now) block globals.now graph.now node inbox.now fields.old.items).fault) }
{
    step(
        alloc,
        image.image(),
        block,
        globals,
        graph,
        in_rows,
        node,
        fields,
        inbox,
        sent,
    )
}
