//! Supersteps of which observers are told.

ghost use Rattle.std.specs.Prelude.{◌≡◌, ◌∷◌, [], OnOk, OnErr, IfOk, map, length};
ghost use Rattle.gm_model.specs.Graphs.{node_count};
ghost use Rattle.gm_image.specs.Views.{program};
ghost use Rattle.gm_machine.specs.Fields.{IsFull};
ghost use Rattle.gm_machine.specs.Machine.{superstep as superstep_lem};
ghost use Rattle.gm_machine.specs.Asking.{IsServed};
ghost use Rattle.gm_machine.specs.Masters.{FitsGraph};
ghost use Rattle.gm_machine.specs.Notes.{note_of as note_of_lem};
ghost use Rattle.gm_machine.specs.Steps.{KeepsFields};
ghost use Rattle.gm_machine.specs.Supersteps.{nodes_of};
ghost use Rattle.gm_observe.specs.Audience.{IsToldInPart, told_to_all};

use crate::faults::Fault;
use crate::supersteps::{Nodes, superstep};
use gm_base::NoMemory;
use gm_graph::{Graph, InRows};
use gm_image::Image;
use gm_observe::{Note, Observer, tell_all};
use gm_value::Value;
use std::alloc::Global;

// The note of the superstep with a block that left these nodes.
fn note_of(graph: &Graph, block: u32, nodes: &Nodes) -> Note
    ensures { result ≡ note_of_lem graph.now block (nodes_of nodes.now) }
{
    Note {
        step: nodes.supersteps,
        block,
        vertices: graph.node_count(),
        messages: nodes.sent.messages() as u64,
    }
}

/// One superstep of all nodes with a block, as `superstep` takes it. All observers are told of it as soon as all nodes
/// are done, also where it faults.
pub(crate) fn step_and_tell(
    alloc: Global,
    image: &Image,
    graph: &Graph,
    in_rows: &Option<InRows>,
    block: u32,
    globals: &mut Vec<Value>,
    nodes: &mut Nodes,
    observers: &mut [Box<dyn Observer>],
) -> Result<Option<Fault>, NoMemory>
    requires columns { FitsGraph image.now graph.now }
    requires served { IsServed (program image.now) graph.now in_rows.now }
    requires keeps { KeepsFields (program image.now) block }
    requires nodes { nodes.old.fields.nodes ≡ node_count graph.now }
    requires full { IsFull (length nodes.old.fields.rows.items) nodes.old.fields }
    ensures nodes { OnOk result (nodes.new.fields.nodes ≡ nodes.old.fields.nodes) }
    ensures full { OnOk result (IsFull (length nodes.old.fields.rows.items) nodes.new.fields) }
    ensures superstep { IfOk result (λ f. record { nodes = nodes_of nodes.new; globals = globals.new.items; fault = f }
        ≡ superstep_lem (program image.now) graph.now block globals.old.items (nodes_of nodes.old)) }

    // After the superstep all observers hold its note; without memory some may.
    ensures told { OnOk result (map (λ o. seen o) observers.new ≡ told_to_all (note_of_lem graph.now block (superstep_lem (program image.now) graph.now block globals.old.items (nodes_of nodes.old)).nodes ∷ []) (map (λ o. seen o) observers.old)) }
    ensures part { OnErr result (IsToldInPart (note_of_lem graph.now block (superstep_lem (program image.now) graph.now block globals.old.items (nodes_of nodes.old)).nodes ∷ []) (map (λ o. seen o) observers.old) (map (λ o. seen o) observers.new)) }
    ensures same_ways { map (λ o. says_of o) observers.new ≡ map (λ o. says_of o) observers.old }
{
    let fault = superstep(alloc, image, graph, in_rows, block, globals, nodes)?;
    tell_all(observers, note_of(graph, block, nodes))?;
    Ok(fault)
}
