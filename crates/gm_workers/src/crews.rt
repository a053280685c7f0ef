//! The workers between supersteps.

ghost use Rattle.std.specs.Prelude.{◌≡◌, ◌<◌, ◌≤◌, ℕ, List, [], IfOk, length, map, slice_index};
ghost use Rattle.gm_value.specs.declared.values.Value.{Value};
ghost use Rattle.gm_model.specs.Graphs.{HasNode, node_count};
ghost use Rattle.gm_image.specs.Views.{program};
ghost use Rattle.gm_machine.specs.Machine.{start_fields, start_nodes};
ghost use Rattle.gm_core.specs.Cores.{start};
ghost use Rattle.gm_core.specs.Owners.{owners_by};
ghost use Rattle.gm_core.specs.Supersteps.{own};
ghost use Rattle.gm_workers.specs.Crews.{AreFirst, IsCrew, Shows, StandFor};

use crate::dealing::{Dealing, deal};
use crate::mail::Mail;
use gm_base::NoMemory;
use gm_core::owner_in;
use gm_graph::Graph;
use gm_image::{Image, Sound};
use gm_machine::{Fields, start_fields};
use gm_partition::Owner;
use std::alloc::Global;

/// A worker between supersteps: its own nodes in ascending order, their fields, and the batches that came to it in the
/// last superstep, each with the worker that sent it, in the order in which they came.
#[derive(Drop)]
pub struct Slot {
    pub nodes: Vec<u32>,
    pub fields: Fields,
    pub waiting: Vec<(u32, Mail)>,
}

/// All workers between supersteps, and who owns which node.
#[derive(Drop)]
pub struct Crew {
    pub dealing: Dealing,
    pub slots: Vec<Slot>,
}

// The nodes of a worker, in ascending order.
fn own_nodes(alloc: Global, owners: &[u32], worker: u32, count: u32) -> Result<Vec<u32>, NoMemory>
    ensures { IfOk result (λ nodes. nodes.items ≡ own owners.now worker count) }
{
    let mut nodes = Vec::new(alloc);
    for node in 0..count {
        if owner_in(owners, node) == worker {
            nodes.push(node)?;
        }
    }
    Ok(nodes)
}

// The fields of some nodes before the first superstep.
fn first_fields(
    alloc: Global,
    image: &Image,
    graph: &Graph,
    nodes: &[u32],
) -> Result<Fields, NoMemory>
    requires { (place : ℕ) → place < length nodes.now → HasNode graph.now (slice_index nodes.now place) }
    ensures { IfOk result (λ f. f.rows ≡ map (λ n. start_fields (program image.now) graph.now (n, n)) nodes.now) }
{
    let mut fields = Fields::new(alloc, image.fields.as_slice(), nodes.len())?;
    for place in 0..nodes.len() {
        let first = start_fields(alloc, image, graph, nodes[place])?;
        fields.store(alloc, place, first.as_slice())?;
    }
    Ok(fields)
}

// A worker before the first superstep.
fn first_slot(
    alloc: Global,
    image: &Image,
    graph: &Graph,
    owners: &[u32],
    worker: u32,
) -> Result<Slot, NoMemory>
    ensures nodes { IfOk result (λ x. x.nodes.items ≡ own owners.now worker (node_count graph.now)) }
    ensures fields { IfOk result (λ x. x.fields.rows ≡ map (λ n. start_fields (program image.now) graph.now (n, n)) (own owners.now worker (node_count graph.now))) }
    ensures waiting { IfOk result (λ x. x.waiting.items ≡ []) }
{
    let nodes = own_nodes(alloc, owners, worker, graph.node_count())?;
    let fields = first_fields(alloc, image, graph, nodes.as_slice())?;
    Ok(Slot {
        nodes,
        fields,
        waiting: Vec::new(alloc),
    })
}

// The workers before the first superstep, so many of them.
fn first_slots(
    alloc: Global,
    image: &Image,
    graph: &Graph,
    owners: &[u32],
    workers: u32,
) -> Result<Vec<Slot>, NoMemory>
    ensures { IfOk result (λ slots. AreFirst (program image.now) graph.now owners.now workers slots.items) }
{
    let mut slots = Vec::new(alloc);
    for worker in 0..workers {
        slots.push(first_slot(alloc, image, graph, owners, worker)?)?;
    }
    Ok(slots)
}

/// The workers before the first superstep, so many of them, with the nodes of a graph dealt out among them.
pub fn slots(
    alloc: Global,
    image: &Sound,
    graph: &Graph,
    owner: Owner,
    workers: u32,
) -> Result<Crew, NoMemory>
    requires some_worker { 1 ≤ workers }
    requires few_workers { workers ≤ 64 }
    ensures owners { IfOk result (λ c. c.dealing.owners.items ≡ owners_by owner workers (node_count graph.now)) }
    ensures crew { IfOk result (λ c. IsCrew (node_count graph.now) workers c.dealing c.slots.items) }
    ensures shows { IfOk result (λ c. (args : List Value) (turns : ℕ) → Shows (node_count graph.now) c.dealing.owners.items c.slots.items
        (start (program image.now) graph.now c.dealing.owners.items workers args turns)) }
    ensures stands { IfOk result (λ c. StandFor (node_count graph.now) c.dealing.owners.items c.slots.items (start_nodes (program image.now) graph.now)) }
{
    let dealing = deal(alloc, owner, workers, graph.node_count())?;
    let slots = first_slots(
        alloc,
        image.image(),
        graph,
        dealing.owners.as_slice(),
        workers,
    )?;
    Ok(Crew { dealing, slots })
}
