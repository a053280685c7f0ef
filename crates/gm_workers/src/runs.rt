//! Whole runs by workers.

ghost use Rattle.std.specs.Prelude.{◌≡◌, ◌≤◌, ◌<◌, ◌∷◌, ℕ, [], IfOk, OnOk, OnErr, length, map};
ghost use Rattle.gm_model.specs.Graphs.{node_count};
ghost use Rattle.gm_image.specs.Views.{program};
ghost use Rattle.gm_machine.specs.Machine.{Nodes, machine, ends, superstep as superstep_of};
ghost use Rattle.gm_machine.specs.Asking.{IsServed};
ghost use Rattle.gm_machine.specs.Masters.{FitsGraph, control_of};
ghost use Rattle.gm_machine.specs.Notes.{note_of, noted};
ghost use Rattle.gm_machine.specs.States.{most_supersteps};
ghost use Rattle.gm_observe.specs.Audience.{IsToldInPart, told_to_all};
ghost use Rattle.gm_core.specs.Cores.{below};
ghost use Rattle.gm_workers.specs.Crews.{HasSlot, IsCrew, fields_at as fields_of_node};
ghost use Rattle.gm_workers.specs.Runs.{IsAt, ComesTo, IsOver, ended_by};

use crate::crews::{Crew, slots};
use crate::dealing::place_at;
use crate::supersteps::{StepEnd, sum, superstep};
use gm_base::{Gate, NoMemory};
use gm_core::owner_in;
use gm_graph::{Graph, InRows};
use gm_image::Sound;
use gm_machine::{Master, MasterStop, end_of_lists, master_run, rows_for};
use gm_model::RunEnd;
use gm_observe::{Note, Observer, tell_all};
use gm_partition::Owner;
use gm_value::Value;
use std::alloc::Global;
use std::sync::Wait;
use std::thread::Threads;

// How far a run has come.
#[derive(Drop)]
struct Progress {
    crew: Crew,
    supersteps: u64,
    messages: u64,
}

// The fields of a node.
fn fields_at(alloc: Global, crew: &Crew, node: u32) -> Result<Vec<Value>, NoMemory>
    requires { HasSlot crew.now.dealing crew.now.slots.items node }
    ensures { IfOk result (λ fields. fields.items ≡ fields_of_node crew.now.dealing.owners.items crew.now.slots.items node) }
{
    let worker = owner_in(&crew.dealing.owners, node);
    let place = place_at(&crew.dealing, worker, node);
    let mut fields = Vec::new(alloc);
    let slot = &crew.slots[worker as usize];
    slot.fields.load(place as usize, &mut fields)?;
    Ok(fields)
}

// The fields of all nodes, by node.
fn all_fields(alloc: Global, crew: &Crew, nodes: u32) -> Result<Vec<Vec<Value>>, NoMemory>
    requires { IsCrew nodes (length crew.now.slots.items) crew.now.dealing crew.now.slots.items }
    ensures { IfOk result (λ fields. map (λ row. row.items) fields.items ≡ map (fields_of_node crew.now.dealing.owners.items crew.now.slots.items) (below nodes)) }
{
    let mut fields = Vec::new(alloc);
    for node in 0..nodes {
        let one = fields_at(alloc, crew, node)?;
        fields.push(one)?;
    }
    Ok(fields)
}

// How the run ends whose master list stopped for good.
fn end_of(
    alloc: Global,
    image: &Sound,
    graph: &Graph,
    stop: MasterStop,
    master: &Master,
    progress: &Progress,
) -> Result<RunEnd, NoMemory>
    requires crew { IsCrew (node_count graph.now) (length progress.now.crew.slots.items) progress.now.crew.dealing progress.now.crew.slots.items }
    requires over { IsOver stop }
    ensures { IfOk result (λ end. (d : Nodes) → IsAt (node_count graph.now) progress.now d → end ≡ ends (program image.now) (ended_by stop (control_of master.now)) d) }
{
    let fields = all_fields(alloc, &progress.crew, graph.node_count())?;
    let end = end_of_lists(
        alloc,
        image.image(),
        stop,
        master,
        fields.as_slice(),
        progress.supersteps,
        progress.messages,
    )?;
    match end {
        Some(end) => Ok(end),
        None => unreachable!(),
    }
}

// One superstep of a run.
fn step<G: Gate, R: Threads + Wait + Sync>(
    rt: &R,
    alloc: Global,
    image: &Sound,
    graph: &Graph,
    in_rows: &Option<InRows>,
    block: u32,
    globals: &mut Vec<Value>,
    progress: &mut Progress,
    gate: &G,
) -> Result<StepEnd, NoMemory>
    requires columns { FitsGraph image.now graph.now }
    requires served { IsServed (program image.now) graph.now in_rows.now }
    requires crew { IsCrew (node_count graph.now) (length progress.old.crew.slots.items) progress.old.crew.dealing progress.old.crew.slots.items }
    ensures crew { OnOk result (IsCrew (node_count graph.now) (length progress.new.crew.slots.items) progress.new.crew.dealing progress.new.crew.slots.items) }
    ensures step { IfOk result (λ end. (d : Nodes) → IsAt (node_count graph.now) progress.old d →
        ComesTo (node_count graph.now) progress.new globals.new.items end.messages end.fault (superstep_of (program image.now) graph.now block globals.old.items d)) }
{
    let number = sum(progress.supersteps, 1)?;
    let crew = &mut progress.crew;
    let end = superstep(
        rt, alloc, image, graph, in_rows, crew, globals, block, number, gate,
    )?;
    let messages = sum(progress.messages, end.messages)?;
    progress.supersteps = number;
    progress.messages = messages;
    Ok(end)
}

// One superstep of a run. All observers are told of it as soon as all workers are done, also where it faults.
fn step_and_tell<G: Gate, R: Threads + Wait + Sync>(
    rt: &R,
    alloc: Global,
    image: &Sound,
    graph: &Graph,
    in_rows: &Option<InRows>,
    block: u32,
    globals: &mut Vec<Value>,
    progress: &mut Progress,
    gate: &G,
    observers: &mut [Box<dyn Observer>],
) -> Result<StepEnd, NoMemory>
    requires columns { FitsGraph image.now graph.now }
    requires served { IsServed (program image.now) graph.now in_rows.now }
    requires crew { IsCrew (node_count graph.now) (length progress.old.crew.slots.items) progress.old.crew.dealing progress.old.crew.slots.items }
    ensures crew { OnOk result (IsCrew (node_count graph.now) (length progress.new.crew.slots.items) progress.new.crew.dealing progress.new.crew.slots.items) }
    ensures step { IfOk result (λ end. (d : Nodes) → IsAt (node_count graph.now) progress.old d →
        ComesTo (node_count graph.now) progress.new globals.new.items end.messages end.fault (superstep_of (program image.now) graph.now block globals.old.items d)) }

    // After the superstep all observers hold its note; without memory some may.
    ensures told { OnOk result ((d : Nodes) → IsAt (node_count graph.now) progress.old d →
        map (λ o. seen o) observers.new ≡ told_to_all (note_of graph.now block (superstep_of (program image.now) graph.now block globals.old.items d).nodes ∷ []) (map (λ o. seen o) observers.old)) }
    ensures part { OnErr result ((d : Nodes) → IsAt (node_count graph.now) progress.old d →
        IsToldInPart (note_of graph.now block (superstep_of (program image.now) graph.now block globals.old.items d).nodes ∷ []) (map (λ o. seen o) observers.old) (map (λ o. seen o) observers.new)) }
    ensures same_ways { map (λ o. says_of o) observers.new ≡ map (λ o. says_of o) observers.old }
{
    let end = step(
        rt, alloc, image, graph, in_rows, block, globals, progress, gate,
    )?;
    let note = Note {
        step: progress.supersteps,
        block,
        vertices: graph.node_count(),
        messages: end.messages,
    };
    tell_all(observers, note)?;
    Ok(end)
}

// The whole run. Observers are told of each superstep before the next begins.
fn run_to_end<G: Gate, R: Threads + Wait + Sync>(
    rt: &R,
    alloc: Global,
    image: &Sound,
    graph: &Graph,
    in_rows: &Option<InRows>,
    args: &[Value],
    owner: Owner,
    workers: u32,
    turns: u64,
    gate: &G,
    observers: &mut [Box<dyn Observer>],
) -> Result<RunEnd, NoMemory>
    requires columns { FitsGraph image.now graph.now }
    requires served { IsServed (program image.now) graph.now in_rows.now }
    requires some_worker { 1 ≤ workers }
    requires few_workers { workers ≤ 64 }
    ensures end { IfOk result (λ end. end ≡ machine (program image.now) graph.now args.now turns) }
    ensures told { OnOk result (map (λ o. seen o) observers.new ≡ told_to_all (noted (program image.now) graph.now args.now turns) (map (λ o. seen o) observers.old)) }
    ensures part { OnErr result (IsToldInPart (noted (program image.now) graph.now args.now turns) (map (λ o. seen o) observers.old) (map (λ o. seen o) observers.new)) }
    ensures same_ways { map (λ o. says_of o) observers.new ≡ map (λ o. says_of o) observers.old }
{
    let plain = image.image();
    let mut master = Master::start(alloc, plain, args, turns)?;
    let crew = slots(alloc, image, graph, owner, workers)?;
    let mut progress = Progress {
        crew,
        supersteps: 0,
        messages: 0,
    };
    'steps: loop {
        match master_run(plain, graph, in_rows, &mut master) {
            MasterStop::Step(block) => {
                let globals = &mut master.globals;
                let done = step_and_tell(
                    rt,
                    alloc,
                    image,
                    graph,
                    in_rows,
                    block,
                    globals,
                    &mut progress,
                    gate,
                    observers,
                )?;
                if let Some(fault) = done.fault {
                    let stop = MasterStop::Faulted(fault);
                    let end = end_of(alloc, image, graph, stop, &master, &progress)?;
                    return Ok(end);
                }
            }
            MasterStop::Ended => {
                let stop = MasterStop::Ended;
                let end = end_of(alloc, image, graph, stop, &master, &progress)?;
                return Ok(end);
            }
            MasterStop::Faulted(fault) => {
                let stop = MasterStop::Faulted(fault);
                let end = end_of(alloc, image, graph, stop, &master, &progress)?;
                return Ok(end);
            }
            MasterStop::Cut => {
                let stop = MasterStop::Cut;
                let end = end_of(alloc, image, graph, stop, &master, &progress)?;
                return Ok(end);
            }
        }
    }
}

/// A whole run by so many workers, among whom the nodes are dealt out: it ends exactly as the run on one thread does,
/// with the same outcome and the same counts of supersteps and messages, whoever owns which node, however many workers
/// there are, and whenever their batches come. The arguments are those of the scalar inputs, in order, and the graph has
/// the edge columns that the image declares.
///
/// Each worker enters the gate once in each superstep. Each observer is told of each superstep as soon as all workers are
/// done with it, in the order of the supersteps, also of one that ends in a fault. Where there is not enough memory they
/// were told of the first supersteps, and some of them may have been told of one more.
pub fn run<G: Gate, R: Threads + Wait + Sync>(
    rt: &R,
    alloc: Global,
    image: &Sound,
    graph: &Graph,
    args: &[Value],
    owner: Owner,
    workers: u32,
    turns: u64,
    gate: &G,
    observers: &mut [Box<dyn Observer>],
) -> Result<RunEnd, NoMemory>
    requires columns { FitsGraph image.now graph.now }
    requires some_worker { 1 ≤ workers }
    requires few_workers { workers ≤ 64 }
    ensures end { IfOk result (λ end. end ≡ machine (program image.now) graph.now args.now turns) }
    ensures bounded { IfOk result (λ end. end.supersteps ≤ most_supersteps (program image.now) turns) }
    ensures told { OnOk result (map (λ o. seen o) observers.new ≡ told_to_all (noted (program image.now) graph.now args.now turns) (map (λ o. seen o) observers.old)) }
    ensures part { OnErr result (IsToldInPart (noted (program image.now) graph.now args.now turns) (map (λ o. seen o) observers.old) (map (λ o. seen o) observers.new)) }
    ensures same_ways { map (λ o. says_of o) observers.new ≡ map (λ o. says_of o) observers.old }
{
    let in_rows = rows_for(alloc, image.image(), graph)?;
    let end = run_to_end(
        rt, alloc, image, graph, &in_rows, args, owner, workers, turns, gate, observers,
    )?;
    Ok(end)
}
