//! Whole runs on one thread.

ghost use Rattle.std.specs.Prelude.{◌≡◌, ◌≤◌, ℕ, IfOk, OnOk, OnErr, map};
ghost use Rattle.gm_image.specs.Views.{program};
ghost use Rattle.gm_machine.specs.Asking.{IsServed};
ghost use Rattle.gm_machine.specs.Machine.{machine};
ghost use Rattle.gm_machine.specs.Masters.{FitsGraph};
ghost use Rattle.gm_machine.specs.Notes.{noted};
ghost use Rattle.gm_machine.specs.States.{most_supersteps};
ghost use Rattle.gm_machine.specs.Steps.{KeepsFields};
ghost use Rattle.gm_observe.specs.Audience.{IsToldInPart, told_to_all};

use crate::asking::rows_for;
use crate::ends::{Stop, end_of};
use crate::masters::{Master, MasterStop, master_run};
use crate::starts::start;
use crate::tellings::step_and_tell;
use gm_base::NoMemory;
use gm_graph::{Graph, InRows};
use gm_image::{Image, Sound};
use gm_model::RunEnd;
use gm_observe::Observer;
use gm_value::Value;
use std::alloc::Global;

// The whole run of an image whose handlers set no field. Observers are told of each superstep before the next begins.
fn run(
    alloc: Global,
    image: &Image,
    graph: &Graph,
    in_rows: &Option<InRows>,
    args: &[Value],
    turns: u64,
    observers: &mut [Box<dyn Observer>],
) -> Result<RunEnd, NoMemory>
    requires columns { FitsGraph image.now graph.now }
    requires served { IsServed (program image.now) graph.now in_rows.now }
    requires keeps { (block : ℕ) → KeepsFields (program image.now) block }
    ensures end { IfOk result (λ end. end ≡ machine (program image.now) graph.now args.now turns) }
    ensures told { OnOk result (map (λ o. seen o) observers.new ≡ told_to_all (noted (program image.now) graph.now args.now turns) (map (λ o. seen o) observers.old)) }
    ensures part { OnErr result (IsToldInPart (noted (program image.now) graph.now args.now turns) (map (λ o. seen o) observers.old) (map (λ o. seen o) observers.new)) }
    ensures same_ways { map (λ o. says_of o) observers.new ≡ map (λ o. says_of o) observers.old }
{
    let mut master = Master::start(alloc, image, args, turns)?;
    let mut nodes = start(alloc, image, graph)?;
    'steps: loop {
        match master_run(image, graph, in_rows, &mut master) {
            MasterStop::Step(block) => {
                let globals = &mut master.globals;
                let fault = step_and_tell(
                    alloc, image, graph, in_rows, block, globals, &mut nodes, observers,
                )?;
                if let Some(fault) = fault {
                    let end = end_of(alloc, image, Stop::Faulted(fault), &master, &nodes)?;
                    return Ok(end);
                }
            }
            MasterStop::Ended => {
                let end = end_of(alloc, image, Stop::Ended, &master, &nodes)?;
                return Ok(end);
            }
            MasterStop::Faulted(fault) => {
                let end = end_of(alloc, image, Stop::Faulted(fault), &master, &nodes)?;
                return Ok(end);
            }
            MasterStop::Cut => {
                let end = end_of(alloc, image, Stop::Cut, &master, &nodes)?;
                return Ok(end);
            }
        }
    }
}

/// Runs an image over a graph on one thread: its outcome, and how many supersteps it took and how many messages were
/// sent. The arguments are those of the scalar inputs, in order, and the graph has the edge columns that the image
/// declares. Where as many turns as were given are taken and one more would begin, the run is cut. There are at most as
/// many supersteps as the turns and one times the `step` lines of the master list.
pub fn run_one(
    alloc: Global,
    image: &Sound,
    graph: &Graph,
    args: &[Value],
    turns: u64,
) -> Result<RunEnd, NoMemory>
    requires { FitsGraph image.now graph.now }
    ensures end { IfOk result (λ end. end ≡ machine (program image.now) graph.now args.now turns) }
    ensures bounded { IfOk result (λ end. end.supersteps ≤ most_supersteps (program image.now) turns) }
{
    let mut nobody: Vec<Box<dyn Observer>> = Vec::new(alloc);
    let plain = image.image();
    let in_rows = rows_for(alloc, plain, graph)?;
    let end = run(alloc, plain, graph, &in_rows, args, turns, &mut nobody)?;
    Ok(end)
}

/// The same run, which observers watch: each of them is told of each superstep as soon as all nodes are done with it, in
/// the order of the supersteps, also of one that ends in a fault. Where there is not enough memory they were told of the
/// first supersteps, and some of them may have been told of one more.
pub fn run_watched(
    alloc: Global,
    image: &Sound,
    graph: &Graph,
    args: &[Value],
    turns: u64,
    observers: &mut [Box<dyn Observer>],
) -> Result<RunEnd, NoMemory>
    requires { FitsGraph image.now graph.now }
    ensures end { IfOk result (λ end. end ≡ machine (program image.now) graph.now args.now turns) }
    ensures bounded { IfOk result (λ end. end.supersteps ≤ most_supersteps (program image.now) turns) }
    ensures told { OnOk result (map (λ o. seen o) observers.new ≡ told_to_all (noted (program image.now) graph.now args.now turns) (map (λ o. seen o) observers.old)) }
    ensures part { OnErr result (IsToldInPart (noted (program image.now) graph.now args.now turns) (map (λ o. seen o) observers.old) (map (λ o. seen o) observers.new)) }
    ensures same_ways { map (λ o. says_of o) observers.new ≡ map (λ o. says_of o) observers.old }
{
    let plain = image.image();
    let in_rows = rows_for(alloc, plain, graph)?;
    let end = run(alloc, plain, graph, &in_rows, args, turns, observers)?;
    Ok(end)
}
