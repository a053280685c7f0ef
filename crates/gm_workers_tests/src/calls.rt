//! Runs of programs, of which callers learn no more than they need: a caller that passes a number for the turns, or a list
//! of arguments, would have the law of the run at that number and that list.

ghost use Rattle.std.specs.Prelude.{◌≡◌, ◌≤◌, []};

use gm_base::{Gate, NoMemory};
use gm_graph::Graph;
use gm_image::Sound;
use gm_machine::run_one;
use gm_model::RunEnd;
use gm_observe::Observer;
use gm_partition::Owner;
use gm_value::Value;
use gm_workers::run;
use std::alloc::Global;
use std::sync::Wait;
use std::thread::Threads;

/// The run on one thread.
pub(crate) fn run_alone(
    alloc: Global,
    image: &Sound,
    graph: &Graph,
    args: &[Value],
    turns: u64,
) -> Result<RunEnd, NoMemory>
    requires no_columns { image.now.columns ≡ [] }
    requires none { graph.now.edge_columns ≡ [] }
{
    run_one(alloc, image, graph, args, turns)
}

/// A run by workers.
pub(crate) fn run_by<G: Gate, R: Threads + Wait + Sync>(
    rt: &R,
    alloc: Global,
    image: &Sound,
    graph: &Graph,
    args: &[Value],
    owner: Owner,
    workers: u32,
    turns: u64,
    gate: &G,
    observers: &mut [Box<dyn Observer>],
) -> Result<RunEnd, NoMemory>
    requires no_columns { image.now.columns ≡ [] }
    requires none { graph.now.edge_columns ≡ [] }
    requires some { 1 ≤ workers }
    requires few { workers ≤ 64 }
{
    run(
        rt, alloc, image, graph, args, owner, workers, turns, gate, observers,
    )
}
