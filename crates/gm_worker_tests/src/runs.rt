//! Runs of programs, of which callers learn no more than they need: a caller that passes a number for the turns, or a list
//! of arguments, would have the law of the run at that number and that list.

ghost use Rattle.std.specs.Prelude.{◌≡◌, ◌≤◌, [], IfOk, length};
ghost use Rattle.gm_model.specs.Graphs.{node_count};

use gm_base::NoMemory;
use gm_core::{CoreState, CoreStop, Event, run_events};
use gm_graph::Graph;
use gm_image::Sound;
use gm_machine::run_one;
use gm_model::RunEnd;
use gm_partition::Owner;
use gm_value::Value;
use std::alloc::Global;

/// The run on one thread.
pub(crate) fn run_alone(
    alloc: Global,
    image: &Sound,
    graph: &Graph,
    args: &[Value],
    turns: u64,
) -> Result<RunEnd, NoMemory>
    requires no_columns { image.now.columns ≡ [] }
    requires none { graph.now.edge_columns ≡ [] }
{
    run_one(alloc, image, graph, args, turns)
}

/// A run of events.
pub(crate) fn run(
    alloc: Global,
    image: &Sound,
    graph: &Graph,
    args: &[Value],
    turns: u64,
    owner: Owner,
    workers: u32,
    events: &[Event],
) -> Result<CoreState, CoreStop>
    requires no_columns { image.now.columns ≡ [] }
    requires none { graph.now.edge_columns ≡ [] }
    requires some { 1 ≤ workers }
    requires few { workers ≤ 64 }
    ensures { IfOk result (λ state. length state.fields ≡ node_count graph.now) }
{
    run_events(alloc, image, graph, args, turns, owner, workers, events)
}
