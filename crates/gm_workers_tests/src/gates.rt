// Gates at which workers wait, and are counted.

ghost use Rattle.std.specs.Prelude.{◌≡◌, []};

use crate::calls::run_by;
use crate::ends::written;
use crate::runs::{TURNS, end_alone};
use crate::samples::{TOTAL, chance, graph_of, sound_of};
use gm_base::Gate;
use gm_graph::Graph;
use gm_image::Sound;
use gm_model::RunEnd;
use gm_observe::Observer;
use gm_partition::Owner;
use std::alloc::Global;
use std::sync::Wait;
use std::sync::atomic::{AtomicU64, Ordering};
use std::test::Fail;
use std::thread;
use std::thread::Threads;

// Worker 0 waits in the first superstep until worker 1 has entered. All entries are counted.
#[derive(Drop)]
struct Meeting<'a, R: Wait> {
    rt: &'a R,
    come: AtomicU64,
    waited: AtomicU64,
    entered: AtomicU64,
}

impl<'a, R: Wait + Sync> Gate for Meeting<'a, R> {
    fn enter(&self, worker: u32, step: u64) {
        self.entered.fetch_add(1, Ordering::SeqCst);
        if worker == 1 {
            self.come.store(step, Ordering::SeqCst);
        }
        if worker != 0 || step != 1 {
            return;
        }
        for _ in self.rt.forever() {
            if self.come.load(Ordering::SeqCst) != 0 {
                self.waited.store(1, Ordering::SeqCst);
                return;
            }
            thread::yield_now();
        }
        unreachable!()
    }
}

// A run by two workers behind a gate.
fn run_behind<G: Gate, R: Threads + Wait + Sync>(
    rt: &R,
    alloc: Global,
    image: &Sound,
    graph: &Graph,
    gate: &G,
) -> Result<RunEnd, Fail>
    requires no_columns { image.now.columns ≡ [] }
    requires none { graph.now.edge_columns ≡ [] }
{
    let mut nobody: Vec<Box<dyn Observer>> = Vec::new(alloc);
    let end = run_by(
        rt,
        alloc,
        image,
        graph,
        &[],
        Owner::Mod,
        2,
        TURNS,
        gate,
        &mut nobody,
    )?;
    Ok(end)
}

// How many supersteps a run behind a gate took, where it ends as the run on one thread; 0 where it does not.
fn steps_behind<G: Gate, R: Threads + Wait + Sync>(
    rt: &R,
    alloc: Global,
    image: &Sound,
    graph: &Graph,
    gate: &G,
) -> Result<u64, Fail>
    requires no_columns { image.now.columns ≡ [] }
    requires none { graph.now.edge_columns ≡ [] }
{
    let alone = end_alone(alloc, image, graph)?;
    let end = run_behind(rt, alloc, image, graph, gate)?;
    let text = written(alloc, &end)?;
    if text.as_str() == alone.as_str() {
        Ok(end.supersteps)
    } else {
        Ok(0)
    }
}

// The same of the totals on a graph by chance.
fn steps_of_totals<G: Gate, R: Threads + Wait + Sync>(
    rt: &R,
    alloc: Global,
    gate: &G,
) -> Result<u64, Fail> {
    let lines = chance(alloc, 700, 9_000)?;
    let image = sound_of(alloc, TOTAL.as_bytes())?;
    let graph = graph_of(alloc, lines.as_bytes())?;
    steps_behind(rt, alloc, &image, &graph, gate)
}

#[test]
fn workers_meet_at_the_gate(rt: HostRuntime) -> Result<(), Fail> {
    let gate = Meeting {
        rt: &rt,
        come: AtomicU64::new(0),
        waited: AtomicU64::new(0),
        entered: AtomicU64::new(0),
    };
    let steps = steps_of_totals(&rt, rt.alloc(), &gate)?;
    assert_eq!(rt; steps, 2);
    assert_eq!(rt; gate.waited.load(Ordering::SeqCst), 1);
    assert_eq!(rt; gate.entered.load(Ordering::SeqCst), 4);
    Ok(())
}
