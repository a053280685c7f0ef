// What a superstep delivers.

ghost use Rattle.std.specs.Prelude.{◌≡◌, []};

use crate::samples::{TOTAL, chance, graph_of, sound_of};
use gm_base::OpenGate;
use gm_core::Event;
use gm_graph::Graph;
use gm_image::Sound;
use gm_machine::rows_for;
use gm_partition::Owner;
use gm_workers::{StepEnd, slots, superstep};
use std::alloc::Global;
use std::sync::Wait;
use std::test::Fail;
use std::thread::Threads;

// The first superstep of two workers.
fn first_step<R: Threads + Wait + Sync>(
    rt: &R,
    alloc: Global,
    image: &Sound,
    graph: &Graph,
) -> Result<StepEnd, Fail>
    requires no_columns { image.now.columns ≡ [] }
    requires none { graph.now.edge_columns ≡ [] }
{
    let mut crew = slots(alloc, image, graph, Owner::Mod, 2)?;
    let mut globals = Vec::new(alloc);
    let in_rows = rows_for(alloc, image.image(), graph)?;
    let end = superstep(
        rt,
        alloc,
        image,
        graph,
        &in_rows,
        &mut crew,
        &mut globals,
        0,
        1,
        &OpenGate,
    )?;
    Ok(end)
}

// The first superstep of the totals on a graph by chance, in which a message goes along each edge.
fn first_step_of_totals<R: Threads + Wait + Sync>(rt: &R, alloc: Global) -> Result<StepEnd, Fail> {
    let lines = chance(alloc, 700, 9_000)?;
    let image = sound_of(alloc, TOTAL.as_bytes())?;
    let graph = graph_of(alloc, lines.as_bytes())?;
    first_step(rt, alloc, &image, &graph)
}

// How many messages are delivered; none where a delivery is empty or has more than 1,024.
fn moved(events: &[Event]) -> u64 {
    let mut sum: u64 = 0;
    for event in events {
        if let Event::Deliver { count, .. } = event {
            if *count == 0 || *count > 1024 {
                return 0;
            }
            sum = sum.saturating_add(*count);
        }
    }
    sum
}

// Two workers send each other some 2,250 messages each way, and as many to themselves: at least three batches each.
#[test]
fn deliveries_are_batches(rt: HostRuntime) -> Result<(), Fail> {
    let end = first_step_of_totals(&rt, rt.alloc())?;
    assert_eq!(rt; end.messages, 9_000);
    assert_eq!(rt; moved(end.delivered.as_slice()), 9_000);
    assert!(rt; end.delivered.len() >= 12);
    Ok(())
}
