// Runs by workers and by one thread.

ghost use Rattle.std.specs.Prelude.{◌≡◌, ◌≤◌, []};

use crate::calls::{run_alone, run_by};
use crate::ends::written;
use crate::samples::{GROWTH, HOPS, LOOPS, NEAREST, TOTAL, TRIANGLE, chance, graph_of, sound_of};
use gm_base::OpenGate;
use gm_graph::Graph;
use gm_image::Sound;
use gm_model::RunEnd;
use gm_observe::{Counter, Observer, report_all};
use gm_partition::Owner;
use std::alloc::Global;
use std::sync::Wait;
use std::test::Fail;
use std::thread::Threads;

/// More turns than any of the runs takes.
pub(crate) const TURNS: u64 = 1000;

/// The end of the run on one thread, written out.
pub(crate) fn end_alone(alloc: Global, image: &Sound, graph: &Graph) -> Result<String, Fail>
    requires no_columns { image.now.columns ≡ [] }
    requires none { graph.now.edge_columns ≡ [] }
{
    let end = run_alone(alloc, image, graph, &[], TURNS)?;
    Ok(written(alloc, &end)?)
}

/// The end of a run by workers.
pub(crate) fn end_by<R: Threads + Wait + Sync>(
    rt: &R,
    alloc: Global,
    image: &Sound,
    graph: &Graph,
    owner: Owner,
    workers: u32,
) -> Result<RunEnd, Fail>
    requires no_columns { image.now.columns ≡ [] }
    requires none { graph.now.edge_columns ≡ [] }
    requires some { 1 ≤ workers }
    requires few { workers ≤ 64 }
{
    let mut nobody: Vec<Box<dyn Observer>> = Vec::new(alloc);
    let end = run_by(
        rt,
        alloc,
        image,
        graph,
        &[],
        owner,
        workers,
        TURNS,
        &OpenGate,
        &mut nobody,
    )?;
    Ok(end)
}

// The end of a run by workers, written out.
fn end_of<R: Threads + Wait + Sync>(
    rt: &R,
    alloc: Global,
    image: &Sound,
    graph: &Graph,
    owner: Owner,
    workers: u32,
) -> Result<String, Fail>
    requires no_columns { image.now.columns ≡ [] }
    requires none { graph.now.edge_columns ≡ [] }
    requires some { 1 ≤ workers }
    requires few { workers ≤ 64 }
{
    let end = end_by(rt, alloc, image, graph, owner, workers)?;
    Ok(written(alloc, &end)?)
}

// Whether so many workers give what one thread gives, whoever owns which node.
fn each_gives<R: Threads + Wait + Sync>(
    rt: &R,
    alloc: Global,
    image: &Sound,
    graph: &Graph,
    workers: u32,
    expected: &str,
) -> Result<bool, Fail>
    requires no_columns { image.now.columns ≡ [] }
    requires none { graph.now.edge_columns ≡ [] }
    requires some { 1 ≤ workers }
    requires few { workers ≤ 64 }
{
    let by_mod = end_of(rt, alloc, image, graph, Owner::Mod, workers)?;
    let by_block = end_of(rt, alloc, image, graph, Owner::Block, workers)?;
    let by_spread = end_of(rt, alloc, image, graph, Owner::Spread(9), workers)?;
    Ok(
        by_mod.as_str() == expected
            && by_block.as_str() == expected
            && by_spread.as_str() == expected,
    )
}

// Whether 1, 2 and 7 workers give what one thread gives.
fn all_give<R: Threads + Wait + Sync>(
    rt: &R,
    alloc: Global,
    image: &Sound,
    graph: &Graph,
) -> Result<bool, Fail>
    requires no_columns { image.now.columns ≡ [] }
    requires none { graph.now.edge_columns ≡ [] }
{
    let alone = end_alone(alloc, image, graph)?;
    let one = each_gives(rt, alloc, image, graph, 1, alone.as_str())?;
    let two = each_gives(rt, alloc, image, graph, 2, alone.as_str())?;
    let seven = each_gives(rt, alloc, image, graph, 7, alone.as_str())?;
    Ok(one && two && seven)
}

// The same of a program on a graph.
fn program_gives<R: Threads + Wait + Sync>(
    rt: &R,
    alloc: Global,
    program: &str,
    lines: &str,
) -> Result<bool, Fail> {
    let image = sound_of(alloc, program.as_bytes())?;
    let graph = graph_of(alloc, lines.as_bytes())?;
    all_give(rt, alloc, &image, &graph)
}

// The same of a program on a graph by chance, with so many nodes and edges.
fn chance_gives<R: Threads + Wait + Sync>(
    rt: &R,
    alloc: Global,
    program: &str,
    nodes: u64,
    edges: u64,
) -> Result<bool, Fail>
    requires { 1 ≤ nodes }
{
    let lines = chance(alloc, nodes, edges)?;
    program_gives(rt, alloc, program, lines.as_str())
}

#[test]
fn totals(rt: HostRuntime) -> Result<(), Fail> {
    assert!(rt; program_gives(&rt, rt.alloc(), TOTAL, TRIANGLE)?);
    assert!(rt; chance_gives(&rt, rt.alloc(), TOTAL, 700, 9_000)?);
    Ok(())
}

#[test]
fn nearest(rt: HostRuntime) -> Result<(), Fail> {
    assert!(rt; program_gives(&rt, rt.alloc(), NEAREST, TRIANGLE)?);
    assert!(rt; chance_gives(&rt, rt.alloc(), NEAREST, 700, 9_000)?);
    Ok(())
}

// On the graph with loops a sum leaves its range, and the run ends in a fault.
#[test]
fn growth(rt: HostRuntime) -> Result<(), Fail> {
    assert!(rt; program_gives(&rt, rt.alloc(), GROWTH, TRIANGLE)?);
    assert!(rt; program_gives(&rt, rt.alloc(), GROWTH, LOOPS)?);
    assert!(rt; chance_gives(&rt, rt.alloc(), GROWTH, 50, 60)?);
    Ok(())
}

#[test]
fn hops(rt: HostRuntime) -> Result<(), Fail> {
    assert!(rt; program_gives(&rt, rt.alloc(), HOPS, TRIANGLE)?);
    assert!(rt; chance_gives(&rt, rt.alloc(), HOPS, 700, 900)?);
    Ok(())
}

// What an observer reports of a run by three workers.
fn report_of<R: Threads + Wait + Sync>(
    rt: &R,
    alloc: Global,
    image: &Sound,
    graph: &Graph,
) -> Result<Vec<u8>, Fail>
    requires no_columns { image.now.columns ≡ [] }
    requires none { graph.now.edge_columns ≡ [] }
{
    let mut observers: Vec<Box<dyn Observer>> = Vec::new(alloc);
    let counter: Box<dyn Observer> = Box::new(alloc, Counter::new(alloc))?;
    observers.push(counter)?;
    let _end = run_by(
        rt,
        alloc,
        image,
        graph,
        &[],
        Owner::Mod,
        3,
        TURNS,
        &OpenGate,
        &mut observers,
    )?;
    let mut out = Vec::new(alloc);
    report_all(&observers, &mut out)?;
    Ok(out)
}

// What an observer reports of the run of the totals.
fn report_of_totals<R: Threads + Wait + Sync>(rt: &R, alloc: Global) -> Result<Vec<u8>, Fail> {
    let image = sound_of(alloc, TOTAL.as_bytes())?;
    let graph = graph_of(alloc, TRIANGLE.as_bytes())?;
    report_of(rt, alloc, &image, &graph)
}

// Two supersteps; in the first there is a message along each edge.
#[test]
fn observers_are_told(rt: HostRuntime) -> Result<(), Fail> {
    let report = report_of_totals(&rt, rt.alloc())?;
    assert_eq!(rt;
        report.as_slice(),
        b"observed 2 supersteps 4 messages\n".as_slice()
    );
    Ok(())
}
