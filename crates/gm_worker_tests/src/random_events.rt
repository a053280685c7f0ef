//! Lists of legal events that a generator draws come to the end of the run on one thread.

ghost use Rattle.std.specs.Prelude.{◌≡◌, ◌≤◌, []};

use crate::ends::{end_of, written};
use crate::runs::{run, run_alone};
use crate::samples::{GROWTH, LOOPS, NEAREST, STAR, TOTAL, TRIANGLE, graph_of, sound_of};
use gm_core::{CoreState, CoreStop, Event};
use gm_graph::Graph;
use gm_image::Sound;
use gm_partition::Owner;
use std::alloc::Global;
use std::process::Abort;
use std::test::Fail;

// How many turns a run has.
const TURNS: u64 = 3;

// How many events are drawn at most. Many of them are not legal.
const DRAWS: usize = 2000;

// A linear congruential generator.
#[derive(Drop)]
struct Draws {
    state: u64,
}

impl Draws {
    // A number below a bound, 0 where that is 0.
    fn below(&mut self, bound: u32) -> u32 {
        self.state = self
            .state
            .wrapping_mul(6364136223846793005)
            .wrapping_add(1442695040888963407);
        if bound == 0 {
            0
        } else {
            ((self.state >> 33) % bound as u64) as u32
        }
    }

    // An event of so many workers and nodes.
    fn event(&mut self, workers: u32, nodes: u32) -> Event {
        let form = self.below(4);
        let worker = self.below(workers);
        let to = self.below(workers);
        let node = self.below(nodes);
        let more = self.below(2);
        event_of(form, worker, to, node, more)
    }
}

// The event of a form, with one message or two.
fn event_of(form: u32, worker: u32, to: u32, node: u32, more: u32) -> Event {
    match form {
        0 => Event::Compute { worker, node },
        1 => Event::Deliver {
            from: worker,
            to,
            count: if more == 0 { 1 } else { 2 },
        },
        2 => Event::Arrive { worker },
        _ => Event::Release,
    }
}

// What a list of events comes to.
enum Answer {
    // The last event is not legal behind those before it.
    NotLegal,
    // The run goes on, or has come to another end.
    Elsewhere,
    // The run has come to the end that is wanted.
    There,
}

// What a stop says of the events.
fn answer_to(stop: &CoreStop) -> Result<Answer, Fail> {
    match stop {
        CoreStop::Illegal { .. } => Ok(Answer::NotLegal),
        CoreStop::NoMemory => Err(Fail::from("no memory")),
    }
}

// Whether a state is the end that is wanted.
fn answer_at(alloc: Global, state: &CoreState, end: &str) -> Result<Answer, Fail> {
    let found = end_of(alloc, state)?;
    if found.as_str() == end {
        Ok(Answer::There)
    } else {
        Ok(Answer::Elsewhere)
    }
}

// What events come to where an end is wanted.
fn answer_of(
    alloc: Global,
    outcome: &Result<CoreState, CoreStop>,
    end: &str,
) -> Result<Answer, Fail> {
    match outcome {
        Ok(state) => answer_at(alloc, state, end),
        Err(stop) => answer_to(stop),
    }
}

// Runs events, and tells what they come to.
fn answer_after(
    alloc: Global,
    image: &Sound,
    graph: &Graph,
    owner: Owner,
    workers: u32,
    events: &[Event],
    end: &str,
) -> Result<Answer, Fail>
    requires no_columns { image.now.columns ≡ [] }
    requires none { graph.now.edge_columns ≡ [] }
    requires some { 1 ≤ workers }
    requires few { workers ≤ 64 }
{
    let outcome = run(alloc, image, graph, &[], TURNS, owner, workers, events);
    answer_of(alloc, &outcome, end)
}

// Takes the last event away where it is not legal, and tells whether the events come to the end.
fn settle(events: &mut Vec<Event>, answer: Answer) -> bool {
    match answer {
        Answer::NotLegal => {
            events.pop();
            false
        }
        Answer::Elsewhere => false,
        Answer::There => true,
    }
}

// Draws one more event, keeps it if it is legal, and tells whether the events come to the end.
fn draw_one(
    alloc: Global,
    image: &Sound,
    graph: &Graph,
    owner: Owner,
    workers: u32,
    draws: &mut Draws,
    events: &mut Vec<Event>,
    end: &str,
) -> Result<bool, Fail>
    requires no_columns { image.now.columns ≡ [] }
    requires none { graph.now.edge_columns ≡ [] }
    requires some { 1 ≤ workers }
    requires few { workers ≤ 64 }
{
    let event = draws.event(workers, graph.node_count());
    events.push(event)?;
    let answer = answer_after(alloc, image, graph, owner, workers, events.as_slice(), end)?;
    Ok(settle(events, answer))
}

// Draws events, keeps those that are legal, and tells whether they come to this end.
fn comes_to(
    alloc: Global,
    image: &Sound,
    graph: &Graph,
    owner: Owner,
    workers: u32,
    end: &str,
) -> Result<bool, Fail>
    requires no_columns { image.now.columns ≡ [] }
    requires none { graph.now.edge_columns ≡ [] }
    requires some { 1 ≤ workers }
    requires few { workers ≤ 64 }
{
    let state = workers as u64;
    let mut draws = Draws { state };
    let mut events = Vec::new(alloc);
    for _ in 0..DRAWS {
        if draw_one(
            alloc,
            image,
            graph,
            owner,
            workers,
            &mut draws,
            &mut events,
            end,
        )? {
            return Ok(true);
        }
    }
    Ok(false)
}

// Whether events of 1 to 4 workers come to an end.
fn each_comes_to(
    alloc: Global,
    image: &Sound,
    graph: &Graph,
    owner: Owner,
    end: &str,
) -> Result<bool, Fail>
    requires no_columns { image.now.columns ≡ [] }
    requires none { graph.now.edge_columns ≡ [] }
{
    for workers in 1..5u32 {
        if !comes_to(alloc, image, graph, owner, workers, end)? {
            return Ok(false);
        }
    }
    Ok(true)
}

// The end of the run on one thread, written out.
fn end_alone(alloc: Global, image: &Sound, graph: &Graph) -> Result<String, Fail>
    requires no_columns { image.now.columns ≡ [] }
    requires none { graph.now.edge_columns ≡ [] }
{
    let alone = run_alone(alloc, image, graph, &[], TURNS)?;
    Ok(written(alloc, &alone)?)
}

// Whether lists of legal events come to the end of the run on one thread.
fn all_come(alloc: Global, image: &Sound, graph: &Graph, owner: Owner) -> Result<bool, Fail>
    requires no_columns { image.now.columns ≡ [] }
    requires none { graph.now.edge_columns ≡ [] }
{
    let end = end_alone(alloc, image, graph)?;
    each_comes_to(alloc, image, graph, owner, end.as_str())
}

// Whether lists of legal events of a program on a graph come to the end of the run on one thread.
fn events_come(alloc: Global, program: &[u8], lines: &[u8], owner: Owner) -> Result<bool, Fail> {
    let image = sound_of(alloc, program)?;
    let graph = graph_of(alloc, lines)?;
    all_come(alloc, &image, &graph, owner)
}

// Compares the ends of lists of legal events with that of the run on one thread.
fn check(
    rt: &(impl Abort + AllocGlobal),
    program: &str,
    lines: &str,
    owner: Owner,
) -> Result<(), Fail> {
    let come = events_come(rt.alloc(), program.as_bytes(), lines.as_bytes(), owner)?;
    assert!(rt; come);
    Ok(())
}

#[test]
fn totals(rt: HostRuntime) -> Result<(), Fail> {
    check(&rt, TOTAL, TRIANGLE, Owner::Mod)?;
    check(&rt, TOTAL, STAR, Owner::Block)?;
    check(&rt, TOTAL, LOOPS, Owner::Spread(5))
}

#[test]
fn nearest(rt: HostRuntime) -> Result<(), Fail> {
    check(&rt, NEAREST, TRIANGLE, Owner::Block)?;
    check(&rt, NEAREST, STAR, Owner::Spread(9))
}

#[test]
fn growth(rt: HostRuntime) -> Result<(), Fail> {
    check(&rt, GROWTH, TRIANGLE, Owner::Mod)?;
    check(&rt, GROWTH, STAR, Owner::Mod)?;
    check(&rt, GROWTH, LOOPS, Owner::Block)
}
