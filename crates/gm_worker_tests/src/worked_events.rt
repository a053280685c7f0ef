//! Lists of events that were worked by hand, of two workers, each of which owns one of two nodes.

ghost use Rattle.std.specs.Prelude.{◌≡◌, ◌<◌, [], length};

use crate::ends::end_of;
use crate::runs::run;
use crate::samples::{TOTAL, TWO, graph_of, sound_of};
use gm_core::{CoreState, CoreStop, Event, events_are_worked};
use gm_graph::Graph;
use gm_image::Sound;
use gm_partition::Owner;
use std::alloc::{AllocError, Global};
use std::process::Abort;
use std::test::Fail;

// The first superstep, in which node 1's message is delivered first.
const FIRST: [Event; 8] = [
    Event::Compute { worker: 0, node: 0 },
    Event::Compute { worker: 1, node: 1 },
    Event::Deliver {
        from: 1,
        to: 1,
        count: 1,
    },
    Event::Deliver {
        from: 0,
        to: 1,
        count: 1,
    },
    Event::Deliver {
        from: 0,
        to: 1,
        count: 1,
    },
    Event::Arrive { worker: 0 },
    Event::Arrive { worker: 1 },
    Event::Release,
];

// The second superstep, which sends nothing.
const SECOND: [Event; 5] = [
    Event::Compute { worker: 0, node: 0 },
    Event::Compute { worker: 1, node: 1 },
    Event::Arrive { worker: 0 },
    Event::Arrive { worker: 1 },
    Event::Release,
];

// Events that are not legal where node 0 alone has computed.
const NOT_LEGAL: [Event; 12] = [
    Event::Arrive { worker: 0 },
    Event::Arrive { worker: 1 },
    Event::Arrive { worker: 2 },
    Event::Compute { worker: 0, node: 0 },
    Event::Compute { worker: 0, node: 1 },
    Event::Compute { worker: 0, node: 2 },
    Event::Deliver {
        from: 0,
        to: 1,
        count: 0,
    },
    Event::Deliver {
        from: 0,
        to: 1,
        count: 3,
    },
    Event::Deliver {
        from: 0,
        to: 2,
        count: 1,
    },
    Event::Deliver {
        from: 2,
        to: 1,
        count: 1,
    },
    Event::Deliver {
        from: 1,
        to: 1,
        count: 1,
    },
    Event::Release,
];

// The events of both supersteps.
fn both_steps(alloc: Global) -> Result<Vec<Event>, AllocError> {
    let mut events = Vec::new(alloc);
    events.extend_from_slice(&FIRST)?;
    events.extend_from_slice(&SECOND)?;
    Ok(events)
}

// How many supersteps were released, and the end that they come to.
fn written_state(alloc: Global, state: &CoreState) -> Result<String, AllocError> {
    let end = end_of(alloc, state)?;
    let step = state.step();
    format!(in alloc; "{step} {end}")
}

// The same, or why events were not run.
fn written_outcome(
    alloc: Global,
    outcome: &Result<CoreState, CoreStop>,
) -> Result<String, AllocError> {
    match outcome {
        Ok(state) => written_state(alloc, state),
        Err(stop) => format!(in alloc; "{stop:?}"),
    }
}

// What events come to, written out.
fn outcome_on(
    alloc: Global,
    image: &Sound,
    graph: &Graph,
    events: &[Event],
) -> Result<String, AllocError>
    requires no_columns { image.now.columns ≡ [] }
    requires none { graph.now.edge_columns ≡ [] }
{
    let outcome = run(alloc, image, graph, &[], 3, Owner::Mod, 2, events);
    written_outcome(alloc, &outcome)
}

// The same, of a program on a graph.
fn outcome_of(
    alloc: Global,
    program: &[u8],
    lines: &[u8],
    events: &[Event],
) -> Result<String, Fail> {
    let image = sound_of(alloc, program)?;
    let graph = graph_of(alloc, lines)?;
    Ok(outcome_on(alloc, &image, &graph, events)?)
}

// The same, of texts.
fn outcome_in(alloc: Global, program: &str, lines: &str, events: &[Event]) -> Result<String, Fail> {
    outcome_of(alloc, program.as_bytes(), lines.as_bytes(), events)
}

// Compares what events come to.
fn check(
    rt: &(impl Abort + AllocGlobal),
    row: usize,
    events: &[Event],
    want: &str,
) -> Result<(), Fail> {
    let found = outcome_in(rt.alloc(), TOTAL, TWO, events)?;
    assert_eq!(rt; found.as_str(), want, "row {row}");
    Ok(())
}

// Node 1 adds up 7, 5 and 5. There were 2 supersteps and 3 messages.
const END: &str = "2 [I32(0), I32(17)]\nItems { items: [] } None 0\n2 3";

// Names the theorems of the worked rows of events.
fn rows_are_theorems() {
    events_are_worked();
}

#[test]
fn legal_events_come_to_the_end(rt: HostRuntime) -> Result<(), Fail> {
    rows_are_theorems();
    let events = both_steps(rt.alloc())?;
    check(&rt, 0, &events, END)
}

#[test]
fn a_superstep_does_not_end_the_run(rt: HostRuntime) -> Result<(), Fail> {
    check(&rt, 0, &FIRST, "1 ")
}

// The fields of a node, written out.
fn fields_of(alloc: Global, state: &CoreState, node: u32) -> Result<String, AllocError>
    requires { node < length state.now.fields }
{
    let fields = state.fields(node);
    format!(in alloc; "{fields:?}")
}

// The fields of node 1 after the events so far.
fn fields_of_second(
    alloc: Global,
    image: &Sound,
    graph: &Graph,
    events: &[Event],
) -> Result<String, Fail>
    requires no_columns { image.now.columns ≡ [] }
    requires none { graph.now.edge_columns ≡ [] }
{
    if graph.node_count() < 2 {
        return Err(Fail::from("no second node"));
    }
    let state = run(alloc, image, graph, &[], 3, Owner::Mod, 2, events)?;
    Ok(fields_of(alloc, &state, 1)?)
}

// The same, of a program on a graph.
fn fields_in(
    alloc: Global,
    program: &[u8],
    lines: &[u8],
    events: &[Event],
) -> Result<String, Fail> {
    let image = sound_of(alloc, program)?;
    let graph = graph_of(alloc, lines)?;
    fields_of_second(alloc, &image, &graph, events)
}

// The first of the events of both supersteps.
fn first_of_both(alloc: Global, count: usize) -> Result<Vec<Event>, AllocError> {
    let mut events = both_steps(alloc)?;
    events.truncate(count);
    Ok(events)
}

// The fields of node 1 after the first of the events of both supersteps of a program on a graph.
fn fields_after(alloc: Global, program: &str, lines: &str, count: usize) -> Result<String, Fail> {
    let events = first_of_both(alloc, count)?;
    fields_in(alloc, program.as_bytes(), lines.as_bytes(), &events)
}

// Compares the fields of node 1 after the first of the events of both supersteps.
fn check_fields(rt: &(impl Abort + AllocGlobal), count: usize, want: &str) -> Result<(), Fail> {
    let found = fields_after(rt.alloc(), TOTAL, TWO, count)?;
    assert_eq!(rt; found.as_str(), want, "after {count}");
    Ok(())
}

#[test]
fn fields_are_new_where_nodes_have_computed(rt: HostRuntime) -> Result<(), Fail> {
    check_fields(&rt, 9, "[I32(7), I32(0)]")?;
    check_fields(&rt, 10, "[I32(7), I32(17)]")?;
    check_fields(&rt, 13, "[I32(7), I32(17)]")
}

// Sees that an event is not legal behind the first of node 0.
fn check_second(rt: &(impl Abort + AllocGlobal), row: usize, second: Event) -> Result<(), Fail> {
    let first = Event::Compute { worker: 0, node: 0 };
    check(rt, row, &[first, second], "Illegal { index: 1 }")
}

// Sees that each of these events is not legal behind the first of node 0.
fn check_seconds(rt: &(impl Abort + AllocGlobal), seconds: &[Event]) -> Result<(), Fail> {
    for (row, second) in seconds.iter().enumerate() {
        check_second(rt, row, *second)?;
    }
    Ok(())
}

#[test]
fn events_that_are_not_legal(rt: HostRuntime) -> Result<(), Fail> {
    check_seconds(&rt, &NOT_LEGAL)
}

// The events of both supersteps and one more.
fn one_more(alloc: Global) -> Result<Vec<Event>, AllocError> {
    let mut events = both_steps(alloc)?;
    events.push(Event::Compute { worker: 0, node: 0 })?;
    Ok(events)
}

#[test]
fn nothing_is_legal_after_the_end(rt: HostRuntime) -> Result<(), Fail> {
    let events = one_more(rt.alloc())?;
    check(&rt, 0, &events, "Illegal { index: 13 }")
}
