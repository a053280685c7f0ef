//! The vertex steps of many nodes in one call.
//!
//! In go what a superstep asks of each node, some nodes with their fields and the messages that wait for them; out come
//! their new fields, and what they sent and put. How the call goes over the nodes is its own affair.

ghost use Rattle.std.specs.Prelude.{◌≡◌, ◌<◌, ◌≤◌, ◌++◌, ℕ, true, OnOk, IfOk, [], length, slice_index, slice_index_or, slice_set};
ghost use Rattle.gm_model.specs.Graphs.{HasNode};
ghost use Rattle.gm_image.specs.Views.{program};
ghost use Rattle.gm_graph.specs.Serving.{AreRowsOf, Serve};
ghost use Rattle.gm_machine.specs.Asking.{IsServed, block_outward};
ghost use Rattle.gm_machine.specs.Duties.{places_of, node_of, AreNodes, IsDuty, place_after, StepsTo};
ghost use Rattle.gm_machine.specs.Fields.{fields_of, IsFull};
ghost use Rattle.gm_machine.specs.Inboxes.{AreByPlace};
ghost use Rattle.gm_machine.specs.Masters.{FitsGraph};
ghost use Rattle.gm_machine.specs.NodeSteps.{round_after, RunsTo};
ghost use Rattle.gm_machine.specs.Steps.{KeepsFields};
ghost use Rattle.gm_machine.specs.Vertex.{never_sets, handler_lines};
ghost use Rattle.gm_machine.specs.VertexViews.{code_of};

use crate::batches::MessageHeader;
use crate::bodies::{BlockCode, block_at, run_vertex};
use crate::expressions::VertexContext;
use crate::faults::{Fault, lesser};
use crate::fields::{FieldColumns, Fields};
use crate::inboxes::{Inbox, headers_at};
use crate::lines::VertexState;
use crate::message_values::MessageValues;
use crate::steps::Sent;
use gm_base::NoMemory;
use gm_graph::{Graph, InRows};
use gm_image::{Image, Sound};
use gm_value::Value;
use std::alloc::Global;
use std::mem;

/// What a superstep asks of each node: the block of an image, on a graph, with the rows of the edges that lead to nodes, where
/// the image asks for them, and the globals that all nodes see. Threads share it.
#[derive(Clone, Copy)]
pub struct Duty<'a> {
    pub image: &'a Image,
    pub block: u32,
    pub graph: &'a Graph,
    pub in_rows: &'a Option<InRows<'a>>,
    pub globals: &'a [Value],
}

/// Nodes of a graph, each with a place among them: as many as there are, each at the place of its index, or some.
#[derive(Clone, Copy)]
pub enum Nodes<'a> {
    All(u32),
    These(&'a [u32]),
}

impl<'a> Duty<'a> {
    /// The duty of a block of a sound image, on a graph that has the edge columns that the image declares, with the rows for
    /// which the image asks.
    pub fn of(
        image: &'a Sound,
        block: u32,
        graph: &'a Graph,
        in_rows: &'a Option<InRows<'a>>,
        globals: &'a [Value],
    ) -> Duty<'a>
        requires columns { FitsGraph image.now graph.now }
        requires served { IsServed (program image.now) graph.now in_rows.now }
        ensures image { result.image.now ≡ image.now }
        ensures block { result.block ≡ block }
        ensures graph { result.graph.now ≡ graph.now }
        ensures in_rows { result.in_rows.now ≡ in_rows.now }
        ensures globals { result.globals.now ≡ globals.now }
        ensures is { IsDuty result }
    {
        Duty {
            image: image.image(),
            block,
            graph,
            in_rows,
            globals,
        }
    }
}

// A number of nodes as a number of places.
#[inline(always)]
fn places(count: u32) -> usize
    ensures { result ≡ count }
{
    count as usize
}

// A place among as many nodes as a number counts is the index of a node.
#[inline(always)]
fn node_below(count: u32, place: usize) -> u32
    requires { place < count }
    ensures { result ≡ place }
{
    prove!(place < count as usize);
    place as u32
}

// The node at a place of a list.
#[inline(always)]
fn node_in(nodes: &[u32], place: usize) -> u32
    requires { place < length nodes.now }
    ensures { result ≡ slice_index nodes.now place }
{
    nodes[place]
}

impl<'a> Nodes<'a> {
    /// How many nodes there are.
    pub fn len(&self) -> usize
        ensures { result ≡ places_of self.now }
    {
        let nodes = *self;
        match nodes {
            Nodes::All(count) => places(count),
            Nodes::These(nodes) => nodes.len(),
        }
    }

    /// The node at a place.
    #[inline(always)]
    pub fn node(&self, place: usize) -> u32
        requires { place < places_of self.now }
        ensures { result ≡ node_of self.now place }
    {
        let nodes = *self;
        match nodes {
            Nodes::All(count) => node_below(count, place),
            Nodes::These(nodes) => node_in(nodes, place),
        }
    }
}

// What all nodes see in a superstep: the image and what it says that they do, the graph, the rows for which the image asks, the
// globals, which nodes they are, and the messages that wait for them.
#[derive(Clone, Copy)]
struct Round<'a> {
    image: &'a Image,
    code: BlockCode<'a>,
    graph: &'a Graph,
    in_rows: &'a Option<InRows<'a>>,
    globals: &'a [Value],
    nodes: Nodes<'a>,
    values: &'a MessageValues,
    sorted: &'a [MessageHeader],
    starts: &'a [usize],
}

// The step of the node at a place. What it sends and puts comes behind what was sent and put before.
fn step_at(
    alloc: Global,
    round: &Round,
    place: usize,
    fields: &mut FieldColumns,
    row: &mut Vec<Value>,
    state: &mut VertexState,
) -> Result<Option<Fault>, NoMemory>
    requires columns { FitsGraph round.now.image.now round.now.graph.now }
    requires rows { AreRowsOf round.now.graph.now round.now.in_rows.now }
    requires asked { Serve round.now.in_rows.now (block_outward (code_of round.now.code)) }
    requires keeps { (kind : ℕ) → never_sets (handler_lines (code_of round.now.code).handlers kind) ≡ true }
    requires by_place { AreByPlace (places_of round.now.nodes) round.now.values.now round.now.sorted.now round.now.starts.now }
    requires nodes { AreNodes round.now.graph.now round.now.nodes }
    requires place { place < places_of round.now.nodes }
    requires here { place < fields.old.nodes }
    requires full { IsFull (length fields.old.rows.items) fields.old }
    ensures nodes { OnOk result (fields.new.nodes ≡ fields.old.nodes) }
    ensures full { OnOk result (IsFull (length fields.old.rows.items) fields.new) }
    ensures fields { OnOk result (fields_of fields.new
        ≡ slice_set (fields_of fields.old) place (round_after round.now (fields_of fields.old) place).state.fields) }
    ensures messages { OnOk result (state.new.messages ≡ state.old.messages ++ (round_after round.now (fields_of fields.old) place).state.messages) }
    ensures puts { OnOk result (state.new.puts ≡ state.old.puts ++ (round_after round.now (fields_of fields.old) place).state.puts) }
    ensures fault { IfOk result (λ f. f ≡ (round_after round.now (fields_of fields.old) place).fault) }
{
    let context = VertexContext {
        graph: round.graph,
        in_rows: round.in_rows,
        columns: round.image.columns.len(),
        globals: round.globals,
        node: round.nodes.node(place),
        message: &[],
        neighbour: 0,
        row: None,
    };
    let headers = headers_at(round.sorted, round.starts, place);
    fields.load(place, &mut state.fields)?;
    let fault = run_vertex(
        round.image,
        round.code,
        headers,
        round.values,
        row,
        &context,
        state,
    )?;
    let after = state.fields.as_slice();
    fields.store(alloc, place, after)?;
    Ok(fault)
}

// The steps at the places from one on, until all are done or so many messages are gathered. It answers which place comes
// next, and the least of a fault and those of the steps.
fn run_round(
    alloc: Global,
    round: &Round,
    from: usize,
    enough: usize,
    before: Option<Fault>,
    fields: &mut FieldColumns,
    state: &mut VertexState,
) -> Result<(usize, Option<Fault>), NoMemory>
    requires columns { FitsGraph round.now.image.now round.now.graph.now }
    requires rows { AreRowsOf round.now.graph.now round.now.in_rows.now }
    requires asked { Serve round.now.in_rows.now (block_outward (code_of round.now.code)) }
    requires keeps { (kind : ℕ) → never_sets (handler_lines (code_of round.now.code).handlers kind) ≡ true }
    requires by_place { AreByPlace (places_of round.now.nodes) round.now.values.now round.now.sorted.now round.now.starts.now }
    requires nodes { AreNodes round.now.graph.now round.now.nodes }
    requires fields { fields.old.nodes ≡ places_of round.now.nodes }
    requires full { IsFull (length fields.old.rows.items) fields.old }
    requires from { from < places_of round.now.nodes }
    ensures ahead { IfOk result (λ r. from < r.0) }
    ensures within { IfOk result (λ r. r.0 ≤ places_of round.now.nodes) }
    ensures nodes { OnOk result (fields.new.nodes ≡ fields.old.nodes) }
    ensures full { OnOk result (IsFull (length fields.old.rows.items) fields.new) }
    ensures runs { IfOk result (λ r. RunsTo (round_after round.now (fields_of fields.old)) from r.0 (fields_of fields.old) (fields_of fields.new)
        state.old.messages state.new.messages state.old.puts state.new.puts before r.1) }
    ensures enough { IfOk result (λ r. r.0 < places_of round.now.nodes → enough ≤ length state.new.messages) }
{
    let mut fault = before;
    let mut row = Vec::new(alloc);
    for place in from..round.nodes.len() {
        let one = step_at(alloc, round, place, fields, &mut row, state)?;
        fault = lesser(fault, one);
        if state.messages.messages() >= enough {
            return Ok((place + 1, fault));
        }
    }
    Ok((round.nodes.len(), fault))
}

/// The vertex steps of nodes on the same globals, in the order of their places, from one place on: until all are done, or
/// until `sent` holds so many messages. It answers which place comes next. The new fields stand in the place of the old
/// ones, and what the nodes send and put stands behind what `sent` holds; a fault is kept in `sent`, the least of all.
/// Where there is not enough memory the run is to be given up.
pub fn steps_of_nodes(
    alloc: Global,
    duty: &Duty,
    nodes: &Nodes,
    inbox: &Inbox,
    fields: &mut Fields,
    from: usize,
    enough: usize,
    sent: &mut Sent,
) -> Result<usize, NoMemory>
    requires duty { IsDuty duty.now }
    requires nodes { AreNodes duty.now.graph.now nodes.now }
    requires inbox { length inbox.now ≡ places_of nodes.now }
    requires fields { length fields.old.rows ≡ places_of nodes.now }
    requires from { from < places_of nodes.now }
    ensures steps { IfOk result (λ to. StepsTo (place_after duty.now nodes.now inbox.now fields.old.rows) from to fields.old fields.new sent.old sent.new) }
    ensures enough { IfOk result (λ to. to < places_of nodes.now → enough ≤ length sent.new.messages) }
{
    let code = block_at(duty.image, duty.block);
    let values = &inbox.values;
    let sorted = inbox.sorted.as_slice();
    let starts = inbox.starts.as_slice();
    let round = Round {
        image: duty.image,
        code,
        graph: duty.graph,
        in_rows: duty.in_rows,
        globals: duty.globals,
        nodes: *nodes,
        values,
        sorted,
        starts,
    };
    let mut state = VertexState::idle(alloc, Vec::new(alloc));
    let mut columns = mem::replace(&mut fields.columns, FieldColumns::none(alloc));
    mem::swap(&mut state.messages, &mut sent.messages);
    mem::swap(&mut state.puts, &mut sent.puts);
    let (to, fault) = run_round(
        alloc,
        &round,
        from,
        enough,
        sent.fault,
        &mut columns,
        &mut state,
    )?;
    fields.columns = columns;
    sent.messages = state.messages;
    sent.puts = state.puts;
    sent.fault = fault;
    Ok(to)
}
