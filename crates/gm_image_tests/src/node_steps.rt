//! The steps of many nodes in one call.

ghost use Rattle.std.specs.Prelude.{◌<◌, length};
ghost use Rattle.gm_machine.specs.Masters.{FitsGraph};

use crate::batches::with;
use crate::compare::same;
use crate::machine::{four_nodes, graph_of, image_of, put_values};
use crate::texts::verified;
use gm_base::NoMemory;
use gm_graph::Graph;
use gm_image::{Image, Sound};
use gm_machine::{
    Batch, Duty, Fields, Inbox, Nodes, Sent, rows_for, steps_of_nodes, totals_are_handed_in,
};
use gm_value::{Reduce, Total, Value};
use std::alloc::Global;
use std::test::Fail;

// Writes the fields of a node as a line.
fn put_row(alloc: Global, text: &mut String, fields: &Fields, place: usize) -> Result<(), Fail>
    requires { place < length fields.now.rows }
{
    let mut row = Vec::new(alloc);
    fields.load(place, &mut row)?;
    put_values(alloc, text, row.as_slice())?;
    Ok(())
}

// The fields of all nodes, a line for each.
fn lines_of(alloc: Global, fields: &Fields) -> Result<String, Fail> {
    let mut text = String::new(alloc);
    for place in 0..fields.len() {
        put_row(alloc, &mut text, fields, place)?;
    }
    Ok(text)
}

// The fields after a superstep with the second block, to which these messages wait, from zeros on.
fn fields_after(alloc: Global, image: &Sound, graph: &Graph, waiting: Batch) -> Result<String, Fail>
    requires { FitsGraph image.now graph.now }
{
    let nodes = Nodes::All(graph.node_count());
    let count = nodes.len();
    let inbox = Inbox::sort(alloc, waiting, count)?;
    let mut fields = Fields::new(alloc, image.image().fields.as_slice(), count)?;
    let mut sent = Sent::empty(alloc);
    let in_rows = rows_for(alloc, image.image(), graph)?;
    let duty = Duty::of(image, 1, graph, &in_rows, &[]);
    if count > 0 {
        steps_of_nodes(
            alloc,
            &duty,
            &nodes,
            &inbox,
            &mut fields,
            0,
            usize::MAX,
            &mut sent,
        )?;
    }
    lines_of(alloc, &fields)
}

// Messages without the first one.
fn rest_of(alloc: Global, messages: Batch) -> Result<Batch, Fail> {
    let mut messages = messages;
    if messages.messages() > 0 {
        messages.take_front(alloc, 1)?;
    }
    Ok(messages)
}

// A total of -40 to the second node, and 6 to the first.
fn a_total_and_one(alloc: Global) -> Result<Batch, NoMemory> {
    let mut more = Batch::empty(alloc);
    more.add_total(1, 0, Reduce::Sum, Total::Sum(-40))?;
    with(more, 0, 0, &[Value::I32(6)])
}

// Messages, and others behind them.
fn appended(messages: Batch, more: &Batch) -> Result<Batch, NoMemory> {
    let mut messages = messages;
    messages.append(more)?;
    Ok(messages)
}

// 6 to the first node, a total of -40 to the second, and 1 to the last, behind a message that is taken away.
fn waiting_messages(alloc: Global) -> Result<Batch, Fail> {
    let waiting = with(Batch::empty(alloc), 0, 0, &[Value::I32(5)])?;
    let waiting = with(waiting, 3, 0, &[Value::I32(1)])?;
    let more = a_total_and_one(alloc)?;
    rest_of(alloc, appended(waiting, &more)?)
}

// The image `total` on four nodes.
fn total_after(alloc: Global, image: Image, graph: &Graph) -> Result<String, Fail>
    requires { FitsGraph image graph.now }
{
    let sound = verified(alloc, image)?;
    fields_after(alloc, &sound, graph, waiting_messages(alloc)?)
}

// The same, with its graph.
fn total_of_four(alloc: Global) -> Result<String, Fail> {
    let graph = graph_of(alloc, four_nodes(alloc)?)?;
    total_after(alloc, image_of(alloc, "total")?, &graph)
}

#[test]
fn all_nodes_step_in_one_call(rt: HostRuntime) -> Result<(), Fail> {
    let lines = total_of_four(rt.alloc())?;
    let wanted = "[I32(0), I32(6)]\n[I32(0), I32(-40)]\n[I32(0), I32(0)]\n[I32(0), I32(1)]\n";
    same(&rt, lines.as_str(), wanted, "total");
    totals_are_handed_in();
    Ok(())
}
