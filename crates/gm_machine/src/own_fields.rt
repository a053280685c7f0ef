//! The start and the end of a run whose fields several owners hold, each those of its own nodes.

ghost use Rattle.std.specs.Prelude.{◌≡◌, ℕ, IfOk, [], List, map, length};
ghost use Rattle.gm_value.specs.declared.values.Value as V;
ghost use Rattle.gm_image.specs.Views.{program, output};
ghost use Rattle.gm_machine.specs.Duties.{AreNodes};
ghost use Rattle.gm_machine.specs.declared.node_steps.Nodes.TheVariants.{These};
ghost use Rattle.gm_machine.specs.Machine.{properties, column_of, start_fields, done};
ghost use Rattle.gm_machine.specs.Masters.{pause_of, control, control_of};
ghost use Rattle.gm_machine.specs.OwnFields.{row_held, AreHeld, AreRows, IsHeldAt};
ghost use Rattle.gm_machine.specs.Expressions.{value_at};
ghost use Rattle.gm_machine.specs.States.{end_by};

use crate::ends::{place_at, result_of, scalars};
use crate::fields::Fields;
use crate::masters::{Master, MasterStop};
use crate::node_lists::start_fields;
use gm_base::{Items, NoMemory};
use gm_columns::Values;
use gm_graph::Graph;
use gm_image::{Image, OutputItem};
use gm_model::{Outcome, RunEnd};
use gm_value::Value;
use std::alloc::Global;

/// The fields of some nodes before the first superstep: each is 0, False, NIL or the node's value in its column.
pub fn start_of_nodes(
    alloc: Global,
    image: &Image,
    graph: &Graph,
    nodes: &[u32],
) -> Result<Fields, NoMemory>
    requires { AreNodes graph.now (These nodes) }
    ensures width { IfOk result (λ f. f.width ≡ length (program image.now).fields) }
    ensures rows { IfOk result (λ f. (number : ℕ) → f.rows ≡ map (λ node. start_fields (program image.now) graph.now (node, number)) nodes.now) }
{
    let mut fields = Fields::new(alloc, image.fields.as_slice(), nodes.len())?;
    for place in 0..nodes.len() {
        let first = start_fields(alloc, image, graph, nodes[place])?;
        fields.store(alloc, place, first.as_slice())?;
    }
    Ok(fields)
}

// A field of the node that an owner holds at a place, NIL where there is no such field.
fn value_of(fields: &[Fields], owner: u32, place: u32, slot: u32) -> Value
    requires { IsHeldAt fields.now owner place }
    ensures { result ≡ value_at (row_held fields.now owner place) slot }
{
    fields[owner as usize].get(place as usize, slot as usize)
}

// The values of a field by node, NIL where there is no such field.
fn column(
    alloc: Global,
    fields: &[Fields],
    owners: &[u32],
    places: &[u32],
    slot: u32,
) -> Result<Values, NoMemory>
    requires { AreHeld fields.now owners.now places.now }
    ensures { IfOk result (λ values. (rows : List (List V.Value)) → AreRows fields.now owners.now places.now rows → values ≡ column_of rows slot) }
{
    let mut values = Vec::with_capacity(alloc, owners.len())?;
    for node in 0..owners.len() {
        values.push(value_of(fields, owners[node], places[node], slot))?;
    }
    Ok(Values::of_any_type(values))
}

// The values of the output properties, by node.
fn columns(
    alloc: Global,
    outputs: &[OutputItem],
    fields: &[Fields],
    owners: &[u32],
    places: &[u32],
) -> Result<Vec<Values>, NoMemory>
    requires { AreHeld fields.now owners.now places.now }
    ensures { IfOk result (λ columns. (rows : List (List V.Value)) → AreRows fields.now owners.now places.now rows
        → columns.items ≡ map (λ i. column_of rows i.slot) (properties (map output outputs.now))) }
{
    let mut columns = Vec::new(alloc);
    for item in outputs {
        if let OutputItem::Node { slot, .. } = item {
            columns.push(column(alloc, fields, owners, places, *slot)?)?;
        }
    }
    Ok(columns)
}

// The outcome of a run that is done.
fn done(
    alloc: Global,
    image: &Image,
    globals: &Vec<Value>,
    turns: u64,
    fields: &[Fields],
    owners: &[u32],
    places: &[u32],
) -> Result<Outcome, NoMemory>
    requires { AreHeld fields.now owners.now places.now }
    ensures { IfOk result (λ outcome. (rows : List (List V.Value)) → AreRows fields.now owners.now places.now rows
        → outcome ≡ done (program image.now) (control globals.now.items turns) rows) }
{
    let outputs = image.outputs.as_slice();
    let scalars = scalars(alloc, outputs, globals)?;
    let nodes = columns(alloc, outputs, fields, owners, places)?;
    Ok(Outcome::Done {
        scalars: Items::new(scalars),
        result: result_of(image.result, globals),
        nodes: Items::new(nodes),
        turns,
    })
}

/// How a run ends whose master list stopped so; None where it stopped at a superstep. The fields of a node are those that
/// its owner, the one of its number in `fields`, holds at the node's place.
pub fn end_of_owners(
    alloc: Global,
    image: &Image,
    stop: MasterStop,
    master: &Master,
    fields: &[Fields],
    owners: &[u32],
    places: &[u32],
    supersteps: u64,
    messages: u64,
) -> Result<Option<RunEnd>, NoMemory>
    requires { AreHeld fields.now owners.now places.now }
    ensures { IfOk result (λ end. (left : ℕ) (rows : List (List V.Value)) → AreRows fields.now owners.now places.now rows
        → end ≡ end_by (program image.now) (pause_of stop left master.now.line (control_of master.now))
        (record { fields = rows; sent = []; supersteps = supersteps; messages = messages })) }
{
    let outcome = match stop {
        MasterStop::Step(_) => return Ok(None),
        MasterStop::Ended => done(
            alloc,
            image,
            &master.globals,
            master.turns,
            fields,
            owners,
            places,
        )?,
        MasterStop::Faulted(fault) => Outcome::Fault {
            kind: fault.kind,
            place: place_at(image, fault.place),
        },
        MasterStop::Cut => Outcome::Cut {
            turns: master.turns,
        },
    };
    Ok(Some(RunEnd {
        outcome,
        supersteps,
        messages,
    }))
}
