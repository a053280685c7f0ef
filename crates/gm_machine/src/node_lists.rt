//! The start, the settling of contributions and the end of a run that keeps a list of fields for each node.

ghost use Rattle.std.specs.Prelude.{◌≡◌, ℕ, IfOk, [], map, length};
ghost use Rattle.gm_model.specs.Graphs.{HasNode};
ghost use Rattle.gm_image.specs.Views.{program, output};
ghost use Rattle.gm_machine.specs.Machine.{properties, column_of, start_fields, done};
ghost use Rattle.gm_machine.specs.Masters.{pause_of, control, control_of};
ghost use Rattle.gm_machine.specs.States.{end_by};
ghost use Rattle.gm_machine.specs.Taking.{settled};

use crate::contributions::Contributions;
use crate::ends::{place_at, result_of, scalars};
use crate::expressions::value_at;
use crate::faults::Fault;
use crate::lines::reset;
use crate::masters::{Master, MasterStop};
use crate::settling::{TupleRoom, settle};
use crate::starts::bind_properties;
use gm_base::{Items, NoMemory};
use gm_columns::Values;
use gm_graph::Graph;
use gm_image::{Image, OutputItem};
use gm_model::{Outcome, RunEnd};
use gm_value::Value;
use std::alloc::Global;

/// The fields of a node before the first superstep: each is 0, False, NIL or the node's value in its column.
pub fn start_fields(
    alloc: Global,
    image: &Image,
    graph: &Graph,
    node: u32,
) -> Result<Vec<Value>, NoMemory>
    requires { HasNode graph.now node }
    ensures { IfOk result (λ fields. (number : ℕ) → fields.items ≡ start_fields (program image.now) graph.now (node, number)) }
{
    let mut fields = Vec::new(alloc);
    reset(&mut fields, image.fields.as_slice())?;
    bind_properties(image.inputs.as_slice(), graph, node, &mut fields)?;
    Ok(fields)
}

/// Takes contributions onto the globals, and answers the least fault on the way to them.
pub fn settle_puts(
    alloc: Global,
    image: &Image,
    puts: &Contributions,
    globals: &mut Vec<Value>,
) -> Result<Option<Fault>, NoMemory>
    ensures { IfOk result (λ f. record { values = globals.new.items; fault = f } ≡ settled (length image.now.places) puts.now globals.old.items) }
{
    let mut after = Vec::new(alloc);
    let mut room = TupleRoom::empty(alloc);
    let fault = settle(image.places.len(), puts, globals, &mut after, &mut room)?;
    Ok(fault)
}

// The values of a field by node, NIL where there is no such field.
fn column(alloc: Global, fields: &[Vec<Value>], slot: u32) -> Result<Values, NoMemory>
    ensures { IfOk result (λ values. values ≡ column_of (map (λ row. row.items) fields.now) slot) }
{
    let mut values = Vec::new(alloc);
    for row in fields {
        values.push(value_at(row, slot))?;
    }
    Ok(Values::of_any_type(values))
}

// The values of the output properties, by node.
fn columns(
    alloc: Global,
    outputs: &[OutputItem],
    fields: &[Vec<Value>],
) -> Result<Vec<Values>, NoMemory>
    ensures { IfOk result (λ columns. columns.items
        ≡ map (λ i. column_of (map (λ row. row.items) fields.now) i.slot) (properties (map output outputs.now))) }
{
    let mut columns = Vec::new(alloc);
    for item in outputs {
        if let OutputItem::Node { slot, .. } = item {
            columns.push(column(alloc, fields, *slot)?)?;
        }
    }
    Ok(columns)
}

// The outcome of a run that is done.
fn done(
    alloc: Global,
    image: &Image,
    globals: &Vec<Value>,
    turns: u64,
    fields: &[Vec<Value>],
) -> Result<Outcome, NoMemory>
    ensures { IfOk result (λ outcome. outcome ≡ done (program image.now) (control globals.now.items turns) (map (λ row. row.items) fields.now)) }
{
    let outputs = image.outputs.as_slice();
    let scalars = scalars(alloc, outputs, globals)?;
    let nodes = columns(alloc, outputs, fields)?;
    Ok(Outcome::Done {
        scalars: Items::new(scalars),
        result: result_of(image.result, globals),
        nodes: Items::new(nodes),
        turns,
    })
}

/// How a run ends whose master list stopped so, with the fields of each node as a list; None where it stopped at a
/// superstep.
pub fn end_of_lists(
    alloc: Global,
    image: &Image,
    stop: MasterStop,
    master: &Master,
    fields: &[Vec<Value>],
    supersteps: u64,
    messages: u64,
) -> Result<Option<RunEnd>, NoMemory>
    ensures { IfOk result (λ end. (left : ℕ) → end ≡ end_by (program image.now) (pause_of stop left master.now.line (control_of master.now))
        (record { fields = map (λ row. row.items) fields.now; sent = []; supersteps = supersteps; messages = messages })) }
{
    let outcome = match stop {
        MasterStop::Step(_) => return Ok(None),
        MasterStop::Ended => done(alloc, image, &master.globals, master.turns, fields)?,
        MasterStop::Faulted(fault) => Outcome::Fault {
            kind: fault.kind,
            place: place_at(image, fault.place),
        },
        MasterStop::Cut => Outcome::Cut {
            turns: master.turns,
        },
    };
    Ok(Some(RunEnd {
        outcome,
        supersteps,
        messages,
    }))
}
