//! How runs end.

ghost use Rattle.std.specs.Prelude.{◌≡◌, IfOk, map, length};
ghost use Rattle.std.specs.Option.{option_map};
ghost use Rattle.gm_image.specs.Views.{program, output};
ghost use Rattle.gm_machine.specs.Ends.{stop_of};
ghost use Rattle.gm_machine.specs.Expressions.{value_at};
ghost use Rattle.gm_machine.specs.Fields.{fields_of, IsFull};
ghost use Rattle.gm_machine.specs.Machine.{scalars, properties, column_of, place_at, done, ends};
ghost use Rattle.gm_machine.specs.Masters.{control, control_of};
ghost use Rattle.gm_machine.specs.Supersteps.{nodes_of};

use crate::expressions::value_at;
use crate::faults::Fault;
use crate::fields::FieldColumns;
use crate::masters::Master;
use crate::supersteps::Nodes;
use gm_base::{Items, NoMemory, Place};
use gm_columns::Values;
use gm_image::{Image, OutputItem};
use gm_model::{Outcome, RunEnd};
use gm_value::{VType, Value};
use std::alloc::Global;

/// How the master list ends: at its end, at a fault, or where it would take more turns than it was given.
#[derive(Clone, Copy)]
pub(crate) enum Stop {
    Ended,
    Faulted(Fault),
    Cut,
}

// The values of the scalar outputs.
pub(crate) fn scalars(
    alloc: Global,
    outputs: &[OutputItem],
    globals: &[Value],
) -> Result<Vec<Value>, NoMemory>
    ensures { IfOk result (λ values. values.items ≡ map (λ i. value_at globals.now i.slot) (scalars (map output outputs.now))) }
{
    let mut values = Vec::new(alloc);
    for item in outputs {
        if let OutputItem::Scalar { slot, .. } = item {
            values.push(value_at(globals, *slot))?;
        }
    }
    Ok(values)
}

// The values of the output properties, by node.
fn properties(
    alloc: Global,
    outputs: &[OutputItem],
    fields: &FieldColumns,
) -> Result<Vec<Values>, NoMemory>
    requires { IsFull (length fields.now.rows.items) fields.now }
    ensures { IfOk result (λ columns. columns.items ≡ map (λ i. column_of (fields_of fields.now) i.slot) (properties (map output outputs.now))) }
{
    let mut columns = Vec::new(alloc);
    for item in outputs {
        if let OutputItem::Node { slot, .. } = item {
            columns.push(fields.column(alloc, *slot as usize)?)?;
        }
    }
    Ok(columns)
}

// The value of the result's global, where there is a result.
pub(crate) fn result_of(slot: Option<(VType, u32)>, globals: &[Value]) -> Option<Value>
    ensures { result ≡ option_map (λ r. value_at globals.now r.1) slot }
{
    match slot {
        Some((_, global)) => Some(value_at(globals, global)),
        None => None,
    }
}

// The outcome of a run that is done.
fn done(
    alloc: Global,
    image: &Image,
    globals: &Vec<Value>,
    turns: u64,
    fields: &FieldColumns,
) -> Result<Outcome, NoMemory>
    requires { IsFull (length fields.now.rows.items) fields.now }
    ensures { IfOk result (λ outcome. outcome ≡ done (program image.now) (control globals.now.items turns) (fields_of fields.now)) }
{
    let outputs = image.outputs.as_slice();
    let scalars = scalars(alloc, outputs, globals)?;
    let nodes = properties(alloc, outputs, fields)?;
    Ok(Outcome::Done {
        scalars: Items::new(scalars),
        result: result_of(image.result, globals),
        nodes: Items::new(nodes),
        turns,
    })
}

// The place of an index.
pub(crate) fn place_at(image: &Image, place: u32) -> Place
    ensures { result ≡ place_at (program image.now) place }
{
    let places = image.places.as_slice();
    match places.get(place as usize) {
        Some(place) => *place,
        None => Place { line: 0, col: 0 },
    }
}

/// How a run ends that stops with these globals and nodes.
pub(crate) fn end_of(
    alloc: Global,
    image: &Image,
    stop: Stop,
    master: &Master,
    nodes: &Nodes,
) -> Result<RunEnd, NoMemory>
    requires { IsFull (length nodes.now.fields.rows.items) nodes.now.fields }
    ensures { IfOk result (λ end. end ≡ ends (program image.now) (stop_of stop (control_of master.now)) (nodes_of nodes.now)) }
{
    let outcome = match stop {
        Stop::Ended => done(alloc, image, &master.globals, master.turns, &nodes.fields)?,
        Stop::Faulted(fault) => Outcome::Fault {
            kind: fault.kind,
            place: place_at(image, fault.place),
        },
        Stop::Cut => Outcome::Cut {
            turns: master.turns,
        },
    };
    Ok(RunEnd {
        outcome,
        supersteps: nodes.supersteps,
        messages: nodes.messages,
    })
}
