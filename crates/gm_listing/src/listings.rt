//! The listing of a run.

ghost use Rattle.std.specs.Prelude.{◌≡◌, ◌++◌, codes, decimal, IfOk, OnOk};
ghost use Rattle.gm_base.specs.Places.{place_text};
ghost use Rattle.gm_value.specs.Faults.{fault_text};
ghost use Rattle.gm_listing.specs.Listing.{line_end, scalar_names, property_names, last_line, listing, status_of};

use crate::fields::{put, put_number, put_place};
use crate::outputs::{Ending, Outputs};
use crate::scalars::{put_result, put_scalars};
use crate::tables::put_node_table;
use gm_base::{NoMemory, Place, Status};
use gm_graph::Graph;
use gm_model::Outcome;
use gm_value::FaultKind;
use std::alloc::Global;

// Writes a word and a number after a space.
fn put_count(text: &mut Vec<u8>, word: &[u8], count: u64) -> Result<(), NoMemory>
    ensures { OnOk result (text.new.items ≡ text.old.items ++ word.now ++ decimal count) }
{
    put(text, word)?;
    put_number(text, count)?;
    Ok(())
}

// Writes the last line of a finished run.
fn put_last_line(text: &mut Vec<u8>, ending: Ending, turns: u64) -> Result<(), NoMemory>
    ensures { OnOk result (text.new.items ≡ text.old.items ++ last_line ending turns) }
{
    match ending {
        Ending::Turns => put_count(text, b"turns ", turns)?,
        Ending::Counts {
            supersteps,
            messages,
        } => {
            put_count(text, b"supersteps ", supersteps)?;
            put_count(text, b" messages ", messages)?;
            put_count(text, b" turns ", turns)?;
        }
    }
    put(text, b"\n")?;
    Ok(())
}

// Writes the line of a fault.
fn put_fault(text: &mut Vec<u8>, kind: FaultKind, place: Place) -> Result<(), NoMemory>
    ensures { OnOk result (text.new.items ≡ text.old.items ++ codes "fault " ++ fault_text kind ++ codes " at " ++ place_text place ++ line_end) }
{
    put(text, b"fault ")?;
    put(text, kind.name().as_bytes())?;
    put(text, b" at ")?;
    put_place(text, place)?;
    put(text, b"\n")?;
    Ok(())
}

// Writes the line of a cut.
fn put_cut(text: &mut Vec<u8>, turns: u64) -> Result<(), NoMemory>
    ensures { OnOk result (text.new.items ≡ text.old.items ++ codes "cut after " ++ decimal turns ++ codes " turns" ++ line_end) }
{
    put_count(text, b"cut after ", turns)?;
    put(text, b" turns\n")?;
    Ok(())
}

/// What a run prints: the text of its outcome, whole, in ASCII but for the names.
///
/// A run that is done has in this order: a line `NAME = VALUE` for each scalar output; `return = VALUE` if there is
/// a result; if there is an output property, the line `node` with the names, each after a space, and a line for each
/// node with its number in `graph` and its values, each after a space; and a last line, `turns T`, or
/// `supersteps K messages M turns T`, as `ending` says. A fault is `fault KIND at LINE:COL` alone, a cut
/// `cut after N turns` alone. Numbers are decimal, truth values `True` and `False`, nodes their number in `graph`
/// or `NIL`. Each line ends with a line feed.
///
/// The names of `outputs` belong to the outcome's values in their order. A name without a value, a value without
/// a name, and a node without a value in a property are left out; a node that the graph does not have is 0.
pub fn listing(
    alloc: Global,
    outputs: &Outputs,
    graph: &Graph,
    outcome: &Outcome,
    ending: Ending,
) -> Result<Vec<u8>, NoMemory>
    ensures { IfOk result (λ text. text.items ≡ listing (scalar_names outputs.now) (property_names outputs.now) graph.now.numbers ending outcome.now) }
{
    let mut text = Vec::new(alloc);
    match outcome {
        Outcome::Done {
            scalars,
            result,
            nodes,
            turns,
        } => {
            put_scalars(&mut text, graph, outputs.scalars, scalars.as_slice())?;
            put_result(&mut text, graph, *result)?;
            put_node_table(&mut text, graph, outputs.properties, nodes.as_slice())?;
            put_last_line(&mut text, ending, *turns)?;
        }
        Outcome::Fault { kind, place } => put_fault(&mut text, *kind, *place)?,
        Outcome::Cut { turns } => put_cut(&mut text, *turns)?,
    }
    Ok(text)
}

/// The status with which an outcome ends the program.
pub fn status_of(outcome: &Outcome) -> Status
    ensures { result ≡ status_of outcome.now }
{
    match outcome {
        Outcome::Done { .. } => Status::Done,
        Outcome::Fault { .. } => Status::Fault,
        Outcome::Cut { .. } => Status::Cut,
    }
}
