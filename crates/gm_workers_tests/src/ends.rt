//! How runs end, as texts.

use gm_columns::Values;
use gm_model::{Outcome, RunEnd};
use gm_value::Value;
use std::alloc::{AllocError, Global};

// The values of a column.
fn values_in(alloc: Global, values: &Values) -> Result<Vec<Value>, AllocError> {
    let mut all = Vec::new(alloc);
    for i in 0..values.len() {
        all.push(values.get(i))?;
    }
    Ok(all)
}

// Writes a list of values as a line.
fn put_values(alloc: Global, text: &mut String, values: &[Value]) -> Result<(), AllocError> {
    let line = format!(in alloc; "{values:?}\n")?;
    text.push_str(line.as_str())?;
    Ok(())
}

// The values of columns, a line for each.
fn columns_of(alloc: Global, columns: &[Values]) -> Result<String, AllocError> {
    let mut text = String::new(alloc);
    for values in columns.iter() {
        let cells = values_in(alloc, values)?;
        put_values(alloc, &mut text, &cells)?;
    }
    Ok(text)
}

// The columns of the output properties; of another outcome than a whole run the outcome itself.
fn outputs_of(alloc: Global, outcome: &Outcome) -> Result<String, AllocError> {
    match outcome {
        Outcome::Done { nodes, .. } => columns_of(alloc, nodes.as_slice()),
        other => format!(in alloc; "{other:?}\n"),
    }
}

// The outputs and the result that are one value each, and how many turns there were.
fn values_of(alloc: Global, outcome: &Outcome) -> Result<String, AllocError> {
    match outcome {
        Outcome::Done {
            scalars,
            result: value,
            turns,
            ..
        } => {
            let list = scalars.as_slice();
            format!(in alloc; "{list:?} {value:?} {turns}\n")
        }
        _ => Ok(String::new(alloc)),
    }
}

/// A run's end, written out.
pub(crate) fn written(alloc: Global, end: &RunEnd) -> Result<String, AllocError> {
    let outputs = outputs_of(alloc, &end.outcome)?;
    let values = values_of(alloc, &end.outcome)?;
    let (supersteps, messages) = (end.supersteps, end.messages);
    format!(in alloc; "{outputs}{values}{supersteps} {messages}")
}

// A fault's kind and line; of an outcome that is neither a fault nor a whole run the outcome itself.
fn fault_of(alloc: Global, outcome: &Outcome) -> Result<String, AllocError> {
    match outcome {
        Outcome::Done { .. } => Ok(String::new(alloc)),
        Outcome::Fault { kind, place } => {
            let line = place.line;
            format!(in alloc; "{kind:?} {line}\n")
        }
        other => format!(in alloc; "{other:?}\n"),
    }
}

/// A run's end without the output properties of nodes, written out.
pub(crate) fn without_nodes(alloc: Global, end: &RunEnd) -> Result<String, AllocError> {
    let fault = fault_of(alloc, &end.outcome)?;
    let values = values_of(alloc, &end.outcome)?;
    let (supersteps, messages) = (end.supersteps, end.messages);
    format!(in alloc; "{fault}{values}{supersteps} {messages}")
}

// Whether two columns have the same values.
fn same_column(found: &Values, wanted: &Values) -> bool {
    if found.len() != wanted.len() {
        return false;
    }
    for i in 0..found.len() {
        if found.get(i) != wanted.get(i) {
            return false;
        }
    }
    true
}

// Whether columns have the same values, one by one.
fn same_columns(found: &[Values], wanted: &[Values]) -> bool {
    if found.len() != wanted.len() {
        return false;
    }
    for i in 0..found.len() {
        if !same_column(&found[i], &wanted[i]) {
            return false;
        }
    }
    true
}

/// Whether two whole runs have the same output properties of nodes. Of other outcomes nothing is compared.
pub(crate) fn same_nodes(found: &Outcome, wanted: &Outcome) -> bool {
    match (found, wanted) {
        (Outcome::Done { nodes: found, .. }, Outcome::Done { nodes: wanted, .. }) => {
            same_columns(found.as_slice(), wanted.as_slice())
        }
        _ => true,
    }
}
