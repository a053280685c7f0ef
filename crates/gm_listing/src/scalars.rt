//! How the scalar outputs and the result are written behind a text.

ghost use Rattle.std.specs.Prelude.{◌≡◌, ◌++◌, map, OnOk};
ghost use Rattle.gm_listing.specs.Listing.{value_line, scalar_lines, result_line};

use crate::fields::{put, put_value};
use gm_base::NoMemory;
use gm_graph::Graph;
use gm_value::Value;

// Writes the line of something that has a value.
fn put_value_line(
    text: &mut Vec<u8>,
    graph: &Graph,
    name: &[u8],
    value: Value,
) -> Result<(), NoMemory>
    ensures { OnOk result (text.new.items ≡ text.old.items ++ value_line graph.now.numbers name.now value) }
{
    put(text, name)?;
    put(text, b" = ")?;
    put_value(text, graph, value)?;
    put(text, b"\n")?;
    Ok(())
}

// Writes the lines of the scalar outputs.
pub(crate) fn put_scalars(
    text: &mut Vec<u8>,
    graph: &Graph,
    names: &[&[u8]],
    values: &[Value],
) -> Result<(), NoMemory>
    ensures { OnOk result (text.new.items ≡ text.old.items ++ scalar_lines graph.now.numbers (map (λ name. name.now) names.now) values.now) }
{
    for i in 0..names.len() {
        if i >= values.len() {
            return Ok(());
        }
        put_value_line(text, graph, names[i], values[i])?;
    }
    Ok(())
}

// Writes the line of the result, if there is one.
pub(crate) fn put_result(
    text: &mut Vec<u8>,
    graph: &Graph,
    returned: Option<Value>,
) -> Result<(), NoMemory>
    ensures { OnOk result (text.new.items ≡ text.old.items ++ result_line graph.now.numbers returned) }
{
    match returned {
        None => Ok(()),
        Some(value) => put_value_line(text, graph, b"return", value),
    }
}
