//! How names, numbers and values are written behind a text.

ghost use Rattle.std.specs.Prelude.{◌≡◌, ◌++◌, OnOk, slice_get, slice_index};
ghost use Rattle.gm_base.specs.Places.{place_text};
ghost use Rattle.gm_listing.specs.Listing.{value_text, name_field, value_field};

use gm_base::{NoMemory, Place};
use gm_columns::Values;
use gm_graph::Graph;
use gm_value::Value;
use itoa::{Buffer, Integer};

// Writes some bytes behind a text.
pub(crate) fn put(text: &mut Vec<u8>, bytes: &[u8]) -> Result<(), NoMemory>
    ensures { OnOk result (text.new.items ≡ text.old.items ++ bytes.now) }
{
    text.extend_from_slice(bytes)?;
    Ok(())
}

// Writes a number behind a text.
pub(crate) fn put_number<I: Integer>(text: &mut Vec<u8>, number: I) -> Result<(), NoMemory>
    ensures { OnOk result (text.new.items ≡ text.old.items ++ I.text number) }
{
    let mut buffer = Buffer::new();
    put(text, buffer.format(number).as_bytes())
}

// Writes a place behind a text.
pub(crate) fn put_place(text: &mut Vec<u8>, place: Place) -> Result<(), NoMemory>
    ensures { OnOk result (text.new.items ≡ text.old.items ++ place_text place) }
{
    put_number(text, place.line)?;
    put(text, b":")?;
    put_number(text, place.col)?;
    Ok(())
}

// The number of the node of an index, or 0 past the last.
fn number_of(graph: &Graph, node: u32) -> u64
    ensures { result ≡ slice_index graph.now.numbers node }
{
    if node < graph.node_count() {
        graph.number(node)
    } else {
        0
    }
}

// Writes a value behind a text.
pub(crate) fn put_value(text: &mut Vec<u8>, graph: &Graph, value: Value) -> Result<(), NoMemory>
    ensures { OnOk result (text.new.items ≡ text.old.items ++ value_text graph.now.numbers value) }
{
    match value {
        Value::I32(number) => put_number(text, number),
        Value::I64(number) => put_number(text, number),
        Value::Flag(true) => put(text, b"True"),
        Value::Flag(false) => put(text, b"False"),
        Value::At(None) => put(text, b"NIL"),
        Value::At(Some(node)) => put_number(text, number_of(graph, node)),
    }
}

// Writes a name and a space before it behind a text.
pub(crate) fn put_name_field(text: &mut Vec<u8>, name: &[u8]) -> Result<(), NoMemory>
    ensures { OnOk result (text.new.items ≡ text.old.items ++ name_field name.now) }
{
    put(text, b" ")?;
    put(text, name)?;
    Ok(())
}

// Writes the value of the node of an index, if it has one, and a space before it behind a text.
pub(crate) fn put_value_field(
    text: &mut Vec<u8>,
    graph: &Graph,
    values: &Values,
    node: u32,
) -> Result<(), NoMemory>
    ensures { OnOk result (text.new.items ≡ text.old.items ++ value_field graph.now.numbers (slice_get values.now node)) }
{
    if node as usize >= values.len() {
        return Ok(());
    }
    put(text, b" ")?;
    put_value(text, graph, values.get(node as usize))?;
    Ok(())
}
