//! How the output properties are written behind a text.

ghost use Rattle.std.specs.Prelude.{◌≡◌, ◌++◌, [], length, map, take, OnOk};
ghost use Rattle.std.specs.List.{flat_map};
ghost use Rattle.gm_listing.specs.Listing.{name_field, head_line, value_fields, node_line, node_lines, table, node_table};

use crate::fields::{put, put_name_field, put_number, put_value_field};
use gm_base::NoMemory;
use gm_columns::Values;
use gm_graph::Graph;

// Writes names, each after a space.
fn put_names(text: &mut Vec<u8>, names: &[&[u8]]) -> Result<(), NoMemory>
    ensures { OnOk result (text.new.items ≡ text.old.items ++ flat_map name_field (map (λ name. name.now) names.now)) }
{
    for name in names {
        put_name_field(text, name)?;
    }
    Ok(())
}

// Writes the line above the nodes.
fn put_head(text: &mut Vec<u8>, names: &[&[u8]]) -> Result<(), NoMemory>
    ensures { OnOk result (text.new.items ≡ text.old.items ++ head_line (map (λ name. name.now) names.now)) }
{
    put(text, b"node")?;
    put_names(text, names)?;
    put(text, b"\n")?;
    Ok(())
}

// Writes the values of the node of an index, property by property.
fn put_value_fields(
    text: &mut Vec<u8>,
    graph: &Graph,
    properties: &[Values],
    node: u32,
) -> Result<(), NoMemory>
    ensures { OnOk result (text.new.items ≡ text.old.items ++ value_fields graph.now.numbers properties.now node) }
{
    for values in properties {
        put_value_field(text, graph, values, node)?;
    }
    Ok(())
}

// Writes the line of the node of an index.
fn put_node(
    text: &mut Vec<u8>,
    graph: &Graph,
    properties: &[Values],
    node: u32,
    number: u64,
) -> Result<(), NoMemory>
    ensures { OnOk result (text.new.items ≡ text.old.items ++ node_line graph.now.numbers properties.now node number) }
{
    put_number(text, number)?;
    put_value_fields(text, graph, properties, node)?;
    put(text, b"\n")?;
    Ok(())
}

// Writes the lines of all nodes.
fn put_nodes(text: &mut Vec<u8>, graph: &Graph, properties: &[Values]) -> Result<(), NoMemory>
    ensures { OnOk result (text.new.items ≡ text.old.items ++ node_lines graph.now.numbers properties.now) }
{
    for node in 0..graph.node_count() {
        put_node(text, graph, properties, node, graph.number(node))?;
    }
    Ok(())
}

// Writes the line above the nodes and the lines of all nodes, where there is an output property.
fn put_table(
    text: &mut Vec<u8>,
    graph: &Graph,
    names: &[&[u8]],
    properties: &[Values],
) -> Result<(), NoMemory>
    ensures { OnOk result (text.new.items ≡ text.old.items ++ table graph.now.numbers (map (λ name. name.now) names.now) properties.now) }
{
    if properties.is_empty() {
        return Ok(());
    }
    put_head(text, names)?;
    put_nodes(text, graph, properties)?;
    Ok(())
}

// The first names of so many, or all where there are fewer.
fn first_names<'a, 'b>(names: &'a [&'b [u8]], count: usize) -> &'a [&'b [u8]]
    ensures { result.now ≡ take count names.now }
{
    if count < names.len() {
        &names[..count]
    } else {
        names
    }
}

// The first properties of so many, or all where there are fewer.
fn first_properties(properties: &[Values], count: usize) -> &[Values]
    ensures { result.now ≡ take count properties.now }
{
    if count < properties.len() {
        &properties[..count]
    } else {
        properties
    }
}

// Writes the names and the values of the output properties that have both.
pub(crate) fn put_node_table(
    text: &mut Vec<u8>,
    graph: &Graph,
    names: &[&[u8]],
    properties: &[Values],
) -> Result<(), NoMemory>
    ensures { OnOk result (text.new.items ≡ text.old.items ++ node_table graph.now.numbers (map (λ name. name.now) names.now) properties.now) }
{
    put_table(
        text,
        graph,
        first_names(names, properties.len()),
        first_properties(properties, names.len()),
    )?;
    Ok(())
}
