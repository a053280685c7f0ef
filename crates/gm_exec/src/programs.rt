//! What an image asks of its graph and of its arguments, and the names of what it writes.

ghost use Rattle.std.specs.Prelude.{◌≡◌, IfOk, map};
ghost use Rattle.gm_image.specs.Views.{input, output, program};
ghost use Rattle.gm_machine.specs.Machine.{properties, scalars};
ghost use Rattle.gm_exec.specs.Programs.{input_of, inputs_of as inputs_of_lem, names_of, shape_of as shape_of_lem, types_of};

use crate::walks::walks_of;
use gm_base::{Items, NoMemory, Text};
use gm_graph::Shape;
use gm_image::{Image, InputItem, OutputItem};
use gm_value::VType;
use gm_words::Input;
use std::alloc::Global;

// The types of the properties of nodes among some inputs, in their order.
fn property_types(alloc: Global, inputs: &[InputItem]) -> Result<Vec<VType>, NoMemory>
    ensures { IfOk result (λ types. types.items ≡ types_of (properties (map input inputs.now))) }
{
    let mut types = Vec::new(alloc);
    for item in inputs {
        if let InputItem::Node { vtype, .. } = item {
            types.push(*vtype)?;
        }
    }
    Ok(types)
}

/// The columns that a graph has for an image, and the walks for which it has rows.
pub fn shape_of(alloc: Global, image: &Image) -> Result<Shape, NoMemory>
    ensures { IfOk result (λ shape. shape ≡ shape_of_lem (program image.now)) }
{
    Ok(Shape {
        nodes: Items::new(property_types(alloc, image.inputs.as_slice())?),
        edges: Items::new(Vec::from_slice(alloc, image.columns.as_slice())?),
        walks: walks_of(image),
    })
}

// A scalar input of a name and a type.
fn named_input(alloc: Global, name: &[u8], vtype: VType) -> Result<Input, NoMemory>
    ensures { IfOk result (λ named. named ≡ input_of name.now vtype) }
{
    Ok(Input {
        name: Text::new(String::from_utf8_lossy(alloc, name)?),
        vtype,
    })
}

// The scalar inputs among some inputs, in their order.
fn scalar_inputs(alloc: Global, inputs: &[InputItem]) -> Result<Vec<Input>, NoMemory>
    ensures { IfOk result (λ scalar. scalar.items ≡ map (λ i. input_of i.name i.vtype) (scalars (map input inputs.now))) }
{
    let mut scalar = Vec::new(alloc);
    for item in inputs {
        if let InputItem::Scalar { vtype, name, .. } = item {
            scalar.push(named_input(alloc, name.as_slice(), *vtype)?)?;
        }
    }
    Ok(scalar)
}

/// The scalar inputs of an image, in the order of their lines.
pub fn inputs_of(alloc: Global, image: &Image) -> Result<Vec<Input>, NoMemory>
    ensures { IfOk result (λ inputs. inputs.items ≡ inputs_of_lem (program image.now)) }
{
    scalar_inputs(alloc, image.inputs.as_slice())
}

/// The names of the scalars among some outputs, in their order.
pub fn scalar_names<'a>(alloc: Global, outputs: &'a [OutputItem]) -> Result<Vec<&'a [u8]>, NoMemory>
    ensures { IfOk result (λ names. map (λ name. name.now) names.items ≡ names_of (scalars (map output outputs.now))) }
{
    let mut names = Vec::new(alloc);
    for item in outputs {
        if let OutputItem::Scalar { name, .. } = item {
            names.push(name.as_slice())?;
        }
    }
    Ok(names)
}

/// The names of the properties of nodes among some outputs, in their order.
pub fn property_names<'a>(
    alloc: Global,
    outputs: &'a [OutputItem],
) -> Result<Vec<&'a [u8]>, NoMemory>
    ensures { IfOk result (λ names. map (λ name. name.now) names.items ≡ names_of (properties (map output outputs.now))) }
{
    let mut names = Vec::new(alloc);
    for item in outputs {
        if let OutputItem::Node { name, .. } = item {
            names.push(name.as_slice())?;
        }
    }
    Ok(names)
}
