//! What a program asks of its graph and of its arguments, and the names of what it writes.

ghost use Rattle.std.specs.Prelude.{◌≡◌, IfOk, map, take, drop};
ghost use Rattle.gm_ast.specs.Names.{is};
ghost use Rattle.gm_ast.specs.Tree.{program_of};
ghost use Rattle.gm_source_runs.specs.Programs.{input_of as input_of_lem, inputs_of as inputs_of_lem, names_of as names_of_lem, output_declarations, shape_of as shape_of_lem, types_of as types_of_lem};

use crate::walks::walks_of;
use gm_ast::tree::{Declaration, Sort, Tree};
use gm_base::{Items, NoMemory, Text};
use gm_graph::Shape;
use gm_value::VType;
use gm_words::Input;
use std::alloc::Global;

// The first so many declarations, or all where there are fewer.
fn first_of(declarations: &[Declaration], count: u32) -> &[Declaration]
    ensures { result.now ≡ take count declarations.now }
{
    &declarations[..declarations.len().min(count as usize)]
}

// The declarations behind the first so many.
fn behind_of(declarations: &[Declaration], count: u32) -> &[Declaration]
    ensures { result.now ≡ drop count declarations.now }
{
    &declarations[declarations.len().min(count as usize)..]
}

/// The declarations of the outputs.
pub fn output_declarations(tree: &Tree) -> &[Declaration]
    ensures { result.now ≡ output_declarations (program_of tree.now) }
{
    first_of(behind_of(&tree.declarations, tree.inputs), tree.outputs)
}

// Whether a declaration is of a sort.
fn is_of(declaration: &Declaration, sort: Sort) -> bool
    ensures { result ≡ is sort declaration.now.variable }
{
    sort == declaration.variable.sort
}

// The types of the declarations of a sort, in their order.
fn types_of(alloc: Global, declarations: &[Declaration], sort: Sort) -> Result<Vec<VType>, NoMemory>
    ensures { IfOk result (λ types. types.items ≡ types_of_lem sort declarations.now) }
{
    let mut types = Vec::new(alloc);
    for declaration in declarations {
        if is_of(declaration, sort) {
            types.push(declaration.variable.vtype)?;
        }
    }
    Ok(types)
}

/// The names of the declarations of a sort, in their order.
pub fn names_of<'a>(
    alloc: Global,
    declarations: &'a [Declaration],
    sort: Sort,
) -> Result<Vec<&'a [u8]>, NoMemory>
    ensures { IfOk result (λ names. map (λ name. name.now) names.items ≡ names_of_lem sort declarations.now) }
{
    let mut names = Vec::new(alloc);
    for declaration in declarations {
        if is_of(declaration, sort) {
            names.push(declaration.name.as_slice())?;
        }
    }
    Ok(names)
}

/// The columns that a graph has for a program, and the walks for which it has rows.
pub fn shape_of(alloc: Global, tree: &Tree) -> Result<Shape, NoMemory>
    ensures { IfOk result (λ shape. shape ≡ shape_of_lem (program_of tree.now)) }
{
    let inputs = first_of(&tree.declarations, tree.inputs);
    Ok(Shape {
        nodes: Items::new(types_of(alloc, inputs, Sort::NodeProperty)?),
        edges: Items::new(types_of(alloc, inputs, Sort::EdgeProperty)?),
        walks: walks_of(tree),
    })
}

// The input that a declaration declares.
fn input_of(alloc: Global, declaration: &Declaration) -> Result<Input, NoMemory>
    ensures { IfOk result (λ input. input ≡ input_of_lem declaration.now) }
{
    Ok(Input {
        name: Text::new(String::from_utf8_lossy(alloc, declaration.name.as_slice())?),
        vtype: declaration.variable.vtype,
    })
}

/// The scalar inputs of a program, in order of declaration.
pub fn inputs_of(alloc: Global, tree: &Tree) -> Result<Vec<Input>, NoMemory>
    ensures { IfOk result (λ inputs. inputs.items ≡ inputs_of_lem (program_of tree.now)) }
{
    let mut inputs = Vec::new(alloc);
    let declarations = first_of(&tree.declarations, tree.inputs);
    for declaration in declarations {
        if is_of(declaration, Sort::Scalar) {
            inputs.push(input_of(alloc, declaration)?)?;
        }
    }
    Ok(inputs)
}
