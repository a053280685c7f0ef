//! The inputs and the outputs of a program, as those of its image.

ghost use Rattle.std.specs.Prelude.{◌≡◌, ◌++◌, IfOk, OnOk, map, slice_get};
ghost use Rattle.gm_ast.specs.Tree.{program_of};
ghost use Rattle.gm_image.specs.Views.{input, output};
ghost use Rattle.gm_lowering.specs.Lowered as Lowered;
ghost use Rattle.gm_semantics.specs.Levels.{numbers_from};
ghost use Rattle.gm_lower.specs.Items as Held;

use gm_ast::tree::{Declaration, Sort};
use gm_base::{Items, NoMemory};
use gm_image::{InputItem, OutputItem};
use gm_layouts::{Layout, next};
use gm_message::variable_at;
use std::alloc::Global;

/// A copy of a name.
pub(crate) fn copy_of(alloc: Global, name: &[u8]) -> Result<Items<u8>, NoMemory>
    ensures { IfOk result (λ r. r ≡ name.now) }
{
    let copy = name.to_vec(alloc)?;
    Ok(Items::new(copy))
}

// A copy of the name of a variable, which has no bytes where the table has no such variable.
fn name_of(
    alloc: Global,
    declarations: &[Declaration],
    variable: u32,
) -> Result<Items<u8>, NoMemory>
    ensures { IfOk result (λ r. r ≡ Lowered.name_or (slice_get declarations.now variable)) }
{
    match declarations.get(variable as usize) {
        None => Ok(Items::new(Vec::new(alloc))),
        Some(declaration) => copy_of(alloc, declaration.name.as_slice()),
    }
}

// Adds a variable as an input. The graph is none.
fn add_input(
    alloc: Global,
    layout: &Layout<'_>,
    variable: u32,
    inputs: &mut Vec<InputItem>,
) -> Result<(), NoMemory>
    ensures { OnOk result (map input inputs.new.items ≡ map input inputs.old.items ++ Held.items_of (program_of layout.now) variable) }
{
    let declarations = layout.declarations();
    let declared = variable_at(declarations, variable);
    let vtype = declared.vtype;
    match declared.sort {
        Sort::Scalar => {
            let name = name_of(alloc, declarations, variable)?;
            let slot = layout.global(variable)?;
            inputs.push(InputItem::Scalar { vtype, name, slot })?;
        }
        Sort::NodeProperty => {
            let name = name_of(alloc, declarations, variable)?;
            let slot = layout.field(variable)?;
            inputs.push(InputItem::Node { vtype, name, slot })?;
        }
        Sort::EdgeProperty => {
            let name = name_of(alloc, declarations, variable)?;
            let slot = layout.column(variable)?;
            inputs.push(InputItem::Edge { vtype, name, slot })?;
        }
        Sort::Graph | Sort::Iterator | Sort::Edge => {}
    }
    Ok(())
}

// Adds a variable as an output, if a global or a field holds it.
fn add_output(
    alloc: Global,
    layout: &Layout<'_>,
    variable: u32,
    outputs: &mut Vec<OutputItem>,
) -> Result<(), NoMemory>
    ensures { OnOk result (map output outputs.new.items ≡ map output outputs.old.items ++ Held.held (Held.items_of (program_of layout.now) variable)) }
{
    let declarations = layout.declarations();
    let declared = variable_at(declarations, variable);
    let vtype = declared.vtype;
    match declared.sort {
        Sort::Scalar => {
            let name = name_of(alloc, declarations, variable)?;
            let slot = layout.global(variable)?;
            outputs.push(OutputItem::Scalar { vtype, name, slot })?;
        }
        Sort::NodeProperty => {
            let name = name_of(alloc, declarations, variable)?;
            let slot = layout.field(variable)?;
            outputs.push(OutputItem::Node { vtype, name, slot })?;
        }
        Sort::Graph | Sort::Iterator | Sort::Edge | Sort::EdgeProperty => {}
    }
    Ok(())
}

/// The inputs of a program, from its first variable on.
pub(crate) fn inputs_of(
    alloc: Global,
    layout: &Layout<'_>,
    count: u32,
) -> Result<Items<InputItem>, NoMemory>
    ensures { IfOk result (λ r. map input r ≡ Lowered.items (program_of layout.now) (numbers_from 0 count)) }
{
    let mut inputs = Vec::new(alloc);
    let mut variable = 0;
    while variable < count {
        add_input(alloc, layout, variable, &mut inputs)?;
        variable += 1;
    }
    Ok(Items::new(inputs))
}

/// The outputs of a program, from a variable on, as far as globals and fields hold them.
pub(crate) fn outputs_of(
    alloc: Global,
    layout: &Layout<'_>,
    first: u32,
    count: u32,
) -> Result<Items<OutputItem>, NoMemory>
    ensures { IfOk result (λ r. map output r ≡ Held.held (Lowered.items (program_of layout.now) (numbers_from first count))) }
{
    let mut outputs = Vec::new(alloc);
    let mut variable = first;
    let mut left = count;
    while left > 0 {
        add_output(alloc, layout, variable, &mut outputs)?;
        variable = next(variable)?;
        left -= 1;
    }
    Ok(Items::new(outputs))
}
