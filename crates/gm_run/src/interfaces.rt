//! What a program asks of its graph and of its arguments and what it writes, apart from its tree.

ghost use Rattle.std.specs.Prelude.{◌≡◌, IfOk};
ghost use Rattle.gm_ast.specs.Tree.{program_of};
ghost use Rattle.gm_source_runs.specs.Programs.{inputs_of as inputs_of_lem, output_declarations as output_declarations_lem, shape_of as shape_of_lem};

use gm_ast::tree::{Declaration, Tree};
use gm_base::{Items, NoMemory};
use gm_graph::Shape;
use gm_source_runs::{inputs_of, output_declarations, shape_of};
use gm_words::Input;
use std::alloc::Global;

/// What is kept of a program whose tree is let go.
#[derive(Drop)]
pub struct Interface {
    /// The columns that its graph has, and the walks for which that has rows.
    pub shape: Shape,
    /// Its scalar inputs, in order of declaration.
    pub inputs: Vec<Input>,
    /// The declarations of its outputs.
    pub outputs: Vec<Declaration>,
}

// A copy of a declaration.
fn copied(alloc: Global, declaration: &Declaration) -> Result<Declaration, NoMemory>
    ensures { IfOk result (λ copy. copy ≡ declaration.now) }
{
    Ok(Declaration {
        name: Items::new(Vec::from_slice(alloc, declaration.name.as_slice())?),
        variable: declaration.variable,
    })
}

// A copy of some declarations.
fn copies(alloc: Global, declarations: &[Declaration]) -> Result<Vec<Declaration>, NoMemory>
    ensures { IfOk result (λ copies. copies.items ≡ declarations.now) }
{
    let mut all = Vec::new(alloc);
    for declaration in declarations {
        all.push(copied(alloc, declaration)?)?;
    }
    Ok(all)
}

/// What is kept of a program.
pub fn interface_of(alloc: Global, tree: &Tree) -> Result<Interface, NoMemory>
    ensures shape { IfOk result (λ it. it.shape ≡ shape_of_lem (program_of tree.now)) }
    ensures inputs { IfOk result (λ it. it.inputs.items ≡ inputs_of_lem (program_of tree.now)) }
    ensures outputs { IfOk result (λ it. it.outputs.items ≡ output_declarations_lem (program_of tree.now)) }
{
    let shape = shape_of(alloc, tree)?;
    let inputs = inputs_of(alloc, tree)?;
    let outputs = copies(alloc, output_declarations(tree))?;
    Ok(Interface {
        shape,
        inputs,
        outputs,
    })
}
