//! Variables of the table of declarations.

ghost use Rattle.std.specs.Prelude.{◌≡◌};
ghost use Rattle.gm_forms.specs.Typing as Typing;
ghost use Rattle.gm_lowering.specs.Layouts as Layouts;
ghost use Rattle.gm_semantics.specs.Statements as Statements;

use gm_ast::tree::{Declaration, Sort, Target, Variable};
use gm_value::VType;

/// The variable of an index, and a scalar of 32 bits where the table has none.
pub fn variable_at(declarations: &[Declaration], variable: u32) -> Variable
    ensures { result ≡ Statements.variable_at declarations.now variable }
{
    match declarations.get(variable as usize) {
        None => Variable {
            sort: Sort::Scalar,
            vtype: VType::I32,
            depth: 0,
        },
        Some(declaration) => declaration.variable,
    }
}

/// The type of a variable.
pub fn type_at(declarations: &[Declaration], variable: u32) -> VType
    ensures { result ≡ Typing.type_at declarations.now variable }
{
    variable_at(declarations, variable).vtype
}

/// The type of the values that a target takes.
pub fn target_type(declarations: &[Declaration], target: Target) -> VType
    ensures { result ≡ Typing.target_type declarations.now target }
{
    match target {
        Target::Scalar { variable, .. } => type_at(declarations, variable),
        Target::Property { property, .. } => type_at(declarations, property),
    }
}

/// Whether a variable is a scalar or a node of the procedure.
pub fn is_global(variable: Variable) -> bool
    ensures { result ≡ Layouts.is_global variable }
{
    match variable.sort {
        Sort::Scalar | Sort::Iterator => variable.depth == 0,
        _ => false,
    }
}

/// Whether a variable is a local of a parallel loop.
pub fn is_register(variable: Variable) -> bool
    ensures { result ≡ Layouts.is_register variable }
{
    match variable.sort {
        Sort::Scalar => variable.depth != 0,
        _ => false,
    }
}
