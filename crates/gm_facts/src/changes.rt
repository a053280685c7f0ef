//! What bodies change.

ghost use Rattle.std.specs.Prelude.{◌≡◌, ◌∷◌, [], ◌++◌, OnOk, map};
ghost use Rattle.gm_ast.specs.Program.{sequence};
ghost use Rattle.gm_ast.specs.Tree.{stmt_of};
ghost use Rattle.gm_forms.specs.Cut as Cut;
ghost use Rattle.gm_forms.specs.Sharing as Sharing;

use gm_ast::tree::{Stmt, Target};
use std::alloc::AllocError;

// The variable that a target writes.
fn written_by(target: Target) -> u32
    ensures { (result ∷ []) ≡ Sharing.written_by target }
{
    match target {
        Target::Scalar { variable, .. } => variable,
        Target::Property { property, .. } => property,
    }
}

// Adds the variables of some targets.
fn list_targets(targets: &Vec<Target>, variables: &mut Vec<u32>) -> Result<(), AllocError>
    ensures { OnOk result (variables.new.items ≡ variables.old.items ++ Sharing.variables_of targets.now.items) }
{
    for target in targets {
        variables.push(written_by(*target))?;
    }
    Ok(())
}

// Adds the variables that a block writes anywhere.
#[cycle(listing)]
fn list_block(stmts: &Vec<Stmt>, variables: &mut Vec<u32>) -> Result<(), AllocError>
    ensures { OnOk result (variables.new.items ≡ variables.old.items ++ Cut.touched (sequence (map stmt_of stmts.now.items))) }
{
    for stmt in stmts {
        list_touched(stmt, variables)?;
    }
    Ok(())
}

/// Adds the variables that a body writes anywhere, also in its inner loops and at other nodes.
#[cycle(listing)]
pub fn list_touched(body: &Stmt, variables: &mut Vec<u32>) -> Result<(), AllocError>
    ensures { OnOk result (variables.new.items ≡ variables.old.items ++ Cut.touched (stmt_of body.now)) }
{
    match body {
        Stmt::Block(stmts) => {
            list_block(stmts, variables)?;
            Ok(())
        }
        Stmt::Declare { variable, .. } => {
            variables.push(*variable)?;
            Ok(())
        }
        Stmt::Assign { target, .. } | Stmt::Defer { target, .. } => {
            variables.push(written_by(*target))?;
            Ok(())
        }
        Stmt::Reduce { targets, .. } => {
            list_targets(targets, variables)?;
            Ok(())
        }
        Stmt::If { yes, no, .. } => {
            list_touched(yes, variables)?;
            list_touched(no, variables)?;
            Ok(())
        }
        Stmt::Foreach { body, .. } => {
            list_touched(body, variables)?;
            Ok(())
        }
        _ => Ok(()),
    }
}
