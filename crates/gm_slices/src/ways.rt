//! Whether the inner loops of a program go one way each.

ghost use Rattle.std.specs.Prelude.{◌≡◌, IfOk, map};
ghost use Rattle.gm_ast.specs.Program.{sequence};
ghost use Rattle.gm_ast.specs.Tree.{program_of, stmt_of};
ghost use Rattle.gm_cut.specs.Parts.{each_passes};
ghost use Rattle.gm_slices.specs.OneWay as OneWay;
ghost use Rattle.gm_slices.specs.OneWay.{inner_loop_goes};

use crate::slices::goes_one_way;
use gm_ast::forms::Work;
use gm_ast::tree::{Declaration, Stmt};
use gm_base::NoMemory;
use std::alloc::{AllocError, Global};

// Whether the body of a loop is no inner loop, or one that goes one way.
fn goes_within(
    alloc: Global,
    declarations: &[Declaration],
    outer: u32,
    body: &Stmt,
) -> Result<bool, AllocError>
    ensures { IfOk result (λ r. r ≡ OneWay.goes_within declarations.now outer (stmt_of body.now)) }
{
    match body {
        Stmt::Foreach {
            head,
            filter,
            body,
            ..
        } => goes_one_way(alloc, declarations, outer, *head, filter, body),
        Stmt::Block(_) => Ok(true),
        _ => Ok(true),
    }
}

// Whether that of each loop of a block of a sequential phase is.
#[cycle(asking)]
fn all_go(
    alloc: Global,
    declarations: &[Declaration],
    stmts: &Vec<Stmt>,
) -> Result<bool, AllocError>
    ensures { IfOk result (λ r. r ≡ each_passes (inner_loop_goes declarations.now) (sequence (map stmt_of stmts.now.items))) }
{
    for stmt in stmts {
        if !go(alloc, declarations, stmt)? {
            return Ok(false);
        }
    }
    Ok(true)
}

// The same of a sequential phase.
#[cycle(asking)]
fn go(alloc: Global, declarations: &[Declaration], s: &Stmt) -> Result<bool, AllocError>
    ensures { IfOk result (λ r. r ≡ each_passes (inner_loop_goes declarations.now) (stmt_of s.now)) }
{
    match s {
        Stmt::Block(stmts) => all_go(alloc, declarations, stmts),
        Stmt::Foreach { head, body, .. } => goes_within(alloc, declarations, head.iterator, body),
        Stmt::For { body, .. } => go(alloc, declarations, body),
        Stmt::If { yes, no, .. } => {
            if !go(alloc, declarations, yes)? {
                return Ok(false);
            }
            go(alloc, declarations, no)
        }
        Stmt::While { body, .. } => go(alloc, declarations, body),
        Stmt::Do { body, .. } => go(alloc, declarations, body),
        _ => Ok(true),
    }
}

/// Whether each inner loop of a program that is the body of a loop goes one way, and nothing in it can fault behind a Sum
/// or a Product through a node variable. Of a program whose inner loops are in slices it tells whether each slice does,
/// which is what is to be asked of the program before (`slice_inner_loops`). It takes time linear in the program times the
/// depth of its Ifs.
pub fn has_loops_of_one_way(alloc: Global, program: &Work) -> Result<bool, NoMemory>
    ensures { IfOk result (λ r. r ≡ OneWay.has_loops_of_one_way (program_of program.now)) }
{
    let tree = program.tree();
    let goes = go(alloc, &tree.declarations, &tree.body)?;
    Ok(goes)
}
