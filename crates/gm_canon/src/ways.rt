//! The ways of the reductions in a program's inner loops, in the order of the text.

ghost use Rattle.std.specs.Prelude.{◌≡◌, ◌++◌, IfOk, OnOk, map};
ghost use Rattle.gm_ast.specs.Canonical.{ways_in, ways_inside};
ghost use Rattle.gm_ast.specs.Program.{sequence};
ghost use Rattle.gm_ast.specs.Tree.{stmt_of};

use gm_ast::tree::Stmt;
use gm_ast::ways::Way;
use gm_push_pull::ways_in_loop;
use std::alloc::{AllocError, Global};

// Adds the ways in the inner loops of the statements of a block that is directly in an outermost loop.
#[cycle(inside)]
fn block_inside(alloc: Global, stmts: &Vec<Stmt>, ways: &mut Vec<Way>) -> Result<(), AllocError>
    ensures { OnOk result (ways.new.items ≡ ways.old.items ++ ways_inside (sequence (map stmt_of stmts.now.items))) }
{
    for stmt in stmts {
        add_inside(alloc, stmt, ways)?;
    }
    Ok(())
}

// Adds the ways in the inner loops of a statement that is directly in an outermost loop.
#[cycle(inside)]
fn add_inside(alloc: Global, s: &Stmt, ways: &mut Vec<Way>) -> Result<(), AllocError>
    ensures { OnOk result (ways.new.items ≡ ways.old.items ++ ways_inside (stmt_of s.now)) }
{
    match s {
        Stmt::Block(stmts) => {
            block_inside(alloc, stmts, ways)?;
            Ok(())
        }
        Stmt::If { yes, no, .. } => {
            add_inside(alloc, yes, ways)?;
            add_inside(alloc, no, ways)?;
            Ok(())
        }
        Stmt::Foreach {
            head,
            filter,
            body,
            ..
        } => {
            let found = ways_in_loop(alloc, head, filter, body)?;
            ways.extend_from_slice(&found.ways)?;
            Ok(())
        }
        _ => Ok(()),
    }
}

// Adds the ways in the inner loops of the statements of a block in a sequential phase.
#[cycle(outside)]
fn block_in(alloc: Global, stmts: &Vec<Stmt>, ways: &mut Vec<Way>) -> Result<(), AllocError>
    ensures { OnOk result (ways.new.items ≡ ways.old.items ++ ways_in (sequence (map stmt_of stmts.now.items))) }
{
    for stmt in stmts {
        add_in(alloc, stmt, ways)?;
    }
    Ok(())
}

// Adds the ways in the inner loops of a statement in a sequential phase.
#[cycle(outside)]
fn add_in(alloc: Global, s: &Stmt, ways: &mut Vec<Way>) -> Result<(), AllocError>
    ensures { OnOk result (ways.new.items ≡ ways.old.items ++ ways_in (stmt_of s.now)) }
{
    match s {
        Stmt::Block(stmts) => {
            block_in(alloc, stmts, ways)?;
            Ok(())
        }
        Stmt::If { yes, no, .. } => {
            add_in(alloc, yes, ways)?;
            add_in(alloc, no, ways)?;
            Ok(())
        }
        Stmt::Foreach { body, .. } => {
            add_inside(alloc, body, ways)?;
            Ok(())
        }
        Stmt::For { body, .. } => {
            add_in(alloc, body, ways)?;
            Ok(())
        }
        Stmt::While { body, .. } => {
            add_in(alloc, body, ways)?;
            Ok(())
        }
        Stmt::Do { body, .. } => {
            add_in(alloc, body, ways)?;
            Ok(())
        }
        Stmt::InBfs { body, .. } => {
            add_inside(alloc, body, ways)?;
            Ok(())
        }
        Stmt::InBfsBoth { body, back, .. } => {
            add_inside(alloc, body, ways)?;
            add_inside(alloc, back, ways)?;
            Ok(())
        }
        _ => Ok(()),
    }
}

// The ways of the reductions in the inner loops of a procedure's body.
pub fn ways_of(alloc: Global, body: &Stmt) -> Result<Vec<Way>, AllocError>
    ensures { IfOk result (λ ways. ways.items ≡ ways_in (stmt_of body.now)) }
{
    let mut ways = Vec::new(alloc);
    add_in(alloc, body, &mut ways)?;
    Ok(ways)
}
