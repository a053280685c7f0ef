//! The statements of an outer body, each behind the loops of its reductions.

ghost use Rattle.std.specs.Prelude.{◌≡◌, ◌+◌, IfOk, OnOk, map, option_map};
ghost use Rattle.gm_ast.specs.Program as Program;
ghost use Rattle.gm_ast.specs.Program.{sequence};
ghost use Rattle.gm_ast.specs.Tree.{expr_of, stmt_of};
ghost use Rattle.gm_hoisting.specs.Hoisting.{behind, body_out, count_body};

use crate::expressions::{folds_before, values_before};
use gm_ast::tree::{Expr, Key, Stmt};
use gm_trees::places::put_after_all;
use std::alloc::{AllocError, Global};

// Puts a statement behind others, in a block, if there are any.
#[tactic(auto, using(crate::proofs::Openings::behind_none, crate::proofs::Openings::behind_some))]
pub(crate) fn put_behind(alloc: Global, before: Vec<Stmt>, s: &mut Stmt) -> Result<(), AllocError>
    ensures { OnOk result (stmt_of s.new ≡ behind (map stmt_of before.items) (stmt_of s.old)) }
{
    if before.is_empty() {
        drop(before);
        return Ok(());
    }
    put_after_all(alloc, Some(before), s)?;
    Ok(())
}

// The loops of the reductions of what a declaration sets, if it sets anything. They become the next locals.
fn declared_before(
    alloc: Global,
    next: &mut u32,
    key: Key,
    variable: u32,
    value: &mut Option<Expr>,
) -> Result<Vec<Stmt>, AllocError>
    ensures out { IfOk result (λ r. behind (map stmt_of r.items) (Program.Declare key variable (option_map expr_of value.new)) ≡ body_out next.old (Program.Declare key variable (option_map expr_of value.old))) }
    ensures next { OnOk result (next.new ≡ next.old + count_body (Program.Declare key variable (option_map expr_of value.old))) }
{
    match value {
        None => Ok(Vec::new(alloc)),
        Some(value) => {
            let before = folds_before(alloc, next, key, value)?;
            Ok(before)
        }
    }
}

// The statements of a block come behind the loops of their reductions, which become the next locals.
#[cycle(opening)]
fn body_block(alloc: Global, next: &mut u32, stmts: &mut Vec<Stmt>) -> Result<(), AllocError>
    ensures out { OnOk result (sequence (map stmt_of stmts.new.items) ≡ body_out next.old (sequence (map stmt_of stmts.old.items))) }
    ensures next { OnOk result (next.new ≡ next.old + count_body (sequence (map stmt_of stmts.old.items))) }
{
    for i in 0..stmts.len() {
        body_out(alloc, next, &mut stmts[i])?;
    }
    Ok(())
}

// The same of an outer body in a box.
#[cycle(opening)]
pub(crate) fn body_inner(alloc: Global, next: &mut u32, s: &mut Box<Stmt>) -> Result<(), AllocError>
    ensures out { OnOk result (stmt_of s.new.value ≡ body_out next.old (stmt_of s.old.value)) }
    ensures next { OnOk result (next.new ≡ next.old + count_body (stmt_of s.old.value)) }
{
    body_out(alloc, next, s)?;
    Ok(())
}

// The same of an outer body.
#[cycle(opening)]
fn body_out(alloc: Global, next: &mut u32, s: &mut Stmt) -> Result<(), AllocError>
    ensures out { OnOk result (stmt_of s.new ≡ body_out next.old (stmt_of s.old)) }
    ensures next { OnOk result (next.new ≡ next.old + count_body (stmt_of s.old)) }
{
    match s {
        Stmt::Block(stmts) => body_block(alloc, next, stmts),
        Stmt::Declare {
            key,
            variable,
            value,
        } => {
            let before = declared_before(alloc, next, *key, *variable, value)?;
            put_behind(alloc, before, s)?;
            Ok(())
        }
        Stmt::Assign {
            key,
            target: _target,
            value,
        } => {
            let before = folds_before(alloc, next, *key, value)?;
            put_behind(alloc, before, s)?;
            Ok(())
        }
        Stmt::Defer {
            key,
            target: _target,
            value,
        } => {
            let before = folds_before(alloc, next, *key, value)?;
            put_behind(alloc, before, s)?;
            Ok(())
        }
        Stmt::Reduce {
            key,
            total: _total,
            reduce: _reduce,
            targets: _targets,
            values,
        } => {
            let before = values_before(alloc, next, *key, values)?;
            put_behind(alloc, before, s)?;
            Ok(())
        }
        Stmt::If { key, test, yes, no } => {
            let before = folds_before(alloc, next, *key, test)?;
            let Ok(()) = body_inner(alloc, next, yes) else {
                drop(before);
                return Err(AllocError);
            };
            let Ok(()) = body_inner(alloc, next, no) else {
                drop(before);
                return Err(AllocError);
            };
            put_behind(alloc, before, s)?;
            Ok(())
        }
        _ => Ok(()),
    }
}
