//! Inner bodies that are one reduction, of which the conditions join the inner loop's filter.

ghost use Rattle.std.specs.Prelude.{◌≡◌, IfOk, OnOk, map};
ghost use Rattle.gm_ast.specs.Program.{sequence};
ghost use Rattle.gm_ast.specs.Tree.{expr_of, stmt_of};
ghost use Rattle.gm_outward.specs.Gathered as Gathered;

use crate::conditions::{always, together};
use gm_ast::tree::{Expr, Stmt};
use gm_facts::faults::cannot_fail;
use gm_trees::places::{beside, put, taken, taken_value};
use std::alloc::{AllocError, Global};

// Whether the statements of a block do nothing.
#[cycle(idle)]
fn are_idle(stmts: &Vec<Stmt>) -> bool
    ensures { result ≡ Gathered.is_idle (sequence (map stmt_of stmts.now.items)) }
{
    for stmt in stmts {
        if !is_idle(stmt) {
            return false;
        }
    }
    true
}

// Whether a statement does nothing.
#[cycle(idle)]
fn is_idle(s: &Stmt) -> bool
    ensures { result ≡ Gathered.is_idle (stmt_of s.now) }
{
    match s {
        Stmt::Block(stmts) => are_idle(stmts),
        Stmt::DeclareEdge { .. } => true,
        _ => false,
    }
}

// Whether the statements of a block are one reduction under conditions, and others that do nothing.
#[cycle(lone)]
fn are_lone(stmts: &Vec<Stmt>) -> bool
    ensures { result ≡ Gathered.is_one_reduction (sequence (map stmt_of stmts.now.items)) }
{
    let mut found = false;
    for stmt in stmts {
        if !is_idle(stmt) {
            if found || !is_one_reduction(stmt) {
                return false;
            }
            found = true;
        }
    }
    found
}

// Whether a body is one reduction, under conditions that cannot fault and have no other branch.
#[cycle(lone)]
fn is_one_reduction(s: &Stmt) -> bool
    ensures { result ≡ Gathered.is_one_reduction (stmt_of s.now) }
{
    match s {
        Stmt::Block(stmts) => are_lone(stmts),
        Stmt::Reduce { .. } => true,
        Stmt::If { test, yes, no, .. } => {
            cannot_fail(test) && (is_one_reduction(yes) && is_idle(no))
        }
        _ => false,
    }
}

// The conditions and the reduction of the statements of a block.
#[cycle(lifting)]
fn lift_block(alloc: Global, stmts: &mut Vec<Stmt>) -> Result<(Expr, Stmt), AllocError>
    ensures conditions { IfOk result (λ r. expr_of r.0 ≡ Gathered.conditions (sequence (map stmt_of stmts.old.items))) }
    ensures reduction { IfOk result (λ r. stmt_of r.1 ≡ Gathered.reduction (sequence (map stmt_of stmts.old.items))) }
{
    for i in 0..stmts.len() {
        if !is_idle(&stmts[i]) {
            return lift(alloc, &mut stmts[i]);
        }
    }
    Ok((always(), Stmt::Block(Vec::new(alloc))))
}

// Those of a body in a box.
#[cycle(lifting)]
fn lift_part(alloc: Global, s: &mut Box<Stmt>) -> Result<(Expr, Stmt), AllocError>
    ensures conditions { IfOk result (λ r. expr_of r.0 ≡ Gathered.conditions (stmt_of s.old.value)) }
    ensures reduction { IfOk result (λ r. stmt_of r.1 ≡ Gathered.reduction (stmt_of s.old.value)) }
{
    lift(alloc, s)
}

// The conditions of a body, and its reduction.
#[cycle(lifting)]
fn lift(alloc: Global, s: &mut Stmt) -> Result<(Expr, Stmt), AllocError>
    ensures conditions { IfOk result (λ r. expr_of r.0 ≡ Gathered.conditions (stmt_of s.old)) }
    ensures reduction { IfOk result (λ r. stmt_of r.1 ≡ Gathered.reduction (stmt_of s.old)) }
{
    match s {
        Stmt::Block(stmts) => lift_block(alloc, stmts),
        Stmt::If { test, yes, .. } => {
            let (inner, reduction) = lift_part(alloc, yes)?;
            let (reduction, conditions) = beside(
                reduction,
                together(alloc, taken_value(test), inner),
            )?;
            Ok((conditions, reduction))
        }
        _ => Ok((always(), taken(alloc, s))),
    }
}

// The filter of an inner loop takes the conditions of the loop's body, where that is one reduction.
pub(crate) fn gather(alloc: Global, filter: &mut Expr, body: &mut Stmt) -> Result<(), AllocError>
    ensures filter { OnOk result (expr_of filter.new ≡ Gathered.gathered_filter (expr_of filter.old) (stmt_of body.old)) }
    ensures body { OnOk result (stmt_of body.new ≡ Gathered.gathered_body (stmt_of body.old)) }
{
    if !is_one_reduction(body) {
        return Ok(());
    }
    let (conditions, reduction) = lift(alloc, body)?;
    put(body, reduction);
    let both = together(alloc, taken_value(filter), conditions)?;
    put(filter, both);
    Ok(())
}
