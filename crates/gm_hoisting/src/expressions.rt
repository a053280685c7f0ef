//! The reductions of expressions, each as a loop before what follows.

ghost use Rattle.std.specs.Prelude.{◌≡◌, ◌+◌, ◌++◌, IfOk, OnOk, map};
ghost use Rattle.gm_ast.specs.Tree.{expr_of, stmt_of};
ghost use Rattle.gm_hoisting.specs.Hoisting as Hoisting;
ghost use Rattle.gm_hoisting.specs.Hoisting.{count_folds};

use crate::folds::fold_set;
use crate::totals::placed;
use gm_ast::tree::{Expr, Fold, Head, Key, Stmt};
use gm_desugar::conditions::asked;
use gm_desugar::reads::take_next;
use gm_trees::places::put;
use std::alloc::{AllocError, Global};

// Adds the loop of a reduction onto the next local, and answers the local. The filter and the value of the reduction are
// taken out.
fn fold_out(
    alloc: Global,
    next: &mut u32,
    key: Key,
    fold: Fold,
    head: Head,
    filter: &mut Box<Expr>,
    body: &mut Box<Expr>,
    before: &mut Vec<Stmt>,
) -> Result<u32, AllocError>
    ensures variable { IfOk result (λ n. n ≡ next.old) }
    ensures before { OnOk result (map stmt_of before.new.items ≡ map stmt_of before.old.items ++ Hoisting.fold_set next.old key (Hoisting.placed fold head (expr_of filter.old.value) (expr_of body.old.value)) head (expr_of filter.old.value) (expr_of body.old.value)) }
    ensures next { OnOk result (next.new ≡ next.old + 1) }
{
    let fold = placed(fold, head, filter, body)?;
    let variable = take_next(next)?;
    fold_set(alloc, variable, key, fold, head, filter, body, before)?;
    Ok(variable)
}

// The reductions of an expression in a box become the next locals, and their loops are added.
#[cycle(telling)]
fn folds_inner(
    alloc: Global,
    next: &mut u32,
    key: Key,
    e: &mut Box<Expr>,
    before: &mut Vec<Stmt>,
) -> Result<(), AllocError>
    ensures told { OnOk result (expr_of e.new.value ≡ Hoisting.told_from next.old (expr_of e.old.value)) }
    ensures before { OnOk result (map stmt_of before.new.items ≡ map stmt_of before.old.items ++ Hoisting.folds_set next.old key (expr_of e.old.value)) }
    ensures next { OnOk result (next.new ≡ next.old + count_folds (expr_of e.old.value)) }
{
    folds_out(alloc, next, key, e, before)?;
    Ok(())
}

// The reductions of an expression become the next locals, from left to right, and their loops are added.
#[cycle(telling)]
fn folds_out(
    alloc: Global,
    next: &mut u32,
    key: Key,
    e: &mut Expr,
    before: &mut Vec<Stmt>,
) -> Result<(), AllocError>
    ensures told { OnOk result (expr_of e.new ≡ Hoisting.told_from next.old (expr_of e.old)) }
    ensures before { OnOk result (map stmt_of before.new.items ≡ map stmt_of before.old.items ++ Hoisting.folds_set next.old key (expr_of e.old)) }
    ensures next { OnOk result (next.new ≡ next.old + count_folds (expr_of e.old)) }
{
    match e {
        Expr::Fold {
            fold,
            head,
            filter,
            body,
        } => {
            let variable = fold_out(alloc, next, key, *fold, *head, filter, body, before)?;
            put(e, asked(variable));
            Ok(())
        }
        Expr::Unary { inner, .. } => folds_inner(alloc, next, key, inner, before),
        Expr::Binary { left, right, .. } => {
            folds_inner(alloc, next, key, left, before)?;
            folds_inner(alloc, next, key, right, before)
        }
        Expr::Both(left, right) => {
            folds_inner(alloc, next, key, left, before)?;
            folds_inner(alloc, next, key, right, before)
        }
        Expr::Either(left, right) => {
            folds_inner(alloc, next, key, left, before)?;
            folds_inner(alloc, next, key, right, before)
        }
        Expr::Choose(test, yes, no) => {
            folds_inner(alloc, next, key, test, before)?;
            folds_inner(alloc, next, key, yes, before)?;
            folds_inner(alloc, next, key, no, before)
        }
        _ => Ok(()),
    }
}

// The same of several values, one after another.
fn values_out(
    alloc: Global,
    next: &mut u32,
    key: Key,
    values: &mut Vec<Expr>,
    before: &mut Vec<Stmt>,
) -> Result<(), AllocError>
    ensures told { OnOk result (map expr_of values.new.items ≡ Hoisting.all_told next.old (map expr_of values.old.items)) }
    ensures before { OnOk result (map stmt_of before.new.items ≡ map stmt_of before.old.items ++ Hoisting.all_set next.old key (map expr_of values.old.items)) }
    ensures next { OnOk result (next.new ≡ next.old + Hoisting.count_all (map expr_of values.old.items)) }
{
    for i in 0..values.len() {
        folds_out(alloc, next, key, &mut values[i], before)?;
    }
    Ok(())
}

// The loops of an expression's reductions, which become the next locals.
pub(crate) fn folds_before(
    alloc: Global,
    next: &mut u32,
    key: Key,
    e: &mut Expr,
) -> Result<Vec<Stmt>, AllocError>
    ensures before { IfOk result (λ r. map stmt_of r.items ≡ Hoisting.folds_set next.old key (expr_of e.old)) }
    ensures told { OnOk result (expr_of e.new ≡ Hoisting.told_from next.old (expr_of e.old)) }
    ensures next { OnOk result (next.new ≡ next.old + count_folds (expr_of e.old)) }
{
    let mut before = Vec::new(alloc);
    match folds_out(alloc, next, key, e, &mut before) {
        Ok(()) => Ok(before),
        Err(error) => {
            drop(before);
            Err(error)
        }
    }
}

// The loops of the reductions of several values, which become the next locals.
pub(crate) fn values_before(
    alloc: Global,
    next: &mut u32,
    key: Key,
    values: &mut Vec<Expr>,
) -> Result<Vec<Stmt>, AllocError>
    ensures before { IfOk result (λ r. map stmt_of r.items ≡ Hoisting.all_set next.old key (map expr_of values.old.items)) }
    ensures told { OnOk result (map expr_of values.new.items ≡ Hoisting.all_told next.old (map expr_of values.old.items)) }
    ensures next { OnOk result (next.new ≡ next.old + Hoisting.count_all (map expr_of values.old.items)) }
{
    let mut before = Vec::new(alloc);
    match values_out(alloc, next, key, values, &mut before) {
        Ok(()) => Ok(before),
        Err(error) => {
            drop(before);
            Err(error)
        }
    }
}
