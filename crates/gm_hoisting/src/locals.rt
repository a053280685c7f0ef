//! The variables that hoisting adds to the table: a local for each reduction, and a node for each search whose root is
//! checked before it.

ghost use Rattle.std.specs.Prelude.{◌≡◌, ◌++◌, true, false, [], ◌∷◌, IfOk, OnOk, map};
ghost use Rattle.gm_ast.specs.Program as Program;
ghost use Rattle.gm_ast.specs.Tree.{expr_of, stmt_of};
ghost use Rattle.gm_ast.specs.declared.tree.Sort.TheVariants as Sorts;
ghost use Rattle.gm_hoisting.specs.Hoisting as Hoisting;
ghost use Rattle.gm_hoisting.specs.Hoisting.{has_none};

use gm_ast::tree::{Declaration, Expr, Search, Sort, Stmt, Variable};
use gm_base::Items;
use gm_trees::variables::is_in;
use gm_value::VType;
use std::alloc::{AllocError, Global};

// A scalar that no text declares.
fn unnamed(alloc: Global, vtype: VType, depth: u32) -> Declaration
    ensures { result ≡ record { name = []; variable = record { sort = Sorts.Scalar; vtype = vtype; depth = depth } } }
{
    Declaration {
        name: Items::new(Vec::new(alloc)),
        variable: Variable {
            sort: Sort::Scalar,
            vtype,
            depth,
        },
    }
}

// Whether an expression has no reduction.
#[tactic(auto, using(crate::proofs::Openings::none_both))]
pub(crate) fn has_none(e: &Expr) -> bool
    ensures { result ≡ has_none (expr_of e.now) }
{
    match e {
        Expr::Const(_) => true,
        Expr::Var { .. } => true,
        Expr::Property { .. } => true,
        Expr::EdgeProperty { .. } => true,
        Expr::Degree { .. } => true,
        Expr::NodeCount => true,
        Expr::EdgeCount => true,
        Expr::Live { .. } => true,
        Expr::Unary { inner, .. } => has_none(inner),
        Expr::Binary { left, right, .. } => has_none(left) && has_none(right),
        Expr::Both(left, right) => has_none(left) && has_none(right),
        Expr::Either(left, right) => has_none(left) && has_none(right),
        Expr::Choose(test, yes, no) => has_none(test) && (has_none(yes) && has_none(no)),
        Expr::Fold { .. } => false,
    }
}

// Adds the types of an expression's reductions, from left to right.
fn fold_types(e: &Expr, types: &mut Vec<VType>) -> Result<(), AllocError>
    ensures { OnOk result (types.new.items ≡ types.old.items ++ Hoisting.fold_types (expr_of e.now)) }
{
    match e {
        Expr::Const(_) => Ok(()),
        Expr::Var { .. } => Ok(()),
        Expr::Property { .. } => Ok(()),
        Expr::EdgeProperty { .. } => Ok(()),
        Expr::Degree { .. } => Ok(()),
        Expr::NodeCount => Ok(()),
        Expr::EdgeCount => Ok(()),
        Expr::Live { .. } => Ok(()),
        Expr::Unary { inner, .. } => fold_types(inner, types),
        Expr::Binary { left, right, .. } => {
            fold_types(left, types)?;
            fold_types(right, types)
        }
        Expr::Both(left, right) => {
            fold_types(left, types)?;
            fold_types(right, types)
        }
        Expr::Either(left, right) => {
            fold_types(left, types)?;
            fold_types(right, types)
        }
        Expr::Choose(test, yes, no) => {
            fold_types(test, types)?;
            fold_types(yes, types)?;
            fold_types(no, types)
        }
        Expr::Fold { fold, .. } => {
            types.push(fold.vtype)?;
            Ok(())
        }
    }
}

// The same of several values, one after another.
fn all_types(values: &Vec<Expr>, types: &mut Vec<VType>) -> Result<(), AllocError>
    ensures { OnOk result (types.new.items ≡ types.old.items ++ Hoisting.all_types (map expr_of values.now.items)) }
{
    for value in values {
        fold_types(value, types)?;
    }
    Ok(())
}

// The same of the statements of a block.
#[cycle(typing)]
fn types_among(stmts: &Vec<Stmt>, types: &mut Vec<VType>) -> Result<(), AllocError>
    ensures { OnOk result (types.new.items ≡ types.old.items ++ Hoisting.body_types (Program.sequence (map stmt_of stmts.now.items))) }
{
    for stmt in stmts {
        body_types(stmt, types)?;
    }
    Ok(())
}

// The same of an outer body.
#[cycle(typing)]
fn body_types(s: &Stmt, types: &mut Vec<VType>) -> Result<(), AllocError>
    ensures { OnOk result (types.new.items ≡ types.old.items ++ Hoisting.body_types (stmt_of s.now)) }
{
    match s {
        Stmt::Block(stmts) => types_among(stmts, types),
        Stmt::Declare { value, .. } => match value {
            Some(value) => fold_types(value, types),
            None => Ok(()),
        },
        Stmt::Assign { value, .. } => fold_types(value, types),
        Stmt::Defer { value, .. } => fold_types(value, types),
        Stmt::Reduce { values, .. } => all_types(values, types),
        Stmt::If { test, yes, no, .. } => {
            fold_types(test, types)?;
            body_types(yes, types)?;
            body_types(no, types)
        }
        _ => Ok(()),
    }
}

// Adds a local of each type.
fn add_locals(
    alloc: Global,
    types: Vec<VType>,
    declarations: &mut Vec<Declaration>,
) -> Result<(), AllocError>
    ensures { OnOk result (declarations.new.items ≡ declarations.old.items ++ map Hoisting.local types.items) }
{
    for vtype in types {
        declarations.push(unnamed(alloc, vtype, 1))?;
    }
    Ok(())
}

// Adds the locals of a loop over nodes, or of a part of a search.
fn loop_added(
    alloc: Global,
    filter: &Expr,
    body: &Stmt,
    declarations: &mut Vec<Declaration>,
) -> Result<(), AllocError>
    ensures { OnOk result (declarations.new.items ≡ declarations.old.items ++ Hoisting.loop_added (expr_of filter.now) (stmt_of body.now)) }
{
    let mut types = Vec::new(alloc);
    fold_types(filter, &mut types)?;
    body_types(body, &mut types)?;
    add_locals(alloc, types, declarations)
}

// The iterator of a For and those around it.
pub(crate) fn inside(alloc: Global, iterator: u32, around: &[u32]) -> Result<Vec<u32>, AllocError>
    ensures { IfOk result (λ r. r.items ≡ iterator ∷ around.now) }
{
    let mut iterators = Vec::new(alloc);
    iterators.push(iterator)?;
    iterators.extend_from_slice(around)?;
    Ok(iterators)
}

// Whether the root of a search needs no check.
pub(crate) fn is_sure(around: &[u32], search: Search, filter: &Expr) -> bool
    ensures { result ≡ Hoisting.is_sure around.now search (expr_of filter.now) }
{
    has_none(filter) || is_in(around, search.root)
}

// Adds the node that the root of a search is checked in, where it needs a check.
fn check_added(
    alloc: Global,
    sure: bool,
    declarations: &mut Vec<Declaration>,
) -> Result<(), AllocError>
    ensures { OnOk result (declarations.new.items ≡ declarations.old.items ++ Hoisting.check_added sure) }
{
    if sure {
        return Ok(());
    }
    declarations.push(unnamed(alloc, VType::Node, 0))?;
    Ok(())
}

// Adds the variables of the statements of a block.
#[cycle(adding)]
fn added_among(
    alloc: Global,
    around: &[u32],
    stmts: &Vec<Stmt>,
    declarations: &mut Vec<Declaration>,
) -> Result<(), AllocError>
    ensures { OnOk result (declarations.new.items ≡ declarations.old.items ++ Hoisting.phase_added around.now (Program.sequence (map stmt_of stmts.now.items))) }
{
    for stmt in stmts {
        phase_added(alloc, around, stmt, declarations)?;
    }
    Ok(())
}

// Adds the variables of the parallel loops and searches in a For's body.
#[cycle(adding)]
fn added_inside(
    alloc: Global,
    around: &[u32],
    iterator: u32,
    body: &Stmt,
    declarations: &mut Vec<Declaration>,
) -> Result<(), AllocError>
    ensures { OnOk result (declarations.new.items ≡ declarations.old.items ++ Hoisting.phase_added (iterator ∷ around.now) (stmt_of body.now)) }
{
    let iterators = inside(alloc, iterator, around)?;
    let added = phase_added(alloc, &iterators, body, declarations);
    drop(iterators);
    added
}

// Adds the variables of the parallel loops and searches in a part of a sequential phase.
#[cycle(adding)]
pub(crate) fn phase_added(
    alloc: Global,
    around: &[u32],
    s: &Stmt,
    declarations: &mut Vec<Declaration>,
) -> Result<(), AllocError>
    ensures { OnOk result (declarations.new.items ≡ declarations.old.items ++ Hoisting.phase_added around.now (stmt_of s.now)) }
{
    match s {
        Stmt::Block(stmts) => added_among(alloc, around, stmts, declarations),
        Stmt::Foreach { filter, body, .. } => loop_added(alloc, filter, body, declarations),
        Stmt::For { head, body, .. } => {
            added_inside(alloc, around, head.iterator, body, declarations)
        }
        Stmt::If { yes, no, .. } => {
            phase_added(alloc, around, yes, declarations)?;
            phase_added(alloc, around, no, declarations)
        }
        Stmt::While { body, .. } => phase_added(alloc, around, body, declarations),
        Stmt::Do { body, .. } => phase_added(alloc, around, body, declarations),
        Stmt::InBfs {
            search,
            filter,
            body,
            ..
        } => {
            check_added(alloc, is_sure(around, *search, filter), declarations)?;
            loop_added(alloc, filter, body, declarations)
        }
        Stmt::InBfsBoth {
            search,
            filter,
            body,
            back_filter,
            back,
            ..
        } => {
            check_added(alloc, is_sure(around, *search, filter), declarations)?;
            loop_added(alloc, filter, body, declarations)?;
            loop_added(alloc, back_filter, back, declarations)
        }
        _ => Ok(()),
    }
}
