//! Which locals of a loop's body go to properties together.

ghost use Rattle.std.specs.Prelude.{◌≡◌, ◌++◌, IfOk, OnOk, filter, map};
ghost use Rattle.std.specs.List.{list_all};
ghost use Rattle.gm_ast.specs.declared.tree.Sort.TheVariants.{Scalar};
ghost use Rattle.gm_ast.specs.Names.{sort_eq};
ghost use Rattle.gm_ast.specs.Program.{sequence};
ghost use Rattle.gm_ast.specs.Tree.{expr_of, stmt_of};
ghost use Rattle.gm_semantics.specs.Statements.{variable_at};
ghost use Rattle.gm_dissect.specs.Locals as Locals;
ghost use Rattle.gm_locals.specs.AllGroups as AllGroups;
ghost use Rattle.gm_locals.specs.Groups as Groups;

use crate::plain::{may_move, names_plainly};
use gm_ast::tree::{Declaration, Expr, Sort, Stmt};
use gm_dissect::conditions::holds_cut;
use std::alloc::{AllocError, Global};

// Whether a sort is that of scalars.
fn is_scalar_sort(sort: Sort) -> bool
    ensures { result ≡ sort_eq Scalar sort }
{
    matches!(sort, Sort::Scalar)
}

// Whether a variable is a scalar.
fn is_scalar(declarations: &[Declaration], variable: u32) -> bool
    ensures { result ≡ sort_eq Scalar (variable_at declarations.now variable).sort }
{
    match declarations.get(variable as usize) {
        None => true,
        Some(declaration) => is_scalar_sort(declaration.variable.sort),
    }
}

// Whether a block declares a variable, outside of its inner loops.
#[cycle(declaring)]
fn declares_among(stmts: &Vec<Stmt>, variable: u32) -> bool
    ensures { result ≡ Locals.declares variable (sequence (map stmt_of stmts.now.items)) }
{
    for stmt in stmts {
        if declares(stmt, variable) {
            return true;
        }
    }
    false
}

/// Whether a body declares a variable, outside of its inner loops.
#[cycle(declaring)]
pub fn declares(body: &Stmt, variable: u32) -> bool
    ensures { result ≡ Locals.declares variable (stmt_of body.now) }
{
    match body {
        Stmt::Block(stmts) => declares_among(stmts, variable),
        Stmt::Declare {
            variable: other,
            ..
        } => *other == variable,
        Stmt::If { yes, no, .. } => declares(yes, variable) || declares(no, variable),
        _ => false,
    }
}

// Adds the variables that a block declares outside of its inner loops.
#[cycle(listing)]
fn list_block(stmts: &Vec<Stmt>, locals: &mut Vec<u32>) -> Result<(), AllocError>
    ensures { OnOk result (locals.new.items ≡ locals.old.items ++ Locals.locals_of (sequence (map stmt_of stmts.now.items))) }
{
    for stmt in stmts {
        list_body(stmt, locals)?;
    }
    Ok(())
}

// Adds the variables that a body does.
#[cycle(listing)]
fn list_body(body: &Stmt, locals: &mut Vec<u32>) -> Result<(), AllocError>
    ensures { OnOk result (locals.new.items ≡ locals.old.items ++ Locals.locals_of (stmt_of body.now)) }
{
    match body {
        Stmt::Block(stmts) => {
            list_block(stmts, locals)?;
            Ok(())
        }
        Stmt::Declare { variable, .. } => {
            locals.push(*variable)?;
            Ok(())
        }
        Stmt::If { yes, no, .. } => {
            list_body(yes, locals)?;
            list_body(no, locals)?;
            Ok(())
        }
        _ => Ok(()),
    }
}

// Whether a loop may keep a scalar of its body in a property together with some locals.
fn may_keep(
    declarations: &[Declaration],
    locals: &[u32],
    iterator: u32,
    test: &Expr,
    body: &Stmt,
    variable: u32,
) -> bool
    ensures { result ≡ Groups.may_keep declarations.now locals.now iterator (expr_of test.now) (stmt_of body.now) variable }
{
    is_scalar(declarations, variable)
        && (declares(body, variable)
            && (names_plainly(variable, test) && may_move(locals, variable, iterator, body)))
}

// Whether it may keep all of them.
fn may_keep_all(
    declarations: &[Declaration],
    locals: &[u32],
    iterator: u32,
    test: &Expr,
    body: &Stmt,
) -> bool
    ensures { result ≡ list_all (Groups.may_keep declarations.now locals.now iterator (expr_of test.now) (stmt_of body.now)) locals.now }
{
    for local in locals {
        if !may_keep(declarations, locals, iterator, test, body, *local) {
            return false;
        }
    }
    true
}

// Those of them that it may keep.
fn those_kept(
    alloc: Global,
    declarations: &[Declaration],
    locals: &[u32],
    iterator: u32,
    test: &Expr,
    body: &Stmt,
) -> Result<Vec<u32>, AllocError>
    ensures { IfOk result (λ r. r.items ≡ filter (Groups.may_keep declarations.now locals.now iterator (expr_of test.now) (stmt_of body.now)) locals.now) }
{
    let mut kept = Vec::new(alloc);
    for local in locals {
        if may_keep(declarations, locals, iterator, test, body, *local) {
            kept.push(*local)?;
        }
    }
    Ok(kept)
}

// The most of some locals that it may keep together, found in at most so many rounds: each leaves out those that it may
// not keep with the others.
fn most_of(
    alloc: Global,
    rounds: usize,
    declarations: &[Declaration],
    iterator: u32,
    test: &Expr,
    body: &Stmt,
    locals: Vec<u32>,
) -> Result<Vec<u32>, AllocError>
    ensures { IfOk result (λ r. r.items ≡ AllGroups.most_of rounds declarations.now iterator (expr_of test.now) (stmt_of body.now) locals.items) }
{
    let mut locals = locals;
    for _round in 0..rounds {
        if may_keep_all(declarations, &locals, iterator, test, body) {
            return Ok(locals);
        }
        locals = those_kept(alloc, declarations, &locals, iterator, test, body)?;
    }
    Ok(Vec::new(alloc))
}

// The locals that a loop keeps in properties. Each round asks each local of its body, in a walk over the body.
pub(crate) fn group_of(
    alloc: Global,
    declarations: &[Declaration],
    iterator: u32,
    test: &Expr,
    body: &Stmt,
) -> Result<Vec<u32>, AllocError>
    ensures { IfOk result (λ r. r.items ≡ AllGroups.group_of declarations.now iterator (expr_of test.now) (stmt_of body.now)) }
{
    let mut locals = Vec::new(alloc);
    if !holds_cut(iterator, body) {
        return Ok(locals);
    }
    list_body(body, &mut locals)?;
    let rounds = locals.len();
    most_of(alloc, rounds, declarations, iterator, test, body, locals)
}
