//! Which ways inner loops may go: evaluated at the outer node, or at one end for each message from the other.

ghost use Rattle.std.specs.Prelude.{◌≡◌, ◌∷◌, [], false, true, map};
ghost use Rattle.std.specs.List.{list_all};
ghost use Rattle.gm_ast.specs.Program.{sequence};
ghost use Rattle.gm_ast.specs.Tree.{expr_of, stmt_of};
ghost use Rattle.gm_forms.specs.Forms as Forms;
ghost use Rattle.gm_forms.specs.Typing as Typing;

use crate::reads::{are_flat, is_against, is_along, is_flat, may_be_flat};
use gm_ast::tree::{Declaration, Expr, Head, Stmt, Target};
use gm_value::Reduce;

/// How many parallel loops are around a variable's declaration.
pub fn depth_at(declarations: &[Declaration], variable: u32) -> u32
    ensures { result ≡ Forms.depth_at declarations.now variable }
{
    match declarations.get(variable as usize) {
        None => 0,
        Some(declaration) => declaration.variable.depth,
    }
}

/// Whether a target is a local of an inner body.
pub fn is_inner_local(declarations: &[Declaration], target: Target) -> bool
    ensures { result ≡ Forms.is_inner_local declarations.now target }
{
    match target {
        Target::Scalar { variable, .. } => depth_at(declarations, variable) == 2,
        Target::Property { .. } => false,
    }
}

// Whether an inner body may contribute to a target.
fn is_inner_given(declarations: &[Declaration], target: Target) -> bool
    ensures { result ≡ Forms.is_inner_given declarations.now target }
{
    match target {
        Target::Scalar { variable, .. } => depth_at(declarations, variable) < 2,
        Target::Property { .. } => true,
    }
}

// Whether an inner body may pick for a target.
fn is_within(declarations: &[Declaration], target: Target) -> bool
    ensures { result ≡ Forms.is_within declarations.now 2 target }
{
    match target {
        Target::Scalar { variable, .. } => depth_at(declarations, variable) <= 2,
        Target::Property { .. } => true,
    }
}

// Whether an inner body may contribute to some targets.
fn are_given(declarations: &[Declaration], targets: &[Target]) -> bool
    ensures { result ≡ list_all (Forms.is_inner_given declarations.now) targets.now }
{
    targets
        .iter()
        .all(|target| is_inner_given(declarations, *target))
}

// Whether it may pick for some targets.
fn are_within(declarations: &[Declaration], targets: &[Target]) -> bool
    ensures { result ≡ list_all (Forms.is_within declarations.now 2) targets.now }
{
    targets
        .iter()
        .all(|target| is_within(declarations, *target))
}

// Whether a reduction keeps one tuple whole.
fn keeps_tuples(reduce: Reduce) -> bool
    ensures { result ≡ Typing.keeps_tuples reduce }
{
    matches!(reduce, Reduce::Min | Reduce::Max)
}

// Whether an inner body may reduce to some targets.
fn are_reduced(declarations: &[Declaration], reduce: Reduce, targets: &[Target]) -> bool
    ensures { result ≡ Forms.are_reduced (Forms.is_inner_given declarations.now) (Forms.is_within declarations.now 2) reduce targets.now }
{
    are_given(declarations, targets) || (keeps_tuples(reduce) && are_within(declarations, targets))
}

// Whether the statements of a block are those of an inner body.
#[cycle(inner)]
fn are_inner(declarations: &[Declaration], iterators: &[u32], edge: bool, stmts: &Vec<Stmt>) -> bool
    ensures { result ≡ Forms.is_inner_body declarations.now iterators.now edge (sequence (map stmt_of stmts.now.items)) }
{
    for stmt in stmts {
        if !is_inner_body(declarations, iterators, edge, stmt) {
            return false;
        }
    }
    true
}

/// Whether a statement is an inner body that reads properties and degrees through some iterators alone, and an edge's where
/// one is at hand.
#[cycle(inner)]
pub fn is_inner_body(declarations: &[Declaration], iterators: &[u32], edge: bool, s: &Stmt) -> bool
    ensures { result ≡ Forms.is_inner_body declarations.now iterators.now edge (stmt_of s.now) }
{
    match s {
        Stmt::Block(stmts) => are_inner(declarations, iterators, edge, stmts),
        Stmt::Declare {
            variable,
            value,
            ..
        } => depth_at(declarations, *variable) == 2 && may_be_flat(iterators, edge, value),
        Stmt::DeclareEdge { .. } => true,
        Stmt::Assign { target, value, .. } => {
            is_inner_local(declarations, *target) && is_flat(iterators, edge, value)
        }
        Stmt::Reduce {
            reduce,
            targets,
            values,
            ..
        } => are_reduced(declarations, *reduce, targets) && are_flat(iterators, edge, values),
        Stmt::If { test, yes, no, .. } => {
            is_flat(iterators, edge, test)
                && is_inner_body(declarations, iterators, edge, yes)
                && is_inner_body(declarations, iterators, edge, no)
        }
        _ => false,
    }
}

// Whether no reduction of a block's statements goes to a property through an iterator.
#[cycle(avoiding)]
fn all_avoid(iterator: u32, stmts: &Vec<Stmt>) -> bool
    ensures { result ≡ Forms.avoids iterator (sequence (map stmt_of stmts.now.items)) }
{
    for stmt in stmts {
        if !avoids(iterator, stmt) {
            return false;
        }
    }
    true
}

/// Whether no target is a property through an iterator.
pub fn are_off(iterator: u32, targets: &[Target]) -> bool
    ensures { result ≡ list_all (Forms.is_off iterator) targets.now }
{
    targets.iter().all(|target| match *target {
        Target::Scalar { .. } => true,
        Target::Property { owner, .. } => owner != iterator,
    })
}

/// Whether no reduction of a body goes to a property through an iterator.
#[cycle(avoiding)]
pub fn avoids(iterator: u32, s: &Stmt) -> bool
    ensures { result ≡ Forms.avoids iterator (stmt_of s.now) }
{
    match s {
        Stmt::Block(stmts) => all_avoid(iterator, stmts),
        Stmt::Reduce { targets, .. } => are_off(iterator, targets),
        Stmt::If { yes, no, .. } => avoids(iterator, yes) && avoids(iterator, no),
        _ => true,
    }
}

/// Whether an inner loop is evaluated at the outer node, for each of its edges.
pub fn is_home(
    declarations: &[Declaration],
    outer: u32,
    head: Head,
    filter: &Expr,
    body: &Stmt,
) -> bool
    ensures { result ≡ Forms.is_home declarations.now outer head (expr_of filter.now) (stmt_of body.now) }
{
    let edge = is_along(head.domain);
    is_flat(&[outer], edge, filter)
        && is_inner_body(declarations, &[outer], edge, body)
        && avoids(head.iterator, body)
}

/// Whether an inner loop is evaluated at the inner node, for each message from an outer one.
pub fn is_push(
    declarations: &[Declaration],
    outer: u32,
    head: Head,
    filter: &Expr,
    body: &Stmt,
) -> bool
    ensures { result ≡ Forms.is_push declarations.now outer head (expr_of filter.now) (stmt_of body.now) }
{
    let edge = is_along(head.domain);
    let ends = [outer, head.iterator];
    is_flat(&ends, edge, filter)
        && is_inner_body(declarations, &ends, edge, body)
        && avoids(outer, body)
}

/// Whether an inner loop is evaluated at the outer node, for each message from an inner one.
pub fn is_pull(
    declarations: &[Declaration],
    outer: u32,
    head: Head,
    filter: &Expr,
    body: &Stmt,
) -> bool
    ensures { result ≡ Forms.is_pull declarations.now outer head (expr_of filter.now) (stmt_of body.now) }
{
    let edge = is_against(head.domain);
    let ends = [outer, head.iterator];
    is_flat(&ends, edge, filter)
        && is_inner_body(declarations, &ends, edge, body)
        && avoids(head.iterator, body)
}

/// Whether an inner loop goes one way, so that it is evaluated at one end of its edges. It takes time linear in the loop,
/// and no memory.
pub fn has_a_way(
    declarations: &[Declaration],
    outer: u32,
    head: Head,
    filter: &Expr,
    body: &Stmt,
) -> bool
    ensures { result ≡ Forms.has_a_way declarations.now outer head (expr_of filter.now) (stmt_of body.now) }
{
    is_home(declarations, outer, head, filter, body)
        || is_push(declarations, outer, head, filter, body)
        || is_pull(declarations, outer, head, filter, body)
}
