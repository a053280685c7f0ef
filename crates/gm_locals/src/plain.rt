//! Whether a local of a body may be kept in a property: nothing is reached through it, and it is reduced alone.

ghost use Rattle.std.specs.Prelude.{◌≡◌, ◌∷◌, [], map, option_map};
ghost use Rattle.std.specs.List.{list_all};
ghost use Rattle.gm_ast.specs.Program.{sequence};
ghost use Rattle.gm_ast.specs.Tree.{expr_of, stmt_of};
ghost use Rattle.gm_loop_laws.specs.Localised as Localised;
ghost use Rattle.gm_locals.specs.Groups as Groups;

use gm_ast::tree::{Expr, Stmt, Target};
use gm_trees::variables::is_in;

// Whether an expression without reductions reads a variable at most by its name: nothing is read through it.
pub(crate) fn names_plainly(variable: u32, e: &Expr) -> bool
    ensures { result ≡ Localised.names_plainly variable (expr_of e.now) }
{
    match e {
        Expr::Property { owner, .. } | Expr::Degree { owner, .. } => *owner != variable,
        Expr::Live {
            variable: other,
            ..
        } => *other != variable,
        Expr::Unary { inner, .. } => names_plainly(variable, inner),
        Expr::Binary { left, right, .. } | Expr::Both(left, right) | Expr::Either(left, right) => {
            names_plainly(variable, left) && names_plainly(variable, right)
        }
        Expr::Choose(test, yes, no) => {
            names_plainly(variable, test)
                && (names_plainly(variable, yes) && names_plainly(variable, no))
        }
        Expr::Fold { .. } => false,
        _ => true,
    }
}

// Whether an expression does that may be absent.
fn option_plainly(variable: u32, e: &Option<Expr>) -> bool
    ensures { result ≡ Localised.option_plainly variable (option_map expr_of e.now) }
{
    match e {
        None => true,
        Some(e) => names_plainly(variable, e),
    }
}

// Whether all of some expressions do.
fn all_plainly(variable: u32, values: &[Expr]) -> bool
    ensures { result ≡ list_all (Localised.names_plainly variable) (map expr_of values.now) }
{
    for value in values {
        if !names_plainly(variable, value) {
            return false;
        }
    }
    true
}

// Whether a target is neither of two scalars, nor reached through the first.
fn is_apart(variable: u32, outer: u32, target: Target) -> bool
    ensures { result ≡ Localised.is_apart variable outer target }
{
    match target {
        Target::Scalar {
            variable: other,
            ..
        } => other != variable && other != outer,
        Target::Property { owner, .. } => owner != variable,
    }
}

// Whether all of some targets are.
fn all_apart(variable: u32, outer: u32, targets: &[Target]) -> bool
    ensures { result ≡ list_all (Localised.is_apart variable outer) targets.now }
{
    targets
        .iter()
        .all(|target| is_apart(variable, outer, *target))
}

// Whether a target is a variable.
fn is_it(variable: u32, target: Target) -> bool
    ensures { result ≡ Localised.is_it variable (target ∷ []) }
{
    match target {
        Target::Scalar {
            variable: other,
            ..
        } => other == variable,
        Target::Property { .. } => false,
    }
}

// Whether a target is one of some scalars.
fn is_among(locals: &[u32], target: Target) -> bool
    ensures { result ≡ Groups.is_among locals.now target }
{
    match target {
        Target::Scalar { variable, .. } => is_in(locals, variable),
        Target::Property { .. } => false,
    }
}

// Whether all of some targets are.
fn all_among(locals: &[u32], targets: &[Target]) -> bool
    ensures { result ≡ list_all (Groups.is_among locals.now) targets.now }
{
    for target in targets {
        if !is_among(locals, *target) {
            return false;
        }
    }
    true
}

// Whether a local of a block may be kept in a property together with others.
#[cycle(moving)]
fn may_move_among(locals: &[u32], variable: u32, outer: u32, stmts: &Vec<Stmt>) -> bool
    ensures { result ≡ Groups.may_move_within locals.now variable outer (sequence (map stmt_of stmts.now.items)) }
{
    for stmt in stmts {
        if !may_move(locals, variable, outer, stmt) {
            return false;
        }
    }
    true
}

// Whether a local of a body may: nothing is reached through it, it is reduced with the others alone, and the iterator is
// not written.
#[cycle(moving)]
pub(crate) fn may_move(locals: &[u32], variable: u32, outer: u32, body: &Stmt) -> bool
    ensures { result ≡ Groups.may_move_within locals.now variable outer (stmt_of body.now) }
{
    match body {
        Stmt::Block(stmts) => may_move_among(locals, variable, outer, stmts),
        Stmt::Declare {
            variable: other,
            value,
            ..
        } => *other != outer && option_plainly(variable, value),
        Stmt::Assign { target, value, .. } => {
            (is_apart(variable, outer, *target) || is_it(variable, *target))
                && names_plainly(variable, value)
        }
        Stmt::Defer { target, value, .. } => {
            is_apart(variable, outer, *target) && names_plainly(variable, value)
        }
        Stmt::Reduce {
            targets,
            values,
            ..
        } => {
            (all_apart(variable, outer, targets) || all_among(locals, targets))
                && all_plainly(variable, values)
        }
        Stmt::If { test, yes, no, .. } => {
            names_plainly(variable, test)
                && (may_move(locals, variable, outer, yes) && may_move(locals, variable, outer, no))
        }
        Stmt::Foreach {
            head,
            filter,
            body,
            ..
        } => {
            head.owner != variable
                && (head.iterator != variable
                    && (head.iterator != outer
                        && (names_plainly(variable, filter)
                            && may_move(locals, variable, outer, body))))
        }
        _ => true,
    }
}
