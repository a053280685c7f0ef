//! Which variables expressions name.

ghost use Rattle.std.specs.Prelude.{◌≡◌, map, option_map};
ghost use Rattle.std.specs.List.{list_all};
ghost use Rattle.gm_ast.specs.Tree.{expr_of};
ghost use Rattle.gm_forms.specs.Forms as Forms;
ghost use Rattle.gm_lowering.specs.Layouts as Layouts;
ghost use Rattle.gm_plain_loops.specs.Tests as Tests;

use gm_ast::tree::{Declaration, Expr, Sort, Variable};
use gm_message::{is_global, variable_at};
use gm_trees::variables::is_in;

// Whether a variable has a value of its own.
fn has_value(variable: Variable) -> bool
    ensures { result ≡ Layouts.has_value variable }
{
    matches!(variable.sort, Sort::Scalar | Sort::Iterator)
}

// Whether a variable is one of some iterators, or a scalar or a node of the procedure.
fn is_around(declarations: &[Declaration], iterators: &[u32], variable: u32) -> bool
    ensures { result ≡ Tests.is_around declarations.now iterators.now variable }
{
    is_in(iterators, variable) || is_global(variable_at(declarations, variable))
}

// Whether a variable is one of some iterators, or has a value.
fn is_told(declarations: &[Declaration], iterators: &[u32], variable: u32) -> bool
    ensures { result ≡ Tests.is_told declarations.now iterators.now variable }
{
    is_in(iterators, variable) || has_value(variable_at(declarations, variable))
}

/// Whether an expression names no local of loops, and no graph but as one of some iterators.
pub fn asks_around(declarations: &[Declaration], iterators: &[u32], e: &Expr) -> bool
    ensures { result ≡ Tests.asks_around declarations.now iterators.now (expr_of e.now) }
{
    match e {
        Expr::Var { variable, .. } | Expr::Live { variable, .. } => {
            is_around(declarations, iterators, *variable)
        }
        Expr::Unary { inner, .. } => asks_around(declarations, iterators, inner),
        Expr::Binary { left, right, .. } => {
            asks_around(declarations, iterators, left)
                && asks_around(declarations, iterators, right)
        }
        Expr::Both(left, right) | Expr::Either(left, right) => {
            asks_around(declarations, iterators, left)
                && asks_around(declarations, iterators, right)
        }
        Expr::Choose(test, yes, no) => {
            asks_around(declarations, iterators, test)
                && (asks_around(declarations, iterators, yes)
                    && asks_around(declarations, iterators, no))
        }
        Expr::Const(_)
        | Expr::Property { .. }
        | Expr::EdgeProperty { .. }
        | Expr::Degree { .. }
        | Expr::NodeCount
        | Expr::EdgeCount
        | Expr::Fold { .. } => true,
    }
}

/// The same of an expression that may be absent.
pub fn may_ask_around(declarations: &[Declaration], iterators: &[u32], value: &Option<Expr>) -> bool
    ensures { result ≡ Forms.may (Tests.asks_around declarations.now iterators.now) (option_map expr_of value.now) }
{
    match value {
        None => true,
        Some(value) => asks_around(declarations, iterators, value),
    }
}

/// The same of some expressions.
pub fn all_ask_around(declarations: &[Declaration], iterators: &[u32], values: &[Expr]) -> bool
    ensures { result ≡ list_all (Tests.asks_around declarations.now iterators.now) (map expr_of values.now) }
{
    for value in values {
        if !asks_around(declarations, iterators, value) {
            return false;
        }
    }
    true
}

/// Whether an expression names no graph but as one of some iterators, and checks no local.
pub fn asks_inside(declarations: &[Declaration], iterators: &[u32], e: &Expr) -> bool
    ensures { result ≡ Tests.asks_inside declarations.now iterators.now (expr_of e.now) }
{
    match e {
        Expr::Var { variable, .. } => is_told(declarations, iterators, *variable),
        Expr::Live { variable, .. } => is_around(declarations, iterators, *variable),
        Expr::Unary { inner, .. } => asks_inside(declarations, iterators, inner),
        Expr::Binary { left, right, .. } => {
            asks_inside(declarations, iterators, left)
                && asks_inside(declarations, iterators, right)
        }
        Expr::Both(left, right) | Expr::Either(left, right) => {
            asks_inside(declarations, iterators, left)
                && asks_inside(declarations, iterators, right)
        }
        Expr::Choose(test, yes, no) => {
            asks_inside(declarations, iterators, test)
                && (asks_inside(declarations, iterators, yes)
                    && asks_inside(declarations, iterators, no))
        }
        Expr::Const(_)
        | Expr::Property { .. }
        | Expr::EdgeProperty { .. }
        | Expr::Degree { .. }
        | Expr::NodeCount
        | Expr::EdgeCount
        | Expr::Fold { .. } => true,
    }
}

/// The same of an expression that may be absent.
pub fn may_ask_inside(declarations: &[Declaration], iterators: &[u32], value: &Option<Expr>) -> bool
    ensures { result ≡ Forms.may (Tests.asks_inside declarations.now iterators.now) (option_map expr_of value.now) }
{
    match value {
        None => true,
        Some(value) => asks_inside(declarations, iterators, value),
    }
}

/// The same of some expressions.
pub fn all_ask_inside(declarations: &[Declaration], iterators: &[u32], values: &[Expr]) -> bool
    ensures { result ≡ list_all (Tests.asks_inside declarations.now iterators.now) (map expr_of values.now) }
{
    for value in values {
        if !asks_inside(declarations, iterators, value) {
            return false;
        }
    }
    true
}
