//! Through which nodes expressions read.

ghost use Rattle.std.specs.Prelude.{◌≡◌, map, option_map};
ghost use Rattle.std.specs.List.{list_all};
ghost use Rattle.gm_ast.specs.Tree.{expr_of};
ghost use Rattle.gm_forms.specs.Forms as Forms;
ghost use Rattle.gm_loop_laws.specs.Masks as Masks;

use gm_ast::tree::{Domain, Expr};
use gm_trees::variables::is_in;

/// Whether an expression has no reduction, and reads properties and degrees through some iterators alone, and an edge's
/// where one is at hand.
pub fn is_flat(iterators: &[u32], edge: bool, e: &Expr) -> bool
    ensures { result ≡ Forms.is_flat iterators.now edge (expr_of e.now) }
{
    match e {
        Expr::Property { owner, .. } | Expr::Degree { owner, .. } => is_in(iterators, *owner),
        Expr::EdgeProperty { .. } => edge,
        Expr::Unary { inner, .. } => is_flat(iterators, edge, inner),
        Expr::Binary { left, right, .. } => {
            is_flat(iterators, edge, left) && is_flat(iterators, edge, right)
        }
        Expr::Both(left, right) | Expr::Either(left, right) => {
            is_flat(iterators, edge, left) && is_flat(iterators, edge, right)
        }
        Expr::Choose(test, yes, no) => {
            is_flat(iterators, edge, test)
                && is_flat(iterators, edge, yes)
                && is_flat(iterators, edge, no)
        }
        Expr::Fold { .. } => false,
        _ => true,
    }
}

/// Whether some expressions do so.
pub fn are_flat(iterators: &[u32], edge: bool, values: &[Expr]) -> bool
    ensures { result ≡ list_all (Forms.is_flat iterators.now edge) (map expr_of values.now) }
{
    for value in values {
        if !is_flat(iterators, edge, value) {
            return false;
        }
    }
    true
}

/// Whether an expression does, where there is one.
pub fn may_be_flat(iterators: &[u32], edge: bool, value: &Option<Expr>) -> bool
    ensures { result ≡ Forms.may (Forms.is_flat iterators.now edge) (option_map expr_of value.now) }
{
    match value {
        None => true,
        Some(value) => is_flat(iterators, edge, value),
    }
}

/// Whether a range leads along the edges.
pub fn is_along(domain: Domain) -> bool
    ensures { result ≡ Forms.is_along domain }
{
    matches!(domain, Domain::OutNbrs)
}

/// Whether a range leads against the edges.
pub fn is_against(domain: Domain) -> bool
    ensures { result ≡ Forms.is_against domain }
{
    matches!(domain, Domain::InNbrs)
}

/// Whether an expression without reductions reads none of some variables.
pub fn spares(variables: &[u32], e: &Expr) -> bool
    ensures { result ≡ Masks.spares variables.now (expr_of e.now) }
{
    match e {
        Expr::Var { variable, .. } | Expr::Live { variable, .. } => !is_in(variables, *variable),
        Expr::Property {
            owner,
            property,
            ..
        } => !is_in(variables, *owner) && !is_in(variables, *property),
        Expr::Degree { owner, .. } => !is_in(variables, *owner),
        Expr::Unary { inner, .. } => spares(variables, inner),
        Expr::Binary { left, right, .. } | Expr::Both(left, right) | Expr::Either(left, right) => {
            spares(variables, left) && spares(variables, right)
        }
        Expr::Choose(test, yes, no) => {
            spares(variables, test) && (spares(variables, yes) && spares(variables, no))
        }
        Expr::Fold { .. } => false,
        _ => true,
    }
}
