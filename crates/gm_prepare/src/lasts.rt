//! Filters that hold the same wherever they are asked in a loop.

ghost use Rattle.std.specs.Prelude.{◌≡◌};
ghost use Rattle.std.specs.List.{list_all};
ghost use Rattle.gm_ast.specs.Tree.{expr_of};
ghost use Rattle.gm_forms.specs.Sharing as Sharing;
ghost use Rattle.gm_loop_laws.specs.Masks as Masks;
ghost use Rattle.gm_parting.specs.Lasting as Lasting;

use gm_ast::tree::{Declaration, Expr};
use gm_facts::faults::cannot_fail;
use gm_facts::reads::{is_flat, spares};
use gm_facts::ways::depth_at;

// Whether a variable is a loop's iterator, or declared outside of the loop.
fn is_outside(declarations: &[Declaration], outer: u32, variable: u32) -> bool
    ensures { result ≡ Lasting.is_outside declarations.now outer variable }
{
    variable == outer || depth_at(declarations, variable) == 0
}

// Whether all variables are that an expression names.
fn names_outside(declarations: &[Declaration], outer: u32, e: &Expr) -> bool
    ensures { result ≡ list_all (Lasting.is_outside declarations.now outer) (Sharing.told_in (expr_of e.now)) }
{
    match e {
        Expr::Var { variable, .. } | Expr::Live { variable, .. } => {
            is_outside(declarations, outer, *variable)
        }
        Expr::Property { owner, .. } | Expr::Degree { owner, .. } => {
            is_outside(declarations, outer, *owner)
        }
        Expr::Unary { inner, .. } => names_outside(declarations, outer, inner),
        Expr::Binary { left, right, .. } | Expr::Both(left, right) | Expr::Either(left, right) => {
            names_outside(declarations, outer, left) && names_outside(declarations, outer, right)
        }
        Expr::Choose(test, yes, no) => {
            names_outside(declarations, outer, test)
                && (names_outside(declarations, outer, yes)
                    && names_outside(declarations, outer, no))
        }
        Expr::Fold {
            head,
            filter,
            body,
            ..
        } => {
            is_outside(declarations, outer, head.owner)
                && (names_outside(declarations, outer, filter)
                    && names_outside(declarations, outer, body))
        }
        _ => true,
    }
}

// Whether an expression is a mask that reads none of some variables, and names nothing that is declared in the loop.
pub(crate) fn is_lasting(
    declarations: &[Declaration],
    outer: u32,
    variables: &[u32],
    e: &Expr,
) -> bool
    ensures { result ≡ Lasting.is_lasting declarations.now outer variables.now (expr_of e.now) }
{
    (cannot_fail(e) && is_flat(&[outer], false, e))
        && (spares(variables, e) && names_outside(declarations, outer, e))
}
