//! What can fault.

ghost use Rattle.std.specs.Prelude.{◌≡◌, map};
ghost use Rattle.std.specs.List.{list_all};
ghost use Rattle.gm_ast.specs.Tree.{expr_of};
ghost use Rattle.gm_forms.specs.Cut as Cut;
ghost use Rattle.gm_forms.specs.Order as Order;

use gm_ast::tree::Expr;
use gm_value::{Op1, Op2, Reduce};

/// Whether an operation on one value can fault.
pub fn can_fail1(op: Op1) -> bool
    ensures { result ≡ Order.can_fail1 op }
{
    match op {
        Op1::Neg | Op1::ToI32 => true,
        Op1::Not | Op1::ToI64 => false,
    }
}

/// Whether an operation on two values can fault.
pub fn can_fail2(op: Op2) -> bool
    ensures { result ≡ Order.can_fail2 op }
{
    match op {
        Op2::Add | Op2::Sub | Op2::Mul | Op2::Div | Op2::Rem => true,
        Op2::Eq | Op2::Ne | Op2::Lt | Op2::Le | Op2::Gt | Op2::Ge => false,
    }
}

/// Whether an expression cannot fault where each node variable in it holds a node.
pub fn cannot_fail(e: &Expr) -> bool
    ensures { result ≡ Order.cannot_fail (expr_of e.now) }
{
    match e {
        Expr::Const(_)
        | Expr::Var { .. }
        | Expr::Property { .. }
        | Expr::EdgeProperty { .. }
        | Expr::Degree { .. }
        | Expr::NodeCount
        | Expr::EdgeCount => true,
        Expr::Live { .. } | Expr::Fold { .. } => false,
        Expr::Unary { op, inner, .. } => !can_fail1(*op) && cannot_fail(inner),
        Expr::Binary {
            op,
            left,
            right,
            ..
        } => !can_fail2(*op) && (cannot_fail(left) && cannot_fail(right)),
        Expr::Both(left, right) | Expr::Either(left, right) => {
            cannot_fail(left) && cannot_fail(right)
        }
        Expr::Choose(test, yes, no) => {
            cannot_fail(test) && (cannot_fail(yes) && cannot_fail(no))
        }
    }
}

/// Whether none of some expressions can.
pub fn none_fails(values: &[Expr]) -> bool
    ensures { result ≡ list_all Order.cannot_fail (map expr_of values.now) }
{
    for value in values {
        if !cannot_fail(value) {
            return false;
        }
    }
    true
}

/// Whether a reduction's total can be out of range.
pub fn can_overflow(reduce: Reduce) -> bool
    ensures { result ≡ Cut.can_overflow reduce }
{
    match reduce {
        Reduce::Sum | Reduce::Product => true,
        Reduce::Min | Reduce::Max | Reduce::And | Reduce::Or => false,
    }
}
