//! Flexible numbers as Int.

ghost use Rattle.std.specs.Prelude.{◌≡◌, IfOk};
ghost use Rattle.gm_ast.specs.Kinds.{narrow, narrowed};
ghost use Rattle.gm_ast.specs.Tree.{expr_of};

use gm_ast::tree::Expr;
use gm_value::Value;
use std::alloc::{AllocError, Global};

// A flexible number as an Int; one that Int does not hold becomes the nearest.
fn narrow(value: Value) -> Value
    ensures { result ≡ narrow value }
{
    match value {
        Value::I64(n) => Value::I32(n.clamp(i32::MIN as i64, i32::MAX as i64) as i32),
        other => other,
    }
}

// A flexible expression with its numbers as Int.
pub fn narrowed(alloc: Global, e: Expr) -> Result<Expr, AllocError>
    ensures { IfOk result (λ r. expr_of r ≡ narrowed (expr_of e)) }
{
    match e {
        Expr::Const(value) => Ok(Expr::Const(narrow(value))),
        Expr::Unary { op, place, inner } => {
            let changed = narrowed(alloc, Box::into_inner(inner))?;
            let inner = Box::new(alloc, changed)?;
            Ok(Expr::Unary { op, place, inner })
        }
        Expr::Binary {
            op,
            place,
            left,
            right,
        } => {
            let first = narrowed(alloc, Box::into_inner(left))?;
            let second = narrowed(alloc, Box::into_inner(right))?;
            let left = Box::new(alloc, first)?;
            let right = Box::new(alloc, second)?;
            Ok(Expr::Binary {
                op,
                place,
                left,
                right,
            })
        }
        Expr::Choose(test, yes, no) => {
            let first = narrowed(alloc, Box::into_inner(yes))?;
            let second = narrowed(alloc, Box::into_inner(no))?;
            let yes = Box::new(alloc, first)?;
            let no = Box::new(alloc, second)?;
            Ok(Expr::Choose(test, yes, no))
        }
        Expr::Both(..) | Expr::Either(..) => Ok(e),
        Expr::Var { .. } | Expr::Live { .. } => Ok(e),
        Expr::Property { .. } | Expr::EdgeProperty { .. } | Expr::Degree { .. } => Ok(e),
        Expr::NodeCount | Expr::EdgeCount => Ok(e),
        Expr::Fold { .. } => Ok(e),
    }
}
