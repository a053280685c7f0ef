//! Conditions put together.

ghost use Rattle.std.specs.Prelude.{◌≡◌, IfOk};
ghost use Rattle.gm_ast.specs.Program as Program;
ghost use Rattle.gm_ast.specs.Tree.{expr_of};
ghost use Rattle.gm_outward.specs.Gathered as Gathered;

use gm_ast::tree::Expr;
use gm_flip::flip::is_always;
use gm_trees::places::both_boxed;
use gm_value::Value;
use std::alloc::{AllocError, Global};

// The condition that always holds.
pub(crate) fn always() -> Expr
    ensures { expr_of result ≡ Program.always }
{
    Expr::Const(Value::Flag(true))
}

// Two conditions in one: one that passes everything is left out.
pub(crate) fn together(alloc: Global, first: Expr, second: Expr) -> Result<Expr, AllocError>
    ensures { IfOk result (λ r. expr_of r ≡ Gathered.together (expr_of first) (expr_of second)) }
{
    if is_always(&first) {
        drop(first);
        return Ok(second);
    }
    if is_always(&second) {
        drop(second);
        return Ok(first);
    }
    let (first, second) = both_boxed(alloc, first, second)?;
    Ok(Expr::Both(first, second))
}
