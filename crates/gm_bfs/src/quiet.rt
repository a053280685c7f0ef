//! Bodies that do nothing, and filters that cannot fault.

ghost use Rattle.std.specs.Prelude.{◌≡◌, map};
ghost use Rattle.gm_ast.specs.Program.{sequence};
ghost use Rattle.gm_ast.specs.Tree.{expr_of, stmt_of};
ghost use Rattle.gm_bfs.specs.Searches as Searches;

use gm_ast::tree::{Expr, Stmt};
use gm_facts::faults::{can_fail1, can_fail2};

// Whether a block does nothing.
#[cycle(idling)]
fn are_idle(stmts: &Vec<Stmt>) -> bool
    ensures { result ≡ Searches.is_idle (sequence (map stmt_of stmts.now.items)) }
{
    for stmt in stmts {
        if !is_idle(stmt) {
            return false;
        }
    }
    true
}

// Whether a body does nothing.
#[cycle(idling)]
pub(crate) fn is_idle(body: &Stmt) -> bool
    ensures { result ≡ Searches.is_idle (stmt_of body.now) }
{
    match body {
        Stmt::Block(stmts) => are_idle(stmts),
        _ => false,
    }
}

// Whether an expression cannot fault in an iteration at a node.
pub(crate) fn is_safe(iterator: u32, e: &Expr) -> bool
    ensures { result ≡ Searches.is_safe iterator (expr_of e.now) }
{
    match e {
        Expr::Const(_)
        | Expr::Var { .. }
        | Expr::EdgeProperty { .. }
        | Expr::NodeCount
        | Expr::EdgeCount => true,
        Expr::Property { owner, .. } | Expr::Degree { owner, .. } => *owner == iterator,
        Expr::Live { .. } | Expr::Fold { .. } => false,
        Expr::Unary { op, inner, .. } => !can_fail1(*op) && is_safe(iterator, inner),
        Expr::Binary {
            op,
            left,
            right,
            ..
        } => !can_fail2(*op) && (is_safe(iterator, left) && is_safe(iterator, right)),
        Expr::Both(left, right) | Expr::Either(left, right) => {
            is_safe(iterator, left) && is_safe(iterator, right)
        }
        Expr::Choose(test, yes, no) => {
            is_safe(iterator, test) && (is_safe(iterator, yes) && is_safe(iterator, no))
        }
    }
}
