//! Which loops pull.

ghost use Rattle.std.specs.Prelude.{◌≡◌, map};
ghost use Rattle.gm_ast.specs.Program.{sequence};
ghost use Rattle.gm_ast.specs.Tree.{expr_of, stmt_of};
ghost use Rattle.gm_flip.specs.Pulling as Pulling;

use gm_ast::tree::{Expr, Head, Stmt};
use gm_facts::reads::{are_flat, is_along, is_flat};
use gm_facts::ways::avoids;

// Whether the expressions of a block's statements do so.
#[cycle(seeing)]
fn all_see(iterators: &[u32], edge: bool, stmts: &Vec<Stmt>) -> bool
    ensures { result ≡ Pulling.sees iterators.now edge (sequence (map stmt_of stmts.now.items)) }
{
    for stmt in stmts {
        if !sees(iterators, edge, stmt) {
            return false;
        }
    }
    true
}

// Whether the expressions of an inner body read properties and degrees through some iterators alone, and an edge's where
// one is at hand.
#[cycle(seeing)]
fn sees(iterators: &[u32], edge: bool, s: &Stmt) -> bool
    ensures { result ≡ Pulling.sees iterators.now edge (stmt_of s.now) }
{
    match s {
        Stmt::Block(stmts) => all_see(iterators, edge, stmts),
        Stmt::Declare {
            value: Some(value),
            ..
        } => is_flat(iterators, edge, value),
        Stmt::Assign { value, .. } => is_flat(iterators, edge, value),
        Stmt::Reduce { values, .. } => are_flat(iterators, edge, values),
        Stmt::If { test, yes, no, .. } => {
            is_flat(iterators, edge, test)
                && sees(iterators, edge, yes)
                && sees(iterators, edge, no)
        }
        _ => true,
    }
}

// Whether an inner loop can be evaluated at the outer node.
fn is_at_home(outer: u32, head: &Head, filter: &Expr, body: &Stmt) -> bool
    ensures { result ≡ Pulling.is_at_home outer head.now (expr_of filter.now) (stmt_of body.now) }
{
    let edge = is_along(head.domain);
    is_flat(&[outer], edge, filter) && sees(&[outer], edge, body) && avoids(head.iterator, body)
}

// Whether an inner loop can be evaluated at the inner node, for each message from the outer one.
fn is_outgoing(outer: u32, head: &Head, filter: &Expr, body: &Stmt) -> bool
    ensures { result ≡ Pulling.is_outgoing outer head.now (expr_of filter.now) (stmt_of body.now) }
{
    let edge = is_along(head.domain);
    let ends = [outer, head.iterator];
    is_flat(&ends, edge, filter) && sees(&ends, edge, body) && avoids(outer, body)
}

/// Whether the body of a loop with an outer iterator is an inner loop that pulls: it can be evaluated neither at the
/// outer node nor at the inner one for each message from there. It takes time linear in the body, and no memory.
#[tactic(auto, using(crate::proofs::Trees::pulls_sequence))]
pub fn pulls(outer: u32, body: &Stmt) -> bool
    ensures { result ≡ Pulling.pulls outer (stmt_of body.now) }
{
    match body {
        Stmt::Foreach {
            head,
            filter,
            body,
            ..
        } => !is_at_home(outer, head, filter, body) && !is_outgoing(outer, head, filter, body),
        Stmt::Block(_) => false,
        _ => false,
    }
}
