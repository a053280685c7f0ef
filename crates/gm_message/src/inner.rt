//! Where inner loops are evaluated.

ghost use Rattle.std.specs.Prelude.{◌≡◌, ◌∷◌, [], true, false, map};
ghost use Rattle.gm_ast.specs.Program.{sequence};
ghost use Rattle.gm_ast.specs.Tree.{expr_of, stmt_of};
ghost use Rattle.gm_lowering.specs.Plans as Plans;
ghost use Rattle.gm_message.specs.Lasts.{continued};

use crate::ways::{are_locals, are_properties_of};
use gm_ast::tree::{Declaration, Expr, Head, Stmt};
use gm_facts::reads::{is_along, is_flat};
use gm_facts::ways::{is_home, is_inner_body};
use gm_value::Reduce;

// Whether the statements of a block do nothing.
#[cycle(idle)]
fn are_nothing(stmts: &Vec<Stmt>) -> bool
    ensures { result ≡ Plans.is_nothing (sequence (map stmt_of stmts.now.items)) }
{
    for stmt in stmts {
        if !is_nothing(stmt) {
            return false;
        }
    }
    true
}

// Whether a statement does nothing.
#[cycle(idle)]
fn is_nothing(s: &Stmt) -> bool
    ensures { result ≡ Plans.is_nothing (stmt_of s.now) }
{
    match s {
        Stmt::Block(stmts) => are_nothing(stmts),
        Stmt::DeclareEdge { .. } => true,
        _ => false,
    }
}

// Whether the statements of a block reduce to their locals alone.
#[cycle(keeping)]
fn give_nothing(declarations: &[Declaration], stmts: &Vec<Stmt>) -> bool
    ensures { result ≡ Plans.gives_nothing declarations.now (sequence (map stmt_of stmts.now.items)) }
{
    for stmt in stmts {
        if !gives_nothing(declarations, stmt) {
            return false;
        }
    }
    true
}

// Whether a body reduces to its locals alone.
#[cycle(keeping)]
fn gives_nothing(declarations: &[Declaration], s: &Stmt) -> bool
    ensures { result ≡ Plans.gives_nothing declarations.now (stmt_of s.now) }
{
    match s {
        Stmt::Block(stmts) => give_nothing(declarations, stmts),
        Stmt::Reduce { targets, .. } => are_locals(declarations, targets),
        Stmt::If { yes, no, .. } => {
            gives_nothing(declarations, yes) && gives_nothing(declarations, no)
        }
        _ => true,
    }
}

// Whether the statements of a block give to others once, and do nothing behind it. One pass: what counts is the last
// statement that does something, and whether those before it give nothing.
#[cycle(ending)]
fn ends_giving(declarations: &[Declaration], iterator: u32, stmts: &Vec<Stmt>) -> bool
    ensures { result ≡ continued declarations.now iterator false true (map stmt_of stmts.now.items) }
{
    let mut last = false;
    let mut quiet = true;
    for stmt in stmts {
        if !is_nothing(stmt) {
            last = quiet && gives_last(declarations, iterator, stmt);
            quiet = quiet && gives_nothing(declarations, stmt);
        }
    }
    last
}

// Whether a body has one reduction to others, to properties of an iterator, and does nothing behind it.
#[cycle(ending)]
fn gives_last(declarations: &[Declaration], iterator: u32, s: &Stmt) -> bool
    ensures { result ≡ Plans.gives_last declarations.now iterator (stmt_of s.now) }
{
    match s {
        Stmt::Block(stmts) => ends_giving(declarations, iterator, stmts),
        Stmt::Reduce { targets, .. } => are_properties_of(iterator, targets),
        Stmt::If { yes, no, .. } => {
            (gives_last(declarations, iterator, yes) && is_nothing(no))
                || (is_nothing(yes) && gives_last(declarations, iterator, no))
        }
        _ => false,
    }
}

// Whether the sender evaluates an inner loop for the other end of each edge.
fn is_senders(
    declarations: &[Declaration],
    outer: u32,
    head: Head,
    filter: &Expr,
    body: &Stmt,
) -> bool
    ensures { result ≡ Plans.is_senders declarations.now outer head (expr_of filter.now) (stmt_of body.now) }
{
    let edge = is_along(head.domain);
    is_flat(&[outer], edge, filter)
        && is_inner_body(declarations, &[outer], edge, body)
        && gives_last(declarations, head.iterator, body)
}

/// Whether an inner loop is evaluated at the outer node, for each of its edges, where nothing of the inner node is read.
/// It takes time linear in the loop.
pub fn is_here(
    declarations: &[Declaration],
    outer: u32,
    head: Head,
    filter: &Expr,
    body: &Stmt,
) -> bool
    ensures { result ≡ Plans.is_here declarations.now outer head (expr_of filter.now) (stmt_of body.now) }
{
    is_home(declarations, outer, head, filter, body)
        || is_senders(declarations, outer, head, filter, body)
}
