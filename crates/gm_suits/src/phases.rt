//! Bodies, loops and sequential phases.

ghost use Rattle.std.specs.Prelude.{◌≡◌, ◌∷◌, [], false, true, map};
ghost use Rattle.gm_ast.specs.Program.{sequence};
ghost use Rattle.gm_ast.specs.Tree.{expr_of, program_of, stmt_of};
ghost use Rattle.gm_plain_loops.specs.Tests as Tests;

use crate::names::{
    all_ask_around, all_ask_inside, asks_around, asks_inside, may_ask_around, may_ask_inside,
};
use crate::reductions::{end_together, go_well, total_follows};
use crate::sends::{folds_first, sends_any, sends_last};
use gm_ast::forms::Work;
use gm_ast::tree::{Declaration, Expr, Head, Key, Stmt, Target, TotalKey};
use gm_facts::ways::avoids;
use gm_message::{is_global, is_here, variable_at};

// Whether a reduction of a body among some iterators names what it may, goes well, ends together, and has a total that
// follows.
fn suits_reduction(
    declarations: &[Declaration],
    inner: bool,
    iterators: &[u32],
    key: Key,
    total: TotalKey,
    targets: &[Target],
    values: &[Expr],
) -> bool
    ensures { result ≡ Tests.suits_reduction declarations.now inner iterators.now key total targets.now (map expr_of values.now) }
{
    all_ask_inside(declarations, iterators, values)
        && (go_well(declarations, inner, iterators, targets)
            && (end_together(declarations, targets)
                && total_follows(iterators, key, total, targets, values)))
}

// Whether the statements of a block suit.
#[cycle(bodies)]
fn suit_bodies(
    declarations: &[Declaration],
    inner: bool,
    iterators: &[u32],
    stmts: &Vec<Stmt>,
) -> bool
    ensures { result ≡ Tests.suits_body declarations.now inner iterators.now (sequence (map stmt_of stmts.now.items)) }
{
    for stmt in stmts {
        if !suits_body(declarations, inner, iterators, stmt) {
            return false;
        }
    }
    true
}

// Whether a body among some iterators suits, an outer or an inner one.
#[cycle(bodies)]
fn suits_body(declarations: &[Declaration], inner: bool, iterators: &[u32], s: &Stmt) -> bool
    ensures { result ≡ Tests.suits_body declarations.now inner iterators.now (stmt_of s.now) }
{
    match s {
        Stmt::Block(stmts) => suit_bodies(declarations, inner, iterators, stmts),
        Stmt::Declare { value, .. } => may_ask_inside(declarations, iterators, value),
        Stmt::Assign { value, .. } => asks_inside(declarations, iterators, value),
        Stmt::Reduce {
            key,
            total,
            targets,
            values,
            ..
        } => suits_reduction(
            declarations,
            inner,
            iterators,
            *key,
            *total,
            targets,
            values,
        ),
        Stmt::If { test, yes, no, .. } => {
            asks_inside(declarations, iterators, test)
                && (suits_body(declarations, inner, iterators, yes)
                    && suits_body(declarations, inner, iterators, no))
        }
        _ => true,
    }
}

// Whether a loop of own statements suits.
fn suits_own(declarations: &[Declaration], node: u32, filter: &Expr, body: &Stmt) -> bool
    ensures { result ≡ Tests.suits_own declarations.now node (expr_of filter.now) (stmt_of body.now) }
{
    asks_inside(declarations, &[node], filter)
        && (suits_body(declarations, false, &[node], body)
            && sends_last(declarations, node, false, body))
}

// Whether an inner loop suits whose receivers send through node variables, Sums and Products at their end, and reduce to the
// same properties before.
fn suits_receivers(
    declarations: &[Declaration],
    node: u32,
    head: Head,
    filter: &Expr,
    body: &Stmt,
) -> bool
    ensures { result ≡ Tests.suits_receivers declarations.now node head (expr_of filter.now) (stmt_of body.now) }
{
    let inner = head.iterator;
    !is_here(declarations, node, head, filter, body)
        && (suits_body(declarations, false, &[node, inner], body)
            && (sends_any(declarations, inner, body)
                && (folds_first(declarations, inner, body, body)
                    && sends_last(declarations, inner, false, body))))
}

// Whether an inner loop suits that is evaluated at the outer node and sends through node variables, Sums and Products at its
// end, and reduces to no property of the outer node.
fn suits_senders(
    declarations: &[Declaration],
    node: u32,
    head: Head,
    filter: &Expr,
    body: &Stmt,
) -> bool
    ensures { result ≡ Tests.suits_senders declarations.now node head (expr_of filter.now) (stmt_of body.now) }
{
    is_here(declarations, node, head, filter, body)
        && (suits_body(declarations, false, &[node, head.iterator], body)
            && (sends_any(declarations, node, body)
                && (avoids(node, body) && sends_last(declarations, node, false, body))))
}

// Whether a loop over nodes suits whose body is one inner loop.
fn suits_edges(
    declarations: &[Declaration],
    node: u32,
    mask: &Expr,
    head: Head,
    filter: &Expr,
    body: &Stmt,
) -> bool
    ensures { result ≡ Tests.suits_edges declarations.now node (expr_of mask.now) head (expr_of filter.now) (stmt_of body.now) }
{
    asks_inside(declarations, &[node], mask)
        && (asks_around(declarations, &[node, head.iterator], filter)
            && (suits_body(declarations, true, &[node, head.iterator], body)
                || (suits_receivers(declarations, node, head, filter, body)
                    || suits_senders(declarations, node, head, filter, body))))
}

// Whether a loop over nodes suits.
fn suits_loop(declarations: &[Declaration], node: u32, mask: &Expr, body: &Stmt) -> bool
    ensures { result ≡ Tests.suits_loop declarations.now node (expr_of mask.now) (stmt_of body.now) }
{
    match body {
        Stmt::Foreach {
            head,
            filter,
            body: inner,
            ..
        } => suits_edges(declarations, node, mask, *head, filter, inner),
        Stmt::Block(_) => suits_own(declarations, node, mask, body),
        Stmt::Declare { .. }
        | Stmt::DeclareEdge { .. }
        | Stmt::Assign { .. }
        | Stmt::Defer { .. }
        | Stmt::Reduce { .. }
        | Stmt::Group { .. }
        | Stmt::For { .. }
        | Stmt::If { .. }
        | Stmt::While { .. }
        | Stmt::Do { .. }
        | Stmt::InBfs { .. }
        | Stmt::InBfsBoth { .. }
        | Stmt::Return { .. } => suits_own(declarations, node, mask, body),
    }
}

// Whether the loops of a block of a sequential phase suit.
#[cycle(looping)]
fn suit_phases(declarations: &[Declaration], stmts: &Vec<Stmt>) -> bool
    ensures { result ≡ Tests.suits_phase declarations.now (sequence (map stmt_of stmts.now.items)) }
{
    for stmt in stmts {
        if !suits_phase(declarations, stmt) {
            return false;
        }
    }
    true
}

// Whether those of a statement of a sequential phase suit, and what it reduces at once names scalars and nodes of the
// procedure alone.
#[cycle(looping)]
fn suits_phase(declarations: &[Declaration], s: &Stmt) -> bool
    ensures { result ≡ Tests.suits_phase declarations.now (stmt_of s.now) }
{
    match s {
        Stmt::Block(stmts) => suit_phases(declarations, stmts),
        Stmt::Reduce { values, .. } => all_ask_around(declarations, &[], values),
        Stmt::Foreach {
            head,
            filter,
            body,
            ..
        } => suits_loop(declarations, head.iterator, filter, body),
        Stmt::If { yes, no, .. } => {
            suits_phase(declarations, yes) && suits_phase(declarations, no)
        }
        Stmt::For { body, .. } | Stmt::While { body, .. } | Stmt::Do { body, .. } => {
            suits_phase(declarations, body)
        }
        _ => true,
    }
}

// Whether the statements of a block of a sequential phase name scalars and nodes of the procedure alone.
#[cycle(telling)]
fn tell_phases(declarations: &[Declaration], stmts: &Vec<Stmt>) -> bool
    ensures { result ≡ Tests.tells_phase declarations.now (sequence (map stmt_of stmts.now.items)) }
{
    for stmt in stmts {
        if !tells_phase(declarations, stmt) {
            return false;
        }
    }
    true
}

// Whether a statement of a sequential phase does.
#[cycle(telling)]
fn tells_phase(declarations: &[Declaration], s: &Stmt) -> bool
    ensures { result ≡ Tests.tells_phase declarations.now (stmt_of s.now) }
{
    match s {
        Stmt::Block(stmts) => tell_phases(declarations, stmts),
        Stmt::Declare { value, .. } | Stmt::Return { value, .. } => {
            may_ask_around(declarations, &[], value)
        }
        Stmt::Assign { value, .. } => asks_around(declarations, &[], value),
        Stmt::For {
            head,
            filter,
            body,
            ..
        } => {
            is_global(variable_at(declarations, head.iterator))
                && (asks_around(declarations, &[], filter) && tells_phase(declarations, body))
        }
        Stmt::If { test, yes, no, .. } => {
            asks_around(declarations, &[], test)
                && (tells_phase(declarations, yes) && tells_phase(declarations, no))
        }
        Stmt::While { test, body, .. } => {
            asks_around(declarations, &[], test) && tells_phase(declarations, body)
        }
        Stmt::Do { body, test, .. } => {
            tells_phase(declarations, body) && asks_around(declarations, &[], test)
        }
        _ => true,
    }
}

/// Whether the sequential phases of a program name scalars and nodes of the procedure alone, so that a master list can tell
/// what they compute. It takes time linear in the tree.
pub fn tells_phases(program: &Work) -> bool
    ensures { result ≡ Tests.tells_phases (program_of program.now) }
{
    let tree = program.tree();
    tells_phase(&tree.declarations, &tree.body)
}

/// Whether the loops of a program suit images: what they name, where their reductions go, what comes before totals, and what
/// stands behind what they send; and what its sequential phases reduce at once names scalars and nodes of the procedure alone.
/// It takes time linear in the tree, but for blocks of own statements within blocks, and for receivers that reduce to properties
/// of their own and send besides: they are gone through once for each of these.
pub fn suits_loops(program: &Work) -> bool
    ensures { result ≡ Tests.suits_loops (program_of program.now) }
{
    let tree = program.tree();
    suits_phase(&tree.declarations, &tree.body)
}
