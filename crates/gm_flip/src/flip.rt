//! Loops that pull, turned into the loops of their other ends.

ghost use Rattle.std.specs.Prelude.{◌≡◌, IfOk, OnOk, map};
ghost use Rattle.gm_ast.specs.Program as Program;
ghost use Rattle.gm_ast.specs.Program.{sequence};
ghost use Rattle.gm_ast.specs.Tree.{expr_of, program_of, stmt_of};
ghost use Rattle.gm_forms.specs.Flip as Flip;
ghost use Rattle.gm_forms.specs.Passes.{Pass};
ghost use Rattle.gm_forms.specs.Ready.{Ready3, Ready4};
ghost use Rattle.gm_flip.specs.Flipped as Flipped;

use crate::pulling::pulls;
use gm_ast::forms::Work;
use gm_ast::tree::{Domain, Expr, Head, Key, Stage, Stmt, Tree};
use gm_base::{NoMemory, Place};
use gm_trees::places::{beside, both_boxed, finish, put, taken, taken_value, with_boxed};
use gm_value::Value;
use std::alloc::{AllocError, Global};

/// Turns each loop that pulls into the loop of its other end. A cut program means the same, and each of its loops is then
/// evaluated at its outer node, or at the node that a message from there reaches. It takes time linear in the tree.
pub fn flip(alloc: Global, program: Work) -> Result<Work, NoMemory>
    ensures made { IfOk result (λ r. program_of r ≡ Flipped.without_pulls (program_of program)) }
    ensures passes { IfOk result (λ r. Pass Ready3 Ready4 (program_of program) (program_of r)) }
{
    let mut tree = program.into_tree();
    let outcome = flip_tree(alloc, &mut tree);
    finish(tree, outcome)
}

// The same of a tree.
fn flip_tree(alloc: Global, tree: &mut Tree) -> Result<(), NoMemory>
    ensures { OnOk result (program_of tree.new ≡ Flipped.without_pulls (program_of tree.old)) }
{
    flip_phase(alloc, &mut tree.body)?;
    Ok(())
}

// The same edges, from their other ends.
fn reversed(domain: Domain) -> Domain
    ensures { result ≡ Flip.reversed domain }
{
    match domain {
        Domain::OutNbrs => Domain::InNbrs,
        Domain::InNbrs => Domain::OutNbrs,
        other => other,
    }
}

// The head of a flipped inner loop: the outer iterator over the neighbours of the inner one.
fn flipped_head(outer: u32, head: Head) -> Head
    ensures { result ≡ Flip.flipped_head outer head }
{
    Head {
        iterator: outer,
        domain: reversed(head.domain),
        owner: head.iterator,
        place: head.place,
    }
}

// Whether a value is True.
fn is_true(value: Value) -> bool
    ensures { result ≡ Flipped.is_flag value }
{
    match value {
        Value::Flag(holds) => holds,
        _ => false,
    }
}

/// Whether a filter is the constant that passes everything.
pub fn is_always(filter: &Expr) -> bool
    ensures { result ≡ Flipped.is_always (expr_of filter.now) }
{
    match filter {
        Expr::Const(value) => is_true(*value),
        Expr::Var { .. }
        | Expr::Property { .. }
        | Expr::EdgeProperty { .. }
        | Expr::Degree { .. }
        | Expr::NodeCount
        | Expr::EdgeCount
        | Expr::Live { .. }
        | Expr::Unary { .. }
        | Expr::Binary { .. }
        | Expr::Both(_, _)
        | Expr::Either(_, _)
        | Expr::Choose(_, _, _)
        | Expr::Fold { .. } => false,
    }
}

// Two filters in one: the first one is left out where it passes everything.
fn join(alloc: Global, mask: Expr, filter: Expr) -> Result<Expr, AllocError>
    ensures { IfOk result (λ r. expr_of r ≡ Flipped.joined (expr_of mask) (expr_of filter)) }
{
    if is_always(&mask) {
        drop(mask);
        return Ok(filter);
    }
    let (mask, filter) = both_boxed(alloc, mask, filter)?;
    Ok(Expr::Both(mask, filter))
}

/// A loop of its parts.
pub fn loop_of(
    alloc: Global,
    key: Key,
    place: Place,
    head: Head,
    filter: Expr,
    body: Stmt,
) -> Result<Stmt, AllocError>
    ensures { IfOk result (λ r. stmt_of r ≡ Program.Foreach key place head (expr_of filter) (stmt_of body)) }
{
    let (filter, body) = with_boxed(alloc, filter, body)?;
    Ok(Stmt::Foreach {
        key,
        place,
        head,
        filter,
        body,
    })
}

// The loop of the other end of the inner loop that is a loop's body.
#[tactic(auto, using(crate::proofs::Trees::turned_sequence))]
fn turn(
    alloc: Global,
    key: Key,
    place: Place,
    head: Head,
    mask: Expr,
    body: Stmt,
) -> Result<Stmt, AllocError>
    ensures { IfOk result (λ r. stmt_of r ≡ Flipped.turned key place head (expr_of mask) (stmt_of body)) }
{
    match body {
        Stmt::Foreach {
            key: inner_key,
            place: inner_place,
            head: inner,
            filter,
            body,
        } => {
            let (body, filter) = beside(body, join(alloc, mask, filter))?;
            let pushing = Stmt::Foreach {
                key: inner_key,
                place: inner_place,
                head: flipped_head(head.iterator, inner),
                filter,
                body,
            };
            let head = Head {
                iterator: inner.iterator,
                ..head
            };
            let first = Key {
                statement: 0,
                stage: Stage::Inner,
            };
            loop_of(
                alloc,
                first,
                place,
                head,
                Expr::Const(Value::Flag(true)),
                pushing,
            )
        }
        Stmt::Block(stmts) => loop_of(alloc, key, place, head, mask, Stmt::Block(stmts)),
        other => loop_of(alloc, key, place, head, mask, other),
    }
}

// A loop over all nodes, turned where it pulls. Its filter and its body are taken out.
fn flip_loop(
    alloc: Global,
    key: Key,
    place: Place,
    head: Head,
    filter: &mut Expr,
    body: &mut Stmt,
) -> Result<Stmt, AllocError>
    ensures { IfOk result (λ r. stmt_of r ≡ Flipped.flipped_loop key place head (expr_of filter.old) (stmt_of body.old)) }
{
    let filter = taken_value(filter);
    let body = taken(alloc, body);
    if pulls(head.iterator, &body) {
        turn(alloc, key, place, head, filter, body)
    } else {
        loop_of(alloc, key, place, head, filter, body)
    }
}

// Each loop of a block of the sequential phase is turned where it pulls.
#[cycle(flipping)]
fn flip_block(alloc: Global, stmts: &mut Vec<Stmt>) -> Result<(), AllocError>
    ensures { OnOk result (sequence (map stmt_of stmts.new.items) ≡ Flipped.flipped (sequence (map stmt_of stmts.old.items))) }
{
    for i in 0..stmts.len() {
        flip_phase(alloc, &mut stmts[i])?;
    }
    Ok(())
}

// The same of a sequential phase in a box.
#[cycle(flipping)]
fn flip_part(alloc: Global, s: &mut Box<Stmt>) -> Result<(), AllocError>
    ensures { OnOk result (stmt_of s.new.value ≡ Flipped.flipped (stmt_of s.old.value)) }
{
    flip_phase(alloc, s)?;
    Ok(())
}

// The same of a sequential phase.
#[cycle(flipping)]
fn flip_phase(alloc: Global, s: &mut Stmt) -> Result<(), AllocError>
    ensures { OnOk result (stmt_of s.new ≡ Flipped.flipped (stmt_of s.old)) }
{
    match s {
        Stmt::Block(stmts) => flip_block(alloc, stmts),
        Stmt::Foreach {
            key,
            place,
            head,
            filter,
            body,
        } => {
            let new = flip_loop(alloc, *key, *place, *head, filter, body)?;
            put(s, new);
            Ok(())
        }
        Stmt::For { body, .. } => flip_part(alloc, body),
        Stmt::If { yes, no, .. } => {
            flip_part(alloc, yes)?;
            flip_part(alloc, no)
        }
        Stmt::While { body, .. } => flip_part(alloc, body),
        Stmt::Do { body, .. } => flip_part(alloc, body),
        _ => Ok(()),
    }
}
