//! The slice of a group of statements behind others: what is kept of those, and of the group.

ghost use Rattle.std.specs.Prelude.{◌≡◌, ◌∷◌, [], ◌++◌, false, true, IfOk, map};
ghost use Rattle.gm_ast.specs.Program as Program;
ghost use Rattle.gm_ast.specs.Program.{sequence};
ghost use Rattle.gm_ast.specs.Tree.{expr_of, stmt_of};
ghost use Rattle.gm_cut.specs.Slices as Slices;
ghost use Rattle.gm_loop_laws.specs.Resumed.{resumed};
ghost use Rattle.gm_slices.specs.Keeping as Keeping;
ghost use Rattle.gm_slices.specs.Needs.{none};
ghost use Rattle.gm_slices.specs.SliceWalks.{is_leaf};

use crate::keeping::kept_of;
use crate::members::Members;
use crate::needs::Ends;
use gm_ast::tree::{Declaration, Expr, Key, Stmt};
use gm_trees::places::{beside, both_boxed, with_pushed};
use std::alloc::{AllocError, Global};

// The statements of a block behind others, one after another: blocks within blocks are opened.
#[cycle(opening)]
fn open_all(alloc: Global, stmts: Vec<Stmt>, list: Vec<Stmt>) -> Result<Vec<Stmt>, AllocError>
    ensures { IfOk result (λ r. map stmt_of r.items ≡ map stmt_of list.items ++ Slices.statements_of (sequence (map stmt_of stmts.items))) }
{
    let mut behind = list;
    for stmt in stmts {
        behind = open(alloc, stmt, behind)?;
    }
    Ok(behind)
}

// One more statement behind others.
fn push(s: Stmt, list: Vec<Stmt>) -> Result<Vec<Stmt>, AllocError>
    ensures { IfOk result (λ r. map stmt_of r.items ≡ map stmt_of list.items ++ (stmt_of s ∷ [])) }
{
    let (_none, list) = with_pushed((), list, s)?;
    Ok(list)
}

// An If behind others.
fn push_if(
    alloc: Global,
    key: Key,
    test: Expr,
    yes: Stmt,
    no: Stmt,
    list: Vec<Stmt>,
) -> Result<Vec<Stmt>, AllocError>
    ensures { IfOk result (λ r. map stmt_of r.items ≡ map stmt_of list.items ++ (Program.If key (expr_of test) (stmt_of yes) (stmt_of no) ∷ [])) }
{
    let (rest, branches) = beside((test, list), both_boxed(alloc, yes, no))?;
    let (test, list) = rest;
    let (yes, no) = branches;
    push(Stmt::If { key, test, yes, no }, list)
}

// A statement that is neither a block nor an If behind others.
fn push_other(s: Stmt, list: Vec<Stmt>) -> Result<Vec<Stmt>, AllocError>
    requires { is_leaf (stmt_of s) ≡ true }
    ensures { IfOk result (λ r. map stmt_of r.items ≡ map stmt_of list.items ++ Slices.statements_of (stmt_of s)) }
{
    push(s, list)
}

// The statements of a branch of an If in a block, one after another.
#[cycle(opening)]
fn open_branch(alloc: Global, s: Stmt) -> Result<Stmt, AllocError>
    ensures { IfOk result (λ r. stmt_of r ≡ sequence (Slices.statements_of (stmt_of s))) }
{
    let stmts = open(alloc, s, Vec::new(alloc))?;
    Ok(Stmt::Block(stmts))
}

/// The statements of a body behind others, one after another: blocks within blocks are opened, also those of the branches
/// of an If. It takes time linear in the body.
#[cycle(opening)]
pub(crate) fn open(alloc: Global, s: Stmt, list: Vec<Stmt>) -> Result<Vec<Stmt>, AllocError>
    ensures { IfOk result (λ r. map stmt_of r.items ≡ map stmt_of list.items ++ Slices.statements_of (stmt_of s)) }
{
    match s {
        Stmt::Block(stmts) => open_all(alloc, stmts, list),
        Stmt::If { key, test, yes, no } => {
            let first = open_branch(alloc, Box::into_inner(yes));
            let (rest, yes) = beside((test, no, list), first)?;
            let (test, no, list) = rest;
            let second = open_branch(alloc, Box::into_inner(no));
            let (rest, no) = beside((test, yes, list), second)?;
            let (test, yes, list) = rest;
            push_if(alloc, key, test, yes, no, list)
        }
        other => push_other(other, list),
    }
}

// The statements of two bodies in a block, one after another.
fn opened(alloc: Global, first: Stmt, second: Stmt) -> Result<Stmt, AllocError>
    ensures { IfOk result (λ r. stmt_of r ≡ sequence (Slices.statements_of (stmt_of first) ++ Slices.statements_of (stmt_of second))) }
{
    let outcome = open(alloc, first, Vec::new(alloc));
    let (last, before) = beside(second, outcome)?;
    let stmts = open(alloc, last, before)?;
    Ok(Stmt::Block(stmts))
}

// What is kept of an inner body that is new, and of one before it, of which it is what that needs.
fn kept_both(
    alloc: Global,
    declarations: &[Declaration],
    ends: Ends,
    done: Stmt,
    group: Stmt,
) -> Result<(Stmt, Stmt), AllocError>
    ensures done { IfOk result (λ r. stmt_of r.0 ≡ Keeping.wanted declarations.now (ends.outer ∷ ends.inner ∷ []) ends.outer false (stmt_of done) (Keeping.with_wants declarations.now (ends.outer ∷ ends.inner ∷ []) ends.outer true (stmt_of group) none)) }
    ensures group { IfOk result (λ r. stmt_of r.1 ≡ Keeping.wanted declarations.now (ends.outer ∷ ends.inner ∷ []) ends.outer true (stmt_of group) none) }
{
    let mut needs = Members::none(alloc);
    let kept = kept_of(alloc, declarations, ends, true, group, &mut needs);
    let (before, behind) = beside(done, kept)?;
    let again = kept_of(alloc, declarations, ends, false, before, &mut needs);
    let (second, first) = beside(behind, again)?;
    Ok((first, second))
}

/// What an inner body that goes on behind another evaluates: what it needs of that, and what does more than set locals of
/// its own and what that needs. It takes time linear in both times the depth of their Ifs and the logarithm of their
/// variables, and for each If a copy of what is needed behind it.
pub(crate) fn slice(
    alloc: Global,
    declarations: &[Declaration],
    ends: Ends,
    done: Stmt,
    group: Stmt,
) -> Result<Stmt, AllocError>
    ensures { IfOk result (λ r. stmt_of r ≡ sequence (Slices.statements_of (resumed declarations.now (ends.outer ∷ ends.inner ∷ []) ends.outer (stmt_of done) (stmt_of group)))) }
{
    let (first, second) = kept_both(alloc, declarations, ends, done, group)?;
    opened(alloc, first, second)
}
