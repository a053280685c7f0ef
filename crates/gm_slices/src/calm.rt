//! What can fault in an expression, and in a body, within its inner loops too.

ghost use Rattle.std.specs.Prelude.{◌≡◌, ◌∷◌, ◌||◌, not, IfOk, map};
ghost use Rattle.std.specs.List.{list_all};
ghost use Rattle.gm_ast.specs.Program.{sequence};
ghost use Rattle.gm_ast.specs.Tree.{expr_of, stmt_of};
ghost use Rattle.gm_forms.specs.Cut as Cut;
ghost use Rattle.gm_loop_laws.specs.Masks as Masks;

use gm_ast::tree::{Expr, Head, Stmt, Target};
use gm_facts::faults::{can_fail1, can_fail2, can_overflow, cannot_fail, none_fails};
use gm_trees::variables::is_in;
use std::alloc::{AllocError, Global};

/// Whether an expression cannot fault where some iterators hold nodes. It takes time linear in it.
pub(crate) fn is_certain(iterators: &[u32], e: &Expr) -> bool
    ensures { result ≡ Masks.is_certain iterators.now (expr_of e.now) }
{
    match e {
        Expr::Const(_)
        | Expr::Var { .. }
        | Expr::EdgeProperty { .. }
        | Expr::NodeCount
        | Expr::EdgeCount => true,
        Expr::Property { owner, .. } | Expr::Degree { owner, .. } => is_in(iterators, *owner),
        Expr::Live { variable, .. } => is_in(iterators, *variable),
        Expr::Unary { op, inner, .. } => !can_fail1(*op) && is_certain(iterators, inner),
        Expr::Binary {
            op,
            left,
            right,
            ..
        } => !can_fail2(*op) && (is_certain(iterators, left) && is_certain(iterators, right)),
        Expr::Both(left, right) | Expr::Either(left, right) => {
            is_certain(iterators, left) && is_certain(iterators, right)
        }
        Expr::Choose(test, yes, no) => {
            is_certain(iterators, test) && (is_certain(iterators, yes) && is_certain(iterators, no))
        }
        Expr::Fold { .. } => false,
    }
}

// Some variables, and one before them.
fn with_front(alloc: Global, variable: u32, variables: &[u32]) -> Result<Vec<u32>, AllocError>
    ensures { IfOk result (λ r. r.items ≡ variable ∷ variables.now) }
{
    let mut list = Vec::new(alloc);
    list.push(variable)?;
    list.extend_from_slice(variables)?;
    Ok(list)
}

// Whether a target is there for sure: a scalar, or a property through one of some iterators.
fn is_there(iterators: &[u32], target: Target) -> bool
    ensures { result ≡ Cut.is_there iterators.now target }
{
    match target {
        Target::Scalar { .. } => true,
        Target::Property { owner, .. } => is_in(iterators, owner),
    }
}

// Whether all of some targets are.
fn all_there(iterators: &[u32], targets: &[Target]) -> bool
    ensures { result ≡ list_all (Cut.is_there iterators.now) targets.now }
{
    targets.iter().all(|target| is_there(iterators, *target))
}

// Whether nothing that a block does can fault.
#[cycle(calm)]
fn are_calm(alloc: Global, iterators: &[u32], stmts: &Vec<Stmt>) -> Result<bool, AllocError>
    ensures { IfOk result (λ r. r ≡ Cut.is_calm iterators.now (sequence (map stmt_of stmts.now.items))) }
{
    for stmt in stmts {
        if !is_calm(alloc, iterators, stmt)? {
            return Ok(false);
        }
    }
    Ok(true)
}

// Whether nothing that the body of an inner loop does can.
#[cycle(calm)]
fn is_calm_within(
    alloc: Global,
    iterators: &[u32],
    head: Head,
    body: &Stmt,
) -> Result<bool, AllocError>
    ensures { IfOk result (λ r. r ≡ Cut.is_calm (head.iterator ∷ iterators.now) (stmt_of body.now)) }
{
    let within = with_front(alloc, head.iterator, iterators)?;
    is_calm(alloc, &within, body)
}

/// Whether nothing that a body does can fault, where some iterators hold nodes. It takes time linear in the body.
#[cycle(calm)]
pub(crate) fn is_calm(alloc: Global, iterators: &[u32], s: &Stmt) -> Result<bool, AllocError>
    ensures { IfOk result (λ r. r ≡ Cut.is_calm iterators.now (stmt_of s.now)) }
{
    match s {
        Stmt::Block(stmts) => are_calm(alloc, iterators, stmts),
        Stmt::Declare {
            value: Some(value),
            ..
        } => Ok(cannot_fail(value)),
        Stmt::Declare { value: None, .. } | Stmt::DeclareEdge { .. } => Ok(true),
        Stmt::Assign { target, value, .. } | Stmt::Defer { target, value, .. } => {
            Ok(is_there(iterators, *target) && cannot_fail(value))
        }
        Stmt::Reduce {
            reduce,
            targets,
            values,
            ..
        } => Ok(!can_overflow(*reduce) && (all_there(iterators, targets) && none_fails(values))),
        Stmt::If { test, yes, no, .. } => {
            if !cannot_fail(test) {
                return Ok(false);
            }
            if !is_calm(alloc, iterators, yes)? {
                return Ok(false);
            }
            is_calm(alloc, iterators, no)
        }
        Stmt::Foreach {
            head,
            filter,
            body,
            ..
        } => {
            if !cannot_fail(filter) {
                return Ok(false);
            }
            is_calm_within(alloc, iterators, *head, body)
        }
        _ => Ok(false),
    }
}

// Whether a block reduces by a Sum or a Product through a node variable.
#[cycle(adding)]
fn any_adds(iterators: &[u32], stmts: &Vec<Stmt>) -> bool
    ensures { result ≡ Cut.adds_elsewhere iterators.now (sequence (map stmt_of stmts.now.items)) }
{
    for stmt in stmts {
        if adds_elsewhere(iterators, stmt) {
            return true;
        }
    }
    false
}

// Whether a body does.
#[cycle(adding)]
fn adds_elsewhere(iterators: &[u32], s: &Stmt) -> bool
    ensures { result ≡ Cut.adds_elsewhere iterators.now (stmt_of s.now) }
{
    match s {
        Stmt::Block(stmts) => any_adds(iterators, stmts),
        Stmt::Reduce {
            reduce,
            targets,
            ..
        } => can_overflow(*reduce) && !all_there(iterators, targets),
        Stmt::If { yes, no, .. } => adds_elsewhere(iterators, yes) || adds_elsewhere(iterators, no),
        _ => false,
    }
}

// Whether nothing that can fault stands in a block behind a Sum or a Product through a node variable.
#[cycle(lasting)]
fn all_add_last(alloc: Global, iterators: &[u32], stmts: &Vec<Stmt>) -> Result<bool, AllocError>
    ensures { IfOk result (λ r. r ≡ Cut.adds_last iterators.now (sequence (map stmt_of stmts.now.items))) }
{
    let mut adds = false;
    for stmt in stmts {
        if !adds_last(alloc, iterators, stmt)? {
            return Ok(false);
        }
        if !is_calm_where(alloc, adds, iterators, stmt)? {
            return Ok(false);
        }
        adds = adds || adds_elsewhere(iterators, stmt);
    }
    Ok(true)
}

// Whether nothing that a statement does can fault, where that is asked.
fn is_calm_where(
    alloc: Global,
    asked: bool,
    iterators: &[u32],
    s: &Stmt,
) -> Result<bool, AllocError>
    ensures { IfOk result (λ r. r ≡ (not asked || Cut.is_calm iterators.now (stmt_of s.now))) }
{
    if !asked {
        return Ok(true);
    }
    is_calm(alloc, iterators, s)
}

/// Whether nothing that can fault stands in a body behind a Sum or a Product through a node variable. It takes time
/// linear in the body times the depth of its Ifs.
#[cycle(lasting)]
pub(crate) fn adds_last(alloc: Global, iterators: &[u32], s: &Stmt) -> Result<bool, AllocError>
    ensures { IfOk result (λ r. r ≡ Cut.adds_last iterators.now (stmt_of s.now)) }
{
    match s {
        Stmt::Block(stmts) => all_add_last(alloc, iterators, stmts),
        Stmt::If { yes, no, .. } => {
            if !adds_last(alloc, iterators, yes)? {
                return Ok(false);
            }
            adds_last(alloc, iterators, no)
        }
        _ => Ok(true),
    }
}
