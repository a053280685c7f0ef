//! Own statements of a body: what a loop over nodes does at its own node, and reductions through node variables.

ghost use Rattle.std.specs.Prelude.{◌≡◌, map};
ghost use Rattle.std.specs.List.{list_all};
ghost use Rattle.gm_ast.specs.Program.{sequence};
ghost use Rattle.gm_ast.specs.Tree.{stmt_of};
ghost use Rattle.gm_forms.specs.Cut as Cut;
ghost use Rattle.gm_cut.specs.Own as Own;

use gm_ast::tree::{Stmt, Target};
use gm_facts::faults::{can_overflow, cannot_fail, none_fails};
use gm_value::Reduce;

// Whether a target is a scalar, or a property of the loop's own node.
fn is_here(outer: u32, target: Target) -> bool
    ensures { result ≡ Cut.is_here outer target }
{
    match target {
        Target::Scalar { .. } => true,
        Target::Property { owner, .. } => owner == outer,
    }
}

// Whether all of some targets are.
fn all_here(outer: u32, targets: &[Target]) -> bool
    ensures { result ≡ list_all (Cut.is_here outer) targets.now }
{
    targets.iter().all(|target| is_here(outer, *target))
}

// Whether a block is of own statements without reductions through other node variables.
#[cycle(bodies)]
fn own_bodies(outer: u32, stmts: &Vec<Stmt>) -> bool
    ensures { result ≡ Cut.is_own_body outer (sequence (map stmt_of stmts.now.items)) }
{
    for stmt in stmts {
        if !own_body(outer, stmt) {
            return false;
        }
    }
    true
}

// Whether a body is.
#[cycle(bodies)]
fn own_body(outer: u32, body: &Stmt) -> bool
    ensures { result ≡ Cut.is_own_body outer (stmt_of body.now) }
{
    match body {
        Stmt::Block(stmts) => own_bodies(outer, stmts),
        Stmt::Declare { .. } | Stmt::Assign { .. } => true,
        Stmt::Reduce { targets, .. } => all_here(outer, targets),
        Stmt::If { yes, no, .. } => own_body(outer, yes) && own_body(outer, no),
        Stmt::DeclareEdge { .. }
        | Stmt::Defer { .. }
        | Stmt::Group { .. }
        | Stmt::Foreach { .. }
        | Stmt::For { .. }
        | Stmt::While { .. }
        | Stmt::Do { .. }
        | Stmt::InBfs { .. }
        | Stmt::InBfsBoth { .. }
        | Stmt::Return { .. } => false,
    }
}

// Whether a block is of own statements, where reductions through other node variables stand under no condition.
#[cycle(codes)]
fn own_codes(outer: u32, stmts: &Vec<Stmt>) -> bool
    ensures { result ≡ Cut.is_own_code outer (sequence (map stmt_of stmts.now.items)) }
{
    for stmt in stmts {
        if !own_code(outer, stmt) {
            return false;
        }
    }
    true
}

// Whether a body is.
#[cycle(codes)]
fn own_code(outer: u32, body: &Stmt) -> bool
    ensures { result ≡ Cut.is_own_code outer (stmt_of body.now) }
{
    match body {
        Stmt::Block(stmts) => own_codes(outer, stmts),
        Stmt::Reduce { .. } => true,
        other => own_body(outer, other),
    }
}

// Whether nothing that a block of own statements does can fault.
#[cycle(safety)]
fn are_safe(outer: u32, stmts: &Vec<Stmt>) -> bool
    ensures { result ≡ Own.is_safe outer (sequence (map stmt_of stmts.now.items)) }
{
    for stmt in stmts {
        if !is_safe(outer, stmt) {
            return false;
        }
    }
    true
}

// Whether nothing that own statements do can fault.
#[cycle(safety)]
fn is_safe(outer: u32, body: &Stmt) -> bool
    ensures { result ≡ Own.is_safe outer (stmt_of body.now) }
{
    match body {
        Stmt::Block(stmts) => are_safe(outer, stmts),
        Stmt::Declare {
            value: Some(value),
            ..
        } => cannot_fail(value),
        Stmt::Declare { value: None, .. } | Stmt::DeclareEdge { .. } => true,
        Stmt::Assign { target, value, .. } => is_here(outer, *target) && cannot_fail(value),
        Stmt::Reduce {
            reduce,
            targets,
            values,
            ..
        } => !can_overflow(*reduce) && (all_here(outer, targets) && none_fails(values)),
        Stmt::If { test, yes, no, .. } => {
            cannot_fail(test) && (is_safe(outer, yes) && is_safe(outer, no))
        }
        Stmt::Defer { .. }
        | Stmt::Group { .. }
        | Stmt::Foreach { .. }
        | Stmt::For { .. }
        | Stmt::While { .. }
        | Stmt::Do { .. }
        | Stmt::InBfs { .. }
        | Stmt::InBfsBoth { .. }
        | Stmt::Return { .. } => false,
    }
}

// Whether a block reduces by a Sum or a Product through another node variable.
#[cycle(adding)]
fn any_adds(outer: u32, stmts: &Vec<Stmt>) -> bool
    ensures { result ≡ Own.adds_beyond outer (sequence (map stmt_of stmts.now.items)) }
{
    for stmt in stmts {
        if adds_beyond(outer, stmt) {
            return true;
        }
    }
    false
}

// Whether a body does.
#[cycle(adding)]
pub(crate) fn adds_beyond(outer: u32, body: &Stmt) -> bool
    ensures { result ≡ Own.adds_beyond outer (stmt_of body.now) }
{
    match body {
        Stmt::Block(stmts) => any_adds(outer, stmts),
        Stmt::Reduce {
            reduce,
            targets,
            ..
        } => can_overflow(*reduce) && !all_here(outer, targets),
        Stmt::If { yes, no, .. } => adds_beyond(outer, yes) || adds_beyond(outer, no),
        Stmt::Declare { .. }
        | Stmt::DeclareEdge { .. }
        | Stmt::Assign { .. }
        | Stmt::Defer { .. }
        | Stmt::Group { .. }
        | Stmt::Foreach { .. }
        | Stmt::For { .. }
        | Stmt::While { .. }
        | Stmt::Do { .. }
        | Stmt::InBfs { .. }
        | Stmt::InBfsBoth { .. }
        | Stmt::Return { .. } => false,
    }
}

// Whether nothing that can fault stands in a block behind a Sum or Product through another node variable.
#[cycle(lasting)]
fn all_add_safely(outer: u32, stmts: &Vec<Stmt>) -> bool
    ensures { result ≡ Own.adds_safely outer (sequence (map stmt_of stmts.now.items)) }
{
    let mut adds = false;
    for stmt in stmts {
        if !adds_safely(outer, stmt) {
            return false;
        }
        if adds && !is_safe(outer, stmt) {
            return false;
        }
        adds = adds || adds_beyond(outer, stmt);
    }
    true
}

// Whether nothing does in a body.
#[cycle(lasting)]
fn adds_safely(outer: u32, body: &Stmt) -> bool
    ensures { result ≡ Own.adds_safely outer (stmt_of body.now) }
{
    match body {
        Stmt::Block(stmts) => all_add_safely(outer, stmts),
        Stmt::If { yes, no, .. } => adds_safely(outer, yes) && adds_safely(outer, no),
        Stmt::Declare { .. }
        | Stmt::DeclareEdge { .. }
        | Stmt::Assign { .. }
        | Stmt::Defer { .. }
        | Stmt::Reduce { .. }
        | Stmt::Group { .. }
        | Stmt::Foreach { .. }
        | Stmt::For { .. }
        | Stmt::While { .. }
        | Stmt::Do { .. }
        | Stmt::InBfs { .. }
        | Stmt::InBfsBoth { .. }
        | Stmt::Return { .. } => true,
    }
}

/// Whether a body may be a loop of own statements, `outer` being the loop's iterator.
#[tactic(auto, using(crate::proofs::OwnTests::own_same))]
pub fn is_own(outer: u32, body: &Stmt) -> bool
    ensures { result ≡ Cut.is_own_loop outer (stmt_of body.now) }
{
    own_code(outer, body) && adds_safely(outer, body)
}

// Whether a statement may stand behind a run of own statements, which may add through other node variables.
pub(crate) fn joins(outer: u32, adds: bool, stmt: &Stmt) -> bool
    ensures { result ≡ Own.joins_behind outer adds (stmt_of stmt.now) }
{
    if !is_own(outer, stmt) {
        return false;
    }
    !adds || is_safe(outer, stmt)
}
