//! A number above all variables that a statement writes.

ghost use Rattle.std.specs.Prelude.{◌≡◌, suc, map};
ghost use Rattle.gm_ast.specs.Program.{sequence};
ghost use Rattle.gm_ast.specs.Tree.{stmt_of};
ghost use Rattle.gm_loops.specs.Bounds.{bound_of, target_bound, targets_bound};

use gm_ast::tree::{Stmt, Target};

// The number above a variable.
fn above(x: u32) -> usize
    ensures { result ≡ suc x }
{
    x as usize + 1
}

// A number above the variable of a target.
fn target_bound(target: &Target) -> usize
    ensures { result ≡ target_bound target.now }
{
    match *target {
        Target::Scalar { variable, .. } => above(variable),
        Target::Property { property, .. } => above(property),
    }
}

// A number above the variables of some targets.
fn targets_bound(targets: &[Target]) -> usize
    ensures { result ≡ targets_bound targets.now }
{
    let mut bound = 0;
    for target in targets {
        bound = usize::max(bound, target_bound(target));
    }
    bound
}

// A number above all variables that a block writes.
#[cycle(bounding)]
fn bound_of_all(stmts: &Vec<Stmt>) -> usize
    ensures { result ≡ bound_of (sequence (map stmt_of stmts.now.items)) }
{
    let mut bound = 0;
    for stmt in stmts {
        bound = usize::max(bound, bound_of(stmt));
    }
    bound
}

/// A number above all variables that a statement writes.
#[cycle(bounding)]
pub fn bound_of(s: &Stmt) -> usize
    ensures { result ≡ bound_of (stmt_of s.now) }
{
    match s {
        Stmt::Block(stmts) => bound_of_all(stmts),
        Stmt::Declare { variable, .. } => above(*variable),
        Stmt::Assign { target, .. } | Stmt::Defer { target, .. } => target_bound(target),
        Stmt::Reduce { targets, .. } => targets_bound(targets),
        Stmt::Group {
            graph,
            property,
            ..
        } => usize::max(above(*graph), above(*property)),
        Stmt::Foreach { head, body, .. } | Stmt::For { head, body, .. } => {
            usize::max(above(head.iterator), bound_of(body))
        }
        Stmt::If { yes, no, .. } => usize::max(bound_of(yes), bound_of(no)),
        Stmt::While { body, .. } | Stmt::Do { body, .. } => bound_of(body),
        Stmt::InBfs { search, body, .. } => usize::max(above(search.iterator), bound_of(body)),
        Stmt::InBfsBoth {
            search,
            body,
            back,
            ..
        } => usize::max(
            above(search.iterator),
            usize::max(bound_of(body), bound_of(back)),
        ),
        Stmt::DeclareEdge { .. } | Stmt::Return { .. } => 0,
    }
}
