//! Whether the targets of each reduction are declared inside as many loops.

ghost use Rattle.std.specs.Prelude.{◌≡◌, map};
ghost use Rattle.std.specs.List.{list_all};
ghost use Rattle.gm_ast.specs.Program.{sequence};
ghost use Rattle.gm_ast.specs.Tree.{program_of, stmt_of};
ghost use Rattle.gm_cut.specs.Parts.{each_passes};
ghost use Rattle.gm_parting.specs.Tuples as Tuples;
ghost use Rattle.gm_prepare.specs.Evenness as Evenness;

use gm_ast::forms::Work;
use gm_ast::tree::{Declaration, Stmt, Target};
use gm_cut::own::is_own;
use gm_facts::ways::depth_at;

/// Whether each reduction in a loop that is not of own statements has targets that are properties, or scalars that are all
/// declared inside as many parallel loops. It takes time linear in the program.
pub fn has_even_tuples(program: &Work) -> bool
    ensures { result ≡ Tuples.has_even_tuples (program_of program.now) }
{
    let tree = program.tree();
    is_phase_even(&tree.declarations, &tree.body)
}

// Whether a target is a scalar that is declared inside so many parallel loops.
fn is_scalar_at(declarations: &[Declaration], depth: u32, target: Target) -> bool
    ensures { result ≡ Tuples.is_scalar_at declarations.now depth target }
{
    match target {
        Target::Scalar { variable, .. } => depth_at(declarations, variable) == depth,
        Target::Property { .. } => false,
    }
}

// Whether all of some targets are.
fn are_all_at(declarations: &[Declaration], depth: u32, targets: &[Target]) -> bool
    ensures { result ≡ list_all (Tuples.is_scalar_at declarations.now depth) targets.now }
{
    targets
        .iter()
        .all(|target| is_scalar_at(declarations, depth, *target))
}

// Whether targets are properties, or scalars that are all declared inside as many parallel loops.
fn are_even(declarations: &[Declaration], targets: &[Target]) -> bool
    ensures { result ≡ Tuples.are_even declarations.now targets.now }
{
    match targets.split_first() {
        Some((Target::Scalar { variable, .. }, rest)) => {
            are_all_at(declarations, depth_at(declarations, *variable), rest)
        }
        _ => true,
    }
}

// Whether those of each reduction of a block are.
#[cycle(reducing)]
fn reduce_evenly(declarations: &[Declaration], stmts: &Vec<Stmt>) -> bool
    ensures { result ≡ Tuples.reduces_evenly declarations.now (sequence (map stmt_of stmts.now.items)) }
{
    for stmt in stmts {
        if !reduces_evenly(declarations, stmt) {
            return false;
        }
    }
    true
}

// The same of a body.
#[cycle(reducing)]
fn reduces_evenly(declarations: &[Declaration], body: &Stmt) -> bool
    ensures { result ≡ Tuples.reduces_evenly declarations.now (stmt_of body.now) }
{
    match body {
        Stmt::Block(stmts) => reduce_evenly(declarations, stmts),
        Stmt::Reduce { targets, .. } => are_even(declarations, targets),
        Stmt::If { yes, no, .. } => {
            reduces_evenly(declarations, yes) && reduces_evenly(declarations, no)
        }
        Stmt::Foreach { body, .. } => reduces_evenly(declarations, body),
        _ => true,
    }
}

// Whether each loop of a block of a sequential phase is of own statements, or its reductions are.
#[cycle(passing)]
fn are_phases_even(declarations: &[Declaration], stmts: &Vec<Stmt>) -> bool
    ensures { result ≡ each_passes (Evenness.is_even declarations.now) (sequence (map stmt_of stmts.now.items)) }
{
    for stmt in stmts {
        if !is_phase_even(declarations, stmt) {
            return false;
        }
    }
    true
}

// The same of a statement of a sequential phase.
#[cycle(passing)]
fn is_phase_even(declarations: &[Declaration], s: &Stmt) -> bool
    ensures { result ≡ each_passes (Evenness.is_even declarations.now) (stmt_of s.now) }
{
    match s {
        Stmt::Block(stmts) => are_phases_even(declarations, stmts),
        Stmt::Foreach { head, body, .. } => {
            is_own(head.iterator, body) || reduces_evenly(declarations, body)
        }
        Stmt::For { body, .. } => is_phase_even(declarations, body),
        Stmt::If { yes, no, .. } => {
            is_phase_even(declarations, yes) && is_phase_even(declarations, no)
        }
        Stmt::While { body, .. } => is_phase_even(declarations, body),
        Stmt::Do { body, .. } => is_phase_even(declarations, body),
        _ => true,
    }
}
