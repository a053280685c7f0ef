//! Compound assignments written as assignments.
//!
//! A reduction assignment that is done at once is `x = x op e`, word for word: all of those in a sequential phase, and
//! in a body those to the iteration's own properties and locals. By Sum, Product, And and Or it becomes this
//! assignment, whose operator stands where the reduction's token does. By Min and Max it picks, one value or a whole
//! tuple, and stays a statement of its own. Reductions that end with a loop are left alone.

ghost use Rattle.std.specs.Prelude.{◌≡◌, false, IfOk, OnOk, map};
ghost use Rattle.gm_ast.specs.Program as Program;
ghost use Rattle.gm_ast.specs.Program.{sequence};
ghost use Rattle.gm_ast.specs.Tree.{expr_of, program_of, stmt_of};
ghost use Rattle.gm_semantics.specs.Iterations.{target_value};
ghost use Rattle.gm_forms.specs.Forms.{depth_at};
ghost use Rattle.gm_forms.specs.Meanings.{SameMeaning};
ghost use Rattle.gm_forms.specs.Sharing as Sharing;
ghost use Rattle.gm_forms.specs.Typing.{keeps_tuples};
ghost use Rattle.gm_desugar.specs.Compounds as Compounds;
ghost use Rattle.gm_desugar.specs.Compounds.{expanded, expanded_in, without_compounds};
ghost use Rattle.gm_desugar.specs.Stages.{WithoutCompounds, WithoutGroups};

use gm_ast::forms::Work;
use gm_ast::tree::{Declaration, Expr, Key, Stmt, Target, TotalKey, Tree};
use gm_base::{NoMemory, Place};
use gm_trees::places::{finish, put, with_both_boxed};
use gm_value::{Op2, Reduce};
use std::alloc::{AllocError, Global};
use std::mem;

/// Writes each reduction that is done at once as an assignment, unless it picks. The program means the same. If it was
/// a checked one without group assignments, it still is, and has no compound assignment.
pub fn compounds_out(alloc: Global, program: Work) -> Result<Work, NoMemory>
    ensures made { IfOk result (λ r. program_of r ≡ without_compounds (program_of program)) }
    ensures same { IfOk result (λ r. SameMeaning (program_of program) (program_of r)) }
    ensures ready { IfOk result (λ r. WithoutGroups (program_of program) → WithoutCompounds (program_of r)) }
{
    let mut tree = program.into_tree();
    let outcome = expand_tree(alloc, &mut tree);
    finish(tree, outcome)
}

// The same of a tree.
fn expand_tree(alloc: Global, tree: &mut Tree) -> Result<(), NoMemory>
    ensures { OnOk result (program_of tree.new ≡ without_compounds (program_of tree.old)) }
{
    expand(alloc, &tree.declarations, &mut tree.body)?;
    Ok(())
}

// Where a body stands: the iterator of the outermost loop, and whether the body is that of an inner loop.
#[derive(Clone, Copy)]
struct Body {
    outer: u32,
    inner: bool,
}

// How many parallel loops are around a variable's declaration.
fn depth_of(declarations: &[Declaration], variable: u32) -> u32
    ensures { result ≡ depth_at declarations.now variable }
{
    match declarations.get(variable as usize) {
        None => 0,
        Some(declaration) => declaration.variable.depth,
    }
}

// Whether a reduction to a target is done at once in a body.
fn is_at_once(declarations: &[Declaration], around: Body, target: Target) -> bool
    ensures { result ≡ Sharing.is_at_once declarations.now around.outer around.inner target }
{
    match target {
        Target::Scalar { variable, .. } => {
            let depth = depth_of(declarations, variable);
            if around.inner { depth > 1 } else { depth != 0 }
        }
        Target::Property { owner, .. } => {
            if around.inner {
                false
            } else {
                owner == around.outer
            }
        }
    }
}

// Whether a reduction to targets is.
fn are_at_once(declarations: &[Declaration], around: Body, targets: &[Target]) -> bool
    ensures { result ≡ Sharing.are_at_once declarations.now around.outer around.inner targets.now }
{
    targets
        .iter()
        .all(|target| is_at_once(declarations, around, *target))
}

// What a target holds.
fn target_value(target: Target) -> Expr
    ensures { expr_of result ≡ target_value target }
{
    match target {
        Target::Scalar { variable, place } => Expr::Var { variable, place },
        Target::Property {
            owner,
            property,
            place,
        } => Expr::Property {
            owner,
            property,
            place,
        },
    }
}

// A value with another by the operator of a reduction that does not pick.
fn operated(
    alloc: Global,
    reduce: Reduce,
    place: Place,
    left: Expr,
    right: Expr,
) -> Result<Expr, AllocError>
    ensures { IfOk result (λ r. expr_of r ≡ Compounds.operated reduce place (expr_of left) (expr_of right)) }
{
    let (place, left, right) = with_both_boxed(alloc, place, left, right)?;
    Ok(match reduce {
        Reduce::Sum => Expr::Binary {
            op: Op2::Add,
            place,
            left,
            right,
        },
        Reduce::Product => Expr::Binary {
            op: Op2::Mul,
            place,
            left,
            right,
        },
        Reduce::And => Expr::Both(left, right),
        _ => Expr::Either(left, right),
    })
}

// Whether a reduction picks one of the values, or tuples, that it is given.
fn keeps_tuples(reduce: Reduce) -> bool
    ensures { result ≡ keeps_tuples reduce }
{
    matches!(reduce, Reduce::Min | Reduce::Max)
}

// The assignment of a target's value with another by the operator of a reduction that does not pick.
fn one_assignment(
    alloc: Global,
    key: Key,
    total: TotalKey,
    reduce: Reduce,
    target: Target,
    value: Expr,
) -> Result<Stmt, AllocError>
    ensures { IfOk result (λ r. stmt_of r ≡ Program.Assign key target (Compounds.operated reduce total.place (target_value target) (expr_of value))) }
{
    let held = target_value(target);
    let value = operated(alloc, reduce, total.place, held, value)?;
    Ok(Stmt::Assign { key, target, value })
}

// A reduction that is done at once, as an assignment where it does not pick.
#[tactic(auto, using(crate::proofs::Assignments::picks_stay, crate::proofs::Assignments::targets_stay, crate::proofs::Assignments::values_stay, crate::proofs::Assignments::taken_out))]
fn assignment_of(
    alloc: Global,
    key: Key,
    total: TotalKey,
    reduce: Reduce,
    targets: Vec<Target>,
    values: Vec<Expr>,
) -> Result<Stmt, AllocError>
    ensures { IfOk result (λ r. stmt_of r ≡ Compounds.assignment_of key total reduce targets.items (map expr_of values.items)) }
{
    if keeps_tuples(reduce) || targets.len() != 1 || values.len() != 1 {
        return Ok(Stmt::Reduce {
            key,
            total,
            reduce,
            targets,
            values,
        });
    }
    let mut values = values;
    one_assignment(alloc, key, total, reduce, targets[0], values.remove(0))
}

// The same of targets and values that are taken out of a statement.
fn assignment_taken(
    alloc: Global,
    key: Key,
    total: TotalKey,
    reduce: Reduce,
    targets: &mut Vec<Target>,
    values: &mut Vec<Expr>,
) -> Result<Stmt, AllocError>
    ensures { IfOk result (λ r. stmt_of r ≡ Compounds.assignment_of key total reduce targets.old.items (map expr_of values.old.items)) }
{
    let targets = mem::replace(targets, Vec::new(alloc));
    let values = mem::replace(values, Vec::new(alloc));
    assignment_of(alloc, key, total, reduce, targets, values)
}

// The same where it is done at once in a body.
fn at_once(
    alloc: Global,
    declarations: &[Declaration],
    around: Body,
    key: Key,
    total: TotalKey,
    reduce: Reduce,
    targets: &mut Vec<Target>,
    values: &mut Vec<Expr>,
) -> Result<Stmt, AllocError>
    ensures { IfOk result (λ r. stmt_of r ≡ expanded_in declarations.now around.outer around.inner (Program.Combine key total reduce targets.old.items (map expr_of values.old.items))) }
{
    if are_at_once(declarations, around, targets) {
        return assignment_taken(alloc, key, total, reduce, targets, values);
    }
    let targets = mem::replace(targets, Vec::new(alloc));
    let values = mem::replace(values, Vec::new(alloc));
    Ok(Stmt::Reduce {
        key,
        total,
        reduce,
        targets,
        values,
    })
}

// Each reduction that is done at once in a body's block becomes an assignment.
#[cycle(body)]
fn expand_block(
    alloc: Global,
    declarations: &[Declaration],
    around: Body,
    stmts: &mut Vec<Stmt>,
) -> Result<(), AllocError>
    ensures { OnOk result (sequence (map stmt_of stmts.new.items) ≡ expanded_in declarations.now around.outer around.inner (sequence (map stmt_of stmts.old.items))) }
{
    for i in 0..stmts.len() {
        expand_body(alloc, declarations, around, &mut stmts[i])?;
    }
    Ok(())
}

// The same of a body in a box.
#[cycle(body)]
fn expand_inner(
    alloc: Global,
    declarations: &[Declaration],
    around: Body,
    s: &mut Box<Stmt>,
) -> Result<(), AllocError>
    ensures { OnOk result (stmt_of s.new.value ≡ expanded_in declarations.now around.outer around.inner (stmt_of s.old.value)) }
{
    expand_body(alloc, declarations, around, s)?;
    Ok(())
}

// The same of a body.
#[cycle(body)]
fn expand_body(
    alloc: Global,
    declarations: &[Declaration],
    around: Body,
    s: &mut Stmt,
) -> Result<(), AllocError>
    ensures { OnOk result (stmt_of s.new ≡ expanded_in declarations.now around.outer around.inner (stmt_of s.old)) }
{
    match s {
        Stmt::Block(stmts) => expand_block(alloc, declarations, around, stmts),
        Stmt::Reduce {
            key,
            total,
            reduce,
            targets,
            values,
        } => {
            let new = at_once(
                alloc,
                declarations,
                around,
                *key,
                *total,
                *reduce,
                targets,
                values,
            )?;
            put(s, new);
            Ok(())
        }
        Stmt::If { yes, no, .. } => {
            expand_inner(alloc, declarations, around, yes)?;
            expand_inner(alloc, declarations, around, no)
        }
        Stmt::Foreach { body, .. } => {
            let around = Body {
                inner: true,
                ..around
            };
            expand_inner(alloc, declarations, around, body)
        }
        _ => Ok(()),
    }
}

// Each reduction that is done at once in a block of the sequential phase becomes an assignment.
#[cycle(phase)]
fn expand_phases(
    alloc: Global,
    declarations: &[Declaration],
    stmts: &mut Vec<Stmt>,
) -> Result<(), AllocError>
    ensures { OnOk result (sequence (map stmt_of stmts.new.items) ≡ expanded declarations.now (sequence (map stmt_of stmts.old.items))) }
{
    for i in 0..stmts.len() {
        expand(alloc, declarations, &mut stmts[i])?;
    }
    Ok(())
}

// The same of a sequential phase in a box.
#[cycle(phase)]
fn expand_part(
    alloc: Global,
    declarations: &[Declaration],
    s: &mut Box<Stmt>,
) -> Result<(), AllocError>
    ensures { OnOk result (stmt_of s.new.value ≡ expanded declarations.now (stmt_of s.old.value)) }
{
    expand(alloc, declarations, s)?;
    Ok(())
}

// The same of a loop's body in the sequential phase.
fn expand_loop(
    alloc: Global,
    declarations: &[Declaration],
    iterator: u32,
    s: &mut Box<Stmt>,
) -> Result<(), AllocError>
    ensures { OnOk result (stmt_of s.new.value ≡ expanded_in declarations.now iterator false (stmt_of s.old.value)) }
{
    let around = Body {
        outer: iterator,
        inner: false,
    };
    expand_inner(alloc, declarations, around, s)
}

// The same of the sequential phase.
#[cycle(phase)]
fn expand(alloc: Global, declarations: &[Declaration], s: &mut Stmt) -> Result<(), AllocError>
    ensures { OnOk result (stmt_of s.new ≡ expanded declarations.now (stmt_of s.old)) }
{
    match s {
        Stmt::Block(stmts) => expand_phases(alloc, declarations, stmts),
        Stmt::Reduce {
            key,
            total,
            reduce,
            targets,
            values,
        } => {
            let new = assignment_taken(alloc, *key, *total, *reduce, targets, values)?;
            put(s, new);
            Ok(())
        }
        Stmt::Foreach { head, body, .. } => {
            expand_loop(alloc, declarations, head.iterator, body)
        }
        Stmt::For { body, .. } => expand_part(alloc, declarations, body),
        Stmt::If { yes, no, .. } => {
            expand_part(alloc, declarations, yes)?;
            expand_part(alloc, declarations, no)
        }
        Stmt::While { body, .. } => expand_part(alloc, declarations, body),
        Stmt::Do { body, .. } => expand_part(alloc, declarations, body),
        Stmt::InBfs { search, body, .. } => {
            expand_loop(alloc, declarations, search.iterator, body)
        }
        Stmt::InBfsBoth {
            search,
            body,
            back,
            ..
        } => {
            let iterator = search.iterator;
            expand_loop(alloc, declarations, iterator, body)?;
            expand_loop(alloc, declarations, iterator, back)
        }
        _ => Ok(()),
    }
}
