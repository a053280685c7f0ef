//! The loops over nodes and the searches of a program with their reductions as inner loops.
//!
//! What stands in the filter goes into the body under an If: `Foreach (n: G.Nodes)(f) s` is `Foreach (n: G.Nodes) { ..
//! If (f') s }`, where the dots are the loops of the reductions of f. Such a loop comes before all other faults. A search
//! without its filter is behind a check of its root under the key that it had, unless the root is an iterator of a For
//! around, which always holds a node.

ghost use Rattle.std.specs.Prelude.{◌≡◌, ◌+◌, ◌∷◌, true, false, IfOk, OnOk, map, option_map};
ghost use Rattle.gm_base.specs.declared.places.Place.{Place};
ghost use Rattle.gm_ast.specs.Program as Program;
ghost use Rattle.gm_ast.specs.Program.{sequence};
ghost use Rattle.gm_ast.specs.Tree.{expr_of, program_of, stmt_of};
ghost use Rattle.gm_trees.specs.Places as Places;
ghost use Rattle.gm_forms.specs.Meanings.{SameMeaning};
ghost use Rattle.gm_forms.specs.Ready.{is_checked};
ghost use Rattle.gm_forms.specs.Uses.{is_named};
ghost use Rattle.gm_hoisting.specs.Hoisting as Hoisting;
ghost use Rattle.gm_hoisting.specs.Hoisting.{count_body, count_check, count_folds, count_loop, count_phase, filter_left, has_none, phase_out, without_inner_folds};
ghost use Rattle.gm_hoisting.specs.Stages.{CanBeHoisted, WithoutInnerFolds};
ghost use Rattle.gm_hoisting.specs.Totals.{totals_stand};

use crate::expressions::folds_before;
use crate::locals::{has_none, inside, is_sure, phase_added};
use crate::statements::{body_inner, put_behind};
use gm_ast::forms::Work;
use gm_ast::tree::{Expr, Key, Search, Stage, Stmt, Tree};
use gm_base::NoMemory;
use gm_desugar::conditions::set_to;
use gm_desugar::reads::take_next;
use gm_trees::places::{finish, put, put_after, taken, with_both_boxed};
use gm_value::Value;
use std::alloc::{AllocError, Global};
use std::mem;

/// Writes each reduction in the parallel loops and searches of a program as an inner loop onto a new local. Where each
/// variable stands in the table as it is used and the totals of reductions stand in order, a program of the checked form
/// means the same. If it was ready and could be hoisted, it still is ready, and no reduction is left in its loops and
/// searches. Answers want of memory too where the table has no room for the locals, or a line none for one place more.
pub fn inner_folds_out(alloc: Global, program: Work) -> Result<Work, NoMemory>
    ensures made { IfOk result (λ r. program_of r ≡ without_inner_folds (program_of program)) }
    ensures same { IfOk result (λ r. is_named (program_of program) ≡ true → is_checked (program_of program) ≡ true → totals_stand (program_of program) ≡ true → SameMeaning (program_of program) (program_of r)) }
    ensures ready { IfOk result (λ r. CanBeHoisted (program_of program) → WithoutInnerFolds (program_of r)) }
{
    let mut tree = program.into_tree();
    let outcome = hoist_tree(alloc, &mut tree);
    finish(tree, outcome)
}

// The same of a tree.
fn hoist_tree(alloc: Global, tree: &mut Tree) -> Result<(), NoMemory>
    ensures { OnOk result (program_of tree.new ≡ without_inner_folds (program_of tree.old)) }
{
    let Ok(first) = u32::try_from(tree.declarations.len()) else {
        return Err(NoMemory);
    };
    phase_added(alloc, &[], &tree.body, &mut tree.declarations)?;
    let mut next = first;
    phase_out(alloc, &mut next, &[], &mut tree.body)?;
    Ok(())
}

// Puts a body under a condition.
fn put_under(alloc: Global, key: Key, test: Expr, body: &mut Stmt) -> Result<(), AllocError>
    ensures { OnOk result (stmt_of body.new ≡ Program.If key (expr_of test) (stmt_of body.old) Program.Skip) }
{
    let held = taken(alloc, body);
    let nothing = Stmt::Block(Vec::new(alloc));
    let (test, yes, no) = with_both_boxed(alloc, test, held, nothing)?;
    put(body, Stmt::If { key, test, yes, no });
    Ok(())
}

// A filter goes into its body, whose reductions become loops onto the next locals.
fn filter_under(
    alloc: Global,
    next: &mut u32,
    key: Key,
    filter: &mut Expr,
    body: &mut Box<Stmt>,
) -> Result<(), AllocError>
    ensures filter { OnOk result (expr_of filter.new ≡ Program.always) }
    ensures body { OnOk result (stmt_of body.new.value ≡ Program.If key (expr_of filter.old) (Hoisting.body_out next.old (stmt_of body.old.value)) Program.Skip) }
    ensures next { OnOk result (next.new ≡ next.old + count_body (stmt_of body.old.value)) }
{
    body_inner(alloc, next, body)?;
    let test = mem::replace(filter, Expr::Const(Value::Flag(true)));
    put_under(alloc, key, test, body)?;
    Ok(())
}

// The same of a filter with reductions. Their loops are answered.
fn filter_before(
    alloc: Global,
    next: &mut u32,
    key: Key,
    filter: &mut Expr,
    body: &mut Box<Stmt>,
) -> Result<Vec<Stmt>, AllocError>
    ensures before { IfOk result (λ r. map stmt_of r.items ≡ Hoisting.folds_set next.old key (expr_of filter.old)) }
    ensures filter { OnOk result (expr_of filter.new ≡ Program.always) }
    ensures body { OnOk result (stmt_of body.new.value ≡ Program.If key (Hoisting.told_from next.old (expr_of filter.old)) (Hoisting.body_out (next.old + count_folds (expr_of filter.old)) (stmt_of body.old.value)) Program.Skip) }
    ensures next { OnOk result (next.new ≡ next.old + count_loop (expr_of filter.old) (stmt_of body.old.value)) }
{
    let before = folds_before(alloc, next, key, filter)?;
    match filter_under(alloc, next, key, filter, body) {
        Ok(()) => Ok(before),
        Err(error) => {
            drop(before);
            Err(error)
        }
    }
}

// A body comes under its filter, behind the loops of the filter's reductions.
fn guard(
    alloc: Global,
    next: &mut u32,
    key: Key,
    filter: &mut Expr,
    body: &mut Box<Stmt>,
) -> Result<(), AllocError>
    ensures filter { OnOk result (expr_of filter.new ≡ Program.always) }
    ensures body { OnOk result (stmt_of body.new.value ≡ Hoisting.under false next.old key (expr_of filter.old) (Hoisting.body_out (next.old + count_folds (expr_of filter.old)) (stmt_of body.old.value))) }
    ensures next { OnOk result (next.new ≡ next.old + count_loop (expr_of filter.old) (stmt_of body.old.value)) }
{
    let before = filter_before(alloc, next, key, filter, body)?;
    put_behind(alloc, before, body)?;
    Ok(())
}

// The reductions of a body and of its filter become loops.
#[tactic(auto, using(crate::proofs::Openings::opened_none, crate::proofs::Openings::opened_some, crate::proofs::Openings::filter_none, crate::proofs::Openings::filter_some, crate::proofs::Openings::count_none))]
fn open_body(
    alloc: Global,
    next: &mut u32,
    key: Key,
    filter: &mut Expr,
    body: &mut Box<Stmt>,
) -> Result<(), AllocError>
    ensures filter { OnOk result (expr_of filter.new ≡ filter_left (has_none (expr_of filter.old)) (expr_of filter.old)) }
    ensures body { OnOk result (stmt_of body.new.value ≡ Hoisting.opened next.old key (expr_of filter.old) (stmt_of body.old.value)) }
    ensures next { OnOk result (next.new ≡ next.old + count_loop (expr_of filter.old) (stmt_of body.old.value)) }
{
    if has_none(filter) {
        body_inner(alloc, next, body)
    } else {
        guard(alloc, next, key, filter, body)
    }
}

// The key of a loop over nodes: without a filter it comes before all.
fn loop_key(none: bool, key: Key) -> Key
    ensures { result ≡ Hoisting.loop_key none key }
{
    if none {
        key
    } else {
        Key {
            statement: 0,
            stage: Stage::Inner,
        }
    }
}

// The key of a search: without a filter it comes before the reductions that stood there.
fn search_key(none: bool, key: Key) -> Key
    ensures { result ≡ Hoisting.search_key none key }
{
    if none {
        key
    } else {
        Key {
            statement: key.statement,
            stage: Stage::Inner,
        }
    }
}

// The reductions of a loop over nodes become loops.
fn loop_out(
    alloc: Global,
    next: &mut u32,
    key: &mut Key,
    filter: &mut Expr,
    body: &mut Box<Stmt>,
) -> Result<(), AllocError>
    ensures key { OnOk result (key.new ≡ Hoisting.loop_key (has_none (expr_of filter.old)) key.old) }
    ensures filter { OnOk result (expr_of filter.new ≡ filter_left (has_none (expr_of filter.old)) (expr_of filter.old)) }
    ensures body { OnOk result (stmt_of body.new.value ≡ Hoisting.opened next.old key.old (expr_of filter.old) (stmt_of body.old.value)) }
    ensures next { OnOk result (next.new ≡ next.old + count_loop (expr_of filter.old) (stmt_of body.old.value)) }
{
    let inner = *key;
    *key = loop_key(has_none(filter), inner);
    open_body(alloc, next, inner, filter, body)
}

// The same of a part of a search.
fn part_out(
    alloc: Global,
    next: &mut u32,
    key: &mut Key,
    filter: &mut Expr,
    body: &mut Box<Stmt>,
) -> Result<(), AllocError>
    ensures key { OnOk result (key.new ≡ Hoisting.search_key (has_none (expr_of filter.old)) key.old) }
    ensures filter { OnOk result (expr_of filter.new ≡ filter_left (has_none (expr_of filter.old)) (expr_of filter.old)) }
    ensures body { OnOk result (stmt_of body.new.value ≡ Hoisting.opened next.old key.old (expr_of filter.old) (stmt_of body.old.value)) }
    ensures next { OnOk result (next.new ≡ next.old + count_loop (expr_of filter.old) (stmt_of body.old.value)) }
{
    let inner = *key;
    *key = search_key(has_none(filter), inner);
    open_body(alloc, next, inner, filter, body)
}

// The variable that the root of a search is checked in, where it is.
fn take_check(sure: bool, next: &mut u32) -> Result<u32, AllocError>
    ensures taken { IfOk result (λ n. n ≡ next.old) }
    ensures next { OnOk result (next.new ≡ next.old + count_check sure) }
{
    if sure { Ok(*next) } else { take_next(next) }
}

// The check of the root of a search, where it needs one.
fn check(sure: bool, variable: u32, key: Key, search: Search) -> Option<Stmt>
    ensures { (s : Program.Stmt) → Places.after (option_map stmt_of result) s ≡ Hoisting.root_checked sure variable key search s }
{
    if sure {
        return None;
    }
    let root = Expr::Live {
        variable: search.root,
        place: search.place,
    };
    Some(set_to(variable, key, root))
}

// The reductions of a search become loops. The check of its root is answered, where it needs one.
fn search_out(
    alloc: Global,
    next: &mut u32,
    around: &[u32],
    key: &mut Key,
    search: Search,
    filter: &mut Expr,
    body: &mut Box<Stmt>,
) -> Result<Option<Stmt>, AllocError>
    ensures out { IfOk result (λ r. (at : Place) → Places.after (option_map stmt_of r) (Program.InBfs key.new at search (expr_of filter.new) (stmt_of body.new.value)) ≡ phase_out around.now next.old (Program.InBfs key.old at search (expr_of filter.old) (stmt_of body.old.value))) }
    ensures next { OnOk result (next.new ≡ next.old + (count_check (Hoisting.is_sure around.now search (expr_of filter.old)) + count_loop (expr_of filter.old) (stmt_of body.old.value))) }
{
    let sure = is_sure(around, search, filter);
    let outer = *key;
    let variable = take_check(sure, next)?;
    part_out(alloc, next, key, filter, body)?;
    Ok(check(sure, variable, outer, search))
}

// The same of a search with a part that goes back.
fn both_out(
    alloc: Global,
    next: &mut u32,
    around: &[u32],
    key: &mut Key,
    search: Search,
    filter: &mut Expr,
    body: &mut Box<Stmt>,
    back_key: &mut Key,
    back_filter: &mut Expr,
    back: &mut Box<Stmt>,
) -> Result<Option<Stmt>, AllocError>
    ensures out { IfOk result (λ r. (at : Place) → Places.after (option_map stmt_of r) (Program.InBfsBoth key.new at search (expr_of filter.new) (stmt_of body.new.value) back_key.new (expr_of back_filter.new) (stmt_of back.new.value)) ≡ phase_out around.now next.old (Program.InBfsBoth key.old at search (expr_of filter.old) (stmt_of body.old.value) back_key.old (expr_of back_filter.old) (stmt_of back.old.value))) }
    ensures next { OnOk result (next.new ≡ next.old + (count_check (Hoisting.is_sure around.now search (expr_of filter.old)) + (count_loop (expr_of filter.old) (stmt_of body.old.value) + count_loop (expr_of back_filter.old) (stmt_of back.old.value)))) }
{
    let sure = is_sure(around, search, filter);
    let outer = *key;
    let variable = take_check(sure, next)?;
    part_out(alloc, next, key, filter, body)?;
    part_out(alloc, next, back_key, back_filter, back)?;
    Ok(check(sure, variable, outer, search))
}

// The reductions of the parallel loops and searches in a block become loops onto the next locals.
#[cycle(hoisting)]
fn phase_block(
    alloc: Global,
    next: &mut u32,
    around: &[u32],
    stmts: &mut Vec<Stmt>,
) -> Result<(), AllocError>
    ensures out { OnOk result (sequence (map stmt_of stmts.new.items) ≡ phase_out around.now next.old (sequence (map stmt_of stmts.old.items))) }
    ensures next { OnOk result (next.new ≡ next.old + count_phase around.now (sequence (map stmt_of stmts.old.items))) }
{
    for i in 0..stmts.len() {
        phase_out(alloc, next, around, &mut stmts[i])?;
    }
    Ok(())
}

// The same of a part of a sequential phase in a box.
#[cycle(hoisting)]
fn phase_inner(
    alloc: Global,
    next: &mut u32,
    around: &[u32],
    s: &mut Box<Stmt>,
) -> Result<(), AllocError>
    ensures out { OnOk result (stmt_of s.new.value ≡ phase_out around.now next.old (stmt_of s.old.value)) }
    ensures next { OnOk result (next.new ≡ next.old + count_phase around.now (stmt_of s.old.value)) }
{
    phase_out(alloc, next, around, s)?;
    Ok(())
}

// The same of a For's body.
#[cycle(hoisting)]
fn phase_inside(
    alloc: Global,
    next: &mut u32,
    around: &[u32],
    iterator: u32,
    body: &mut Box<Stmt>,
) -> Result<(), AllocError>
    ensures out { OnOk result (stmt_of body.new.value ≡ phase_out (iterator ∷ around.now) next.old (stmt_of body.old.value)) }
    ensures next { OnOk result (next.new ≡ next.old + count_phase (iterator ∷ around.now) (stmt_of body.old.value)) }
{
    let iterators = inside(alloc, iterator, around)?;
    let changed = phase_inner(alloc, next, &iterators, body);
    drop(iterators);
    changed
}

// The same of a part of a sequential phase.
#[cycle(hoisting)]
fn phase_out(alloc: Global, next: &mut u32, around: &[u32], s: &mut Stmt) -> Result<(), AllocError>
    ensures out { OnOk result (stmt_of s.new ≡ phase_out around.now next.old (stmt_of s.old)) }
    ensures next { OnOk result (next.new ≡ next.old + count_phase around.now (stmt_of s.old)) }
{
    match s {
        Stmt::Block(stmts) => phase_block(alloc, next, around, stmts),
        Stmt::Foreach {
            key,
            place: _place,
            head: _head,
            filter,
            body,
        } => loop_out(alloc, next, key, filter, body),
        Stmt::For { head, body, .. } => { phase_inside(alloc, next, around, head.iterator, body) }
        Stmt::If { yes, no, .. } => {
            phase_inner(alloc, next, around, yes)?;
            phase_inner(alloc, next, around, no)
        }
        Stmt::While { body, .. } => phase_inner(alloc, next, around, body),
        Stmt::Do { body, .. } => phase_inner(alloc, next, around, body),
        Stmt::InBfs {
            key,
            place: _place,
            search,
            filter,
            body,
        } => {
            let check = search_out(alloc, next, around, key, *search, filter, body)?;
            put_after(alloc, check, s)?;
            Ok(())
        }
        Stmt::InBfsBoth {
            key,
            place: _place,
            search,
            filter,
            body,
            back_key,
            back_filter,
            back,
        } => {
            let check = both_out(
                alloc,
                next,
                around,
                key,
                *search,
                filter,
                body,
                back_key,
                back_filter,
                back,
            )?;
            put_after(alloc, check, s)?;
            Ok(())
        }
        _ => Ok(()),
    }
}
