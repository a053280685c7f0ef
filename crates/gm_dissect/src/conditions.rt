//! Conditions of the bodies of parallel loops, saved before a part is cut from the rest.
//!
//! An If that holds an inner loop, or a reduction through another node variable, becomes several loops when its body is
//! cut, and each asks the condition again. So the condition is first saved in a local, once and where it is evaluated:
//! `If (c) s` is `Bool x = c; If (x) s`.

ghost use Rattle.std.specs.Prelude.{◌≡◌, ◌+◌, ◌<◌, ◌^◌, ◌∷◌, [], ◌++◌, true, IfOk, OnOk, length, map, option_map};
ghost use Rattle.std.specs.List.{list_any};
ghost use Rattle.gm_ast.specs.Program.{sequence};
ghost use Rattle.gm_ast.specs.Program as Program;
ghost use Rattle.gm_ast.specs.Tree.{expr_of, program_of, stmt_of};
ghost use Rattle.gm_forms.specs.Meanings.{SameMeaning};
ghost use Rattle.gm_forms.specs.Ready.{Ready2};
ghost use Rattle.gm_dissect.specs.Conditions as Conditions;
ghost use Rattle.gm_dissect.specs.Conditions.{flag_local, flag_locals, has_saved_conditions, holds_cut, numbers_in, numbers_of, saved_first, saved_loop, with_saved, with_saved_conditions};
ghost use Rattle.gm_dissect.specs.Loops.{each_loop};
ghost use Rattle.gm_trees.specs.Places.{after};

use gm_ast::forms::Work;
use gm_ast::tree::{Declaration, Expr, Key, Sort, Stmt, Target, Tree, Variable};
use gm_base::{Items, NoMemory, Place};
use gm_trees::places::{finish, put_after};
use gm_value::VType;
use std::alloc::{AllocError, Global};
use std::mem;

/// Saves the condition of each If of a loop's body that holds an inner loop, or a reduction through another node
/// variable, in a local. The locals stand behind the program's variables. A program that is ready for cutting means the
/// same and still is, and each such If asks a variable alone. It takes time for each such If times the number of Ifs.
pub fn save_conditions(alloc: Global, program: Work) -> Result<Work, NoMemory>
    ensures made { IfOk result (λ r. program_of r ≡ with_saved_conditions (program_of program)) }
    ensures same { IfOk result (λ r. Ready2 (program_of program) → SameMeaning (program_of program) (program_of r)) }
    ensures ready { IfOk result (λ r. Ready2 (program_of program) → Ready2 (program_of r)) }
    ensures saved { IfOk result (λ r. has_saved_conditions (program_of r) ≡ true) }
{
    let mut tree = program.into_tree();
    let outcome = save_all(alloc, &mut tree);
    finish(tree, outcome)
}

// The same of a tree.
fn save_all(alloc: Global, tree: &mut Tree) -> Result<(), NoMemory>
    ensures { OnOk result (program_of tree.new ≡ with_saved_conditions (program_of tree.old)) }
{
    let mut numbers = Vec::new(alloc);
    find(&tree.body, &mut numbers)?;
    let first = first_local(&tree.declarations, &numbers)?;
    declare(alloc, &numbers, &mut tree.declarations)?;
    save(alloc, first, &numbers, &mut tree.body)?;
    Ok(())
}

// The first of the locals, where the table has room for all.
fn first_local(declarations: &Vec<Declaration>, numbers: &Vec<u32>) -> Result<u32, NoMemory>
    ensures first { IfOk result (λ n. n ≡ length declarations.now.items) }
    ensures fits { IfOk result (λ n. n + length numbers.now.items < 2 ^ 32) }
{
    let Ok(first) = u32::try_from(declarations.len()) else {
        return Err(NoMemory);
    };
    let Ok(count) = u32::try_from(numbers.len()) else {
        return Err(NoMemory);
    };
    match first.checked_add(count) {
        Some(_) => Ok(first),
        None => Err(NoMemory),
    }
}

// Whether a target is a property through a variable other than the loop's iterator.
fn is_random(outer: u32, target: Target) -> bool
    ensures { result ≡ Conditions.is_random outer target }
{
    match target {
        Target::Scalar { .. } => false,
        Target::Property { owner, .. } => owner != outer,
    }
}

// Whether one of some targets is.
fn any_random(outer: u32, targets: &[Target]) -> bool
    ensures { result ≡ list_any (Conditions.is_random outer) targets.now }
{
    targets.iter().any(|target| is_random(outer, *target))
}

// Whether a block holds what is cut from the rest.
#[cycle(holding)]
fn holds_among(outer: u32, stmts: &Vec<Stmt>) -> bool
    ensures { result ≡ holds_cut outer (sequence (map stmt_of stmts.now.items)) }
{
    for stmt in stmts {
        if holds_cut(outer, stmt) {
            return true;
        }
    }
    false
}

/// Whether a part of a body holds what is cut from the rest: an inner loop, or a reduction through another node variable than
/// `outer`, the loop's iterator.
#[cycle(holding)]
pub fn holds_cut(outer: u32, body: &Stmt) -> bool
    ensures { result ≡ holds_cut outer (stmt_of body.now) }
{
    match body {
        Stmt::Block(stmts) => holds_among(outer, stmts),
        Stmt::Reduce { targets, .. } => any_random(outer, targets),
        Stmt::If { yes, no, .. } => holds_cut(outer, yes) || holds_cut(outer, no),
        Stmt::Foreach { .. } => true,
        _ => false,
    }
}

// Adds the number of an If, where one of its branches holds what is cut from the rest.
fn list_if(
    outer: u32,
    key: Key,
    yes: &Stmt,
    no: &Stmt,
    numbers: &mut Vec<u32>,
) -> Result<(), AllocError>
    ensures { OnOk result (numbers.new.items ≡ numbers.old.items ++ Conditions.number_if outer key (stmt_of yes.now) (stmt_of no.now)) }
{
    if holds_cut(outer, yes) || holds_cut(outer, no) {
        numbers.push(key.statement)?;
    }
    Ok(())
}

// Adds the numbers of the Ifs of a block that hold what is cut from the rest.
#[cycle(listing)]
fn list_block(outer: u32, stmts: &Vec<Stmt>, numbers: &mut Vec<u32>) -> Result<(), AllocError>
    ensures { OnOk result (numbers.new.items ≡ numbers.old.items ++ numbers_of outer (sequence (map stmt_of stmts.now.items))) }
{
    for stmt in stmts {
        list_body(outer, stmt, numbers)?;
    }
    Ok(())
}

// Adds the numbers of the Ifs of a body that do.
#[cycle(listing)]
fn list_body(outer: u32, body: &Stmt, numbers: &mut Vec<u32>) -> Result<(), AllocError>
    ensures { OnOk result (numbers.new.items ≡ numbers.old.items ++ numbers_of outer (stmt_of body.now)) }
{
    match body {
        Stmt::Block(stmts) => list_block(outer, stmts, numbers),
        Stmt::If { key, yes, no, .. } => {
            list_if(outer, *key, yes, no, numbers)?;
            list_body(outer, yes, numbers)?;
            list_body(outer, no, numbers)
        }
        _ => Ok(()),
    }
}

// Adds the same numbers of the loops of a block of a sequential phase.
#[cycle(finding)]
fn find_all(stmts: &Vec<Stmt>, numbers: &mut Vec<u32>) -> Result<(), AllocError>
    ensures { OnOk result (numbers.new.items ≡ numbers.old.items ++ numbers_in (sequence (map stmt_of stmts.now.items))) }
{
    for stmt in stmts {
        find(stmt, numbers)?;
    }
    Ok(())
}

// Adds the same numbers of the loops of a sequential phase.
#[cycle(finding)]
fn find(s: &Stmt, numbers: &mut Vec<u32>) -> Result<(), AllocError>
    ensures { OnOk result (numbers.new.items ≡ numbers.old.items ++ numbers_in (stmt_of s.now)) }
{
    match s {
        Stmt::Block(stmts) => find_all(stmts, numbers),
        Stmt::Foreach { head, body, .. } => list_body(head.iterator, body, numbers),
        Stmt::If { yes, no, .. } => {
            find(yes, numbers)?;
            find(no, numbers)
        }
        Stmt::For { body, .. } => find(body, numbers),
        Stmt::While { body, .. } => find(body, numbers),
        Stmt::Do { body, .. } => find(body, numbers),
        _ => Ok(()),
    }
}

// A local that holds a condition.
fn flag_local(alloc: Global) -> Declaration
    ensures { result ≡ flag_local }
{
    Declaration {
        name: Items::new(Vec::new(alloc)),
        variable: Variable {
            sort: Sort::Scalar,
            vtype: VType::Flag,
            depth: 1,
        },
    }
}

// Adds a local for each number.
fn declare(
    alloc: Global,
    numbers: &Vec<u32>,
    declarations: &mut Vec<Declaration>,
) -> Result<(), AllocError>
    ensures { OnOk result (declarations.new.items ≡ declarations.old.items ++ flag_locals numbers.now.items) }
{
    for _number in numbers {
        declarations.push(flag_local(alloc))?;
    }
    Ok(())
}

// The local of a statement, if it has one.
fn local_of(first: u32, numbers: &Vec<u32>, key: Key) -> Option<u32>
    requires { first + length numbers.now.items < 2 ^ 32 }
    ensures { result ≡ Conditions.local_of first numbers.now.items key }
{
    let mut local = first;
    for number in numbers {
        if *number == key.statement {
            return Some(local);
        }
        local += 1;
    }
    None
}

// Saves a condition in a local, which is asked in its place, if there is one.
fn save_test(local: Option<u32>, place: Place, key: Key, test: &mut Expr) -> Option<Stmt>
    ensures { (a b : Program.Stmt) → after (option_map stmt_of result) (Program.If key (expr_of test.new) a b) ≡ saved_first local place key (expr_of test.old) a b }
{
    let Some(variable) = local else {
        return None;
    };
    let condition = mem::replace(test, Expr::Var { variable, place });
    Some(Stmt::Declare {
        key,
        variable,
        value: Some(condition),
    })
}

// The conditions of the Ifs of a body's block that have locals are saved there.
#[cycle(saving)]
fn save_block(
    alloc: Global,
    first: u32,
    numbers: &Vec<u32>,
    place: Place,
    stmts: &mut Vec<Stmt>,
) -> Result<(), AllocError>
    requires { first + length numbers.now.items < 2 ^ 32 }
    ensures { OnOk result (sequence (map stmt_of stmts.new.items) ≡ with_saved (Conditions.local_of first numbers.now.items) place (sequence (map stmt_of stmts.old.items))) }
{
    for i in 0..stmts.len() {
        save_body(alloc, first, numbers, place, &mut stmts[i])?;
    }
    Ok(())
}

// The same of a body in a box.
#[cycle(saving)]
fn save_inner(
    alloc: Global,
    first: u32,
    numbers: &Vec<u32>,
    place: Place,
    s: &mut Box<Stmt>,
) -> Result<(), AllocError>
    requires { first + length numbers.now.items < 2 ^ 32 }
    ensures { OnOk result (stmt_of s.new.value ≡ with_saved (Conditions.local_of first numbers.now.items) place (stmt_of s.old.value)) }
{
    save_body(alloc, first, numbers, place, s)?;
    Ok(())
}

// The same of a body.
#[cycle(saving)]
fn save_body(
    alloc: Global,
    first: u32,
    numbers: &Vec<u32>,
    place: Place,
    s: &mut Stmt,
) -> Result<(), AllocError>
    requires { first + length numbers.now.items < 2 ^ 32 }
    ensures { OnOk result (stmt_of s.new ≡ with_saved (Conditions.local_of first numbers.now.items) place (stmt_of s.old)) }
{
    match s {
        Stmt::Block(stmts) => save_block(alloc, first, numbers, place, stmts),
        Stmt::If { key, test, yes, no } => {
            save_inner(alloc, first, numbers, place, yes)?;
            save_inner(alloc, first, numbers, place, no)?;
            let local = local_of(first, numbers, *key);
            let saved = save_test(local, place, *key, test);
            put_after(alloc, saved, s)?;
            Ok(())
        }
        _ => Ok(()),
    }
}

// The conditions of the loops' bodies in a block of a sequential phase are saved so.
#[cycle(loops)]
fn save_phases(
    alloc: Global,
    first: u32,
    numbers: &Vec<u32>,
    stmts: &mut Vec<Stmt>,
) -> Result<(), AllocError>
    requires { first + length numbers.now.items < 2 ^ 32 }
    ensures { OnOk result (sequence (map stmt_of stmts.new.items) ≡ each_loop (saved_loop (Conditions.local_of first numbers.now.items)) (sequence (map stmt_of stmts.old.items))) }
{
    for i in 0..stmts.len() {
        save(alloc, first, numbers, &mut stmts[i])?;
    }
    Ok(())
}

// The same of a sequential phase in a box.
#[cycle(loops)]
fn save_part(
    alloc: Global,
    first: u32,
    numbers: &Vec<u32>,
    s: &mut Box<Stmt>,
) -> Result<(), AllocError>
    requires { first + length numbers.now.items < 2 ^ 32 }
    ensures { OnOk result (stmt_of s.new.value ≡ each_loop (saved_loop (Conditions.local_of first numbers.now.items)) (stmt_of s.old.value)) }
{
    save(alloc, first, numbers, s)?;
    Ok(())
}

// The same of a sequential phase.
#[cycle(loops)]
fn save(alloc: Global, first: u32, numbers: &Vec<u32>, s: &mut Stmt) -> Result<(), AllocError>
    requires { first + length numbers.now.items < 2 ^ 32 }
    ensures { OnOk result (stmt_of s.new ≡ each_loop (saved_loop (Conditions.local_of first numbers.now.items)) (stmt_of s.old)) }
{
    match s {
        Stmt::Block(stmts) => save_phases(alloc, first, numbers, stmts),
        Stmt::Foreach { place, body, .. } => save_inner(alloc, first, numbers, *place, body),
        Stmt::For { body, .. } => save_part(alloc, first, numbers, body),
        Stmt::If { yes, no, .. } => {
            save_part(alloc, first, numbers, yes)?;
            save_part(alloc, first, numbers, no)
        }
        Stmt::While { body, .. } => save_part(alloc, first, numbers, body),
        Stmt::Do { body, .. } => save_part(alloc, first, numbers, body),
        _ => Ok(()),
    }
}
