//! Conditions of what is cut from the rest of a body, each saved in a local of its own.
//!
//! Ifs that save their conditions are told apart by their numbers. Where an If has the number of one within it, as after a
//! pass that copies statements, those that were saved get new numbers and are saved again.

ghost use Rattle.std.specs.Prelude.{◌≡◌, ◌+◌, ◌++◌, IfOk, OnOk, map};
ghost use Rattle.gm_ast.specs.Program.{sequence};
ghost use Rattle.gm_ast.specs.Tree.{expr_of, program_of, stmt_of};
ghost use Rattle.gm_cut.specs.Parts.{each_passes};
ghost use Rattle.gm_dissect.specs.Conditions as Conditions;
ghost use Rattle.gm_dissect.specs.Loops.{each_loop};
ghost use Rattle.gm_parting.specs.Lasting as Lasting;
ghost use Rattle.gm_parting.specs.Numbers as Numbers;
ghost use Rattle.gm_parting.specs.Numbers.{above_ifs, count_ifs, numbered_loop, with_conditions_apart, with_numbers, with_own_numbers};
ghost use Rattle.gm_prepare.specs.Numbered as Numbered;

use gm_ast::forms::Work;
use gm_ast::tree::{Expr, Key, Stmt, Tree};
use gm_base::NoMemory;
use gm_cut::own::is_own;
use gm_dissect::conditions::{holds_cut, save_conditions};
use gm_trees::places::finish;
use std::alloc::Global;

/// Saves the condition of each If of a loop's body that holds what is cut from the rest in a local of its own, as
/// `save_conditions` does; where an If has the number of one within it, all that ask variables then get other numbers, and
/// their conditions are saved again. It takes time for each such If times the number of Ifs.
pub fn save_conditions_apart(alloc: Global, program: Work) -> Result<Work, NoMemory>
    ensures made { IfOk result (λ r. program_of r ≡ with_conditions_apart (program_of program)) }
{
    if has_numbered_ifs(&program) {
        return save_conditions(alloc, program);
    }
    let saved = save_conditions(alloc, program)?;
    let numbered = number_ifs(saved)?;
    save_conditions(alloc, numbered)
}

// Whether each If of a loop's body that holds what is cut has another number than those within it.
fn has_numbered_ifs(program: &Work) -> bool
    ensures { result ≡ Lasting.has_numbered_ifs (program_of program.now) }
{
    are_numbered(&program.tree().body)
}

// Whether an If of a block has a number.
#[cycle(searching)]
fn is_among(number: u32, stmts: &Vec<Stmt>) -> bool
    ensures { result ≡ Numbered.has_number number (sequence (map stmt_of stmts.now.items)) }
{
    for stmt in stmts {
        if is_inside(number, stmt) {
            return true;
        }
    }
    false
}

// Whether an If of a body has.
#[cycle(searching)]
fn is_inside(number: u32, body: &Stmt) -> bool
    ensures { result ≡ Numbered.has_number number (stmt_of body.now) }
{
    match body {
        Stmt::Block(stmts) => is_among(number, stmts),
        Stmt::If { key, yes, no, .. } => {
            number == key.statement || (is_inside(number, yes) || is_inside(number, no))
        }
        _ => false,
    }
}

// Whether an If has another number than those within it, where its branches hold what is cut.
fn differs(outer: u32, key: Key, yes: &Stmt, no: &Stmt) -> bool
    ensures { result ≡ Numbered.differs outer key (stmt_of yes.now) (stmt_of no.now) }
{
    !(holds_cut(outer, yes) || holds_cut(outer, no))
        || !(is_inside(key.statement, yes) || is_inside(key.statement, no))
}

// Whether each If of a block has.
#[cycle(telling)]
fn all_differ(outer: u32, stmts: &Vec<Stmt>) -> bool
    ensures { result ≡ Numbered.all_differ outer (sequence (map stmt_of stmts.now.items)) }
{
    for stmt in stmts {
        if !ifs_differ(outer, stmt) {
            return false;
        }
    }
    true
}

// Whether each If of a body has.
#[cycle(telling)]
fn ifs_differ(outer: u32, body: &Stmt) -> bool
    ensures { result ≡ Numbered.all_differ outer (stmt_of body.now) }
{
    match body {
        Stmt::Block(stmts) => all_differ(outer, stmts),
        Stmt::If { key, yes, no, .. } => {
            differs(outer, *key, yes, no) && (ifs_differ(outer, yes) && ifs_differ(outer, no))
        }
        _ => true,
    }
}

// Whether the loops of a block of a sequential phase are of own statements, or each If of their bodies has.
#[cycle(asking)]
fn all_numbered(stmts: &Vec<Stmt>) -> bool
    ensures { result ≡ each_passes Numbered.is_numbered (sequence (map stmt_of stmts.now.items)) }
{
    for stmt in stmts {
        if !are_numbered(stmt) {
            return false;
        }
    }
    true
}

// The same of a sequential phase.
#[cycle(asking)]
fn are_numbered(s: &Stmt) -> bool
    ensures { result ≡ each_passes Numbered.is_numbered (stmt_of s.now) }
{
    match s {
        Stmt::Block(stmts) => all_numbered(stmts),
        Stmt::Foreach { head, body, .. } => {
            is_own(head.iterator, body) || ifs_differ(head.iterator, body)
        }
        Stmt::For { body, .. } => are_numbered(body),
        Stmt::If { yes, no, .. } => are_numbered(yes) && are_numbered(no),
        Stmt::While { body, .. } => are_numbered(body),
        Stmt::Do { body, .. } => are_numbered(body),
        _ => true,
    }
}

// Other numbers for the Ifs of a program's bodies that ask variables.
fn number_ifs(program: Work) -> Result<Work, NoMemory>
    ensures { IfOk result (λ r. program_of r ≡ with_own_numbers (program_of program)) }
{
    let mut tree = program.into_tree();
    let outcome = number_tree(&mut tree);
    finish(tree, outcome)
}

// The same of a tree.
fn number_tree(tree: &mut Tree) -> Result<(), NoMemory>
    ensures { OnOk result (program_of tree.new ≡ with_own_numbers (program_of tree.old)) }
{
    number_phase(&mut tree.body)
}

// The sum of two numbers, where it is one.
fn sum(a: u32, b: u32) -> Result<u32, NoMemory>
    ensures { IfOk result (λ n. n ≡ a + b) }
{
    a.checked_add(b).ok_or(NoMemory)
}

// A number above those of a block's Ifs.
#[cycle(bounding)]
fn above_all(stmts: &Vec<Stmt>) -> Result<u32, NoMemory>
    ensures { IfOk result (λ n. n ≡ above_ifs (sequence (map stmt_of stmts.now.items))) }
{
    let mut above = 0;
    for stmt in stmts {
        above = above.max(above_ifs(stmt)?);
    }
    Ok(above)
}

// A number above those of a body's Ifs.
#[cycle(bounding)]
fn above_ifs(body: &Stmt) -> Result<u32, NoMemory>
    ensures { IfOk result (λ n. n ≡ above_ifs (stmt_of body.now)) }
{
    match body {
        Stmt::Block(stmts) => above_all(stmts),
        Stmt::If { key, yes, no, .. } => {
            let own = sum(key.statement, 1)?;
            let first = above_ifs(yes)?;
            let second = above_ifs(no)?;
            Ok(own.max(first.max(second)))
        }
        _ => Ok(0),
    }
}

// Whether an expression is a variable.
fn is_variable(e: &Expr) -> bool
    ensures { result ≡ Conditions.is_variable (expr_of e.now) }
{
    match e {
        Expr::Var { .. } => true,
        Expr::Const(_)
        | Expr::Property { .. }
        | Expr::EdgeProperty { .. }
        | Expr::Degree { .. }
        | Expr::Live { .. }
        | Expr::NodeCount
        | Expr::EdgeCount
        | Expr::Unary { .. }
        | Expr::Binary { .. }
        | Expr::Both(..)
        | Expr::Either(..)
        | Expr::Choose(..)
        | Expr::Fold { .. } => false,
    }
}

// The key of an If with so many Ifs within it, by numbers from the first on, if it asks a variable.
fn own_key(first: u32, within: u32, test: &Expr, key: Key) -> Result<Key, NoMemory>
    ensures { IfOk result (λ r. r ≡ Numbers.own_key (Conditions.is_variable (expr_of test.now)) (first + within) key) }
{
    if !is_variable(test) {
        return Ok(key);
    }
    let statement = sum(first, within)?;
    Ok(Key { statement, ..key })
}

// The Ifs of a block get numbers from the first on. Answers how many there are.
#[cycle(numbering)]
fn number_block(first: u32, stmts: &mut Vec<Stmt>) -> Result<u32, NoMemory>
    ensures count { IfOk result (λ n. n ≡ count_ifs (sequence (map stmt_of stmts.old.items))) }
    ensures changed { IfOk result (λ n. sequence (map stmt_of stmts.new.items) ≡ with_numbers first (sequence (map stmt_of stmts.old.items))) }
{
    let mut count = 0;
    for i in 0..stmts.len() {
        let within = number(first, &mut stmts[i])?;
        count = sum(count, within)?;
    }
    Ok(count)
}

// The same of a body in a box.
#[cycle(numbering)]
fn number_inner(first: u32, body: &mut Box<Stmt>) -> Result<u32, NoMemory>
    ensures count { IfOk result (λ n. n ≡ count_ifs (stmt_of body.old.value)) }
    ensures changed { IfOk result (λ n. stmt_of body.new.value ≡ with_numbers first (stmt_of body.old.value)) }
{
    let count = number(first, body)?;
    Ok(count)
}

// The same of a body.
#[cycle(numbering)]
fn number(first: u32, body: &mut Stmt) -> Result<u32, NoMemory>
    ensures count { IfOk result (λ n. n ≡ count_ifs (stmt_of body.old)) }
    ensures changed { IfOk result (λ n. stmt_of body.new ≡ with_numbers first (stmt_of body.old)) }
{
    match body {
        Stmt::Block(stmts) => number_block(first, stmts),
        Stmt::If { key, test, yes, no } => {
            let before = number_inner(first, yes)?;
            let behind = number_inner(first, no)?;
            let within = sum(before, behind)?;
            *key = own_key(first, within, test, *key)?;
            sum(within, 1)
        }
        _ => Ok(0),
    }
}

// The Ifs of a loop's body get numbers above those that they have.
fn number_body(body: &mut Box<Stmt>) -> Result<(), NoMemory>
    ensures { OnOk result (stmt_of body.new.value ≡ with_numbers (above_ifs (stmt_of body.old.value)) (stmt_of body.old.value)) }
{
    let first = above_ifs(body)?;
    number_inner(first, body)?;
    Ok(())
}

// The bodies of the loops in a block of a sequential phase get such numbers.
#[cycle(phases)]
fn number_phases(stmts: &mut Vec<Stmt>) -> Result<(), NoMemory>
    ensures { OnOk result (sequence (map stmt_of stmts.new.items) ≡ each_loop numbered_loop (sequence (map stmt_of stmts.old.items))) }
{
    for i in 0..stmts.len() {
        number_phase(&mut stmts[i])?;
    }
    Ok(())
}

// The same of a sequential phase in a box.
#[cycle(phases)]
fn number_part(s: &mut Box<Stmt>) -> Result<(), NoMemory>
    ensures { OnOk result (stmt_of s.new.value ≡ each_loop numbered_loop (stmt_of s.old.value)) }
{
    number_phase(s)?;
    Ok(())
}

// The same of a sequential phase.
#[cycle(phases)]
fn number_phase(s: &mut Stmt) -> Result<(), NoMemory>
    ensures { OnOk result (stmt_of s.new ≡ each_loop numbered_loop (stmt_of s.old)) }
{
    match s {
        Stmt::Block(stmts) => number_phases(stmts),
        Stmt::Foreach { body, .. } => number_body(body),
        Stmt::For { body, .. } => number_part(body),
        Stmt::If { yes, no, .. } => {
            number_part(yes)?;
            number_part(no)
        }
        Stmt::While { body, .. } => number_part(body),
        Stmt::Do { body, .. } => number_part(body),
        _ => Ok(()),
    }
}
