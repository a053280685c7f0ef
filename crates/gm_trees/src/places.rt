//! Statements and expressions put in the place of others, before and behind them, and trees that are changed in place.

ghost use Rattle.std.specs.Prelude.{◌≡◌, ◌++◌, true, [], ◌∷◌, Ok, IfOk, OnOk, box_value, is_ok, map, option_map};
ghost use Rattle.gm_ast.specs.Program.{sequence};
ghost use Rattle.gm_ast.specs.Tree.{stmt_of};
ghost use Rattle.gm_trees.specs.Places as Places;

use gm_ast::forms::Work;
use gm_ast::tree::{Expr, Stmt, Tree};
use gm_base::NoMemory;
use std::alloc::{AllocError, Global};
use std::mem;

/// Puts a statement or an expression in the place of another, which is dropped.
pub fn put<T: Drop>(s: &mut T, new: T)
    ensures { s.new ≡ new }
{
    drop(mem::replace(s, new));
}

/// Takes a statement out of its place.
pub fn taken(alloc: Global, s: &mut Stmt) -> Stmt
    ensures { result ≡ s.old }
{
    mem::replace(s, Stmt::Block(Vec::new(alloc)))
}

/// Takes an expression out of its place.
pub fn taken_value(e: &mut Expr) -> Expr
    ensures { result ≡ e.old }
{
    mem::replace(e, Expr::NodeCount)
}

/// A value beside another, where that came out. Else the first is dropped here, and the error handed on.
pub fn beside<A: Drop, B, E>(first: A, second: Result<B, E>) -> Result<(A, B), E>
    ensures first { IfOk result (λ r. r.0 ≡ first) }
    ensures second { IfOk result (λ r. second ≡ Ok r.1) }
{
    match second {
        Ok(second) => Ok((first, second)),
        Err(error) => Err(error),
    }
}

/// A part beside a value in a box. On the way out for want of memory both are dropped here.
pub fn with_boxed<P: Drop, A: Drop>(
    alloc: Global,
    part: P,
    value: A,
) -> Result<(P, Box<A>), AllocError>
    ensures part { IfOk result (λ r. r.0 ≡ part) }
    ensures value { IfOk result (λ r. box_value r.1 ≡ value) }
{
    let value = Box::new(alloc, value)?;
    Ok((part, value))
}

/// Two values, each in a box. On the way out for want of memory both are dropped here.
pub fn both_boxed<A: Drop, B: Drop>(
    alloc: Global,
    first: A,
    second: B,
) -> Result<(Box<A>, Box<B>), AllocError>
    ensures first { IfOk result (λ r. box_value r.0 ≡ first) }
    ensures second { IfOk result (λ r. box_value r.1 ≡ second) }
{
    let first = Box::new(alloc, first)?;
    let second = Box::new(alloc, second)?;
    Ok((first, second))
}

/// A part beside two others in boxes. On the way out for want of memory all three are dropped here.
pub fn with_both_boxed<P: Drop, A: Drop, B: Drop>(
    alloc: Global,
    part: P,
    first: A,
    second: B,
) -> Result<(P, Box<A>, Box<B>), AllocError>
    ensures part { IfOk result (λ r. r.0 ≡ part) }
    ensures first { IfOk result (λ r. box_value r.1 ≡ first) }
    ensures second { IfOk result (λ r. box_value r.2 ≡ second) }
{
    let first = Box::new(alloc, first)?;
    let second = Box::new(alloc, second)?;
    Ok((part, first, second))
}

/// A list with one more value, beside a part. On the way out for want of memory all are dropped here.
pub fn with_pushed<P: Drop, T: Drop>(
    part: P,
    list: Vec<T>,
    value: T,
) -> Result<(P, Vec<T>), AllocError>
    ensures part { IfOk result (λ r. r.0 ≡ part) }
    ensures list { IfOk result (λ r. r.1.items ≡ list.items ++ (value ∷ [])) }
{
    let mut list = list;
    list.push(value)?;
    Ok((part, list))
}

/// One statement after another, in a block.
pub fn in_turn(alloc: Global, first: Stmt, second: Stmt) -> Result<Stmt, AllocError>
    ensures { IfOk result (λ r. stmt_of r ≡ sequence (stmt_of first ∷ stmt_of second ∷ [])) }
{
    let stmts = vec![in alloc; first, second]?;
    Ok(Stmt::Block(stmts))
}

// A block of statements and one more behind them.
fn block_ending(stmts: Vec<Stmt>, last: Stmt) -> Result<Stmt, AllocError>
    ensures { IfOk result (λ r. stmt_of r ≡ sequence (map stmt_of stmts.items ++ (stmt_of last ∷ []))) }
{
    let mut stmts = stmts;
    match stmts.push(last) {
        Ok(()) => Ok(Stmt::Block(stmts)),
        Err(error) => {
            drop(stmts);
            Err(error.into())
        }
    }
}

/// Puts a statement behind another, in a block, if there is that.
pub fn put_after(alloc: Global, first: Option<Stmt>, s: &mut Stmt) -> Result<(), AllocError>
    ensures { OnOk result (stmt_of s.new ≡ Places.after (option_map stmt_of first) (stmt_of s.old)) }
{
    match first {
        None => Ok(()),
        Some(first) => {
            let second = taken(alloc, s);
            let both = in_turn(alloc, first, second)?;
            put(s, both);
            Ok(())
        }
    }
}

/// Puts a statement behind others, in a block, if there is a list of them.
pub fn put_after_all(
    alloc: Global,
    first: Option<Vec<Stmt>>,
    s: &mut Stmt,
) -> Result<(), AllocError>
    ensures { OnOk result (stmt_of s.new ≡ Places.after_all (option_map (λ v. map stmt_of v.items) first) (stmt_of s.old)) }
{
    match first {
        None => Ok(()),
        Some(first) => {
            let last = taken(alloc, s);
            let all = block_ending(first, last)?;
            put(s, all);
            Ok(())
        }
    }
}

/// Puts a statement before another, in a block, if there is that.
pub fn put_before(alloc: Global, s: &mut Stmt, second: Option<Stmt>) -> Result<(), AllocError>
    ensures { OnOk result (stmt_of s.new ≡ Places.before (stmt_of s.old) (option_map stmt_of second)) }
{
    match second {
        None => Ok(()),
        Some(second) => {
            let first = taken(alloc, s);
            let both = in_turn(alloc, first, second)?;
            put(s, both);
            Ok(())
        }
    }
}

/// The program of a tree that was changed in place, where nothing was in want of memory.
pub fn finish(tree: Tree, outcome: Result<(), NoMemory>) -> Result<Work, NoMemory>
    ensures tree { IfOk result (λ r. r ≡ tree) }
    ensures changed { IfOk result (λ r. is_ok outcome ≡ true) }
    ensures ended { is_ok result ≡ is_ok outcome }
{
    match outcome {
        Ok(()) => Ok(Work::new(tree)),
        Err(error) => {
            drop(tree);
            Err(error)
        }
    }
}
