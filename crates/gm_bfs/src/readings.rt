//! Expressions and inner loops that read copies, and inner loops over neighbours on other levels.

ghost use Rattle.std.specs.Prelude.{◌≡◌, IfOk, OnOk, map, option_map};
ghost use Rattle.gm_ast.specs.Program as Program;
ghost use Rattle.gm_ast.specs.Program.{sequence};
ghost use Rattle.gm_ast.specs.declared.tree.Key.{Key};
ghost use Rattle.gm_base.specs.declared.places.Place.{Place};
ghost use Rattle.gm_ast.specs.Tree.{expr_of, stmt_of};
ghost use Rattle.gm_bfs.specs.Copies as Copies;
ghost use Rattle.gm_bfs.specs.Searches as Searches;

use crate::fresh::{Fresh, copy_of};
use crate::marked::Marks;
use gm_ast::tree::{Domain, Expr, Head, Stmt};
use gm_base::NoMemory;
use gm_trees::places::{put, taken_value};
use gm_value::{Op2, Value};
use std::alloc::Global;

// The property that is read in place of one.
fn seen_as(
    fresh: Fresh,
    marks: &Marks,
    iterator: u32,
    owner: u32,
    property: u32,
) -> Result<u32, NoMemory>
    ensures { IfOk result (λ p. p ≡ Copies.seen_as fresh marks.now iterator owner property) }
{
    if owner == iterator && marks.has(property) {
        copy_of(fresh, property)
    } else {
        Ok(property)
    }
}

// Changes an expression, so that it reads copies.
fn read_copies(fresh: Fresh, marks: &Marks, iterator: u32, e: &mut Expr) -> Result<(), NoMemory>
    ensures { OnOk result (expr_of e.new ≡ Copies.reading fresh marks.now iterator (expr_of e.old)) }
{
    match e {
        Expr::Property {
            owner,
            property,
            ..
        } => {
            *property = seen_as(fresh, marks, iterator, *owner, *property)?;
            Ok(())
        }
        Expr::Unary { inner, .. } => read_copies(fresh, marks, iterator, inner),
        Expr::Binary { left, right, .. } => {
            read_copies(fresh, marks, iterator, left)?;
            read_copies(fresh, marks, iterator, right)
        }
        Expr::Both(left, right) => {
            read_copies(fresh, marks, iterator, left)?;
            read_copies(fresh, marks, iterator, right)
        }
        Expr::Either(left, right) => {
            read_copies(fresh, marks, iterator, left)?;
            read_copies(fresh, marks, iterator, right)
        }
        Expr::Choose(test, yes, no) => {
            read_copies(fresh, marks, iterator, test)?;
            read_copies(fresh, marks, iterator, yes)?;
            read_copies(fresh, marks, iterator, no)
        }
        Expr::Fold { filter, body, .. } => {
            read_copies(fresh, marks, iterator, filter)?;
            read_copies(fresh, marks, iterator, body)
        }
        Expr::Const(_)
        | Expr::Var { .. }
        | Expr::EdgeProperty { .. }
        | Expr::Degree { .. }
        | Expr::NodeCount
        | Expr::EdgeCount
        | Expr::Live { .. } => Ok(()),
    }
}

// The same of an expression that may be absent.
fn read_option(
    fresh: Fresh,
    marks: &Marks,
    iterator: u32,
    e: &mut Option<Expr>,
) -> Result<(), NoMemory>
    ensures { OnOk result (option_map expr_of e.new ≡ option_map (Copies.reading fresh marks.now iterator) (option_map expr_of e.old)) }
{
    match e {
        None => Ok(()),
        Some(e) => read_copies(fresh, marks, iterator, e),
    }
}

// The same of several expressions.
fn read_all(
    fresh: Fresh,
    marks: &Marks,
    iterator: u32,
    values: &mut Vec<Expr>,
) -> Result<(), NoMemory>
    ensures { OnOk result (map expr_of values.new.items ≡ map (Copies.reading fresh marks.now iterator) (map expr_of values.old.items)) }
{
    for value in values.iter_mut() {
        read_copies(fresh, marks, iterator, value)?;
    }
    Ok(())
}

// The same of a block in the body of an inner loop.
#[cycle(inner)]
fn read_block(
    fresh: Fresh,
    marks: &Marks,
    iterator: u32,
    stmts: &mut Vec<Stmt>,
) -> Result<(), NoMemory>
    ensures { OnOk result (sequence (map stmt_of stmts.new.items) ≡ Copies.inner_reading fresh marks.now iterator (sequence (map stmt_of stmts.old.items))) }
{
    for stmt in stmts.iter_mut() {
        read_inner(fresh, marks, iterator, stmt)?;
    }
    Ok(())
}

// The same of the body of an inner loop.
#[cycle(inner)]
fn read_inner(fresh: Fresh, marks: &Marks, iterator: u32, s: &mut Stmt) -> Result<(), NoMemory>
    ensures { OnOk result (stmt_of s.new ≡ Copies.inner_reading fresh marks.now iterator (stmt_of s.old)) }
{
    match s {
        Stmt::Block(stmts) => read_block(fresh, marks, iterator, stmts),
        Stmt::Declare { value, .. } => read_option(fresh, marks, iterator, value),
        Stmt::Assign { value, .. } => read_copies(fresh, marks, iterator, value),
        Stmt::Reduce { values, .. } => read_all(fresh, marks, iterator, values),
        Stmt::If { test, yes, no, .. } => {
            read_copies(fresh, marks, iterator, test)?;
            read_inner(fresh, marks, iterator, yes)?;
            read_inner(fresh, marks, iterator, no)
        }
        Stmt::DeclareEdge { .. }
        | Stmt::Defer { .. }
        | Stmt::Group { .. }
        | Stmt::Foreach { .. }
        | Stmt::For { .. }
        | Stmt::While { .. }
        | Stmt::Do { .. }
        | Stmt::InBfs { .. }
        | Stmt::InBfsBoth { .. }
        | Stmt::Return { .. } => Ok(()),
    }
}

// Whether a value is True.
fn is_yes(value: Value) -> bool
    ensures { result ≡ Searches.is_yes value }
{
    match value {
        Value::Flag(holds) => holds,
        Value::I32(_) | Value::I64(_) | Value::At(_) => false,
    }
}

// Whether a condition is the one that always holds.
fn is_always(e: &Expr) -> bool
    ensures { result ≡ Searches.is_always (expr_of e.now) }
{
    match e {
        Expr::Const(value) => is_yes(*value),
        Expr::Var { .. }
        | Expr::Property { .. }
        | Expr::EdgeProperty { .. }
        | Expr::Degree { .. }
        | Expr::NodeCount
        | Expr::EdgeCount
        | Expr::Live { .. }
        | Expr::Unary { .. }
        | Expr::Binary { .. }
        | Expr::Both(..)
        | Expr::Either(..)
        | Expr::Choose(..)
        | Expr::Fold { .. } => false,
    }
}

// Two conditions that are to hold both.
fn both(alloc: Global, first: Expr, second: Expr) -> Result<Expr, NoMemory>
    ensures { IfOk result (λ r. expr_of r ≡ Program.Both (expr_of first) (expr_of second)) }
{
    let left = Box::new(alloc, first)?;
    let right = Box::new(alloc, second)?;
    Ok(Expr::Both(left, right))
}

// Two conditions, of which the second may be absent.
pub(crate) fn conjunction(alloc: Global, first: Expr, second: Expr) -> Result<Expr, NoMemory>
    ensures { IfOk result (λ r. expr_of r ≡ Searches.conjunction (expr_of first) (expr_of second)) }
{
    if is_always(&second) {
        Ok(first)
    } else {
        both(alloc, first, second)
    }
}

// Whether the end of an inner loop's edge is on a level.
fn is_on(alloc: Global, fresh: Fresh, head: Head, level: u32) -> Result<Expr, NoMemory>
    ensures { IfOk result (λ r. expr_of r ≡ Searches.is_on fresh head level) }
{
    let left = Expr::Property {
        owner: head.iterator,
        property: fresh.level,
        place: head.place,
    };
    let right = Expr::Var {
        variable: level,
        place: head.place,
    };
    Ok(Expr::Binary {
        op: Op2::Eq,
        place: head.place,
        left: Box::new(alloc, left)?,
        right: Box::new(alloc, right)?,
    })
}

// A condition before another, which may be absent.
fn conjoin(alloc: Global, first: Expr, second: &mut Expr) -> Result<(), NoMemory>
    ensures { OnOk result (expr_of second.new ≡ Searches.conjunction (expr_of first) (expr_of second.old)) }
{
    let other = taken_value(second);
    let both = conjunction(alloc, first, other)?;
    put(second, both);
    Ok(())
}

// Changes an inner loop into one over the edges of a node in a direction whose other ends are on a level.
fn ranged(
    alloc: Global,
    fresh: Fresh,
    marks: &Marks,
    head: &mut Head,
    filter: &mut Expr,
    body: &mut Stmt,
    domain: Domain,
    level: u32,
) -> Result<(), NoMemory>
    ensures { OnOk result ((key : Key) (place : Place) → Program.Foreach key place head.new (expr_of filter.new) (stmt_of body.new) ≡ Searches.ranged fresh marks.now key place head.old (expr_of filter.old) (stmt_of body.old) domain level) }
{
    read_copies(fresh, marks, head.iterator, filter)?;
    read_inner(fresh, marks, head.iterator, body)?;
    let test = is_on(alloc, fresh, *head, level)?;
    conjoin(alloc, test, filter)?;
    head.domain = domain;
    Ok(())
}

// Changes an inner loop into one without ranges of levels.
fn inner_loop(
    alloc: Global,
    fresh: Fresh,
    marks: &Marks,
    head: &mut Head,
    filter: &mut Expr,
    body: &mut Stmt,
) -> Result<(), NoMemory>
    ensures { OnOk result ((key : Key) (place : Place) → Program.Foreach key place head.new (expr_of filter.new) (stmt_of body.new) ≡ Searches.inner_loop fresh marks.now key place head.old (expr_of filter.old) (stmt_of body.old) head.old.domain) }
{
    match head.domain {
        Domain::UpNbrs => {
            ranged(
                alloc,
                fresh,
                marks,
                head,
                filter,
                body,
                Domain::InNbrs,
                fresh.up,
            )
        }
        Domain::DownNbrs => {
            ranged(
                alloc,
                fresh,
                marks,
                head,
                filter,
                body,
                Domain::OutNbrs,
                fresh.down,
            )
        }
        Domain::Nodes | Domain::OutNbrs | Domain::InNbrs => Ok(()),
    }
}

// Changes a block of a part into one without ranges of levels.
#[cycle(levels)]
fn levels_among(
    alloc: Global,
    fresh: Fresh,
    marks: &Marks,
    stmts: &mut Vec<Stmt>,
) -> Result<(), NoMemory>
    ensures { OnOk result (sequence (map stmt_of stmts.new.items) ≡ Searches.by_levels fresh marks.now (sequence (map stmt_of stmts.old.items))) }
{
    for stmt in stmts.iter_mut() {
        by_levels(alloc, fresh, marks, stmt)?;
    }
    Ok(())
}

// Changes the body of a part into one without ranges of levels.
#[cycle(levels)]
pub(crate) fn by_levels(
    alloc: Global,
    fresh: Fresh,
    marks: &Marks,
    s: &mut Stmt,
) -> Result<(), NoMemory>
    ensures { OnOk result (stmt_of s.new ≡ Searches.by_levels fresh marks.now (stmt_of s.old)) }
{
    match s {
        Stmt::Block(stmts) => levels_among(alloc, fresh, marks, stmts),
        Stmt::If { yes, no, .. } => {
            by_levels(alloc, fresh, marks, yes)?;
            by_levels(alloc, fresh, marks, no)
        }
        Stmt::Foreach {
            head,
            filter,
            body,
            ..
        } => inner_loop(alloc, fresh, marks, head, filter, body),
        Stmt::Declare { .. }
        | Stmt::DeclareEdge { .. }
        | Stmt::Assign { .. }
        | Stmt::Defer { .. }
        | Stmt::Reduce { .. }
        | Stmt::Group { .. }
        | Stmt::For { .. }
        | Stmt::While { .. }
        | Stmt::Do { .. }
        | Stmt::InBfs { .. }
        | Stmt::InBfsBoth { .. }
        | Stmt::Return { .. } => Ok(()),
    }
}
