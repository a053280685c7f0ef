//! Which properties a part of a search changes while it reads them at other levels.

ghost use Rattle.std.specs.Prelude.{◌≡◌, IfOk, OnOk, map, option_map};
ghost use Rattle.gm_ast.specs.Loops as Loops;
ghost use Rattle.gm_ast.specs.Program.{sequence};
ghost use Rattle.gm_ast.specs.Tree.{expr_of, stmt_of};
ghost use Rattle.gm_bfs.specs.Copies as Copies;

use crate::marked::Marks;
use gm_ast::tree::{Domain, Expr, Stmt, Target};
use gm_base::NoMemory;
use std::alloc::Global;

// Marks the property of a target.
fn mark_target(marks: &mut Marks, target: Target) -> Result<(), NoMemory>
    ensures { OnOk result (marks.new ≡ Copies.mark_target target marks.old) }
{
    match target {
        Target::Scalar { .. } => Ok(()),
        Target::Property { property, .. } => marks.add(property),
    }
}

// Marks the properties of targets.
fn mark_targets(marks: &mut Marks, targets: &Vec<Target>) -> Result<(), NoMemory>
    ensures { OnOk result (marks.new ≡ Copies.mark_targets targets.now.items marks.old) }
{
    for target in targets {
        mark_target(marks, *target)?;
    }
    Ok(())
}

// Marks the properties that the statements of a block change.
#[cycle(changing)]
fn mark_changes_among(marks: &mut Marks, stmts: &Vec<Stmt>) -> Result<(), NoMemory>
    ensures { OnOk result (marks.new ≡ Copies.mark_changes (sequence (map stmt_of stmts.now.items)) marks.old) }
{
    for stmt in stmts {
        mark_changes(marks, stmt)?;
    }
    Ok(())
}

// Marks the properties that a body assigns or reduces.
#[cycle(changing)]
fn mark_changes(marks: &mut Marks, body: &Stmt) -> Result<(), NoMemory>
    ensures { OnOk result (marks.new ≡ Copies.mark_changes (stmt_of body.now) marks.old) }
{
    match body {
        Stmt::Block(stmts) => mark_changes_among(marks, stmts),
        Stmt::Assign { target, .. } => mark_target(marks, *target),
        Stmt::Reduce { targets, .. } => mark_targets(marks, targets),
        Stmt::If { yes, no, .. } => {
            mark_changes(marks, yes)?;
            mark_changes(marks, no)
        }
        Stmt::Foreach { body, .. } => mark_changes(marks, body),
        _ => Ok(()),
    }
}

// Marks a property where it is read through an iterator and is changed.
fn mark_read(
    marks: &mut Marks,
    changed: &Marks,
    iterator: u32,
    owner: u32,
    property: u32,
) -> Result<(), NoMemory>
    ensures { OnOk result (marks.new ≡ Copies.mark_read changed.now iterator owner property marks.old) }
{
    if owner == iterator && changed.has(property) {
        marks.add(property)
    } else {
        Ok(())
    }
}

// Marks the changed properties that an expression reads through an iterator.
fn mark_reads(marks: &mut Marks, changed: &Marks, iterator: u32, e: &Expr) -> Result<(), NoMemory>
    ensures { OnOk result (marks.new ≡ Copies.mark_reads changed.now iterator (expr_of e.now) marks.old) }
{
    match e {
        Expr::Property {
            owner,
            property,
            ..
        } => mark_read(marks, changed, iterator, *owner, *property),
        Expr::Unary { inner, .. } => mark_reads(marks, changed, iterator, inner),
        Expr::Binary { left, right, .. } | Expr::Both(left, right) | Expr::Either(left, right) => {
            mark_reads(marks, changed, iterator, left)?;
            mark_reads(marks, changed, iterator, right)
        }
        Expr::Choose(test, yes, no) => {
            mark_reads(marks, changed, iterator, test)?;
            mark_reads(marks, changed, iterator, yes)?;
            mark_reads(marks, changed, iterator, no)
        }
        Expr::Fold { filter, body, .. } => {
            mark_reads(marks, changed, iterator, filter)?;
            mark_reads(marks, changed, iterator, body)
        }
        _ => Ok(()),
    }
}

// The same of an expression that may be absent.
fn mark_option(
    marks: &mut Marks,
    changed: &Marks,
    iterator: u32,
    e: &Option<Expr>,
) -> Result<(), NoMemory>
    ensures { OnOk result (marks.new ≡ Copies.mark_option changed.now iterator (option_map expr_of e.now) marks.old) }
{
    match e {
        None => Ok(()),
        Some(e) => mark_reads(marks, changed, iterator, e),
    }
}

// The same of several expressions.
fn mark_all(
    marks: &mut Marks,
    changed: &Marks,
    iterator: u32,
    values: &Vec<Expr>,
) -> Result<(), NoMemory>
    ensures { OnOk result (marks.new ≡ Copies.mark_all changed.now iterator (map expr_of values.now.items) marks.old) }
{
    for value in values {
        mark_reads(marks, changed, iterator, value)?;
    }
    Ok(())
}

// The same of a block in the body of an inner loop.
#[cycle(reading)]
fn mark_inner_among(
    marks: &mut Marks,
    changed: &Marks,
    iterator: u32,
    stmts: &Vec<Stmt>,
) -> Result<(), NoMemory>
    ensures { OnOk result (marks.new ≡ Copies.mark_inner changed.now iterator (sequence (map stmt_of stmts.now.items)) marks.old) }
{
    for stmt in stmts {
        mark_inner(marks, changed, iterator, stmt)?;
    }
    Ok(())
}

// The same of the body of an inner loop.
#[cycle(reading)]
fn mark_inner(
    marks: &mut Marks,
    changed: &Marks,
    iterator: u32,
    body: &Stmt,
) -> Result<(), NoMemory>
    ensures { OnOk result (marks.new ≡ Copies.mark_inner changed.now iterator (stmt_of body.now) marks.old) }
{
    match body {
        Stmt::Block(stmts) => mark_inner_among(marks, changed, iterator, stmts),
        Stmt::Declare { value, .. } => mark_option(marks, changed, iterator, value),
        Stmt::Assign { value, .. } => mark_reads(marks, changed, iterator, value),
        Stmt::Reduce { values, .. } => mark_all(marks, changed, iterator, values),
        Stmt::If { test, yes, no, .. } => {
            mark_reads(marks, changed, iterator, test)?;
            mark_inner(marks, changed, iterator, yes)?;
            mark_inner(marks, changed, iterator, no)
        }
        _ => Ok(()),
    }
}

// Whether a range asks for the levels of a search.
fn asks_levels(domain: Domain) -> bool
    ensures { result ≡ Loops.asks_levels domain }
{
    match domain {
        Domain::UpNbrs | Domain::DownNbrs => true,
        Domain::Nodes | Domain::OutNbrs | Domain::InNbrs => false,
    }
}

// Marks the changed properties that a block reads at other levels.
#[cycle(asking)]
fn mark_levels_among(marks: &mut Marks, changed: &Marks, stmts: &Vec<Stmt>) -> Result<(), NoMemory>
    ensures { OnOk result (marks.new ≡ Copies.mark_levels changed.now (sequence (map stmt_of stmts.now.items)) marks.old) }
{
    for stmt in stmts {
        mark_levels(marks, changed, stmt)?;
    }
    Ok(())
}

// Marks the changed properties that a body reads at other levels.
#[cycle(asking)]
fn mark_levels(marks: &mut Marks, changed: &Marks, body: &Stmt) -> Result<(), NoMemory>
    ensures { OnOk result (marks.new ≡ Copies.mark_levels changed.now (stmt_of body.now) marks.old) }
{
    match body {
        Stmt::Block(stmts) => mark_levels_among(marks, changed, stmts),
        Stmt::If { yes, no, .. } => {
            mark_levels(marks, changed, yes)?;
            mark_levels(marks, changed, no)
        }
        Stmt::Foreach {
            head,
            filter,
            body,
            ..
        } => {
            if asks_levels(head.domain) {
                mark_reads(marks, changed, head.iterator, filter)?;
                mark_inner(marks, changed, head.iterator, body)
            } else {
                Ok(())
            }
        }
        _ => Ok(()),
    }
}

// Whether a range is the level above.
fn is_upward(domain: Domain) -> bool
    ensures { result ≡ Copies.is_upward domain }
{
    match domain {
        Domain::UpNbrs => true,
        Domain::Nodes | Domain::OutNbrs | Domain::InNbrs | Domain::DownNbrs => false,
    }
}

// Whether a range is the level below.
fn is_downward(domain: Domain) -> bool
    ensures { result ≡ Copies.is_downward domain }
{
    match domain {
        Domain::DownNbrs => true,
        Domain::Nodes | Domain::OutNbrs | Domain::InNbrs | Domain::UpNbrs => false,
    }
}

// Whether a block asks for the level above.
#[cycle(above)]
fn asks_up_among(stmts: &Vec<Stmt>) -> bool
    ensures { result ≡ Copies.asks_up (sequence (map stmt_of stmts.now.items)) }
{
    for stmt in stmts {
        if asks_up(stmt) {
            return true;
        }
    }
    false
}

// Whether a part of a search asks for the level above.
#[cycle(above)]
pub(crate) fn asks_up(body: &Stmt) -> bool
    ensures { result ≡ Copies.asks_up (stmt_of body.now) }
{
    match body {
        Stmt::Block(stmts) => asks_up_among(stmts),
        Stmt::If { yes, no, .. } => asks_up(yes) || asks_up(no),
        Stmt::Foreach { head, .. } => is_upward(head.domain),
        _ => false,
    }
}

// Whether a block asks for the level below.
#[cycle(below)]
fn asks_down_among(stmts: &Vec<Stmt>) -> bool
    ensures { result ≡ Copies.asks_down (sequence (map stmt_of stmts.now.items)) }
{
    for stmt in stmts {
        if asks_down(stmt) {
            return true;
        }
    }
    false
}

// Whether a part of a search asks for the level below.
#[cycle(below)]
pub(crate) fn asks_down(body: &Stmt) -> bool
    ensures { result ≡ Copies.asks_down (stmt_of body.now) }
{
    match body {
        Stmt::Block(stmts) => asks_down_among(stmts),
        Stmt::If { yes, no, .. } => asks_down(yes) || asks_down(no),
        Stmt::Foreach { head, .. } => is_downward(head.domain),
        _ => false,
    }
}

// What a part copies, marked among so many variables.
pub(crate) fn copied(alloc: Global, count: usize, body: &Stmt) -> Result<Marks, NoMemory>
    ensures { IfOk result (λ marks. marks ≡ Copies.copied count (stmt_of body.now)) }
{
    if !(asks_up(body) || asks_down(body)) {
        return Ok(Marks::none(alloc, 0));
    }
    let mut changed = Marks::none(alloc, count);
    mark_changes(&mut changed, body)?;
    let mut marks = Marks::none(alloc, count);
    mark_levels(&mut marks, &changed, body)?;
    Ok(marks)
}
