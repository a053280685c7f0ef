//! Copies of expressions and statements, where a pass writes one twice.

ghost use Rattle.std.specs.Prelude.{◌≡◌, ◌∷◌, [], ◌++◌, IfOk, map, option_map};
ghost use Rattle.gm_ast.specs.Program as Program;
ghost use Rattle.gm_ast.specs.Program.{sequence};
ghost use Rattle.gm_ast.specs.Tree.{expr_of, stmt_of};

use crate::places::{beside, with_pushed};
use gm_ast::tree::{Expr, Head, Key, Search, Stmt, Target, TotalKey};
use gm_base::Place;
use gm_value::Reduce;
use std::alloc::{AllocError, Global};

// A copy of an expression in a box.
#[cycle(copying)]
fn copy_boxed(alloc: Global, e: &Box<Expr>) -> Result<Box<Expr>, AllocError>
    ensures { IfOk result (λ r. expr_of r.value ≡ expr_of e.now.value) }
{
    let part = copy(alloc, e)?;
    Ok(Box::new(alloc, part)?)
}

/// A copy of an expression, in time and memory linear in it.
#[cycle(copying)]
pub fn copy(alloc: Global, e: &Expr) -> Result<Expr, AllocError>
    ensures { IfOk result (λ r. expr_of r ≡ expr_of e.now) }
{
    match e {
        Expr::Const(value) => Ok(Expr::Const(*value)),
        Expr::Var { variable, place } => Ok(Expr::Var {
            variable: *variable,
            place: *place,
        }),
        Expr::Property {
            owner,
            property,
            place,
        } => Ok(Expr::Property {
            owner: *owner,
            property: *property,
            place: *place,
        }),
        Expr::EdgeProperty {
            edge,
            property,
            place,
        } => Ok(Expr::EdgeProperty {
            edge: *edge,
            property: *property,
            place: *place,
        }),
        Expr::Degree {
            direction,
            owner,
            place,
        } => Ok(Expr::Degree {
            direction: *direction,
            owner: *owner,
            place: *place,
        }),
        Expr::NodeCount => Ok(Expr::NodeCount),
        Expr::EdgeCount => Ok(Expr::EdgeCount),
        Expr::Live { variable, place } => Ok(Expr::Live {
            variable: *variable,
            place: *place,
        }),
        Expr::Unary { op, place, inner } => {
            let inner = copy_boxed(alloc, inner)?;
            Ok(Expr::Unary {
                op: *op,
                place: *place,
                inner,
            })
        }
        Expr::Binary {
            op,
            place,
            left,
            right,
        } => {
            let left = copy_boxed(alloc, left)?;
            let (left, right) = beside(left, copy_boxed(alloc, right))?;
            Ok(Expr::Binary {
                op: *op,
                place: *place,
                left,
                right,
            })
        }
        Expr::Both(left, right) => {
            let left = copy_boxed(alloc, left)?;
            let (left, right) = beside(left, copy_boxed(alloc, right))?;
            Ok(Expr::Both(left, right))
        }
        Expr::Either(left, right) => {
            let left = copy_boxed(alloc, left)?;
            let (left, right) = beside(left, copy_boxed(alloc, right))?;
            Ok(Expr::Either(left, right))
        }
        Expr::Choose(test, yes, no) => {
            let test = copy_boxed(alloc, test)?;
            let (test, yes) = beside(test, copy_boxed(alloc, yes))?;
            let ((test, yes), no) = beside((test, yes), copy_boxed(alloc, no))?;
            Ok(Expr::Choose(test, yes, no))
        }
        Expr::Fold {
            fold,
            head,
            filter,
            body,
        } => {
            let filter = copy_boxed(alloc, filter)?;
            let (filter, body) = beside(filter, copy_boxed(alloc, body))?;
            Ok(Expr::Fold {
                fold: *fold,
                head: *head,
                filter,
                body,
            })
        }
    }
}

// A copy of an expression, where there is one.
fn copy_option(alloc: Global, e: &Option<Expr>) -> Result<Option<Expr>, AllocError>
    ensures { IfOk result (λ r. option_map expr_of r ≡ option_map expr_of e.now) }
{
    match e {
        None => Ok(None),
        Some(e) => Ok(Some(copy(alloc, e)?)),
    }
}

// Copies of some expressions.
fn copy_values(alloc: Global, values: &[Expr]) -> Result<Vec<Expr>, AllocError>
    ensures { IfOk result (λ r. map expr_of r.items ≡ map expr_of values.now) }
{
    let mut copies = Vec::new(alloc);
    for value in values {
        copies = with_copied(alloc, copies, value)?;
    }
    Ok(copies)
}

// A copy of one more expression behind others.
fn with_copied(alloc: Global, copies: Vec<Expr>, value: &Expr) -> Result<Vec<Expr>, AllocError>
    ensures { IfOk result (λ r. map expr_of r.items ≡ map expr_of copies.items ++ (expr_of value.now ∷ [])) }
{
    let (copies, part) = beside(copies, copy(alloc, value))?;
    let (_done, copies) = with_pushed((), copies, part)?;
    Ok(copies)
}

// A copy of some targets.
fn copy_targets(alloc: Global, targets: &[Target]) -> Result<Vec<Target>, AllocError>
    ensures { IfOk result (λ r. r.items ≡ targets.now) }
{
    let mut copies = Vec::new(alloc);
    copies.extend_from_slice(targets)?;
    Ok(copies)
}

// A copy of a reduction.
fn copy_reduce(
    alloc: Global,
    key: Key,
    total: TotalKey,
    reduce: Reduce,
    targets: &[Target],
    values: &[Expr],
) -> Result<Stmt, AllocError>
    ensures { IfOk result (λ r. stmt_of r ≡ Program.Combine key total reduce targets.now (map expr_of values.now)) }
{
    let targets = copy_targets(alloc, targets)?;
    let (targets, values) = beside(targets, copy_values(alloc, values))?;
    Ok(Stmt::Reduce {
        key,
        total,
        reduce,
        targets,
        values,
    })
}

// A copy of an assignment.
fn copy_assign(alloc: Global, key: Key, target: Target, value: &Expr) -> Result<Stmt, AllocError>
    ensures { IfOk result (λ r. stmt_of r ≡ Program.Assign key target (expr_of value.now)) }
{
    let value = copy(alloc, value)?;
    Ok(Stmt::Assign { key, target, value })
}

// A copy of a deferred one.
fn copy_defer(alloc: Global, key: Key, target: Target, value: &Expr) -> Result<Stmt, AllocError>
    ensures { IfOk result (λ r. stmt_of r ≡ Program.Defer key target (expr_of value.now)) }
{
    let value = copy(alloc, value)?;
    Ok(Stmt::Defer { key, target, value })
}

// A copy of a declaration.
fn copy_declare(
    alloc: Global,
    key: Key,
    variable: u32,
    value: &Option<Expr>,
) -> Result<Stmt, AllocError>
    ensures { IfOk result (λ r. stmt_of r ≡ Program.Declare key variable (option_map expr_of value.now)) }
{
    let value = copy_option(alloc, value)?;
    Ok(Stmt::Declare {
        key,
        variable,
        value,
    })
}

// A copy of a group assignment.
fn copy_group(
    alloc: Global,
    key: Key,
    place: Place,
    graph: u32,
    property: u32,
    value: &Expr,
) -> Result<Stmt, AllocError>
    ensures { IfOk result (λ r. stmt_of r ≡ Program.Group key place graph property (expr_of value.now)) }
{
    let value = copy(alloc, value)?;
    Ok(Stmt::Group {
        key,
        place,
        graph,
        property,
        value,
    })
}

// A copy of a return.
fn copy_return(
    alloc: Global,
    key: Key,
    place: Place,
    value: &Option<Expr>,
) -> Result<Stmt, AllocError>
    ensures { IfOk result (λ r. stmt_of r ≡ Program.Return key place (option_map expr_of value.now)) }
{
    let value = copy_option(alloc, value)?;
    Ok(Stmt::Return { key, place, value })
}

// A copy of one more statement behind others.
#[cycle(statements)]
fn with_copy(alloc: Global, s: &Stmt, copies: Vec<Stmt>) -> Result<Vec<Stmt>, AllocError>
    ensures { IfOk result (λ r. map stmt_of r.items ≡ map stmt_of copies.items ++ (stmt_of s.now ∷ [])) }
{
    let (copies, part) = beside(copies, copy_stmt(alloc, s))?;
    let (_done, copies) = with_pushed((), copies, part)?;
    Ok(copies)
}

/// Copies of some statements behind others.
#[cycle(statements)]
pub fn copy_all(
    alloc: Global,
    stmts: &Vec<Stmt>,
    copies: Vec<Stmt>,
) -> Result<Vec<Stmt>, AllocError>
    ensures { IfOk result (λ r. map stmt_of r.items ≡ map stmt_of copies.items ++ map stmt_of stmts.now.items) }
{
    let mut list = copies;
    for stmt in stmts {
        list = with_copy(alloc, stmt, list)?;
    }
    Ok(list)
}

// A copy of a statement in a box.
#[cycle(statements)]
fn copy_part(alloc: Global, s: &Box<Stmt>) -> Result<Box<Stmt>, AllocError>
    ensures { IfOk result (λ r. stmt_of r.value ≡ stmt_of s.now.value) }
{
    let part = copy_stmt(alloc, s)?;
    Ok(Box::new(alloc, part)?)
}

// A copy of a statement in a box and of an expression.
#[cycle(statements)]
fn copy_both(alloc: Global, s: &Box<Stmt>, e: &Expr) -> Result<(Box<Stmt>, Expr), AllocError>
    ensures part { IfOk result (λ r. stmt_of r.0.value ≡ stmt_of s.now.value) }
    ensures value { IfOk result (λ r. expr_of r.1 ≡ expr_of e.now) }
{
    let part = copy_part(alloc, s)?;
    beside(part, copy(alloc, e))
}

// A copy of a parallel loop.
#[cycle(statements)]
fn copy_foreach(
    alloc: Global,
    body: &Box<Stmt>,
    key: Key,
    place: Place,
    head: Head,
    filter: &Expr,
) -> Result<Stmt, AllocError>
    ensures { IfOk result (λ r. stmt_of r ≡ Program.Foreach key place head (expr_of filter.now) (stmt_of body.now.value)) }
{
    let (body, filter) = copy_both(alloc, body, filter)?;
    Ok(Stmt::Foreach {
        key,
        place,
        head,
        filter,
        body,
    })
}

// A copy of a loop in turn.
#[cycle(statements)]
fn copy_for(
    alloc: Global,
    body: &Box<Stmt>,
    key: Key,
    place: Place,
    head: Head,
    filter: &Expr,
) -> Result<Stmt, AllocError>
    ensures { IfOk result (λ r. stmt_of r ≡ Program.For key place head (expr_of filter.now) (stmt_of body.now.value)) }
{
    let (body, filter) = copy_both(alloc, body, filter)?;
    Ok(Stmt::For {
        key,
        place,
        head,
        filter,
        body,
    })
}

// A copy of a While.
#[cycle(statements)]
fn copy_while(
    alloc: Global,
    body: &Box<Stmt>,
    key: Key,
    place: Place,
    test: &Expr,
) -> Result<Stmt, AllocError>
    ensures { IfOk result (λ r. stmt_of r ≡ Program.While key place (expr_of test.now) (stmt_of body.now.value)) }
{
    let (body, test) = copy_both(alloc, body, test)?;
    Ok(Stmt::While {
        key,
        place,
        test,
        body,
    })
}

// A copy of a Do.
#[cycle(statements)]
fn copy_do(
    alloc: Global,
    body: &Box<Stmt>,
    key: Key,
    place: Place,
    test: &Expr,
) -> Result<Stmt, AllocError>
    ensures { IfOk result (λ r. stmt_of r ≡ Program.Do key place (stmt_of body.now.value) (expr_of test.now)) }
{
    let (body, test) = copy_both(alloc, body, test)?;
    Ok(Stmt::Do {
        key,
        place,
        body,
        test,
    })
}

// A copy of a search.
#[cycle(statements)]
fn copy_search(
    alloc: Global,
    body: &Box<Stmt>,
    key: Key,
    place: Place,
    search: Search,
    filter: &Expr,
) -> Result<Stmt, AllocError>
    ensures { IfOk result (λ r. stmt_of r ≡ Program.InBfs key place search (expr_of filter.now) (stmt_of body.now.value)) }
{
    let (body, filter) = copy_both(alloc, body, filter)?;
    Ok(Stmt::InBfs {
        key,
        place,
        search,
        filter,
        body,
    })
}

// An If of copies of its branches, with a copy of its condition.
fn if_of(
    alloc: Global,
    key: Key,
    test: &Expr,
    yes: Box<Stmt>,
    no: Box<Stmt>,
) -> Result<Stmt, AllocError>
    ensures { IfOk result (λ r. stmt_of r ≡ Program.If key (expr_of test.now) (stmt_of yes.value) (stmt_of no.value)) }
{
    let (branches, test) = beside((yes, no), copy(alloc, test))?;
    let (yes, no) = branches;
    Ok(Stmt::If { key, test, yes, no })
}

// A search of copies of its parts, with copies of their filters.
fn search_back_of(
    alloc: Global,
    key: Key,
    place: Place,
    search: Search,
    filter: &Expr,
    body: Box<Stmt>,
    back_key: Key,
    back_filter: &Expr,
    back: Box<Stmt>,
) -> Result<Stmt, AllocError>
    ensures { IfOk result (λ r. stmt_of r ≡ Program.InBfsBoth key place search (expr_of filter.now) (stmt_of body.value) back_key (expr_of back_filter.now) (stmt_of back.value)) }
{
    let (down, filter) = beside(body, copy(alloc, filter))?;
    let (up, back_filter) = beside(back, copy(alloc, back_filter))?;
    Ok(Stmt::InBfsBoth {
        key,
        place,
        search,
        filter,
        body: down,
        back_key,
        back_filter,
        back: up,
    })
}

// A copy of a block.
#[cycle(statements)]
fn copy_block(alloc: Global, stmts: &Vec<Stmt>) -> Result<Stmt, AllocError>
    ensures { IfOk result (λ r. stmt_of r ≡ sequence (map stmt_of stmts.now.items)) }
{
    let copies = copy_all(alloc, stmts, Vec::new(alloc))?;
    Ok(Stmt::Block(copies))
}

/// A copy of a statement, in time and memory linear in it.
#[cycle(statements)]
fn copy_stmt(alloc: Global, s: &Stmt) -> Result<Stmt, AllocError>
    ensures { IfOk result (λ r. stmt_of r ≡ stmt_of s.now) }
{
    match s {
        Stmt::Block(stmts) => copy_block(alloc, stmts),
        Stmt::Declare {
            key,
            variable,
            value,
        } => copy_declare(alloc, *key, *variable, value),
        Stmt::DeclareEdge {
            variable,
            iterator,
            place,
        } => Ok(Stmt::DeclareEdge {
            variable: *variable,
            iterator: *iterator,
            place: *place,
        }),
        Stmt::Assign { key, target, value } => copy_assign(alloc, *key, *target, value),
        Stmt::Defer { key, target, value } => copy_defer(alloc, *key, *target, value),
        Stmt::Reduce {
            key,
            total,
            reduce,
            targets,
            values,
        } => copy_reduce(alloc, *key, *total, *reduce, targets, values),
        Stmt::If { key, test, yes, no } => {
            let yes = copy_part(alloc, yes)?;
            let (yes, no) = beside(yes, copy_part(alloc, no))?;
            if_of(alloc, *key, test, yes, no)
        }
        Stmt::Group {
            key,
            place,
            graph,
            property,
            value,
        } => copy_group(alloc, *key, *place, *graph, *property, value),
        Stmt::Foreach {
            key,
            place,
            head,
            filter,
            body,
        } => copy_foreach(alloc, body, *key, *place, *head, filter),
        Stmt::For {
            key,
            place,
            head,
            filter,
            body,
        } => copy_for(alloc, body, *key, *place, *head, filter),
        Stmt::While {
            key,
            place,
            test,
            body,
        } => copy_while(alloc, body, *key, *place, test),
        Stmt::Do {
            key,
            place,
            body,
            test,
        } => copy_do(alloc, body, *key, *place, test),
        Stmt::InBfs {
            key,
            place,
            search,
            filter,
            body,
        } => copy_search(alloc, body, *key, *place, *search, filter),
        Stmt::InBfsBoth {
            key,
            place,
            search,
            filter,
            body,
            back_key,
            back_filter,
            back,
        } => {
            let body = copy_part(alloc, body)?;
            let (body, back) = beside(body, copy_part(alloc, back))?;
            search_back_of(
                alloc,
                *key,
                *place,
                *search,
                filter,
                body,
                *back_key,
                back_filter,
                back,
            )
        }
        Stmt::Return { key, place, value } => copy_return(alloc, *key, *place, value),
    }
}
