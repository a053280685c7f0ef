//! The body of a loop with properties of the loop's node in the place of locals.

ghost use Rattle.std.specs.Prelude.{◌≡◌, ◌+◌, ◌<◌, ◌^◌, length, map, option_map};
ghost use Rattle.gm_ast.specs.Program.{sequence};
ghost use Rattle.gm_ast.specs.Tree.{expr_of, stmt_of};
ghost use Rattle.gm_locals.specs.AllMoved as AllMoved;

use gm_ast::tree::{Declaration, Expr, Key, Stmt, Target};
use gm_base::Place;
use gm_trees::places::put;
use gm_value::{VType, Value};
use std::mem;

// The properties of a loop's locals, one for each from the first on: the loop's iterator, and the place of a read or write
// through it.
#[derive(Clone, Copy)]
pub(crate) struct Kept {
    pub(crate) first: u32,
    pub(crate) iterator: u32,
    pub(crate) place: Place,
}

// The property of a variable, if it is one of the locals.
fn property_of(first: u32, locals: &[u32], variable: u32) -> Option<u32>
    requires { first + length locals.now < 2 ^ 32 }
    ensures { result ≡ AllMoved.property_of first locals.now variable }
{
    let mut property = first;
    for local in locals {
        if variable == *local {
            return Some(property);
        }
        property += 1;
    }
    None
}

// A read of a variable, or of its property.
fn read_from(kept: Kept, locals: &[u32], variable: u32, place: Place) -> Expr
    requires { kept.first + length locals.now < 2 ^ 32 }
    ensures { expr_of result ≡ AllMoved.read_from kept.iterator (AllMoved.property_of kept.first locals.now variable) variable place }
{
    match property_of(kept.first, locals, variable) {
        None => Expr::Var { variable, place },
        Some(property) => Expr::Property {
            owner: kept.iterator,
            property,
            place,
        },
    }
}

// An expression reads the properties in place of the locals.
pub(crate) fn move_in(kept: Kept, locals: &[u32], e: &mut Expr)
    requires { kept.first + length locals.now < 2 ^ 32 }
    ensures { expr_of e.new ≡ AllMoved.all_moved_in (AllMoved.property_of kept.first locals.now) kept.iterator (expr_of e.old) }
{
    match e {
        Expr::Var { variable, place } => {
            let read = read_from(kept, locals, *variable, *place);
            put(e, read);
        }
        Expr::Unary { inner, .. } => move_in(kept, locals, inner),
        Expr::Binary { left, right, .. } => {
            move_in(kept, locals, left);
            move_in(kept, locals, right);
        }
        Expr::Both(left, right) => {
            move_in(kept, locals, left);
            move_in(kept, locals, right);
        }
        Expr::Either(left, right) => {
            move_in(kept, locals, left);
            move_in(kept, locals, right);
        }
        Expr::Choose(test, yes, no) => {
            move_in(kept, locals, test);
            move_in(kept, locals, yes);
            move_in(kept, locals, no);
        }
        Expr::Fold { .. } => {}
        _ => {}
    }
}

// The same of an expression that may be absent.
fn move_option(kept: Kept, locals: &[u32], e: &mut Option<Expr>)
    requires { kept.first + length locals.now < 2 ^ 32 }
    ensures { option_map expr_of e.new ≡ option_map (AllMoved.all_moved_in (AllMoved.property_of kept.first locals.now) kept.iterator) (option_map expr_of e.old) }
{
    match e {
        None => {}
        Some(e) => move_in(kept, locals, e),
    }
}

// The same of several expressions.
fn move_all(kept: Kept, locals: &[u32], values: &mut Vec<Expr>)
    requires { kept.first + length locals.now < 2 ^ 32 }
    ensures { map expr_of values.new.items ≡ map (AllMoved.all_moved_in (AllMoved.property_of kept.first locals.now) kept.iterator) (map expr_of values.old.items) }
{
    for i in 0..values.len() {
        move_in(kept, locals, &mut values[i]);
    }
}

// A target becomes the property, where it is one of the locals.
fn move_target(kept: Kept, locals: &[u32], target: &mut Target)
    requires { kept.first + length locals.now < 2 ^ 32 }
    ensures { target.new ≡ AllMoved.all_moved_target (AllMoved.property_of kept.first locals.now) kept.iterator target.old }
{
    if let Target::Scalar { variable, place } = *target {
        if let Some(property) = property_of(kept.first, locals, variable) {
            *target = Target::Property {
                owner: kept.iterator,
                property,
                place,
            };
        }
    }
}

// The same of several targets.
fn move_targets(kept: Kept, locals: &[u32], targets: &mut Vec<Target>)
    requires { kept.first + length locals.now < 2 ^ 32 }
    ensures { targets.new.items ≡ map (AllMoved.all_moved_target (AllMoved.property_of kept.first locals.now) kept.iterator) targets.old.items }
{
    for i in 0..targets.len() {
        move_target(kept, locals, &mut targets[i]);
    }
}

// The first value of a variable.
fn first_value(declarations: &[Declaration], variable: u32) -> Value
    ensures { result ≡ AllMoved.first_values declarations.now variable }
{
    match declarations.get(variable as usize) {
        None => VType::I32.zero(),
        Some(declaration) => declaration.variable.vtype.zero(),
    }
}

// What a declaration sets a variable to.
fn set_value(declarations: &[Declaration], variable: u32, value: Option<Expr>) -> Expr
    ensures { expr_of result ≡ AllMoved.set_value (AllMoved.first_values declarations.now) variable (option_map expr_of value) }
{
    match value {
        None => Expr::Const(first_value(declarations, variable)),
        Some(value) => value,
    }
}

// A declaration of a variable, or a write to its property, if it has one.
fn declared_at(
    kept: Kept,
    declarations: &[Declaration],
    property: Option<u32>,
    key: Key,
    variable: u32,
    value: Option<Expr>,
) -> Stmt
    ensures { stmt_of result ≡ AllMoved.declared_at kept.iterator kept.place (AllMoved.first_values declarations.now) property key variable (option_map expr_of value) }
{
    match property {
        None => Stmt::Declare {
            key,
            variable,
            value,
        },
        Some(property) => {
            let target = Target::Property {
                owner: kept.iterator,
                property,
                place: kept.place,
            };
            let value = set_value(declarations, variable, value);
            Stmt::Assign { key, target, value }
        }
    }
}

// A block of a body keeps the locals in the properties.
#[cycle(moving)]
fn move_block(kept: Kept, locals: &[u32], declarations: &[Declaration], stmts: &mut Vec<Stmt>)
    requires { kept.first + length locals.now < 2 ^ 32 }
    ensures { sequence (map stmt_of stmts.new.items) ≡ AllMoved.all_moved (AllMoved.property_of kept.first locals.now) kept.iterator kept.place (AllMoved.first_values declarations.now) (sequence (map stmt_of stmts.old.items)) }
{
    for i in 0..stmts.len() {
        move_body(kept, locals, declarations, &mut stmts[i]);
    }
}

// The same of a body in a box.
#[cycle(moving)]
pub(crate) fn move_inner(
    kept: Kept,
    locals: &[u32],
    declarations: &[Declaration],
    s: &mut Box<Stmt>,
)
    requires { kept.first + length locals.now < 2 ^ 32 }
    ensures { stmt_of s.new.value ≡ AllMoved.all_moved (AllMoved.property_of kept.first locals.now) kept.iterator kept.place (AllMoved.first_values declarations.now) (stmt_of s.old.value) }
{
    move_body(kept, locals, declarations, s);
}

// The same of a body.
#[cycle(moving)]
fn move_body(kept: Kept, locals: &[u32], declarations: &[Declaration], s: &mut Stmt)
    requires { kept.first + length locals.now < 2 ^ 32 }
    ensures { stmt_of s.new ≡ AllMoved.all_moved (AllMoved.property_of kept.first locals.now) kept.iterator kept.place (AllMoved.first_values declarations.now) (stmt_of s.old) }
{
    match s {
        Stmt::Block(stmts) => move_block(kept, locals, declarations, stmts),
        Stmt::Declare {
            key,
            variable,
            value,
        } => {
            move_option(kept, locals, value);
            let property = property_of(kept.first, locals, *variable);
            let value = mem::replace(value, None);
            let new = declared_at(kept, declarations, property, *key, *variable, value);
            put(s, new);
        }
        Stmt::Assign { target, value, .. } => {
            move_target(kept, locals, target);
            move_in(kept, locals, value);
        }
        Stmt::Defer { value, .. } => move_in(kept, locals, value),
        Stmt::Reduce {
            targets,
            values,
            ..
        } => {
            move_targets(kept, locals, targets);
            move_all(kept, locals, values);
        }
        Stmt::If { test, yes, no, .. } => {
            move_in(kept, locals, test);
            move_inner(kept, locals, declarations, yes);
            move_inner(kept, locals, declarations, no);
        }
        Stmt::Foreach { filter, body, .. } => {
            move_in(kept, locals, filter);
            move_inner(kept, locals, declarations, body);
        }
        _ => {}
    }
}
