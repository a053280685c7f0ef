//! Deferred writes, written as writes at once to a copy.
//!
//! A deferred write takes effect when its loop ends. A loop that defers writes to a property is written as three: one
//! copies the property to a fresh one at every node, one does what the loop does but writes to the copy at once, and one
//! copies it back.

ghost use Rattle.std.specs.Prelude.{◌≡◌, ◌∷◌, [], if◌then◌else◌, IfOk, OnOk, map};
ghost use Rattle.gm_ast.specs.Program as Program;
ghost use Rattle.gm_ast.specs.Program.{sequence};
ghost use Rattle.gm_ast.specs.Tree.{expr_of, program_of, stmt_of};
ghost use Rattle.gm_forms.specs.Meanings.{SameMeaning};
ghost use Rattle.gm_forms.specs.Ready.{Ready2};
ghost use Rattle.gm_loop_laws.specs.Deferring as Deferring;
ghost use Rattle.gm_loop_laws.specs.Deferring.{undeferred};
ghost use Rattle.gm_dissect.specs.Deferred as Deferred;
ghost use Rattle.gm_dissect.specs.Deferred.{copied, copy_of, defers, undeferred_loop, without_deferred_to};
ghost use Rattle.gm_dissect.specs.Loops.{each_loop};

use gm_ast::forms::Work;
use gm_ast::tree::{Declaration, Expr, Head, Key, Sort, Stage, Stmt, Target, Tree, Variable};
use gm_base::{Items, NoMemory, Place};
use gm_trees::places::{finish, put, taken, taken_value};
use gm_value::{VType, Value};
use std::alloc::{AllocError, Global};

/// Writes each loop that defers writes to a property as loops that write to a copy of it at once. The copy becomes the
/// last of the program's variables. A program that is ready for cutting means the same, and still is.
pub fn deferred_to_out(alloc: Global, program: Work, property: u32) -> Result<Work, NoMemory>
    ensures made { IfOk result (λ r. program_of r ≡ without_deferred_to property (program_of program)) }
    ensures same { IfOk result (λ r. Ready2 (program_of program) → SameMeaning (program_of program) (program_of r)) }
    ensures ready { IfOk result (λ r. Ready2 (program_of program) → Ready2 (program_of r)) }
{
    let mut tree = program.into_tree();
    let outcome = move_out(alloc, property, &mut tree);
    finish(tree, outcome)
}

// The same of a tree.
pub(crate) fn move_out(alloc: Global, property: u32, tree: &mut Tree) -> Result<(), NoMemory>
    ensures { OnOk result (program_of tree.new ≡ without_deferred_to property (program_of tree.old)) }
{
    let Ok(copy) = u32::try_from(tree.declarations.len()) else {
        return Err(NoMemory);
    };
    let declared = copy_of(alloc, &tree.declarations, property);
    tree.declarations.push(declared)?;
    undefer(alloc, Move { property, copy }, &mut tree.body)?;
    Ok(())
}

// A property, and the fresh one that is written in its place.
#[derive(Clone, Copy)]
struct Move {
    property: u32,
    copy: u32,
}

// The declaration of a property like another, without a name.
fn copy_of(alloc: Global, declarations: &[Declaration], property: u32) -> Declaration
    ensures { result ≡ copy_of declarations.now property }
{
    let vtype = match declarations.get(property as usize) {
        None => VType::I32,
        Some(declaration) => declaration.variable.vtype,
    };
    Declaration {
        name: Items::new(Vec::new(alloc)),
        variable: Variable {
            sort: Sort::NodeProperty,
            vtype,
            depth: 0,
        },
    }
}

// Whether a target is a property.
fn is_property(property: u32, target: Target) -> bool
    ensures { result ≡ Deferred.is_property property target }
{
    match target {
        Target::Scalar { .. } => false,
        Target::Property {
            property: other,
            ..
        } => other == property,
    }
}

// Whether a block defers writes to a property.
#[cycle(deferring)]
fn defers_among(stmts: &Vec<Stmt>, property: u32) -> bool
    ensures { result ≡ defers property (sequence (map stmt_of stmts.now.items)) }
{
    for stmt in stmts {
        if defers(stmt, property) {
            return true;
        }
    }
    false
}

// Whether a body does.
#[cycle(deferring)]
pub(crate) fn defers(body: &Stmt, property: u32) -> bool
    ensures { result ≡ defers property (stmt_of body.now) }
{
    match body {
        Stmt::Block(stmts) => defers_among(stmts, property),
        Stmt::Defer { target, .. } => is_property(property, *target),
        Stmt::If { yes, no, .. } => defers(yes, property) || defers(no, property),
        _ => false,
    }
}

// The deferred writes to the property in a block become writes at once to its copy.
#[cycle(undeferring)]
fn undefer_block(moved: Move, stmts: &mut Vec<Stmt>)
    ensures { sequence (map stmt_of stmts.new.items) ≡ undeferred moved.property moved.copy (sequence (map stmt_of stmts.old.items)) }
{
    for i in 0..stmts.len() {
        undefer_body(moved, &mut stmts[i]);
    }
}

// The same of a body in a box.
#[cycle(undeferring)]
fn undefer_inner(moved: Move, s: &mut Box<Stmt>)
    ensures { stmt_of s.new.value ≡ undeferred moved.property moved.copy (stmt_of s.old.value) }
{
    undefer_body(moved, s);
}

// The same of a body.
#[cycle(undeferring)]
fn undefer_body(moved: Move, s: &mut Stmt)
    ensures { stmt_of s.new ≡ undeferred moved.property moved.copy (stmt_of s.old) }
{
    match s {
        Stmt::Block(stmts) => undefer_block(moved, stmts),
        Stmt::Defer { key, target, value } => {
            let new = undeferred_to(moved, *key, *target, taken_value(value));
            put(s, new);
        }
        Stmt::If { yes, no, .. } => {
            undefer_inner(moved, yes);
            undefer_inner(moved, no);
        }
        _ => {}
    }
}

// A deferred write to a target, at once to the copy where the target is the property.
fn undeferred_to(moved: Move, key: Key, target: Target, value: Expr) -> Stmt
    ensures { stmt_of result ≡ Deferring.undeferred_to moved.property moved.copy key target (expr_of value) }
{
    match target {
        Target::Scalar { .. } => Stmt::Defer { key, target, value },
        Target::Property {
            owner,
            property,
            place,
        } => {
            if property == moved.property {
                let target = Target::Property {
                    owner,
                    property: moved.copy,
                    place,
                };
                Stmt::Assign { key, target, value }
            } else {
                Stmt::Defer { key, target, value }
            }
        }
    }
}

// A loop that sets one property to another at every node.
fn copying(
    alloc: Global,
    property: u32,
    other: u32,
    place: Place,
    head: Head,
) -> Result<Stmt, AllocError>
    ensures { IfOk result (λ r. stmt_of r ≡ copied property other place head) }
{
    let first = Key {
        statement: 0,
        stage: Stage::Inner,
    };
    let key = Key {
        statement: 1,
        stage: Stage::Inner,
    };
    let target = Target::Property {
        owner: head.iterator,
        property,
        place,
    };
    let value = Expr::Property {
        owner: head.iterator,
        property: other,
        place,
    };
    let body = Box::new(alloc, Stmt::Assign { key, target, value })?;
    Ok(Stmt::Foreach {
        key: first,
        place,
        head,
        filter: Expr::Const(Value::Flag(true)),
        body,
    })
}

// A block of three statements.
fn three(alloc: Global, a: Stmt, b: Stmt, c: Stmt) -> Result<Stmt, AllocError>
    ensures { IfOk result (λ r. stmt_of r ≡ sequence (stmt_of a ∷ stmt_of b ∷ stmt_of c ∷ [])) }
{
    let stmts = vec![in alloc; a, b, c]?;
    Ok(Stmt::Block(stmts))
}

// Puts a loop that moves its writes between one that copies the property and one that copies it back.
fn put_between(
    alloc: Global,
    moves: bool,
    moved: Move,
    place: Place,
    head: Head,
    s: &mut Stmt,
) -> Result<(), AllocError>
    ensures { OnOk result (stmt_of s.new ≡ (if moves then sequence (copied moved.copy moved.property place head ∷ stmt_of s.old ∷ copied moved.property moved.copy place head ∷ []) else stmt_of s.old)) }
{
    if !moves {
        return Ok(());
    }
    let first = copying(alloc, moved.copy, moved.property, place, head)?;
    let Ok(last) = copying(alloc, moved.property, moved.copy, place, head) else {
        drop(first);
        return Err(AllocError);
    };
    let middle = taken(alloc, s);
    let all = three(alloc, first, middle, last)?;
    put(s, all);
    Ok(())
}

// The body of a loop that defers writes to the property writes at once to its copy. Any other stays. Whether it does.
fn undefer_where(moved: Move, body: &mut Box<Stmt>) -> bool
    ensures moves { result ≡ defers moved.property (stmt_of body.old.value) }
    ensures changed { stmt_of body.new.value ≡ (if defers moved.property (stmt_of body.old.value) then undeferred moved.property moved.copy (stmt_of body.old.value) else stmt_of body.old.value) }
{
    if !defers(body, moved.property) {
        return false;
    }
    undefer_inner(moved, body);
    true
}

// The loops of a block that defer writes to the property become three each.
#[cycle(moving)]
fn undefer_phases(alloc: Global, moved: Move, stmts: &mut Vec<Stmt>) -> Result<(), AllocError>
    ensures { OnOk result (sequence (map stmt_of stmts.new.items) ≡ each_loop (undeferred_loop moved.property moved.copy) (sequence (map stmt_of stmts.old.items))) }
{
    for i in 0..stmts.len() {
        undefer(alloc, moved, &mut stmts[i])?;
    }
    Ok(())
}

// The same of a sequential phase in a box.
#[cycle(moving)]
fn undefer_part(alloc: Global, moved: Move, s: &mut Box<Stmt>) -> Result<(), AllocError>
    ensures { OnOk result (stmt_of s.new.value ≡ each_loop (undeferred_loop moved.property moved.copy) (stmt_of s.old.value)) }
{
    undefer(alloc, moved, s)?;
    Ok(())
}

// The same of a sequential phase.
#[cycle(moving)]
fn undefer(alloc: Global, moved: Move, s: &mut Stmt) -> Result<(), AllocError>
    ensures { OnOk result (stmt_of s.new ≡ each_loop (undeferred_loop moved.property moved.copy) (stmt_of s.old)) }
{
    match s {
        Stmt::Block(stmts) => undefer_phases(alloc, moved, stmts),
        Stmt::Foreach {
            key: _key,
            place,
            head,
            filter: _filter,
            body,
        } => {
            let moves = undefer_where(moved, body);
            put_between(alloc, moves, moved, *place, *head, s)?;
            Ok(())
        }
        Stmt::For { body, .. } => undefer_part(alloc, moved, body),
        Stmt::If { yes, no, .. } => {
            undefer_part(alloc, moved, yes)?;
            undefer_part(alloc, moved, no)
        }
        Stmt::While { body, .. } => undefer_part(alloc, moved, body),
        Stmt::Do { body, .. } => undefer_part(alloc, moved, body),
        _ => Ok(()),
    }
}
