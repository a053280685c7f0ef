//! All locals of the bodies from which a part is cut, kept in properties where they can.
//!
//! A local that is set before a part is cut from a body, and read behind it, is read by another loop then. So the loop
//! keeps it in a fresh property of its node. A loop before it sets the property to what the local holds there. Locals
//! that are reduced together go together.

ghost use Rattle.std.specs.Prelude.{◌≡◌, ◌+◌, ◌<◌, ◌^◌, ◌++◌, IfOk, OnOk, length, map};
ghost use Rattle.gm_ast.specs.Program.{sequence};
ghost use Rattle.gm_ast.specs.Tree.{expr_of, program_of, stmt_of};
ghost use Rattle.gm_forms.specs.Meanings.{SameMeaning};
ghost use Rattle.gm_forms.specs.Ready.{Ready2};
ghost use Rattle.gm_dissect.specs.Deferred as Deferred;
ghost use Rattle.gm_dissect.specs.Locals.{set_to};
ghost use Rattle.gm_locals.specs.AllGroups as AllGroups;
ghost use Rattle.gm_locals.specs.AllGroups.{groups_in, with_groups, with_groups_kept};
ghost use Rattle.gm_locals.specs.AllMoved as AllMoved;

use crate::groups::group_of;
use crate::rewriting::{Kept, move_in, move_inner};
use gm_ast::forms::Work;
use gm_ast::tree::{Declaration, Expr, Head, Key, Sort, Stage, Stmt, Target, Tree, Variable};
use gm_base::{Items, NoMemory, Place};
use gm_trees::places::{finish, put, taken};
use gm_value::{VType, Value};
use std::alloc::{AllocError, Global};

/// Keeps the locals of the bodies from which a part is cut in properties of the loop's node, where nothing is reached
/// through them, and locals that are reduced together with those alone. The properties stand behind the program's
/// variables. A program that is ready for cutting means the same and still is. Each loop is changed in one walk over its
/// body; which of its locals may go is found by a walk for each of them, again where some may not.
pub fn locals_out(alloc: Global, program: Work) -> Result<Work, NoMemory>
    ensures made { IfOk result (λ r. program_of r ≡ with_groups_kept (program_of program)) }
    ensures same { IfOk result (λ r. Ready2 (program_of program) → SameMeaning (program_of program) (program_of r)) }
    ensures ready { IfOk result (λ r. Ready2 (program_of program) → Ready2 (program_of r)) }
{
    let mut tree = program.into_tree();
    let outcome = keep_all(alloc, &mut tree);
    finish(tree, outcome)
}

// The same of a tree.
fn keep_all(alloc: Global, tree: &mut Tree) -> Result<(), NoMemory>
    ensures { OnOk result (program_of tree.new ≡ with_groups_kept (program_of tree.old)) }
{
    let mut kept = Vec::new(alloc);
    keep(alloc, &tree.declarations, &mut kept, &mut tree.body)?;
    let mut copies = copies_of(alloc, &tree.declarations, &kept)?;
    tree.declarations.append(&mut copies)?;
    Ok(())
}

// The declaration of a property like a variable, without a name.
fn copy_of(alloc: Global, declarations: &[Declaration], variable: u32) -> Declaration
    ensures { result ≡ Deferred.copy_of declarations.now variable }
{
    let vtype = match declarations.get(variable as usize) {
        None => VType::I32,
        Some(declaration) => declaration.variable.vtype,
    };
    Declaration {
        name: Items::new(Vec::new(alloc)),
        variable: Variable {
            sort: Sort::NodeProperty,
            vtype,
            depth: 0,
        },
    }
}

// The same for each of some variables.
fn copies_of(
    alloc: Global,
    declarations: &[Declaration],
    variables: &[u32],
) -> Result<Vec<Declaration>, AllocError>
    ensures { IfOk result (λ r. r.items ≡ map (Deferred.copy_of declarations.now) variables.now) }
{
    let mut copies = Vec::new(alloc);
    for variable in variables {
        copies.push(copy_of(alloc, declarations, *variable))?;
    }
    Ok(copies)
}

// The number behind so many declarations and so many more, where there is room for some more.
fn number_behind(declared: usize, kept: usize, more: usize) -> Result<u32, NoMemory>
    ensures number { IfOk result (λ n. n ≡ declared + kept) }
    ensures fits { IfOk result (λ n. n + more < 2 ^ 32) }
{
    let Ok(declared) = u32::try_from(declared) else {
        return Err(NoMemory);
    };
    let Ok(kept) = u32::try_from(kept) else {
        return Err(NoMemory);
    };
    let Ok(more) = u32::try_from(more) else {
        return Err(NoMemory);
    };
    let Some(number) = declared.checked_add(kept) else {
        return Err(NoMemory);
    };
    match number.checked_add(more) {
        Some(_) => Ok(number),
        None => Err(NoMemory),
    }
}

// The loop that sets a property to what a local holds before it.
fn setting(
    alloc: Global,
    property: u32,
    local: u32,
    place: Place,
    head: Head,
) -> Result<Stmt, AllocError>
    ensures { IfOk result (λ r. stmt_of r ≡ set_to property local place head) }
{
    let first = Key {
        statement: 0,
        stage: Stage::Inner,
    };
    let key = Key {
        statement: 1,
        stage: Stage::Inner,
    };
    let target = Target::Property {
        owner: head.iterator,
        property,
        place,
    };
    let value = Expr::Var {
        variable: local,
        place,
    };
    let body = Box::new(alloc, Stmt::Assign { key, target, value })?;
    Ok(Stmt::Foreach {
        key: first,
        place,
        head,
        filter: Expr::Const(Value::Flag(true)),
        body,
    })
}

// The number of the property that stands behind so many others, the first of which is given.
fn property_behind(first: u32, before: usize) -> Result<u32, AllocError>
    ensures { IfOk result (λ p. p ≡ first + before) }
{
    let Ok(before) = u32::try_from(before) else {
        return Err(AllocError);
    };
    match first.checked_add(before) {
        Some(property) => Ok(property),
        None => Err(AllocError),
    }
}

// The loops that set properties to locals.
fn settings(
    alloc: Global,
    first: u32,
    locals: &[u32],
    place: Place,
    head: Head,
) -> Result<Vec<Stmt>, AllocError>
    ensures { IfOk result (λ r. map stmt_of r.items ≡ AllMoved.settings first locals.now place head) }
{
    let mut stmts = Vec::new(alloc);
    for local in locals {
        let property = property_behind(first, stmts.len())?;
        stmts.push(setting(alloc, property, *local, place, head)?)?;
    }
    Ok(stmts)
}

// Puts a statement behind the loops that set properties to locals, if there are some.
fn set_before(
    alloc: Global,
    first: u32,
    locals: &[u32],
    place: Place,
    head: Head,
    s: &mut Stmt,
) -> Result<(), AllocError>
    ensures { OnOk result (stmt_of s.new ≡ AllMoved.set_before first locals.now place head (stmt_of s.old)) }
{
    if locals.is_empty() {
        return Ok(());
    }
    let mut stmts = settings(alloc, first, locals, place, head)?;
    stmts.push(taken(alloc, s))?;
    put(s, Stmt::Block(stmts));
    Ok(())
}

// The locals that a loop keeps, and the first of their properties.
#[derive(Drop)]
struct Group {
    first: u32,
    locals: Vec<u32>,
}

// Puts a loop behind the loops that set the properties of its locals.
fn set_group(
    alloc: Global,
    group: Group,
    place: Place,
    head: Head,
    s: &mut Stmt,
) -> Result<(), AllocError>
    ensures { OnOk result (stmt_of s.new ≡ AllMoved.set_before group.first group.locals.items place head (stmt_of s.old)) }
{
    set_before(alloc, group.first, &group.locals, place, head, s)
}

// A loop keeps its locals in properties behind those that are kept so far.
fn move_group(
    alloc: Global,
    declarations: &Vec<Declaration>,
    kept: &mut Vec<u32>,
    place: Place,
    head: Head,
    filter: &mut Expr,
    body: &mut Box<Stmt>,
) -> Result<Group, NoMemory>
    ensures first { IfOk result (λ g. g.first ≡ length declarations.now.items + length kept.old.items) }
    ensures locals { IfOk result (λ g. g.locals.items ≡ AllGroups.group_of declarations.now.items head.iterator (expr_of filter.old) (stmt_of body.old.value)) }
    ensures kept { IfOk result (λ g. kept.new.items ≡ kept.old.items ++ g.locals.items) }
    ensures filter { IfOk result (λ g. expr_of filter.new ≡ AllMoved.all_moved_in (AllMoved.property_of g.first g.locals.items) head.iterator (expr_of filter.old)) }
    ensures body { IfOk result (λ g. stmt_of body.new.value ≡ AllMoved.all_moved (AllMoved.property_of g.first g.locals.items) head.iterator place (AllMoved.first_values declarations.now.items) (stmt_of body.old.value)) }
{
    let locals = group_of(alloc, declarations, head.iterator, filter, body)?;
    let first = number_behind(declarations.len(), kept.len(), locals.len())?;
    kept.extend_from_slice(&locals)?;
    let to = Kept {
        first,
        iterator: head.iterator,
        place,
    };
    move_in(to, &locals, filter);
    move_inner(to, &locals, declarations, body);
    Ok(Group { first, locals })
}

// The loops of a block of a sequential phase keep their locals.
#[cycle(keeping)]
fn keep_block(
    alloc: Global,
    declarations: &Vec<Declaration>,
    kept: &mut Vec<u32>,
    stmts: &mut Vec<Stmt>,
) -> Result<(), NoMemory>
    ensures kept { OnOk result (kept.new.items ≡ kept.old.items ++ groups_in declarations.now.items (sequence (map stmt_of stmts.old.items))) }
    ensures changed { OnOk result (sequence (map stmt_of stmts.new.items) ≡ with_groups declarations.now.items (length declarations.now.items + length kept.old.items) (sequence (map stmt_of stmts.old.items))) }
{
    for i in 0..stmts.len() {
        keep(alloc, declarations, kept, &mut stmts[i])?;
    }
    Ok(())
}

// The same of a sequential phase in a box.
#[cycle(keeping)]
fn keep_part(
    alloc: Global,
    declarations: &Vec<Declaration>,
    kept: &mut Vec<u32>,
    s: &mut Box<Stmt>,
) -> Result<(), NoMemory>
    ensures kept { OnOk result (kept.new.items ≡ kept.old.items ++ groups_in declarations.now.items (stmt_of s.old.value)) }
    ensures changed { OnOk result (stmt_of s.new.value ≡ with_groups declarations.now.items (length declarations.now.items + length kept.old.items) (stmt_of s.old.value)) }
{
    keep(alloc, declarations, kept, s)?;
    Ok(())
}

// The same of a sequential phase.
#[cycle(keeping)]
fn keep(
    alloc: Global,
    declarations: &Vec<Declaration>,
    kept: &mut Vec<u32>,
    s: &mut Stmt,
) -> Result<(), NoMemory>
    ensures kept { OnOk result (kept.new.items ≡ kept.old.items ++ groups_in declarations.now.items (stmt_of s.old)) }
    ensures changed { OnOk result (stmt_of s.new ≡ with_groups declarations.now.items (length declarations.now.items + length kept.old.items) (stmt_of s.old)) }
{
    match s {
        Stmt::Block(stmts) => keep_block(alloc, declarations, kept, stmts),
        Stmt::Foreach {
            key: _key,
            place,
            head,
            filter,
            body,
        } => {
            let group = move_group(alloc, declarations, kept, *place, *head, filter, body)?;
            set_group(alloc, group, *place, *head, s)?;
            Ok(())
        }
        Stmt::For { body, .. } => keep_part(alloc, declarations, kept, body),
        Stmt::If { yes, no, .. } => {
            keep_part(alloc, declarations, kept, yes)?;
            keep_part(alloc, declarations, kept, no)
        }
        Stmt::While { body, .. } => keep_part(alloc, declarations, kept, body),
        Stmt::Do { body, .. } => keep_part(alloc, declarations, kept, body),
        _ => Ok(()),
    }
}
