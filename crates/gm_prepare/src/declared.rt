//! Locals of the bodies of loops that are cut, declared in each body that names them.
//!
//! A local that a body names and does not declare could not go to a property. So the body declares it first, as what it
//! holds: `Int x = x;`. Bodies of a text declare all that they name.

ghost use Rattle.std.specs.Prelude.{◌≡◌, ◌∷◌, [], ◌++◌, Some, IfOk, OnOk, filter, flat_map, map};
ghost use Rattle.gm_ast.specs.Program as Program;
ghost use Rattle.gm_ast.specs.Program.{sequence};
ghost use Rattle.gm_ast.specs.Tree.{expr_of, program_of, stmt_of};
ghost use Rattle.gm_cut.specs.Slices.{told_at};
ghost use Rattle.gm_dissect.specs.Loops.{each_loop};
ghost use Rattle.gm_forms.specs.Meanings.{SameMeaning};
ghost use Rattle.gm_forms.specs.Ready.{Ready2};
ghost use Rattle.gm_forms.specs.Sharing.{sights_in_all, told_in};
ghost use Rattle.gm_parting.specs.Declared as Declared;
ghost use Rattle.gm_parting.specs.Declared.{declared_first, declared_loop, names_of, with_locals_declared};
ghost use Rattle.gm_prepare.specs.Declaring as Declaring;

use crate::nodes::is_body_local;
use gm_ast::forms::Work;
use gm_ast::tree::{Declaration, Expr, Key, Stmt, Target, Tree};
use gm_base::{NoMemory, Place};
use gm_cut::own::is_own;
use gm_locals::groups::declares;
use gm_trees::places::{finish, in_turn, put, taken};
use std::alloc::{AllocError, Global};

/// Declares the locals of the bodies of loops in each body that names them and does not declare them, as what they hold.
/// A program that is ready for cutting means the same and still is. It takes time linear in the program, and a walk over a
/// loop's body for each time that it names a local.
pub fn declare_locals(alloc: Global, program: Work) -> Result<Work, NoMemory>
    ensures made { IfOk result (λ r. program_of r ≡ with_locals_declared (program_of program)) }
    ensures same { IfOk result (λ r. Ready2 (program_of program) → SameMeaning (program_of program) (program_of r)) }
    ensures ready { IfOk result (λ r. Ready2 (program_of program) → Ready2 (program_of r)) }
{
    let mut tree = program.into_tree();
    let outcome = declare_tree(alloc, &mut tree);
    finish(tree, outcome)
}

// The same of a tree.
fn declare_tree(alloc: Global, tree: &mut Tree) -> Result<(), NoMemory>
    ensures { OnOk result (program_of tree.new ≡ with_locals_declared (program_of tree.old)) }
{
    declare_phase(alloc, &tree.declarations, &mut tree.body)?;
    Ok(())
}

// Adds the variables that an expression tells, and those through which it reads.
fn list_told(e: &Expr, names: &mut Vec<u32>) -> Result<(), AllocError>
    ensures { OnOk result (names.new.items ≡ names.old.items ++ told_in (expr_of e.now)) }
{
    match e {
        Expr::Var { variable, .. } | Expr::Live { variable, .. } => {
            names.push(*variable)?;
            Ok(())
        }
        Expr::Property { owner, .. } | Expr::Degree { owner, .. } => {
            names.push(*owner)?;
            Ok(())
        }
        Expr::Unary { inner, .. } => list_told(inner, names),
        Expr::Binary { left, right, .. } | Expr::Both(left, right) | Expr::Either(left, right) => {
            list_told(left, names)?;
            list_told(right, names)?;
            Ok(())
        }
        Expr::Choose(test, yes, no) => {
            list_told(test, names)?;
            list_told(yes, names)?;
            list_told(no, names)?;
            Ok(())
        }
        Expr::Fold {
            head,
            filter,
            body,
            ..
        } => {
            names.push(head.owner)?;
            list_told(filter, names)?;
            list_told(body, names)?;
            Ok(())
        }
        _ => Ok(()),
    }
}

// Adds those of several expressions.
fn list_values(values: &Vec<Expr>, names: &mut Vec<u32>) -> Result<(), AllocError>
    ensures { OnOk result (names.new.items ≡ names.old.items ++ (sights_in_all (map expr_of values.now.items)).scalars) }
{
    for value in values {
        list_told(value, names)?;
    }
    Ok(())
}

// Adds those of a value, if there is one.
fn list_value(value: &Option<Expr>, names: &mut Vec<u32>) -> Result<(), AllocError>
    ensures { OnOk result (names.new.items ≡ names.old.items ++ Declaring.told_in_option value.now) }
{
    match value {
        None => Ok(()),
        Some(value) => list_told(value, names),
    }
}

// The scalar or the node variable of a target.
fn told_by(target: Target) -> u32
    ensures { (result ∷ []) ≡ told_at target }
{
    match target {
        Target::Scalar { variable, .. } => variable,
        Target::Property { owner, .. } => owner,
    }
}

// Adds those of some targets.
fn list_targets(targets: &Vec<Target>, names: &mut Vec<u32>) -> Result<(), AllocError>
    ensures { OnOk result (names.new.items ≡ names.old.items ++ flat_map told_at targets.now.items) }
{
    for target in targets {
        names.push(told_by(*target))?;
    }
    Ok(())
}

// Adds the scalars and nodes that a block names.
#[cycle(naming)]
fn list_block(stmts: &Vec<Stmt>, names: &mut Vec<u32>) -> Result<(), AllocError>
    ensures { OnOk result (names.new.items ≡ names.old.items ++ names_of (sequence (map stmt_of stmts.now.items))) }
{
    for stmt in stmts {
        list_names(stmt, names)?;
    }
    Ok(())
}

// Adds the scalars and nodes that a body names.
#[cycle(naming)]
fn list_names(body: &Stmt, names: &mut Vec<u32>) -> Result<(), AllocError>
    ensures { OnOk result (names.new.items ≡ names.old.items ++ names_of (stmt_of body.now)) }
{
    match body {
        Stmt::Block(stmts) => list_block(stmts, names),
        Stmt::Declare {
            variable,
            value,
            ..
        } => {
            names.push(*variable)?;
            list_value(value, names)
        }
        Stmt::Assign { target, value, .. } | Stmt::Defer { target, value, .. } => {
            names.push(told_by(*target))?;
            list_told(value, names)
        }
        Stmt::Reduce {
            targets,
            values,
            ..
        } => {
            list_targets(targets, names)?;
            list_values(values, names)
        }
        Stmt::If { test, yes, no, .. } => {
            list_told(test, names)?;
            list_names(yes, names)?;
            list_names(no, names)
        }
        Stmt::Foreach {
            head,
            filter,
            body,
            ..
        } => {
            names.push(head.owner)?;
            list_told(filter, names)?;
            list_names(body, names)
        }
        _ => Ok(()),
    }
}

// Whether a variable is a local of an outer body that it does not declare.
fn is_undeclared(declarations: &[Declaration], body: &Stmt, variable: u32) -> bool
    ensures { result ≡ Declared.is_undeclared declarations.now (stmt_of body.now) variable }
{
    is_body_local(declarations, variable) && !declares(body, variable)
}

// Those of some variables that are.
fn those_undeclared(
    alloc: Global,
    declarations: &[Declaration],
    body: &Stmt,
    names: &[u32],
) -> Result<Vec<u32>, AllocError>
    ensures { IfOk result (λ r. r.items ≡ filter (Declared.is_undeclared declarations.now (stmt_of body.now)) names.now) }
{
    let mut undeclared = Vec::new(alloc);
    for name in names {
        if is_undeclared(declarations, body, *name) {
            undeclared.push(*name)?;
        }
    }
    Ok(undeclared)
}

// The locals that a body names and does not declare.
fn undeclared_in(
    alloc: Global,
    declarations: &[Declaration],
    body: &Stmt,
) -> Result<Vec<u32>, AllocError>
    ensures { IfOk result (λ r. r.items ≡ filter (Declared.is_undeclared declarations.now (stmt_of body.now)) (names_of (stmt_of body.now))) }
{
    let mut names = Vec::new(alloc);
    list_names(body, &mut names)?;
    those_undeclared(alloc, declarations, body, &names)
}

// Puts a body behind the declaration of a local as what it holds.
fn declare_one(
    alloc: Global,
    key: Key,
    place: Place,
    variable: u32,
    body: &mut Stmt,
) -> Result<(), AllocError>
    ensures { OnOk result (stmt_of body.new ≡ sequence (Program.Declare key variable (Some (Program.Var variable place)) ∷ stmt_of body.old ∷ [])) }
{
    let first = Stmt::Declare {
        key,
        variable,
        value: Some(Expr::Var { variable, place }),
    };
    let second = taken(alloc, body);
    let both = in_turn(alloc, first, second)?;
    put(body, both);
    Ok(())
}

// Puts a body behind the declarations of some locals.
fn declare_first(
    alloc: Global,
    key: Key,
    place: Place,
    locals: Vec<u32>,
    body: &mut Stmt,
) -> Result<(), AllocError>
    ensures { OnOk result (stmt_of body.new ≡ declared_first key place locals.items (stmt_of body.old)) }
{
    let mut locals = locals;
    'declaring: while let Some(variable) = locals.pop() {
        declare_one(alloc, key, place, variable, body)?;
    }
    Ok(())
}

// The body of a loop that is not of own statements declares all locals that it names.
fn declare_in(
    alloc: Global,
    declarations: &[Declaration],
    key: Key,
    place: Place,
    outer: u32,
    body: &mut Box<Stmt>,
) -> Result<(), AllocError>
    ensures { OnOk result (stmt_of body.new.value ≡ Declaring.body_declared declarations.now key place outer (stmt_of body.old.value)) }
{
    if is_own(outer, body) {
        return Ok(());
    }
    let locals = undeclared_in(alloc, declarations, body)?;
    declare_first(alloc, key, place, locals, body)?;
    Ok(())
}

// The bodies of the loops in a block of a sequential phase do.
#[cycle(loops)]
fn declare_phases(
    alloc: Global,
    declarations: &[Declaration],
    stmts: &mut Vec<Stmt>,
) -> Result<(), AllocError>
    ensures { OnOk result (sequence (map stmt_of stmts.new.items) ≡ each_loop (declared_loop declarations.now) (sequence (map stmt_of stmts.old.items))) }
{
    for i in 0..stmts.len() {
        declare_phase(alloc, declarations, &mut stmts[i])?;
    }
    Ok(())
}

// The same of a sequential phase in a box.
#[cycle(loops)]
fn declare_part(
    alloc: Global,
    declarations: &[Declaration],
    s: &mut Box<Stmt>,
) -> Result<(), AllocError>
    ensures { OnOk result (stmt_of s.new.value ≡ each_loop (declared_loop declarations.now) (stmt_of s.old.value)) }
{
    declare_phase(alloc, declarations, s)?;
    Ok(())
}

// The same of a sequential phase.
#[cycle(loops)]
fn declare_phase(
    alloc: Global,
    declarations: &[Declaration],
    s: &mut Stmt,
) -> Result<(), AllocError>
    ensures { OnOk result (stmt_of s.new ≡ each_loop (declared_loop declarations.now) (stmt_of s.old)) }
{
    match s {
        Stmt::Block(stmts) => declare_phases(alloc, declarations, stmts),
        Stmt::Foreach {
            key,
            place,
            head,
            filter: _filter,
            body,
        } => declare_in(alloc, declarations, *key, *place, head.iterator, body),
        Stmt::For { body, .. } => declare_part(alloc, declarations, body),
        Stmt::If { yes, no, .. } => {
            declare_part(alloc, declarations, yes)?;
            declare_part(alloc, declarations, no)
        }
        Stmt::While { body, .. } => declare_part(alloc, declarations, body),
        Stmt::Do { body, .. } => declare_part(alloc, declarations, body),
        _ => Ok(()),
    }
}
