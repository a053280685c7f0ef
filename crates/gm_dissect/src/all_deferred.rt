//! All deferred writes of a program, written as writes at once to copies.

ghost use Rattle.std.specs.Prelude.{◌≡◌, ◌∷◌, [], ◌++◌, true, IfOk, OnOk, map};
ghost use Rattle.gm_ast.specs.Program.{sequence};
ghost use Rattle.gm_ast.specs.Tree.{program_of, stmt_of};
ghost use Rattle.gm_forms.specs.Meanings.{SameMeaning};
ghost use Rattle.gm_forms.specs.Ready.{Ready2};
ghost use Rattle.gm_dissect.specs.AllDeferred.{deferred_in, deferred_of, has_no_deferred, property_in, some_defers, without_deferred, without_each};

use crate::deferred::{defers, move_out};
use gm_ast::forms::Work;
use gm_ast::tree::{Stmt, Target, Tree};
use gm_base::NoMemory;
use gm_trees::places::finish;
use std::alloc::{AllocError, Global};

/// Writes all deferred writes of a program as writes at once to copies of their properties. The copies stand behind the
/// program's variables. A program that is ready for cutting means the same and still is, and no loop of it defers a
/// write. It takes time for each deferred write, and each goes over the whole tree.
pub fn deferred_out(alloc: Global, program: Work) -> Result<Work, NoMemory>
    ensures made { IfOk result (λ r. program_of r ≡ without_deferred (program_of program)) }
    ensures same { IfOk result (λ r. Ready2 (program_of program) → SameMeaning (program_of program) (program_of r)) }
    ensures ready { IfOk result (λ r. Ready2 (program_of program) → Ready2 (program_of r)) }
    ensures none { IfOk result (λ r. has_no_deferred (program_of r) ≡ true) }
{
    let mut tree = program.into_tree();
    let outcome = move_all_out(alloc, &mut tree);
    finish(tree, outcome)
}

// The same of a tree.
fn move_all_out(alloc: Global, tree: &mut Tree) -> Result<(), NoMemory>
    ensures { OnOk result (program_of tree.new ≡ without_deferred (program_of tree.old)) }
{
    let mut properties = Vec::new(alloc);
    gather(&tree.body, &mut properties)?;
    each_out(alloc, properties, tree)
}

// The tree without the writes deferred to one property after another.
fn each_out(alloc: Global, properties: Vec<u32>, tree: &mut Tree) -> Result<(), NoMemory>
    ensures { OnOk result (program_of tree.new ≡ without_each properties.items (program_of tree.old)) }
{
    for property in properties {
        step_out(alloc, property, tree)?;
    }
    Ok(())
}

// The tree without the writes deferred to a property, where there is one.
fn step_out(alloc: Global, property: u32, tree: &mut Tree) -> Result<(), NoMemory>
    ensures { OnOk result (program_of tree.new ≡ without_each (property ∷ []) (program_of tree.old)) }
{
    if !some_defers(&tree.body, property) {
        return Ok(());
    }
    move_out(alloc, property, tree)
}

// Adds the property that a target is, if it is one.
fn gather_target(target: Target, properties: &mut Vec<u32>) -> Result<(), AllocError>
    ensures { OnOk result (properties.new.items ≡ properties.old.items ++ property_in target) }
{
    match target {
        Target::Scalar { .. } => {}
        Target::Property { property, .. } => properties.push(property)?,
    }
    Ok(())
}

// Adds the properties to which a block of a body defers writes.
#[cycle(gathering)]
fn gather_block(stmts: &Vec<Stmt>, properties: &mut Vec<u32>) -> Result<(), AllocError>
    ensures { OnOk result (properties.new.items ≡ properties.old.items ++ deferred_of (sequence (map stmt_of stmts.now.items))) }
{
    for stmt in stmts {
        gather_body(stmt, properties)?;
    }
    Ok(())
}

// Adds the properties to which a body defers writes.
#[cycle(gathering)]
fn gather_body(body: &Stmt, properties: &mut Vec<u32>) -> Result<(), AllocError>
    ensures { OnOk result (properties.new.items ≡ properties.old.items ++ deferred_of (stmt_of body.now)) }
{
    match body {
        Stmt::Block(stmts) => gather_block(stmts, properties),
        Stmt::Defer { target, .. } => gather_target(*target, properties),
        Stmt::If { yes, no, .. } => {
            gather_body(yes, properties)?;
            gather_body(no, properties)
        }
        _ => Ok(()),
    }
}

// Adds the properties to which the loops of a block of a sequential phase defer writes.
#[cycle(finding)]
fn gather_all(stmts: &Vec<Stmt>, properties: &mut Vec<u32>) -> Result<(), AllocError>
    ensures { OnOk result (properties.new.items ≡ properties.old.items ++ deferred_in (sequence (map stmt_of stmts.now.items))) }
{
    for stmt in stmts {
        gather(stmt, properties)?;
    }
    Ok(())
}

// Adds the properties to which the loops of a sequential phase defer writes.
#[cycle(finding)]
fn gather(s: &Stmt, properties: &mut Vec<u32>) -> Result<(), AllocError>
    ensures { OnOk result (properties.new.items ≡ properties.old.items ++ deferred_in (stmt_of s.now)) }
{
    match s {
        Stmt::Block(stmts) => gather_all(stmts, properties),
        Stmt::Foreach { body, .. } => gather_body(body, properties),
        Stmt::If { yes, no, .. } => {
            gather(yes, properties)?;
            gather(no, properties)
        }
        Stmt::For { body, .. } => gather(body, properties),
        Stmt::While { body, .. } => gather(body, properties),
        Stmt::Do { body, .. } => gather(body, properties),
        _ => Ok(()),
    }
}

// Whether a loop of a block of a sequential phase defers writes to a property.
#[cycle(asking)]
fn some_among(stmts: &Vec<Stmt>, property: u32) -> bool
    ensures { result ≡ some_defers property (sequence (map stmt_of stmts.now.items)) }
{
    for stmt in stmts {
        if some_defers(stmt, property) {
            return true;
        }
    }
    false
}

// Whether a loop of a sequential phase does.
#[cycle(asking)]
fn some_defers(s: &Stmt, property: u32) -> bool
    ensures { result ≡ some_defers property (stmt_of s.now) }
{
    match s {
        Stmt::Block(stmts) => some_among(stmts, property),
        Stmt::Foreach { body, .. } => defers(body, property),
        Stmt::If { yes, no, .. } => some_defers(yes, property) || some_defers(no, property),
        Stmt::For { body, .. } => some_defers(body, property),
        Stmt::While { body, .. } => some_defers(body, property),
        Stmt::Do { body, .. } => some_defers(body, property),
        _ => false,
    }
}
