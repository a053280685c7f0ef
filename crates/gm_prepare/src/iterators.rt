//! Iterators of parallel loops, placed in the table by what they iterate.
//!
//! What stands in the table of an iterator that is not a loop's own, or at another depth than its loop, could be taken for
//! a local. So iterators of inner loops are placed as such, and all others as variables of the sequential phase. No
//! expression and no statement changes; iterators of a text stand where they are placed.

ghost use Rattle.std.specs.Prelude.{◌≡◌, ◌++◌, false, IfOk, OnOk, map};
ghost use Rattle.gm_ast.specs.Program.{sequence};
ghost use Rattle.gm_ast.specs.Tree.{program_of, stmt_of};
ghost use Rattle.gm_forms.specs.Meanings.{SameMeaning};
ghost use Rattle.gm_forms.specs.Ready.{Ready2};
ghost use Rattle.gm_parting.specs.Iterators as Iterators;
ghost use Rattle.gm_parting.specs.Iterators.{all_inner_iterators, inner_iterators, placed_from, placed_variable, with_iterators_placed};
ghost use Rattle.gm_prepare.specs.Placing.{place_at, placed, placed_each};

use gm_ast::forms::Work;
use gm_ast::tree::{Declaration, Sort, Stmt, Tree, Variable};
use gm_base::NoMemory;
use gm_trees::places::finish;
use std::alloc::{AllocError, Global};

/// Places the iterators of inner loops in the table as those, and all others as variables of the sequential phase. A
/// program that is ready for cutting means the same and still is. It takes time linear in the program.
pub fn place_iterators(alloc: Global, program: Work) -> Result<Work, NoMemory>
    ensures made { IfOk result (λ r. program_of r ≡ with_iterators_placed (program_of program)) }
    ensures same { IfOk result (λ r. Ready2 (program_of program) → SameMeaning (program_of program) (program_of r)) }
    ensures ready { IfOk result (λ r. Ready2 (program_of program) → Ready2 (program_of r)) }
{
    let mut tree = program.into_tree();
    let outcome = place_tree(alloc, &mut tree);
    finish(tree, outcome)
}

// The same of a tree.
fn place_tree(alloc: Global, tree: &mut Tree) -> Result<(), NoMemory>
    ensures { OnOk result (program_of tree.new ≡ with_iterators_placed (program_of tree.old)) }
{
    let mut inners = Vec::new(alloc);
    gather(&tree.body, &mut inners)?;
    place_all(inners, &mut tree.declarations);
    Ok(())
}

// Adds the iterators of the inner loops of a block.
#[cycle(listing)]
fn list_block(stmts: &Vec<Stmt>, inners: &mut Vec<u32>) -> Result<(), AllocError>
    ensures { OnOk result (inners.new.items ≡ inners.old.items ++ inner_iterators (sequence (map stmt_of stmts.now.items))) }
{
    for stmt in stmts {
        list_body(stmt, inners)?;
    }
    Ok(())
}

// Adds those of the inner loops of a body.
#[cycle(listing)]
fn list_body(body: &Stmt, inners: &mut Vec<u32>) -> Result<(), AllocError>
    ensures { OnOk result (inners.new.items ≡ inners.old.items ++ inner_iterators (stmt_of body.now)) }
{
    match body {
        Stmt::Block(stmts) => list_block(stmts, inners),
        Stmt::If { yes, no, .. } => {
            list_body(yes, inners)?;
            list_body(no, inners)
        }
        Stmt::Foreach { head, .. } => {
            inners.push(head.iterator)?;
            Ok(())
        }
        _ => Ok(()),
    }
}

// Adds those of the loops in a block of a sequential phase.
#[cycle(gathering)]
fn gather_all(stmts: &Vec<Stmt>, inners: &mut Vec<u32>) -> Result<(), AllocError>
    ensures { OnOk result (inners.new.items ≡ inners.old.items ++ all_inner_iterators (sequence (map stmt_of stmts.now.items))) }
{
    for stmt in stmts {
        gather(stmt, inners)?;
    }
    Ok(())
}

// Adds those of the loops of a sequential phase.
#[cycle(gathering)]
fn gather(s: &Stmt, inners: &mut Vec<u32>) -> Result<(), AllocError>
    ensures { OnOk result (inners.new.items ≡ inners.old.items ++ all_inner_iterators (stmt_of s.now)) }
{
    match s {
        Stmt::Block(stmts) => gather_all(stmts, inners),
        Stmt::Foreach { body, .. } => list_body(body, inners),
        Stmt::For { body, .. } => gather(body, inners),
        Stmt::If { yes, no, .. } => {
            gather(yes, inners)?;
            gather(no, inners)
        }
        Stmt::While { body, .. } => gather(body, inners),
        Stmt::Do { body, .. } => gather(body, inners),
        _ => Ok(()),
    }
}

// Whether a variable may iterate.
fn iterates(variable: Variable) -> bool
    ensures { result ≡ Iterators.iterates variable }
{
    match variable.sort {
        Sort::Iterator | Sort::Graph => true,
        Sort::Scalar | Sort::NodeProperty | Sort::EdgeProperty | Sort::Edge => false,
    }
}

// A variable as it is, or an iterator as one of inner loops or as another.
fn in_place(inner: bool, variable: Variable) -> Variable
    ensures { result ≡ placed_variable inner variable }
{
    if !iterates(variable) {
        return variable;
    }
    let depth = if inner { 2 } else { 0 };
    Variable { depth, ..variable }
}

// Places a variable so.
fn place(inner: bool, declaration: &mut Declaration)
    ensures { declaration.new ≡ placed inner declaration.old }
{
    declaration.variable = in_place(inner, declaration.variable);
}

// Places each iterator as one that is none of inner loops.
fn place_outer(declarations: &mut Vec<Declaration>)
    ensures { declarations.new.items ≡ map (placed false) declarations.old.items }
{
    for i in 0..declarations.len() {
        place(false, &mut declarations[i]);
    }
}

// Places one as an iterator of inner loops, if there is such a variable.
fn place_inner(variable: u32, declarations: &mut Vec<Declaration>)
    ensures { declarations.new.items ≡ place_at variable declarations.old.items }
{
    let i = variable as usize;
    if i < declarations.len() {
        place(true, &mut declarations[i]);
    }
}

// Places some as iterators of inner loops.
fn place_inners(inners: Vec<u32>, declarations: &mut Vec<Declaration>)
    ensures { declarations.new.items ≡ placed_each inners.items declarations.old.items }
{
    let mut inners = inners;
    'placing: while let Some(variable) = inners.pop() {
        place_inner(variable, declarations);
    }
}

// Places some as iterators of inner loops, and each other as none.
fn place_all(inners: Vec<u32>, declarations: &mut Vec<Declaration>)
    ensures { declarations.new.items ≡ placed_from inners.items 0 declarations.old.items }
{
    place_outer(declarations);
    place_inners(inners, declarations);
}
