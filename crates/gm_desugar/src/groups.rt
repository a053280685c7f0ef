//! Group assignments written as loops over all nodes.
//!
//! `G.p = e` sets a property at all nodes, from the values before it. So it is the loop `Foreach (n: G.Nodes)
//! { n.p = e; }`, in which the graph's own variable stands for the node, as it does in `e`.

ghost use Rattle.std.specs.Prelude.{◌≡◌, IfOk, OnOk, map};
ghost use Rattle.gm_ast.specs.Program as Program;
ghost use Rattle.gm_ast.specs.Program.{sequence};
ghost use Rattle.gm_ast.specs.Tree.{expr_of, program_of, stmt_of};
ghost use Rattle.gm_desugar.specs.Groups.{ungrouped, without_groups};
ghost use Rattle.gm_desugar.specs.Stages.{WithoutGroups};
ghost use Rattle.gm_forms.specs.Meanings.{SameMeaning};
ghost use Rattle.gm_forms.specs.Ready.{Ready0};

use gm_ast::forms::Work;
use gm_ast::tree::{Domain, Expr, Head, Key, Stage, Stmt, Target, Tree};
use gm_base::{NoMemory, Place};
use gm_trees::places::{finish, put, taken_value};
use gm_value::Value;
use std::alloc::{AllocError, Global};

/// Writes each group assignment of a program as a loop over all nodes. The program means the same. If it was a
/// checked one, it still is, and has no group assignment.
pub fn groups_out(alloc: Global, program: Work) -> Result<Work, NoMemory>
    ensures made { IfOk result (λ r. program_of r ≡ without_groups (program_of program)) }
    ensures same { IfOk result (λ r. SameMeaning (program_of program) (program_of r)) }
    ensures ready { IfOk result (λ r. Ready0 (program_of program) → WithoutGroups (program_of r)) }
{
    let mut tree = program.into_tree();
    let outcome = ungroup_tree(alloc, &mut tree);
    finish(tree, outcome)
}

// The same of a tree.
fn ungroup_tree(alloc: Global, tree: &mut Tree) -> Result<(), NoMemory>
    ensures { OnOk result (program_of tree.new ≡ without_groups (program_of tree.old)) }
{
    ungroup(alloc, &mut tree.body)?;
    Ok(())
}

// A group assignment as a loop. Its value is taken out.
fn loop_of(
    alloc: Global,
    key: Key,
    place: Place,
    graph: u32,
    property: u32,
    value: &mut Expr,
) -> Result<Stmt, AllocError>
    ensures { IfOk result (λ r. stmt_of r ≡ ungrouped (Program.Group key place graph property (expr_of value.old))) }
{
    let value = taken_value(value);
    let target = Target::Property {
        owner: graph,
        property,
        place,
    };
    let head = Head {
        iterator: graph,
        domain: Domain::Nodes,
        owner: graph,
        place,
    };
    let body = Box::new(alloc, Stmt::Assign { key, target, value })?;
    let first = Key {
        statement: 0,
        stage: Stage::Inner,
    };
    Ok(Stmt::Foreach {
        key: first,
        place,
        head,
        filter: Expr::Const(Value::Flag(true)),
        body,
    })
}

// Each group assignment in a block becomes a loop.
#[cycle(ungrouping)]
fn ungroup_block(alloc: Global, stmts: &mut Vec<Stmt>) -> Result<(), AllocError>
    ensures { OnOk result (sequence (map stmt_of stmts.new.items) ≡ ungrouped (sequence (map stmt_of stmts.old.items))) }
{
    for i in 0..stmts.len() {
        ungroup(alloc, &mut stmts[i])?;
    }
    Ok(())
}

// The same of a statement in a box.
#[cycle(ungrouping)]
fn ungroup_inner(alloc: Global, s: &mut Box<Stmt>) -> Result<(), AllocError>
    ensures { OnOk result (stmt_of s.new.value ≡ ungrouped (stmt_of s.old.value)) }
{
    ungroup(alloc, s)?;
    Ok(())
}

// The same of a statement.
#[cycle(ungrouping)]
fn ungroup(alloc: Global, s: &mut Stmt) -> Result<(), AllocError>
    ensures { OnOk result (stmt_of s.new ≡ ungrouped (stmt_of s.old)) }
{
    match s {
        Stmt::Block(stmts) => ungroup_block(alloc, stmts),
        Stmt::Group {
            key,
            place,
            graph,
            property,
            value,
        } => {
            let new = loop_of(alloc, *key, *place, *graph, *property, value)?;
            put(s, new);
            Ok(())
        }
        Stmt::For { body, .. } => ungroup_inner(alloc, body),
        Stmt::If { yes, no, .. } => {
            ungroup_inner(alloc, yes)?;
            ungroup_inner(alloc, no)
        }
        Stmt::While { body, .. } => ungroup_inner(alloc, body),
        Stmt::Do { body, .. } => ungroup_inner(alloc, body),
        _ => Ok(()),
    }
}
