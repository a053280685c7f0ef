//! The kinds of messages of a program, in the order of its tree.

ghost use Rattle.std.specs.Prelude.{◌≡◌, ◌++◌, ◌∷◌, [], IfOk, OnOk, map};
ghost use Rattle.gm_ast.specs.Program.{sequence};
ghost use Rattle.gm_ast.specs.Tree.{expr_of, program_of, stmt_of};
ghost use Rattle.gm_forms.specs.Typing as Typing;
ghost use Rattle.gm_lowering.specs.Plans as Plans;
ghost use Rattle.gm_message.specs.Kinds.{kinds_by, kinds_of_inner};
ghost use Rattle.gm_lowering.specs.Plans.{planned};
ghost use Rattle.gm_message.specs.Views.{as_kind, as_load, as_plan};

use crate::inner::is_here;
use crate::loads::{Load, carried};
use crate::variables::{target_type, type_at};
use crate::ways::{Way, way_of};
use gm_ast::forms::Work;
use gm_ast::tree::{Declaration, Expr, Head, Stmt, Target};
use gm_base::{Items, NoMemory};
use gm_value::VType;
use std::alloc::Global;

/// A kind of messages: what the receiver reads of the sender, where it evaluates, and the types of the values that a
/// message carries.
#[derive(Debug, Drop)]
pub struct KindPlan {
    pub carried: Items<Load>,
    pub values: Items<VType>,
}

/// The kinds of a program: one for each message loop and one for each reduction whose values are sent, in the order of
/// the tree.
#[derive(Debug, Drop)]
pub struct Plan {
    pub kinds: Items<KindPlan>,
}

/// The plan of a program's messages. It takes time linear in the tree, and in each message loop besides the number of what
/// is read times that of what is carried.
pub fn plan_messages(alloc: Global, program: &Work) -> Result<Plan, NoMemory>
    ensures made { IfOk result (λ r. as_plan r ≡ planned (program_of program.now)) }
{
    let tree = program.tree();
    let mut kinds = Vec::new(alloc);
    add_kinds(alloc, &tree.declarations, &tree.body, &mut kinds)?;
    Ok(Plan {
        kinds: Items::new(kinds),
    })
}

// The type of what a receiver reads.
fn load_type(declarations: &[Declaration], load: Load) -> VType
    ensures { result ≡ Plans.load_type declarations.now (as_load load) }
{
    match load {
        Load::SenderItself => VType::Node,
        Load::SenderProperty(property) => type_at(declarations, property),
        Load::SenderDegree(_) => VType::I32,
        Load::EdgeValue(property) => type_at(declarations, property),
    }
}

// The types of what a receiver reads.
fn load_types(
    alloc: Global,
    declarations: &[Declaration],
    loads: &[Load],
) -> Result<Vec<VType>, NoMemory>
    ensures { IfOk result (λ r. r.items ≡ map (Plans.load_type declarations.now) (map as_load loads.now)) }
{
    let mut types = Vec::new(alloc);
    for load in loads {
        types.push(load_type(declarations, *load))?;
    }
    Ok(types)
}

// The types of the values that targets take.
fn target_types(
    alloc: Global,
    declarations: &[Declaration],
    targets: &[Target],
) -> Result<Vec<VType>, NoMemory>
    ensures { IfOk result (λ r. r.items ≡ map (Typing.target_type declarations.now) targets.now) }
{
    let mut types = Vec::new(alloc);
    for target in targets {
        types.push(target_type(declarations, *target))?;
    }
    Ok(types)
}

// The kind of a message loop.
fn kind_of_loop(
    alloc: Global,
    declarations: &[Declaration],
    sender: u32,
    filter: &Expr,
    body: &Stmt,
) -> Result<KindPlan, NoMemory>
    ensures { IfOk result (λ r. as_kind r ≡ Plans.kind_of_loads declarations.now (Plans.carried sender (expr_of filter.now) (stmt_of body.now))) }
{
    let loads = carried(alloc, sender, filter, body)?;
    let types = load_types(alloc, declarations, &loads)?;
    Ok(KindPlan {
        carried: Items::new(loads),
        values: Items::new(types),
    })
}

// The kind of a reduction whose values are sent.
fn kind_of_values(
    alloc: Global,
    declarations: &[Declaration],
    targets: &[Target],
) -> Result<KindPlan, NoMemory>
    ensures { IfOk result (λ r. as_kind r ≡ record { carried = []; values = map (Typing.target_type declarations.now) targets.now }) }
{
    let types = target_types(alloc, declarations, targets)?;
    Ok(KindPlan {
        carried: Items::new(Vec::new(alloc)),
        values: Items::new(types),
    })
}

// Adds the kind of a reduction, if its values are sent.
fn add_kind(
    alloc: Global,
    declarations: &[Declaration],
    node: u32,
    targets: &[Target],
    kinds: &mut Vec<KindPlan>,
) -> Result<(), NoMemory>
    ensures { OnOk result (map as_kind kinds.new.items ≡ map as_kind kinds.old.items ++ kinds_by (Plans.way_of declarations.now node targets.now) declarations.now targets.now) }
{
    match way_of(declarations, node, targets) {
        Way::Sends => {
            let kind = kind_of_values(alloc, declarations, targets)?;
            kinds.push(kind)?;
        }
        _ => {}
    }
    Ok(())
}

// Adds the kinds of the reductions of a block at a node whose values are sent.
#[cycle(sending)]
fn add_block_kinds(
    alloc: Global,
    declarations: &[Declaration],
    node: u32,
    stmts: &Vec<Stmt>,
    kinds: &mut Vec<KindPlan>,
) -> Result<(), NoMemory>
    ensures { OnOk result (map as_kind kinds.new.items ≡ map as_kind kinds.old.items ++ map (Plans.kind_of_away declarations.now) (Plans.aways declarations.now node (sequence (map stmt_of stmts.now.items)))) }
{
    for stmt in stmts {
        add_body_kinds(alloc, declarations, node, stmt, kinds)?;
    }
    Ok(())
}

// Adds the kinds of the reductions of a body at a node whose values are sent.
#[cycle(sending)]
fn add_body_kinds(
    alloc: Global,
    declarations: &[Declaration],
    node: u32,
    s: &Stmt,
    kinds: &mut Vec<KindPlan>,
) -> Result<(), NoMemory>
    ensures { OnOk result (map as_kind kinds.new.items ≡ map as_kind kinds.old.items ++ map (Plans.kind_of_away declarations.now) (Plans.aways declarations.now node (stmt_of s.now))) }
{
    match s {
        Stmt::Block(stmts) => {
            add_block_kinds(alloc, declarations, node, stmts, kinds)?;
            Ok(())
        }
        Stmt::Reduce { targets, .. } => {
            add_kind(alloc, declarations, node, targets, kinds)?;
            Ok(())
        }
        Stmt::If { yes, no, .. } => {
            add_body_kinds(alloc, declarations, node, yes, kinds)?;
            add_body_kinds(alloc, declarations, node, no, kinds)?;
            Ok(())
        }
        _ => Ok(()),
    }
}

// Adds the kinds of an inner loop.
fn add_inner_kinds(
    alloc: Global,
    declarations: &[Declaration],
    outer: u32,
    head: Head,
    filter: &Expr,
    body: &Stmt,
    kinds: &mut Vec<KindPlan>,
) -> Result<(), NoMemory>
    ensures { OnOk result (map as_kind kinds.new.items ≡ map as_kind kinds.old.items ++ kinds_of_inner declarations.now outer head (expr_of filter.now) (stmt_of body.now)) }
{
    if is_here(declarations, outer, head, filter, body) {
        add_body_kinds(alloc, declarations, outer, body, kinds)?;
    } else {
        let kind = kind_of_loop(alloc, declarations, outer, filter, body)?;
        kinds.push(kind)?;
        add_body_kinds(alloc, declarations, head.iterator, body, kinds)?;
    }
    Ok(())
}

// Adds the kinds of a loop over all nodes.
fn add_loop_kinds(
    alloc: Global,
    declarations: &[Declaration],
    node: u32,
    body: &Stmt,
    kinds: &mut Vec<KindPlan>,
) -> Result<(), NoMemory>
    ensures { OnOk result (map as_kind kinds.new.items ≡ map as_kind kinds.old.items ++ Plans.kinds_of_loop declarations.now node (stmt_of body.now)) }
{
    match body {
        Stmt::Foreach {
            head,
            filter,
            body,
            ..
        } => {
            add_inner_kinds(alloc, declarations, node, *head, filter, body, kinds)?;
            Ok(())
        }
        Stmt::Block(stmts) => {
            add_block_kinds(alloc, declarations, node, stmts, kinds)?;
            Ok(())
        }
        other => {
            add_body_kinds(alloc, declarations, node, other, kinds)?;
            Ok(())
        }
    }
}

// Adds the kinds of a block of the sequential phase.
#[cycle(planning)]
fn add_phase_kinds(
    alloc: Global,
    declarations: &[Declaration],
    stmts: &Vec<Stmt>,
    kinds: &mut Vec<KindPlan>,
) -> Result<(), NoMemory>
    ensures { OnOk result (map as_kind kinds.new.items ≡ map as_kind kinds.old.items ++ Plans.kinds_in declarations.now (sequence (map stmt_of stmts.now.items))) }
{
    for stmt in stmts {
        add_kinds(alloc, declarations, stmt, kinds)?;
    }
    Ok(())
}

// Adds the kinds of a statement of the sequential phase.
#[cycle(planning)]
fn add_kinds(
    alloc: Global,
    declarations: &[Declaration],
    s: &Stmt,
    kinds: &mut Vec<KindPlan>,
) -> Result<(), NoMemory>
    ensures { OnOk result (map as_kind kinds.new.items ≡ map as_kind kinds.old.items ++ Plans.kinds_in declarations.now (stmt_of s.now)) }
{
    match s {
        Stmt::Block(stmts) => {
            add_phase_kinds(alloc, declarations, stmts, kinds)?;
            Ok(())
        }
        Stmt::Foreach { head, body, .. } => {
            add_loop_kinds(alloc, declarations, head.iterator, body, kinds)?;
            Ok(())
        }
        Stmt::For { body, .. } => {
            add_kinds(alloc, declarations, body, kinds)?;
            Ok(())
        }
        Stmt::If { yes, no, .. } => {
            add_kinds(alloc, declarations, yes, kinds)?;
            add_kinds(alloc, declarations, no, kinds)?;
            Ok(())
        }
        Stmt::While { body, .. } => {
            add_kinds(alloc, declarations, body, kinds)?;
            Ok(())
        }
        Stmt::Do { body, .. } => {
            add_kinds(alloc, declarations, body, kinds)?;
            Ok(())
        }
        _ => Ok(()),
    }
}
