//! Filters of parallel loops, saved in a property of the loop's node before the body is cut.
//!
//! A loop that is cut asks its filter at each piece of its body. Where the filter would not hold the same there, a loop
//! before it evaluates it at every node, under its own key, into a property that no text names; the pieces ask that.

ghost use Rattle.std.specs.Prelude.{◌≡◌, ◌+◌, ◌<◌, ◌^◌, ◌∷◌, [], ◌++◌, true, IfOk, OnOk, length, map, option_map};
ghost use Rattle.gm_ast.specs.declared.tree.Target.TheVariants as Targets;
ghost use Rattle.gm_ast.specs.Program as Program;
ghost use Rattle.gm_ast.specs.Program.{sequence};
ghost use Rattle.gm_ast.specs.Tree.{expr_of, program_of, stmt_of};
ghost use Rattle.gm_forms.specs.Meanings.{SameMeaning};
ghost use Rattle.gm_forms.specs.Order.{first_key};
ghost use Rattle.gm_forms.specs.Ready.{Ready2};
ghost use Rattle.gm_dissect.specs.AllDeferred.{has_no_deferred};
ghost use Rattle.gm_dissect.specs.Loops.{each_loop};
ghost use Rattle.gm_trees.specs.Places.{after};
ghost use Rattle.gm_parting.specs.Filters as Filters;
ghost use Rattle.gm_parting.specs.Filters.{filtered_loop, flag_property, with_saved_filters};
ghost use Rattle.gm_parting.specs.Lasting.{has_lasting_filters};

use crate::lasts::is_lasting;
use gm_ast::forms::Work;
use gm_ast::tree::{Declaration, Expr, Head, Key, Sort, Stage, Stmt, Target, Tree, Variable};
use gm_base::{Items, NoMemory, Place};
use gm_cut::own::is_own;
use gm_facts::changes::list_touched;
use gm_trees::places::{finish, put_after};
use gm_value::{VType, Value};
use std::alloc::{AllocError, Global};
use std::mem;

/// Saves the filter of each loop that is cut, and over whose body it does not last, at every node in a property, the last
/// of the program's variables. A program that is ready for cutting still is, and its filters last. It means the same where
/// it defers nothing, and still defers nothing then. It takes time for each such loop and its filter times its body.
pub fn save_filters(alloc: Global, program: Work) -> Result<Work, NoMemory>
    ensures made { IfOk result (λ r. program_of r ≡ with_saved_filters (program_of program)) }
    ensures same { IfOk result (λ r. Ready2 (program_of program) → has_no_deferred (program_of program) ≡ true → SameMeaning (program_of program) (program_of r)) }
    ensures ready { IfOk result (λ r. Ready2 (program_of program) → Ready2 (program_of r)) }
    ensures saved { IfOk result (λ r. Ready2 (program_of program) → has_lasting_filters (program_of r) ≡ true) }
    ensures none { IfOk result (λ r. Ready2 (program_of program) → has_no_deferred (program_of program) ≡ true → has_no_deferred (program_of r) ≡ true) }
{
    let mut tree = program.into_tree();
    let outcome = save_all(alloc, &mut tree);
    finish(tree, outcome)
}

// The same of a tree.
fn save_all(alloc: Global, tree: &mut Tree) -> Result<(), NoMemory>
    ensures { OnOk result (program_of tree.new ≡ with_saved_filters (program_of tree.old)) }
{
    let property = next_number(&tree.declarations)?;
    save(alloc, &tree.declarations, property, &mut tree.body)?;
    tree.declarations.push(flag_property(alloc))?;
    Ok(())
}

// The number of the next variable.
fn next_number(declarations: &Vec<Declaration>) -> Result<u32, NoMemory>
    ensures { IfOk result (λ n. n ≡ length declarations.now.items) }
{
    match u32::try_from(declarations.len()) {
        Ok(number) => Ok(number),
        Err(_) => Err(NoMemory),
    }
}

// A property that holds a filter.
fn flag_property(alloc: Global) -> Declaration
    ensures { result ≡ flag_property }
{
    Declaration {
        name: Items::new(Vec::new(alloc)),
        variable: Variable {
            sort: Sort::NodeProperty,
            vtype: VType::Flag,
            depth: 0,
        },
    }
}

// Whether a loop saves its filter.
fn saves_filter(
    alloc: Global,
    declarations: &[Declaration],
    outer: u32,
    filter: &Expr,
    body: &Stmt,
) -> Result<bool, AllocError>
    ensures { IfOk result (λ r. r ≡ Filters.saves_filter declarations.now outer (expr_of filter.now) (stmt_of body.now)) }
{
    if is_own(outer, body) {
        return Ok(false);
    }
    let mut written = Vec::new(alloc);
    list_touched(body, &mut written)?;
    Ok(!is_lasting(declarations, outer, &written, filter))
}

// The loop that sets a property to a filter.
fn setting(
    alloc: Global,
    property: u32,
    key: Key,
    place: Place,
    head: Head,
    filter: Expr,
) -> Result<Stmt, AllocError>
    ensures { IfOk result (λ r. stmt_of r ≡ Program.Foreach first_key place head Program.always (Program.Assign key (Targets.Property head.iterator property place) (expr_of filter))) }
{
    let first = Key {
        statement: 0,
        stage: Stage::Inner,
    };
    let target = Target::Property {
        owner: head.iterator,
        property,
        place,
    };
    let body = Box::new(
        alloc,
        Stmt::Assign {
            key,
            target,
            value: filter,
        },
    )?;
    Ok(Stmt::Foreach {
        key: first,
        place,
        head,
        filter: Expr::Const(Value::Flag(true)),
        body,
    })
}

// The loop that saves a loop's filter in a property, which is asked in its place, where it must be saved.
fn save_filter(
    alloc: Global,
    declarations: &[Declaration],
    property: u32,
    key: Key,
    place: Place,
    head: Head,
    filter: &mut Expr,
    body: &Stmt,
) -> Result<Option<Stmt>, AllocError>
    ensures { IfOk result (λ r. after (option_map stmt_of r) (Program.Foreach key place head (expr_of filter.new) (stmt_of body.now)) ≡ filtered_loop declarations.now property key place head (expr_of filter.old) (stmt_of body.now)) }
{
    if !saves_filter(alloc, declarations, head.iterator, filter, body)? {
        return Ok(None);
    }
    let saved = Expr::Property {
        owner: head.iterator,
        property,
        place,
    };
    let test = mem::replace(filter, saved);
    Ok(Some(setting(alloc, property, key, place, head, test)?))
}

// The filters of the loops in a block of a sequential phase are saved so.
#[cycle(saving)]
fn save_phases(
    alloc: Global,
    declarations: &[Declaration],
    property: u32,
    stmts: &mut Vec<Stmt>,
) -> Result<(), AllocError>
    ensures { OnOk result (sequence (map stmt_of stmts.new.items) ≡ each_loop (filtered_loop declarations.now property) (sequence (map stmt_of stmts.old.items))) }
{
    for i in 0..stmts.len() {
        save(alloc, declarations, property, &mut stmts[i])?;
    }
    Ok(())
}

// The same of a sequential phase in a box.
#[cycle(saving)]
fn save_part(
    alloc: Global,
    declarations: &[Declaration],
    property: u32,
    s: &mut Box<Stmt>,
) -> Result<(), AllocError>
    ensures { OnOk result (stmt_of s.new.value ≡ each_loop (filtered_loop declarations.now property) (stmt_of s.old.value)) }
{
    save(alloc, declarations, property, s)?;
    Ok(())
}

// The same of a sequential phase.
#[cycle(saving)]
fn save(
    alloc: Global,
    declarations: &[Declaration],
    property: u32,
    s: &mut Stmt,
) -> Result<(), AllocError>
    ensures { OnOk result (stmt_of s.new ≡ each_loop (filtered_loop declarations.now property) (stmt_of s.old)) }
{
    match s {
        Stmt::Block(stmts) => save_phases(alloc, declarations, property, stmts),
        Stmt::Foreach {
            key,
            place,
            head,
            filter,
            body,
        } => {
            let first = save_filter(
                alloc,
                declarations,
                property,
                *key,
                *place,
                *head,
                filter,
                body,
            )?;
            put_after(alloc, first, s)?;
            Ok(())
        }
        Stmt::For { body, .. } => save_part(alloc, declarations, property, body),
        Stmt::If { yes, no, .. } => {
            save_part(alloc, declarations, property, yes)?;
            save_part(alloc, declarations, property, no)
        }
        Stmt::While { body, .. } => save_part(alloc, declarations, property, body),
        Stmt::Do { body, .. } => save_part(alloc, declarations, property, body),
        _ => Ok(()),
    }
}
