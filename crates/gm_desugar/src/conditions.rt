//! Conditions set to a variable before they are asked.
//!
//! A condition of a sequential phase that reads properties or degrees, or has a reduction in it, becomes an assignment
//! to a variable, which is asked in its place: `If (e) s` is `c = e; If (c) s`, `While (e) s` is `c = e; While (c)
//! { s c = e; }`, `Do s While (e)` is `Do { s c = e; } While (c)`, and `For (x)(e) s` is `For (x) { c = e; If (c) s }`.
//! So later passes find such expressions in assignments alone. Conditions of scalars and counts stay. All share one
//! variable, since none is asked after the next is set.

ghost use Rattle.std.specs.Prelude.{◌≡◌, true, false, [], ◌∷◌, IfOk, OnOk, map, option_map};
ghost use Rattle.gm_base.specs.declared.places.Place.{Place};
ghost use Rattle.gm_ast.specs.Program as Program;
ghost use Rattle.gm_ast.specs.Program.{sequence};
ghost use Rattle.gm_ast.specs.Tree.{expr_of, program_of, stmt_of};
ghost use Rattle.gm_ast.specs.declared.tree.Head.{Head};
ghost use Rattle.gm_forms.specs.Forms.{is_told};
ghost use Rattle.gm_forms.specs.Meanings.{SameMeaning};
ghost use Rattle.gm_forms.specs.Uses.{is_named};
ghost use Rattle.gm_desugar.specs.Conditions as Conditions;
ghost use Rattle.gm_desugar.specs.Conditions.{hoisted, with_conditions};
ghost use Rattle.gm_trees.specs.Places as Places;
ghost use Rattle.gm_desugar.specs.Stages.{WithConditions, WithLiterals};

use gm_ast::forms::Work;
use gm_ast::tree::{Declaration, Expr, Key, Sort, Stmt, Target, Tree, Variable};
use gm_base::{Items, NoMemory, Place};
use gm_trees::copies::copy;
use gm_trees::places::{finish, in_turn, put, put_after, put_before, taken, with_both_boxed};
use gm_value::{VType, Value};
use std::alloc::{AllocError, Global};
use std::mem;

/// Sets each condition of the sequential phase that scalars and counts do not tell to a new variable before it is
/// asked. Where each variable stands in the table as it is used, the program means the same. If it was ready for the
/// passes, it still is, and scalars and counts tell each condition. Answers want of memory too where the table has no
/// room for one more variable.
pub fn conditions_out(alloc: Global, program: Work) -> Result<Work, NoMemory>
    ensures made { IfOk result (λ r. program_of r ≡ with_conditions (program_of program)) }
    ensures same { IfOk result (λ r. is_named (program_of program) ≡ true → SameMeaning (program_of program) (program_of r)) }
    ensures ready { IfOk result (λ r. WithLiterals (program_of program) → WithConditions (program_of r)) }
{
    let mut tree = program.into_tree();
    let outcome = set_conditions(alloc, &mut tree);
    finish(tree, outcome)
}

// The same of a tree.
fn set_conditions(alloc: Global, tree: &mut Tree) -> Result<(), NoMemory>
    ensures { OnOk result (program_of tree.new ≡ with_conditions (program_of tree.old)) }
{
    let Ok(variable) = u32::try_from(tree.declarations.len()) else {
        return Err(NoMemory);
    };
    tree.declarations.push(fresh(alloc, VType::Flag))?;
    hoist(alloc, variable, &mut tree.body)?;
    Ok(())
}

// A variable that no text declares.
pub(crate) fn fresh(alloc: Global, vtype: VType) -> Declaration
    ensures { result ≡ Conditions.fresh vtype }
{
    Declaration {
        name: Items::new(Vec::new(alloc)),
        variable: Variable {
            sort: Sort::Scalar,
            vtype,
            depth: 0,
        },
    }
}

// The place of what no text spells.
fn nowhere() -> Place
    ensures { result ≡ Conditions.nowhere }
{
    Place { line: 0, col: 0 }
}

/// A variable set to a value.
pub fn set_to(variable: u32, key: Key, value: Expr) -> Stmt
    ensures { stmt_of result ≡ Conditions.set_to variable key (expr_of value) }
{
    let target = Target::Scalar {
        variable,
        place: nowhere(),
    };
    Stmt::Assign { key, target, value }
}

/// The value of a variable.
pub fn asked(variable: u32) -> Expr
    ensures { expr_of result ≡ Conditions.asked variable }
{
    Expr::Var {
        variable,
        place: nowhere(),
    }
}

// Whether scalars and counts tell an expression.
pub(crate) fn is_told(e: &Expr) -> bool
    ensures { result ≡ is_told (expr_of e.now) }
{
    match e {
        Expr::Const(_) => true,
        Expr::Var { .. } => true,
        Expr::Property { .. } => false,
        Expr::EdgeProperty { .. } => false,
        Expr::Degree { .. } => false,
        Expr::NodeCount => true,
        Expr::EdgeCount => true,
        Expr::Live { .. } => false,
        Expr::Unary { inner, .. } => is_told(inner),
        Expr::Binary { left, right, .. } => is_told(left) && is_told(right),
        Expr::Both(left, right) => is_told(left) && is_told(right),
        Expr::Either(left, right) => is_told(left) && is_told(right),
        Expr::Choose(test, yes, no) => is_told(test) && is_told(yes) && is_told(no),
        Expr::Fold { .. } => false,
    }
}

// Sets the variable to a condition that is not told, which becomes the variable.
fn set_unless(variable: u32, key: Key, test: &mut Expr) -> Option<Stmt>
    ensures set { option_map stmt_of result ≡ Conditions.set_unless (is_told (expr_of test.old)) variable key (expr_of test.old) }
    ensures asked { expr_of test.new ≡ Conditions.asked_unless (is_told (expr_of test.old)) variable (expr_of test.old) }
{
    if is_told(test) {
        return None;
    }
    let condition = mem::replace(test, asked(variable));
    Some(set_to(variable, key, condition))
}

// An If.
fn if_else(alloc: Global, key: Key, test: Expr, yes: Stmt, no: Stmt) -> Result<Stmt, AllocError>
    ensures { IfOk result (λ r. stmt_of r ≡ Program.If key (expr_of test) (stmt_of yes) (stmt_of no)) }
{
    let (test, yes, no) = with_both_boxed(alloc, test, yes, no)?;
    Ok(Stmt::If { key, test, yes, no })
}

// The body of a For whose filter is set in each turn.
fn filtered(
    alloc: Global,
    variable: u32,
    key: Key,
    filter: Expr,
    body: Stmt,
) -> Result<Stmt, AllocError>
    ensures { IfOk result (λ r. stmt_of r ≡ Conditions.if_hoisted false variable key (expr_of filter) (stmt_of body) Program.Skip) }
{
    let nothing = Stmt::Block(Vec::new(alloc));
    match if_else(alloc, key, asked(variable), body, nothing) {
        Ok(asks) => in_turn(alloc, set_to(variable, key, filter), asks),
        Err(error) => {
            drop(filter);
            Err(error)
        }
    }
}

// Puts a statement at the end of each turn, if there is one.
fn end_turn(alloc: Global, body: &mut Box<Stmt>, last: Option<Stmt>) -> Result<(), AllocError>
    ensures { OnOk result (stmt_of body.new.value ≡ Places.before (stmt_of body.old.value) (option_map stmt_of last)) }
{
    put_before(alloc, body, last)?;
    Ok(())
}

// Sets the filter of a For in each turn, where it is not told.
fn filter_turns(
    alloc: Global,
    variable: u32,
    key: Key,
    filter: &mut Expr,
    body: &mut Box<Stmt>,
) -> Result<(), AllocError>
    ensures { OnOk result ((at : Place) (h : Head) → Program.For key at h (expr_of filter.new) (stmt_of body.new.value) ≡ Conditions.for_hoisted (is_told (expr_of filter.old)) variable key at h (expr_of filter.old) (stmt_of body.old.value)) }
{
    if is_told(filter) {
        return Ok(());
    }
    let condition = mem::replace(filter, Expr::Const(Value::Flag(true)));
    let every = taken(alloc, body);
    let turn = filtered(alloc, variable, key, condition, every)?;
    put::<Stmt>(body, turn);
    Ok(())
}

// Sets the condition of a While before it and at the end of each turn, where it is not told.
fn set_while(
    alloc: Global,
    variable: u32,
    key: Key,
    test: &mut Expr,
    body: &mut Box<Stmt>,
) -> Result<Option<Stmt>, AllocError>
    ensures { IfOk result (λ r. (at : Place) → Places.after (option_map stmt_of r) (Program.While key at (expr_of test.new) (stmt_of body.new.value)) ≡ Conditions.while_hoisted (is_told (expr_of test.old)) variable key at (expr_of test.old) (stmt_of body.old.value)) }
{
    if is_told(test) {
        return Ok(None);
    }
    let again = copy(alloc, test)?;
    let set = set_to(variable, key, again);
    end_turn(alloc, body, Some(set))?;
    let condition = mem::replace(test, asked(variable));
    Ok(Some(set_to(variable, key, condition)))
}

// Each condition in a block that is not told is set before it is asked.
#[cycle(hoisting)]
fn hoist_block(alloc: Global, variable: u32, stmts: &mut Vec<Stmt>) -> Result<(), AllocError>
    ensures { OnOk result (sequence (map stmt_of stmts.new.items) ≡ hoisted variable (sequence (map stmt_of stmts.old.items))) }
{
    for i in 0..stmts.len() {
        hoist(alloc, variable, &mut stmts[i])?;
    }
    Ok(())
}

// The same of a sequential phase in a box.
#[cycle(hoisting)]
fn hoist_inner(alloc: Global, variable: u32, s: &mut Box<Stmt>) -> Result<(), AllocError>
    ensures { OnOk result (stmt_of s.new.value ≡ hoisted variable (stmt_of s.old.value)) }
{
    hoist(alloc, variable, s)?;
    Ok(())
}

// The same of a sequential phase.
#[cycle(hoisting)]
fn hoist(alloc: Global, variable: u32, s: &mut Stmt) -> Result<(), AllocError>
    ensures { OnOk result (stmt_of s.new ≡ hoisted variable (stmt_of s.old)) }
{
    match s {
        Stmt::Block(stmts) => hoist_block(alloc, variable, stmts),
        Stmt::For {
            key,
            place: _place,
            head: _head,
            filter,
            body,
        } => {
            hoist_inner(alloc, variable, body)?;
            filter_turns(alloc, variable, *key, filter, body)?;
            Ok(())
        }
        Stmt::If { key, test, yes, no } => {
            hoist_inner(alloc, variable, yes)?;
            hoist_inner(alloc, variable, no)?;
            let set = set_unless(variable, *key, test);
            put_after(alloc, set, s)?;
            Ok(())
        }
        Stmt::While {
            key,
            place: _place,
            test,
            body,
        } => {
            hoist_inner(alloc, variable, body)?;
            let set = set_while(alloc, variable, *key, test, body)?;
            put_after(alloc, set, s)?;
            Ok(())
        }
        Stmt::Do {
            key,
            place: _place,
            body,
            test,
        } => {
            hoist_inner(alloc, variable, body)?;
            let set = set_unless(variable, *key, test);
            end_turn(alloc, body, set)?;
            Ok(())
        }
        _ => Ok(()),
    }
}
