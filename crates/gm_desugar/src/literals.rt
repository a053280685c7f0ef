//! Negative literals as constants.
//!
//! The text spells a negative number as a minus before a literal. An operator can fault, and stands in the way where
//! pieces are joined; a constant cannot. So each minus before a constant becomes one, unless its value is out of range.

ghost use Rattle.std.specs.Prelude.{◌≡◌, IfOk, map, option_map};
ghost use Rattle.gm_ast.specs.Program.{sequence};
ghost use Rattle.gm_ast.specs.Tree.{expr_of, program_of, stmt_of};
ghost use Rattle.gm_desugar.specs.Literals as Literals;
ghost use Rattle.gm_desugar.specs.Literals.{at_once, each_expr, each_expr_in, with_literals, with_negative_literals};
ghost use Rattle.gm_desugar.specs.Stages.{WithLiterals, WithoutCompounds};
ghost use Rattle.gm_forms.specs.Meanings.{SameMeaning};

use gm_ast::forms::Work;
use gm_ast::tree::{Expr, Stmt};
use gm_base::NoMemory;
use gm_trees::places::put;
use gm_value::{Op1, Value, apply1};
use std::alloc::Global;

/// Writes each minus before a literal as the negative literal, where that is in range. The program means the same. If
/// it was a checked one without group and compound assignments, it still is, and has no such minus.
pub fn literals_out(_alloc: Global, program: Work) -> Result<Work, NoMemory>
    ensures made { IfOk result (λ r. program_of r ≡ with_negative_literals (program_of program)) }
    ensures same { IfOk result (λ r. SameMeaning (program_of program) (program_of r)) }
    ensures ready { IfOk result (λ r. WithoutCompounds (program_of program) → WithLiterals (program_of r)) }
{
    let mut tree = program.into_tree();
    settle_phase(&mut tree.body);
    Ok(Work::new(tree))
}

// The constant that an expression is.
fn literal_of(e: &Expr) -> Option<Value>
    ensures { result ≡ Literals.literal_of (expr_of e.now) }
{
    match e {
        Expr::Const(value) => Some(*value),
        Expr::Var { .. } => None,
        Expr::Property { .. } => None,
        Expr::EdgeProperty { .. } => None,
        Expr::Degree { .. } => None,
        Expr::NodeCount => None,
        Expr::EdgeCount => None,
        Expr::Live { .. } => None,
        Expr::Unary { .. } => None,
        Expr::Binary { .. } => None,
        Expr::Both(_, _) => None,
        Expr::Either(_, _) => None,
        Expr::Choose(_, _, _) => None,
        Expr::Fold { .. } => None,
    }
}

// The constant that a minus before a constant is, unless its value is out of range.
fn negative_of(e: &Expr) -> Option<Value>
    ensures { result ≡ Literals.negative_of (expr_of e.now) }
{
    match e {
        Expr::Unary {
            op: Op1::Neg,
            inner,
            ..
        } => match literal_of(inner) {
            Some(value) => apply1(Op1::Neg, value).ok(),
            None => None,
        },
        Expr::Const(_) => None,
        Expr::Var { .. } => None,
        Expr::Property { .. } => None,
        Expr::EdgeProperty { .. } => None,
        Expr::Degree { .. } => None,
        Expr::NodeCount => None,
        Expr::EdgeCount => None,
        Expr::Live { .. } => None,
        Expr::Unary { .. } => None,
        Expr::Binary { .. } => None,
        Expr::Both(_, _) => None,
        Expr::Either(_, _) => None,
        Expr::Choose(_, _, _) => None,
        Expr::Fold { .. } => None,
    }
}

// An operation whose value has no minus before a literal becomes such an expression.
fn negate(e: &mut Expr)
    ensures { expr_of e.new ≡ at_once (expr_of e.old) }
{
    if let Some(negative) = negative_of(e) {
        put(e, Expr::Const(negative));
    }
}

// Each minus before a literal in an expression becomes a constant.
fn settle(e: &mut Expr)
    ensures { expr_of e.new ≡ with_literals (expr_of e.old) }
{
    match e {
        Expr::Unary { inner, .. } => {
            settle(inner);
            negate(e);
        }
        Expr::Binary { left, right, .. } => {
            settle(left);
            settle(right);
        }
        Expr::Both(left, right) => {
            settle(left);
            settle(right);
        }
        Expr::Either(left, right) => {
            settle(left);
            settle(right);
        }
        Expr::Choose(test, yes, no) => {
            settle(test);
            settle(yes);
            settle(no);
        }
        Expr::Fold { filter, body, .. } => {
            settle(filter);
            settle(body);
        }
        _ => {}
    }
}

// The same of an expression that may be absent.
fn settle_option(e: &mut Option<Expr>)
    ensures { option_map expr_of e.new ≡ option_map with_literals (option_map expr_of e.old) }
{
    match e {
        None => {}
        Some(e) => settle(e),
    }
}

// The same of several expressions.
fn settle_all(values: &mut Vec<Expr>)
    ensures { map expr_of values.new.items ≡ map with_literals (map expr_of values.old.items) }
{
    for i in 0..values.len() {
        settle(&mut values[i]);
    }
}

// The same of the statements of a body's block.
#[cycle(body)]
fn settle_block(stmts: &mut Vec<Stmt>)
    ensures { sequence (map stmt_of stmts.new.items) ≡ each_expr_in with_literals (sequence (map stmt_of stmts.old.items)) }
{
    for i in 0..stmts.len() {
        settle_body(&mut stmts[i]);
    }
}

// The same of a body in a box.
#[cycle(body)]
fn settle_inner(s: &mut Box<Stmt>)
    ensures { stmt_of s.new.value ≡ each_expr_in with_literals (stmt_of s.old.value) }
{
    settle_body(s);
}

// The same of a body.
#[cycle(body)]
fn settle_body(s: &mut Stmt)
    ensures { stmt_of s.new ≡ each_expr_in with_literals (stmt_of s.old) }
{
    match s {
        Stmt::Block(stmts) => settle_block(stmts),
        Stmt::Declare { value, .. } => settle_option(value),
        Stmt::Assign { value, .. } => settle(value),
        Stmt::Defer { value, .. } => settle(value),
        Stmt::Reduce { values, .. } => settle_all(values),
        Stmt::If { test, yes, no, .. } => {
            settle(test);
            settle_inner(yes);
            settle_inner(no);
        }
        Stmt::Foreach { filter, body, .. } => {
            settle(filter);
            settle_inner(body);
        }
        _ => {}
    }
}

// The same of the statements of the sequential phase's blocks.
#[cycle(phase)]
fn settle_phases(stmts: &mut Vec<Stmt>)
    ensures { sequence (map stmt_of stmts.new.items) ≡ each_expr with_literals (sequence (map stmt_of stmts.old.items)) }
{
    for i in 0..stmts.len() {
        settle_phase(&mut stmts[i]);
    }
}

// The same of a sequential phase in a box.
#[cycle(phase)]
fn settle_part(s: &mut Box<Stmt>)
    ensures { stmt_of s.new.value ≡ each_expr with_literals (stmt_of s.old.value) }
{
    settle_phase(s);
}

// The same of the sequential phase.
#[cycle(phase)]
fn settle_phase(s: &mut Stmt)
    ensures { stmt_of s.new ≡ each_expr with_literals (stmt_of s.old) }
{
    match s {
        Stmt::Block(stmts) => settle_phases(stmts),
        Stmt::Declare { value, .. } => settle_option(value),
        Stmt::Assign { value, .. } => settle(value),
        Stmt::Reduce { values, .. } => settle_all(values),
        Stmt::Group { value, .. } => settle(value),
        Stmt::Foreach { filter, body, .. } => {
            settle(filter);
            settle_inner(body);
        }
        Stmt::For { filter, body, .. } => {
            settle(filter);
            settle_part(body);
        }
        Stmt::If { test, yes, no, .. } => {
            settle(test);
            settle_part(yes);
            settle_part(no);
        }
        Stmt::While { test, body, .. } => {
            settle(test);
            settle_part(body);
        }
        Stmt::Do { body, test, .. } => {
            settle_part(body);
            settle(test);
        }
        Stmt::InBfs { filter, body, .. } => {
            settle(filter);
            settle_inner(body);
        }
        Stmt::InBfsBoth {
            filter,
            body,
            back_filter,
            back,
            ..
        } => {
            settle(filter);
            settle_inner(body);
            settle(back_filter);
            settle_inner(back);
        }
        Stmt::Return { value, .. } => settle_option(value),
        _ => {}
    }
}
