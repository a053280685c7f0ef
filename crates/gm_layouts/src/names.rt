//! Which node properties a program names.

ghost use Rattle.std.specs.Prelude.{◌≡◌, ◌++◌, OnOk, map, option_map};
ghost use Rattle.gm_ast.specs.Program.{sequence};
ghost use Rattle.gm_ast.specs.Tree.{expr_of, stmt_of};
ghost use Rattle.gm_layouts.specs.Named as Named;

use gm_ast::tree::{Expr, Stmt, Target};
use gm_base::NoMemory;

// Adds the properties that an expression names.
fn add_in(e: &Expr, names: &mut Vec<u32>) -> Result<(), NoMemory>
    ensures { OnOk result (names.new.items ≡ names.old.items ++ Named.names_in (expr_of e.now)) }
{
    match e {
        Expr::Property { property, .. } => {
            names.push(*property)?;
            Ok(())
        }
        Expr::Unary { inner, .. } => {
            add_in(inner, names)?;
            Ok(())
        }
        Expr::Binary { left, right, .. } => {
            add_in(left, names)?;
            add_in(right, names)?;
            Ok(())
        }
        Expr::Both(left, right) => {
            add_in(left, names)?;
            add_in(right, names)?;
            Ok(())
        }
        Expr::Either(left, right) => {
            add_in(left, names)?;
            add_in(right, names)?;
            Ok(())
        }
        Expr::Choose(test, yes, no) => {
            add_in(test, names)?;
            add_in(yes, names)?;
            add_in(no, names)?;
            Ok(())
        }
        Expr::Fold { filter, body, .. } => {
            add_in(filter, names)?;
            add_in(body, names)?;
            Ok(())
        }
        Expr::Const(_)
        | Expr::Var { .. }
        | Expr::EdgeProperty { .. }
        | Expr::Degree { .. }
        | Expr::NodeCount
        | Expr::EdgeCount
        | Expr::Live { .. } => Ok(()),
    }
}

// Adds the properties that an expression names, if there is one.
fn add_in_option(e: &Option<Expr>, names: &mut Vec<u32>) -> Result<(), NoMemory>
    ensures { OnOk result (names.new.items ≡ names.old.items ++ Named.names_in_option (option_map expr_of e.now)) }
{
    match e {
        None => Ok(()),
        Some(e) => {
            add_in(e, names)?;
            Ok(())
        }
    }
}

// Adds the properties that some expressions name.
fn add_in_all(values: &[Expr], names: &mut Vec<u32>) -> Result<(), NoMemory>
    ensures { OnOk result (names.new.items ≡ names.old.items ++ Named.names_in_all (map expr_of values.now)) }
{
    for value in values {
        add_in(value, names)?;
    }
    Ok(())
}

// Adds the property that a target is.
fn add_target(target: Target, names: &mut Vec<u32>) -> Result<(), NoMemory>
    ensures { OnOk result (names.new.items ≡ names.old.items ++ Named.names_of_target target) }
{
    match target {
        Target::Scalar { .. } => Ok(()),
        Target::Property { property, .. } => {
            names.push(property)?;
            Ok(())
        }
    }
}

// Adds the properties that some targets are.
fn add_targets(targets: &[Target], names: &mut Vec<u32>) -> Result<(), NoMemory>
    ensures { OnOk result (names.new.items ≡ names.old.items ++ Named.names_of_targets targets.now) }
{
    for target in targets {
        add_target(*target, names)?;
    }
    Ok(())
}

// Adds the properties that the statements of a block name.
#[cycle(naming)]
fn add_block(stmts: &Vec<Stmt>, names: &mut Vec<u32>) -> Result<(), NoMemory>
    ensures { OnOk result (names.new.items ≡ names.old.items ++ Named.names_of (sequence (map stmt_of stmts.now.items))) }
{
    for stmt in stmts {
        add_names(stmt, names)?;
    }
    Ok(())
}

/// Adds the node properties that a statement names, in time linear in it.
#[cycle(naming)]
pub(crate) fn add_names(s: &Stmt, names: &mut Vec<u32>) -> Result<(), NoMemory>
    ensures { OnOk result (names.new.items ≡ names.old.items ++ Named.names_of (stmt_of s.now)) }
{
    match s {
        Stmt::Block(stmts) => {
            add_block(stmts, names)?;
            Ok(())
        }
        Stmt::Declare { value, .. } => {
            add_in_option(value, names)?;
            Ok(())
        }
        Stmt::DeclareEdge { .. } => Ok(()),
        Stmt::Assign { target, value, .. } => {
            add_target(*target, names)?;
            add_in(value, names)?;
            Ok(())
        }
        Stmt::Defer { target, value, .. } => {
            add_target(*target, names)?;
            add_in(value, names)?;
            Ok(())
        }
        Stmt::Reduce {
            targets,
            values,
            ..
        } => {
            add_targets(targets, names)?;
            add_in_all(values, names)?;
            Ok(())
        }
        Stmt::Group {
            property,
            value,
            ..
        } => {
            names.push(*property)?;
            add_in(value, names)?;
            Ok(())
        }
        Stmt::Foreach { filter, body, .. } => {
            add_in(filter, names)?;
            add_names(body, names)?;
            Ok(())
        }
        Stmt::For { filter, body, .. } => {
            add_in(filter, names)?;
            add_names(body, names)?;
            Ok(())
        }
        Stmt::If { test, yes, no, .. } => {
            add_in(test, names)?;
            add_names(yes, names)?;
            add_names(no, names)?;
            Ok(())
        }
        Stmt::While { test, body, .. } => {
            add_in(test, names)?;
            add_names(body, names)?;
            Ok(())
        }
        Stmt::Do { body, test, .. } => {
            add_names(body, names)?;
            add_in(test, names)?;
            Ok(())
        }
        Stmt::InBfs { filter, body, .. } => {
            add_in(filter, names)?;
            add_names(body, names)?;
            Ok(())
        }
        Stmt::InBfsBoth {
            filter,
            body,
            back_filter,
            back,
            ..
        } => {
            add_in(filter, names)?;
            add_names(body, names)?;
            add_in(back_filter, names)?;
            add_names(back, names)?;
            Ok(())
        }
        Stmt::Return { value, .. } => {
            add_in_option(value, names)?;
            Ok(())
        }
    }
}
