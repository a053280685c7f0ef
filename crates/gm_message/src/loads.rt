//! What the receiver of a message reads of the sender.

ghost use Rattle.std.specs.Prelude.{◌≡◌, ◌++◌, [], IfOk, OnOk, map, option_map};
ghost use Rattle.std.specs.List.{list_any};
ghost use Rattle.gm_ast.specs.Program.{sequence};
ghost use Rattle.gm_ast.specs.Tree.{expr_of, stmt_of};
ghost use Rattle.gm_lowering.specs.Plans as Plans;
ghost use Rattle.gm_message.specs.Gathered.{gathered};
ghost use Rattle.gm_message.specs.Views.{as_load};

use gm_ast::tree::{Direction, Expr, Stmt};
use gm_base::NoMemory;
use std::alloc::{AllocError, Global};

/// What the receiver of a message reads of the sender, or of the edge.
#[derive(Clone, Copy, Debug)]
pub enum Load {
    /// The sender itself.
    SenderItself,
    /// A property of the sender.
    SenderProperty(u32),
    /// A degree of the sender.
    SenderDegree(Direction),
    /// A property of the edge.
    EdgeValue(u32),
}

// Whether two directions are one.
fn same_direction(a: Direction, b: Direction) -> bool
    ensures { result ≡ Plans.same_direction a b }
{
    match (a, b) {
        (Direction::Out, Direction::Out) | (Direction::In, Direction::In) => true,
        _ => false,
    }
}

impl Load {
    /// Whether two loads are one.
    pub fn is_same(self, other: Load) -> bool
        ensures { result ≡ Plans.same_load (as_load self) (as_load other) }
    {
        match (self, other) {
            (Load::SenderItself, Load::SenderItself) => true,
            (Load::SenderProperty(p), Load::SenderProperty(q)) => p == q,
            (Load::SenderDegree(d), Load::SenderDegree(e)) => same_direction(d, e),
            (Load::EdgeValue(p), Load::EdgeValue(q)) => p == q,
            _ => false,
        }
    }
}

// Whether a load is among some.
fn is_among(loads: &[Load], wanted: Load) -> bool
    ensures { result ≡ list_any (Plans.same_load (as_load wanted)) (map as_load loads.now) }
{
    for load in loads {
        if wanted.is_same(*load) {
            return true;
        }
    }
    false
}

// Adds a load of an owner, where the owner is the sender.
fn gather_of(sender: u32, owner: u32, load: Load, loads: &mut Vec<Load>) -> Result<(), AllocError>
    ensures { OnOk result (map as_load loads.new.items ≡ map as_load loads.old.items ++ Plans.load_if sender owner (as_load load)) }
{
    if owner == sender {
        loads.push(load)?;
    }
    Ok(())
}

// Adds what an expression reads of the sender and of the edge, in order.
fn gather_in(sender: u32, e: &Expr, loads: &mut Vec<Load>) -> Result<(), AllocError>
    ensures { OnOk result (map as_load loads.new.items ≡ map as_load loads.old.items ++ Plans.loads_in sender (expr_of e.now)) }
{
    match e {
        Expr::Var { variable, .. } | Expr::Live { variable, .. } => {
            gather_of(sender, *variable, Load::SenderItself, loads)?;
            Ok(())
        }
        Expr::Property {
            owner,
            property,
            ..
        } => {
            gather_of(sender, *owner, Load::SenderProperty(*property), loads)?;
            Ok(())
        }
        Expr::EdgeProperty { property, .. } => {
            loads.push(Load::EdgeValue(*property))?;
            Ok(())
        }
        Expr::Degree {
            direction,
            owner,
            ..
        } => {
            gather_of(sender, *owner, Load::SenderDegree(*direction), loads)?;
            Ok(())
        }
        Expr::Unary { inner, .. } => {
            gather_in(sender, inner, loads)?;
            Ok(())
        }
        Expr::Binary { left, right, .. } => {
            gather_in(sender, left, loads)?;
            gather_in(sender, right, loads)?;
            Ok(())
        }
        Expr::Both(left, right) => {
            gather_in(sender, left, loads)?;
            gather_in(sender, right, loads)?;
            Ok(())
        }
        Expr::Either(left, right) => {
            gather_in(sender, left, loads)?;
            gather_in(sender, right, loads)?;
            Ok(())
        }
        Expr::Choose(test, yes, no) => {
            gather_in(sender, test, loads)?;
            gather_in(sender, yes, loads)?;
            gather_in(sender, no, loads)?;
            Ok(())
        }
        Expr::Const(_) | Expr::NodeCount | Expr::EdgeCount | Expr::Fold { .. } => Ok(()),
    }
}

// The same of some expressions.
fn gather_in_all(sender: u32, values: &[Expr], loads: &mut Vec<Load>) -> Result<(), AllocError>
    ensures { OnOk result (map as_load loads.new.items ≡ map as_load loads.old.items ++ Plans.loads_in_all sender (map expr_of values.now)) }
{
    for value in values {
        gather_in(sender, value, loads)?;
    }
    Ok(())
}

// The same of an expression that may be absent.
fn gather_in_option(
    sender: u32,
    value: &Option<Expr>,
    loads: &mut Vec<Load>,
) -> Result<(), AllocError>
    ensures { OnOk result (map as_load loads.new.items ≡ map as_load loads.old.items ++ Plans.loads_in_option sender (option_map expr_of value.now)) }
{
    match value {
        None => {}
        Some(value) => gather_in(sender, value, loads)?,
    }
    Ok(())
}

// The same of the statements of a block.
#[cycle(gathering)]
fn gather_block(sender: u32, stmts: &Vec<Stmt>, loads: &mut Vec<Load>) -> Result<(), AllocError>
    ensures { OnOk result (map as_load loads.new.items ≡ map as_load loads.old.items ++ Plans.loads_of sender (sequence (map stmt_of stmts.now.items))) }
{
    for stmt in stmts {
        gather_of_body(sender, stmt, loads)?;
    }
    Ok(())
}

// The same of a body.
#[cycle(gathering)]
fn gather_of_body(sender: u32, s: &Stmt, loads: &mut Vec<Load>) -> Result<(), AllocError>
    ensures { OnOk result (map as_load loads.new.items ≡ map as_load loads.old.items ++ Plans.loads_of sender (stmt_of s.now)) }
{
    match s {
        Stmt::Block(stmts) => {
            gather_block(sender, stmts, loads)?;
            Ok(())
        }
        Stmt::Declare { value, .. } => {
            gather_in_option(sender, value, loads)?;
            Ok(())
        }
        Stmt::Assign { value, .. } => {
            gather_in(sender, value, loads)?;
            Ok(())
        }
        Stmt::Reduce { values, .. } => {
            gather_in_all(sender, values, loads)?;
            Ok(())
        }
        Stmt::If { test, yes, no, .. } => {
            gather_in(sender, test, loads)?;
            gather_of_body(sender, yes, loads)?;
            gather_of_body(sender, no, loads)?;
            Ok(())
        }
        _ => Ok(()),
    }
}

// Loads in order, each once.
fn each_once(alloc: Global, loads: &[Load]) -> Result<Vec<Load>, NoMemory>
    ensures { IfOk result (λ r. map as_load r.items ≡ gathered [] (map as_load loads.now)) }
{
    let mut found = Vec::new(alloc);
    for load in loads {
        if !is_among(&found, *load) {
            found.push(*load)?;
        }
    }
    Ok(found)
}

/// What the messages of a loop carry: what the filter and the body read of the sender and of the edge, each once, in order
/// of first reading.
#[tactic(auto, using(crate::proofs::Gathered::gathered_first))]
pub fn carried(
    alloc: Global,
    sender: u32,
    filter: &Expr,
    body: &Stmt,
) -> Result<Vec<Load>, NoMemory>
    ensures { IfOk result (λ r. map as_load r.items ≡ Plans.carried sender (expr_of filter.now) (stmt_of body.now)) }
{
    let mut loads = Vec::new(alloc);
    gather_in(sender, filter, &mut loads)?;
    gather_of_body(sender, body, &mut loads)?;
    each_once(alloc, &loads)
}
