//! What stands behind what loops send through node variables.

ghost use Rattle.std.specs.List.{list_all, list_any};
ghost use Rattle.std.specs.Prelude.{◌≡◌, ◌||◌, map, not, option_map, false};
ghost use Rattle.gm_ast.specs.Program.{sequence};
ghost use Rattle.gm_ast.specs.Tree.{expr_of, stmt_of};
ghost use Rattle.gm_forms.specs.Forms as Forms;
ghost use Rattle.gm_forms.specs.Order as Order;
ghost use Rattle.gm_lowering.specs.Plans as Plans;
ghost use Rattle.gm_plain_loops.specs.Tests as Tests;

use gm_ast::tree::{Declaration, Expr, Stmt, Target};
use gm_facts::faults::{can_overflow, cannot_fail, none_fails};
use gm_message::{Way, way_of};

// Whether a value that may be absent cannot fault.
fn may_not_fail(value: &Option<Expr>) -> bool
    ensures { result ≡ Forms.may Order.cannot_fail (option_map expr_of value.now) }
{
    match value {
        None => true,
        Some(value) => cannot_fail(value),
    }
}

// Whether a reduction keeps by itself what it reduces to.
fn is_picked(declarations: &[Declaration], node: u32, targets: &[Target]) -> bool
    ensures { result ≡ Tests.is_picked (Plans.way_of declarations.now node targets.now) }
{
    matches!(way_of(declarations, node, targets), Way::Picks)
}

// Whether its values are sent.
fn is_sent(declarations: &[Declaration], node: u32, targets: &[Target]) -> bool
    ensures { result ≡ Tests.is_sent (Plans.way_of declarations.now node targets.now) }
{
    matches!(way_of(declarations, node, targets), Way::Sends)
}

// Whether it reduces to properties of the node.
fn is_folded(declarations: &[Declaration], node: u32, targets: &[Target]) -> bool
    ensures { result ≡ Tests.is_folded (Plans.way_of declarations.now node targets.now) }
{
    matches!(way_of(declarations, node, targets), Way::Folds)
}

// Whether the statements of a block have nothing that may fault, and no total.
#[cycle(quiet)]
fn are_quiet(declarations: &[Declaration], node: u32, stmts: &Vec<Stmt>) -> bool
    ensures { result ≡ Tests.is_quiet declarations.now node (sequence (map stmt_of stmts.now.items)) }
{
    for stmt in stmts {
        if !is_quiet(declarations, node, stmt) {
            return false;
        }
    }
    true
}

// Whether a statement has neither.
#[cycle(quiet)]
fn is_quiet(declarations: &[Declaration], node: u32, s: &Stmt) -> bool
    ensures { result ≡ Tests.is_quiet declarations.now node (stmt_of s.now) }
{
    match s {
        Stmt::Block(stmts) => are_quiet(declarations, node, stmts),
        Stmt::Declare { value, .. } => may_not_fail(value),
        Stmt::Assign { value, .. } => cannot_fail(value),
        Stmt::Reduce {
            targets,
            values,
            ..
        } => is_picked(declarations, node, targets) && none_fails(values),
        Stmt::If { test, yes, no, .. } => {
            cannot_fail(test)
                && (is_quiet(declarations, node, yes) && is_quiet(declarations, node, no))
        }
        _ => true,
    }
}

// Whether a statement of a block sends through a node variable.
#[cycle(sending)]
fn some_sends(declarations: &[Declaration], node: u32, stmts: &Vec<Stmt>) -> bool
    ensures { result ≡ Tests.sends_any declarations.now node (sequence (map stmt_of stmts.now.items)) }
{
    for stmt in stmts {
        if sends_any(declarations, node, stmt) {
            return true;
        }
    }
    false
}

/// Whether a statement that is evaluated at a node sends through a node variable.
#[cycle(sending)]
pub fn sends_any(declarations: &[Declaration], node: u32, s: &Stmt) -> bool
    ensures { result ≡ Tests.sends_any declarations.now node (stmt_of s.now) }
{
    match s {
        Stmt::Block(stmts) => some_sends(declarations, node, stmts),
        Stmt::Reduce { targets, .. } => is_sent(declarations, node, targets),
        Stmt::If { yes, no, .. } => {
            sends_any(declarations, node, yes) || sends_any(declarations, node, no)
        }
        _ => false,
    }
}

// Whether a statement of a block sends a Sum or a Product through a node variable.
#[cycle(adding)]
fn some_adds(declarations: &[Declaration], node: u32, stmts: &Vec<Stmt>) -> bool
    ensures { result ≡ Tests.adds_any declarations.now node (sequence (map stmt_of stmts.now.items)) }
{
    for stmt in stmts {
        if adds_any(declarations, node, stmt) {
            return true;
        }
    }
    false
}

// Whether a statement that is evaluated at a node sends a Sum or a Product, whose total may be out of range.
#[cycle(adding)]
fn adds_any(declarations: &[Declaration], node: u32, s: &Stmt) -> bool
    ensures { result ≡ Tests.adds_any declarations.now node (stmt_of s.now) }
{
    match s {
        Stmt::Block(stmts) => some_adds(declarations, node, stmts),
        Stmt::Reduce {
            reduce,
            targets,
            ..
        } => can_overflow(*reduce) && is_sent(declarations, node, targets),
        Stmt::If { yes, no, .. } => {
            adds_any(declarations, node, yes) || adds_any(declarations, node, no)
        }
        _ => false,
    }
}

// Whether a target is a certain property.
fn is_to(property: u32, target: Target) -> bool
    ensures { result ≡ Tests.is_to property target }
{
    match target {
        Target::Scalar { .. } => false,
        Target::Property {
            property: other,
            ..
        } => other == property,
    }
}

// Whether some target is.
fn some_to(property: u32, targets: &[Target]) -> bool
    ensures { result ≡ list_any (Tests.is_to property) targets.now }
{
    targets.iter().any(|target| is_to(property, *target))
}

// Whether a statement of a block sends to a property under a number up to one.
#[cycle(sending_to)]
fn some_send_upto(
    declarations: &[Declaration],
    node: u32,
    property: u32,
    number: u32,
    stmts: &Vec<Stmt>,
) -> bool
    ensures { result ≡ Tests.sends_upto declarations.now node property number (sequence (map stmt_of stmts.now.items)) }
{
    for stmt in stmts {
        if sends_upto(declarations, node, property, number, stmt) {
            return true;
        }
    }
    false
}

// Whether a statement that is evaluated at a node sends to a property under such a number.
#[cycle(sending_to)]
fn sends_upto(declarations: &[Declaration], node: u32, property: u32, number: u32, s: &Stmt) -> bool
    ensures { result ≡ Tests.sends_upto declarations.now node property number (stmt_of s.now) }
{
    match s {
        Stmt::Block(stmts) => some_send_upto(declarations, node, property, number, stmts),
        Stmt::Reduce { total, targets, .. } => {
            is_sent(declarations, node, targets)
                && (some_to(property, targets) && total.key.statement <= number)
        }
        Stmt::If { yes, no, .. } => {
            sends_upto(declarations, node, property, number, yes)
                || sends_upto(declarations, node, property, number, no)
        }
        _ => false,
    }
}

// Whether a target is no property to which a body sends under a number up to one.
fn is_unsent(
    declarations: &[Declaration],
    node: u32,
    body: &Stmt,
    number: u32,
    target: Target,
) -> bool
    ensures { result ≡ Tests.is_unsent declarations.now node (stmt_of body.now) number target }
{
    match target {
        Target::Scalar { .. } => true,
        Target::Property { property, .. } => {
            !sends_upto(declarations, node, property, number, body)
        }
    }
}

// Whether all targets are none.
fn are_unsent(
    declarations: &[Declaration],
    node: u32,
    body: &Stmt,
    number: u32,
    targets: &[Target],
) -> bool
    ensures { result ≡ list_all (Tests.is_unsent declarations.now node (stmt_of body.now) number) targets.now }
{
    targets.iter().all(|target| is_unsent(declarations, node, body, number, *target))
}

// Whether a reduction of a number is to no property of the node to which a body sends under a number up to it.
fn folds_before(
    declarations: &[Declaration],
    node: u32,
    body: &Stmt,
    number: u32,
    targets: &[Target],
) -> bool
    ensures { result ≡ (not (Tests.is_folded (Plans.way_of declarations.now node targets.now)) || list_all (Tests.is_unsent declarations.now node (stmt_of body.now) number) targets.now) }
{
    !is_folded(declarations, node, targets) || are_unsent(declarations, node, body, number, targets)
}

// Whether the statements of a block reduce to properties of the node by lesser numbers alone than those by which a body sends
// to the same ones.
#[cycle(folding)]
fn fold_first(declarations: &[Declaration], node: u32, stmts: &Vec<Stmt>, body: &Stmt) -> bool
    ensures { result ≡ Tests.folds_first declarations.now node (stmt_of body.now) (sequence (map stmt_of stmts.now.items)) }
{
    for stmt in stmts {
        if !folds_first(declarations, node, stmt, body) {
            return false;
        }
    }
    true
}

/// Whether a statement that is evaluated at a node reduces to its properties by lesser numbers alone than those by which a body
/// sends to the same ones. The body is gone through once for each property to which the statement reduces.
#[cycle(folding)]
pub fn folds_first(declarations: &[Declaration], node: u32, s: &Stmt, body: &Stmt) -> bool
    ensures { result ≡ Tests.folds_first declarations.now node (stmt_of body.now) (stmt_of s.now) }
{
    match s {
        Stmt::Block(stmts) => fold_first(declarations, node, stmts, body),
        Stmt::Reduce { total, targets, .. } => {
            folds_before(declarations, node, body, total.key.statement, targets)
        }
        Stmt::If { yes, no, .. } => {
            folds_first(declarations, node, yes, body) && folds_first(declarations, node, no, body)
        }
        _ => true,
    }
}

// Whether each statement of a block that stands behind one that sends a Sum or a Product is quiet, where one before the block
// has done so or none.
#[cycle(lasting)]
fn send_last(declarations: &[Declaration], node: u32, before: bool, stmts: &Vec<Stmt>) -> bool
    ensures { result ≡ Tests.sends_last declarations.now node before (sequence (map stmt_of stmts.now.items)) }
{
    let mut sent = before;
    for stmt in stmts {
        if !sends_last(declarations, node, sent, stmt) {
            return false;
        }
        sent = sent || adds_any(declarations, node, stmt);
    }
    true
}

/// Whether each statement of a body that stands behind one that sends a Sum or a Product is quiet. A block within a block, and
/// a branch, is gone through once more for each around it.
#[cycle(lasting)]
pub fn sends_last(declarations: &[Declaration], node: u32, sent: bool, s: &Stmt) -> bool
    ensures { result ≡ Tests.sends_last declarations.now node sent (stmt_of s.now) }
{
    match s {
        Stmt::Block(stmts) => send_last(declarations, node, sent, stmts),
        Stmt::If { test, yes, no, .. } => {
            (!sent || cannot_fail(test))
                && (sends_last(declarations, node, sent, yes)
                    && sends_last(
                        declarations,
                        node,
                        sent || adds_any(declarations, node, yes),
                        no,
                    ))
        }
        Stmt::Declare { .. }
        | Stmt::DeclareEdge { .. }
        | Stmt::Assign { .. }
        | Stmt::Defer { .. }
        | Stmt::Reduce { .. }
        | Stmt::Group { .. }
        | Stmt::Foreach { .. }
        | Stmt::For { .. }
        | Stmt::While { .. }
        | Stmt::Do { .. }
        | Stmt::InBfs { .. }
        | Stmt::InBfsBoth { .. }
        | Stmt::Return { .. } => !sent || is_quiet(declarations, node, s),
    }
}
