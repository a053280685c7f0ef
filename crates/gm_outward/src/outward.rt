//! What loops ask at their own nodes first.

ghost use Rattle.std.specs.Prelude.{◌≡◌, ◌&&◌, ◌++◌, ◌∷◌, if◌then◌else◌, IfOk, OnOk, map};
ghost use Rattle.gm_ast.specs.Program as Program;
ghost use Rattle.gm_ast.specs.Program.{sequence};
ghost use Rattle.gm_ast.specs.Tree.{expr_of, program_of, stmt_of};
ghost use Rattle.gm_forms.specs.Cut as Cut;
ghost use Rattle.gm_forms.specs.Order as Order;
ghost use Rattle.gm_forms.specs.Passes.{Pass};
ghost use Rattle.gm_forms.specs.Ready.{Ready4};
ghost use Rattle.gm_outward.specs.Gathered as Gathered;
ghost use Rattle.gm_outward.specs.Outward as Outward;

use crate::conditions::{always, together};
use crate::gathered::gather;
use gm_ast::forms::Work;
use gm_ast::tree::{Expr, Head, Key, Stmt, Tree};
use gm_base::{NoMemory, Place};
use gm_facts::changes::list_touched;
use gm_facts::faults::cannot_fail;
use gm_facts::reads::{is_flat, spares};
use gm_flip::flip::loop_of;
use gm_trees::places::{beside, finish, put, taken, taken_value};
use std::alloc::{AllocError, Global};

/// Lets each loop that goes along edges gather the conditions of an inner body that is one reduction in the inner filter, and ask
/// at its node first what is the node's alone of the conditions at the front of that filter. A program in the last form means the same, and stays in that form.
pub fn outward(alloc: Global, program: Work) -> Result<Work, NoMemory>
    ensures made { IfOk result (λ r. program_of r ≡ Outward.outward (program_of program)) }
    ensures passes { IfOk result (λ r. Pass Ready4 Ready4 (program_of program) (program_of r)) }
{
    let mut tree = program.into_tree();
    let outcome = ask_tree(alloc, &mut tree);
    finish(tree, outcome)
}

// The same of a tree.
fn ask_tree(alloc: Global, tree: &mut Tree) -> Result<(), NoMemory>
    ensures { OnOk result (program_of tree.new ≡ Outward.outward (program_of tree.old)) }
{
    ask_phase(alloc, &mut tree.body)?;
    Ok(())
}

// Whether a condition is a mask of a node that reads none of some variables.
fn is_mask_apart(node: u32, changed: &[u32], e: &Expr) -> bool
    ensures { result ≡ Outward.is_mask_apart node changed.now (expr_of e.now) }
{
    (cannot_fail(e) && is_flat(&[node], false, e)) && spares(changed, e)
}

// The conditions of a filter in two parts, those that were chosen and those that are left, and whether none can fault.
#[derive(Drop)]
struct Parts {
    chosen: Expr,
    left: Expr,
    safe: bool,
}

// A condition that is no conjunction, chosen or left whole.
fn alone(node: u32, changed: &[u32], e: Expr) -> Parts
    ensures chosen { expr_of result.chosen ≡ (if Outward.is_mask_apart node changed.now (expr_of e) then expr_of e else Program.always) }
    ensures left { expr_of result.left ≡ (if Outward.is_mask_apart node changed.now (expr_of e) then Program.always else expr_of e) }
    ensures safe { result.safe ≡ Order.cannot_fail (expr_of e) }
{
    let safe = cannot_fail(&e);
    if is_mask_apart(node, changed, &e) {
        Parts {
            chosen: e,
            left: always(),
            safe,
        }
    } else {
        Parts {
            chosen: always(),
            left: e,
            safe,
        }
    }
}

// The parts of two filters, the first of which cannot fault.
fn join(alloc: Global, first: Parts, second: Parts) -> Result<Parts, AllocError>
    ensures chosen { IfOk result (λ r. expr_of r.chosen ≡ Gathered.together (expr_of first.chosen) (expr_of second.chosen)) }
    ensures left { IfOk result (λ r. expr_of r.left ≡ Gathered.together (expr_of first.left) (expr_of second.left)) }
    ensures safe { IfOk result (λ r. r.safe ≡ (first.safe && second.safe)) }
{
    let safe = first.safe && second.safe;
    let Parts {
        chosen: first_chosen,
        left: first_left,
        ..
    } = first;
    let Parts {
        chosen: second_chosen,
        left: second_left,
        ..
    } = second;
    let (lefts, chosen) = beside(
        (first_left, second_left),
        together(alloc, first_chosen, second_chosen),
    )?;
    let (first_left, second_left) = lefts;
    let (chosen, left) = beside(chosen, together(alloc, first_left, second_left))?;
    Ok(Parts { chosen, left, safe })
}

// The parts of a filter that can fault, and what stands behind it, which is left whole.
fn close(alloc: Global, first: Parts, rest: Expr) -> Result<Parts, AllocError>
    ensures chosen { IfOk result (λ r. expr_of r.chosen ≡ Gathered.together (expr_of first.chosen) Program.always) }
    ensures left { IfOk result (λ r. expr_of r.left ≡ Gathered.together (expr_of first.left) (expr_of rest)) }
    ensures safe { IfOk result (λ r. r.safe ≡ first.safe) }
{
    let behind = Parts {
        chosen: always(),
        left: rest,
        safe: true,
    };
    join(alloc, first, behind)
}

// The parts of a filter in a box.
#[cycle(parting)]
fn part_boxed(
    alloc: Global,
    node: u32,
    changed: &[u32],
    e: &mut Box<Expr>,
) -> Result<Parts, AllocError>
    ensures chosen { IfOk result (λ r. expr_of r.chosen ≡ Outward.chosen (Outward.is_mask_apart node changed.now) (expr_of e.old.value)) }
    ensures left { IfOk result (λ r. expr_of r.left ≡ Outward.left (Outward.is_mask_apart node changed.now) (expr_of e.old.value)) }
    ensures safe { IfOk result (λ r. r.safe ≡ Order.cannot_fail (expr_of e.old.value)) }
{
    part(alloc, node, changed, e)
}

// The parts of a conjunction, of which the first condition is parted already.
#[cycle(parting)]
fn part_behind(
    alloc: Global,
    node: u32,
    changed: &[u32],
    second: &mut Box<Expr>,
    first: Parts,
) -> Result<Parts, AllocError>
    ensures chosen { IfOk result (λ r. expr_of r.chosen ≡ Gathered.together (expr_of first.chosen) (if first.safe then Outward.chosen (Outward.is_mask_apart node changed.now) (expr_of second.old.value) else Program.always)) }
    ensures left { IfOk result (λ r. expr_of r.left ≡ Gathered.together (expr_of first.left) (if first.safe then Outward.left (Outward.is_mask_apart node changed.now) (expr_of second.old.value) else expr_of second.old.value)) }
    ensures safe { IfOk result (λ r. r.safe ≡ (first.safe && Order.cannot_fail (expr_of second.old.value))) }
{
    if first.safe {
        let (first, second) = beside(first, part_boxed(alloc, node, changed, second))?;
        join(alloc, first, second)
    } else {
        let rest = taken_value(second);
        close(alloc, first, rest)
    }
}

// The parts of a filter, which is taken: the conditions that are masks of a node and read none of some variables, of those
// before the first condition that can fault, and the others.
#[cycle(parting)]
fn part(alloc: Global, node: u32, changed: &[u32], e: &mut Expr) -> Result<Parts, AllocError>
    ensures chosen { IfOk result (λ r. expr_of r.chosen ≡ Outward.chosen (Outward.is_mask_apart node changed.now) (expr_of e.old)) }
    ensures left { IfOk result (λ r. expr_of r.left ≡ Outward.left (Outward.is_mask_apart node changed.now) (expr_of e.old)) }
    ensures safe { IfOk result (λ r. r.safe ≡ Order.cannot_fail (expr_of e.old)) }
{
    match e {
        Expr::Both(first, second) => {
            let first = part_boxed(alloc, node, changed, first)?;
            part_behind(alloc, node, changed, second, first)
        }
        Expr::Const(_)
        | Expr::Var { .. }
        | Expr::Property { .. }
        | Expr::EdgeProperty { .. }
        | Expr::Degree { .. }
        | Expr::NodeCount
        | Expr::EdgeCount
        | Expr::Live { .. }
        | Expr::Unary { .. }
        | Expr::Binary { .. }
        | Expr::Either(_, _)
        | Expr::Choose(_, _, _)
        | Expr::Fold { .. } => Ok(alone(node, changed, taken_value(e))),
    }
}

// An inner loop's iterator, and what its body changes.
fn changed_by(alloc: Global, iterator: u32, body: &Stmt) -> Result<Vec<u32>, AllocError>
    ensures { IfOk result (λ r. r.items ≡ iterator ∷ Cut.touched (stmt_of body.now)) }
{
    let mut changed = Vec::new(alloc);
    changed.push(iterator)?;
    list_touched(body, &mut changed)?;
    Ok(changed)
}

// The mask of a loop, with what is chosen of an inner filter, which keeps the rest.
fn ask_filter(
    alloc: Global,
    node: u32,
    changed: &[u32],
    mask: &mut Expr,
    filter: &mut Expr,
) -> Result<(), AllocError>
    ensures mask { OnOk result (expr_of mask.new ≡ Gathered.together (expr_of mask.old) (Outward.chosen (Outward.is_mask_apart node changed.now) (expr_of filter.old))) }
    ensures filter { OnOk result (expr_of filter.new ≡ Outward.left (Outward.is_mask_apart node changed.now) (expr_of filter.old)) }
{
    let Parts { chosen, left, .. } = part(alloc, node, changed, filter)?;
    put(filter, left);
    let both = together(alloc, taken_value(mask), chosen)?;
    put(mask, both);
    Ok(())
}

// The mask of a loop, and the filter and the body of its inner loop: the body's conditions are gathered, and what of all is the
// outer node's joins the mask.
fn ask_parts(
    alloc: Global,
    node: u32,
    iterator: u32,
    mask: Expr,
    filter: Expr,
    body: Stmt,
) -> Result<(Expr, Expr, Stmt), AllocError>
    ensures mask { IfOk result (λ r. expr_of r.0 ≡ Gathered.together (expr_of mask)
        (Outward.chosen (Outward.is_mask_apart node (iterator ∷ Cut.touched (Gathered.gathered_body (stmt_of body)))) (Gathered.gathered_filter (expr_of filter) (stmt_of body)))) }
    ensures filter { IfOk result (λ r. expr_of r.1 ≡
        Outward.left (Outward.is_mask_apart node (iterator ∷ Cut.touched (Gathered.gathered_body (stmt_of body)))) (Gathered.gathered_filter (expr_of filter) (stmt_of body))) }
    ensures body { IfOk result (λ r. stmt_of r.2 ≡ Gathered.gathered_body (stmt_of body)) }
{
    let mut mask = mask;
    let mut filter = filter;
    let mut body = body;
    gather(alloc, &mut filter, &mut body)?;
    let changed = changed_by(alloc, iterator, &body)?;
    ask_filter(alloc, node, &changed, &mut mask, &mut filter)?;
    Ok((mask, filter, body))
}

// A loop over nodes that asks first what it can, where its body is an inner loop.
fn ask(
    alloc: Global,
    key: Key,
    place: Place,
    head: Head,
    mask: Expr,
    body: Stmt,
) -> Result<Stmt, AllocError>
    ensures { IfOk result (λ r. stmt_of r ≡ Outward.asked_loop key place head (expr_of mask) (stmt_of body)) }
{
    match body {
        Stmt::Foreach {
            key: inner_key,
            place: inner_place,
            head: inner,
            filter,
            body,
        } => {
            let (mask, filter, body) = ask_parts(
                alloc,
                head.iterator,
                inner.iterator,
                mask,
                filter,
                Box::into_inner(body),
            )?;
            let (mask, asked) = beside(
                mask,
                loop_of(alloc, inner_key, inner_place, inner, filter, body),
            )?;
            loop_of(alloc, key, place, head, mask, asked)
        }
        Stmt::Block(stmts) => loop_of(alloc, key, place, head, mask, Stmt::Block(stmts)),
        other => loop_of(alloc, key, place, head, mask, other),
    }
}

// The same of a loop whose filter and body are taken out.
fn ask_loop(
    alloc: Global,
    key: Key,
    place: Place,
    head: Head,
    mask: &mut Expr,
    body: &mut Stmt,
) -> Result<Stmt, AllocError>
    ensures { IfOk result (λ r. stmt_of r ≡ Outward.asked_loop key place head (expr_of mask.old) (stmt_of body.old)) }
{
    let mask = taken_value(mask);
    let body = taken(alloc, body);
    ask(alloc, key, place, head, mask, body)
}

// Each loop of a block of the sequential phase asks first what it can.
#[cycle(asking)]
fn ask_block(alloc: Global, stmts: &mut Vec<Stmt>) -> Result<(), AllocError>
    ensures { OnOk result (sequence (map stmt_of stmts.new.items) ≡ Outward.asked_outward (sequence (map stmt_of stmts.old.items))) }
{
    for i in 0..stmts.len() {
        ask_phase(alloc, &mut stmts[i])?;
    }
    Ok(())
}

// The same of a sequential phase in a box.
#[cycle(asking)]
fn ask_part(alloc: Global, s: &mut Box<Stmt>) -> Result<(), AllocError>
    ensures { OnOk result (stmt_of s.new.value ≡ Outward.asked_outward (stmt_of s.old.value)) }
{
    ask_phase(alloc, s)?;
    Ok(())
}

// The same of a sequential phase.
#[cycle(asking)]
fn ask_phase(alloc: Global, s: &mut Stmt) -> Result<(), AllocError>
    ensures { OnOk result (stmt_of s.new ≡ Outward.asked_outward (stmt_of s.old)) }
{
    match s {
        Stmt::Block(stmts) => ask_block(alloc, stmts),
        Stmt::Foreach {
            key,
            place,
            head,
            filter,
            body,
        } => {
            let new = ask_loop(alloc, *key, *place, *head, filter, body)?;
            put(s, new);
            Ok(())
        }
        Stmt::For { body, .. } => ask_part(alloc, body),
        Stmt::If { yes, no, .. } => {
            ask_part(alloc, yes)?;
            ask_part(alloc, no)
        }
        Stmt::While { body, .. } => ask_part(alloc, body),
        Stmt::Do { body, .. } => ask_part(alloc, body),
        _ => Ok(()),
    }
}
