//! Loops, conditions and blocks of a sequential phase.

ghost use Rattle.std.specs.Prelude.{◌≡◌, IfOk, length, map};
ghost use Rattle.gm_ast.specs.Program.{sequence};
ghost use Rattle.gm_ast.specs.Tree.{expr_of, stmt_of};
ghost use Rattle.gm_layouts.specs.Where.{where_of};
ghost use Rattle.gm_lowering.specs.Blocks as Blocks;
ghost use Rattle.gm_lowering.specs.Lowered as Lowered;
ghost use Rattle.gm_lowering.specs.Plans as Plans;
ghost use Rattle.gm_masters.specs.Parts.{as_at, as_frame, as_part};

use crate::commands::{assign, combine, declare, leave, tell};
use crate::parts::{At, Frame, Part};
use crate::turns::{
    add_steps, choice_part, do_part, do_start, for_part, for_start, for_told, turn_start,
    while_part,
};
use gm_ast::tree::{Expr, Head, Key, Stmt};
use gm_base::NoMemory;
use gm_blocks::lower_loop;
use std::alloc::Global;

// A parallel loop: a step for each of its blocks.
fn loop_part(
    alloc: Global,
    frame: &Frame<'_>,
    at: At,
    key: Key,
    head: Head,
    filter: &Expr,
    body: &Stmt,
) -> Result<Part, NoMemory>
    ensures part { IfOk result (λ r. as_part r ≡ Lowered.loop_part (as_at at) (Blocks.loop (where_of frame.now.layout.now) at.place at.kind head.iterator key (expr_of filter.now) (stmt_of body.now))) }
    ensures kinds { IfOk result (λ r. r.kinds ≡ length (Plans.kinds_of_loop (where_of frame.now.layout.now).declarations head.iterator (stmt_of body.now))) }
{
    let lowered = lower_loop(
        alloc,
        frame.layout,
        at.place,
        at.kind,
        head.iterator,
        key,
        filter,
        body,
    )?;
    let mut commands = Vec::new(alloc);
    add_steps(at.block, &lowered.blocks, &mut commands)?;
    let mut places = Vec::new(alloc);
    lowered.places.add_shown(&mut places)?;
    Ok(Part {
        commands,
        blocks: lowered.blocks,
        places,
        kinds: lowered.kind - at.kind,
    })
}

// The part of a block.
#[cycle(phases)]
fn block_part(alloc: Global, frame: &Frame<'_>, at: At, stmts: &Vec<Stmt>) -> Result<Part, NoMemory>
    ensures part { IfOk result (λ r. as_part r ≡ Lowered.part (as_frame frame.now) (sequence (map stmt_of stmts.now.items)) (as_at at)) }
    ensures kinds { IfOk result (λ r. r.kinds ≡ length (Plans.kinds_in (where_of frame.now.layout.now).declarations (sequence (map stmt_of stmts.now.items)))) }
{
    let mut part = Part::new(alloc);
    for stmt in stmts {
        let here = at.past(&part)?;
        let more = lower_phase(alloc, frame, here, stmt)?;
        part.append(more)?;
    }
    Ok(part)
}

/// The part of a statement of a sequential phase. It takes time near linear in the statement, times how deep its loops and
/// conditions stand in each other.
#[cycle(phases)]
pub fn lower_phase(alloc: Global, frame: &Frame<'_>, at: At, s: &Stmt) -> Result<Part, NoMemory>
    ensures part { IfOk result (λ r. as_part r ≡ Lowered.part (as_frame frame.now) (stmt_of s.now) (as_at at)) }
    ensures kinds { IfOk result (λ r. r.kinds ≡ length (Plans.kinds_in (where_of frame.now.layout.now).declarations (stmt_of s.now))) }
{
    match s {
        Stmt::Block(stmts) => block_part(alloc, frame, at, stmts),
        Stmt::Declare {
            key,
            variable,
            value,
        } => declare(alloc, frame, at, *key, *variable, value),
        Stmt::Assign { key, target, value } => assign(alloc, frame, at, *key, *target, value),
        Stmt::Reduce {
            key,
            reduce,
            targets,
            values,
            ..
        } => combine(alloc, frame, at, *key, *reduce, targets, values),
        Stmt::Foreach {
            key,
            head,
            filter,
            body,
            ..
        } => loop_part(alloc, frame, at, *key, *head, filter, body),
        Stmt::For {
            key,
            place,
            head,
            filter,
            body,
        } => {
            let told = for_told(alloc, frame, at.place, *key, *place, filter)?;
            let start = for_start(at, &told)?;
            let turn = lower_phase(alloc, frame, start, body)?;
            let part = for_part(
                alloc,
                frame.layout,
                *key,
                *place,
                *head,
                told,
                at,
                start,
                turn,
            )?;
            Ok(part)
        }
        Stmt::If { key, test, yes, no } => {
            let told = tell(alloc, frame, at.place, *key, test)?;
            let start = turn_start(at, &told)?;
            let first = lower_phase(alloc, frame, start, yes)?;
            let behind = start.past(&first)?;
            let other = behind.lines_on(1)?;
            let second = lower_phase(alloc, frame, other, no)?;
            let part = choice_part(alloc, told, behind.line, first, second)?;
            Ok(part)
        }
        Stmt::While {
            key,
            test,
            body,
            ..
        } => {
            let told = tell(alloc, frame, at.place, *key, test)?;
            let start = turn_start(at, &told)?;
            let turn = lower_phase(alloc, frame, start, body)?;
            let part = while_part(alloc, told, at, start, turn)?;
            Ok(part)
        }
        Stmt::Do {
            key,
            body,
            test,
            ..
        } => {
            let told = tell(alloc, frame, at.place, *key, test)?;
            let start = do_start(at, &told)?;
            let turn = lower_phase(alloc, frame, start, body)?;
            let part = do_part(alloc, frame.layout, told, at, start, turn)?;
            Ok(part)
        }
        Stmt::Return { key, value, .. } => leave(alloc, frame, at, *key, value),
        _ => Ok(Part::new(alloc)),
    }
}
