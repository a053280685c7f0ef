//! What receivers do with the values that are sent for reductions.

ghost use Rattle.std.specs.Prelude.{◌≡◌, ◌+◌, ◌++◌, ◌∷◌, [], IfOk, OnOk, length, map};
ghost use Rattle.gm_ast.specs.Program.{sequence};
ghost use Rattle.gm_ast.specs.Tree.{stmt_of};
ghost use Rattle.gm_image.specs.Views.{block, handler, target};
ghost use Rattle.gm_layouts.specs.Where.{where_of};
ghost use Rattle.gm_lowering.specs.Blocks as Blocks;
ghost use Rattle.gm_lowering.specs.Bodies as Bodies;
ghost use Rattle.gm_lowering.specs.Plans as Plans;
ghost use Rattle.gm_blocks.specs.Takings.{block_if, taken_by};

use gm_ast::tree::{Stmt, Target, TotalKey};
use gm_base::{Items, NoMemory};
use gm_bodies::slot_number;
use gm_image::{Block, Expr as Lowered, Handler, VertexLine};
use gm_layouts::{Layout, next};
use gm_message::{Way, way_of};
use gm_places::Places;
use gm_value::Reduce;
use std::alloc::Global;

// Where the reductions of a loop are taken: where variables lie, the loop's places, and the iterator of the node that sends.
#[derive(Clone, Copy)]
pub(crate) struct Takings<'a> {
    pub(crate) layout: &'a Layout<'a>,
    pub(crate) places: &'a Places,
    pub(crate) node: u32,
}

// The slots of targets, with the values of a message.
fn slots(
    alloc: Global,
    layout: &Layout<'_>,
    targets: &[Target],
) -> Result<Vec<(u32, Lowered)>, NoMemory>
    ensures { IfOk result (λ r. map target r.items ≡ Bodies.image_targets (where_of layout.now) targets.now (Blocks.message_values 0 targets.now)) }
{
    let mut out = Vec::new(alloc);
    let mut index = 0;
    for target in targets {
        out.push((slot_number(layout, *target)?, Lowered::Message(index)))?;
        index = next(index)?;
    }
    Ok(out)
}

// The handler of a reduction.
fn handler_of(
    alloc: Global,
    takings: &Takings<'_>,
    kind: u32,
    total: TotalKey,
    reduce: Reduce,
    targets: &[Target],
) -> Result<Handler, NoMemory>
    ensures { IfOk result (λ r. handler r ≡ Blocks.taking_handler (where_of takings.now.layout.now) takings.now.places.now kind (record { total = total; reduce = reduce; targets = targets.now })) }
{
    let place = takings.places.total_index(total)?;
    let slots = slots(alloc, takings.layout, targets)?;
    let mut lines = Vec::new(alloc);
    lines.push(VertexLine::Fold {
        reduce,
        place,
        slots: Items::new(slots),
    })?;
    Ok(Handler {
        kind,
        lines: Items::new(lines),
    })
}

// Adds the handler of a reduction, if its values are sent, and gives the kind of the next message.
fn add_taking(
    alloc: Global,
    takings: &Takings<'_>,
    kind: u32,
    total: TotalKey,
    reduce: Reduce,
    targets: &[Target],
    out: &mut Vec<Handler>,
) -> Result<u32, NoMemory>
    ensures handlers { OnOk result (map handler out.new.items ≡ map handler out.old.items ++ taken_by (where_of takings.now.layout.now) takings.now.places.now takings.now.node kind total reduce targets.now) }
    ensures kinds { IfOk result (λ r. r ≡ kind + length (Plans.away_by (Plans.way_of (where_of takings.now.layout.now).declarations takings.now.node targets.now) total reduce targets.now)) }
{
    match way_of(takings.layout.declarations(), takings.node, targets) {
        Way::Sends => {
            out.push(handler_of(alloc, takings, kind, total, reduce, targets)?)?;
            next(kind)
        }
        _ => Ok(kind),
    }
}

// Adds the handlers of a block.
#[cycle(taking)]
fn add_block_takings(
    alloc: Global,
    takings: &Takings<'_>,
    kind: u32,
    stmts: &Vec<Stmt>,
    out: &mut Vec<Handler>,
) -> Result<u32, NoMemory>
    ensures handlers { OnOk result (map handler out.new.items ≡ map handler out.old.items ++ Blocks.taking_handlers (where_of takings.now.layout.now) takings.now.places.now kind (Plans.aways (where_of takings.now.layout.now).declarations takings.now.node (sequence (map stmt_of stmts.now.items)))) }
    ensures kinds { IfOk result (λ r. r ≡ kind + length (Plans.aways (where_of takings.now.layout.now).declarations takings.now.node (sequence (map stmt_of stmts.now.items)))) }
{
    let mut kind = kind;
    for stmt in stmts {
        kind = add_takings(alloc, takings, kind, stmt, out)?;
    }
    Ok(kind)
}

// Adds the handlers of a body's reductions whose values are sent, and gives the kind of the next message.
#[cycle(taking)]
fn add_takings(
    alloc: Global,
    takings: &Takings<'_>,
    kind: u32,
    s: &Stmt,
    out: &mut Vec<Handler>,
) -> Result<u32, NoMemory>
    ensures handlers { OnOk result (map handler out.new.items ≡ map handler out.old.items ++ Blocks.taking_handlers (where_of takings.now.layout.now) takings.now.places.now kind (Plans.aways (where_of takings.now.layout.now).declarations takings.now.node (stmt_of s.now))) }
    ensures kinds { IfOk result (λ r. r ≡ kind + length (Plans.aways (where_of takings.now.layout.now).declarations takings.now.node (stmt_of s.now))) }
{
    match s {
        Stmt::Block(stmts) => add_block_takings(alloc, takings, kind, stmts, out),
        Stmt::Reduce {
            total,
            reduce,
            targets,
            ..
        } => add_taking(alloc, takings, kind, *total, *reduce, targets, out),
        Stmt::If { yes, no, .. } => {
            let middle = add_takings(alloc, takings, kind, yes, out)?;
            let end = add_takings(alloc, takings, middle, no, out)?;
            Ok(end)
        }
        _ => Ok(kind),
    }
}

// Adds the block that takes what is sent for reductions, if there are any, and gives the kind of the next message.
#[tactic(auto, using(crate::proofs::Taken::blocks_taken))]
pub(crate) fn add_taking_block(
    alloc: Global,
    takings: &Takings<'_>,
    kind: u32,
    body: &Stmt,
    blocks: &mut Vec<Block>,
) -> Result<u32, NoMemory>
    ensures made { OnOk result (map block blocks.new.items ≡ map block blocks.old.items ++ Blocks.taking_blocks (where_of takings.now.layout.now) takings.now.places.now kind (Plans.aways (where_of takings.now.layout.now).declarations takings.now.node (stmt_of body.now))) }
    ensures kinds { IfOk result (λ r. r ≡ kind + length (Plans.aways (where_of takings.now.layout.now).declarations takings.now.node (stmt_of body.now))) }
{
    let mut handlers = Vec::new(alloc);
    let kind = add_takings(alloc, takings, kind, body, &mut handlers)?;
    add_handlers(alloc, handlers, blocks)?;
    Ok(kind)
}

// Adds the block of some handlers, if there are any.
fn add_handlers(
    alloc: Global,
    handlers: Vec<Handler>,
    blocks: &mut Vec<Block>,
) -> Result<(), NoMemory>
    ensures { OnOk result (map block blocks.new.items ≡ map block blocks.old.items ++ block_if (map handler handlers.items)) }
{
    if !handlers.is_empty() {
        blocks.push(Block {
            handlers: Items::new(handlers),
            body: Items::new(Vec::new(alloc)),
        })?;
    }
    Ok(())
}
