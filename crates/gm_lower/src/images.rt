//! The image of a program.

ghost use Rattle.std.specs.Prelude.{◌≡◌, ◌<◌, IfOk, length, map};
ghost use Rattle.gm_ast.specs.Tree.{program_of, stmt_of};
ghost use Rattle.gm_image.specs.Rows.{line_count};
ghost use Rattle.gm_image.specs.Soundness.{line_limit};
ghost use Rattle.gm_image.specs.Views as Views;
ghost use Rattle.gm_layouts.specs.Where.{where_of};
ghost use Rattle.gm_lowering.specs.Lowered as Lowered;
ghost use Rattle.gm_masters.specs.Parts.{as_at, as_part};
ghost use Rattle.gm_message.specs.Views.{as_plan};
ghost use Rattle.gm_lower.specs.Images as Images;
ghost use Rattle.gm_lower.specs.Laws.{HasItsOutcome, IsItsImage, IsSoundWhereAsked};

use crate::items::{copy_of, inputs_of, outputs_of};
use gm_ast::forms::Work;
use gm_ast::tree::{Stmt, Tree};
use gm_base::{Items, NoMemory};
use gm_image::{Image, Kind, MasterLine};
use gm_layouts::{Layout, column_types, field_types, global_types, register_types, small};
use gm_masters::{At, Frame, Part, lower_phase};
use gm_message::{Plan, plan_messages};
use gm_value::VType;
use gm_verify::is_countable;
use std::alloc::Global;

/// The image of a program in the last form: its inputs and outputs, the types of its layout, the kinds of its messages, and
/// the places, the blocks and the master list of its statements. Answers want of memory too where a number of the image or of
/// a line of its text would not be one of 32 bits.
///
/// It takes time near linear in the tree, times how deep its loops and conditions stand in each other.
pub fn lower(alloc: Global, program: &Work) -> Result<Image, NoMemory>
    // The image is that of the program, with those outputs that globals and fields hold.
    ensures made { IfOk result (λ r. Views.program r ≡ Images.image_of (program_of program.now)) }

    // Its text has fewer lines than 2^32, as that of each sound image has.
    ensures short { IfOk result (λ r. line_count (Views.program r) < line_limit) }

    // It is the program's own, where no output is a property of edges: no accepted program has such an output.
    ensures own { IfOk result (λ r. IsItsImage (program_of program.now) (Views.program r)) }

    // It has the outcome of a program of plain loops: turns, faults with their places, and the cut, on every graph.
    ensures outcome { IfOk result (λ r. HasItsOutcome (program_of program.now) (Views.program r)) }

    // It is sound, where what the rules of images ask is so of the program.
    ensures sound { IfOk result (λ r. IsSoundWhereAsked (program_of program.now) (Views.program r)) }
{
    let plan = plan_messages(alloc, program)?;
    let kinds = kinds_of(alloc, plan)?;
    let image = image_of(alloc, program.tree(), kinds)?;
    if !is_countable(&image) {
        return Err(NoMemory);
    }
    Ok(image)
}

// The kinds of a plan, with no combiners.
fn kinds_of(alloc: Global, plan: Plan) -> Result<Items<Kind>, NoMemory>
    ensures { IfOk result (λ r. r ≡ map Lowered.kind_of (as_plan plan).kinds) }
{
    let mut kinds = Vec::new(alloc);
    for kind in plan.kinds.into_vec() {
        kinds.push(Kind {
            combiner: None,
            values: kind.values,
        })?;
    }
    Ok(Items::new(kinds))
}

// Where an image begins.
fn beginning() -> At
    ensures { as_at result ≡ Lowered.start }
{
    At {
        line: 0,
        block: 0,
        kind: 0,
        place: 0,
        depth: 0,
    }
}

// The part of a body, where the last line of the master list is known.
fn part_of(alloc: Global, layout: &Layout<'_>, body: &Stmt, finish: u32) -> Result<Part, NoMemory>
    ensures { IfOk result (λ r. as_part r ≡ Images.part_of (where_of layout.now) (stmt_of body.now) finish) }
{
    let frame = Frame { layout, finish };
    let part = lower_phase(alloc, &frame, beginning(), body)?;
    Ok(part)
}

// How many lines of the master list a body has.
fn count_lines(alloc: Global, layout: &Layout<'_>, body: &Stmt) -> Result<u32, NoMemory>
    ensures { IfOk result (λ r. r ≡ length (Images.part_of (where_of layout.now) (stmt_of body.now) 0).commands) }
{
    let part = part_of(alloc, layout, body, 0)?;
    small(part.commands.len())
}

// The part of a body. It is made twice: at first to count its lines, to whose end a return leads.
fn whole_of(alloc: Global, layout: &Layout<'_>, body: &Stmt) -> Result<Part, NoMemory>
    ensures { IfOk result (λ r. as_part r ≡ Images.whole_of (where_of layout.now) (stmt_of body.now)) }
{
    let finish = count_lines(alloc, layout, body)?;
    let part = part_of(alloc, layout, body, finish)?;
    Ok(part)
}

// The result's type with its global, if there is one.
fn result_at(slot: u32, returned: Option<VType>) -> Option<(VType, u32)>
    ensures { result ≡ Lowered.result_at slot returned }
{
    match returned {
        None => None,
        Some(vtype) => Some((vtype, slot)),
    }
}

// The image of a program with some kinds of messages.
fn image_of(alloc: Global, tree: &Tree, kinds: Items<Kind>) -> Result<Image, NoMemory>
    ensures { IfOk result (λ r. Views.program r ≡ Images.with_kinds (program_of tree.now) kinds) }
{
    let layout = Layout::new(alloc, tree)?;
    let name = copy_of(alloc, tree.name.as_slice())?;
    let inputs = inputs_of(alloc, &layout, tree.inputs)?;
    let outputs = outputs_of(alloc, &layout, tree.inputs, tree.outputs)?;
    let globals = global_types(alloc, tree)?;
    let fields = field_types(alloc, tree)?;
    let registers = register_types(alloc, tree)?;
    let columns = column_types(alloc, tree)?;
    let part = whole_of(alloc, &layout, &tree.body)?;
    let mut master = part.commands;
    master.push(MasterLine::Finish)?;
    Ok(Image {
        name,
        inputs,
        outputs,
        result: result_at(layout.result(), tree.result),
        globals: Items::new(globals),
        fields: Items::new(fields),
        registers: Items::new(registers),
        columns: Items::new(columns),
        kinds,
        places: Items::new(part.places),
        blocks: Items::new(part.blocks),
        master: Items::new(master),
    })
}
