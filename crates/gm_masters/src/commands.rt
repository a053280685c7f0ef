//! Single statements of a sequential phase as commands.

ghost use Rattle.std.specs.Prelude.{◌≡◌, ◌++◌, ◌∷◌, [], IfOk, OnOk, map, option_map};
ghost use Rattle.gm_ast.specs.Program as Syntax;
ghost use Rattle.gm_ast.specs.Tree.{expr_of};
ghost use Rattle.gm_ast.specs.declared.tree.Sort.TheVariants as Sorts;
ghost use Rattle.gm_image.specs.Program as Program;
ghost use Rattle.gm_image.specs.Term as Term;
ghost use Rattle.gm_image.specs.Views.{block, command, term};
ghost use Rattle.gm_layouts.specs.Where.{where_of};
ghost use Rattle.gm_lowering.specs.Blocks.{body_block};
ghost use Rattle.gm_lowering.specs.Lowered as Lowered;
ghost use Rattle.gm_lowering.specs.Places.{segment, spots_in};
ghost use Rattle.gm_lowering.specs.Terms as Terms;
ghost use Rattle.gm_semantics.specs.Statements as Statements;
ghost use Rattle.gm_value.specs.Numbers.{zero_of};
ghost use Rattle.gm_bodies.specs.Keeps as Keeps;
ghost use Rattle.gm_masters.specs.Parts as Parts;
ghost use Rattle.gm_masters.specs.Parts.{as_at, as_frame, as_part, combined_part, command_by};

use crate::parts::{At, Frame, Part};
use gm_ast::tree::{Expr, Key, Sort, Target};
use gm_base::{Items, NoMemory};
use gm_bodies::{Keeper, Setting, Slot, keep};
use gm_image::{Block, Expr as Value, MasterLine, VertexLine};
use gm_layouts::Layout;
use gm_message::variable_at;
use gm_places::{Places, add_spots_in, add_spots_in_all};
use gm_terms::{Environment, Stand, lower_expr};
use gm_value::{Reduce, VType};
use std::alloc::Global;

/// An expression's term in the master list, and the places of what may fault in it.
#[derive(Drop)]
pub(crate) struct Told {
    pub(crate) value: Value,
    pub(crate) places: Places,
}

// Where terms of the master list are found: what stays the same over a tree, and the places of a statement.
#[derive(Clone, Copy)]
pub(crate) struct Reading<'a> {
    pub(crate) frame: Frame<'a>,
    pub(crate) places: &'a Places,
}

/// The term of an expression in the master list.
pub(crate) fn value_at(
    alloc: Global,
    reading: &Reading<'_>,
    key: Key,
    e: &Expr,
) -> Result<Value, NoMemory>
    ensures { IfOk result (λ r. term r ≡ Terms.term (Terms.master_env (where_of reading.now.frame.layout.now) reading.now.places.now) key (expr_of e.now)) }
{
    let env = Environment {
        layout: reading.frame.layout,
        places: reading.places,
        stand: Stand::Master,
    };
    let value = lower_expr(alloc, &env, key, e)?;
    Ok(value)
}

/// The term of an expression whose places begin at an index.
pub(crate) fn tell(
    alloc: Global,
    frame: &Frame<'_>,
    base: u32,
    key: Key,
    e: &Expr,
) -> Result<Told, NoMemory>
    ensures places { IfOk result (λ r. r.places ≡ segment base (spots_in (expr_of e.now) key)) }
    ensures value { IfOk result (λ r. term r.value ≡ Terms.term (Terms.master_env (where_of frame.now.layout.now) r.places) key (expr_of e.now)) }
{
    let mut spots = Vec::new(alloc);
    add_spots_in(e, key, &mut spots)?;
    let places = Places::new(alloc, base, &spots)?;
    let reading = Reading {
        frame: *frame,
        places: &places,
    };
    let value = value_at(alloc, &reading, key, e)?;
    Ok(Told { value, places })
}

// A scalar that becomes an expression's value.
fn set_part(
    alloc: Global,
    frame: &Frame<'_>,
    at: At,
    key: Key,
    number: u32,
    e: &Expr,
) -> Result<Part, NoMemory>
    ensures part { IfOk result (λ r. as_part r ≡ Lowered.told (as_frame frame.now) (as_at at) key (expr_of e.now) (λ t. Program.SetGlobal number t ∷ [])) }
    ensures kinds { IfOk result (λ r. r.kinds ≡ 0) }
{
    let told = tell(alloc, frame, at.place, key, e)?;
    let mut part = Part::new(alloc);
    part.commands
        .push(MasterLine::SetGlobal(number, told.value))?;
    told.places.add_shown(&mut part.places)?;
    Ok(part)
}

// The block that sets a field to the first value of its type.
fn first_values(alloc: Global, field: u32, vtype: VType) -> Result<Block, NoMemory>
    ensures { IfOk result (λ r. block r ≡ body_block (Program.SetField field (Term.Const (zero_of vtype)) ∷ [])) }
{
    let mut lines = Vec::new(alloc);
    lines.push(VertexLine::SetField(field, Value::Const(vtype.zero())))?;
    Ok(Block {
        handlers: Items::new(Vec::new(alloc)),
        body: Items::new(lines),
    })
}

// A property's first value at all nodes, where it has a field.
fn property_part(
    alloc: Global,
    frame: &Frame<'_>,
    at: At,
    vtype: VType,
    variable: u32,
) -> Result<Part, NoMemory>
    ensures part { IfOk result (λ r. as_part r ≡ Lowered.declared_part (as_frame frame.now) (as_at at) Sorts.NodeProperty vtype variable) }
    ensures kinds { IfOk result (λ r. r.kinds ≡ 0) }
{
    if !frame.layout.is_kept(variable) {
        return Ok(Part::new(alloc));
    }
    let first = first_values(alloc, frame.layout.field(variable)?, vtype)?;
    let mut part = Part::new(alloc);
    part.commands.push(MasterLine::Step(at.block))?;
    part.blocks.push(first)?;
    Ok(part)
}

// A declaration without a value.
fn declared_part(alloc: Global, frame: &Frame<'_>, at: At, variable: u32) -> Result<Part, NoMemory>
    ensures part { IfOk result (λ r. as_part r ≡ Lowered.declared_part (as_frame frame.now) (as_at at) (Statements.variable_at (where_of frame.now.layout.now).declarations variable).sort (Statements.variable_at (where_of frame.now.layout.now).declarations variable).vtype variable) }
    ensures kinds { IfOk result (λ r. r.kinds ≡ 0) }
{
    let declared = variable_at(frame.layout.declarations(), variable);
    match declared.sort {
        Sort::NodeProperty => property_part(alloc, frame, at, declared.vtype, variable),
        Sort::Scalar => {
            let number = frame.layout.global(variable)?;
            let mut part = Part::new(alloc);
            part.commands.push(MasterLine::SetGlobal(number, Value::Const(declared.vtype.zero())))?;
            Ok(part)
        }
        _ => Ok(Part::new(alloc)),
    }
}

/// A declaration.
pub(crate) fn declare(
    alloc: Global,
    frame: &Frame<'_>,
    at: At,
    key: Key,
    variable: u32,
    value: &Option<Expr>,
) -> Result<Part, NoMemory>
    ensures part { IfOk result (λ r. as_part r ≡ Lowered.part (as_frame frame.now) (Syntax.Declare key variable (option_map expr_of value.now)) (as_at at)) }
    ensures kinds { IfOk result (λ r. r.kinds ≡ 0) }
{
    match value {
        None => declared_part(alloc, frame, at, variable),
        Some(e) => set_part(alloc, frame, at, key, frame.layout.global(variable)?, e),
    }
}

/// An assignment to a scalar.
pub(crate) fn assign(
    alloc: Global,
    frame: &Frame<'_>,
    at: At,
    key: Key,
    target: Target,
    value: &Expr,
) -> Result<Part, NoMemory>
    ensures part { IfOk result (λ r. as_part r ≡ Lowered.assigned_part (as_frame frame.now) (as_at at) key target (expr_of value.now)) }
    ensures kinds { IfOk result (λ r. r.kinds ≡ 0) }
{
    match target {
        Target::Scalar { variable, .. } => {
            set_part(alloc, frame, at, key, frame.layout.global(variable)?, value)
        }
        Target::Property { .. } => Ok(Part::new(alloc)),
    }
}

// A command that sets a target.
fn set_target(layout: &Layout<'_>, target: Target, value: Value) -> Result<MasterLine, NoMemory>
    ensures { IfOk result (λ r. command r ≡ Lowered.set_global (where_of layout.now) target (term value)) }
{
    match target {
        Target::Scalar { variable, .. } => {
            Ok(MasterLine::SetGlobal(layout.global(variable)?, value))
        }
        Target::Property { property, .. } => {
            Ok(MasterLine::SetGlobal(layout.global(property)?, value))
        }
    }
}

// A command that sets a slot.
fn set_command(layout: &Layout<'_>, setting: Setting) -> Result<MasterLine, NoMemory>
    ensures { IfOk result (λ r. command r ≡ command_by (where_of layout.now) (Keeps.setting setting)) }
{
    match setting.slot {
        Slot::Target(target) => set_target(layout, target, setting.value),
        Slot::Spare { position, vtype } => Ok(MasterLine::SetGlobal(
            layout.spare_global(position, vtype)?,
            setting.value,
        )),
    }
}

// Adds the commands that set slots.
fn add_settings(
    layout: &Layout<'_>,
    settings: Vec<Setting>,
    out: &mut Vec<MasterLine>,
) -> Result<(), NoMemory>
    ensures { OnOk result (map command out.new.items ≡ map command out.old.items ++ map (command_by (where_of layout.now)) (map Keeps.setting settings.items)) }
{
    for setting in settings {
        let set = set_command(layout, setting)?;
        out.push(set)?;
    }
    Ok(())
}

// The settings that keep the better values of a reduction.
#[tactic(auto, using(crate::proofs::Kept::kept_is))]
fn settings_at(
    alloc: Global,
    reading: &Reading<'_>,
    key: Key,
    reduce: Reduce,
    targets: &[Target],
    values: &[Expr],
) -> Result<Vec<Setting>, NoMemory>
    ensures { IfOk result (λ r. map (command_by (where_of reading.now.frame.layout.now)) (map Keeps.setting r.items) ≡ Parts.kept_commands (where_of reading.now.frame.layout.now) reading.now.places.now key reduce targets.now (map expr_of values.now)) }
{
    let env = Environment {
        layout: reading.frame.layout,
        places: reading.places,
        stand: Stand::Master,
    };
    let keeper = Keeper {
        env: &env,
        by_registers: false,
    };
    let mut settings = Vec::new(alloc);
    keep(alloc, &keeper, reduce, key, targets, values, &mut settings)?;
    Ok(settings)
}

/// A reduction to scalars, whose better values are kept at once.
pub(crate) fn combine(
    alloc: Global,
    frame: &Frame<'_>,
    at: At,
    key: Key,
    reduce: Reduce,
    targets: &[Target],
    values: &[Expr],
) -> Result<Part, NoMemory>
    ensures part { IfOk result (λ r. as_part r ≡ combined_part (as_frame frame.now) (as_at at) key reduce targets.now (map expr_of values.now)) }
    ensures kinds { IfOk result (λ r. r.kinds ≡ 0) }
{
    let mut spots = Vec::new(alloc);
    add_spots_in_all(values, key, &mut spots)?;
    let places = Places::new(alloc, at.place, &spots)?;
    let reading = Reading {
        frame: *frame,
        places: &places,
    };
    let settings = settings_at(alloc, &reading, key, reduce, targets, values)?;
    let mut part = Part::new(alloc);
    add_settings(frame.layout, settings, &mut part.commands)?;
    places.add_shown(&mut part.places)?;
    Ok(part)
}

// The result that is returned, if there is one.
fn value_part(
    alloc: Global,
    frame: &Frame<'_>,
    at: At,
    key: Key,
    value: &Option<Expr>,
) -> Result<Part, NoMemory>
    ensures part { IfOk result (λ r. as_part r ≡ Parts.value_part (as_frame frame.now) (as_at at) key (option_map expr_of value.now)) }
    ensures kinds { IfOk result (λ r. r.kinds ≡ 0) }
{
    match value {
        None => Ok(Part::new(alloc)),
        Some(e) => set_part(alloc, frame, at, key, frame.layout.result(), e),
    }
}

/// A return: its value, and to the end.
#[tactic(auto, using(crate::proofs::Returns::return_is))]
pub(crate) fn leave(
    alloc: Global,
    frame: &Frame<'_>,
    at: At,
    key: Key,
    value: &Option<Expr>,
) -> Result<Part, NoMemory>
    ensures part { IfOk result (λ r. as_part r ≡ Lowered.return_part (as_frame frame.now) (as_at at) key (option_map expr_of value.now)) }
    ensures kinds { IfOk result (λ r. r.kinds ≡ 0) }
{
    let mut part = value_part(alloc, frame, at, key, value)?;
    part.commands.push(MasterLine::Jump(frame.finish))?;
    Ok(part)
}
