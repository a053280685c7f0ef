//! Whether types fit in the lines of an image.

ghost use Rattle.std.specs.Prelude.{◌≡◌, ◌&&◌, map, IfOk, option_map};
ghost use Rattle.std.specs.List.{list_all};
ghost use Rattle.gm_image.specs.Views.{term, program, target, line, command};
ghost use Rattle.gm_image.specs.Parts.{is_shallow, slots_of};
ghost use Rattle.gm_image.specs.Fits.{has_slot_type, all_differ, reduction_fits, type_holds, targets_fit, values_fit, message_fits, line_fits, command_fits};
ghost use Rattle.gm_value.specs.Reductions.{reduces};
ghost use Rattle.gm_value.specs.Operations.{is_numeric};

use crate::expressions::is_shallow;
use crate::sorts::{has_type, type_at};
use gm_image::{Expr, Image, Kind, MasterLine, VertexLine};
use gm_value::{Reduce, VType};
use std::alloc::{AllocError, Global};
use std::collections::HashSet;

// Whether an expression has the type of a slot.
fn has_slot_type(image: &Image, kind: Option<u32>, slot: Option<VType>, expr: &Expr) -> bool
    ensures { result ≡ has_slot_type (program image.now) kind slot (term expr.now) }
{
    match slot {
        None => is_shallow(expr),
        Some(t) => has_type(image, kind, t, expr),
    }
}

// Whether all slots of a reduction differ.
fn all_differ(alloc: Global, targets: &[(u32, Expr)]) -> Result<bool, AllocError>
    ensures { IfOk result (λ differ. differ ≡ all_differ (slots_of (map target targets.now))) }
{
    let mut seen = HashSet::new(alloc);
    for target in targets {
        if !seen.insert(target.0)? {
            return Ok(false);
        }
    }
    Ok(true)
}

// Whether a reduction fits a slot's type, where there is one.
fn reduces_slot(reduce: Reduce, slot: Option<VType>) -> bool
    ensures { result ≡ type_holds (reduces reduce) slot }
{
    match slot {
        None => true,
        Some(t) => reduce.fits(t),
    }
}

// Whether a slot's type is a number's, where there is one.
fn numeric_slot(slot: Option<VType>) -> bool
    ensures { result ≡ type_holds is_numeric slot }
{
    match slot {
        None => true,
        Some(t) => t.is_numeric(),
    }
}

// Whether a reduction fits its slots.
fn reduction_fits(
    alloc: Global,
    types: &[VType],
    reduce: Reduce,
    targets: &[(u32, Expr)],
) -> Result<bool, AllocError>
    ensures { IfOk result (λ fits. fits ≡ reduction_fits types.now reduce (map target targets.now)) }
{
    let Some(first) = targets.first() else {
        return Ok(false);
    };
    let slot = type_at(types, first.0);
    if targets.len() == 1 {
        return Ok(reduces_slot(reduce, slot));
    }
    if !(reduce == Reduce::Min || reduce == Reduce::Max) || !numeric_slot(slot) {
        return Ok(false);
    }
    all_differ(alloc, targets)
}

// Whether the values of a reduction have their slots' types.
fn targets_fit(image: &Image, kind: Option<u32>, types: &[VType], targets: &[(u32, Expr)]) -> bool
    ensures { result ≡ targets_fit (program image.now) kind types.now (map target targets.now) }
{
    for target in targets {
        if !has_slot_type(image, kind, type_at(types, target.0), &target.1) {
            return false;
        }
    }
    true
}

// Whether values have some types, in number and order.
fn values_fit(image: &Image, kind: Option<u32>, types: &[VType], values: &[Expr]) -> bool
    ensures { result ≡ values_fit (program image.now) kind types.now (map term values.now) }
{
    if types.len() != values.len() {
        return false;
    }
    for i in 0..values.len() {
        if !has_type(image, kind, types[i], &values[i]) {
            return false;
        }
    }
    true
}

// Whether some expressions are not too deep.
fn all_shallow(exprs: &[Expr]) -> bool
    ensures { result ≡ list_all is_shallow (map term exprs.now) }
{
    for expr in exprs {
        if !is_shallow(expr) {
            return false;
        }
    }
    true
}

// Whether values are those of a kind's messages, where there is one.
fn message_fits(image: &Image, kind: Option<u32>, message: Option<&Kind>, values: &[Expr]) -> bool
    ensures { result ≡ message_fits (program image.now) kind (option_map (λ k. k.now) message.entry) (map term values.now) }
{
    match message {
        None => all_shallow(values),
        Some(k) => values_fit(image, kind, k.values.as_slice(), values),
    }
}

// Whether a reduction fits its slots, and its values have their types.
fn reduction_holds(
    alloc: Global,
    image: &Image,
    kind: Option<u32>,
    types: &[VType],
    reduce: Reduce,
    targets: &[(u32, Expr)],
) -> Result<bool, AllocError>
    ensures { IfOk result (λ fits. fits ≡ (reduction_fits types.now reduce (map target targets.now)
        && targets_fit (program image.now) kind types.now (map target targets.now))) }
{
    if !reduction_fits(alloc, types, reduce, targets)? {
        return Ok(false);
    }
    Ok(targets_fit(image, kind, types, targets))
}

// Whether types fit in a vertex line, in a handler of a kind or in none.
pub fn line_fits(
    alloc: Global,
    image: &Image,
    kind: Option<u32>,
    vertex_line: &VertexLine,
) -> Result<bool, AllocError>
    ensures { IfOk result (λ fits. fits ≡ line_fits (program image.now) kind (line vertex_line.now)) }
{
    match vertex_line {
        VertexLine::SetField(f, a) => {
            Ok(has_slot_type(image, kind, type_at(image.fields.as_slice(), *f), a))
        }
        VertexLine::SetRegister(r, a) => {
            Ok(has_slot_type(image, kind, type_at(image.registers.as_slice(), *r), a))
        }
        VertexLine::Fold { reduce, slots, .. } => {
            let types = image.fields.as_slice();
            reduction_holds(alloc, image, kind, types, *reduce, slots.as_slice())
        }
        VertexLine::Put { reduce, slots, .. } => {
            let types = image.globals.as_slice();
            reduction_holds(alloc, image, kind, types, *reduce, slots.as_slice())
        }
        VertexLine::Send {
            kind: message,
            to,
            values,
        } => {
            let message = image.kinds.as_slice().get(*message as usize);
            Ok(
                has_type(image, kind, VType::Node, to)
                    && message_fits(image, kind, message, values.as_slice()),
            )
        }
        VertexLine::Skip(_, a) => Ok(has_type(image, kind, VType::Flag, a)),
        VertexLine::EachOut(_) | VertexLine::EachIn(_) => Ok(true),
    }
}

// Whether types fit in a master line.
pub fn command_fits(image: &Image, master_line: &MasterLine) -> bool
    ensures { result ≡ command_fits (program image.now) (command master_line.now) }
{
    match master_line {
        MasterLine::SetGlobal(g, a) => {
            has_slot_type(image, None, type_at(image.globals.as_slice(), *g), a)
        }
        MasterLine::Test(_, a) | MasterLine::Turn(_, a) => { has_type(image, None, VType::Flag, a) }
        MasterLine::Step(_) | MasterLine::Jump(_) | MasterLine::Back(_) | MasterLine::Finish => {
            true
        }
    }
}
