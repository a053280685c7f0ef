//! The lines of a body, each run for all rows that reach it.

ghost use Rattle.std.specs.Prelude.{◌≡◌, ◌<◌, ◌∷◌, [], All, IsTrue, IfOk, IfSome, length, map};
ghost use Rattle.gm_image.specs.Program.{Each, Fold, Out, Put, SetField, SetRegister, Skip};
ghost use Rattle.gm_image.specs.Views.{line, term};
ghost use Rattle.gm_batch_steps.specs.BatchStates.{AreChosen, AreDistinct, IsContext, IsFull};
ghost use Rattle.gm_batch_steps.specs.LineRuns.{ArePartedBy, LinesRun, reach, stays};

use crate::batch_states::{BatchContext, BatchState, Chosen, values_of};
use crate::changes::{write_field, written};
use crate::folds::fold_rows;
use crate::sends::run_each;
use gm_base::NoMemory;
use gm_image::{Expr, VertexLine};
use gm_kernels::{Parts, flags_of, partition};
use gm_put_totals::put_values;
use gm_value::{Reduce, VType, reductions_are_monoids};
use std::alloc::Global;

// A field of some rows becomes a value.
fn set_field(
    alloc: Global,
    field: u32,
    a: &Expr,
    chosen: Chosen,
    context: &BatchContext,
    state: &mut BatchState,
) -> Result<bool, NoMemory>
    requires context { IsContext context.now }
    requires chosen { AreChosen (length context.now.nodes.now) chosen }
    requires full { IsFull (length context.now.nodes.now) state.old }
    ensures full { IfOk result (λ done. IsTrue done → IsFull (length context.now.nodes.now) state.new) }
    ensures runs { IfOk result (λ done. IsTrue done
        → LinesRun context.now.places (SetField field (term a.now) ∷ []) context.now chosen.entry.rows.now state.old state.new) }
{
    let Some(column) = values_of(alloc, a, chosen, context, state)? else {
        return Ok(false);
    };
    write_field(alloc, field, chosen.rows, &column, &mut state.fields)?;
    Ok(true)
}

// A register of some rows becomes a value.
fn set_register(
    alloc: Global,
    register: u32,
    a: &Expr,
    chosen: Chosen,
    context: &BatchContext,
    state: &mut BatchState,
) -> Result<bool, NoMemory>
    requires context { IsContext context.now }
    requires chosen { AreChosen (length context.now.nodes.now) chosen }
    requires full { IsFull (length context.now.nodes.now) state.old }
    ensures full { IfOk result (λ done. IsTrue done → IsFull (length context.now.nodes.now) state.new) }
    ensures runs { IfOk result (λ done. IsTrue done
        → LinesRun context.now.places (SetRegister register (term a.now) ∷ []) context.now chosen.entry.rows.now state.old state.new) }
{
    let Some(column) = values_of(alloc, a, chosen, context, state)? else {
        return Ok(false);
    };
    let register = register as usize;
    if register >= state.registers.len() {
        return Ok(true);
    }
    let Some(new) = written(alloc, &state.registers[register], chosen.rows, &column)? else {
        return Ok(false);
    };
    state.registers[register] = new;
    Ok(true)
}

// Some rows put a value for a slot, reduced to one where that can be.
fn put(
    alloc: Global,
    place: u32,
    reduce: Reduce,
    slot: u32,
    a: &Expr,
    chosen: Chosen,
    context: &BatchContext,
    state: &mut BatchState,
) -> Result<bool, NoMemory>
    requires context { IsContext context.now }
    requires chosen { AreChosen (length context.now.nodes.now) chosen }
    requires full { IsFull (length context.now.nodes.now) state.old }
    ensures full { IfOk result (λ done. IsTrue done → IsFull (length context.now.nodes.now) state.new) }
    ensures runs { IfOk result (λ done. IsTrue done
        → LinesRun context.now.places (Put reduce place (record { slot = slot; term = term a.now } ∷ []) ∷ []) context.now chosen.entry.rows.now state.old state.new) }
{
    let Some(column) = values_of(alloc, a, chosen, context, state)? else {
        return Ok(false);
    };
    put_values(place, reduce, slot, &column, &mut state.puts)?;
    Ok(true)
}

// Whether the image has a place with this number.
fn is_place(place: u32, context: &BatchContext) -> bool
    ensures { IsTrue result → place < context.now.places }
{
    (place as usize) < context.places
}

// Each of some rows folds a value onto a field of its own.
fn fold(
    alloc: Global,
    place: u32,
    reduce: Reduce,
    slot: u32,
    a: &Expr,
    chosen: Chosen,
    context: &BatchContext,
    state: &mut BatchState,
) -> Result<bool, NoMemory>
    requires context { IsContext context.now }
    requires chosen { AreChosen (length context.now.nodes.now) chosen }
    requires full { IsFull (length context.now.nodes.now) state.old }
    ensures full { IfOk result (λ done. IsTrue done → IsFull (length context.now.nodes.now) state.new) }
    ensures runs { IfOk result (λ done. IsTrue done
        → LinesRun context.now.places (Fold reduce place (record { slot = slot; term = term a.now } ∷ []) ∷ []) context.now chosen.entry.rows.now state.old state.new) }
{
    reductions_are_monoids();
    if !is_place(place, context) {
        return Ok(false);
    }
    let Some(column) = values_of(alloc, a, chosen, context, state)? else {
        return Ok(false);
    };
    let slot = slot as usize;
    if slot >= state.fields.len() {
        return Ok(false);
    }
    let Some(new) = fold_rows(alloc, reduce, &state.fields[slot], chosen.rows, &column)? else {
        return Ok(false);
    };
    state.fields[slot] = new;
    Ok(true)
}

// A line that leads to the next one.
fn run_line(
    alloc: Global,
    l: &VertexLine,
    chosen: Chosen,
    context: &BatchContext,
    state: &mut BatchState,
) -> Result<bool, NoMemory>
    requires context { IsContext context.now }
    requires chosen { AreChosen (length context.now.nodes.now) chosen }
    requires full { IsFull (length context.now.nodes.now) state.old }
    ensures full { IfOk result (λ done. IsTrue done → IsFull (length context.now.nodes.now) state.new) }
    ensures runs { IfOk result (λ done. IsTrue done
        → LinesRun context.now.places (line l.now ∷ []) context.now chosen.entry.rows.now state.old state.new) }
    ensures next { IfOk result (λ done. IsTrue done → reach (line l.now) ≡ 0) }
{
    match l {
        VertexLine::SetField(field, a) => set_field(alloc, *field, a, chosen, context, state),
        VertexLine::SetRegister(register, a) => set_register(
            alloc, *register, a, chosen, context, state,
        ),
        VertexLine::Put {
            reduce,
            place,
            slots,
        } => match slots.as_slice() {
            [only] => put(
                alloc, *place, *reduce, only.0, &only.1, chosen, context, state,
            ),
            _ => Ok(false),
        },
        VertexLine::Fold {
            reduce,
            place,
            slots,
        } => match slots.as_slice() {
            [only] => fold(
                alloc, *place, *reduce, only.0, &only.1, chosen, context, state,
            ),
            _ => Ok(false),
        },
        _ => Ok(false),
    }
}

// How many of the lines that follow it a line may leave out.
fn reach(l: &VertexLine) -> u32
    ensures { result ≡ reach (line l.now) }
{
    match l {
        VertexLine::Skip(n, _) => *n,
        VertexLine::EachOut(n) | VertexLine::EachIn(n) => *n,
        _ => 0,
    }
}

// Whether no line leaves out more lines than there are.
fn stays(lines: &[VertexLine]) -> bool
    ensures { result ≡ stays (map line lines.now) }
{
    let Some((first, rest)) = lines.split_first() else {
        return true;
    };
    reach(first) as usize <= rest.len() && stays(rest)
}

// Some rows parted by the truth of an expression, or nothing, where that is none that columns can do.
fn part_by(
    alloc: Global,
    a: &Expr,
    chosen: Chosen,
    context: &BatchContext,
    state: &BatchState,
) -> Result<Option<Parts>, NoMemory>
    requires context { IsContext context.now }
    requires chosen { AreChosen (length context.now.nodes.now) chosen }
    requires full { IsFull (length context.now.nodes.now) state.now }
    ensures { IfOk result (λ got. IfSome got (λ parts. ArePartedBy (term a.now) context.now state.now chosen.entry.rows.now parts.held.items)) }
{
    let Some(truths) = values_of(alloc, a, chosen, context, state)? else {
        return Ok(None);
    };
    if truths.vtype() != VType::Flag {
        return Ok(None);
    }
    let parts = partition(alloc, flags_of(&truths), chosen.rows)?;
    Ok(Some(parts))
}

// Runs lines for some rows, line by line.
#[cycle(running)]
fn run_held(
    alloc: Global,
    lines: &[VertexLine],
    held: &[u32],
    context: &BatchContext,
    state: &mut BatchState,
) -> Result<bool, NoMemory>
    requires context { IsContext context.now }
    requires within { All (λ row. row < length context.now.nodes.now) held.now }
    requires distinct { AreDistinct held.now }
    requires full { IsFull (length context.now.nodes.now) state.old }
    ensures full { IfOk result (λ done. IsTrue done → IsFull (length context.now.nodes.now) state.new) }
    ensures runs { IfOk result (λ done. IsTrue done
        → LinesRun context.now.places (map line lines.now) context.now held.now state.old state.new) }
{
    if held.is_empty() {
        return Ok(true);
    }
    let chosen = Chosen {
        rows: held,
        all: false,
    };
    run_lines(alloc, lines, chosen, context, state)
}

// Runs lines for those of some rows in which an expression is True.
#[cycle(running)]
fn run_skip(
    alloc: Global,
    a: &Expr,
    lines: &[VertexLine],
    chosen: Chosen,
    context: &BatchContext,
    state: &mut BatchState,
) -> Result<bool, NoMemory>
    requires context { IsContext context.now }
    requires chosen { AreChosen (length context.now.nodes.now) chosen }
    requires full { IsFull (length context.now.nodes.now) state.old }
    ensures full { IfOk result (λ done. IsTrue done → IsFull (length context.now.nodes.now) state.new) }
    ensures runs { IfOk result (λ done. IsTrue done
        → LinesRun context.now.places (Skip (length lines.now) (term a.now) ∷ map line lines.now) context.now chosen.entry.rows.now state.old state.new) }
{
    let Some(parts) = part_by(alloc, a, chosen, context, state)? else {
        return Ok(false);
    };
    run_held(alloc, lines, &parts.held, context, state)
}

// Runs lines that begin with an each along out-edges, of so many of the lines behind it.
#[cycle(running)]
fn run_from_each(
    alloc: Global,
    n: u32,
    lines: &[VertexLine],
    chosen: Chosen,
    context: &BatchContext,
    state: &mut BatchState,
) -> Result<bool, NoMemory>
    requires context { IsContext context.now }
    requires chosen { AreChosen (length context.now.nodes.now) chosen }
    requires full { IsFull (length context.now.nodes.now) state.old }
    ensures full { IfOk result (λ done. IsTrue done → IsFull (length context.now.nodes.now) state.new) }
    ensures runs { IfOk result (λ done. IsTrue done
        → LinesRun context.now.places (Each Out n ∷ map line lines.now) context.now chosen.entry.rows.now state.old state.new) }
{
    let n = n as usize;
    if n > lines.len() || !stays(&lines[..n]) {
        return Ok(false);
    }
    if !run_each(alloc, &lines[..n], chosen, context, state)? {
        return Ok(false);
    }
    run_lines(alloc, &lines[n..], chosen, context, state)
}

/// Runs lines for all rows that reach them, line by line. It answers whether that could be done; if not, the state is to be
/// given up.
#[cycle(running)]
pub(crate) fn run_lines(
    alloc: Global,
    lines: &[VertexLine],
    chosen: Chosen,
    context: &BatchContext,
    state: &mut BatchState,
) -> Result<bool, NoMemory>
    requires context { IsContext context.now }
    requires chosen { AreChosen (length context.now.nodes.now) chosen }
    requires full { IsFull (length context.now.nodes.now) state.old }
    ensures full { IfOk result (λ done. IsTrue done → IsFull (length context.now.nodes.now) state.new) }
    ensures runs { IfOk result (λ done. IsTrue done
        → LinesRun context.now.places (map line lines.now) context.now chosen.entry.rows.now state.old state.new) }
{
    let Some((first, rest)) = lines.split_first() else {
        return Ok(true);
    };
    if let VertexLine::EachOut(n) = first {
        return run_from_each(alloc, *n, rest, chosen, context, state);
    }
    let VertexLine::Skip(n, a) = first else {
        if !run_line(alloc, first, chosen, context, state)? {
            return Ok(false);
        }
        return run_lines(alloc, rest, chosen, context, state);
    };
    let n = *n as usize;
    if n > rest.len() || !stays(&rest[..n]) {
        return Ok(false);
    }
    if !run_skip(alloc, a, &rest[..n], chosen, context, state)? {
        return Ok(false);
    }
    run_lines(alloc, &rest[n..], chosen, context, state)
}
