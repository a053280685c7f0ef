//! The lines of a handler, each run for all messages that reach it.

ghost use Rattle.std.specs.Prelude.{◌≡◌, ◌<◌, ◌∷◌, [], All, IsTrue, IfOk, IfSome, length, map};
ghost use Rattle.gm_image.specs.Program.{Fold, SetRegister, Skip};
ghost use Rattle.gm_image.specs.Views.{line, term};
ghost use Rattle.gm_kernels.specs.Pointwise.{written_at};
ghost use Rattle.gm_batch_steps.specs.BatchStates.{AreDistinct};
ghost use Rattle.gm_batch_steps.specs.LineRuns.{reach, stays};
ghost use Rattle.gm_batch_handlers.specs.RowRuns.{ArePartedBy, IsReady, LinesRun};
ghost use Rattle.gm_batch_handlers.specs.RowStates.{AreChosen, IsContext};

use crate::row_states::{Chosen, RowContext, RowState, values_of};
use crate::totals::add;
use gm_base::NoMemory;
use gm_columns::{Column, TypedCells};
use gm_image::{Expr, VertexLine};
use gm_kernels::{Parts, flags_of, partition, pick};
use gm_value::{Reduce, VType, reductions_are_monoids};
use std::alloc::Global;

// The nodes of some rows fold a value into a slot, each its own.
fn fold(
    alloc: Global,
    places: usize,
    place: u32,
    reduce: Reduce,
    slot: u32,
    a: &Expr,
    chosen: Chosen,
    context: &RowContext,
    state: &mut RowState,
) -> Result<bool, NoMemory>
    requires context { IsContext context.now }
    requires chosen { AreChosen (length context.now.nodes.now) chosen }
    requires ready { IsReady context.now state.old }
    ensures ready { IfOk result (λ done. IsTrue done → IsReady context.now state.new) }
    ensures runs { IfOk result (λ done. IsTrue done
        → LinesRun places (Fold reduce place (record { slot = slot; term = term a.now } ∷ []) ∷ []) context.now chosen.entry.rows.now state.old state.new) }
{
    let slot = slot as usize;
    if place as usize >= places || slot >= context.fields.len() {
        return Ok(false);
    }
    let Some(column) = values_of(alloc, a, chosen, context, &state.registers)? else {
        return Ok(false);
    };
    let at = pick(alloc, context.places, chosen.rows)?;
    reductions_are_monoids();
    let total = &mut state.totals[slot];
    add(
        alloc,
        reduce,
        place,
        &context.fields[slot],
        total,
        &at,
        &column,
    )
}

// Cells with others written at some rows, one after another.
fn written_cells<T: Copy>(
    alloc: Global,
    held: &[T],
    rows: &[u32],
    values: &[T],
) -> Result<Vec<T>, NoMemory>
    requires within { All (λ row. row < length held.now) rows.now }
    requires rows { length values.now ≡ length rows.now }
    ensures { IfOk result (λ cells. cells.items ≡ written_at held.now rows.now values.now) }
{
    let mut cells = Vec::from_slice(alloc, held)?;
    let count = rows.len();
    for i in 0..count {
        cells[rows[i] as usize] = values[i];
    }
    Ok(cells)
}

// A column with the values of another of its type written at some rows, one after another, or nothing, where the types
// differ.
fn written(
    alloc: Global,
    held: &Column,
    rows: &[u32],
    column: &Column,
) -> Result<Option<Column>, NoMemory>
    requires within { All (λ row. row < length held.now.values) rows.now }
    requires rows { length column.now.values ≡ length rows.now }
    ensures { IfOk result (λ got. IfSome got (λ new. new.values ≡ written_at held.now.values rows.now column.now.values)) }
{
    let cells = match (held.cells(), column.cells()) {
        (TypedCells::Ints(held), TypedCells::Ints(values)) => TypedCells::Ints(written_cells(
            alloc, held, rows, values,
        )?),
        (TypedCells::Longs(held), TypedCells::Longs(values)) => TypedCells::Longs(written_cells(
            alloc, held, rows, values,
        )?),
        (TypedCells::Flags(held), TypedCells::Flags(values)) => TypedCells::Flags(written_cells(
            alloc, held, rows, values,
        )?),
        (TypedCells::Nodes(held), TypedCells::Nodes(values)) => TypedCells::Nodes(written_cells(
            alloc, held, rows, values,
        )?),
        _ => return Ok(None),
    };
    Ok(Some(Column::of(cells)))
}

// A register of some rows becomes a value.
fn set_register(
    alloc: Global,
    places: usize,
    register: u32,
    a: &Expr,
    chosen: Chosen,
    context: &RowContext,
    state: &mut RowState,
) -> Result<bool, NoMemory>
    requires context { IsContext context.now }
    requires chosen { AreChosen (length context.now.nodes.now) chosen }
    requires ready { IsReady context.now state.old }
    ensures ready { IfOk result (λ done. IsTrue done → IsReady context.now state.new) }
    ensures runs { IfOk result (λ done. IsTrue done
        → LinesRun places (SetRegister register (term a.now) ∷ []) context.now chosen.entry.rows.now state.old state.new) }
{
    let Some(column) = values_of(alloc, a, chosen, context, &state.registers)? else {
        return Ok(false);
    };
    let register = register as usize;
    if register >= state.registers.len() {
        return Ok(true);
    }
    let Some(new) = written(alloc, &state.registers[register], chosen.rows, &column)? else {
        return Ok(false);
    };
    state.registers[register] = new;
    Ok(true)
}

// A line that leads to the next one.
fn run_line(
    alloc: Global,
    places: usize,
    l: &VertexLine,
    chosen: Chosen,
    context: &RowContext,
    state: &mut RowState,
) -> Result<bool, NoMemory>
    requires context { IsContext context.now }
    requires chosen { AreChosen (length context.now.nodes.now) chosen }
    requires ready { IsReady context.now state.old }
    ensures ready { IfOk result (λ done. IsTrue done → IsReady context.now state.new) }
    ensures runs { IfOk result (λ done. IsTrue done
        → LinesRun places (line l.now ∷ []) context.now chosen.entry.rows.now state.old state.new) }
    ensures next { IfOk result (λ done. IsTrue done → reach (line l.now) ≡ 0) }
{
    match l {
        VertexLine::SetRegister(register, a) => set_register(
            alloc, places, *register, a, chosen, context, state,
        ),
        VertexLine::Fold {
            reduce,
            place,
            slots,
        } => match slots.as_slice() {
            [only] => fold(
                alloc, places, *place, *reduce, only.0, &only.1, chosen, context, state,
            ),
            _ => Ok(false),
        },
        _ => Ok(false),
    }
}

// How many of the lines that follow it a line may leave out.
fn reach(l: &VertexLine) -> u32
    ensures { result ≡ reach (line l.now) }
{
    match l {
        VertexLine::Skip(n, _) => *n,
        VertexLine::EachOut(n) | VertexLine::EachIn(n) => *n,
        _ => 0,
    }
}

// Whether no line leaves out more lines than there are.
fn stays(lines: &[VertexLine]) -> bool
    ensures { result ≡ stays (map line lines.now) }
{
    let Some((first, rest)) = lines.split_first() else {
        return true;
    };
    reach(first) as usize <= rest.len() && stays(rest)
}

// Some rows parted by the truth of an expression, or nothing, where that is none that columns can do.
fn part_by(
    alloc: Global,
    a: &Expr,
    chosen: Chosen,
    context: &RowContext,
    registers: &[Column],
) -> Result<Option<Parts>, NoMemory>
    requires context { IsContext context.now }
    requires chosen { AreChosen (length context.now.nodes.now) chosen }
    requires full { All (λ column. length column.values ≡ length context.now.nodes.now) registers.now }
    ensures { IfOk result (λ got. IfSome got (λ parts. ArePartedBy (term a.now) context.now registers.now chosen.entry.rows.now parts.held.items)) }
{
    let Some(truths) = values_of(alloc, a, chosen, context, registers)? else {
        return Ok(None);
    };
    if truths.vtype() != VType::Flag {
        return Ok(None);
    }
    let parts = partition(alloc, flags_of(&truths), chosen.rows)?;
    Ok(Some(parts))
}

// Runs lines for some rows, line by line.
#[cycle(running)]
fn run_held(
    alloc: Global,
    places: usize,
    lines: &[VertexLine],
    held: &[u32],
    context: &RowContext,
    state: &mut RowState,
) -> Result<bool, NoMemory>
    requires context { IsContext context.now }
    requires within { All (λ row. row < length context.now.nodes.now) held.now }
    requires distinct { AreDistinct held.now }
    requires ready { IsReady context.now state.old }
    ensures ready { IfOk result (λ done. IsTrue done → IsReady context.now state.new) }
    ensures runs { IfOk result (λ done. IsTrue done
        → LinesRun places (map line lines.now) context.now held.now state.old state.new) }
{
    if held.is_empty() {
        return Ok(true);
    }
    let chosen = Chosen {
        rows: held,
        all: false,
    };
    run_lines(alloc, places, lines, chosen, context, state)
}

// Runs lines for those of some rows in which an expression is True.
#[cycle(running)]
fn run_skip(
    alloc: Global,
    places: usize,
    a: &Expr,
    lines: &[VertexLine],
    chosen: Chosen,
    context: &RowContext,
    state: &mut RowState,
) -> Result<bool, NoMemory>
    requires context { IsContext context.now }
    requires chosen { AreChosen (length context.now.nodes.now) chosen }
    requires ready { IsReady context.now state.old }
    ensures ready { IfOk result (λ done. IsTrue done → IsReady context.now state.new) }
    ensures runs { IfOk result (λ done. IsTrue done
        → LinesRun places (Skip (length lines.now) (term a.now) ∷ map line lines.now) context.now chosen.entry.rows.now state.old state.new) }
{
    let Some(parts) = part_by(alloc, a, chosen, context, &state.registers)? else {
        return Ok(false);
    };
    run_held(alloc, places, lines, &parts.held, context, state)
}

/// Runs lines for all rows that reach them, line by line. It answers whether that could be done; if not, the state is to be
/// given up.
#[cycle(running)]
pub(crate) fn run_lines(
    alloc: Global,
    places: usize,
    lines: &[VertexLine],
    chosen: Chosen,
    context: &RowContext,
    state: &mut RowState,
) -> Result<bool, NoMemory>
    requires context { IsContext context.now }
    requires chosen { AreChosen (length context.now.nodes.now) chosen }
    requires ready { IsReady context.now state.old }
    ensures ready { IfOk result (λ done. IsTrue done → IsReady context.now state.new) }
    ensures runs { IfOk result (λ done. IsTrue done
        → LinesRun places (map line lines.now) context.now chosen.entry.rows.now state.old state.new) }
{
    let Some((first, rest)) = lines.split_first() else {
        return Ok(true);
    };
    let VertexLine::Skip(n, a) = first else {
        if !run_line(alloc, places, first, chosen, context, state)? {
            return Ok(false);
        }
        return run_lines(alloc, places, rest, chosen, context, state);
    };
    let n = *n as usize;
    if n > rest.len() || !stays(&rest[..n]) {
        return Ok(false);
    }
    if !run_skip(alloc, places, a, &rest[..n], chosen, context, state)? {
        return Ok(false);
    }
    run_lines(alloc, places, &rest[n..], chosen, context, state)
}
