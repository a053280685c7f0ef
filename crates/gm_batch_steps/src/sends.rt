//! Messages that the rows of a batch send along their edges.

ghost use Rattle.std.specs.Prelude.{◌≡◌, ◌<◌, ◌∷◌, [], IsTrue, IfOk, IfSome, Some, length, map};
ghost use Rattle.std.specs.List.{AllZip};
ghost use Rattle.gm_image.specs.Program.{Each, Out, Send, Skip};
ghost use Rattle.gm_image.specs.Term as T;
ghost use Rattle.gm_image.specs.Views.{line, term};
ghost use Rattle.gm_message_columns.specs.MessageTables.{message_rows, rows_if_any};
ghost use Rattle.gm_batches.specs.ValuesIn.{values_in};
ghost use Rattle.gm_batch_steps.specs.BatchStates.{AreChosen, IsContext, IsFull, sent_in};
ghost use Rattle.gm_batch_steps.specs.LineRuns.{LinesRun};
ghost use Rattle.gm_batch_steps.specs.Turns.{AreTurns, ArePartedTurns, TurnsSend, turn_view, turns_in};

use crate::batch_states::{BatchContext, BatchState, Chosen};
use crate::turn_values::turn_values;
use crate::turns::{Turns, held_turns, turns_along};
use gm_base::NoMemory;
use gm_columns::Column;
use gm_image::{Expr, VertexLine};
use gm_kernels::flags_of;
use gm_message_columns::MessageColumns;
use gm_value::VType;
use std::alloc::Global;

// The values of expressions by turn, in a column each.
fn columns_of(
    alloc: Global,
    values: &[Expr],
    turns: &Turns,
    context: &BatchContext,
    state: &BatchState,
) -> Result<Option<Vec<Column>>, NoMemory>
    requires context { IsContext context.now }
    requires turns { AreTurns context.now turns.now }
    requires full { IsFull (length context.now.nodes.now) state.now }
    ensures { IfOk result (λ got. IfSome got (λ columns. AllZip (λ a column. values_in (map (turn_view context.now state.now) (turns_in context.now turns.now)) a ≡ Some column.values) (map term values.now) columns.items)) }
{
    let mut columns = Vec::with_capacity(alloc, values.len())?;
    let count = values.len();
    for i in 0..count {
        let Some(column) = turn_values(alloc, &values[i], turns, context, state)? else {
            return Ok(None);
        };
        columns.push(column)?;
    }
    Ok(Some(columns))
}

// A message to the neighbour in each turn.
fn send_to_neighbours(
    alloc: Global,
    kind: u32,
    values: &[Expr],
    turns: &Turns,
    context: &BatchContext,
    state: &BatchState,
) -> Result<Option<MessageColumns>, NoMemory>
    requires context { IsContext context.now }
    requires turns { AreTurns context.now turns.now }
    requires full { IsFull (length context.now.nodes.now) state.now }
    ensures { IfOk result (λ got. IfSome got (λ sent. TurnsSend (Send kind T.Neighbour (map term values.now) ∷ []) context.now state.now (turns_in context.now turns.now) (message_rows sent))) }
{
    let Some(columns) = columns_of(alloc, values, turns, context, state)? else {
        return Ok(None);
    };
    let targets = Vec::from_slice(alloc, &turns.targets)?;
    Ok(Some(MessageColumns::of(kind, targets, columns)))
}

// Whether an expression is the neighbour.
fn is_neighbour(expr: &Expr) -> bool
    ensures { IsTrue result → term expr.now ≡ T.Neighbour }
{
    match expr {
        Expr::Neighbour => true,
        _ => false,
    }
}

// A message in each turn, to where an expression says, which must be the neighbour.
fn send(
    alloc: Global,
    kind: u32,
    to: &Expr,
    values: &[Expr],
    turns: &Turns,
    context: &BatchContext,
    state: &BatchState,
) -> Result<Option<MessageColumns>, NoMemory>
    requires context { IsContext context.now }
    requires turns { AreTurns context.now turns.now }
    requires full { IsFull (length context.now.nodes.now) state.now }
    ensures { IfOk result (λ got. IfSome got (λ sent. TurnsSend (Send kind (term to.now) (map term values.now) ∷ []) context.now state.now (turns_in context.now turns.now) (message_rows sent))) }
{
    if !is_neighbour(to) {
        return Ok(None);
    }
    send_to_neighbours(alloc, kind, values, turns, context, state)
}

// The turns in which an expression is True, or nothing, where it is none that columns can do.
fn turns_by(
    alloc: Global,
    a: &Expr,
    turns: &Turns,
    context: &BatchContext,
    state: &BatchState,
) -> Result<Option<Turns>, NoMemory>
    requires context { IsContext context.now }
    requires turns { AreTurns context.now turns.now }
    requires full { IsFull (length context.now.nodes.now) state.now }
    ensures are { IfOk result (λ got. IfSome got (AreTurns context.now)) }
    ensures parted { IfOk result (λ got. IfSome got (λ some. ArePartedTurns (term a.now) context.now state.now (turns_in context.now turns.now) (turns_in context.now some))) }
{
    let Some(truths) = turn_values(alloc, a, turns, context, state)? else {
        return Ok(None);
    };
    if truths.vtype() != VType::Flag {
        return Ok(None);
    }
    let some = held_turns(alloc, flags_of(&truths), turns, context)?;
    Ok(Some(some))
}

// Whether there is no turn.
fn are_none(turns: &Turns) -> bool
    ensures { IsTrue result → turns.now.sources.items ≡ [] }
{
    turns.sources.is_empty()
}

// Runs the last line of an each in all turns.
fn run_last(
    alloc: Global,
    last: &VertexLine,
    turns: &Turns,
    context: &BatchContext,
    state: &BatchState,
) -> Result<Option<MessageColumns>, NoMemory>
    requires context { IsContext context.now }
    requires turns { AreTurns context.now turns.now }
    requires full { IsFull (length context.now.nodes.now) state.now }
    ensures { IfOk result (λ got. IfSome got (λ sent. TurnsSend (line last.now ∷ []) context.now state.now (turns_in context.now turns.now) (message_rows sent))) }
{
    match last {
        VertexLine::Send { kind, to, values } => send(
            alloc,
            *kind,
            to,
            values.as_slice(),
            turns,
            context,
            state,
        ),
        _ => Ok(None),
    }
}

// Runs lines in those turns in which an expression is True. The others leave all these lines out.
#[cycle(run_turns)]
fn run_some(
    alloc: Global,
    a: &Expr,
    lines: &[VertexLine],
    turns: &Turns,
    context: &BatchContext,
    state: &BatchState,
) -> Result<Option<Option<MessageColumns>>, NoMemory>
    requires context { IsContext context.now }
    requires turns { AreTurns context.now turns.now }
    requires full { IsFull (length context.now.nodes.now) state.now }
    ensures { IfOk result (λ got. IfSome got (λ sent. TurnsSend (Skip (length lines.now) (term a.now) ∷ map line lines.now) context.now state.now (turns_in context.now turns.now) (rows_if_any sent))) }
{
    let Some(some) = turns_by(alloc, a, turns, context, state)? else {
        return Ok(None);
    };
    run_turns(alloc, lines, &some, context, state)
}

// Runs the lines of an each in all turns. The last of them may send; the others may leave all lines behind them out. It
// answers what is sent, if anything is, or nothing, where the lines are none that columns can do.
#[cycle(run_turns)]
fn run_turns(
    alloc: Global,
    lines: &[VertexLine],
    turns: &Turns,
    context: &BatchContext,
    state: &BatchState,
) -> Result<Option<Option<MessageColumns>>, NoMemory>
    requires context { IsContext context.now }
    requires turns { AreTurns context.now turns.now }
    requires full { IsFull (length context.now.nodes.now) state.now }
    ensures { IfOk result (λ got. IfSome got (λ sent. TurnsSend (map line lines.now) context.now state.now (turns_in context.now turns.now) (rows_if_any sent))) }
{
    if are_none(turns) {
        return Ok(Some(None));
    }
    let Some((first, rest)) = lines.split_first() else {
        return Ok(None);
    };
    if let VertexLine::Skip(n, a) = first {
        if *n as usize != rest.len() {
            return Ok(None);
        }
        return run_some(alloc, a, rest, turns, context, state);
    }
    if !rest.is_empty() {
        return Ok(None);
    }
    let Some(sent) = run_last(alloc, first, turns, context, state)? else {
        return Ok(None);
    };
    Ok(Some(Some(sent)))
}

// Whether no row sent anything yet.
fn sent_nothing(state: &BatchState) -> bool
    ensures { IsTrue result → sent_in state.now ≡ [] }
{
    match &state.sent {
        Some(_) => false,
        None => true,
    }
}

/// Runs an each along the edges from the nodes of some rows. It answers whether that could be done; if not, the state is to
/// be given up. What several lines send stands by row, so that one of them alone can be done.
pub(crate) fn run_each(
    alloc: Global,
    lines: &[VertexLine],
    chosen: Chosen,
    context: &BatchContext,
    state: &mut BatchState,
) -> Result<bool, NoMemory>
    requires context { IsContext context.now }
    requires chosen { AreChosen (length context.now.nodes.now) chosen }
    requires full { IsFull (length context.now.nodes.now) state.old }
    ensures full { IfOk result (λ done. IsTrue done → IsFull (length context.now.nodes.now) state.new) }
    ensures runs { IfOk result (λ done. IsTrue done
        → LinesRun context.now.places (Each Out (length lines.now) ∷ map line lines.now) context.now chosen.entry.rows.now state.old state.new) }
{
    if !sent_nothing(state) {
        return Ok(false);
    }
    let Some(turns) = turns_along(alloc, chosen, context)? else {
        return Ok(false);
    };
    let Some(sent) = run_turns(alloc, lines, &turns, context, state)? else {
        return Ok(false);
    };
    state.sent = sent;
    Ok(true)
}
