//! Bodies, handlers, and the whole step of a vertex.

ghost use Rattle.std.specs.List.{list_all};
ghost use Rattle.std.specs.Prelude.{◌≡◌, ◌&&◌, ℕ, true, IfOk, All, map, []};
ghost use Rattle.gm_value.specs.Numbers.{zero_of};
ghost use Rattle.gm_model.specs.Graphs.{HasNode};
ghost use Rattle.gm_image.specs.Views.{program, handler, line};
ghost use Rattle.gm_graph.specs.Serving.{Serve};
ghost use Rattle.gm_machine.specs.Asking.{block_outward, handler_outward, line_outward, runs_outward};
ghost use Rattle.gm_machine.specs.Batches.{IsWithin, message_of};
ghost use Rattle.gm_machine.specs.VertexViews.{IsSupplied, context_of, code_of, state_of, after_line, after_lines, after_behind, direction};
ghost use Rattle.gm_machine.specs.Machine.{block_at};
ghost use Rattle.gm_machine.specs.Vertex.{VertexState as AntState, never_sets, ended, folded, each_after, line_after, lines_after, body_line_after, body_after, begun, handler_lines, handler_run, gathered, vertex_after};

use crate::batches::MessageHeader;
use crate::expressions::VertexContext;
use crate::faults::{Fault, lesser};
use crate::lines::{LineEnd, VertexState, reset, run_line, run_lines, run_turns};
use crate::message_values::MessageValues;
use crate::settling::settle;
use gm_base::NoMemory;
use gm_image::{Handler, Image, VertexLine};
use gm_value::{VType, Value};

/// What a vertex does in a superstep: the handlers of its messages, and then the body.
#[derive(Clone, Copy)]
pub(crate) struct BlockCode<'a> {
    pub(crate) handlers: &'a [Handler],
    pub(crate) body: &'a [VertexLine],
}

/// What a block of an image says. One that the image does not have says nothing.
pub(crate) fn block_at(image: &Image, block: u32) -> BlockCode<'_>
    ensures { code_of result ≡ block_at (program image.now) block }
{
    let blocks = image.blocks.as_slice();
    match blocks.get(block as usize) {
        Some(code) => BlockCode {
            handlers: code.handlers.as_slice(),
            body: code.body.as_slice(),
        },
        None => BlockCode {
            handlers: &[],
            body: &[],
        },
    }
}

// The end of lines that left a fault or so many lines to skip.
fn ended(fault: Option<Fault>, skip: u32) -> LineEnd
    ensures { (w : AntState) → after_line w result ≡ ended w fault skip }
{
    match fault {
        None => LineEnd::Next(skip),
        Some(f) => LineEnd::Faulted(f),
    }
}

// Takes the folds onto the fields, after lines that left a fault or so many lines to skip.
fn take_folds(
    places: usize,
    fault: Option<Fault>,
    skip: u32,
    state: &mut VertexState,
) -> Result<LineEnd, NoMemory>
    ensures { IfOk result (λ end. after_line (state_of state.new) end
        ≡ folded places (record { state = state_of state.old; fault = fault; skip = skip })) }
{
    if state.folds.is_empty() {
        return Ok(ended(fault, skip));
    }
    let taken = settle(
        places,
        &state.folds,
        &mut state.fields,
        &mut state.found,
        &mut state.room,
    )?;
    state.folds.clear();
    Ok(ended(lesser(fault, taken), skip))
}

// Runs an each of n of the lines that follow it, and takes its folds.
#[tactic(auto, using(crate::proofs::Serving::each_front))]
fn run_each(
    places: usize,
    out: bool,
    n: u32,
    rest: &[VertexLine],
    context: &VertexContext,
    state: &mut VertexState,
) -> Result<LineEnd, NoMemory>
    requires supplied { IsSupplied context.now }
    requires asked { Serve context.now.in_rows.now (runs_outward (direction out) && list_all line_outward (map line rest.now)) }
    requires node { HasNode context.now.graph.now context.now.node }
    ensures { IfOk result (λ end. after_line (state_of state.new) end
        ≡ folded places (each_after (context_of context.now) (direction out) n (map line rest.now) (state_of state.old))) }
{
    let end = (n as usize).min(rest.len());
    let fault = run_turns(out, &rest[..end], context, state)?;
    let taken = take_folds(places, fault, n, state)?;
    Ok(taken)
}

// Runs a fold, and takes what it gave.
fn run_fold(
    places: usize,
    l: &VertexLine,
    context: &VertexContext,
    state: &mut VertexState,
) -> Result<LineEnd, NoMemory>
    requires supplied { IsSupplied context.now }
    requires asked { Serve context.now.in_rows.now (line_outward (line l.now)) }
    ensures { IfOk result (λ end. after_line (state_of state.new) end
        ≡ folded places (line_after (context_of context.now) (line l.now) (state_of state.old))) }
{
    match run_line(l, context, state)? {
        LineEnd::Next(skip) => take_folds(places, None, skip, state),
        LineEnd::Faulted(f) => take_folds(places, Some(f), 0, state),
    }
}

// Runs a line of a body, before the lines that follow it.
#[tactic(auto, using(gm_graph::proofs::Serving::left, gm_graph::proofs::Serving::right))]
fn run_body_line(
    places: usize,
    l: &VertexLine,
    rest: &[VertexLine],
    context: &VertexContext,
    state: &mut VertexState,
) -> Result<LineEnd, NoMemory>
    requires supplied { IsSupplied context.now }
    requires asked { Serve context.now.in_rows.now (line_outward (line l.now) && list_all line_outward (map line rest.now)) }
    requires node { HasNode context.now.graph.now context.now.node }
    ensures { IfOk result (λ end. after_line (state_of state.new) end
        ≡ body_line_after places (context_of context.now) (line l.now) (map line rest.now) (state_of state.old)) }
{
    match l {
        VertexLine::EachOut(n) => run_each(places, true, *n, rest, context, state),
        VertexLine::EachIn(n) => run_each(places, false, *n, rest, context, state),
        VertexLine::Fold { .. } => run_fold(places, l, context, state),
        VertexLine::SetField(..) => run_line(l, context, state),
        VertexLine::SetRegister(..) => run_line(l, context, state),
        VertexLine::Put { .. } => run_line(l, context, state),
        VertexLine::Send { .. } => run_line(l, context, state),
        VertexLine::Skip(..) => run_line(l, context, state),
    }
}

// Runs a body, to its end or its first fault.
fn run_body(
    places: usize,
    body: &[VertexLine],
    context: &VertexContext,
    state: &mut VertexState,
) -> Result<Option<Fault>, NoMemory>
    requires supplied { IsSupplied context.now }
    requires asked { Serve context.now.in_rows.now (list_all line_outward (map line body.now)) }
    requires node { HasNode context.now.graph.now context.now.node }
    ensures { IfOk result (λ f. after_lines (state_of state.new) f
        ≡ body_after places (context_of context.now) (map line body.now) 0 (state_of state.old)) }
{
    let mut skip = 0;
    for (i, l) in body.iter().enumerate() {
        if skip > 0 {
            skip -= 1;
        } else {
            match run_body_line(places, l, &body[i + 1..], context, state)? {
                LineEnd::Next(k) => skip = k,
                LineEnd::Faulted(f) => return Ok(Some(f)),
            }
        }
    }
    Ok(None)
}

// The lines for a kind of messages, none where there is no such handler.
fn lines_for(handlers: &[Handler], kind: u32) -> &[VertexLine]
    ensures { map line result.now ≡ handler_lines (map handler handlers.now) kind }
{
    for h in handlers {
        if h.kind == kind {
            return h.lines.as_slice();
        }
    }
    &[]
}

// Runs the handler of a message with its registers at zero, to its end or its first fault.
#[tactic(auto, using(crate::proofs::Serving::kind_served))]
fn run_handler(
    handlers: &[Handler],
    registers: &[VType],
    kind: u32,
    message: &[Value],
    context: &VertexContext,
    state: &mut VertexState,
) -> Result<Option<Fault>, NoMemory>
    requires supplied { IsSupplied context.now }
    requires asked { Serve context.now.in_rows.now (list_all handler_outward (map handler handlers.now)) }
    ensures { IfOk result (λ f. after_lines (state_of state.new) f
        ≡ lines_after (record (context_of context.now) { message = message.now }) (handler_lines (map handler handlers.now) kind) 0
        (record (state_of state.old) { registers = map zero_of registers.now })) }
{
    reset(&mut state.registers, registers)?;
    let lines = lines_for(handlers, kind);
    let here = VertexContext {
        message,
        ..*context
    };
    let fault = run_lines(lines, &here, state)?;
    Ok(fault)
}

// Runs the handlers of messages, each from the same fields and with its registers at zero, to its end or its first
// fault, and answers the least of these faults. The registers are at zero afterwards. The row is room for the values of a
// message.
fn run_handlers(
    handlers: &[Handler],
    registers: &[VType],
    headers: &[MessageHeader],
    values: &MessageValues,
    row: &mut Vec<Value>,
    context: &VertexContext,
    state: &mut VertexState,
) -> Result<Option<Fault>, NoMemory>
    requires supplied { IsSupplied context.now }
    requires asked { Serve context.now.in_rows.now (list_all handler_outward (map handler handlers.now)) }
    requires keeps { (kind : ℕ) → never_sets (handler_lines (map handler handlers.now) kind) ≡ true }
    requires within { All (IsWithin values.now) headers.now }
    requires no_folds { state.old.folds ≡ [] }
    ensures { IfOk result (λ f. after_lines (state_of state.new) f
        ≡ after_behind state.old.messages state.old.puts []
        (gathered (begun registers.now state.old.fields.items)
        (map (handler_run (context_of context.now) (map handler handlers.now) (begun registers.now state.old.fields.items))
        (map (message_of values.now) headers.now)))) }
{
    let mut fault = None;
    for header in headers {
        values.load(*header, row)?;
        let kind = values.kind(header.sort);
        let one = run_handler(handlers, registers, kind, row.as_slice(), context, state)?;
        fault = lesser(fault, one);
    }
    reset(&mut state.registers, registers)?;
    Ok(fault)
}

/// The step of a vertex: the handlers of its messages, and then the body unless something faulted. What it sends and
/// puts comes behind what was sent and put before. The row is room for the values of a message.
#[tactic(auto, using(gm_graph::proofs::Serving::left, gm_graph::proofs::Serving::right))]
pub(crate) fn run_vertex(
    image: &Image,
    code: BlockCode,
    headers: &[MessageHeader],
    values: &MessageValues,
    row: &mut Vec<Value>,
    context: &VertexContext,
    state: &mut VertexState,
) -> Result<Option<Fault>, NoMemory>
    requires supplied { IsSupplied context.now }
    requires asked { Serve context.now.in_rows.now (block_outward (code_of code)) }
    requires node { HasNode context.now.graph.now context.now.node }
    requires keeps { (kind : ℕ) → never_sets (handler_lines (code_of code).handlers kind) ≡ true }
    requires within { All (IsWithin values.now) headers.now }
    ensures { IfOk result (λ f. after_lines (state_of state.new) f
        ≡ after_behind state.old.messages state.old.puts []
        (vertex_after (program image.now) (code_of code.entry) (context_of context.now) (map (message_of values.now) headers.now) state.old.fields.items)) }
{
    let places = image.places.len();
    let registers = image.registers.as_slice();
    state.folds.clear();
    let handled = run_handlers(
        code.handlers,
        registers,
        headers,
        values,
        row,
        context,
        state,
    )?;
    let end = take_folds(places, handled, 0, state)?;
    match end {
        LineEnd::Faulted(f) => Ok(Some(f)),
        LineEnd::Next(_) => {
            let fault = run_body(places, code.body, context, state)?;
            Ok(fault)
        }
    }
}
