//! The lines of vertex programs.

ghost use Rattle.std.specs.List.{list_all};
ghost use Rattle.std.specs.Prelude.{◌≡◌, ◌<◌, ◌&&◌, ◌++◌, ◌∷◌, [], ℕ, Some, IfOk, OnOk, map, length, slice_get, slice_set};
ghost use Rattle.gm_value.specs.Numbers.{zero_of};
ghost use Rattle.gm_model.specs.Graphs.{HasNode};
ghost use Rattle.gm_graph.specs.Walks.{edge_at};
ghost use Rattle.gm_image.specs.Parts.{terms_of};
ghost use Rattle.gm_image.specs.Views.{term, line, target};
ghost use Rattle.gm_image.specs.Program.{SetField, Fold, SetRegister, Put, Send, Skip};
ghost use Rattle.gm_machine.specs.Expressions.{value, values};
ghost use Rattle.gm_machine.specs.VertexViews.{IsSupplied, context_of, state_of, after_line, after_lines, direction, answered};
ghost use Rattle.gm_graph.specs.Serving.{Serve};
ghost use Rattle.gm_machine.specs.Asking.{line_outward, reads_outward, runs_outward};
ghost use Rattle.gm_machine.specs.Contributions.{gives_parts};
ghost use Rattle.gm_machine.specs.Vertex.{view, view_with, line_ends, leaves, gives, messages_to, line_after, lines_after, turns_after, steps};

use crate::batches::Batch;
use crate::contributions::{ContributionPart, Contributions};
use crate::expressions::{VertexContext, evaluate, holds};
use crate::faults::{Fault, lesser};
use crate::settling::TupleRoom;
use gm_base::NoMemory;
use gm_image::{Expr, VertexLine};
use gm_value::{Reduce, VType, Value};
use std::alloc::Global;

/// What a vertex changes: its fields and registers, what it has sent and put, and the folds that are not yet taken.
/// The rows `found` and `given` are room for the values of one line, and `found` and `room` for what is taken.
#[derive(Drop)]
pub(crate) struct VertexState {
    pub(crate) fields: Vec<Value>,
    pub(crate) registers: Vec<Value>,
    pub(crate) messages: Batch,
    pub(crate) puts: Contributions,
    pub(crate) folds: Contributions,
    pub(crate) found: Vec<Value>,
    pub(crate) given: Vec<ContributionPart>,
    pub(crate) room: TupleRoom,
}

impl VertexState {
    /// A state with these fields that has done nothing. It keeps the allocator and takes no memory.
    pub(crate) fn idle(alloc: Global, fields: Vec<Value>) -> Self
        ensures fields { result.fields ≡ fields }
        ensures messages { result.messages ≡ [] }
        ensures puts { result.puts ≡ [] }
    {
        VertexState {
            fields,
            registers: Vec::new(alloc),
            messages: Batch::empty(alloc),
            puts: Contributions::empty(alloc),
            folds: Contributions::empty(alloc),
            found: Vec::new(alloc),
            given: Vec::new(alloc),
            room: TupleRoom::empty(alloc),
        }
    }
}

/// What follows a line: the next line but so many, or a fault.
#[derive(Clone, Copy)]
pub(crate) enum LineEnd {
    Next(u32),
    Faulted(Fault),
}

// Puts the values of expressions into a row, left to right, up to the first fault.
#[tactic(auto, using(crate::proofs::Serving::term_item))]
fn evaluate_all(
    terms: &[Expr],
    s: &VertexContext,
    fields: &[Value],
    registers: &[Value],
    found: &mut Vec<Value>,
) -> Result<Option<Fault>, NoMemory>
    requires supplied { IsSupplied s.now }
    requires asked { Serve s.now.in_rows.now (list_all reads_outward (map term terms.now)) }
    ensures { IfOk result (λ f. answered f found.new.items ≡ values (view_with (context_of s.now) fields.now registers.now) (map term terms.now)) }
{
    found.clear();
    for e in terms {
        match evaluate(e, s, fields, registers) {
            Ok(v) => found.push(v)?,
            Err(f) => return Ok(Some(f)),
        }
    }
    Ok(None)
}

// A number of slots as the width of a contribution.
fn width_of(slots: usize) -> Result<u32, NoMemory>
    ensures { IfOk result (λ width. width ≡ slots) }
{
    if slots < 1 << 32 {
        Ok(slots as u32)
    } else {
        Err(NoMemory)
    }
}

// Puts the parts of a contribution to some slots into a row, left to right, up to the first fault.
#[tactic(auto, using(crate::proofs::Serving::slot_item))]
fn evaluate_targets(
    reduce: Reduce,
    place: u32,
    targets: &[(u32, Expr)],
    s: &VertexContext,
    fields: &[Value],
    registers: &[Value],
    given: &mut Vec<ContributionPart>,
) -> Result<Option<Fault>, NoMemory>
    requires supplied { IsSupplied s.now }
    requires asked { Serve s.now.in_rows.now (list_all reads_outward (terms_of (map target targets.now))) }
    ensures { IfOk result (λ f. answered f given.new.items
        ≡ gives_parts (view_with (context_of s.now) fields.now registers.now) reduce place (length targets.now) (map target targets.now)) }
{
    given.clear();
    let mut width = width_of(targets.len())?;
    for t in targets {
        match evaluate(&t.1, s, fields, registers) {
            Ok(value) => given.push(ContributionPart {
                place,
                reduce,
                width,
                slot: t.0,
                value,
            })?,
            Err(f) => return Ok(Some(f)),
        }
        width = 0;
    }
    Ok(None)
}

// Writes a value at an index. One that is out of range changes nothing.
pub(crate) fn write(values: &mut Vec<Value>, i: u32, v: Value)
    ensures { values.new.items ≡ slice_set values.old.items i v }
{
    let i = i as usize;
    if i < values.len() {
        values[i] = v;
    }
}

#[tactic(auto, using(gm_graph::proofs::Serving::left))]
fn set_field(field: u32, a: &Expr, context: &VertexContext, state: &mut VertexState) -> LineEnd
    requires supplied { IsSupplied context.now }
    requires asked { Serve context.now.in_rows.now (line_outward (SetField field (term a.now))) }
    ensures { after_line (state_of state.new) result ≡ line_after (context_of context.now) (SetField field (term a.now)) (state_of state.old) }
{
    match evaluate(a, context, &state.fields, &state.registers) {
        Ok(v) => {
            write(&mut state.fields, field, v);
            LineEnd::Next(0)
        }
        Err(f) => LineEnd::Faulted(f),
    }
}

#[tactic(auto, using(gm_graph::proofs::Serving::left))]
fn set_register(
    register: u32,
    a: &Expr,
    context: &VertexContext,
    state: &mut VertexState,
) -> LineEnd
    requires supplied { IsSupplied context.now }
    requires asked { Serve context.now.in_rows.now (line_outward (SetRegister register (term a.now))) }
    ensures { after_line (state_of state.new) result ≡ line_after (context_of context.now) (SetRegister register (term a.now)) (state_of state.old) }
{
    match evaluate(a, context, &state.fields, &state.registers) {
        Ok(v) => {
            write(&mut state.registers, register, v);
            LineEnd::Next(0)
        }
        Err(f) => LineEnd::Faulted(f),
    }
}

// A fold onto one slot, which is what most folds are. It takes no room beside that of the folds.
fn fold_one(
    reduce: Reduce,
    place: u32,
    t: &(u32, Expr),
    context: &VertexContext,
    state: &mut VertexState,
) -> Result<LineEnd, NoMemory>
    requires supplied { IsSupplied context.now }
    requires asked { Serve context.now.in_rows.now (reads_outward (target t.now).term) }
    ensures { IfOk result (λ end. after_line (state_of state.new) end
        ≡ line_after (context_of context.now) (Fold reduce place (target t.now ∷ [])) (state_of state.old)) }
{
    match evaluate(&t.1, context, &state.fields, &state.registers) {
        Ok(value) => {
            state.folds.add_one(place, reduce, t.0, value)?;
            Ok(LineEnd::Next(0))
        }
        Err(f) => Ok(LineEnd::Faulted(f)),
    }
}

#[tactic(auto, using(crate::proofs::Serving::slot_item))]
fn fold(
    reduce: Reduce,
    place: u32,
    targets: &[(u32, Expr)],
    context: &VertexContext,
    state: &mut VertexState,
) -> Result<LineEnd, NoMemory>
    requires supplied { IsSupplied context.now }
    requires asked { Serve context.now.in_rows.now (list_all reads_outward (terms_of (map target targets.now))) }
    ensures { IfOk result (λ end. after_line (state_of state.new) end
        ≡ line_after (context_of context.now) (Fold reduce place (map target targets.now)) (state_of state.old)) }
{
    if let [only] = targets {
        return fold_one(reduce, place, only, context, state);
    }
    let fields = state.fields.as_slice();
    let registers = state.registers.as_slice();
    let given = &mut state.given;
    let fault = evaluate_targets(reduce, place, targets, context, fields, registers, given)?;
    match fault {
        None => {
            let parts = state.given.as_slice();
            state.folds.add_parts(parts)?;
            Ok(LineEnd::Next(0))
        }
        Some(f) => Ok(LineEnd::Faulted(f)),
    }
}

// A put onto one slot.
fn put_one(
    reduce: Reduce,
    place: u32,
    t: &(u32, Expr),
    context: &VertexContext,
    state: &mut VertexState,
) -> Result<LineEnd, NoMemory>
    requires supplied { IsSupplied context.now }
    requires asked { Serve context.now.in_rows.now (reads_outward (target t.now).term) }
    ensures { IfOk result (λ end. after_line (state_of state.new) end
        ≡ line_after (context_of context.now) (Put reduce place (target t.now ∷ [])) (state_of state.old)) }
{
    match evaluate(&t.1, context, &state.fields, &state.registers) {
        Ok(value) => {
            state.puts.add_one(place, reduce, t.0, value)?;
            Ok(LineEnd::Next(0))
        }
        Err(f) => Ok(LineEnd::Faulted(f)),
    }
}

#[tactic(auto, using(crate::proofs::Serving::slot_item))]
fn put(
    reduce: Reduce,
    place: u32,
    targets: &[(u32, Expr)],
    context: &VertexContext,
    state: &mut VertexState,
) -> Result<LineEnd, NoMemory>
    requires supplied { IsSupplied context.now }
    requires asked { Serve context.now.in_rows.now (list_all reads_outward (terms_of (map target targets.now))) }
    ensures { IfOk result (λ end. after_line (state_of state.new) end
        ≡ line_after (context_of context.now) (Put reduce place (map target targets.now)) (state_of state.old)) }
{
    if let [only] = targets {
        return put_one(reduce, place, only, context, state);
    }
    let fields = state.fields.as_slice();
    let registers = state.registers.as_slice();
    let given = &mut state.given;
    let fault = evaluate_targets(reduce, place, targets, context, fields, registers, given)?;
    match fault {
        None => {
            let parts = state.given.as_slice();
            state.puts.add_parts(parts)?;
            Ok(LineEnd::Next(0))
        }
        Some(f) => Ok(LineEnd::Faulted(f)),
    }
}

// A message to what was found, which may be NIL.
fn send_to(target: Value, kind: u32, values: &[Value], messages: &mut Batch) -> Result<(), NoMemory>
    ensures { OnOk result (messages.new ≡ messages.old ++ messages_to target kind values.now) }
{
    if let Value::At(Some(to)) = target {
        messages.add(to, kind, values)?;
    }
    Ok(())
}

// A message of one value, which is what most messages are.
fn send_one(
    target: Value,
    kind: u32,
    a: &Expr,
    context: &VertexContext,
    state: &mut VertexState,
) -> Result<LineEnd, NoMemory>
    requires supplied { IsSupplied context.now }
    requires asked { Serve context.now.in_rows.now (reads_outward (term a.now)) }
    ensures { IfOk result (λ end. after_line (state_of state.new) end
        ≡ line_ends (state_of state.old) (value (view (context_of context.now) (state_of state.old)) (term a.now)) (λ v.
        leaves (record (state_of state.old) { messages = state.old.messages ++ messages_to target kind (v ∷ []) }))) }
{
    match evaluate(a, context, &state.fields, &state.registers) {
        Ok(v) => {
            send_to(target, kind, &[v], &mut state.messages)?;
            Ok(LineEnd::Next(0))
        }
        Err(f) => Ok(LineEnd::Faulted(f)),
    }
}

#[tactic(auto, using(gm_graph::proofs::Serving::left, gm_graph::proofs::Serving::right))]
fn send(
    kind: u32,
    to: &Expr,
    values: &[Expr],
    context: &VertexContext,
    state: &mut VertexState,
) -> Result<LineEnd, NoMemory>
    requires supplied { IsSupplied context.now }
    requires asked { Serve context.now.in_rows.now (line_outward (Send kind (term to.now) (map term values.now))) }
    ensures { IfOk result (λ end. after_line (state_of state.new) end
        ≡ line_after (context_of context.now) (Send kind (term to.now) (map term values.now)) (state_of state.old)) }
{
    let target = match evaluate(to, context, &state.fields, &state.registers) {
        Ok(target) => target,
        Err(f) => return Ok(LineEnd::Faulted(f)),
    };
    if let [only] = values {
        return send_one(target, kind, only, context, state);
    }
    match evaluate_all(
        values,
        context,
        &state.fields,
        &state.registers,
        &mut state.found,
    )? {
        None => {
            send_to(target, kind, &state.found, &mut state.messages)?;
            Ok(LineEnd::Next(0))
        }
        Some(f) => Ok(LineEnd::Faulted(f)),
    }
}

#[tactic(auto, using(gm_graph::proofs::Serving::left))]
fn skip(n: u32, a: &Expr, context: &VertexContext, state: &VertexState) -> LineEnd
    requires supplied { IsSupplied context.now }
    requires asked { Serve context.now.in_rows.now (line_outward (Skip n (term a.now))) }
    ensures { after_line (state_of state.now) result ≡ line_after (context_of context.now) (Skip n (term a.now)) (state_of state.now) }
{
    match evaluate(a, context, &state.fields, &state.registers) {
        Ok(v) => LineEnd::Next(if holds(v) { 0 } else { n }),
        Err(f) => LineEnd::Faulted(f),
    }
}

/// Runs one line that is no each. An each leaves out its lines.
pub(crate) fn run_line(
    l: &VertexLine,
    context: &VertexContext,
    state: &mut VertexState,
) -> Result<LineEnd, NoMemory>
    requires supplied { IsSupplied context.now }
    requires asked { Serve context.now.in_rows.now (line_outward (line l.now)) }
    ensures { IfOk result (λ end. after_line (state_of state.new) end ≡ line_after (context_of context.now) (line l.now) (state_of state.old)) }
{
    match l {
        VertexLine::SetField(f, a) => Ok(set_field(*f, a, context, state)),
        VertexLine::SetRegister(r, a) => Ok(set_register(*r, a, context, state)),
        VertexLine::Fold {
            reduce,
            place,
            slots,
        } => fold(*reduce, *place, slots.as_slice(), context, state),
        VertexLine::Put {
            reduce,
            place,
            slots,
        } => put(*reduce, *place, slots.as_slice(), context, state),
        VertexLine::Send { kind, to, values } => send(*kind, to, values.as_slice(), context, state),
        VertexLine::Skip(n, a) => Ok(skip(*n, a, context, state)),
        VertexLine::EachOut(n) => Ok(LineEnd::Next(*n)),
        VertexLine::EachIn(n) => Ok(LineEnd::Next(*n)),
    }
}

/// Runs lines without an each, to their end or their first fault.
#[tactic(auto, using(crate::proofs::Serving::line_item))]
pub(crate) fn run_lines(
    lines: &[VertexLine],
    context: &VertexContext,
    state: &mut VertexState,
) -> Result<Option<Fault>, NoMemory>
    requires supplied { IsSupplied context.now }
    requires asked { Serve context.now.in_rows.now (list_all line_outward (map line lines.now)) }
    ensures { IfOk result (λ f. after_lines (state_of state.new) f ≡ lines_after (context_of context.now) (map line lines.now) 0 (state_of state.old)) }
{
    let mut skip = 0;
    for l in lines {
        if skip > 0 {
            skip -= 1;
        } else {
            match run_line(l, context, state)? {
                LineEnd::Next(k) => skip = k,
                LineEnd::Faulted(f) => return Ok(Some(f)),
            }
        }
    }
    Ok(None)
}

// How many edges of a node an each goes over.
fn degree(context: &VertexContext, out: bool) -> u32
    requires supplied { IsSupplied context.now }
    requires asked { Serve context.now.in_rows.now (runs_outward (direction out)) }
    requires node { HasNode context.now.graph.now context.now.node }
    ensures { result ≡ length (steps (direction out) context.now.graph.now context.now.node) }
{
    if out {
        return context.graph.out_degree(context.node);
    }
    match context.in_rows {
        Some(rows) => rows.degree(context.node),
        None => unreachable!(),
    }
}

// The neighbour and the edge, by its row, of a turn of an each.
fn step_at(context: &VertexContext, out: bool, k: u32) -> (u32, u32)
    requires supplied { IsSupplied context.now }
    requires asked { Serve context.now.in_rows.now (runs_outward (direction out)) }
    requires node { HasNode context.now.graph.now context.now.node }
    requires step { k < length (steps (direction out) context.now.graph.now context.now.node) }
    ensures { slice_get (steps (direction out) context.now.graph.now context.now.node) k
        ≡ Some (record { node = result.0; edge = edge_at context.now.graph.now (Some result.1) }) }
{
    let node = context.node;
    if out {
        return (
            context.graph.out_target(node, k),
            context.graph.out_row(node, k),
        );
    }
    match context.in_rows {
        Some(rows) => (rows.source(node, k), rows.row(node, k)),
        None => unreachable!(),
    }
}

/// Runs lines once for each edge of a node in a direction, each time to their end or their first fault, and answers
/// the least of these faults.
#[tactic(auto, using(gm_graph::proofs::Serving::left, gm_graph::proofs::Serving::right))]
pub(crate) fn run_turns(
    out: bool,
    lines: &[VertexLine],
    context: &VertexContext,
    state: &mut VertexState,
) -> Result<Option<Fault>, NoMemory>
    requires supplied { IsSupplied context.now }
    requires asked { Serve context.now.in_rows.now (runs_outward (direction out) && list_all line_outward (map line lines.now)) }
    requires node { HasNode context.now.graph.now context.now.node }
    ensures { IfOk result (λ f. after_lines (state_of state.new) f
        ≡ turns_after (context_of context.now) (map line lines.now) (steps (direction out) context.now.graph.now context.now.node) (state_of state.old) None) }
{
    let mut fault = None;
    for k in 0..degree(context, out) {
        let (neighbour, row) = step_at(context, out, k);
        let turn = VertexContext {
            neighbour,
            row: Some(row),
            ..*context
        };
        let one = run_lines(lines, &turn, state)?;
        fault = lesser(fault, one);
    }
    Ok(fault)
}

/// Sets the registers to zero.
#[inline(always)]
pub(crate) fn reset(registers: &mut Vec<Value>, types: &[VType]) -> Result<(), NoMemory>
    ensures { OnOk result (registers.new.items ≡ map zero_of types.now) }
{
    registers.clear();
    for t in types {
        registers.push(t.zero())?;
    }
    Ok(())
}
