//! The master list.

ghost use Rattle.std.specs.Prelude.{◌≡◌, ◌&&◌, ◌-◌, ◌≤◌, ℕ, [], IfOk, map, length};
ghost use Rattle.std.specs.List.{list_all};
ghost use Rattle.gm_image.specs.Program.{SetGlobal, Test, Turn, Back};
ghost use Rattle.gm_image.specs.Views.{program, command, input, term};
ghost use Rattle.gm_machine.specs.Expressions.{value};
ghost use Rattle.gm_machine.specs.Vertex.{view_with};
ghost use Rattle.gm_machine.specs.VertexViews.{context_of};
ghost use Rattle.gm_graph.specs.Serving.{Serve};
ghost use Rattle.gm_machine.specs.Asking.{IsServed, command_outward, reads_outward};
ghost use Rattle.gm_machine.specs.Machine.{segment, pause, master_view, set_after, at_head, command_after, scalars, with_inputs, start_control};
ghost use Rattle.gm_machine.specs.Masters.{segment_of, lead_of, pause_of, control, control_of, FitsGraph, IsListSupplied, IsNearer};

use crate::expressions::{VertexContext, evaluate, holds};
use crate::faults::Fault;
use crate::lines::{reset, write};
use gm_base::NoMemory;
use gm_graph::{Graph, InRows};
use gm_image::{Expr, Image, InputItem, MasterLine};
use gm_value::Value;
use std::alloc::Global;

// What an expression of the master list sees.
fn master_context<'a>(list: &MasterList<'a>, globals: &'a [Value]) -> VertexContext<'a>
    ensures graph { result.graph.now ≡ list.now.graph.now }
    ensures in_rows { result.in_rows.now ≡ list.now.in_rows.now }
    ensures columns { result.columns ≡ list.now.columns }
    ensures view { view_with (context_of result) [] [] ≡ master_view list.now.graph.now globals.now }
{
    VertexContext {
        graph: list.graph,
        in_rows: list.in_rows,
        columns: list.columns,
        globals,
        node: 0,
        message: &[],
        neighbour: 0,
        row: None,
    }
}

// The value of an expression of the master list.
fn master_value(list: &MasterList, globals: &Vec<Value>, a: &Expr) -> Result<Value, Fault>
    requires supplied { IsListSupplied list.now }
    requires asked { Serve list.now.in_rows.now (reads_outward (term a.now)) }
    ensures { result ≡ value (master_view list.now.graph.now globals.now.items) (term a.now) }
{
    let context = master_context(list, globals);
    evaluate(a, &context, &[], &[])
}

/// Where a master line leads: on, with the next lines skipped, to a superstep with a block, to a line where a turn
/// begins, or to the end of the run.
#[derive(Clone, Copy)]
enum Lead {
    On(usize),
    Step(u32),
    Turn(usize),
    Ended,
    Faulted(Fault),
}

/// How a part of the master list's run ends: at its end, at a superstep with a block, or where a turn begins, each
/// with the line that comes next.
#[derive(Clone, Copy)]
enum MasterSegment {
    Ended,
    Faulted(Fault),
    Step(u32, usize),
    Turn(usize),
}

/// The master list and what it is evaluated in.
#[derive(Clone, Copy)]
struct MasterList<'a> {
    lines: &'a [MasterLine],
    graph: &'a Graph,
    in_rows: &'a Option<InRows<'a>>,
    columns: usize,
}

// The head of a loop, with the line below it.
#[tactic(auto, using(gm_graph::proofs::Serving::left))]
fn at_head(
    list: &MasterList,
    globals: &Vec<Value>,
    next: usize,
    below: usize,
    exit: u32,
    a: &Expr,
) -> Lead
    requires supplied { IsListSupplied list.now }
    requires asked { Serve list.now.in_rows.now (command_outward (Turn exit (term a.now))) }
    ensures { (turns : ℕ) → lead_of result (control globals.now.items turns)
        ≡ at_head list.now.graph.now next below exit (term a.now) (control globals.now.items turns) }
{
    match master_value(list, globals, a) {
        Ok(v) => {
            if holds(v) {
                Lead::Turn(below)
            } else {
                Lead::On((exit as usize).saturating_sub(next))
            }
        }
        Err(f) => Lead::Faulted(f),
    }
}

// A global becomes a value.
#[tactic(auto, using(gm_graph::proofs::Serving::left))]
fn set_global(list: &MasterList, slot: u32, a: &Expr, globals: &mut Vec<Value>) -> Lead
    requires supplied { IsListSupplied list.now }
    requires asked { Serve list.now.in_rows.now (command_outward (SetGlobal slot (term a.now))) }
    ensures { (turns : ℕ) → lead_of result (control globals.new.items turns)
        ≡ set_after list.now.graph.now slot (term a.now) (control globals.old.items turns) }
{
    match master_value(list, globals, a) {
        Ok(v) => {
            write(globals, slot, v);
            Lead::On(0)
        }
        Err(f) => Lead::Faulted(f),
    }
}

// A line is next where an expression is False.
#[tactic(auto, using(gm_graph::proofs::Serving::left))]
fn test(list: &MasterList, globals: &Vec<Value>, next: usize, to: u32, a: &Expr) -> Lead
    requires supplied { IsListSupplied list.now }
    requires asked { Serve list.now.in_rows.now (command_outward (Test to (term a.now))) }
    ensures { (turns : ℕ) → lead_of result (control globals.now.items turns)
        ≡ command_after (map command list.now.lines.now) list.now.graph.now next (Test to (term a.now)) (control globals.now.items turns) }
{
    match master_value(list, globals, a) {
        Ok(v) => {
            if holds(v) {
                Lead::On(0)
            } else {
                Lead::On((to as usize).saturating_sub(next))
            }
        }
        Err(f) => Lead::Faulted(f),
    }
}

// Back to a line, which is the head of a loop.
fn back(list: &MasterList, globals: &Vec<Value>, next: usize, head: u32) -> Lead
    requires supplied { IsListSupplied list.now }
    requires asked { Serve list.now.in_rows.now (list_all command_outward (map command list.now.lines.now)) }
    ensures { (turns : ℕ) → lead_of result (control globals.now.items turns)
        ≡ command_after (map command list.now.lines.now) list.now.graph.now next (Back head) (control globals.now.items turns) }
{
    match list.lines.get(head as usize) {
        Some(MasterLine::Turn(exit, a)) => {
            at_head(list, globals, next, head as usize + 1, *exit, a)
        }
        _ => Lead::Ended,
    }
}

// Runs one master line, given the number of the line below it.
#[tactic(auto, using(gm_graph::proofs::Serving::left, gm_graph::proofs::Serving::right))]
fn run_command(list: &MasterList, next: usize, m: &MasterLine, globals: &mut Vec<Value>) -> Lead
    requires supplied { IsListSupplied list.now }
    requires asked { Serve list.now.in_rows.now (command_outward (command m.now) && list_all command_outward (map command list.now.lines.now)) }
    ensures { (turns : ℕ) → lead_of result (control globals.new.items turns)
        ≡ command_after (map command list.now.lines.now) list.now.graph.now next (command m.now) (control globals.old.items turns) }
{
    match m {
        MasterLine::SetGlobal(t, a) => set_global(list, *t, a, globals),
        MasterLine::Step(q) => Lead::Step(*q),
        MasterLine::Jump(j) => Lead::On((*j as usize).saturating_sub(next)),
        MasterLine::Test(j, a) => test(list, globals, next, *j, a),
        MasterLine::Turn(x, a) => at_head(list, globals, next, next, *x, a),
        MasterLine::Back(h) => back(list, globals, next, *h),
        MasterLine::Finish => Lead::Ended,
    }
}

// Runs the master list from a line on, as far as the next superstep or turn.
#[tactic(auto, using(crate::proofs::Serving::command_item, gm_graph::proofs::Serving::joined, crate::proofs::Serving::master_served))]
fn run_segment(
    image: &Image,
    graph: &Graph,
    in_rows: &Option<InRows>,
    globals: &mut Vec<Value>,
    line: usize,
) -> MasterSegment
    requires columns { FitsGraph image.now graph.now }
    requires served { IsServed (program image.now) graph.now in_rows.now }
    ensures { (turns : ℕ) → segment_of result (control globals.new.items turns)
        ≡ segment (program image.now) graph.now line (control globals.old.items turns) }
{
    let list = MasterList {
        lines: image.master.as_slice(),
        graph,
        in_rows,
        columns: image.columns.len(),
    };
    let mut skip = line;
    for (i, m) in list.lines.iter().enumerate() {
        if skip > 0 {
            skip -= 1;
        } else {
            match run_command(&list, i + 1, m, globals) {
                Lead::On(k) => skip = k,
                Lead::Step(q) => return MasterSegment::Step(q, i + 1),
                Lead::Turn(below) => return MasterSegment::Turn(below),
                Lead::Ended => return MasterSegment::Ended,
                Lead::Faulted(f) => return MasterSegment::Faulted(f),
            }
        }
    }
    MasterSegment::Ended
}

/// The state of the master list's run: the globals, the line that comes next, the turns that were counted, and their
/// bound.
#[derive(Drop)]
pub struct Master {
    pub globals: Vec<Value>,
    pub line: usize,
    pub turns: u64,
    pub bound: u64,
}

// Writes the arguments into the globals of the scalar inputs, in order.
fn bind_scalars(inputs: &[InputItem], args: &[Value], globals: &mut Vec<Value>)
    ensures { globals.new.items ≡ with_inputs (scalars (map input inputs.now)) args.now globals.old.items }
{
    let mut next = 0;
    for item in inputs {
        if let InputItem::Scalar { slot, .. } = item {
            match args.get(next) {
                Some(v) => {
                    write(globals, *slot, *v);
                    next += 1;
                }
                None => return,
            }
        }
    }
}

impl Master {
    /// The state before the first line: each global is 0, False, NIL or its argument. The arguments are those of the
    /// scalar inputs, in order.
    pub fn start(
        alloc: Global,
        image: &Image,
        args: &[Value],
        bound: u64,
    ) -> Result<Master, NoMemory>
        ensures control { IfOk result (λ m. control_of m ≡ start_control (program image.now) args.now) }
        ensures line { IfOk result (λ m. m.line ≡ 0) }
        ensures bound { IfOk result (λ m. m.bound ≡ bound) }
    {
        let mut globals = Vec::new(alloc);
        reset(&mut globals, image.globals.as_slice())?;
        bind_scalars(image.inputs.as_slice(), args, &mut globals);
        Ok(Master {
            globals,
            line: 0,
            turns: 0,
            bound,
        })
    }
}

/// How the master list's run stops: at a superstep with a block, at its end, at a fault, or where it would take more
/// turns than it was given.
#[derive(Clone, Copy, Debug, PartialEq, Eq)]
pub enum MasterStop {
    Step(u32),
    Ended,
    Faulted(Fault),
    Cut,
}

/// Runs the master list as far as its next superstep. It takes no memory.
pub fn master_run(
    image: &Image,
    graph: &Graph,
    in_rows: &Option<InRows>,
    master: &mut Master,
) -> MasterStop
    requires columns { FitsGraph image.now graph.now }
    requires served { IsServed (program image.now) graph.now in_rows.now }
    requires bounded { master.old.turns ≤ master.old.bound }
    ensures run { pause_of result (master.new.bound - master.new.turns) master.new.line (control_of master.new)
        ≡ pause (program image.now) graph.now (master.old.bound - master.old.turns) master.old.line (control_of master.old) }
    ensures bounded { master.new.turns ≤ master.new.bound }
    ensures bound { master.new.bound ≡ master.old.bound }
    ensures nearer { IsNearer (length image.now.master) result master.old master.new }
{
    'turns: loop {
        match run_segment(image, graph, in_rows, &mut master.globals, master.line) {
            MasterSegment::Turn(line) => {
                if master.turns == master.bound {
                    return MasterStop::Cut;
                }
                master.turns += 1;
                master.line = line;
            }
            MasterSegment::Step(q, line) => {
                master.line = line;
                return MasterStop::Step(q);
            }
            MasterSegment::Ended => return MasterStop::Ended,
            MasterSegment::Faulted(f) => return MasterStop::Faulted(f),
        }
    }
}
