//! Steps of loops, and the lines around the bodies of loops and conditions of a sequential phase.

ghost use Rattle.std.specs.Prelude.{◌≡◌, ◌+◌, ◌++◌, ◌∷◌, [], pos, true, false, IfOk, OnOk, length, map};
ghost use Rattle.gm_ast.specs.Tree.{expr_of};
ghost use Rattle.gm_image.specs.Program as Program;
ghost use Rattle.gm_image.specs.Term as Term;
ghost use Rattle.gm_image.specs.Views.{command, term};
ghost use Rattle.gm_value.specs.declared.values.Value.TheVariants.{Flag, I64};
ghost use Rattle.gm_layouts.specs.Where.{where_of};
ghost use Rattle.gm_lowering.specs.Lowered as Lowered;
ghost use Rattle.gm_lowering.specs.Places as Spots;
ghost use Rattle.gm_lowering.specs.Places.{segment, shown_places, spots_in};
ghost use Rattle.gm_lowering.specs.Terms as Terms;
ghost use Rattle.gm_masters.specs.Parts.{as_at, as_part};
ghost use Rattle.gm_masters.specs.Turns as Turns;
ghost use Rattle.gm_masters.specs.Turns.{between, choice_of};

use crate::commands::{Reading, Told, value_at};
use crate::parts::{At, Frame, Part, sum};
use gm_ast::tree::{Expr, Head, Key};
use gm_base::{NoMemory, Place};
use gm_bodies::is_always;
use gm_image::{Block, Expr as Value, MasterLine};
use gm_layouts::{Layout, next, small};
use gm_places::{Places, add_spots_in, spot_at};
use gm_value::Value as Constant;
use std::alloc::Global;

/// Adds a step for each of some consecutive blocks.
pub(crate) fn add_steps(
    block: u32,
    blocks: &[Block],
    commands: &mut Vec<MasterLine>,
) -> Result<(), NoMemory>
    ensures { OnOk result (map command commands.new.items ≡ map command commands.old.items ++ Lowered.steps_from block (length blocks.now)) }
{
    let mut block = block;
    for _ in blocks {
        commands.push(MasterLine::Step(block))?;
        block = next(block)?;
    }
    Ok(())
}

// Adds the lines of a condition's first way.
fn add_first_way(
    value: Value,
    skipped: u32,
    lines: Vec<MasterLine>,
    commands: &mut Vec<MasterLine>,
) -> Result<(), NoMemory>
    ensures { OnOk result (map command commands.new.items ≡ map command commands.old.items ++ (Program.Test skipped (term value) ∷ map command lines.items)) }
{
    let mut lines = lines;
    commands.push(MasterLine::Test(skipped, value))?;
    commands.append(&mut lines)?;
    Ok(())
}

// The lines of a condition: one way, and the other one, where it has lines behind a jump over them.
#[tactic(auto, using(crate::proofs::Choices::choice_is))]
fn choice_lines(
    alloc: Global,
    value: Value,
    behind: u32,
    first: Vec<MasterLine>,
    second: Vec<MasterLine>,
) -> Result<Vec<MasterLine>, NoMemory>
    ensures { IfOk result (λ r. map command r.items ≡ Lowered.choice (term value) behind (map command first.items) (map command second.items)) }
{
    let mut commands = Vec::new(alloc);
    if second.is_empty() {
        add_first_way(value, behind, first, &mut commands)?;
        return Ok(commands);
    }
    let other = next(behind)?;
    add_first_way(value, other, first, &mut commands)?;
    let end = sum(other, small(second.len())?)?;
    commands.push(MasterLine::Jump(end))?;
    let mut second = second;
    commands.append(&mut second)?;
    Ok(commands)
}

/// The part of a condition, by its test, the line behind its first way, and the parts of its ways.
pub(crate) fn choice_part(
    alloc: Global,
    told: Told,
    behind: u32,
    first: Part,
    second: Part,
) -> Result<Part, NoMemory>
    ensures part { IfOk result (λ r. as_part r ≡ choice_of (shown_places told.places) (term told.value) behind (as_part first) (as_part second)) }
    ensures kinds { IfOk result (λ r. r.kinds ≡ first.kinds + second.kinds) }
{
    let mut first = first;
    let mut second = second;
    let mut places = Vec::new(alloc);
    told.places.add_shown(&mut places)?;
    places.append(&mut first.places)?;
    places.append(&mut second.places)?;
    first.blocks.append(&mut second.blocks)?;
    Ok(Part {
        commands: choice_lines(alloc, told.value, behind, first.commands, second.commands)?,
        blocks: first.blocks,
        places,
        kinds: sum(first.kinds, second.kinds)?,
    })
}

// A part of a loop: the lines before its body, the body, and back to a line.
fn turn_part(
    alloc: Global,
    places: &Places,
    before: Vec<MasterLine>,
    body: Part,
    back: u32,
) -> Result<Part, NoMemory>
    ensures part { IfOk result (λ r. as_part r ≡ between (shown_places places.now) (map command before.items) (as_part body) (Program.Back back ∷ [])) }
    ensures kinds { IfOk result (λ r. r.kinds ≡ body.kinds) }
{
    let mut body = body;
    let mut commands = before;
    commands.append(&mut body.commands)?;
    commands.push(MasterLine::Back(back))?;
    let mut shown = Vec::new(alloc);
    places.add_shown(&mut shown)?;
    shown.append(&mut body.places)?;
    Ok(Part {
        commands,
        blocks: body.blocks,
        places: shown,
        kinds: body.kinds,
    })
}

// The line behind what stands around a body, by where the body begins.
fn exit_of(start: At, body: &Part) -> Result<u32, NoMemory>
    ensures { IfOk result (λ r. r ≡ Turns.behind (as_at start) (as_part body.now) + 1) }
{
    sum(start.past(body)?.line, 1)
}

/// Where what stands behind a test begins.
pub(crate) fn turn_start(at: At, told: &Told) -> Result<At, NoMemory>
    ensures { IfOk result (λ r. as_at r ≡ Lowered.lines_on 1 (Lowered.places_on (shown_places told.now.places) (as_at at))) }
{
    let behind = at.places_on(&told.places)?;
    behind.lines_on(1)
}

/// Where the body of a Do begins.
pub(crate) fn do_start(at: At, told: &Told) -> Result<At, NoMemory>
    ensures { IfOk result (λ r. as_at r ≡ Lowered.lines_on 3 (Lowered.deeper (Lowered.places_on (shown_places told.now.places) (as_at at)))) }
{
    let behind = at.places_on(&told.places)?;
    let within = behind.deeper()?;
    within.lines_on(3)
}

/// The part of a While, by its test, where it and its body begin, and the body's part.
pub(crate) fn while_part(
    alloc: Global,
    told: Told,
    at: At,
    start: At,
    body: Part,
) -> Result<Part, NoMemory>
    ensures part { IfOk result (λ r. as_part r ≡ Turns.while_of (shown_places told.places) (term told.value) (as_at at) (as_at start) (as_part body)) }
    ensures kinds { IfOk result (λ r. r.kinds ≡ body.kinds) }
{
    let exit = exit_of(start, &body)?;
    let mut before = Vec::new(alloc);
    before.push(MasterLine::Turn(exit, told.value))?;
    turn_part(alloc, &told.places, before, body, at.line)
}

// Whether a flag holds or a test does.
fn again(alloc: Global, flag: u32, test: Value) -> Result<Value, NoMemory>
    ensures { IfOk result (λ r. term r ≡ Term.Or (Term.Global flag) (term test)) }
{
    let first = Box::new(alloc, Value::Global(flag))?;
    let test = Box::new(alloc, test)?;
    Ok(Value::Or(first, test))
}

// The lines before the body of a Do.
fn do_lines(alloc: Global, flag: u32, exit: u32, test: Value) -> Result<Vec<MasterLine>, NoMemory>
    ensures { IfOk result (λ r. map command r.items ≡ Program.SetGlobal flag (Term.Const (Flag true)) ∷ Program.Turn exit (Term.Or (Term.Global flag) (term test)) ∷ Program.SetGlobal flag (Term.Const (Flag false)) ∷ []) }
{
    let again = again(alloc, flag, test)?;
    let mut lines = Vec::new(alloc);
    lines.push(MasterLine::SetGlobal(flag, Value::Const(Constant::Flag(true))))?;
    lines.push(MasterLine::Turn(exit, again))?;
    lines.push(MasterLine::SetGlobal(flag, Value::Const(Constant::Flag(false))))?;
    Ok(lines)
}

/// The part of a Do, by its test, where it and its body begin, and the body's part.
pub(crate) fn do_part(
    alloc: Global,
    layout: &Layout<'_>,
    told: Told,
    at: At,
    start: At,
    body: Part,
) -> Result<Part, NoMemory>
    ensures part { IfOk result (λ r. as_part r ≡ Turns.do_of ((where_of layout.now).flag at.depth) (shown_places told.places) (term told.value) (as_at at) (as_at start) (as_part body)) }
    ensures kinds { IfOk result (λ r. r.kinds ≡ body.kinds) }
{
    let exit = exit_of(start, &body)?;
    let before = do_lines(alloc, layout.flag(at.depth)?, exit, told.value)?;
    turn_part(alloc, &told.places, before, body, next(at.line)?)
}

// Whether the counter of a depth is below the number of nodes.
fn counts(alloc: Global, layout: &Layout<'_>, depth: u32) -> Result<Value, NoMemory>
    ensures { IfOk result (λ r. term r ≡ Lowered.counts (where_of layout.now) depth) }
{
    let count = Box::new(alloc, Value::NodeCount)?;
    let all = Box::new(alloc, Value::ToLong(count))?;
    let so_far = Box::new(alloc, Value::Global(layout.counter(depth)?))?;
    Ok(Value::Lt(so_far, all))
}

// The counter's next value. It cannot fault, but an addition has a place.
fn next_count(alloc: Global, layout: &Layout<'_>, depth: u32, place: u32) -> Result<Value, NoMemory>
    ensures { IfOk result (λ r. term r ≡ Lowered.next_count (where_of layout.now) depth place) }
{
    let so_far = Box::new(alloc, Value::Global(layout.counter(depth)?))?;
    let one = Box::new(alloc, Value::Const(Constant::I64(1)))?;
    Ok(Value::Add(place, so_far, one))
}

// The node of the counter.
fn node_at(alloc: Global, layout: &Layout<'_>, depth: u32) -> Result<Value, NoMemory>
    ensures { IfOk result (λ r. term r ≡ Term.NodeAt (Term.Global ((where_of layout.now).counter depth))) }
{
    let number = Box::new(alloc, Value::Global(layout.counter(depth)?))?;
    Ok(Value::NodeAt(number))
}

// Adds the line of a filter, which is left out where it always holds.
#[tactic(auto, using(crate::proofs::Choices::test_lines_are))]
fn add_test(end: u32, test: Value, lines: &mut Vec<MasterLine>) -> Result<(), NoMemory>
    ensures { OnOk result (map command lines.new.items ≡ map command lines.old.items ++ Lowered.test_lines end (term test)) }
{
    if !is_always(&test) {
        lines.push(MasterLine::Test(end, test))?;
    }
    Ok(())
}

// How many lines there are before the body of a For.
#[tactic(auto, using(crate::proofs::Choices::test_lines_are))]
fn for_count(test: &Value) -> u32
    ensures { result ≡ 4 + length (Lowered.test_lines 0 (term test.now)) }
{
    if is_always(test) { 4 } else { 5 }
}

// Where a For stands in the master list: the depth of its counter, its iterator, the line behind its body, and the index of
// its addition's place.
#[derive(Clone, Copy)]
struct Counting {
    depth: u32,
    iterator: u32,
    end: u32,
    addition: u32,
}

// Adds the lines that start a counter and compare it.
fn add_count(
    alloc: Global,
    layout: &Layout<'_>,
    counting: Counting,
    lines: &mut Vec<MasterLine>,
) -> Result<(), NoMemory>
    ensures { OnOk result (map command lines.new.items ≡ map command lines.old.items ++ (Program.SetGlobal ((where_of layout.now).counter counting.depth) (Term.Const (I64 (pos 0))) ∷ Program.Turn (counting.end + 1) (Lowered.counts (where_of layout.now) counting.depth) ∷ [])) }
{
    let counter = layout.counter(counting.depth)?;
    let exit = sum(counting.end, 1)?;
    let test = counts(alloc, layout, counting.depth)?;
    lines.push(MasterLine::SetGlobal(counter, Value::Const(Constant::I64(0))))?;
    lines.push(MasterLine::Turn(exit, test))?;
    Ok(())
}

// Adds the lines that set the iterator to the counter's node, and the counter to its next value.
fn add_next(
    alloc: Global,
    layout: &Layout<'_>,
    counting: Counting,
    lines: &mut Vec<MasterLine>,
) -> Result<(), NoMemory>
    ensures { OnOk result (map command lines.new.items ≡ map command lines.old.items ++ (Program.SetGlobal ((where_of layout.now).global counting.iterator) (Term.NodeAt (Term.Global ((where_of layout.now).counter counting.depth))) ∷ Program.SetGlobal ((where_of layout.now).counter counting.depth) (Lowered.next_count (where_of layout.now) counting.depth counting.addition) ∷ [])) }
{
    let counter = layout.counter(counting.depth)?;
    let iterator = layout.global(counting.iterator)?;
    let node = node_at(alloc, layout, counting.depth)?;
    let value = next_count(alloc, layout, counting.depth, counting.addition)?;
    lines.push(MasterLine::SetGlobal(iterator, node))?;
    lines.push(MasterLine::SetGlobal(counter, value))?;
    Ok(())
}

// The lines before the body of a For.
fn for_lines(
    alloc: Global,
    layout: &Layout<'_>,
    counting: Counting,
    test: Value,
) -> Result<Vec<MasterLine>, NoMemory>
    ensures { IfOk result (λ r. map command r.items ≡ Turns.for_lines (where_of layout.now) counting.depth counting.iterator counting.end counting.addition (term test)) }
{
    let mut lines = Vec::new(alloc);
    add_count(alloc, layout, counting, &mut lines)?;
    add_next(alloc, layout, counting, &mut lines)?;
    add_test(counting.end, test, &mut lines)?;
    Ok(lines)
}

// The places of a For.
fn for_places(
    alloc: Global,
    base: u32,
    key: Key,
    place: Place,
    filter: &Expr,
) -> Result<Places, NoMemory>
    ensures { IfOk result (λ r. r ≡ segment base (Spots.spot_at key place ∷ spots_in (expr_of filter.now) key)) }
{
    let mut spots = Vec::new(alloc);
    spots.push(spot_at(key, place))?;
    add_spots_in(filter, key, &mut spots)?;
    Places::new(alloc, base, &spots)
}

/// The filter of a For, and the places of what may fault before its body.
pub(crate) fn for_told(
    alloc: Global,
    frame: &Frame<'_>,
    base: u32,
    key: Key,
    place: Place,
    filter: &Expr,
) -> Result<Told, NoMemory>
    ensures places { IfOk result (λ r. r.places ≡ segment base (Spots.spot_at key place ∷ spots_in (expr_of filter.now) key)) }
    ensures value { IfOk result (λ r. term r.value ≡ Terms.term (Terms.master_env (where_of frame.now.layout.now) r.places) key (expr_of filter.now)) }
{
    let places = for_places(alloc, base, key, place, filter)?;
    let reading = Reading {
        frame: *frame,
        places: &places,
    };
    let value = value_at(alloc, &reading, key, filter)?;
    Ok(Told { value, places })
}

/// Where the body of a For begins.
pub(crate) fn for_start(at: At, told: &Told) -> Result<At, NoMemory>
    ensures { IfOk result (λ r. as_at r ≡ Lowered.lines_on (4 + length (Lowered.test_lines 0 (term told.now.value))) (Lowered.deeper (Lowered.places_on (shown_places told.now.places) (as_at at)))) }
{
    let behind = at.places_on(&told.places)?;
    let within = behind.deeper()?;
    within.lines_on(for_count(&told.value))
}

/// The part of a For, by its filter, where it and its body begin, and the body's part.
pub(crate) fn for_part(
    alloc: Global,
    layout: &Layout<'_>,
    key: Key,
    place: Place,
    head: Head,
    told: Told,
    at: At,
    start: At,
    body: Part,
) -> Result<Part, NoMemory>
    ensures part { IfOk result (λ r. as_part r ≡ Turns.for_of (where_of layout.now) head.iterator (Spots.place_index told.places key place) (shown_places told.places) (term told.value) (as_at at) (as_at start) (as_part body)) }
    ensures kinds { IfOk result (λ r. r.kinds ≡ body.kinds) }
{
    let counting = Counting {
        depth: at.depth,
        iterator: head.iterator,
        end: start.past(&body)?.line,
        addition: told.places.index(key, place)?,
    };
    let before = for_lines(alloc, layout, counting, told.value)?;
    turn_part(alloc, &told.places, before, body, next(at.line)?)
}
