//! The kinds of messages and the blocks.

ghost use Rattle.std.specs.Prelude.{◌≡◌, ◌+◌, ◌≤◌, ◌++◌, ◌∷◌, [], ◌==◌, ℕ, nat_eq, List, length, map, IfOk, OnOk};
ghost use Rattle.std.specs.List.{flat_map, list_any};
ghost use Rattle.std.specs.HashSet.{contains};
ghost use Rattle.gm_image.specs.Program.{Line};
ghost use Rattle.gm_image.specs.Program as P;
ghost use Rattle.gm_image.specs.Views.{program, term, line, handler, block};
ghost use Rattle.gm_image.specs.Rows.{KindRow, HandlerRow, outside, in_handlers, body_rows, handler_rows, block_rows};
ghost use Rattle.gm_image.specs.Folds.{combiner_fits, is_its_value, is_combining, combines};
ghost use Rattle.gm_image.specs.Shapes.{leaf_term};
ghost use Rattle.gm_image.specs.Soundness.{broken_rule};
ghost use Rattle.gm_verify.specs.Checks.{Checks, all_handlers_rows};
ghost use Rattle.gm_verify.specs.Scopes.{ShowsScope, ShowsPuts};

use crate::firsts::Firsts;
use crate::lines::{Spot, insides, line_rule};
use crate::scopes::{Scope, add_fold, add_folded, add_put};
use crate::stops::{VerifyStop, next_line};
use gm_image::{Block, Expr, Handler, Image, ImageRule, Kind, Leaf, Shape, VertexLine};
use gm_value::Reduce;
use std::alloc::{AllocError, Global};
use std::collections::HashSet;

// Whether a combiner fits the types of a kind's values.
fn combiner_fits(kind: &Kind) -> bool
    ensures { result ≡ combiner_fits kind.now.combiner kind.now.values }
{
    let Some(combiner) = kind.combiner else {
        return true;
    };
    let types = kind.values.as_slice();
    types.len() == 1 && combiner.fits(types[0])
}

// The least rule that a kind breaks.
pub fn kind_rule(image: &Image, kind: &Kind) -> Option<ImageRule>
    ensures { result ≡ broken_rule (program image.now) (KindRow kind.now) }
{
    if !combiner_fits(kind) {
        return Some(ImageRule::I8);
    }
    None
}

// Checks the kinds, of which the first has a number in the text.
pub fn check_kinds(image: &Image, kinds: &[Kind], number: u64) -> Result<u64, VerifyStop>
    requires { number + length kinds.now ≤ 4294967296 }
    ensures { Checks (program image.now) number (map KindRow kinds.now) result }
{
    let mut next = number;
    for kind in kinds {
        next = next_line(kind_rule(image, kind), next)?;
    }
    Ok(next)
}

// Whether a leaf is the first value of a message.
fn is_first_value(leaf: Leaf) -> bool
    ensures { result ≡ is_its_value (leaf_term leaf) }
{
    match leaf {
        Leaf::Message(i) => i == 0,
        _ => false,
    }
}

// Whether an expression is the one value of a message.
#[tactic(auto, using(crate::proofs::ShapeSorts::value_one, crate::proofs::ShapeSorts::value_two))]
fn is_its_value(expr: &Expr) -> bool
    ensures { result ≡ is_its_value (term expr.now) }
{
    match expr.shape() {
        Shape::Leaf(leaf) => is_first_value(leaf),
        Shape::One(_, _) | Shape::Two(_, _, _) | Shape::Choose(_, _, _) => false,
    }
}

// Whether a line folds the one value of a message by a reduction.
fn is_combining(combiner: Reduce, vertex_line: &VertexLine) -> bool
    ensures { result ≡ is_combining combiner (line vertex_line.now ∷ []) }
{
    match vertex_line {
        VertexLine::Fold { reduce, slots, .. } => {
            let targets = slots.as_slice();
            combiner == *reduce && targets.len() == 1 && is_its_value(&targets[0].1)
        }
        VertexLine::SetField(_, _)
        | VertexLine::SetRegister(_, _)
        | VertexLine::Put { .. }
        | VertexLine::Send { .. }
        | VertexLine::Skip(_, _)
        | VertexLine::EachOut(_)
        | VertexLine::EachIn(_) => false,
    }
}

// Whether a handler's lines are what a kind's combiner stands for, if it has one.
fn combines(kind: &Kind, lines: &[VertexLine]) -> bool
    ensures { result ≡ combines kind.now.combiner (map line lines.now) }
{
    match kind.combiner {
        None => true,
        Some(combiner) => lines.len() == 1 && is_combining(combiner, &lines[0]),
    }
}

// The least rule that a handler's header breaks, after handlers of some kinds.
fn handler_rule(image: &Image, kinds: &HashSet<u32>, handled: &Handler) -> Option<ImageRule>
    ensures { (before : List P.Handler) → ((k : ℕ) → contains nat_eq kinds.now k ≡ list_any (λ h. h.kind == k) before)
        → result ≡ broken_rule (program image.now) (HandlerRow before (handler handled.now)) }
{
    let Some(kind) = image.kinds.as_slice().get(handled.kind as usize) else {
        return Some(ImageRule::I1);
    };
    if kinds.contains(&handled.kind) || !combines(kind, handled.lines.as_slice()) {
        return Some(ImageRule::I8);
    }
    None
}

// Checks the lines of a handler of a kind, of which the first has a number in the text, and adds their reductions.
fn check_handler<'a>(
    alloc: Global,
    image: &Image,
    kind: u32,
    lines: &'a [VertexLine],
    scope: &mut Scope<'a>,
    puts: &mut Firsts<'a>,
    number: u64,
) -> Result<u64, VerifyStop>
    requires { number + length lines.now ≤ 4294967296 }
    ensures checks { (all before : List Line) → ShowsScope scope.old (in_handlers all before) → ShowsPuts puts.old before
        → Checks (program image.now) number (handler_rows all kind before (map line lines.now)) result }
    ensures counts { IfOk result (λ next. next ≡ number + length lines.now) }
    ensures scope { OnOk result ((all before : List Line) → ShowsScope scope.old (in_handlers all before)
        → ShowsScope scope.new (in_handlers all (before ++ map line lines.now))) }
    ensures puts { OnOk result ((before : List Line) → ShowsPuts puts.old before → ShowsPuts puts.new (before ++ map line lines.now)) }
{
    let insides = insides(alloc, lines)?;
    let mut next = number;
    for index in 0..lines.len() {
        let vertex_line = &lines[index];
        let spot = Spot {
            kind: Some(kind),
            insides: &insides[index + 1..],
        };
        let rule = line_rule(alloc, image, spot, scope, puts, vertex_line)?;
        next = next_line(rule, next)?;
        add_fold(&mut scope.firsts, vertex_line)?;
        add_put(puts, vertex_line)?;
    }
    Ok(next)
}

// Checks the lines of a body, of which the first has a number in the text, behind lines with some reductions.
fn check_body<'a>(
    alloc: Global,
    image: &Image,
    lines: &'a [VertexLine],
    puts: &mut Firsts<'a>,
    number: u64,
) -> Result<u64, VerifyStop>
    requires { number + length lines.now ≤ 4294967296 }
    ensures { (earlier : List Line) → ShowsPuts puts.old earlier
        → Checks (program image.now) number (body_rows earlier outside (map line lines.now)) result }
{
    let insides = insides(alloc, lines)?;
    let mut scope = Scope::outside(alloc);
    let mut next = number;
    for index in 0..lines.len() {
        let vertex_line = &lines[index];
        let spot = Spot {
            kind: None,
            insides: &insides[index + 1..],
        };
        let rule = line_rule(alloc, image, spot, &scope, puts, vertex_line)?;
        next = next_line(rule, next)?;
        add_put(puts, vertex_line)?;
        scope.advance(alloc, vertex_line, &lines[index + 1..])?;
    }
    Ok(next)
}

// Around the lines of some handlers, of which none has come.
fn handlers_scope<'a>(alloc: Global, handlers: &[Handler]) -> Result<Scope<'a>, AllocError>
    ensures { IfOk result (λ s. ShowsScope s (in_handlers (flat_map (λ h. h.lines) (map handler handlers.now)) [])) }
{
    let mut scope = Scope::outside(alloc);
    for handled in handlers {
        add_folded(&mut scope.folded, handled.lines.as_slice())?;
    }
    Ok(scope)
}

// Checks the handlers of a block with their lines, of which the first has a number in the text.
fn check_handlers<'a>(
    alloc: Global,
    image: &Image,
    handlers: &'a [Handler],
    puts: &mut Firsts<'a>,
    number: u64,
) -> Result<u64, VerifyStop>
    requires { number + length (all_handlers_rows (map handler handlers.now)) ≤ 4294967296 }
    ensures checks { ShowsPuts puts.old [] → Checks (program image.now) number (all_handlers_rows (map handler handlers.now)) result }
    ensures puts { OnOk result (ShowsPuts puts.old [] → ShowsPuts puts.new (flat_map (λ h. h.lines) (map handler handlers.now))) }
{
    let mut kinds = HashSet::new(alloc);
    let mut scope = handlers_scope(alloc, handlers)?;
    let mut next = number;
    for handled in handlers {
        let first = next_line(handler_rule(image, &kinds, handled), next)?;
        kinds.insert(handled.kind)?;
        let lines = handled.lines.as_slice();
        next = check_handler(alloc, image, handled.kind, lines, &mut scope, puts, first)?;
    }
    Ok(next)
}

// Checks a block, whose header has a number in the text.
fn check_block(alloc: Global, image: &Image, one: &Block, number: u64) -> Result<u64, VerifyStop>
    requires { number + length (block_rows (block one.now)) ≤ 4294967296 }
    ensures { Checks (program image.now) number (block_rows (block one.now)) result }
{
    let mut puts = Firsts::new(alloc);
    let next = check_handlers(alloc, image, one.handlers.as_slice(), &mut puts, number + 1)?;
    check_body(alloc, image, one.body.as_slice(), &mut puts, next + 1)
}

// Checks the blocks, of which the first has a number in the text.
pub fn check_blocks(
    alloc: Global,
    image: &Image,
    blocks: &[Block],
    number: u64,
) -> Result<u64, VerifyStop>
    requires { number + length (flat_map block_rows (map block blocks.now)) ≤ 4294967296 }
    ensures { Checks (program image.now) number (flat_map block_rows (map block blocks.now)) result }
{
    let mut next = number;
    for one in blocks {
        next = check_block(alloc, image, one, next)?;
    }
    Ok(next)
}
