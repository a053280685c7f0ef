//! What may combine the messages of each kind. What goes in are the blocks of an image; what comes out is for each kind
//! what all handlers let it have as its combiner. One walk over the handlers, of which one line at most is looked at.

ghost use Rattle.std.specs.Prelude.{◌≡◌, ◌<◌, ◌&&◌, ◌||◌, ◌∷◌, [], ℕ, nat_eq, not, true, Some, IfOk, length, map, replicate};
ghost use Rattle.gm_image.specs.Folds.{is_combining, is_its_value};
ghost use Rattle.gm_image.specs.Shapes.{leaf_term};
ghost use Rattle.gm_image.specs.Views.{term, line, handler, block};
ghost use Rattle.gm_value.specs.declared.reductions.Reduce as R;
ghost use Rattle.gm_combiners.specs.Combiners.{all_let, first_fitting, handlers_of};
ghost use Rattle.gm_combiners.specs.Candidates.{is_reduce, leaves, left_for, ShowsLeft};
ghost use Rattle.gm_combiners.specs.declared.candidates.Candidates.TheVariants.{Every};

use gm_image::{Block, Expr, Handler, Leaf, Shape, VertexLine};
use gm_value::{Reduce, VType};
use std::alloc::{AllocError, Global};

// The reductions that the handlers so far leave as the combiner of a kind.
#[derive(Clone, Copy)]
pub enum Candidates {
    // Every one: no handler takes the kind.
    Every,
    // One alone.
    Only(Reduce),
    // None.
    Never,
}

// Whether a leaf is the first value of a message.
fn is_first_value(leaf: Leaf) -> bool
    ensures { result ≡ is_its_value (leaf_term leaf) }
{
    match leaf {
        Leaf::Message(i) => i == 0,
        _ => false,
    }
}

// Whether an expression is the one value of a message.
#[tactic(auto, using(crate::proofs::Walking::value_one, crate::proofs::Walking::value_two))]
fn is_its_value(expr: &Expr) -> bool
    ensures { result ≡ is_its_value (term expr.now) }
{
    match expr.shape() {
        Shape::Leaf(leaf) => is_first_value(leaf),
        Shape::One(_, _) | Shape::Two(_, _, _) | Shape::Choose(_, _, _) => false,
    }
}

// The reduction by which a line folds the one value of a message, if it does that.
fn reduction_of(vertex_line: &VertexLine) -> Option<Reduce>
    ensures { (r : R.Reduce) → is_reduce result r ≡ is_combining r (line vertex_line.now ∷ []) }
{
    match vertex_line {
        VertexLine::Fold { reduce, slots, .. } => {
            let targets = slots.as_slice();
            if targets.len() == 1 && is_its_value(&targets[0].1) {
                Some(*reduce)
            } else {
                None
            }
        }
        _ => None,
    }
}

// The reduction that may combine the messages that some lines of a handler take, if one may: the lines are one that folds
// the one value by it.
fn combining_reduction(lines: &[VertexLine]) -> Option<Reduce>
    ensures { (r : R.Reduce) → is_reduce result r ≡ is_combining r (map line lines.now) }
{
    if lines.len() == 1 {
        reduction_of(&lines[0])
    } else {
        None
    }
}

// The first reduction that fits a type.
fn first_for(t: VType) -> Reduce
    ensures { Some result ≡ first_fitting (λ r. true) (t ∷ []) }
{
    match t {
        VType::I32 | VType::I64 => Reduce::Sum,
        VType::Flag => Reduce::And,
        VType::Node => Reduce::Max,
    }
}

impl Candidates {
    // Those that are left where a handler leaves one reduction or none.
    fn narrow(self, by: Option<Reduce>) -> Candidates
        ensures { (r : R.Reduce) → leaves result r ≡ leaves self r && is_reduce by r }
    {
        match (self, by) {
            (Candidates::Every, Some(reduce)) => Candidates::Only(reduce),
            (Candidates::Only(only), Some(reduce)) if only == reduce => Candidates::Only(only),
            _ => Candidates::Never,
        }
    }

    // The first of them that fits the one value of messages with values of some types.
    fn first_fitting(self, types: &[VType]) -> Option<Reduce>
        ensures { result ≡ first_fitting (leaves self) types.now }
    {
        if types.len() != 1 {
            return None;
        }
        match self {
            Candidates::Every => Some(first_for(types[0])),
            Candidates::Only(reduce) if reduce.fits(types[0]) => Some(reduce),
            _ => None,
        }
    }
}

// Narrows the candidates of a kind, where there is one, by the one reduction or none that a handler leaves.
fn narrow_at(candidates: &mut Vec<Candidates>, kind: usize, by: Option<Reduce>)
    ensures long { length candidates.new.items ≡ length candidates.old.items }
    ensures left { (k : ℕ) (r : R.Reduce) → k < length candidates.old.items → leaves (left_for candidates.new.items k) r ≡ leaves (left_for candidates.old.items k) r && (not (nat_eq kind k) || is_reduce by r) }
{
    if kind < candidates.len() {
        candidates[kind] = candidates[kind].narrow(by);
    }
}

// Narrows the candidates of all kinds to those that some handlers leave.
fn narrow_kinds(candidates: &mut Vec<Candidates>, handlers: &[Handler])
    ensures long { length candidates.new.items ≡ length candidates.old.items }
    ensures left { (k : ℕ) (r : R.Reduce) → k < length candidates.old.items → leaves (left_for candidates.new.items k) r ≡ leaves (left_for candidates.old.items k) r && all_let (map handler handlers.now) k r }
{
    for handled in handlers {
        let by = combining_reduction(handled.lines.as_slice());
        narrow_at(candidates, handled.kind as usize, by);
    }
}

// The candidates of so many kinds, of which no handler has taken any away.
fn all_candidates(alloc: Global, kinds: usize) -> Result<Vec<Candidates>, AllocError>
    ensures { IfOk result (λ cs. cs.items ≡ replicate kinds Every) }
{
    let candidates = vec![in alloc; Candidates::Every; kinds]?;
    Ok(candidates)
}

// The candidates that the handlers of some blocks leave for each of so many kinds.
pub fn find_candidates(
    alloc: Global,
    kinds: usize,
    blocks: &[Block],
) -> Result<Vec<Candidates>, AllocError>
    ensures long { IfOk result (λ cs. length cs.items ≡ kinds) }
    ensures left { IfOk result (λ cs. ShowsLeft cs.items (handlers_of (map block blocks.now))) }
{
    let mut candidates = all_candidates(alloc, kinds)?;
    for one in blocks {
        narrow_kinds(&mut candidates, one.handlers.as_slice());
    }
    Ok(candidates)
}

// The combiner of a kind with values of some types: the first of its candidates that fits.
pub fn combiner_at(candidates: &[Candidates], kind: usize, types: &[VType]) -> Option<Reduce>
    ensures { result ≡ first_fitting (leaves (left_for candidates.now kind)) types.now }
{
    match candidates.get(kind) {
        Some(left) => left.first_fitting(types),
        None => Candidates::Every.first_fitting(types),
    }
}
