//! The reductions of some lines, and by which of them each slot was reduced first.

ghost use Rattle.std.specs.Prelude.{◌≡◌, ℕ, true, List, [], ◌∷◌, ◌++◌, OnOk, map, slice_get};
ghost use Rattle.gm_image.specs.Views.{target};
ghost use Rattle.gm_image.specs.Parts.{slots_of};
ghost use Rattle.gm_image.specs.Folds.{same_numbers, same_reduction, same_as_first, is_the_one};
ghost use Rattle.gm_image.specs.Folds as F;
ghost use Rattle.gm_verify.specs.Firsts.{reduction_of, ShowsFirsts};

use gm_image::Expr;
use gm_value::Reduce;
use std::alloc::{AllocError, Global};
use std::collections::HashMap;

// A reduction with its slots.
#[derive(Clone, Copy)]
pub struct Reduction<'a> {
    pub reduce: Reduce,
    pub targets: &'a [(u32, Expr)],
}

// Whether two reductions have the same slots in the same order.
fn same_slots(some: &[(u32, Expr)], other: &[(u32, Expr)]) -> bool
    ensures { result ≡ same_numbers (slots_of (map target some.now)) (slots_of (map target other.now)) }
{
    if some.len() != other.len() {
        return false;
    }
    for i in 0..some.len() {
        if some[i].0 != other[i].0 {
            return false;
        }
    }
    true
}

// Whether two reductions are one, slot by slot.
fn same_reduction(some: Reduction, other: Reduction) -> bool
    ensures { result ≡ same_reduction (reduction_of some.entry) (reduction_of other.entry) }
{
    some.reduce == other.reduce && same_slots(some.targets, other.targets)
}

// The reductions of some lines, and for each of their slots the index of the first reduction that has it.
#[derive(Drop)]
pub struct Firsts<'a> {
    pub reductions: Vec<Reduction<'a>>,
    pub indices: HashMap<u32, usize>,
}

impl<'a> Firsts<'a> {
    // Of no lines.
    pub fn new(alloc: Global) -> Firsts<'a>
        ensures { ShowsFirsts result [] }
    {
        Firsts {
            reductions: Vec::new(alloc),
            indices: HashMap::new(alloc),
        }
    }

    // Whether a reduction is the one at an index, where there is one.
    fn is_at(&self, index: usize, reduction: Reduction) -> bool
        ensures { result ≡ same_as_first (reduction_of reduction.entry) (slice_get (map reduction_of self.now.reductions.items) index) }
    {
        match self.reductions.get(index) {
            None => true,
            Some(first) => same_reduction(*first, reduction),
        }
    }

    // Whether a reduction is the one at an index, where it is known to be the one at another, if any.
    fn is_still(&self, same: Option<usize>, index: usize, reduction: Reduction) -> bool
        requires { (k : ℕ) → same ≡ Some k → same_as_first (reduction_of reduction) (slice_get (map reduction_of self.now.reductions.items) k) ≡ true }
        ensures { result ≡ same_as_first (reduction_of reduction.entry) (slice_get (map reduction_of self.now.reductions.items) index) }
    {
        same == Some(index) || self.is_at(index, reduction)
    }

    // Whether a reduction is the one by which each of its slots was reduced first. Slots that were reduced first by
    // one reduction are compared with it once.
    pub fn is_the_one(&self, reduction: Reduction) -> bool
        ensures { (rs : List F.Reduction) → ShowsFirsts self.now rs → result ≡ is_the_one rs (reduction_of reduction.entry) }
    {
        let targets = reduction.targets;
        let mut same = None;
        for target in targets {
            match self.indices.get(&target.0).copied() {
                None => {}
                Some(index) => {
                    if !self.is_still(same, index, reduction) {
                        return false;
                    }
                    same = Some(index);
                }
            }
        }
        true
    }

    // Adds a reduction.
    pub fn add(&mut self, reduction: Reduction<'a>) -> Result<(), AllocError>
        ensures { OnOk result ((rs : List F.Reduction) → ShowsFirsts self.old rs → ShowsFirsts self.new (rs ++ reduction_of reduction.entry ∷ [])) }
    {
        let targets = reduction.targets;
        let all = self.reductions.as_slice();
        let index = all.len();
        for target in targets {
            match self.indices.get(&target.0).copied() {
                Some(_) => {}
                None => {
                    self.indices.insert(target.0, index)?;
                }
            }
        }
        self.reductions.push(reduction)?;
        Ok(())
    }
}
