//! The lines around a line in which each field is folded by one reduction.

ghost use Rattle.std.specs.Prelude.{◌≡◌, ◌||◌, ◌∷◌, [], ◌++◌, ℕ, nat_eq, List, OnOk, map, option_map};
ghost use Rattle.std.specs.HashSet.{contains};
ghost use Rattle.gm_image.specs.Program.{Line};
ghost use Rattle.gm_image.specs.Views.{target, line};
ghost use Rattle.gm_image.specs.Items.{direction_of};
ghost use Rattle.gm_image.specs.Parts.{slots_of, is_among};
ghost use Rattle.gm_image.specs.Rows.{Around, left_after, outside, around_next};
ghost use Rattle.gm_image.specs.Folds as F;
ghost use Rattle.gm_image.specs.Folds.{folds_of, puts_of, is_the_one, folds_one_way, puts_one_way, folded_fields};
ghost use Rattle.std.specs.List.{list_all};
ghost use Rattle.gm_verify.specs.Firsts.{list_of, ShowsFirsts};
ghost use Rattle.gm_verify.specs.Scopes.{each_of, ShowsScope, ShowsFolds, ShowsPuts};

use crate::firsts::{Firsts, Reduction};
use gm_image::{Direction, Expr, VertexLine};
use std::alloc::{AllocError, Global};
use std::collections::HashSet;

// Adds the slots of a reduction to a set.
fn add_slots(set: &mut HashSet<u32>, targets: &[(u32, Expr)]) -> Result<(), AllocError>
    ensures { OnOk result ((n : ℕ) → contains nat_eq set.new n ≡ (contains nat_eq set.old n || is_among n (slots_of (map target targets.now)))) }
{
    for target in targets {
        set.insert(target.0)?;
    }
    Ok(())
}

// The reduction of fields that a line is, if any.
fn fold_of<'a>(vertex_line: &'a VertexLine) -> Option<Reduction<'a>>
    ensures { list_of result ≡ folds_of (line vertex_line.now) }
{
    match vertex_line {
        VertexLine::Fold { reduce, slots, .. } => Some(Reduction {
            reduce: *reduce,
            targets: slots.as_slice(),
        }),
        VertexLine::SetField(_, _)
        | VertexLine::SetRegister(_, _)
        | VertexLine::Put { .. }
        | VertexLine::Send { .. }
        | VertexLine::Skip(_, _)
        | VertexLine::EachOut(_)
        | VertexLine::EachIn(_) => None,
    }
}

// The reduction of globals that a line is, if any.
fn put_of<'a>(vertex_line: &'a VertexLine) -> Option<Reduction<'a>>
    ensures { list_of result ≡ puts_of (line vertex_line.now) }
{
    match vertex_line {
        VertexLine::Put { reduce, slots, .. } => Some(Reduction {
            reduce: *reduce,
            targets: slots.as_slice(),
        }),
        VertexLine::SetField(_, _)
        | VertexLine::SetRegister(_, _)
        | VertexLine::Fold { .. }
        | VertexLine::Send { .. }
        | VertexLine::Skip(_, _)
        | VertexLine::EachOut(_)
        | VertexLine::EachIn(_) => None,
    }
}

// Adds the fields that a line folds to a set.
fn add_line(set: &mut HashSet<u32>, vertex_line: &VertexLine) -> Result<(), AllocError>
    ensures { OnOk result ((n : ℕ) → contains nat_eq set.new n ≡ (contains nat_eq set.old n || is_among n (folded_fields (line vertex_line.now ∷ [])))) }
{
    match fold_of(vertex_line) {
        None => Ok(()),
        Some(reduction) => {
            add_slots(set, reduction.targets)?;
            Ok(())
        }
    }
}

// Adds the fields that some lines fold to a set.
pub fn add_folded(set: &mut HashSet<u32>, lines: &[VertexLine]) -> Result<(), AllocError>
    ensures { OnOk result ((n : ℕ) → contains nat_eq set.new n ≡ (contains nat_eq set.old n || is_among n (folded_fields (map line lines.now)))) }
{
    for vertex_line in lines {
        add_line(set, vertex_line)?;
    }
    Ok(())
}

// Whether a reduction, if there is one, is the one by which its slots were reduced first.
fn one_way(firsts: &Firsts, reduction: Option<Reduction>) -> bool
    ensures { (rs : List F.Reduction) → ShowsFirsts firsts.now rs → result ≡ list_all (is_the_one rs) (list_of reduction.entry) }
{
    match reduction {
        None => true,
        Some(some) => firsts.is_the_one(some),
    }
}

// Adds a reduction, if there is one.
fn add_one<'a>(firsts: &mut Firsts<'a>, reduction: Option<Reduction<'a>>) -> Result<(), AllocError>
    ensures { OnOk result ((rs : List F.Reduction) → ShowsFirsts firsts.old rs → ShowsFirsts firsts.new (rs ++ list_of reduction.entry)) }
{
    match reduction {
        None => Ok(()),
        Some(some) => firsts.add(some),
    }
}

// Whether a line folds each field as some lines before it do first.
pub fn folds_one_way(firsts: &Firsts, vertex_line: &VertexLine) -> bool
    ensures { (before : List Line) → ShowsFolds firsts.now before → result ≡ folds_one_way before (line vertex_line.now) }
{
    one_way(firsts, fold_of(vertex_line))
}

// Whether a line puts each global as some lines before it do first.
pub fn puts_one_way(firsts: &Firsts, vertex_line: &VertexLine) -> bool
    ensures { (before : List Line) → ShowsPuts firsts.now before → result ≡ puts_one_way before (line vertex_line.now) }
{
    one_way(firsts, put_of(vertex_line))
}

// Adds a line's reduction of fields, if it is one.
pub fn add_fold<'a>(firsts: &mut Firsts<'a>, vertex_line: &'a VertexLine) -> Result<(), AllocError>
    ensures { OnOk result ((before : List Line) → ShowsFolds firsts.old before → ShowsFolds firsts.new (before ++ line vertex_line.now ∷ [])) }
{
    add_one(firsts, fold_of(vertex_line))?;
    Ok(())
}

// Adds a line's reduction of globals, if it is one.
pub fn add_put<'a>(firsts: &mut Firsts<'a>, vertex_line: &'a VertexLine) -> Result<(), AllocError>
    ensures { OnOk result ((before : List Line) → ShowsPuts firsts.old before → ShowsPuts firsts.new (before ++ line vertex_line.now ∷ [])) }
{
    add_one(firsts, put_of(vertex_line))?;
    Ok(())
}

// How many lines of an each follow a line, where so many of one are left at it.
pub fn left_after(left: u32, vertex_line: &VertexLine) -> u32
    ensures { result ≡ left_after left (line vertex_line.now) }
{
    if left != 0 {
        return left - 1;
    }
    match vertex_line {
        VertexLine::EachOut(n) | VertexLine::EachIn(n) => *n,
        _ => 0,
    }
}

// The edges that an each goes over, where a line is one.
fn each_of(vertex_line: &VertexLine) -> Option<Direction>
    ensures { option_map direction_of result ≡ each_of (line vertex_line.now) }
{
    match vertex_line.each() {
        None => None,
        Some((direction, _)) => Some(direction),
    }
}

// The lines around a line: the each that it stands in and how many lines of it are left, the fields that they
// fold, and the reductions of those before the line.
#[derive(Drop)]
pub struct Scope<'a> {
    pub each: Option<Direction>,
    pub left: u32,
    pub folded: HashSet<u32>,
    pub firsts: Firsts<'a>,
}

impl<'a> Scope<'a> {
    // Around a line that stands in no each.
    pub fn outside(alloc: Global) -> Scope<'a>
        ensures { ShowsScope result outside }
    {
        Scope {
            each: None,
            left: 0,
            folded: HashSet::new(alloc),
            firsts: Firsts::new(alloc),
        }
    }

    // Goes on to the line after one, which more lines follow.
    pub fn advance(
        &mut self,
        alloc: Global,
        vertex_line: &'a VertexLine,
        later: &[VertexLine],
    ) -> Result<(), AllocError>
        ensures { OnOk result ((a : Around) → ShowsScope self.old a → ShowsScope self.new (around_next a (line vertex_line.now) (map line later.now))) }
    {
        let before = self.left;
        self.left = left_after(before, vertex_line);
        if before != 0 && self.left != 0 {
            add_fold(&mut self.firsts, vertex_line)?;
            return Ok(());
        }
        self.each = None;
        self.folded = HashSet::new(alloc);
        self.firsts = Firsts::new(alloc);
        if self.left != 0 {
            self.each = each_of(vertex_line);
            let count = later.len().min(self.left as usize);
            add_folded(&mut self.folded, &later[..count])?;
        }
        Ok(())
    }
}
