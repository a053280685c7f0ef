//! The rules of one vertex line.

ghost use Rattle.std.specs.Prelude.{◌≡◌, ℕ, nat_eq, List, IfOk, map, slice_get};
ghost use Rattle.std.specs.HashSet.{contains};
ghost use Rattle.gm_image.specs.Program.{Line};
ghost use Rattle.gm_image.specs.Views.{program, line};
ghost use Rattle.gm_image.specs.Parts.{is_among};
ghost use Rattle.gm_image.specs.Rows.{Site, LineRow};
ghost use Rattle.gm_image.specs.Spans.{skips_whole, line_stays};
ghost use Rattle.gm_image.specs.Folds.{line_folds, may_stand, reads_none, sets_none};
ghost use Rattle.gm_image.specs.Soundness.{broken_rule};
ghost use Rattle.gm_verify.specs.Scopes.{ShowsScope, ShowsPuts};
ghost use Rattle.gm_verify.specs.Sites.{ShowsSite, ShowsInsides, ShowsLater};

use crate::firsts::Firsts;
use crate::fits::line_fits;
use crate::leaves::{Test, line_holds};
use crate::ranges::line_keeps_range;
use crate::scopes::{Scope, folds_one_way, left_after, puts_one_way};
use gm_image::{Image, ImageRule, VertexLine};
use std::alloc::{AllocError, Global};
use std::collections::HashSet;

// Which lines of a list stand in an each, and whether its end does.
pub fn insides(alloc: Global, lines: &[VertexLine]) -> Result<Vec<bool>, AllocError>
    ensures { IfOk result (λ v. ShowsInsides v.items (map line lines.now)) }
{
    let mut insides = Vec::new(alloc);
    let mut left = 0;
    for vertex_line in lines {
        insides.push(left != 0)?;
        left = left_after(left, vertex_line);
    }
    insides.push(left != 0)?;
    Ok(insides)
}

// Where a line stands: the kind of its handler, none in a body; and for each line after it in its list, and for the
// list's end, whether it stands in an each.
#[derive(Clone, Copy)]
pub struct Spot<'a> {
    pub kind: Option<u32>,
    pub insides: &'a [bool],
}

// Whether a later line stands in an each, where there is one or the end.
fn inside_at(insides: &[bool], count: usize) -> Option<bool>
    ensures { result ≡ slice_get insides.now count }
{
    insides.get(count).copied()
}

// Whether a skip outside eaches ends within the list and in no each.
fn skips_whole(insides: &[bool], count: usize) -> bool
    ensures { (later : List Line) → ShowsLater insides.now later → result ≡ skips_whole count later }
{
    match inside_at(insides, count) {
        None => false,
        Some(inside) => !inside,
    }
}

// Whether a line stays within its list.
fn line_stays(spot: Spot, left: u32, vertex_line: &VertexLine) -> bool
    ensures { (s : Site) → ShowsSite spot.entry s (line vertex_line.now) → s.around.left ≡ left → result ≡ line_stays s (line vertex_line.now) }
{
    match vertex_line {
        VertexLine::Skip(n, _) => {
            if left == 0 {
                skips_whole(spot.insides, *n as usize)
            } else {
                *n < left
            }
        }
        VertexLine::EachOut(n) | VertexLine::EachIn(n) => {
            left == 0 && spot.kind.is_none() && (*n as usize) < spot.insides.len()
        }
        VertexLine::SetField(_, _)
        | VertexLine::SetRegister(_, _)
        | VertexLine::Fold { .. }
        | VertexLine::Put { .. }
        | VertexLine::Send { .. } => true,
    }
}

// Whether a line may stand in a handler of a kind, or in none.
fn may_stand(kind: Option<u32>, vertex_line: &VertexLine) -> bool
    ensures { result ≡ may_stand kind (line vertex_line.now) }
{
    kind.is_none() || !matches!(vertex_line, VertexLine::SetField(_, _))
}

// Whether a line sets none of some fields.
fn sets_none(fields: &HashSet<u32>, vertex_line: &VertexLine) -> bool
    ensures { (fs : List ℕ) → ((n : ℕ) → contains nat_eq fields.now n ≡ is_among n fs) → result ≡ sets_none fs (line vertex_line.now) }
{
    match vertex_line {
        VertexLine::SetField(f, _) => !fields.contains(f),
        _ => true,
    }
}

// Whether a line reads none of some fields.
fn reads_none(fields: &HashSet<u32>, vertex_line: &VertexLine) -> bool
    ensures { (fs : List ℕ) → ((n : ℕ) → contains nat_eq fields.now n ≡ is_among n fs) → result ≡ reads_none fs (line vertex_line.now) }
{
    line_holds(Test::NoneOf { fields }, vertex_line)
}

// Whether a line keeps the rule of folds.
fn line_folds(kind: Option<u32>, scope: &Scope, vertex_line: &VertexLine) -> bool
    ensures { (s : Site) → s.kind ≡ kind → ShowsScope scope.now s.around → result ≡ line_folds s (line vertex_line.now) }
{
    may_stand(kind, vertex_line)
        && folds_one_way(&scope.firsts, vertex_line)
        && reads_none(&scope.folded, vertex_line)
        && sets_none(&scope.folded, vertex_line)
}

// The least rule that a line breaks.
pub fn line_rule(
    alloc: Global,
    image: &Image,
    spot: Spot,
    scope: &Scope,
    puts: &Firsts,
    vertex_line: &VertexLine,
) -> Result<Option<ImageRule>, AllocError>
    ensures { IfOk result (λ rule. (s : Site) → ShowsSite spot.entry s (line vertex_line.now) → ShowsScope scope.now s.around → ShowsPuts puts.now s.earlier
        → rule ≡ broken_rule (program image.now) (LineRow s (line vertex_line.now))) }
{
    let kind = spot.kind;
    if !line_keeps_range(image, kind, vertex_line) {
        return Ok(Some(ImageRule::I1));
    }
    let fits = line_fits(alloc, image, kind, vertex_line)?;
    if !fits {
        return Ok(Some(ImageRule::I2));
    }
    if !line_stays(spot, scope.left, vertex_line) {
        return Ok(Some(ImageRule::I6));
    }
    let at_vertex = Test::AtVertex {
        kind,
        each: scope.each,
    };
    if !line_holds(at_vertex, vertex_line) {
        return Ok(Some(ImageRule::I7));
    }
    if !line_folds(kind, scope, vertex_line) {
        return Ok(Some(ImageRule::I8));
    }
    if !puts_one_way(puts, vertex_line) {
        return Ok(Some(ImageRule::I9));
    }
    Ok(None)
}
