//! The least race of a program.

ghost use Rattle.std.specs.Prelude.{◌≡◌, [], map, IfOk, OnOk, IfErr};
ghost use Rattle.gm_base.specs.Rules.{least, least_from};
ghost use Rattle.gm_ast.specs.Accesses.{accesses};
ghost use Rattle.gm_ast.specs.Loops.{broken_if};
ghost use Rattle.gm_ast.specs.Races.{races, races_among};
ghost use Rattle.gm_ast.specs.Tree.{program_of};
ghost use Rattle.gm_race.specs.Views.{access_of};
ghost use Rattle.gm_race.specs.Judging.{touches_reduced, mixes_reductions, mixes_deferred, judged, IsStopOf};
ghost use Rattle.gm_race.specs.Meetings.{SumsUp};

use crate::found::{Found, Kind};
use crate::meetings::{InnerSite, Meetings, Site};
use crate::sums::{inner_at, meetings_of, uses_at};
use crate::uses::{InnerUses, Uses, mixes_with, reaches};
use crate::walks::{Walker, declared, is_property};
use gm_ast::forms::Typed;
use gm_ast::tree::{Declaration, Tree};
use gm_base::{Place, Refusal, Rule, Stop};
use std::alloc::{AllocError, Global};

// Notes that a rule is broken at a place, where a test holds.
fn note_if(least: &mut Option<Refusal>, broken: bool, rule: Rule, place: Place)
    ensures { least.new ≡ least_from least.old (broken_if broken rule place) }
{
    if broken {
        Refusal { rule, place }.note(least);
    }
}

// Whether an access reads or writes what is reduced to.
fn touches_reduced(uses: Uses<'_>, inner: InnerUses<'_>, kind: Kind<'_>) -> bool
    ensures { result ≡ touches_reduced uses.entry inner.entry kind.entry }
{
    ((kind.is_read() || kind.is_own_write()) && uses.pushed)
        || (kind.is_own_read() && inner.reduced)
}

// Whether a reduction stands behind one that does something else.
fn mixes_reductions(uses: Uses<'_>, inner: InnerUses<'_>, kind: Kind<'_>, place: Place) -> bool
    ensures { result ≡ mixes_reductions uses.entry inner.entry kind.entry place }
{
    match kind {
        Kind::OwnReduce(reduction) => {
            mixes_with(uses.pushes, reduction, place)
                || mixes_with(inner.reductions, reduction, place)
        }
        Kind::PushReduce(reduction) => mixes_with(uses.reductions, reduction, place),
        _ => false,
    }
}

// Whether a deferred write stands behind another change, or the other way round.
fn mixes_deferred(uses: Uses<'_>, kind: Kind<'_>, place: Place) -> bool
    ensures { result ≡ mixes_deferred uses.entry kind.entry place }
{
    (kind.is_change() && reaches(uses.deferred, place))
        || (kind.is_deferred() && reaches(uses.change, place))
}

// Notes what an access breaks, by what the accesses that meet it do.
fn note_races(
    least: &mut Option<Refusal>,
    property: bool,
    uses: Uses<'_>,
    inner: InnerUses<'_>,
    found: Found<'_>,
)
    ensures { least.new ≡ least_from least.old (judged property uses.entry inner.entry found.entry) }
{
    let kind = found.kind;
    let place = found.place;
    note_if(least, kind.is_other_read() && uses.changed, Rule::R1, place);
    note_if(least, touches_reduced(uses, inner, kind), Rule::R2, place);
    note_if(
        least,
        mixes_reductions(uses, inner, kind, place),
        Rule::R3,
        place,
    );
    note_if(least, kind.is_stray() && property, Rule::R4, place);
    note_if(least, kind.is_stray() && !property, Rule::R5, place);
    note_if(least, mixes_deferred(uses, kind, place), Rule::R6, place);
}

// The least race among some accesses, by their sums.
pub fn least_race(
    declarations: &[Declaration],
    found: &[Found<'_>],
    meetings: &Meetings<'_>,
) -> Option<Refusal>
    requires { SumsUp meetings.now found.now }
    ensures { result ≡ least (races_among declarations.now (map access_of found.now)) }
{
    let mut least = None;
    for access in found {
        let property = is_property(declared(declarations, access.variable));
        let site = Site {
            variable: access.variable,
            loop_id: access.loop_id,
        };
        let inner_site = InnerSite {
            variable: access.variable,
            loop_id: access.loop_id,
            inner_id: access.inner_id,
        };
        let uses = uses_at(&meetings.loops, site);
        let inner = inner_at(&meetings.inner, inner_site);
        note_races(&mut least, property, uses, inner, *access);
    }
    least
}

// The accesses of a tree.
pub fn found_in<'a>(alloc: Global, tree: &'a Tree) -> Result<Vec<Found<'a>>, AllocError>
    ensures { IfOk result (λ found. map access_of found.items ≡ accesses (program_of tree.now)) }
{
    let mut walker = Walker::new(alloc, &tree.declarations);
    walker.statement(&tree.body)?;
    Ok(walker.found)
}

/// Judges the races of a program: how its parallel loops read, write and reduce to its variables.
///
/// Refused is the least place at which a rule of races (R1 to R6) is broken, and at one place the rule that comes
/// first. `NoMemory` may come of any program.
pub fn races(alloc: Global, program: &Typed) -> Result<(), Stop>
    ensures accepted { OnOk result (races (program_of program.now) ≡ []) }
    ensures refused { IfErr result (IsStopOf (program_of program.now)) }
{
    let tree = program.tree();
    let found = found_in(alloc, tree)?;
    let meetings = meetings_of(alloc, &found)?;
    if let Some(refusal) = least_race(&tree.declarations, &found, &meetings) {
        return Err(Stop::Refused(refusal));
    }
    Ok(())
}
