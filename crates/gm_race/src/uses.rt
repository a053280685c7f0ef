//! What accesses to one variable in one loop do, summed up.

ghost use Rattle.std.specs.Prelude.{◌≡◌};
ghost use Rattle.gm_ast.specs.Races.{is_own_change, is_push_reduce, is_deferred, is_change, is_own_reduce, is_reduce, is_read, is_own_read, is_other_read, is_own_write, is_stray};
ghost use Rattle.gm_race.specs.Views.{operation_of, kind_of};
ghost use Rattle.gm_race.specs.Uses.{earlier, earliest, reaches, with_reduction, mixes_with, with_reduce, with_push, with_use, with_inner, no_uses, no_inner};

use crate::firsts::{Firsts, same_operation};
use crate::found::{Found, Kind, Reduction};
use gm_base::Place;

// The earlier of two places.
fn earlier(a: Place, b: Place) -> Place
    ensures { result ≡ earlier a b }
{
    if b.comes_before(a) { b } else { a }
}

// The earliest of a place, if there is one, and another.
fn earliest(a: Option<Place>, b: Place) -> Option<Place>
    ensures { result ≡ earliest a b }
{
    match a {
        None => Some(b),
        Some(a) => Some(earlier(a, b)),
    }
}

// Whether there is a place, and it does not stand behind another.
pub fn reaches(place: Option<Place>, at: Place) -> bool
    ensures { result ≡ reaches place at }
{
    match place {
        None => false,
        Some(place) => !at.comes_before(place),
    }
}

// The earliest reduction, and the earliest of those that do something else, with one more.
fn with_reduction<'a>(
    firsts: Option<Firsts<'a>>,
    reduction: Reduction<'a>,
    place: Place,
) -> Option<Firsts<'a>>
    ensures { result ≡ with_reduction firsts.entry reduction.entry place }
{
    match firsts {
        None => Some(Firsts {
            reduction,
            place,
            other: None,
        }),
        Some(firsts) => {
            if same_operation(firsts.reduction, reduction) {
                return Some(Firsts {
                    reduction: firsts.reduction,
                    place: earlier(firsts.place, place),
                    other: firsts.other,
                });
            }
            if place.comes_before(firsts.place) {
                return Some(Firsts {
                    reduction,
                    place,
                    other: Some(firsts.place),
                });
            }
            Some(Firsts {
                reduction: firsts.reduction,
                place: firsts.place,
                other: earliest(firsts.other, place),
            })
        }
    }
}

// Whether a reduction that does not do what this one does stands at a place or before it.
pub fn mixes_with(firsts: Option<Firsts<'_>>, reduction: Reduction<'_>, at: Place) -> bool
    ensures { result ≡ mixes_with firsts.entry (operation_of reduction.entry) at }
{
    match firsts {
        None => false,
        Some(firsts) => {
            if same_operation(firsts.reduction, reduction) {
                return reaches(firsts.other, at);
            }
            !at.comes_before(firsts.place)
        }
    }
}

// The earliest reductions with one more access, if that reduces.
fn with_reduce<'a>(firsts: Option<Firsts<'a>>, kind: Kind<'a>, place: Place) -> Option<Firsts<'a>>
    ensures { result ≡ with_reduce firsts.entry kind.entry place }
{
    match kind {
        Kind::OwnReduce(reduction) => with_reduction(firsts, reduction, place),
        Kind::PushReduce(reduction) => with_reduction(firsts, reduction, place),
        _ => firsts,
    }
}

// The earliest reductions with one more access, if that reduces to other nodes.
fn with_push<'a>(firsts: Option<Firsts<'a>>, kind: Kind<'a>, place: Place) -> Option<Firsts<'a>>
    ensures { result ≡ with_push firsts.entry kind.entry place }
{
    match kind {
        Kind::PushReduce(reduction) => with_reduction(firsts, reduction, place),
        _ => firsts,
    }
}

impl<'a> Kind<'a> {
    // Whether the access reads.
    pub fn is_read(self) -> bool
        ensures { result ≡ is_read (kind_of self.entry) }
    {
        matches!(self, Kind::OwnRead | Kind::OtherRead | Kind::LevelRead)
    }

    // Whether the access reads the variable at the iteration's own node.
    pub fn is_own_read(self) -> bool
        ensures { result ≡ is_own_read (kind_of self.entry) }
    {
        matches!(self, Kind::OwnRead)
    }

    // Whether the access reads the variable at a neighbour.
    pub fn is_other_read(self) -> bool
        ensures { result ≡ is_other_read (kind_of self.entry) }
    {
        matches!(self, Kind::OtherRead)
    }

    // Whether the access writes the variable at the iteration's own node.
    pub fn is_own_write(self) -> bool
        ensures { result ≡ is_own_write (kind_of self.entry) }
    {
        matches!(self, Kind::OwnWrite)
    }

    // Whether the access writes the variable anywhere else.
    pub fn is_stray(self) -> bool
        ensures { result ≡ is_stray (kind_of self.entry) }
    {
        matches!(self, Kind::StrayWrite)
    }

    // Whether the access is a write that ends with the loop.
    pub fn is_deferred(self) -> bool
        ensures { result ≡ is_deferred (kind_of self.entry) }
    {
        matches!(self, Kind::Deferred)
    }

    // Whether the access reduces to the variable at the iteration's own node.
    pub fn is_own_reduce(self) -> bool
        ensures { result ≡ is_own_reduce (kind_of self.entry) }
    {
        matches!(self, Kind::OwnReduce(_))
    }

    // Whether the access reduces to the variable anywhere else.
    pub fn is_push_reduce(self) -> bool
        ensures { result ≡ is_push_reduce (kind_of self.entry) }
    {
        matches!(self, Kind::PushReduce(_))
    }

    // Whether the access reduces.
    pub fn is_reduce(self) -> bool
        ensures { result ≡ is_reduce (kind_of self.entry) }
    {
        matches!(self, Kind::OwnReduce(_) | Kind::PushReduce(_))
    }

    // Whether the access changes the variable when its iteration or inner loop ends, or before.
    pub fn is_own_change(self) -> bool
        ensures { result ≡ is_own_change (kind_of self.entry) }
    {
        matches!(self, Kind::OwnWrite | Kind::OwnReduce(_))
    }

    // Whether the access changes the variable before the writes that end with the loop.
    pub fn is_change(self) -> bool
        ensures { result ≡ is_change (kind_of self.entry) }
    {
        matches!(
            self,
            Kind::OwnWrite | Kind::OwnReduce(_) | Kind::PushReduce(_)
        )
    }
}

// What the accesses to a variable in a loop do: whether one changes it at the iteration's own node, and whether one
// reduces to it elsewhere; the earliest deferred write, and the earliest other change; the earliest reductions, and
// those to other nodes alone.
#[derive(Clone, Copy)]
pub struct Uses<'a> {
    pub changed: bool,
    pub pushed: bool,
    pub deferred: Option<Place>,
    pub change: Option<Place>,
    pub reductions: Option<Firsts<'a>>,
    pub pushes: Option<Firsts<'a>>,
}

impl<'a> Uses<'a> {
    // No access.
    pub fn none() -> Self
        ensures { result ≡ no_uses }
    {
        Uses {
            changed: false,
            pushed: false,
            deferred: None,
            change: None,
            reductions: None,
            pushes: None,
        }
    }

    // The same with one more access.
    pub fn with(self, found: Found<'a>) -> Self
        ensures { result ≡ with_use self.entry found.entry }
    {
        let kind = found.kind;
        let place = found.place;
        Uses {
            changed: self.changed || kind.is_own_change(),
            pushed: self.pushed || kind.is_push_reduce(),
            deferred: if kind.is_deferred() {
                earliest(self.deferred, place)
            } else {
                self.deferred
            },
            change: if kind.is_change() {
                earliest(self.change, place)
            } else {
                self.change
            },
            reductions: with_reduce(self.reductions, kind, place),
            pushes: with_push(self.pushes, kind, place),
        }
    }
}

// What the accesses to a variable within one inner loop do: whether one reduces to the variable at the outer
// iteration's own node, and the earliest reductions.
#[derive(Clone, Copy)]
pub struct InnerUses<'a> {
    pub reduced: bool,
    pub reductions: Option<Firsts<'a>>,
}

impl<'a> InnerUses<'a> {
    // No access.
    pub fn none() -> Self
        ensures { result ≡ no_inner }
    {
        InnerUses {
            reduced: false,
            reductions: None,
        }
    }

    // The same with one more access.
    pub fn with(self, found: Found<'a>) -> Self
        ensures { result ≡ with_inner self.entry found.entry }
    {
        InnerUses {
            reduced: self.reduced || found.kind.is_own_reduce(),
            reductions: with_reduce(self.reductions, found.kind, found.place),
        }
    }
}
