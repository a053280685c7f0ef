//! The accesses of a program, listed.

ghost use Rattle.std.specs.Prelude.{◌≡◌, map, IfOk};
ghost use Rattle.gm_ast.specs.Accesses.{accesses};
ghost use Rattle.gm_ast.specs.Tree.{program_of};
ghost use Rattle.gm_race.specs.Listing.{rank_of, key_of, IsListingOf};
ghost use Rattle.gm_race.specs.Views.{access_of, kind_of, operation_of};

use crate::found::{Found, Kind, Reduction, target_variable};
use crate::judging::found_in;
use gm_ast::accesses::{Access, AccessKind, Operation};
use gm_ast::forms::Typed;
use gm_base::{Items, Place};
use std::alloc::{AllocError, Global};

// What the order of accesses goes by: the place, and at one place the kind.
#[derive(Clone, Copy, PartialEq, Eq, PartialOrd, Ord)]
pub struct ListingKey {
    pub place: Place,
    pub rank: u8,
}

// A kind's number in the order of kinds.
fn rank_of(kind: Kind<'_>) -> u8
    ensures { result ≡ rank_of (kind_of kind.entry) }
{
    match kind {
        Kind::OwnRead => 0,
        Kind::OtherRead => 1,
        Kind::LevelRead => 2,
        Kind::OwnWrite => 3,
        Kind::StrayWrite => 4,
        Kind::OwnReduce(_) => 5,
        Kind::PushReduce(_) => 6,
        Kind::Deferred => 7,
    }
}

// What the order of an access goes by.
fn key_of(found: &Found<'_>) -> ListingKey
    ensures { result ≡ key_of found.now }
{
    ListingKey {
        place: found.place,
        rank: rank_of(found.kind),
    }
}

// What a reduction does, with a list of its own.
fn operation_of(alloc: Global, reduction: Reduction<'_>) -> Result<Operation, AllocError>
    ensures { IfOk result (λ op. op ≡ operation_of reduction.entry) }
{
    let mut targets = Vec::new(alloc);
    for target in reduction.targets {
        targets.push(target_variable(*target))?;
    }
    Ok(Operation {
        reduce: reduction.reduce,
        targets: Items::new(targets),
    })
}

// How a variable is accessed, with an operation of its own.
fn access_kind(alloc: Global, kind: Kind<'_>) -> Result<AccessKind, AllocError>
    ensures { IfOk result (λ k. k ≡ kind_of kind.entry) }
{
    match kind {
        Kind::OwnRead => Ok(AccessKind::OwnRead),
        Kind::OtherRead => Ok(AccessKind::OtherRead),
        Kind::LevelRead => Ok(AccessKind::LevelRead),
        Kind::OwnWrite => Ok(AccessKind::OwnWrite),
        Kind::StrayWrite => Ok(AccessKind::StrayWrite),
        Kind::OwnReduce(reduction) => {
            let operation = operation_of(alloc, reduction)?;
            Ok(AccessKind::OwnReduce(operation))
        }
        Kind::PushReduce(reduction) => {
            let operation = operation_of(alloc, reduction)?;
            Ok(AccessKind::PushReduce(operation))
        }
        Kind::Deferred => Ok(AccessKind::Deferred),
    }
}

// Accesses that borrow nothing.
pub fn accesses_of(alloc: Global, found: &[Found<'_>]) -> Result<Vec<Access>, AllocError>
    ensures { IfOk result (λ listed. listed.items ≡ map access_of found.now) }
{
    let mut listed = Vec::new(alloc);
    for one in found {
        let kind = access_kind(alloc, one.kind)?;
        listed.push(Access {
            place: one.place,
            loop_id: one.loop_id,
            inner_id: one.inner_id,
            variable: one.variable,
            kind,
        })?;
    }
    Ok(listed)
}

/// The accesses of a program: how each of its parallel loops uses each variable.
///
/// They are listed by place, and at one place by kind in the order of `AccessKind`. Those of one place and one kind
/// stand in the order in which the rules of races go over the program. `AllocError` may come of any program.
pub fn accesses(alloc: Global, program: &Typed) -> Result<Vec<Access>, AllocError>
    ensures { IfOk result (λ listed. IsListingOf (accesses (program_of program.now)) listed.items) }
{
    let mut found = found_in(alloc, program.tree())?;
    found.sort_by_key(|access| key_of(access))?;
    let listed = accesses_of(alloc, &found)?;
    Ok(listed)
}
