//! Accesses, as a walk over a program finds them.

ghost use Rattle.std.specs.Prelude.{◌≡◌};
ghost use Rattle.gm_ast.specs.Loops.{target_variable};

use gm_ast::tree::{Domain, Target};
use gm_base::Place;
use gm_value::Reduce;

// A parallel loop that is around a part: its number, its iterator, and its range.
#[derive(Clone, Copy)]
pub struct Loop {
    pub number: u32,
    pub iterator: u32,
    pub domain: Domain,
}

// What a reduction assignment does: its word, and its targets.
#[derive(Clone, Copy)]
pub struct Reduction<'a> {
    pub reduce: Reduce,
    pub targets: &'a [Target],
}

// How a variable is accessed, with the reduction as it stands in the tree.
#[derive(Clone, Copy)]
pub enum Kind<'a> {
    OwnRead,
    OtherRead,
    LevelRead,
    OwnWrite,
    StrayWrite,
    OwnReduce(Reduction<'a>),
    PushReduce(Reduction<'a>),
    Deferred,
}

// An access that a walk found.
#[derive(Clone, Copy)]
pub struct Found<'a> {
    pub place: Place,
    pub loop_id: u32,
    pub inner_id: u32,
    pub variable: u32,
    pub kind: Kind<'a>,
}

// The place of the first token of an assignment's target.
pub fn target_variable(target: Target) -> u32
    ensures { result ≡ target_variable target }
{
    match target {
        Target::Scalar { variable, .. } => variable,
        Target::Property { property, .. } => property,
    }
}
