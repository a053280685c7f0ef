//! How parallel loops use variables, as the rules of races speak of it.

use gm_base::{Items, Place};
use gm_value::Reduce;

/// What a reduction assignment does: its word, and the variables that it reduces to, in their order. Two
/// reductions are one operation where these are equal.
#[derive(Drop)]
pub struct Operation {
    pub reduce: Reduce,
    pub targets: Items<u32>,
}

/// How a variable is accessed in a parallel loop. Own is what goes through the iterator of the outermost loop.
#[derive(Drop)]
pub enum AccessKind {
    /// A read through the outer iterator, or of a scalar.
    OwnRead,
    /// A read through an inner iterator over Nbrs, OutNbrs or InNbrs.
    OtherRead,
    /// A read through an inner iterator over UpNbrs or DownNbrs.
    LevelRead,
    /// A plain write through the outer iterator.
    OwnWrite,
    /// A plain write of a scalar, or a plain or deferred write through anything but the outer iterator.
    StrayWrite,
    /// A reduction in an inner loop to the outer iterator's property.
    OwnReduce(Operation),
    /// A reduction to a scalar, or through anything but the outer iterator.
    PushReduce(Operation),
    /// A write that ends with the loop.
    Deferred,
}

/// An access to a variable: the place of its first token; the number of the loop in which it counts, from 1 in the
/// order of the text; the number of the loop directly within the outermost that is around it, 0 where there is none;
/// the variable, and how it is accessed.
#[derive(Drop)]
pub struct Access {
    pub place: Place,
    pub loop_id: u32,
    pub inner_id: u32,
    pub variable: u32,
    pub kind: AccessKind,
}
