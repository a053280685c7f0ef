//! What a reduction assignment to one target gives.

use gm_ast::tree::TotalKey;
use gm_semantics::slots::Slot;
use gm_value::{Reduce, Value};

/// What a reduction assignment gives to its one slot when a loop ends, with the key of the total to which it belongs.
#[derive(Clone, Copy, PartialEq, Eq, Debug)]
pub struct Contribution {
    pub total: TotalKey,
    pub reduce: Reduce,
    pub slot: Slot,
    pub value: Value,
}
