//! What a statement writes.

use gm_value::Value;

/// What one write reaches: a scalar, by its variable, or a property, by its variable, at a node, by its index.
#[derive(Clone, Copy, PartialEq, Eq, Debug, Hash)]
pub enum Slot {
    Scalar(u32),
    Node { property: u32, node: u32 },
}

/// A value for a slot.
#[derive(Clone, Copy, PartialEq, Eq, Debug)]
pub struct Write {
    pub slot: Slot,
    pub value: Value,
}
