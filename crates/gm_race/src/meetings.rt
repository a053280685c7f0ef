//! What accesses that meet do, by the variable and the loop.

use crate::uses::{InnerUses, Uses};
use indexmap::IndexMap;

// A variable in a loop.
#[derive(Clone, Copy, PartialEq, Eq, Hash)]
pub struct Site {
    pub variable: u32,
    pub loop_id: u32,
}

// A variable in a loop, within one of its inner loops.
#[derive(Clone, Copy, PartialEq, Eq, Hash)]
pub struct InnerSite {
    pub variable: u32,
    pub loop_id: u32,
    pub inner_id: u32,
}

// What accesses do, summed up for each variable in each loop, and in each inner loop.
#[derive(Drop)]
pub struct Meetings<'a> {
    pub loops: IndexMap<Site, Uses<'a>>,
    pub inner: IndexMap<InnerSite, InnerUses<'a>>,
}
