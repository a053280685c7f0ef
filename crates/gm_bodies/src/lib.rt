//! Bodies of loops as lines of a vertex.
//!
//! `gm_lowering` says what lines a body has (`Bodies`). Here is the code: a statement's lines by how it reduces (`bodies`), and
//! the settings by which the better one of two tuples is kept at once (`keeps`), of registers at a vertex and of globals in
//! the master list.
#![tactic(auto)]

mod bodies;
mod keeps;

pub use bodies::{Site, add_lines, add_under, is_always, slot_number};
pub use keeps::{Keeper, Setting, Slot, keep};
