//! The sequential phase of a program as the master list of its image.
//!
//! `gm_lowering` says what part of an image a statement has (`Lowered`): lines of the master list, blocks, and places of what
//! may fault. Here is the code: a part is made with the line, the block, the kind and the place at which it begins, and parts
//! are put one behind the other (`parts`); single statements are a few commands (`commands`); a parallel loop is its blocks,
//! with a step for each, and loops and conditions of the phase (`phases`) stand around the parts of their bodies (`turns`).
#![tactic(auto)]

mod commands;
mod parts;
mod phases;
mod turns;

pub use parts::{At, Frame, Part};
pub use phases::lower_phase;
