//! Parallel loops as blocks of an image.
//!
//! `gm_lowering` says what blocks and places a loop over all nodes has (`Blocks`). Here is the code: what a body does first with
//! a local (`firsts`), what the receivers of reductions do (`takings`), and the loop itself (`blocks`).
#![tactic(auto)]

mod blocks;
mod firsts;
mod takings;

pub use blocks::{LoopBlocks, lower_loop};
