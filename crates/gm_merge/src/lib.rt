//! Supersteps joined wherever two consecutive ones may be one, until there are no such two left.
//!
//! A sound image goes in, and a sound image comes out whose runs end alike, in no more supersteps and messages. One pass
//! over the master list joins each step with the one below it, where that is a step too and a test of their blocks holds
//! (`joining`); beside the block that was joined last stands what the test asks of it (`joinable`), so each line is read
//! once. Then the blocks that no step runs any more are dropped (`trimming`). The definition is `specs/Merged.antt`, and
//! what holds of it are the laws (`laws`). Time is near linear in the image and its result.
#![tactic(auto)]

mod bounds;
mod copies;
mod counts;
mod images;
mod joinable;
mod joining;
pub mod laws;
mod numbers;
mod puts;
mod registers;
mod tests;
mod trimming;

pub use images::{merge, trim};
pub use joinable::Earlier;
