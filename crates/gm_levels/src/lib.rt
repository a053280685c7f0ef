//! The levels of a breadth-first search.
#![tactic(auto)]

mod groups;
mod laws;
mod levels;
mod searches;

pub use laws::levels_are_least_walks;
pub use levels::{Levels, levels_from};
