//! Races: how the parallel loops of a program use its variables, and the least rule of races that is broken.
#![tactic(auto)]

mod expressions;
mod firsts;
mod found;
mod judging;
mod listing;
mod meetings;
mod statements;
mod sums;
mod uses;
mod walks;

pub use judging::races;
pub use listing::accesses;
