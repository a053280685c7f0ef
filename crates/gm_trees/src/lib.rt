//! Trees of programs as the passes of the compiler change them: statements and expressions that take the place of others,
//! stand before or behind them, or are written twice, and variables among others.
//!
//! A pass changes a tree in place, by exchanging parts of it. Where memory runs out on the way, what was made so far is
//! dropped here, so that a pass has no tree left to drop.
#![tactic(auto)]

pub mod copies;
pub mod places;
pub mod variables;
