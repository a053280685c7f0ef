//! Whether programs in the last form of the passes suit images: the code of the tests that `gm_plain_loops` leaves to ask.
//!
//! Expressions are asked which variables they name (`names`), reductions where they go and what comes before their totals
//! (`reductions`), and loops of own statements what stands behind what they send (`sends`). `tells_phases` and `suits_loops`
//! go over the tree once (`phases`).
#![tactic(auto)]

mod names;
mod phases;
mod reductions;
mod sends;

pub use phases::{suits_loops, tells_phases};
