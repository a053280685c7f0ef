//! What a run is about, as contracts see it: a graph with its columns, and the outcome of a run over one.
#![tactic(auto)]

mod outcomes;

pub use outcomes::{Outcome, RunEnd};
