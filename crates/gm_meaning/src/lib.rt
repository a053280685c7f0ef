//! The meaning of a checked program on a graph, evaluated.
#![tactic(auto)]

mod evaluations;
mod first_stores;
mod outcomes;
mod phases;
mod searches;
mod statements;

pub use evaluations::{evaluate, work_of};
