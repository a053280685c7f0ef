//! The text that a run prints, and the status with which it ends the program.
#![tactic(auto)]

mod fields;
mod listings;
mod outputs;
mod scalars;
mod tables;

pub use listings::{listing, status_of};
pub use outputs::{Ending, Outputs};
