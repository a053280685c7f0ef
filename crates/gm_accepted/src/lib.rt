//! What the passes of the compiler may rest on in an accepted program.
#![tactic(auto)]

mod laws;
mod programs;

pub use laws::accepted_programs_are_ready;
pub use programs::accepted_program;
