//! What comes between a checked program and the listing of its image's run: its image, its graph, its arguments and its run.
#![tactic(auto)]

mod compiling;
mod interfaces;

pub use compiling::{Compiled, compile_program, evaluate_compiled, run_compiled, show_compiled};
pub use interfaces::Interface;
