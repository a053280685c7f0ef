//! Runs of checked programs by what their texts mean: what a program asks of its graph and of its arguments, how it ends
//! over the text of a graph, and what is written of that.
#![tactic(auto)]

mod answers;
mod laws;
mod programs;
mod walks;

pub use answers::{Evaluated, answer_for, evaluate_text, run_text};
pub use laws::rows_are_worked;
pub use programs::{inputs_of, names_of, output_declarations, shape_of};
