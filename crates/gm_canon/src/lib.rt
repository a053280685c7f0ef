//! Canonical form: whether a program without races can be run as a vertex program; and the verdict on a whole text.
#![tactic(auto)]

mod expressions;
mod loops;
mod programs;
mod statements;
mod verdicts;
mod walks;
mod ways;

pub use programs::canonical;
pub use verdicts::{verdict, verdict_tree};
