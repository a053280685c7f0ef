//! That the passes keep a program's table of declarations in order, as contracts of calls that do nothing.
#![tactic(auto)]

pub mod laws;
