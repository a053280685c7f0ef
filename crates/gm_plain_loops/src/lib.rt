//! That the loops of programs in the last form of the passes are plain, as contracts of calls that do nothing.
#![tactic(auto)]

pub mod laws;
