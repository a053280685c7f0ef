//! That the images of programs in the last form of the passes are sound, rule by rule, as contracts of calls that do
//! nothing.
#![tactic(auto)]

pub mod laws;
