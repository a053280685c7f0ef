//! What words and graphs give to the program of a text fits it, as contracts of calls that do nothing.
#![tactic(auto)]

pub mod laws;
