//! What the program of an accepted text has once its loops are parted, as contracts of calls that do nothing: its table of
//! declarations and its names are in order, its inputs and outputs are those of the program, and what fits the program fits it.
#![tactic(auto)]

pub mod laws;
