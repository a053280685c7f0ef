//! That the master list of a lowered program follows the program statement by statement, as contracts of calls that do
//! nothing. What a parallel loop does in its supersteps is a premise of each law.
#![tactic(auto)]

pub mod laws;
