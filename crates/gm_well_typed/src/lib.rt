//! That the runs of a program which breaks no rule of types keep the types of its values.
#![tactic(auto)]

mod laws;

pub use laws::typed_programs_are_well_typed;
