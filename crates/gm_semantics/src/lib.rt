//! What a program means: definitions alone, with the small types that they share with the code that computes it.
#![tactic(auto)]

pub mod faults;
pub mod laws;
pub mod slots;
