//! Laws of parallel loops that stand alone, which passes rest on.
#![tactic(auto)]

pub mod laws;
