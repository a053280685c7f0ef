//! What the passes of the compiler may rest on in a program that breaks no rule of types, and in one that breaks no rule at all.
#![tactic(auto)]

mod laws;

pub use laws::{
    canonical_programs_are_checked, canonical_programs_are_race_free, checked_programs_are_ready,
    typed_programs_are_named, typed_programs_have_types, typed_programs_number_reductions,
    typed_programs_reduce_alike,
};
