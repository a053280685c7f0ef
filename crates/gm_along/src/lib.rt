//! Programs of accepted texts read no edge against the way of a message, and each slice of their inner loops goes one way.
#![tactic(auto)]

mod laws;

pub use laws::{
    canonical_programs_go_one_way, canonical_programs_read_along, levels_read_along,
    plain_loops_read_along, typed_programs_are_scoped,
};
