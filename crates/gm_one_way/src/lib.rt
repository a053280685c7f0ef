//! Inner loops whose reductions read no edge against the way of a message: they go to slices that go one way each.
#![tactic(auto)]

mod laws;

pub use laws::{
    kept_locals_read_along, nodes_read_along, passes_around_inner_loops_read_along,
    pieces_read_along, prepared_programs_read_along, statements_apart_go,
    statements_apart_read_along, statements_go,
};
