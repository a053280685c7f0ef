//! How deep expressions become in the passes of the compiler, up to pieces of loops, their slices, and no loops that pull.
#![tactic(auto)]

mod laws;

pub use laws::{
    cutting_adds_few_levels, dissecting_adds_few_levels, passes_add_few_levels, passes_nest_little,
    prepared_programs_nest_one_more, texts_stay_shallow, texts_stay_shallow_dissected,
    texts_stay_shallow_in_pieces,
};
