//! What the program of a text has for its loops to be prepared, once it is written with plain loops and its searches as
//! loops over levels.
#![tactic(auto)]

mod laws;

pub use laws::{
    typed_programs_check_nothing, typed_programs_keep_iterators_apart,
    typed_programs_keep_tuples_even, typed_programs_may_be_prepared,
};
