//! The centre of the compiler: bodies of parallel loops are cut into loops with one way each. A program without searches
//! (`Ready2`) comes in; each pass keeps what it means for every graph, all arguments and every bound.
//!
//! What stands:
//!
//! 1. `deferred_to_out`: deferred writes to a property become writes at once to a copy of it.
//! 2. `deferred_out`: so do all deferred writes of a program, property by property.
//! 3. `save_conditions`: conditions of what is cut from the rest of a body are saved in locals.
//!
//! A pass is a function on trees in `specs/`, the code that gives what this function gives, and a law: the result means
//! the same, keeps what every pass keeps (`IsSane`), and has its form. Passes add the variables that they need behind
//! those of the program.
#![tactic(auto)]

pub mod all_deferred;
pub mod conditions;
pub mod deferred;
pub mod laws;
