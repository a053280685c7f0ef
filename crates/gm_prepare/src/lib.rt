//! What is done to a program before the bodies of its loops go to pieces.
//!
//! `prepare` runs the passes one after another, each on what the one before it gives: iterators are placed by what
//! they iterate, bodies declare the locals that they name, deferred writes go to copies, then filters to a property and conditions to locals, then bodies read nodes first,
//! and their locals go to properties together. The passes of `gm_dissect` and `gm_locals` are code there; those that `gm_parting` defines are code here:
//!
//! 1. `place_iterators`: iterators stand in the table by what they iterate.
//! 2. `declare_locals`: bodies of loops that are cut declare the locals that they name.
//! 3. `save_filters`: filters that would not hold the same at each piece are saved in a property.
//! 4. `save_conditions_apart`: conditions are saved in locals, again under new numbers where an If has the number of one
//!    within it.
//! 5. `read_nodes`: nodes through which a loop that is cut reduces are read into locals of their own.
#![tactic(auto)]

pub mod declared;
pub mod filters;
pub mod iterators;
mod lasts;
pub mod nodes;
pub mod numbers;
pub mod prepare;
pub mod tuples;
