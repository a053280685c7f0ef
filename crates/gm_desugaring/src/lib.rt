//! The first passes of the compiler together: a sequential phase that computes with scalars alone.
//!
//! `desugar_phases` runs the passes of `gm_desugar`, `gm_picks` and `gm_reductions` in their order, each on what the one
//! before it gives. Its contract rests on theirs: the program means the same for every graph, all arguments and every
//! bound, is as ready for the passes as it was, and nothing that the passes write in simpler terms is left. What is left of
//! picks, reductions by Min or Max that are done at once, is onto scalars, of what scalars and counts tell.
//!
//! The passes of picks, accesses and reductions ask for more than a form: the keys of each reduction of the sequential
//! phase rise, and the program tells values alone. The passes before keep that, and a program that breaks no rule of
//! types has rising keys (`laws`).
//!
//! `desugar` goes on with the reductions in parallel loops and searches, which `gm_hoisting` writes as inner loops. It asks
//! that the total of each reduction stands in order, also in what the passes before make loops of; the program of a text
//! has that (`gm_order`), and the passes before keep it (`laws`).
#![tactic(auto)]

pub mod desugar;
pub mod laws;
pub mod phases;
