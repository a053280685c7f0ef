//! Reductions and reads of the sequential phase as loops over all nodes.
//!
//! What the first passes of the compiler leave of a sequential phase, where each read through a node variable, each
//! degree and each reduction stands alone as the value of a scalar, becomes loops, in the order of work:
//!
//! 1. `accesses_out`: a read through a node variable becomes a check and a reduction over all nodes, of which one
//!    passes, and a write a check and a loop. The iterator of a For around holds a node, and is not checked.
//! 2. `folds_out`: a reduction becomes a loop onto the scalar that takes its total.
//!
//! After both, a sequential phase without picks computes with scalars alone outside of its loops (`laws`).
//!
//! A pass is a function on trees in `specs/`, the code that gives what this function gives, and a law: the result
//! means the same, keeps what every pass keeps (`IsSane`), and has the next form. Trees are rebuilt by value, in time
//! and memory linear in them.
#![tactic(auto)]

pub mod accesses;
pub mod folds;
pub mod laws;
