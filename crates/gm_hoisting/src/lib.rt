//! Reductions of parallel bodies as inner loops.
//!
//! In the body of a loop over nodes, `x = 1 + Sum(t: n.Nbrs)(f){e};` is
//! `Int s = 0; Foreach (t: n.Nbrs)(f) { s += e; } x = 1 + s;`, where s is a fresh local: from left to right each
//! reduction of a statement is taken before the statement, in the order in which its faults come. What stands in the
//! filter of a loop or of a search goes into its body, which an If then guards.
//!
//! 1. `locals`: a local for each reduction is added to the table, from left to right.
//! 2. `hoisting`: each parallel loop and search of the sequential phase is written anew: `statements` of its body, in
//!    these `expressions`, in these `folds`, the key of whose `totals` may change.
//!
//! The result is the one of the function on trees in `specs/`, means the same and is as ready (`laws`). Trees are
//! changed in place, in time and memory linear in them.
#![tactic(auto)]

mod expressions;
mod folds;
pub mod hoisting;
pub mod laws;
mod locals;
mod statements;
mod totals;
