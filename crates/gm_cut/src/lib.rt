//! Bodies of parallel loops are cut into pieces, and inner loops into slices: the last steps before loops that pull are
//! flipped.
//!
//! A program without searches and deferred writes comes in, in which conditions of what is cut are masks and locals stay
//! within a piece. Each loop over nodes becomes loops in turn, one for each piece of its body: own statements under one
//! mask together, and inner loops alone. Then each inner loop that goes several ways becomes inner loops in turn, one for
//! each group of neighbouring statements that go one way.
//!
//! Both are functions on trees in `specs/` (`in_pieces`, `in_slices`) with their laws: where each loop may be written so
//! (`can_be_parted`, `can_be_sliced`), the result means the same for every graph, all arguments and every bound, keeps
//! what every pass keeps (`IsSane`), and is parted, or cut. `cut_bodies` is the code of the first: it gives what `in_pieces` gives.
#![tactic(auto)]

pub mod laws;
pub mod own;
pub mod pieces;
