//! Dissection: bodies of parallel loops are cut into loops with one way each.
//!
//! `dissect` runs the passes one after another, each on what the one before it gives: what `gm_prepare` does to a program
//! before bodies go to pieces, then bodies go to pieces, the statements of inner loops that go several ways stand apart
//! (`apart`), and these go to slices.
#![tactic(auto)]

pub mod apart;
pub mod dissect;
