//! Picks of the sequential phase onto scalars.
//!
//! A pick is a reduction by Min or Max that is done at once, of one value or of a tuple. `<s.p; s.q> min= <e; f>;`
//! becomes `c = Live(s); v = s.p; d = Live(s); w = s.q; <reads of e and f> <v; w> min= <e'; f'>; c.p = v; d.q = w;` with
//! new scalars c, v, d and w: for each property the node is checked and the value read, then what the values read is set
//! to variables, from left to right, then the scalars take the pick, and what they hold is written back. An iterator of a
//! For around always holds a node: its properties are read and written through itself, without a check. So a pick
//! computes with scalars alone, and its reads and its writes are those that the passes of `gm_reductions` know.
//!
//! `picks_out` gives what the definition in `specs/Picks.antt` gives. Trees are changed in place, in time and memory
//! linear in them and, for each For, in how many stand around it.
#![tactic(auto)]

pub mod laws;
pub mod picks;
