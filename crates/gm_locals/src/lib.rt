//! Locals of the bodies from which a part is cut, kept in properties of the loop's node, so that no loop that comes of the
//! rest has to know of them.
//!
//! `locals_out` gives a program the same meaning, as ready for cutting as it was: a function on trees in
//! `specs/AllGroups`, the code that gives what this function gives, and a law. Which locals go is found for each loop: the
//! most of those that its body declares that may go together (`groups`). They are exchanged in place in one walk
//! (`rewriting`).
#![tactic(auto)]

pub mod groups;
pub mod laws;
pub mod locals;
mod plain;
mod rewriting;
