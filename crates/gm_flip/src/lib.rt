//! Loops that pull become loops that push: the fourth step of the compiler.
//!
//! `flip` takes a program whose loops were cut. A loop whose body is one inner loop pulls if it reads its inner node,
//! or an edge against its direction, for a reduction at its outer node. It becomes the loop of its other end, in which
//! one iteration runs for each edge, and the node that was outer receives. So afterwards each inner loop is evaluated
//! at its outer node, or at the node that a message from there reaches.
//!
//! The pass is a function on trees in `specs/` (`without_pulls`), the code that gives what this function gives, and a
//! law: the result means the same for every graph, all arguments and every bound, keeps what every pass keeps
//! (`IsSane`), and has the next form. The tree is changed in place, and no part is copied, so time and memory are
//! linear in it.
#![tactic(auto)]

pub mod flip;
mod pulling;
