//! The first passes of the compiler, one after another: each takes a checked program, writes one of its constructs in
//! terms of simpler ones, and keeps what the program means for every graph, all arguments and every bound.
//!
//! In the order of work:
//!
//! 1. `groups_out`: group assignments become loops over all nodes.
//! 2. `compounds_out`: reductions that are done at once become assignments, but for those that pick.
//! 3. `literals_out`: a minus before a literal becomes a negative literal.
//! 4. `conditions_out`: conditions of the sequential phase become assignments to a new variable, which is asked instead.
//! 5. `reads_out`: reads, degrees, checks and reductions in what is declared, assigned or returned there are set to new
//!    variables of their own, from left to right.
//!
//! A pass is a function on trees in `specs/`, the code that gives what this function gives, and a law: the result
//! means the same, keeps what every pass keeps (`IsSane`), and has the next form. Statements and expressions that keep
//! their form are changed in place where that is possible, others are rebuilt by value, and only the condition of a
//! While is written twice, so time and memory are linear in the tree. New variables stand behind all others in the
//! table.
#![tactic(auto)]

pub mod compounds;
pub mod conditions;
pub mod groups;
pub mod literals;
pub mod reads;
