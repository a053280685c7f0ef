//! Breadth-first searches become loops over levels: the second pass of the compiler.
//!
//! A search goes over the nodes level by level, and on the way back in the other order. The pass writes it with loops
//! over all nodes and a `While`:
//!
//! 1. the root has level 0, every other node the greatest `Int`, which is no level;
//! 2. a turn of the `While` is that of one level: its nodes are active; they are visited, and the ends of their edges
//!    take the next level unless theirs is less; there is another turn where a node is on the next level;
//! 3. on the way back a turn goes down by one level, to level 0.
//!
//! Neighbours on the level above or below are those whose level is one less or one more. What a part changes while it
//! reads it at other levels it reads from copies made before: so the loop over the active nodes breaks no rule of
//! races, though nothing says any more that the nodes that it reads are others than those that it changes.
//!
//! All searches of a program share the fresh variables, since none stands in another. Trees are changed where they
//! stand and no part is copied, and which variables a part marks is a set of those that it has: memory is linear in the
//! tree and time near linear, however many variables and searches there are.
//!
//! It is proved that the code gives what the definition says, that a desugared program comes out without searches, and
//! that it means the same: the same outcome for every graph, all arguments and every bound, with the same fault and the
//! same number of turns. The law in short: at the head of the `While` the property holds the levels up to the current
//! one, and another turn is wanted where a node is on the current level; a turn at an active node does what the search
//! does there, since its iteration changes its own node alone, and the copies hold what other levels held; the next
//! level has the nodes to which an edge leads from this one and that had no level.
//!
//! - `fresh`: the fresh variables and where a search stands;
//! - `marked`: marked variables, as a set;
//! - `marks`: which properties a part copies;
//! - `readings`: expressions and inner loops that read copies and ask for levels;
//! - `quiet`: bodies that do nothing, and filters that cannot fault;
//! - `places`: statements and expressions put in the place of others;
//! - `pieces`: the statements that keep levels;
//! - `searches`: the loops of a search;
//! - `levelled`: the pass.
#![tactic(auto)]

pub mod fresh;
pub mod levelled;
mod marked;
mod marks;
mod pieces;
mod quiet;
mod readings;
mod searches;
