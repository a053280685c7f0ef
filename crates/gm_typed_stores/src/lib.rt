//! Values keep the types of their declarations, and nodes stay within the graph.
//!
//! A program is well typed (`IsWellTyped`) where its tree has types (`has_types`), names variables as they are declared
//! (`is_named`), and tells values alone (`tells_values`): each variable whose value is read holds one of its type, since
//! it is a scalar, no input, or the iterator of a loop around; iterators are declared with nodes; and a constant that is
//! a node has an index below a limit. The limit is the graph's number of nodes, or 2 ^ 32, below which every node is.
//!
//! `stores_stay_typed` has the law part by part: expressions, bodies of parallel loops, loops, statements of sequential
//! phases, whole runs, and every point of a run. `proofs/Samples.antt` has programs that show why each test is needed.
#![tactic(auto)]

mod laws;

pub use laws::{outcomes_have_types, stores_stay_typed};
