//! Graphs in flat rows: their making, and what can be asked of them.
#![tactic(auto)]

mod bounds;
mod builds;
mod graphs;
mod groups;
mod in_rows;
mod laws;
mod marks;
mod node_numbers;
mod numberings;
mod numbers;
mod ranges;
mod rows;

pub use builds::{RawGraph, Shape, Walks, build};
pub use graphs::Graph;
pub use in_rows::InRows;
pub use laws::graphs_are_determined;
pub use node_numbers::NodeNumbers;
