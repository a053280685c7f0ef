//! Expressions evaluated in many rows at once: a walk over the expression for a whole batch of nodes, by operations on columns, in place of one for each node.
#![tactic(auto)]

mod degrees;
mod evaluation;
mod guards;
mod leaves;
mod node_batches;
mod places;
mod shapes;

pub use evaluation::evaluate;
pub use node_batches::{NodeBatch, Places, Rows};
