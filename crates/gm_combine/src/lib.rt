//! The totals in which a worker combines the messages to its nodes, kept in a typed row for each kind of messages.
//!
//! A kind is combinable where its image names a combiner. Of such messages only the exact total counts, so none is kept:
//! each is folded into the row of its kind at the place of its node, the node's index among the worker's own. A row of
//! least or greatest values takes the room of the value and a mark for each place, a row of sums 16 bytes and a mark.
//! Rows are prepared before they are filled, and folding takes no memory. Messages come in batches of one kind, with
//! their values in a typed row; each batch is folded in a loop of its own for its type and its combiner.
#![tactic(auto)]

mod batches;
mod folds;
mod laws;
mod numbers;
mod picks;
mod products;
mod rows;
mod sums;
mod typed_rows;

pub use batches::KindBatch;
pub use laws::totals_are_worked;
pub use rows::{Rows, combinable};
