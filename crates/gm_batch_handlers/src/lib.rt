//! The handlers of a whole block of nodes at once: each line of a handler is run for all messages of a kind that reach it, by operations on columns, and what it folds goes into columns too.
#![tactic(auto)]

mod handlers;
mod lines;
mod row_states;
mod totals;

pub use handlers::handlers_of_batch;
