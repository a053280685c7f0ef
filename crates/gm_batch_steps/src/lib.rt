//! The steps of a whole batch of nodes at once: each line of a body is run for all nodes of the batch that reach it, by operations on columns, before the next.
#![tactic(auto)]

mod batch_states;
mod changes;
mod folds;
mod lines;
mod parts;
mod sends;
mod steps;
mod turn_values;
mod turns;

pub use steps::steps_of_batch;
