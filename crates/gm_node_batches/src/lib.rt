//! The vertex steps of many nodes in one call, a batch at a time: by columns where that can be done, else one by one.
#![tactic(auto)]

mod batches;
mod inboxes;
mod openings;
mod steps;

pub use inboxes::Inbox;
pub use openings::open;
pub use steps::{Sent, steps_of_nodes};
