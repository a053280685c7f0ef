//! The written machine that runs images, superstep by superstep, and its implementation on one thread.
#![tactic(auto)]

mod asking;
mod batches;
mod bodies;
mod contributions;
mod ends;
mod expressions;
mod faults;
mod fields;
mod inboxes;
mod laws;
mod lines;
mod masters;
mod message_values;
mod node_lists;
mod node_steps;
mod own_fields;
mod runs;
mod settling;
mod starts;
mod steps;
mod supersteps;
mod tellings;
mod totals;

pub use asking::{asks_outward, rows_for};
pub use batches::Batch;
pub use contributions::{ContributionPart, Contributions};
pub use faults::{Fault, lesser};
pub use fields::Fields;
pub use inboxes::Inbox;
pub use laws::{
    inboxes_have_no_order, puts_have_no_order, states_reach_the_end, totals_are_handed_in,
    totals_stand_for_messages,
};
pub use masters::{Master, MasterStop, master_run};
pub use node_lists::{end_of_lists, settle_puts, start_fields};
pub use node_steps::{Duty, Nodes, steps_of_nodes};
pub use own_fields::{end_of_owners, start_of_nodes};
pub use runs::{run_one, run_watched};
pub use steps::{Sent, vertex_step};
