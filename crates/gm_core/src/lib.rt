//! The core of a parallel run, as events that change one state: nodes compute, batches are delivered, workers arrive,
//! and a barrier is released.
#![tactic(auto)]

mod cores;
mod effects;
mod events;
mod laws;
mod legality;
mod messages;
mod owners;
mod runs;

pub use events::Event;
pub use laws::{
    batches_are_delivered, events_are_worked, events_go_by_supersteps, supersteps_are_events,
};
pub use owners::{owner_in, owners_of};
pub use runs::{CoreState, CoreStop, run_events};
