//! What the nodes of a batch put by one line, reduced to one contribution before it is put.
//!
//! A line that puts gives a value for each node. The slot comes to hold the same after all of these values as after the
//! one to which the line's reduction reduces them, wherever the contributions stand among others. So [`put_values`] adds
//! one contribution for a whole column, where the reduced value is in range, in time linear in the rows and without a
//! branch for each.
#![tactic(auto)]

pub mod laws;
mod puts;

pub use puts::put_values;
