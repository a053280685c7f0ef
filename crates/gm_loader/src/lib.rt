//! Edge lists: a text becomes the graph that it stands for, or the fault of its first faulty line.
//!
//! The lines are read one after another into rows of node numbers and columns of values, in time linear in the bytes.
//! The two numbers of a plain edge line are read in one pass over its bytes, and so is each Int of digits alone; other
//! lines and values are cut into their fields. Different numbers are counted only from the first one on that is not
//! below the limit on nodes. An edge takes 16 bytes and those of its values until the graph is made of the rows.
#![tactic(auto)]

mod counts;
mod faults;
mod fields;
mod laws;
mod limits;
mod loads;
mod quick;
mod sets;
mod tables;

pub use faults::GraphFault;
pub use fields::{first_byte, flag_in, whole_in};
pub use laws::rows_are_worked;
pub use limits::Limits;
pub use loads::{consume_graph, parse_graph, shape_like};
pub use tables::empty_columns;
