//! The program `demo`: a graph of N nodes that it makes itself, the procedure that finds the shortest paths over it,
//! and the line that is written of them.
#![tactic(auto)]

mod draws;
mod edges;
mod graphs;
mod laws;
mod lines;
mod programs;
mod writing;

pub use graphs::demo_graph;
pub use laws::demo_rows_are_worked;
pub use lines::demo_line;
pub use programs::demo_program;
