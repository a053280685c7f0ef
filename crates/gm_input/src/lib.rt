//! What is read before anything runs: the text under a name, an input in two texts, a graph and its arguments; and the
//! answers that are a line.
#![tactic(auto)]

mod answers;
mod fronts;
mod halts;
mod laws;
mod lines;
mod names;
mod roads;

pub use answers::{
    Answer, GRAPH_LIMITS, absent, bad_argument, bad_graph, bad_matrix, fixed_answer, read_fault,
};
pub use fronts::{Front, FrontStop, read_front, read_rest};
pub use halts::{Halt, answered, settled};
pub use laws::{lines_are_worked, texts_are_parted};
pub use names::{NameStop, are_input, is_input, read_named};
pub use roads::{arguments, graph_of, read_code, read_graph, unread};
