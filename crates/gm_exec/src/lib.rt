//! The run of an image over a graph: all that comes between the words of a command line and the text of its answer.
#![tactic(auto)]

mod answers;
mod flaws;
mod images;
mod laws;
mod programs;
mod replies;
mod runs;
mod walks;
mod watches;

pub use flaws::Flaw;
pub use laws::rows_are_worked;
pub use replies::exec;
pub use walks::walks_of;
