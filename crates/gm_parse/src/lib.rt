//! The grammar of the language, and the parser.
#![tactic(auto)]

mod around;
mod assignments;
mod choices;
mod expressions;
mod faults;
mod laws;
mod levels;
mod nodes;
mod procedures;
mod reading;
mod statements;
mod tuples;
mod types;

pub use around::Around;
pub use faults::Fault;
pub use laws::texts_have_one_tree;
pub use levels::Level;
pub use procedures::parse;
