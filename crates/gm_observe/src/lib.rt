//! Observers of a run: they are told one note for each superstep, and each reports what it was told.
#![tactic(auto)]

mod audience;
mod counter;
mod notes;
mod observers;
mod table;

pub use audience::{report_all, tell_all};
pub use counter::Counter;
pub use notes::Note;
pub use observers::Observer;
pub use table::Table;
