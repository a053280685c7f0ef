//! All that the program does: from the words of the command line, the bytes of its input and the files that the words
//! name to what it writes and the status with which it ends.
#![tactic(auto)]

mod answers;
mod demos;
mod images;
mod laws;
mod program;
mod programs;
mod runs;

pub use laws::compiled_images_run_alike;
pub use program::gm;
