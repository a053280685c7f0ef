//! Command lines: words become a job, or are no valid command line; words `NAME=VALUE` become the values of inputs.
#![tactic(auto)]

mod arguments;
mod commands;
mod found;
mod jobs;
mod spellings;
mod values;
mod verbs;

pub use arguments::{ArgFault, Input, bind};
pub use jobs::{Format, Job, Options, WordsStop, read_words};
