//! Jobs, and the words that ask for them.

ghost use Rattle.std.specs.Prelude.{◌≡◌, ◌≢◌, Some, None, Err, IfOk, map, string_bytes};
ghost use Rattle.clap.specs.Words.{kind_of};
ghost use Rattle.gm_words.specs.declared.jobs.WordsStop.TheVariants.{NoMemory};
ghost use Rattle.gm_words.specs.Jobs.{IsRight, job_of};

use crate::commands::command_of;
use crate::found::read_found;
use crate::verbs::{Verb, read_verb};
use clap::error::ErrorKind;
use clap::{Command, Error};
use gm_base::{Items, Text};
use gm_partition::Owner;
use std::alloc::{AllocError, AllocFailed, Global};
use std::{error, fmt};

/// What a graph file holds.
#[derive(Clone, Copy, Debug, PartialEq, Eq)]
pub enum Format {
    /// An edge list.
    Edges,
    /// A Matrix Market text.
    Mtx,
}

/// How a program is to be run.
#[derive(Clone, Copy, Debug, PartialEq, Eq)]
pub struct Options {
    /// How many workers there are, 1 to 64.
    pub workers: u32,
    /// How the nodes are dealt out among them.
    pub owner: Owner,
    /// How many turns the run may take.
    pub turns: u64,
    /// Whether the run is observed.
    pub observe: bool,
    /// What the graph file holds.
    pub format: Format,
}

/// What the program is to do. A name of a file that is `-` stands for standard input.
#[derive(Debug, Drop)]
pub enum Job {
    /// Run a program over a graph; each of `args` is a word NAME=VALUE. `image` says whether its image is shown.
    Run {
        prog: Text,
        graph: Text,
        args: Items<Text>,
        options: Options,
        image: bool,
    },
    /// Check a program.
    Check {
        prog: Text,
    },
    /// Compile a program.
    Compile {
        prog: Text,
    },
    /// Run an image over a graph; each of `args` is a word NAME=VALUE.
    Exec {
        image: Text,
        graph: Text,
        args: Items<Text>,
        options: Options,
    },
    /// Run the demonstration over a graph of `n` nodes, 1 to 1,000,000.
    Demo {
        n: u32,
        options: Options,
    },
}

/// Why there is no job.
#[derive(Clone, Copy, Debug, PartialEq, Eq)]
pub enum WordsStop {
    /// The words ask for none.
    Usage,
    /// There was not enough memory.
    NoMemory,
}

impl fmt::Display for WordsStop {
    fn fmt<W: fmt::Write>(&self, f: &mut fmt::Formatter<W>) -> fmt::Result {
        match self {
            WordsStop::Usage => f.write_str("the words ask for no job"),
            WordsStop::NoMemory => f.write_str("out of memory"),
        }
    }
}

impl error::Error for WordsStop {}

impl From<AllocError> for WordsStop {
    ghost from_gives = { λ _ stop. stop ≡ NoMemory };

    fn from(_error: AllocError) -> WordsStop {
        WordsStop::NoMemory
    }
}

impl<T: Drop> From<AllocFailed<T>> for WordsStop {
    ghost from_gives = { λ _ stop. stop ≡ NoMemory };

    fn from(_error: AllocFailed<T>) -> WordsStop {
        WordsStop::NoMemory
    }
}

/// The job that the words after the program's name ask for.
///
/// # Errors
///
/// `Usage` comes exactly where the words ask for no job, and `NoMemory` where memory ran out.
pub fn read_words(alloc: Global, words: &[String]) -> Result<Job, WordsStop>
    ensures job { IfOk result (λ job. job_of (map string_bytes words.now) ≡ Some job) }
    ensures usage { result ≡ Err WordsStop.Usage → job_of (map string_bytes words.now) ≡ None }
    ensures right { IfOk result IsRight }
{
    let Some(first) = words.first() else {
        return Err(WordsStop::Usage);
    };
    let Some(verb) = read_verb(first.as_str()) else {
        return Err(WordsStop::Usage);
    };
    let command = command_of(alloc, verb)?;
    let matches = match command.try_get_matches_from(words) {
        Ok(matches) => matches,
        Err(error) => return Err(stop_of(&error)),
    };
    read_found(alloc, verb, &matches)
}

// What a failed parse comes to.
fn stop_of(error: &Error) -> WordsStop
    ensures { result ≡ WordsStop.Usage → kind_of error.now ≢ ErrorKind.OutOfMemory }
{
    match error.kind() {
        ErrorKind::OutOfMemory => WordsStop::NoMemory,
        _ => WordsStop::Usage,
    }
}
