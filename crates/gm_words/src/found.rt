//! The job, from what a parse of the words found.

ghost use Rattle.std.specs.Prelude.{◌≡◌, Some, None, Err, IfOk, map, option_map, codes};
ghost use Rattle.clap.specs.Words.{found_of};
ghost use Rattle.gm_words.specs.Found.{TellsFlag, TellsFlags, flag_found, job_found, options_found, words_found};
ghost use Rattle.gm_words.specs.Jobs.{one_word, two_words};
ghost use Rattle.gm_words.specs.declared.verbs.Verb.TheVariants.{Run, Exec, Demo};

use crate::jobs::{Format, Job, Options, WordsStop};
use crate::values::{are_assignments, read_format, read_number, read_owner};
use crate::verbs::Verb;
use clap::ArgMatches;
use gm_base::{Items, Text};
use gm_partition::Owner;
use std::alloc::{AllocError, Global};

/// The job of a command, from what a parse found: `Usage` comes exactly where that is no job.
pub fn read_found(alloc: Global, verb: Verb, matches: &ArgMatches) -> Result<Job, WordsStop>
    requires { TellsFlags verb (found_of matches.now) }
    ensures job { IfOk result (λ job. job_found verb (found_of matches.now) ≡ Some job) }
    ensures usage { result ≡ Err WordsStop.Usage → job_found verb (found_of matches.now) ≡ None }
{
    match verb {
        Verb::Run => read_run(alloc, matches),
        Verb::Check => Ok(Job::Check {
            prog: copied_word(alloc, matches)?,
        }),
        Verb::Compile => Ok(Job::Compile {
            prog: copied_word(alloc, matches)?,
        }),
        Verb::Exec => read_exec(alloc, matches),
        Verb::Demo => read_demo(matches).ok_or(WordsStop::Usage),
    }
}

// Whether an option without a value was used.
fn is_used(matches: &ArgMatches, name: &str) -> bool
    requires { TellsFlag name.now (found_of matches.now) }
    ensures { result ≡ flag_found name.now (found_of matches.now) }
{
    matches.get_flag(name)
}

// The options of a command, where their values are right.
fn read_options(matches: &ArgMatches, observe: bool) -> Option<Options>
    ensures { result ≡ options_found observe (found_of matches.now) }
{
    let workers = match matches.get_str("workers") {
        Some(text) => read_number(text, 1, 64)?,
        None => 4,
    };
    let owner = match matches.get_str("partition") {
        Some(text) => read_owner(text)?,
        None => Owner::Mod,
    };
    let turns = match matches.get_str("turns") {
        Some(text) => read_number(text, 0, 9223372036854775807)?,
        None => 1000000,
    };
    let format = match matches.get_str("format") {
        Some(text) => read_format(text)?,
        None => Format::Edges,
    };
    Some(Options {
        workers: workers as u32,
        owner,
        turns,
        observe,
        format,
    })
}

// The one positional.
fn only_word<'a>(matches: &ArgMatches<'a>) -> Option<&'a str>
    ensures { option_map (λ s. s.now) result ≡ one_word (words_found (found_of matches.now)) }
{
    match matches.get_raw("WORD") {
        Some([word]) => Some(*word),
        _ => None,
    }
}

// A copy of the one positional.
fn copied_word(alloc: Global, matches: &ArgMatches) -> Result<Text, WordsStop>
    ensures word { IfOk result (λ word. one_word (words_found (found_of matches.now)) ≡ Some word) }
    ensures usage { result ≡ Err WordsStop.Usage → one_word (words_found (found_of matches.now)) ≡ None }
{
    let Some(word) = only_word(matches) else {
        return Err(WordsStop::Usage);
    };
    Ok(Text::new(String::from_str(alloc, word)?))
}

// The job of `demo`.
fn read_demo(matches: &ArgMatches) -> Option<Job>
    ensures { result ≡ job_found Demo (found_of matches.now) }
{
    let options = read_options(matches, false)?;
    let n = read_number(only_word(matches)?, 1, 1000000)?;
    Some(Job::Demo {
        n: n as u32,
        options,
    })
}

// Two files, and the words after them.
#[derive(Drop)]
struct TwoFiles {
    first: Text,
    second: Text,
    args: Items<Text>,
}

fn copies(alloc: Global, words: &[&str]) -> Result<Items<Text>, AllocError>
    ensures { IfOk result (λ copies. copies ≡ map (λ w. w.now) words.now) }
{
    let mut copies = Vec::new(alloc);
    for word in words {
        copies.push(Text::new(String::from_str(alloc, *word)?))?;
    }
    Ok(Items::new(copies))
}

fn copied_files(
    alloc: Global,
    first: &str,
    second: &str,
    args: &[&str],
) -> Result<TwoFiles, AllocError>
    ensures { IfOk result (λ f. (f.first ≡ first.now) × (f.second ≡ second.now) × (f.args ≡ map (λ w. w.now) args.now)) }
{
    let first = Text::new(String::from_str(alloc, first)?);
    let second = Text::new(String::from_str(alloc, second)?);
    let args = copies(alloc, args)?;
    Ok(TwoFiles {
        first,
        second,
        args,
    })
}

// Copies of two names of files and of the words that assign after them.
fn files_of(alloc: Global, words: &[&str]) -> Result<TwoFiles, WordsStop>
    ensures files { IfOk result (λ f. two_words (map (λ w. w.now) words.now) ≡ Some (f.first, f.second, f.args)) }
    ensures usage { result ≡ Err WordsStop.Usage → two_words (map (λ w. w.now) words.now) ≡ None }
{
    let [first, second, args @ ..] = words else {
        return Err(WordsStop::Usage);
    };
    if !are_assignments(args) {
        return Err(WordsStop::Usage);
    }
    Ok(copied_files(alloc, *first, *second, args)?)
}

// The two files, and the words that assign, that a parse found.
fn read_files(alloc: Global, matches: &ArgMatches) -> Result<TwoFiles, WordsStop>
    ensures files { IfOk result (λ f. two_words (words_found (found_of matches.now)) ≡ Some (f.first, f.second, f.args)) }
    ensures usage { result ≡ Err WordsStop.Usage → two_words (words_found (found_of matches.now)) ≡ None }
{
    let Some(words) = matches.get_raw("WORD") else {
        return Err(WordsStop::Usage);
    };
    files_of(alloc, words)
}

// The job of `run`.
fn read_run(alloc: Global, matches: &ArgMatches) -> Result<Job, WordsStop>
    requires { TellsFlags Run (found_of matches.now) }
    ensures job { IfOk result (λ job. job_found Run (found_of matches.now) ≡ Some job) }
    ensures usage { result ≡ Err WordsStop.Usage → job_found Run (found_of matches.now) ≡ None }
{
    let image = is_used(matches, "image");
    let observe = is_used(matches, "observe");
    if observe && !image {
        return Err(WordsStop::Usage);
    }
    let Some(options) = read_options(matches, observe) else {
        return Err(WordsStop::Usage);
    };
    let files = read_files(alloc, matches)?;
    Ok(Job::Run {
        prog: files.first,
        graph: files.second,
        args: files.args,
        options,
        image,
    })
}

// The job of `exec`.
fn read_exec(alloc: Global, matches: &ArgMatches) -> Result<Job, WordsStop>
    requires { TellsFlags Exec (found_of matches.now) }
    ensures job { IfOk result (λ job. job_found Exec (found_of matches.now) ≡ Some job) }
    ensures usage { result ≡ Err WordsStop.Usage → job_found Exec (found_of matches.now) ≡ None }
{
    let observe = is_used(matches, "observe");
    let Some(options) = read_options(matches, observe) else {
        return Err(WordsStop::Usage);
    };
    let files = read_files(alloc, matches)?;
    Ok(Job::Exec {
        image: files.first,
        graph: files.second,
        args: files.args,
        options,
    })
}
