//! What is written of the runs of programs and of their images.

ghost use Rattle.std.specs.Prelude.{IfOk};
ghost use Rattle.gm_words.specs.Jobs.{AllAssign, AreRight};

use crate::compiled::program_of;
use gm_ast::forms::Work;
use gm_base::{Items, NoMemory, OpenGate, Text};
use gm_exec::exec;
use gm_files::{MemFiles, MemSource};
use gm_input::{Answer, settled};
use gm_observe::Observer;
use gm_source_runs::run_text;
use gm_words::{Job, Options, read_words};
use std::alloc::{AllocError, Global};
use std::sync::Wait;
use std::test::Fail;
use std::thread::Threads;

// The words of a command line.
fn words_in(alloc: Global, line: &str) -> Result<Vec<String>, AllocError> {
    let mut words = Vec::new(alloc);
    for word in line.split(' ') {
        if !word.is_empty() {
            words.push(String::from_str(alloc, word)?)?;
        }
    }
    Ok(words)
}

// The words of a command line that runs an image, with some more.
fn words_of(alloc: Global, more: &str) -> Result<Vec<String>, AllocError> {
    let line = format!(in alloc; "exec - - {more}")?;
    words_in(alloc, line.as_str())
}

// The words NAME=VALUE and the options of a command line with some words.
fn command(alloc: Global, more: &str) -> Result<(Items<Text>, Options), Fail>
    ensures assign { IfOk result (λ x. AllAssign x.0) }
    ensures right { IfOk result (λ x. AreRight x.1) }
{
    let words = words_of(alloc, more)?;
    match read_words(alloc, words.as_slice())? {
        Job::Exec { args, options, .. } => Ok((args, options)),
        _ => Err("no run")?,
    }
}

// A standard input of an image and a graph behind it.
fn input_of(alloc: Global, image: &[u8], graph: &str) -> Result<MemSource, NoMemory> {
    let mut text = Vec::from_slice(alloc, image)?;
    text.extend_from_slice(b"%%\n")?;
    text.extend_from_slice(graph.as_bytes())?;
    Ok(MemSource::new(text, 4096, Vec::new(alloc)))
}

// The answer to an image and a graph on standard input, by a call that promises nothing.
fn answer_to(
    rt: &(impl Threads + Wait + Sync),
    alloc: Global,
    words: &[Text],
    options: &Options,
    input: MemSource,
) -> Result<Answer, NoMemory>
    requires words { AllAssign words.now }
    requires right { AreRight options.now }
{
    let mut input = input;
    let mut files = MemFiles::new(Vec::new(alloc), Vec::new(alloc));
    let nobody: &mut [Box<dyn Observer>] = &mut [];
    exec(
        rt, alloc, "-", "-", words, options, &mut input, &mut files, &OpenGate, nobody,
    )
}

// What is written of an image's run over a graph.
fn image_listing(
    rt: &(impl Threads + Wait + Sync),
    alloc: Global,
    more: &str,
    image: &[u8],
    graph: &str,
) -> Result<String, Fail> {
    let (words, options) = command(alloc, more)?;
    let input = input_of(alloc, image, graph)?;
    let answer = answer_to(rt, alloc, words.as_slice(), &options, input)?;
    Ok(String::from_utf8_lossy(alloc, &answer.text)?)
}

// The parts of a listing before and behind the counts of supersteps and messages, if it has them.
fn around_counts(listing: &str) -> Option<(&str, &str)> {
    let (front, counts) = listing.split_once("supersteps ")?;
    let (_, turns) = counts.split_once("turns ")?;
    Some((front, turns))
}

// A listing without how many supersteps and messages there were.
fn without_counts(alloc: Global, listing: &str) -> Result<String, AllocError> {
    match around_counts(listing) {
        None => String::from_str(alloc, listing),
        Some((front, turns)) => format!(in alloc; "{front}turns {turns}"),
    }
}

/// What is written of an image's run over a graph, without how many supersteps and messages there were.
pub(crate) fn outcome_of(
    rt: &(impl Threads + Wait + Sync),
    alloc: Global,
    more: &str,
    image: &[u8],
    graph: &str,
) -> Result<String, Fail> {
    let listing = image_listing(rt, alloc, more, image, graph)?;
    Ok(without_counts(alloc, listing.as_str())?)
}

// What a program writes over the text of a graph, by a call that promises nothing.
fn program_answer(
    alloc: Global,
    program: &Work,
    words: &[Text],
    options: &Options,
    text: Vec<u8>,
) -> Result<Answer, NoMemory>
    requires { AllAssign words.now }
{
    settled(run_text(alloc, program, words, options, text))
}

// What is written of a program's run over a graph, with some words.
fn written_of(alloc: Global, program: &Work, more: &str, graph: &str) -> Result<String, Fail> {
    let (words, options) = command(alloc, more)?;
    let graph = Vec::from_slice(alloc, graph.as_bytes())?;
    let answer = program_answer(alloc, program, words.as_slice(), &options, graph)?;
    Ok(String::from_utf8_lossy(alloc, &answer.text)?)
}

/// What is written of the run of a text's program over a graph.
pub(crate) fn program_listing(
    alloc: Global,
    more: &str,
    text: &str,
    graph: &str,
) -> Result<String, Fail> {
    let program = program_of(alloc, text)?;
    written_of(alloc, &program, more, graph)
}
