//! Words as a command line gives them.
use crate::compare::{same, same_found, sides_at};
use gm_base::Text;
use gm_partition::Owner;
use gm_words::{Format, Job, Options, WordsStop, read_words};
use std::alloc::{AllocError, Global};
use std::process::Abort;
use std::test::Fail;

// Words, parted by one space each, and what they ask for: the command, its files, the words that assign, the
// number of workers, the partition, the number of turns, and `mtx` where the graph file is no edge list. All of it was
// written by hand, from the rules.
const ROWS: &str = "run => usage
run - => usage
run a => usage
run a b => run a b [] 4 mod 1000000
run - - => run - - [] 4 mod 1000000
run a - => run a - [] 4 mod 1000000
run - b k=1 => run - b [k=1] 4 mod 1000000
run a b k=3 root=0 => run a b [k=3 root=0] 4 mod 1000000
run a b root => usage
run - - root => usage
run a b k=1 - => usage
run a b =x => usage
run a b =x=y => run a b [=x=y] 4 mod 1000000
run a b x=y=z => run a b [x=y=z] 4 mod 1000000
run a b x= => run a b [x=] 4 mod 1000000
run a b == => run a b [==] 4 mod 1000000
run a b x=-1 => run a b [x=-1] 4 mod 1000000
run a b  => usage
run  b => run  b [] 4 mod 1000000
run a b -- x=1 --y=2 -z=3 => run a b [x=1 --y=2 -z=3] 4 mod 1000000
run a b -- --y => usage
run a b --y=2 => usage
run a -- b x=1 => run a b [x=1] 4 mod 1000000
run -- a b => run a b [] 4 mod 1000000
run -- --a -b => run --a -b [] 4 mod 1000000
run -- -- -- => run -- -- [] 4 mod 1000000
run -- -- -- -- => usage
run a b -- -- => usage
run a b -- => run a b [] 4 mod 1000000
run a -- --workers 8 => usage
run a -- --workers => run a --workers [] 4 mod 1000000
run a b -- --workers=8 => run a b [--workers=8] 4 mod 1000000
run a b --workers 8 => run a b [] 8 mod 1000000
run a b --workers=8 => run a b [] 8 mod 1000000
run --workers 8 a b => run a b [] 8 mod 1000000
run --workers=8 a b => run a b [] 8 mod 1000000
run a --workers 8 b k=1 => run a b [k=1] 8 mod 1000000
run a b k=1 --workers=8 j=2 => run a b [k=1 j=2] 8 mod 1000000
run a b --workers 8 --workers 8 => usage
run a b --workers=8 --workers=8 => usage
run a b --workers 8 --workers=9 => usage
run a b --workers => usage
run a b --workers= => usage
run a b --workers  => usage
run a b --workers - => usage
run a b --workers=- => usage
run a b --workers -- 8 => usage
run a b --workers --image => usage
run a b --workers -1 => usage
run a b --workers=-1 => usage
run a b --workers=+1 => usage
run a b --workers 0 => usage
run a b --workers 1 => run a b [] 1 mod 1000000
run a b --workers 64 => run a b [] 64 mod 1000000
run a b --workers 65 => usage
run - - --workers 65 => usage
run a b --workers=004 => run a b [] 4 mod 1000000
run a b --workers 0000000000000000008 => run a b [] 8 mod 1000000
run a b --workers 00000000000000000008 => usage
run a b --workers 8x => usage
run a b --workers eight => usage
run a b --workers=8=8 => usage
run a b -workers 8 => usage
run a b --Workers 8 => usage
run a b ---workers 8 => usage
run a b --worker 8 => usage
run a b --work=8 => usage
run a b --w 8 => usage
run a b -w 8 => usage
run a b -w8 => usage
run a b --partition mod => run a b [] 4 mod 1000000
run a b --partition=block => run a b [] 4 block 1000000
run --partition block a b => run a b [] 4 block 1000000
run a b --partition spread:0 => run a b [] 4 spread:0 1000000
run a b --partition=spread:7 => run a b [] 4 spread:7 1000000
run a b --partition spread:4294967295 => run a b [] 4 spread:4294967295 1000000
run a b --partition spread:4294967296 => usage
run a b --partition spread:0000000000000000007 => run a b [] 4 spread:7 1000000
run a b --partition spread:00000000000000000007 => usage
run a b --partition spread: => usage
run a b --partition spread:-1 => usage
run a b --partition spread => usage
run a b --partition Mod => usage
run a b --partition blocks => usage
run a b --partition= => usage
run a b --partition => usage
run a b --partition mod --partition mod => usage
run a b --part mod => usage
run a b --turns 0 => run a b [] 4 mod 0
run a b --turns=5 => run a b [] 4 mod 5
run --turns 5 a b => run a b [] 4 mod 5
run a b --turns 9223372036854775807 => run a b [] 4 mod 9223372036854775807
run a b --turns 9223372036854775808 => usage
run a b --turns 9999999999999999999 => usage
run a b --turns 09223372036854775807 => usage
run a b --turns -5 => usage
run a b --turns 5 --turns 5 => usage
run a b --turns => usage
run a b --format edges => run a b [] 4 mod 1000000
run a b --format=edges => run a b [] 4 mod 1000000
run a b --format mtx => run a b [] 4 mod 1000000 mtx
run --format=mtx a b k=1 => run a b [k=1] 4 mod 1000000 mtx
run - --format mtx - => run - - [] 4 mod 1000000 mtx
run a b --format MTX => usage
run a b --format mtx2 => usage
run a b --format mt => usage
run a b --format= => usage
run a b --format => usage
run a b --format - => usage
run a b --format mtx --format mtx => usage
run a b --format edges --format mtx => usage
run a b --mtx => usage
run a b --form mtx => usage
run a -- --format => run a --format [] 4 mod 1000000
run a b --format mtx --image --observe => run a b [] 4 mod 1000000 mtx image observe
run a b --image => run a b [] 4 mod 1000000 image
run --image a b => run a b [] 4 mod 1000000 image
run a b --image k=1 => run a b [k=1] 4 mod 1000000 image
run a b --image=true => usage
run a b --image= => usage
run a b --image true => usage
run a b --image --image => usage
run a -- --image => run a --image [] 4 mod 1000000
run a b --observe => usage
run - - --observe => usage
run a b --observe --image => run a b [] 4 mod 1000000 image observe
run --image a --observe b => run a b [] 4 mod 1000000 image observe
run a b --observe --observe --image => usage
run a b --observe=1 --image => usage
run a b --help => usage
run a b --version => usage
run a b -h => usage
run a b -V => usage
run a b --no-image => usage
run a b --= => usage
run a b --=x => usage
run --workers 2 --partition block --turns 3 --image --observe a b c=1 => run a b [c=1] 2 block 3 image observe
run --help => usage
--help => usage
--version => usage
-h => usage
help => usage
Run a b => usage
run=a b => usage
--workers 8 run a b => usage
-- run a b => usage
 => usage
 run a b => usage
check => usage
check a => check a
check - => check -
check  => check 
check a b => usage
check -- a => check a
check a -- => check a
check -- --image => check --image
check - --image => usage
check a --workers 8 => usage
check a --format mtx => usage
check a --turns 8 => usage
check --help => usage
check -a => usage
check a x=1 => usage
compile => usage
compile a => compile a
compile - => compile -
compile a b => usage
compile -- -a => compile -a
compile a --observe => usage
compile a --format=edges => usage
compile a --partition mod => usage
exec => usage
exec a => usage
exec a b => exec a b [] 4 mod 1000000
exec - - root=9 => exec - - [root=9] 4 mod 1000000
exec a b --observe => exec a b [] 4 mod 1000000 observe
exec --observe a b => exec a b [] 4 mod 1000000 observe
exec a b --observe --observe => usage
exec a b --observe=yes => usage
exec a b --image => usage
exec a b --image --observe => usage
exec a b --workers 64 --partition=spread:9 --turns 7 => exec a b [] 64 spread:9 7
exec a b --workers 65 => usage
exec a b --format mtx => exec a b [] 4 mod 1000000 mtx
exec a b --format=edges --observe => exec a b [] 4 mod 1000000 observe
exec a b --format mtx --format mtx => usage
exec a b --format real => usage
exec a b root => usage
exec a b -- -x=1 => exec a b [-x=1] 4 mod 1000000
demo => usage
demo 0 => usage
demo 1 => demo 1 4 mod 1000000
demo 1000000 => demo 1000000 4 mod 1000000
demo 1000001 => usage
demo 0000000000000001000 => demo 1000 4 mod 1000000
demo 00000000000000001000 => usage
demo -5 => usage
demo -- 5 => demo 5 4 mod 1000000
demo -- -5 => usage
demo - => usage
demo x => usage
demo 5 6 => usage
demo 5 k=1 => usage
demo 5 --workers 3 --partition block => demo 5 3 block 1000000
demo --workers=3 5 => demo 5 3 mod 1000000
demo 5 --turns 3 => usage
demo 5 --format edges => usage
demo 5 --format mtx => usage
demo 5 --image => usage
demo 5 --observe => usage";

// How nodes are dealt out.
fn owner_text(alloc: Global, owner: Owner) -> Result<String, AllocError> {
    match owner {
        Owner::Mod => String::from_str(alloc, "mod"),
        Owner::Block => String::from_str(alloc, "block"),
        Owner::Spread(shift) => format!(in alloc; "spread:{shift}"),
    }
}

// The word of a format.
fn format_word(format: Format) -> &'static str {
    match format {
        Format::Edges => "",
        Format::Mtx => " mtx",
    }
}

// The word of an option, where it is given.
fn given_word(given: bool, word: &'static str) -> &'static str {
    if given { word } else { "" }
}

// The options behind a command.
fn options_text(alloc: Global, options: Options, image: bool) -> Result<String, AllocError> {
    let owner = owner_text(alloc, options.owner)?;
    let format = format_word(options.format);
    let image = given_word(image, " image");
    let observe = given_word(options.observe, " observe");
    let (workers, turns) = (options.workers, options.turns);
    format!(in alloc; "{workers} {owner} {turns}{format}{image}{observe}")
}

// Writes a word, behind a space where it is not the first.
fn put_word(text: &mut String, word: &str) -> Result<(), AllocError> {
    if !text.is_empty() {
        text.push_str(" ")?;
    }
    text.push_str(word)
}

fn args_text(alloc: Global, args: &[Text]) -> Result<String, AllocError> {
    let mut text = String::new(alloc);
    for arg in args {
        put_word(&mut text, arg.as_str())?;
    }
    Ok(text)
}

// A command with a program or an image, a graph, the words that assign and the options.
fn run_text(
    alloc: Global,
    command: &str,
    names: (&str, &str),
    args: &[Text],
    options: Options,
    image: bool,
) -> Result<String, AllocError> {
    let args = args_text(alloc, args)?;
    let how = options_text(alloc, options, image)?;
    let (first, second) = names;
    format!(in alloc; "{command} {first} {second} [{args}] {how}")
}

fn demo_text(alloc: Global, n: u32, options: Options) -> Result<String, AllocError> {
    let how = options_text(alloc, options, false)?;
    format!(in alloc; "demo {n} {how}")
}

fn named_text(alloc: Global, command: &str, name: &str) -> Result<String, AllocError> {
    format!(in alloc; "{command} {name}")
}

fn job_text(alloc: Global, job: &Job) -> Result<String, AllocError> {
    match job {
        Job::Run {
            prog,
            graph,
            args,
            options,
            image,
        } => run_text(
            alloc,
            "run",
            (prog.as_str(), graph.as_str()),
            args.as_slice(),
            *options,
            *image,
        ),
        Job::Check { prog } => named_text(alloc, "check", prog.as_str()),
        Job::Compile { prog } => named_text(alloc, "compile", prog.as_str()),
        Job::Exec {
            image,
            graph,
            args,
            options,
        } => run_text(
            alloc,
            "exec",
            (image.as_str(), graph.as_str()),
            args.as_slice(),
            *options,
            false,
        ),
        Job::Demo { n, options } => demo_text(alloc, *n, *options),
    }
}

fn answer_text(alloc: Global, words: &[String]) -> Result<String, AllocError> {
    match read_words(alloc, words) {
        Ok(job) => job_text(alloc, &job),
        Err(WordsStop::Usage) => String::from_str(alloc, "usage"),
        Err(WordsStop::NoMemory) => String::from_str(alloc, "no memory"),
    }
}

fn words_of(alloc: Global, line: &str) -> Result<Vec<String>, AllocError> {
    let mut words = Vec::new(alloc);
    for word in line.split(' ') {
        words.push(String::from_str(alloc, word)?)?;
    }
    Ok(words)
}

// What a line of words asks for.
fn line_text(alloc: Global, line: &str) -> Result<String, AllocError> {
    let words = words_of(alloc, line)?;
    answer_text(alloc, words.as_slice())
}

// Compares what the words of a row ask for.
fn check(rt: &(impl Abort + AllocGlobal), row: &str) -> Result<(), Fail> {
    let (line, job) = sides_at(row, " => ")?;
    let found = line_text(rt.alloc(), line)?;
    same_found(rt, line, found.as_str(), job);
    Ok(())
}

#[test]
fn no_words_ask_for_nothing(rt: HostRuntime) -> Result<(), Fail> {
    let found = answer_text(rt.alloc(), &[])?;
    same_found(&rt, "no words", found.as_str(), "usage");
    Ok(())
}

#[test]
fn jobs(rt: HostRuntime) -> Result<(), Fail> {
    let mut read = 0usize;
    for row in ROWS.lines() {
        check(&rt, row)?;
        read = read.saturating_add(1);
    }
    same(&rt, 0, read, 210);
    Ok(())
}
