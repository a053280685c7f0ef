//! The replies of small images, with ample memory.

ghost use Rattle.std.specs.Prelude.{◌<◌, [], IfOk};
ghost use Rattle.gm_words.specs.Jobs.{AllAssign, AreRight};

use crate::compare::{same, same_bytes, same_count, sides};
use crate::texts::{text_of, text_of_lines};
use gm_base::{Items, NoMemory, OpenGate, Text};
use gm_exec::exec;
use gm_files::{MemFiles, MemSource};
use gm_input::Answer;
use gm_observe::{Counter, Note, Observer, Table};
use gm_words::{Job, Options, read_words};
use std::alloc::{AllocError, Global};
use std::cell::Cell;
use std::process::Abort;
use std::rc::Rc;
use std::sync::Wait;
use std::test::Fail;
use std::thread::Threads;

// An observer that has no memory for its second note, and reports nothing.
#[derive(Drop)]
struct Forgetful {
    notes: Vec<Note>,
}

impl Observer for Forgetful {
    ghost seen = { λ it. it.notes.items };

    ghost says = { λ _. [] };

    ghost says_of = { λ _ _. [] };

    fn note(&mut self, n: Note) -> Result<(), NoMemory> {
        if !self.notes.is_empty() {
            return Err(NoMemory);
        }
        self.notes.push(n)?;
        Ok(())
    }

    fn report(&self, _out: &mut Vec<u8>) -> Result<(), NoMemory> {
        Ok(())
    }
}

// An observer that counts its notes where others see them, and reports nothing.
#[derive(Drop)]
struct Counted {
    notes: Vec<Note>,
    told: Rc<Cell<u32>>,
}

impl Observer for Counted {
    ghost seen = { λ it. it.notes.items };

    ghost says = { λ _. [] };

    ghost says_of = { λ _ _. [] };

    fn note(&mut self, n: Note) -> Result<(), NoMemory> {
        self.notes.push(n)?;
        self.told.set(self.told.get().saturating_add(1));
        Ok(())
    }

    fn report(&self, _out: &mut Vec<u8>) -> Result<(), NoMemory> {
        Ok(())
    }
}

// The words of a command line.
fn words_of(alloc: Global, line: &str) -> Result<Vec<String>, AllocError> {
    let mut words = Vec::new(alloc);
    for word in line.split(' ') {
        words.push(String::from_str(alloc, word)?)?;
    }
    Ok(words)
}

// The words NAME=VALUE and the options of a command line that runs an image.
fn command(alloc: Global, line: &str) -> Result<(Items<Text>, Options), Fail>
    ensures assign { IfOk result (λ x. AllAssign x.0) }
    ensures right { IfOk result (λ x. AreRight x.1) }
{
    let words = words_of(alloc, line)?;
    match read_words(alloc, words.as_slice())? {
        Job::Exec { args, options, .. } => Ok((args, options)),
        _ => Err("no run")?,
    }
}

// A standard input of this text, which is read in pieces of this size, and of which the read of this number fails.
fn source_of(alloc: Global, text: &[u8], piece: usize, fails: u64) -> Result<MemSource, NoMemory>
    requires piece { 0 < piece }
{
    let fails = vec![in alloc; fails]?;
    Ok(MemSource::new(Vec::from_slice(alloc, text)?, piece, fails))
}

// The answer to the names of an image and a graph, over a standard input and some files.
fn answer_to(
    rt: &(impl Threads + Wait + Sync),
    alloc: Global,
    names: (&str, &str),
    words: &[Text],
    options: &Options,
    input: MemSource,
    files: MemFiles,
    observers: &mut [Box<dyn Observer>],
) -> Result<Answer, NoMemory>
    requires words { AllAssign words.now }
    requires right { AreRight options.now }
{
    let mut input = input;
    let mut files = files;
    exec(
        rt, alloc, names.0, names.1, words, options, &mut input, &mut files, &OpenGate, observers,
    )
}

// One of the observers of the program.
fn counter(alloc: Global) -> Result<Box<dyn Observer>, NoMemory> {
    let counter: Box<dyn Observer> = Box::new(alloc, Counter::new(alloc))?;
    Ok(counter)
}

// The other.
fn table(alloc: Global) -> Result<Box<dyn Observer>, NoMemory> {
    let table: Box<dyn Observer> = Box::new(alloc, Table::new(alloc))?;
    Ok(table)
}

// Two observers in a row.
fn both(
    alloc: Global,
    first: Box<dyn Observer>,
    second: Box<dyn Observer>,
) -> Result<Vec<Box<dyn Observer>>, NoMemory> {
    let mut observers: Vec<Box<dyn Observer>> = Vec::new(alloc);
    observers.push(first)?;
    observers.push(second)?;
    Ok(observers)
}

// A counter and a table.
fn watchers(alloc: Global) -> Result<Vec<Box<dyn Observer>>, NoMemory> {
    both(alloc, counter(alloc)?, table(alloc)?)
}

// No files.
fn no_files(alloc: Global) -> MemFiles {
    MemFiles::new(Vec::new(alloc), Vec::new(alloc))
}

// The answer to a command line over a standard input, watched by these.
fn watched(
    rt: &(impl Threads + Wait + Sync),
    alloc: Global,
    line: &str,
    input: MemSource,
    observers: &mut [Box<dyn Observer>],
) -> Result<Answer, Fail> {
    let (words, options) = command(alloc, line)?;
    let files = no_files(alloc);
    Ok(answer_to(
        rt,
        alloc,
        ("-", "-"),
        words.as_slice(),
        &options,
        input,
        files,
        observers,
    )?)
}

// The answer to a command line over a standard input. A counter and a table watch, if the line says so.
fn reply_of(
    rt: &(impl Threads + Wait + Sync),
    alloc: Global,
    line: &str,
    input: MemSource,
) -> Result<Answer, Fail> {
    let mut observers = watchers(alloc)?;
    watched(rt, alloc, line, input, &mut observers)
}

// Compares an answer with a status by its name, and the lines of a text.
fn compare(
    rt: &impl Abort,
    alloc: Global,
    answer: &Answer,
    status: &str,
    said: &str,
) -> Result<(), Fail> {
    let found = format!(in alloc; "{:?}", answer.status)?;
    same(rt, found.as_str(), status, said);
    let text = text_of_lines(alloc, said)?;
    same_bytes(rt, answer.text.as_slice(), text.as_slice(), said);
    Ok(())
}

// Whether an image is named, not spelled.
fn is_name(image: &str) -> bool {
    image == "total" || image == "count"
}

// The text of an image by its name or its lines.
fn image_text(alloc: Global, image: &str) -> Result<Vec<u8>, AllocError> {
    if is_name(image) {
        Vec::from_slice(alloc, text_of(image).as_bytes())
    } else {
        text_of_lines(alloc, image)
    }
}

// An image by its name or its lines, and the lines of a graph behind it.
fn input_of(alloc: Global, image: &str, rest: &str) -> Result<Vec<u8>, AllocError> {
    let rest = text_of_lines(alloc, rest)?;
    let mut text = image_text(alloc, image)?;
    text.extend_from_slice(&rest)?;
    Ok(text)
}

// The command line, the image, what stands behind it, and what is said.
const REPLIES: &str =
    "exec - - --turns 4|gm-image 1~name total~inputs x|%%~0 x|BadInput|image BadText at line 3;\
    exec - - --turns 4 --observe|gm-image 1|(none)|BadInput|image BadText at line 2;\
    exec - - --turns 4 --observe|gm-image 1~name 7~inputs 0~outputs 0~result -~globals 0~fields 0~registers 0~columns 0~kinds 0~places 0~blocks 0~master 1~end|%%~0 x|BadInput|image I10 at line 2;\
    exec - - --turns 4 --observe x=1|total|%%~0 1~v 0|BadInput|graph MissingColumn at line 2;\
    exec - - --turns 4 --observe x=1|total|%%~0 1|BadInput|argument Unknown x;\
    exec - - --turns 4 --observe|count|(none)|BadInput|argument Missing n;\
    exec - - --turns 4 --observe n=x|count|(none)|BadInput|argument BadValue n;\
    exec - - --turns 4|total|%%~0 1~0 1~1 1~v 0 5~v 1 7|Done|node s~0 0~1 17~supersteps 2 messages 3 turns 0;\
    exec - - --turns 4 --observe|total|%%~0 1~0 1~1 1~v 0 5~v 1 7|Done|node s~0 0~1 17~supersteps 2 messages 3 turns 0~observed 2 supersteps 3 messages~step 1 block 0 vertices 2 messages 3~step 2 block 1 vertices 2 messages 0;\
    exec - - --turns 4 --observe|total|%%~0 1~0 1~v 0 2147483647|Fault|fault Overflow at 2:32~observed 2 supersteps 2 messages~step 1 block 0 vertices 2 messages 2~step 2 block 1 vertices 2 messages 0;\
    exec - - --turns 4 --observe n=4|count|(none)|Done|return = 4~supersteps 0 messages 0 turns 4~observed 0 supersteps 0 messages;\
    exec - - --turns 4 --observe n=5|count|(none)|Cut|cut after 4 turns~observed 0 supersteps 0 messages";

// A standard input of an image by its name or its lines, and the lines of a graph behind it.
fn source_with(
    alloc: Global,
    image: &str,
    rest: &str,
    piece: usize,
    fails: u64,
) -> Result<MemSource, Fail>
    requires piece { 0 < piece }
{
    let text = input_of(alloc, image, rest)?;
    Ok(source_of(alloc, &text, piece, fails)?)
}

// Compares the reply to a command line over an input with the status and the text behind it.
fn compare_reply(
    rt: &(impl Abort + Threads + Wait + Sync),
    alloc: Global,
    line: &str,
    input: MemSource,
    wanted: &str,
) -> Result<(), Fail> {
    let (status, said) = sides(wanted)?;
    let answer = reply_of(rt, alloc, line, input)?;
    compare(rt, alloc, &answer, status, said)
}

// Compares the reply of a case.
fn compare_case(
    rt: &(impl Abort + Threads + Wait + Sync),
    alloc: Global,
    case: &str,
) -> Result<(), Fail> {
    let (line, parts) = sides(case)?;
    let (image, parts) = sides(parts)?;
    let (rest, wanted) = sides(parts)?;
    let input = source_with(alloc, image, rest, 7, 0)?;
    compare_reply(rt, alloc, line, input, wanted)
}

#[test]
fn images_and_then_graphs_and_then_words_are_judged(rt: HostRuntime) -> Result<(), Fail> {
    let mut read = 0usize;
    for case in REPLIES.split(';') {
        compare_case(&rt, rt.alloc(), case)?;
        read = read.saturating_add(1);
    }
    same_count(&rt, read, 12, "cases");
    Ok(())
}

// Sees that the fault of a read is said. Of 200 bytes each read takes 50, and the last finds the end.
fn compare_fault(
    rt: &(impl Abort + Threads + Wait + Sync),
    alloc: Global,
    read: u64,
) -> Result<(), Fail> {
    let input = source_with(alloc, "count", "%%~0 1", 50, read)?;
    compare_reply(
        rt,
        alloc,
        "exec - - --turns 4 --observe n=4",
        input,
        "ReadFault|read fault -",
    )
}

#[test]
fn a_failed_read_is_said(rt: HostRuntime) -> Result<(), Fail> {
    for read in 1..6 {
        compare_fault(&rt, rt.alloc(), read)?;
    }
    Ok(())
}

// Adds a file.
fn put_file(
    alloc: Global,
    files: &mut Vec<(String, Vec<u8>)>,
    name: &str,
    text: &str,
) -> Result<(), AllocError> {
    let bytes = Vec::from_slice(alloc, text.as_bytes())?;
    files.push((String::from_str(alloc, name)?, bytes))?;
    Ok(())
}

// The files `image` and `graph`.
fn shelf(alloc: Global) -> Result<MemFiles, AllocError> {
    let mut shelf = Vec::new(alloc);
    put_file(alloc, &mut shelf, "image", text_of("count"))?;
    put_file(alloc, &mut shelf, "graph", "0 1\n")?;
    Ok(MemFiles::new(shelf, Vec::new(alloc)))
}

// The names of the image and of the graph, what stands on standard input, and what is said.
const NAMES: &str = "image|graph|(none)|Done|return = 4~supersteps 0 messages 0 turns 4;\
    -|graph|count|Done|return = 4~supersteps 0 messages 0 turns 4;\
    image|-|0 1|Done|return = 4~supersteps 0 messages 0 turns 4;\
    image|-|0 x|BadInput|graph BadLine at line 1;\
    graph|nothing|(none)|BadInput|image BadText at line 1;\
    nothing|graph|(none)|ReadFault|absent nothing;\
    image|nothing|(none)|ReadFault|absent nothing";

// The answer to the names of an image and a graph, over the files of the shelf and a standard input.
fn answer_to_names(
    rt: &(impl Threads + Wait + Sync),
    alloc: Global,
    names: (&str, &str),
    text: &[u8],
) -> Result<Answer, Fail> {
    let (words, options) = command(alloc, "exec - - --turns 4 n=4")?;
    let input = source_of(alloc, text, 9, 0)?;
    let files = shelf(alloc)?;
    Ok(answer_to(
        rt,
        alloc,
        names,
        words.as_slice(),
        &options,
        input,
        files,
        &mut [],
    )?)
}

// Compares the reply to the names of an image and a graph, over a standard input, with the status and the text behind it.
fn compare_names(
    rt: &(impl Abort + Threads + Wait + Sync),
    alloc: Global,
    names: (&str, &str),
    text: &[u8],
    wanted: &str,
) -> Result<(), Fail> {
    let (status, said) = sides(wanted)?;
    let answer = answer_to_names(rt, alloc, names, text)?;
    compare(rt, alloc, &answer, status, said)
}

// The same of a case.
fn compare_named(
    rt: &(impl Abort + Threads + Wait + Sync),
    alloc: Global,
    case: &str,
) -> Result<(), Fail> {
    let (image, parts) = sides(case)?;
    let (graph, parts) = sides(parts)?;
    let (input, wanted) = sides(parts)?;
    let text = input_of(alloc, input, "(none)")?;
    compare_names(rt, alloc, (image, graph), &text, wanted)
}

#[test]
fn names_are_read(rt: HostRuntime) -> Result<(), Fail> {
    let mut read = 0usize;
    for case in NAMES.split(';') {
        compare_named(&rt, rt.alloc(), case)?;
        read = read.saturating_add(1);
    }
    same_count(&rt, read, 7, "cases");
    Ok(())
}

// One that has no memory for its second note.
fn one_that_forgets(alloc: Global) -> Result<Box<dyn Observer>, NoMemory> {
    let notes = Vec::new(alloc);
    let forgetful: Box<dyn Observer> = Box::new(alloc, Forgetful { notes })?;
    Ok(forgetful)
}

// One that counts.
fn one_that_counts(alloc: Global, told: Rc<Cell<u32>>) -> Result<Box<dyn Observer>, NoMemory> {
    let notes = Vec::new(alloc);
    let counted: Box<dyn Observer> = Box::new(alloc, Counted { notes, told })?;
    Ok(counted)
}

// One that has no memory for its second note, and behind it one that counts.
fn forgetful_and_counted(
    alloc: Global,
    told: Rc<Cell<u32>>,
) -> Result<Vec<Box<dyn Observer>>, NoMemory> {
    let counted = one_that_counts(alloc, told)?;
    both(alloc, one_that_forgets(alloc)?, counted)
}

// Whether the image `total` is answered, watched by these.
fn is_answered(
    rt: &(impl Threads + Wait + Sync),
    alloc: Global,
    line: &str,
    observers: &mut [Box<dyn Observer>],
) -> Result<bool, Fail> {
    let (words, options) = command(alloc, line)?;
    let input = source_with(alloc, "total", "%%~0 1", 1000, 0)?;
    let files = no_files(alloc);
    let answer = answer_to(
        rt,
        alloc,
        ("-", "-"),
        words.as_slice(),
        &options,
        input,
        files,
        observers,
    );
    Ok(answer.is_ok())
}

// Compares whether the image `total` is answered, and how many notes the one that counts was told by then.
fn compare_told(
    rt: &(impl Abort + Threads + Wait + Sync),
    alloc: Global,
    line: &str,
    observers: &mut [Box<dyn Observer>],
    told: &Rc<Cell<u32>>,
    want: (bool, u32),
) -> Result<(), Fail> {
    let answered = is_answered(rt, alloc, line, observers)?;
    assert!(rt; answered == want.0 && told.get() == want.1, "{line}");
    Ok(())
}

#[test]
fn one_without_memory_stops_the_telling(rt: HostRuntime) -> Result<(), Fail> {
    let told = Rc::new(rt.alloc(), Cell::new(0u32))?;
    let mut observers = forgetful_and_counted(rt.alloc(), Rc::clone(&told)?)?;
    // where the run is not watched nobody is told
    let line = "exec - - --turns 4";
    compare_told(&rt, rt.alloc(), line, &mut observers, &told, (true, 0))?;
    // the first has no memory for its second note, and the one behind it is not told
    let line = "exec - - --turns 4 --observe";
    compare_told(&rt, rt.alloc(), line, &mut observers, &told, (false, 1))
}
