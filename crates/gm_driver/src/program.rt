//! The one call that does all that the program does.

ghost use Rattle.std.specs.Prelude.{◌≡◌, ◌≢◌, ◌≤◌, ℕ, List, [], Some, IfOk, map, string_bytes};
ghost use Rattle.gm_base.specs.declared.statuses.Status.TheVariants.{ReadFault, WriteFault, NoMemory as MemoryOut};
ghost use Rattle.gm_base.specs.declared.statuses.Status.{Status};
ghost use Rattle.gm_files.specs.Streams.{Rises, with_more, GrowsByPrefix};
ghost use Rattle.gm_words.specs.Jobs.{AllAssign, AreRight, IsRight};
ghost use Rattle.gm_words.specs.declared.jobs.Job.TheVariants as job;
ghost use Rattle.gm_observe.specs.declared.notes.Note.{Note};
ghost use Rattle.gm_input.specs.Outside.{Outside, outside};
ghost use Rattle.gm_driver.specs.Whole.{IsAnswerStatus, IsJobReply, IsReply, IsWrittenStatus, NoneMissed, SomeMiss};

use crate::answers::usage;
use crate::demos::demo;
use crate::programs::{check, compile};
use crate::runs::{run, show};
use gm_base::{Failed, Gate, Items, NoMemory, Status, Text};
use gm_exec::exec;
use gm_files::{Files, Sink, Source, write_all};
use gm_input::Answer;
use gm_observe::Observer;
use gm_words::{Job, Options, WordsStop, read_words};
use std::alloc::Global;
use std::sync::Wait;
use std::thread::Threads;

// The reply for the check of a program.
fn check_job<S: Source, F: Files>(
    alloc: Global,
    prog: &Text,
    input: &mut S,
    files: &mut F,
) -> Result<Answer, NoMemory>
    ensures { IfOk result (λ a. (ways : List (List Note → List ℕ)) → (held : List (List Note)) → IsJobReply (Some (job.Check prog.now)) ways held
        (outside S.Source F.Files input.old files.old) (outside S.Source F.Files input.new files.new) a.text.items a.status) }
{
    check(alloc, prog.as_str(), input, files)
}

// The reply for the compilation of a program.
fn compile_job<S: Source, F: Files>(
    alloc: Global,
    prog: &Text,
    input: &mut S,
    files: &mut F,
) -> Result<Answer, NoMemory>
    ensures { IfOk result (λ a. (ways : List (List Note → List ℕ)) → (held : List (List Note)) → IsJobReply (Some (job.Compile prog.now)) ways held
        (outside S.Source F.Files input.old files.old) (outside S.Source F.Files input.new files.new) a.text.items a.status) }
{
    compile(alloc, prog.as_str(), input, files)
}

// The reply for the run of a program, which shows its image or does not. The observers may be told of the first alone.
fn run_job<R: Threads + Wait + Sync, S: Source, F: Files, G: Gate>(
    rt: &R,
    alloc: Global,
    prog: &Text,
    graph: &Text,
    args: &Items<Text>,
    options: &Options,
    image: bool,
    input: &mut S,
    files: &mut F,
    gate: &G,
    observers: &mut [Box<dyn Observer>],
) -> Result<Answer, NoMemory>
    requires assign { AllAssign args.now }
    requires right { AreRight options.now }
    ensures { IfOk result (λ a. IsJobReply (Some (job.Run prog.now graph.now args.now options.now image)) (map (λ o. says_of o) observers.old) (map (λ o. seen o) observers.old)
        (outside S.Source F.Files input.old files.old) (outside S.Source F.Files input.new files.new) a.text.items a.status) }
{
    let program = prog.as_str();
    let over = graph.as_str();
    let words = args.as_slice();
    if image {
        show(
            rt, alloc, program, over, words, options, input, files, gate, observers,
        )
    } else {
        run(rt, alloc, program, over, words, options, input, files, gate)
    }
}

// The reply for the run of an image, which the observers are told of or not.
fn exec_job<R: Threads + Wait + Sync, S: Source, F: Files, G: Gate>(
    rt: &R,
    alloc: Global,
    image: &Text,
    graph: &Text,
    args: &Items<Text>,
    options: &Options,
    input: &mut S,
    files: &mut F,
    gate: &G,
    observers: &mut [Box<dyn Observer>],
) -> Result<Answer, NoMemory>
    requires assign { AllAssign args.now }
    requires right { AreRight options.now }
    ensures { IfOk result (λ a. IsJobReply (Some (job.Exec image.now graph.now args.now options.now)) (map (λ o. says_of o) observers.old) (map (λ o. seen o) observers.old)
        (outside S.Source F.Files input.old files.old) (outside S.Source F.Files input.new files.new) a.text.items a.status) }
{
    let text = image.as_str();
    let over = graph.as_str();
    let words = args.as_slice();
    exec(
        rt, alloc, text, over, words, options, input, files, gate, observers,
    )
}

// The reply for a demonstration.
fn demo_job<R: Threads + Wait + Sync, G: Gate>(
    rt: &R,
    alloc: Global,
    nodes: u32,
    options: Options,
    gate: &G,
) -> Result<Answer, NoMemory>
    requires some { 1 ≤ nodes }
    requires few { nodes ≤ 1000000 }
    requires right { AreRight options }
    ensures { IfOk result (λ a. (ways : List (List Note → List ℕ)) → (held : List (List Note)) → (o : Outside) → IsJobReply (Some (job.Demo nodes options)) ways held o o a.text.items a.status) }
{
    demo(rt, alloc, nodes, options, gate)
}

// The reply for a job.
fn reply_for<R: Threads + Wait + Sync, S: Source, F: Files, G: Gate>(
    rt: &R,
    alloc: Global,
    job: &Job,
    input: &mut S,
    files: &mut F,
    gate: &G,
    observers: &mut [Box<dyn Observer>],
) -> Result<Answer, NoMemory>
    requires { IsRight job.now }
    ensures { IfOk result (λ a. IsJobReply (Some job.now) (map (λ o. says_of o) observers.old) (map (λ o. seen o) observers.old)
        (outside S.Source F.Files input.old files.old) (outside S.Source F.Files input.new files.new) a.text.items a.status) }
{
    match job {
        Job::Run {
            prog,
            graph,
            args,
            options,
            image,
        } => run_job(
            rt, alloc, prog, graph, args, options, *image, input, files, gate, observers,
        ),
        Job::Check { prog } => check_job(alloc, prog, input, files),
        Job::Demo { n, options } => demo_job(rt, alloc, *n, *options, gate),
        Job::Exec {
            image,
            graph,
            args,
            options,
        } => exec_job(
            rt, alloc, image, graph, args, options, input, files, gate, observers,
        ),
        Job::Compile { prog } => compile_job(alloc, prog, input, files),
    }
}

// What is to be written for some words, and the status.
fn reply<R: Threads + Wait + Sync, S: Source, F: Files, G: Gate>(
    rt: &R,
    alloc: Global,
    words: &[String],
    input: &mut S,
    files: &mut F,
    gate: &G,
    observers: &mut [Box<dyn Observer>],
) -> Result<Answer, NoMemory>
    ensures { IfOk result (λ a. IsReply (map string_bytes words.now) (map (λ o. says_of o) observers.old) (map (λ o. seen o) observers.old)
        (outside S.Source F.Files input.old files.old) (outside S.Source F.Files input.new files.new) a.text.items a.status) }
{
    match read_words(alloc, words) {
        Ok(job) => reply_for(rt, alloc, &job, input, files, gate, observers),
        Err(WordsStop::Usage) => usage(alloc),
        Err(WordsStop::NoMemory) => Err(NoMemory),
    }
}

/// Does what the words of the command line ask for, the name of the program not among them, with `input` as standard
/// input and `files` as the files that the words name, and writes the answer to `out` in one piece. A file name `-`
/// stands for standard input.
///
/// `check PROG` answers `accepted`, or the rule that the program breaks with its place. `compile PROG` checks the program in
/// the same way, and answers the text of its image. `run PROG GRAPH NAME=VALUE ..` runs that image over the graph by
/// `--workers` workers, among whom the nodes are dealt out by `--partition`, and each worker enters the gate before it
/// computes a superstep; what is written is what the program means. Where both names are `-`, the graph stands behind the first
/// line that is exactly `%%`. With `--image` the text of the image stands first, and the last line has the supersteps and messages
/// of its run. `exec IMAGE GRAPH NAME=VALUE ..` reads and judges an image, and runs it over the graph. With `--observe` each of
/// the observers is told one note for each superstep of a run with `--image` or of `exec`, and their reports follow the listing,
/// in their order. With `--format mtx` the graph of `run` and `exec` is a Matrix Market text. `demo N` runs the shortest paths
/// over a graph of N nodes that it makes itself, by their image and the workers as `run` does. Words that ask for no job are
/// answered by the usage line.
///
/// A few kinds of programs have no image yet: `run` evaluates them on one thread, and `compile` and `run --image` answer
/// `program NoImage`.
///
/// Afterwards there are no observers: each of them is let go, whether an answer was written or not.
///
/// Where neither a read, a write nor memory failed, the sink grew by exactly the reply for these words and these
/// bytes, and the answer is its status.
pub fn gm<R: Threads + Wait + Sync, S: Source, F: Files, K: Sink, G: Gate>(
    rt: &R,
    alloc: Global,
    words: &[String],
    input: &mut S,
    files: &mut F,
    out: &mut K,
    gate: &G,
    observers: &mut Vec<Box<dyn Observer>>,
) -> Status
    // What was written is the reply for these words, for the bytes that the source had left and for the files, whole.
    ensures written { IsWrittenStatus result → (text : List ℕ) × IsReply (map string_bytes words.now) (map (λ o. says_of o) observers.old.items) (map (λ o. seen o) observers.old.items)
        (outside S.Source F.Files input.old files.old) (outside S.Source F.Files input.new files.new) text result
        × (K.taken out.new ≡ with_more (K.taken out.old) text) }

    // No read failed and no file was absent, or the status is that of a read, a write or memory that failed.
    ensures none_missed { IsAnswerStatus result → NoneMissed
        (outside S.Source F.Files input.old files.old) (outside S.Source F.Files input.new files.new) }
    ensures read_fault { result ≡ ReadFault → SomeMiss
        (outside S.Source F.Files input.old files.old) (outside S.Source F.Files input.new files.new) }
    ensures sink_quiet { result ≢ WriteFault → K.write_faults out.new ≡ K.write_faults out.old }
    ensures write_fault { result ≡ WriteFault → Rises (K.write_faults out.old) (K.write_faults out.new) }

    // After a failed write a part of the reply was written, from its front; without memory nothing.
    ensures prefix { result ≡ WriteFault → (text : List ℕ) × ((status : Status) × IsReply (map string_bytes words.now) (map (λ o. says_of o) observers.old.items) (map (λ o. seen o) observers.old.items)
        (outside S.Source F.Files input.old files.old) (outside S.Source F.Files input.new files.new) text status
        × GrowsByPrefix (K.taken out.old) (K.taken out.new) text) }
    ensures nothing { result ≡ MemoryOut → K.taken out.new ≡ K.taken out.old }

    // The observers were let go, whatever came of it.
    ensures emptied { observers.new.items ≡ [] }
{
    let replied = reply(rt, alloc, words, input, files, gate, observers);
    observers.clear();
    let Ok(answer) = replied else {
        return Status::NoMemory;
    };
    match write_all(out, &answer.text) {
        Ok(()) => answer.status,
        Err(Failed) => Status::WriteFault,
    }
}
