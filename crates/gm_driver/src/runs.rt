//! The road of a program: it is read and judged, and only where it breaks no rule the graph is read, the arguments are
//! judged and the program runs: by its image, whose text is shown before or not, or
//! where it has none as it is.

ghost use Rattle.std.specs.Prelude.{IfErr, IfOk, map};
ghost use Rattle.gm_ast.specs.Program.{Program};
ghost use Rattle.gm_words.specs.Jobs.{AllAssign, AreRight};
ghost use Rattle.gm_input.specs.Answers.{format_of};
ghost use Rattle.gm_input.specs.Halts.{IfAnswered, IfSaid};
ghost use Rattle.gm_input.specs.Outside.{outside};
ghost use Rattle.gm_source_runs.specs.Answers.{HasOutcome, IsTextAnswer, IsUnready};
ghost use Rattle.gm_source_runs.specs.Programs.{inputs_of, shape_of};
ghost use Rattle.gm_exec.specs.Runs.{audience};
ghost use Rattle.gm_driver.specs.Images.{HasRowsOf, IsShownReply, RunsProgram};
ghost use Rattle.gm_driver.specs.Runs.{IsRunReply};

use crate::images::{Runnable, compiled_of_text, runnable_of_text};
use crate::programs::MOST_PROGRAM;
use gm_base::{Gate, NoMemory, Text};
use gm_files::{Files, Source};
use gm_input::{Answer, Halt, read_code, read_graph, settled};
use gm_observe::Observer;
use gm_run::{evaluate_compiled, run_compiled, show_compiled};
use gm_source_runs::{Evaluated, evaluate_text, run_text};
use gm_words::Options;
use std::alloc::Global;
use std::sync::Wait;
use std::thread::Threads;

/// How a program ends over a graph text, by what runs as the program, or the answer that says why it does not run.
pub fn evaluate_over<R: Threads + Wait + Sync, G: Gate>(
    rt: &R,
    alloc: Global,
    it: &Runnable,
    words: &[Text],
    options: &Options,
    text: Vec<u8>,
    gate: &G,
) -> Result<Evaluated, Halt>
    requires assign { AllAssign words.now }
    requires right { AreRight options.now }
    requires rows { HasRowsOf it.now }
    ensures outcome { IfOk result (λ over. (p : Program) → RunsProgram it.now p → HasOutcome p words.now options.now text.items over.graph over.outcome) }
    ensures halt { IfErr result (λ halt. IfAnswered halt (λ a. (p : Program) → RunsProgram it.now p → IsUnready (format_of options.now.format) (shape_of p) (inputs_of p) words.now text.items a.text.items a.status)) }
{
    match it {
        Runnable::Compiled(compiled) => {
            evaluate_compiled(rt, alloc, compiled, words, options, text, gate)
        }
        Runnable::Source(work) => evaluate_text(alloc, work, words, options, text),
    }
}

// The answer of a program over a graph text, by what runs as the program.
fn run_over<R: Threads + Wait + Sync, G: Gate>(
    rt: &R,
    alloc: Global,
    it: &Runnable,
    words: &[Text],
    options: &Options,
    text: Vec<u8>,
    gate: &G,
) -> Result<Answer, Halt>
    requires assign { AllAssign words.now }
    requires right { AreRight options.now }
    requires rows { HasRowsOf it.now }
    ensures { IfSaid result (λ a. (p : Program) → RunsProgram it.now p → IsTextAnswer p words.now options.now text.items a.text.items a.status) }
{
    match it {
        Runnable::Compiled(compiled) => {
            run_compiled(rt, alloc, compiled, words, options, text, gate)
        }
        Runnable::Source(work) => run_text(alloc, work, words, options, text),
    }
}

// The steps of the run of a program, one after the other.
fn run_steps<R: Threads + Wait + Sync, S: Source, F: Files, G: Gate>(
    rt: &R,
    alloc: Global,
    prog: &str,
    graph: &str,
    words: &[Text],
    options: &Options,
    input: &mut S,
    files: &mut F,
    gate: &G,
) -> Result<Answer, Halt>
    requires assign { AllAssign words.now }
    requires right { AreRight options.now }
    ensures { IfSaid result (λ a. IsRunReply prog.now graph.now words.now options.now
        (outside S.Source F.Files input.old files.old) (outside S.Source F.Files input.new files.new) a.text.items a.status) }
{
    let front = read_code(alloc, prog, graph, MOST_PROGRAM, input, files)?;
    let it = runnable_of_text(alloc, front.program)?;
    let text = read_graph(alloc, prog, graph, front.ahead, front.ended, input, files)?;
    run_over(rt, alloc, &it, words, options, text, gate)
}

/// The reply for the run of a program over a graph, by their names. `words` are the words NAME=VALUE for the program's
/// scalar inputs; `options` say what the format of the graph text is, how many workers there are and how the nodes are dealt
/// out among them, and how many turns may begin. Each worker enters the gate before it computes a superstep.
pub fn run<R: Threads + Wait + Sync, S: Source, F: Files, G: Gate>(
    rt: &R,
    alloc: Global,
    prog: &str,
    graph: &str,
    words: &[Text],
    options: &Options,
    input: &mut S,
    files: &mut F,
    gate: &G,
) -> Result<Answer, NoMemory>
    requires assign { AllAssign words.now }
    requires right { AreRight options.now }
    ensures { IfOk result (λ a. IsRunReply prog.now graph.now words.now options.now
        (outside S.Source F.Files input.old files.old) (outside S.Source F.Files input.new files.new) a.text.items a.status) }
{
    let answer = run_steps(rt, alloc, prog, graph, words, options, input, files, gate);
    settled(answer)
}

// The steps of the run of a program whose image is shown, one after the other.
fn show_steps<R: Threads + Wait + Sync, S: Source, F: Files, G: Gate>(
    rt: &R,
    alloc: Global,
    prog: &str,
    graph: &str,
    words: &[Text],
    options: &Options,
    input: &mut S,
    files: &mut F,
    gate: &G,
    observers: &mut [Box<dyn Observer>],
) -> Result<Answer, Halt>
    requires assign { AllAssign words.now }
    requires right { AreRight options.now }
    ensures { IfSaid result (λ a. IsShownReply prog.now graph.now words.now options.now
        (audience (map (λ o. says_of o) observers.old) (map (λ o. seen o) observers.old) (map (λ o. seen o) observers.new))
        (outside S.Source F.Files input.old files.old) (outside S.Source F.Files input.new files.new) a.text.items a.status) }
{
    let front = read_code(alloc, prog, graph, MOST_PROGRAM, input, files)?;
    let compiled = compiled_of_text(alloc, front.program)?;
    let text = read_graph(alloc, prog, graph, front.ahead, front.ended, input, files)?;
    show_compiled(rt, alloc, &compiled, words, options, text, gate, observers)
}

/// The reply for the run of a program over a graph, by their names, with the text of its image before the listing, whose last
/// line has the supersteps and messages of exactly that image's run. The observers are told of it, and report behind the
/// listing, where the options have it observed.
pub fn show<R: Threads + Wait + Sync, S: Source, F: Files, G: Gate>(
    rt: &R,
    alloc: Global,
    prog: &str,
    graph: &str,
    words: &[Text],
    options: &Options,
    input: &mut S,
    files: &mut F,
    gate: &G,
    observers: &mut [Box<dyn Observer>],
) -> Result<Answer, NoMemory>
    requires assign { AllAssign words.now }
    requires right { AreRight options.now }
    ensures { IfOk result (λ a. IsShownReply prog.now graph.now words.now options.now
        (audience (map (λ o. says_of o) observers.old) (map (λ o. seen o) observers.old) (map (λ o. seen o) observers.new))
        (outside S.Source F.Files input.old files.old) (outside S.Source F.Files input.new files.new) a.text.items a.status) }
{
    let answer = show_steps(
        rt, alloc, prog, graph, words, options, input, files, gate, observers,
    );
    settled(answer)
}
