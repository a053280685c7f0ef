//! Programs that are compiled, and their runs by workers over a graph text.

ghost use Rattle.std.specs.Prelude.{◌≡◌, ◌++◌, List, ℕ, IfOk, IfErr, IfSome, OnOk, Ok, is_some, length, map};
ghost use Rattle.gm_ast.specs.Program.{Program};
ghost use Rattle.gm_ast.specs.Tree.{program_of};
ghost use Rattle.gm_canon.specs.Verdict.{StandsFor};
ghost use Rattle.gm_compile.specs.Compiled.{Represents, compiled as compiled_lem, has_image};
ghost use Rattle.gm_image.specs.Views.{program};
ghost use Rattle.gm_model.specs.Graphs.{IsGraph};
ghost use Rattle.gm_machine.specs.Machine.{machine};
ghost use Rattle.gm_machine.specs.Masters.{FitsGraph};
ghost use Rattle.gm_machine.specs.Notes.{noted};
ghost use Rattle.gm_listing.specs.Listing.{status_of as status_of_lem};
ghost use Rattle.gm_observe.specs.Audience.{reports, told_to_all};
ghost use Rattle.gm_exec.specs.Runs.{audience, held_after, reports_after};
ghost use Rattle.gm_words.specs.Arguments.{values_bound};
ghost use Rattle.gm_words.specs.Jobs.{AllAssign, AreRight};
ghost use Rattle.gm_input.specs.Answers.{IsGraphOf, format_of};
ghost use Rattle.gm_input.specs.Halts.{IfAnswered, IfSaid};
ghost use Rattle.gm_input.specs.Texts.{Says};
ghost use Rattle.gm_source_runs.specs.Answers.{HasOutcome, IsTextAnswer, IsUnready};
ghost use Rattle.gm_run.specs.Compiled.{HasRows, IsShown, IsShownAnswer, RunsAs, shown_text};
ghost use Rattle.gm_source_runs.specs.Programs.{inputs_of, shape_of};

use crate::interfaces::{Interface, interface_of};
use gm_ast::forms::Work;
use gm_ast::tree::Declaration;
use gm_base::{Gate, NoMemory, Text};
use gm_compile::compile;
use gm_exec::walks_of;
use gm_graph::Graph;
use gm_image::Sound;
use gm_image_text::write_image;
use gm_input::{Answer, Halt, arguments, graph_of};
use gm_listing::Ending;
use gm_model::RunEnd;
use gm_observe::{Observer, report_all};
use gm_source_runs::{Evaluated, answer_for};
use gm_value::Value;
use gm_words::Options;
use gm_workers::run;
use std::alloc::Global;
use std::sync::Wait;
use std::thread::Threads;

/// A program that was compiled: its image, and what is kept of the program itself.
#[derive(Drop)]
pub struct Compiled {
    pub image: Sound,
    pub interface: Interface,
}

// A graph over which a program may run, and the values of its scalar inputs.
#[derive(Drop)]
struct Ready {
    graph: Graph,
    args: Vec<Value>,
}

// An image with what is kept of its program: its graph has rows for the walks that the image takes.
fn with_image(interface: Interface, image: Sound) -> Compiled
    ensures image { result.image ≡ image }
    ensures nodes { result.interface.shape.nodes ≡ interface.shape.nodes }
    ensures edges { result.interface.shape.edges ≡ interface.shape.edges }
    ensures inputs { result.interface.inputs.items ≡ interface.inputs.items }
    ensures outputs { result.interface.outputs.items ≡ interface.outputs.items }
{
    let mut interface = interface;
    interface.shape.walks = walks_of(image.image());
    Compiled { image, interface }
}

/// Compiles a checked program, whose tree is let go. None where no image is made of it yet.
pub fn compile_program(alloc: Global, work: Work) -> Result<Option<Compiled>, NoMemory>
    ensures made { IfOk result (λ r. IfSome r (λ it. program it.image ≡ compiled_lem (program_of work))) }
    ensures which { IfOk result (λ r. is_some r ≡ has_image (program_of work)) }
    ensures represents { IfOk result (λ r. IfSome r (λ it. (text : List ℕ) → StandsFor text (program_of work) → Represents (program it.image) (program_of work))) }
    ensures runs { IfOk result (λ r. IfSome r (λ it. (text : List ℕ) → StandsFor text (program_of work) → RunsAs it (program_of work))) }
{
    let interface = interface_of(alloc, work.tree())?;
    let made = compile(alloc, work)?;
    match made {
        Some(image) => Ok(Some(with_image(interface, image))),
        None => Ok(None),
    }
}

// The graph that a text stands for and the values of the scalar inputs, or the answer that says what is wrong with the text or
// with the words.
fn make_ready(
    alloc: Global,
    interface: &Interface,
    words: &[Text],
    options: &Options,
    text: Vec<u8>,
) -> Result<Ready, Halt>
    requires { AllAssign words.now }
    ensures known { IfOk result (λ r. IsGraph r.graph) }
    ensures graph { IfOk result (λ r. IsGraphOf (format_of options.now.format) interface.now.shape text.items r.graph) }
    ensures columns { IfOk result (λ r. length r.graph.edge_columns ≡ length interface.now.shape.edges) }
    ensures values { IfOk result (λ r. values_bound interface.now.inputs.items words.now r.graph.numbers ≡ Ok r.args.items) }
    ensures halt { IfErr result (λ halt. IfAnswered halt (λ a. IsUnready (format_of options.now.format) interface.now.shape interface.now.inputs.items words.now text.items a.text.items a.status)) }
{
    let graph = graph_of(alloc, options.format, text, &interface.shape)?;
    let args = arguments(alloc, &interface.inputs, words, &graph)?;
    let _nodes = graph.node_count();
    Ok(Ready { graph, args })
}

// How the run of an image ends, of which nobody is told.
fn run_alone<R: Threads + Wait + Sync, G: Gate>(
    rt: &R,
    alloc: Global,
    image: &Sound,
    over: &Ready,
    options: &Options,
    gate: &G,
) -> Result<RunEnd, NoMemory>
    requires columns { FitsGraph image.now over.now.graph }
    requires right { AreRight options.now }
    ensures { IfOk result (λ end. end ≡ machine (program image.now) over.now.graph over.now.args.items options.now.turns) }
{
    let mut nobody: Vec<Box<dyn Observer>> = Vec::new(alloc);
    let end = run(
        rt,
        alloc,
        image,
        &over.graph,
        &over.args,
        options.owner,
        options.workers,
        options.turns,
        gate,
        &mut nobody,
    )?;
    Ok(end)
}

// How the run of an image ends, of whose supersteps all observers are told, in their order.
fn run_told<R: Threads + Wait + Sync, G: Gate>(
    rt: &R,
    alloc: Global,
    image: &Sound,
    over: &Ready,
    options: &Options,
    gate: &G,
    observers: &mut [Box<dyn Observer>],
) -> Result<RunEnd, NoMemory>
    requires columns { FitsGraph image.now over.now.graph }
    requires right { AreRight options.now }
    ensures end { IfOk result (λ end. end ≡ machine (program image.now) over.now.graph over.now.args.items options.now.turns) }
    ensures told { OnOk result (map (λ o. seen o) observers.new
        ≡ told_to_all (noted (program image.now) over.now.graph over.now.args.items options.now.turns) (map (λ o. seen o) observers.old)) }
    ensures same_ways { map (λ o. says_of o) observers.new ≡ map (λ o. says_of o) observers.old }
{
    let end = run(
        rt,
        alloc,
        image,
        &over.graph,
        &over.args,
        options.owner,
        options.workers,
        options.turns,
        gate,
        observers,
    )?;
    Ok(end)
}

// How the run of an image ends, of which all observers are told where the options have it watched, and else nobody.
fn run_watched<R: Threads + Wait + Sync, G: Gate>(
    rt: &R,
    alloc: Global,
    image: &Sound,
    over: &Ready,
    options: &Options,
    gate: &G,
    observers: &mut [Box<dyn Observer>],
) -> Result<RunEnd, NoMemory>
    requires columns { FitsGraph image.now over.now.graph }
    requires right { AreRight options.now }
    ensures end { IfOk result (λ end. end ≡ machine (program image.now) over.now.graph over.now.args.items options.now.turns) }
    ensures told { OnOk result (map (λ o. seen o) observers.new
        ≡ held_after options.now.observe (noted (program image.now) over.now.graph over.now.args.items options.now.turns) (map (λ o. seen o) observers.old)) }
    ensures same_ways { map (λ o. says_of o) observers.new ≡ map (λ o. says_of o) observers.old }
{
    if options.observe {
        run_told(rt, alloc, image, over, options, gate, observers)
    } else {
        run_alone(rt, alloc, image, over, options, gate)
    }
}

// The answer for how the run of an image ended, where the image is shown and these are the declarations of the outputs.
fn shown(
    alloc: Global,
    image: &Sound,
    outputs: &[Declaration],
    graph: &Graph,
    end: &RunEnd,
) -> Result<Answer, NoMemory>
    ensures { IfOk result (λ a. Says a.text.items a.status (shown_text (program image.now) outputs.now graph.now end.now) (status_of_lem end.now.outcome)) }
{
    let ending = Ending::Counts {
        supersteps: end.supersteps,
        messages: end.messages,
    };
    let lines = answer_for(alloc, outputs, graph, &end.outcome, ending)?;
    let mut text = write_image(alloc, image)?;
    text.extend_from_slice(&lines.text)?;
    Ok(Answer {
        text,
        status: lines.status,
    })
}

// The answer with the reports of all observers behind it.
fn with_reports(answer: Answer, observers: &[Box<dyn Observer>]) -> Result<Answer, NoMemory>
    ensures text { IfOk result (λ a. a.text.items ≡ answer.text.items ++ reports (map (λ o. says_of o) observers.now) (map (λ o. seen o) observers.now)) }
    ensures status { IfOk result (λ a. a.status ≡ answer.status) }
{
    let mut answer = answer;
    report_all(observers, &mut answer.text)?;
    Ok(answer)
}

// The same, where the run was watched.
fn reported(
    answer: Answer,
    watched: bool,
    observers: &[Box<dyn Observer>],
) -> Result<Answer, NoMemory>
    ensures text { IfOk result (λ a. a.text.items ≡ answer.text.items ++ reports_after watched (map (λ o. says_of o) observers.now) (map (λ o. seen o) observers.now)) }
    ensures status { IfOk result (λ a. a.status ≡ answer.status) }
{
    if watched {
        with_reports(answer, observers)
    } else {
        Ok(answer)
    }
}

/// How a compiled program ends over a graph text, by as many workers as the options say, or the answer that says why it does not
/// run. `words` are the words NAME=VALUE for its scalar inputs; the options give the format of the text, how the nodes are dealt
/// out among the workers, and how many turns may begin. Each worker enters the gate before it computes a superstep.
///
/// What stops it is what stops the program itself: the first fault of the text, or the first faulty argument; and it comes to the
/// outcome that the program means.
pub fn evaluate_compiled<R: Threads + Wait + Sync, G: Gate>(
    rt: &R,
    alloc: Global,
    compiled: &Compiled,
    words: &[Text],
    options: &Options,
    text: Vec<u8>,
    gate: &G,
) -> Result<Evaluated, Halt>
    requires assign { AllAssign words.now }
    requires right { AreRight options.now }
    requires rows { HasRows compiled.now }
    ensures outcome { IfOk result (λ it. (p : Program) → RunsAs compiled.now p → HasOutcome p words.now options.now text.items it.graph it.outcome) }
    ensures halt { IfErr result (λ halt. IfAnswered halt (λ a. (p : Program) → RunsAs compiled.now p → IsUnready (format_of options.now.format) (shape_of p) (inputs_of p) words.now text.items a.text.items a.status)) }
{
    let over = make_ready(alloc, &compiled.interface, words, options, text)?;
    let end = run_alone(rt, alloc, &compiled.image, &over, options, gate)?;
    Ok(Evaluated {
        graph: over.graph,
        outcome: end.outcome,
    })
}

/// The answer of a compiled program over a graph text. It is the answer of the program itself: the first fault of the text, the
/// first faulty argument, or the listing of what the program means.
pub fn run_compiled<R: Threads + Wait + Sync, G: Gate>(
    rt: &R,
    alloc: Global,
    compiled: &Compiled,
    words: &[Text],
    options: &Options,
    text: Vec<u8>,
    gate: &G,
) -> Result<Answer, Halt>
    requires assign { AllAssign words.now }
    requires right { AreRight options.now }
    requires rows { HasRows compiled.now }
    ensures { IfSaid result (λ a. (p : Program) → RunsAs compiled.now p → IsTextAnswer p words.now options.now text.items a.text.items a.status) }
{
    let over = evaluate_compiled(rt, alloc, compiled, words, options, text, gate)?;
    let outputs = &compiled.interface.outputs;
    let answer = answer_for(alloc, outputs, &over.graph, &over.outcome, Ending::Turns)?;
    Ok(answer)
}

// What is written of a run of a compiled program, with the image before it and the reports of those who watched behind.
fn run_shown<R: Threads + Wait + Sync, G: Gate>(
    rt: &R,
    alloc: Global,
    compiled: &Compiled,
    over: &Ready,
    options: &Options,
    gate: &G,
    observers: &mut [Box<dyn Observer>],
) -> Result<Answer, NoMemory>
    requires columns { FitsGraph compiled.now.image over.now.graph }
    requires right { AreRight options.now }
    ensures { IfOk result (λ a. IsShown (program compiled.now.image) compiled.now.interface.outputs.items options.now.turns options.now.observe
        (audience (map (λ o. says_of o) observers.old) (map (λ o. seen o) observers.old) (map (λ o. seen o) observers.new)) over.now.graph over.now.args.items a.text.items a.status) }
{
    let image = &compiled.image;
    let end = run_watched(rt, alloc, image, over, options, gate, observers)?;
    let lines = shown(alloc, image, &compiled.interface.outputs, &over.graph, &end)?;
    let answer = reported(lines, options.observe, observers)?;
    Ok(answer)
}

/// The answer of a compiled program over a graph text, as `run_compiled` gives it, but with the text of the image before the
/// listing, the fault or the cut, and with the supersteps and messages of exactly this image's run in the listing's last line. Where
/// the options have it observed, all observers are told of its supersteps, and their reports stand behind.
pub fn show_compiled<R: Threads + Wait + Sync, G: Gate>(
    rt: &R,
    alloc: Global,
    compiled: &Compiled,
    words: &[Text],
    options: &Options,
    text: Vec<u8>,
    gate: &G,
    observers: &mut [Box<dyn Observer>],
) -> Result<Answer, Halt>
    requires assign { AllAssign words.now }
    requires right { AreRight options.now }
    requires rows { HasRows compiled.now }
    ensures { IfSaid result (λ a. (p : Program) → RunsAs compiled.now p → IsShownAnswer (program compiled.now.image) p words.now options.now
        (audience (map (λ o. says_of o) observers.old) (map (λ o. seen o) observers.old) (map (λ o. seen o) observers.new)) text.items a.text.items a.status) }
{
    let over = make_ready(alloc, &compiled.interface, words, options, text)?;
    let answer = run_shown(rt, alloc, compiled, &over, options, gate, observers)?;
    Ok(answer)
}
