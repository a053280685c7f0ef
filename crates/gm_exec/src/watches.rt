//! The run of an image over a graph, watched or not, and its listing with the reports of those who watched.

ghost use Rattle.std.specs.Prelude.{◌≡◌, ◌++◌, true, false, IfOk, map};
ghost use Rattle.gm_image.specs.Views.{program};
ghost use Rattle.gm_words.specs.Jobs.{AreRight};
ghost use Rattle.gm_input.specs.Texts.{Says};
ghost use Rattle.gm_listing.specs.Listing.{status_of as status_of_lem};
ghost use Rattle.gm_machine.specs.Machine.{machine};
ghost use Rattle.gm_machine.specs.Masters.{FitsGraph};
ghost use Rattle.gm_machine.specs.Notes.{noted};
ghost use Rattle.gm_observe.specs.Audience.{IsToldInPart, reports, told_to_all};
ghost use Rattle.gm_exec.specs.Runs.{Ran, audience, end_text};

use crate::programs::{property_names, scalar_names};
use gm_base::{Gate, NoMemory};
use gm_graph::Graph;
use gm_image::{Image, Sound};
use gm_input::Answer;
use gm_listing::{Ending, Outputs, listing, status_of};
use gm_model::RunEnd;
use gm_observe::{Observer, report_all};
use gm_value::Value;
use gm_words::Options;
use gm_workers::run;
use std::alloc::Global;
use std::sync::Wait;
use std::thread::Threads;

// The answer for how a run of an image over a graph ended.
fn listed(alloc: Global, image: &Image, graph: &Graph, end: &RunEnd) -> Result<Answer, NoMemory>
    ensures { IfOk result (λ a. Says a.text.items a.status (end_text (program image.now) graph.now end.now) (status_of_lem end.now.outcome)) }
{
    let outputs = image.outputs.as_slice();
    let scalars = scalar_names(alloc, outputs)?;
    let properties = property_names(alloc, outputs)?;
    let names = Outputs {
        scalars: &scalars,
        properties: &properties,
    };
    let ending = Ending::Counts {
        supersteps: end.supersteps,
        messages: end.messages,
    };
    Ok(Answer {
        text: listing(alloc, &names, graph, &end.outcome, ending)?,
        status: status_of(&end.outcome),
    })
}

// The answer with the reports of all observers behind it.
fn with_reports(answer: Answer, observers: &[Box<dyn Observer>]) -> Result<Answer, NoMemory>
    ensures text { IfOk result (λ a. a.text.items ≡ answer.text.items ++ reports (map (λ o. says_of o) observers.now) (map (λ o. seen o) observers.now)) }
    ensures status { IfOk result (λ a. a.status ≡ answer.status) }
{
    let mut answer = answer;
    report_all(observers, &mut answer.text)?;
    Ok(answer)
}

// The answer of an image over a graph, of which nobody is told.
fn run_alone<R: Threads + Wait + Sync, G: Gate>(
    rt: &R,
    alloc: Global,
    image: &Sound,
    graph: &Graph,
    args: &[Value],
    options: &Options,
    gate: &G,
) -> Result<Answer, NoMemory>
    requires columns { FitsGraph image.now graph.now }
    requires right { AreRight options.now }
    ensures { IfOk result (λ a. Says a.text.items a.status (end_text (program image.now) graph.now (machine (program image.now) graph.now args.now options.now.turns))
        (status_of_lem (machine (program image.now) graph.now args.now options.now.turns).outcome)) }
{
    let mut nobody: Vec<Box<dyn Observer>> = Vec::new(alloc);
    let end = run(
        rt,
        alloc,
        image,
        graph,
        args,
        options.owner,
        options.workers,
        options.turns,
        gate,
        &mut nobody,
    )?;
    listed(alloc, image.image(), graph, &end)
}

// The answer of an image over a graph, of whose supersteps all observers are told, in their order.
fn run_told<R: Threads + Wait + Sync, G: Gate>(
    rt: &R,
    alloc: Global,
    image: &Sound,
    graph: &Graph,
    args: &[Value],
    options: &Options,
    gate: &G,
    observers: &mut [Box<dyn Observer>],
) -> Result<Answer, NoMemory>
    requires columns { FitsGraph image.now graph.now }
    requires right { AreRight options.now }
    ensures says { IfOk result (λ a. Says a.text.items a.status (end_text (program image.now) graph.now (machine (program image.now) graph.now args.now options.now.turns))
        (status_of_lem (machine (program image.now) graph.now args.now options.now.turns).outcome)) }
    ensures told { IfOk result (λ _. map (λ o. seen o) observers.new ≡ told_to_all (noted (program image.now) graph.now args.now options.now.turns) (map (λ o. seen o) observers.old)) }
    ensures part { IsToldInPart (noted (program image.now) graph.now args.now options.now.turns) (map (λ o. seen o) observers.old) (map (λ o. seen o) observers.new) }
    ensures same_ways { map (λ o. says_of o) observers.new ≡ map (λ o. says_of o) observers.old }
{
    let end = run(
        rt,
        alloc,
        image,
        graph,
        args,
        options.owner,
        options.workers,
        options.turns,
        gate,
        observers,
    )?;
    listed(alloc, image.image(), graph, &end)
}

// The answer of an image over a graph, of whose supersteps all observers are told, with their reports behind it.
fn run_reported<R: Threads + Wait + Sync, G: Gate>(
    rt: &R,
    alloc: Global,
    image: &Sound,
    graph: &Graph,
    args: &[Value],
    options: &Options,
    gate: &G,
    observers: &mut [Box<dyn Observer>],
) -> Result<Answer, NoMemory>
    requires columns { FitsGraph image.now graph.now }
    requires right { AreRight options.now }
    ensures ran { IfOk result (λ a. Ran (program image.now) options.now.turns true
        (audience (map (λ o. says_of o) observers.old) (map (λ o. seen o) observers.old) (map (λ o. seen o) observers.new)) graph.now args.now a.text.items a.status) }
    ensures part { IsToldInPart (noted (program image.now) graph.now args.now options.now.turns) (map (λ o. seen o) observers.old) (map (λ o. seen o) observers.new) }
    ensures same_ways { map (λ o. says_of o) observers.new ≡ map (λ o. says_of o) observers.old }
{
    let _nodes = graph.node_count();
    let answer = run_told(rt, alloc, image, graph, args, options, gate, observers)?;
    with_reports(answer, observers)
}

/// The answer of an image over a graph, with these arguments: the listing of what the image does, by as many workers as
/// the options say. Where they have it watched, all observers are told of its supersteps, and their reports stand behind the
/// listing; where not, they are told nothing. Where there is not enough memory they were told of the first supersteps, and some of them may have been told of
/// one more.
pub fn run_with<R: Threads + Wait + Sync, G: Gate>(
    rt: &R,
    alloc: Global,
    image: &Sound,
    graph: &Graph,
    args: &[Value],
    options: &Options,
    gate: &G,
    observers: &mut [Box<dyn Observer>],
) -> Result<Answer, NoMemory>
    requires columns { FitsGraph image.now graph.now }
    requires right { AreRight options.now }
    ensures ran { IfOk result (λ a. Ran (program image.now) options.now.turns options.now.observe
        (audience (map (λ o. says_of o) observers.old) (map (λ o. seen o) observers.old) (map (λ o. seen o) observers.new)) graph.now args.now a.text.items a.status) }
    ensures unwatched { options.now.observe ≡ false → map (λ o. seen o) observers.new ≡ map (λ o. seen o) observers.old }
    ensures part { IsToldInPart (noted (program image.now) graph.now args.now options.now.turns) (map (λ o. seen o) observers.old) (map (λ o. seen o) observers.new) }
    ensures same_ways { map (λ o. says_of o) observers.new ≡ map (λ o. says_of o) observers.old }
{
    let _nodes = graph.node_count();
    if options.observe {
        run_reported(rt, alloc, image, graph, args, options, gate, observers)
    } else {
        run_alone(rt, alloc, image, graph, args, options, gate)
    }
}
