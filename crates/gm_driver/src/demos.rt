//! The demonstration: the shortest paths over a graph that the program makes itself.

ghost use Rattle.std.specs.Prelude.{◌≡◌, ◌≤◌, ◌∷◌, [], None, IfErr, IfOk, IfSome};
ghost use Rattle.gm_input.specs.Halts.{IfAnswered, IfSaid};
ghost use Rattle.gm_words.specs.Jobs.{AreRight};
ghost use Rattle.gm_demo.specs.Programs.{sssp_text};
ghost use Rattle.gm_driver.specs.Demos.{IsDemoAnswer, IsDoneWith, IsOther, SaysEnd, demo_words};
ghost use Rattle.gm_driver.specs.Images.{IsRunnableOf};
ghost use Rattle.gm_driver.specs.Runs.{SaysRefused};

use crate::images::{Runnable, outputs_of, runnable_of_text};
use crate::runs::evaluate_over;
use gm_ast::tree::Declaration;
use gm_base::{Gate, NoMemory, Status, Text};
use gm_columns::Values;
use gm_demo::{demo_graph, demo_line, demo_program};
use gm_input::{Answer, Halt, settled};
use gm_listing::Ending;
use gm_model::Outcome;
use gm_source_runs::{Evaluated, answer_for};
use gm_words::{Format, Options};
use std::alloc::Global;
use std::sync::Wait;
use std::thread::Threads;

// How many turns a run may begin where no option says it.
const USUAL_TURNS: u64 = 1_000_000;

// The text of the procedure of the shortest paths.
fn procedure(alloc: Global) -> Result<Vec<u8>, NoMemory>
    ensures { IfOk result (λ text. text.items ≡ sssp_text) }
{
    Ok(Vec::from_slice(alloc, demo_program().as_bytes())?)
}

// What runs as the procedure of the shortest paths, or the answer that says which rule it breaks.
fn runnable(alloc: Global) -> Result<Runnable, Halt>
    ensures runs { IfOk result (IsRunnableOf sssp_text) }
    ensures halt { IfErr result (λ halt. IfAnswered halt (λ a. SaysRefused sssp_text a.text.items a.status)) }
{
    let text = procedure(alloc)?;
    runnable_of_text(alloc, text)
}

// The words for the arguments of the job that the demonstration stands for.
fn words(alloc: Global) -> Result<Vec<Text>, NoMemory>
    ensures { IfOk result (λ words. words.items ≡ demo_words) }
{
    let mut words = Vec::new(alloc);
    words.push(Text::new(String::from_str(alloc, "root=0")?))?;
    Ok(words)
}

// The values of the output property and the turns of a run to its end, where there is one such property.
fn shown(outcome: &Outcome) -> Option<(&Values, u64)>
    ensures one { IfSome result (λ it. IsDoneWith outcome.now it.0.now it.1) }
    ensures other { result ≡ None → IsOther outcome.now }
{
    let Outcome::Done {
        nodes: properties,
        turns,
        ..
    } = outcome
    else {
        return None;
    };
    let [values] = properties.as_slice() else {
        return None;
    };
    Some((values, *turns))
}

// The answer for how a program ended over the graph of so many nodes: its line, or where it has none the listing.
fn answer_of(
    alloc: Global,
    nodes: u32,
    outputs: &[Declaration],
    over: &Evaluated,
) -> Result<Answer, NoMemory>
    ensures { IfOk result (λ a. SaysEnd nodes outputs.now over.now.graph over.now.outcome a.text.items a.status) }
{
    match shown(&over.outcome) {
        Some((values, turns)) => {
            let text = demo_line(alloc, nodes, values, turns)?;
            Ok(Answer {
                text,
                status: Status::Done,
            })
        }
        None => answer_for(alloc, outputs, &over.graph, &over.outcome, Ending::Turns),
    }
}

// The steps of the demonstration, one after the other.
fn demo_steps<R: Threads + Wait + Sync, G: Gate>(
    rt: &R,
    alloc: Global,
    nodes: u32,
    options: Options,
    gate: &G,
) -> Result<Answer, Halt>
    requires some { 1 ≤ nodes }
    requires few { nodes ≤ 1000000 }
    requires right { AreRight options }
    ensures { IfSaid result (λ a. IsDemoAnswer nodes a.text.items a.status) }
{
    let it = runnable(alloc)?;
    let words = words(alloc)?;
    let text = demo_graph(alloc, nodes)?;
    let usual = Options {
        turns: USUAL_TURNS,
        format: Format::Edges,
        ..options
    };
    let over = evaluate_over(rt, alloc, &it, &words, &usual, text, gate)?;
    let answer = answer_of(alloc, nodes, outputs_of(&it), &over)?;
    Ok(answer)
}

/// The answer of the demonstration over a graph of so many nodes, 1 to 1,000,000: the line of the shortest paths from node
/// 0. It stands for the job that runs the procedure over that graph with `root=0`, by as many workers as the options say, among
/// whom the nodes are dealt out as they say, and each worker enters the gate before it computes a superstep. Where the procedure
/// is not accepted, or its run does not come to its end with one output property, the answer is that job's. Of the options none
/// changes it.
pub fn demo<R: Threads + Wait + Sync, G: Gate>(
    rt: &R,
    alloc: Global,
    nodes: u32,
    options: Options,
    gate: &G,
) -> Result<Answer, NoMemory>
    requires some { 1 ≤ nodes }
    requires few { nodes ≤ 1000000 }
    requires right { AreRight options }
    ensures { IfOk result (λ a. IsDemoAnswer nodes a.text.items a.status) }
{
    settled(demo_steps(rt, alloc, nodes, options, gate))
}
