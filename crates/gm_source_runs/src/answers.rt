//! The run of a checked program over a graph text: what is written, and with which status the program ends.

ghost use Rattle.std.specs.Prelude.{◌≡◌, IfErr, IfOk};
ghost use Rattle.gm_words.specs.Jobs.{AllAssign};
ghost use Rattle.gm_ast.specs.Tree.{program_of};
ghost use Rattle.gm_input.specs.Answers.{format_of};
ghost use Rattle.gm_input.specs.Halts.{IfAnswered, IfSaid};
ghost use Rattle.gm_input.specs.Texts.{Says};
ghost use Rattle.gm_source_runs.specs.Answers.{HasOutcome, IsTextAnswer, IsUnready, lines_of};
ghost use Rattle.gm_source_runs.specs.Programs.{inputs_of as inputs_of_lem, shape_of as shape_of_lem};
ghost use Rattle.gm_listing.specs.Listing.{status_of as status_of_lem};

use crate::programs::{inputs_of, names_of, output_declarations, shape_of};
use gm_ast::forms::Work;
use gm_ast::tree::{Declaration, Sort};
use gm_base::{NoMemory, Text};
use gm_graph::Graph;
use gm_input::{Answer, Halt, arguments, graph_of};
use gm_listing::{Ending, Outputs, listing, status_of};
use gm_meaning::evaluate;
use gm_model::Outcome;
use gm_words::Options;
use std::alloc::Global;

/// A program that ran over the graph of a text: that graph, and how the run ended.
#[derive(Drop)]
pub struct Evaluated {
    pub graph: Graph,
    pub outcome: Outcome,
}

/// The answer for an outcome over a graph, where these are the declarations of the outputs.
pub fn answer_for(
    alloc: Global,
    outputs: &[Declaration],
    graph: &Graph,
    outcome: &Outcome,
    ending: Ending,
) -> Result<Answer, NoMemory>
    ensures { IfOk result (λ a. Says a.text.items a.status (lines_of outputs.now graph.now ending outcome.now) (status_of_lem outcome.now)) }
{
    let scalars = names_of(alloc, outputs, Sort::Scalar)?;
    let properties = names_of(alloc, outputs, Sort::NodeProperty)?;
    let names = Outputs {
        scalars: &scalars,
        properties: &properties,
    };
    Ok(Answer {
        text: listing(alloc, &names, graph, outcome, ending)?,
        status: status_of(outcome),
    })
}

/// How a checked program ends over a graph text, or the answer that says why it does not run. `words` are the words NAME=VALUE
/// for its scalar inputs, and `options` say what the format of the text is and how many turns may begin.
///
/// The text stands for a graph with a column for each property among the inputs, or the answer is
/// `graph KIND at line L` or `graph TooLong`; the words give each scalar input a value, or it is `argument KIND NAME`,
/// both as bad input. Then the program comes to the outcome that it means.
pub fn evaluate_text(
    alloc: Global,
    program: &Work,
    words: &[Text],
    options: &Options,
    text: Vec<u8>,
) -> Result<Evaluated, Halt>
    requires { AllAssign words.now }
    ensures outcome { IfOk result (λ it. HasOutcome (program_of program.now) words.now options.now text.items it.graph it.outcome) }
    ensures halt { IfErr result (λ halt. IfAnswered halt (λ a. IsUnready (format_of options.now.format) (shape_of_lem (program_of program.now)) (inputs_of_lem (program_of program.now)) words.now text.items a.text.items a.status)) }
{
    let shape = shape_of(alloc, program.tree())?;
    let graph = graph_of(alloc, options.format, text, &shape)?;
    let inputs = inputs_of(alloc, program.tree())?;
    let args = arguments(alloc, &inputs, words, &graph)?;
    let outcome = evaluate(alloc, program, &graph, &args, options.turns)?;
    Ok(Evaluated { graph, outcome })
}

/// The answer of a checked program over a graph text: why it does not run, as `evaluate_text` says it, or the listing of what
/// the program means, with its status.
pub fn run_text(
    alloc: Global,
    program: &Work,
    words: &[Text],
    options: &Options,
    text: Vec<u8>,
) -> Result<Answer, Halt>
    requires { AllAssign words.now }
    ensures { IfSaid result (λ a. IsTextAnswer (program_of program.now) words.now options.now text.items a.text.items a.status) }
{
    let over = evaluate_text(alloc, program, words, options, text)?;
    let outputs = output_declarations(program.tree());
    let answer = answer_for(alloc, outputs, &over.graph, &over.outcome, Ending::Turns)?;
    Ok(answer)
}
