//! The steps that every run has in common: the text of a program or of an image, the text of a graph, the graph that it
//! stands for, and the arguments. A road is these steps, one after the other, with its own judgment of the first text and
//! its own run at the end; what stops it on the way is a `Halt`.

ghost use Rattle.std.specs.Prelude.{◌≡◌, ◌<◌, [], false, IfOk, IfErr, Ok, length};
ghost use Rattle.gm_words.specs.Arguments.{values_bound};
ghost use Rattle.gm_words.specs.Jobs.{AllAssign};
ghost use Rattle.gm_loader.specs.GraphText.{HasColumns};
ghost use Rattle.gm_input.specs.Answers.{IsGraphOf, SaysBadArgument, SaysBadGraph, edge_list, format_of, matrix_market};
ghost use Rattle.gm_input.specs.Halts.{IfAnswered};
ghost use Rattle.gm_input.specs.Names.{IsNameStop};
ghost use Rattle.gm_input.specs.Outside.{Outside, outside};
ghost use Rattle.gm_input.specs.Roads.{IsCodeRead, IsGraphRead, SaysUnread};

use crate::answers::{
    Answer, GRAPH_LIMITS, absent, bad_argument, bad_graph, bad_matrix, read_fault,
};
use crate::fronts::{Front, read_front, read_rest};
use crate::halts::{Halt, answered};
use crate::names::{NameStop, are_input, read_named};
use gm_base::{NoMemory, Text};
use gm_files::{Files, Source};
use gm_graph::{Graph, Shape};
use gm_loader::consume_graph;
use gm_mtx::consume_mtx;
use gm_value::Value;
use gm_words::{Format, Input, bind};
use std::alloc::Global;

// How many bytes of a graph text are read at most: one more than a text may have, so that a longer one is seen.
const MOST_GRAPH: usize = 1_073_741_825;

/// The answer where nothing was read under a name.
pub fn unread(alloc: Global, name: &str, stop: NameStop) -> Result<Answer, NoMemory>
    ensures { IfOk result (λ a. (before after : Outside) → IsNameStop name.now before after stop → SaysUnread name.now before after a.text.items a.status) }
{
    match stop {
        NameStop::Absent => absent(alloc, name),
        NameStop::Failed => read_fault(alloc, name),
        NameStop::NoMemory => Err(NoMemory),
    }
}

// A text that was read alone, with nothing behind it.
fn alone(alloc: Global, text: Vec<u8>) -> Front
    ensures { result.program.items ≡ text.items }
{
    Front {
        program: text,
        ahead: Vec::new(alloc),
        ended: false,
    }
}

// The front of an input, or the text under a name, as far as `most` bytes of it are asked for.
fn code_front<S: Source, F: Files>(
    alloc: Global,
    code: &str,
    graph: &str,
    most: usize,
    input: &mut S,
    files: &mut F,
) -> Result<Front, NameStop>
    requires { 0 < most }
    ensures read { IfOk result (λ front. IsCodeRead most code.now graph.now
        (outside S.Source F.Files input.old files.old) (outside S.Source F.Files input.new files.new)
        front.program.items front.ahead.items front.ended) }
    ensures unread { IfErr result (IsNameStop code.now
        (outside S.Source F.Files input.old files.old) (outside S.Source F.Files input.new files.new)) }
    ensures kept { F.told files.new ≡ F.told files.old }
{
    if are_input(code, graph) {
        Ok(read_front(alloc, input, most)?)
    } else {
        Ok(alone(alloc, read_named(alloc, code, most, input, files)?))
    }
}

/// Reads the text of a program or of an image, by its name and that of its graph, as far as `most` bytes of it are asked
/// for, at least one. Where both are `-`, it stands on standard input before the first line that is exactly `%%`; else it
/// is the whole text under its name.
pub fn read_code<S: Source, F: Files>(
    alloc: Global,
    code: &str,
    graph: &str,
    most: usize,
    input: &mut S,
    files: &mut F,
) -> Result<Front, Halt>
    requires { 0 < most }
    ensures read { IfOk result (λ front. IsCodeRead most code.now graph.now
        (outside S.Source F.Files input.old files.old) (outside S.Source F.Files input.new files.new)
        front.program.items front.ahead.items front.ended) }
    ensures halt { IfErr result (λ halt. IfAnswered halt (λ a. SaysUnread code.now
        (outside S.Source F.Files input.old files.old) (outside S.Source F.Files input.new files.new) a.text.items a.status)) }
    ensures kept { F.told files.new ≡ F.told files.old }
{
    match code_front(alloc, code, graph, most, input, files) {
        Ok(front) => Ok(front),
        Err(stop) => Err(answered(unread(alloc, code, stop))),
    }
}

// The text of a graph, behind what was read ahead of it or under its own name.
fn graph_front<S: Source, F: Files>(
    alloc: Global,
    code: &str,
    graph: &str,
    ahead: Vec<u8>,
    ended: bool,
    input: &mut S,
    files: &mut F,
) -> Result<Vec<u8>, NameStop>
    ensures read { IfOk result (λ text. IsGraphRead code.now graph.now ahead.items ended
        (outside S.Source F.Files input.old files.old) (outside S.Source F.Files input.new files.new) text.items) }
    ensures unread { IfErr result (IsNameStop graph.now
        (outside S.Source F.Files input.old files.old) (outside S.Source F.Files input.new files.new)) }
    ensures kept { F.told files.new ≡ F.told files.old }
{
    if are_input(code, graph) {
        Ok(read_rest(alloc, ahead, ended, input, MOST_GRAPH)?)
    } else {
        read_named(alloc, graph, MOST_GRAPH, input, files)
    }
}

/// Reads the text of a graph, up to one byte past its limit: what stands behind the first text, of which `ahead` was read
/// already and which was seen to end or not, where both names are `-`; else the whole text under its name.
pub fn read_graph<S: Source, F: Files>(
    alloc: Global,
    code: &str,
    graph: &str,
    ahead: Vec<u8>,
    ended: bool,
    input: &mut S,
    files: &mut F,
) -> Result<Vec<u8>, Halt>
    ensures read { IfOk result (λ text. IsGraphRead code.now graph.now ahead.items ended
        (outside S.Source F.Files input.old files.old) (outside S.Source F.Files input.new files.new) text.items) }
    ensures halt { IfErr result (λ halt. IfAnswered halt (λ a. SaysUnread graph.now
        (outside S.Source F.Files input.old files.old) (outside S.Source F.Files input.new files.new) a.text.items a.status)) }
    ensures kept { F.told files.new ≡ F.told files.old }
{
    match graph_front(alloc, code, graph, ahead, ended, input, files) {
        Ok(text) => Ok(text),
        Err(stop) => Err(answered(unread(alloc, graph, stop))),
    }
}

// The graph of an edge list, or the answer that says what is wrong with it.
fn listed_graph(alloc: Global, text: Vec<u8>, shape: &Shape) -> Result<Graph, Halt>
    ensures graph { IfOk result (IsGraphOf edge_list shape.now text.items) }
    ensures columns { IfOk result (HasColumns (length shape.now.nodes) (length shape.now.edges)) }
    ensures halt { IfErr result (λ halt. IfAnswered halt (λ a. SaysBadGraph edge_list shape.now text.items a.text.items a.status)) }
{
    match consume_graph(alloc, text, shape, &GRAPH_LIMITS) {
        Ok(graph) => Ok(graph),
        Err(fault) => Err(answered(bad_graph(alloc, fault))),
    }
}

// The graph of a Matrix Market text, or the answer that says what is wrong with it.
fn matrix_graph(alloc: Global, text: Vec<u8>, shape: &Shape) -> Result<Graph, Halt>
    ensures graph { IfOk result (IsGraphOf matrix_market shape.now text.items) }
    ensures columns { IfOk result (HasColumns (length shape.now.nodes) (length shape.now.edges)) }
    ensures halt { IfErr result (λ halt. IfAnswered halt (λ a. SaysBadGraph matrix_market shape.now text.items a.text.items a.status)) }
{
    match consume_mtx(alloc, text, shape, &GRAPH_LIMITS) {
        Ok(graph) => Ok(graph),
        Err(fault) => Err(answered(bad_matrix(alloc, fault))),
    }
}

/// The graph that a text of a format stands for, with columns of this shape, or the answer that says what is wrong with
/// the text. The text is let go. This is the one place where the readers of the formats are called.
pub fn graph_of(alloc: Global, format: Format, text: Vec<u8>, shape: &Shape) -> Result<Graph, Halt>
    ensures graph { IfOk result (IsGraphOf (format_of format) shape.now text.items) }
    ensures columns { IfOk result (HasColumns (length shape.now.nodes) (length shape.now.edges)) }
    ensures halt { IfErr result (λ halt. IfAnswered halt (λ a. SaysBadGraph (format_of format) shape.now text.items a.text.items a.status)) }
{
    match format {
        Format::Edges => listed_graph(alloc, text, shape),
        Format::Mtx => matrix_graph(alloc, text, shape),
    }
}

/// The values of some inputs over a graph, by words NAME=VALUE, or the answer that says what is wrong with the words.
pub fn arguments(
    alloc: Global,
    inputs: &[Input],
    words: &[Text],
    graph: &Graph,
) -> Result<Vec<Value>, Halt>
    requires { AllAssign words.now }
    ensures values { IfOk result (λ values. values_bound inputs.now words.now graph.now.numbers ≡ Ok values.items) }
    ensures halt { IfErr result (λ halt. IfAnswered halt (λ a. SaysBadArgument inputs.now words.now graph.now a.text.items a.status)) }
{
    match bind(alloc, inputs, words, graph) {
        Ok(values) => Ok(values),
        Err(fault) => Err(answered(bad_argument(alloc, &fault))),
    }
}
