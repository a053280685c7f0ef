//! Programs as texts, what passes make of them, and what is written of their runs.

ghost use Rattle.std.specs.Prelude.{IfOk};
ghost use Rattle.gm_words.specs.Jobs.{AllAssign};

use crate::compare::{all_read, holds};
use crate::forms::{form_after, has_form, words_out};
use crate::passes::{ALL_STEPS, Pass, STEPS, WHOLE, after};
use crate::sources::source_of;
use gm_ast::forms::{Checked, Work};
use gm_base::{Items, NoMemory, Stop, Text};
use gm_canon::verdict;
use gm_graph::{Graph, Shape, Walks};
use gm_input::{Answer, graph_of, settled};
use gm_meaning::{evaluate, work_of};
use gm_model::Outcome;
use gm_source_runs::run_text;
use gm_tables::is_line;
use gm_value::{VType, Value};
use gm_words::{Format, Job, Options, read_words};
use std::alloc::{AllocError, Global};
use std::process::Abort;
use std::test::Fail;

/// What stands before a body: the head of its procedure, and for `Filled` a loop that gives properties values. `Plain` and
/// `Cut` have the same head and are run over different graphs; so have `Rooted` and `Once`, of which the first is run with
/// many bounds, and the other with one.
#[derive(Clone, Copy, Debug, PartialEq, Eq)]
pub enum Frame {
    Plain,
    Cut,
    Rooted,
    Once,
    Filled,
}

// The text before the body, which begins the second line, or the third for `Filled`.
fn head_of(frame: Frame) -> &'static str {
    match frame {
        Frame::Plain | Frame::Cut =>
            "Procedure p(G: Graph, w: E_P<Int>, nil: Node; a, b, c: N_P<Int>, l: N_P<Long>, f: N_P<Bool>, r: N_P<Node>, x, y: Int, z: Long, q: Bool, s: Node) {",
        Frame::Rooted | Frame::Once =>
            "Procedure p(G: Graph, len: E_P<Int>, s: Node; a, b, c: N_P<Int>, f: N_P<Bool>, r: N_P<Node>, x, y: Int, q: Bool, m: Node) : Int {",
        Frame::Filled =>
            "Procedure p(G: Graph, w: E_P<Int>; a, b, x, y: N_P<Int>, f, g: N_P<Bool>, r: N_P<Node>, s: Int, q: Bool) {\nForeach (n: G.Nodes) { n.a = n.OutDegree() * 3 - 2; n.b = n.InDegree() - 1; n.f = n.OutDegree() > 1; n.g = n.InDegree() > 0; }",
    }
}

// The text of a procedure with a body.
fn text_of(alloc: Global, frame: Frame, body: &str) -> Result<String, AllocError> {
    format!(in alloc; "{}\n{body}\n}}", head_of(frame))
}

// The program of a text that is accepted, by a call that promises nothing. (What `verdict` promises of every program would
// be tried at each goal behind it.)
fn checked(alloc: Global, text: &[u8]) -> Result<Checked, Stop> {
    verdict(alloc, text)
}

/// The program of a text, which is to break no rule.
pub fn program_of(rt: &impl Abort, alloc: Global, text: &str) -> Result<Work, Fail> {
    match checked(alloc, text.as_bytes()) {
        Ok(checked) => Ok(work_of(checked)),
        Err(stop) => panic!(rt; "{stop}: {text}"),
    }
}

// The words of a line, between spaces.
fn words_in(alloc: Global, line: &str) -> Result<Vec<String>, AllocError> {
    let mut words = Vec::new(alloc);
    for word in line.split(' ') {
        if !word.is_empty() {
            words.push(String::from_str(alloc, word)?)?;
        }
    }
    Ok(words)
}

// What a program writes over the text of a graph, by a call that promises nothing.
fn answer_of(
    alloc: Global,
    program: &Work,
    words: &[Text],
    options: &Options,
    text: Vec<u8>,
) -> Result<Answer, NoMemory>
    requires { AllAssign words.now }
{
    settled(run_text(alloc, program, words, options, text))
}

// The words NAME=VALUE and the options of a command line that runs a program.
fn command(alloc: Global, line: &str) -> Result<(Items<Text>, Options), Fail>
    ensures { IfOk result (λ x. AllAssign x.0) }
{
    let words = words_in(alloc, line)?;
    match read_words(alloc, &words)? {
        Job::Run { args, options, .. } => Ok((args, options)),
        _ => Err(Fail::from("no run")),
    }
}

// What is written of a program's run over a graph, with the words of a command line.
fn written_of(alloc: Global, program: &Work, line: &str, graph: &str) -> Result<Vec<u8>, Fail> {
    let (args, options) = command(alloc, line)?;
    let text = Vec::from_slice(alloc, graph.as_bytes())?;
    let answer = answer_of(alloc, program, args.as_slice(), &options, text)?;
    Ok(answer.text)
}

/// What is written of a program's run over a graph, with the words of a command line.
pub fn listing(alloc: Global, program: &Work, line: &str, graph: &str) -> Result<String, Fail> {
    let written = written_of(alloc, program, line, graph)?;
    Ok(String::from_utf8_lossy(alloc, &written)?)
}

// A cycle 0, 1, 2 with two edges from 2 to 3, and a number at each edge.
const CYCLE: &str = "0 1 0\n1 2 1\n2 0 2\n2 3 3\n2 3 4\n";

/// The same with an edge from 3 to itself.
pub const LOOPED: &str = "0 1 0\n1 2 1\n2 0 2\n2 3 3\n2 3 4\n3 3 5\n";

// The cycle, and nodes 4 and 5 that nothing of it reaches.
const TAILED: &str = "0 1 0\n1 2 1\n2 0 2\n2 3 3\n2 3 4\n4 0 5\n4 5 6\n";

/// Two ways from 0 to 3 and on to 4, edges within a level, to the level before, and of nodes to themselves.
pub const DIAMOND: &str = "0 1 0\n0 2 1\n1 3 2\n2 3 3\n1 2 4\n3 0 5\n3 4 6\n3 3 7\n0 0 8\n4 1 9\n";

// Two edges from 0 to 1, one from 1 to 2, one from 2 to itself, and one each from 2 to 0 and to 3.
const LINES: &str = "0 1 0\n0 1 1\n1 2 2\n2 2 3\n2 0 4\n2 3 5\n";

// A graph, and the node or NIL that a frame's procedure takes, where it takes one.
type Run = (&'static str, Option<u32>);

const PLAIN: [Run; 2] = [(CYCLE, None), ("", None)];

const CUT: [Run; 2] = [(LOOPED, None), ("", None)];

const ROOTED: [Run; 9] = [
    (TAILED, None),
    (TAILED, Some(0)),
    (TAILED, Some(2)),
    (TAILED, Some(4)),
    (DIAMOND, None),
    (DIAMOND, Some(0)),
    (DIAMOND, Some(2)),
    (DIAMOND, Some(4)),
    ("", None),
];

const FILLED: [Run; 1] = [(LINES, None)];

// The runs of a frame's procedure.
fn runs_of(frame: Frame) -> &'static [Run] {
    match frame {
        Frame::Plain => &PLAIN,
        Frame::Cut => &CUT,
        Frame::Rooted | Frame::Once => &ROOTED,
        Frame::Filled => &FILLED,
    }
}

// The least and the greatest bound on its turns.
fn bounds_of(frame: Frame) -> (u64, u64) {
    match frame {
        Frame::Rooted => (0, 13),
        _ => (20, 20),
    }
}

// The graph of a text.
fn graph_in(rt: &impl Abort, alloc: Global, text: &str) -> Result<Graph, Fail> {
    let shape = Shape {
        nodes: Items::new(Vec::new(alloc)),
        edges: Items::new(vec![in alloc; VType::I32]?),
        walks: Walks::BothWays,
    };
    let bytes = Vec::from_slice(alloc, text.as_bytes())?;
    match graph_of(alloc, Format::Edges, bytes, &shape) {
        Ok(graph) => Ok(graph),
        Err(_) => panic!(rt; "no graph: {text}"),
    }
}

// How a run ends, by a call that promises nothing.
fn outcome_of(
    alloc: Global,
    program: &Work,
    graph: &Graph,
    inputs: &[Value],
    turns: u64,
) -> Result<Outcome, NoMemory> {
    evaluate(alloc, program, graph, inputs, turns)
}

// How a run ends, in words.
fn ending(
    alloc: Global,
    program: &Work,
    graph: &Graph,
    inputs: &[Value],
    turns: u64,
) -> Result<String, NoMemory> {
    let outcome = outcome_of(alloc, program, graph, inputs, turns)?;
    Ok(format!(in alloc; "{outcome:?}")?)
}

// Compares how two runs end.
fn same_ends(rt: &impl Abort, seen: &str, wanted: &str, inputs: &[Value], turns: u64, what: &str) {
    assert_eq!(rt; seen, wanted, "{inputs:?} {turns} {what}");
}

// Whether two programs end the same over a graph, with a bound.
fn ends_agree_at(
    rt: &impl Abort,
    alloc: Global,
    programs: (&Work, &Work),
    graph: &Graph,
    inputs: &[Value],
    turns: u64,
    what: &str,
) -> Result<(), Fail> {
    let wanted = ending(alloc, programs.0, graph, inputs, turns)?;
    let seen = ending(alloc, programs.1, graph, inputs, turns)?;
    same_ends(rt, seen.as_str(), wanted.as_str(), inputs, turns, what);
    Ok(())
}

// The same with each bound of a frame.
fn ends_agree(
    rt: &impl Abort,
    alloc: Global,
    frame: Frame,
    programs: (&Work, &Work),
    graph: &Graph,
    inputs: &[Value],
    what: &str,
) -> Result<(), Fail> {
    let (least, most) = bounds_of(frame);
    for turns in least..=most {
        ends_agree_at(rt, alloc, programs, graph, inputs, turns, what)?;
    }
    Ok(())
}

// The inputs of a frame's procedure.
fn inputs_of(alloc: Global, frame: Frame, root: Option<u32>) -> Result<Vec<Value>, NoMemory> {
    match frame {
        Frame::Filled => Ok(Vec::new(alloc)),
        _ => Ok(vec![in alloc; Value::At(root)]?),
    }
}

// Whether two programs end the same in a run of a frame.
fn run_agrees(
    rt: &impl Abort,
    alloc: Global,
    frame: Frame,
    programs: (&Work, &Work),
    run: Run,
    what: &str,
) -> Result<(), Fail> {
    let (text, root) = run;
    let inputs = inputs_of(alloc, frame, root)?;
    let graph = graph_in(rt, alloc, text)?;
    ends_agree(rt, alloc, frame, programs, &graph, &inputs, what)
}

// Whether two programs end the same in all runs of a frame.
fn runs_agree(
    rt: &impl Abort,
    alloc: Global,
    frame: Frame,
    before: &Work,
    later: &Work,
    what: &str,
) -> Result<(), Fail> {
    for run in runs_of(frame) {
        run_agrees(rt, alloc, frame, (before, later), *run, what)?;
    }
    Ok(())
}

// Whether a program has none of the words that a pass takes out.
fn has_none_of(alloc: Global, words: &[&str], program: &Work) -> Result<bool, NoMemory> {
    let source = source_of(alloc, program.tree())?;
    for word in words {
        if source.as_str().contains(*word) {
            return Ok(false);
        }
    }
    Ok(true)
}

// Whether a program has the form behind a pass.
fn has_form_behind(pass: Pass, program: &Work) -> bool {
    match form_after(pass) {
        Some(form) => has_form(form, &program.tree().body),
        None => true,
    }
}

/// Whether a program has the form of the results of a pass.
pub fn has_form_of(alloc: Global, pass: Pass, program: &Work) -> Result<bool, NoMemory> {
    let has_none = has_none_of(alloc, words_out(pass), program)?;
    Ok(has_none && has_form_behind(pass, program))
}

// Whether a program ends the same in all runs of a frame as what a pass made of it, which has what the pass ends with.
fn agrees_behind(
    rt: &impl Abort,
    alloc: Global,
    frame: Frame,
    programs: (&Work, &Work),
    body: &str,
    pass: Pass,
) -> Result<(), Fail> {
    let what = format!(in alloc; "{pass:?} of {body}")?;
    runs_agree(rt, alloc, frame, programs.0, programs.1, what.as_str())?;
    let has_form = has_form_of(alloc, pass, programs.1)?;
    holds(rt, has_form, what.as_str());
    Ok(())
}

// What a pass makes of a program, which agrees with what was before all passes.
fn agreeing(
    rt: &impl Abort,
    alloc: Global,
    frame: Frame,
    before: &Work,
    program: Work,
    body: &str,
    pass: Pass,
) -> Result<Work, Fail> {
    let program = after(alloc, &[pass], program)?;
    agrees_behind(rt, alloc, frame, (before, &program), body, pass)?;
    Ok(program)
}

// Whether a program agrees with what each of some passes makes of it.
fn all_agree(
    rt: &impl Abort,
    alloc: Global,
    frame: Frame,
    before: &Work,
    program: Work,
    body: &str,
    passes: &[Pass],
) -> Result<(), Fail> {
    let mut program = program;
    for pass in passes {
        program = agreeing(rt, alloc, frame, before, program, body, *pass)?;
    }
    Ok(())
}

/// The program of a body.
pub fn program_in(rt: &impl Abort, alloc: Global, frame: Frame, body: &str) -> Result<Work, Fail> {
    let text = text_of(alloc, frame, body)?;
    program_of(rt, alloc, text.as_str())
}

/// Whether a body ends the same in all runs of its frame before the passes and after each of them, and each result has what
/// its pass ends with.
pub fn body_runs_same(
    rt: &impl Abort,
    alloc: Global,
    frame: Frame,
    body: &str,
    passes: &[Pass],
) -> Result<(), Fail> {
    let before = program_in(rt, alloc, frame, body)?;
    let program = program_in(rt, alloc, frame, body)?;
    all_agree(rt, alloc, frame, &before, program, body, passes)
}

/// Whether each of so many bodies ends the same in all runs of its frame before the passes and after each of them, and each
/// result has what its pass ends with.
pub fn all_run_same(
    rt: &impl Abort,
    alloc: Global,
    frame: Frame,
    bodies: &str,
    count: usize,
    passes: &[Pass],
) -> Result<(), Fail> {
    let mut read = 0usize;
    for body in bodies.lines() {
        if is_line(body) {
            body_runs_same(rt, alloc, frame, body, passes)?;
            read = read.saturating_add(1);
        }
    }
    all_read(rt, read, count);
    Ok(())
}

// What passes make of a body's program.
fn program_after(
    rt: &impl Abort,
    alloc: Global,
    frame: Frame,
    body: &str,
    passes: &[Pass],
) -> Result<Work, Fail> {
    let program = program_in(rt, alloc, frame, body)?;
    Ok(after(alloc, passes, program)?)
}

// Whether a body ends the same in all runs of its frame before the passes and after all of them.
fn body_ends_same(
    rt: &impl Abort,
    alloc: Global,
    frame: Frame,
    body: &str,
    passes: &[Pass],
) -> Result<(), Fail> {
    let before = program_in(rt, alloc, frame, body)?;
    let later = program_after(rt, alloc, frame, body, passes)?;
    let what = format!(in alloc; "{passes:?} of {body}")?;
    runs_agree(rt, alloc, frame, &before, &later, what.as_str())
}

// Whether a body runs the same after each pass of desugaring and those up to cutting, and after them in few calls, and each
// result has what its pass ends with.
fn body_desugars_same(rt: &impl Abort, alloc: Global, body: &str) -> Result<(), Fail> {
    body_runs_same(rt, alloc, Frame::Plain, body, &ALL_STEPS)?;
    body_runs_same(rt, alloc, Frame::Plain, body, &[Pass::DesugarPhases])?;
    body_runs_same(rt, alloc, Frame::Plain, body, &[Pass::Desugar])?;
    body_ends_same(rt, alloc, Frame::Plain, body, &STEPS)?;
    body_ends_same(rt, alloc, Frame::Plain, body, &WHOLE)
}

/// Whether each of so many bodies does.
pub fn all_desugar_same(
    rt: &impl Abort,
    alloc: Global,
    bodies: &str,
    count: usize,
) -> Result<(), Fail> {
    let mut read = 0usize;
    for body in bodies.lines() {
        if is_line(body) {
            body_desugars_same(rt, alloc, body)?;
            read = read.saturating_add(1);
        }
    }
    all_read(rt, read, count);
    Ok(())
}

// Whether a body with searches runs the same after these are written out, at once and behind desugaring.
fn body_searches_same(rt: &impl Abort, alloc: Global, body: &str) -> Result<(), Fail> {
    body_runs_same(rt, alloc, Frame::Rooted, body, &[Pass::BfsOut])?;
    body_ends_same(rt, alloc, Frame::Once, body, &WHOLE)
}

/// Whether each of so many bodies does.
pub fn all_search_same(
    rt: &impl Abort,
    alloc: Global,
    bodies: &str,
    count: usize,
) -> Result<(), Fail> {
    let mut read = 0usize;
    for body in bodies.lines() {
        if is_line(body) {
            body_searches_same(rt, alloc, body)?;
            read = read.saturating_add(1);
        }
    }
    all_read(rt, read, count);
    Ok(())
}

/// What passes make of a body, as source text.
pub fn source_after(
    rt: &impl Abort,
    alloc: Global,
    frame: Frame,
    body: &str,
    passes: &[Pass],
) -> Result<String, Fail> {
    let program = program_after(rt, alloc, frame, body, passes)?;
    Ok(source_of(alloc, program.tree())?)
}

/// The listing of a body's run over a graph, with the words of a command line, after passes.
pub fn listing_after(
    rt: &impl Abort,
    alloc: Global,
    frame: Frame,
    body: &str,
    passes: &[Pass],
    line: &str,
    graph: &str,
) -> Result<String, Fail> {
    let program = program_after(rt, alloc, frame, body, passes)?;
    listing(alloc, &program, line, graph)
}
