//! Words NAME=VALUE and the values that they give.
ghost use Rattle.std.specs.Prelude.{IfOk};
ghost use Rattle.gm_words.specs.Jobs.{AllAssign};

use crate::compare::{same, same_found, sides_at};
use crate::graph_texts::graph_of_edges;
use gm_base::{Items, NoMemory, Text};
use gm_graph::Graph;
use gm_value::{VType, Value};
use gm_words::{Input, Job, bind, read_words};
use std::alloc::{AllocError, Global};
use std::process::Abort;
use std::test::Fail;

// Words NAME=VALUE, parted by one space each, and the values that they give to an Int `n`, a Long `l`, a Bool `b`
// and a Node `v`, in this order, over a graph with the nodes 0, 7 and 9223372036854775807. `@K` is the node of
// index K. All of it was written by hand, from the rules.
const ROWS: &str = "n=1 l=2 b=1 v=7 => 1 2 true @1
v=0 b=0 l=-5 n=3 => 3 -5 false @0
n=2147483647 l=9223372036854775807 b=True v=NIL => 2147483647 9223372036854775807 true NIL
n=-2147483648 l=-9223372036854775808 b=False v=9223372036854775807 => -2147483648 -9223372036854775808 false @2
n=-0 l=-000 b=true v=007 => 0 0 true @1
n=000000000000000000000000000005 l=-000000000000000000000000000009 b=false v=00000000000000000000000000000000 => 5 -9 false @0
l=2 b=1 v=7 => argument Missing n
n=1 b=1 v=7 => argument Missing l
n=1 l=2 v=NIL => argument Missing b
n=1 l=2 b=1 => argument Missing v
v=7 => argument Missing n
x=1 => argument Unknown x
N=1 => argument Unknown N
nn=1 => argument Unknown nn
=n=1 => argument Unknown =n
== => argument Unknown =
n=1 n=1 => argument Twice n
n=1 l=2 b=1 v=7 b=1 => argument Twice b
n=1 n=x => argument Twice n
n=x n=1 => argument BadValue n
n=1 l=y x=1 => argument BadValue l
n=1 x=1 l=y => argument Unknown x
v=9 n=z => argument NoSuchNode v
n=z v=9 => argument BadValue n
n=1 v=9 v=7 => argument NoSuchNode v
n=1=2 => argument BadValue n
n= => argument BadValue n
n=- => argument BadValue n
n=--1 => argument BadValue n
n=+1 => argument BadValue n
n=1- => argument BadValue n
n=1.0 => argument BadValue n
n=0x1 => argument BadValue n
n=true => argument BadValue n
n=NIL => argument BadValue n
n=2147483648 => argument BadValue n
n=-2147483649 => argument BadValue n
n=9223372036854775808 => argument BadValue n
l= => argument BadValue l
l=+5 => argument BadValue l
l=9223372036854775808 => argument BadValue l
l=-9223372036854775809 => argument BadValue l
l=18446744073709551616 => argument BadValue l
l=99999999999999999999999999 => argument BadValue l
b= => argument BadValue b
b=2 => argument BadValue b
b=00 => argument BadValue b
b=-0 => argument BadValue b
b=TRUE => argument BadValue b
b=no => argument BadValue b
v= => argument BadValue v
v=nil => argument BadValue v
v=-7 => argument BadValue v
v=+7 => argument BadValue v
v=7x => argument BadValue v
v=@1 => argument BadValue v
v=1 => argument NoSuchNode v
v=8 => argument NoSuchNode v
v=9223372036854775806 => argument NoSuchNode v
v=9223372036854775808 => argument BadValue v
v=18446744073709551623 => argument BadValue v";

fn small_graph(alloc: Global) -> Result<Graph, NoMemory> {
    graph_of_edges(alloc, &[0, 9223372036854775807], &[7, 7], &[])
}

fn input(alloc: Global, name: &str, vtype: VType) -> Result<Input, AllocError> {
    Ok(Input {
        name: Text::new(String::from_str(alloc, name)?),
        vtype,
    })
}

// Inputs and one more.
fn with_input(
    alloc: Global,
    inputs: Vec<Input>,
    name: &str,
    vtype: VType,
) -> Result<Vec<Input>, AllocError> {
    let mut inputs = inputs;
    inputs.push(input(alloc, name, vtype)?)?;
    Ok(inputs)
}

fn four_inputs(alloc: Global) -> Result<Vec<Input>, AllocError> {
    let inputs = with_input(alloc, Vec::new(alloc), "n", VType::I32)?;
    let inputs = with_input(alloc, inputs, "l", VType::I64)?;
    let inputs = with_input(alloc, inputs, "b", VType::Flag)?;
    with_input(alloc, inputs, "v", VType::Node)
}

fn node_text(alloc: Global, node: Option<u32>) -> Result<String, AllocError> {
    match node {
        None => String::from_str(alloc, "NIL"),
        Some(k) => format!(in alloc; "@{k}"),
    }
}

fn number_text(alloc: Global, number: i64) -> Result<String, AllocError> {
    format!(in alloc; "{number}")
}

fn flag_text(alloc: Global, flag: bool) -> Result<String, AllocError> {
    format!(in alloc; "{flag}")
}

fn value_text(alloc: Global, value: Value) -> Result<String, AllocError> {
    match value {
        Value::I32(n) => number_text(alloc, i64::from(n)),
        Value::I64(n) => number_text(alloc, n),
        Value::Flag(b) => flag_text(alloc, b),
        Value::At(node) => node_text(alloc, node),
    }
}

// Writes a value, behind a space where it is not the first.
fn put_value(alloc: Global, text: &mut String, value: Value) -> Result<(), AllocError> {
    if !text.is_empty() {
        text.push_str(" ")?;
    }
    text.push_str(value_text(alloc, value)?.as_str())
}

fn values_text(alloc: Global, values: &[Value]) -> Result<String, AllocError> {
    let mut text = String::new(alloc);
    for value in values {
        put_value(alloc, &mut text, *value)?;
    }
    Ok(text)
}

// Adds the words of a line.
fn put_words(alloc: Global, words: &mut Vec<String>, line: &str) -> Result<(), AllocError> {
    for word in line.split(' ') {
        words.push(String::from_str(alloc, word)?)?;
    }
    Ok(())
}

// The words `run a b` and those of a line.
fn words_of(alloc: Global, line: &str) -> Result<Vec<String>, AllocError> {
    let mut words = Vec::new(alloc);
    put_words(alloc, &mut words, "run a b")?;
    put_words(alloc, &mut words, line)?;
    Ok(words)
}

// The values that words give.
fn bound(
    alloc: Global,
    inputs: &[Input],
    graph: &Graph,
    args: &[Text],
) -> Result<String, AllocError>
    requires { AllAssign args.now }
{
    match bind(alloc, inputs, args, graph) {
        Ok(values) => values_text(alloc, values.as_slice()),
        Err(fault) => format!(in alloc; "{fault}"),
    }
}

// The words that assign after `run a b`.
fn args_of(alloc: Global, line: &str) -> Result<Items<Text>, Fail>
    ensures { IfOk result AllAssign }
{
    let words = words_of(alloc, line)?;
    match read_words(alloc, words.as_slice())? {
        Job::Run { args, .. } => Ok(args),
        _ => Err(Fail::from("no run")),
    }
}

// What the words give after `run a b`.
fn answer(alloc: Global, inputs: &[Input], graph: &Graph, line: &str) -> Result<String, Fail> {
    let args = args_of(alloc, line)?;
    Ok(bound(alloc, inputs, graph, args.as_slice())?)
}

// Compares what the words of a row give.
fn check(
    rt: &(impl Abort + AllocGlobal),
    inputs: &[Input],
    graph: &Graph,
    row: &str,
) -> Result<(), Fail> {
    let (line, values) = sides_at(row, " => ")?;
    let found = answer(rt.alloc(), inputs, graph, line)?;
    same_found(rt, line, found.as_str(), values);
    Ok(())
}

// Compares what the words of so many rows give.
fn check_all(
    rt: &(impl Abort + AllocGlobal),
    inputs: &[Input],
    graph: &Graph,
    count: usize,
) -> Result<(), Fail> {
    let mut read = 0usize;
    for row in ROWS.lines() {
        check(rt, inputs, graph, row)?;
        read = read.saturating_add(1);
    }
    same(rt, 0, read, count);
    Ok(())
}

#[test]
fn arguments(rt: HostRuntime) -> Result<(), Fail> {
    let inputs = four_inputs(rt.alloc())?;
    let graph = small_graph(rt.alloc())?;
    check_all(&rt, inputs.as_slice(), &graph, 61)
}

#[test]
fn no_words_give_no_value(rt: HostRuntime) -> Result<(), Fail> {
    let inputs = four_inputs(rt.alloc())?;
    let graph = small_graph(rt.alloc())?;
    let found = bound(rt.alloc(), inputs.as_slice(), &graph, &[])?;
    same_found(&rt, "no words", found.as_str(), "argument Missing n");
    Ok(())
}
