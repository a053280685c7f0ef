//! The values that the words NAME=VALUE give to the scalar inputs of a program.

ghost use Rattle.std.specs.Prelude.{◌≡◌, ◌≢◌, ◌<◌, Some, None, Ok, Err, IfOk, IfErr, IsTrue, [], length, slice_get, ℕ, List, position, drop, ◌==◌};
ghost use Rattle.gm_words.specs.Words.{is_equals};
ghost use Rattle.gm_words.specs.declared.arguments.ArgFault.TheVariants.{NoMemory};
ghost use Rattle.gm_words.specs.Jobs.{AllAssign, is_assignment};
ghost use Rattle.gm_words.specs.Arguments.{given_by, in_order, judged, name_in_word, name_len, placed, type_named, value_in_word, values_bound};
ghost use Rattle.gm_words.specs.Bindings.{bindings, type_in};

use crate::spellings::{Spelling, read_spelling};
use gm_base::Text;
use gm_graph::Graph;
use gm_value::{VType, Value};
use indexmap::IndexMap;
use std::alloc::{AllocError, AllocFailed, Global};
use std::{error, fmt};

/// A scalar input of a program.
#[derive(Debug, Drop)]
pub struct Input {
    pub name: Text,
    pub vtype: VType,
}

/// Why words give no values to inputs. Each fault but `NoMemory` names an input, or what stands for its name.
#[derive(Debug, Drop)]
pub enum ArgFault {
    /// No word gives the input a value.
    Missing(Text),
    /// No input has the name.
    Unknown(Text),
    /// A second word gives the input a value.
    Twice(Text),
    /// The text spells no value of the input's type.
    BadValue(Text),
    /// The graph has no node of the number.
    NoSuchNode(Text),
    /// There was not enough memory.
    NoMemory,
}

impl fmt::Display for ArgFault {
    fn fmt<W: fmt::Write>(&self, f: &mut fmt::Formatter<W>) -> fmt::Result {
        match self {
            ArgFault::Missing(name) => write!(f, "argument Missing {}", name.as_str()),
            ArgFault::Unknown(name) => write!(f, "argument Unknown {}", name.as_str()),
            ArgFault::Twice(name) => write!(f, "argument Twice {}", name.as_str()),
            ArgFault::BadValue(name) => write!(f, "argument BadValue {}", name.as_str()),
            ArgFault::NoSuchNode(name) => write!(f, "argument NoSuchNode {}", name.as_str()),
            ArgFault::NoMemory => f.write_str("out of memory"),
        }
    }
}

impl error::Error for ArgFault {}

impl From<AllocError> for ArgFault {
    ghost from_gives = { λ _ fault. fault ≡ NoMemory };

    fn from(_error: AllocError) -> ArgFault {
        ArgFault::NoMemory
    }
}

impl<T: Drop> From<AllocFailed<T>> for ArgFault {
    ghost from_gives = { λ _ fault. fault ≡ NoMemory };

    fn from(_error: AllocFailed<T>) -> ArgFault {
        ArgFault::NoMemory
    }
}

/// The values of the inputs, in their order, as the words NAME=VALUE give them over the graph.
///
/// In each word a `=` stands after at least one byte, as in the words of a `Job`. The words are judged from left
/// to right, then the inputs in their order.
///
/// # Errors
///
/// The first faulty word gives `Unknown`, `Twice`, `BadValue` or `NoSuchNode`, and where no word is faulty the
/// first input without a word gives `Missing`. `NoMemory` comes where memory ran out.
pub fn bind(
    alloc: Global,
    inputs: &[Input],
    words: &[Text],
    graph: &Graph,
) -> Result<Vec<Value>, ArgFault>
    requires { AllAssign words.now }
    ensures values { IfOk result (λ values. values_bound inputs.now words.now graph.now.numbers ≡ Ok values.items) }
    ensures fault { IfErr result (λ fault. fault ≢ NoMemory
        → values_bound inputs.now words.now graph.now.numbers ≡ Err fault) }
{
    let types = types_by_name(alloc, inputs)?;
    let given = given_values(alloc, &types, words, graph)?;
    values_in_order(alloc, inputs, &given)
}

// A copy of a name.
fn copied(alloc: Global, name: &str) -> Result<Text, AllocError>
    ensures { IfOk result (λ copy. copy ≡ name.now) }
{
    Ok(Text::new(String::from_str(alloc, name)?))
}

// The types of the inputs by their names. Of two inputs of one name the first counts.
fn types_by_name<'a>(
    alloc: Global,
    inputs: &'a [Input],
) -> Result<IndexMap<&'a str, VType>, AllocError>
    ensures { IfOk result (λ types. (name : List ℕ) → type_in types name ≡ type_named inputs.now name) }
{
    let mut types = IndexMap::new(alloc);
    for input in inputs {
        let name = input.name.as_str();
        if !types.contains_key(name) {
            types.insert(name, input.vtype)?;
        }
    }
    Ok(types)
}

// The NAME and the VALUE of a word.
#[derive(Clone, Copy)]
struct Assignment<'a> {
    name: &'a str,
    value: &'a str,
}

// How far after the first byte the first `=` after it stands.
fn equals_after_first(word: &[u8]) -> Option<usize>
    ensures { result ≡ position is_equals (drop 1 word.now) }
{
    word.iter().skip(1).position(|b| *b == b'=')
}

// How long the name of a word is, in bytes.
fn name_end(word: &str) -> usize
    requires { IsTrue (is_assignment word.now) }
    ensures value { result ≡ name_len word.now }
    ensures equals { slice_get word.now result ≡ Some 61 }
{
    match equals_after_first(word.as_bytes()) {
        Some(after_first) => after_first + 1,
        None => unreachable!(),
    }
}

fn split_word(word: &str) -> Assignment<'_>
    requires { IsTrue (is_assignment word.now) }
    ensures name { result.name.now ≡ name_in_word word.now }
    ensures value { result.value.now ≡ value_in_word word.now }
{
    let end = name_end(word);
    Assignment {
        name: &word[..end],
        value: &word[end + 1..],
    }
}

// The value of one word, by the type of the input of its name and by the value that an earlier word gave it.
fn judge(
    alloc: Global,
    vtype: Option<VType>,
    before: Option<Value>,
    graph: &Graph,
    word: &Assignment,
) -> Result<Value, ArgFault>
    ensures value { IfOk result (λ value. judged vtype before graph.now.numbers word.now.name.now word.now.value.now ≡ Ok value) }
    ensures fault { IfErr result (λ fault. fault ≢ NoMemory
        → judged vtype before graph.now.numbers word.now.name.now word.now.value.now ≡ Err fault) }
{
    let Some(vtype) = vtype else {
        return Err(ArgFault::Unknown(copied(alloc, word.name)?));
    };
    if before.is_some() {
        return Err(ArgFault::Twice(copied(alloc, word.name)?));
    }
    let Some(spelling) = read_spelling(vtype, word.value) else {
        return Err(ArgFault::BadValue(copied(alloc, word.name)?));
    };
    match spelling {
        Spelling::Ready(value) => Ok(value),
        Spelling::Number(number) => place(alloc, graph, number, word.name),
    }
}

// The node of a number, for the input of a name.
fn place(alloc: Global, graph: &Graph, number: u64, name: &str) -> Result<Value, ArgFault>
    ensures value { IfOk result (λ value. placed (position (λ n. n == number) graph.now.numbers) name.now ≡ Ok value) }
    ensures fault { IfErr result (λ fault. fault ≢ NoMemory
        → placed (position (λ n. n == number) graph.now.numbers) name.now ≡ Err fault) }
{
    match graph.node_of(number) {
        Some(node) => Ok(Value::At(Some(node))),
        None => Err(ArgFault::NoSuchNode(copied(alloc, name)?)),
    }
}

// The values that the words give, by the names of their inputs.
fn given_values<'a>(
    alloc: Global,
    types: &IndexMap<&str, VType>,
    words: &'a [Text],
    graph: &Graph,
) -> Result<IndexMap<&'a str, Value>, ArgFault>
    requires { AllAssign words.now }
    ensures values { IfOk result (λ given. given_by (type_in types.now) graph.now.numbers words.now [] ≡ Ok (bindings given)) }
    ensures fault { IfErr result (λ fault. fault ≢ NoMemory
        → given_by (type_in types.now) graph.now.numbers words.now [] ≡ Err fault) }
{
    let mut given = IndexMap::new(alloc);
    for text in words {
        let word = split_word(text.as_str());
        let vtype = types.get(word.name).copied();
        let before = given.get(word.name).copied();
        let value = judge(alloc, vtype, before, graph, &word)?;
        given.insert(word.name, value)?;
    }
    Ok(given)
}

// The values of the inputs in their order.
fn values_in_order(
    alloc: Global,
    inputs: &[Input],
    given: &IndexMap<&str, Value>,
) -> Result<Vec<Value>, ArgFault>
    ensures values { IfOk result (λ values. in_order (bindings given.now) inputs.now ≡ Ok values.items) }
    ensures fault { IfErr result (λ fault. fault ≢ NoMemory → in_order (bindings given.now) inputs.now ≡ Err fault) }
{
    let mut values = Vec::new(alloc);
    for input in inputs {
        let name = input.name.as_str();
        let Some(value) = given.get(name) else {
            return Err(ArgFault::Missing(copied(alloc, name)?));
        };
        values.push(*value)?;
    }
    Ok(values)
}
