//! Reading types and names.

ghost use Rattle.std.specs.Prelude.{◌≡◌, ◌+◌, ◌≤◌, ◌<◌, false, List, length, drop, map, Ok, Err, IfOk, IfErr, option_map};
ghost use Rattle.gm_token.specs.Tokens.{Token, words_of};
ghost use Rattle.gm_ast.specs.SurfaceTree.{name_of, type_of};
ghost use Rattle.gm_parse.specs.Grammar.{Of, Maybe, Many, ◌▸◌, ◌∣◌, the, a_name, OfGraph, TypeName, element_sign, bearer_sign, a_property};
ghost use Rattle.gm_parse.specs.Goes.{Goes, Sees, end_of};
ghost use Rattle.gm_parse.specs.Trees.{ReadsOf, ReadsType, ReadsNames};
ghost use Rattle.gm_parse.specs.Nesting.{Closes, Encloses, ReadsOpenings};
ghost use Rattle.gm_token.specs.declared.words.Word.TheVariants.{Comma};

use crate::around::Around;
use crate::choices::{bare_type, bearer_word, element_type};
use crate::faults::Fault;
use crate::reading::{Placed, choose, eat_name, next_is, peek, skip};
use gm_ast::surface::{Bearer, Name, PropertyLayer, SpelledType};
use gm_token::{Tokens, Word};
use std::alloc::Global;

// The name of a graph in parentheses, if there is one.
fn of_graph(
    alloc: Global,
    tokens: &Tokens,
    at: usize,
    around: Around,
) -> Result<(Option<Name>, usize), Fault>
    ensures goes { Goes (Maybe (Of OfGraph)) around (words_of tokens.now) at (end_of result) }
    ensures tree { IfOk result (λ read. ReadsOf (drop at tokens.now.tokens) (option_map name_of read.0) (drop read.1 tokens.now.tokens)) }
    ensures next { IfOk result (λ read. (at ≤ read.1) × (at ≤ length tokens.now.tokens → read.1 ≤ length tokens.now.tokens)) }
{
    if !next_is(tokens, at, Word::LeftParen) {
        return Ok((None, at));
    }
    let open = skip(tokens, at, Word::LeftParen, around)?;
    let (graph, after) = eat_name(alloc, tokens, open, around)?;
    let close = skip(tokens, after, Word::RightParen, around)?;
    Ok((Some(graph), close))
}

// The beginnings of the property types around a type, the outermost first: what bears each, and the bearer word's
// place.
fn openings(
    alloc: Global,
    tokens: &Tokens,
    at: usize,
    around: Around,
) -> Result<(Vec<Placed<Bearer>>, usize), Fault>
    ensures goes { IfOk result (λ read. Encloses around (words_of tokens.now) at read.1 (length read.0.items)) }
    ensures fault { IfErr result (λ fault. Goes (Of TypeName) around (words_of tokens.now) at (Err fault)) }
    ensures tree { IfOk result (λ read. ReadsOpenings (drop at tokens.now.tokens) read.0.items (drop read.1 tokens.now.tokens)) }
    ensures all { IfOk result (λ read. Sees (words_of tokens.now) read.1 bearer_sign false) }
    ensures next { IfOk result (λ read. at ≤ read.1) }
{
    let mut bearers = Vec::new(alloc);
    let mut after = at;
    'opening: while let Some(bearer) = bearer_word(peek(tokens, after)) {
        let (opened, less) = choose(tokens, after, around, Some(bearer))?;
        let start = skip(tokens, less, Word::Less, around)?;
        bearers.push(opened)?;
        after = start;
    }
    Ok((bearers, after))
}

// A type that may name its graph.
fn element(
    alloc: Global,
    tokens: &Tokens,
    at: usize,
    around: Around,
) -> Result<(SpelledType, usize), Fault>
    requires { Sees (words_of tokens.now) at bearer_sign false }
    ensures goes { Goes (element_sign ▸ Maybe (Of OfGraph) ∣ a_property) around (words_of tokens.now) at (end_of result) }
    ensures tree { IfOk result (λ read. ReadsType (drop at tokens.now.tokens) (type_of read.0) (drop read.1 tokens.now.tokens)) }
    ensures next { IfOk result (λ read. (at < read.1) × (read.1 ≤ length tokens.now.tokens) × (around.statements ≤ 64)) }
{
    let word = peek(tokens, at);
    let found = element_type(word);
    let Some(op) = found else {
        return Err(Fault::Syntax(at));
    };
    let (base, after) = choose(tokens, at, around, Some(op))?;
    let (graph, end) = of_graph(alloc, tokens, after, around)?;
    let layers = Vec::new(alloc);
    let vtype = SpelledType {
        place: base.place,
        word: base.value,
        graph,
        layers,
    };
    Ok((vtype, end))
}

// A type that is no property type.
fn innermost(
    alloc: Global,
    tokens: &Tokens,
    at: usize,
    around: Around,
) -> Result<(SpelledType, usize), Fault>
    requires { Sees (words_of tokens.now) at bearer_sign false }
    ensures goes { Goes (Of TypeName) around (words_of tokens.now) at (end_of result) }
    ensures tree { IfOk result (λ read. ReadsType (drop at tokens.now.tokens) (type_of read.0) (drop read.1 tokens.now.tokens)) }
    ensures next { IfOk result (λ read. (at < read.1) × (read.1 ≤ length tokens.now.tokens) × (around.statements ≤ 64)) }
{
    let word = peek(tokens, at);
    let bare = bare_type(word);
    let Some(op) = bare else {
        let (longer, end) = element(alloc, tokens, at, around)?;
        return Ok((longer, end));
    };
    let (base, after) = choose(tokens, at, around, Some(op))?;
    let layers = Vec::new(alloc);
    let vtype = SpelledType {
        place: base.place,
        word: base.value,
        graph: None,
        layers,
    };
    Ok((vtype, after))
}

// The property types that begin so, the outermost first, around this type, each read to its end.
fn closings(
    alloc: Global,
    tokens: &Tokens,
    at: usize,
    around: Around,
    bearers: Vec<Placed<Bearer>>,
    inner: SpelledType,
) -> Result<(SpelledType, usize), Fault>
    requires { (around.statements ≤ 64) × (at ≤ length tokens.now.tokens) }
    ensures goes { Closes around (words_of tokens.now) (length bearers.items) (Ok at) (end_of result) }
    ensures tree { (us vs : List Token) → ReadsOpenings us bearers.items vs → ReadsType vs (type_of inner) (drop at tokens.now.tokens) → IfOk result (λ read. ReadsType us (type_of read.0) (drop read.1 tokens.now.tokens)) }
    ensures next { IfOk result (λ read. (at ≤ read.1) × (read.1 ≤ length tokens.now.tokens)) }
{
    let mut unclosed = bearers;
    let mut vtype = inner;
    let mut after = at;
    'closing: while let Some(bearer) = unclosed.pop() {
        let greater = skip(tokens, after, Word::Greater, around)?;
        let (graph, end) = of_graph(alloc, tokens, greater, around)?;
        vtype.layers.push(PropertyLayer {
            place: bearer.place,
            bearer: bearer.value,
            graph,
        })?;
        after = end;
    }
    Ok((vtype, after))
}

/// A type, be it within however many property types.
pub fn type_name(
    alloc: Global,
    tokens: &Tokens,
    at: usize,
    around: Around,
) -> Result<(SpelledType, usize), Fault>
    ensures goes { Goes (Of TypeName) around (words_of tokens.now) at (end_of result) }
    ensures tree { IfOk result (λ read. ReadsType (drop at tokens.now.tokens) (type_of read.0) (drop read.1 tokens.now.tokens)) }
    ensures next { IfOk result (λ read. (at < read.1) × (read.1 ≤ length tokens.now.tokens) × (around.statements ≤ 64)) }
{
    let (bearers, start) = openings(alloc, tokens, at, around)?;
    let (inner, after) = innermost(alloc, tokens, start, around)?;
    let (whole, end) = closings(alloc, tokens, after, around, bearers, inner)?;
    Ok((whole, end))
}

/// More names, with a comma before each, after these.
pub fn more_names(
    alloc: Global,
    tokens: &Tokens,
    at: usize,
    around: Around,
    first: Vec<Name>,
) -> Result<(Vec<Name>, usize), Fault>
    requires { (around.statements ≤ 64) × (at ≤ length tokens.now.tokens) }
    ensures goes { Goes (Many (the Comma ▸ a_name)) around (words_of tokens.now) at (end_of result) }
    ensures tree { (us : List Token) → ReadsNames us (map name_of first.items) (drop at tokens.now.tokens) → IfOk result (λ read. ReadsNames us (map name_of read.0.items) (drop read.1 tokens.now.tokens)) }
    ensures next { IfOk result (λ read. (at ≤ read.1) × (read.1 ≤ length tokens.now.tokens)) }
{
    let mut names = first;
    let mut after = at;
    'row: while next_is(tokens, after, Word::Comma) {
        let start = skip(tokens, after, Word::Comma, around)?;
        let (name, end) = eat_name(alloc, tokens, start, around)?;
        names.push(name)?;
        after = end;
    }
    Ok((names, after))
}
