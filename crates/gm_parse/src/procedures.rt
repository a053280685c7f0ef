//! Reading a procedure, and a whole text.

ghost use Rattle.std.specs.Prelude.{◌≡◌, ◌+◌, ◌≤◌, ◌<◌, List, length, drop, map, IfOk, IfErr, IfSome, IfNone, option_map};
ghost use Rattle.gm_token.specs.Tokens.{Token, words_of};
ghost use Rattle.gm_ast.specs.SurfaceTree.{name_of, type_of, group_of, procedure_of};
ghost use Rattle.gm_parse.specs.Grammar.{Of, Maybe, ◌▸◌, the, Procedure, Parameters, Group, TypeName, rule};
ghost use Rattle.gm_parse.specs.Goes.{Goes, end_of};
ghost use Rattle.gm_parse.specs.Derivation.{IsShallowProgram};
ghost use Rattle.gm_parse.specs.Refused.{AllSupported, IsAccepted, IsRefusal, IsStopOf, IsFirstFault, stop_of};
ghost use Rattle.gm_parse.specs.Trees.{ReadsGroup, ReadsParameters, ReadsOutputs, ReadsResult, ReadsProcedure, IsTreeOf};
ghost use Rattle.gm_token.specs.declared.words.Word.TheVariants.{Semicolon, Colon};

use crate::around::Around;
use crate::choices::procedure_word;
use crate::faults::Fault;
use crate::reading::{choose, eat_name, next_is, next_is_name, peek, place_at, skip};
use crate::statements::block;
use crate::types::{more_names, type_name};
use gm_ast::surface::{SpelledGroup, SpelledProcedure, SpelledType};
use gm_base::{Refusal, Rule, Stop};
use gm_token::{Tokens, Word};
use std::alloc::Global;

// Names of one type.
fn group(
    alloc: Global,
    tokens: &Tokens,
    at: usize,
    around: Around,
) -> Result<(SpelledGroup, usize), Fault>
    ensures goes { Goes (Of Group) around (words_of tokens.now) at (end_of result) }
    ensures tree { IfOk result (λ read. ReadsGroup (drop at tokens.now.tokens) (group_of read.0) (drop read.1 tokens.now.tokens)) }
    ensures next { IfOk result (λ read. (at < read.1) × (read.1 ≤ length tokens.now.tokens) × (around.statements ≤ 64)) }
{
    let (name, after) = eat_name(alloc, tokens, at, around)?;
    let mut first = Vec::new(alloc);
    first.push(name)?;
    let (names, end) = more_names(alloc, tokens, after, around, first)?;
    let colon = skip(tokens, end, Word::Colon, around)?;
    let (vtype, last) = type_name(alloc, tokens, colon, around)?;
    Ok((SpelledGroup { names, vtype }, last))
}

// Groups of parameters, if there are any.
fn parameters(
    alloc: Global,
    tokens: &Tokens,
    at: usize,
    around: Around,
) -> Result<(Vec<SpelledGroup>, usize), Fault>
    ensures goes { Goes (Maybe (Of Parameters)) around (words_of tokens.now) at (end_of result) }
    ensures tree { IfOk result (λ read. ReadsParameters (drop at tokens.now.tokens) (map group_of read.0.items) (drop read.1 tokens.now.tokens)) }
    ensures next { IfOk result (λ read. (at ≤ read.1) × (at ≤ length tokens.now.tokens → read.1 ≤ length tokens.now.tokens)) }
{
    let mut groups = Vec::new(alloc);
    if !next_is_name(tokens, at) {
        return Ok((groups, at));
    }
    let (first, start) = group(alloc, tokens, at, around)?;
    groups.push(first)?;
    let mut after = start;
    'row: while next_is(tokens, after, Word::Comma) {
        let comma = skip(tokens, after, Word::Comma, around)?;
        let (one, end) = group(alloc, tokens, comma, around)?;
        groups.push(one)?;
        after = end;
    }
    Ok((groups, after))
}

// `;` and outputs, if they are there.
fn outputs(
    alloc: Global,
    tokens: &Tokens,
    at: usize,
    around: Around,
) -> Result<(Vec<SpelledGroup>, usize), Fault>
    ensures goes { Goes (Maybe (the Semicolon ▸ Maybe (Of Parameters))) around (words_of tokens.now) at (end_of result) }
    ensures tree { IfOk result (λ read. ReadsOutputs (drop at tokens.now.tokens) (map group_of read.0.items) (drop read.1 tokens.now.tokens)) }
    ensures next { IfOk result (λ read. (at ≤ read.1) × (at ≤ length tokens.now.tokens → read.1 ≤ length tokens.now.tokens)) }
{
    if !next_is(tokens, at, Word::Semicolon) {
        let none = Vec::new(alloc);
        return Ok((none, at));
    }
    let semicolon = skip(tokens, at, Word::Semicolon, around)?;
    let (groups, end) = parameters(alloc, tokens, semicolon, around)?;
    Ok((groups, end))
}

// `:` and the type of the result, if they are there.
fn result_type(
    alloc: Global,
    tokens: &Tokens,
    at: usize,
    around: Around,
) -> Result<(Option<SpelledType>, usize), Fault>
    ensures goes { Goes (Maybe (the Colon ▸ Of TypeName)) around (words_of tokens.now) at (end_of result) }
    ensures tree { IfOk result (λ read. ReadsResult (drop at tokens.now.tokens) (option_map type_of read.0) (drop read.1 tokens.now.tokens)) }
    ensures next { IfOk result (λ read. (at ≤ read.1) × (at ≤ length tokens.now.tokens → read.1 ≤ length tokens.now.tokens)) }
{
    if !next_is(tokens, at, Word::Colon) {
        return Ok((None, at));
    }
    let colon = skip(tokens, at, Word::Colon, around)?;
    let (vtype, end) = type_name(alloc, tokens, colon, around)?;
    Ok((Some(vtype), end))
}

// A procedure.
fn procedure(
    alloc: Global,
    tokens: &Tokens,
    at: usize,
    around: Around,
) -> Result<(SpelledProcedure, usize), Fault>
    ensures goes { Goes (Of Procedure) around (words_of tokens.now) at (end_of result) }
    ensures tree { IfOk result (λ read. ReadsProcedure (drop at tokens.now.tokens) (procedure_of read.0) (drop read.1 tokens.now.tokens)) }
    ensures next { IfOk result (λ read. (at < read.1) × (read.1 ≤ length tokens.now.tokens)) }
{
    let word = peek(tokens, at);
    let found = procedure_word(word);
    let (keyword, start) = choose(tokens, at, around, found)?;
    let (name, named) = eat_name(alloc, tokens, start, around)?;
    let open = skip(tokens, named, Word::LeftParen, around)?;
    let (inputs, after_inputs) = parameters(alloc, tokens, open, around)?;
    let (outs, after_outputs) = outputs(alloc, tokens, after_inputs, around)?;
    let close = skip(tokens, after_outputs, Word::RightParen, around)?;
    let (typed, after_type) = result_type(alloc, tokens, close, around)?;
    let (body, end) = block(alloc, tokens, after_type, around)?;
    Ok((
        SpelledProcedure {
            name,
            inputs,
            outputs: outs,
            result: typed,
            body,
        },
        end,
    ))
}

// The tree of the whole text, whose words are all supported or not; or its first fault.
fn whole(alloc: Global, tokens: &Tokens) -> Result<SpelledProcedure, Fault>
    ensures tree { IfOk result (λ tree. IsTreeOf tokens.now.tokens (procedure_of tree)) }
    ensures program { IfOk result (λ _. IsShallowProgram rule (words_of tokens.now)) }
    ensures fault { IfErr result (IsFirstFault (words_of tokens.now)) }
{
    let (tree, end) = procedure(alloc, tokens, 0, Around::outside())?;
    if end < tokens.len() {
        Err(Fault::Syntax(end))
    } else {
        Ok(tree)
    }
}

// The refusal of the first word that this version does not take, if there is one.
fn unsupported(tokens: &Tokens) -> Option<Refusal>
    ensures found { IfSome result (IsRefusal tokens.now) }
    ensures none { IfNone result (AllSupported (words_of tokens.now)) }
{
    let mut at = 0;
    'row: while at < tokens.len() {
        let word = tokens.word(at);
        if let Some(rule) = word.unsupported_rule() {
            let place = place_at(tokens, at);
            return Some(Refusal { rule, place });
        }
        at += 1;
    }
    None
}

// Why the text has no tree.
fn stop_of(tokens: &Tokens, fault: Fault) -> Stop
    ensures { result ≡ stop_of tokens.now fault }
{
    match fault {
        Fault::Syntax(at) => Stop::Refused(Refusal {
            rule: Rule::Syntax,
            place: place_at(tokens, at),
        }),
        Fault::TooDeep(at) => Stop::Refused(Refusal {
            rule: Rule::TooDeep,
            place: place_at(tokens, at),
        }),
        Fault::NoMemory => Stop::NoMemory,
    }
}

/// The tree that the tokens of a text spell.
///
/// Refused is the first word that this version does not take (U1 to U8). Without one, the text is refused at the
/// first token with which the tokens so far begin no program, or at its end (Syntax); or at the first token of a
/// statement inside 64 others, or the 257th of an expression that is no part of another, where the tokens up to
/// this one begin a program (TooDeep). `NoMemory` may come of any text.
pub fn parse(alloc: Global, tokens: &Tokens) -> Result<SpelledProcedure, Stop>
    ensures tree { IfOk result (λ tree. IsTreeOf tokens.now.tokens (procedure_of tree)) }
    ensures accepted { IfOk result (λ _. IsAccepted tokens.now) }
    ensures refused { IfErr result (IsStopOf tokens.now) }
{
    if let Some(refusal) = unsupported(tokens) {
        return Err(Stop::Refused(refusal));
    }
    match whole(alloc, tokens) {
        Ok(tree) => Ok(tree),
        Err(fault) => Err(stop_of(tokens, fault)),
    }
}
