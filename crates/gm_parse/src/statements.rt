//! Reading statements, by recursive descent with one token of foresight.

ghost use Rattle.std.specs.Prelude.{◌≡◌, ◌+◌, ◌≤◌, ◌<◌, List, length, drop, map, IfOk, option_map};
ghost use Rattle.gm_token.specs.Tokens.{Token, words_of};
ghost use Rattle.gm_ast.specs.SurfaceTree.{name_of, target_of, expr_of, test_of, stmt_of};
ghost use Rattle.gm_parse.specs.Grammar.{Of, Maybe, AtName, Target, Statement, Block, SearchHead, Reverse, Condition, from_sign, a_declaration, a_loop, an_if, a_while, a_do, a_search, a_return};
ghost use Rattle.gm_parse.specs.Goes.{Goes, end_of};
ghost use Rattle.gm_parse.specs.Trees.{ReadsTarget, ReadsAt, ReadsFrom, ReadsFilter, ReadsSearch, ReadsStmt, ReadsBlock, ReadsReverse};

use crate::around::Around;
use crate::assignments::assignment;
use crate::choices::loop_word;
use crate::expressions::{condition, expression, head};
use crate::faults::Fault;
use crate::nodes::{Front, do_loop, if_else, if_then, looped, search, search_both, while_loop};
use crate::reading::{
    choose, eat, eat_name, next_is, next_is_expression, next_is_loop, next_is_name,
    next_is_statement, next_is_type, peek, skip,
};
use crate::tuples::argument_reduction;
use crate::types::{more_names, type_name};
use gm_ast::surface::{Name, SpelledExpr, SpelledStmt, SpelledTarget};
use gm_base::Place;
use gm_token::{Tokens, Word};
use std::alloc::Global;

/// A name, or a property of one.
pub fn target_name(
    alloc: Global,
    tokens: &Tokens,
    at: usize,
    around: Around,
) -> Result<(SpelledTarget, usize), Fault>
    ensures goes { Goes (Of Target) around (words_of tokens.now) at (end_of result) }
    ensures tree { IfOk result (λ read. ReadsTarget (drop at tokens.now.tokens) (target_of read.0) (drop read.1 tokens.now.tokens)) }
    ensures next { IfOk result (λ read. (at < read.1) × (read.1 ≤ length tokens.now.tokens) × (around.statements ≤ 64)) }
{
    let (owner, after) = eat_name(alloc, tokens, at, around)?;
    if !next_is(tokens, after, Word::Dot) {
        return Ok((
            SpelledTarget {
                owner,
                property: None,
            },
            after,
        ));
    }
    let dot = skip(tokens, after, Word::Dot, around)?;
    let (property, end) = eat_name(alloc, tokens, dot, around)?;
    Ok((
        SpelledTarget {
            owner,
            property: Some(property),
        },
        end,
    ))
}

/// `@` and the name of an iterator, if they are there.
pub fn at_iterator(
    alloc: Global,
    tokens: &Tokens,
    at: usize,
    around: Around,
) -> Result<(Option<Name>, usize), Fault>
    ensures goes { Goes (Maybe (Of AtName)) around (words_of tokens.now) at (end_of result) }
    ensures tree { IfOk result (λ read. ReadsAt (drop at tokens.now.tokens) (option_map name_of read.0) (drop read.1 tokens.now.tokens)) }
    ensures next { IfOk result (λ read. (at ≤ read.1) × (at ≤ length tokens.now.tokens → read.1 ≤ length tokens.now.tokens)) }
{
    if !next_is(tokens, at, Word::At) {
        return Ok((None, at));
    }
    let sign = skip(tokens, at, Word::At, around)?;
    let (iterator, end) = eat_name(alloc, tokens, sign, around)?;
    Ok((Some(iterator), end))
}

// A filter, if there is one.
fn filter(
    alloc: Global,
    tokens: &Tokens,
    at: usize,
    around: Around,
) -> Result<(Option<SpelledExpr>, usize), Fault>
    ensures goes { Goes (Maybe (Of Condition)) around (words_of tokens.now) at (end_of result) }
    ensures tree { IfOk result (λ read. ReadsFilter (drop at tokens.now.tokens) (test_of read.0) (drop read.1 tokens.now.tokens)) }
    ensures next { IfOk result (λ read. (at ≤ read.1) × (at ≤ length tokens.now.tokens → read.1 ≤ length tokens.now.tokens)) }
{
    if !next_is(tokens, at, Word::LeftParen) {
        return Ok((None, at));
    }
    let (test, end) = condition(alloc, tokens, at, around)?;
    Ok((Some(test), end))
}

// `From` or `;`.
fn from_root(tokens: &Tokens, at: usize, around: Around) -> Result<usize, Fault>
    ensures goes { Goes from_sign around (words_of tokens.now) at result }
    ensures tree { IfOk result (λ after. ReadsFrom (drop at tokens.now.tokens) (drop after tokens.now.tokens)) }
    ensures next { IfOk result (λ after. (at < after) × (after ≤ length tokens.now.tokens) × (around.statements ≤ 64)) }
{
    if next_is(tokens, at, Word::From) {
        let from = skip(tokens, at, Word::From, around)?;
        Ok(from)
    } else {
        let semicolon = skip(tokens, at, Word::Semicolon, around)?;
        Ok(semicolon)
    }
}

// The front of a search.
fn front(alloc: Global, tokens: &Tokens, at: usize, around: Around) -> Result<(Front, usize), Fault>
    ensures goes { Goes (Of SearchHead) around (words_of tokens.now) at (end_of result) }
    ensures tree { IfOk result (λ read. ReadsSearch (drop at tokens.now.tokens) (name_of read.0.iterator) (name_of read.0.graph) (name_of read.0.root) (test_of read.0.filter) (drop read.1 tokens.now.tokens)) }
    ensures next { IfOk result (λ read. (at < read.1) × (read.1 ≤ length tokens.now.tokens) × (around.statements ≤ 64)) }
{
    let open = skip(tokens, at, Word::LeftParen, around)?;
    let (iterator, named) = eat_name(alloc, tokens, open, around)?;
    let colon = skip(tokens, named, Word::Colon, around)?;
    let (graph, after_graph) = eat_name(alloc, tokens, colon, around)?;
    let dot = skip(tokens, after_graph, Word::Dot, around)?;
    let nodes = skip(tokens, dot, Word::Nodes, around)?;
    let from = from_root(tokens, nodes, around)?;
    let (root, after_root) = eat_name(alloc, tokens, from, around)?;
    let close = skip(tokens, after_root, Word::RightParen, around)?;
    let (test, end) = filter(alloc, tokens, close, around)?;
    Ok((
        Front {
            iterator,
            graph,
            root,
            filter: test,
        },
        end,
    ))
}

// A declaration, with an initial value or of several names.
fn declaration(
    alloc: Global,
    tokens: &Tokens,
    at: usize,
    around: Around,
) -> Result<(SpelledStmt, usize), Fault>
    ensures goes { Goes a_declaration around (words_of tokens.now) at (end_of result) }
    ensures tree { IfOk result (λ read. ReadsStmt (drop at tokens.now.tokens) (stmt_of read.0) (drop read.1 tokens.now.tokens)) }
    ensures next { IfOk result (λ read. (at < read.1) × (read.1 ≤ length tokens.now.tokens)) }
{
    let (vtype, named) = type_name(alloc, tokens, at, around)?;
    let (name, after) = eat_name(alloc, tokens, named, around)?;
    if next_is(tokens, after, Word::Assign) {
        let (equals, start) = eat(tokens, after, Word::Assign, around)?;
        let (value, end) = expression(alloc, tokens, start, around)?;
        let last = skip(tokens, end, Word::Semicolon, around)?;
        return Ok((
            SpelledStmt::DeclareAs {
                vtype,
                name,
                equals,
                value,
            },
            last,
        ));
    }
    let mut first = Vec::new(alloc);
    first.push(name)?;
    let (names, end) = more_names(alloc, tokens, after, around, first)?;
    let close = skip(tokens, end, Word::Semicolon, around)?;
    Ok((SpelledStmt::Declare { vtype, names }, close))
}

// A return.
fn returning(
    alloc: Global,
    tokens: &Tokens,
    at: usize,
    around: Around,
) -> Result<(SpelledStmt, usize), Fault>
    ensures goes { Goes a_return around (words_of tokens.now) at (end_of result) }
    ensures tree { IfOk result (λ read. ReadsStmt (drop at tokens.now.tokens) (stmt_of read.0) (drop read.1 tokens.now.tokens)) }
    ensures next { IfOk result (λ read. (at < read.1) × (read.1 ≤ length tokens.now.tokens)) }
{
    let (place, after) = eat(tokens, at, Word::Return, around)?;
    if !next_is_expression(tokens, after) {
        let empty = skip(tokens, after, Word::Semicolon, around)?;
        return Ok((SpelledStmt::Return { place, value: None }, empty));
    }
    let (value, end) = expression(alloc, tokens, after, around)?;
    let last = skip(tokens, end, Word::Semicolon, around)?;
    Ok((
        SpelledStmt::Return {
            place,
            value: Some(value),
        },
        last,
    ))
}

// A statement, in so many others.
#[cycle(statement)]
fn statement(
    alloc: Global,
    tokens: &Tokens,
    at: usize,
    around: Around,
) -> Result<(SpelledStmt, usize), Fault>
    requires { around.statements ≤ 64 }
    ensures goes { Goes (Of Statement) around (words_of tokens.now) at (end_of result) }
    ensures tree { IfOk result (λ read. ReadsStmt (drop at tokens.now.tokens) (stmt_of read.0) (drop read.1 tokens.now.tokens)) }
    ensures next { IfOk result (λ read. (at < read.1) × (read.1 ≤ length tokens.now.tokens)) }
{
    let inside = around.in_statement();
    if next_is(tokens, at, Word::LeftBrace) {
        let (body, end) = block(alloc, tokens, at, inside)?;
        Ok((SpelledStmt::Block(body), end))
    } else if next_is(tokens, at, Word::Semicolon) {
        let empty = skip(tokens, at, Word::Semicolon, inside)?;
        let nothing = Vec::new(alloc);
        Ok((SpelledStmt::Block(nothing), empty))
    } else if next_is_type(tokens, at) {
        let (declared, end) = declaration(alloc, tokens, at, inside)?;
        Ok((declared, end))
    } else if next_is_name(tokens, at) {
        let (assigned, end) = assignment(alloc, tokens, at, inside)?;
        Ok((assigned, end))
    } else if next_is_loop(tokens, at) {
        let (run, end) = looping(alloc, tokens, at, inside)?;
        Ok((run, end))
    } else if next_is(tokens, at, Word::If) {
        let (decided, end) = conditional(alloc, tokens, at, inside)?;
        Ok((decided, end))
    } else if next_is(tokens, at, Word::While) {
        let (repeated, end) = whiling(alloc, tokens, at, inside)?;
        Ok((repeated, end))
    } else if next_is(tokens, at, Word::Do) {
        let (done, end) = doing(alloc, tokens, at, inside)?;
        Ok((done, end))
    } else if next_is(tokens, at, Word::InBFS) {
        let (found, end) = searching(alloc, tokens, at, inside)?;
        Ok((found, end))
    } else if next_is(tokens, at, Word::Less) {
        let (picked, end) = argument_reduction(alloc, tokens, at, inside)?;
        Ok((picked, end))
    } else {
        let (returned, end) = returning(alloc, tokens, at, inside)?;
        Ok((returned, end))
    }
}

// Statements in braces.
#[cycle(statement)]
pub fn block(
    alloc: Global,
    tokens: &Tokens,
    at: usize,
    around: Around,
) -> Result<(Vec<SpelledStmt>, usize), Fault>
    ensures goes { Goes (Of Block) around (words_of tokens.now) at (end_of result) }
    ensures tree { IfOk result (λ read. ReadsBlock (drop at tokens.now.tokens) (map stmt_of read.0.items) (drop read.1 tokens.now.tokens)) }
    ensures next { IfOk result (λ read. (at < read.1) × (read.1 ≤ length tokens.now.tokens)) }
{
    let first = skip(tokens, at, Word::LeftBrace, around)?;
    let mut after = first;
    let mut body = Vec::new(alloc);
    'row: while next_is_statement(tokens, after) {
        let (one, end) = statement(alloc, tokens, after, around)?;
        body.push(one)?;
        after = end;
    }
    let close = skip(tokens, after, Word::RightBrace, around)?;
    Ok((body, close))
}

// A loop over nodes.
#[cycle(statement)]
fn looping(
    alloc: Global,
    tokens: &Tokens,
    at: usize,
    around: Around,
) -> Result<(SpelledStmt, usize), Fault>
    ensures goes { Goes a_loop around (words_of tokens.now) at (end_of result) }
    ensures tree { IfOk result (λ read. ReadsStmt (drop at tokens.now.tokens) (stmt_of read.0) (drop read.1 tokens.now.tokens)) }
    ensures next { IfOk result (λ read. (at < read.1) × (read.1 ≤ length tokens.now.tokens)) }
{
    let word = peek(tokens, at);
    let found = loop_word(word);
    let (sign, start) = choose(tokens, at, around, found)?;
    let (over, after) = head(alloc, tokens, start, around)?;
    let (body, end) = statement(alloc, tokens, after, around)?;
    let run = looped(alloc, sign.place, sign.value, over.head, over.filter, body)?;
    Ok((run, end))
}

// A condition with one branch or two.
#[cycle(statement)]
fn conditional(
    alloc: Global,
    tokens: &Tokens,
    at: usize,
    around: Around,
) -> Result<(SpelledStmt, usize), Fault>
    ensures goes { Goes an_if around (words_of tokens.now) at (end_of result) }
    ensures tree { IfOk result (λ read. ReadsStmt (drop at tokens.now.tokens) (stmt_of read.0) (drop read.1 tokens.now.tokens)) }
    ensures next { IfOk result (λ read. (at < read.1) × (read.1 ≤ length tokens.now.tokens)) }
{
    let (place, start) = eat(tokens, at, Word::If, around)?;
    let (test, after) = condition(alloc, tokens, start, around)?;
    let (yes, end) = statement(alloc, tokens, after, around)?;
    if !next_is(tokens, end, Word::Else) {
        let alone = if_then(alloc, place, test, yes)?;
        return Ok((alone, end));
    }
    let other = skip(tokens, end, Word::Else, around)?;
    let (no, last) = statement(alloc, tokens, other, around)?;
    let decided = if_else(alloc, place, test, yes, no)?;
    Ok((decided, last))
}

// A loop with its test first.
#[cycle(statement)]
fn whiling(
    alloc: Global,
    tokens: &Tokens,
    at: usize,
    around: Around,
) -> Result<(SpelledStmt, usize), Fault>
    ensures goes { Goes a_while around (words_of tokens.now) at (end_of result) }
    ensures tree { IfOk result (λ read. ReadsStmt (drop at tokens.now.tokens) (stmt_of read.0) (drop read.1 tokens.now.tokens)) }
    ensures next { IfOk result (λ read. (at < read.1) × (read.1 ≤ length tokens.now.tokens)) }
{
    let (place, start) = eat(tokens, at, Word::While, around)?;
    let (test, after) = condition(alloc, tokens, start, around)?;
    let (body, end) = statement(alloc, tokens, after, around)?;
    let repeated = while_loop(alloc, place, test, body)?;
    Ok((repeated, end))
}

// A loop with its test last.
#[cycle(statement)]
fn doing(
    alloc: Global,
    tokens: &Tokens,
    at: usize,
    around: Around,
) -> Result<(SpelledStmt, usize), Fault>
    ensures goes { Goes a_do around (words_of tokens.now) at (end_of result) }
    ensures tree { IfOk result (λ read. ReadsStmt (drop at tokens.now.tokens) (stmt_of read.0) (drop read.1 tokens.now.tokens)) }
    ensures next { IfOk result (λ read. (at < read.1) × (read.1 ≤ length tokens.now.tokens)) }
{
    let (place, start) = eat(tokens, at, Word::Do, around)?;
    let (body, after) = block(alloc, tokens, start, around)?;
    let keyword = skip(tokens, after, Word::While, around)?;
    let (test, close) = condition(alloc, tokens, keyword, around)?;
    let last = skip(tokens, close, Word::Semicolon, around)?;
    let done = do_loop(alloc, place, body, test)?;
    Ok((done, last))
}

// A breadth-first search.
#[cycle(statement)]
fn searching(
    alloc: Global,
    tokens: &Tokens,
    at: usize,
    around: Around,
) -> Result<(SpelledStmt, usize), Fault>
    ensures goes { Goes a_search around (words_of tokens.now) at (end_of result) }
    ensures tree { IfOk result (λ read. ReadsStmt (drop at tokens.now.tokens) (stmt_of read.0) (drop read.1 tokens.now.tokens)) }
    ensures next { IfOk result (λ read. (at < read.1) × (read.1 ≤ length tokens.now.tokens)) }
{
    let (place, start) = eat(tokens, at, Word::InBFS, around)?;
    let (over, after) = front(alloc, tokens, start, around)?;
    let (body, end) = block(alloc, tokens, after, around)?;
    if !next_is(tokens, end, Word::InReverse) {
        let out = search(alloc, place, over, body)?;
        return Ok((out, end));
    }
    let (back, last) = reverse(alloc, tokens, end, around)?;
    let both = search_both(alloc, place, over, body, back.place, back.filter, back.body)?;
    Ok((both, last))
}

// The part of a search after `InReverse`.
#[derive(Drop)]
struct Back {
    place: Place,
    filter: Option<SpelledExpr>,
    body: Vec<SpelledStmt>,
}

// The part of a search after `InReverse`.
#[cycle(statement)]
fn reverse(
    alloc: Global,
    tokens: &Tokens,
    at: usize,
    around: Around,
) -> Result<(Back, usize), Fault>
    ensures goes { Goes (Of Reverse) around (words_of tokens.now) at (end_of result) }
    ensures tree { IfOk result (λ read. ReadsReverse (drop at tokens.now.tokens) read.0.place (test_of read.0.filter) (map stmt_of read.0.body.items) (drop read.1 tokens.now.tokens)) }
    ensures next { IfOk result (λ read. (at < read.1) × (read.1 ≤ length tokens.now.tokens)) }
{
    let (place, start) = eat(tokens, at, Word::InReverse, around)?;
    let (test, after) = filter(alloc, tokens, start, around)?;
    let (body, end) = block(alloc, tokens, after, around)?;
    Ok((
        Back {
            place,
            filter: test,
            body,
        },
        end,
    ))
}
