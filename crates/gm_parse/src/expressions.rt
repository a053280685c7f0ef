//! Reading expressions, by recursive descent with one token of foresight.

ghost use Rattle.std.specs.Prelude.{◌≡◌, ◌≢◌, ◌+◌, ◌≤◌, ◌<◌, List, length, drop, IfOk};
ghost use Rattle.gm_token.specs.declared.words.Word.TheVariants.{Number};
ghost use Rattle.gm_token.specs.Tokens.{Token, words_of};
ghost use Rattle.gm_ast.specs.SurfaceTree.{name_of, expr_of, test_of, head_of};
ghost use Rattle.gm_ast.specs.Surface.{SurfaceExpr};
ghost use Rattle.gm_ast.specs.Surface as trees;
ghost use Rattle.gm_parse.specs.Grammar.{Of, Maybe, Many, ◌▸◌, the, a_member, a_choice, test_sign, an_entry, Range as RangePart, Sum, Unary, Relation, Disjunction, Expression, Primary, Reduction, Braces, Condition, Head as HeadPart};
ghost use Rattle.gm_parse.specs.Factored.{in_parentheses, atom, rest, rest_of_relation};
ghost use Rattle.gm_parse.specs.Goes.{Goes, end_of};
ghost use Rattle.gm_parse.specs.Levels.{part_of, operand_of, signs_of};
ghost use Rattle.gm_parse.specs.Trees.{ReadsTree, ReadsCondition, ReadsFilter, ReadsBraces, ReadsRange, ReadsHead};

use crate::around::Around;
use crate::choices::{cast_type, infix_of, range_word, test_reduction, value_reduction};
use crate::faults::Fault;
use crate::levels::Level;
use crate::nodes::{chosen, infixed, paren, prefixed, reduction};
use crate::reading::{choose, eat, eat_name, next_is, next_is_inf, next_is_reduction, peek, skip};
use gm_ast::surface::{Name, Prefix, Range, SpelledExpr, SpelledHead};
use gm_base::Place;
use gm_token::{Tokens, Word};
use std::alloc::Global;

// What a range is of, and the range.
#[derive(Drop)]
struct Ranged {
    owner: Name,
    range: Range,
}

fn owned_range(
    alloc: Global,
    tokens: &Tokens,
    at: usize,
    around: Around,
) -> Result<(Ranged, usize), Fault>
    ensures goes { Goes (Of RangePart) around (words_of tokens.now) at (end_of result) }
    ensures tree { IfOk result (λ read. ReadsRange (drop at tokens.now.tokens) (name_of read.0.owner) read.0.range (drop read.1 tokens.now.tokens)) }
    ensures next { IfOk result (λ read. (at < read.1) × (read.1 ≤ length tokens.now.tokens) × (around.statements ≤ 64)) }
{
    let (owner, after) = eat_name(alloc, tokens, at, around)?;
    let dot = skip(tokens, after, Word::Dot, around)?;
    let word = peek(tokens, dot);
    let found = range_word(word);
    let (range, end) = choose(tokens, dot, around, found)?;
    let range = range.value;
    Ok((Ranged { owner, range }, end))
}

// A number.
fn number(tokens: &Tokens, at: usize, around: Around) -> Result<(SpelledExpr, usize), Fault>
    ensures goes { Goes (the Number) around (words_of tokens.now) at (end_of result) }
    ensures tree { IfOk result (λ read. ReadsTree Primary (drop at tokens.now.tokens) (expr_of read.0) (drop read.1 tokens.now.tokens)) }
    ensures next { IfOk result (λ read. (at < read.1) × (read.1 ≤ length tokens.now.tokens) × (around.statements ≤ 64)) }
{
    let (place, after) = eat(tokens, at, Word::Number, around)?;
    let value = tokens.number(at) as i64;
    Ok((SpelledExpr::Number { place, value }, after))
}

// A literal, or what begins with a name.
fn literal(
    alloc: Global,
    tokens: &Tokens,
    at: usize,
    around: Around,
) -> Result<(SpelledExpr, usize), Fault>
    ensures goes { Goes atom around (words_of tokens.now) at (end_of result) }
    ensures tree { IfOk result (λ read. ReadsTree Primary (drop at tokens.now.tokens) (expr_of read.0) (drop read.1 tokens.now.tokens)) }
    ensures next { IfOk result (λ read. (at < read.1) × (read.1 ≤ length tokens.now.tokens) × (around.statements ≤ 64)) }
{
    if next_is(tokens, at, Word::Number) {
        let (figure, after) = number(tokens, at, around)?;
        Ok((figure, after))
    } else if next_is(tokens, at, Word::True) {
        let (truth, after) = eat(tokens, at, Word::True, around)?;
        let (place, value) = (truth, true);
        Ok((SpelledExpr::Truth { place, value }, after))
    } else if next_is(tokens, at, Word::False) {
        let (falsehood, after) = eat(tokens, at, Word::False, around)?;
        let (place, value) = (falsehood, false);
        Ok((SpelledExpr::Truth { place, value }, after))
    } else if next_is(tokens, at, Word::Nil) {
        let (nil, after) = eat(tokens, at, Word::Nil, around)?;
        Ok((SpelledExpr::Nil { place: nil }, after))
    } else if next_is(tokens, at, Word::Inf) {
        let (greatest, after) = eat(tokens, at, Word::Inf, around)?;
        Ok((SpelledExpr::Greatest { place: greatest }, after))
    } else {
        let (named, after) = member(alloc, tokens, at, around)?;
        Ok((named, after))
    }
}

// A name, with a property or a call of a method.
fn member(
    alloc: Global,
    tokens: &Tokens,
    at: usize,
    around: Around,
) -> Result<(SpelledExpr, usize), Fault>
    ensures goes { Goes a_member around (words_of tokens.now) at (end_of result) }
    ensures tree { IfOk result (λ read. ReadsTree Primary (drop at tokens.now.tokens) (expr_of read.0) (drop read.1 tokens.now.tokens)) }
    ensures next { IfOk result (λ read. (at < read.1) × (read.1 ≤ length tokens.now.tokens) × (around.statements ≤ 64)) }
{
    let (owner, after) = eat_name(alloc, tokens, at, around)?;
    if !next_is(tokens, after, Word::Dot) {
        return Ok((SpelledExpr::Named(owner), after));
    }
    let dot = skip(tokens, after, Word::Dot, around)?;
    let (property, end) = eat_name(alloc, tokens, dot, around)?;
    if !next_is(tokens, end, Word::LeftParen) {
        return Ok((SpelledExpr::Member { owner, property }, end));
    }
    let open = skip(tokens, end, Word::LeftParen, around)?;
    let close = skip(tokens, open, Word::RightParen, around)?;
    Ok((
        SpelledExpr::Method {
            owner,
            method: property,
        },
        close,
    ))
}

// An operand of operators of this level.
#[cycle(expression)]
fn operand(
    alloc: Global,
    tokens: &Tokens,
    at: usize,
    level: Level,
    around: Around,
) -> Result<(SpelledExpr, usize), Fault>
    ensures goes { Goes (Of (operand_of level)) around (words_of tokens.now) at (end_of result) }
    ensures tree { IfOk result (λ read. ReadsTree (operand_of level) (drop at tokens.now.tokens) (expr_of read.0) (drop read.1 tokens.now.tokens)) }
    ensures next { IfOk result (λ read. (at < read.1) × (read.1 ≤ length tokens.now.tokens) × (around.statements ≤ 64)) }
{
    let Some(tighter) = level.tighter() else {
        let (first, end) = unary(alloc, tokens, at, around)?;
        return Ok((first, end));
    };
    let (left, after) = operand(alloc, tokens, at, tighter, around)?;
    if tighter.is_relation() {
        let (compared, last) = relation_rest(alloc, tokens, after, around, left)?;
        Ok((compared, last))
    } else {
        let (joined, last) = row_rest(alloc, tokens, after, tighter, around, left)?;
        Ok((joined, last))
    }
}

// The operators of this level after a first operand, with their operands. They group to the left.
#[cycle(expression)]
fn row_rest(
    alloc: Global,
    tokens: &Tokens,
    at: usize,
    level: Level,
    around: Around,
    first: SpelledExpr,
) -> Result<(SpelledExpr, usize), Fault>
    requires row { level ≢ Level.Relation }
    requires begun { (around.statements ≤ 64) × (at ≤ length tokens.now.tokens) }
    ensures goes { Goes (Many (signs_of level ▸ Of (operand_of level))) around (words_of tokens.now) at (end_of result) }
    ensures tree { (us : List Token) → ReadsTree (operand_of level) us (expr_of first) (drop at tokens.now.tokens) → IfOk result (λ read. ReadsTree (part_of level) us (expr_of read.0) (drop read.1 tokens.now.tokens)) }
    ensures next { IfOk result (λ read. (at ≤ read.1) × (read.1 ≤ length tokens.now.tokens)) }
{
    let mut left = first;
    let mut after = at;
    'row: while let Some(op) = infix_of(level, peek(tokens, after)) {
        let (sign, start) = choose(tokens, after, around, Some(op))?;
        let (right, end) = operand(alloc, tokens, start, level, around)?;
        left = infixed(alloc, sign.place, sign.value, left, right)?;
        after = end;
    }
    Ok((left, after))
}

// A comparison after its first operand, if there is one. It has no other at its side.
#[cycle(expression)]
fn relation_rest(
    alloc: Global,
    tokens: &Tokens,
    at: usize,
    around: Around,
    first: SpelledExpr,
) -> Result<(SpelledExpr, usize), Fault>
    requires begun { (around.statements ≤ 64) × (at ≤ length tokens.now.tokens) }
    ensures goes { Goes (Maybe (signs_of Level.Relation ▸ Of (operand_of Level.Relation))) around (words_of tokens.now) at (end_of result) }
    ensures tree { (us : List Token) → ReadsTree (operand_of Level.Relation) us (expr_of first) (drop at tokens.now.tokens) → IfOk result (λ read. ReadsTree Relation us (expr_of read.0) (drop read.1 tokens.now.tokens)) }
    ensures next { IfOk result (λ read. (at ≤ read.1) × (read.1 ≤ length tokens.now.tokens)) }
{
    let word = peek(tokens, at);
    let found = infix_of(Level::Relation, word);
    let Some(op) = found else {
        return Ok((first, at));
    };
    let (sign, start) = choose(tokens, at, around, Some(op))?;
    let (right, end) = operand(alloc, tokens, start, Level::Relation, around)?;
    let compared = infixed(alloc, sign.place, sign.value, first, right)?;
    Ok((compared, end))
}

// An operand, with the operators in front of it.
#[cycle(expression)]
fn unary(
    alloc: Global,
    tokens: &Tokens,
    at: usize,
    around: Around,
) -> Result<(SpelledExpr, usize), Fault>
    ensures goes { Goes (Of Unary) around (words_of tokens.now) at (end_of result) }
    ensures tree { IfOk result (λ read. ReadsTree Unary (drop at tokens.now.tokens) (expr_of read.0) (drop read.1 tokens.now.tokens)) }
    ensures next { IfOk result (λ read. (at < read.1) × (read.1 ≤ length tokens.now.tokens) × (around.statements ≤ 64)) }
{
    if next_is(tokens, at, Word::Bang) {
        let (bang, after_bang) = eat(tokens, at, Word::Bang, around)?;
        let (negated, end) = unary(alloc, tokens, after_bang, around)?;
        let negation = prefixed(alloc, bang, Prefix::Not, negated)?;
        Ok((negation, end))
    } else if next_is(tokens, at, Word::Minus) {
        let (minus, after_minus) = eat(tokens, at, Word::Minus, around)?;
        if next_is_inf(tokens, after_minus) {
            let least = skip(tokens, after_minus, Word::Inf, around)?;
            return Ok((SpelledExpr::Least { place: minus }, least));
        }
        let (opposed, end) = unary(alloc, tokens, after_minus, around)?;
        let opposite = prefixed(alloc, minus, Prefix::Minus, opposed)?;
        Ok((opposite, end))
    } else if next_is(tokens, at, Word::Plus) {
        let (plus, after_plus) = eat(tokens, at, Word::Plus, around)?;
        let greatest = skip(tokens, after_plus, Word::Inf, around)?;
        Ok((SpelledExpr::Greatest { place: plus }, greatest))
    } else if next_is(tokens, at, Word::LeftParen) {
        let (enclosed, end) = parenthesized(alloc, tokens, at, around)?;
        Ok((enclosed, end))
    } else if next_is_reduction(tokens, at) {
        let (reduced, end) = reducing(alloc, tokens, at, around)?;
        Ok((reduced, end))
    } else {
        let (simple, end) = literal(alloc, tokens, at, around)?;
        Ok((simple, end))
    }
}

// A cast, or an expression in parentheses.
#[cycle(expression)]
fn parenthesized(
    alloc: Global,
    tokens: &Tokens,
    at: usize,
    around: Around,
) -> Result<(SpelledExpr, usize), Fault>
    ensures goes { Goes in_parentheses around (words_of tokens.now) at (end_of result) }
    ensures tree { IfOk result (λ read. ReadsTree Unary (drop at tokens.now.tokens) (expr_of read.0) (drop read.1 tokens.now.tokens)) }
    ensures next { IfOk result (λ read. (at < read.1) × (read.1 ≤ length tokens.now.tokens) × (around.statements ≤ 64)) }
{
    let (open, start) = eat(tokens, at, Word::LeftParen, around)?;
    let word = peek(tokens, start);
    let found = cast_type(word);
    let Some(vtype) = found else {
        let (enclosed, after_enclosed) = expression(alloc, tokens, start, around)?;
        let last = skip(tokens, after_enclosed, Word::RightParen, around)?;
        let parens = paren(alloc, open, enclosed)?;
        return Ok((parens, last));
    };
    let (to, after) = choose(tokens, start, around, Some(vtype))?;
    let close = skip(tokens, after, Word::RightParen, around)?;
    let (inner, end) = unary(alloc, tokens, close, around)?;
    let cast = prefixed(alloc, open, Prefix::Cast(to.value), inner)?;
    Ok((cast, end))
}

// A reduction.
#[cycle(expression)]
fn reducing(
    alloc: Global,
    tokens: &Tokens,
    at: usize,
    around: Around,
) -> Result<(SpelledExpr, usize), Fault>
    ensures goes { Goes (Of Reduction) around (words_of tokens.now) at (end_of result) }
    ensures tree { IfOk result (λ read. ReadsTree Primary (drop at tokens.now.tokens) (expr_of read.0) (drop read.1 tokens.now.tokens)) }
    ensures next { IfOk result (λ read. (at < read.1) × (read.1 ≤ length tokens.now.tokens) × (around.statements ≤ 64)) }
{
    let word = peek(tokens, at);
    let valued = value_reduction(word);
    let Some(op) = valued else {
        let (tested, last) = testing(alloc, tokens, at, around)?;
        return Ok((tested, last));
    };
    let (sign, start) = choose(tokens, at, around, Some(op))?;
    let (over, after) = head(alloc, tokens, start, around)?;
    let (body, end) = braces(alloc, tokens, after, around)?;
    let reduced = reduction(
        alloc,
        sign.place,
        sign.value,
        over.head,
        over.filter,
        Some(body.value),
        body.close,
    )?;
    Ok((reduced, end))
}

// A reduction of a condition, whose braces may be absent.
#[cycle(expression)]
fn testing(
    alloc: Global,
    tokens: &Tokens,
    at: usize,
    around: Around,
) -> Result<(SpelledExpr, usize), Fault>
    ensures goes { Goes (test_sign ▸ Of HeadPart ▸ Maybe (Of Braces)) around (words_of tokens.now) at (end_of result) }
    ensures tree { IfOk result (λ read. ReadsTree Primary (drop at tokens.now.tokens) (expr_of read.0) (drop read.1 tokens.now.tokens)) }
    ensures next { IfOk result (λ read. (at < read.1) × (read.1 ≤ length tokens.now.tokens) × (around.statements ≤ 64)) }
{
    let word = peek(tokens, at);
    let found = test_reduction(word);
    let (sign, start) = choose(tokens, at, around, found)?;
    let (over, after) = head(alloc, tokens, start, around)?;
    if !next_is(tokens, after, Word::LeftBrace) {
        let bare = reduction(
            alloc,
            sign.place,
            sign.value,
            over.head,
            over.filter,
            None,
            sign.place,
        )?;
        return Ok((bare, after));
    }
    let (body, end) = braces(alloc, tokens, after, around)?;
    let tested = reduction(
        alloc,
        sign.place,
        sign.value,
        over.head,
        over.filter,
        Some(body.value),
        body.close,
    )?;
    Ok((tested, end))
}

// An expression in braces, and the place of the closing one.
#[derive(Drop)]
struct Braced {
    value: SpelledExpr,
    close: Place,
}

#[cycle(expression)]
fn braces(
    alloc: Global,
    tokens: &Tokens,
    at: usize,
    around: Around,
) -> Result<(Braced, usize), Fault>
    ensures goes { Goes (Of Braces) around (words_of tokens.now) at (end_of result) }
    ensures tree { IfOk result (λ read. ReadsBraces (drop at tokens.now.tokens) (expr_of read.0.value) read.0.close (drop read.1 tokens.now.tokens)) }
    ensures next { IfOk result (λ read. (at < read.1) × (read.1 ≤ length tokens.now.tokens) × (around.statements ≤ 64)) }
{
    let open = skip(tokens, at, Word::LeftBrace, around)?;
    let (value, after) = expression(alloc, tokens, open, around)?;
    let (close, end) = eat(tokens, after, Word::RightBrace, around)?;
    Ok((Braced { value, close }, end))
}

/// A condition in parentheses.
#[cycle(expression)]
pub fn condition(
    alloc: Global,
    tokens: &Tokens,
    at: usize,
    around: Around,
) -> Result<(SpelledExpr, usize), Fault>
    ensures goes { Goes (Of Condition) around (words_of tokens.now) at (end_of result) }
    ensures tree { IfOk result (λ read. ReadsCondition (drop at tokens.now.tokens) (expr_of read.0) (drop read.1 tokens.now.tokens)) }
    ensures next { IfOk result (λ read. (at < read.1) × (read.1 ≤ length tokens.now.tokens) × (around.statements ≤ 64)) }
{
    let open = skip(tokens, at, Word::LeftParen, around)?;
    let (test, after) = expression(alloc, tokens, open, around)?;
    let close = skip(tokens, after, Word::RightParen, around)?;
    Ok((test, close))
}

/// What a loop or a reduction runs over, and its filter.
#[derive(Drop)]
pub struct Headed {
    pub head: SpelledHead,
    pub filter: Option<SpelledExpr>,
}

/// The head of a loop or a reduction.
#[cycle(expression)]
pub fn head(
    alloc: Global,
    tokens: &Tokens,
    at: usize,
    around: Around,
) -> Result<(Headed, usize), Fault>
    ensures goes { Goes (Of HeadPart) around (words_of tokens.now) at (end_of result) }
    ensures tree { IfOk result (λ read. ReadsHead (drop at tokens.now.tokens) (head_of read.0.head) (test_of read.0.filter) (drop read.1 tokens.now.tokens)) }
    ensures next { IfOk result (λ read. (at < read.1) × (read.1 ≤ length tokens.now.tokens) × (around.statements ≤ 64)) }
{
    let open = skip(tokens, at, Word::LeftParen, around)?;
    let (iterator, named) = eat_name(alloc, tokens, open, around)?;
    let colon = skip(tokens, named, Word::Colon, around)?;
    let (over, after) = owned_range(alloc, tokens, colon, around)?;
    let close = skip(tokens, after, Word::RightParen, around)?;
    let Ranged { owner, range } = over;
    let head = SpelledHead {
        iterator,
        owner,
        range,
    };
    if !next_is(tokens, close, Word::LeftParen) {
        return Ok((Headed { head, filter: None }, close));
    }
    let (filter, end) = condition(alloc, tokens, close, around)?;
    Ok((
        Headed {
            head,
            filter: Some(filter),
        },
        end,
    ))
}

/// An expression, which may be a part of another.
#[cycle(expression)]
pub fn expression(
    alloc: Global,
    tokens: &Tokens,
    at: usize,
    around: Around,
) -> Result<(SpelledExpr, usize), Fault>
    ensures goes { Goes (Of Expression) around (words_of tokens.now) at (end_of result) }
    ensures tree { IfOk result (λ read. ReadsTree Expression (drop at tokens.now.tokens) (expr_of read.0) (drop read.1 tokens.now.tokens)) }
    ensures next { IfOk result (λ read. (at < read.1) × (read.1 ≤ length tokens.now.tokens) × (around.statements ≤ 64)) }
{
    let within = around.in_expression(at);
    let (first, after) = unary(alloc, tokens, at, within)?;
    let (whole, end) = from_operand(alloc, tokens, after, within, first)?;
    Ok((whole, end))
}

// What goes on with the first operand of an expression, to the expression's end.
#[cycle(expression)]
fn from_operand(
    alloc: Global,
    tokens: &Tokens,
    at: usize,
    around: Around,
    first: SpelledExpr,
) -> Result<(SpelledExpr, usize), Fault>
    requires begun { (around.statements ≤ 64) × (at ≤ length tokens.now.tokens) }
    ensures goes { Goes rest around (words_of tokens.now) at (end_of result) }
    ensures tree { (us : List Token) → ReadsTree Unary us (expr_of first) (drop at tokens.now.tokens) → IfOk result (λ read. ReadsTree Expression us (expr_of read.0) (drop read.1 tokens.now.tokens)) }
    ensures next { IfOk result (λ read. (at ≤ read.1) × (read.1 ≤ length tokens.now.tokens)) }
{
    let (product, at_sum) = row_rest(alloc, tokens, at, Level::Product, around, first)?;
    let (sum, at_relation) = row_rest(alloc, tokens, at_sum, Level::Sum, around, product)?;
    let (relation, after) = relation_rest(alloc, tokens, at_relation, around, sum)?;
    let (whole, end) = from_relation(alloc, tokens, after, around, relation)?;
    Ok((whole, end))
}

// What goes on with a comparison, or what stands for it, to the expression's end.
#[cycle(expression)]
fn from_relation(
    alloc: Global,
    tokens: &Tokens,
    at: usize,
    around: Around,
    first: SpelledExpr,
) -> Result<(SpelledExpr, usize), Fault>
    requires begun { (around.statements ≤ 64) × (at ≤ length tokens.now.tokens) }
    ensures goes { Goes rest_of_relation around (words_of tokens.now) at (end_of result) }
    ensures tree { (us : List Token) → ReadsTree Relation us (expr_of first) (drop at tokens.now.tokens) → IfOk result (λ read. ReadsTree Expression us (expr_of read.0) (drop read.1 tokens.now.tokens)) }
    ensures next { IfOk result (λ read. (at ≤ read.1) × (read.1 ≤ length tokens.now.tokens)) }
{
    let (equality, at_and) = row_rest(alloc, tokens, at, Level::Equality, around, first)?;
    let (both, at_or) = row_rest(alloc, tokens, at_and, Level::And, around, equality)?;
    let (either, after) = row_rest(alloc, tokens, at_or, Level::Or, around, both)?;
    let (whole, end) = from_test(alloc, tokens, after, around, either)?;
    Ok((whole, end))
}

// A choice after its test, if there is one.
#[cycle(expression)]
fn from_test(
    alloc: Global,
    tokens: &Tokens,
    at: usize,
    around: Around,
    test: SpelledExpr,
) -> Result<(SpelledExpr, usize), Fault>
    requires begun { (around.statements ≤ 64) × (at ≤ length tokens.now.tokens) }
    ensures goes { Goes (Maybe a_choice) around (words_of tokens.now) at (end_of result) }
    ensures tree { (us : List Token) → ReadsTree Disjunction us (expr_of test) (drop at tokens.now.tokens) → IfOk result (λ read. ReadsTree Expression us (expr_of read.0) (drop read.1 tokens.now.tokens)) }
    ensures next { IfOk result (λ read. (at ≤ read.1) × (read.1 ≤ length tokens.now.tokens)) }
{
    if !next_is(tokens, at, Word::Question) {
        return Ok((test, at));
    }
    let (values, end) = choice_values(alloc, tokens, at, around)?;
    let ChoiceValues { question, yes, no } = values;
    let choice = chosen(alloc, question, test, yes, no)?;
    Ok((choice, end))
}

// The two values of a choice, and the place of its question mark.
#[derive(Drop)]
struct ChoiceValues {
    question: Place,
    yes: SpelledExpr,
    no: SpelledExpr,
}

// The two values of a choice.
#[cycle(expression)]
fn choice_values(
    alloc: Global,
    tokens: &Tokens,
    at: usize,
    around: Around,
) -> Result<(ChoiceValues, usize), Fault>
    ensures goes { Goes a_choice around (words_of tokens.now) at (end_of result) }
    ensures tree { (us : List Token) (e : SurfaceExpr) → ReadsTree Disjunction us e (drop at tokens.now.tokens) → IfOk result (λ read. ReadsTree Expression us (trees.Choose read.0.question e (expr_of read.0.yes) (expr_of read.0.no)) (drop read.1 tokens.now.tokens)) }
    ensures next { IfOk result (λ read. (at < read.1) × (read.1 ≤ length tokens.now.tokens)) }
{
    let (question, start) = eat(tokens, at, Word::Question, around)?;
    let (yes, middle) = expression(alloc, tokens, start, around)?;
    let colon = skip(tokens, middle, Word::Colon, around)?;
    let (no, end) = expression(alloc, tokens, colon, around)?;
    Ok((ChoiceValues { question, yes, no }, end))
}

/// A value of a tuple: a sum, which is no part of another expression.
pub fn entry(
    alloc: Global,
    tokens: &Tokens,
    at: usize,
    around: Around,
) -> Result<(SpelledExpr, usize), Fault>
    ensures goes { Goes an_entry around (words_of tokens.now) at (end_of result) }
    ensures tree { IfOk result (λ read. ReadsTree Sum (drop at tokens.now.tokens) (expr_of read.0) (drop read.1 tokens.now.tokens)) }
    ensures next { IfOk result (λ read. (at < read.1) × (read.1 ≤ length tokens.now.tokens) × (around.statements ≤ 64)) }
{
    let within = around.in_expression(at);
    let (value, end) = operand(alloc, tokens, at, Level::Relation, within)?;
    Ok((value, end))
}
