//! Reading assignments of a target.

ghost use Rattle.std.specs.Prelude.{◌≡◌, ◌≤◌, ◌<◌, List, [], ◌∷◌, length, drop, IfOk, option_map};
ghost use Rattle.gm_token.specs.Tokens.{Token, words_of};
ghost use Rattle.gm_ast.specs.Surface.{SurfaceTarget};
ghost use Rattle.gm_ast.specs.Surface as trees;
ghost use Rattle.gm_ast.specs.SurfaceTree.{name_of, expr_of, stmt_of};
ghost use Rattle.gm_parse.specs.Grammar.{a_value, a_deferred_value, a_reduced_value, an_increment};
ghost use Rattle.gm_parse.specs.Factored.{an_assignment};
ghost use Rattle.gm_parse.specs.Goes.{Goes, end_of};
ghost use Rattle.gm_parse.specs.Trees.{ReadsTarget, ReadsStmt};

use crate::around::Around;
use crate::choices::reduce_sign;
use crate::expressions::expression;
use crate::faults::Fault;
use crate::nodes::reduced;
use crate::reading::{Placed, choose, eat, next_is, peek, skip};
use crate::statements::{at_iterator, target_name};
use gm_ast::surface::{Name, SpelledExpr, SpelledStmt};
use gm_base::Place;
use gm_token::{Tokens, Word};
use gm_value::Reduce;
use std::alloc::Global;

// The place of `=`, and the value after it.
#[derive(Drop)]
struct Valued {
    equals: Place,
    value: SpelledExpr,
}

// A value after a target.
fn assigned_value(
    alloc: Global,
    tokens: &Tokens,
    at: usize,
    around: Around,
) -> Result<(Valued, usize), Fault>
    ensures goes { Goes a_value around (words_of tokens.now) at (end_of result) }
    ensures tree { (us : List Token) (t : SurfaceTarget) → ReadsTarget us t (drop at tokens.now.tokens) → IfOk result (λ read. ReadsStmt us (trees.Assign t read.0.equals (expr_of read.0.value)) (drop read.1 tokens.now.tokens)) }
    ensures next { IfOk result (λ read. (at < read.1) × (read.1 ≤ length tokens.now.tokens)) }
{
    let (equals, start) = eat(tokens, at, Word::Assign, around)?;
    let (value, end) = expression(alloc, tokens, start, around)?;
    let last = skip(tokens, end, Word::Semicolon, around)?;
    Ok((Valued { equals, value }, last))
}

// The place of `<=`, the value after it, and the iterator with whose loop it is assigned.
#[derive(Drop)]
struct Deferred {
    arrow: Place,
    value: SpelledExpr,
    iterator: Option<Name>,
}

// A deferred value after a target.
fn deferred_value(
    alloc: Global,
    tokens: &Tokens,
    at: usize,
    around: Around,
) -> Result<(Deferred, usize), Fault>
    ensures goes { Goes a_deferred_value around (words_of tokens.now) at (end_of result) }
    ensures tree { (us : List Token) (t : SurfaceTarget) → ReadsTarget us t (drop at tokens.now.tokens) → IfOk result (λ read. ReadsStmt us (trees.Defer t read.0.arrow (expr_of read.0.value) (option_map name_of read.0.iterator)) (drop read.1 tokens.now.tokens)) }
    ensures next { IfOk result (λ read. (at < read.1) × (read.1 ≤ length tokens.now.tokens)) }
{
    let (arrow, start) = eat(tokens, at, Word::LessEqual, around)?;
    let (value, end) = expression(alloc, tokens, start, around)?;
    let (iterator, close) = at_iterator(alloc, tokens, end, around)?;
    let last = skip(tokens, close, Word::Semicolon, around)?;
    Ok((
        Deferred {
            arrow,
            value,
            iterator,
        },
        last,
    ))
}

// The sign of a reduction with its place, the value after it, and the iterator with whose loop it ends.
#[derive(Drop)]
struct Folded {
    sign: Placed<Reduce>,
    value: SpelledExpr,
    iterator: Option<Name>,
}

// A value that is reduced to a target, after the target.
fn reduced_value(
    alloc: Global,
    tokens: &Tokens,
    at: usize,
    around: Around,
) -> Result<(Folded, usize), Fault>
    ensures goes { Goes a_reduced_value around (words_of tokens.now) at (end_of result) }
    ensures tree { (us : List Token) (t : SurfaceTarget) → ReadsTarget us t (drop at tokens.now.tokens) → IfOk result (λ read. ReadsStmt us (trees.Combine (t ∷ []) read.0.sign.value read.0.sign.place (expr_of read.0.value ∷ []) (option_map name_of read.0.iterator)) (drop read.1 tokens.now.tokens)) }
    ensures next { IfOk result (λ read. (at < read.1) × (read.1 ≤ length tokens.now.tokens)) }
{
    let word = peek(tokens, at);
    let found = reduce_sign(word);
    let (sign, start) = choose(tokens, at, around, found)?;
    let (value, end) = expression(alloc, tokens, start, around)?;
    let (iterator, close) = at_iterator(alloc, tokens, end, around)?;
    let last = skip(tokens, close, Word::Semicolon, around)?;
    Ok((
        Folded {
            sign,
            value,
            iterator,
        },
        last,
    ))
}

// What counts a target up, after the target.
fn increment(tokens: &Tokens, at: usize, around: Around) -> Result<(Place, usize), Fault>
    ensures goes { Goes an_increment around (words_of tokens.now) at (end_of result) }
    ensures tree { (us : List Token) (t : SurfaceTarget) → ReadsTarget us t (drop at tokens.now.tokens) → IfOk result (λ read. ReadsStmt us (trees.Increment t read.0) (drop read.1 tokens.now.tokens)) }
    ensures next { IfOk result (λ read. (at < read.1) × (read.1 ≤ length tokens.now.tokens)) }
{
    let (place, close) = eat(tokens, at, Word::PlusPlus, around)?;
    let last = skip(tokens, close, Word::Semicolon, around)?;
    Ok((place, last))
}

/// An assignment of any kind.
pub fn assignment(
    alloc: Global,
    tokens: &Tokens,
    at: usize,
    around: Around,
) -> Result<(SpelledStmt, usize), Fault>
    ensures goes { Goes an_assignment around (words_of tokens.now) at (end_of result) }
    ensures tree { IfOk result (λ read. ReadsStmt (drop at tokens.now.tokens) (stmt_of read.0) (drop read.1 tokens.now.tokens)) }
    ensures next { IfOk result (λ read. (at < read.1) × (read.1 ≤ length tokens.now.tokens)) }
{
    let (target, after) = target_name(alloc, tokens, at, around)?;
    if next_is(tokens, after, Word::Assign) {
        let (valued, assigned) = assigned_value(alloc, tokens, after, around)?;
        let Valued { equals, value } = valued;
        Ok((
            SpelledStmt::Assign {
                target,
                equals,
                value,
            },
            assigned,
        ))
    } else if next_is(tokens, after, Word::LessEqual) {
        let (later, deferred) = deferred_value(alloc, tokens, after, around)?;
        let Deferred {
            arrow,
            value,
            iterator,
        } = later;
        Ok((
            SpelledStmt::Defer {
                target,
                arrow,
                value,
                iterator,
            },
            deferred,
        ))
    } else {
        let word = peek(tokens, after);
        let found = reduce_sign(word);
        match found {
            None => {
                let (place, counted) = increment(tokens, after, around)?;
                Ok((SpelledStmt::Increment { target, place }, counted))
            }
            Some(_) => {
                let (part, folded) = reduced_value(alloc, tokens, after, around)?;
                let Folded {
                    sign,
                    value,
                    iterator,
                } = part;
                let reduction = reduced(alloc, target, sign.value, sign.place, value, iterator)?;
                Ok((reduction, folded))
            }
        }
    }
}
