//! Reading argument reductions: a tuple of values goes to a tuple of targets.

ghost use Rattle.std.specs.Prelude.{◌≡◌, ◌+◌, ◌≤◌, ◌<◌, List, [], length, drop, map, IfOk, option_map};
ghost use Rattle.gm_token.specs.Tokens.{Token, words_of};
ghost use Rattle.gm_token.specs.declared.words.Word.TheVariants.{Comma};
ghost use Rattle.gm_ast.specs.Surface as trees;
ghost use Rattle.gm_ast.specs.SurfaceTree.{name_of, target_of, expr_of, stmt_of};
ghost use Rattle.gm_parse.specs.Grammar.{Of, Maybe, Many, ◌▸◌, the, Target, Sum, a_tuple, an_entry, an_argument_reduction};
ghost use Rattle.gm_parse.specs.Goes.{Goes, end_of};
ghost use Rattle.gm_parse.specs.Trees.{ReadsTarget, ReadsTree, ReadsEntries, ReadsTuple, ReadsStmt};

use crate::around::Around;
use crate::choices::argument_operation;
use crate::expressions::entry;
use crate::faults::Fault;
use crate::reading::{Placed, choose, next_is, peek, skip};
use crate::statements::{at_iterator, target_name};
use gm_ast::surface::{Name, SpelledExpr, SpelledStmt, SpelledTarget};
use gm_token::{Tokens, Word};
use gm_value::Reduce;
use std::alloc::Global;

// More targets, with a comma before each, after these.
fn more_targets(
    alloc: Global,
    tokens: &Tokens,
    at: usize,
    around: Around,
    targets: &mut Vec<SpelledTarget>,
) -> Result<usize, Fault>
    requires { at ≤ length tokens.now.tokens }
    ensures goes { Goes (Many (the Comma ▸ Of Target)) around (words_of tokens.now) at result }
    ensures tree { (us : List Token) → ReadsEntries ReadsTarget us (map target_of targets.old.items) (drop at tokens.now.tokens) → IfOk result (λ end. ReadsEntries ReadsTarget us (map target_of targets.new.items) (drop end tokens.now.tokens)) }
    ensures next { IfOk result (λ end. (at ≤ end) × (end ≤ length tokens.now.tokens)) }
{
    let mut after = at;
    'row: while next_is(tokens, after, Word::Comma) {
        let start = skip(tokens, after, Word::Comma, around)?;
        let (target, end) = target_name(alloc, tokens, start, around)?;
        targets.push(target)?;
        after = end;
    }
    Ok(after)
}

// A tuple of targets, into an empty list.
fn target_tuple(
    alloc: Global,
    tokens: &Tokens,
    at: usize,
    around: Around,
    targets: &mut Vec<SpelledTarget>,
) -> Result<usize, Fault>
    requires { targets.old.items ≡ [] }
    ensures goes { Goes (a_tuple (Of Target)) around (words_of tokens.now) at result }
    ensures tree { IfOk result (λ end. ReadsTuple ReadsTarget (drop at tokens.now.tokens) (map target_of targets.new.items) (drop end tokens.now.tokens)) }
    ensures next { IfOk result (λ end. (at < end) × (end ≤ length tokens.now.tokens)) }
{
    let open = skip(tokens, at, Word::Less, around)?;
    let (first, after_first) = target_name(alloc, tokens, open, around)?;
    targets.push(first)?;
    let semicolon = skip(tokens, after_first, Word::Semicolon, around)?;
    let (second, after_second) = target_name(alloc, tokens, semicolon, around)?;
    targets.push(second)?;
    let end = more_targets(alloc, tokens, after_second, around, targets)?;
    let close = skip(tokens, end, Word::Greater, around)?;
    Ok(close)
}

// More values, with a comma before each, after these.
fn more_values(
    alloc: Global,
    tokens: &Tokens,
    at: usize,
    around: Around,
    values: &mut Vec<SpelledExpr>,
) -> Result<usize, Fault>
    requires { at ≤ length tokens.now.tokens }
    ensures goes { Goes (Many (the Comma ▸ an_entry)) around (words_of tokens.now) at result }
    ensures tree { (us : List Token) → ReadsEntries (ReadsTree Sum) us (map expr_of values.old.items) (drop at tokens.now.tokens) → IfOk result (λ end. ReadsEntries (ReadsTree Sum) us (map expr_of values.new.items) (drop end tokens.now.tokens)) }
    ensures next { IfOk result (λ end. (at ≤ end) × (end ≤ length tokens.now.tokens)) }
{
    let mut after = at;
    'row: while next_is(tokens, after, Word::Comma) {
        let start = skip(tokens, after, Word::Comma, around)?;
        let (value, end) = entry(alloc, tokens, start, around)?;
        values.push(value)?;
        after = end;
    }
    Ok(after)
}

// A tuple of values, into an empty list.
fn value_tuple(
    alloc: Global,
    tokens: &Tokens,
    at: usize,
    around: Around,
    values: &mut Vec<SpelledExpr>,
) -> Result<usize, Fault>
    requires { values.old.items ≡ [] }
    ensures goes { Goes (a_tuple an_entry) around (words_of tokens.now) at result }
    ensures tree { IfOk result (λ end. ReadsTuple (ReadsTree Sum) (drop at tokens.now.tokens) (map expr_of values.new.items) (drop end tokens.now.tokens)) }
    ensures next { IfOk result (λ end. (at < end) × (end ≤ length tokens.now.tokens)) }
{
    let open = skip(tokens, at, Word::Less, around)?;
    let (first, after_first) = entry(alloc, tokens, open, around)?;
    values.push(first)?;
    let semicolon = skip(tokens, after_first, Word::Semicolon, around)?;
    let (second, after_second) = entry(alloc, tokens, semicolon, around)?;
    values.push(second)?;
    let end = more_values(alloc, tokens, after_second, around, values)?;
    let close = skip(tokens, end, Word::Greater, around)?;
    Ok(close)
}

// The operation of an argument reduction with its place, and the iterator with whose loop it ends.
#[derive(Drop)]
struct Picked {
    sign: Placed<Reduce>,
    iterator: Option<Name>,
}

// An argument reduction, its targets and values into empty lists.
fn pick(
    alloc: Global,
    tokens: &Tokens,
    at: usize,
    around: Around,
    targets: &mut Vec<SpelledTarget>,
    values: &mut Vec<SpelledExpr>,
) -> Result<(Picked, usize), Fault>
    requires targets { targets.old.items ≡ [] }
    requires values { values.old.items ≡ [] }
    ensures goes { Goes an_argument_reduction around (words_of tokens.now) at (end_of result) }
    ensures tree { IfOk result (λ read. ReadsStmt (drop at tokens.now.tokens) (trees.Combine (map target_of targets.new.items) read.0.sign.value read.0.sign.place (map expr_of values.new.items) (option_map name_of read.0.iterator)) (drop read.1 tokens.now.tokens)) }
    ensures next { IfOk result (λ read. (at < read.1) × (read.1 ≤ length tokens.now.tokens)) }
{
    let after = target_tuple(alloc, tokens, at, around, targets)?;
    let word = peek(tokens, after);
    let found = argument_operation(word);
    let (sign, start) = choose(tokens, after, around, found)?;
    let end = value_tuple(alloc, tokens, start, around, values)?;
    let (iterator, close) = at_iterator(alloc, tokens, end, around)?;
    let last = skip(tokens, close, Word::Semicolon, around)?;
    Ok((Picked { sign, iterator }, last))
}

/// A reduction assignment of a tuple of values to a tuple of targets.
pub fn argument_reduction(
    alloc: Global,
    tokens: &Tokens,
    at: usize,
    around: Around,
) -> Result<(SpelledStmt, usize), Fault>
    ensures goes { Goes an_argument_reduction around (words_of tokens.now) at (end_of result) }
    ensures tree { IfOk result (λ read. ReadsStmt (drop at tokens.now.tokens) (stmt_of read.0) (drop read.1 tokens.now.tokens)) }
    ensures next { IfOk result (λ read. (at < read.1) × (read.1 ≤ length tokens.now.tokens)) }
{
    let mut targets = Vec::new(alloc);
    let mut values = Vec::new(alloc);
    let (picked, end) = pick(alloc, tokens, at, around, &mut targets, &mut values)?;
    let Picked { sign, iterator } = picked;
    Ok((
        SpelledStmt::Reduce {
            targets,
            reduce: sign.value,
            place: sign.place,
            values,
            iterator,
        },
        end,
    ))
}
