//! Reading expressions.

ghost use Rattle.std.specs.Prelude.{◌≡◌, Some, None, map, IfOk};
ghost use Rattle.gm_image.specs.Views.{term};
ghost use Rattle.gm_image_text.specs.Tables.{heads, types, row_in};
ghost use Rattle.gm_image_text.specs.Numbers.{index_in};
ghost use Rattle.gm_image_text.specs.Reading.{words_left, word_at, index_at, constant_at, leaf_term as leaf_term_lem, indexed_term as indexed_term_lem, one_term as one_term_lem, placed_one_term as placed_one_term_lem, two_term as two_term_lem, placed_two_term as placed_two_term_lem, choice_term, behind_head as behind_head_lem, term_at, expression_at, slot_in, terms_in};
ghost use Rattle.gm_image_text.specs.Giving.{GivesLine};

use crate::faults::LineStop;
use crate::heads::{HEADS, Head, Indexed, Leaf, One, PlacedOne, PlacedTwo, TYPES, Two};
use crate::numbers::{index_in, value_in};
use crate::tables::known;
use crate::words::{Words, ended, next_word};
use gm_image::Expr;
use gm_value::{VType, Value};
use std::alloc::{AllocError, Global};

// The most levels of an expression.
const MOST_LEVELS: u32 = 1024;

// An index or a count.
pub fn index<'a>(words: Words<'a>) -> Result<(u32, Words<'a>), LineStop>
    ensures { GivesLine (λ x. (x.0, words_left x.1)) result (index_at (words_left words.entry)) }
{
    let (word, rest) = next_word(words)?;
    let number = index_in(word)?;
    Ok((number, rest))
}

// A type.
#[tactic(auto, unfolding(crate::specs::Tables::types))]
pub fn vtype<'a>(words: Words<'a>) -> Result<(VType, Words<'a>), LineStop>
    ensures { GivesLine (λ x. (x.0, words_left x.1)) result (word_at (row_in types) (words_left words.entry)) }
{
    let (word, rest) = next_word(words)?;
    let vtype = known(&TYPES, word)?;
    Ok((vtype, rest))
}

// A type and a constant of it.
fn constant<'a>(words: Words<'a>) -> Result<(Value, Words<'a>), LineStop>
    ensures { GivesLine (λ x. (x.0, words_left x.1)) result (constant_at (words_left words.entry)) }
{
    let (vtype, rest) = vtype(words)?;
    let (word, rest) = next_word(rest)?;
    let value = value_in(vtype, word)?;
    Ok((value, rest))
}

// What a word says at the beginning of an expression.
#[tactic(auto, unfolding(crate::specs::Tables::heads))]
fn head_in(word: &[u8]) -> Result<Head, LineStop>
    ensures { GivesLine (λ x. x) result (row_in heads word.now) }
{
    known(&HEADS, word)
}

// What the first word of an expression says.
fn head<'a>(words: Words<'a>) -> Result<(Head, Words<'a>), LineStop>
    ensures { GivesLine (λ x. (x.0, words_left x.1)) result (word_at (row_in heads) (words_left words.entry)) }
{
    let (word, rest) = next_word(words)?;
    let head = head_in(word)?;
    Ok((head, rest))
}

fn leaf_expr(leaf: Leaf) -> Expr
    ensures { term result ≡ leaf_term_lem leaf }
{
    match leaf {
        Leaf::NodeCount => Expr::NodeCount,
        Leaf::EdgeCount => Expr::EdgeCount,
        Leaf::Id => Expr::Id,
        Leaf::OutDegree => Expr::OutDegree,
        Leaf::InDegree => Expr::InDegree,
        Leaf::Neighbour => Expr::Neighbour,
    }
}

fn indexed_expr(indexed: Indexed, i: u32) -> Expr
    ensures { term result ≡ indexed_term_lem indexed i }
{
    match indexed {
        Indexed::Global => Expr::Global(i),
        Indexed::Field => Expr::Field(i),
        Indexed::Register => Expr::Register(i),
        Indexed::Message => Expr::Message(i),
        Indexed::Column => Expr::Column(i),
    }
}

fn one_expr(alloc: Global, op: One, part: Expr) -> Result<Expr, LineStop>
    ensures { GivesLine (λ e. term e) result (Some (one_term_lem op (term part))) }
{
    let a = Box::new(alloc, part)?;
    Ok(match op {
        One::NodeAt => Expr::NodeAt(a),
        One::ToLong => Expr::ToLong(a),
        One::Not => Expr::Not(a),
    })
}

fn placed_one_expr(alloc: Global, op: PlacedOne, place: u32, part: Expr) -> Result<Expr, LineStop>
    ensures { GivesLine (λ e. term e) result (Some (placed_one_term_lem op place (term part))) }
{
    let a = Box::new(alloc, part)?;
    Ok(match op {
        PlacedOne::Live => Expr::Live(place, a),
        PlacedOne::Neg => Expr::Neg(place, a),
        PlacedOne::ToInt => Expr::ToInt(place, a),
    })
}

// Two parts on the heap.
fn two_boxes(alloc: Global, first: Expr, second: Expr) -> Result<(Box<Expr>, Box<Expr>), AllocError>
    ensures { IfOk result (λ x. (x.0.value ≡ first) × (x.1.value ≡ second)) }
{
    let a = Box::new(alloc, first)?;
    let b = Box::new(alloc, second)?;
    Ok((a, b))
}

fn two_of(op: Two, a: Box<Expr>, b: Box<Expr>) -> Expr
    ensures { term result ≡ two_term_lem op (term a.value) (term b.value) }
{
    match op {
        Two::Eq => Expr::Eq(a, b),
        Two::Ne => Expr::Ne(a, b),
        Two::Lt => Expr::Lt(a, b),
        Two::Gt => Expr::Gt(a, b),
        Two::Le => Expr::Le(a, b),
        Two::Ge => Expr::Ge(a, b),
        Two::And => Expr::And(a, b),
        Two::Or => Expr::Or(a, b),
    }
}

fn two_expr(alloc: Global, op: Two, first: Expr, second: Expr) -> Result<Expr, LineStop>
    ensures { GivesLine (λ e. term e) result (Some (two_term_lem op (term first) (term second))) }
{
    let (a, b) = two_boxes(alloc, first, second)?;
    Ok(two_of(op, a, b))
}

fn placed_two_of(op: PlacedTwo, place: u32, a: Box<Expr>, b: Box<Expr>) -> Expr
    ensures { term result ≡ placed_two_term_lem op place (term a.value) (term b.value) }
{
    match op {
        PlacedTwo::Add => Expr::Add(place, a, b),
        PlacedTwo::Sub => Expr::Sub(place, a, b),
        PlacedTwo::Mul => Expr::Mul(place, a, b),
        PlacedTwo::Div => Expr::Div(place, a, b),
        PlacedTwo::Rem => Expr::Rem(place, a, b),
    }
}

fn placed_two_expr(
    alloc: Global,
    op: PlacedTwo,
    place: u32,
    first: Expr,
    second: Expr,
) -> Result<Expr, LineStop>
    ensures { GivesLine (λ e. term e) result (Some (placed_two_term_lem op place (term first) (term second))) }
{
    let (a, b) = two_boxes(alloc, first, second)?;
    Ok(placed_two_of(op, place, a, b))
}

fn choice_expr(alloc: Global, condition: Expr, first: Expr, second: Expr) -> Result<Expr, LineStop>
    ensures { GivesLine (λ e. term e) result (Some (choice_term (term condition) (term first) (term second))) }
{
    let c = Box::new(alloc, condition)?;
    let (a, b) = two_boxes(alloc, first, second)?;
    Ok(Expr::Choose(c, a, b))
}

// A constant behind its word.
fn read_constant<'a>(words: Words<'a>) -> Result<(Expr, Words<'a>), LineStop>
    ensures { GivesLine (λ x. (term x.0, words_left x.1)) result (behind_head_lem (λ vs. None) Head.Constant (words_left words.entry)) }
{
    let (value, rest) = constant(words)?;
    Ok((Expr::Const(value), rest))
}

// An index behind its word.
fn read_indexed<'a>(indexed: Indexed, words: Words<'a>) -> Result<(Expr, Words<'a>), LineStop>
    ensures { GivesLine (λ x. (term x.0, words_left x.1)) result (behind_head_lem (λ vs. None) (Head.Indexed indexed) (words_left words.entry)) }
{
    let (i, rest) = index(words)?;
    Ok((indexed_expr(indexed, i), rest))
}

// An operation on one part behind its word.
#[cycle(expressions)]
fn read_one<'a>(
    alloc: Global,
    op: One,
    words: Words<'a>,
    levels: u32,
) -> Result<(Expr, Words<'a>), LineStop>
    ensures { GivesLine (λ x. (term x.0, words_left x.1)) result (behind_head_lem (λ vs. term_at levels vs) (Head.One op) (words_left words.entry)) }
{
    let (a, rest) = expression(alloc, words, levels)?;
    Ok((one_expr(alloc, op, a)?, rest))
}

// An operation on one part, with its place, behind its word.
#[cycle(expressions)]
fn read_placed_one<'a>(
    alloc: Global,
    op: PlacedOne,
    words: Words<'a>,
    levels: u32,
) -> Result<(Expr, Words<'a>), LineStop>
    ensures { GivesLine (λ x. (term x.0, words_left x.1)) result (behind_head_lem (λ vs. term_at levels vs) (Head.PlacedOne op) (words_left words.entry)) }
{
    let (place, rest) = index(words)?;
    let (a, rest) = expression(alloc, rest, levels)?;
    Ok((placed_one_expr(alloc, op, place, a)?, rest))
}

// An operation on two parts behind its word.
#[cycle(expressions)]
fn read_two<'a>(
    alloc: Global,
    op: Two,
    words: Words<'a>,
    levels: u32,
) -> Result<(Expr, Words<'a>), LineStop>
    ensures { GivesLine (λ x. (term x.0, words_left x.1)) result (behind_head_lem (λ vs. term_at levels vs) (Head.Two op) (words_left words.entry)) }
{
    let (a, rest) = expression(alloc, words, levels)?;
    let (b, rest) = expression(alloc, rest, levels)?;
    Ok((two_expr(alloc, op, a, b)?, rest))
}

// An operation on two parts, with its place, behind its word.
#[cycle(expressions)]
fn read_placed_two<'a>(
    alloc: Global,
    op: PlacedTwo,
    words: Words<'a>,
    levels: u32,
) -> Result<(Expr, Words<'a>), LineStop>
    ensures { GivesLine (λ x. (term x.0, words_left x.1)) result (behind_head_lem (λ vs. term_at levels vs) (Head.PlacedTwo op) (words_left words.entry)) }
{
    let (place, rest) = index(words)?;
    let (a, rest) = expression(alloc, rest, levels)?;
    let (b, rest) = expression(alloc, rest, levels)?;
    Ok((placed_two_expr(alloc, op, place, a, b)?, rest))
}

// A choice behind its word.
#[cycle(expressions)]
fn read_choice<'a>(
    alloc: Global,
    words: Words<'a>,
    levels: u32,
) -> Result<(Expr, Words<'a>), LineStop>
    ensures { GivesLine (λ x. (term x.0, words_left x.1)) result (behind_head_lem (λ vs. term_at levels vs) (Head.Choice) (words_left words.entry)) }
{
    let (c, rest) = expression(alloc, words, levels)?;
    let (a, rest) = expression(alloc, rest, levels)?;
    let (b, rest) = expression(alloc, rest, levels)?;
    Ok((choice_expr(alloc, c, a, b)?, rest))
}

// The rest of an expression behind its first word; its parts have at most so many levels. Each shape has a function
// of its own, so that a deep expression takes little of the stack.
#[cycle(expressions)]
fn behind_head<'a>(
    alloc: Global,
    head: Head,
    words: Words<'a>,
    levels: u32,
) -> Result<(Expr, Words<'a>), LineStop>
    ensures { GivesLine (λ x. (term x.0, words_left x.1)) result (behind_head_lem (λ vs. term_at levels vs) head (words_left words.entry)) }
{
    match head {
        Head::Constant => read_constant(words),
        Head::Leaf(leaf) => Ok((leaf_expr(leaf), words)),
        Head::Indexed(indexed) => read_indexed(indexed, words),
        Head::One(op) => read_one(alloc, op, words, levels),
        Head::PlacedOne(op) => read_placed_one(alloc, op, words, levels),
        Head::Two(op) => read_two(alloc, op, words, levels),
        Head::PlacedTwo(op) => read_placed_two(alloc, op, words, levels),
        Head::Choice => read_choice(alloc, words, levels),
    }
}

// An expression of at most so many levels.
#[cycle(expressions)]
fn expression<'a>(
    alloc: Global,
    words: Words<'a>,
    levels: u32,
) -> Result<(Expr, Words<'a>), LineStop>
    ensures { GivesLine (λ x. (term x.0, words_left x.1)) result (term_at levels (words_left words.entry)) }
{
    if levels == 0 {
        return Err(LineStop::Bad);
    }
    let (head, rest) = head(words)?;
    behind_head(alloc, head, rest, levels - 1)
}

// An expression of a line.
pub fn line_expression<'a>(alloc: Global, words: Words<'a>) -> Result<(Expr, Words<'a>), LineStop>
    ensures { GivesLine (λ x. (term x.0, words_left x.1)) result (expression_at (words_left words.entry)) }
{
    expression(alloc, words, MOST_LEVELS)
}

// An index and an expression, which are all words.
pub fn index_and_expression(alloc: Global, words: Words) -> Result<(u32, Expr), LineStop>
    ensures { GivesLine (λ x. (x.0, term x.1)) result (slot_in (words_left words.entry)) }
{
    let (i, rest) = index(words)?;
    let (value, rest) = line_expression(alloc, rest)?;
    ended(rest)?;
    Ok((i, value))
}

// Expressions to the end of the line.
pub fn line_expressions(alloc: Global, words: Words) -> Result<Vec<Expr>, LineStop>
    ensures { GivesLine (λ x. map term x.items) result (terms_in (words_left words.entry)) }
{
    let mut values = Vec::new(alloc);
    let mut rest = words;
    'values: while rest.is_some() {
        let (value, behind) = line_expression(alloc, rest)?;
        values.push(value)?;
        rest = behind;
    }
    Ok(values)
}
