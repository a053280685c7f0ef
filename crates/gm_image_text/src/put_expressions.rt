//! Writing expressions behind a text.

ghost use Rattle.std.specs.Prelude.{◌≡◌, ◌++◌, ◌∷◌, OnOk, map, codes};
ghost use Rattle.std.specs.Fmt.{decimal};
ghost use Rattle.std.specs.List.{flat_map};
ghost use Rattle.gm_image.specs.Views.{term, target};
ghost use Rattle.gm_image_text.specs.Lines.{led};
ghost use Rattle.gm_image_text.specs.Spelling.{op1_word as op1_word_lem, op2_word as op2_word_lem, place_words, value_words, term_words, target_words};
ghost use Rattle.gm_image_text.specs.ShapeWords.{one_words, two_words};
ghost use Rattle.gm_image.specs.Shapes.{leaf_term};

use crate::put_words::{put_indexed, put_number, put_value, put_word};
use gm_base::NoMemory;
use gm_image::{Expr, Leaf, One, Shape, Two};
use gm_value::{Op1, Op2, Value};

// Writes a constant.
fn put_constant(text: &mut Vec<u8>, value: Value) -> Result<(), NoMemory>
    ensures { OnOk result (text.new.items ≡ text.old.items ++ led (codes "c" ∷ value_words value)) }
{
    put_word(text, b"c")?;
    put_value(text, value)?;
    Ok(())
}

// The word of an operation on one value.
fn op1_word(op: Op1) -> &'static [u8]
    ensures { result.now ≡ op1_word_lem op }
{
    match op {
        Op1::Neg => b"neg",
        Op1::Not => b"not",
        Op1::ToI32 => b"int",
        Op1::ToI64 => b"long",
    }
}

// The word of an operation on two values.
fn op2_word(op: Op2) -> &'static [u8]
    ensures { result.now ≡ op2_word_lem op }
{
    match op {
        Op2::Add => b"+",
        Op2::Sub => b"-",
        Op2::Mul => b"*",
        Op2::Div => b"/",
        Op2::Rem => b"%",
        Op2::Eq => b"==",
        Op2::Ne => b"!=",
        Op2::Lt => b"<",
        Op2::Gt => b">",
        Op2::Le => b"<=",
        Op2::Ge => b">=",
    }
}

// Writes an operation and its place, if it has one.
fn put_operation(text: &mut Vec<u8>, word: &[u8], place: Option<u32>) -> Result<(), NoMemory>
    ensures { OnOk result (text.new.items ≡ text.old.items ++ led (word.now ∷ place_words place)) }
{
    match place {
        None => put_word(text, word),
        Some(place) => put_indexed(text, word, place),
    }
}

// Writes an operation with one operand: its word and its place.
fn put_one(text: &mut Vec<u8>, op: One) -> Result<(), NoMemory>
    ensures { OnOk result (text.new.items ≡ text.old.items ++ led (one_words op)) }
{
    match op {
        One::NodeAt => put_word(text, b"node"),
        One::Live(place) => put_indexed(text, b"live", place),
        One::Op(op, place) => put_operation(text, op1_word(op), place),
    }
}

// Writes an operation with two operands: its word and its place.
fn put_two(text: &mut Vec<u8>, op: Two) -> Result<(), NoMemory>
    ensures { OnOk result (text.new.items ≡ text.old.items ++ led (two_words op)) }
{
    match op {
        Two::Op(op, place) => put_operation(text, op2_word(op), place),
        Two::And => put_word(text, b"&&"),
        Two::Or => put_word(text, b"||"),
    }
}

// Writes a leaf.
fn put_leaf(text: &mut Vec<u8>, leaf: Leaf) -> Result<(), NoMemory>
    ensures { OnOk result (text.new.items ≡ text.old.items ++ led (term_words (leaf_term leaf))) }
{
    match leaf {
        Leaf::Const(value) => put_constant(text, value),
        Leaf::Global(i) => put_indexed(text, b"g", i),
        Leaf::NodeCount => put_word(text, b"nn"),
        Leaf::EdgeCount => put_word(text, b"ne"),
        Leaf::Field(i) => put_indexed(text, b"f", i),
        Leaf::Id => put_word(text, b"id"),
        Leaf::OutDegree => put_word(text, b"out"),
        Leaf::InDegree => put_word(text, b"inn"),
        Leaf::Register(i) => put_indexed(text, b"r", i),
        Leaf::Message(i) => put_indexed(text, b"m", i),
        Leaf::Neighbour => put_word(text, b"nb"),
        Leaf::Column(i) => put_indexed(text, b"w", i),
    }
}

// Writes an expression, each of its words behind a space.
pub fn put_expr(text: &mut Vec<u8>, expr: &Expr) -> Result<(), NoMemory>
    ensures { OnOk result (text.new.items ≡ text.old.items ++ led (term_words (term expr.now))) }
{
    match expr.shape() {
        Shape::Leaf(leaf) => put_leaf(text, leaf),
        Shape::One(op, a) => {
            put_one(text, op)?;
            put_expr(text, a)
        }
        Shape::Two(op, a, b) => {
            put_two(text, op)?;
            put_expr(text, a)?;
            put_expr(text, b)
        }
        Shape::Choose(c, a, b) => {
            put_word(text, b"?")?;
            put_expr(text, c)?;
            put_expr(text, a)?;
            put_expr(text, b)
        }
    }
}

// Writes expressions.
pub fn put_exprs(text: &mut Vec<u8>, exprs: &[Expr]) -> Result<(), NoMemory>
    ensures { OnOk result (text.new.items ≡ text.old.items ++ led (flat_map term_words (map term exprs.now))) }
{
    for expr in exprs {
        put_expr(text, expr)?;
    }
    Ok(())
}

// Writes a slot and the value that goes into it.
fn put_slot(text: &mut Vec<u8>, slot: &(u32, Expr)) -> Result<(), NoMemory>
    ensures { OnOk result (text.new.items ≡ text.old.items ++ led (target_words (target slot.now))) }
{
    put_number(text, slot.0)?;
    put_expr(text, &slot.1)?;
    Ok(())
}

// Writes slots, each with the value that goes into it.
pub fn put_slots(text: &mut Vec<u8>, slots: &[(u32, Expr)]) -> Result<(), NoMemory>
    ensures { OnOk result (text.new.items ≡ text.old.items ++ led (flat_map target_words (map target slots.now))) }
{
    for slot in slots {
        put_slot(text, slot)?;
    }
    Ok(())
}
