//! Writing the lines of an image's text behind a text, each by its words.

ghost use Rattle.std.specs.Prelude.{◌≡◌, ◌++◌, ◌∷◌, [], List, OnOk, length, map, codes};
ghost use Rattle.std.specs.Fmt.{decimal};
ghost use Rattle.std.specs.List.{flat_map};
ghost use Rattle.gm_image.specs.Views.{term, target, input, output, line, command};
ghost use Rattle.gm_image.specs.Items.{holder_of, item_of};
ghost use Rattle.gm_image_text.specs.Lines.{Line as TextLine, joined, spaced, text_of};
ghost use Rattle.gm_image_text.specs.Spelling.{holder_word as holder_word_lem, type_word as type_word_lem, reduce_word as reduce_word_lem, combiner_word, term_words, target_words, reduction_words, one_line, item_words, kind_words, place_pair, type_lines, vertex_words, command_words, result_words};

use crate::put_expressions::{put_expr, put_exprs, put_slots};
use crate::put_words::{
    put, put_first_number, put_number, put_type, put_types, put_word, reduce_word, type_word,
};
use gm_base::{Items, NoMemory, Place};
use gm_image::{Expr, Holder, InputItem, Item, Kind, MasterLine, OutputItem, VertexLine};
use gm_value::{Reduce, VType};

// What is written as lines.
pub trait Spelled {
    // The lines.
    ghost spelled: { Self → List TextLine };

    // Writes the lines behind a text.
    fn write(&self, text: &mut Vec<u8>) -> Result<(), NoMemory>
        ensures { OnOk result (text.new.items ≡ text.old.items ++ text_of (spelled self.now)) };
}

// The word of what holds an input or an output.
fn holder_word(holder: Holder) -> &'static [u8]
    ensures { result.now ≡ holder_word_lem (holder_of holder) }
{
    match holder {
        Holder::Scalar => b"scalar",
        Holder::Node => b"node",
        Holder::Edge => b"edge",
    }
}

// Writes the line of an input or an output.
fn put_item(text: &mut Vec<u8>, item: Item) -> Result<(), NoMemory>
    ensures { OnOk result (text.new.items ≡ text.old.items ++ spaced (item_words (item_of item.entry))) }
{
    put(text, holder_word(item.holder))?;
    put_type(text, item.vtype)?;
    put_word(text, item.name)?;
    put_number(text, item.slot)?;
    put(text, b"\n")?;
    Ok(())
}

impl Spelled for InputItem {
    ghost spelled = { λ i. one_line item_words (input i) };

    fn write(&self, text: &mut Vec<u8>) -> Result<(), NoMemory> {
        put_item(text, self.item())?;
        Ok(())
    }
}

impl Spelled for OutputItem {
    ghost spelled = { λ i. one_line item_words (output i) };

    fn write(&self, text: &mut Vec<u8>) -> Result<(), NoMemory> {
        put_item(text, self.item())?;
        Ok(())
    }
}

impl Spelled for VType {
    ghost spelled = { type_lines };

    fn write(&self, text: &mut Vec<u8>) -> Result<(), NoMemory> {
        put(text, type_word(*self))?;
        put(text, b"\n")?;
        Ok(())
    }
}

// Writes a combiner, or that there is none.
fn put_combiner(text: &mut Vec<u8>, combiner: Option<Reduce>) -> Result<(), NoMemory>
    ensures { OnOk result (text.new.items ≡ text.old.items ++ combiner_word combiner) }
{
    match combiner {
        None => put(text, b"-"),
        Some(reduce) => put(text, reduce_word(reduce)),
    }
}

impl Spelled for Kind {
    ghost spelled = { λ k. one_line kind_words k };

    fn write(&self, text: &mut Vec<u8>) -> Result<(), NoMemory> {
        put_combiner(text, self.combiner)?;
        put_types(text, self.values.as_slice())?;
        put(text, b"\n")?;
        Ok(())
    }
}

impl Spelled for Place {
    ghost spelled = { λ p. one_line place_pair p };

    fn write(&self, text: &mut Vec<u8>) -> Result<(), NoMemory> {
        put_first_number(text, self.line)?;
        put_number(text, self.col)?;
        put(text, b"\n")?;
        Ok(())
    }
}

// Writes a word, a reduction, its place and its slots.
fn put_reduced(
    text: &mut Vec<u8>,
    word: &[u8],
    reduce: Reduce,
    place: u32,
    slots: &[(u32, Expr)],
) -> Result<(), NoMemory>
    ensures { OnOk result (text.new.items ≡ text.old.items ++ joined (word.now ∷ reduce_word_lem reduce ∷ decimal place ∷ flat_map target_words (map target slots.now))) }
{
    put(text, word)?;
    put_word(text, reduce_word(reduce))?;
    put_number(text, place)?;
    put_slots(text, slots)?;
    Ok(())
}

// Writes a word, a reduction, its place, how many slots it has, and its slots.
fn put_counted(
    text: &mut Vec<u8>,
    word: &[u8],
    reduce: Reduce,
    place: u32,
    slots: &[(u32, Expr)],
) -> Result<(), NoMemory>
    ensures { OnOk result (text.new.items ≡ text.old.items ++ joined (word.now ∷ reduce_word_lem reduce ∷ decimal place ∷ decimal (length slots.now) ∷ flat_map target_words (map target slots.now))) }
{
    put(text, word)?;
    put_word(text, reduce_word(reduce))?;
    put_number(text, place)?;
    put_number(text, slots.len())?;
    put_slots(text, slots)?;
    Ok(())
}

// Writes a reduction, whose word is the first where it has one slot, and else the second.
fn put_reduction(
    text: &mut Vec<u8>,
    one: &[u8],
    several: &[u8],
    reduce: Reduce,
    place: u32,
    slots: &[(u32, Expr)],
) -> Result<(), NoMemory>
    ensures { OnOk result (text.new.items ≡ text.old.items ++ joined (reduction_words one.now several.now reduce place (map target slots.now))) }
{
    if slots.len() == 1 {
        put_reduced(text, one, reduce, place, slots)
    } else {
        put_counted(text, several, reduce, place, slots)
    }
}

// Writes a word, an index and an expression.
fn put_set(text: &mut Vec<u8>, word: &[u8], index: u32, value: &Expr) -> Result<(), NoMemory>
    ensures { OnOk result (text.new.items ≡ text.old.items ++ joined (word.now ∷ decimal index ∷ term_words (term value.now))) }
{
    put(text, word)?;
    put_number(text, index)?;
    put_expr(text, value)?;
    Ok(())
}

// Writes a word and an index.
fn put_only(text: &mut Vec<u8>, word: &[u8], index: u32) -> Result<(), NoMemory>
    ensures { OnOk result (text.new.items ≡ text.old.items ++ joined (word.now ∷ decimal index ∷ [])) }
{
    put(text, word)?;
    put_number(text, index)?;
    Ok(())
}

// Writes a send.
fn put_send(text: &mut Vec<u8>, kind: u32, to: &Expr, values: &[Expr]) -> Result<(), NoMemory>
    ensures { OnOk result (text.new.items ≡ text.old.items ++ joined (codes "send" ∷ decimal kind ∷ (term_words (term to.now) ++ flat_map term_words (map term values.now)))) }
{
    put(text, b"send")?;
    put_number(text, kind)?;
    put_expr(text, to)?;
    put_exprs(text, values)?;
    Ok(())
}

// Writes the words of a vertex line.
fn put_vertex(text: &mut Vec<u8>, vertex: &VertexLine) -> Result<(), NoMemory>
    ensures { OnOk result (text.new.items ≡ text.old.items ++ joined (vertex_words (line vertex.now))) }
{
    match vertex {
        VertexLine::SetField(field, value) => put_set(text, b"set", *field, value),
        VertexLine::Fold {
            reduce,
            place,
            slots,
        } => put_reduction(text, b"fold", b"pick", *reduce, *place, slots.as_slice()),
        VertexLine::SetRegister(register, value) => put_set(text, b"reg", *register, value),
        VertexLine::Put {
            reduce,
            place,
            slots,
        } => put_reduction(text, b"put", b"pickput", *reduce, *place, slots.as_slice()),
        VertexLine::Send { kind, to, values } => put_send(text, *kind, to, values.as_slice()),
        VertexLine::Skip(count, condition) => put_set(text, b"skip", *count, condition),
        VertexLine::EachOut(count) => put_only(text, b"each out", *count),
        VertexLine::EachIn(count) => put_only(text, b"each in", *count),
    }
}

impl Spelled for VertexLine {
    ghost spelled = { λ l. one_line vertex_words (line l) };

    fn write(&self, text: &mut Vec<u8>) -> Result<(), NoMemory> {
        put_vertex(text, self)?;
        put(text, b"\n")?;
        Ok(())
    }
}

// Writes the words of a master line.
fn put_master(text: &mut Vec<u8>, master: &MasterLine) -> Result<(), NoMemory>
    ensures { OnOk result (text.new.items ≡ text.old.items ++ joined (command_words (command master.now))) }
{
    match master {
        MasterLine::SetGlobal(global, value) => put_set(text, b"set", *global, value),
        MasterLine::Step(block) => put_only(text, b"step", *block),
        MasterLine::Jump(target) => put_only(text, b"jump", *target),
        MasterLine::Test(target, condition) => put_set(text, b"test", *target, condition),
        MasterLine::Turn(exit, condition) => put_set(text, b"loop", *exit, condition),
        MasterLine::Back(head) => put_only(text, b"back", *head),
        MasterLine::Finish => put(text, b"end"),
    }
}

impl Spelled for MasterLine {
    ghost spelled = { λ l. one_line command_words (command l) };

    fn write(&self, text: &mut Vec<u8>) -> Result<(), NoMemory> {
        put_master(text, self)?;
        put(text, b"\n")?;
        Ok(())
    }
}

// Writes the line of the result.
pub fn put_result(text: &mut Vec<u8>, outcome: Option<(VType, u32)>) -> Result<(), NoMemory>
    ensures { OnOk result (text.new.items ≡ text.old.items ++ spaced (result_words outcome)) }
{
    match outcome {
        None => put(text, b"result -\n"),
        Some((vtype, slot)) => {
            put(text, b"result")?;
            put_type(text, vtype)?;
            put_number(text, slot)?;
            put(text, b"\n")?;
            Ok(())
        }
    }
}
