//! Reading the lines of an image's text, each by its words.

ghost use Rattle.std.specs.Prelude.{List, Option};
ghost use Rattle.gm_base.specs.declared.places.Place.{Place as PlaceValue};
ghost use Rattle.gm_value.specs.declared.values.VType.{VType as VTypeValue};
ghost use Rattle.gm_image.specs.declared.images.Kind.{Kind as KindValue};
ghost use Rattle.gm_image.specs.Program.{Item, Command};
ghost use Rattle.gm_image.specs.Views.{input, output, line, command};
ghost use Rattle.gm_image_text.specs.Lines.{Word};
ghost use Rattle.gm_image_text.specs.Reading.{words_left, name_at, types_in, item_at, slot_in, only_index as only_index_lem, first_row as first_row_lem, name_row as name_row_lem, count_row as count_row_lem, on_row as on_row_lem, result_in, result_row as result_row_lem, input_row, output_row, type_row, kind_row, place_row, vertex_row as vertex_row_lem, vertex_behind as vertex_behind_lem, master_row, master_behind as master_behind_lem};
ghost use Rattle.gm_image_text.specs.Giving.{GivesLine};

use crate::expressions::{index, index_and_expression, line_expression, line_expressions, vtype};
use crate::faults::LineStop;
use crate::heads::{
    COMBINERS, INPUT_HEADS, InputHead, MASTER_HEADS, MasterHead, OUTPUT_HEADS, OutputHead,
    VERSIONS, VERTEX_HEADS, Version, VertexHead, WAYS,
};
use crate::reductions::{picked, reduced, single};
use crate::tables::{known, same};
use crate::words::{Words, ended, expect, next_word};
use gm_base::{Items, Place};
use gm_image::{Direction, InputItem, Kind, MasterLine, OutputItem, VertexLine};
use gm_value::VType;
use std::alloc::Global;

// What a line spells.
pub trait Row: Sized + Drop {
    ghost Seen: { Type 0 };

    // Without where it lies in memory.
    ghost seen: { Self → Seen };

    // What words spell, if they do.
    ghost row_at: { List Word → Option Seen };

    // Reads it from the words of a line.
    fn read(alloc: Global, words: Words) -> Result<Self, LineStop>
        ensures { GivesLine seen result (row_at (words_left words.entry)) };
}

// The version, which the first line says.
#[tactic(auto, unfolding(crate::specs::Tables::versions))]
pub fn first_row(words: Words) -> Result<Version, LineStop>
    ensures { GivesLine (λ x. x) result (first_row_lem (words_left words.entry)) }
{
    let rest = expect(b"gm-image", words)?;
    let (word, rest) = next_word(rest)?;
    let version = known(&VERSIONS, word)?;
    ended(rest)?;
    Ok(version)
}

// A name.
fn name<'a>(alloc: Global, words: Words<'a>) -> Result<(Items<u8>, Words<'a>), LineStop>
    ensures { GivesLine (λ x. (x.0, words_left x.1)) result (name_at (words_left words.entry)) }
{
    let (word, rest) = next_word(words)?;
    if word.is_empty() {
        return Err(LineStop::Bad);
    }
    Ok((Items::new(Vec::from_slice(alloc, word)?), rest))
}

// The name of the procedure.
pub fn name_row(alloc: Global, words: Words) -> Result<Items<u8>, LineStop>
    ensures { GivesLine (λ x. x) result (name_row_lem (words_left words.entry)) }
{
    let rest = expect(b"name", words)?;
    let (name, rest) = name(alloc, rest)?;
    ended(rest)?;
    Ok(name)
}

// The count of a header that begins with this word.
pub fn count_row(word: &[u8], words: Words) -> Result<u32, LineStop>
    ensures { GivesLine (λ x. x) result (count_row_lem word.now (words_left words.entry)) }
{
    let rest = expect(word, words)?;
    let (count, rest) = index(rest)?;
    ended(rest)?;
    Ok(count)
}

// The kind of a handler, and how many lines it has.
pub fn on_row(words: Words) -> Result<(u32, u32), LineStop>
    ensures { GivesLine (λ x. x) result (on_row_lem (words_left words.entry)) }
{
    let rest = expect(b"on", words)?;
    let (kind, rest) = index(rest)?;
    let (count, rest) = index(rest)?;
    ended(rest)?;
    Ok((kind, count))
}

// The result, where the next word is no `-`.
fn result_of(words: Words) -> Result<Option<(VType, u32)>, LineStop>
    ensures { GivesLine (λ x. x) result (result_in (words_left words.entry)) }
{
    let (word, rest) = next_word(words)?;
    if same(word, b"-") {
        ended(rest)?;
        return Ok(None);
    }
    let (vtype, rest) = vtype(words)?;
    let (slot, rest) = index(rest)?;
    ended(rest)?;
    Ok(Some((vtype, slot)))
}

// The result's line.
pub fn result_row(words: Words) -> Result<Option<(VType, u32)>, LineStop>
    ensures { GivesLine (λ x. x) result (result_row_lem (words_left words.entry)) }
{
    let rest = expect(b"result", words)?;
    result_of(rest)
}

// A type, a name and a slot.
fn item<'a>(alloc: Global, words: Words<'a>) -> Result<(VType, Items<u8>, u32, Words<'a>), LineStop>
    ensures { GivesLine (λ x. ((x.0, (x.1, x.2)), words_left x.3)) result (item_at (words_left words.entry)) }
{
    let (vtype, rest) = vtype(words)?;
    let (name, rest) = name(alloc, rest)?;
    let (slot, rest) = index(rest)?;
    Ok((vtype, name, slot, rest))
}

impl Row for InputItem {
    ghost Seen = { Item };

    ghost seen = { input };

    ghost row_at = { input_row };

    #[tactic(auto, unfolding(crate::specs::Tables::input_heads))]
    fn read(alloc: Global, words: Words) -> Result<Self, LineStop> {
        let (word, rest) = next_word(words)?;
        let head = known(&INPUT_HEADS, word)?;
        let (vtype, name, slot, rest) = item(alloc, rest)?;
        ended(rest)?;
        Ok(match head {
            InputHead::Scalar => InputItem::Scalar { vtype, name, slot },
            InputHead::Node => InputItem::Node { vtype, name, slot },
            InputHead::Edge => InputItem::Edge { vtype, name, slot },
        })
    }
}

impl Row for OutputItem {
    ghost Seen = { Item };

    ghost seen = { output };

    ghost row_at = { output_row };

    #[tactic(auto, unfolding(crate::specs::Tables::output_heads))]
    fn read(alloc: Global, words: Words) -> Result<Self, LineStop> {
        let (word, rest) = next_word(words)?;
        let head = known(&OUTPUT_HEADS, word)?;
        let (vtype, name, slot, rest) = item(alloc, rest)?;
        ended(rest)?;
        Ok(match head {
            OutputHead::Scalar => OutputItem::Scalar { vtype, name, slot },
            OutputHead::Node => OutputItem::Node { vtype, name, slot },
        })
    }
}

impl Row for VType {
    ghost Seen = { VTypeValue };

    ghost seen = { λ t. t };

    ghost row_at = { type_row };

    fn read(_alloc: Global, words: Words) -> Result<Self, LineStop> {
        let (vtype, rest) = vtype(words)?;
        ended(rest)?;
        Ok(vtype)
    }
}

// Types to the end of the line.
fn types(alloc: Global, words: Words) -> Result<Vec<VType>, LineStop>
    ensures { GivesLine (λ x. x.items) result (types_in (words_left words.entry)) }
{
    let mut values = Vec::new(alloc);
    let mut rest = words;
    'values: while rest.is_some() {
        let (value, behind) = vtype(rest)?;
        values.push(value)?;
        rest = behind;
    }
    Ok(values)
}

impl Row for Kind {
    ghost Seen = { KindValue };

    ghost seen = { λ k. k };

    ghost row_at = { kind_row };

    #[tactic(auto, unfolding(crate::specs::Tables::combiners))]
    fn read(alloc: Global, words: Words) -> Result<Self, LineStop> {
        let (word, rest) = next_word(words)?;
        let combiner = known(&COMBINERS, word)?;
        let values = types(alloc, rest)?;
        Ok(Kind {
            combiner,
            values: Items::new(values),
        })
    }
}

impl Row for Place {
    ghost Seen = { PlaceValue };

    ghost seen = { λ p. p };

    ghost row_at = { place_row };

    fn read(_alloc: Global, words: Words) -> Result<Self, LineStop> {
        let (line, rest) = index(words)?;
        let (col, rest) = index(rest)?;
        ended(rest)?;
        Ok(Place { line, col })
    }
}

// An index, which is all words.
fn only_index(words: Words) -> Result<u32, LineStop>
    ensures { GivesLine (λ x. x) result (only_index_lem (words_left words.entry)) }
{
    let (i, rest) = index(words)?;
    ended(rest)?;
    Ok(i)
}

// The rest of a send behind its first word.
fn send(alloc: Global, words: Words) -> Result<VertexLine, LineStop>
    ensures { GivesLine line result (vertex_behind_lem Version.Two VertexHead.Send (words_left words.entry)) }
{
    let (kind, rest) = index(words)?;
    let (to, rest) = line_expression(alloc, rest)?;
    let values = line_expressions(alloc, rest)?;
    Ok(VertexLine::Send {
        kind,
        to,
        values: Items::new(values),
    })
}

// The rest of an each behind its first word.
#[tactic(auto, unfolding(crate::specs::Tables::ways))]
fn each(words: Words) -> Result<VertexLine, LineStop>
    ensures { GivesLine line result (vertex_behind_lem Version.Two VertexHead.Each (words_left words.entry)) }
{
    let (word, rest) = next_word(words)?;
    let direction = known(&WAYS, word)?;
    let count = only_index(rest)?;
    Ok(match direction {
        Direction::Out => VertexLine::EachOut(count),
        Direction::In => VertexLine::EachIn(count),
    })
}

// The rest of a vertex line behind its first word.
fn vertex_behind(
    alloc: Global,
    version: Version,
    head: VertexHead,
    words: Words,
) -> Result<VertexLine, LineStop>
    ensures { GivesLine line result (vertex_behind_lem version head (words_left words.entry)) }
{
    match head {
        VertexHead::SetField => {
            let (field, value) = index_and_expression(alloc, words)?;
            Ok(VertexLine::SetField(field, value))
        }
        VertexHead::Fold => {
            let (reduce, place, slot) = reduced(alloc, words)?;
            let slots = single(alloc, slot)?;
            Ok(VertexLine::Fold {
                reduce,
                place,
                slots,
            })
        }
        VertexHead::Pick => {
            let (reduce, place, slots) = picked(alloc, version, words)?;
            Ok(VertexLine::Fold {
                reduce,
                place,
                slots,
            })
        }
        VertexHead::SetRegister => {
            let (register, value) = index_and_expression(alloc, words)?;
            Ok(VertexLine::SetRegister(register, value))
        }
        VertexHead::Put => {
            let (reduce, place, slot) = reduced(alloc, words)?;
            let slots = single(alloc, slot)?;
            Ok(VertexLine::Put {
                reduce,
                place,
                slots,
            })
        }
        VertexHead::PickPut => {
            let (reduce, place, slots) = picked(alloc, version, words)?;
            Ok(VertexLine::Put {
                reduce,
                place,
                slots,
            })
        }
        VertexHead::Send => send(alloc, words),
        VertexHead::Skip => {
            let (count, condition) = index_and_expression(alloc, words)?;
            Ok(VertexLine::Skip(count, condition))
        }
        VertexHead::Each => each(words),
    }
}

// A vertex line of a version.
#[tactic(auto, unfolding(crate::specs::Tables::vertex_heads))]
pub fn vertex_row(alloc: Global, version: Version, words: Words) -> Result<VertexLine, LineStop>
    ensures { GivesLine line result (vertex_row_lem version (words_left words.entry)) }
{
    let (word, rest) = next_word(words)?;
    let head = known(&VERTEX_HEADS, word)?;
    vertex_behind(alloc, version, head, rest)
}

// The rest of a master line behind its first word.
fn master_behind(alloc: Global, head: MasterHead, words: Words) -> Result<MasterLine, LineStop>
    ensures { GivesLine command result (master_behind_lem head (words_left words.entry)) }
{
    match head {
        MasterHead::SetGlobal => {
            let (global, value) = index_and_expression(alloc, words)?;
            Ok(MasterLine::SetGlobal(global, value))
        }
        MasterHead::Step => Ok(MasterLine::Step(only_index(words)?)),
        MasterHead::Jump => Ok(MasterLine::Jump(only_index(words)?)),
        MasterHead::Test => {
            let (target, condition) = index_and_expression(alloc, words)?;
            Ok(MasterLine::Test(target, condition))
        }
        MasterHead::Turn => {
            let (exit, condition) = index_and_expression(alloc, words)?;
            Ok(MasterLine::Turn(exit, condition))
        }
        MasterHead::Back => Ok(MasterLine::Back(only_index(words)?)),
        MasterHead::Finish => {
            ended(words)?;
            Ok(MasterLine::Finish)
        }
    }
}

impl Row for MasterLine {
    ghost Seen = { Command };

    ghost seen = { command };

    ghost row_at = { master_row };

    #[tactic(auto, unfolding(crate::specs::Tables::master_heads))]
    fn read(alloc: Global, words: Words) -> Result<Self, LineStop> {
        let (word, rest) = next_word(words)?;
        let head = known(&MASTER_HEADS, word)?;
        master_behind(alloc, head, rest)
    }
}
