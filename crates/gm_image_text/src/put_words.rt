//! Writing words behind a text.

ghost use Rattle.std.specs.Prelude.{◌≡◌, ◌++◌, [], ◌∷◌, OnOk, map};
ghost use Rattle.std.specs.Fmt.{decimal};
ghost use Rattle.gm_image_text.specs.Lines.{led};
ghost use Rattle.gm_image_text.specs.Spelling.{type_word as type_word_lem, reduce_word as reduce_word_lem, value_words};

use gm_base::NoMemory;
use gm_value::{Reduce, VType, Value};
use itoa::{Buffer, Integer};

// Writes some bytes behind a text.
pub fn put(text: &mut Vec<u8>, bytes: &[u8]) -> Result<(), NoMemory>
    ensures { OnOk result (text.new.items ≡ text.old.items ++ bytes.now) }
{
    text.extend_from_slice(bytes)?;
    Ok(())
}

// Writes a space and a word behind a text.
pub fn put_word(text: &mut Vec<u8>, word: &[u8]) -> Result<(), NoMemory>
    ensures { OnOk result (text.new.items ≡ text.old.items ++ led (word.now ∷ [])) }
{
    put(text, b" ")?;
    put(text, word)?;
    Ok(())
}

// Writes a space and a number behind a text.
pub fn put_number<I: Integer>(text: &mut Vec<u8>, number: I) -> Result<(), NoMemory>
    ensures { OnOk result (text.new.items ≡ text.old.items ++ led (I.text number ∷ [])) }
{
    let mut buffer = Buffer::new();
    put_word(text, buffer.format(number).as_bytes())
}

// Writes a number behind a text.
pub fn put_first_number<I: Integer>(text: &mut Vec<u8>, number: I) -> Result<(), NoMemory>
    ensures { OnOk result (text.new.items ≡ text.old.items ++ I.text number) }
{
    let mut buffer = Buffer::new();
    put(text, buffer.format(number).as_bytes())
}

// Writes a word and an index, each behind a space.
pub fn put_indexed(text: &mut Vec<u8>, word: &[u8], index: u32) -> Result<(), NoMemory>
    ensures { OnOk result (text.new.items ≡ text.old.items ++ led (word.now ∷ decimal index ∷ [])) }
{
    put_word(text, word)?;
    put_number(text, index)?;
    Ok(())
}

// The word of a type.
pub fn type_word(vtype: VType) -> &'static [u8]
    ensures { result.now ≡ type_word_lem vtype }
{
    match vtype {
        VType::I32 => b"I",
        VType::I64 => b"L",
        VType::Flag => b"B",
        VType::Node => b"N",
    }
}

// The word of a reduction.
pub fn reduce_word(reduce: Reduce) -> &'static [u8]
    ensures { result.now ≡ reduce_word_lem reduce }
{
    match reduce {
        Reduce::Sum => b"sum",
        Reduce::Product => b"product",
        Reduce::Min => b"min",
        Reduce::Max => b"max",
        Reduce::And => b"and",
        Reduce::Or => b"or",
    }
}

// Writes a constant: its type and its value.
pub fn put_value(text: &mut Vec<u8>, value: Value) -> Result<(), NoMemory>
    ensures { OnOk result (text.new.items ≡ text.old.items ++ led (value_words value)) }
{
    match value {
        Value::I32(number) => {
            put(text, b" I")?;
            put_number(text, number)
        }
        Value::I64(number) => {
            put(text, b" L")?;
            put_number(text, number)
        }
        Value::Flag(true) => put(text, b" B True"),
        Value::Flag(false) => put(text, b" B False"),
        Value::At(_) => put(text, b" N NIL"),
    }
}

// Writes a space and a type behind a text.
pub fn put_type(text: &mut Vec<u8>, vtype: VType) -> Result<(), NoMemory>
    ensures { OnOk result (text.new.items ≡ text.old.items ++ led (type_word_lem vtype ∷ [])) }
{
    put_word(text, type_word(vtype))?;
    Ok(())
}

// Writes types, each behind a space.
pub fn put_types(text: &mut Vec<u8>, types: &[VType]) -> Result<(), NoMemory>
    ensures { OnOk result (text.new.items ≡ text.old.items ++ led (map type_word_lem types.now)) }
{
    for vtype in types {
        put_type(text, *vtype)?;
    }
    Ok(())
}
