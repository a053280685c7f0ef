//! The words, numbers and values that fields spell.

ghost use Rattle.std.specs.Prelude.{◌≡◌, ◌≤◌, IfOk, IfErr, Ok, Err};
ghost use Rattle.std.specs.Str.{str_eq_ignore_ascii_case};
ghost use Rattle.gm_fields.specs.Fields.{fields, number_in};
ghost use Rattle.gm_loader.specs.Fields.{whole_in};
ghost use Rattle.gm_loader.specs.Tables.{IsWholeType};
ghost use Rattle.gm_mtx.specs.Fields.{size_number, index_number, first_number, whole_value, value_in};
ghost use Rattle.gm_mtx.specs.Tables.{Reads};

use crate::faults::LineFault;
use gm_fields::{cut_field, number_in};
use gm_loader::{flag_in, whole_in};
use gm_value::{VType, Value};

// The greatest number of a size line.
const TOP_NUMBER: u64 = 9_223_372_036_854_775_807;

// Whether a field is a word, in any ASCII case.
pub fn is_word(field: &[u8], word: &[u8]) -> bool
    ensures { result ≡ str_eq_ignore_ascii_case field.now word.now }
{
    field.eq_ignore_ascii_case(word)
}

// The number of the size line that a field spells.
fn size_number(field: &[u8]) -> Result<u64, LineFault>
    ensures { result ≡ size_number (number_in field.now) }
{
    match number_in(field) {
        None => Err(LineFault::BadLine),
        Some(number) => {
            if number <= TOP_NUMBER {
                Ok(number)
            } else {
                Err(LineFault::OutOfRange)
            }
        }
    }
}

// The row or column, of `most`, that a field spells.
fn index_number(most: u32, field: &[u8]) -> Result<u64, LineFault>
    ensures { result ≡ index_number most (number_in field.now) }
{
    match number_in(field) {
        None => Err(LineFault::BadLine),
        Some(number) => {
            if 1 <= number && number <= u64::from(most) {
                Ok(number)
            } else {
                Err(LineFault::OutOfRange)
            }
        }
    }
}

// A number of the size line from the first field of some text, and the text behind.
pub fn read_size_number<'a>(text: &'a [u8]) -> Result<(u64, &'a [u8]), LineFault>
    ensures read { IfOk result (λ cut. Reads size_number (fields text.now) cut.0 (fields cut.1.now)) }
    ensures fault { IfErr result (λ e. size_number (first_number (fields text.now)) ≡ Err e) }
{
    let Some((field, rest)) = cut_field(text) else {
        return Err(LineFault::BadLine);
    };
    let number = size_number(field)?;
    Ok((number, rest))
}

// A row or a column, of `most`, from the first field of some text, and the text behind.
pub fn read_index<'a>(most: u32, text: &'a [u8]) -> Result<(u64, &'a [u8]), LineFault>
    ensures read { IfOk result (λ cut. Reads (index_number most) (fields text.now) cut.0 (fields cut.1.now)) }
    ensures fault { IfErr result (λ e. index_number most (first_number (fields text.now)) ≡ Err e) }
{
    let Some((field, rest)) = cut_field(text) else {
        return Err(LineFault::BadLine);
    };
    let number = index_number(most, field)?;
    Ok((number, rest))
}

// The value of a type of whole numbers that a field spells.
fn whole_value(vtype: VType, field: &[u8]) -> Result<Value, LineFault>
    requires { IsWholeType vtype }
    ensures { result ≡ whole_value vtype (whole_in field.now) }
{
    match whole_in(field) {
        None => Err(LineFault::BadLine),
        Some(number) => match vtype.checked(number) {
            Ok(value) => Ok(value),
            Err(_) => Err(LineFault::OutOfRange),
        },
    }
}

// The value of a type that a field spells.
pub fn value_in(vtype: VType, field: &[u8]) -> Result<Value, LineFault>
    ensures { result ≡ value_in vtype field.now }
{
    match vtype {
        VType::I32 => whole_value(VType::I32, field),
        VType::I64 => whole_value(VType::I64, field),
        VType::Flag => match flag_in(field) {
            Some(flag) => Ok(Value::Flag(flag)),
            None => Err(LineFault::BadLine),
        },
        VType::Node => Err(LineFault::BadLine),
    }
}
