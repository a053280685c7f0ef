//! The node numbers and values that a field spells.

ghost use Rattle.std.specs.Prelude.{◌≡◌, option_map, slice_index};
ghost use Rattle.std.specs.Str.{bytes_eq};
ghost use Rattle.gm_fields.specs.Fields.{number_in};
ghost use Rattle.gm_loader.specs.Fields.{node_number, whole_in, whole_value, flag_in, value_in};
ghost use Rattle.gm_loader.specs.Tables.{IsWholeType, clipped};

use crate::faults::LineFault;
use gm_fields::number_in;
use gm_value::{VType, Value};

// The greatest node number.
const TOP_NUMBER: u64 = 9_223_372_036_854_775_807;

// The node number that a field spells.
pub fn node_number(field: &[u8]) -> Result<u64, LineFault>
    ensures { result ≡ node_number (number_in field.now) }
{
    match number_in(field) {
        None => Err(LineFault::BadLine),
        Some(number) => {
            if number <= TOP_NUMBER {
                Ok(number)
            } else {
                Err(LineFault::OutOfRange)
            }
        }
    }
}

/// The first byte of a field, or 0.
pub fn first_byte(field: &[u8]) -> u8
    ensures { result ≡ slice_index field.now 0 }
{
    match field {
        [first, ..] => *first,
        [] => 0,
    }
}

/// The whole number that a field spells, if it spells one; a number past 64 bits is brought down to the greatest of these.
pub fn whole_in(field: &[u8]) -> Option<i128>
    ensures { result ≡ option_map clipped (whole_in field.now) }
{
    if first_byte(field) == b'-' {
        match number_in(&field[1..]) {
            Some(number) => Some(-i128::from(number)),
            None => None,
        }
    } else {
        match number_in(field) {
            Some(number) => Some(i128::from(number)),
            None => None,
        }
    }
}

// The value of a type of whole numbers that a field spells.
fn whole_value(vtype: VType, field: &[u8]) -> Result<Value, LineFault>
    requires { IsWholeType vtype }
    ensures { result ≡ whole_value vtype (whole_in field.now) }
{
    match whole_in(field) {
        None => Err(LineFault::BadLine),
        Some(number) => match vtype.checked(number) {
            Ok(value) => Ok(value),
            Err(_) => Err(LineFault::OutOfRange),
        },
    }
}

// Whether a field is a word.
pub fn is_word(field: &[u8], word: &[u8]) -> bool
    ensures { result ≡ bytes_eq field.now word.now }
{
    field == word
}

/// The truth value that a field spells.
pub fn flag_in(field: &[u8]) -> Option<bool>
    ensures { result ≡ flag_in field.now }
{
    if is_word(field, b"0") || is_word(field, b"false") || is_word(field, b"False") {
        return Some(false);
    }
    if is_word(field, b"1") || is_word(field, b"true") || is_word(field, b"True") {
        return Some(true);
    }
    None
}

// The value of a type that a field spells.
pub fn value_in(vtype: VType, field: &[u8]) -> Result<Value, LineFault>
    ensures { result ≡ value_in vtype field.now }
{
    match vtype {
        VType::I32 => whole_value(VType::I32, field),
        VType::I64 => whole_value(VType::I64, field),
        VType::Flag => match flag_in(field) {
            Some(flag) => Ok(Value::Flag(flag)),
            None => Err(LineFault::BadLine),
        },
        VType::Node => Err(LineFault::BadLine),
    }
}
