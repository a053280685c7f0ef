//! How the values of inputs are written.

ghost use Rattle.std.specs.Prelude.{◌≡◌};
ghost use Rattle.gm_value.specs.declared.values.VType.TheVariants as vtype;
ghost use Rattle.gm_words.specs.Arguments.{flag_number, is_digits, node_number, spelled, whole_in, without_sign};

use crate::values::all_digits;
use gm_value::{VType, Value};

/// What the text of an input spells: a value, or the number of a node.
#[derive(Clone, Copy, Debug, PartialEq, Eq)]
pub enum Spelling {
    Ready(Value),
    Number(u64),
}

// Whether the text is digits, one at least.
fn are_digits(text: &str) -> bool
    ensures { result ≡ is_digits text.now }
{
    1 <= text.len() && all_digits(text.as_bytes())
}

// What stands after a first `-`, or all where none stands first.
fn unsigned_part(text: &str) -> &str
    ensures { result.now ≡ without_sign text.now }
{
    text.strip_prefix("-").unwrap_or(text)
}

// The whole number of 64 bits that digits after an optional `-` write.
fn read_long(text: &str) -> Option<i64>
    ensures { result ≡ whole_in vtype.I64 text.now }
{
    if !are_digits(unsigned_part(text)) {
        return None;
    }
    text.parse::<i64>().ok()
}

// The whole number of 32 bits that digits after an optional `-` write.
fn read_int(text: &str) -> Option<i32>
    ensures { result ≡ whole_in vtype.I32 text.now }
{
    i32::try_from(read_long(text)?).ok()
}

fn read_flag(text: &str) -> Option<bool>
    ensures { result ≡ flag_number text.now }
{
    match text {
        "1" | "true" | "True" => Some(true),
        "0" | "false" | "False" => Some(false),
        _ => None,
    }
}

// The number of a node that digits write.
fn read_node_number(text: &str) -> Option<u64>
    ensures { result ≡ node_number text.now }
{
    if !are_digits(text) {
        return None;
    }
    let Ok(number) = text.parse::<u64>() else {
        return None;
    };
    if number <= 9223372036854775807 {
        Some(number)
    } else {
        None
    }
}

/// What a text of a type spells, where it spells anything.
pub fn read_spelling(vtype: VType, text: &str) -> Option<Spelling>
    ensures { result ≡ spelled vtype text.now }
{
    match vtype {
        VType::I32 => Some(Spelling::Ready(Value::I32(read_int(text)?))),
        VType::I64 => Some(Spelling::Ready(Value::I64(read_long(text)?))),
        VType::Flag => Some(Spelling::Ready(Value::Flag(read_flag(text)?))),
        VType::Node => {
            if text == "NIL" {
                return Some(Spelling::Ready(Value::At(None)));
            }
            Some(Spelling::Number(read_node_number(text)?))
        }
    }
}
