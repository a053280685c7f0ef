//! The numbers and constants that words spell.

ghost use Rattle.std.specs.Prelude.{◌≡◌, ◌==◌, option_map, min, slice_index};
ghost use Rattle.gm_image_text.specs.Numbers.{has_leading_zero as has_leading_zero_lem, whole_in as whole_in_lem, index_in as index_in_lem, signed_in as signed_in_lem, clipped, value_in as value_in_lem, number_value as number_value_lem, IsWholeType};
ghost use Rattle.gm_image_text.specs.Tables.{row_in, flags};
ghost use Rattle.gm_image_text.specs.Giving.{GivesLine};

use crate::faults::LineStop;
use crate::heads::FLAGS;
use crate::tables::{known, same};
use gm_fields::number_in;
use gm_value::{VType, Value};

// Whether the word has a zero in front of something.
fn has_leading_zero(word: &[u8]) -> bool
    ensures { result ≡ has_leading_zero_lem word.now }
{
    match word {
        [first, _, ..] => *first == b'0',
        _ => false,
    }
}

// The number that a word spells in decimal, without a leading zero; one past the greatest of 64 bits is brought
// down to that.
fn whole_in(word: &[u8]) -> Option<u64>
    ensures { result ≡ option_map (min 18446744073709551615) (whole_in_lem word.now) }
{
    if has_leading_zero(word) {
        return None;
    }
    number_in(word)
}

// The index or count that a word spells.
pub fn index_in(word: &[u8]) -> Result<u32, LineStop>
    ensures { GivesLine (λ x. x) result (index_in_lem word.now) }
{
    match whole_in(word) {
        None => Err(LineStop::Bad),
        Some(number) => {
            if number <= 4_294_967_295 {
                Ok(number as u32)
            } else {
                Err(LineStop::Bad)
            }
        }
    }
}

// The first byte of a word, or 0.
fn first_byte(word: &[u8]) -> u8
    ensures { result ≡ slice_index word.now 0 }
{
    match word {
        [first, ..] => *first,
        [] => 0,
    }
}

// The number with its sign that a word spells; far ones are brought near.
fn signed_in(word: &[u8]) -> Option<i128>
    ensures { result ≡ option_map clipped (signed_in_lem word.now) }
{
    if first_byte(word) == b'-' {
        match whole_in(&word[1..]) {
            None => None,
            Some(number) => {
                if number == 0 {
                    None
                } else {
                    Some(-i128::from(number))
                }
            }
        }
    } else {
        match whole_in(word) {
            None => None,
            Some(number) => Some(i128::from(number)),
        }
    }
}

// The number of a type of whole numbers that a word spells.
fn number_value(vtype: VType, word: &[u8]) -> Result<Value, LineStop>
    requires { IsWholeType vtype }
    ensures { GivesLine (λ x. x) result (number_value_lem vtype word.now) }
{
    match signed_in(word) {
        None => Err(LineStop::Bad),
        Some(number) => match vtype.checked(number) {
            Ok(value) => Ok(value),
            Err(_) => Err(LineStop::Bad),
        },
    }
}

// The truth value that a word spells.
#[tactic(auto, unfolding(crate::specs::Tables::flags))]
fn flag_in(word: &[u8]) -> Result<bool, LineStop>
    ensures { GivesLine (λ x. x) result (row_in flags word.now) }
{
    known(&FLAGS, word)
}

// The constant of a type that a word spells.
pub fn value_in(vtype: VType, word: &[u8]) -> Result<Value, LineStop>
    ensures { GivesLine (λ x. x) result (value_in_lem vtype word.now) }
{
    match vtype {
        VType::I32 => number_value(VType::I32, word),
        VType::I64 => number_value(VType::I64, word),
        VType::Flag => {
            let flag = flag_in(word)?;
            Ok(Value::Flag(flag))
        }
        VType::Node => {
            if same(word, b"NIL") {
                Ok(Value::At(None))
            } else {
                Err(LineStop::Bad)
            }
        }
    }
}
