//! The values of options, and the words that assign.

ghost use Rattle.std.specs.Prelude.{◌≡◌, ◌≤◌, IfSome};
ghost use Rattle.std.specs.List.{list_all};
ghost use Rattle.std.specs.Char.{is_ascii_digit};
ghost use Rattle.gm_words.specs.Jobs.{is_assignment, format_of_text, is_number, number_from, owner_of_text};

use crate::jobs::Format;
use gm_partition::Owner;

/// Whether all bytes of a text are decimal digits.
pub fn all_digits(text: &[u8]) -> bool
    ensures { result ≡ list_all is_ascii_digit text.now }
{
    text.iter().all(|b| b.is_ascii_digit())
}

// Whether the text is one to nineteen decimal digits.
fn is_decimal(text: &str) -> bool
    ensures { result ≡ is_number text.now }
{
    1 <= text.len() && text.len() <= 19 && all_digits(text.as_bytes())
}

/// The number that one to nineteen decimal digits write, where it lies between the bounds.
pub fn read_number(text: &str, least: u64, most: u64) -> Option<u64>
    ensures number { result ≡ number_from least most text.now }
    ensures within { IfSome result (λ n. n ≤ most) }
{
    if !is_decimal(text) {
        return None;
    }
    let Ok(number) = text.parse::<u64>() else {
        return None;
    };
    if least <= number && number <= most {
        Some(number)
    } else {
        None
    }
}

/// How a text says that nodes are dealt out: `mod`, `block` or `spread:S`.
pub fn read_owner(text: &str) -> Option<Owner>
    ensures { result ≡ owner_of_text text.now }
{
    if text == "mod" {
        return Some(Owner::Mod);
    }
    if text == "block" {
        return Some(Owner::Block);
    }
    let shift = read_number(text.strip_prefix("spread:")?, 0, 4294967295)?;
    Some(Owner::Spread(shift as u32))
}

/// How a text says what a graph file holds: `edges` or `mtx`.
pub fn read_format(text: &str) -> Option<Format>
    ensures { result ≡ format_of_text text.now }
{
    match text {
        "edges" => Some(Format::Edges),
        "mtx" => Some(Format::Mtx),
        _ => None,
    }
}

// Whether a `=` stands after at least one byte.
fn is_assignment_word(word: &str) -> bool
    ensures { result ≡ is_assignment word.now }
{
    word.as_bytes().iter().skip(1).any(|b| *b == b'=')
}

/// Whether in each word a `=` stands after at least one byte.
pub fn are_assignments(words: &[&str]) -> bool
    ensures { result ≡ list_all (λ w. is_assignment w.now) words.now }
{
    words.iter().all(|word| is_assignment_word(*word))
}
