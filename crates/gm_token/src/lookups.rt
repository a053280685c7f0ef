//! Looking words up in their tables.

ghost use Rattle.std.specs.Prelude.{◌≡◌, ◌&&◌, map, length, drop, nat_eq, bytes_eq};
ghost use Rattle.std.specs.List.{starts_with};
ghost use Rattle.gm_token.specs.Words.{symbols, word_in as word_in_lem, name_word as name_word_lem};
ghost use Rattle.gm_token.specs.Spellings.{begins_with as begins_with_lem, may_precede as may_precede_lem};
ghost use Rattle.gm_token.specs.Fronts.{first_symbol};

use crate::words::{NAMES, SYMBOLS, Word};

// The two hold the same bytes.
fn same(a: &[u8], b: &[u8]) -> bool
    ensures { result ≡ bytes_eq a.now b.now }
{
    *a == *b
}

// The word that the table has beside this spelling.
fn word_in(table: &[(&[u8], Word)], spelling: &[u8]) -> Option<Word>
    ensures { result ≡ word_in_lem (map (λ row. (row.0.now, row.1)) table.now) spelling.now }
{
    for (known, word) in table {
        if same(known, spelling) {
            return Some(*word);
        }
    }
    None
}

/// The word of a name.
#[tactic(auto, unfolding(crate::specs::Words::names))]
pub fn name_word(name: &[u8]) -> Word
    ensures { result ≡ name_word_lem name.now }
{
    word_in(&NAMES, name).unwrap_or(Word::Name)
}

// Whether the bytes begin with this one.
fn begins_with(bytes: &[u8], wanted: u8) -> bool
    ensures { result ≡ begins_with_lem wanted bytes.now }
{
    match bytes {
        [] => false,
        [first, ..] => *first == wanted,
    }
}

// Whether a symbol may stand before these bytes.
fn may_precede(word: Word, rest: &[u8]) -> bool
    ensures { result ≡ may_precede_lem word rest.now }
{
    match word {
        Word::MinAssign => !begins_with(rest, b'='),
        Word::MaxAssign => !begins_with(rest, b'='),
        Word::Slash => !(begins_with(rest, b'/') || begins_with(rest, b'*')),
        _ => true,
    }
}

// Whether the text begins with this symbol, and the symbol may stand there.
fn begins_symbol(text: &[u8], spelling: &[u8], word: Word) -> bool
    ensures { result ≡ (starts_with nat_eq text.now spelling.now && may_precede_lem word (drop (length spelling.now) text.now)) }
{
    text.starts_with(spelling) && may_precede(word, &text[spelling.len()..])
}

// The first symbol of the table that may stand at the front, and its length.
fn symbol_in(table: &[(&[u8], Word)], text: &[u8]) -> Option<(Word, usize)>
    ensures { result ≡ first_symbol (map (λ row. (row.0.now, row.1)) table.now) text.now }
{
    for (spelling, word) in table {
        if begins_symbol(text, spelling, *word) {
            return Some((*word, spelling.len()));
        }
    }
    None
}

/// The first symbol that may stand at the front, and its length.
#[tactic(auto, unfolding(crate::specs::Words::symbols))]
pub fn symbol(text: &[u8]) -> Option<(Word, usize)>
    ensures { result ≡ first_symbol symbols text.now }
{
    symbol_in(&SYMBOLS, text)
}
