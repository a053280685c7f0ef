//! From a text to its tokens.

ghost use Rattle.std.specs.Prelude.{◌≡◌, ◌⊎◌, ◌<◌, ◌≤◌, ◌↔◌, true, false, length, nat_eq, codes, slice_index, IsTrue, IfOk, IfErr};
ghost use Rattle.std.specs.List.{AllPass, starts_with};
ghost use Rattle.gm_token.specs.Limits.{greatest_number, longest_text};
ghost use Rattle.gm_token.specs.declared.words.Word.TheVariants.{Number};
ghost use Rattle.gm_token.specs.Bytes.{is_blank as is_blank_lem, is_digit};
ghost use Rattle.gm_token.specs.Spellings.{decimal_value};
ghost use Rattle.gm_token.specs.Scanning.{BreaksAtFront, IsScanOf, IsRefusalOf, IsStopOf};
ghost use Rattle.gm_token.specs.Tokens.{Listing};
ghost use Rattle.gm_token.specs.Parts.{IsPart};

use crate::bytes::is_blank;
use crate::limits::MAX_TEXT;
use crate::numbers::number_value;
use crate::parts::{comment_end, line_run, token};
use crate::passes::{past, place_at};
use crate::scanned::{Row, Tokens};
use crate::words::Word;
use gm_base::{Place, Refusal, Rule, Stop};
use std::alloc::Global;

/// What stands at the front of a text, and how many bytes it has.
enum Part {
    /// A blank or a comment.
    Gap(usize),
    /// A token with this word.
    Token(Word, usize),
}

// The comment at the front, where a `/*` stands.
fn block_comment(text: &[u8]) -> Result<Part, Rule>
    requires { starts_with nat_eq text.now (codes "/*") ≡ true }
    ensures part { IfOk result (λ part. IsPart text.now part) }
    ensures broken { IfErr result (λ rule. BreaksAtFront rule text.now) }
{
    match comment_end(&text[2..]) {
        Some(length) => Ok(Part::Gap(2 + length)),
        None => Err(Rule::OpenComment),
    }
}

// Whether a token is a number above the limit.
fn is_too_large(word: Word, bytes: &[u8]) -> bool
    requires { word ≡ Number → AllPass is_digit bytes.now }
    ensures { IsTrue result ↔ ((word ≡ Number) × (greatest_number < decimal_value bytes.now)) }
{
    match word {
        Word::Number => number_value(bytes).is_none(),
        _ => false,
    }
}

// The token at the front, where no gap stands and no comment begins.
fn token_part(text: &[u8]) -> Result<Part, Rule>
    requires some_byte { 0 < length text.now }
    requires no_blank { is_blank_lem (slice_index text.now 0) ≡ false }
    requires no_line { starts_with nat_eq text.now (codes "//") ≡ false }
    requires no_block { starts_with nat_eq text.now (codes "/*") ≡ false }
    ensures part { IfOk result (λ part. IsPart text.now part) }
    ensures broken { IfErr result (λ rule. BreaksAtFront rule text.now) }
{
    match token(text) {
        Some((word, length)) => {
            if is_too_large(word, &text[..length]) {
                Err(Rule::NumberTooLarge)
            } else {
                Ok(Part::Token(word, length))
            }
        }
        None => Err(Rule::BadByte),
    }
}

// The blank, comment or token at the front, or the rule that is broken there.
fn front_part(text: &[u8]) -> Result<Part, Rule>
    requires { 0 < length text.now }
    ensures part { IfOk result (λ part. IsPart text.now part) }
    ensures broken { IfErr result (λ rule. BreaksAtFront rule text.now) }
{
    if is_blank(text[0]) {
        return Ok(Part::Gap(1));
    }
    if text.starts_with(b"//") {
        return Ok(Part::Gap(2 + line_run(&text[2..])));
    }
    if text.starts_with(b"/*") {
        return block_comment(text);
    }
    token_part(text)
}

// The tokens of a text within the limit.
fn scan_within(alloc: Global, text: &[u8]) -> Result<Tokens<'_>, Stop>
    requires { length text.now ≤ longest_text }
    ensures tokens { IfOk result (λ tokens. IsScanOf text.now tokens) }
    ensures stop { IfErr result (λ stop. IsStopOf text.now stop) }
{
    let mut rows = Vec::new(alloc);
    let mut at = 0;
    let mut place = Place { line: 1, col: 1 };
    'text: while at < text.len() {
        match front_part(&text[at..]) {
            Ok(Part::Gap(length)) => {
                place = past(place, &text[at..at + length]);
                at += length;
            }
            Ok(Part::Token(word, length)) => {
                rows.push(Row {
                    word,
                    offset: at as u32,
                    length: length as u32,
                    place,
                })?;
                place = past(place, &text[at..at + length]);
                at += length;
            }
            Err(rule) => return Err(Stop::Refused(Refusal { rule, place })),
        }
    }
    Ok(Tokens {
        text,
        rows,
        end: place,
    })
}

/// The tokens of a text of at most `MAX_TEXT` bytes. It is refused with `TextTooLong` at its first byte past that
/// limit; else at the first place where it is not made of tokens, blanks and comments: `BadByte` at a byte that
/// begins none of these, `NumberTooLarge` at the first digit of a number above `MAX_NUMBER`, `OpenComment` at a
/// `/*` that no `*/` ends.
pub fn scan(alloc: Global, text: &[u8]) -> Result<Tokens<'_>, Stop>
    ensures tokens { IfOk result (λ tokens. IsScanOf text.now tokens) }
    ensures stop { IfErr result (λ stop. IsStopOf text.now stop) }

    // The same the other way round: a text has one answer, and want of memory is the only other one.
    ensures accepted { (it : Listing) → IsScanOf text.now it → (result ≡ Ok it) ⊎ (result ≡ Err Stop.NoMemory) }
    ensures refused { (it : Refusal) → IsRefusalOf text.now it → (result ≡ Err (Stop.Refused it)) ⊎ (result ≡ Err Stop.NoMemory) }
{
    if text.len() > MAX_TEXT {
        return Err(Stop::Refused(Refusal {
            rule: Rule::TextTooLong,
            place: place_at(text, MAX_TEXT),
        }));
    }
    scan_within(alloc, text)
}
