//! The parts of a text: a blank, a comment or a token at its front.

ghost use Rattle.std.specs.Prelude.{◌<◌, IfSome, IfNone, MatchOption};
ghost use Rattle.gm_token.specs.Bytes.{goes_on_name as goes_on_name_lem, is_digit as is_digit_lem};
ghost use Rattle.gm_token.specs.Scanning.{HasCommentEnd};
ghost use Rattle.gm_token.specs.Fronts.{IsRun, is_no_lf, NoSymbolFront, IsLongestFront, NoFront, BeginsDigit, IsCommentEnd};

use crate::bytes::{begins_name, goes_on_name, is_digit};
use crate::lookups::{name_word, symbol};
use crate::words::Word;

// How many bytes from the front go on a name.
fn name_run(text: &[u8]) -> usize
    ensures { IsRun goes_on_name_lem text.now result }
{
    text.iter()
        .position(|byte| !goes_on_name(*byte))
        .unwrap_or(text.len())
}

// How many digits are at the front.
fn digit_run(text: &[u8]) -> usize
    ensures { IsRun is_digit_lem text.now result }
{
    text.iter()
        .position(|byte| !is_digit(*byte))
        .unwrap_or(text.len())
}

/// How many bytes are before the first LF.
pub fn line_run(text: &[u8]) -> usize
    ensures { IsRun is_no_lf text.now result }
{
    text.iter()
        .position(|byte| *byte == b'\n')
        .unwrap_or(text.len())
}

/// How many bytes there are up to the end of the first `*/`.
pub fn comment_end(text: &[u8]) -> Option<usize>
    ensures { MatchOption result (¬ HasCommentEnd text.now) (λ length. IsCommentEnd text.now length) }
{
    for at in 0..text.len() {
        if text[at..].starts_with(b"*/") {
            return Some(at + 2);
        }
    }
    None
}

// The longest number or real at the front, where a digit is.
fn number(text: &[u8]) -> (Word, usize)
    requires digit { BeginsDigit text.now }
    requires no_symbol { NoSymbolFront 0 text.now }
    ensures { (0 < result.1) × IsLongestFront result.0 result.1 text.now }
{
    let whole = digit_run(text);
    if whole < text.len() && text[whole] == b'.' {
        let part = digit_run(&text[whole + 1..]);
        if part > 0 {
            return (Word::Real, whole + 1 + part);
        }
    }
    (Word::Number, whole)
}

// The longest name, number or real at the front, where no symbol stands.
fn name_or_number(text: &[u8]) -> Option<(Word, usize)>
    requires { NoSymbolFront 0 text.now }
    ensures found { IfSome result (λ it. (0 < it.1) × IsLongestFront it.0 it.1 text.now) }
    ensures none { IfNone result (NoFront text.now) }
{
    let first = *text.first()?;
    if begins_name(first) {
        let length = name_run(text);
        return Some((name_word(&text[..length]), length));
    }
    if is_digit(first) {
        return Some(number(text));
    }
    None
}

/// The longest token at the front, if one stands there.
pub fn token(text: &[u8]) -> Option<(Word, usize)>
    ensures found { IfSome result (λ it. (0 < it.1) × IsLongestFront it.0 it.1 text.now) }
    ensures none { IfNone result (NoFront text.now) }
{
    match symbol(text) {
        Some((word, length)) => Some((word, length)),
        None => name_or_number(text),
    }
}
