//! The lines of a text, and the words of a line.

ghost use Rattle.std.specs.Prelude.{◌≡◌, ◌<◌, ◌==◌, position, length, option_map, IfSome};
ghost use Rattle.gm_image_text.specs.Lines.{lines_of, words_of};
ghost use Rattle.gm_image_text.specs.Reading.{cut_at, next_at, ended_at, fixed_at, words_left};
ghost use Rattle.gm_image_text.specs.Giving.{GivesLine};

use crate::faults::LineStop;
use crate::tables::same;

// What is left of a line, at the beginning of a word; nothing behind its last word.
pub type Words<'a> = Option<&'a [u8]>;

// Where the first LF stands.
fn line_end(text: &[u8]) -> Option<usize>
    ensures { result ≡ position (λ b. b == 10) text.now }
{
    text.iter().position(|b| *b == b'\n')
}

// Where the first space stands.
fn word_end(text: &[u8]) -> Option<usize>
    ensures { result ≡ position (λ b. b == 32) text.now }
{
    text.iter().position(|b| *b == b' ')
}

// What stands before the end of the first line, and the text behind that line, if the line has its end.
pub fn cut_line<'a>(text: &'a [u8]) -> Option<(&'a [u8], &'a [u8])>
    ensures cut { option_map (λ cut. (words_of cut.0.now, lines_of cut.1.now)) result ≡ cut_at (lines_of text.now) }
    ensures shorter { IfSome result (λ cut. length cut.1.now < length text.now) }
{
    match line_end(text) {
        None => None,
        Some(end) => Some((&text[..end], &text[end + 1..])),
    }
}

// How many lines a text has; the last may lack its end.
pub fn count_lines(text: &[u8]) -> usize
    ensures { result ≡ length (lines_of text.now) }
{
    let mut rest = text;
    let mut count = 0;
    'lines: while let Some((_, behind)) = cut_line(rest) {
        count += 1;
        rest = behind;
    }
    if rest.is_empty() { count } else { count + 1 }
}

// The next word of a line, and what is left behind it.
pub fn next_word<'a>(words: Words<'a>) -> Result<(&'a [u8], Words<'a>), LineStop>
    ensures { GivesLine (λ x. (x.0.now, words_left x.1)) result (next_at (words_left words.entry)) }
{
    let Some(text) = words else {
        return Err(LineStop::Bad);
    };
    match word_end(text) {
        None => Ok((text, None)),
        Some(end) => Ok((&text[..end], Some(&text[end + 1..]))),
    }
}

// Nothing, where the line has no more words.
pub fn ended(words: Words) -> Result<(), LineStop>
    ensures { GivesLine (λ x. tt) result (ended_at (words_left words.entry)) }
{
    match words {
        None => Ok(()),
        Some(_) => Err(LineStop::Bad),
    }
}

// What is left behind the next word, where that is the given one.
pub fn expect<'a>(word: &[u8], words: Words<'a>) -> Result<Words<'a>, LineStop>
    ensures { GivesLine (λ x. words_left x) result (fixed_at word.now (words_left words.entry)) }
{
    let (next, rest) = next_word(words)?;
    if same(next, word) {
        Ok(rest)
    } else {
        Err(LineStop::Bad)
    }
}
