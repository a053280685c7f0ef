//! The front of an edge line and the whole numbers of its values, read in one pass over their bytes. It knows only what is
//! of the plainest form; what it does not know is read field by field.

ghost use Rattle.std.specs.Prelude.{◌≡◌, ◌==◌, ◌||◌, ⊤, length, slice_index, MatchOption};
ghost use Rattle.gm_fields.specs.Fields.{is_blank};
ghost use Rattle.gm_loader.specs.Quick.{BeginsDigits, BeginsEdge, BeginsNumber, BeginsWhole, ends_field};

use crate::fields::first_byte;

// Numbers that may have a digit more are below this one.
const MOST_NUMBER: u64 = 900_000_000_000_000_000;

// A number that a text begins with, and where its digits end.
#[derive(Clone, Copy)]
pub struct Leading {
    pub number: u64,
    pub end: usize,
}

// The ends of an edge that a text begins with, and the text behind them.
#[derive(Clone, Copy)]
pub struct Ends<'a> {
    pub from: u64,
    pub to: u64,
    pub rest: &'a [u8],
}

// The number that the digits spell with which a text begins, and where they end, if there are at most 18 of them.
fn leading_digits(text: &[u8]) -> Option<Leading>
    ensures { MatchOption result ⊤ (λ leading. BeginsDigits text.now leading.number leading.end) }
{
    let mut number: u64 = 0;
    for end in 0..text.len() {
        let digit = text[end];
        if digit < b'0' || digit > b'9' {
            return Some(Leading { number, end });
        }
        if number >= MOST_NUMBER {
            return None;
        }
        number = 10 * number + u64::from(digit - b'0');
    }
    Some(Leading {
        number,
        end: text.len(),
    })
}

// The number that a text begins with, if it has at most 18 digits and the text goes on behind them.
fn leading_number(text: &[u8]) -> Option<Leading>
    ensures { MatchOption result ⊤ (λ leading. BeginsNumber text.now leading.number leading.end) }
{
    let digits = leading_digits(text)?;
    if digits.end == 0 || digits.end == text.len() {
        return None;
    }
    Some(digits)
}

// Whether a byte is a space or a tab.
fn is_blank(byte: u8) -> bool
    ensures { result ≡ is_blank byte }
{
    byte == b' ' || byte == b'\t'
}

// Whether a field that stands before some text ends there: the text begins with a blank or with the end of a line.
fn ends_field(text: &[u8]) -> bool
    ensures { result ≡ ends_field text.now }
{
    let first = first_byte(text);
    is_blank(first) || first == b'\n' || first == b'\r' && text.len() > 1 && text[1] == b'\n'
}

// The ends of an edge that a text begins with, if each has at most 18 digits, one blank parts them, and more text is
// behind them.
pub fn ends_of<'a>(text: &'a [u8]) -> Option<Ends<'a>>
    ensures { MatchOption result ⊤ (λ ends. BeginsEdge text.now ends.from ends.to ends.rest.now) }
{
    let from = leading_number(text)?;
    if !is_blank(text[from.end]) {
        return None;
    }
    let behind = &text[from.end + 1..];
    let to = leading_number(behind)?;
    let rest = &behind[to.end..];
    if !ends_field(rest) {
        return None;
    }
    Some(Ends {
        from: from.number,
        to: to.number,
        rest,
    })
}

// A whole number that the next field of a line is, and the line behind it.
#[derive(Clone, Copy)]
pub struct Whole<'a> {
    pub number: u64,
    pub rest: &'a [u8],
}

// Whether a field that stands before the rest of a line ends there: nothing is left, or a blank comes next.
fn ends_part(rest: &[u8]) -> bool
    ensures { result ≡ (length rest.now == 0 || is_blank (slice_index rest.now 0)) }
{
    rest.is_empty() || is_blank(rest[0])
}

// The whole number that the next field of a line is, if one blank stands before it, and it is at most 18 digits.
pub fn whole_of<'a>(line: &'a [u8]) -> Option<Whole<'a>>
    ensures { MatchOption result ⊤ (λ whole. BeginsWhole line.now whole.number whole.rest.now) }
{
    if !is_blank(first_byte(line)) {
        return None;
    }
    let text = &line[1..];
    let digits = leading_digits(text)?;
    if digits.end == 0 {
        return None;
    }
    let rest = &text[digits.end..];
    if !ends_part(rest) {
        return None;
    }
    Some(Whole {
        number: digits.number,
        rest,
    })
}
