//! The lines of a text, the fields of a line, and the numbers that fields spell.
#![tactic(auto)]

ghost use Rattle.std.specs.Prelude.{◌≡◌, ◌<◌, ◌==◌, ◌∷◌, [], not, length, min, option_map, position, MatchOption};
ghost use Rattle.std.specs.Str.Lines.{lines, strip_carriage_return};
ghost use Rattle.gm_fields.specs.Fields.{is_blank, fields, number_in as number_in_lem, StartsField};

// Where the first newline stands.
fn newline_in(text: &[u8]) -> Option<usize>
    ensures { result ≡ position (λ b. b == 10) text.now }
{
    text.iter().position(|b| *b == b'\n')
}

// Where the first byte that is no blank stands.
fn field_start(text: &[u8]) -> Option<usize>
    ensures { result ≡ position (λ b. not (is_blank b)) text.now }
{
    text.iter().position(|b| !(*b == b' ' || *b == b'\t'))
}

// Where the first blank stands.
fn field_end(text: &[u8]) -> Option<usize>
    ensures { result ≡ position is_blank text.now }
{
    text.iter().position(|b| *b == b' ' || *b == b'\t')
}

// A line without the carriage return at its end, if it has one.
fn without_return(line: &[u8]) -> &[u8]
    ensures { result.now ≡ strip_carriage_return line.now }
{
    match line {
        [rest @ .., b'\r'] => rest,
        _ => line,
    }
}

/// The first line of a text that is not empty, without its end, and the text behind that end. A line ends with LF
/// or CR LF; the last may lack its end.
pub fn cut_line<'a>(text: &'a [u8]) -> (&'a [u8], &'a [u8])
    requires { 0 < length text.now }
    ensures line { lines text.now ≡ result.0.now ∷ lines result.1.now }
    ensures shorter { length result.1.now < length text.now }
{
    match newline_in(text) {
        None => (text, &text[text.len()..]),
        Some(end) => (without_return(&text[..end]), &text[end + 1..]),
    }
}

// The text from the first byte of its first field on, if it has a field.
fn skip_blanks<'a>(text: &'a [u8]) -> Option<&'a [u8]>
    ensures { MatchOption result (fields text.now ≡ []) (λ rest. (fields rest.now ≡ fields text.now) × StartsField rest.now) }
{
    match field_start(text) {
        None => None,
        Some(start) => Some(&text[start..]),
    }
}

/// The first field of a line and what stands behind it, if there is a field. Spaces and tabs part fields.
pub fn cut_field<'a>(line: &'a [u8]) -> Option<(&'a [u8], &'a [u8])>
    ensures { MatchOption result (fields line.now ≡ []) (λ cut. fields line.now ≡ cut.0.now ∷ fields cut.1.now) }
{
    let text = skip_blanks(line)?;
    match field_end(text) {
        None => Some((text, &text[text.len()..])),
        Some(end) => Some((&text[..end], &text[end..])),
    }
}

/// The number that a field spells, if it is one or more decimal digits; a number past the greatest of 64 bits is
/// brought down to that.
pub fn number_in(field: &[u8]) -> Option<u64>
    ensures { result ≡ option_map (min 18446744073709551615) (number_in_lem field.now) }
{
    if field.is_empty() {
        return None;
    }
    let mut number: u64 = 0;
    for b in field {
        if *b < b'0' || *b > b'9' {
            return None;
        }
        number = number
            .saturating_mul(10)
            .saturating_add(u64::from(*b - b'0'));
    }
    Some(number)
}
