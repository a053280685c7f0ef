//! Places, reached byte by byte.

ghost use Rattle.std.specs.Prelude.{◌≡◌, ◌+◌, ◌<◌, ◌≤◌, ◌^◌, length, take};
ghost use Rattle.gm_token.specs.Places.{start, past_byte as past_byte_lem, past as past_lem};

use gm_base::Place;

// The place after one byte.
fn past_byte(at: Place, byte: u8) -> Place
    requires line { at.line + 1 < 2 ^ 32 }
    requires col { at.col + 1 < 2 ^ 32 }
    ensures place { result ≡ past_byte_lem at byte }
    ensures line { result.line ≤ at.line + 1 }
    ensures col { result.col ≤ at.col + 1 }
{
    if byte == b'\n' {
        Place {
            line: at.line + 1,
            col: 1,
        }
    } else {
        Place {
            line: at.line,
            col: at.col + 1,
        }
    }
}

/// The place after some bytes.
pub fn past(at: Place, bytes: &[u8]) -> Place
    requires line { at.line + length bytes.now < 2 ^ 32 }
    requires col { at.col + length bytes.now < 2 ^ 32 }
    ensures place { result ≡ past_lem at bytes.now }
    ensures line { result.line ≤ at.line + length bytes.now }
    ensures col { result.col ≤ at.col + length bytes.now }
{
    let mut place = at;
    for byte in bytes {
        place = past_byte(place, *byte);
    }
    place
}

/// The place of the byte at an index, or of the end of the text.
pub fn place_at(text: &[u8], at: usize) -> Place
    requires in_text { at ≤ length text.now }
    requires small { at < 2 ^ 31 }
    ensures { result ≡ past_lem start (take at text.now) }
{
    past(Place { line: 1, col: 1 }, &text[..at])
}
