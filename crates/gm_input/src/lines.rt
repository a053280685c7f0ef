//! The search for the line `%%`, byte by byte, over pieces of any size.

ghost use Rattle.std.specs.Prelude.{◌≡◌, ◌≤◌, length, take};
ghost use Rattle.gm_input.specs.Lines.{AreRead, IsFound, held, held_at_end, line_after, line_with};

/// How far the line that is being read may still become the line `%%`.
#[derive(Clone, Copy, Debug, PartialEq, Eq)]
pub enum LineSoFar {
    /// It has no byte yet.
    Empty,
    /// It is `%`.
    OneSign,
    /// It is `%%`.
    TwoSigns,
    /// It is `%%` and a CR.
    SignsAndReturn,
    /// It is any other.
    Other,
}

// A line after a byte that no `%%` has there.
fn line_after(byte: u8) -> LineSoFar
    ensures { result ≡ line_after byte }
{
    if byte == b'\n' {
        LineSoFar::Empty
    } else {
        LineSoFar::Other
    }
}

impl LineSoFar {
    // The line with one byte more; none where that byte ends the line `%%`.
    fn with(self, byte: u8) -> Option<LineSoFar>
        ensures { result ≡ line_with self byte }
    {
        match self {
            LineSoFar::Empty if byte == b'%' => Some(LineSoFar::OneSign),
            LineSoFar::OneSign if byte == b'%' => Some(LineSoFar::TwoSigns),
            LineSoFar::TwoSigns if byte == b'\r' => Some(LineSoFar::SignsAndReturn),
            LineSoFar::TwoSigns | LineSoFar::SignsAndReturn if byte == b'\n' => None,
            _ => Some(line_after(byte)),
        }
    }

    /// How many bytes of the line are held back, since it may still become `%%`.
    pub fn held(self) -> usize
        ensures { result ≡ length (held self) }
    {
        match self {
            LineSoFar::Empty | LineSoFar::Other => 0,
            LineSoFar::OneSign => 1,
            LineSoFar::TwoSigns => 2,
            LineSoFar::SignsAndReturn => 3,
        }
    }

    /// How many bytes the line has that is `%%`, where the text ends there; 0 for any other line.
    pub fn held_at_end(self) -> usize
        ensures { result ≡ length (held_at_end self) }
    {
        match self {
            LineSoFar::Empty | LineSoFar::OneSign | LineSoFar::Other => 0,
            LineSoFar::TwoSigns => 2,
            LineSoFar::SignsAndReturn => 3,
        }
    }
}

/// What a search found.
#[derive(Clone, Copy, Debug, PartialEq, Eq)]
pub enum Sought {
    /// The first line `%%`: the places of its first byte and behind its LF.
    Mark { start: usize, end: usize },
    /// None, and the last line is this one so far.
    Open(LineSoFar),
}

/// Searches some bytes for the first line `%%` that a LF ends. The first `before` of them were searched, with this
/// line at their end; they are not looked at again.
pub fn seek(bytes: &[u8], before: usize, line: LineSoFar) -> Sought
    requires within { before ≤ length bytes.now }
    requires searched { AreRead (take before bytes.now) line }
    ensures { IsFound bytes.now before result }
{
    let mut line = line;
    for at in before..bytes.len() {
        match line.with(bytes[at]) {
            Some(longer) => line = longer,
            None => {
                return Sought::Mark {
                    start: at - line.held(),
                    end: at + 1,
                };
            }
        }
    }
    Sought::Open(line)
}
