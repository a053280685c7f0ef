//! Places in a text.

ghost use Rattle.std.specs.Prelude.{◌≡◌, Some};
ghost use Rattle.gm_base.specs.Places.{place_lt, place_text};

use std::fmt;

/// A place in a text. Both numbers count from 1, and `col` counts bytes. The end of a text is the place after
/// its last byte. Places are ordered by line, and within a line by column.
#[derive(Clone, Copy, Debug, PartialEq, Eq, PartialOrd, Ord, Hash)]
pub struct Place {
    pub line: u32,
    pub col: u32,
}

impl Place {
    /// Whether this place stands before another in the text.
    pub fn comes_before(self, other: Place) -> bool
        ensures { result ≡ place_lt self other }
    {
        self.line < other.line || (self.line == other.line && self.col < other.col)
    }
}

/// `LINE:COL`, both in decimal.
impl fmt::Display for Place {
    ghost output = { λ at. Some (place_text at) };

    fn fmt<W: fmt::Write>(&self, f: &mut fmt::Formatter<W>) -> fmt::Result {
        let line = self.line;
        let col = self.col;
        write!(f, "{line}:{col}")
    }
}
