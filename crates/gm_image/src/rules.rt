//! The rules of images.

ghost use Rattle.std.specs.Prelude.{◌≡◌, Some};
ghost use Rattle.gm_image.specs.RuleNames.{image_rule_text};

use std::fmt;

/// A rule that each sound image keeps.
#[derive(Clone, Copy, Debug, PartialEq, Eq)]
pub enum ImageRule {
    /// Every index is in range.
    I1,
    /// Types fit, and no expression is deeper than 1,024 levels.
    I2,
    /// `jump`, `test` and `loop` go forward to a line of the list.
    I3,
    /// `back` goes to the head of a loop above it, whose exit is below it.
    I4,
    /// The last master line is `end`, and no other is.
    I5,
    /// `skip` and `each` stay within their lists.
    I6,
    /// Each leaf of an expression stands where it may.
    I7,
    /// Fields are folded by one reduction, and combiners stand for their handlers.
    I8,
    /// In a block a global is put by one reduction.
    I9,
    /// Names are names and distinct, and the columns are the edge inputs.
    I10,
}

impl ImageRule {
    /// The rule's name, as it is printed.
    pub fn name(self) -> &'static str
        ensures { result.now ≡ image_rule_text self }
    {
        match self {
            ImageRule::I1 => "I1",
            ImageRule::I2 => "I2",
            ImageRule::I3 => "I3",
            ImageRule::I4 => "I4",
            ImageRule::I5 => "I5",
            ImageRule::I6 => "I6",
            ImageRule::I7 => "I7",
            ImageRule::I8 => "I8",
            ImageRule::I9 => "I9",
            ImageRule::I10 => "I10",
        }
    }
}

impl fmt::Display for ImageRule {
    ghost output = { λ rule. Some (image_rule_text rule) };

    fn fmt<W: fmt::Write>(&self, f: &mut fmt::Formatter<W>) -> fmt::Result {
        f.write_str(self.name())
    }
}

/// A broken rule, and the line of the image's text, from 1, in which it first shows.
#[derive(Clone, Copy, Debug, PartialEq, Eq)]
pub struct Broken {
    pub rule: ImageRule,
    pub line: u32,
}
