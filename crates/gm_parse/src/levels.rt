//! The levels of operators between two operands.

ghost use Rattle.std.specs.Prelude.{◌≡◌, ◌↔◌, IsTrue};

/// The levels of operators between two operands, from the loosest.
#[derive(Clone, Copy, Debug, PartialEq, Eq)]
pub enum Level {
    Or,
    And,
    Equality,
    Relation,
    Sum,
    Product,
}

impl Level {
    ghost use Rattle.gm_parse.specs.Levels.{tighter_of};

    /// The next tighter level, if there is one.
    pub fn tighter(self) -> Option<Level>
        ensures { result ≡ tighter_of self }
    {
        match self {
            Level::Or => Some(Level::And),
            Level::And => Some(Level::Equality),
            Level::Equality => Some(Level::Relation),
            Level::Relation => Some(Level::Sum),
            Level::Sum => Some(Level::Product),
            Level::Product => None,
        }
    }

    /// Whether it is the level of comparisons, which do not go on.
    pub fn is_relation(self) -> bool
        ensures { IsTrue result ↔ (self ≡ Level.Relation) }
    {
        matches!(self, Level::Relation)
    }
}
