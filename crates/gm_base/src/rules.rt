//! The rules that a text may break, and refusals for breaking them.

ghost use Rattle.std.specs.Prelude.{◌≡◌, Some};
ghost use Rattle.gm_base.specs.declared.rules.Stop.TheVariants.{NoMemory};
ghost use Rattle.gm_base.specs.Rules.{rank_of, rule_text, refusal_lt, refusal_text, stop_text, lesser};

use crate::places::Place;
use crate::wants::NoMemory;
use std::alloc::{AllocError, AllocFailed};
use std::error::Error;
use std::fmt;

/// A rule that a text may break. The rules stand in the order in which they are judged at one place.
#[derive(Clone, Copy, Debug, PartialEq, Eq, Hash)]
pub enum Rule {
    /// A byte that begins no token.
    BadByte,
    /// A number above 9,223,372,036,854,775,807.
    NumberTooLarge,
    /// A comment that is not ended.
    OpenComment,
    /// A program text past its limit.
    TextTooLong,
    /// `Float` or `Double`.
    U1,
    /// `String`.
    U2,
    /// A collection.
    U3,
    /// `InDFS` or `InPost`.
    U4,
    /// `UGraph`.
    U5,
    /// `Avg`.
    U6,
    /// `Local`.
    U7,
    /// A real number.
    U8,
    /// A token with which the tokens so far begin no program.
    Syntax,
    /// A statement inside 64 others, or the 257th token of an expression.
    TooDeep,
    /// A name is not known.
    T1,
    /// A name is declared while it is known.
    T2,
    /// The inputs have not exactly one graph.
    T3,
    /// A type stands where it may not.
    T4,
    /// The name after a type is not the graph.
    T5,
    /// A range or a root of the wrong kind.
    T6,
    /// A property or method that its owner has not.
    T7,
    /// Operands do not fit.
    T8,
    /// A value does not fit its target.
    T9,
    /// A condition is not Bool.
    T10,
    /// A reduction assignment does not fit its target.
    T11,
    /// The target may not be assigned.
    T12,
    /// The name after `@` is no enclosing iterator.
    T13,
    /// A Return does not fit the result type.
    T14,
    /// A call does not fit its procedure.
    T15,
    /// A property is written by its owner and read through another node.
    R1,
    /// The target of a reduction is read or written in the same loop.
    R2,
    /// A target is reduced by two operations.
    R3,
    /// A property is written through another node.
    R4,
    /// A scalar is written in parallel code.
    R5,
    /// A property has deferred and other writes.
    R6,
    /// A loop in a sequential phase does not run over all nodes.
    C1,
    /// A loop in parallel code does not run over neighbours.
    C2,
    /// Loops are nested deeper than two.
    C3,
    /// A statement stands in the wrong phase.
    C4,
    /// A property of a node that no iterator names is read in parallel code.
    C5,
    /// A statement stands in an inner loop that may not.
    C6,
    /// An edge is read against the way of its message.
    C7,
    /// A range of a search is asked outside of it.
    C8,
    /// `ToEdge()` of something other than the inner iterator.
    C9,
    /// A call or a Return stands where it may not.
    C10,
    /// A procedure with its calls replaced is too large.
    TooLarge,
}

impl Rule {
    /// The rule's number in the order of the rules, from 0.
    pub fn rank(self) -> u8
        ensures { result ≡ rank_of self }
    {
        self as u8
    }

    /// The rule's name, as it is printed.
    pub fn name(self) -> &'static str
        ensures { result.now ≡ rule_text self }
    {
        match self {
            Rule::BadByte => "BadByte",
            Rule::NumberTooLarge => "NumberTooLarge",
            Rule::OpenComment => "OpenComment",
            Rule::TextTooLong => "TextTooLong",
            Rule::U1 => "U1",
            Rule::U2 => "U2",
            Rule::U3 => "U3",
            Rule::U4 => "U4",
            Rule::U5 => "U5",
            Rule::U6 => "U6",
            Rule::U7 => "U7",
            Rule::U8 => "U8",
            Rule::Syntax => "Syntax",
            Rule::TooDeep => "TooDeep",
            Rule::T1 => "T1",
            Rule::T2 => "T2",
            Rule::T3 => "T3",
            Rule::T4 => "T4",
            Rule::T5 => "T5",
            Rule::T6 => "T6",
            Rule::T7 => "T7",
            Rule::T8 => "T8",
            Rule::T9 => "T9",
            Rule::T10 => "T10",
            Rule::T11 => "T11",
            Rule::T12 => "T12",
            Rule::T13 => "T13",
            Rule::T14 => "T14",
            Rule::T15 => "T15",
            Rule::R1 => "R1",
            Rule::R2 => "R2",
            Rule::R3 => "R3",
            Rule::R4 => "R4",
            Rule::R5 => "R5",
            Rule::R6 => "R6",
            Rule::C1 => "C1",
            Rule::C2 => "C2",
            Rule::C3 => "C3",
            Rule::C4 => "C4",
            Rule::C5 => "C5",
            Rule::C6 => "C6",
            Rule::C7 => "C7",
            Rule::C8 => "C8",
            Rule::C9 => "C9",
            Rule::C10 => "C10",
            Rule::TooLarge => "TooLarge",
        }
    }
}

impl fmt::Display for Rule {
    ghost output = { λ rule. Some (rule_text rule) };

    fn fmt<W: fmt::Write>(&self, f: &mut fmt::Formatter<W>) -> fmt::Result {
        f.write_str(self.name())
    }
}

/// A broken rule, and where it is broken.
#[derive(Clone, Copy, Debug, PartialEq, Eq, Hash)]
pub struct Refusal {
    pub rule: Rule,
    pub place: Place,
}

impl Refusal {
    /// Whether this refusal comes before another: by place, and at one place by rule.
    pub fn comes_before(self, other: Refusal) -> bool
        ensures { result ≡ refusal_lt self other }
    {
        self.place.comes_before(other.place)
            || (self.place == other.place && self.rule.rank() < other.rule.rank())
    }

    /// Notes one more broken rule: keeps the lesser of the least so far and this one.
    pub fn note(self, least: &mut Option<Refusal>)
        ensures { least.new ≡ lesser least.old self }
    {
        match *least {
            None => *least = Some(self),
            Some(best) => {
                if self.comes_before(best) {
                    *least = Some(self);
                }
            }
        }
    }
}

/// `refused RULE at LINE:COL`.
impl fmt::Display for Refusal {
    ghost output = { λ refusal. Some (refusal_text refusal) };

    fn fmt<W: fmt::Write>(&self, f: &mut fmt::Formatter<W>) -> fmt::Result {
        let rule = self.rule;
        let place = self.place;
        write!(f, "refused {rule} at {place}")
    }
}

/// Why a text was given no answer: it breaks a rule, or there was not enough memory.
#[derive(Clone, Copy, Debug, PartialEq, Eq)]
pub enum Stop {
    Refused(Refusal),
    NoMemory,
}

impl fmt::Display for Stop {
    ghost output = { λ stop. Some (stop_text stop) };

    fn fmt<W: fmt::Write>(&self, f: &mut fmt::Formatter<W>) -> fmt::Result {
        match self {
            Stop::Refused(refusal) => write!(f, "{refusal}"),
            Stop::NoMemory => write!(f, "out of memory"),
        }
    }
}

impl Error for Stop {}

impl From<NoMemory> for Stop {
    ghost from_gives = { λ _ stop. stop ≡ NoMemory };

    fn from(_error: NoMemory) -> Stop {
        Stop::NoMemory
    }
}

impl From<AllocError> for Stop {
    ghost from_gives = { λ _ stop. stop ≡ NoMemory };

    fn from(_error: AllocError) -> Stop {
        Stop::NoMemory
    }
}

impl<T: Drop> From<AllocFailed<T>> for Stop {
    ghost from_gives = { λ _ stop. stop ≡ NoMemory };

    fn from(_error: AllocFailed<T>) -> Stop {
        Stop::NoMemory
    }
}
