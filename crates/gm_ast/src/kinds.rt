//! What the rules of typing speak of.

use crate::surface::ReductionWord;
use crate::tree::{Direction, Key, Target, Variable};
use gm_base::Place;
use gm_value::VType;

/// The kind of a value. A flexible number takes the type of what stands beside it.
#[derive(Clone, Copy, PartialEq, Eq, Debug)]
pub enum Kind {
    Flexible,
    Of(VType),
    Edge,
}

/// What a call without arguments asks.
#[derive(Clone, Copy, PartialEq, Eq, Debug)]
pub enum Query {
    Degree(Direction),
    NodeCount,
    EdgeCount,
    ToEdge,
    Unknown,
}

/// What a known name means: the index of its declaration, and what is declared.
#[derive(Clone, Copy, PartialEq, Eq, Debug)]
pub struct Binding {
    pub index: u32,
    pub variable: Variable,
}

/// A reduction before the type of its value is known: its word, the places of the word and of the closing brace,
/// and the keys of its filter, its braces and its total.
#[derive(Clone, Copy, PartialEq, Eq, Debug)]
pub struct Reducer {
    pub word: ReductionWord,
    pub place: Place,
    pub close: Place,
    pub filter: Key,
    pub body: Key,
    pub total: Key,
}

/// Where a type is written. A type inside a property is a role of its own.
#[derive(Clone, Copy, PartialEq, Eq, Debug)]
pub enum Role {
    Input,
    Output,
    Returned,
    Local,
    Inside,
}

/// What an assignment writes, and the type of the values that it takes, where it takes any.
#[derive(Clone, Copy, PartialEq, Eq, Debug)]
pub struct Goal {
    pub wanted: Option<VType>,
    pub target: Target,
}
