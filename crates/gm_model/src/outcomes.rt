//! How a run of a procedure over a graph ends.

use gm_base::{Items, Place};
use gm_columns::Values;
use gm_value::{FaultKind, Value};

/// How a run ends.
#[derive(Debug, Drop)]
pub enum Outcome {
    /// It ran to its end: the values of the scalar outputs, the value returned where the procedure has a
    /// result type, one list of values, by node, for each output property, and the turns that it took.
    Done {
        scalars: Items<Value>,
        result: Option<Value>,
        nodes: Items<Values>,
        turns: u64,
    },
    /// It met a fault of a kind at a place of the program.
    Fault {
        kind: FaultKind,
        place: Place,
    },
    /// It was cut where it would have taken more turns than it was given.
    Cut {
        turns: u64,
    },
}

/// A run's outcome, and its counts of supersteps and messages.
#[derive(Debug, Drop)]
pub struct RunEnd {
    pub outcome: Outcome,
    pub supersteps: u64,
    pub messages: u64,
}
