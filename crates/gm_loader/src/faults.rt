//! Why a text stands for no graph.

ghost use Rattle.std.specs.Prelude.{◌≡◌};
ghost use Rattle.gm_loader.specs.declared.faults.LineStop.TheVariants.{Fault, NoMemory as stop_no_memory};
ghost use Rattle.gm_loader.specs.GraphText.{at_line};
ghost use Rattle.gm_loader.specs.Loads.{stop_at_line};
ghost use Rattle.gm_loader.specs.declared.faults.GraphFault.TheVariants.{NoMemory};

use gm_base::NoMemory;
use std::alloc::{AllocError, AllocFailed};
use std::error::Error;
use std::fmt;

/// Why a text stands for no graph. Faults of lines come with the number of the line, from 1.
#[derive(Clone, Copy, Debug, PartialEq, Eq)]
pub enum GraphFault {
    /// A node number is absent or no digits, or a value is malformed.
    BadLine(u64),
    /// A value is absent.
    MissingColumn(u64),
    /// A node number or a value is out of its range.
    OutOfRange(u64),
    /// A node has a second line.
    NodeTwice(u64),
    /// There are more nodes than the limit.
    TooManyNodes(u64),
    /// There are more edges than the limit.
    TooManyEdges(u64),
    /// There are more bytes than the limit.
    TooLong,
    /// There was not enough memory.
    NoMemory,
}

impl fmt::Display for GraphFault {
    fn fmt<W: fmt::Write>(&self, f: &mut fmt::Formatter<W>) -> fmt::Result {
        match self {
            GraphFault::BadLine(line) => write!(f, "bad line {line}"),
            GraphFault::MissingColumn(line) => write!(f, "a column is missing in line {line}"),
            GraphFault::OutOfRange(line) => write!(f, "a number is out of range in line {line}"),
            GraphFault::NodeTwice(line) => write!(f, "a second line of one node in line {line}"),
            GraphFault::TooManyNodes(line) => write!(f, "too many nodes from line {line} on"),
            GraphFault::TooManyEdges(line) => write!(f, "too many edges from line {line} on"),
            GraphFault::TooLong => write!(f, "too long"),
            GraphFault::NoMemory => write!(f, "out of memory"),
        }
    }
}

impl Error for GraphFault {}

impl From<AllocError> for GraphFault {
    ghost from_gives = { λ _ f. f ≡ NoMemory };

    fn from(_error: AllocError) -> GraphFault {
        GraphFault::NoMemory
    }
}

impl From<NoMemory> for GraphFault {
    ghost from_gives = { λ _ f. f ≡ NoMemory };

    fn from(_error: NoMemory) -> GraphFault {
        GraphFault::NoMemory
    }
}

// What may be wrong with a line.
#[derive(Clone, Copy, Debug, PartialEq, Eq)]
pub enum LineFault {
    BadLine,
    MissingColumn,
    OutOfRange,
    NodeTwice,
    TooManyNodes,
    TooManyEdges,
}

impl LineFault {
    // The fault of the line of a number.
    pub fn at_line(self, line: u64) -> GraphFault
        ensures { result ≡ at_line line self }
    {
        match self {
            LineFault::BadLine => GraphFault::BadLine(line),
            LineFault::MissingColumn => GraphFault::MissingColumn(line),
            LineFault::OutOfRange => GraphFault::OutOfRange(line),
            LineFault::NodeTwice => GraphFault::NodeTwice(line),
            LineFault::TooManyNodes => GraphFault::TooManyNodes(line),
            LineFault::TooManyEdges => GraphFault::TooManyEdges(line),
        }
    }
}

// Why a line was not taken in.
#[derive(Clone, Copy, Debug, PartialEq, Eq)]
pub enum LineStop {
    Fault(LineFault),
    NoMemory,
}

impl From<LineFault> for LineStop {
    ghost from_gives = { λ e stop. stop ≡ Fault e };

    fn from(fault: LineFault) -> LineStop {
        LineStop::Fault(fault)
    }
}

impl From<NoMemory> for LineStop {
    ghost from_gives = { λ _ stop. stop ≡ stop_no_memory };

    fn from(_error: NoMemory) -> LineStop {
        LineStop::NoMemory
    }
}

impl<T: Drop> From<AllocFailed<T>> for LineStop {
    ghost from_gives = { λ _ stop. stop ≡ stop_no_memory };

    fn from(_error: AllocFailed<T>) -> LineStop {
        LineStop::NoMemory
    }
}

// What stops the reading of a line, as the fault of the line of a number.
impl LineStop {
    pub fn at_line(self, line: u64) -> GraphFault
        ensures { result ≡ stop_at_line line self }
    {
        match self {
            LineStop::Fault(fault) => fault.at_line(line),
            LineStop::NoMemory => GraphFault::NoMemory,
        }
    }
}
