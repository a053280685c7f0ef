//! Why a Matrix Market text stands for no graph.

ghost use Rattle.std.specs.Prelude.{◌≡◌};
ghost use Rattle.gm_mtx.specs.MatrixMarket.{at_line};
ghost use Rattle.gm_mtx.specs.Tables.{stop_at_line};
ghost use Rattle.gm_mtx.specs.declared.faults.LineStop.TheVariants.{Fault, NoMemory as stop_no_memory};
ghost use Rattle.gm_mtx.specs.declared.faults.MtxFault.TheVariants.{NoMemory};

use gm_base::NoMemory;
use std::alloc::{AllocError, AllocFailed};
use std::error::Error;
use std::fmt;

/// Why a Matrix Market text stands for no graph. Faults of lines come with the number of the line, from 1.
#[derive(Clone, Copy, Debug, PartialEq, Eq)]
pub enum MtxFault {
    /// The first line has not five fields, or does not begin with `%%MatrixMarket`.
    BadHeader(u64),
    /// The header names a kind of matrix that is not read.
    Unsupported(u64),
    /// A number is absent or no digits, a value is malformed, or there is no size line.
    BadLine(u64),
    /// An entry has no value for an edge input.
    MissingColumn(u64),
    /// A size, a row, a column or a value is out of its range.
    OutOfRange(u64),
    /// There are more or fewer entries than the size line says.
    CountDiffers(u64),
    /// There are more nodes than the limit.
    TooManyNodes(u64),
    /// There are more edges than the limit.
    TooManyEdges(u64),
    /// There are more bytes than the limit.
    TooLong,
    /// There was not enough memory.
    NoMemory,
}

impl fmt::Display for MtxFault {
    fn fmt<W: fmt::Write>(&self, f: &mut fmt::Formatter<W>) -> fmt::Result {
        match self {
            MtxFault::BadHeader(line) => write!(f, "no Matrix Market header in line {line}"),
            MtxFault::Unsupported(line) => write!(
                f,
                "a kind of matrix that is not read in line {line}"
            ),
            MtxFault::BadLine(line) => write!(f, "bad line {line}"),
            MtxFault::MissingColumn(line) => write!(f, "a value is missing in line {line}"),
            MtxFault::OutOfRange(line) => write!(f, "a number is out of range in line {line}"),
            MtxFault::CountDiffers(line) => write!(f, "another number of entries at line {line}"),
            MtxFault::TooManyNodes(line) => write!(f, "too many nodes in line {line}"),
            MtxFault::TooManyEdges(line) => write!(f, "too many edges in line {line}"),
            MtxFault::TooLong => write!(f, "too long"),
            MtxFault::NoMemory => write!(f, "out of memory"),
        }
    }
}

impl Error for MtxFault {}

impl From<AllocError> for MtxFault {
    ghost from_gives = { λ _ f. f ≡ NoMemory };

    fn from(_error: AllocError) -> MtxFault {
        MtxFault::NoMemory
    }
}

impl From<NoMemory> for MtxFault {
    ghost from_gives = { λ _ f. f ≡ NoMemory };

    fn from(_error: NoMemory) -> MtxFault {
        MtxFault::NoMemory
    }
}

// What may be wrong with a line.
#[derive(Clone, Copy, Debug, PartialEq, Eq)]
pub enum LineFault {
    BadHeader,
    Unsupported,
    BadLine,
    MissingColumn,
    OutOfRange,
    CountDiffers,
    TooManyNodes,
    TooManyEdges,
}

impl LineFault {
    // The fault of the line of a number.
    pub fn at_line(self, line: u64) -> MtxFault
        ensures { result ≡ at_line line self }
    {
        match self {
            LineFault::BadHeader => MtxFault::BadHeader(line),
            LineFault::Unsupported => MtxFault::Unsupported(line),
            LineFault::BadLine => MtxFault::BadLine(line),
            LineFault::MissingColumn => MtxFault::MissingColumn(line),
            LineFault::OutOfRange => MtxFault::OutOfRange(line),
            LineFault::CountDiffers => MtxFault::CountDiffers(line),
            LineFault::TooManyNodes => MtxFault::TooManyNodes(line),
            LineFault::TooManyEdges => MtxFault::TooManyEdges(line),
        }
    }
}

// Why an entry was not taken in.
#[derive(Clone, Copy, Debug, PartialEq, Eq)]
pub enum LineStop {
    Fault(LineFault),
    NoMemory,
}

impl From<LineFault> for LineStop {
    ghost from_gives = { λ e stop. stop ≡ Fault e };

    fn from(fault: LineFault) -> LineStop {
        LineStop::Fault(fault)
    }
}

impl From<NoMemory> for LineStop {
    ghost from_gives = { λ _ stop. stop ≡ stop_no_memory };

    fn from(_error: NoMemory) -> LineStop {
        LineStop::NoMemory
    }
}

impl<T: Drop> From<AllocFailed<T>> for LineStop {
    ghost from_gives = { λ _ stop. stop ≡ stop_no_memory };

    fn from(_error: AllocFailed<T>) -> LineStop {
        LineStop::NoMemory
    }
}

impl LineStop {
    // What stopped the line of a number, as a fault of the text.
    pub fn at_line(self, line: u64) -> MtxFault
        ensures { result ≡ stop_at_line line self }
    {
        match self {
            LineStop::Fault(fault) => fault.at_line(line),
            LineStop::NoMemory => MtxFault::NoMemory,
        }
    }
}
