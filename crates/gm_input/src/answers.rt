//! The answers that are a line: for a name under which nothing could be read, for a faulty graph text and for a faulty
//! argument.

ghost use Rattle.std.specs.Prelude.{◌≡◌, IfOk};
ghost use Rattle.gm_base.specs.declared.statuses.Status.TheVariants.{BadInput, ReadFault};
ghost use Rattle.gm_mtx.specs.FaultLines.{IsTextFault as IsMatrixTextFault, mtx_text};
ghost use Rattle.gm_input.specs.Texts.{IsTextFault, IsWordFault, Says, absent_text, argument_line as argument_line_lem, argument_text as argument_text_lem, graph_line as graph_line_lem, graph_text as graph_text_lem, read_fault_text};

use gm_base::{NoMemory, Status, Text};
use gm_loader::{GraphFault, Limits};
use gm_mtx::MtxFault;
use gm_words::ArgFault;
use itoa::Buffer;
use std::alloc::Global;

/// How large a graph text and its graph may be.
pub const GRAPH_LIMITS: Limits = Limits {
    nodes: 4_000_000,
    edges: 16_000_000,
    bytes: 1_073_741_824,
};

/// What is written, and the status with which the program ends.
#[derive(Debug, Drop)]
pub struct Answer {
    pub text: Vec<u8>,
    pub status: Status,
}

/// The answer that says these bytes.
pub fn fixed_answer(alloc: Global, text: &[u8], status: Status) -> Result<Answer, NoMemory>
    ensures { IfOk result (λ a. Says a.text.items a.status text.now status) }
{
    Ok(Answer {
        text: Vec::from_slice(alloc, text)?,
        status,
    })
}

/// The answer where nothing is of this name.
pub fn absent(alloc: Global, name: &str) -> Result<Answer, NoMemory>
    ensures { IfOk result (λ a. Says a.text.items a.status (absent_text name.now) ReadFault) }
{
    let line = format!(in alloc; "absent {name}\n")?;
    fixed_answer(alloc, line.as_bytes(), Status::ReadFault)
}

/// The answer where a read failed of what is of this name.
pub fn read_fault(alloc: Global, name: &str) -> Result<Answer, NoMemory>
    ensures { IfOk result (λ a. Says a.text.items a.status (read_fault_text name.now) ReadFault) }
{
    let line = format!(in alloc; "read fault {name}\n")?;
    fixed_answer(alloc, line.as_bytes(), Status::ReadFault)
}

// The line for a fault of a kind in a line of a graph text.
fn graph_line(alloc: Global, kind: &[u8], number: u64) -> Result<Vec<u8>, NoMemory>
    ensures { IfOk result (λ text. text.items ≡ graph_line_lem kind.now number) }
{
    let mut buffer = Buffer::new();
    let mut text = Vec::from_slice(alloc, b"graph ")?;
    text.extend_from_slice(kind)?;
    text.extend_from_slice(b" at line ")?;
    text.extend_from_slice(buffer.format(number).as_bytes())?;
    text.extend_from_slice(b"\n")?;
    Ok(text)
}

// The line for a fault of an edge list; want of memory has none.
fn graph_text(alloc: Global, fault: GraphFault) -> Result<Vec<u8>, NoMemory>
    ensures { IfOk result (λ text. IsTextFault fault × (text.items ≡ graph_text_lem fault)) }
{
    match fault {
        GraphFault::BadLine(number) => graph_line(alloc, b"BadLine", number),
        GraphFault::MissingColumn(number) => graph_line(alloc, b"MissingColumn", number),
        GraphFault::OutOfRange(number) => graph_line(alloc, b"OutOfRange", number),
        GraphFault::NodeTwice(number) => graph_line(alloc, b"NodeTwice", number),
        GraphFault::TooManyNodes(number) => graph_line(alloc, b"TooManyNodes", number),
        GraphFault::TooManyEdges(number) => graph_line(alloc, b"TooManyEdges", number),
        GraphFault::TooLong => Ok(Vec::from_slice(alloc, b"graph TooLong\n")?),
        GraphFault::NoMemory => Err(NoMemory),
    }
}

/// The answer for a fault of an edge list.
pub fn bad_graph(alloc: Global, fault: GraphFault) -> Result<Answer, NoMemory>
    ensures { IfOk result (λ a. IsTextFault fault × Says a.text.items a.status (graph_text_lem fault) BadInput) }
{
    Ok(Answer {
        text: graph_text(alloc, fault)?,
        status: Status::BadInput,
    })
}

// The line for a fault of a Matrix Market text; want of memory has none.
fn matrix_text(alloc: Global, fault: MtxFault) -> Result<Vec<u8>, NoMemory>
    ensures { IfOk result (λ text. IsMatrixTextFault fault × (text.items ≡ mtx_text fault)) }
{
    match fault {
        MtxFault::BadHeader(number) => graph_line(alloc, b"BadHeader", number),
        MtxFault::Unsupported(number) => graph_line(alloc, b"Unsupported", number),
        MtxFault::BadLine(number) => graph_line(alloc, b"BadLine", number),
        MtxFault::MissingColumn(number) => graph_line(alloc, b"MissingColumn", number),
        MtxFault::OutOfRange(number) => graph_line(alloc, b"OutOfRange", number),
        MtxFault::CountDiffers(number) => graph_line(alloc, b"CountDiffers", number),
        MtxFault::TooManyNodes(number) => graph_line(alloc, b"TooManyNodes", number),
        MtxFault::TooManyEdges(number) => graph_line(alloc, b"TooManyEdges", number),
        MtxFault::TooLong => Ok(Vec::from_slice(alloc, b"graph TooLong\n")?),
        MtxFault::NoMemory => Err(NoMemory),
    }
}

/// The answer for a fault of a Matrix Market text.
pub fn bad_matrix(alloc: Global, fault: MtxFault) -> Result<Answer, NoMemory>
    ensures { IfOk result (λ a. IsMatrixTextFault fault × Says a.text.items a.status (mtx_text fault) BadInput) }
{
    Ok(Answer {
        text: matrix_text(alloc, fault)?,
        status: Status::BadInput,
    })
}

// The line for a fault of a kind in the argument of a name.
fn argument_line(alloc: Global, kind: &[u8], name: &Text) -> Result<Vec<u8>, NoMemory>
    ensures { IfOk result (λ text. text.items ≡ argument_line_lem kind.now name.now) }
{
    let mut text = Vec::from_slice(alloc, b"argument ")?;
    text.extend_from_slice(kind)?;
    text.extend_from_slice(b" ")?;
    text.extend_from_slice(name.as_str().as_bytes())?;
    text.extend_from_slice(b"\n")?;
    Ok(text)
}

// The line for a fault of an argument; want of memory has none.
fn argument_text(alloc: Global, fault: &ArgFault) -> Result<Vec<u8>, NoMemory>
    ensures { IfOk result (λ text. IsWordFault fault.now × (text.items ≡ argument_text_lem fault.now)) }
{
    match fault {
        ArgFault::Missing(name) => argument_line(alloc, b"Missing", name),
        ArgFault::Unknown(name) => argument_line(alloc, b"Unknown", name),
        ArgFault::Twice(name) => argument_line(alloc, b"Twice", name),
        ArgFault::BadValue(name) => argument_line(alloc, b"BadValue", name),
        ArgFault::NoSuchNode(name) => argument_line(alloc, b"NoSuchNode", name),
        ArgFault::NoMemory => Err(NoMemory),
    }
}

/// The answer for a fault of an argument.
pub fn bad_argument(alloc: Global, fault: &ArgFault) -> Result<Answer, NoMemory>
    ensures { IfOk result (λ a. IsWordFault fault.now × Says a.text.items a.status (argument_text_lem fault.now) BadInput) }
{
    Ok(Answer {
        text: argument_text(alloc, fault)?,
        status: Status::BadInput,
    })
}
