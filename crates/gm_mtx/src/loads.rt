//! Graphs of Matrix Market texts.

ghost use Rattle.std.specs.Prelude.{◌≡◌, ◌≢◌, ◌≤◌, IfOk, IfErr, Err, length};
ghost use Rattle.std.specs.Str.Lines.{lines};
ghost use Rattle.gm_loader.specs.GraphText.{HasColumns};
ghost use Rattle.gm_mtx.specs.MatrixMarket.{matrix_in, matrix_of, StandsFor};
ghost use Rattle.gm_mtx.specs.Loads.{IsLineFault};
ghost use Rattle.gm_mtx.specs.Tables.{HoldsMatrix};

use crate::faults::MtxFault;
use crate::headers::header_in;
use crate::sizes::{Size, find_size};
use crate::tables::{Tables, read_entries};
use gm_fields::cut_line;
use gm_graph::{Graph, Shape, build};
use gm_loader::{Limits, shape_like};
use std::alloc::Global;

// A matrix that was read: its size and its entries.
#[derive(Drop)]
pub struct ReadMatrix {
    pub size: Size,
    pub tables: Tables,
}

// Reads the lines of a text.
fn read_matrix(
    alloc: Global,
    text: &[u8],
    shape: &Shape,
    limits: &Limits,
) -> Result<ReadMatrix, MtxFault>
    ensures ok { IfOk result (λ m. HoldsMatrix shape.now limits.now text.now m.size m.tables) }
    ensures of_line { IfErr result (λ e. e ≢ MtxFault.NoMemory → IsLineFault e) }
    ensures fault { IfErr result (λ e. e ≢ MtxFault.NoMemory
        → matrix_in shape.now limits.now (lines text.now) ≡ Err e) }
{
    if text.is_empty() {
        return Err(MtxFault::BadHeader(1));
    }
    let (header, rest) = cut_line(text);
    let kind = match header_in(header) {
        Ok(kind) => kind,
        Err(fault) => return Err(fault.at_line(1)),
    };
    let found = find_size(limits, rest)?;
    let size = found.size;
    let tables = read_entries(alloc, shape, kind, size, found.number, found.rest)?;
    Ok(ReadMatrix { size, tables })
}

/// The graph that a Matrix Market text stands for, or the fault of its first line that has one; `TooLong` for a text of
/// more bytes than the limit. The limits on nodes and edges are at most 2,147,483,647.
///
/// The nodes are 1 to the greater of rows and columns, with 0 or False in each node column. An entry is an edge from its
/// row to its column; the first edge column takes its value. The text is let go as soon as its lines are read, so that it
/// adds nothing to the memory that the making of the graph takes.
///
/// # Errors
///
/// The faults of lines with the number of the line, from 1: the fields of a line are judged from left to right, then
/// whether the entry is one too many, then, at the size line, the limits on nodes and on edges. Where entries are
/// missing, `CountDiffers` has the number of the line behind the last. `TooLong` comes before all of these.
pub fn consume_mtx(
    alloc: Global,
    text: Vec<u8>,
    shape: &Shape,
    limits: &Limits,
) -> Result<Graph, MtxFault>
    requires few_nodes { limits.now.nodes ≤ 2147483647 }
    requires few_edges { limits.now.edges ≤ 2147483647 }
    ensures graph { IfOk result (StandsFor shape.now limits.now text.items) }
    ensures columns { IfOk result (HasColumns (length shape.now.nodes) (length shape.now.edges)) }
    ensures fault { IfErr result (λ e. e ≢ MtxFault.NoMemory
        → matrix_of shape.now limits.now text.items ≡ Err e) }
{
    if text.len() as u64 > limits.bytes {
        return Err(MtxFault::TooLong);
    }
    let matrix = read_matrix(alloc, &text, shape, limits)?;
    drop(text);
    let raw = matrix
        .tables
        .into_raw(alloc, shape_like(alloc, shape)?, matrix.size)?;
    Ok(build(alloc, raw)?)
}
