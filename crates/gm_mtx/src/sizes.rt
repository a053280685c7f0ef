//! The size line, which is the first line behind the header that is no comment and not blank.

ghost use Rattle.std.specs.Prelude.{◌≡◌, ◌≤◌, ◌+◌, IfOk, IfErr, Ok, Err, length};
ghost use Rattle.std.specs.Str.Lines.{lines};
ghost use Rattle.gm_fields.specs.Fields.{fields};
ghost use Rattle.gm_mtx.specs.MatrixMarket.{is_skipped, within_limits, size_in, size_line, node_count};
ghost use Rattle.gm_mtx.specs.Loads.{IsLineFault};
ghost use Rattle.gm_mtx.specs.Tables.{FindsSize};

use crate::faults::{LineFault, MtxFault};
use crate::fields::read_size_number;
use gm_fields::{cut_field, cut_line};
use gm_loader::{Limits, first_byte};

// How large a matrix is: its rows, columns and entries.
#[derive(Clone, Copy, Debug, PartialEq, Eq)]
pub struct Size {
    pub rows: u32,
    pub columns: u32,
    pub entries: u32,
}

// A size, the number of its line, and the text behind that line.
#[derive(Clone, Copy)]
pub struct SizeLine<'a> {
    pub size: Size,
    pub number: u64,
    pub rest: &'a [u8],
}

// Whether a line is skipped: it is blank or a comment.
pub fn is_skipped(line: &[u8]) -> bool
    ensures { result ≡ is_skipped (fields line.now) }
{
    match cut_field(line) {
        None => true,
        Some((field, _)) => first_byte(field) == b'%',
    }
}

impl Size {
    // How many nodes there are.
    pub fn node_count(self) -> u32
        ensures { result ≡ node_count self }
    {
        if self.rows <= self.columns {
            self.columns
        } else {
            self.rows
        }
    }
}

// The size of some numbers of rows, columns and entries, unless it is over a limit.
fn within_limits(limits: &Limits, rows: u64, columns: u64, entries: u64) -> Result<Size, LineFault>
    ensures { result ≡ within_limits limits.now (record { rows = rows; columns = columns; entries = entries }) }
{
    let nodes = u64::from(limits.nodes);
    if rows > nodes || columns > nodes {
        return Err(LineFault::TooManyNodes);
    }
    if entries > u64::from(limits.edges) {
        return Err(LineFault::TooManyEdges);
    }
    Ok(Size {
        rows: rows as u32,
        columns: columns as u32,
        entries: entries as u32,
    })
}

// The size that a line spells.
fn size_in(limits: &Limits, line: &[u8]) -> Result<Size, LineFault>
    ensures { result ≡ size_in limits.now (fields line.now) }
{
    let (rows, rest) = read_size_number(line)?;
    let (columns, rest) = read_size_number(rest)?;
    let (entries, _) = read_size_number(rest)?;
    within_limits(limits, rows, columns, entries)
}

// The size line of the text behind the header.
pub fn find_size<'a>(limits: &Limits, text: &'a [u8]) -> Result<SizeLine<'a>, MtxFault>
    ensures found { IfOk result (λ f. FindsSize limits.now text.now f.size f.number f.rest.now) }
    ensures of_line { IfErr result IsLineFault }
    ensures fault { IfErr result (λ e. size_line limits.now 2 (lines text.now) ≡ Err e) }
{
    let mut rest = text;
    let mut number: u64 = 2;
    'lines: while !rest.is_empty() {
        let (line, behind) = cut_line(rest);
        if !is_skipped(line) {
            return match size_in(limits, line) {
                Ok(size) => Ok(SizeLine {
                    size,
                    number,
                    rest: behind,
                }),
                Err(fault) => Err(fault.at_line(number)),
            };
        }
        rest = behind;
        number += 1;
    }
    Err(MtxFault::BadLine(number))
}
