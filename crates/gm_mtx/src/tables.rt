//! The tables that the entries fill line by line.

ghost use Rattle.std.specs.Prelude.{◌≡◌, ◌≢◌, ◌≤◌, ◌+◌, ℕ, List, [], IfOk, IfErr, Err, length, map, replicate};
ghost use Rattle.std.specs.List.{range_with_len};
ghost use Rattle.std.specs.Str.Lines.{lines};
ghost use Rattle.gm_fields.specs.Fields.{fields};
ghost use Rattle.gm_value.specs.declared.values.VType.{VType as VTypeValue};
ghost use Rattle.gm_graph.specs.declared.builds.Shape.{Shape as ShapeValue};
ghost use Rattle.gm_mtx.specs.MatrixMarket.{Entry, with_entry, entries_after, entries_with, zero_column, raw_of};
ghost use Rattle.gm_mtx.specs.Loads.{IsLineFault};
ghost use Rattle.gm_mtx.specs.Tables.{FillsColumns, Holds, HoldsEntries, Takes};

use crate::faults::{LineFault, LineStop, MtxFault};
use crate::fields::{read_index, value_in};
use crate::headers::EntryValues;
use crate::sizes::{Size, is_skipped};
use gm_base::{Items, NoMemory};
use gm_columns::Column;
use gm_fields::{cut_field, cut_line};
use gm_graph::{NodeNumbers, RawGraph, Shape};
use gm_loader::empty_columns;
use gm_value::VType;
use std::alloc::{AllocError, Global};

// The entries that were read so far: their rows, their columns, and their values by edge input.
#[derive(Drop)]
pub struct Tables {
    pub from: NodeNumbers,
    pub to: NodeNumbers,
    pub edge_columns: Vec<Column>,
}

// A column with the zero of its type in each of so many rows.
fn zero_column(alloc: Global, nodes: u32, vtype: VType) -> Result<Column, NoMemory>
    ensures { IfOk result (λ column. column ≡ zero_column nodes vtype) }
{
    let mut column = Column::new(alloc, vtype);
    for row in 0..nodes {
        column.push(vtype.zero())?;
    }
    Ok(column)
}

// A column of zeros for each type.
fn zero_columns(alloc: Global, nodes: u32, types: &[VType]) -> Result<Vec<Column>, NoMemory>
    ensures { IfOk result (λ columns. columns.items ≡ map (zero_column nodes) types.now) }
{
    let mut columns = Vec::new(alloc);
    for vtype in types {
        columns.push(zero_column(alloc, nodes, *vtype)?)?;
    }
    Ok(columns)
}

// The numbers of so many nodes, from 1.
fn node_numbers(alloc: Global, nodes: u32) -> Result<NodeNumbers, NoMemory>
    ensures { IfOk result (λ numbers. numbers ≡ range_with_len 1 nodes) }
{
    let mut numbers = NodeNumbers::with_capacity(alloc, nodes as usize)?;
    for node in 0..nodes {
        numbers.push(u64::from(node) + 1)?;
    }
    Ok(numbers)
}

// Reads the values of an entry from the text behind its row and column, and adds them to the columns.
fn read_values(columns: &mut Vec<Column>, kind: EntryValues, text: &[u8]) -> Result<(), LineStop>
    ensures { (types : List VTypeValue) → FillsColumns types kind (fields text.now) columns.old.items columns.new.items result }
{
    if columns.is_empty() {
        return Ok(());
    }
    if kind == EntryValues::Pattern {
        return Err(LineStop::Fault(LineFault::MissingColumn));
    }
    let Some((field, _)) = cut_field(text) else {
        return Err(LineStop::Fault(LineFault::MissingColumn));
    };
    let value = value_in(columns[0].vtype(), field)?;
    if columns.len() > 1 {
        return Err(LineStop::Fault(LineFault::MissingColumn));
    }
    columns[0].push(value)?;
    Ok(())
}

impl Tables {
    // Tables of no entries, with room for as many as a size says and a text may have.
    pub fn new(alloc: Global, shape: &Shape, size: Size, text: &[u8]) -> Result<Self, AllocError>
        ensures { IfOk result (Holds shape.now.edges []) }
    {
        let room = (size.entries as usize).min(text.len() / 4 + 1);
        Ok(Tables {
            from: NodeNumbers::with_capacity(alloc, room)?,
            to: NodeNumbers::with_capacity(alloc, room)?,
            edge_columns: empty_columns(alloc, shape.edges.as_slice())?,
        })
    }

    // Takes in an entry.
    fn take_entry(&mut self, kind: EntryValues, size: Size, line: &[u8]) -> Result<(), LineStop>
        ensures { (types : List VTypeValue) (before : List Entry) → Holds types before self.old
            → Takes types (with_entry types kind size before (fields line.now)) self.new result }
    {
        let (row, rest) = read_index(size.rows, line)?;
        let (column, rest) = read_index(size.columns, rest)?;
        read_values(&mut self.edge_columns, kind, rest)?;
        if self.from.len() >= size.entries as usize {
            return Err(LineStop::Fault(LineFault::CountDiffers));
        }
        self.from.push(row)?;
        self.to.push(column)?;
        Ok(())
    }

    // Takes in the next line.
    fn take_line(&mut self, kind: EntryValues, size: Size, line: &[u8]) -> Result<(), LineStop>
        ensures { (types : List VTypeValue) (before : List Entry) → Holds types before self.old
            → Takes types (entries_with types kind size before (fields line.now)) self.new result }
    {
        if is_skipped(line) {
            return Ok(());
        }
        self.take_entry(kind, size, line)
    }

    // Of what the graph of the entries is made.
    pub fn into_raw(self, alloc: Global, shape: Shape, size: Size) -> Result<RawGraph, NoMemory>
        ensures { IfOk result (λ raw. (entries : List Entry) → Holds shape.edges entries self
            → raw ≡ raw_of shape (record { size = size; entries = entries })) }
    {
        let nodes = size.node_count();
        let extra = node_numbers(alloc, nodes)?;
        let node_columns = zero_columns(alloc, nodes, shape.nodes.as_slice())?;
        Ok(RawGraph {
            shape,
            from: self.from,
            to: self.to,
            edge_columns: Items::new(self.edge_columns),
            extra,
            node_columns: Items::new(node_columns),
        })
    }
}

// Reads the entries of the text behind the size line of a number.
pub fn read_entries(
    alloc: Global,
    shape: &Shape,
    kind: EntryValues,
    size: Size,
    size_number: u64,
    text: &[u8],
) -> Result<Tables, MtxFault>
    requires { size_number + length text.now ≤ 9223372036854775810 }
    ensures ok { IfOk result (HoldsEntries shape.now.edges kind size size_number text.now) }
    ensures of_line { IfErr result (λ e. e ≢ MtxFault.NoMemory → IsLineFault e) }
    ensures fault { IfErr result (λ e. e ≢ MtxFault.NoMemory
        → entries_after shape.now.edges kind size (size_number + 1) [] (lines text.now) ≡ Err e) }
{
    let mut tables = Tables::new(alloc, shape, size, text)?;
    let mut rest = text;
    let mut number = size_number + 1;
    'lines: while !rest.is_empty() {
        let (line, behind) = cut_line(rest);
        match tables.take_line(kind, size, line) {
            Ok(()) => rest = behind,
            Err(stop) => return Err(stop.at_line(number)),
        }
        number += 1;
    }
    if tables.from.len() < size.entries as usize {
        return Err(MtxFault::CountDiffers(number));
    }
    Ok(tables)
}
