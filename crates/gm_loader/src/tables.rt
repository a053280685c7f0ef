//! The tables that are filled line by line.

ghost use Rattle.std.specs.Prelude.{◌≡◌, ◌<◌, ◌∷◌, [], ℕ, List, IfOk, IfErr, MatchOption, OnOk, Ok, Err, length};
ghost use Rattle.std.specs.Str.Lines.{lines};
ghost use Rattle.gm_graph.specs.declared.builds.Shape.{Shape as ShapeValue};
ghost use Rattle.gm_loader.specs.declared.limits.Limits.{Limits as LimitsValue};
ghost use Rattle.gm_fields.specs.Fields.{fields};
ghost use Rattle.gm_loader.specs.Lines.{Line, first_number, node_line, edge_line, edge_with, line_of};
ghost use Rattle.gm_loader.specs.GraphText.{columns_of, raw_of};
ghost use Rattle.gm_loader.specs.Tables.{IfFault, Holds, Takes, TakesFirst, ReadsValue, ReadsNumber, row_added};

use crate::counts::NodeCount;
use crate::faults::{LineFault, LineStop};
use crate::fields::{first_byte, is_word, node_number, value_in};
use crate::limits::Limits;
use crate::quick::{ends_of, whole_of};
use crate::sets::NumberSet;
use gm_base::{Items, NoMemory};
use gm_columns::Column;
use gm_fields::{cut_field, cut_line};
use gm_graph::{NodeNumbers, RawGraph, Shape};
use gm_value::{VType, Value};
use std::alloc::{AllocError, Global};

// The greatest value of an Int.
const GREATEST_INT: u64 = 2_147_483_647;

// What was read so far: the edges by their node numbers, the nodes that have lines of their own, the values of
// both, the count of all numbers, and the set of the numbers with lines of their own.
#[derive(Drop)]
pub struct Tables {
    pub from: NodeNumbers,
    pub to: NodeNumbers,
    pub edge_columns: Vec<Column>,
    pub extra: NodeNumbers,
    pub node_columns: Vec<Column>,
    pub seen: NodeCount,
    pub listed: NumberSet,
}

/// A column without rows for each type.
pub fn empty_columns(alloc: Global, types: &[VType]) -> Result<Vec<Column>, AllocError>
    ensures { IfOk result (λ columns. columns.items ≡ columns_of types.now []) }
{
    let mut columns = Vec::new(alloc);
    for vtype in types {
        columns.push(Column::new(alloc, *vtype))?;
    }
    Ok(columns)
}

// Reads the value of a column of Ints from the first field of some text, if it is of the plainest form, adds it to the
// column, and answers the text behind. Otherwise the column stays as it was.
fn read_whole<'a>(column: &mut Column, text: &'a [u8]) -> Result<Option<&'a [u8]>, NoMemory>
    ensures { IfOk result (λ read. MatchOption read (column.new ≡ column.old)
        (λ rest. ReadsValue column.old column.new (fields text.now) (fields rest.now))) }
{
    if column.vtype() != VType::I32 {
        return Ok(None);
    }
    let Some(whole) = whole_of(text) else {
        return Ok(None);
    };
    if whole.number > GREATEST_INT {
        return Ok(None);
    }
    column.push(Value::I32(whole.number as i32))?;
    Ok(Some(whole.rest))
}

// Reads the value of a column from the first field of some text, adds it to the column, and answers the text behind.
fn read_value<'a>(column: &mut Column, text: &'a [u8]) -> Result<&'a [u8], LineStop>
    ensures read { IfOk result (λ rest. ReadsValue column.old column.new (fields text.now) (fields rest.now)) }
    ensures fault { IfErr result (λ stop. IfFault stop (λ e. row_added (column.old ∷ []) (fields text.now) ≡ Err e)) }
{
    if let Some(rest) = read_whole(column, text)? {
        return Ok(rest);
    }
    let Some((field, rest)) = cut_field(text) else {
        return Err(LineStop::Fault(LineFault::MissingColumn));
    };
    let value = value_in(column.vtype(), field)?;
    column.push(value)?;
    Ok(rest)
}

// Reads a value for each column from the first fields of some text, and adds them to the columns.
fn read_values(columns: &mut Vec<Column>, text: &[u8]) -> Result<(), LineStop>
    ensures read { OnOk result (row_added columns.old.items (fields text.now) ≡ Ok columns.new.items) }
    ensures fault { IfErr result (λ stop. IfFault stop (λ e. row_added columns.old.items (fields text.now) ≡ Err e)) }
{
    let mut rest = text;
    for place in 0..columns.len() {
        rest = read_value(&mut columns[place], rest)?;
    }
    Ok(())
}

// Reads a node number from the first field of some text, and answers it and the text behind.
fn read_number<'a>(text: &'a [u8]) -> Result<(u64, &'a [u8]), LineFault>
    ensures read { IfOk result (λ cut. ReadsNumber (fields text.now) cut.0 (fields cut.1.now)) }
    ensures fault { IfErr result (λ e. first_number (fields text.now) ≡ Err e) }
{
    let Some((field, rest)) = cut_field(text) else {
        return Err(LineFault::BadLine);
    };
    let number = node_number(field)?;
    Ok((number, rest))
}

impl Tables {
    // Tables that hold what no line gives.
    pub fn new(alloc: Global, shape: &Shape) -> Result<Self, AllocError>
        ensures { IfOk result (λ tables. (limits : LimitsValue) → Holds shape.now limits [] tables) }
    {
        Ok(Tables {
            from: NodeNumbers::new(alloc),
            to: NodeNumbers::new(alloc),
            edge_columns: empty_columns(alloc, shape.edges.as_slice())?,
            extra: NodeNumbers::new(alloc),
            node_columns: empty_columns(alloc, shape.nodes.as_slice())?,
            seen: NodeCount::new(alloc),
            listed: NumberSet::new(alloc),
        })
    }

    // Takes in an edge from a node number to a node number: `text` has its values.
    fn add_edge(&mut self, limits: &Limits, from: u64, to: u64, text: &[u8]) -> Result<(), LineStop>
        ensures { (shape : ShapeValue) (before : List Line) → Holds shape limits.now before self.old
            → Takes shape limits.now before (edge_with shape.edges from to (fields text.now)) self.new result }
    {
        read_values(&mut self.edge_columns, text)?;
        self.from.push(from)?;
        self.to.push(to)?;
        self.seen.add(limits.nodes, (from, to), &self.from, &self.to, &self.extra)?;
        if self.seen.exceeds(limits.nodes) {
            return Err(LineStop::Fault(LineFault::TooManyNodes));
        }
        if self.from.len() > limits.edges as usize {
            return Err(LineStop::Fault(LineFault::TooManyEdges));
        }
        Ok(())
    }

    // Takes in an edge line: `text` begins with its fields.
    fn take_edge(&mut self, limits: &Limits, text: &[u8]) -> Result<(), LineStop>
        ensures { (shape : ShapeValue) (before : List Line) → Holds shape limits.now before self.old
            → Takes shape limits.now before (edge_line shape.edges (fields text.now)) self.new result }
    {
        let (from, rest) = read_number(text)?;
        let (to, rest) = read_number(rest)?;
        self.add_edge(limits, from, to, rest)
    }

    // Takes in a node line: `text` begins with its fields behind the first.
    fn take_node(&mut self, limits: &Limits, text: &[u8]) -> Result<(), LineStop>
        ensures { (shape : ShapeValue) (before : List Line) → Holds shape limits.now before self.old
            → Takes shape limits.now before (node_line shape.nodes (fields text.now)) self.new result }
    {
        let (number, rest) = read_number(text)?;
        read_values(&mut self.node_columns, rest)?;
        if !self.listed.insert(number)? {
            return Err(LineStop::Fault(LineFault::NodeTwice));
        }
        self.extra.push(number)?;
        self.seen.add(
            limits.nodes,
            (number, number),
            &self.from,
            &self.to,
            &self.extra,
        )?;
        if self.seen.exceeds(limits.nodes) {
            return Err(LineStop::Fault(LineFault::TooManyNodes));
        }
        Ok(())
    }

    // Takes in a line.
    fn take_line(&mut self, limits: &Limits, line: &[u8]) -> Result<(), LineStop>
        ensures { (shape : ShapeValue) (before : List Line) → Holds shape limits.now before self.old
            → Takes shape limits.now before (line_of shape line.now) self.new result }
    {
        let Some((field, rest)) = cut_field(line) else {
            return Ok(());
        };
        if first_byte(field) == b'#' {
            return Ok(());
        }
        if is_word(field, b"v") {
            self.take_node(limits, rest)
        } else {
            self.take_edge(limits, line)
        }
    }

    // Takes in the first line of a text that is not empty, and answers the text behind it.
    pub fn take_first_line<'a>(
        &mut self,
        limits: &Limits,
        text: &'a [u8],
    ) -> Result<&'a [u8], LineStop>
        requires { 0 < length text.now }
        ensures taken { IfOk result (λ behind. TakesFirst limits.now text.now (lines behind.now) self.old self.new (Ok tt)) }
        ensures shorter { IfOk result (λ behind. length behind.now < length text.now) }
        ensures stopped { IfErr result (λ stop. (more : List (List ℕ)) × TakesFirst limits.now text.now more self.old self.new (Err stop)) }
    {
        if let Some(ends) = ends_of(text) {
            let (line, behind) = cut_line(ends.rest);
            return match self.add_edge(limits, ends.from, ends.to, line) {
                Ok(()) => Ok(behind),
                Err(stop) => Err(stop),
            };
        }
        let (line, behind) = cut_line(text);
        match self.take_line(limits, line) {
            Ok(()) => Ok(behind),
            Err(stop) => Err(stop),
        }
    }

    // Of what the graph of the lines is made.
    pub fn into_raw(self, shape: Shape) -> RawGraph
        ensures { (limits : LimitsValue) (before : List Line) → Holds shape limits before self → result ≡ raw_of shape before }
    {
        RawGraph {
            shape,
            from: self.from,
            to: self.to,
            edge_columns: Items::new(self.edge_columns),
            extra: self.extra,
            node_columns: Items::new(self.node_columns),
        }
    }
}
