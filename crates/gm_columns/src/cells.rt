//! The cells of a row, typed as long as its values are of one type.

ghost use Rattle.std.specs.Prelude.{◌≡◌, ◌<◌, ◌∷◌, ◌++◌, [], false, IsTrue, IfOk, OnOk, IfSome, replicate, length, slice_index_or, slice_set};
ghost use Rattle.gm_columns.specs.Cells.{values_of, Takes};

use crate::columns::{Column, Values};
use crate::nodes::{can_hold, cell_of, is_storable, node_in};
use gm_base::NoMemory;
use gm_value::{VType, Value};
use std::alloc::Global;

/// The values of a property by node: one value for all nodes, which takes no room, numbers or truth values of one
/// type, or values of any type. A row of node indices has the greatest number where the value is NIL.
#[derive(Debug, Drop)]
pub enum Cells {
    Uniform { value: Value, nodes: usize },
    Ints(Vec<i32>),
    Longs(Vec<i64>),
    Flags(Vec<bool>),
    Nodes(Vec<u32>),
    Mixed(Vec<Value>),
}

impl Cells {
    /// How many nodes there are.
    pub fn len(&self) -> usize
        ensures { result ≡ length (values_of self.now) }
    {
        match self {
            Cells::Uniform { nodes, .. } => *nodes,
            Cells::Ints(cells) => cells.len(),
            Cells::Longs(cells) => cells.len(),
            Cells::Flags(cells) => cells.len(),
            Cells::Nodes(cells) => cells.len(),
            Cells::Mixed(cells) => cells.len(),
        }
    }

    /// The value at a node.
    #[inline(always)]
    pub fn get(&self, node: usize) -> Value
        requires { node < length (values_of self.now) }
        ensures { (d : Value) → result ≡ slice_index_or (values_of self.now) node d }
    {
        match self {
            Cells::Uniform { value, .. } => *value,
            Cells::Ints(cells) => Value::I32(cells[node]),
            Cells::Longs(cells) => Value::I64(cells[node]),
            Cells::Flags(cells) => Value::Flag(cells[node]),
            Cells::Nodes(cells) => node_in(cells[node]),
            Cells::Mixed(cells) => cells[node],
        }
    }

    /// Whether the cells can hold a value at a node as they are.
    pub fn takes(&self, value: Value) -> bool
        ensures { IsTrue result → Takes self.now value }
    {
        match (self, value) {
            (Cells::Uniform { value: held, .. }, _) => *held == value,
            (Cells::Ints(_), Value::I32(_)) => true,
            (Cells::Longs(_), Value::I64(_)) => true,
            (Cells::Flags(_), Value::Flag(_)) => true,
            (Cells::Nodes(_), Value::At(node)) => is_storable(node),
            (Cells::Mixed(_), _) => true,
            _ => false,
        }
    }

    /// Writes a value that the cells can hold at a node.
    pub fn put(&mut self, node: usize, value: Value)
        requires within { node < length (values_of self.old) }
        requires taken { Takes self.old value }
        ensures { values_of self.new ≡ slice_set (values_of self.old) node value }
    {
        match (self, value) {
            (Cells::Uniform { .. }, _) => {}
            (Cells::Ints(cells), Value::I32(cell)) => cells[node] = cell,
            (Cells::Longs(cells), Value::I64(cell)) => cells[node] = cell,
            (Cells::Flags(cells), Value::Flag(cell)) => cells[node] = cell,
            (Cells::Nodes(cells), Value::At(at)) => cells[node] = cell_of(at),
            (Cells::Mixed(cells), _) => cells[node] = value,
            _ => unreachable!(),
        }
    }

    /// Cells with the same values that can hold one more value: typed ones where all values are of its type.
    pub fn widened(&self, alloc: Global, value: Value) -> Result<Cells, NoMemory>
        ensures values { IfOk result (λ cells. values_of cells ≡ values_of self.now) }
        ensures taken { IfOk result (λ cells. Takes cells value) }
    {
        if let Cells::Uniform { value: held, nodes } = self {
            let typed = filled(alloc, *held, *nodes)?;
            if typed.takes(value) {
                return Ok(typed);
            }
        }
        Ok(Cells::Mixed(self.mixed(alloc)?))
    }

    // Writes a value at a node where the cells are of its type, and answers whether they are. Else they stay as they
    // were.
    #[inline(always)]
    fn overwrite(&mut self, node: usize, value: Value) -> bool
        requires { node < length (values_of self.old) }
        ensures written { IsTrue result → values_of self.new ≡ slice_set (values_of self.old) node value }
        ensures kept { result ≡ false → self.new ≡ self.old }
    {
        match (self, value) {
            (Cells::Ints(cells), Value::I32(cell)) => {
                cells[node] = cell;
                true
            }
            (Cells::Longs(cells), Value::I64(cell)) => {
                cells[node] = cell;
                true
            }
            (Cells::Flags(cells), Value::Flag(cell)) => {
                cells[node] = cell;
                true
            }
            (Cells::Mixed(cells), _) => {
                cells[node] = value;
                true
            }
            _ => false,
        }
    }

    // Writes a value at a node into cells that are widened where they cannot hold it as they are.
    #[cold]
    #[inline(never)]
    fn put_widened(&mut self, alloc: Global, node: usize, value: Value) -> Result<(), NoMemory>
        requires { node < length (values_of self.old) }
        ensures { OnOk result (values_of self.new ≡ slice_set (values_of self.old) node value) }
    {
        if !self.takes(value) {
            *self = self.widened(alloc, value)?;
        }
        self.put(node, value);
        Ok(())
    }

    /// Writes a value at a node, into cells that are widened where they cannot hold it as they are.
    #[inline(always)]
    pub fn set(&mut self, alloc: Global, node: usize, value: Value) -> Result<(), NoMemory>
        requires { node < length (values_of self.old) }
        ensures { OnOk result (values_of self.new ≡ slice_set (values_of self.old) node value) }
    {
        if self.overwrite(node, value) {
            return Ok(());
        }
        self.put_widened(alloc, node, value)
    }

    /// Cells for values of a type, of no node so far, with room for some.
    pub fn with_capacity(alloc: Global, vtype: VType, nodes: usize) -> Result<Cells, NoMemory>
        ensures { IfOk result (λ cells. values_of cells ≡ []) }
    {
        match vtype {
            VType::I32 => Ok(Cells::Ints(Vec::with_capacity(alloc, nodes)?)),
            VType::I64 => Ok(Cells::Longs(Vec::with_capacity(alloc, nodes)?)),
            VType::Flag => Ok(Cells::Flags(Vec::with_capacity(alloc, nodes)?)),
            VType::Node => Ok(Cells::Nodes(Vec::with_capacity(alloc, nodes)?)),
        }
    }

    /// Adds a node with a value, if the cells hold values of its type one by one. Answers whether they do.
    #[inline(always)]
    pub fn push(&mut self, value: Value) -> Result<bool, NoMemory>
        ensures { IfOk result (λ pushed. IsTrue pushed → values_of self.new ≡ values_of self.old ++ value ∷ []) }
    {
        match (self, value) {
            (Cells::Ints(cells), Value::I32(cell)) => cells.push(cell)?,
            (Cells::Longs(cells), Value::I64(cell)) => cells.push(cell)?,
            (Cells::Flags(cells), Value::Flag(cell)) => cells.push(cell)?,
            (Cells::Nodes(cells), Value::At(node)) if is_storable(node) => {
                cells.push(cell_of(node))?;
            }
            _ => return Ok(false),
        }
        Ok(true)
    }

    /// Cells with the same values.
    pub fn copied(&self, alloc: Global) -> Result<Cells, NoMemory>
        ensures { IfOk result (λ cells. values_of cells ≡ values_of self.now) }
    {
        match self {
            Cells::Uniform { value, nodes } => Ok(Cells::Uniform {
                value: *value,
                nodes: *nodes,
            }),
            Cells::Ints(cells) => Ok(Cells::Ints(cells.as_slice().to_vec(alloc)?)),
            Cells::Longs(cells) => Ok(Cells::Longs(cells.as_slice().to_vec(alloc)?)),
            Cells::Flags(cells) => Ok(Cells::Flags(cells.as_slice().to_vec(alloc)?)),
            Cells::Nodes(cells) => Ok(Cells::Nodes(cells.as_slice().to_vec(alloc)?)),
            Cells::Mixed(cells) => Ok(Cells::Mixed(cells.as_slice().to_vec(alloc)?)),
        }
    }

    /// The values as a finished list, typed where they are of one type.
    pub fn finished(&self, alloc: Global) -> Result<Values, NoMemory>
        ensures { IfOk result (λ values. values ≡ values_of self.now) }
    {
        match self.column(alloc, self.vtype())? {
            Some(column) => Ok(Values::new(column)),
            None => Ok(Values::of_any_type(self.mixed(alloc)?)),
        }
    }

    // The type of the first value.
    fn vtype(&self) -> VType {
        if self.len() > 0 {
            self.get(0).type_of()
        } else {
            VType::I32
        }
    }

    // The values as a column of a type, where it can hold them all.
    fn column(&self, alloc: Global, vtype: VType) -> Result<Option<Column>, NoMemory>
        ensures { IfOk result (λ held. IfSome held (λ column. column.values ≡ values_of self.now)) }
    {
        let mut column = Column::new(alloc, vtype);
        for node in 0..self.len() {
            let value = self.get(node);
            if !can_hold(vtype, value) {
                return Ok(None);
            }
            column.push(value)?;
        }
        Ok(Some(column))
    }

    // The values, one by one.
    fn mixed(&self, alloc: Global) -> Result<Vec<Value>, NoMemory>
        ensures { IfOk result (λ values. values.items ≡ values_of self.now) }
    {
        let mut values = Vec::with_capacity(alloc, self.len())?;
        for node in 0..self.len() {
            values.push(self.get(node))?;
        }
        Ok(values)
    }
}

// Typed cells with one value at each node.
fn filled(alloc: Global, value: Value, nodes: usize) -> Result<Cells, NoMemory>
    ensures { IfOk result (λ cells. values_of cells ≡ replicate nodes value) }
{
    match value {
        Value::I32(cell) => Ok(Cells::Ints(ints(alloc, cell, nodes)?)),
        Value::I64(cell) => Ok(Cells::Longs(longs(alloc, cell, nodes)?)),
        Value::Flag(cell) => Ok(Cells::Flags(flags(alloc, cell, nodes)?)),
        Value::At(node) if is_storable(node) => {
            Ok(Cells::Nodes(vec![in alloc; cell_of(node); nodes]?))
        }
        _ => Ok(Cells::Mixed(vec![in alloc; value; nodes]?)),
    }
}

// The same number at each node.
fn ints(alloc: Global, cell: i32, nodes: usize) -> Result<Vec<i32>, NoMemory>
    ensures { IfOk result (λ cells. cells.items ≡ replicate nodes cell) }
{
    Ok(vec![in alloc; cell; nodes]?)
}

// The same long number at each node.
fn longs(alloc: Global, cell: i64, nodes: usize) -> Result<Vec<i64>, NoMemory>
    ensures { IfOk result (λ cells. cells.items ≡ replicate nodes cell) }
{
    Ok(vec![in alloc; cell; nodes]?)
}

// The same truth value at each node.
fn flags(alloc: Global, cell: bool, nodes: usize) -> Result<Vec<bool>, NoMemory>
    ensures { IfOk result (λ cells. cells.items ≡ replicate nodes cell) }
{
    Ok(vec![in alloc; cell; nodes]?)
}
