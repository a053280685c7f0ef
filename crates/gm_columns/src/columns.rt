//! Columns of values of one type, as rows of plain numbers.

ghost use Rattle.std.specs.Prelude.{◌≡◌, ◌<◌, ◌==◌, [], ◌∷◌, ◌++◌, All, IfOk, Some, length, map, slice_get, slice_index_or, OnOk, OnErr};
ghost use Rattle.gm_value.specs.declared.values.Value.{Value as AnyValue};
ghost use Rattle.gm_value.specs.declared.values.Value.TheVariants.{At};
ghost use Rattle.gm_columns.specs.Columns.{CanHold, IsStorable};
ghost use Rattle.gm_columns.specs.TypedRows.{typed_row};

use crate::nodes::{cell_of, node_in};
use gm_base::NoMemory;
use gm_value::{VType, Value};
use std::alloc::Global;
use std::marker::Model;

/// The values of a column, as a row of plain numbers or truth values of its type. A row of node indices has the greatest
/// number where the value is NIL.
#[derive(Debug, Drop)]
pub enum TypedCells {
    Ints(Vec<i32>),
    Longs(Vec<i64>),
    Flags(Vec<bool>),
    Nodes(Vec<u32>),
}

/// A column of values of one type, by row from 0. Contracts see the type and the list of the values.
#[derive(Debug, Drop)]
pub struct Column {
    cells: TypedCells,
}

impl Model for Column {
    ghost use Rattle.gm_value.specs.declared.values.VType.TheVariants.{Node};
    ghost use Rattle.gm_columns.specs.Columns.{TypedRow};

    ghost Value = { TypedRow };

    ghost use Rattle.gm_columns.specs.TypedRows.{typed_row};

    ghost view = { λ column. typed_row column.cells };
}

impl TypedCells {
    fn vtype(&self) -> VType
        ensures { result ≡ (typed_row self.now).vtype }
    {
        match self {
            TypedCells::Ints(_) => VType::I32,
            TypedCells::Longs(_) => VType::I64,
            TypedCells::Flags(_) => VType::Flag,
            TypedCells::Nodes(_) => VType::Node,
        }
    }
}

impl Column {
    /// A column of a type that has no row yet. It keeps the allocator and takes no memory.
    pub fn new(alloc: Global, vtype: VType) -> Self
        ensures vtype { result.vtype ≡ vtype }
        ensures no_rows { result.values ≡ [] }
    {
        let cells = match vtype {
            VType::I32 => TypedCells::Ints(Vec::new(alloc)),
            VType::I64 => TypedCells::Longs(Vec::new(alloc)),
            VType::Flag => TypedCells::Flags(Vec::new(alloc)),
            VType::Node => TypedCells::Nodes(Vec::new(alloc)),
        };
        Column { cells }
    }

    /// A column of a row of plain numbers. It takes no memory.
    pub fn of(cells: TypedCells) -> Self
        ensures { result ≡ typed_row cells }
    {
        Column { cells }
    }

    /// The values as a row of plain numbers, for loops over all of them.
    pub fn cells(&self) -> &TypedCells
        ensures { typed_row result.now ≡ self.now }
    {
        &self.cells
    }

    /// The type of the values. Each value is one of that type.
    pub fn vtype(&self) -> VType
        ensures vtype { result ≡ self.now.vtype }
        ensures held { All (CanHold self.now.vtype) self.now.values }
    {
        self.cells.vtype()
    }

    /// How many rows there are.
    pub fn len(&self) -> usize
        ensures { result ≡ length self.now.values }
    {
        match &self.cells {
            TypedCells::Ints(cells) => cells.len(),
            TypedCells::Longs(cells) => cells.len(),
            TypedCells::Flags(cells) => cells.len(),
            TypedCells::Nodes(cells) => cells.len(),
        }
    }

    /// Whether there is no row.
    pub fn is_empty(&self) -> bool
        ensures { result ≡ (length self.now.values == 0) }
    {
        self.len() == 0
    }

    /// The value in a row. The row is an index from 0.
    pub fn get(&self, row: usize) -> Value
        requires { row < length self.now.values }
        ensures value { slice_get self.now.values row ≡ Some result }
        ensures held { CanHold self.now.vtype result }
    {
        match &self.cells {
            TypedCells::Ints(cells) => Value::I32(cells[row]),
            TypedCells::Longs(cells) => Value::I64(cells[row]),
            TypedCells::Flags(cells) => Value::Flag(cells[row]),
            TypedCells::Nodes(cells) => node_in(cells[row]),
        }
    }

    /// Adds a row. Where there is not enough memory the column stays as it was.
    pub fn push(&mut self, value: Value) -> Result<(), NoMemory>
        requires { CanHold self.old.vtype value }
        ensures vtype { self.new.vtype ≡ self.old.vtype }
        ensures added { OnOk result (self.new.values ≡ self.old.values ++ value ∷ []) }
        ensures unchanged { OnErr result (self.new ≡ self.old) }
    {
        match (&mut self.cells, value) {
            (TypedCells::Ints(cells), Value::I32(cell)) => cells.push(cell)?,
            (TypedCells::Longs(cells), Value::I64(cell)) => cells.push(cell)?,
            (TypedCells::Flags(cells), Value::Flag(cell)) => cells.push(cell)?,
            (TypedCells::Nodes(cells), Value::At(node)) => cells.push(cell_of(node))?,
            _ => unreachable!(),
        }
        Ok(())
    }
}

// The cells of some rows, one after another.
fn picked<T: Copy>(alloc: Global, cells: &[T], rows: &[u32]) -> Result<Vec<T>, NoMemory>
    requires { All (λ row. row < length cells.now) rows.now }
    ensures { IfOk result (λ picked. (d : T) → picked.items ≡ map (λ row. slice_index_or cells.now row d) rows.now) }
{
    let mut picked = Vec::with_capacity(alloc, rows.len())?;
    for row in rows {
        picked.push(cells[*row as usize])?;
    }
    Ok(picked)
}

impl TypedCells {
    // The cells of some rows, one after another.
    fn picked(&self, alloc: Global, rows: &[u32]) -> Result<TypedCells, NoMemory>
        requires { All (λ row. row < length (typed_row self.now).values) rows.now }
        ensures vtype { IfOk result (λ cells. (typed_row cells).vtype ≡ (typed_row self.now).vtype) }
        ensures values { IfOk result (λ cells. (d : AnyValue)
            → (typed_row cells).values ≡ map (λ row. slice_index_or (typed_row self.now).values row d) rows.now) }
    {
        match self {
            TypedCells::Ints(cells) => Ok(TypedCells::Ints(picked(alloc, cells, rows)?)),
            TypedCells::Longs(cells) => Ok(TypedCells::Longs(picked(alloc, cells, rows)?)),
            TypedCells::Flags(cells) => Ok(TypedCells::Flags(picked(alloc, cells, rows)?)),
            TypedCells::Nodes(cells) => Ok(TypedCells::Nodes(picked(alloc, cells, rows)?)),
        }
    }
}

impl Column {
    /// The values of some rows, one after another, in a column of the same type. The rows are indices from 0.
    pub fn picked(&self, alloc: Global, rows: &[u32]) -> Result<Column, NoMemory>
        requires { All (λ row. row < length self.now.values) rows.now }
        ensures vtype { IfOk result (λ column. column.vtype ≡ self.now.vtype) }
        ensures values { IfOk result (λ column. (d : AnyValue)
            → column.values ≡ map (λ row. slice_index_or self.now.values row d) rows.now) }
    {
        Ok(Column {
            cells: self.cells.picked(alloc, rows)?,
        })
    }
}

// Finished values: of one type in a column, or of any types one by one.
#[derive(Debug, Drop)]
enum Finished {
    Typed(Column),
    Mixed(Vec<Value>),
}

/// A finished list of values, which contracts see as that list alone. It takes the room of a typed column where its
/// values are of one type.
#[derive(Debug, Drop)]
pub struct Values {
    finished: Finished,
}

impl Model for Values {
    ghost use Rattle.std.specs.Prelude.{List};
    ghost use Rattle.gm_value.specs.declared.values.Value.{Value as GmValue};

    ghost Value = { List GmValue };

    ghost use Rattle.gm_columns.specs.TypedRows.{finished_values};

    ghost view = { λ it. finished_values it.finished };
}

impl Values {
    /// The values of a column. It takes no memory.
    pub fn new(column: Column) -> Self
        ensures { result ≡ column.values }
    {
        Values {
            finished: Finished::Typed(column),
        }
    }

    /// Values of any types, one by one. It takes no memory.
    pub fn of_any_type(values: Vec<Value>) -> Self
        ensures { result ≡ values.items }
    {
        Values {
            finished: Finished::Mixed(values),
        }
    }

    /// How many values there are.
    pub fn len(&self) -> usize
        ensures { result ≡ length self.now }
    {
        match &self.finished {
            Finished::Typed(column) => column.len(),
            Finished::Mixed(values) => values.len(),
        }
    }

    /// Whether there is no value.
    pub fn is_empty(&self) -> bool
        ensures { result ≡ (length self.now == 0) }
    {
        self.len() == 0
    }

    /// The value at an index from 0.
    pub fn get(&self, index: usize) -> Value
        requires { index < length self.now }
        ensures { slice_get self.now index ≡ Some result }
    {
        match &self.finished {
            Finished::Typed(column) => column.get(index),
            Finished::Mixed(values) => values[index],
        }
    }
}
