//! Rows: the values of a property by node.

ghost use Rattle.std.specs.Prelude.{◌≡◌, ◌<◌, ◌≤◌, length, OnOk, OnErr};
ghost use Rattle.gm_columns.specs.Cells.{values_of};
ghost use Rattle.gm_store.specs.Held.{uniform_row, value_in, with_value};

use gm_base::NoMemory;
use gm_columns::Cells;
use gm_value::Value;
use std::alloc::Global;
use std::marker::Model;

// The values of a property, by node, and the value that it has at what is no node.
#[derive(Debug, Drop)]
pub struct Row {
    cells: Cells,
    other: Value,
}

impl Model for Row {
    ghost use Rattle.gm_store.specs.Held.{Row as HeldRow};

    ghost Value = { HeldRow };

    ghost use Rattle.gm_columns.specs.Cells.{values_of};

    ghost view = { λ row. record { values = values_of row.cells; other = row.other } };
}

impl Row {
    // One value at every node and elsewhere, which takes no room.
    pub fn uniform(nodes: usize, value: Value) -> Self
        ensures { result ≡ uniform_row nodes value }
    {
        let cells = Cells::Uniform { value, nodes };
        Row {
            cells,
            other: value,
        }
    }

    // The value at a node.
    pub fn get(&self, node: usize) -> Value
        requires { node < length self.now.values }
        ensures { result ≡ value_in self.now node }
    {
        self.cells.get(node)
    }

    // Writes a value at a node. Where there is not enough memory the row stays as it was.
    pub fn set(&mut self, alloc: Global, node: usize, value: Value) -> Result<(), NoMemory>
        requires { node < length self.old.values }
        ensures ok { OnOk result (self.new ≡ with_value self.old node value) }
        ensures err { OnErr result (self.new ≡ self.old) }
    {
        if !self.cells.takes(value) {
            self.cells = self.cells.widened(alloc, value)?;
        }
        self.cells.put(node, value);
        Ok(())
    }

    // The values by node.
    pub fn cells(&self) -> &Cells
        ensures { values_of result.now ≡ self.now.values }
    {
        &self.cells
    }

    // Other values by node. What is no node keeps its value.
    pub fn replace(&mut self, cells: Cells)
        ensures { self.new ≡ record self.old { values = values_of cells } }
    {
        self.cells = cells;
    }
}
