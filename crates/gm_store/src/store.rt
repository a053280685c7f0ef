//! The store of a run.

ghost use Rattle.std.specs.Prelude.{◌≡◌, ◌<◌, ◌≤◌, ◌+◌, ℕ, [], ◌∷◌, ◌++◌, All, OnOk, OnErr, length, slice_index_or, take, drop};
ghost use Rattle.gm_semantics.specs.Stores.{write, fill};
ghost use Rattle.gm_semantics.specs.declared.slots.Slot.TheVariants.{Scalar};
ghost use Rattle.gm_columns.specs.Cells.{values_of};
ghost use Rattle.gm_store.specs.Held.{replaced, uniform_row, scalar_of, node_of, held_at, store_of, shape_of, HasSlot, undone, Reversible};

use crate::rows::Row;
use gm_base::NoMemory;
use gm_columns::Cells;
use gm_semantics::slots::{Slot, Write};
use gm_value::Value;
use std::alloc::Global;
use std::marker::Model;

/// The values of a run's scalars, and of its properties at the nodes, with a log of writes that can be taken back.
///
/// Scalars and properties are counted from 0 in the order in which they were added; nodes are indices from 0. A
/// property has a value at each node, and one more that stands for what is no node. Reads and writes take constant
/// time. A property that has one value at every node takes no room for it, and the first other value makes it a row
/// of that value's type.
#[derive(Debug, Drop)]
pub struct Store {
    alloc: Global,
    nodes: u32,
    scalars: Vec<Value>,
    rows: Vec<Row>,
    undo: Vec<Write>,
}

impl Model for Store {
    ghost use Rattle.gm_store.specs.Held.{Held, IsSound};

    ghost Value = { Held };

    ghost view = { λ store. record { nodes = store.nodes; scalars = store.scalars.items; rows = store.rows.items; undo = store.undo.items } };

    ghost invariant = { λ store. IsSound (record { nodes = store.nodes; scalars = store.scalars.items; rows = store.rows.items; undo = store.undo.items }) };
}

impl Store {
    /// A store for a number of nodes, at most 2147483647, with no scalar, no property and no write to take back.
    pub fn new(alloc: Global, nodes: u32) -> Self
        requires { nodes ≤ 2147483647 }
        ensures { result ≡ record { nodes = nodes; scalars = []; rows = []; undo = [] } }
    {
        Store {
            alloc,
            nodes,
            scalars: Vec::new(alloc),
            rows: Vec::new(alloc),
            undo: Vec::new(alloc),
        }
    }

    /// Where the store takes its memory.
    pub fn allocator(&self) -> Global {
        self.alloc
    }

    /// How many nodes there are.
    pub fn nodes(&self) -> u32
        ensures nodes { result ≡ self.now.nodes }
        ensures within { result ≤ 2147483647 }
    {
        self.nodes
    }

    /// Adds a scalar with a value. Where there is not enough memory the store stays as it was.
    pub fn add_scalar(&mut self, value: Value) -> Result<(), NoMemory>
        ensures added { OnOk result (self.new ≡ record self.old { scalars = self.old.scalars ++ value ∷ [] }) }
        ensures store { OnOk result ((edge : ℕ → ℕ → Value) →
            store_of edge self.new ≡ write (store_of edge self.old) (Scalar (length self.old.scalars)) value) }
        ensures shape { OnOk result (shape_of self.new ≡ record (shape_of self.old) { scalars = length self.old.scalars + 1 }) }
        ensures unchanged { OnErr result (self.new ≡ self.old) }
    {
        self.scalars.push(value)?;
        Ok(())
    }

    /// Adds a property that has a value at every node, and at what is no node. Where there is not enough memory the
    /// store stays as it was.
    pub fn add_row(&mut self, other: Value) -> Result<(), NoMemory>
        ensures added { OnOk result (self.new ≡ record self.old { rows = self.old.rows ++ uniform_row self.old.nodes other ∷ [] }) }
        ensures store { OnOk result ((edge : ℕ → ℕ → Value) →
            store_of edge self.new ≡ fill (store_of edge self.old) (length self.old.rows) other) }
        ensures shape { OnOk result (shape_of self.new ≡ record (shape_of self.old) { rows = length self.old.rows + 1 }) }
        ensures unchanged { OnErr result (self.new ≡ self.old) }
    {
        let row = Row::uniform(self.nodes as usize, other);
        self.rows.push(row)?;
        Ok(())
    }

    /// The value of a scalar.
    pub fn scalar(&self, scalar: u32) -> Value
        requires { scalar < length self.now.scalars }
        ensures { result ≡ scalar_of self.now scalar }
    {
        self.scalars[scalar as usize]
    }

    /// The value of a property at a node.
    pub fn node(&self, property: u32, node: u32) -> Value
        requires property { property < length self.now.rows }
        requires node { node < self.now.nodes }
        ensures { result ≡ node_of self.now property node }
    {
        let row = &self.rows[property as usize];
        row.get(node as usize)
    }

    /// What a slot holds.
    pub fn read(&self, slot: Slot) -> Value
        requires { HasSlot (shape_of self.now) slot }
        ensures { result ≡ held_at self.now slot }
    {
        match slot {
            Slot::Scalar(scalar) => self.scalar(scalar),
            Slot::Node { property, node } => self.node(property, node),
        }
    }

    /// Writes a scalar. The write is not logged: it stays when others are taken back.
    pub fn set_scalar(&mut self, scalar: u32, value: Value)
        requires { scalar < length self.old.scalars }
        ensures store { (edge : ℕ → ℕ → Value) → store_of edge self.new ≡ write (store_of edge self.old) (Scalar scalar) value }
        ensures undo { self.new.undo ≡ self.old.undo }
        ensures shape { shape_of self.new ≡ shape_of self.old }
    {
        self.scalars[scalar as usize] = value;
    }

    /// Writes a slot. The write is not logged: it stays when others are taken back. Where there is not enough
    /// memory the store stays as it was.
    pub fn set(&mut self, slot: Slot, value: Value) -> Result<(), NoMemory>
        requires { HasSlot (shape_of self.old) slot }
        ensures store { OnOk result ((edge : ℕ → ℕ → Value) →
            store_of edge self.new ≡ write (store_of edge self.old) slot value) }
        ensures undo { OnOk result (self.new.undo ≡ self.old.undo) }
        ensures shape { OnOk result (shape_of self.new ≡ shape_of self.old) }
        ensures unchanged { OnErr result (self.new ≡ self.old) }
    {
        match slot {
            Slot::Scalar(scalar) => self.scalars[scalar as usize] = value,
            Slot::Node { property, node } => {
                let row = &mut self.rows[property as usize];
                row.set(self.alloc, node as usize, value)?;
            }
        }
        Ok(())
    }

    /// Writes a slot, and logs the value that it held, so that the write can be taken back. Where there is not
    /// enough memory the store stays as it was.
    pub fn write(&mut self, slot: Slot, value: Value) -> Result<(), NoMemory>
        requires { HasSlot (shape_of self.old) slot }
        ensures store { OnOk result ((edge : ℕ → ℕ → Value) →
            store_of edge self.new ≡ write (store_of edge self.old) slot value) }
        ensures undo { OnOk result (self.new.undo ≡ self.old.undo ++ record { slot = slot; value = held_at self.old slot } ∷ []) }
        ensures shape { OnOk result (shape_of self.new ≡ shape_of self.old) }
        ensures unchanged { OnErr result (self.new ≡ self.old) }
    {
        let value_before = self.read(slot);
        self.undo.push(Write {
            slot,
            value: value_before,
        })?;
        if let Err(error) = self.set(slot, value) {
            self.undo.pop();
            return Err(error);
        }
        Ok(())
    }

    /// Gives a property one value at every node, and at what is no node. This is not logged: it stays when writes
    /// are taken back.
    pub fn fill(&mut self, property: u32, value: Value)
        requires { property < length self.old.rows }
        ensures store { (edge : ℕ → ℕ → Value) → store_of edge self.new ≡ fill (store_of edge self.old) property value }
        ensures undo { self.new.undo ≡ self.old.undo }
        ensures shape { shape_of self.new ≡ shape_of self.old }
    {
        self.rows[property as usize] = Row::uniform(self.nodes as usize, value);
    }

    /// The values of a property by node.
    pub fn cells(&self, property: u32) -> &Cells
        requires { property < length self.now.rows }
        ensures full { length (values_of result.now) ≡ self.now.nodes }
        ensures values { (n : ℕ) (d : Value) → n < self.now.nodes → slice_index_or (values_of result.now) n d ≡ node_of self.now property n }
    {
        let row = &self.rows[property as usize];
        row.cells()
    }

    /// Gives a property other values, one for each node. What is no node keeps its value. This is not logged: it stays
    /// when writes are taken back.
    pub fn replace(&mut self, property: u32, cells: Cells)
        requires property { property < length self.old.rows }
        requires full { length (values_of cells) ≡ self.old.nodes }
        ensures store { (edge : ℕ → ℕ → Value) → store_of edge self.new ≡ replaced (store_of edge self.old) property (values_of cells) }
        ensures undo { self.new.undo ≡ self.old.undo }
        ensures shape { shape_of self.new ≡ shape_of self.old }
    {
        let row = &mut self.rows[property as usize];
        row.replace(cells);
    }

    /// The logged writes, in order, each with the value that its slot held before.
    pub fn undo(&self) -> &[Write]
        ensures logged { result.now ≡ self.now.undo }
        ensures slots { All (λ w. HasSlot (shape_of self.now) w.slot) result.now }
    {
        &self.undo
    }

    /// The place in the log where it ends now: how many writes are logged.
    pub fn mark(&self) -> usize
        ensures { result ≡ length self.now.undo }
    {
        self.undo.len()
    }

    /// Takes the logged writes from a mark on back, the last one first. Where there is not enough memory, the writes
    /// that have left the log are taken back, and the others are not.
    pub fn roll_back(&mut self, mark: usize) -> Result<(), NoMemory>
        requires { mark ≤ length self.old.undo }
        ensures store { OnOk result ((edge : ℕ → ℕ → Value) →
            store_of edge self.new ≡ undone (store_of edge self.old) (drop mark self.old.undo)) }
        ensures undo { OnOk result (self.new.undo ≡ take mark self.old.undo) }
        ensures shape { shape_of self.new ≡ shape_of self.old }
        ensures course { Reversible self.new self.old }
    {
        while self.undo.len() > mark {
            self.take_back_last()?;
        }
        Ok(())
    }

    // Takes the last logged write back. Where there is not enough memory the store stays as it was.
    fn take_back_last(&mut self) -> Result<(), NoMemory>
        requires { 0 < length self.old.undo }
        ensures shorter { OnOk result (length self.new.undo + 1 ≡ length self.old.undo) }
        ensures course { Reversible self.new self.old }
    {
        let last = self.undo[self.undo.len() - 1];
        self.set(last.slot, last.value)?;
        self.undo.pop();
        Ok(())
    }

    /// Empties the log: no write up to now can be taken back any more.
    pub fn forget(&mut self)
        ensures { self.new ≡ record self.old { undo = [] } }
    {
        self.undo.clear();
    }
}
