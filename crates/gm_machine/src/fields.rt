//! The fields of all nodes, in a typed row for each field.

ghost use Rattle.std.specs.Prelude.{◌≡◌, ◌<◌, ◌≤◌, ℕ, OnOk, IfOk, All, None, [], map, length, replicate, slice_index_or, slice_set};
ghost use Rattle.gm_value.specs.declared.values.Value.TheVariants.{At};
ghost use Rattle.gm_value.specs.Numbers.{zero_of};
ghost use Rattle.gm_columns.specs.Cells.{values_of};
ghost use Rattle.gm_machine.specs.Expressions.{value_at};
ghost use Rattle.gm_machine.specs.Fields.{with_row, fields_of, columns_of, by_node, AreFull, IsFull};
ghost use Rattle.gm_machine.specs.Machine.{row_at, column_of};

use gm_base::NoMemory;
use gm_columns::{Cells, Values};
use gm_value::{VType, Value};
use std::alloc::Global;
use std::marker::Model;
use std::mem;

// The fields of so many nodes: a row of cells for each field.
#[derive(Drop)]
pub(crate) struct FieldColumns {
    nodes: usize,
    rows: Vec<Cells>,
}

/// The fields of some nodes. A node is named by its place among them.
#[derive(Drop)]
pub struct Fields {
    pub(crate) columns: FieldColumns,
}

impl Model for Fields {
    ghost use Rattle.gm_machine.specs.Expressions.{value_at};
    ghost use Rattle.gm_machine.specs.Fields.{HeldFields};

    ghost Value = { HeldFields };

    ghost use Rattle.std.specs.Prelude.{length};
    ghost use Rattle.gm_machine.specs.Expressions.{value_at};
    ghost use Rattle.gm_machine.specs.Fields.{fields_of, IsFull};

    ghost view = { λ f. record { width = length f.columns.rows.items; rows = fields_of f.columns } };

    ghost invariant = { λ f. IsFull (length f.columns.rows.items) f.columns };
}

// Puts the values of a node, one of each row, into a list.
fn load(rows: &[Cells], node: usize, into: &mut Vec<Value>) -> Result<(), NoMemory>
    requires { All (λ values. node < length values) (map values_of rows.now) }
    ensures { OnOk result (into.new.items ≡ row_at (map values_of rows.now) node) }
{
    into.clear();
    for row in rows {
        into.push(row.get(node))?;
    }
    Ok(())
}

// Puts the values of a node, one of each row, over those of a list that is as long.
#[inline(always)]
fn reload(rows: &[Cells], node: usize, into: &mut Vec<Value>)
    requires inside { All (λ values. node < length values) (map values_of rows.now) }
    requires long { length into.old.items ≡ length rows.now }
    ensures { into.new.items ≡ row_at (map values_of rows.now) node }
{
    for (slot, row) in rows.iter().enumerate() {
        into[slot] = row.get(node);
    }
}

// Writes a value of a node into a row.
#[inline(always)]
fn write(
    alloc: Global,
    rows: &mut Vec<Cells>,
    slot: usize,
    node: usize,
    value: Value,
) -> Result<(), NoMemory>
    requires slot { slot < length rows.old.items }
    requires node { node < length (slice_index_or (map values_of rows.old.items) slot []) }
    ensures { OnOk result (map values_of rows.new.items
        ≡ slice_set (map values_of rows.old.items) slot (slice_set (slice_index_or (map values_of rows.old.items) slot []) node value)) }
{
    let row = &mut rows[slot];
    row.set(alloc, node, value)?;
    Ok(())
}

// Writes the values of a node, one into each row.
fn store(alloc: Global, rows: &mut Vec<Cells>, node: usize, from: &[Value]) -> Result<(), NoMemory>
    requires node { All (λ values. node < length values) (map values_of rows.old.items) }
    requires wide { length from.now ≡ length rows.old.items }
    ensures { OnOk result (map values_of rows.new.items ≡ with_row (map values_of rows.old.items) node from.now) }
{
    for slot in 0..rows.len() {
        write(alloc, rows, slot, node, from[slot])?;
    }
    Ok(())
}

// NIL at each node.
fn nothing(alloc: Global, nodes: usize) -> Result<Values, NoMemory>
    ensures { IfOk result (λ values. values ≡ replicate nodes (At None)) }
{
    let values = vec![in alloc; Value::At(None); nodes]?;
    Ok(Values::of_any_type(values))
}

impl Fields {
    /// The fields of so many nodes, each of which is the zero of its type.
    pub fn new(alloc: Global, types: &[VType], nodes: usize) -> Result<Fields, NoMemory>
        ensures width { IfOk result (λ f. f.width ≡ length types.now) }
        ensures rows { IfOk result (λ f. f.rows ≡ replicate nodes (map zero_of types.now)) }
    {
        let columns = FieldColumns::new(alloc, types, nodes)?;
        Ok(Fields { columns })
    }

    /// The fields of so many nodes, from columns: one for each field, with a value for each node.
    pub fn from_columns(nodes: usize, columns: Vec<Cells>) -> Fields
        requires { AreFull nodes (map values_of columns.items) }
        ensures width { result.width ≡ length columns.items }
        ensures rows { result.rows ≡ by_node nodes (map values_of columns.items) }
    {
        Fields {
            columns: FieldColumns {
                nodes,
                rows: columns,
            },
        }
    }

    /// The columns of the fields, one for each field, with a value for each node. They are not copied.
    pub fn into_columns(self) -> Vec<Cells>
        ensures width { length result.items ≡ self.width }
        ensures full { AreFull (length self.rows) (map values_of result.items) }
        ensures rows { self.rows ≡ by_node (length self.rows) (map values_of result.items) }
    {
        let FieldColumns { rows, .. } = self.columns;
        rows
    }

    /// How many nodes there are.
    pub fn len(&self) -> usize
        ensures { result ≡ length self.now.rows }
    {
        self.columns.nodes
    }

    /// A field of the node at a place, NIL where there is no such field.
    pub fn get(&self, place: usize, slot: usize) -> Value
        requires { place < length self.now.rows }
        ensures { result ≡ value_at (slice_index_or self.now.rows place []) slot }
    {
        self.columns.get(place, slot)
    }

    /// Puts the fields of the node at a place into a list.
    pub fn load(&self, place: usize, into: &mut Vec<Value>) -> Result<(), NoMemory>
        requires { place < length self.now.rows }
        ensures { OnOk result (into.new.items ≡ slice_index_or self.now.rows place []) }
    {
        self.columns.load(place, into)
    }

    /// Puts new fields of the node at a place in the place of the old ones. Where there is not enough memory no fields
    /// are left.
    pub fn store(&mut self, alloc: Global, place: usize, from: &[Value]) -> Result<(), NoMemory>
        requires place { place < length self.old.rows }
        requires wide { length from.now ≡ self.old.width }
        ensures width { OnOk result (self.new.width ≡ self.old.width) }
        ensures rows { OnOk result (self.new.rows ≡ slice_set self.old.rows place from.now) }
    {
        let mut columns = mem::replace(&mut self.columns, FieldColumns::none(alloc));
        columns.store(alloc, place, from)?;
        self.columns = columns;
        Ok(())
    }
}

impl FieldColumns {
    // No fields of no nodes. It keeps the allocator and takes no memory.
    pub(crate) fn none(alloc: Global) -> FieldColumns
        ensures { IsFull 0 result }
    {
        FieldColumns {
            nodes: 0,
            rows: Vec::new(alloc),
        }
    }

    // A row for each of some types, with the type's zero at each node.
    pub(crate) fn new(
        alloc: Global,
        types: &[VType],
        nodes: usize,
    ) -> Result<FieldColumns, NoMemory>
        ensures nodes { IfOk result (λ f. f.nodes ≡ nodes) }
        ensures full { IfOk result (λ f. IsFull (length types.now) f) }
        ensures zero { IfOk result (λ f. map values_of f.rows.items ≡ map (λ t. replicate nodes (zero_of t)) types.now) }
    {
        let mut rows = Vec::new(alloc);
        for t in types {
            rows.push(Cells::Uniform {
                value: t.zero(),
                nodes,
            })?;
        }
        Ok(FieldColumns { nodes, rows })
    }

    // A field of a node, NIL where there is no such field.
    pub(crate) fn get(&self, node: usize, slot: usize) -> Value
        requires node { node < self.now.nodes }
        requires full { IsFull (length self.now.rows.items) self.now }
        ensures { result ≡ value_at (slice_index_or (fields_of self.now) node []) slot }
    {
        match self.rows.get(slot) {
            Some(row) => row.get(node),
            None => Value::At(None),
        }
    }

    // Puts the fields of a node into a list.
    pub(crate) fn load(&self, node: usize, into: &mut Vec<Value>) -> Result<(), NoMemory>
        requires node { node < self.now.nodes }
        requires full { IsFull (length self.now.rows.items) self.now }
        ensures { OnOk result (into.new.items ≡ slice_index_or (fields_of self.now) node []) }
    {
        if into.len() == self.rows.len() {
            reload(&self.rows, node, into);
            return Ok(());
        }
        load(&self.rows, node, into)?;
        Ok(())
    }

    // Writes the fields of a node.
    pub(crate) fn store(
        &mut self,
        alloc: Global,
        node: usize,
        from: &[Value],
    ) -> Result<(), NoMemory>
        requires node { node < self.old.nodes }
        requires full { IsFull (length from.now) self.old }
        ensures nodes { OnOk result (self.new.nodes ≡ self.old.nodes) }
        ensures full { OnOk result (IsFull (length from.now) self.new) }
        ensures fields { OnOk result (fields_of self.new ≡ slice_set (fields_of self.old) node from.now) }
    {
        store(alloc, &mut self.rows, node, from)?;
        Ok(())
    }

    // The values of a field by node, NIL where there is no such field.
    pub(crate) fn column(&self, alloc: Global, slot: usize) -> Result<Values, NoMemory>
        requires { IsFull (length self.now.rows.items) self.now }
        ensures { IfOk result (λ values. values ≡ column_of (fields_of self.now) slot) }
    {
        match self.rows.get(slot) {
            Some(row) => {
                let values = row.finished(alloc)?;
                Ok(values)
            }
            None => {
                let values = nothing(alloc, self.nodes)?;
                Ok(values)
            }
        }
    }
}
