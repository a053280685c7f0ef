//! Messages of one kind in columns.

ghost use Rattle.std.specs.Prelude.{◌≡◌, ◌<◌, ◌==◌, ◌++◌, ◌∷◌, [], All, IsTrue, IfOk, OnOk, OnErr, length, map, slice_index};
ghost use Rattle.gm_message_columns.specs.MessageTables.{HaveRows, OfOneSort, all_values, joined, message_at, message_rows, message_to, row_values, types_of, values_in_row};

use crate::growing::{
    append_columns, empty_columns, load_row, picked_columns, picked_nodes, push_row, same_types,
};
use gm_base::NoMemory;
use gm_columns::Column;
use gm_value::Value;
use std::alloc::Global;
use std::marker::Model;

/// Messages of one kind whose values have the same types, in columns: to which node each goes, and a column for each
/// value. Contracts see the kind, the nodes and the columns, each of which has a value for each message.
#[derive(Drop)]
pub struct MessageColumns {
    kind: u32,
    to: Vec<u32>,
    values: Vec<Column>,
}

impl Model for MessageColumns {
    ghost use Rattle.gm_message_columns.specs.MessageTables.{MessageTable};

    ghost Value = { MessageTable };

    ghost use Rattle.std.specs.Prelude.{length};
    ghost use Rattle.gm_message_columns.specs.MessageTables.{HaveRows};

    ghost view = { λ m. record { kind = m.kind; to = m.to.items; columns = m.values.items } };

    ghost invariant = { λ m. HaveRows (length m.to.items) m.values.items };
}

// Adds a node, and a row of others to columns of the same types.
#[inline(always)]
fn push_message(
    nodes: &mut Vec<u32>,
    columns: &mut Vec<Column>,
    to: u32,
    others: &[Column],
    row: usize,
) -> Result<(), NoMemory>
    requires types { types_of columns.old.items ≡ types_of others.now }
    requires row { All (λ column. row < length column.values) others.now }
    ensures nodes { OnOk result (nodes.new.items ≡ nodes.old.items ++ to ∷ []) }
    ensures columns { OnOk result (columns.new.items ≡ joined columns.old.items (values_in_row others.now row)) }
{
    nodes.push(to)?;
    push_row(columns, others, row)
}

// Adds nodes, and all rows of others to columns of the same types.
fn append_messages(
    nodes: &mut Vec<u32>,
    columns: &mut Vec<Column>,
    more: &[u32],
    others: &[Column],
) -> Result<(), NoMemory>
    requires { types_of columns.old.items ≡ types_of others.now }
    ensures nodes { OnOk result (nodes.new.items ≡ nodes.old.items ++ more.now) }
    ensures columns { OnOk result (columns.new.items ≡ joined columns.old.items (all_values others.now)) }
{
    nodes.extend_from_slice(more)?;
    append_columns(columns, others)
}

impl MessageColumns {
    /// Messages of a kind to some nodes, with a column for each value, each of which has a value for each message. It
    /// takes no memory.
    pub fn of(kind: u32, to: Vec<u32>, values: Vec<Column>) -> Self
        requires { HaveRows (length to.items) values.items }
        ensures kind { result.kind ≡ kind }
        ensures to { result.to ≡ to.items }
        ensures columns { result.columns ≡ values.items }
    {
        MessageColumns { kind, to, values }
    }

    /// The kind of all the messages.
    pub fn kind(&self) -> u32
        ensures { result ≡ self.now.kind }
    {
        self.kind
    }

    /// The node to which each message goes.
    pub fn to(&self) -> &[u32]
        ensures { result.now ≡ self.now.to }
    {
        &self.to
    }

    /// The node to which a message goes. The row is an index from 0.
    #[inline(always)]
    pub fn to_at(&self, row: usize) -> u32
        requires { row < length self.now.to }
        ensures { result ≡ slice_index self.now.to row }
    {
        self.to[row]
    }

    /// A column for each value of the messages, by row.
    pub fn values(&self) -> &[Column]
        ensures columns { result.now ≡ self.now.columns }
        ensures rows { HaveRows (length self.now.to) result.now }
    {
        &self.values
    }

    /// How many messages there are.
    pub fn len(&self) -> usize
        ensures nodes { result ≡ length self.now.to }
        ensures messages { result ≡ length (message_rows self.now) }
    {
        self.to.len()
    }

    /// Whether there is no message.
    pub fn is_empty(&self) -> bool
        ensures { result ≡ (length self.now.to == 0) }
    {
        self.to.len() == 0
    }

    /// Whether others are of the same kind, with values of the same types.
    #[inline(always)]
    pub fn is_sort_of(&self, other: &MessageColumns) -> bool
        ensures { IsTrue result → OfOneSort self.now other.now }
    {
        self.kind == other.kind && same_types(&self.values, &other.values)
    }

    /// No message, of the sort of others.
    pub fn empty_as(alloc: Global, other: &MessageColumns) -> Result<Self, NoMemory>
        ensures sort { IfOk result (λ none. OfOneSort none other.now) }
        ensures none { IfOk result (λ none. none.to ≡ []) }
    {
        Ok(MessageColumns {
            kind: other.kind,
            to: Vec::new(alloc),
            values: empty_columns(alloc, &other.values)?,
        })
    }

    /// Adds a message of others of the same sort, as one to this node. Where there is not enough memory none are left.
    #[inline(always)]
    pub fn add_row(&mut self, to: u32, other: &MessageColumns, row: usize) -> Result<(), NoMemory>
        requires sort { OfOneSort self.old other.now }
        requires row { row < length other.now.to }
        ensures sort { OnOk result (OfOneSort self.new other.now) }
        ensures added { OnOk result (message_rows self.new ≡ message_rows self.old ++ message_to to other.now row ∷ []) }
        ensures lost { OnErr result (message_rows self.new ≡ []) }
    {
        match push_message(&mut self.to, &mut self.values, to, &other.values, row) {
            Ok(()) => Ok(()),
            Err(NoMemory) => {
                self.to.clear();
                self.values.clear();
                Err(NoMemory)
            }
        }
    }

    /// Adds some of the messages of others of the same sort, in an order. The rows are indices from 0. Where there is not enough
    /// memory none are left.
    pub fn add_rows(&mut self, other: &MessageColumns, rows: &[u32]) -> Result<(), NoMemory>
        requires sort { OfOneSort self.old other.now }
        requires rows { All (λ row. row < length other.now.to) rows.now }
        ensures sort { OnOk result (OfOneSort self.new other.now) }
        ensures added { OnOk result (message_rows self.new ≡ message_rows self.old ++ map (message_at other.now) rows.now) }
        ensures lost { OnErr result (message_rows self.new ≡ []) }
    {
        for row in rows {
            let from = *row as usize;
            self.add_row(other.to_at(from), other, from)?;
        }
        Ok(())
    }

    /// Some of the messages, in an order. The rows are indices from 0.
    pub fn picked(&self, alloc: Global, rows: &[u32]) -> Result<Self, NoMemory>
        requires { All (λ row. row < length self.now.to) rows.now }
        ensures { IfOk result (λ some. message_rows some ≡ map (message_at self.now) rows.now) }
    {
        Ok(MessageColumns {
            kind: self.kind,
            to: picked_nodes(alloc, &self.to, rows)?,
            values: picked_columns(alloc, &self.values, rows)?,
        })
    }

    /// Adds others of the same sort behind these, in their order. Where there is not enough memory none are left.
    pub fn append(&mut self, more: &MessageColumns) -> Result<(), NoMemory>
        requires { OfOneSort self.old more.now }
        ensures sort { OnOk result (OfOneSort self.new more.now) }
        ensures appended { OnOk result (message_rows self.new ≡ message_rows self.old ++ message_rows more.now) }
        ensures lost { OnErr result (message_rows self.new ≡ []) }
    {
        match append_messages(&mut self.to, &mut self.values, &more.to, &more.values) {
            Ok(()) => Ok(()),
            Err(NoMemory) => {
                self.to.clear();
                self.values.clear();
                Err(NoMemory)
            }
        }
    }

    /// Puts the values of a message into a list. The row is an index from 0.
    pub fn load(&self, row: usize, into: &mut Vec<Value>) -> Result<(), NoMemory>
        requires { row < length self.now.to }
        ensures { OnOk result (into.new.items ≡ row_values self.now.columns row) }
    {
        load_row(&self.values, row, into)
    }
}
