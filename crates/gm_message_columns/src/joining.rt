//! Lists of messages that are joined, column by column as long as all are of one sort.

ghost use Rattle.std.specs.Prelude.{◌≡◌, ◌<◌, ◌++◌, [], false, IsTrue, IfOk, OnOk, length, map};
ghost use Rattle.gm_columns.specs.TypedRows.{typed_row};
ghost use Rattle.gm_message_columns.specs.MessageTables.{OfOneSort, all_values, directed, emptied, joined, message_rows, rows_if_any, types_of};

use crate::columns::MessageColumns;
use crate::messages::Messages;
use gm_base::NoMemory;
use gm_columns::{Column, TypedCells};
use gm_kernels::append;
use std::alloc::Global;
use std::marker::Model;

// Messages of one sort as rows of plain numbers: to which node each goes, and a row for each value.
#[derive(Drop)]
pub(crate) struct Rows {
    sort: MessageColumns,
    to: Vec<u32>,
    values: Vec<TypedCells>,
}

impl Model for Rows {
    ghost use Rattle.gm_message_columns.specs.MessageTables.{MessageTable};

    ghost Value = { MessageTable };

    ghost use Rattle.std.specs.Prelude.{◌≡◌, length, map};
    ghost use Rattle.gm_columns.specs.TypedRows.{typed_row};
    ghost use Rattle.gm_message_columns.specs.MessageTables.{HaveRows, types_of};

    ghost view = { λ m. record { kind = m.sort.kind; to = m.to.items; columns = map typed_row m.values.items } };

    ghost invariant = { λ m. HaveRows (length m.to.items) (map typed_row m.values.items) × (types_of (map typed_row m.values.items) ≡ types_of m.sort.columns) };
}

// No cell, of the type of a column.
fn no_cells(alloc: Global, column: &Column) -> TypedCells
    ensures { typed_row result ≡ record column.now { values = [] } }
{
    match column.cells() {
        TypedCells::Ints(_) => TypedCells::Ints(Vec::new(alloc)),
        TypedCells::Longs(_) => TypedCells::Longs(Vec::new(alloc)),
        TypedCells::Flags(_) => TypedCells::Flags(Vec::new(alloc)),
        TypedCells::Nodes(_) => TypedCells::Nodes(Vec::new(alloc)),
    }
}

// No cells, for each of some columns.
fn no_values(alloc: Global, columns: &[Column]) -> Result<Vec<TypedCells>, NoMemory>
    ensures { IfOk result (λ rows. map typed_row rows.items ≡ emptied columns.now) }
{
    let mut rows = Vec::with_capacity(alloc, columns.len())?;
    for column in columns {
        rows.push(no_cells(alloc, column))?;
    }
    Ok(rows)
}

// Adds columns of the same types behind rows.
fn append_all(rows: &mut Vec<TypedCells>, columns: &[Column]) -> Result<(), NoMemory>
    requires { types_of (map typed_row rows.old.items) ≡ types_of columns.now }
    ensures { OnOk result (map typed_row rows.new.items ≡ joined (map typed_row rows.old.items) (all_values columns.now)) }
{
    let count = rows.len();
    for k in 0..count {
        append(&mut rows[k], &columns[k])?;
    }
    Ok(())
}

// Rows as columns.
fn columns_of(alloc: Global, rows: Vec<TypedCells>) -> Result<Vec<Column>, NoMemory>
    ensures { IfOk result (λ columns. columns.items ≡ map typed_row rows.items) }
{
    let mut columns = Vec::with_capacity(alloc, rows.len())?;
    for cells in rows {
        columns.push(Column::of(cells))?;
    }
    Ok(columns)
}

impl Rows {
    // No message, of the sort of some in columns.
    fn empty_as(alloc: Global, other: &MessageColumns) -> Result<Self, NoMemory>
        ensures sort { IfOk result (λ none. OfOneSort none other.now) }
        ensures none { IfOk result (λ none. none.to ≡ []) }
    {
        Ok(Rows {
            sort: MessageColumns::empty_as(alloc, other)?,
            to: Vec::new(alloc),
            values: no_values(alloc, other.values())?,
        })
    }

    // These, and behind them messages in columns of their sort, each as one to the node beside it.
    fn with(self, to: &[u32], more: &MessageColumns) -> Result<Self, NoMemory>
        requires sort { OfOneSort self more.now }
        requires nodes { length to.now ≡ length more.now.to }
        ensures sort { IfOk result (λ all. OfOneSort all more.now) }
        ensures added { IfOk result (λ all. message_rows all ≡ message_rows self ++ directed to.now (message_rows more.now)) }
    {
        let Rows {
            sort,
            to: mut nodes,
            mut values,
        } = self;
        nodes.extend_from_slice(to)?;
        append_all(&mut values, more.values())?;
        Ok(Rows {
            sort,
            to: nodes,
            values,
        })
    }

    // Whether messages in columns are of the same kind, with values of the same types.
    fn is_sort_of(&self, other: &MessageColumns) -> bool
        ensures { IsTrue result → OfOneSort self.now other.now }
    {
        self.sort.is_sort_of(other)
    }

    // The messages in columns.
    fn into_columns(self, alloc: Global) -> Result<MessageColumns, NoMemory>
        ensures { IfOk result (λ columns. columns ≡ self) }
    {
        let Rows { sort, to, values } = self;
        Ok(MessageColumns::of(sort.kind(), to, columns_of(alloc, values)?))
    }
}

/// Lists of messages that are joined: column by column as long as all are in columns and of one sort, and one by one from
/// then on.
#[derive(Drop)]
pub struct Joining {
    rows: Option<Rows>,
    behind: Messages,
    alloc: Global,
}

impl Model for Joining {
    ghost use Rattle.std.specs.Prelude.{List};
    ghost use Rattle.gm_machine.specs.Vertex.{Message};

    ghost Value = { List Message };

    ghost use Rattle.std.specs.Prelude.{◌++◌};
    ghost use Rattle.gm_message_columns.specs.MessageTables.{rows_if_any};

    ghost view = { λ m. rows_if_any m.rows ++ m.behind };
}

// Adds messages in columns to others that are so far all in columns of their sort, or to none. Answers whether they are.
fn join_rows(
    alloc: Global,
    rows: Option<Rows>,
    to: &[u32],
    more: &MessageColumns,
) -> Result<(Option<Rows>, bool), NoMemory>
    requires { length to.now ≡ length more.now.to }
    ensures added { IfOk result (λ r. IsTrue r.1 → rows_if_any r.0 ≡ rows_if_any rows ++ directed to.now (message_rows more.now)) }
    ensures unchanged { IfOk result (λ r. r.1 ≡ false → r.0 ≡ rows) }
{
    match rows {
        Some(rows) => {
            if !rows.is_sort_of(more) {
                return Ok((Some(rows), false));
            }
            Ok((Some(rows.with(to, more)?), true))
        }
        None => Ok((Some(Rows::empty_as(alloc, more)?.with(to, more)?), true)),
    }
}

// Adds messages one by one, each as one to the node beside it.
fn add_each_to(messages: &mut Messages, to: &[u32], more: &Messages) -> Result<(), NoMemory>
    requires { length to.now ≡ length more.now }
    ensures { OnOk result (messages.new ≡ messages.old ++ directed to.now more.now) }
{
    let count = to.len();
    for i in 0..count {
        messages.add_to(to[i], more, i)?;
    }
    Ok(())
}

impl Joining {
    /// No message. It takes no memory.
    pub fn empty(alloc: Global) -> Self
        ensures { result ≡ [] }
    {
        Joining {
            rows: None,
            behind: Messages::empty(alloc),
            alloc,
        }
    }

    /// These, and behind them all messages of a list, each as one to the node beside it.
    pub fn with(self, to: &[u32], more: &Messages) -> Result<Self, NoMemory>
        requires { length to.now ≡ length more.now }
        ensures { IfOk result (λ all. all ≡ self ++ directed to.now more.now) }
    {
        let Joining {
            mut rows,
            mut behind,
            alloc,
        } = self;
        if behind.is_empty() {
            if let Some(columns) = more.in_columns() {
                let (joined, done) = join_rows(alloc, rows, to, columns)?;
                if done {
                    return Ok(Joining {
                        rows: joined,
                        behind,
                        alloc,
                    });
                }
                rows = joined;
            }
        }
        add_each_to(&mut behind, to, more)?;
        Ok(Joining {
            rows,
            behind,
            alloc,
        })
    }

    /// The messages as one list, in columns where all are.
    pub fn into_messages(self) -> Result<Messages, NoMemory>
        ensures { IfOk result (λ messages. messages ≡ self) }
    {
        let Joining {
            rows,
            behind,
            alloc,
        } = self;
        match rows {
            Some(rows) => {
                let mut messages = Messages::of_columns(alloc, rows.into_columns(alloc)?);
                messages.append_batch(behind.into_batch()?)?;
                Ok(messages)
            }
            None => Ok(behind),
        }
    }
}
