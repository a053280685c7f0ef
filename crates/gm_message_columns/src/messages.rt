//! Messages, some of one sort in columns, and behind them others of any kind.

ghost use Rattle.std.specs.Prelude.{◌≡◌, ◌<◌, ◌==◌, ◌+◌, ◌^◌, ◌++◌, ◌∷◌, [], false, All, IsTrue, IfOk, IfSome, OnOk, OnErr, length, map, slice_index_or};
ghost use Rattle.gm_machine.specs.Vertex.{Message};
ghost use Rattle.gm_message_columns.specs.MessageTables.{message_at, message_rows, message_to, rows_if_any};

use crate::columns::MessageColumns;
use gm_base::NoMemory;
use gm_machine::Batch;
use gm_value::Value;
use std::alloc::Global;
use std::marker::Model;

/// A list of messages, in the order of sending: some of one sort in columns, and behind them others of any kind.
#[derive(Drop)]
pub struct Messages {
    columns: Option<MessageColumns>,
    others: Batch,
    room: Vec<Value>,
    alloc: Global,
}

impl Model for Messages {
    ghost use Rattle.std.specs.Prelude.{List};
    ghost use Rattle.gm_machine.specs.Vertex.{Message};

    ghost Value = { List Message };

    ghost use Rattle.std.specs.Prelude.{◌++◌, ◌<◌, ◌^◌, length};
    ghost use Rattle.gm_message_columns.specs.MessageTables.{rows_if_any};

    ghost view = { λ m. rows_if_any m.columns ++ m.others };

    ghost invariant = { λ m. length (rows_if_any m.columns ++ m.others) < 2 ^ 64 };
}

// How many messages are in columns.
#[inline(always)]
fn rows_of(columns: &Option<MessageColumns>) -> usize
    ensures { result ≡ length (rows_if_any columns.now) }
{
    match columns {
        Some(columns) => columns.len(),
        None => 0,
    }
}

// Adds a message of some in columns to others that are in columns, or to none, where it is of their sort. Answers whether it is.
#[inline(always)]
fn add_in_columns(
    alloc: Global,
    columns: &mut Option<MessageColumns>,
    to: u32,
    from: &MessageColumns,
    row: usize,
) -> Result<bool, NoMemory>
    requires { row < length from.now.to }
    ensures added { IfOk result (λ added. IsTrue added → rows_if_any columns.new
        ≡ rows_if_any columns.old ++ message_to to from.now row ∷ []) }
    ensures unchanged { IfOk result (λ added. added ≡ false → columns.new ≡ columns.old) }
    ensures lost { OnErr result (rows_if_any columns.new ≡ []) }
{
    match columns {
        Some(held) => {
            if !held.is_sort_of(from) {
                return Ok(false);
            }
            held.add_row(to, from, row)?;
        }
        None => *columns = Some(one_row(alloc, to, from, row)?),
    }
    Ok(true)
}

// Adds some messages in columns to others that are in columns, where they are of their sort, or where there are none. Answers
// whether they were added.
fn pick_in_columns(
    alloc: Global,
    columns: &mut Option<MessageColumns>,
    from: &MessageColumns,
    rows: &[u32],
) -> Result<bool, NoMemory>
    requires { All (λ row. row < length from.now.to) rows.now }
    ensures added { IfOk result (λ added. IsTrue added → rows_if_any columns.new
        ≡ rows_if_any columns.old ++ map (message_at from.now) rows.now) }
    ensures unchanged { IfOk result (λ added. added ≡ false → columns.new ≡ columns.old) }
    ensures lost { OnErr result (rows_if_any columns.new ≡ []) }
{
    match columns {
        Some(held) => {
            if !held.is_sort_of(from) {
                return Ok(false);
            }
            held.add_rows(from, rows)?;
        }
        None => *columns = Some(from.picked(alloc, rows)?),
    }
    Ok(true)
}

// Adds messages in columns to others that are in columns, where they are of their sort. Answers whether they are.
fn append_in_columns(
    columns: &mut Option<MessageColumns>,
    more: &MessageColumns,
) -> Result<bool, NoMemory>
    ensures added { IfOk result (λ added. IsTrue added → rows_if_any columns.new ≡ rows_if_any columns.old ++ message_rows more.now) }
    ensures unchanged { IfOk result (λ added. added ≡ false → columns.new ≡ columns.old) }
    ensures lost { OnErr result (rows_if_any columns.new ≡ []) }
{
    match columns {
        Some(held) if held.is_sort_of(more) => {
            held.append(more)?;
            Ok(true)
        }
        _ => Ok(false),
    }
}

// One message of some in columns, in columns of its own.
fn one_row(
    alloc: Global,
    to: u32,
    from: &MessageColumns,
    row: usize,
) -> Result<MessageColumns, NoMemory>
    requires { row < length from.now.to }
    ensures { IfOk result (λ one. message_rows one ≡ message_to to from.now row ∷ []) }
{
    let mut one = MessageColumns::empty_as(alloc, from)?;
    one.add_row(to, from, row)?;
    Ok(one)
}

// Adds a message of some in columns to others, one by one.
fn add_row_to(
    room: &mut Vec<Value>,
    others: &mut Batch,
    to: u32,
    from: &MessageColumns,
    row: usize,
) -> Result<(), NoMemory>
    requires { row < length from.now.to }
    ensures added { OnOk result (others.new ≡ others.old ++ message_to to from.now row ∷ []) }
    ensures unchanged { OnErr result (others.new ≡ others.old) }
{
    from.load(row, room)?;
    others.add(to, from.kind(), room)
}

// Adds messages in columns to others, one by one.
fn add_rows_to(
    room: &mut Vec<Value>,
    others: &mut Batch,
    from: &MessageColumns,
) -> Result<(), NoMemory>
    ensures { OnOk result (others.new ≡ others.old ++ message_rows from.now) }
{
    let rows = from.len();
    for row in 0..rows {
        add_row_to(room, others, from.to_at(row), from, row)?;
    }
    Ok(())
}

// Messages in columns and others behind them, one by one.
fn one_by_one(alloc: Global, columns: &MessageColumns, others: &Batch) -> Result<Batch, NoMemory>
    ensures { IfOk result (λ messages. messages ≡ message_rows columns.now ++ others.now) }
{
    let mut messages = Batch::empty(alloc);
    let mut room = Vec::new(alloc);
    add_rows_to(&mut room, &mut messages, columns)?;
    messages.append(others)?;
    Ok(messages)
}

impl Messages {
    /// No message. It keeps the allocator and takes no memory.
    pub fn empty(alloc: Global) -> Self
        ensures { result ≡ [] }
    {
        Messages::of_batch(alloc, Batch::empty(alloc))
    }

    /// Messages of any kind. It takes no memory.
    pub fn of_batch(alloc: Global, messages: Batch) -> Self
        ensures { result ≡ messages }
    {
        // So many are a number.
        let _count = messages.messages();
        Messages {
            columns: None,
            others: messages,
            room: Vec::new(alloc),
            alloc,
        }
    }

    /// Messages in columns. It takes no memory.
    pub fn of_columns(alloc: Global, messages: MessageColumns) -> Self
        ensures { result ≡ message_rows messages }
    {
        // So many are a number.
        let _count = messages.len();
        Messages {
            columns: Some(messages),
            others: Batch::empty(alloc),
            room: Vec::new(alloc),
            alloc,
        }
    }

    /// The messages in columns, where all of them are; nothing where others stand behind them.
    pub fn in_columns(&self) -> Option<&MessageColumns>
        ensures { IfSome result (λ columns. message_rows columns.now ≡ self.now) }
    {
        if self.others.messages() > 0 {
            return None;
        }
        self.columns.as_ref()
    }

    /// The messages one by one. Where none are in columns they are handed out as they are.
    pub fn into_batch(self) -> Result<Batch, NoMemory>
        ensures { IfOk result (λ messages. messages ≡ self) }
    {
        let Messages {
            columns,
            others,
            room: _,
            alloc,
        } = self;
        match columns {
            Some(columns) => one_by_one(alloc, &columns, &others),
            None => Ok(others),
        }
    }

    /// How many messages there are.
    #[inline(always)]
    pub fn len(&self) -> usize
        ensures { result ≡ length self.now }
    {
        rows_of(&self.columns) + self.others.messages()
    }

    /// Whether there is no message.
    pub fn is_empty(&self) -> bool
        ensures { result ≡ (length self.now == 0) }
    {
        self.len() == 0
    }

    // Whether so many more are still a number of messages.
    fn has_room(&self, more: usize) -> bool
        ensures { IsTrue result → length self.now + more < 2 ^ 64 }
    {
        self.len().checked_add(more).is_some()
    }

    /// The node to which a message goes. The index counts from 0.
    #[inline(always)]
    pub fn to(&self, i: usize) -> u32
        requires { i < length self.now }
        ensures { (d : Message) → result ≡ (slice_index_or self.now i d).to }
    {
        let rows = rows_of(&self.columns);
        match &self.columns {
            Some(columns) if i < rows => columns.to_at(i),
            _ => self.others.to(i - rows),
        }
    }

    /// The kind of a message.
    pub fn kind(&self, i: usize) -> u32
        requires { i < length self.now }
        ensures { (d : Message) → result ≡ (slice_index_or self.now i d).kind }
    {
        let rows = rows_of(&self.columns);
        match &self.columns {
            Some(columns) if i < rows => columns.kind(),
            _ => self.others.kind(i - rows),
        }
    }

    // Adds a message of some in columns, as one to a node: to those in columns where nothing is behind them and it is of their sort.
    fn add_row(&mut self, to: u32, from: &MessageColumns, row: usize) -> Result<(), NoMemory>
        requires { row < length from.now.to }
        ensures { OnOk result (self.new ≡ self.old ++ message_to to from.now row ∷ []) }
    {
        if !self.has_room(1) {
            return Err(NoMemory);
        }
        if self.others.messages() == 0 {
            if add_in_columns(self.alloc, &mut self.columns, to, from, row)? {
                return Ok(());
            }
        }
        add_row_to(&mut self.room, &mut self.others, to, from, row)
    }

    // Adds a message of others that stand one by one, as one to a node.
    fn add_other(&mut self, to: u32, from: &Batch, i: usize) -> Result<(), NoMemory>
        requires { i < length from.now }
        ensures { OnOk result ((d : Message) → self.new ≡ self.old ++ (record (slice_index_or from.now i d) { to = to }) ∷ []) }
    {
        if !self.has_room(1) {
            return Err(NoMemory);
        }
        self.others.add_to(to, from, i)?;
        Ok(())
    }

    /// Adds a message of another list, as one to this node. Where there is not enough memory the list is to be given up.
    pub fn add_to(&mut self, to: u32, other: &Messages, i: usize) -> Result<(), NoMemory>
        requires { i < length other.now }
        ensures { OnOk result ((d : Message) → self.new ≡ self.old ++ (record (slice_index_or other.now i d) { to = to }) ∷ []) }
    {
        let rows = rows_of(&other.columns);
        match &other.columns {
            Some(columns) if i < rows => self.add_row(to, columns, i),
            _ => self.add_other(to, &other.others, i - rows),
        }
    }

    /// Adds a message of another list. Where there is not enough memory the list is to be given up.
    pub fn add_from(&mut self, other: &Messages, i: usize) -> Result<(), NoMemory>
        requires { i < length other.now }
        ensures { OnOk result ((d : Message) → self.new ≡ self.old ++ slice_index_or other.now i d ∷ []) }
    {
        self.add_to(other.to(i), other, i)
    }

    // Adds some messages in columns one by one.
    fn add_each_row(&mut self, from: &MessageColumns, rows: &[u32]) -> Result<(), NoMemory>
        requires { All (λ row. row < length from.now.to) rows.now }
        ensures { OnOk result (self.new ≡ self.old ++ map (message_at from.now) rows.now) }
    {
        for row in rows {
            let at = *row as usize;
            self.add_row(from.to_at(at), from, at)?;
        }
        Ok(())
    }

    // Adds some messages in columns: to those in columns where nothing is behind them and they are of their sort.
    fn add_picked(&mut self, from: &MessageColumns, rows: &[u32]) -> Result<(), NoMemory>
        requires { All (λ row. row < length from.now.to) rows.now }
        ensures { OnOk result (self.new ≡ self.old ++ map (message_at from.now) rows.now) }
    {
        if !self.has_room(rows.len()) {
            return Err(NoMemory);
        }
        if self.others.messages() == 0 {
            if pick_in_columns(self.alloc, &mut self.columns, from, rows)? {
                return Ok(());
            }
        }
        self.add_each_row(from, rows)
    }

    // Adds messages of another list one by one.
    fn add_each(&mut self, other: &Messages, rows: &[u32]) -> Result<(), NoMemory>
        requires { All (λ row. row < length other.now) rows.now }
        ensures { OnOk result ((d : Message) → self.new ≡ self.old ++ map (λ row. slice_index_or other.now row d) rows.now) }
    {
        for row in rows {
            self.add_from(other, *row as usize)?;
        }
        Ok(())
    }

    /// Adds the messages of another list at some places, in the order of the places, which count from 0. Those in columns are
    /// taken column by column where they stay in columns. Where there is not enough memory the list is to be given up.
    pub fn add_rows(&mut self, other: &Messages, rows: &[u32]) -> Result<(), NoMemory>
        requires { All (λ row. row < length other.now) rows.now }
        ensures { OnOk result ((d : Message) → self.new ≡ self.old ++ map (λ row. slice_index_or other.now row d) rows.now) }
    {
        match other.in_columns() {
            Some(from) => self.add_picked(from, rows),
            None => self.add_each(other, rows),
        }
    }

    // Adds messages in columns one by one.
    fn append_rows(&mut self, more: &MessageColumns) -> Result<(), NoMemory>
        ensures { OnOk result (self.new ≡ self.old ++ message_rows more.now) }
    {
        let rows = more.len();
        for row in 0..rows {
            self.add_row(more.to_at(row), more, row)?;
        }
        Ok(())
    }

    /// Adds messages in columns behind these. Where there are none they are moved in whole. Where there is not enough memory
    /// the list is to be given up.
    pub fn append_columns(&mut self, more: MessageColumns) -> Result<(), NoMemory>
        ensures { OnOk result (self.new ≡ self.old ++ message_rows more) }
    {
        if !self.has_room(more.len()) {
            return Err(NoMemory);
        }
        if self.others.messages() == 0 {
            if self.columns.is_none() {
                self.columns = Some(more);
                return Ok(());
            }
            if append_in_columns(&mut self.columns, &more)? {
                return Ok(());
            }
        }
        self.append_rows(&more)
    }

    /// Adds messages of any kind behind these. Where none stand behind those in columns they are moved in whole. Where there is
    /// not enough memory the list is to be given up.
    pub fn append_batch(&mut self, more: Batch) -> Result<(), NoMemory>
        ensures { OnOk result (self.new ≡ self.old ++ more) }
    {
        if !self.has_room(more.messages()) {
            return Err(NoMemory);
        }
        if self.others.messages() == 0 {
            self.others = more;
            return Ok(());
        }
        self.others.append(&more)
    }
}
