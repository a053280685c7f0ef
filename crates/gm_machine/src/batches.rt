//! Messages in flat rows.

ghost use Rattle.std.specs.Prelude.{◌≡◌, ◌<◌, ◌≤◌, ◌==◌, ℕ, Some, [], ◌∷◌, ◌++◌, OnOk, OnErr, IfOk, length, map, take, drop, slice_get, slice_index_or, slice_range};
ghost use Rattle.gm_value.specs.declared.values.Value as V;
ghost use Rattle.gm_machine.specs.Batches.{Adds};
ghost use Rattle.gm_machine.specs.MessageValues.{AreSorts, Grows};
ghost use Rattle.gm_machine.specs.Vertex.{Message};

use crate::message_values::MessageValues;
use gm_base::NoMemory;
use gm_value::Value;
use std::alloc::Global;
use std::marker::Model;

// A message to a node: its sort, and the word at which its values start.
#[derive(Clone, Copy)]
pub(crate) struct MessageHeader {
    pub(crate) to: u32,
    pub(crate) sort: u32,
    pub(crate) start: u32,
}

/// A list of messages, in the order of sending. A message goes to a node, has a kind, and values. It takes 12 bytes and
/// 4 for each value, 8 for one of 64 bits; what its kind and the types of its values say stands once for all messages that
/// agree in them.
#[derive(Drop)]
pub struct Batch {
    pub(crate) headers: Vec<MessageHeader>,
    pub(crate) values: MessageValues,
    pub(crate) taken: usize,
    room: Vec<Value>,
}

impl Model for Batch {
    ghost use Rattle.std.specs.Prelude.{List};
    ghost use Rattle.gm_machine.specs.Vertex.{Message};

    ghost Value = { List Message };

    ghost use Rattle.gm_machine.specs.Batches.{messages_of, AreMessages};

    ghost view = { λ b. messages_of b.values b.headers.items b.taken };

    ghost invariant = { λ b. AreMessages b.values b.headers.items b.taken };
}

// Adds a message. Where there is not enough memory the headers stay as they were.
#[inline(always)]
fn push_message(
    headers: &mut Vec<MessageHeader>,
    values: &mut MessageValues,
    to: u32,
    kind: u32,
    of: &[Value],
) -> Result<(), NoMemory>
    requires { AreSorts values.old }
    ensures grows { Grows values.old values.new }
    ensures sorts { AreSorts values.new }
    ensures added { OnOk result (Adds values.new headers.old.items headers.new.items to kind of.now) }
    ensures unchanged { OnErr result (headers.new.items ≡ headers.old.items) }
{
    let (sort, start) = values.add(kind, of)?;
    headers.push(MessageHeader { to, sort, start })?;
    Ok(())
}

// The messages from one up to another, in a list of their own.
fn part(alloc: Global, messages: &Batch, from: usize, to: usize) -> Result<Batch, NoMemory>
    requires ordered { from ≤ to }
    requires within { to ≤ length messages.now }
    ensures { IfOk result (λ b. b ≡ slice_range messages.now from to) }
{
    let mut some = Batch::empty(alloc);
    for i in from..to {
        some.add_from(messages, i)?;
    }
    Ok(some)
}

impl Batch {
    /// No message. It keeps the allocator and takes no memory.
    pub fn empty(alloc: Global) -> Self
        ensures { result ≡ [] }
    {
        Batch {
            headers: Vec::new(alloc),
            values: MessageValues::empty(alloc),
            taken: 0,
            room: Vec::new(alloc),
        }
    }

    /// Adds a message. Where there is not enough memory the list stays as it was.
    #[inline(always)]
    pub fn add(&mut self, to: u32, kind: u32, values: &[Value]) -> Result<(), NoMemory>
        ensures added { OnOk result (self.new ≡ self.old ++ record { to = to; kind = kind; values = values.now } ∷ []) }
        ensures unchanged { OnErr result (self.new ≡ self.old) }
    {
        push_message(&mut self.headers, &mut self.values, to, kind, values)?;
        Ok(())
    }

    /// Adds a message of another list, as one to this node. Where there is not enough memory the list stays as it was.
    pub fn add_to(&mut self, to: u32, other: &Batch, i: usize) -> Result<(), NoMemory>
        requires { i < length other.now }
        ensures added { OnOk result ((d : Message) → self.new ≡ self.old ++ (record (slice_index_or other.now i d) { to = to }) ∷ []) }
        ensures unchanged { OnErr result (self.new ≡ self.old) }
    {
        other.load(i, &mut self.room)?;
        push_message(
            &mut self.headers,
            &mut self.values,
            to,
            other.kind(i),
            &self.room,
        )?;
        Ok(())
    }

    /// Adds a message of another list. Where there is not enough memory the list stays as it was.
    pub fn add_from(&mut self, other: &Batch, i: usize) -> Result<(), NoMemory>
        requires { i < length other.now }
        ensures added { OnOk result ((d : Message) → self.new ≡ self.old ++ slice_index_or other.now i d ∷ []) }
        ensures unchanged { OnErr result (self.new ≡ self.old) }
    {
        self.add_to(other.to(i), other, i)?;
        Ok(())
    }

    /// How many messages there are.
    pub fn messages(&self) -> usize
        ensures { result ≡ length self.now }
    {
        self.headers.len() - self.taken
    }

    /// The node to which a message goes. The index counts from 0.
    pub fn to(&self, i: usize) -> u32
        requires { i < length self.now }
        ensures { result ≡ (slice_index_or self.now i (record { to = result; kind = 0; values = [] })).to }
    {
        self.headers[self.taken + i].to
    }

    /// The kind of a message.
    pub fn kind(&self, i: usize) -> u32
        requires { i < length self.now }
        ensures { result ≡ (slice_index_or self.now i (record { to = 0; kind = result; values = [] })).kind }
    {
        self.values.kind(self.headers[self.taken + i].sort)
    }

    /// How many values a message has.
    pub fn value_count(&self, i: usize) -> usize
        requires { i < length self.now }
        ensures { (d : Message) → result ≡ length (slice_index_or self.now i d).values }
    {
        let header = self.headers[self.taken + i];
        self.values.cells(header.sort).len()
    }

    /// A value of a message. Both indices count from 0.
    pub fn value(&self, i: usize, k: usize) -> Value
        requires message { i < length self.now }
        requires value { (d : Message) → k < length (slice_index_or self.now i d).values }
        ensures { (d : Message) (e : V.Value) → result ≡ slice_index_or (slice_index_or self.now i d).values k e }
    {
        let header = self.headers[self.taken + i];
        self.values.value(header, k)
    }

    // Puts the values of a message into a list.
    fn load(&self, i: usize, into: &mut Vec<Value>) -> Result<(), NoMemory>
        requires { i < length self.now }
        ensures { OnOk result ((d : Message) → into.new.items ≡ (slice_index_or self.now i d).values) }
    {
        let header = self.headers[self.taken + i];
        self.values.load(header, into)
    }

    /// Adds the messages of another list behind these, in their order. Where there is not enough memory only the first of
    /// them were added.
    pub fn append(&mut self, more: &Batch) -> Result<(), NoMemory>
        ensures appended { OnOk result (self.new ≡ self.old ++ more.now) }
        ensures part { OnErr result ((count : ℕ) × (self.new ≡ self.old ++ take count more.now)) }
    {
        for i in 0..more.messages() {
            self.add_from(more, i)?;
        }
        Ok(())
    }

    // Leaves out so many messages from the front. Where none is left their room is given back.
    fn leave_out(&mut self, alloc: Global, count: usize)
        requires { count ≤ length self.old }
        ensures { self.new ≡ drop count self.old }
    {
        if count == self.messages() {
            *self = Batch::empty(alloc);
        } else {
            self.taken += count;
        }
    }

    /// Takes so many messages from the front, as a list of their own. Where there is not enough memory the list stays as
    /// it was. It takes time and memory for the messages that are taken alone; their room in the list is given back once
    /// all messages of the list are taken.
    pub fn take_front(&mut self, alloc: Global, count: usize) -> Result<Batch, NoMemory>
        requires { count ≤ length self.old }
        ensures front { IfOk result (λ front. front ≡ take count self.old) }
        ensures rest { OnOk result (self.new ≡ drop count self.old) }
        ensures unchanged { OnErr result (self.new ≡ self.old) }
    {
        let front = part(alloc, self, 0, count)?;
        self.leave_out(alloc, count);
        Ok(front)
    }
}
