//! The values of messages, in words of 32 bits.
//!
//! Messages of one kind whose values have the same types are of one sort. What the words of a message mean stands once
//! for its sort: a cell for each value. A number, a truth value and a node take one word, and a long number takes two.

ghost use Rattle.std.specs.Prelude.{◌≡◌, ◌<◌, ◌≤◌, ◌+◌, ◌++◌, ◌∷◌, [], ℤ, List, IsTrue, OnOk, OnErr, IfOk, IfSome, length, slice_index_or};
ghost use Rattle.gm_machine.specs.Batches.{message_of, IsWithin, Holds};
ghost use Rattle.gm_machine.specs.MessageValues.{word_type, width as width_lem, high_word, low_word, number_in, node_word, index_in, truth_word, words_of, all_words, cells_of, cell_value, sort_at, sort_cells, IsSort, AreSorts, IsSortOf, HasWords, Grows};

use crate::batches::MessageHeader;
use gm_base::NoMemory;
use gm_value::Value;
use std::alloc::Global;

// The least number of 32 bits, from which on some words count.
const HALF: i64 = 2_147_483_648;

// How many numbers a word has.
const WHOLE: i64 = 4_294_967_296;

/// How a value stands in words.
#[derive(Clone, Copy, PartialEq, Eq)]
pub(crate) enum WordType {
    Number,
    Long,
    Truth,
    Node,
    Nil,
}

/// A value of a message: its type, and how many words behind the message's first word it starts.
#[derive(Clone, Copy)]
pub(crate) struct MessageCell {
    vtype: WordType,
    at: usize,
}

/// A sort of messages: their kind, and where their cells stand.
#[derive(Clone, Copy)]
pub(crate) struct MessageSort {
    kind: u32,
    start: usize,
    end: usize,
}

/// The values of messages: their sorts, the cells of all sorts, and the words of all messages. The last sort is tried
/// first.
#[derive(Drop)]
pub(crate) struct MessageValues {
    sorts: Vec<MessageSort>,
    cells: Vec<MessageCell>,
    words: Vec<i32>,
    last: usize,
}

// How a value stands in words.
#[inline(always)]
fn word_type(value: Value) -> WordType
    ensures { result ≡ word_type value }
{
    match value {
        Value::I32(_) => WordType::Number,
        Value::I64(_) => WordType::Long,
        Value::Flag(_) => WordType::Truth,
        Value::At(Some(_)) => WordType::Node,
        Value::At(None) => WordType::Nil,
    }
}

// How many words it takes.
fn width(vtype: WordType) -> usize
    ensures { result ≡ width_lem vtype }
{
    match vtype {
        WordType::Number => 1,
        WordType::Long => 2,
        WordType::Truth => 1,
        WordType::Node => 1,
        WordType::Nil => 1,
    }
}

// The number in two words.
fn number_in(high: i32, low: i32) -> i64
    ensures { result ≡ number_in high low }
{
    i64::from(high) * WHOLE + (i64::from(low) + HALF)
}

// The high word of a number.
fn high_word(number: i64) -> i32
    ensures { result ≡ high_word number }
{
    number.div_euclid(WHOLE) as i32
}

// The low word of a number.
fn low_word(number: i64) -> i32
    ensures { result ≡ low_word number }
{
    (number.rem_euclid(WHOLE) - HALF) as i32
}

// The node's index in a word.
fn index_in(word: i32) -> u32
    ensures { result ≡ index_in word }
{
    (i64::from(word) + HALF) as u32
}

// The word of a node's index.
fn node_word(index: u32) -> i32
    ensures { result ≡ node_word index }
{
    (i64::from(index) - HALF) as i32
}

// The word of a truth value.
fn truth_word(truth: bool) -> i32
    ensures { result ≡ truth_word truth }
{
    if truth { 1 } else { 0 }
}

// The value of a cell of the message that starts at a word.
#[inline(always)]
fn cell_value(words: &[i32], start: usize, cell: MessageCell) -> Value
    requires { HasWords words.now start cell }
    ensures { result ≡ cell_value words.now start cell }
{
    let at = start + cell.at;
    match cell.vtype {
        WordType::Number => Value::I32(words[at]),
        WordType::Long => Value::I64(number_in(words[at], words[at + 1])),
        WordType::Truth => Value::Flag(0 < words[at]),
        WordType::Node => Value::At(Some(index_in(words[at]))),
        WordType::Nil => Value::At(None),
    }
}

// Adds the two words of a number.
fn push_number(words: &mut Vec<i32>, number: i64) -> Result<(), NoMemory>
    ensures added { OnOk result (words.new.items ≡ words.old.items ++ high_word number ∷ low_word number ∷ []) }
    ensures part { OnErr result ((more : List ℤ) × (words.new.items ≡ words.old.items ++ more)) }
{
    words.push(high_word(number))?;
    words.push(low_word(number))?;
    Ok(())
}

// Adds the words of a value.
#[inline(always)]
fn push_value(words: &mut Vec<i32>, value: Value) -> Result<(), NoMemory>
    ensures added { OnOk result (words.new.items ≡ words.old.items ++ words_of value) }
    ensures part { OnErr result ((more : List ℤ) × (words.new.items ≡ words.old.items ++ more)) }
{
    match value {
        Value::I32(number) => words.push(number)?,
        Value::I64(number) => push_number(words, number)?,
        Value::Flag(truth) => words.push(truth_word(truth))?,
        Value::At(Some(index)) => words.push(node_word(index))?,
        Value::At(None) => words.push(0)?,
    }
    Ok(())
}

// Adds the words of values.
fn push_values(words: &mut Vec<i32>, values: &[Value]) -> Result<(), NoMemory>
    ensures added { OnOk result (words.new.items ≡ words.old.items ++ all_words values.now) }
    ensures part { OnErr result ((more : List ℤ) × (words.new.items ≡ words.old.items ++ more)) }
{
    for value in values {
        push_value(words, *value)?;
    }
    Ok(())
}

// Where the value behind one of a type starts.
fn next_at(at: usize, vtype: WordType) -> Option<usize>
    ensures { IfSome result (λ next. next ≡ at + width_lem vtype) }
{
    at.checked_add(width(vtype))
}

// Whether cells are those of some values.
fn fits(cells: &[MessageCell], values: &[Value]) -> bool
    ensures { IsTrue result → cells.now ≡ cells_of 0 values.now }
{
    if cells.len() != values.len() {
        return false;
    }
    let mut at = 0;
    for (i, value) in values.iter().enumerate() {
        let cell = cells[i];
        let vtype = word_type(*value);
        if cell.vtype != vtype || cell.at != at {
            return false;
        }
        match next_at(at, vtype) {
            Some(next) => at = next,
            None => return false,
        }
    }
    true
}

// Adds the cells of some values.
fn push_cells(cells: &mut Vec<MessageCell>, values: &[Value]) -> Result<(), NoMemory>
    ensures added { OnOk result (cells.new.items ≡ cells.old.items ++ cells_of 0 values.now) }
    ensures part { OnErr result ((more : List MessageCell) × (cells.new.items ≡ cells.old.items ++ more)) }
{
    let mut at = 0;
    for value in values {
        let vtype = word_type(*value);
        cells.push(MessageCell { vtype, at })?;
        match next_at(at, vtype) {
            Some(next) => at = next,
            None => return Err(NoMemory),
        }
    }
    Ok(())
}

// A number of things as a number of 32 bits.
#[inline(always)]
fn short(count: usize) -> Result<u32, NoMemory>
    ensures { IfOk result (λ short. short ≡ count) }
{
    if count < 1 << 32 {
        Ok(count as u32)
    } else {
        Err(NoMemory)
    }
}

impl MessageValues {
    /// No values. It keeps the allocator and takes no memory.
    pub(crate) fn empty(alloc: Global) -> MessageValues
        ensures { AreSorts result }
    {
        MessageValues {
            sorts: Vec::new(alloc),
            cells: Vec::new(alloc),
            words: Vec::new(alloc),
            last: 0,
        }
    }

    /// The kind of a sort.
    pub(crate) fn kind(&self, sort: u32) -> u32
        requires { IsSort self.now sort }
        ensures { result ≡ (sort_at self.now sort).kind }
    {
        self.sorts[sort as usize].kind
    }

    /// The cells of a sort.
    #[inline(always)]
    pub(crate) fn cells(&self, sort: u32) -> &[MessageCell]
        requires { IsSort self.now sort }
        ensures { result.now ≡ sort_cells self.now sort }
    {
        let sort = self.sorts[sort as usize];
        &self.cells[sort.start..sort.end]
    }

    /// A value of a message. The index counts from 0.
    pub(crate) fn value(&self, header: MessageHeader, index: usize) -> Value
        requires header { IsWithin self.now header }
        requires index { index < length (sort_cells self.now header.sort) }
        ensures { (d : Value) → result ≡ slice_index_or (message_of self.now header).values index d }
    {
        let cell = self.cells(header.sort)[index];
        cell_value(&self.words, header.start as usize, cell)
    }

    /// Puts the values of a message into a list.
    pub(crate) fn load(&self, header: MessageHeader, into: &mut Vec<Value>) -> Result<(), NoMemory>
        requires { IsWithin self.now header }
        ensures { OnOk result (into.new.items ≡ (message_of self.now header).values) }
    {
        let words = self.words.as_slice();
        let start = header.start as usize;
        into.clear();
        for cell in self.cells(header.sort) {
            into.push(cell_value(words, start, *cell))?;
        }
        Ok(())
    }

    // Whether the sort with an index is that of messages of a kind with some values.
    #[inline(always)]
    fn is_sort_of(&self, i: usize, kind: u32, values: &[Value]) -> bool
        requires { AreSorts self.now }
        ensures { IsTrue result → IsSortOf self.now i kind values.now }
    {
        if i >= self.sorts.len() {
            return false;
        }
        let sort = self.sorts[i];
        sort.kind == kind && fits(&self.cells[sort.start..sort.end], values)
    }

    // The sort of messages of a kind with some values, where there is one.
    #[inline(never)]
    fn find(&self, kind: u32, values: &[Value]) -> Option<usize>
        requires { AreSorts self.now }
        ensures { IfSome result (λ i. IsSortOf self.now i kind values.now) }
    {
        for i in 0..self.sorts.len() {
            if self.is_sort_of(i, kind, values) {
                return Some(i);
            }
        }
        None
    }

    // Adds a sort, and answers its index.
    #[inline(never)]
    fn add_sort(&mut self, kind: u32, values: &[Value]) -> Result<usize, NoMemory>
        requires { AreSorts self.old }
        ensures grows { Grows self.old self.new }
        ensures sorts { AreSorts self.new }
        ensures is { IfOk result (λ i. IsSortOf self.new i kind values.now) }
    {
        let start = self.cells.len();
        push_cells(&mut self.cells, values)?;
        let end = self.cells.len();
        let sort = self.sorts.len();
        self.sorts.push(MessageSort { kind, start, end })?;
        Ok(sort)
    }

    // The sort of messages of a kind with some values, which is added where there is none.
    #[inline(never)]
    fn found_or_added(&mut self, kind: u32, values: &[Value]) -> Result<usize, NoMemory>
        requires { AreSorts self.old }
        ensures grows { Grows self.old self.new }
        ensures sorts { AreSorts self.new }
        ensures is { IfOk result (λ i. IsSortOf self.new i kind values.now) }
    {
        if let Some(sort) = self.find(kind, values) {
            self.last = sort;
            return Ok(sort);
        }
        let sort = self.add_sort(kind, values)?;
        self.last = sort;
        Ok(sort)
    }

    // The same, where the last sort is tried first.
    #[inline(always)]
    fn sort_for(&mut self, kind: u32, values: &[Value]) -> Result<usize, NoMemory>
        requires { AreSorts self.old }
        ensures grows { Grows self.old self.new }
        ensures sorts { AreSorts self.new }
        ensures is { IfOk result (λ i. IsSortOf self.new i kind values.now) }
    {
        if self.is_sort_of(self.last, kind, values) {
            return Ok(self.last);
        }
        self.found_or_added(kind, values)
    }

    /// Adds the values of a message of a kind. It answers the message's sort, and the word at which it starts.
    #[inline(always)]
    pub(crate) fn add(&mut self, kind: u32, values: &[Value]) -> Result<(u32, u32), NoMemory>
        requires { AreSorts self.old }
        ensures grows { Grows self.old self.new }
        ensures sorts { AreSorts self.new }
        ensures added { IfOk result (λ r. Holds self.new r.0 r.1 kind values.now) }
    {
        let index = self.sort_for(kind, values)?;
        let sort = short(index)?;
        let start = short(self.words.len())?;
        push_values(&mut self.words, values)?;
        Ok((sort, start))
    }
}
