//! The observer that counts.

ghost use Rattle.std.specs.Prelude.{◌≡◌, [], ◌++◌, OnOk, OnErr};
ghost use Rattle.gm_observe.specs.Notes.{counter_text, messages_sent};

use crate::notes::Note;
use crate::observers::Observer;
use gm_base::NoMemory;
use std::alloc::Global;
use std::fmt;
use std::marker::Model;

/// Counts the supersteps, and the messages that were sent in them. Contracts see the notes that it holds.
#[derive(Debug, Drop)]
pub struct Counter {
    notes: Vec<Note>,
}

impl Model for Counter {
    ghost use Rattle.std.specs.Prelude.{List};
    ghost use Rattle.gm_observe.specs.declared.notes.Note.{Note};

    ghost Value = { List Note };

    ghost view = { λ counter. counter.notes.items };
}

impl Counter {
    /// A counter that has seen nothing. It takes no memory.
    pub fn new(alloc: Global) -> Counter
        ensures nothing_seen { result ≡ [] }
    {
        Counter {
            notes: Vec::new(alloc),
        }
    }
}

/// The report is `observed K supersteps M messages` and a line end: how many notes it holds, and the sum of their
/// messages, which stays at 18446744073709551615 once it gets there.
impl Observer for Counter {
    ghost seen = { λ counter. counter };

    ghost says = { λ counter. counter_text counter };

    ghost says_of = { λ _ notes. counter_text notes };

    fn note(&mut self, n: Note) -> Result<(), NoMemory> {
        self.notes.push(n)?;
        Ok(())
    }

    fn report(&self, out: &mut Vec<u8>) -> Result<(), NoMemory> {
        put_tally(out, &self.notes)
    }
}

// How many supersteps there were, and how many messages were sent in all of them.
#[derive(Clone, Copy)]
struct Tally {
    steps: usize,
    messages: u64,
}

// `observed K supersteps M messages`, both in decimal.
impl fmt::Display for Tally {
    ghost use Rattle.std.specs.Prelude.{Some};
    ghost use Rattle.gm_observe.specs.Notes.{tally_text};

    ghost output = { λ tally. Some (tally_text tally.steps tally.messages) };

    fn fmt<W: fmt::Write>(&self, f: &mut fmt::Formatter<W>) -> fmt::Result {
        let Tally { steps, messages } = *self;
        write!(f, "observed {steps} supersteps {messages} messages")
    }
}

// Writes the line of some notes behind a text. `NoMemory` leaves the text as it was.
fn put_tally(text: &mut Vec<u8>, notes: &[Note]) -> Result<(), NoMemory>
    ensures written { OnOk result (text.new.items ≡ text.old.items ++ counter_text notes.now) }
    ensures unwritten { OnErr result (text.new.items ≡ text.old.items) }
{
    let tally = Tally {
        steps: notes.len(),
        messages: messages_in(notes),
    };
    let line = format!(in *text.allocator(); "{tally}\n")?;
    text.extend_from_slice(line.as_bytes())?;
    Ok(())
}

// How many messages some notes tell of, or the greatest number if they are more.
fn messages_in(notes: &[Note]) -> u64
    ensures { result ≡ messages_sent notes.now }
{
    let mut sum = 0u64;
    for note in notes {
        sum = sum.saturating_add(note.messages);
    }
    sum
}
