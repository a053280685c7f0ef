//! The observer that lists.

ghost use Rattle.std.specs.Prelude.{◌≡◌, [], ◌++◌, OnOk, OnErr, length, take, codes};
ghost use Rattle.gm_observe.specs.Notes.{note_text, table_text};

use crate::notes::Note;
use crate::observers::Observer;
use gm_base::NoMemory;
use std::alloc::Global;
use std::marker::Model;

/// Lists the supersteps. Contracts see the notes that it holds.
#[derive(Debug, Drop)]
pub struct Table {
    notes: Vec<Note>,
}

impl Model for Table {
    ghost use Rattle.std.specs.Prelude.{List};
    ghost use Rattle.gm_observe.specs.declared.notes.Note.{Note};

    ghost Value = { List Note };

    ghost view = { λ table. table.notes.items };
}

impl Table {
    /// A table that has seen nothing. It takes no memory.
    pub fn new(alloc: Global) -> Table
        ensures nothing_seen { result ≡ [] }
    {
        Table {
            notes: Vec::new(alloc),
        }
    }
}

/// The report has one line for each note that it holds, in their order: `step K block B vertices V messages M`.
impl Observer for Table {
    ghost seen = { λ table. table };

    ghost says = { λ table. table_text table };

    ghost says_of = { λ _ notes. table_text notes };

    fn note(&mut self, n: Note) -> Result<(), NoMemory> {
        self.notes.push(n)?;
        Ok(())
    }

    fn report(&self, out: &mut Vec<u8>) -> Result<(), NoMemory> {
        let before = out.len();
        let written = put_lines(out, &self.notes);
        if written.is_err() {
            out.truncate(before);
        }
        written
    }
}

// Writes the line of a note behind a text. `NoMemory` leaves the text as it was.
fn put_line(text: &mut Vec<u8>, note: Note) -> Result<(), NoMemory>
    ensures written { OnOk result (text.new.items ≡ text.old.items ++ (note_text note ++ codes "\n")) }
    ensures unwritten { OnErr result (text.new.items ≡ text.old.items) }
{
    let line = format!(in *text.allocator(); "{note}\n")?;
    text.extend_from_slice(line.as_bytes())?;
    Ok(())
}

// Writes the lines of some notes behind a text. `NoMemory` may leave some of them there.
fn put_lines(text: &mut Vec<u8>, notes: &[Note]) -> Result<(), NoMemory>
    ensures written { OnOk result (text.new.items ≡ text.old.items ++ table_text notes.now) }
    ensures kept { OnErr result (take (length text.old.items) text.new.items ≡ text.old.items) }
{
    for note in notes {
        put_line(text, *note)?;
    }
    Ok(())
}
