//! Images that are run with observers: some have no memory, and each is dropped once.

ghost use Rattle.std.specs.Prelude.{[]};

use crate::calls::{Streams, both, ends_as, joined, no_files, run_watched};
use crate::compare::all_read;
use crate::image_rows::TOTAL;
use gm_base::{NoMemory, Status};
use gm_observe::{Note, Observer};
use gm_rows::observers::{WATCHED, WATCHED_TOTAL};
use gm_tables::{is_row, number_of, parts_of, sides};
use std::alloc::Global;
use std::cell::Cell;
use std::process::Abort;
use std::rc::Rc;
use std::sync::Wait;
use std::test::Fail;
use std::thread::Threads;

// A graph for it, behind the line that parts the two.
const VALUES: &str = "%%\n0 1\n0 1\n1 1\nv 0 5\nv 1 7\n";

// An observer that has memory for so many notes, and reports nothing.
#[derive(Drop)]
struct Forgetful {
    notes: Vec<Note>,
    most: u64,
}

impl Observer for Forgetful {
    ghost seen = { λ it. it.notes.items };

    ghost says = { λ _. [] };

    ghost says_of = { λ _ _. [] };

    fn note(&mut self, n: Note) -> Result<(), NoMemory> {
        if self.notes.len() as u64 >= self.most {
            return Err(NoMemory);
        }
        self.notes.push(n)?;
        Ok(())
    }

    fn report(&self, _out: &mut Vec<u8>) -> Result<(), NoMemory> {
        Ok(())
    }
}

// An observer that counts its drops where others see them, and reports nothing.
struct Counted {
    notes: Vec<Note>,
    drops: Rc<Cell<u32>>,
}

impl Drop for Counted {
    fn drop(self) {
        let Counted { notes: _, drops } = self;
        drops.set(drops.get().saturating_add(1));
    }
}

impl Observer for Counted {
    ghost seen = { λ it. it.notes.items };

    ghost says = { λ _. [] };

    ghost says_of = { λ _ _. [] };

    fn note(&mut self, n: Note) -> Result<(), NoMemory> {
        self.notes.push(n)?;
        Ok(())
    }

    fn report(&self, _out: &mut Vec<u8>) -> Result<(), NoMemory> {
        Ok(())
    }
}

// An observer with memory for so many notes.
fn one_without_memory(alloc: Global, most: u64) -> Result<Box<dyn Observer>, NoMemory> {
    let notes = Vec::new(alloc);
    let forgetful: Box<dyn Observer> = Box::new(alloc, Forgetful { notes, most })?;
    Ok(forgetful)
}

// One that counts its drops.
fn one_counted(alloc: Global, drops: Rc<Cell<u32>>) -> Result<Box<dyn Observer>, NoMemory> {
    let notes = Vec::new(alloc);
    let counted: Box<dyn Observer> = Box::new(alloc, Counted { notes, drops })?;
    Ok(counted)
}

// How a call ends that two observers watch, the first with memory for so many notes, and how often the second is dropped.
fn ending_of_two(
    rt: &(impl Threads + Wait + Sync),
    alloc: Global,
    words: &str,
    image: &str,
    most: u64,
    fails_out: u64,
) -> Result<((Status, String), u32), Fail> {
    let drops = Rc::new(alloc, Cell::new(0u32))?;
    let second = one_counted(alloc, Rc::clone(&drops)?)?;
    let mut observers = both(alloc, one_without_memory(alloc, most)?, second)?;
    let ended = watched_ending(rt, alloc, words, image, fails_out, &mut observers)?;
    drop(observers);
    Ok((ended, drops.get()))
}

// How a call with observers ends over an image with the values behind it, of which the write of this number fails.
fn watched_ending(
    rt: &(impl Threads + Wait + Sync),
    alloc: Global,
    words: &str,
    image: &str,
    fails_out: u64,
    observers: &mut Vec<Box<dyn Observer>>,
) -> Result<(Status, String), Fail> {
    let streams = Streams {
        piece_in: 7,
        fails_in: 0,
        piece_out: 5,
        fails_out,
    };
    let input = joined(alloc, image, VALUES)?;
    run_watched(
        rt,
        alloc,
        words,
        input,
        streams,
        &mut no_files(alloc),
        observers,
    )
}

// The words, the number of notes that the first observer has memory for, the number of the write that fails, and the name of
// the status, of the first line of a row.
fn numbers_of(line: &str) -> Result<(&str, u64, u64, &str), Fail> {
    let (numbers, words) = sides(line, ": ")?;
    let (most, rest) = sides(numbers.trim(), " ")?;
    let (fails_out, name) = sides(rest, " ")?;
    Ok((words, number_of(most)?, number_of(fails_out)?, name))
}

// Whether a call that two observers watch ends as a row says, and the second is dropped once.
fn is_watched(
    rt: &(impl Abort + Threads + Wait + Sync),
    alloc: Global,
    front: &str,
    row: &str,
) -> Result<(), Fail> {
    let (line, image, text) = parts_of(row)?;
    let (words, most, fails_out, name) = numbers_of(line)?;
    let image = format!(in alloc; "{front}{image}")?;
    let (ended, drops) = ending_of_two(rt, alloc, words, image.as_str(), most, fails_out)?;
    ends_as(rt, alloc, &ended, text, name, row)?;
    assert_eq!(rt; drops, 1, "{row}");
    Ok(())
}

// Whether each row holds over what all of them share.
fn are_watched(
    rt: &(impl Abort + Threads + Wait + Sync),
    alloc: Global,
    front: &str,
    table: &str,
    count: usize,
) -> Result<(), Fail> {
    let mut read = 0usize;
    for row in table.split('~') {
        if is_row(row) {
            is_watched(rt, alloc, front, row)?;
            read = read.saturating_add(1);
        }
    }
    all_read(rt, read, count);
    Ok(())
}

#[test]
fn observers_without_memory(rt: HostRuntime) -> Result<(), Fail> {
    are_watched(&rt, rt.alloc(), TOTAL, WATCHED_TOTAL, 8)?;
    are_watched(&rt, rt.alloc(), "", WATCHED, 8)
}
