ghost use Rattle.std.specs.Prelude.{◌≡◌, ◌∷◌, [], OnOk, map};
ghost use Rattle.gm_observe.specs.Audience.{told_to_all};

use crate::compare::{same, same_bytes};
use gm_base::NoMemory;
use gm_observe::*;
use std::alloc::{AllocError, Global};
use std::cell::Cell;
use std::rc::Rc;
use std::test::Fail;

// An observer that has no memory for its second note, and reports nothing.
#[derive(Drop)]
struct Forgetful {
    notes: Vec<Note>,
}

impl Observer for Forgetful {
    ghost seen = { λ it. it.notes.items };

    ghost says = { λ _. [] };

    ghost says_of = { λ _ _. [] };

    fn note(&mut self, n: Note) -> Result<(), NoMemory> {
        if !self.notes.is_empty() {
            return Err(NoMemory);
        }
        self.notes.push(n)?;
        Ok(())
    }

    fn report(&self, _out: &mut Vec<u8>) -> Result<(), NoMemory> {
        Ok(())
    }
}

// An observer that counts its notes and its drops where others see them, and has no memory for a report.
struct Counted {
    notes: Vec<Note>,
    told: Rc<Cell<u32>>,
    drops: Rc<Cell<u32>>,
}

impl Drop for Counted {
    fn drop(self) {
        let Counted {
            notes: _,
            told: _,
            drops,
        } = self;
        drops.set(drops.get().saturating_add(1));
    }
}

impl Observer for Counted {
    ghost seen = { λ it. it.notes.items };

    ghost says = { λ _. [] };

    ghost says_of = { λ _ _. [] };

    fn note(&mut self, n: Note) -> Result<(), NoMemory> {
        self.notes.push(n)?;
        self.told.set(self.told.get().saturating_add(1));
        Ok(())
    }

    fn report(&self, _out: &mut Vec<u8>) -> Result<(), NoMemory> {
        Err(NoMemory)
    }
}

fn note_of(step: u64, block: u32, messages: u64) -> Note {
    Note {
        step,
        block,
        vertices: 2,
        messages,
    }
}

// Notes a superstep for each number of messages.
fn note_each<O: Observer>(observer: &mut O, block: u32, messages: &[u64]) -> Result<(), NoMemory> {
    let mut step = 0u64;
    for sent in messages {
        step = step.saturating_add(1);
        observer.note(note_of(step, block, *sent))?;
    }
    Ok(())
}

// What an observer reports of supersteps with these numbers of messages.
fn report_of<O: Observer>(
    alloc: Global,
    observer: &mut O,
    block: u32,
    messages: &[u64],
) -> Result<Vec<u8>, NoMemory> {
    note_each(observer, block, messages)?;
    let mut out = Vec::new(alloc);
    observer.report(&mut out)?;
    Ok(out)
}

#[test]
fn counters_count(rt: HostRuntime) -> Result<(), Fail> {
    // the messages of each superstep, and the report
    let table: [(&[u64], &str); 6] = [
        (&[], "observed 0 supersteps 0 messages\n"),
        (&[3], "observed 1 supersteps 3 messages\n"),
        (&[3, 0, 40], "observed 3 supersteps 43 messages\n"),
        (
            &[u64::MAX - 1, 1],
            "observed 2 supersteps 18446744073709551615 messages\n",
        ),
        (
            &[u64::MAX - 1, 2],
            "observed 2 supersteps 18446744073709551615 messages\n",
        ),
        (
            &[7, u64::MAX, u64::MAX],
            "observed 3 supersteps 18446744073709551615 messages\n",
        ),
    ];
    for (row, (messages, report)) in table.iter().enumerate() {
        let mut counter = Counter::new(rt.alloc());
        let out = report_of(rt.alloc(), &mut counter, 0, messages)?;
        same_bytes(&rt, row, out.as_slice(), report.as_bytes());
    }
    Ok(())
}

#[test]
fn tables_list(rt: HostRuntime) -> Result<(), Fail> {
    // the messages of each superstep, and the report
    let table: [(&[u64], &str); 3] = [
        (&[], ""),
        (&[3], "step 1 block 4 vertices 2 messages 3\n"),
        (
            &[3, 0, u64::MAX],
            "step 1 block 4 vertices 2 messages 3\nstep 2 block 4 vertices 2 messages 0\nstep 3 block 4 vertices 2 messages 18446744073709551615\n",
        ),
    ];
    for (row, (messages, report)) in table.iter().enumerate() {
        let mut listed = Table::new(rt.alloc());
        let out = report_of(rt.alloc(), &mut listed, 4, messages)?;
        same_bytes(&rt, row, out.as_slice(), report.as_bytes());
    }
    Ok(())
}

// Tells observers in a vector of two supersteps.
fn tell_two(
    observers: &mut Vec<Box<dyn Observer>>,
    first: Note,
    second: Note,
) -> Result<(), NoMemory>
    ensures { OnOk result (map (λ o. seen o) observers.new.items ≡ told_to_all (second ∷ []) (told_to_all (first ∷ []) (map (λ o. seen o) observers.old.items))) }
{
    tell_all(observers, first)?;
    tell_all(observers, second)?;
    Ok(())
}

#[test]
fn all_are_told_and_report_in_order(rt: HostRuntime) -> Result<(), Fail> {
    let mut observers: Vec<Box<dyn Observer>> = Vec::new(rt.alloc());
    let counter: Box<dyn Observer> = Box::new(rt.alloc(), Counter::new(rt.alloc()))?;
    observers.push(counter).map_err(NoMemory::from)?;
    let table: Box<dyn Observer> = Box::new(rt.alloc(), Table::new(rt.alloc()))?;
    observers.push(table).map_err(NoMemory::from)?;
    tell_two(&mut observers, note_of(1, 0, 3), note_of(2, 1, 0))?;
    let mut out = b"turns 0\n".to_vec(rt.alloc())?;
    report_all(&observers, &mut out)?;
    same_bytes(
        &rt,
        0,
        out.as_slice(),
        b"turns 0\nobserved 2 supersteps 3 messages\nstep 1 block 0 vertices 2 messages 3\nstep 2 block 1 vertices 2 messages 0\n",
    );
    // a second report says the same once more
    let before = out.len();
    report_all(&observers, &mut out)?;
    same(
        &rt,
        1,
        out.len().saturating_sub(before),
        before.saturating_sub(8),
    );
    Ok(())
}

// Two observers: one that has no memory for its second note, and behind it one that counts its notes and its drops.
fn two_observers(
    alloc: Global,
    told: Rc<Cell<u32>>,
    drops: Rc<Cell<u32>>,
) -> Result<Vec<Box<dyn Observer>>, AllocError> {
    let notes = Vec::new(alloc);
    let forgetful: Box<dyn Observer> = Box::new(alloc, Forgetful { notes })?;
    let notes = Vec::new(alloc);
    let counted: Box<dyn Observer> = Box::new(alloc, Counted { notes, told, drops })?;
    let mut observers = Vec::new(alloc);
    observers.push(forgetful)?;
    observers.push(counted)?;
    Ok(observers)
}

#[test]
fn one_without_memory_stops_the_telling(rt: HostRuntime) -> Result<(), Fail> {
    let told = Rc::new(rt.alloc(), Cell::new(0u32))?;
    let drops = Rc::new(rt.alloc(), Cell::new(0u32))?;
    let mut observers = two_observers(rt.alloc(), Rc::clone(&told)?, Rc::clone(&drops)?)?;
    same(&rt, 0, tell_all(&mut observers, note_of(1, 0, 3)), Ok(()));
    same(&rt, 1, told.get(), 1);
    // the first has no memory for its second note, and the one behind it is not told
    let outcome = tell_all(&mut observers, note_of(2, 0, 3));
    same(&rt, 2, outcome, Err(NoMemory));
    same(&rt, 3, told.get(), 1);
    // one of them cannot report, and what was written before stays alone
    let mut out = b"turns 0\n".to_vec(rt.alloc())?;
    same(&rt, 4, report_all(&observers, &mut out), Err(NoMemory));
    same_bytes(&rt, 5, out.as_slice(), b"turns 0\n");
    same(&rt, 6, drops.get(), 0);
    drop(observers);
    same(&rt, 7, drops.get(), 1);
    Ok(())
}
