//! The adapters of real streams, over a reader and a writer that fail once.

use crate::compare::{same, same_debug};
use gm_base::Failed;
use gm_files::{ReadSource, WriteSink, read_all, write_all};
use std::alloc::{AllocError, Global};
use std::cell::Cell;
use std::io;
use std::io::{ErrorKind, Read, Write};
use std::process::Abort;
use std::rc::Rc;
use std::test::Fail;

// A reader of ten bytes, at most four at a time, which fails once: in its call with this number, from 1.
#[derive(Drop)]
struct Stuttering {
    bytes: [u8; 10],
    at: usize,
    calls: u32,
    fails: u32,
}

impl Read for Stuttering {
    fn read(&mut self, buf: &mut [u8]) -> io::Result<usize> {
        self.calls = self.calls.saturating_add(1);
        if self.calls == self.fails {
            return Err(io::Error::from(ErrorKind::ConnectionReset));
        }
        let rest = self.bytes.get(self.at..).unwrap_or(&[]);
        let count = buf.len().min(rest.len()).min(4);
        buf[..count].copy_from_slice(&rest[..count]);
        self.at = self.at.saturating_add(count);
        Ok(count)
    }
}

// What goes wrong in one call.
#[derive(Clone, Copy, Debug, PartialEq, Eq)]
enum Trouble {
    Write,
    Flush,
    TakesNone,
}

// How many bytes a writer has taken, and how many of them it has flushed.
#[derive(Drop)]
struct Counts {
    taken: Cell<usize>,
    flushed: Cell<usize>,
}

// A writer that takes at most four bytes at a time, and one of whose calls of `write`, counted from 1, goes wrong.
#[derive(Drop)]
struct Choking {
    counts: Rc<Counts>,
    calls: u32,
    fails: u32,
    trouble: Trouble,
}

impl Choking {
    fn is_due(&self, trouble: Trouble) -> bool {
        self.calls == self.fails && self.trouble == trouble
    }
}

impl Write for Choking {
    fn write(&mut self, buf: &[u8]) -> io::Result<usize> {
        self.calls = self.calls.saturating_add(1);
        if self.is_due(Trouble::Write) {
            return Err(io::Error::from(ErrorKind::BrokenPipe));
        }
        if self.is_due(Trouble::TakesNone) {
            return Ok(0);
        }
        let count = buf.len().min(4);
        self.counts
            .taken
            .set(self.counts.taken.get().saturating_add(count));
        Ok(count)
    }

    fn flush(&mut self) -> io::Result<()> {
        if self.is_due(Trouble::Flush) {
            return Err(io::Error::from(ErrorKind::StorageFull));
        }
        self.counts.flushed.set(self.counts.taken.get());
        Ok(())
    }
}

// A reader of the bytes from 0 to 9 that fails in its call with this number.
fn failing_reader(fails: u32) -> ReadSource<Stuttering> {
    ReadSource::new(Stuttering {
        bytes: [0, 1, 2, 3, 4, 5, 6, 7, 8, 9],
        at: 0,
        calls: 0,
        fails,
    })
}

// Reads all that is left, and compares what comes out.
fn check_read(
    rt: &(impl Abort + AllocGlobal),
    row: usize,
    source: &mut ReadSource<Stuttering>,
    want: &str,
) -> Result<(), Fail> {
    let read = read_all(rt.alloc(), source, 10);
    same_debug(rt, row, &read, want)
}

#[test]
fn a_reader_that_fails_once(rt: HostRuntime) -> Result<(), Fail> {
    // the call that fails, and what two readings give
    let table = [
        (1, "Err(Failed)", "Ok([0, 1, 2, 3, 4, 5, 6, 7, 8, 9])"),
        (2, "Err(Failed)", "Ok([4, 5, 6, 7, 8, 9])"),
        (4, "Err(Failed)", "Ok([])"),
        (9, "Ok([0, 1, 2, 3, 4, 5, 6, 7, 8, 9])", "Ok([])"),
    ];
    for (row, (fails, first, second)) in table.iter().enumerate() {
        let mut source = failing_reader(*fails);
        check_read(&rt, row, &mut source, first)?;
        check_read(&rt, row, &mut source, second)?;
    }
    Ok(())
}

// Nothing taken, and nothing flushed.
fn no_counts(alloc: Global) -> Result<Rc<Counts>, AllocError> {
    let counts = Counts {
        taken: Cell::new(0),
        flushed: Cell::new(0),
    };
    Ok(Rc::new(alloc, counts)?)
}

// Writes ten bytes to a writer one of whose calls goes wrong.
fn write_ten(counts: Rc<Counts>, fails: u32, trouble: Trouble) -> Result<(), Failed> {
    let mut sink = WriteSink::new(Choking {
        counts,
        calls: 0,
        fails,
        trouble,
    });
    write_all(&mut sink, &[0, 1, 2, 3, 4, 5, 6, 7, 8, 9])
}

#[test]
fn a_writer_that_fails_once(rt: HostRuntime) -> Result<(), Fail> {
    // the call that goes wrong, how, what comes out, how many bytes the writer then has, and has flushed
    let table = [
        (1, Trouble::Write, Err(Failed), 0, 0),
        (2, Trouble::Write, Err(Failed), 4, 4),
        (2, Trouble::Flush, Err(Failed), 8, 4),
        (3, Trouble::TakesNone, Err(Failed), 8, 8),
        (9, Trouble::Write, Ok(()), 10, 10),
    ];
    for (row, (fails, trouble, outcome, taken, flushed)) in table.iter().enumerate() {
        let counts = no_counts(rt.alloc())?;
        let written = write_ten(counts.clone()?, *fails, *trouble);
        same(&rt, row, written, *outcome);
        same(&rt, row, counts.taken.get(), *taken);
        same(&rt, row, counts.flushed.get(), *flushed);
    }
    Ok(())
}
