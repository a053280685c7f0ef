//! The program's edge: any reader as a source, any writer as a sink. They tell no bytes.

ghost use Rattle.std.specs.Prelude.{◌≡◌, ◌≤◌, None, IfOk, IfSome, OnOk, OnErr, length, take};
ghost use Rattle.gm_files.specs.Streams.{one_more, IsWriteCount, Rises};

use crate::counts::next_count;
use crate::streams::{Sink, Source};
use gm_base::Failed;
use std::io::{Read, Write};
use std::marker::Model;

/// A reader as a source. Each error of the reader counts as a fault. Contracts see the count.
#[derive(Drop)]
pub struct ReadSource<R> {
    reader: R,
    faults: u64,
}

impl<R> Model for ReadSource<R> {
    ghost use Rattle.std.specs.Prelude.{ℕ};

    ghost Value = { ℕ };

    ghost view = { λ s. s.faults };
}

impl<R> ReadSource<R> {
    /// A source that reads from this reader, with no fault so far.
    pub fn new(reader: R) -> ReadSource<R>
        ensures { result ≡ 0 }
    {
        ReadSource { reader, faults: 0 }
    }
}

impl<R: Read> Source for ReadSource<R> {
    ghost left = { λ _. None };

    ghost read_faults = { λ faults. faults };

    fn read(&mut self, into: &mut [u8]) -> Result<usize, Failed>
        ensures within { IfOk result (λ k. k ≤ length into.old) }
        ensures quiet { OnOk result (self.new ≡ self.old) }
        ensures failed { OnErr result (Rises self.old self.new) }
        ensures counted { OnErr result (self.new ≡ one_more self.old) }
    {
        match self.reader.read(into) {
            Ok(count) => Ok(count),
            Err(_) => {
                self.faults = next_count(self.faults);
                Err(Failed)
            }
        }
    }
}

/// A writer as a sink, flushed after each write. Each error of the writer counts as a fault, a failed flush and
/// a write that takes no byte of some included. Contracts see the count.
#[derive(Drop)]
pub struct WriteSink<W> {
    writer: W,
    faults: u64,
}

impl<W> Model for WriteSink<W> {
    ghost use Rattle.std.specs.Prelude.{ℕ};

    ghost Value = { ℕ };

    ghost view = { λ s. s.faults };
}

impl<W> WriteSink<W> {
    /// A sink that writes to this writer, with no fault so far.
    pub fn new(writer: W) -> WriteSink<W>
        ensures { result ≡ 0 }
    {
        WriteSink { writer, faults: 0 }
    }
}

impl<W: Write> WriteSink<W> {
    // How many bytes the writer took and flushed, or nothing where it took none of some or failed.
    fn flushed(&mut self, bytes: &[u8]) -> Option<usize>
        ensures count { IfSome result (λ k. IsWriteCount bytes.now k) }
        ensures same { self.new ≡ self.old }
    {
        let count = self.writer.write(bytes).ok()?;
        self.writer.flush().ok()?;
        if count == 0 && !bytes.is_empty() {
            return None;
        }
        Some(count)
    }
}

impl<W: Write> Sink for WriteSink<W> {
    ghost taken = { λ _. None };

    ghost write_faults = { λ faults. faults };

    fn write(&mut self, bytes: &[u8]) -> Result<usize, Failed>
        ensures count { IfOk result (λ k. IsWriteCount bytes.now k) }
        ensures quiet { OnOk result (self.new ≡ self.old) }
        ensures failed { OnErr result (Rises self.old self.new) }
        ensures counted { OnErr result (self.new ≡ one_more self.old) }
    {
        match self.flushed(bytes) {
            Some(count) => Ok(count),
            None => {
                self.faults = next_count(self.faults);
                Err(Failed)
            }
        }
    }
}
