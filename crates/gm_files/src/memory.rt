//! A source and a sink in memory, which fail exactly in the calls that they are told to.

ghost use Rattle.std.specs.Prelude.{◌≡◌, ◌≤◌, ◌<◌, ◌+◌, ◌++◌, [], IfOk, OnOk, OnErr, Some, length, take, drop, min, nat_eq, vec_capacity, vec_len};
ghost use Rattle.std.specs.List.{list_any};
ghost use Rattle.std.specs.Result.{is_err};
ghost use Rattle.gm_files.specs.Streams.{Rises, TakesFront, with_more, IsWriteCount, one_more};
ghost use Rattle.gm_files.specs.Memory.{Feed, Tray, fails_next, read_count, fed, failed_feed, write_count, write_fails, written, failed_tray};

use crate::counts::next_count;
use crate::streams::{Sink, Source};
use gm_base::{Failed, NoMemory};
use std::alloc::Global;
use std::marker::Model;

// Whether the call with this number is one of those that fail.
pub fn is_among(fails: &[u64], call: u64) -> bool
    ensures { result ≡ list_any (nat_eq call) fails.now }
{
    fails.iter().any(|n| call == *n)
}

/// Bytes in memory, which are read at most `piece` at a time. The calls of `read` are numbered from 1, and those
/// with a number in `fails` fail.
#[derive(Debug, Drop)]
pub struct MemSource {
    bytes: Vec<u8>,
    at: usize,
    piece: usize,
    fails: Vec<u64>,
    calls: u64,
    faults: u64,
}

impl Model for MemSource {
    ghost Value = { Feed };

    ghost view = { λ s. record {
      left = drop s.at s.bytes.items;
      piece = s.piece;
      fails = s.fails.items;
      calls = s.calls;
      faults = s.faults;
    } };

    ghost invariant = { (λ s. (s.at ≤ length s.bytes.items) × (0 < s.piece)) };
}

impl MemSource {
    /// A source of these bytes. `piece` is the greatest number of bytes that a read takes, at least 1; `fails` has
    /// the numbers of the calls that fail, from 1.
    pub fn new(bytes: Vec<u8>, piece: usize, fails: Vec<u64>) -> MemSource
        requires { 0 < piece }
        ensures { result ≡ record { left = bytes.items; piece = piece; fails = fails.items; calls = 0; faults = 0 } }
    {
        MemSource {
            bytes,
            at: 0,
            piece,
            fails,
            calls: 0,
            faults: 0,
        }
    }
}

impl Source for MemSource {
    ghost left = { λ s. Some s.left };

    ghost read_faults = { λ s. s.faults };

    fn read(&mut self, into: &mut [u8]) -> Result<usize, Failed>
        ensures within { IfOk result (λ k. k ≤ length into.old) }
        ensures taken { IfOk result (λ k. TakesFront (Some self.old.left) (Some self.new.left) into.new k) }
        ensures quiet { OnOk result (self.new.faults ≡ self.old.faults) }
        ensures untaken { OnErr result (Some self.new.left ≡ Some self.old.left) }
        ensures failed { OnErr result (Rises self.old.faults self.new.faults) }

        // It fails in the calls that it is told to, and else takes as much as it may.
        ensures told { is_err result ≡ fails_next self.old.fails self.old.calls }
        ensures count { IfOk result (λ k. k ≡ read_count self.old (length into.old)) }
        ensures ok { IfOk result (λ k. self.new ≡ fed self.old k) }
        ensures err { OnErr result (self.new ≡ failed_feed self.old) }
    {
        self.calls = next_count(self.calls);
        if is_among(&self.fails, self.calls) {
            self.faults = next_count(self.faults);
            return Err(Failed);
        }
        let left = &self.bytes[self.at..];
        let count = self.piece.min(into.len()).min(left.len());
        into[..count].copy_from_slice(&left[..count]);
        self.at += count;
        Ok(count)
    }
}

/// A sink in memory, which takes at most `piece` bytes at a time. The calls of `write` are numbered from 1, and
/// those with a number in `fails` fail; so does a write of some bytes where no room is left.
#[derive(Debug, Drop)]
pub struct MemSink {
    bytes: Vec<u8>,
    piece: usize,
    fails: Vec<u64>,
    calls: u64,
    faults: u64,
    room: usize,
}

impl Model for MemSink {
    ghost Value = { Tray };

    ghost view = { λ s. record {
      taken = s.bytes.items;
      piece = s.piece;
      fails = s.fails.items;
      calls = s.calls;
      faults = s.faults;
      room = s.room;
    } };

    ghost invariant = { (λ s. (vec_len s.bytes ≤ s.room) × (s.room ≤ vec_capacity s.bytes) × (0 < s.piece)) };
}

impl MemSink {
    /// An empty sink. `piece` is the greatest number of bytes that a write takes, at least 1; `fails` has the
    /// numbers of the calls that fail, from 1; `room` is the greatest number of bytes that the sink takes in all,
    /// for which it takes the memory at once, so that `write` takes none.
    pub fn new(
        alloc: Global,
        piece: usize,
        fails: Vec<u64>,
        room: usize,
    ) -> Result<MemSink, NoMemory>
        requires { 0 < piece }
        ensures { IfOk result (λ s. s ≡ record { taken = []; piece = piece; fails = fails.items; calls = 0; faults = 0; room = room }) }
    {
        Ok(MemSink {
            bytes: Vec::with_capacity(alloc, room)?,
            piece,
            fails,
            calls: 0,
            faults: 0,
            room,
        })
    }

    /// The bytes that were written so far.
    pub fn taken(&self) -> &[u8]
        ensures { result.now ≡ self.now.taken }
    {
        &self.bytes
    }
}

impl Sink for MemSink {
    ghost taken = { λ s. Some s.taken };

    ghost write_faults = { λ s. s.faults };

    fn write(&mut self, bytes: &[u8]) -> Result<usize, Failed>
        ensures count { IfOk result (λ k. IsWriteCount bytes.now k) }
        ensures grown { IfOk result (λ k. Some self.new.taken ≡ with_more (Some self.old.taken) (take k bytes.now)) }
        ensures quiet { OnOk result (self.new.faults ≡ self.old.faults) }
        ensures unwritten { OnErr result (Some self.new.taken ≡ Some self.old.taken) }
        ensures failed { OnErr result (Rises self.old.faults self.new.faults) }

        // It fails in the calls that it is told to and where no room is left, and else takes as much as it may.
        ensures told { is_err result ≡ write_fails self.old (length bytes.now) }
        ensures most { IfOk result (λ k. k ≡ write_count self.old (length bytes.now)) }
        ensures ok { IfOk result (λ k. self.new ≡ written self.old (take k bytes.now)) }
        ensures err { OnErr result (self.new ≡ failed_tray self.old) }
    {
        self.calls = next_count(self.calls);
        let count = self
            .piece
            .min(bytes.len())
            .min(self.room - self.bytes.len());
        let full = count == 0 && !bytes.is_empty();
        if is_among(&self.fails, self.calls) || full {
            self.faults = next_count(self.faults);
            return Err(Failed);
        }
        self.bytes.extend_from_slice(&bytes[..count]).unwrap();
        Ok(count)
    }
}
