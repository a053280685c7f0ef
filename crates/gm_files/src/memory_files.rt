//! Files in memory, whose reads fail exactly in the calls that they are told to.

ghost use Rattle.std.specs.Prelude.{◌≡◌, ◌≢◌, ◌≤◌, Err, Some, IfOk, IfSome, IfNone, length, min, ◌-◌};
ghost use Rattle.gm_files.specs.Streams.{Rises};
ghost use Rattle.gm_files.specs.Files.{Shelf, file_of, named, IsPart, GivesPart, Lacks, answer_of, consulted};

use crate::counts::next_count;
use crate::memory::is_among;
use crate::named::{FileFault, Files};
use std::marker::Model;

// The bytes of the first file of some name.
fn find<'a>(files: &'a [(String, Vec<u8>)], name: &str) -> Option<&'a [u8]>
    ensures found { IfSome result (λ bytes. file_of (named files.now) name.now ≡ Some bytes.now) }
    ensures missing { IfNone result (file_of (named files.now) name.now ≡ None) }
{
    for file in files {
        if file.0.as_str() == name {
            return Some(file.1.as_slice());
        }
    }
    None
}

// Copies bytes from a place on into the front of a buffer, as many as fit, and answers how many.
fn copy_part(bytes: &[u8], at: u64, into: &mut [u8]) -> usize
    ensures count { result ≡ min (length into.old) (length bytes.now - at) }
    ensures part { IsPart bytes.now at into.new result }
{
    let rest = &bytes[(at as usize).min(bytes.len())..];
    let count = into.len().min(rest.len());
    into[..count].copy_from_slice(&rest[..count]);
    count
}

/// Files in memory: names, each with its bytes. Of two files of one name the first counts. The calls of `read_at`
/// are numbered from 1, and those with a number in `fails` fail; a read gives as many bytes as fit.
#[derive(Debug, Drop)]
pub struct MemFiles {
    files: Vec<(String, Vec<u8>)>,
    fails: Vec<u64>,
    calls: u64,
    faults: u64,
    absences: u64,
}

impl Model for MemFiles {
    ghost Value = { Shelf };

    ghost view = { λ s. record {
      files = named s.files.items;
      fails = s.fails.items;
      calls = s.calls;
      faults = s.faults;
      absences = s.absences;
    } };
}

impl MemFiles {
    /// These files. `fails` has the numbers of the calls of `read_at` that fail, from 1.
    pub fn new(files: Vec<(String, Vec<u8>)>, fails: Vec<u64>) -> MemFiles
        ensures { result ≡ record { files = named files.items; fails = fails.items; calls = 0; faults = 0; absences = 0 } }
    {
        MemFiles {
            files,
            fails,
            calls: 0,
            faults: 0,
            absences: 0,
        }
    }
}

impl Files for MemFiles {
    ghost told = { λ s. Some s.files };

    ghost file_faults = { λ s. s.faults };

    ghost absences = { λ s. s.absences };

    fn read_at(&mut self, name: &str, at: u64, into: &mut [u8]) -> Result<usize, FileFault>
        ensures within { IfOk result (λ k. k ≤ length into.old) }
        ensures part { IfOk result (λ k. GivesPart (Some self.old.files) name.now at into.new k) }
        ensures lacks { result ≡ Err FileFault.Absent → Lacks (Some self.old.files) name.now }
        ensures absent { result ≡ Err FileFault.Absent → Rises self.old.absences self.new.absences }
        ensures failed { result ≡ Err FileFault.Failed → Rises self.old.faults self.new.faults }
        ensures no_absence { result ≢ Err FileFault.Absent → self.new.absences ≡ self.old.absences }
        ensures no_fault { result ≢ Err FileFault.Failed → self.new.faults ≡ self.old.faults }
        ensures kept { Some self.new.files ≡ Some self.old.files }

        // It fails in the calls that it is told to, and else gives as much as fits.
        ensures answer { result ≡ answer_of self.old name.now at (length into.old) }
        ensures after { self.new ≡ consulted self.old result }
    {
        self.calls = next_count(self.calls);
        if is_among(&self.fails, self.calls) {
            self.faults = next_count(self.faults);
            return Err(FileFault::Failed);
        }
        match find(&self.files, name) {
            Some(bytes) => Ok(copy_part(bytes, at, into)),
            None => {
                self.absences = next_count(self.absences);
                Err(FileFault::Absent)
            }
        }
    }
}
