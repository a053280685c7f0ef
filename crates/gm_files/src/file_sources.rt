//! One file of some files, as a source.

ghost use Rattle.std.specs.Prelude.{◌≡◌, ◌≤◌, ◌+◌, None, IfOk, OnOk, OnErr, length, min};
ghost use Rattle.gm_files.specs.Streams.{Rises, TakesFront, top_count};
ghost use Rattle.gm_files.specs.Files.{rest_of, faults_since, is_absence, FailsFirst};

use crate::named::{FileFault, Files};
use crate::streams::Source;
use gm_base::Failed;

/// The file of some name, as a source that reads it from its start. Where the files tell their bytes and one has
/// the name, it tells as left the bytes from its place on. Its count of faults is 0 until one of its reads fails,
/// and from then on the sum of both counts of the files.
#[derive(Drop)]
pub struct FileSource<'a, F: Files> {
    files: &'a mut F,
    name: &'a str,
    at: u64,
    fault: Option<FileFault>,
}

impl<'a, F: Files> FileSource<'a, F> {
    /// The file of this name, from its start. It takes no memory.
    pub fn new(files: &'a mut F, name: &'a str) -> FileSource<'a, F>
        ensures same_reference { result.files.ghost_name ≡ files.entry.ghost_name }
        ensures same_files { result.files.now ≡ files.old }
        ensures name { result.name.now ≡ name.now }
        ensures at { result.at ≡ 0 }
        ensures fault { result.fault ≡ None }
    {
        FileSource {
            files,
            name,
            at: 0,
            fault: None,
        }
    }

    /// Whether a read has failed, and the first one that failed found no file of this name.
    pub fn absent(&self) -> bool
        ensures { result ≡ is_absence self.now.fault }
    {
        self.fault == Some(FileFault::Absent)
    }
}

impl<'a, F: Files> Source for FileSource<'a, F> {
    ghost left = { λ s. rest_of (F.told s.files.now) s.name.now s.at };

    ghost read_faults = { λ s. faults_since s.fault (F.file_faults s.files.now) (F.absences s.files.now) };

    fn read(&mut self, into: &mut [u8]) -> Result<usize, Failed>
        ensures within { IfOk result (λ k. k ≤ length into.old) }
        ensures taken { IfOk result (λ k. TakesFront
            (rest_of (F.told self.old.files.now) self.old.name.now self.old.at)
            (rest_of (F.told self.new.files.now) self.new.name.now self.new.at) into.new k) }
        ensures quiet { OnOk result (
            faults_since self.new.fault (F.file_faults self.new.files.now) (F.absences self.new.files.now)
            ≡ faults_since self.old.fault (F.file_faults self.old.files.now) (F.absences self.old.files.now)) }
        ensures untaken { OnErr result (
            rest_of (F.told self.new.files.now) self.new.name.now self.new.at
            ≡ rest_of (F.told self.old.files.now) self.old.name.now self.old.at) }
        ensures failed { OnErr result (Rises
            (faults_since self.old.fault (F.file_faults self.old.files.now) (F.absences self.old.files.now))
            (faults_since self.new.fault (F.file_faults self.new.files.now) (F.absences self.new.files.now))) }

        // The place moves by what was read. The first fault stays, and in its call the count of its kind rose.
        ensures place { IfOk result (λ k. self.new.at ≡ min (self.old.at + k) top_count) }
        ensures same_place { OnErr result (self.new.at ≡ self.old.at) }
        ensures first { OnErr result (FailsFirst self.old.fault self.new.fault
            (F.absences self.old.files.now) (F.absences self.new.files.now)
            (F.file_faults self.old.files.now) (F.file_faults self.new.files.now)) }
        ensures unfailed { OnOk result (self.new.fault ≡ self.old.fault) }

        // No count of the files falls, and none rises in a read that does not fail.
        ensures absences_kept { F.absences self.old.files.now ≤ F.absences self.new.files.now }
        ensures faults_kept { F.file_faults self.old.files.now ≤ F.file_faults self.new.files.now }
        ensures no_absence { OnOk result (F.absences self.new.files.now ≡ F.absences self.old.files.now) }
        ensures no_fault { OnOk result (F.file_faults self.new.files.now ≡ F.file_faults self.old.files.now) }

        // It stays the same name of the same files.
        ensures same_reference { self.new.files.ghost_name ≡ self.old.files.ghost_name }
        ensures same_name { self.new.name.now ≡ self.old.name.now }
        ensures same_files { F.told self.new.files.now ≡ F.told self.old.files.now }
    {
        match self.files.read_at(self.name, self.at, into) {
            Ok(count) => {
                self.at = self.at.saturating_add(count as u64);
                Ok(count)
            }
            Err(fault) => {
                if self.fault.is_none() {
                    self.fault = Some(fault);
                }
                Err(Failed)
            }
        }
    }
}
