//! The program's edge: the files of the system. They tell no bytes.

ghost use Rattle.std.specs.Prelude.{◌≡◌, ◌≢◌, ◌≤◌, Err, None, IfOk, length};
ghost use Rattle.gm_files.specs.Streams.{one_more, Rises};
ghost use Rattle.gm_files.specs.Files.{Misses, missed};

use crate::counts::next_count;
use crate::named::{FileFault, Files};
use gm_base::NoMemory;
use std::alloc::Global;
use std::io::{ErrorKind, Read, Seek, SeekFrom};
use std::marker::Model;
use std::{fs, rt};

// The length of the longest name whose file is kept open. The system opens none with a longer one.
const LONGEST_NAME: usize = 4096;

// Opens the file of this name at a place.
fn open_at<R: rt::Files>(system: &R, name: &str, at: u64) -> Result<R::File, FileFault> {
    let mut file = match fs::open(system, name) {
        Ok(file) => file,
        Err(error) if error.kind() == ErrorKind::NotFound => return Err(FileFault::Absent),
        Err(_) => return Err(FileFault::Failed),
    };
    if at > 0 && file.seek(SeekFrom::Start(at)).is_err() {
        return Err(FileFault::Failed);
    }
    Ok(file)
}

/// The files of the system. The one that was read last stays open, so that reading on from where a read ended
/// opens and seeks nothing. A name that no file has, or with a missing folder on the way, counts as an absence;
/// every other error of the system counts as a fault, a folder that is read as a file included. Contracts see the
/// two counts.
#[derive(Drop)]
pub struct DiskFiles<R: rt::Files> {
    system: R,
    // the file that was read last, its name, and the place that its next read begins at
    file: Option<R::File>,
    name: Vec<u8>,
    at: u64,
    faults: u64,
    absences: u64,
}

impl<R: rt::Files> Model for DiskFiles<R> {
    ghost Value = { Misses };

    ghost view = { λ s. record { faults = s.faults; absences = s.absences } };
}

impl<R: rt::Files> DiskFiles<R> {
    /// The files of this system, with no fault and no absence so far. It takes the memory for a name at once, so
    /// that `read_at` takes none.
    pub fn new(alloc: Global, system: R) -> Result<DiskFiles<R>, NoMemory>
    where
        R: Drop,
        ensures { IfOk result (λ s. s ≡ record { faults = 0; absences = 0 }) }
    {
        Ok(DiskFiles {
            name: Vec::with_capacity(alloc, LONGEST_NAME)?,
            system,
            file: None,
            at: 0,
            faults: 0,
            absences: 0,
        })
    }

    // Takes out the open file, where it has this name and its next read begins at this place.
    fn take_kept(&mut self, name: &str, at: u64) -> Option<R::File>
        ensures { self.new ≡ self.old }
    {
        let kept = self.file.take();
        if self.at == at && self.name.as_slice() == name.as_bytes() {
            return kept;
        }
        None
    }

    // Keeps a file open, whose next read begins at this place.
    fn keep(&mut self, file: R::File, name: &str, at: u64)
        ensures { self.new ≡ self.old }
    {
        self.name.clear();
        if name.len() <= self.name.capacity()
            && self.name.extend_from_slice(name.as_bytes()).is_ok()
        {
            self.at = at;
            self.file = Some(file);
        }
    }

    // Reads from the file that is kept, or from one that it opens.
    fn read_part(&mut self, name: &str, at: u64, into: &mut [u8]) -> Result<usize, FileFault>
        ensures within { IfOk result (λ k. k ≤ length into.old) }
        ensures same { self.new ≡ self.old }
    {
        let mut file = match self.take_kept(name, at) {
            Some(file) => file,
            None => open_at(&self.system, name, at)?,
        };
        match file.read(into) {
            Ok(count) => {
                self.keep(file, name, at.saturating_add(count as u64));
                Ok(count)
            }
            Err(_) => Err(FileFault::Failed),
        }
    }
}

impl<R: rt::Files> Files for DiskFiles<R> {
    ghost told = { λ _. None };

    ghost file_faults = { λ s. s.faults };

    ghost absences = { λ s. s.absences };

    fn read_at(&mut self, name: &str, at: u64, into: &mut [u8]) -> Result<usize, FileFault>
        ensures within { IfOk result (λ k. k ≤ length into.old) }
        ensures absent { result ≡ Err FileFault.Absent → Rises self.old.absences self.new.absences }
        ensures failed { result ≡ Err FileFault.Failed → Rises self.old.faults self.new.faults }
        ensures no_absence { result ≢ Err FileFault.Absent → self.new.absences ≡ self.old.absences }
        ensures no_fault { result ≢ Err FileFault.Failed → self.new.faults ≡ self.old.faults }
        ensures counted { self.new ≡ missed self.old result }
    {
        let read = self.read_part(name, at, into);
        match read {
            Ok(_) => {}
            Err(FileFault::Absent) => self.absences = next_count(self.absences),
            Err(FileFault::Failed) => self.faults = next_count(self.faults),
        }
        read
    }
}
