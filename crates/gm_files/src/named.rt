//! Reading files by their names.

ghost use Rattle.std.specs.Prelude.{◌≡◌, ◌≢◌, ◌≤◌, ℕ, List, Option, Err, IfOk, length};
ghost use Rattle.gm_files.specs.Streams.{Rises};
ghost use Rattle.gm_files.specs.Files.{GivesPart, Lacks};

use std::error::Error;
use std::fmt;

/// Why a read of a file gave nothing.
#[derive(Clone, Copy, Debug, PartialEq, Eq)]
pub enum FileFault {
    /// There is no file of this name.
    Absent,
    /// The read failed.
    Failed,
}

impl fmt::Display for FileFault {
    fn fmt<W: fmt::Write>(&self, f: &mut fmt::Formatter<W>) -> fmt::Result {
        match self {
            FileFault::Absent => write!(f, "there is no such file"),
            FileFault::Failed => write!(f, "a read failed"),
        }
    }
}

impl Error for FileFault {}

/// Files by their names. Contracts see the names with their bytes, where they are told, and two counts that never
/// fall: of faults, and of absences.
pub trait Files {
    // the names, each with its bytes, where they are told
    ghost told: { Self → Option (List (List ℕ × List ℕ)) };

    // how many reads failed
    ghost file_faults: { Self → ℕ };

    // how many reads named no file
    ghost absences: { Self → ℕ };

    /// Reads some bytes of the file of this name, from the byte `at` on (counted from 0), into the front of `into`,
    /// and answers how many; 0 for a buffer that is not empty is the end of the file. `Absent` comes where there is
    /// no such file, and only where the count of absences rose; `Failed` only where the count of faults rose.
    fn read_at(&mut self, name: &str, at: u64, into: &mut [u8]) -> Result<usize, FileFault>
        ensures within { IfOk result (λ k. k ≤ length into.old) }
        ensures part { IfOk result (λ k. GivesPart (told self.old) name.now at into.new k) }
        ensures lacks { result ≡ Err FileFault.Absent → Lacks (told self.old) name.now }
        ensures absent { result ≡ Err FileFault.Absent → Rises (absences self.old) (absences self.new) }
        ensures failed { result ≡ Err FileFault.Failed → Rises (file_faults self.old) (file_faults self.new) }
        ensures no_absence { result ≢ Err FileFault.Absent → absences self.new ≡ absences self.old }
        ensures no_fault { result ≢ Err FileFault.Failed → file_faults self.new ≡ file_faults self.old }
        ensures kept { told self.new ≡ told self.old };
}
