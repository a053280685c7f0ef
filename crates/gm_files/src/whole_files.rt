//! Reading a whole file by its name.

ghost use Rattle.std.specs.Prelude.{◌≡◌, ◌≢◌, ◌≤◌, ◌<◌, ◌+◌, IfOk, Err, Some, length, vec_len};
ghost use Rattle.gm_files.specs.declared.whole_files.FileStop.TheVariants.{NoMemory};
ghost use Rattle.gm_files.specs.Files.{AddsPart, IsWhole, IsLonger, Lacks};
ghost use Rattle.gm_files.specs.Stops.{file_stop_text};
ghost use Rattle.gm_files.specs.Streams.{Rises};

use crate::named::{FileFault, Files};
use crate::whole::{PIECE, zeros};
use std::alloc::{AllocError, Global};
use std::error::Error;
use std::fmt;

/// Why a file was not read to its end.
#[derive(Clone, Copy, Debug, PartialEq, Eq)]
pub enum FileStop {
    /// There is no file of this name.
    Absent,
    /// A read failed.
    Failed,
    /// There are more bytes than the limit.
    TooLong,
    /// There was not enough memory.
    NoMemory,
}

impl fmt::Display for FileStop {
    ghost output = { λ stop. Some (file_stop_text stop) };

    fn fmt<W: fmt::Write>(&self, f: &mut fmt::Formatter<W>) -> fmt::Result {
        match self {
            FileStop::Absent => write!(f, "there is no such file"),
            FileStop::Failed => write!(f, "a read failed"),
            FileStop::TooLong => write!(f, "too long"),
            FileStop::NoMemory => write!(f, "out of memory"),
        }
    }
}

impl Error for FileStop {}

impl From<AllocError> for FileStop {
    ghost from_gives = { λ _ stop. stop ≡ NoMemory };

    fn from(_error: AllocError) -> FileStop {
        FileStop::NoMemory
    }
}

// Reads the piece of a file that comes after these bytes, and appends it where there is room for so many bytes more.
// Answers how many bytes it has.
fn read_file_piece<F: Files>(
    files: &mut F,
    name: &str,
    buffer: &mut [u8],
    bytes: &mut Vec<u8>,
    room: u64,
) -> Result<u64, FileStop>
    requires { 0 < length buffer.old }
    ensures within { IfOk result (λ k. k ≤ room) }
    ensures longer { IfOk result (λ k. vec_len bytes.new ≡ vec_len bytes.old + k) }
    ensures ok { IfOk result (λ k. AddsPart (F.told files.old) name.now bytes.old.items bytes.new.items k) }
    ensures too_long { result ≡ Err FileStop.TooLong → IsLonger (F.told files.old) name.now (vec_len bytes.old + room) }
    ensures lacks { result ≡ Err FileStop.Absent → Lacks (F.told files.old) name.now }
    ensures absent { result ≡ Err FileStop.Absent → Rises (F.absences files.old) (F.absences files.new) }
    ensures failed { result ≡ Err FileStop.Failed → Rises (F.file_faults files.old) (F.file_faults files.new) }
    ensures no_absence { result ≢ Err FileStop.Absent → F.absences files.new ≡ F.absences files.old }
    ensures no_fault { result ≢ Err FileStop.Failed → F.file_faults files.new ≡ F.file_faults files.old }
    ensures kept { F.told files.new ≡ F.told files.old }
{
    let most = (buffer.len() as u64).min(room.saturating_add(1)) as usize;
    let piece = &mut buffer[..most];
    let count = match files.read_at(name, bytes.len() as u64, piece) {
        Ok(count) => count,
        Err(FileFault::Absent) => return Err(FileStop::Absent),
        Err(FileFault::Failed) => return Err(FileStop::Failed),
    };
    if count as u64 > room {
        return Err(FileStop::TooLong);
    }
    bytes.extend_from_slice(&piece[..count])?;
    Ok(count as u64)
}

/// Reads the whole file of this name, in pieces of any size, and answers its bytes. `TooLong` comes exactly where
/// it has more than `limit` bytes; `Absent` only where the count of absences rose, and `Failed` only where the count
/// of faults rose.
pub fn read_file<F: Files>(
    alloc: Global,
    files: &mut F,
    name: &str,
    limit: u64,
) -> Result<Vec<u8>, FileStop>
    ensures ok { IfOk result (λ bytes. IsWhole (F.told files.old) name.now bytes.items limit) }
    ensures too_long { result ≡ Err FileStop.TooLong → IsLonger (F.told files.old) name.now limit }
    ensures lacks { result ≡ Err FileStop.Absent → Lacks (F.told files.old) name.now }
    ensures absent { result ≡ Err FileStop.Absent → Rises (F.absences files.old) (F.absences files.new) }
    ensures failed { result ≡ Err FileStop.Failed → Rises (F.file_faults files.old) (F.file_faults files.new) }
    ensures no_absence { result ≢ Err FileStop.Absent → F.absences files.new ≡ F.absences files.old }
    ensures no_fault { result ≢ Err FileStop.Failed → F.file_faults files.new ≡ F.file_faults files.old }
    ensures kept { F.told files.new ≡ F.told files.old }
{
    let mut bytes = Vec::new(alloc);
    let mut buffer = zeros(alloc, PIECE)?;
    let mut room = limit;
    'pieces: loop {
        let count = read_file_piece(files, name, &mut buffer, &mut bytes, room)?;
        if count == 0 {
            return Ok(bytes);
        }
        room -= count;
    }
}
