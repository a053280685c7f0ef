//! Reading what stands under a name, no further than is asked.

ghost use Rattle.std.specs.Prelude.{◌≡◌, ◌≢◌, ◌≤◌, ◌<◌, ◌+◌, ◌↔◌, IfOk, IfErr, IsTrue, Err, length, vec_len};
ghost use Rattle.gm_files.specs.Files.{AddsPart, Lacks};
ghost use Rattle.gm_files.specs.Streams.{AppendsFront, Rises};
ghost use Rattle.gm_input.specs.Names.{AreFileFront, IsFrontOf, IsNameStop, TakesFirst, name_stop};
ghost use Rattle.gm_input.specs.Outside.{outside};
ghost use Rattle.gm_input.specs.Texts.{standard_input};
ghost use Rattle.gm_input.specs.declared.names.NameStop.TheVariants.{NoMemory};

use crate::fronts::FrontStop;
use gm_base::Failed;
use gm_files::{FileFault, Files, Source};
use std::alloc::{AllocError, Global};

// How many bytes are asked for at once.
const PIECE: usize = 65_536;

/// Why what stands under a name was not read.
#[derive(Clone, Copy, Debug, PartialEq, Eq)]
pub enum NameStop {
    /// There is no file of this name.
    Absent,
    /// A read failed.
    Failed,
    /// There was not enough memory.
    NoMemory,
}

impl From<AllocError> for NameStop {
    ghost from_gives = { λ _ stop. stop ≡ NoMemory };

    fn from(_error: AllocError) -> NameStop {
        NameStop::NoMemory
    }
}

impl From<FrontStop> for NameStop {
    ghost from_gives = { λ stop name. name ≡ name_stop stop };

    fn from(stop: FrontStop) -> NameStop {
        match stop {
            FrontStop::Failed => NameStop::Failed,
            FrontStop::NoMemory => NameStop::NoMemory,
        }
    }
}

// So many zero bytes.
fn zeros(alloc: Global, count: usize) -> Result<Vec<u8>, AllocError>
    ensures { IfOk result (λ bytes. vec_len bytes ≡ count) }
{
    vec![in alloc; 0u8; count]
}

// Reads a piece of at most so many bytes, and appends it. Answers how many bytes it has.
fn read_piece<S: Source>(
    source: &mut S,
    buffer: &mut [u8],
    bytes: &mut Vec<u8>,
    room: usize,
) -> Result<usize, NameStop>
    requires buffer { 0 < length buffer.old }
    requires room { 0 < room }
    ensures within { IfOk result (λ k. k ≤ room) }
    ensures longer { IfOk result (λ k. vec_len bytes.new ≡ vec_len bytes.old + k) }
    ensures ok { IfOk result (λ k. AppendsFront (S.left source.old) (S.left source.new) bytes.old.items bytes.new.items k) }
    ensures failed { result ≡ Err NameStop.Failed → Rises (S.read_faults source.old) (S.read_faults source.new) }
    ensures quiet { result ≢ Err NameStop.Failed → S.read_faults source.new ≡ S.read_faults source.old }
    ensures no_file { result ≢ Err NameStop.Absent }
{
    let most = buffer.len().min(room);
    let piece = &mut buffer[..most];
    let count = match source.read(piece) {
        Ok(count) => count,
        Err(Failed) => return Err(NameStop::Failed),
    };
    bytes.extend_from_slice(&piece[..count])?;
    Ok(count)
}

// Reads what a source has left, up to `most` bytes, in pieces of any size. It takes no more of them. `Failed` comes
// only where the source's count of faults rose, and `Absent` never.
fn read_source_front<S: Source>(
    alloc: Global,
    source: &mut S,
    most: usize,
) -> Result<Vec<u8>, NameStop>
    ensures ok { IfOk result (λ bytes. TakesFirst (S.left source.old) (S.left source.new) bytes.items most) }
    ensures failed { result ≡ Err NameStop.Failed → Rises (S.read_faults source.old) (S.read_faults source.new) }
    ensures quiet { result ≢ Err NameStop.Failed → S.read_faults source.new ≡ S.read_faults source.old }
    ensures no_file { result ≢ Err NameStop.Absent }
{
    let mut bytes = Vec::new(alloc);
    let mut buffer = zeros(alloc, PIECE)?;
    let mut room = most;
    'pieces: while room > 0 {
        let count = read_piece(source, &mut buffer, &mut bytes, room)?;
        if count == 0 {
            return Ok(bytes);
        }
        room -= count;
    }
    Ok(bytes)
}

// Reads the piece of a file that comes after these bytes, of at most so many, and appends it. Answers how many bytes
// it has.
fn read_file_piece<F: Files>(
    files: &mut F,
    name: &str,
    buffer: &mut [u8],
    bytes: &mut Vec<u8>,
    room: usize,
) -> Result<usize, NameStop>
    requires buffer { 0 < length buffer.old }
    requires room { 0 < room }
    ensures within { IfOk result (λ k. k ≤ room) }
    ensures longer { IfOk result (λ k. vec_len bytes.new ≡ vec_len bytes.old + k) }
    ensures ok { IfOk result (λ k. AddsPart (F.told files.old) name.now bytes.old.items bytes.new.items k) }
    ensures lacks { result ≡ Err NameStop.Absent → Lacks (F.told files.old) name.now }
    ensures absent { result ≡ Err NameStop.Absent → Rises (F.absences files.old) (F.absences files.new) }
    ensures failed { result ≡ Err NameStop.Failed → Rises (F.file_faults files.old) (F.file_faults files.new) }
    ensures no_absence { result ≢ Err NameStop.Absent → F.absences files.new ≡ F.absences files.old }
    ensures no_fault { result ≢ Err NameStop.Failed → F.file_faults files.new ≡ F.file_faults files.old }
    ensures kept { F.told files.new ≡ F.told files.old }
{
    let most = buffer.len().min(room);
    let piece = &mut buffer[..most];
    let count = match files.read_at(name, bytes.len() as u64, piece) {
        Ok(count) => count,
        Err(FileFault::Absent) => return Err(NameStop::Absent),
        Err(FileFault::Failed) => return Err(NameStop::Failed),
    };
    bytes.extend_from_slice(&piece[..count])?;
    Ok(count)
}

// Reads the file of this name, up to `most` bytes, in pieces of any size. `Absent` comes only where the count of
// absences rose, and `Failed` only where the count of faults rose.
fn read_file_front<F: Files>(
    alloc: Global,
    files: &mut F,
    name: &str,
    most: usize,
) -> Result<Vec<u8>, NameStop>
    requires { 0 < most }
    ensures ok { IfOk result (λ bytes. AreFileFront (F.told files.old) name.now bytes.items most) }
    ensures lacks { result ≡ Err NameStop.Absent → Lacks (F.told files.old) name.now }
    ensures absent { result ≡ Err NameStop.Absent → Rises (F.absences files.old) (F.absences files.new) }
    ensures failed { result ≡ Err NameStop.Failed → Rises (F.file_faults files.old) (F.file_faults files.new) }
    ensures no_absence { result ≢ Err NameStop.Absent → F.absences files.new ≡ F.absences files.old }
    ensures no_fault { result ≢ Err NameStop.Failed → F.file_faults files.new ≡ F.file_faults files.old }
    ensures kept { F.told files.new ≡ F.told files.old }
{
    let mut bytes = Vec::new(alloc);
    let mut buffer = zeros(alloc, PIECE)?;
    let mut room = most;
    'pieces: while room > 0 {
        let count = read_file_piece(files, name, &mut buffer, &mut bytes, room)?;
        if count == 0 {
            return Ok(bytes);
        }
        room -= count;
    }
    Ok(bytes)
}

/// Whether a name is that of standard input.
pub fn is_input(name: &str) -> bool
    ensures { IsTrue result ↔ (name.now ≡ standard_input) }
{
    name == "-"
}

/// Whether two names are both that of standard input.
pub fn are_input(first: &str, second: &str) -> bool
    ensures { IsTrue result ↔ ((first.now ≡ standard_input) × (second.now ≡ standard_input)) }
{
    is_input(first) && is_input(second)
}

/// Reads the text of this name, up to `most` bytes: what standard input has left where the name is `-`, else the file.
///
/// # Errors
///
/// `Absent` comes only where the count of absences rose, and `Failed` only where a count of faults rose.
pub fn read_named<S: Source, F: Files>(
    alloc: Global,
    name: &str,
    most: usize,
    input: &mut S,
    files: &mut F,
) -> Result<Vec<u8>, NameStop>
    requires { 0 < most }
    ensures read { IfOk result (λ bytes. IsFrontOf most name.now
        (outside S.Source F.Files input.old files.old) (outside S.Source F.Files input.new files.new) bytes.items) }
    ensures unread { IfErr result (IsNameStop name.now
        (outside S.Source F.Files input.old files.old) (outside S.Source F.Files input.new files.new)) }
    ensures kept { F.told files.new ≡ F.told files.old }
{
    if is_input(name) {
        read_source_front(alloc, input, most)
    } else {
        read_file_front(alloc, files, name, most)
    }
}
