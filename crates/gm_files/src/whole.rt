//! Reading all that a source has, and writing all of some bytes.

ghost use Rattle.std.specs.Prelude.{Some, ◌≡◌, ◌≢◌, ◌≤◌, ◌<◌, ◌+◌, IfOk, IfErr, IfSome, OnOk, OnErr, Ok, Err, length, take, drop, vec_len};
ghost use Rattle.gm_files.specs.declared.whole.ReadStop.TheVariants.{NoMemory};
ghost use Rattle.gm_files.specs.Streams.{Rises, ReadsAll, ReadsPast, GrowsByPrefix, with_more};
ghost use Rattle.gm_files.specs.Streams.{AppendsFront};
ghost use Rattle.gm_files.specs.Stops.{read_stop_text};

use crate::streams::{Sink, Source};
use gm_base::Failed;
use std::alloc::{AllocError, Global};
use std::error::Error;
use std::fmt;

// How many bytes are asked for at once.
pub const PIECE: usize = 65536;

/// Why a source was not read to its end.
#[derive(Clone, Copy, Debug, PartialEq, Eq)]
pub enum ReadStop {
    /// A read failed.
    Failed,
    /// There are more bytes than the limit.
    TooLong,
    /// There was not enough memory.
    NoMemory,
}

impl fmt::Display for ReadStop {
    ghost output = { λ stop. Some (read_stop_text stop) };

    fn fmt<W: fmt::Write>(&self, f: &mut fmt::Formatter<W>) -> fmt::Result {
        match self {
            ReadStop::Failed => write!(f, "a read failed"),
            ReadStop::TooLong => write!(f, "too long"),
            ReadStop::NoMemory => write!(f, "out of memory"),
        }
    }
}

impl Error for ReadStop {}

impl From<AllocError> for ReadStop {
    ghost from_gives = { λ _ stop. stop ≡ NoMemory };

    fn from(_error: AllocError) -> ReadStop {
        ReadStop::NoMemory
    }
}

// So many zero bytes.
pub fn zeros(alloc: Global, count: usize) -> Result<Vec<u8>, AllocError>
    ensures { IfOk result (λ bytes. vec_len bytes ≡ count) }
{
    vec![in alloc; 0u8; count]
}

// Reads one piece, and appends it where there is room for so many bytes more. Answers how many bytes it has.
fn read_piece<S: Source>(
    source: &mut S,
    buffer: &mut [u8],
    bytes: &mut Vec<u8>,
    room: u64,
) -> Result<u64, ReadStop>
    requires { 0 < length buffer.old }
    ensures within { IfOk result (λ k. k ≤ room) }
    ensures longer { IfOk result (λ k. vec_len bytes.new ≡ vec_len bytes.old + k) }
    ensures ok { IfOk result (λ k. AppendsFront (S.left source.old) (S.left source.new) bytes.old.items bytes.new.items k) }
    ensures too_long { result ≡ Err ReadStop.TooLong → ReadsPast (S.left source.old) (S.left source.new) room }
    ensures failed { result ≡ Err ReadStop.Failed → Rises (S.read_faults source.old) (S.read_faults source.new) }
    ensures quiet { result ≢ Err ReadStop.Failed → S.read_faults source.new ≡ S.read_faults source.old }
{
    let most = (buffer.len() as u64).min(room.saturating_add(1)) as usize;
    let piece = &mut buffer[..most];
    let count = match source.read(piece) {
        Ok(count) => count,
        Err(Failed) => return Err(ReadStop::Failed),
    };
    if count as u64 > room {
        return Err(ReadStop::TooLong);
    }
    bytes.extend_from_slice(&piece[..count])?;
    Ok(count as u64)
}

/// Reads a source to its end, in pieces of any size, and answers all its bytes. `TooLong` comes exactly where
/// there are more than `limit` bytes, of which it then has taken one more than the limit; `Failed` only where the
/// source's count of faults rose.
pub fn read_all<S: Source>(alloc: Global, source: &mut S, limit: u64) -> Result<Vec<u8>, ReadStop>
    ensures ok { IfOk result (λ bytes. ReadsAll (S.left source.old) (S.left source.new) bytes.items limit) }
    ensures too_long { result ≡ Err ReadStop.TooLong → ReadsPast (S.left source.old) (S.left source.new) limit }
    ensures failed { result ≡ Err ReadStop.Failed → Rises (S.read_faults source.old) (S.read_faults source.new) }
    ensures quiet { result ≢ Err ReadStop.Failed → S.read_faults source.new ≡ S.read_faults source.old }
{
    let mut bytes = Vec::new(alloc);
    let mut buffer = zeros(alloc, PIECE)?;
    let mut room = limit;
    'pieces: loop {
        let count = read_piece(source, &mut buffer, &mut bytes, room)?;
        if count == 0 {
            return Ok(bytes);
        }
        room -= count;
    }
}

/// Writes all of some bytes, in pieces of any size. It takes no memory of its own. After `Failed` the sink has
/// taken a part from their front, and its count of faults rose.
pub fn write_all<K: Sink>(sink: &mut K, bytes: &[u8]) -> Result<(), Failed>
    ensures ok { OnOk result (K.taken sink.new ≡ with_more (K.taken sink.old) bytes.now) }
    ensures quiet { OnOk result (K.write_faults sink.new ≡ K.write_faults sink.old) }
    ensures prefix { OnErr result (GrowsByPrefix (K.taken sink.old) (K.taken sink.new) bytes.now) }
    ensures failed { OnErr result (Rises (K.write_faults sink.old) (K.write_faults sink.new)) }
{
    let mut written = 0;
    while written < bytes.len() {
        written += sink.write(&bytes[written..])?;
    }
    Ok(())
}
