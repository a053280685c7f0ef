//! Reading the program of an input that may have a graph behind it, and no more of the input than that asks for.

ghost use Rattle.std.specs.Prelude.{◌≡◌, ◌≢◌, ◌≤◌, ◌<◌, ◌+◌, ◌++◌, ℕ, List, [], true, false, IsTrue, IfOk, Err, length, min, take, drop, vec_len};
ghost use Rattle.gm_files.specs.Streams.{Rises};
ghost use Rattle.gm_input.specs.Fronts.{Appends, GaveAtMost, GaveRest, IsFront, ReachesGraph, ReadsBehind, ahead_of, exhausted, farthest};
ghost use Rattle.gm_input.specs.Names.{AreFront};
ghost use Rattle.gm_input.specs.Lines.{AreRead, AreParted, held};
ghost use Rattle.gm_input.specs.Parts.{program_part, graph_part};
ghost use Rattle.gm_input.specs.declared.fronts.FrontStop.TheVariants.{NoMemory};

use crate::lines::{LineSoFar, Sought, seek};
use gm_base::Failed;
use gm_files::Source;
use std::alloc::{AllocError, Global};

// How many bytes are asked for at once.
const PIECE: usize = 65_536;

/// The program of an input, and the front of the graph behind it.
#[derive(Debug, Drop)]
pub struct Front {
    /// The bytes of the program.
    pub program: Vec<u8>,
    /// What was read of the graph already.
    pub ahead: Vec<u8>,
    /// Whether the input was seen to end.
    pub ended: bool,
}

/// Why an input was not read.
#[derive(Clone, Copy, Debug, PartialEq, Eq)]
pub enum FrontStop {
    /// A read failed.
    Failed,
    /// There was not enough memory.
    NoMemory,
}

impl From<AllocError> for FrontStop {
    ghost from_gives = { λ _ stop. stop ≡ NoMemory };

    fn from(_error: AllocError) -> FrontStop {
        FrontStop::NoMemory
    }
}

// So many zero bytes.
fn zeros(alloc: Global, count: usize) -> Result<Vec<u8>, AllocError>
    ensures { IfOk result (λ bytes. vec_len bytes ≡ count) }
{
    vec![in alloc; 0u8; count]
}

// Reads a piece and appends it. Answers how many bytes it has.
fn read_piece<S: Source>(
    source: &mut S,
    buffer: &mut [u8],
    bytes: &mut Vec<u8>,
) -> Result<usize, FrontStop>
    requires { 0 < length buffer.old }
    ensures within { IfOk result (λ k. k ≤ length buffer.old) }
    ensures ok { IfOk result (Appends (S.left source.old) (S.left source.new) bytes.old.items bytes.new.items) }
    ensures failed { result ≡ Err FrontStop.Failed → Rises (S.read_faults source.old) (S.read_faults source.new) }
    ensures quiet { result ≢ Err FrontStop.Failed → S.read_faults source.new ≡ S.read_faults source.old }
{
    let count = match source.read(buffer) {
        Ok(count) => count,
        Err(Failed) => return Err(FrontStop::Failed),
    };
    bytes.extend_from_slice(&buffer[..count])?;
    Ok(count)
}

// The front of an input whose first line `%%` stands at these places.
fn parted(
    alloc: Global,
    mut bytes: Vec<u8>,
    start: usize,
    end: usize,
    most: usize,
) -> Result<Front, AllocError>
    requires { AreParted bytes.items start end }
    ensures program { IfOk result (λ front. front.program.items ≡ take most (take start bytes.items)) }
    ensures ahead { IfOk result (λ front. front.ahead.items ≡ drop end bytes.items) }
    ensures going_on { IfOk result (λ front. front.ended ≡ false) }
    ensures size { IfOk result (λ front. vec_len front.program ≡ min start most) }
{
    let ahead = Vec::from_slice(alloc, &bytes[end..])?;
    bytes.truncate(start.min(most));
    Ok(Front {
        program: bytes,
        ahead,
        ended: false,
    })
}

// The front of an input that ended, with this line.
fn whole(alloc: Global, mut bytes: Vec<u8>, line: LineSoFar, most: usize) -> Front
    requires { AreRead bytes.items line }
    ensures program { result.program.items ≡ take most (program_part bytes.items) }
    ensures graph { graph_part bytes.items ≡ [] }
    ensures ahead { result.ahead.items ≡ [] }
    ensures ended { result.ended ≡ true }
    ensures close { vec_len bytes ≤ most + 2 → vec_len bytes ≤ vec_len result.program + 3 }
{
    let length = bytes.len() - line.held_at_end();
    bytes.truncate(length.min(most));
    Front {
        program: bytes,
        ahead: Vec::new(alloc),
        ended: true,
    }
}

// The front of an input whose program has at least so many bytes.
fn longer(alloc: Global, mut bytes: Vec<u8>, line: LineSoFar, most: usize) -> Front
    requires read { AreRead bytes.items line }
    requires long { most + length (held line) ≤ vec_len bytes }
    ensures program { (rest : List ℕ) → result.program.items ≡ take most (program_part (bytes.items ++ rest)) }
    ensures full { vec_len result.program ≡ most }
    ensures going_on { result.ended ≡ false }
{
    bytes.truncate(most);
    Front {
        program: bytes,
        ahead: Vec::new(alloc),
        ended: false,
    }
}

/// Reads the program of an input that may have a graph behind it, in pieces of any size: all that stands before the
/// first line that is exactly `%%`, with or without a CR, or all where there is no such line. Of the program no more
/// than `most` bytes are kept; where there are as many, the graph is not looked for. No piece is read after the
/// program was seen to end or to have `most` bytes.
///
/// # Errors
///
/// `Failed` comes only where the input's count of faults rose.
pub fn read_front<S: Source>(alloc: Global, source: &mut S, most: usize) -> Result<Front, FrontStop>
    ensures ok { IfOk result (λ front. IsFront (S.left source.old) (S.left source.new) most front.program.items front.ahead.items front.ended) }
    ensures no_further { IfOk result (λ front. GaveAtMost (S.left source.old) (S.left source.new) (farthest (vec_len front.program))) }
    ensures as_far { IfOk result (λ _. ReachesGraph most (S.left source.old) (S.left source.new)) }
    ensures at_end { IfOk result (λ front. IsTrue front.ended → S.left source.new ≡ exhausted (S.left source.old)) }
    ensures failed { result ≡ Err FrontStop.Failed → Rises (S.read_faults source.old) (S.read_faults source.new) }
    ensures quiet { result ≢ Err FrontStop.Failed → S.read_faults source.new ≡ S.read_faults source.old }
{
    let mut bytes = Vec::new(alloc);
    let mut buffer = zeros(alloc, PIECE)?;
    let mut line = LineSoFar::Empty;
    'pieces: while bytes.len() - line.held() < most {
        let before = bytes.len();
        let count = read_piece(source, &mut buffer, &mut bytes)?;
        if count == 0 {
            return Ok(whole(alloc, bytes, line, most));
        }
        match seek(&bytes, before, line) {
            Sought::Mark { start, end } => return Ok(parted(alloc, bytes, start, end, most)?),
            Sought::Open(longer) => line = longer,
        }
    }
    Ok(longer(alloc, bytes, line, most))
}

// Reads a source behind some bytes, to its end or until there are at least `most` bytes in all.
fn read_behind<S: Source>(
    alloc: Global,
    ahead: Vec<u8>,
    source: &mut S,
    most: usize,
) -> Result<Vec<u8>, FrontStop>
    ensures ok { IfOk result (λ bytes. ReadsBehind most ahead.items (S.left source.old) (S.left source.new) bytes.items) }
    ensures failed { result ≡ Err FrontStop.Failed → Rises (S.read_faults source.old) (S.read_faults source.new) }
    ensures quiet { result ≢ Err FrontStop.Failed → S.read_faults source.new ≡ S.read_faults source.old }
{
    let mut bytes = ahead;
    let mut buffer = zeros(alloc, PIECE)?;
    'pieces: while bytes.len() < most {
        let count = read_piece(source, &mut buffer, &mut bytes)?;
        if count == 0 {
            return Ok(bytes);
        }
    }
    Ok(bytes)
}

// The first so many of some bytes.
fn first_of(mut bytes: Vec<u8>, most: usize) -> Vec<u8>
    ensures { result.items ≡ take most bytes.items }
{
    bytes.truncate(most);
    bytes
}

/// Reads what an input has behind its program, up to `most` bytes: what was read ahead, as `read_front` gave it, and
/// then what the input has left. An input that was seen to end is not read again, and no piece is read after there are
/// `most` bytes.
///
/// # Errors
///
/// `Failed` comes only where the input's count of faults rose.
pub fn read_rest<S: Source>(
    alloc: Global,
    ahead: Vec<u8>,
    ended: bool,
    source: &mut S,
    most: usize,
) -> Result<Vec<u8>, FrontStop>
    ensures ok { IfOk result (λ bytes. AreFront (ahead_of ahead.items ended (S.left source.old)) bytes.items most) }
    ensures taken { IfOk result (λ _. GaveRest most ahead.items ended (S.left source.old) (S.left source.new)) }
    ensures at_end { IsTrue ended → source.new ≡ source.old }
    ensures failed { result ≡ Err FrontStop.Failed → Rises (S.read_faults source.old) (S.read_faults source.new) }
    ensures quiet { result ≢ Err FrontStop.Failed → S.read_faults source.new ≡ S.read_faults source.old }
{
    if ended {
        Ok(first_of(ahead, most))
    } else {
        Ok(first_of(read_behind(alloc, ahead, source, most)?, most))
    }
}
