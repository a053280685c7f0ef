use crate::compare::{same, same_bytes, same_debug, same_text};
use gm_base::*;
use gm_files::*;
use std::alloc::Global;
use std::process::Abort;
use std::test::Fail;

// Reads all that is left up to a limit, and compares what comes out.
fn check_read(
    rt: &(impl Abort + AllocGlobal),
    row: usize,
    source: &mut MemSource,
    limit: u64,
    want: &str,
) -> Result<(), Fail> {
    let read = read_all(rt.alloc(), source, limit);
    same_debug(rt, row, &read, want)
}

// Five bytes, in pieces of 1 to 9; the call with this number fails.
fn five_bytes(alloc: Global, piece: usize, fails: u64) -> Result<MemSource, Fail> {
    if piece == 0 {
        return Err(Fail::from("a piece has a byte"));
    }
    let bytes = vec![in alloc; 7u8, 8, 9, 7, 8]?;
    Ok(MemSource::new(bytes, piece, vec![in alloc; fails]?))
}

#[test]
fn reads_all_in_pieces(rt: HostRuntime) -> Result<(), Fail> {
    // the piece, the limit, the call that fails, what comes out, and what a second reading gives
    let table = [
        (1, 5, 0, "Ok([7, 8, 9, 7, 8])", "Ok([])"),
        (9, 5, 0, "Ok([7, 8, 9, 7, 8])", "Ok([])"),
        (1, 4, 0, "Err(TooLong)", "Ok([])"),
        (3, 3, 0, "Err(TooLong)", "Ok([8])"),
        (2, 0, 0, "Err(TooLong)", "Err(TooLong)"),
        (2, 5, 1, "Err(Failed)", "Ok([7, 8, 9, 7, 8])"),
        (2, 5, 3, "Err(Failed)", "Ok([8])"),
        (2, 5, 4, "Err(Failed)", "Ok([])"),
    ];
    for (row, (piece, limit, fails, first, second)) in table.iter().enumerate() {
        let mut source = five_bytes(rt.alloc(), *piece, *fails)?;
        check_read(&rt, row, &mut source, *limit, first)?;
        check_read(&rt, row, &mut source, *limit, second)?;
    }
    Ok(())
}

// An empty sink that takes pieces of 1 to 10 bytes; the call with this number fails.
fn empty_sink(alloc: Global, piece: usize, fails: u64, room: usize) -> Result<MemSink, Fail> {
    if piece == 0 {
        return Err(Fail::from("a piece has a byte"));
    }
    Ok(MemSink::new(alloc, piece, vec![in alloc; fails]?, room)?)
}

#[test]
fn writes_all_or_a_part(rt: HostRuntime) -> Result<(), Fail> {
    // the piece, the call that fails, the room, what comes out, and what the sink has then taken
    let table = [
        (10, 2, 99, Err(Failed), "abcdefghij"),
        (10, 1, 99, Err(Failed), ""),
        (10, 4, 99, Ok(()), "abcdefghijklmnopqrstuvwxyz"),
        (10, 0, 12, Err(Failed), "abcdefghijkl"),
        (10, 0, 0, Err(Failed), ""),
        (1, 0, 26, Ok(()), "abcdefghijklmnopqrstuvwxyz"),
    ];
    for (row, (piece, fails, room, outcome, taken)) in table.iter().enumerate() {
        let mut sink = empty_sink(rt.alloc(), *piece, *fails, *room)?;
        let written = write_all(&mut sink, b"abcdefghijklmnopqrstuvwxyz");
        same(&rt, row, written, *outcome);
        same_bytes(&rt, row, sink.taken(), taken.as_bytes());
    }
    Ok(())
}

#[test]
fn codes_of_statuses(rt: HostRuntime) {
    let table = [
        (Status::Done, 0),
        (Status::Refused, 1),
        (Status::Usage, 2),
        (Status::BadInput, 3),
        (Status::Fault, 4),
        (Status::Cut, 5),
        (Status::ReadFault, 6),
        (Status::WriteFault, 7),
        (Status::NoMemory, 8),
    ];
    for (row, (status, code)) in table.iter().enumerate() {
        same(&rt, row, status.code(), *code);
    }
}

const fn refusal(rule: Rule, line: u32, col: u32) -> Refusal {
    Refusal {
        rule,
        place: Place { line, col },
    }
}

// The least of two refusals, noted in this order.
fn least_of(first: Refusal, second: Refusal) -> Option<Refusal> {
    let mut least = None;
    first.note(&mut least);
    second.note(&mut least);
    least
}

#[test]
fn the_least_refusal(rt: HostRuntime) {
    // by line, then by column, then by rule
    let table = [
        (refusal(Rule::T9, 3, 1), refusal(Rule::BadByte, 10, 1)),
        (refusal(Rule::T9, 3, 2), refusal(Rule::BadByte, 3, 10)),
        (refusal(Rule::T2, 3, 2), refusal(Rule::T10, 3, 2)),
        (refusal(Rule::U8, 3, 2), refusal(Rule::Syntax, 3, 2)),
        (refusal(Rule::T15, 3, 2), refusal(Rule::R1, 3, 2)),
        (refusal(Rule::R6, 3, 2), refusal(Rule::C1, 3, 2)),
    ];
    for (row, (lesser, greater)) in table.iter().enumerate() {
        same(&rt, row, least_of(*lesser, *greater), Some(*lesser));
        same(&rt, row, least_of(*greater, *lesser), Some(*lesser));
    }
}

#[test]
fn prints(rt: HostRuntime) -> Result<(), Fail> {
    let alloc = rt.alloc();
    let at = refusal(Rule::TooDeep, 3, 14);
    let table = [
        (Place { line: 1, col: 20 }.to_string(alloc)?, "1:20"),
        (Rule::NumberTooLarge.to_string(alloc)?, "NumberTooLarge"),
        (Rule::C10.to_string(alloc)?, "C10"),
        (at.to_string(alloc)?, "refused TooDeep at 3:14"),
        (
            Stop::Refused(at).to_string(alloc)?,
            "refused TooDeep at 3:14",
        ),
        (Stop::NoMemory.to_string(alloc)?, "out of memory"),
        (NoMemory.to_string(alloc)?, "out of memory"),
        (Failed.to_string(alloc)?, "a read or a write failed"),
        (ReadStop::Failed.to_string(alloc)?, "a read failed"),
        (ReadStop::TooLong.to_string(alloc)?, "too long"),
        (ReadStop::NoMemory.to_string(alloc)?, "out of memory"),
        (FileFault::Absent.to_string(alloc)?, "there is no such file"),
        (FileFault::Failed.to_string(alloc)?, "a read failed"),
        (FileStop::Absent.to_string(alloc)?, "there is no such file"),
        (FileStop::Failed.to_string(alloc)?, "a read failed"),
        (FileStop::TooLong.to_string(alloc)?, "too long"),
        (FileStop::NoMemory.to_string(alloc)?, "out of memory"),
    ];
    for (row, (printed, text)) in table.iter().enumerate() {
        same_text(&rt, row, printed.as_str(), text);
    }
    Ok(())
}

#[test]
fn lists_and_texts(rt: HostRuntime) -> Result<(), Fail> {
    let items = Items::new(vec![in rt.alloc(); 3u8, 1, 2]?);
    same_bytes(&rt, 0, items.as_slice(), &[3, 1, 2]);
    same(&rt, 1, (items.len(), items.is_empty()), (3, false));
    same(&rt, 2, items.into_vec().len(), 3);
    let none: Items<u8> = Items::new(Vec::new(rt.alloc()));
    same(&rt, 3, (none.len(), none.is_empty()), (0, true));
    let text = Text::new(String::from_str(rt.alloc(), "né")?);
    same_text(&rt, 4, text.as_str(), "né");
    same(&rt, 5, text.into_string().len(), 3);
    Ok(())
}
