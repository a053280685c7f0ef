//! Reading the lines of a text, section by section.

ghost use Rattle.std.specs.Prelude.{◌≡◌, Some, map, codes};
ghost use Rattle.gm_image.specs.Views.{line, handler, block};
ghost use Rattle.gm_image_text.specs.Lines.{lines_of};
ghost use Rattle.gm_image_text.specs.Reading.{words_left, cut_at, count_row as count_row_lem, on_row as on_row_lem};
ghost use Rattle.gm_image_text.specs.Sections.{row_at, times_at, listed_at, vertex_at, handler_at, block_at};
ghost use Rattle.gm_image_text.specs.Giving.{GivesText, Judges, Refuses, CutsLine};

use crate::faults::{LineStop, TextStop};
use crate::heads::Version;
use crate::rows::{Row, count_row, on_row, vertex_row};
use crate::words::{Words, cut_line};
use gm_base::Items;
use gm_image::{Block, Handler, VertexLine};
use std::alloc::Global;

// The words of the first line, and the text behind it.
pub fn line_words<'a>(text: &'a [u8]) -> Result<(Words<'a>, &'a [u8]), TextStop<'a>>
    ensures { CutsLine result text.now }
{
    match cut_line(text) {
        None => Err(TextStop::Bad(text)),
        Some((line, rest)) => Ok((Some(line), rest)),
    }
}

// What a line was read as, with the text behind it; where the line is bad, the text from it on.
pub fn judged<'a, X: Drop>(
    answer: Result<X, LineStop>,
    text: &'a [u8],
    rest: &'a [u8],
) -> Result<(X, &'a [u8]), TextStop<'a>>
    ensures { Judges answer text.now rest.now result }
{
    match answer {
        Ok(item) => Ok((item, rest)),
        Err(LineStop::Bad) => Err(TextStop::Bad(text)),
        Err(LineStop::NoMemory) => Err(TextStop::NoMemory),
    }
}

// One line.
pub fn row<'a, R: Row>(alloc: Global, text: &'a [u8]) -> Result<(R, &'a [u8]), TextStop<'a>>
    ensures { GivesText (λ x. (R.seen x.0, lines_of x.1.now)) result (row_at R.row_at (lines_of text.now)) }
{
    let (line, rest) = line_words(text)?;
    judged(R::read(alloc, line), text, rest)
}

// So many lines.
pub fn rows<'a, R: Row>(
    alloc: Global,
    count: u32,
    text: &'a [u8],
) -> Result<(Items<R>, &'a [u8]), TextStop<'a>>
    ensures { GivesText (λ x. (map R.seen x.0, lines_of x.1.now)) result (times_at (row_at R.row_at) count (lines_of text.now)) }
{
    let mut items = Vec::new(alloc);
    let mut rest = text;
    for _number in 0..count {
        let (item, behind) = row(alloc, rest)?;
        items.push(item)?;
        rest = behind;
    }
    Ok((Items::new(items), rest))
}

// The count of a header that begins with this word.
fn header<'a>(word: &[u8], text: &'a [u8]) -> Result<(u32, &'a [u8]), TextStop<'a>>
    ensures { GivesText (λ x. (x.0, lines_of x.1.now)) result (row_at (count_row_lem word.now) (lines_of text.now)) }
{
    let (line, rest) = line_words(text)?;
    judged(count_row(word, line), text, rest)
}

// A header and as many lines as it says.
pub fn listed<'a, R: Row>(
    alloc: Global,
    word: &[u8],
    text: &'a [u8],
) -> Result<(Items<R>, &'a [u8]), TextStop<'a>>
    ensures { GivesText (λ x. (map R.seen x.0, lines_of x.1.now)) result (listed_at word.now (row_at R.row_at) (lines_of text.now)) }
{
    let (count, rest) = header(word, text)?;
    rows(alloc, count, rest)
}

// The first line of a handler.
fn on_line<'a>(text: &'a [u8]) -> Result<((u32, u32), &'a [u8]), TextStop<'a>>
    ensures { GivesText (λ x. (x.0, lines_of x.1.now)) result (row_at on_row_lem (lines_of text.now)) }
{
    let (line, rest) = line_words(text)?;
    judged(on_row(line), text, rest)
}

// A vertex line of a version.
fn vertex_line<'a>(
    alloc: Global,
    version: Version,
    text: &'a [u8],
) -> Result<(VertexLine, &'a [u8]), TextStop<'a>>
    ensures { GivesText (λ x. (line x.0, lines_of x.1.now)) result (vertex_at version (lines_of text.now)) }
{
    let (words, rest) = line_words(text)?;
    judged(vertex_row(alloc, version, words), text, rest)
}

// So many vertex lines of a version.
fn vertex_lines<'a>(
    alloc: Global,
    version: Version,
    count: u32,
    text: &'a [u8],
) -> Result<(Items<VertexLine>, &'a [u8]), TextStop<'a>>
    ensures { GivesText (λ x. (map line x.0, lines_of x.1.now)) result (times_at (vertex_at version) count (lines_of text.now)) }
{
    let mut items = Vec::new(alloc);
    let mut rest = text;
    for _number in 0..count {
        let (item, behind) = vertex_line(alloc, version, rest)?;
        items.push(item)?;
        rest = behind;
    }
    Ok((Items::new(items), rest))
}

// A handler.
fn read_handler<'a>(
    alloc: Global,
    version: Version,
    text: &'a [u8],
) -> Result<(Handler, &'a [u8]), TextStop<'a>>
    ensures { GivesText (λ x. (handler x.0, lines_of x.1.now)) result (handler_at version (lines_of text.now)) }
{
    let ((kind, count), rest) = on_line(text)?;
    let (lines, rest) = vertex_lines(alloc, version, count, rest)?;
    Ok((Handler { kind, lines }, rest))
}

// So many handlers.
fn handlers<'a>(
    alloc: Global,
    version: Version,
    count: u32,
    text: &'a [u8],
) -> Result<(Items<Handler>, &'a [u8]), TextStop<'a>>
    ensures { GivesText (λ x. (map handler x.0, lines_of x.1.now)) result (times_at (handler_at version) count (lines_of text.now)) }
{
    let mut items = Vec::new(alloc);
    let mut rest = text;
    for _number in 0..count {
        let (item, behind) = read_handler(alloc, version, rest)?;
        items.push(item)?;
        rest = behind;
    }
    Ok((Items::new(items), rest))
}

// A body.
fn read_body<'a>(
    alloc: Global,
    version: Version,
    text: &'a [u8],
) -> Result<(Items<VertexLine>, &'a [u8]), TextStop<'a>>
    ensures { GivesText (λ x. (map line x.0, lines_of x.1.now)) result (listed_at (codes "body") (vertex_at version) (lines_of text.now)) }
{
    let (count, rest) = header(b"body", text)?;
    vertex_lines(alloc, version, count, rest)
}

// A block.
fn read_block<'a>(
    alloc: Global,
    version: Version,
    text: &'a [u8],
) -> Result<(Block, &'a [u8]), TextStop<'a>>
    ensures { GivesText (λ x. (block x.0, lines_of x.1.now)) result (block_at version (lines_of text.now)) }
{
    let (count, rest) = header(b"block", text)?;
    let (handlers, rest) = handlers(alloc, version, count, rest)?;
    let (body, rest) = read_body(alloc, version, rest)?;
    Ok((Block { handlers, body }, rest))
}

// So many blocks.
fn block_list<'a>(
    alloc: Global,
    version: Version,
    count: u32,
    text: &'a [u8],
) -> Result<(Items<Block>, &'a [u8]), TextStop<'a>>
    ensures { GivesText (λ x. (map block x.0, lines_of x.1.now)) result (times_at (block_at version) count (lines_of text.now)) }
{
    let mut items = Vec::new(alloc);
    let mut rest = text;
    for _number in 0..count {
        let (item, behind) = read_block(alloc, version, rest)?;
        items.push(item)?;
        rest = behind;
    }
    Ok((Items::new(items), rest))
}

// A header and as many blocks as it says.
pub fn blocks<'a>(
    alloc: Global,
    version: Version,
    text: &'a [u8],
) -> Result<(Items<Block>, &'a [u8]), TextStop<'a>>
    ensures { GivesText (λ x. (map block x.0, lines_of x.1.now)) result (listed_at (codes "blocks") (block_at version) (lines_of text.now)) }
{
    let (count, rest) = header(b"blocks", text)?;
    block_list(alloc, version, count, rest)
}
