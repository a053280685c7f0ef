//! Reading an image's text.

ghost use Rattle.std.specs.Prelude.{◌≡◌, ◌<◌, ◌≤◌, ℕ, length, Err, IfOk, IfErr};
ghost use Rattle.gm_image.specs.Program.{Program};
ghost use Rattle.gm_image.specs.Views.{program};
ghost use Rattle.gm_image_text.specs.Lines.{lines_of};
ghost use Rattle.gm_image_text.specs.Reading.{first_row as first_row_lem, name_row as name_row_lem, result_row as result_row_lem};
ghost use Rattle.gm_image_text.specs.Sections.{row_at, opening_at, middle_at, closing_at, whole_at};
ghost use Rattle.gm_image_text.specs.Seen.{opening_seen, middle_seen, closing_seen};
ghost use Rattle.gm_image_text.specs.Giving.{GivesText};
ghost use Rattle.gm_image_text.specs.ImageText.{IsTextOf, IsBadLine, IsReadOf, most_bytes};

use crate::faults::{ImageFault, TextStop};
use crate::heads::Version;
use crate::rows::{first_row, name_row, result_row};
use crate::sections::{blocks, judged, line_words, listed};
use crate::words::count_lines;
use gm_base::{Items, Place};
use gm_image::{Block, Image, InputItem, Kind, MasterLine, OutputItem};
use gm_value::VType;
use std::alloc::Global;

// The most bytes of an image's text.
const MOST_BYTES: usize = 268_435_456;

// What stands in the lines up to the result's.
#[derive(Drop)]
pub struct Opening {
    version: Version,
    name: Items<u8>,
    inputs: Items<InputItem>,
    outputs: Items<OutputItem>,
    result: Option<(VType, u32)>,
}

// What stands in the lines from there to the places.
#[derive(Drop)]
pub struct Middle {
    globals: Items<VType>,
    fields: Items<VType>,
    registers: Items<VType>,
    columns: Items<VType>,
    kinds: Items<Kind>,
    places: Items<Place>,
}

// What stands in the lines from there to the last.
#[derive(Drop)]
pub struct Closing {
    blocks: Items<Block>,
    master: Items<MasterLine>,
}

// The first line, which says the version.
fn first_line<'a>(text: &'a [u8]) -> Result<(Version, &'a [u8]), TextStop<'a>>
    ensures { GivesText (λ x. (x.0, lines_of x.1.now)) result (row_at first_row_lem (lines_of text.now)) }
{
    let (line, rest) = line_words(text)?;
    judged(first_row(line), text, rest)
}

// The line of the name.
fn name_line<'a>(alloc: Global, text: &'a [u8]) -> Result<(Items<u8>, &'a [u8]), TextStop<'a>>
    ensures { GivesText (λ x. (x.0, lines_of x.1.now)) result (row_at name_row_lem (lines_of text.now)) }
{
    let (line, rest) = line_words(text)?;
    judged(name_row(alloc, line), text, rest)
}

// The line of the result.
fn result_line<'a>(text: &'a [u8]) -> Result<(Option<(VType, u32)>, &'a [u8]), TextStop<'a>>
    ensures { GivesText (λ x. (x.0, lines_of x.1.now)) result (row_at result_row_lem (lines_of text.now)) }
{
    let (line, rest) = line_words(text)?;
    judged(result_row(line), text, rest)
}

// The lines up to the result's.
#[tactic(auto, unfolding(crate::specs::Sections::opening_at))]
fn read_opening<'a>(alloc: Global, text: &'a [u8]) -> Result<(Opening, &'a [u8]), TextStop<'a>>
    ensures { GivesText (λ x. (opening_seen x.0, lines_of x.1.now)) result (opening_at (lines_of text.now)) }
{
    let (version, rest) = first_line(text)?;
    let (name, rest) = name_line(alloc, rest)?;
    let (inputs, rest) = listed(alloc, b"inputs", rest)?;
    let (outputs, rest) = listed(alloc, b"outputs", rest)?;
    let (result, rest) = result_line(rest)?;
    Ok((
        Opening {
            version,
            name,
            inputs,
            outputs,
            result,
        },
        rest,
    ))
}

// The lines from there to the places.
#[tactic(auto, unfolding(crate::specs::Sections::middle_at))]
fn read_middle<'a>(alloc: Global, text: &'a [u8]) -> Result<(Middle, &'a [u8]), TextStop<'a>>
    ensures { GivesText (λ x. (middle_seen x.0, lines_of x.1.now)) result (middle_at (lines_of text.now)) }
{
    let (globals, rest) = listed(alloc, b"globals", text)?;
    let (fields, rest) = listed(alloc, b"fields", rest)?;
    let (registers, rest) = listed(alloc, b"registers", rest)?;
    let (columns, rest) = listed(alloc, b"columns", rest)?;
    let (kinds, rest) = listed(alloc, b"kinds", rest)?;
    let (places, rest) = listed(alloc, b"places", rest)?;
    Ok((
        Middle {
            globals,
            fields,
            registers,
            columns,
            kinds,
            places,
        },
        rest,
    ))
}

// The lines from there to the last.
#[tactic(auto, unfolding(crate::specs::Sections::closing_at))]
fn read_closing<'a>(
    alloc: Global,
    version: Version,
    text: &'a [u8],
) -> Result<(Closing, &'a [u8]), TextStop<'a>>
    ensures { GivesText (λ x. (closing_seen x.0, lines_of x.1.now)) result (closing_at version (lines_of text.now)) }
{
    let (blocks, rest) = blocks(alloc, version, text)?;
    let (master, rest) = listed(alloc, b"master", rest)?;
    Ok((Closing { blocks, master }, rest))
}

// The image of all lines, or the text from the first bad line on.
fn whole<'a>(alloc: Global, text: &'a [u8]) -> Result<Image, TextStop<'a>>
    ensures { GivesText program result (whole_at (lines_of text.now)) }
{
    let (opening, rest) = read_opening(alloc, text)?;
    let (middle, rest) = read_middle(alloc, rest)?;
    let (closing, rest) = read_closing(alloc, opening.version, rest)?;
    if !rest.is_empty() {
        return Err(TextStop::Bad(rest));
    }
    Ok(Image {
        name: opening.name,
        inputs: opening.inputs,
        outputs: opening.outputs,
        result: opening.result,
        globals: middle.globals,
        fields: middle.fields,
        registers: middle.registers,
        columns: middle.columns,
        kinds: middle.kinds,
        places: middle.places,
        blocks: closing.blocks,
        master: closing.master,
    })
}

/// The image that a text of version 1 or 2 spells. The text is read once, and none of it is copied but the names.
///
/// # Errors
///
/// `TooLong` for a text of more than 268,435,456 bytes. `BadText` with the number, from 1, of the first line with
/// which the lines so far begin no image's text of either version: of a last line without its end, of the line behind
/// the end where one is wanted, of the first line behind the image, in version 1 of a `pick` or a `pickput`.
/// `NoMemory`.
pub fn read_image(alloc: Global, text: &[u8]) -> Result<Image, ImageFault>
    ensures image { IfOk result (λ image. IsTextOf (program image) text.now) }
    ensures only { (p : Program) → IsTextOf p text.now → length text.now ≤ most_bytes → IsReadOf p result }
    ensures bad_text { IfErr result (λ e. (line : ℕ) → e ≡ ImageFault.BadText line → IsBadLine (lines_of text.now) line) }
    ensures too_long { result ≡ Err ImageFault.TooLong → most_bytes < length text.now }
    ensures never_longer { most_bytes < length text.now → result ≡ Err ImageFault.TooLong }
{
    if text.len() > MOST_BYTES {
        return Err(ImageFault::TooLong);
    }
    match whole(alloc, text) {
        Ok(image) => Ok(image),
        Err(TextStop::Bad(rest)) => {
            let before = count_lines(text) - count_lines(rest);
            Err(ImageFault::BadText(before as u32 + 1))
        }
        Err(TextStop::NoMemory) => Err(ImageFault::NoMemory),
    }
}
