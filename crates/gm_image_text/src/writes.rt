//! Writing an image's text.

ghost use Rattle.std.specs.Prelude.{◌≡◌, ◌≤◌, ◌++◌, ◌∷◌, [], ◌<◌, ◌⊎◌, Err, OnOk, IfOk, length, codes};
ghost use Rattle.std.specs.Fmt.{decimal};
ghost use Rattle.std.specs.List.{flat_map};
ghost use Rattle.gm_image.specs.Views.{handler, block, program};
ghost use Rattle.gm_image_text.specs.Lines.{spaced, text_of};
ghost use Rattle.gm_image_text.specs.ImageText.{IsTextOf, IsReadOf, most_bytes};
ghost use Rattle.gm_image_text.specs.Spelling.{listed, handler_lines, block_lines, opening_lines, middle_lines, closing_lines, image_text};

use crate::faults::ImageFault;
use crate::put_rows::{Spelled, put_result};
use crate::put_words::{put, put_number, put_word};
use crate::reads::read_image;
use gm_base::{Items, NoMemory};
use gm_image::{Block, Handler, Image, Sound};
use std::alloc::Global;

// Writes the lines of each.
fn put_all<T: Spelled>(text: &mut Vec<u8>, items: &[T]) -> Result<(), NoMemory>
    ensures { OnOk result (text.new.items ≡ text.old.items ++ text_of (flat_map T.spelled items.now)) }
{
    for item in items {
        item.write(text)?;
    }
    Ok(())
}

// Writes a header with how many there are, and the lines of each.
fn put_listed<T: Spelled>(text: &mut Vec<u8>, word: &[u8], items: &Items<T>) -> Result<(), NoMemory>
    ensures { OnOk result (text.new.items ≡ text.old.items ++ text_of (listed word.now T.spelled items.now)) }
{
    put(text, word)?;
    put_number(text, items.len())?;
    put(text, b"\n")?;
    put_all(text, items.as_slice())?;
    Ok(())
}

impl Spelled for Handler {
    ghost spelled = { λ h. handler_lines (handler h) };

    fn write(&self, text: &mut Vec<u8>) -> Result<(), NoMemory> {
        put(text, b"on")?;
        put_number(text, self.kind)?;
        put_number(text, self.lines.len())?;
        put(text, b"\n")?;
        put_all(text, self.lines.as_slice())?;
        Ok(())
    }
}

impl Spelled for Block {
    ghost spelled = { λ b. block_lines (block b) };

    fn write(&self, text: &mut Vec<u8>) -> Result<(), NoMemory> {
        put_listed(text, b"block", &self.handlers)?;
        put_listed(text, b"body", &self.body)?;
        Ok(())
    }
}

// Writes the lines up to the result's.
fn put_opening(text: &mut Vec<u8>, image: &Image) -> Result<(), NoMemory>
    ensures { OnOk result (text.new.items ≡ text.old.items ++ text_of (opening_lines (program image.now))) }
{
    put(text, b"gm-image 2\n")?;
    put(text, b"name")?;
    put_word(text, image.name.as_slice())?;
    put(text, b"\n")?;
    put_listed(text, b"inputs", &image.inputs)?;
    put_listed(text, b"outputs", &image.outputs)?;
    put_result(text, image.result)?;
    Ok(())
}

// Writes the lines from there to the places.
fn put_middle(text: &mut Vec<u8>, image: &Image) -> Result<(), NoMemory>
    ensures { OnOk result (text.new.items ≡ text.old.items ++ text_of (middle_lines (program image.now))) }
{
    put_listed(text, b"globals", &image.globals)?;
    put_listed(text, b"fields", &image.fields)?;
    put_listed(text, b"registers", &image.registers)?;
    put_listed(text, b"columns", &image.columns)?;
    put_listed(text, b"kinds", &image.kinds)?;
    put_listed(text, b"places", &image.places)?;
    Ok(())
}

// Writes the lines from there to the last.
fn put_closing(text: &mut Vec<u8>, image: &Image) -> Result<(), NoMemory>
    ensures { OnOk result (text.new.items ≡ text.old.items ++ text_of (closing_lines (program image.now))) }
{
    put_listed(text, b"blocks", &image.blocks)?;
    put_listed(text, b"master", &image.master)?;
    Ok(())
}

// The text of an image, sound or not.
pub fn written(alloc: Global, image: &Image) -> Result<Vec<u8>, NoMemory>
    ensures { IfOk result (λ text. text.items ≡ image_text (program image.now)) }
{
    let mut text = Vec::new(alloc);
    put_opening(&mut text, image)?;
    put_middle(&mut text, image)?;
    put_closing(&mut text, image)?;
    Ok(text)
}

/// The text of an image in version 2: its lines in their order, each of words with one space between two, and ended with
/// LF. The image is gone through once. It is the one text of this image in this version, and `read_image` answers it
/// with this image, unless it is longer than 268,435,456 bytes.
///
/// # Errors
///
/// `NoMemory`, and nothing else.
pub fn write_image(alloc: Global, image: &Sound) -> Result<Vec<u8>, NoMemory>
    ensures spelled { IfOk result (λ text. text.items ≡ image_text (program image.now)) }
    ensures text { IfOk result (λ text. IsTextOf (program image.now) text.items) }
{
    written(alloc, image.image())
}

/// What is written for an image and read again. It is the image, where its text is at most 268,435,456 bytes long.
///
/// # Errors
///
/// `NoMemory`, and `TooLong` for an image with a longer text.
pub fn written_and_read(alloc: Global, image: &Sound) -> Result<Image, ImageFault>
    ensures read { length (image_text (program image.now)) ≤ most_bytes → IsReadOf (program image.now) result }
    ensures too_long { most_bytes < length (image_text (program image.now)) → result ≡ Err ImageFault.TooLong ⊎ result ≡ Err ImageFault.NoMemory }
{
    let text = write_image(alloc, image)?;
    read_image(alloc, text.as_slice())
}
