//! Programs and the texts of their images: such as were written by hand, and those of the examples.

use crate::compare::{all_read, same};
use crate::compiled::{lowered, parted_and_lowered};
use gm_compiler_rows::example_images::example_images;
use gm_compiler_rows::images::IMAGES;
use gm_examples::{COUNT, examples};
use gm_tables::{is_row, sides};
use std::alloc::Global;
use std::process::Abort;
use std::test::Fail;

// The text of an image without its globals.
fn without_globals(alloc: Global, image: &str) -> Result<String, Fail> {
    let (front, more) = sides(image, "globals ")?;
    let (_, behind) = sides(more, "fields ")?;
    Ok(format!(in alloc; "{front}fields {behind}")?)
}

// Whether a program in the last form has its image.
fn is_lowered(rt: &impl Abort, alloc: Global, text: &str, wanted: &str) -> Result<(), Fail> {
    let image = lowered(alloc, text)?;
    let written = String::from_utf8_lossy(alloc, &image)?;
    same(rt, written.as_str(), wanted, text);
    Ok(())
}

// Whether a program has its image behind the passes.
fn is_lowered_behind_passes(
    rt: &impl Abort,
    alloc: Global,
    text: &str,
    wanted: &str,
) -> Result<(), Fail> {
    let image = parted_and_lowered(alloc, text)?;
    let written = String::from_utf8_lossy(alloc, &image)?;
    let written = without_globals(alloc, written.as_str())?;
    let wanted = without_globals(alloc, wanted)?;
    same(rt, written.as_str(), wanted.as_str(), text);
    Ok(())
}

// Whether the image of a row is as it says.
fn image_holds(rt: &impl Abort, alloc: Global, row: &str) -> Result<(), Fail> {
    let (line, rest) = sides(row, "\n")?;
    let (text, wanted) = sides(rest, "%%\n")?;
    if line.contains("passes") {
        is_lowered_behind_passes(rt, alloc, text, wanted)
    } else {
        is_lowered(rt, alloc, text, wanted)
    }
}

#[test]
fn programs_have_these_images(rt: HostRuntime) -> Result<(), Fail> {
    let mut read = 0usize;
    for row in IMAGES.split('~') {
        if is_row(row) {
            image_holds(&rt, rt.alloc(), row)?;
            read = read.saturating_add(1);
        }
    }
    all_read(&rt, read, 4);
    Ok(())
}

// The program of an example by its name.
fn example_named(name: &str) -> Result<&'static str, Fail> {
    for row in examples().split('~') {
        if row.starts_with(name) {
            let (given, _) = sides(row, "%%\n")?;
            let (_, text) = sides(given, "\n")?;
            return Ok(text);
        }
    }
    Err(Fail::from("no such example"))
}

// Whether the image of an example is that of a row.
fn example_holds(rt: &impl Abort, alloc: Global, row: &str) -> Result<(), Fail> {
    let (name, wanted) = sides(row, "\n")?;
    let text = example_named(name)?;
    let image = parted_and_lowered(alloc, text)?;
    let written = String::from_utf8_lossy(alloc, &image)?;
    same(rt, written.as_str(), wanted, name);
    Ok(())
}

#[test]
fn examples_have_these_images(rt: HostRuntime) -> Result<(), Fail> {
    let mut read = 0usize;
    for row in example_images().split('~') {
        if is_row(row) {
            example_holds(&rt, rt.alloc(), row)?;
            read = read.saturating_add(1);
        }
    }
    all_read(&rt, read, COUNT);
    Ok(())
}
