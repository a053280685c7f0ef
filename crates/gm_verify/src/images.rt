//! The rules of a whole image.

ghost use Rattle.std.specs.Prelude.{◌≡◌, ◌<◌, ◌+◌, IfOk, IfErr, OnOk};
ghost use Rattle.gm_image.specs.Views.{program};
ghost use Rattle.gm_image.specs.Rows.{rows, line_count};
ghost use Rattle.gm_image.specs.Soundness.{first_broken};
ghost use Rattle.gm_verify.specs.Checks.{Checks, Walks, IsFirstBroken};
ghost use Rattle.gm_verify.specs.Tails.{from_blocks, from_globals, from_kinds, Reaches};

use crate::blocks::{check_blocks, check_kinds};
use crate::items::{check_inputs, check_outputs, columns_rule, name_rule, result_rule};
use crate::master::check_master;
use crate::stops::{VerifyStop, next_line};
use gm_image::{Image, Sound};
use std::alloc::Global;

// The number of the line behind some lines that no rule looks at, of which the first has a number, and behind the
// header that follows them.
fn next_part(number: u64, count: usize) -> u64
    requires { number + count < 4294967296 }
    ensures { result ≡ number + count + 1 }
{
    number + count as u64 + 1
}

// Checks the lines up to the header of the globals.
fn check_declarations(alloc: Global, image: &Image) -> Result<u64, VerifyStop>
    requires { line_count (program image.now) < 4294967296 }
    ensures { Reaches (program image.now) (from_globals (program image.now)) result }
{
    let header = next_line(name_rule(image), 2)?;
    let outputs = check_inputs(alloc, image, image.inputs.as_slice(), header + 1)?;
    let returned = check_outputs(alloc, image, image.outputs.as_slice(), outputs + 1)?;
    let globals = next_line(result_rule(image), returned)?;
    Ok(globals + 1)
}

// Checks the lines from the globals, of which the first has a number in the text, up to the header of the kinds.
fn check_columns(image: &Image, number: u64) -> Result<u64, VerifyStop>
    requires room { line_count (program image.now) < 4294967296 }
    requires reached { Walks (program image.now) 1 (rows (program image.now)) number (from_globals (program image.now)) }
    ensures { Reaches (program image.now) (from_kinds (program image.now)) result }
{
    let fields = next_part(number, image.globals.len());
    let registers = next_part(fields, image.fields.len());
    let header = registers + image.registers.len() as u64;
    let columns = next_line(columns_rule(image), header)?;
    Ok(next_part(columns, image.columns.len()))
}

// Checks the lines from the kinds, of which the first has a number in the text, up to the header of the blocks.
fn check_places(image: &Image, number: u64) -> Result<u64, VerifyStop>
    requires room { line_count (program image.now) < 4294967296 }
    requires reached { Walks (program image.now) 1 (rows (program image.now)) number (from_kinds (program image.now)) }
    ensures { Reaches (program image.now) (from_blocks (program image.now)) result }
{
    let header = check_kinds(image, image.kinds.as_slice(), number)?;
    Ok(next_part(header + 1, image.places.len()))
}

// Checks all lines of an image's text.
fn check_image(alloc: Global, image: &Image) -> Result<u64, VerifyStop>
    requires { line_count (program image.now) < 4294967296 }
    ensures { Checks (program image.now) 1 (rows (program image.now)) result }
{
    let globals = check_declarations(alloc, image)?;
    let kinds = check_columns(image, globals)?;
    let blocks = check_places(image, kinds)?;
    let master = check_blocks(alloc, image, image.blocks.as_slice(), blocks)?;
    check_master(image, master)
}

/// The image as a sound one, or the least line of its text that breaks a rule, with the least rule that this line
/// breaks. The text of the image has fewer than 4,294,967,296 lines. The time that it takes grows as the text does.
pub fn verify(alloc: Global, image: Image) -> Result<Sound, VerifyStop>
    requires { line_count (program image) < 4294967296 }
    ensures ok { IfOk result (λ sound. sound ≡ image) }
    ensures kept { OnOk result (first_broken (program image) ≡ None) }
    ensures broken { IfErr result (IsFirstBroken (program image)) }
{
    check_image(alloc, &image)?;
    Ok(Sound::new(image))
}
