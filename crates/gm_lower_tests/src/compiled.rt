//! Programs as texts, and the texts of their images.

ghost use Rattle.std.specs.Prelude.{◌<◌, IfOk};
ghost use Rattle.gm_image.specs.Rows.{line_count};
ghost use Rattle.gm_image.specs.Soundness.{line_limit};
ghost use Rattle.gm_image.specs.Views as Views;

use gm_ast::forms::{Checked, Work};
use gm_base::{NoMemory, Stop};
use gm_canon::verdict;
use gm_compile::compile;
use gm_compile::passes::part;
use gm_image::{Image, Sound};
use gm_image_text::write_image;
use gm_lower::lower;
use gm_meaning::work_of;
use gm_verify::{VerifyStop, verify};
use std::alloc::Global;
use std::test::Fail;

// The calls of the compiler, each in a function that promises no more than its caller needs: what they promise of all
// programs, graphs and arguments would be tried at each goal behind them.

fn checked(alloc: Global, text: &[u8]) -> Result<Checked, Stop> {
    verdict(alloc, text)
}

fn parted(alloc: Global, program: Work) -> Result<Option<Work>, NoMemory> {
    part(alloc, program)
}

fn image_for(alloc: Global, program: &Work) -> Result<Image, NoMemory>
    ensures { IfOk result (λ r. line_count (Views.program r) < line_limit) }
{
    lower(alloc, program)
}

fn verified(alloc: Global, image: Image) -> Result<Sound, VerifyStop>
    requires { line_count (Views.program image) < line_limit }
{
    verify(alloc, image)
}

fn merged_for(alloc: Global, program: Work) -> Result<Option<Sound>, NoMemory> {
    compile(alloc, program)
}

fn text_for(alloc: Global, image: &Sound) -> Result<Vec<u8>, NoMemory> {
    write_image(alloc, image)
}

/// The program of a text, which is to break no rule.
pub(crate) fn program_of(alloc: Global, text: &str) -> Result<Work, Fail> {
    Ok(work_of(checked(alloc, text.as_bytes())?))
}

// The text of the image of a program in the last form, which is to be sound.
fn image_text(alloc: Global, program: &Work) -> Result<Vec<u8>, Fail> {
    let sound = verified(alloc, image_for(alloc, program)?)?;
    Ok(text_for(alloc, &sound)?)
}

/// The text of the image of a program whose text is in the last form.
pub(crate) fn lowered(alloc: Global, text: &str) -> Result<Vec<u8>, Fail> {
    let program = program_of(alloc, text)?;
    image_text(alloc, &program)
}

/// The text of the image of a program behind the passes that part its loops: no superstep is merged with another.
pub(crate) fn parted_and_lowered(alloc: Global, text: &str) -> Result<Vec<u8>, Fail> {
    match parted(alloc, program_of(alloc, text)?)? {
        Some(program) => image_text(alloc, &program),
        None => Err(Fail::from("it is not parted")),
    }
}

/// The text of the image that the compiler makes of a program.
pub(crate) fn compiled(alloc: Global, text: &str) -> Result<Vec<u8>, Fail> {
    match merged_for(alloc, program_of(alloc, text)?)? {
        Some(image) => Ok(text_for(alloc, &image)?),
        None => Err(Fail::from("no image")),
    }
}
