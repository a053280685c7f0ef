//! The answers that are a line about an image's text.

ghost use Rattle.std.specs.Prelude.{◌≡◌, IfOk};
ghost use Rattle.gm_base.specs.declared.statuses.Status.TheVariants.{BadInput};
ghost use Rattle.gm_input.specs.Texts.{Says};
ghost use Rattle.gm_exec.specs.Flaws.{flaw_text as flaw_text_lem, image_line as image_line_lem};

use crate::flaws::Flaw;
use gm_base::{NoMemory, Status};
use gm_input::Answer;
use itoa::Buffer;
use std::alloc::Global;

// The line for what is wrong with a line of an image's text.
fn image_line(alloc: Global, kind: &[u8], number: u32) -> Result<Vec<u8>, NoMemory>
    ensures { IfOk result (λ text. text.items ≡ image_line_lem kind.now number) }
{
    let mut buffer = Buffer::new();
    let mut text = Vec::from_slice(alloc, b"image ")?;
    text.extend_from_slice(kind)?;
    text.extend_from_slice(b" at line ")?;
    text.extend_from_slice(buffer.format(number).as_bytes())?;
    text.extend_from_slice(b"\n")?;
    Ok(text)
}

// The line for what is wrong with an image's text.
fn flaw_text(alloc: Global, flaw: Flaw) -> Result<Vec<u8>, NoMemory>
    ensures { IfOk result (λ text. text.items ≡ flaw_text_lem flaw) }
{
    match flaw {
        Flaw::TooLong => Ok(Vec::from_slice(alloc, b"image TooLong\n")?),
        Flaw::BadText(line) => image_line(alloc, b"BadText", line),
        Flaw::Broken { rule, line } => image_line(alloc, rule.name().as_bytes(), line),
    }
}

/// The answer for what is wrong with an image's text.
pub fn bad_image(alloc: Global, flaw: Flaw) -> Result<Answer, NoMemory>
    ensures { IfOk result (λ a. Says a.text.items a.status (flaw_text_lem flaw) BadInput) }
{
    Ok(Answer {
        text: flaw_text(alloc, flaw)?,
        status: Status::BadInput,
    })
}
