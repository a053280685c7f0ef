//! Sound images of texts.

ghost use Rattle.std.specs.Prelude.{IfOk, IfErr};
ghost use Rattle.gm_image.specs.Views.{program};
ghost use Rattle.gm_exec.specs.Flaws.{IsImageStop, StandsFor};
ghost use Rattle.gm_input.specs.Halts.{IfAnswered};
ghost use Rattle.gm_exec.specs.Replies.{SaysFlaw};

use crate::answers::bad_image;
use crate::flaws::ImageStop;
use gm_image::Sound;
use gm_image_text::read_image;
use gm_input::{Halt, answered};
use gm_verify::verify;
use std::alloc::Global;

// The sound image that a text is of, or what is wrong with the text.
fn sound_image(alloc: Global, text: &[u8]) -> Result<Sound, ImageStop>
    ensures stands { IfOk result (λ sound. StandsFor text.now (program sound)) }
    ensures flawed { IfErr result (IsImageStop text.now) }
{
    let image = read_image(alloc, text)?;
    let sound = verify(alloc, image)?;
    Ok(sound)
}

/// The sound image that a text is of, or the answer that says what is wrong with the text. The text is let go.
pub fn image_of(alloc: Global, text: Vec<u8>) -> Result<Sound, Halt>
    ensures stands { IfOk result (λ sound. StandsFor text.items (program sound)) }
    ensures halt { IfErr result (λ halt. IfAnswered halt (λ a. SaysFlaw text.items a.text.items a.status)) }
{
    match sound_image(alloc, &text) {
        Ok(sound) => Ok(sound),
        Err(ImageStop::Flawed(flaw)) => Err(answered(bad_image(alloc, flaw))),
        Err(ImageStop::NoMemory) => Err(Halt::NoMemory),
    }
}
