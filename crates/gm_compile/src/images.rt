//! The image of a program.

ghost use Rattle.std.specs.Prelude.{◌≡◌, ◌<◌, ℕ, List, IfOk, IfSome, is_some};
ghost use Rattle.gm_ast.specs.Tree.{program_of};
ghost use Rattle.gm_canon.specs.Verdict.{StandsFor};
ghost use Rattle.gm_combiners.specs.Combiners.{combining};
ghost use Rattle.gm_image.specs.Rows.{line_count};
ghost use Rattle.gm_image.specs.Soundness.{line_limit};
ghost use Rattle.gm_image.specs.Views as Views;
ghost use Rattle.gm_lower.specs.Images as Images;
ghost use Rattle.gm_lower.specs.Laws.{IsItsImage};
ghost use Rattle.gm_merge.specs.Merged.{merged};
ghost use Rattle.gm_merge.specs.Results.{SameOutcomes};
ghost use Rattle.gm_compile.specs.Compiled.{Represents, breaks_no_rule, can_be_lowered, compiled, has_image};
ghost use Rattle.gm_compile.specs.Laws.{HasSameInterface, RunsAsImageOf};

use crate::laws::images_represent;
use crate::passes::part;
use gm_ast::forms::Work;
use gm_base::NoMemory;
use gm_combiners::give_combiners;
use gm_image::{Image, Sound};
use gm_lower::lower;
use gm_merge::merge;
use gm_suits::{suits_loops, tells_phases};
use gm_verify::{VerifyStop, verify};
use std::alloc::Global;

// An image as a sound one, where it breaks no rule.
fn judged(alloc: Global, image: Image) -> Result<Option<Sound>, NoMemory>
    requires { line_count (Views.program image) < line_limit }
    ensures same { IfOk result (λ r. IfSome r (λ sound. sound ≡ image)) }
    ensures which { IfOk result (λ r. is_some r ≡ breaks_no_rule (Views.program image)) }
{
    match verify(alloc, image) {
        Ok(sound) => Ok(Some(sound)),
        Err(VerifyStop::Broken { .. }) => Ok(None),
        Err(VerifyStop::NoMemory) => Err(NoMemory),
    }
}

// The image of a program in its last form, or none where it does not suit images, or its image would break a rule.
fn lowered(alloc: Global, program: &Work) -> Result<Option<Sound>, NoMemory>
    ensures made { IfOk result (λ r. IfSome r (λ i. Views.program i ≡ Images.image_of (program_of program.now))) }
    ensures which { IfOk result (λ r. is_some r ≡ can_be_lowered (program_of program.now)) }
    ensures own { IfOk result (λ r. IfSome r (λ i. IsItsImage (program_of program.now) (Views.program i))) }
{
    if !(tells_phases(program) && suits_loops(program)) {
        return Ok(None);
    }
    let image = lower(alloc, program)?;
    judged(alloc, image)
}

// An image whose consecutive supersteps are merged, and whose kinds have their combiners.
fn finish_image(alloc: Global, image: Sound) -> Result<Sound, NoMemory>
    ensures made { IfOk result (λ r. Views.program r ≡ combining (merged (Views.program image))) }
    ensures same { IfOk result (λ r. SameOutcomes (Views.program image) (Views.program r)) }
    ensures rest { IfOk result (λ r. HasSameInterface (Views.program image) (Views.program r)) }
{
    let merged = merge(alloc, image)?;
    let combined = give_combiners(alloc, merged)?;
    Ok(combined)
}

// The finished image of a program in its last form, or none where it has none.
fn image_of(alloc: Global, program: &Work) -> Result<Option<Sound>, NoMemory>
    ensures made { IfOk result (λ r. IfSome r (λ i. Views.program i ≡ combining (merged (Images.image_of (program_of program.now))))) }
    ensures which { IfOk result (λ r. is_some r ≡ can_be_lowered (program_of program.now)) }
    ensures runs { IfOk result (λ r. IfSome r (λ i. RunsAsImageOf (program_of program.now) (Views.program i))) }
{
    match lowered(alloc, program)? {
        Some(image) => Ok(Some(finish_image(alloc, image)?)),
        None => Ok(None),
    }
}

/// The image of a program: it means the same as vertices that send each other messages, superstep by superstep. Consecutive
/// supersteps are merged, and each kind of messages has the combiner that it may have. None where no image is made of the
/// program yet (`has_image`).
///
/// The image of the program of an accepted text stands for it: over every graph, for all arguments and every bound the
/// machine has the outcome that the program means. It takes time near linear in the program and its image, but for the
/// passes that say otherwise.
pub fn compile(alloc: Global, program: Work) -> Result<Option<Sound>, NoMemory>
    ensures made { IfOk result (λ r. IfSome r (λ i. Views.program i ≡ compiled (program_of program))) }
    ensures which { IfOk result (λ r. is_some r ≡ has_image (program_of program)) }
    ensures stands { IfOk result (λ r. IfSome r (λ i. (text : List ℕ) → StandsFor text (program_of program) → Represents (Views.program i) (program_of program))) }
{
    images_represent();
    match part(alloc, program)? {
        Some(parted) => image_of(alloc, &parted),
        None => Ok(None),
    }
}
