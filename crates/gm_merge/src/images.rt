//! Passes over images: one joins supersteps wherever two consecutive ones may be one, until no two such are left, and one
//! drops the blocks that no step runs.

ghost use Rattle.std.specs.Prelude.{◌≡◌, ◌<◌, IfOk, length};
ghost use Rattle.gm_image.specs.Views.{program};
ghost use Rattle.gm_merge.specs.Merged.{merged};
ghost use Rattle.gm_merge.specs.Trimmed.{trimmed};
ghost use Rattle.gm_merge.specs.Numbers.{StepsInside};
ghost use Rattle.gm_merge.specs.Results.{RunsAs, SameOutcomes, FewerSupersteps, FewerMessages, HasSameRest, HasNoneLeft};

use crate::joining::join_image;
use crate::trimming::trim_lists;
use gm_base::{Items, NoMemory};
use gm_image::{Image, Sound};
use std::alloc::{AllocError, Global};

// The image without the blocks that no step runs.
fn trim_image(alloc: Global, mut image: Image) -> Result<Image, AllocError>
    requires few { length (program image).blocks < 4294967295 }
    requires inside { StepsInside (length (program image).blocks) (program image).master }
    ensures { IfOk result (λ r. program r ≡ trimmed (program image)) }
{
    let lists = trim_lists(alloc, image.blocks.into_vec(), image.master.into_vec())?;
    image.blocks = Items::new(lists.0);
    image.master = Items::new(lists.1);
    Ok(image)
}

/// Drops the blocks that no step runs. Time is linear in the blocks and the master list, whatever the lines of the
/// blocks, which are moved.
///
/// # Errors
///
/// If there is not enough memory.
pub fn trim(alloc: Global, image: Sound) -> Result<Sound, NoMemory>
    ensures made { IfOk result (λ r. program r ≡ trimmed (program image)) }
    ensures same { IfOk result (λ r. RunsAs (program image) (program r)) }
    ensures rest { IfOk result (λ r. HasSameRest (program image) (program r)) }
{
    let trimmed = trim_image(alloc, image.into_image())?;
    Ok(Sound::new(trimmed))
}

/// Joins supersteps wherever two consecutive ones may be one, line by line from the first to the last, and drops the
/// blocks that no step runs any more. Time is near linear in the image and its result: lines are moved, and copied only
/// where a block that more than one step runs is joined.
///
/// # Errors
///
/// If there is not enough memory.
pub fn merge(alloc: Global, image: Sound) -> Result<Sound, NoMemory>
    ensures made { IfOk result (λ r. program r ≡ merged (program image)) }
    ensures same { IfOk result (λ r. SameOutcomes (program image) (program r)) }
    ensures supersteps { IfOk result (λ r. FewerSupersteps (program image) (program r)) }
    ensures messages { IfOk result (λ r. FewerMessages (program image) (program r)) }
    ensures rest { IfOk result (λ r. HasSameRest (program image) (program r)) }
    ensures none_left { IfOk result (λ r. HasNoneLeft (program image) (program r)) }
{
    let joined = join_image(alloc, image.into_image())?;
    let merged = trim_image(alloc, joined)?;
    Ok(Sound::new(merged))
}
