//! The pass: each kind of a sound image gets the combiner that its handlers let it have.

ghost use Rattle.std.specs.Prelude.{◌≡◌, IfOk};
ghost use Rattle.gm_image.specs.Views.{program};
ghost use Rattle.gm_combiners.specs.Candidates.{leaves, left_for};
ghost use Rattle.gm_combiners.specs.Combiners.{first_fitting, kinds_with, combining};
ghost use Rattle.gm_combiners.specs.Laws.{HasAllCombiners, HasSameRuns};

use crate::candidates::{Candidates, combiner_at, find_candidates};
use gm_base::{Items, NoMemory};
use gm_image::{Image, Kind, Sound};
use std::alloc::{AllocError, Global};

// Kinds, each with the first of its candidates that fits as its combiner.
fn combine_kinds(
    alloc: Global,
    kinds: Vec<Kind>,
    candidates: &[Candidates],
) -> Result<Vec<Kind>, AllocError>
    ensures { IfOk result (λ r. r.items ≡ kinds_with (λ k types. first_fitting (leaves (left_for candidates.now k)) types) 0 kinds.items) }
{
    let mut combined = Vec::new(alloc);
    let mut number = 0;
    for kind in kinds {
        let combiner = combiner_at(candidates, number, kind.values.as_slice());
        combined.push(Kind {
            combiner,
            values: kind.values,
        })?;
        number += 1;
    }
    Ok(combined)
}

// The image with a combiner for each kind that may have one.
fn combine_image(alloc: Global, mut image: Image) -> Result<Image, AllocError>
    ensures { IfOk result (λ r. program r ≡ combining (program image)) }
{
    let kinds = image.kinds.into_vec();
    let candidates = find_candidates(alloc, kinds.len(), image.blocks.as_slice())?;
    let combined = combine_kinds(alloc, kinds, candidates.as_slice())?;
    image.kinds = Items::new(combined);
    Ok(image)
}

/// Gives each kind of an image the combiner that rule I8 lets it have, and no other kind has one afterwards: a kind with
/// one value, all of whose handlers are the one line that folds it by the same reduction, has this reduction, and one that
/// no handler takes has the first that fits its one value. Nothing else of the image changes, nor does any run of it. Time
/// is linear in the handlers and the kinds.
///
/// # Errors
///
/// If there is not enough memory.
pub fn give_combiners(alloc: Global, image: Sound) -> Result<Sound, NoMemory>
    ensures made { IfOk result (λ r. program r ≡ combining (program image)) }
    ensures same { IfOk result (λ r. HasSameRuns (program image) (program r)) }
    ensures all { IfOk result (λ r. HasAllCombiners (program r)) }
{
    let combined = combine_image(alloc, image.into_image())?;
    Ok(Sound::new(combined))
}
