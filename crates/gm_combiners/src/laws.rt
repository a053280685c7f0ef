//! Laws of images with other combiners, as contracts of calls that do nothing.

ghost use Rattle.gm_combiners.specs.Laws.{CombinersAreAll, CombinersKeepSoundness, KindsKeepRuns};

/// Images that are the same but for their kinds have the same runs: the machine does not look at kinds.
pub fn kinds_keep_runs()
    ensures { KindsKeepRuns }
{}

/// A sound image stays sound with the combiner that each kind may have.
pub fn combined_images_are_sound()
    ensures { CombinersKeepSoundness }
{}

/// Then a kind has no combiner exactly where each reduction as its combiner would break I8.
pub fn combiners_are_all()
    ensures { CombinersAreAll }
{}
