//! Laws of the merged image, as contracts of calls that do nothing.

ghost use Rattle.gm_merge.specs.Laws.{ComesByJoins, MergesKeep, NoneLeft, TrimsKeepRanges, TrimsKeepRuns, TrimsKeepSoundness};

/// The image whose steps are joined line by line comes from the image by joins, one after another, none of which makes
/// its text too long.
pub fn steps_are_joined_one_by_one()
    ensures { ComesByJoins }
{}

/// A sound image without the blocks that none of its steps runs has the runs of the image.
pub fn trimmed_images_run_as_before()
    ensures { TrimsKeepRuns }
{}

/// A sound image without the blocks that none of its steps runs is sound. Its numbers are in the ranges of their types
/// where those of the image are.
pub fn trimmed_images_are_sound()
    ensures sound { TrimsKeepSoundness }
    ensures ranged { TrimsKeepRanges }
{}

/// The merged image of a sound image is sound, and every run of it has the outcome of the image's run, in no more
/// supersteps, and in no more messages where it ends without a fault.
pub fn merged_images_run_as_before()
    ensures { MergesKeep }
{}

/// In the merged image of a sound image no two consecutive steps are joinable, unless the text would be too long with all
/// blocks that were joined and with their block.
pub fn none_is_left()
    ensures { NoneLeft }
{}
