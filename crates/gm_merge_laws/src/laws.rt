//! Laws of joined steps, as contracts of calls that do nothing.

ghost use Rattle.gm_merge_laws.specs.Outcomes.{AllJoinsKeep, JoinsEnd, JoinsKeepRanges, JoinsKeepRuns, JoinsKeepSoundness};

/// Where two consecutive steps are joined, the run of each graph with each arguments and each bound of turns has the same
/// outcome, and it takes no more supersteps. Where it ends without a fault, or the second step sends nothing, it sends no
/// more messages either.
pub fn joined_steps_are_one_step()
    ensures { JoinsKeepRuns }
{}

/// Where two consecutive steps of a sound image are joined, the image is sound, unless its text has too many lines. Its
/// numbers are in the ranges of their types.
pub fn joined_images_are_sound()
    ensures sound { JoinsKeepSoundness }
    ensures ranged { JoinsKeepRanges }
{}

/// Each join leaves one `step` line fewer in the master list. So there are no more joins one after another than such
/// lines.
pub fn joins_end()
    ensures { JoinsEnd }
{}

/// What comes from a sound image by joins, one after another, is sound, and every run of it has the outcome of the
/// image's run, in no more supersteps, and in no more messages where it ends without a fault.
pub fn joins_keep_runs()
    ensures { AllJoinsKeep }
{}
