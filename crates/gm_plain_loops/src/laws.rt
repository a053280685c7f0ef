//! Laws of programs in the last form of the passes, as contracts of calls that do nothing.

ghost use Rattle.gm_plain_loops.specs.Laws.{ReadyIsFollowed, ReadyIsPlain, ReadyProgramsRun};

/// The master list follows a program that is ready in the last form of the passes, where its sequential phases name scalars
/// and nodes of the procedure alone.
pub fn ready_programs_are_followed()
    ensures { ReadyIsFollowed }
{}

/// The loops of such a program are plain, where it does no reduction at once in a sequential phase; filters name no locals,
/// and bodies no graph; the targets of each reduction end together, and its total follows what may fault in its values and
/// targets; what goes through scalars and iterators around is sent, from own statements, from receivers, behind what they
/// reduce to the same properties, or from the outer nodes of inner loops, which reduce to no property of their own; and nothing
/// that may fault stands behind a Sum or a Product that is sent.
pub fn ready_programs_are_plain()
    ensures { ReadyIsPlain }
{}

/// The machine on the image of a program of which both are true has the program's outcome, with its turns, or its fault and
/// place, or the cut: on every graph with the edge columns that the image declares, for all arguments and every bound.
pub fn ready_programs_run()
    ensures { ReadyProgramsRun }
{}
