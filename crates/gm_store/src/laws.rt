//! The laws of writes that are taken back. Each function's contract is a law, and it does nothing when it is called.

ghost use Rattle.gm_store.specs.Laws.{WritingBackRestores, LaterLogsComeFirst, LoggedWritesAreReversible, CoursesJoin, RollingBackRestores};

/// A logged write can be taken back, and so can one course of such writes after another.
pub fn logged_writes_are_reversible()
    ensures back { WritingBackRestores }
    ensures order { LaterLogsComeFirst }
    ensures write { LoggedWritesAreReversible }
    ensures joined { CoursesJoin }
{}

/// Rolling back to a mark gives what was held when the mark was taken, if there were only logged writes since.
pub fn rolling_back_restores()
    ensures { RollingBackRestores }
{}
