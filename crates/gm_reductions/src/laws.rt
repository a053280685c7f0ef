//! What the passes leave of a sequential phase, as a contract of a call that does nothing.

ghost use Rattle.gm_reductions.specs.Phases.{FlatProgramsAreDesugared, PhasesAreDesugared};

/// Where the sequential phase has neither a reduction nor an access through a node variable left, and no pick, it
/// computes with scalars alone; and the program is desugared where its parallel loops and searches are flat.
pub fn phases_are_desugared()
    ensures outside { PhasesAreDesugared }
    ensures flat { FlatProgramsAreDesugared }
{}
