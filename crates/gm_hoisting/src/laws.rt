//! Laws of hoisting, as contracts of calls that do nothing.

ghost use Rattle.gm_hoisting.specs.Laws.{MeanTheSame, StayReady};

/// With the reductions of its parallel bodies as loops onto locals a program means the same, for every graph, all
/// arguments and every bound. It stays as ready for the passes as it was, and no reduction is left in its loops and
/// searches.
pub fn inner_folds_are_loops()
    ensures same { MeanTheSame }
    ensures ready { StayReady }
{}
