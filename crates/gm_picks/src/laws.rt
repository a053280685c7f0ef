//! What is known of picks onto scalars, as a contract of a call that does nothing.

ghost use Rattle.gm_picks.specs.Laws.{PicksMeanTheSame, PicksStayReady};

/// With its picks onto scalars a program means the same, for every graph, all arguments and every bound, where its
/// variables stand in the table as they are used and nothing else is reduced at once. If it was ready for the loops of
/// its accesses, it still is, and each pick is onto scalars, of what scalars and counts tell.
pub fn picks_are_onto_scalars()
    ensures same { PicksMeanTheSame }
    ensures ready { PicksStayReady }
{}
