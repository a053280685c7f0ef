//! What holds of programs of accepted texts, as contracts of calls that do nothing.

ghost use Rattle.gm_along.specs.Laws.{CanonicalGoOneWay, CanonicalReadAlong, LevelsReadAlong, PlainLoopsReadAlong, TypedAreScoped};

/// A name is known in the block that declares it alone: so the body of a parallel loop writes, of the locals that are declared
/// inside as many loops, its own.
pub fn typed_programs_are_scoped()
    ensures { TypedAreScoped }
{}

/// Rule C7 asks that the support of no reduction reads an edge against the way of its message. It counts, by the names that a
/// body declares, what the passes count by depth: so the inner loops of a program in canonical form read along.
pub fn canonical_programs_read_along()
    ensures { CanonicalReadAlong }
{}

/// The passes up to plain loops change no inner loop but for its literals and its compound assignments, and the inner loops that
/// they add read no edge.
pub fn plain_loops_read_along()
    ensures { PlainLoopsReadAlong }
{}

/// Inner loops over levels become loops over edges that come in or go out, whose filters read at the inner node: the ways of
/// their messages stay.
pub fn levels_read_along()
    ensures { LevelsReadAlong }
{}

/// So each slice of the inner loops of such a program goes one way, once its loops are prepared and its bodies go to pieces,
/// where no reduction of its loops has targets that are declared inside different loops.
pub fn canonical_programs_go_one_way()
    ensures { CanonicalGoOneWay }
{}
