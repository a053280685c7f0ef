//! What the passes keep for those that follow, as contracts of calls that do nothing.

ghost use Rattle.gm_desugaring.specs.Laws.{PassesKeepTotals, PassesKeepTypedRuns, TypedRises};

/// The passes up to the one that sets reads apart keep what the later ones ask for besides a form: the keys of each
/// reduction of the sequential phase rise, and the program tells values alone.
pub fn passes_keep_typed_runs()
    ensures { PassesKeepTypedRuns }
{}

/// The passes before the one that makes inner loops of reductions keep what it asks for: that the total of each
/// reduction stands in order, as one that may fault, in the parallel loops and in what becomes one, which are group
/// assignments and reductions of the sequential phase. Those before the pass of literals keep it of the program in which
/// each minus before a literal is a constant.
pub fn passes_keep_totals()
    ensures { PassesKeepTotals }
{}

/// In a program whose types break no rule the keys of each reduction of the sequential phase rise: the filter is
/// numbered before the braces, these before their total, and what stands in the reductions of a filter or of braces
/// comes before what is theirs.
pub fn typed_programs_rise()
    ensures { TypedRises }
{}
