//! Laws of loops, as contracts of calls that do nothing.

ghost use Rattle.gm_loop_laws.specs.Alone.{EndsAnywhere, Flipping};
ghost use Rattle.gm_loop_laws.specs.Conditions.{ConditionsSaved};
ghost use Rattle.gm_loop_laws.specs.Deferring.{DefersMove};
ghost use Rattle.gm_loop_laws.specs.Inner.{InnerLoopsCut, MaskedInnerLoopsCut};
ghost use Rattle.gm_loop_laws.specs.Localised.{LocalsMove};
ghost use Rattle.gm_loop_laws.specs.Masks.{ConditionsPart, MasksStay};
ghost use Rattle.gm_loop_laws.specs.Pieces.{PiecesInTurn};
ghost use Rattle.gm_loop_laws.specs.Resumed.{InnerLoopsResume, InnerLoopsTrim, MaskedInnerLoopsResume, MaskedInnerLoopsTrim};
ghost use Rattle.gm_loop_laws.specs.Saved.{SavingFresh};
ghost use Rattle.gm_loop_laws.specs.Slices.{Slices};

/// An inner loop that is the whole body of a loop, under a mask, is the loop of its other end where it reduces to nothing
/// of the inner node. Under a saved filter its reductions to the outer node may end with itself or with the outermost
/// loop.
pub fn inner_loops_alone()
    ensures flipped { Flipping }
    ensures ended { EndsAnywhere }
{}

/// A filter may be saved at every node in a fresh property, where its faults come before those of the body: all that the
/// loop names is left the same.
pub fn filters_can_be_saved()
    ensures { SavingFresh }
{}

/// A loop under a mask that cannot fault, and which a part of its body leaves as it is, is cut behind that part under the
/// same mask. An If that is its body is the loops of its branches, under the mask and each one's side of the condition.
pub fn masks_can_be_repeated()
    ensures stays { MasksStay }
    ensures parts { ConditionsPart }
{}

/// A loop runs as the loops of the pieces of its body, one after another, each under its own mask: the parts of a block,
/// and the branches of an If under each one's side of the condition.
pub fn pieces_run_in_turn()
    ensures { PiecesInTurn }
{}

/// A local of a loop's body may be kept in a fresh property of the loop's node, which is first set to what the local
/// holds before the loop.
pub fn locals_can_be_properties()
    ensures { LocalsMove }
{}

/// Deferred writes to a property may go to a fresh one at once, which is copied to it behind the loop.
pub fn deferred_writes_can_be_copied()
    ensures { DefersMove }
{}

/// Conditions of a loop's body may be saved in fresh locals where they are evaluated.
pub fn conditions_can_be_saved()
    ensures { ConditionsSaved }
{}

/// What only sets locals that nothing kept reads, and cannot fault, may go from a loop's body and from its inner loops.
pub fn bodies_can_be_sliced()
    ensures { Slices }
{}

/// An inner loop that is a whole body is cut in two: the loop of its first part, and that of its second one, which
/// evaluates the first part again and gives nothing of it. The filter is a saved one, or a mask that stays.
pub fn inner_loops_can_be_cut()
    ensures saved { InnerLoopsCut }
    ensures masked { MaskedInnerLoopsCut }
{}

/// An inner loop that is a whole body is cut in two: the loop of its first part, and that of its second one, which
/// evaluates again what it needs of the first part alone, whether the rest could fault or not, since it did not. What sets
/// locals that nothing behind it needs, and cannot fault, is left out of the second part, as of any inner loop alone.
pub fn inner_loops_resume()
    ensures saved { InnerLoopsResume }
    ensures masked { MaskedInnerLoopsResume }
    ensures trimmed { InnerLoopsTrim }
    ensures trimmed_masked { MaskedInnerLoopsTrim }
{}
