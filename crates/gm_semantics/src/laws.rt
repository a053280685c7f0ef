//! Laws of the meaning, as contracts of calls that do nothing.

ghost use Rattle.gm_semantics.specs.Frames.{FrameOfBodies, FrameOfExpressions, FrameOfLoops, FrameOfStatements};
ghost use Rattle.gm_semantics.specs.Laws.{InnerLoopTakesBags, LeastTakesBags, LoopTakesBags, OthersStay, SettlingTakesBags, TargetsAreWhole, TotalsTakeBags};

/// What contributions leave, and which fault of them is the least, does not depend on the order in which they were
/// given.
pub fn contributions_have_no_order()
    ensures faults { LeastTakesBags }
    ensures settling { SettlingTakesBags }
    ensures totals { TotalsTakeBags }
{}

/// What is taken onto a target stands in its slots whole, and a slot to which nothing is given holds what it held.
pub fn targets_are_whole()
    ensures whole { TargetsAreWhole }
    ensures others { OthersStay }
{}

/// A loop does not depend on the order of its iterations, nor an inner loop on the order of its edges.
pub fn loops_have_no_order()
    ensures outer { LoopTakesBags }
    ensures inner { InnerLoopTakesBags }
{}

/// Each part of a program reads only the variables that it names: on stores that agree in all variables below a
/// number, a part whose variables are below it goes alike, and leaves stores that agree there.
pub fn parts_read_what_they_name()
    ensures expressions { FrameOfExpressions }
    ensures bodies { FrameOfBodies }
    ensures loops { FrameOfLoops }
    ensures statements { FrameOfStatements }
{}
