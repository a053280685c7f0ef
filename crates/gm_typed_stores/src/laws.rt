//! That stores stay typed, as contracts of calls that do nothing.

ghost use Rattle.gm_typed_stores.specs.Laws.{AskedFits, BodiesKeepTypes, ExpressionsKeepTypes, FirstStoresHaveTypes, FittingIsBelow, LoopsKeepTypes, OutcomesHaveTypes, PointsHaveTypes, RunsKeepTypes, StatementsKeepTypes};

/// In a run of a program with types each scalar and each property's value at a node or an edge has the type that is
/// declared for it, and each node is NIL or has an index below a limit: the graph's number of nodes, where the
/// arguments and the graph's columns keep to it, or 2 ^ 32. An expression gives a value of its type, or a fault.
pub fn stores_stay_typed()
    ensures first { FirstStoresHaveTypes }
    ensures asked { AskedFits }
    ensures fitting { FittingIsBelow }
    ensures expressions { ExpressionsKeepTypes }
    ensures bodies { BodiesKeepTypes }
    ensures loops { LoopsKeepTypes }
    ensures statements { StatementsKeepTypes }
    ensures runs { RunsKeepTypes }
    ensures points { PointsHaveTypes }
{}

/// The outputs and the result of a run to its end have the types that are declared for them, and an output property
/// has one value for each node.
pub fn outcomes_have_types()
    ensures { OutcomesHaveTypes }
{}
