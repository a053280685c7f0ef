//! That typed programs are well typed, as the contract of a call that does nothing.

ghost use Rattle.gm_well_typed.specs.Laws.{TypedIsWellTyped, TypedOutcomesHaveTypes, TypedTellsValues};

/// In a program whose types break no rule each variable that is told holds a value: a scalar, an iterator, or in a group
/// assignment the graph; no other iterates than what is declared with nodes; and NIL is the one constant that is a node.
/// So what `gm_typed_stores` asks of a program holds of it, where its constants are in range and only Min and Max have
/// several targets: on a graph and arguments that it asks for its outputs and its result have their declared types, and
/// each node among them is NIL or a node of the graph.
pub fn typed_programs_are_well_typed()
    ensures tells { TypedTellsValues }
    ensures well_typed { TypedIsWellTyped }
    ensures outcomes { TypedOutcomesHaveTypes }
{}
