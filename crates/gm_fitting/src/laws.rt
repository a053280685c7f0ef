//! Laws of arguments, as contracts of calls that do nothing.

ghost use Rattle.gm_fitting.specs.Laws.{BoundValuesHaveTypes, EdgeListsHaveColumns, MatricesHaveColumns, RunsFit};

/// The values that words NAME=VALUE give to the inputs of the program of a text have the inputs' types, and nodes among them
/// are nodes of the graph. So these values, with a graph that has a column of values for each property among the inputs,
/// are what the program asks for: they fit it, and the graph has as many columns of edges as it declares.
pub fn bound_values_fit()
    ensures values { BoundValuesHaveTypes }
    ensures runs { RunsFit }
{}

/// The columns of the graph that a text stands for, an edge list or a Matrix Market text, hold values of the types of its shape.
pub fn graphs_have_columns()
    ensures lists { EdgeListsHaveColumns }
    ensures matrices { MatricesHaveColumns }
{}
