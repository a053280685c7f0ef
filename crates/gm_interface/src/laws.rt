//! Laws of tables of declarations, as contracts of calls that do nothing.

ghost use Rattle.gm_interface.specs.Laws.{PassesKeepNames, PassesKeepParameters, PassesKeepTables, TextsAreNamed, TypedHasNamesApart, TypedHasTable};

/// The table of declarations of a program that breaks no rule of types is in order: iterators and graphs are nodes, inputs and
/// outputs are declared outside of loops, inputs are no iterators, and properties of edges are inputs.
pub fn typed_programs_have_tables()
    ensures { TypedHasTable }
{}

/// The inputs of such a program have different names, and so have its outputs, and inputs of nodes and edges are no nodes.
pub fn typed_programs_have_names_apart()
    ensures { TypedHasNamesApart }
{}

/// A procedure that a text spells, its inputs and its outputs have names: a letter or `_`, then letters, digits and `_`.
pub fn texts_are_named()
    ensures { TextsAreNamed }
{}

/// The passes keep a program's table of declarations in order, the one that places iterators where no input or output
/// iterates an inner loop.
pub fn passes_keep_tables()
    ensures { PassesKeepTables }
{}

/// The passes keep the names of a program, its inputs and its outputs, and that inputs of nodes and edges are no nodes.
pub fn passes_keep_names()
    ensures { PassesKeepNames }
{}

/// The passes keep a program's name, its result, and its inputs and outputs with their names, sorts and types.
pub fn passes_keep_parameters()
    ensures { PassesKeepParameters }
{}
