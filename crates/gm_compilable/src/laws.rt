//! Laws of parted programs, as contracts of calls that do nothing.

ghost use Rattle.gm_compilable.specs.Kept.{PartedImagesAreSound, PartedIsLowerable};
ghost use Rattle.gm_compilable.specs.Parameters.{PartedImageHasItems};
ghost use Rattle.gm_compilable.specs.Laws.{AcceptedIsOfText, BelowFits, PartedFits, PartedHasColumns, PartedHasNames, PartedHasNoEdgeOutputs, PartedHasParameters, PartedHasTable, PartedIsWellTyped, TypedIterateNoParameter};

/// The program that a text stands for breaks no rule of types, and the procedure, its inputs and its outputs have names.
pub fn accepted_programs_are_of_texts()
    ensures { AcceptedIsOfText }
{}

/// No input or output of a program that breaks no rule of types, as the graph, iterates an inner loop once the program has
/// plain loops and its searches are loops over levels.
pub fn typed_programs_iterate_no_parameter()
    ensures { TypedIterateNoParameter }
{}

/// The table of declarations of such a program is in order when its loops are parted: iterators and graphs are nodes, inputs
/// and outputs are declared outside of loops, inputs are no iterators, and properties of edges are inputs, so that no output
/// is one.
pub fn parted_programs_have_tables()
    ensures tables { PartedHasTable }
    ensures outputs { PartedHasNoEdgeOutputs }
{}

/// It has the program's name and result, and its inputs and outputs with their names, sorts and types. In the program of a
/// text these are names, different among the inputs and among the outputs.
pub fn parted_programs_have_parameters()
    ensures parameters { PartedHasParameters }
    ensures names { PartedHasNames }
{}

/// Such a program tells values alone when its loops are parted, whatever limit its nodes have, where it is ready for the passes
/// and comes out ready to become an image: so in its runs values keep the types of their declarations.
pub fn parted_programs_are_well_typed()
    ensures { PartedIsWellTyped }
{}

/// A graph and arguments that fit a program that breaks no rule of types fit it when its loops are parted, and a graph has as
/// many columns of edges as the parted program declares, where it has as many as the program declares. What fits a program
/// below a limit of nodes fits it.
pub fn fitting_arguments_fit_parted()
    ensures fits { PartedFits }
    ensures below { BelowFits }
    ensures columns { PartedHasColumns }
{}

/// The image of such a program, once its loops are parted, has the program's name, its inputs and outputs with their names and
/// types in the order of their declarations, its columns of edges, and the type of its result.
pub fn parted_images_have_items()
    ensures { PartedImageHasItems }
{}

/// Such a program may be lowered where what it keeps at once are numbers, in bodies in locals: none of its constants is a node
/// but NIL, and its Fors iterate nodes of the procedure.
pub fn parted_programs_are_lowerable()
    ensures { PartedIsLowerable }
{}

/// So its image is sound, in the program of a text, where besides no expression has more than 512 levels, no tuple that is kept
/// at once has more than 511 entries, and the image's text has fewer lines than 2^32.
pub fn parted_images_are_sound()
    ensures { PartedImagesAreSound }
{}
