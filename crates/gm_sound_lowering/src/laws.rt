//! Laws of sound images, as contracts of calls that do nothing.

ghost use Rattle.gm_sound_lowering.specs.Laws.{FoldsGoOneWay, ImagesAreShallow, ImagesAreSound, LinesHaveTypes, MasterListsLead, NamesKeep, PutsGoOneWay, ReadyImagesAreSound, ReadyIsAsked, RulesMakeSound, SpansStay};
ghost use Rattle.gm_sound_lowering.specs.Types.{TermsHaveTypes};

/// An image that keeps each rule is sound, where its text has fewer lines than 2^32.
pub fn rules_make_sound()
    ensures { RulesMakeSound }
{}

/// The master list of each program's image goes forward, and back to the turns that its lines belong to, and none of its
/// lines but the last is its end: the rules I3, I4 and I5.
pub fn master_lists_lead()
    ensures { MasterListsLead }
{}

/// In the image of each program `skip` and `each` stay within their lists: the rule I6.
pub fn spans_stay()
    ensures { SpansStay }
{}

/// The term of an expression of a type has the type in the image, wherever it is evaluated: in the master list, at a
/// vertex, in an each, and at the receiver of a message. Its indices are in range, and its leaves stand where they may. The
/// expression's constants are no nodes but NIL.
pub fn terms_have_types()
    ensures { TermsHaveTypes }
{}

/// The image of a program in the last form with types keeps the rules of indices and of leaves, I1 and I7, and where no
/// term is too deep that of types, I2. Inputs and outputs are declared outside of loops, iterators are nodes, constants are no
/// nodes but NIL, and what is kept at once by comparisons are numbers: in locals in a body, and in scalars of the procedure
/// in a sequential phase.
pub fn lines_have_types()
    ensures { LinesHaveTypes }
{}

/// The image of a program whose inputs and outputs have names, different among the inputs and among the outputs, keeps the
/// rule of names, slots and columns, I10: inputs and outputs are declared outside of loops, properties of edges are inputs,
/// and inputs of nodes and edges are no nodes.
pub fn names_keep()
    ensures { NamesKeep }
{}

/// In each block of the image of a program with types, whose loops share what ends with them alone, each global is put by one
/// reduction: the rule I9.
pub fn puts_go_one_way()
    ensures { PutsGoOneWay }
{}

/// In the image of a program with types, without reductions in expressions and searches, whose loops share what ends with
/// them alone, the rule I8 holds: in an each, and in the handlers of a block, each field is folded by one reduction, and is
/// neither set nor read where it is folded; handlers set no field, and a block has one of a kind.
pub fn folds_go_one_way()
    ensures { FoldsGoOneWay }
{}

/// No expression of a program's image is too deep, where none of the program has more levels than a limit, three below that
/// of images, and no tuple that is kept at once has more than 511 entries.
pub fn images_are_shallow()
    ensures { ImagesAreShallow }
{}

/// The image of a program in the last form with types, of which `IsAskedProgram` and `HasNames` hold, is sound, where its
/// loops share what ends with them alone, no expression has more than 512 levels, no tuple that is kept at once has more than
/// 511 entries, and the image's text has fewer lines than 2^32.
pub fn images_are_sound()
    ensures { ImagesAreSound }
{}

/// Of a program that the passes made ready all is asked that `IsAskedProgram` says, where its iterators and graphs are nodes,
/// its inputs and outputs are declared outside of loops, and `is_lowerable` holds: its constants are no nodes but NIL, the
/// iterators of its Fors are nodes of the procedure, and what it keeps at once are numbers, in bodies in locals.
pub fn ready_is_asked()
    ensures { ReadyIsAsked }
{}

/// So the image of such a program is sound, where besides inputs and outputs have names, no expression has more than 512
/// levels, no tuple that is kept at once has more than 511 entries, and the image's text has fewer lines than 2^32.
pub fn ready_images_are_sound()
    ensures { ReadyImagesAreSound }
{}
