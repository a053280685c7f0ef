//! What follows from the rules of the language, as contracts of calls that do nothing.

ghost use Rattle.gm_ready.specs.Laws.{CanonicalIsChecked, CanonicalIsRaceFree, CheckedIsReady, TypedHasTypes, TypedIsNamed, TypedNumbersRise, TypedReducesAlike};

/// In a program whose types break no rule every variable stands in the table of declarations as what it is used as: an
/// iterator, a scalar that is written, a node through which something is read, a property, an edge. The inputs and the
/// outputs stand there too.
pub fn typed_programs_are_named()
    ensures { TypedIsNamed }
{}

/// In a program whose types break no rule every expression has the type that it must have there: conditions are Bools, a
/// value has the type of its target, a cast is from the other type of numbers, a reduction fits what it reduces. That
/// constants are in the ranges of their types, and that only Min and Max have several targets, typing does not say.
pub fn typed_programs_have_types()
    ensures { TypedHasTypes }
{}

/// In a program whose types break no rule the targets of one reduction are scalars, or properties through one variable,
/// and no target stands twice.
pub fn typed_programs_reduce_alike()
    ensures { TypedReducesAlike }
{}

/// In a program whose types break no rule the reductions of a parallel loop are taken under numbers that rise, where the
/// program's faults stand in the order of its text.
pub fn typed_programs_number_reductions()
    ensures { TypedNumbersRise }
{}

/// A program that breaks no rule of types, races and canonical form has the form of a checked program: each scalar is
/// declared inside as many parallel loops as it stands in, loops are nested as canonical form says, plain writes and
/// deferred ones go to the loop's own node or its locals, and an edge's property is read in inner loops alone.
pub fn canonical_programs_are_checked()
    ensures { CanonicalIsChecked }
{}

/// The parallel loops of a program that breaks no rule share between their iterations what ends with them alone, where
/// the program's faults stand in the order of its text: what they push they neither read nor write otherwise, and push
/// one way; what they change at their own nodes they read at no others, but a search at other levels; what they defer
/// they change in no other way.
pub fn canonical_programs_are_race_free()
    ensures { CanonicalIsRaceFree }
{}

/// A program that breaks no rule is ready for the passes, where its constants are in range and only Min and Max have
/// several targets, and its faults stand in the order of its text.
pub fn checked_programs_are_ready()
    ensures { CheckedIsReady }
{}
