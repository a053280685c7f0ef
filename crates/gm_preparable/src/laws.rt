//! What is asked of a program before its loops are prepared, as contracts of calls that do nothing.

ghost use Rattle.gm_preparable.specs.Laws.{TypedCheckNothing, TypedKeepIteratorsApart, TypedKeepTuplesEven, TypedMayBePrepared};

/// In a program that breaks no rule of types each iterator is declared by its own loop or reduction, as deep as that stands.
/// The passes up to plain loops and loops over levels keep them so, and what they add stands so too: no variable iterates a
/// loop over nodes and an inner loop.
pub fn typed_programs_keep_iterators_apart()
    ensures { TypedKeepIteratorsApart }
{}

/// A program that breaks no rule of types checks no node variable, and these passes check some in sequential phases alone: no
/// loop that is cut then checks one.
pub fn typed_programs_check_nothing()
    ensures { TypedCheckNothing }
{}

/// These passes reduce nothing together that was not: where the targets of each reduction in the loops and searches of such a
/// program are declared inside as many loops, those of the loops that come out are.
pub fn typed_programs_keep_tuples_even()
    ensures { TypedKeepTuplesEven }
{}

/// So its loops may be prepared, where no reduction of such a loop has targets that are declared inside different loops.
pub fn typed_programs_may_be_prepared()
    ensures { TypedMayBePrepared }
{}
