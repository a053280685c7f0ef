//! What follows from a text for its tree and its program, as contracts of calls that do nothing.

ghost use Rattle.gm_order.specs.Laws.{PlacesOfTextsAscend, TextProgramsAreOrdered, TextProgramsAreSpelled, TextProgramsCanBeHoisted, TextProgramsHaveTypes, TextTotalsStand};

use gm_ready::typed_programs_have_types;

/// The places in the tree of a text ascend as they do in the text: on the left those of a smaller place, and a
/// reduction's word before its range, this before its filter, its filter before its braces, and these before their end.
/// So does the place right behind the owner of a reduction's range: more of the range stands before what comes next.
pub fn places_of_texts_ascend()
    ensures { PlacesOfTextsAscend }
{}

/// In the program of a text each constant is in the range of its type, and only Min and Max have several targets: the
/// tokens hold no number above 2^63 - 1, a number that is taken as an Int is one, and the grammar lets several targets
/// stand under `min=` and `max=` alone.
pub fn text_programs_are_spelled()
    ensures { TextProgramsAreSpelled }
{}

/// In the program of a text every expression has the type that it must have there.
pub fn text_programs_have_types()
    ensures { TextProgramsHaveTypes }
{
    text_programs_are_spelled();
    typed_programs_have_types();
}

/// In the program of a text that is canonical the faults of each parallel loop stand in the order of the text, piece by
/// piece, and behind the key of the loop or search; none has the number 0. A reduction without braces has its total at its word, before its filter; it counts or tests, and its total
/// cannot fault.
pub fn text_programs_are_ordered()
    ensures { TextProgramsAreOrdered }
{}

/// In the program of a text that is canonical the total of each reduction stands in order too, as one that may fault:
/// behind its range, its filter and its braces, and before what comes next. Of a reduction without braces, whose total
/// is told at its word, that is the place right behind the last fault of its range and its filter. So its reductions can
/// be hoisted; and where passes make loops of group assignments and of the sequential phase's reductions, what stands in
/// these can be, too.
pub fn text_programs_can_be_hoisted()
    ensures hoisted { TextProgramsCanBeHoisted }
    ensures throughout { TextTotalsStand }
{}
