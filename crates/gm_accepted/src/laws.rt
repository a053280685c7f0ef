//! What follows from the verdict on a text, as the contract of a call that does nothing.

ghost use Rattle.gm_accepted.specs.Laws.{AcceptedCanBeHoisted, AcceptedCanBecomeLoops, AcceptedIsReady, AcceptedIsShallow, AcceptedIsWellTyped};

use gm_depth::expressions_are_shallow;
use gm_desugaring::laws::typed_programs_rise;
use gm_order::{
    text_programs_are_ordered, text_programs_are_spelled, text_programs_can_be_hoisted,
};
use gm_ready::checked_programs_are_ready;
use gm_well_typed::typed_programs_are_well_typed;

/// The program that a text stands for, as `gm_canon::verdict` gives it, is ready for the passes of the compiler: each
/// variable stands in the table as what it is used as, expressions have the types that they must have, the faults of
/// each parallel loop stand in the order of the text, the loop's iterations share what ends with it alone, and the
/// tree has the form of a checked program. No expression of it has more than 512 levels. In its runs values keep the
/// types of their declarations, and nodes stay nodes of the graph. The total of each reduction stands in order, so that
/// its reductions can become inner loops, and the passes of `gm_desugaring::desugar` write it with plain loops.
pub fn accepted_programs_are_ready()
    ensures ready { AcceptedIsReady }
    ensures shallow { AcceptedIsShallow }
    ensures well_typed { AcceptedIsWellTyped }
    ensures hoisted { AcceptedCanBeHoisted }
    ensures loops { AcceptedCanBecomeLoops }
{
    text_programs_are_spelled();
    text_programs_are_ordered();
    text_programs_can_be_hoisted();
    checked_programs_are_ready();
    expressions_are_shallow();
    typed_programs_are_well_typed();
    typed_programs_rise();
}
