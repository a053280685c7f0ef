//! The laws of the written machine on which other crates rest. Each function's contract is a law, and it does nothing
//! when it is called.

ghost use Rattle.gm_machine.specs.Combining.{StepTakesTotals};
ghost use Rattle.gm_machine.specs.HandedTotals.{StepTakesHandedTotals};
ghost use Rattle.gm_machine.specs.Laws.{StepTakesBags, SoundStepTakesBags, SoundPutsAreBags};
ghost use Rattle.gm_machine.specs.States.{StatesEndAsTheRun, StatesEndInTime, SuperstepsAreBounded};

/// The step of a vertex does not depend on the order of its inbox: fields and fault are the same, and what is sent and
/// put is the same but for its order. It holds where the handlers fold each field by one reduction, as those of a sound
/// image do.
pub fn inboxes_have_no_order()
    ensures folded { StepTakesBags }
    ensures sound { SoundStepTakesBags }
{}

/// What the vertices of a sound image put in a superstep may be taken onto the globals in any order.
pub fn puts_have_no_order()
    ensures { SoundPutsAreBags }
{}

/// The step of a vertex of a sound image depends on the messages of a combinable kind by their exact total alone, and on
/// the others as a bag.
pub fn totals_stand_for_messages()
    ensures { StepTakesTotals }
{}

/// In the step of a vertex of a sound image messages of a combinable kind may be left out, where others of the kind that
/// have their exact total come in their place. It is the same step but for the order of what is sent and put.
pub fn totals_are_handed_in()
    ensures { StepTakesHandedTotals }
{}

/// The states after one superstep, after two and so on come to the end of the whole run, and come to it as soon as the
/// run's supersteps are done. There are at most as many as the turns and one times the `step` lines of the master list.
pub fn states_reach_the_end()
    ensures same { StatesEndAsTheRun }
    ensures in_time { StatesEndInTime }
    ensures bounded { SuperstepsAreBounded }
{}
