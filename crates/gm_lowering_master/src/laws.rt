//! Laws of the master list, as contracts of calls that do nothing.

ghost use Rattle.gm_lowering_master.specs.Follows.{StatementsAreFollowed};
ghost use Rattle.gm_lowering_master.specs.Going.{HomeLoopsGo, MessageLoopsGo, OwnLoopsGo, OwnSendingLoopsGo, PicksGo, ReceiverSendingLoopsGo, SendingLoopsGo};
ghost use Rattle.gm_lowering_master.specs.Plain.{PlainLoopsGo, PlainProgramsRun};
ghost use Rattle.gm_lowering_master.specs.Runs.{LinesLead};
ghost use Rattle.gm_lowering_master.specs.Whole.{FirstMomentsShow, LayoutsAreSettings, RunsAreFollowed};

/// A run from a line of the master list goes where that line leads: on, to a superstep and then to the next line, to a
/// line where a turn begins, if there is one left, or to its end.
pub fn lines_lead()
    ensures { LinesLead }
{}

/// The lines of a statement of a sequential phase do what the statement does, from each moment of a run that shows its
/// state: the run goes on behind them in a moment that shows the state that the statement leaves, with as many turns
/// counted and left; at the end of the master list where the procedure returns, with its result; or it has the outcome of
/// the statement's fault, its place included, or of the cut. It is asked of each parallel loop in the statement that its
/// supersteps are the loop, and of each reduction that is done at once that its lines do what it does.
pub fn statements_are_followed()
    ensures { StatementsAreFollowed }
{}

/// In the image of a program scalars, the result, counters and flags have globals of their own, locals have registers, and
/// properties have fields; each is in range.
pub fn layouts_are_settings()
    ensures { LayoutsAreSettings }
{}

/// Before its first step the machine on the image of a program shows the program's first state: globals and fields hold the
/// inputs, as far as there are arguments and columns for them, and first values, and so does the result.
pub fn first_moments_show()
    ensures { FirstMomentsShow }
{}

/// The machine on the image of a program has the program's outcome, with its turns, or its fault and place, or the cut: on
/// every graph with the edge columns that the image declares, for all arguments and every bound, where each parallel loop
/// goes and each reduction that is done at once. The program has types, and the nodes among arguments and in columns are
/// nodes of the graph.
pub fn runs_are_followed()
    ensures { RunsAreFollowed }
{}

/// The supersteps of an own loop, of a home loop, of a message loop, of one that sends along its edges or through node
/// variables, from own statements or from eachs, and of a message loop whose receivers send through node variables are the
/// loop, at each point of a run where it begins: with the store that it leaves, or with its fault at the place that the fault
/// shows. The loop finds what it reads where its kind has it, spots of one fault show one place, and what the loop gives to one
/// slot is by one reduction. Of what is sent the totals come behind all other faults. And the lines of a reduction that is done
/// at once, by Min or Max in scalars of the procedure, do what it does.
pub fn loops_go()
    ensures own { OwnLoopsGo }
    ensures message { MessageLoopsGo }
    ensures home { HomeLoopsGo }
    ensures sending { SendingLoopsGo }
    ensures through { OwnSendingLoopsGo }
    ensures receivers { ReceiverSendingLoopsGo }
    ensures picks { PicksGo }
{}

/// The machine on the image of a program of plain loops has the program's outcome, with its turns, or its fault and place, or
/// the cut: on every graph with the edge columns that the image declares, for all arguments and every bound. A loop is plain
/// where a test of its text says so: it is of own statements that reduce to scalars of the procedure, at once to properties
/// of their node and to locals, of values or tuples, and through node variables; or it is one inner loop along edges that
/// reduces to scalars of the procedure and to properties of one node, that at which it is evaluated or its neighbour, and at
/// once to its locals, by Min or Max; at the receivers of messages also through node variables, behind what they reduce to the
/// same properties; and at the outer node through these, where it reduces to no property of that. No other fault comes behind
/// the totals of Sums and Products that it sends. Between loops scalars of the procedure may keep the better of what they hold
/// and new values, a tuple at once too.
pub fn plain_programs_run()
    ensures loops { PlainLoopsGo }
    ensures runs { PlainProgramsRun }
{}
