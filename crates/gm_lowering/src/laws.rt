//! Laws of the lowering, as contracts of calls that do nothing.

ghost use Rattle.gm_lowering.specs.Masters.{PhaseTermsHaveValues};
ghost use Rattle.gm_lowering.specs.HomeLoops.{HomeLoopsAreSupersteps, HomeLoopsHaveOneBlock};
ghost use Rattle.gm_lowering.specs.HomeSteps.{HomeStepsAreIterations};
ghost use Rattle.gm_lowering.specs.HomeTurns.{EachLinesAreTurns, RegistersBegin};
ghost use Rattle.gm_lowering.specs.Made.{LoopsGiveApart, TurnsGiveApart};
ghost use Rattle.gm_lowering.specs.MessageLoops.{HandlersAreTurns};
ghost use Rattle.gm_lowering.specs.OwnLoops.{OwnStepsAreIterations};
ghost use Rattle.gm_lowering.specs.OwnSendLoops.{SendingOwnLoopsAreTwoSupersteps};
ghost use Rattle.gm_lowering.specs.OwnSends.{SendingOwnStepsAreIterations};
ghost use Rattle.gm_lowering.specs.Phases.{OwnLoopsAreSupersteps};
ghost use Rattle.gm_lowering.specs.ReceiverSendLoops.{SendingMessageLoopsAreThreeSupersteps};
ghost use Rattle.gm_lowering.specs.ReceiverSends.{SendingHandlersAreTurns, SendingReceiversAreTurns};
ghost use Rattle.gm_lowering.specs.Receiving.{ReceivingStepsAreTurns};
ghost use Rattle.gm_lowering.specs.SenderLoops.{SendingLoopsAreTwoSupersteps};
ghost use Rattle.gm_lowering.specs.SenderSteps.{SendingStepsAreIterations};
ghost use Rattle.gm_lowering.specs.SenderSupersteps.{SendingSuperstepsSend};
ghost use Rattle.gm_lowering.specs.SenderTurns.{SendingLinesAreTurns};
ghost use Rattle.gm_lowering.specs.Sends.{SendBlocksSend};
ghost use Rattle.gm_lowering.specs.SentBehind.{LoopsSendBehind};
ghost use Rattle.gm_lowering.specs.Settles.{ReductionsSettle};
ghost use Rattle.gm_lowering.specs.Shapes.{LayoutsAreApart, MessageLoopsHaveTwoBlocks, OwnLoopsHaveOneBlock};
ghost use Rattle.gm_lowering.specs.Showing.{LiveHasItsValue, TermsHaveValues};
ghost use Rattle.gm_lowering.specs.Shown.{IndicesShowPlaces};
ghost use Rattle.gm_lowering.specs.Takings.{TakingHandlersTake};
ghost use Rattle.gm_lowering.specs.TakingSteps.{TakingBlocksTake};
ghost use Rattle.gm_lowering.specs.TupleLines.{LayoutsHaveSpares, TupleLinesKeep};
ghost use Rattle.gm_lowering.specs.Tuples.{ReplacingTells, TuplesAreKept};
ghost use Rattle.gm_lowering.specs.TwoSupersteps.{MessageLoopsAreTwoSupersteps};

/// The term of an expression has the expression's value, or its first fault at the index of its place, in every view of
/// the machine that tells the expression's leaves where the environment finds them.
pub fn terms_have_the_values_of_expressions()
    ensures terms { TermsHaveValues }
    ensures live { LiveHasItsValue }
{}

/// The step of a vertex with the block of an own loop is the loop's iteration at its node: it has the iteration's fault,
/// or its fields hold what the iteration leaves there; and what it puts is what the iteration gives, also before a
/// fault. The loop's reductions go to scalars of the procedure, or at once to properties of its node; or they keep the
/// better of two values or tuples in its locals, where the body and the store have the types of the declarations and there
/// are spare registers for the tuples.
pub fn own_steps_are_iterations()
    ensures { OwnStepsAreIterations }
{}

/// What reductions leave when they are taken is the same on the machine, which takes them by the indices of their places,
/// as in the program, which takes them by the numbers of their statements: the slots hold the same values, other slots
/// keep theirs, and the least fault of the totals is the same.
pub fn reductions_settle_alike()
    ensures { ReductionsSettle }
{}

/// The term that the lowering makes of two tuples of values, to be kept by Min or Max, is True where the new one takes the
/// place of the held one: by its first value, or by the rest where these are one. Where both have the types of their slots,
/// an argument reduction by one tuple leaves one of the two whole.
pub fn tuples_are_kept_whole()
    ensures tells { ReplacingTells }
    ensures kept { TuplesAreKept }
{}

/// The lines by which an own body keeps a tuple at once in its locals and its node's properties do what the reduction does,
/// where values have the types of their slots: the state behind them shows the iteration behind it, or they have the first
/// fault of its values. They use spare registers, which the layout of each program has apart from those of the locals.
pub fn lines_keep_tuples()
    ensures lines { TupleLinesKeep }
    ensures spares { LayoutsHaveSpares }
{}

/// One superstep of all vertices with the block of an own loop is the loop, where its reductions go to scalars of the
/// procedure, or at once to properties of its node and to its locals, of values or tuples: it has the loop's fault, the least of the operators'
/// and totals', at the index of its place; or globals and nodes show the store that the loop leaves, no message waits, and
/// the other globals keep their values.
pub fn own_loops_are_supersteps()
    ensures { OwnLoopsAreSupersteps }
{}

/// The run of the handler of a message that carries what the receiver reads of its sender is the inner loop's turn at the
/// edge along which the message came: it has the turn's fault; and what it puts to scalars and folds to properties of the
/// receiver is what the turn gives, also before a fault. The body may keep the better of two values or tuples in its locals,
/// where it and the store have the types of the declarations and there are spare registers for the tuples.
pub fn handlers_are_turns()
    ensures { HandlersAreTurns }
{}

/// The step of a vertex with the first block of a message loop sends a message with what the receiver reads along each of
/// the node's edges, in order, if the node passes the loop's mask. It does nothing else and never faults.
pub fn send_blocks_send()
    ensures { SendBlocksSend }
{}

/// The step of a vertex with the second block of a message loop, with the messages of some turns that reach its node, takes
/// what the turns give: its fields hold what the reductions to its node's properties leave, it has put what goes to scalars of
/// the procedure, and its fault is the least of the turns' and of the totals at its node.
pub fn receiving_steps_are_turns()
    ensures { ReceivingStepsAreTurns }
{}

/// A message loop is two supersteps: the first has no fault and leaves the globals; the second has the loop's fault, the least
/// of the operators' and totals', at the index of its place, or globals and nodes show the store that the loop leaves, no
/// message waits, and the other globals keep their values. Its reductions go to scalars of the procedure and to properties
/// of the inner iterator, or at once to locals of the inner loop, of values or tuples, where these have the types of the
/// declarations.
pub fn message_loops_are_two_supersteps()
    ensures { MessageLoopsAreTwoSupersteps }
{}

/// What the lowering gives has the shapes of which these laws speak: the numbers of each program's layout are in range and
/// apart; registers begin with the first values of their locals; and an own loop and a message loop whose bodies send nothing
/// have the blocks of the laws.
pub fn shapes_are_those_of_the_laws()
    ensures layouts { LayoutsAreApart }
    ensures own { OwnLoopsHaveOneBlock }
    ensures message { MessageLoopsHaveTwoBlocks }
    ensures registers { RegistersBegin }
{}

/// The place at the index of a fault, among the places of its loop or statement, is the place that the fault shows, where
/// faults that stand at one place in the order of faults show one.
pub fn indices_show_places()
    ensures { IndicesShowPlaces }
{}

/// Where globals and nodes show a store, an expression of the sequential phase has in the master list the value that it has
/// there, or its first fault at the index of its place.
pub fn phase_terms_have_values()
    ensures { PhaseTermsHaveValues }
{}

/// The lines of an each at an edge are the inner loop's turn there, whatever the turns before left in the registers: they have
/// the turn's fault; and what they put to scalars and fold to properties of the node is what the turn gives, also before a
/// fault. The fields stay as they were. The body may keep the better of two values or tuples in its locals, where it and the
/// store have the types of the declarations and there are spare registers for the tuples.
pub fn each_lines_are_turns()
    ensures { EachLinesAreTurns }
{}

/// The step of a vertex with the block of a home loop is the loop's iteration at its node: its fault is the least of the
/// mask's, the turns' and the totals at the node, or its fields hold what the inner loop leaves there; and what it puts is
/// what the turns give, also before a fault. The inner loop's reductions go to scalars of the procedure and to properties of
/// the node, or at once to its locals, of values or tuples, where these have the types of the declarations.
pub fn home_steps_are_iterations()
    ensures { HomeStepsAreIterations }
{}

/// One superstep of all vertices with the block of a home loop is the loop: it has the loop's fault, the least of the
/// operators' and totals', at the index of its place; or globals and nodes show the store that the loop leaves, no message
/// waits, and the other globals keep their values. It has this block where its body sends nothing.
pub fn home_loops_are_supersteps()
    ensures supersteps { HomeLoopsAreSupersteps }
    ensures blocks { HomeLoopsHaveOneBlock }
{}

/// The handler of a reduction through a node variable folds the values of its message: it gives one contribution to the
/// receiver's properties, with the key of the reduction's total, and does nothing else.
pub fn taking_handlers_take()
    ensures { TakingHandlersTake }
{}

/// What a loop gives when it ends is apart where the reductions of its body go together: contributions to one slot are by one
/// reduction to one target, and those of one statement to one target are of one total. So is what the turns of an inner loop
/// give at each node. And what receivers send to a property is by later statements than what they reduce to it themselves,
/// where all that is sent to the property is by later statements than each other reduction to it.
pub fn bodies_give_apart()
    ensures loops { LoopsGiveApart }
    ensures turns { TurnsGiveApart }
    ensures behind { LoopsSendBehind }
{}

/// One superstep of all vertices with a taking block takes what messages carry for reductions: it has the least fault of the
/// totals, at the index of its place; or globals and nodes show the store that the contributions leave, no message waits, and
/// the globals keep their values.
pub fn taking_blocks_take()
    ensures { TakingBlocksTake }
{}

/// The lines of an each that reduces to properties of the neighbour, or through node variables, are the inner loop's turn at the
/// edge, whatever the turns before left in the registers: they have the turn's fault; and what they put to scalars and send to
/// nodes is what the turn gives, also before a fault, each message by the kind of its reduction. The fields stay as they were.
/// The body may keep the better of two values or tuples in its locals, as that of a home loop. It and the store have the types of
/// the declarations, and their nodes are the graph's.
pub fn sending_lines_are_turns()
    ensures { SendingLinesAreTurns }
{}

/// The step of a vertex with the block of a loop whose eachs send, along the edges or through node variables, is the loop's
/// iteration at its node: it has the iteration's fault, the least of the mask's and the turns'; it puts what the turns give to
/// scalars of the procedure, and sends what they give to properties of nodes, also before a fault. Its fields stay as they were.
pub fn sending_steps_are_iterations()
    ensures { SendingStepsAreIterations }
{}

/// The first superstep of all vertices of a loop whose eachs send so puts what goes to scalars of the procedure, and
/// sends the rest: its fault is the least of the iterations' and of the totals of what is put; globals and nodes show what
/// these leave; messages carry the other contributions, one each; and the other globals keep their values.
pub fn sending_supersteps_send()
    ensures { SendingSuperstepsSend }
{}

/// The two supersteps of a loop whose eachs send so are the loop, where the totals of what is sent come behind all its
/// other faults: the first has the loop's fault, at the index of its place; or it has none, and the second has the loop's, or
/// globals and nodes show the store that the loop leaves, no message waits, and the other globals keep their values.
pub fn sending_loops_are_two_supersteps()
    ensures { SendingLoopsAreTwoSupersteps }
{}

/// The step of a vertex with the block of an own loop that sends through node variables is the loop's iteration at its node: it
/// has the iteration's fault, or its fields hold what the iteration leaves there; it puts what the iteration gives to scalars of
/// the procedure, and sends what it gives through node variables to the nodes that these hold, also before a fault, each message
/// by the kind of its reduction. The body and the store have the types of the declarations, and their nodes are the graph's.
pub fn sending_own_steps_are_iterations()
    ensures { SendingOwnStepsAreIterations }
{}

/// The two supersteps of an own loop that sends through node variables are the loop, where the totals of what is sent come behind
/// all its other faults: the first has the loop's fault, at the index of its place; or it has none, and the second has the loop's,
/// or globals and nodes show the store that the loop leaves, no message waits, and the other globals keep their values. The body
/// and the store have the types of the declarations, and their nodes are the graph's.
pub fn sending_own_loops_are_two_supersteps()
    ensures { SendingOwnLoopsAreTwoSupersteps }
{}

/// The run of the handler of a message whose body sends through node variables is the inner loop's turn at the edge of the
/// message: it has the turn's fault; it has put what the turn gives to scalars of the procedure, folded what it gives to
/// properties of its node that are none of those that are sent, and sent the rest to the nodes that the variables hold, also
/// before a fault, each message by the kind of its reduction.
pub fn sending_handlers_are_turns()
    ensures { SendingHandlersAreTurns }
{}

/// The step of a vertex with such a handler, with the messages of some turns that reach its node, takes what the turns give but
/// for what is sent: its fields hold what the reductions to its node's properties leave, it has put what goes to scalars of the
/// procedure, its fault is the least of the turns' and of the totals at its node, and its messages carry the rest.
pub fn sending_receivers_are_turns()
    ensures { SendingReceiversAreTurns }
{}

/// The three supersteps of a message loop whose receivers send through node variables are the loop, where what is sent to a
/// target is by later statements than what is taken there, and the totals of what is sent come behind all its other faults: the
/// first has no fault and leaves the globals; the second has the loop's fault, at the index of its place; or it has none, and the
/// third has the loop's, or globals and nodes show the store that the loop leaves, no message waits, and the other globals keep
/// their values. The body and the store have the types of the declarations, and their nodes are the graph's.
pub fn sending_message_loops_are_three_supersteps()
    ensures { SendingMessageLoopsAreThreeSupersteps }
{}
