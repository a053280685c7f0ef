//! What holds of inner loops that read no edge against the way of a message, as contracts of calls that do nothing.

ghost use Rattle.std.specs.Prelude.{◌≡◌, true};
ghost use Rattle.gm_ast.specs.Program.{Program};
ghost use Rattle.gm_forms.specs.Ready.{Ready2};
ghost use Rattle.gm_dissect.specs.AllDeferred.{without_deferred};
ghost use Rattle.gm_cut.specs.Lean.{has_slices_that_go};
ghost use Rattle.gm_cut.specs.Parts.{in_pieces};
ghost use Rattle.gm_locals.specs.AllGroups.{with_groups_kept};
ghost use Rattle.gm_parting.specs.Apart.{with_statements_apart};
ghost use Rattle.gm_parting.specs.Declared.{with_locals_declared};
ghost use Rattle.gm_parting.specs.Filters.{with_saved_filters};
ghost use Rattle.gm_parting.specs.Iterators.{with_iterators_placed};
ghost use Rattle.gm_parting.specs.Nodes.{with_nodes_read};
ghost use Rattle.gm_parting.specs.Numbers.{with_conditions_apart};
ghost use Rattle.gm_parting.specs.Passes.{MayBePrepared, prepared};
ghost use Rattle.gm_one_way.specs.Along.{ReadsAlong};
ghost use Rattle.gm_one_way.specs.Laws.{ApartGo, ApartKeepsAlong, PiecesKeepAlong, StatementsGo};

/// Each statement of a parted program goes one way by itself, behind what it needs of those before it, where each stands
/// alone and no reduction of an inner loop rests on a read of an edge against the way of its message.
pub fn statements_go()
    ensures { StatementsGo }
{}

/// Statements that are made to stand alone, each under its conditions, rest on no read of an edge on which they did not
/// before.
pub fn statements_apart_read_along()
    ensures { ApartKeepsAlong }
{}

/// So each of them goes one way.
pub fn statements_apart_go()
    ensures { ApartGo }
{}

/// Bodies of loops that go to pieces leave the reads of their inner loops as they are.
pub fn pieces_read_along()
    ensures { PiecesKeepAlong }
{}

/// So do the passes before that change nothing within inner loops: those that place iterators, declare locals, send deferred
/// writes to copies, and save filters and conditions.
pub fn passes_around_inner_loops_read_along()
    ensures placed { (p : Program) → Ready2 p → ReadsAlong p → ReadsAlong (with_iterators_placed p) }
    ensures declared { (p : Program) → Ready2 p → ReadsAlong p → ReadsAlong (with_locals_declared p) }
    ensures deferred { (p : Program) → Ready2 p → ReadsAlong p → ReadsAlong (without_deferred p) }
    ensures filters { (p : Program) → Ready2 p → ReadsAlong p → ReadsAlong (with_saved_filters p) }
    ensures conditions { (p : Program) → Ready2 p → ReadsAlong p → ReadsAlong (with_conditions_apart p) }
{}

/// So do those that send locals of outer bodies to properties together.
pub fn kept_locals_read_along()
    ensures { (p : Program) → Ready2 p → ReadsAlong p → ReadsAlong (with_groups_kept p) }
{}

/// And those that read nodes first: what such a node is rests on nothing within its inner loop.
pub fn nodes_read_along()
    ensures { (p : Program) → Ready2 p → ReadsAlong p → ReadsAlong (with_nodes_read p) }
{}

/// So a program that is prepared reads along as it did, and where its bodies go to pieces and their statements stand alone,
/// each slice of its inner loops goes one way.
pub fn prepared_programs_read_along()
    ensures reads { (p : Program) → Ready2 p → ReadsAlong p → ReadsAlong (prepared p) }
    ensures go { (p : Program) → Ready2 p → MayBePrepared p → ReadsAlong p → has_slices_that_go (with_statements_apart (in_pieces (prepared p))) ≡ true }
{}
