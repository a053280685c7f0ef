//! Laws of programs whose loops may be written as the loops of their pieces, as contracts of calls that do nothing.

ghost use Rattle.std.specs.Prelude.{◌≡◌, true};
ghost use Rattle.gm_ast.specs.Program.{Program};
ghost use Rattle.gm_forms.specs.Ready.{Ready2, Ready3};
ghost use Rattle.gm_forms.specs.Meanings.{SameMeaning};
ghost use Rattle.gm_dissect.specs.AllDeferred.{has_no_deferred};
ghost use Rattle.gm_dissect.specs.Conditions.{with_saved_conditions};
ghost use Rattle.gm_dissect.specs.Locals.{with_kept_locals};
ghost use Rattle.gm_cut.specs.Lean.{has_slices_that_go};
ghost use Rattle.gm_cut.specs.Parts.{can_be_parted, goes_any_way, in_pieces, IsPartedBy};
ghost use Rattle.gm_parting.specs.Apart.{with_statements_apart};
ghost use Rattle.gm_parting.specs.Declared.{has_no_strangers, with_locals_declared};
ghost use Rattle.gm_parting.specs.Filters.{with_saved_filters};
ghost use Rattle.gm_parting.specs.InnerLoops.{has_iterators_in_place};
ghost use Rattle.gm_parting.specs.Iterators.{has_iterators_apart, with_iterators_placed};
ghost use Rattle.gm_parting.specs.Lasting.{has_lasting_filters, has_numbered_ifs, has_repeatable_conditions};
ghost use Rattle.gm_parting.specs.Locals.{has_declared_locals, has_no_locals, has_movable_locals};
ghost use Rattle.gm_parting.specs.Nodes.{with_nodes_read};
ghost use Rattle.gm_parting.specs.Passes.{dissected, prepared, MayBePrepared};
ghost use Rattle.gm_parting.specs.Prepared.{IsPrepared};
ghost use Rattle.gm_parting.specs.Tuples.{has_even_tuples};

/// A program without searches that is prepared may have each of its loops written as the loops of the pieces of its body,
/// whatever way its inner loops go.
pub fn programs_can_be_parted()
    ensures { (p : Program) → Ready2 p → IsPrepared p → can_be_parted goes_any_way p ≡ true }
{}

/// The filter of each loop that is cut, and over whose body it does not last, may be saved at every node in a property
/// first: a program that defers nothing means the same, for every graph, all arguments and every bound. It is as ready for
/// what comes next as it was, has filters that last, and still defers nothing.
pub fn filters_go_to_a_property()
    ensures same { (p : Program) → Ready2 p → has_no_deferred p ≡ true → SameMeaning p (with_saved_filters p) }
    ensures ready { (p : Program) → Ready2 p → Ready2 (with_saved_filters p) }
    ensures saved { (p : Program) → Ready2 p → has_lasting_filters (with_saved_filters p) ≡ true }
    ensures none { (p : Program) → Ready2 p → has_no_deferred p ≡ true → has_no_deferred (with_saved_filters p) ≡ true }
{}

/// Where a loop that is not of own statements reduces through a local of its outer body, the node may be read into a local
/// of its own just before, so that nothing else is reached through the first: the program means the same, for every graph,
/// all arguments and every bound, and is as ready for what comes next as it was.
pub fn nodes_are_read_first()
    ensures same { (p : Program) → Ready2 p → SameMeaning p (with_nodes_read p) }
    ensures ready { (p : Program) → Ready2 p → Ready2 (with_nodes_read p) }
{}

/// A program is prepared where it defers nothing, and in its loops that are cut filters last, conditions may be repeated,
/// no local is named, tuples are even and iterators are declared where they stand.
pub fn programs_without_locals_are_prepared()
    ensures { (p : Program) → Ready2 p → has_no_deferred p ≡ true → has_lasting_filters p ≡ true → has_repeatable_conditions p ≡ true → has_no_locals p ≡ true →
        has_even_tuples p ≡ true → has_iterators_in_place p ≡ true → IsPrepared p }
{}

/// A program is prepared when its locals have gone to properties, one after another, where before it deferred nothing, and
/// in its loops that are cut filters lasted, conditions might be repeated, each local might go, tuples were even and
/// iterators declared where they stand.
pub fn moved_locals_leave_programs_prepared()
    ensures { (p : Program) → Ready2 p → has_no_deferred p ≡ true → has_lasting_filters p ≡ true → has_repeatable_conditions p ≡ true → has_movable_locals p ≡ true →
        has_even_tuples p ≡ true → has_iterators_in_place p ≡ true → IsPrepared (with_kept_locals p) }
{}

/// Conditions that are saved in locals may be repeated where each If that holds what is cut has another number than those
/// within it, and a program is prepared when its locals have gone to properties then.
pub fn saved_conditions_leave_programs_prepared()
    ensures repeatable { (p : Program) → Ready2 p → has_no_deferred p ≡ true → has_lasting_filters p ≡ true → has_numbered_ifs p ≡ true → has_movable_locals p ≡ true →
        has_even_tuples p ≡ true → has_iterators_in_place p ≡ true → has_repeatable_conditions (with_saved_conditions p) ≡ true }
    ensures prepared { (p : Program) → Ready2 p → has_no_deferred p ≡ true → has_lasting_filters p ≡ true → has_numbered_ifs p ≡ true → has_movable_locals p ≡ true →
        has_even_tuples p ≡ true → has_iterators_in_place p ≡ true → IsPrepared (with_kept_locals (with_saved_conditions p)) }
{}

/// The iterators of a program may be placed in its table by what they iterate, loops over nodes or inner loops, which
/// changes no expression and no statement: the program means the same, for every graph, all arguments and every bound, and
/// is as ready for what comes next as it was. Its bodies name no iterators but those around then that could be taken for
/// locals, and where none iterates both kinds of loops, they are declared where they stand.
pub fn iterators_are_placed()
    ensures same { (p : Program) → Ready2 p → SameMeaning p (with_iterators_placed p) }
    ensures ready { (p : Program) → Ready2 p → Ready2 (with_iterators_placed p) }
    ensures strangers { (p : Program) → Ready2 p → has_no_strangers (with_iterators_placed p) ≡ true }
    ensures placed { (p : Program) → Ready2 p → has_iterators_apart p ≡ true → has_iterators_in_place (with_iterators_placed p) ≡ true }
{}

/// Each loop that is not of own statements may declare the locals that it names and does not declare, each as what it
/// holds: the program means the same, for every graph, all arguments and every bound, and is as ready for what comes next
/// as it was. Where each variable of a loop's body that is named in it is a scalar or an iterator around, it declares all
/// that it names then.
pub fn locals_are_declared()
    ensures same { (p : Program) → Ready2 p → SameMeaning p (with_locals_declared p) }
    ensures ready { (p : Program) → Ready2 p → Ready2 (with_locals_declared p) }
    ensures declared { (p : Program) → Ready2 p → has_no_strangers p ≡ true → has_declared_locals (with_locals_declared p) ≡ true }
{}

/// A program without searches may be prepared, by passes one after another: iterators are placed by what they iterate,
/// bodies declare the locals that they name, and deferred writes go to copies; then filters go to a property and conditions
/// to locals, again under new numbers where an If has the number of one within it; then bodies read nodes first, and their
/// locals go to properties together. It means the same, for every graph, all arguments and every bound, and is as ready for
/// what comes next as it was. It is prepared then, where no variable iterates a loop over nodes and an inner loop, no node
/// variable is checked, and tuples are even.
pub fn programs_can_be_prepared()
    ensures same { (p : Program) → Ready2 p → SameMeaning p (prepared p) }
    ensures ready { (p : Program) → Ready2 p → Ready2 (prepared p) }
    ensures prepared { (p : Program) → Ready2 p → MayBePrepared p → IsPrepared (prepared p) }
{}

/// The bodies of the loops of such a program go to pieces then: it means the same, for every graph, all arguments and
/// every bound, keeps what every pass keeps, and is parted, whatever way its inner loops go.
pub fn prepared_programs_go_to_pieces()
    ensures same { (p : Program) → Ready2 p → MayBePrepared p → SameMeaning p (in_pieces (prepared p)) }
    ensures cut { (p : Program) → Ready2 p → MayBePrepared p → IsPartedBy goes_any_way (in_pieces (prepared p)) }
{}

/// Where an inner loop that is the body of a loop goes several ways, the conditions of its Ifs may be saved in locals, and
/// each of its statements stand alone under them, so that each may go its own way: a parted program means the same, for
/// every graph, all arguments and every bound, and is parted.
pub fn statements_stand_apart()
    ensures same { (p : Program) → IsPartedBy goes_any_way p → SameMeaning p (with_statements_apart p) }
    ensures cut { (p : Program) → IsPartedBy goes_any_way p → IsPartedBy goes_any_way (with_statements_apart p) }
{}

/// Its inner loops go to slices then, where each slice goes one way once their statements stand apart: order, sharing and
/// what is needed need not be asked. The program means the same, for every graph, all arguments and every bound, and is
/// ready for flipping.
pub fn prepared_programs_are_dissected()
    ensures same { (p : Program) → Ready2 p → MayBePrepared p → has_slices_that_go (with_statements_apart (in_pieces (prepared p))) ≡ true → SameMeaning p (dissected p) }
    ensures ready { (p : Program) → Ready2 p → MayBePrepared p → has_slices_that_go (with_statements_apart (in_pieces (prepared p))) ≡ true → Ready3 (dissected p) }
{}
