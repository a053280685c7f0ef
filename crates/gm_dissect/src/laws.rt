//! Laws of the passes for whole programs, as contracts of calls that do nothing.

ghost use Rattle.std.specs.Prelude.{ℕ, ◌≡◌, true};
ghost use Rattle.gm_ast.specs.Program.{Program};
ghost use Rattle.gm_forms.specs.Meanings.{SameMeaning};
ghost use Rattle.gm_forms.specs.Ready.{Ready2};
ghost use Rattle.gm_dissect.specs.AllDeferred.{has_no_deferred, without_deferred};
ghost use Rattle.gm_dissect.specs.Conditions.{has_saved_conditions, with_saved_conditions};
ghost use Rattle.gm_dissect.specs.Deferred.{without_deferred_to};
ghost use Rattle.gm_dissect.specs.Locals.{with_kept_local, with_kept_locals};

/// The writes that the loops of a program defer to a property may go to a copy of it: the program means the same, for
/// every graph, all arguments and every bound. It is as ready for what comes next as it was.
pub fn deferred_writes_go_to_copies()
    ensures same { (x : ℕ) (p : Program) → Ready2 p → SameMeaning p (without_deferred_to x p) }
    ensures ready { (x : ℕ) (p : Program) → Ready2 p → Ready2 (without_deferred_to x p) }
{}

/// All deferred writes of a program may go to copies, property by property: the program means the same, is as ready for
/// what comes next as it was, and no loop of it defers a write.
pub fn all_deferred_writes_go_to_copies()
    ensures same { (p : Program) → Ready2 p → SameMeaning p (without_deferred p) }
    ensures ready { (p : Program) → Ready2 p → Ready2 (without_deferred p) }
    ensures none { (p : Program) → has_no_deferred (without_deferred p) ≡ true }
{}

/// Each If of a loop's body that holds an inner loop, or a reduction through another node variable, may save its
/// condition in a local first: the program means the same, is as ready for what comes next as it was, and each such If
/// asks a variable alone.
pub fn conditions_go_to_locals()
    ensures same { (p : Program) → Ready2 p → SameMeaning p (with_saved_conditions p) }
    ensures ready { (p : Program) → Ready2 p → Ready2 (with_saved_conditions p) }
    ensures saved { (p : Program) → has_saved_conditions (with_saved_conditions p) ≡ true }
{}

/// A local of the loops' bodies from which a part is cut may be kept in a property of the loop's node, where nothing is
/// reached through it: the program means the same, and is as ready for what comes next as it was.
pub fn locals_go_to_properties()
    ensures same { (x : ℕ) (p : Program) → Ready2 p → SameMeaning p (with_kept_local x p) }
    ensures ready { (x : ℕ) (p : Program) → Ready2 p → Ready2 (with_kept_local x p) }
{}

/// All locals of such bodies may be kept in properties, one after another, where they can: the program means the same,
/// and is as ready for what comes next as it was.
pub fn all_locals_go_to_properties()
    ensures same { (p : Program) → Ready2 p → SameMeaning p (with_kept_locals p) }
    ensures ready { (p : Program) → Ready2 p → Ready2 (with_kept_locals p) }
{}
