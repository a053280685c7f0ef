//! Laws of locals that go to properties, as contracts of calls that do nothing.

ghost use Rattle.std.specs.Prelude.{ℕ, ◌≡◌, List, true};
ghost use Rattle.gm_ast.specs.Program.{Program};
ghost use Rattle.gm_forms.specs.Meanings.{SameMeaning};
ghost use Rattle.gm_forms.specs.Ready.{Ready2};
ghost use Rattle.gm_dissect.specs.Locals.{with_kept_locals};
ghost use Rattle.gm_locals.specs.Across.{NoLocalGoesAcross};
ghost use Rattle.gm_locals.specs.AllGroups.{with_groups_kept};
ghost use Rattle.gm_locals.specs.AllLocals.{has_moved_locals};
ghost use Rattle.gm_locals.specs.AllMoved.{LocalsGoAtOnce};
ghost use Rattle.gm_locals.specs.Beside.{LocalsMoveBeside};
ghost use Rattle.gm_locals.specs.Groups.{with_locals_kept};

/// Where all locals that can have gone to properties one after another, no loop has a local that it could keep so.
pub fn locals_have_gone()
    ensures { (p : Program) → has_moved_locals (with_kept_locals p) ≡ true }
{}

/// A local of a loop's body may be kept in a fresh property of the loop's node also where it is reduced together with
/// others that are the iteration's own and end with it.
pub fn locals_move_beside()
    ensures { LocalsMoveBeside }
{}

/// Locals of the loops' bodies from which a part is cut, which are reduced with one another alone, may be kept in
/// properties of the loop's node together, where nothing is reached through them: the program means the same, for every
/// graph, all arguments and every bound, and is as ready for what comes next as it was.
pub fn locals_go_together()
    ensures same { (xs : List ℕ) (p : Program) → Ready2 p → SameMeaning p (with_locals_kept xs p) }
    ensures ready { (xs : List ℕ) (p : Program) → Ready2 p → Ready2 (with_locals_kept xs p) }
{}

/// All locals of such bodies that can go to properties, alone or together, may be kept there at once, in one walk: the
/// program means the same, and is as ready for what comes next as it was.
pub fn all_locals_go_together()
    ensures same { (p : Program) → Ready2 p → SameMeaning p (with_groups_kept p) }
    ensures ready { (p : Program) → Ready2 p → Ready2 (with_groups_kept p) }
{}

/// A loop that keeps locals in properties one after another is the loop that keeps them at once, behind the loops that set
/// the properties to them.
pub fn locals_go_at_once()
    ensures { LocalsGoAtOnce }
{}

/// Where a part of a loop's body changes no scalar, as where all its locals have gone to properties, what stands behind it
/// neither reads nor reduces a local that it changes.
pub fn no_local_goes_across()
    ensures { NoLocalGoesAcross }
{}
