//! Laws of the passes for whole programs, as contracts of calls that do nothing.

ghost use Rattle.std.specs.Prelude.{◌≡◌, true};
ghost use Rattle.gm_ast.specs.Program.{Program};
ghost use Rattle.gm_forms.specs.Meanings.{SameMeaning};
ghost use Rattle.gm_forms.specs.Ready.{Ready2, Ready3};
ghost use Rattle.gm_cut.specs.Lean.{can_be_lean, has_givens_apart, has_plain_statements, has_slices_that_go, has_statements_that_go, in_lean_slices};
ghost use Rattle.gm_cut.specs.Parts.{can_be_parted, goes_any_way, in_pieces, IsPartedBy, Kind};
ghost use Rattle.gm_cut.specs.Slices.{can_be_sliced, goes_one_way, in_slices};

/// Each loop over nodes may be written as the loops of the pieces of its body, one after another, where the masks of the
/// pieces stay and the pieces are parted, with inner loops of a kind: the program means the same, for every graph, all
/// arguments and every bound, and is parted so. Where each inner loop goes one way, and nothing in it can fault behind a
/// Sum or Product through a node variable, it is ready for flipping.
pub fn bodies_go_to_pieces()
    ensures same { (kind : Kind) (p : Program) → Ready2 p → can_be_parted kind p ≡ true → SameMeaning p (in_pieces p) }
    ensures cut { (kind : Kind) (p : Program) → Ready2 p → can_be_parted kind p ≡ true → IsPartedBy kind (in_pieces p) }
    ensures ready { (p : Program) → Ready2 p → can_be_parted goes_one_way p ≡ true → Ready3 (in_pieces p) }
{}

/// An inner loop that is the body of a loop and goes several ways may be written as one for each group of neighbouring
/// statements that go one way, one after another, each of which evaluates again what it needs of those before it: the
/// program means the same, for every graph, all arguments and every bound, and is ready for flipping.
pub fn inner_loops_go_to_slices()
    ensures same { (p : Program) → IsPartedBy goes_any_way p → can_be_sliced p ≡ true → SameMeaning p (in_slices p) }
    ensures ready { (p : Program) → IsPartedBy goes_any_way p → can_be_sliced p ≡ true → Ready3 (in_slices p) }
{}

/// The same in slices of which each evaluates again only what it needs of those before it, whether the rest could fault or
/// not, since it did not.
pub fn inner_loops_go_to_lean_slices()
    ensures same { (p : Program) → IsPartedBy goes_any_way p → can_be_lean p ≡ true → SameMeaning p (in_lean_slices p) }
    ensures ready { (p : Program) → IsPartedBy goes_any_way p → can_be_lean p ≡ true → Ready3 (in_lean_slices p) }
{}

/// A parted program may have its inner loops in such slices where each slice goes one way, and no inner loop that goes
/// several ways reads what it gives: order, sharing and what is needed then follow. Each slice goes one way where each
/// statement does by itself that does more than set locals, and each of these does where an inner loop reads no edge
/// property, each of its statements gives to one end of an edge, and none reduces by Sum or Product through a node
/// variable.
pub fn parted_programs_go_to_lean_slices()
    ensures may { (p : Program) → IsPartedBy goes_any_way p → has_givens_apart p ≡ true → has_slices_that_go p ≡ true → can_be_lean p ≡ true }
    ensures go { (p : Program) → has_statements_that_go p ≡ true → has_slices_that_go p ≡ true }
    ensures plain { (p : Program) → has_plain_statements p ≡ true → has_statements_that_go p ≡ true }
{}
