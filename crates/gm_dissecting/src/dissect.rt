//! All passes that cut bodies of parallel loops, one after another.

ghost use Rattle.std.specs.Prelude.{◌≡◌, true, IfOk};
ghost use Rattle.gm_ast.specs.Tree.{program_of};
ghost use Rattle.gm_cut.specs.Lean.{has_slices_that_go};
ghost use Rattle.gm_cut.specs.Parts.{in_pieces};
ghost use Rattle.gm_forms.specs.Meanings.{SameMeaning};
ghost use Rattle.gm_forms.specs.Ready.{Ready2, Ready3};
ghost use Rattle.gm_parting.specs.Apart.{with_statements_apart};
ghost use Rattle.gm_parting.specs.Passes.{dissected, prepared, MayBePrepared};
ghost use Rattle.gm_slices.specs.OneWay.{has_loops_of_one_way};

use crate::apart::statements_apart;
use gm_ast::forms::Work;
use gm_base::NoMemory;
use gm_cut::pieces::cut_bodies;
use gm_prepare::prepare::prepare;
use gm_slices::slices::slice_inner_loops;
use std::alloc::Global;

/// Cuts bodies of parallel loops into loops with one way each. A program without searches means the same, for every
/// graph, all arguments and every bound, and is ready for flipping, where it may be prepared (`MayBePrepared`), and each
/// slice of its inner loops goes one way once their statements stand apart: then the inner loops of the result go one way,
/// which `has_loops_of_one_way` of `gm_slices` tells, and only then.
pub fn dissect(alloc: Global, program: Work) -> Result<Work, NoMemory>
    ensures made { IfOk result (λ r. program_of r ≡ dissected (program_of program)) }
    ensures same { IfOk result (λ r. Ready2 (program_of program) → MayBePrepared (program_of program)
        → has_slices_that_go (with_statements_apart (in_pieces (prepared (program_of program)))) ≡ true → SameMeaning (program_of program) (program_of r)) }
    ensures ready { IfOk result (λ r. Ready2 (program_of program) → MayBePrepared (program_of program)
        → has_slices_that_go (with_statements_apart (in_pieces (prepared (program_of program)))) ≡ true → Ready3 (program_of r)) }
    ensures ways { IfOk result (λ r. has_loops_of_one_way (program_of r) ≡ has_slices_that_go (with_statements_apart (in_pieces (prepared (program_of program))))) }
{
    let whole = prepare(alloc, program)?;
    let parted = cut_bodies(alloc, whole)?;
    let apart = statements_apart(alloc, parted)?;
    slice_inner_loops(alloc, apart)
}
