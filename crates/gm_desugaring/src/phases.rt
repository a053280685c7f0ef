//! The passes one after another.

ghost use Rattle.std.specs.Prelude.{◌≡◌, true, IfOk};
ghost use Rattle.gm_ast.specs.Tree.{program_of};
ghost use Rattle.gm_forms.specs.Meanings.{SameMeaning};
ghost use Rattle.gm_reductions.specs.Phases.{is_desugared_outside};
ghost use Rattle.gm_reductions.specs.Stages.{WithLoopsAlone};
ghost use Rattle.gm_desugaring.specs.Desugaring.{CanBeDesugared, with_loops_alone};

use gm_ast::forms::Work;
use gm_base::NoMemory;
use gm_desugar::compounds::compounds_out;
use gm_desugar::conditions::conditions_out;
use gm_desugar::groups::groups_out;
use gm_desugar::literals::literals_out;
use gm_desugar::reads::reads_out;
use gm_picks::picks::picks_out;
use gm_reductions::accesses::accesses_out;
use gm_reductions::folds::folds_out;
use std::alloc::Global;

/// Writes what the sequential phase does with nodes and properties as loops over all nodes: group assignments,
/// compound assignments, conditions, picks, reads and writes through node variables, and reductions. A checked program
/// whose keys of reductions rise, and which tells values alone, means the same, is as ready for the passes as it was, and
/// has none of these left: it is desugared but for its parallel loops and searches, its picks onto scalars and of what
/// scalars and counts tell. Answers want of memory too where the table has no room for the variables that are added.
pub fn desugar_phases(alloc: Global, program: Work) -> Result<Work, NoMemory>
    ensures made { IfOk result (λ r. program_of r ≡ with_loops_alone (program_of program)) }
    ensures same { IfOk result (λ r. CanBeDesugared (program_of program) → SameMeaning (program_of program) (program_of r)) }
    ensures ready { IfOk result (λ r. CanBeDesugared (program_of program) → WithLoopsAlone (program_of r)) }
    ensures outside { IfOk result (λ r. CanBeDesugared (program_of program) → is_desugared_outside (program_of r) ≡ true) }
{
    let ungrouped = groups_out(alloc, program)?;
    let expanded = compounds_out(alloc, ungrouped)?;
    let settled = literals_out(alloc, expanded)?;
    let told = conditions_out(alloc, settled)?;
    let apart = reads_out(alloc, told)?;
    let picked = picks_out(alloc, apart)?;
    let reduced = accesses_out(alloc, picked)?;
    let looped = folds_out(alloc, reduced)?;
    Ok(looped)
}
