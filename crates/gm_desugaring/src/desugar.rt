//! All passes up to plain loops, one after another.

ghost use Rattle.std.specs.Prelude.{◌≡◌, IfOk};
ghost use Rattle.gm_ast.specs.Tree.{program_of};
ghost use Rattle.gm_forms.specs.Meanings.{SameMeaning};
ghost use Rattle.gm_forms.specs.Ready.{Ready1};
ghost use Rattle.gm_desugaring.specs.Desugaring.{CanBecomeLoops, with_plain_loops};

use crate::phases::desugar_phases;
use gm_ast::forms::Work;
use gm_base::NoMemory;
use gm_hoisting::hoisting::inner_folds_out;
use std::alloc::Global;

/// Writes a program with loops over nodes, inner loops, scalars, conditions and picks onto scalars alone: first what the
/// sequential phase does with nodes and properties, then each reduction in a parallel loop or a search as an inner loop.
/// A checked program whose totals stand in order, as they do in that of a text, means the same, for every graph, all
/// arguments and every bound, is desugared, and keeps what every pass keeps. Answers want of memory too where the table
/// has no room for the variables that are added.
pub fn desugar(alloc: Global, program: Work) -> Result<Work, NoMemory>
    ensures made { IfOk result (λ r. program_of r ≡ with_plain_loops (program_of program)) }
    ensures same { IfOk result (λ r. CanBecomeLoops (program_of program) → SameMeaning (program_of program) (program_of r)) }
    ensures ready { IfOk result (λ r. CanBecomeLoops (program_of program) → Ready1 (program_of r)) }
{
    let looped = desugar_phases(alloc, program)?;
    let plain = inner_folds_out(alloc, looped)?;
    Ok(plain)
}
