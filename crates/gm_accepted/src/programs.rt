//! The programs of accepted texts, as the passes of the compiler take them.

ghost use Rattle.std.specs.Prelude.{◌≡◌, true, IfErr, IfOk};
ghost use Rattle.gm_accepted.specs.Laws.{IsTypedThroughout};
ghost use Rattle.gm_ast.specs.Tree.{program_of};
ghost use Rattle.gm_canon.specs.Verdict.{IsVerdictOf, StandsFor};
ghost use Rattle.gm_depth.specs.Depths.{is_shallow};
ghost use Rattle.gm_desugaring.specs.Desugaring.{CanBecomeLoops};
ghost use Rattle.gm_forms.specs.Ready.{Ready0};

use crate::laws::accepted_programs_are_ready;
use gm_ast::forms::Work;
use gm_base::Stop;
use gm_canon::verdict;
use std::alloc::Global;

/// The work on the program that a text stands for, with all that the passes of the compiler may rest on.
///
/// Refused is the verdict's refusal of the text, with its rule and its place (`gm_canon::verdict`). `NoMemory` may come
/// of any text.
pub fn accepted_program(alloc: Global, text: &[u8]) -> Result<Work, Stop>
    ensures stands { IfOk result (λ work. StandsFor text.now (program_of work)) }

    // The tree is ready for the first pass.
    ensures ready { IfOk result (λ work. Ready0 (program_of work)) }

    // No expression has more than 512 levels.
    ensures shallow { IfOk result (λ work. is_shallow (program_of work) ≡ true) }

    // Values keep their types in its runs, on every graph and all arguments that fit.
    ensures well_typed { IfOk result (λ work. IsTypedThroughout (program_of work)) }

    // The passes of the compiler can write it with plain loops.
    ensures loops { IfOk result (λ work. CanBecomeLoops (program_of work)) }

    ensures refused { IfErr result (IsVerdictOf text.now) }
{
    accepted_programs_are_ready();
    let checked = verdict(alloc, text)?;
    Ok(Work::new(checked.into_tree()))
}
