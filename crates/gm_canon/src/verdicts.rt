//! The verdict on a whole text: its phases, in their order.

ghost use Rattle.std.specs.Prelude.{◌≡◌, IfOk, IfErr};
ghost use Rattle.gm_ast.specs.Program.{Program};
ghost use Rattle.gm_ast.specs.SurfaceTree.{procedure_of};
ghost use Rattle.gm_ast.specs.Tree.{program_of};
ghost use Rattle.gm_canon.specs.Verdict.{IsVerdictOf, IsVerdictOnTree, StandsFor, TreeStandsFor};

use crate::programs::canonical;
use gm_ast::forms::Checked;
use gm_ast::surface::SpelledProcedure;
use gm_base::Stop;
use gm_parse::{parse, texts_have_one_tree};
use gm_race::races;
use gm_token::scan;
use gm_types::typed;
use std::alloc::Global;

/// The program that a procedure stands for, as it is spelled: its types break no rule, and its program has no races and
/// is canonical.
///
/// Refused is the refusal of the first of these phases that has one: a rule of types (T1 to T14), of races (R1 to R6)
/// or of canonical form (C1 to C9) is broken. `NoMemory` may come of any procedure.
pub fn verdict_tree(alloc: Global, procedure: SpelledProcedure) -> Result<Checked, Stop>
    ensures accepted { IfOk result (λ checked. TreeStandsFor (procedure_of procedure) (program_of checked)) }
    ensures refused { IfErr result (IsVerdictOnTree (procedure_of procedure)) }
{
    let program = typed(alloc, procedure)?;
    races(alloc, &program)?;
    let checked = canonical(alloc, program)?;
    Ok(checked)
}

/// The program that a text stands for: it is made of tokens, these spell a procedure, and the procedure stands for the
/// program.
///
/// Refused is the refusal of the first phase that has one: the text is not made of tokens (`BadByte`,
/// `NumberTooLarge`, `OpenComment`, `TextTooLong`), its tokens are not taken (U1 to U8, Syntax, TooDeep), or its
/// procedure breaks a rule of types, of races or of canonical form. `NoMemory` may come of any text.
pub fn verdict(alloc: Global, text: &[u8]) -> Result<Checked, Stop>
    ensures accepted { IfOk result (λ checked. StandsFor text.now (program_of checked)) }

    // The text stands for no other program: it has one list of tokens, and these one tree.
    ensures only { IfOk result (λ checked. (other : Program) → StandsFor text.now other → other ≡ program_of checked) }

    ensures refused { IfErr result (IsVerdictOf text.now) }
{
    texts_have_one_tree();
    let tokens = scan(alloc, text)?;
    let procedure = parse(alloc, &tokens)?;
    let checked = verdict_tree(alloc, procedure)?;
    Ok(checked)
}
