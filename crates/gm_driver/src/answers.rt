//! The answers that are a line: where nothing runs, and the verdict on a program.

ghost use Rattle.std.specs.Prelude.{IfErr, IfOk, OnOk};
ghost use Rattle.gm_base.specs.declared.statuses.Status.TheVariants.{Refused, Usage};
ghost use Rattle.gm_ast.specs.Tree.{program_of};
ghost use Rattle.gm_canon.specs.Verdict.{IsVerdictOf, StandsFor};
ghost use Rattle.gm_input.specs.Texts.{Says};
ghost use Rattle.gm_ast.specs.Program.{Program};
ghost use Rattle.gm_input.specs.Halts.{IfAnswered};
ghost use Rattle.gm_driver.specs.Checks.{IsVerdict};
ghost use Rattle.gm_driver.specs.Runs.{SaysRefused};
ghost use Rattle.gm_driver.specs.Texts.{refused_text, usage_text};

use gm_ast::forms::Work;
use gm_base::{NoMemory, Refusal, Status, Stop};
use gm_canon::verdict;
use gm_input::{Answer, Halt, answered, fixed_answer};
use gm_meaning::work_of;
use std::alloc::Global;

/// The answer where the words ask for nothing that is done.
pub fn usage(alloc: Global) -> Result<Answer, NoMemory>
    ensures { IfOk result (λ a. Says a.text.items a.status usage_text Usage) }
{
    fixed_answer(
        alloc,
        b"usage: gm run PROG GRAPH | check PROG | compile PROG | exec IMAGE GRAPH | demo N\n",
        Status::Usage,
    )
}

/// The answer for a program that breaks a rule.
pub fn refused(alloc: Global, refusal: Refusal) -> Result<Answer, NoMemory>
    ensures { IfOk result (λ a. Says a.text.items a.status (refused_text refusal) Refused) }
{
    let line = format!(in alloc; "{refusal}\n")?;
    fixed_answer(alloc, line.as_bytes(), Status::Refused)
}

/// The work on the program that a text stands for. `Refused` comes where the text breaks a rule.
pub fn work_in(alloc: Global, text: &[u8]) -> Result<Work, Stop>
    ensures accepted { IfOk result (λ work. StandsFor text.now (program_of work)) }
    ensures refused { IfErr result (IsVerdictOf text.now) }
{
    let checked = verdict(alloc, text)?;
    Ok(work_of(checked))
}

/// The work on the program that a text stands for, or the answer that says which rule the text breaks. The text is let
/// go.
pub fn work_of_text(alloc: Global, text: Vec<u8>) -> Result<Work, Halt>
    ensures stands { IfOk result (λ work. StandsFor text.items (program_of work)) }
    ensures halt { IfErr result (λ halt. IfAnswered halt (λ a. SaysRefused text.items a.text.items a.status)) }
{
    match work_in(alloc, &text) {
        Ok(work) => Ok(work),
        Err(Stop::Refused(refusal)) => Err(answered(refused(alloc, refusal))),
        Err(Stop::NoMemory) => Err(Halt::NoMemory),
    }
}

// What the verdict on a text says, without its program.
fn judged(alloc: Global, text: &[u8]) -> Result<(), Stop>
    ensures accepted { OnOk result ((p : Program) × StandsFor text.now p) }
    ensures refused { IfErr result (IsVerdictOf text.now) }
{
    verdict(alloc, text)?;
    Ok(())
}

/// The answer for the check of a program text.
pub fn check_text(alloc: Global, text: &[u8]) -> Result<Answer, NoMemory>
    ensures { IfOk result (λ a. IsVerdict text.now a.text.items a.status) }
{
    match judged(alloc, text) {
        Ok(()) => fixed_answer(alloc, b"accepted\n", Status::Done),
        Err(Stop::Refused(refusal)) => refused(alloc, refusal),
        Err(Stop::NoMemory) => Err(NoMemory),
    }
}
