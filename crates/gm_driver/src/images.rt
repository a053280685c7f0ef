//! The image of a program text: what `compile` writes, and what runs where a program is to run.

ghost use Rattle.std.specs.Prelude.{◌≡◌, IfErr, IfOk};
ghost use Rattle.gm_base.specs.declared.statuses.Status.TheVariants.{Refused};
ghost use Rattle.gm_canon.specs.Verdict.{IsVerdictOf};
ghost use Rattle.gm_input.specs.Halts.{IfAnswered, IfSaid};
ghost use Rattle.gm_input.specs.Texts.{Says};
ghost use Rattle.gm_ast.specs.Program.{Program};
ghost use Rattle.gm_image.specs.Views.{program};
ghost use Rattle.gm_source_runs.specs.Programs.{output_declarations as output_declarations_lem};
ghost use Rattle.gm_driver.specs.Images.{IsCompiled, IsCompiledOf, IsCompiledOrNone, IsRunnableOf, IsWrittenOf, RunsProgram, SaysNoRun};
ghost use Rattle.gm_driver.specs.Runs.{SaysRefused};
ghost use Rattle.gm_driver.specs.Texts.{no_image_text};

use crate::answers::{refused, work_in, work_of_text};
use gm_ast::forms::Work;
use gm_ast::tree::Declaration;
use gm_base::{NoMemory, Status, Stop};
use gm_image::Sound;
use gm_image_text::write_image;
use gm_input::{Answer, Halt, answered, fixed_answer, settled};
use gm_run::{Compiled, compile_program};
use gm_source_runs::output_declarations;
use std::alloc::Global;

/// What runs as a program: what was compiled of it, or the program itself where no image is made of it yet.
#[derive(Drop)]
pub enum Runnable {
    Compiled(Compiled),
    Source(Work),
}

/// The declarations of the outputs of what runs as a program.
pub fn outputs_of(it: &Runnable) -> &[Declaration]
    ensures { (p : Program) → RunsProgram it.now p → result.now ≡ output_declarations_lem p }
{
    match it {
        Runnable::Compiled(compiled) => &compiled.interface.outputs,
        Runnable::Source(work) => output_declarations(work.tree()),
    }
}

// The answer for a program of which no image is made yet.
fn no_image(alloc: Global) -> Result<Answer, NoMemory>
    ensures { IfOk result (λ a. Says a.text.items a.status no_image_text Refused) }
{
    fixed_answer(alloc, b"program NoImage\n", Status::Refused)
}

// What is compiled of the program that a text stands for, if an image is made of it. `Refused` comes where the text breaks a
// rule.
fn compiled_in(alloc: Global, text: &[u8]) -> Result<Option<Compiled>, Stop>
    ensures found { IfOk result (IsCompiledOrNone text.now) }
    ensures refused { IfErr result (IsVerdictOf text.now) }
{
    let work = work_in(alloc, text)?;
    let found = compile_program(alloc, work)?;
    Ok(found)
}

// The same, or the answer that says which rule the text breaks.
fn compiled_or_none(alloc: Global, text: &[u8]) -> Result<Option<Compiled>, Halt>
    ensures found { IfOk result (IsCompiledOrNone text.now) }
    ensures halt { IfErr result (λ halt. IfAnswered halt (λ a. SaysRefused text.now a.text.items a.status)) }
{
    match compiled_in(alloc, text) {
        Ok(found) => Ok(found),
        Err(Stop::Refused(refusal)) => Err(answered(refused(alloc, refusal))),
        Err(Stop::NoMemory) => Err(Halt::NoMemory),
    }
}

/// What is compiled of the program that a text stands for, or the answer that says which rule the text breaks, or that no image
/// is made of its program. The text is let go.
pub fn compiled_of_text(alloc: Global, text: Vec<u8>) -> Result<Compiled, Halt>
    ensures compiled { IfOk result (IsCompiledOf text.items) }
    ensures halt { IfErr result (λ halt. IfAnswered halt (λ a. SaysNoRun text.items a.text.items a.status)) }
{
    let found = compiled_or_none(alloc, &text)?;
    match found {
        Some(compiled) => Ok(compiled),
        None => Err(answered(no_image(alloc))),
    }
}

// The program that a text stands for, as it is, or the answer that says which rule the text breaks.
fn source_of_text(alloc: Global, text: Vec<u8>) -> Result<Runnable, Halt>
    ensures runs { IfOk result (IsRunnableOf text.items) }
    ensures halt { IfErr result (λ halt. IfAnswered halt (λ a. SaysRefused text.items a.text.items a.status)) }
{
    let work = work_of_text(alloc, text)?;
    Ok(Runnable::Source(work))
}

/// What runs as the program that a text stands for, or the answer that says which rule the text breaks. The text is let go.
pub fn runnable_of_text(alloc: Global, text: Vec<u8>) -> Result<Runnable, Halt>
    ensures runs { IfOk result (IsRunnableOf text.items) }
    ensures halt { IfErr result (λ halt. IfAnswered halt (λ a. SaysRefused text.items a.text.items a.status)) }
{
    let found = compiled_or_none(alloc, &text)?;
    match found {
        Some(compiled) => Ok(Runnable::Compiled(compiled)),
        None => source_of_text(alloc, text),
    }
}

// What is written of an image.
fn text_of_image(alloc: Global, image: &Sound) -> Result<Vec<u8>, NoMemory>
    ensures { IfOk result (λ text. IsWrittenOf (program image.now) text.items) }
{
    let _sound = image.image();
    let text = write_image(alloc, image)?;
    Ok(text)
}

// The steps of a compilation, one after the other.
fn compile_steps(alloc: Global, text: Vec<u8>) -> Result<Answer, Halt>
    ensures { IfSaid result (λ a. IsCompiled text.items a.text.items a.status) }
{
    let compiled = compiled_of_text(alloc, text)?;
    let written = text_of_image(alloc, &compiled.image)?;
    Ok(Answer {
        text: written,
        status: Status::Done,
    })
}

/// The answer for the compilation of a program text: the text of its program's image. The program text is let go.
pub fn compile_text(alloc: Global, text: Vec<u8>) -> Result<Answer, NoMemory>
    ensures { IfOk result (λ a. IsCompiled text.items a.text.items a.status) }
{
    settled(compile_steps(alloc, text))
}
