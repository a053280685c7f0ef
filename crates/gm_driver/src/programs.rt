//! A program text by its name, its check and its compilation.

ghost use Rattle.std.specs.Prelude.{IfOk};
ghost use Rattle.gm_driver.specs.Checks.{IsCheckReply};
ghost use Rattle.gm_driver.specs.Images.{IsCompileReply};
ghost use Rattle.gm_input.specs.Outside.{outside};

use crate::answers::check_text;
use crate::images::compile_text;
use gm_base::NoMemory;
use gm_files::{Files, Source};
use gm_input::{Answer, read_named, unread};
use std::alloc::Global;

/// How many bytes of a program text are read at most: one more than a text may have, so that the place is known at
/// which a longer one is refused.
pub const MOST_PROGRAM: usize = 1_048_577;

/// The reply for the check of the program of this name, which is read as far as its verdict asks for it.
pub fn check<S: Source, F: Files>(
    alloc: Global,
    name: &str,
    input: &mut S,
    files: &mut F,
) -> Result<Answer, NoMemory>
    ensures { IfOk result (λ a. IsCheckReply name.now
        (outside S.Source F.Files input.old files.old) (outside S.Source F.Files input.new files.new) a.text.items a.status) }
{
    match read_named(alloc, name, MOST_PROGRAM, input, files) {
        Ok(text) => check_text(alloc, &text),
        Err(stop) => unread(alloc, name, stop),
    }
}

/// The reply for the compilation of the program of this name, which is read as far as its verdict asks for it.
pub fn compile<S: Source, F: Files>(
    alloc: Global,
    name: &str,
    input: &mut S,
    files: &mut F,
) -> Result<Answer, NoMemory>
    ensures { IfOk result (λ a. IsCompileReply name.now
        (outside S.Source F.Files input.old files.old) (outside S.Source F.Files input.new files.new) a.text.items a.status) }
{
    match read_named(alloc, name, MOST_PROGRAM, input, files) {
        Ok(text) => compile_text(alloc, text),
        Err(stop) => unread(alloc, name, stop),
    }
}
