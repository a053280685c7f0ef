//! A law of compiled programs, as the contract of a call that does nothing.

ghost use Rattle.gm_driver.specs.Executed.{CompiledIsExecuted};

/// What `compile` writes of a program text is read by `exec` as the image that was made, which is sound, and runs as the program:
/// over each graph text, with the same words and options, `exec` answers what `run` answers for the program, but for the last
/// line of a run to its end, which counts supersteps and messages too, and for the reports behind it. A text of more than
/// 268,435,456 bytes is written, but not read. The call does nothing.
pub fn compiled_images_run_alike()
    ensures { CompiledIsExecuted }
{}
