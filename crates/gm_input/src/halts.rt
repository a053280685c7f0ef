//! What stops the work before anything runs.

ghost use Rattle.std.specs.Prelude.{◌≡◌, IfOk};
ghost use Rattle.gm_input.specs.Halts.{IsSaid, halt_of};
ghost use Rattle.gm_input.specs.declared.halts.Halt.TheVariants.{NoMemory as halt_no_memory};

use crate::answers::Answer;
use gm_base::NoMemory;

/// Why nothing runs.
#[derive(Debug, Drop)]
pub enum Halt {
    /// The answer is there already.
    Answered(Answer),
    /// There was not enough memory.
    NoMemory,
}

impl From<NoMemory> for Halt {
    ghost from_gives = { λ _ halt. halt ≡ halt_no_memory };

    fn from(_error: NoMemory) -> Halt {
        Halt::NoMemory
    }
}

/// The halt with an answer, or for want of memory.
pub fn answered(answer: Result<Answer, NoMemory>) -> Halt
    ensures { result ≡ halt_of answer }
{
    match answer {
        Ok(answer) => Halt::Answered(answer),
        Err(NoMemory) => Halt::NoMemory,
    }
}

/// The answer, wherever the work ended.
pub fn settled(outcome: Result<Answer, Halt>) -> Result<Answer, NoMemory>
    ensures { IfOk result (IsSaid outcome) }
{
    match outcome {
        Ok(answer) | Err(Halt::Answered(answer)) => Ok(answer),
        Err(Halt::NoMemory) => Err(NoMemory),
    }
}
