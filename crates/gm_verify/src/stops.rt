//! Why an image is refused, and the step from one line of its text to the next.

ghost use Rattle.std.specs.Prelude.{◌≡◌, ◌<◌};
ghost use Rattle.gm_verify.specs.declared.stops.VerifyStop.TheVariants.{NoMemory};
ghost use Rattle.gm_verify.specs.Checks.{Steps};

use gm_image::ImageRule;
use std::alloc::{AllocError, AllocFailed};

/// Why an image is refused.
#[derive(Clone, Copy, Debug, PartialEq, Eq)]
pub enum VerifyStop {
    /// It breaks a rule: the least line of its text, from 1, that breaks one, and the least rule that this line
    /// breaks.
    Broken { rule: ImageRule, line: u32 },
    /// There was not enough memory.
    NoMemory,
}

impl From<AllocError> for VerifyStop {
    ghost from_gives = { λ _ stop. stop ≡ NoMemory };

    fn from(_error: AllocError) -> VerifyStop {
        VerifyStop::NoMemory
    }
}

impl<T: Drop> From<AllocFailed<T>> for VerifyStop {
    ghost from_gives = { λ _ stop. stop ≡ NoMemory };

    fn from(_error: AllocFailed<T>) -> VerifyStop {
        VerifyStop::NoMemory
    }
}

// The number of the next line, where a line breaks no rule.
pub fn next_line(rule: Option<ImageRule>, line: u64) -> Result<u64, VerifyStop>
    requires { line < 4294967296 }
    ensures { Steps rule line result }
{
    match rule {
        None => Ok(line + 1),
        Some(rule) => Err(VerifyStop::Broken {
            rule,
            line: line as u32,
        }),
    }
}
