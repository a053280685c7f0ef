//! Why a part of the text was not read.

ghost use Rattle.std.specs.Prelude.{◌≡◌};

use std::alloc::{AllocError, AllocFailed};

/// Why a part of the text was not read. A place is the number of the tokens before it.
#[derive(Clone, Copy, Debug, PartialEq, Eq)]
pub enum Fault {
    Syntax(usize),
    TooDeep(usize),
    NoMemory,
}

impl From<AllocError> for Fault {
    ghost use Rattle.gm_parse.specs.declared.faults.Fault.TheVariants.{NoMemory};

    ghost from_gives = { λ _ e. e ≡ NoMemory };

    fn from(_error: AllocError) -> Fault {
        Fault::NoMemory
    }
}

impl<T: Drop> From<AllocFailed<T>> for Fault {
    ghost use Rattle.gm_parse.specs.declared.faults.Fault.TheVariants.{NoMemory};

    ghost from_gives = { λ _ e. e ≡ NoMemory };

    fn from(_error: AllocFailed<T>) -> Fault {
        Fault::NoMemory
    }
}
