//! Why an operation has no value.

ghost use Rattle.std.specs.Prelude.{◌≡◌, Some};
ghost use Rattle.gm_value.specs.Faults.{fault_number, fault_text};

use std::fmt;

/// Why a run ends early.
#[derive(Clone, Copy, Debug, PartialEq, Eq)]
pub enum FaultKind {
    /// A division or a remainder by zero.
    DivideByZero,
    /// A property or a degree of NIL.
    NilNode,
    /// An exact result out of its type's range.
    Overflow,
}

impl FaultKind {
    /// The fault kind's number, from 1: of two faults at one place the lesser counts.
    pub fn number(self) -> u8
        ensures { result ≡ fault_number self }
    {
        match self {
            FaultKind::DivideByZero => 1,
            FaultKind::NilNode => 2,
            FaultKind::Overflow => 3,
        }
    }

    /// The fault kind's name, as it is printed.
    pub fn name(self) -> &'static str
        ensures { result.now ≡ fault_text self }
    {
        match self {
            FaultKind::DivideByZero => "DivideByZero",
            FaultKind::NilNode => "NilNode",
            FaultKind::Overflow => "Overflow",
        }
    }
}

impl fmt::Display for FaultKind {
    ghost output = { λ kind. Some (fault_text kind) };

    fn fmt<W: fmt::Write>(&self, f: &mut fmt::Formatter<W>) -> fmt::Result {
        f.write_str(self.name())
    }
}
