//! Contributions to lists of slots, in one flat row.

ghost use Rattle.std.specs.Prelude.{◌≡◌, IsTrue, [], ◌∷◌, ◌++◌, OnOk, OnErr};
ghost use Rattle.gm_machine.specs.Contributions.{contributions_of, AreWhole};

use gm_base::NoMemory;
use gm_value::{Reduce, Value};
use std::alloc::Global;
use std::marker::Model;

/// A slot, a global or a field, of a contribution that a line at a place gives, and the value for it. The parts of a
/// contribution stand one behind the other: the first has their number as its width, and the others have 0.
#[derive(Clone, Copy, Debug, PartialEq, Eq)]
pub struct ContributionPart {
    pub place: u32,
    pub reduce: Reduce,
    pub width: u32,
    pub slot: u32,
    pub value: Value,
}

/// A list of contributions, in the order in which they were given. A contribution has a place, a reduction, and as many
/// slots as values.
#[derive(Drop)]
pub struct Contributions {
    pub(crate) parts: Vec<ContributionPart>,
}

impl Model for Contributions {
    ghost use Rattle.std.specs.Prelude.{List};
    ghost use Rattle.gm_machine.specs.Taking.{Contribution};

    ghost Value = { List Contribution };

    ghost use Rattle.gm_machine.specs.Contributions.{contributions_of, AreWhole};

    ghost view = { λ c. contributions_of c.parts.items };

    ghost invariant = { λ c. AreWhole c.parts.items };
}

impl Contributions {
    /// No contribution. It keeps the allocator and takes no memory.
    pub fn empty(alloc: Global) -> Self
        ensures { result ≡ [] }
    {
        Contributions {
            parts: Vec::new(alloc),
        }
    }

    /// The parts of the contributions, in order.
    pub fn parts(&self) -> &[ContributionPart]
        ensures parts { contributions_of result.now ≡ self.now }
        ensures whole { AreWhole result.now }
    {
        self.parts.as_slice()
    }

    /// Adds a contribution to one slot. Where there is not enough memory the list stays as it was.
    #[inline(always)]
    pub fn add_one(
        &mut self,
        place: u32,
        reduce: Reduce,
        slot: u32,
        value: Value,
    ) -> Result<(), NoMemory>
        ensures added { OnOk result (self.new
            ≡ self.old ++ record { place = place; reduce = reduce; slots = slot ∷ []; values = value ∷ [] } ∷ []) }
        ensures unchanged { OnErr result (self.new ≡ self.old) }
    {
        self.parts.push(ContributionPart {
            place,
            reduce,
            width: 1,
            slot,
            value,
        })?;
        Ok(())
    }

    /// Adds the contributions of some parts. Where there is not enough memory the list stays as it was.
    pub fn add_parts(&mut self, parts: &[ContributionPart]) -> Result<(), NoMemory>
        requires { AreWhole parts.now }
        ensures added { OnOk result (self.new ≡ self.old ++ contributions_of parts.now) }
        ensures unchanged { OnErr result (self.new ≡ self.old) }
    {
        self.parts.extend_from_slice(parts)?;
        Ok(())
    }

    /// Whether there is no contribution.
    pub(crate) fn is_empty(&self) -> bool
        ensures { IsTrue result → self.now ≡ [] }
    {
        self.parts.is_empty()
    }

    /// Takes all contributions away.
    pub(crate) fn clear(&mut self)
        ensures { self.new ≡ [] }
    {
        self.parts.clear();
    }
}
