//! Sets of variables, which contracts see as the test whether a variable is in one (`set_of`).

ghost use Rattle.std.specs.Prelude.{◌≡◌, IfOk, OnOk};
ghost use Rattle.gm_slices.specs.Needs.{either, none, with_member};
ghost use Rattle.gm_slices.specs.Sets.{set_of};

use std::alloc::{AllocError, Global};
use std::collections::BTreeSet;

// Some variables. A question and one more take time logarithmic in their count.
#[derive(Drop)]
pub(crate) struct Members {
    variables: BTreeSet<u32>,
}

impl Members {
    // No variable.
    pub(crate) fn none(alloc: Global) -> Members
        ensures { set_of result ≡ none }
    {
        Members {
            variables: BTreeSet::new(alloc),
        }
    }

    // Whether a variable is one of them.
    pub(crate) fn has(&self, variable: u32) -> bool
        ensures { result ≡ set_of self.now variable }
    {
        self.variables.contains(&variable)
    }

    // One more variable.
    pub(crate) fn add(&mut self, variable: u32) -> Result<(), AllocError>
        ensures { OnOk result (set_of self.new ≡ with_member variable (set_of self.old)) }
    {
        self.variables.insert(variable)?;
        Ok(())
    }

    // The same variables once more.
    pub(crate) fn copy(&self) -> Result<Members, AllocError>
        ensures { IfOk result (λ r. set_of r ≡ set_of self.now) }
    {
        let variables = self.variables.clone()?;
        Ok(Members { variables })
    }

    // Those of another set besides.
    pub(crate) fn join(&mut self, other: Members) -> Result<(), AllocError>
        ensures { OnOk result (set_of self.new ≡ either (set_of self.old) (set_of other)) }
    {
        let mut other = other;
        self.variables.append(&mut other.variables)?;
        Ok(())
    }
}
