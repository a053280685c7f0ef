//! Whether a whole program is canonical.

ghost use Rattle.std.specs.Prelude.{◌≡◌, [], IfOk, OnOk, IfErr};
ghost use Rattle.gm_base.specs.Rules.{least};
ghost use Rattle.gm_ast.specs.Races.{races};
ghost use Rattle.gm_ast.specs.Canonical.{uncanonical};
ghost use Rattle.gm_ast.specs.Tree.{program_of};
ghost use Rattle.gm_canon.specs.Stops.{IsStopOf};

use crate::walks::Walker;
use crate::ways::ways_of;
use gm_ast::forms::{Checked, Typed};
use gm_ast::tree::Tree;
use gm_base::{Refusal, Stop};
use std::alloc::{AllocError, Global};

// The least thing in a program that is not canonical, if there is one.
fn least_broken(alloc: Global, tree: &Tree) -> Result<Option<Refusal>, AllocError>
    ensures { IfOk result (λ found. found ≡ least (uncanonical (program_of tree.now))) }
{
    let mut walker = Walker::new(alloc, &tree.declarations);
    walker.forms(alloc, &tree.body)?;
    Ok(walker.least)
}

// Judges whether a program is canonical.
fn judge(alloc: Global, tree: &Tree) -> Result<(), Stop>
    ensures clean { OnOk result (uncanonical (program_of tree.now) ≡ []) }
    ensures refused { IfErr result (IsStopOf (program_of tree.now)) }
{
    match least_broken(alloc, tree)? {
        None => Ok(()),
        Some(refusal) => Err(Stop::Refused(refusal)),
    }
}

/// The canonical program that a program without races is, with the ways of the reductions in its inner loops.
///
/// Refused is the least place at which the program breaks a rule of canonical form (C1 to C9), and at one place the
/// rule that comes first. `NoMemory` may come of any program.
pub fn canonical(alloc: Global, program: Typed) -> Result<Checked, Stop>
    requires { races (program_of program) ≡ [] }
    ensures tree { IfOk result (λ checked. checked ≡ program) }
    ensures clean { OnOk result (uncanonical (program_of program) ≡ []) }
    ensures refused { IfErr result (IsStopOf (program_of program)) }
{
    let tree = program.into_tree();
    judge(alloc, &tree)?;
    let ways = ways_of(alloc, &tree.body)?;
    Ok(Checked::new(tree, ways))
}
