//! All that is done to a program before the bodies of its loops go to pieces.

ghost use Rattle.std.specs.Prelude.{◌≡◌, IfOk};
ghost use Rattle.gm_ast.specs.Tree.{program_of};
ghost use Rattle.gm_forms.specs.Meanings.{SameMeaning};
ghost use Rattle.gm_forms.specs.Ready.{Ready2};
ghost use Rattle.gm_parting.specs.Passes.{prepared, MayBePrepared};
ghost use Rattle.gm_parting.specs.Prepared.{IsPrepared};

use crate::declared::declare_locals;
use crate::filters::save_filters;
use crate::iterators::place_iterators;
use crate::nodes::read_nodes;
use crate::numbers::save_conditions_apart;
use gm_ast::forms::Work;
use gm_base::NoMemory;
use gm_dissect::all_deferred::deferred_out;
use gm_locals::locals::locals_out;
use std::alloc::Global;

/// Prepares a program without searches for going to pieces. It means the same and is as ready for cutting as it was. It is
/// prepared then, where no variable iterates a loop over nodes and an inner loop, and in loops that are cut no node
/// variable is checked and tuples are even.
pub fn prepare(alloc: Global, program: Work) -> Result<Work, NoMemory>
    ensures made { IfOk result (λ r. program_of r ≡ prepared (program_of program)) }
    ensures same { IfOk result (λ r. Ready2 (program_of program) → SameMeaning (program_of program) (program_of r)) }
    ensures ready { IfOk result (λ r. Ready2 (program_of program) → Ready2 (program_of r)) }
    ensures prepared { IfOk result (λ r. Ready2 (program_of program) → MayBePrepared (program_of program) → IsPrepared (program_of r)) }
{
    let placed = place_iterators(alloc, program)?;
    let named = declare_locals(alloc, placed)?;
    let at_once = deferred_out(alloc, named)?;
    let filtered = save_filters(alloc, at_once)?;
    let asked = save_conditions_apart(alloc, filtered)?;
    let read = read_nodes(alloc, asked)?;
    locals_out(alloc, read)
}
