//! The passes of the compiler, one after another.

ghost use Rattle.std.specs.Prelude.{◌≡◌, IfOk, IfSome, is_some};
ghost use Rattle.gm_ast.specs.Tree.{program_of};
ghost use Rattle.gm_bfs.specs.Levelled.{levelled};
ghost use Rattle.gm_desugaring.specs.Desugaring.{CanBecomeLoops, with_plain_loops};
ghost use Rattle.gm_forms.specs.Meanings.{SameMeaning};
ghost use Rattle.gm_forms.specs.Ready.{Ready2, Ready4};
ghost use Rattle.gm_compilable.specs.Parted.{parted};
ghost use Rattle.gm_compile.specs.Compiled.{MayBeParted, can_be_parted};

use gm_along::canonical_programs_go_one_way;
use gm_ast::forms::Work;
use gm_base::NoMemory;
use gm_bfs::levelled::bfs_out;
use gm_desugaring::desugar::desugar;
use gm_dissecting::dissect::dissect;
use gm_flip::flip::flip;
use gm_outward::outward::outward;
use gm_preparable::typed_programs_may_be_prepared;
use gm_prepare::tuples::has_even_tuples;
use std::alloc::Global;

/// Writes a program without group assignments, reductions that give a value, random reads and searches: first as plain
/// loops, then each search as loops over its levels. A checked program whose totals stand in order, as they do in that of
/// an accepted text, means the same, for every graph, all arguments and every bound, and comes out ready for the passes
/// that part its loops. Answers want of memory too where the table has no room for the variables that are added.
pub fn level(alloc: Global, program: Work) -> Result<Work, NoMemory>
    ensures made { IfOk result (λ r. program_of r ≡ levelled (with_plain_loops (program_of program))) }
    ensures same { IfOk result (λ r. CanBecomeLoops (program_of program) → SameMeaning (program_of program) (program_of r)) }
    ensures ready { IfOk result (λ r. CanBecomeLoops (program_of program) → Ready2 (program_of r)) }
{
    let plain = desugar(alloc, program)?;
    let loops = bfs_out(alloc, plain)?;
    Ok(loops)
}

// A program, where something holds.
fn only_if(holds: bool, program: Work) -> Option<Work>
    ensures same { IfSome result (λ r. r ≡ program) }
    ensures which { is_some result ≡ holds }
{
    if holds { Some(program) } else { None }
}

/// Writes a program besides with loops that go one way each, none of which pulls: each is evaluated at its own node, or at
/// the node that a message from there reaches, and asks at its node what it can before it looks at edges. None where the
/// targets of a reduction are declared inside different numbers of loops (`can_be_parted`). The program of an accepted text
/// means the same, for every graph, all arguments and every bound, and comes out ready to become an image: each slice of its
/// inner loops goes one way.
pub fn part(alloc: Global, program: Work) -> Result<Option<Work>, NoMemory>
    ensures made { IfOk result (λ r. IfSome r (λ q. program_of q ≡ parted (program_of program))) }
    ensures which { IfOk result (λ r. is_some r ≡ can_be_parted (program_of program)) }
    ensures same { IfOk result (λ r. IfSome r (λ q. MayBeParted (program_of program) → SameMeaning (program_of program) (program_of q))) }
    ensures ready { IfOk result (λ r. IfSome r (λ q. MayBeParted (program_of program) → Ready4 (program_of q))) }
{
    typed_programs_may_be_prepared();
    canonical_programs_go_one_way();
    let loops = level(alloc, program)?;
    let even = has_even_tuples(&loops);
    let cut = dissect(alloc, loops)?;
    let turned = flip(alloc, cut)?;
    let asked = outward(alloc, turned)?;
    Ok(only_if(even, asked))
}
