//! The walks for which a program asks rows of its graph.

ghost use Rattle.std.specs.Prelude.{◌≡◌};
ghost use Rattle.gm_ast.specs.Tree.{program_of};
ghost use Rattle.gm_source_runs.specs.Walks.{walks_of as walks_of_lem};

use gm_ast::tree::Tree;
use gm_graph::Walks;
use gm_loops::goes_outward;

/// The walks for which a program asks rows of its graph: both ways where it counts the edges that lead to a node or runs
/// over in-neighbours or over neighbours one level up, else outward only.
pub fn walks_of(tree: &Tree) -> Walks
    ensures { result ≡ walks_of_lem (program_of tree.now) }
{
    if goes_outward(&tree.body) {
        Walks::Outward
    } else {
        Walks::BothWays
    }
}
