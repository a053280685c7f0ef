//! The walks for which an image asks rows of its graph.

ghost use Rattle.std.specs.Prelude.{◌≡◌};
ghost use Rattle.gm_image.specs.Views.{program};
ghost use Rattle.gm_exec.specs.Walks.{walks_of as walks_of_lem};

use gm_graph::Walks;
use gm_image::Image;
use gm_machine::asks_outward;

/// The walks for which an image asks rows of its graph: both ways where something counts the edges that lead to a vertex or
/// goes over them by `each in`, else outward only.
pub fn walks_of(image: &Image) -> Walks
    ensures { result ≡ walks_of_lem (program image.now) }
{
    if asks_outward(image) {
        Walks::Outward
    } else {
        Walks::BothWays
    }
}
