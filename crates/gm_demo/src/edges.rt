//! The edges of the graph.

ghost use Rattle.std.specs.Prelude.{◌≡◌, ◌≤◌, ◌+◌, ◌*◌, ℕ};
ghost use Rattle.gm_demo.specs.Draws.{held_after};
ghost use Rattle.gm_demo.specs.Edges.{demo_edge};

use crate::draws::Draws;

// An edge with its length. Its ends are numbers of nodes.
#[derive(Clone, Copy, Debug, PartialEq, Eq)]
pub struct Edge {
    pub origin: u64,
    pub target: u64,
    pub length: u64,
}

// The next edge of the graph with this number of nodes. It takes three draws.
pub fn next_edge(draws: &mut Draws, nodes: u32) -> Edge
    requires { 1 ≤ nodes }
    ensures edge { (k : ℕ) → draws.old.held ≡ held_after nodes (3 * k) → result ≡ demo_edge nodes k }
    ensures held { (k : ℕ) → draws.old.held ≡ held_after nodes (3 * k)
        → draws.new.held ≡ held_after nodes (3 * (k + 1)) }
{
    let origin = draws.draw() % u64::from(nodes);
    let target = draws.draw() % u64::from(nodes);
    let length = draws.draw() % 100 + 1;
    Edge {
        origin,
        target,
        length,
    }
}
