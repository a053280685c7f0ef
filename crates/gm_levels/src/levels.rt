//! The levels of the nodes of a graph, and its nodes by level.

ghost use Rattle.std.specs.Prelude.{◌≡◌, ◌<◌, ◌≤◌, ◌+◌, ℕ, IfOk, Some, None, length, slice_get, slice_index, slice_index_or};
ghost use Rattle.gm_model.specs.Graphs.{HasNode};
ghost use Rattle.gm_semantics.specs.Levels.{level_of, levels};
ghost use Rattle.gm_levels.specs.Rows.{part_of};

use crate::groups::grouped;
use crate::searches::searched;
use gm_base::NoMemory;
use gm_graph::Graph;
use std::alloc::Global;
use std::marker::Model;

// What the cell of a node without a level holds.
pub(crate) const NONE: u32 = u32::MAX;

/// The levels of the nodes of a graph: the least number of edges from the root to each. Contracts see the level of
/// each node by its index, and the nodes of each level.
#[derive(Debug, Drop)]
pub struct Levels {
    pub(crate) cells: Vec<u32>,
    pub(crate) order: Vec<u32>,
    pub(crate) starts: Vec<u32>,
}

impl Model for Levels {
    ghost use Rattle.gm_levels.specs.Views.{NodeLevels};

    ghost Value = { NodeLevels };

    ghost use Rattle.gm_levels.specs.Rows.{levels_in, IsHeld};

    ghost view = { levels_in };

    ghost invariant = { IsHeld };
}

/// The levels of a breadth-first search from a root along the edges, in time linear in nodes and edges.
pub fn levels_from(alloc: Global, graph: &Graph, root: u32) -> Result<Levels, NoMemory>
    requires { HasNode graph.now root }
    ensures level { IfOk result (λ found. (n : ℕ) → slice_index_or found.level n None ≡ level_of graph.now root n) }
    ensures lists { IfOk result (λ found. found.lists ≡ levels graph.now root) }
{
    let reached = searched(alloc, graph, root)?;
    grouped(alloc, reached.cells, reached.count)
}

impl Levels {
    /// The level of a node, by its index, or None where no walk leads from the root to it.
    pub fn level(&self, node: u32) -> Option<u32>
        ensures { result ≡ slice_index_or self.now.level node None }
    {
        let node = node as usize;
        if node < self.cells.len() && self.cells[node] < NONE {
            Some(self.cells[node])
        } else {
            None
        }
    }

    /// How many levels have a node: one more than the greatest level.
    pub fn count(&self) -> usize
        ensures { result ≡ length self.now.lists }
    {
        self.starts.len() - 1
    }

    /// The nodes of a level, by ascending indices.
    pub fn nodes(&self, level: usize) -> &[u32]
        requires { level < length self.now.lists }
        ensures { slice_get self.now.lists level ≡ Some result.now }
    {
        part(self.order.as_slice(), self.starts.as_slice(), level)
    }
}

// The part of a row that belongs to a level.
fn part<'a>(order: &'a [u32], starts: &[u32], level: usize) -> &'a [u32]
    requires there { level + 1 < length starts.now }
    requires ordered { slice_index starts.now level ≤ slice_index starts.now (level + 1) }
    requires within { slice_index starts.now (level + 1) ≤ length order.now }
    ensures { result.now ≡ part_of order.now starts.now level }
{
    let start = starts[level] as usize;
    let end = starts[level + 1] as usize;
    &order[start..end]
}
