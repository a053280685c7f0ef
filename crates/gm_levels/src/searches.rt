//! The search itself, by rounds: the nodes that one round finds are the frontier of the next.

ghost use Rattle.std.specs.Prelude.{◌≡◌, ◌<◌, ◌≤◌, ◌+◌, ℕ, [], ◌∷◌, replicate, set, IfOk, OnOk, All, length};
ghost use Rattle.gm_model.specs.Graphs.{HasNode, node_count, nodes_of, out_steps};
ghost use Rattle.gm_levels.specs.Searches.{AreMarked, AreReached, targets_of};

use crate::levels::NONE;
use gm_base::NoMemory;
use gm_graph::Graph;
use std::alloc::Global;
use std::mem::replace;

// A search: the level of each node, or NONE where it has none yet, and the nodes that this round has found.
#[derive(Debug, Drop)]
pub(crate) struct Search {
    pub(crate) cells: Vec<u32>,
    pub(crate) found: Vec<u32>,
}

// What a search has reached: the level of each node, or NONE, and how many levels there are.
#[derive(Debug, Drop)]
pub(crate) struct Reached {
    pub(crate) cells: Vec<u32>,
    pub(crate) count: u32,
}

// A row of cells without a level.
fn open_cells(alloc: Global, nodes: usize) -> Result<Vec<u32>, NoMemory>
    ensures { IfOk result (λ cells. cells.items ≡ replicate nodes 4294967295) }
{
    Ok(vec![in alloc; NONE; nodes]?)
}

impl Search {
    // A search that has found its root, at level 0.
    fn new(alloc: Global, nodes: usize, root: u32) -> Result<Self, NoMemory>
        requires { root < nodes }
        ensures cells { IfOk result (λ search. search.cells.items ≡ set (replicate nodes 4294967295) root 0) }
        ensures found { IfOk result (λ search. search.found.items ≡ root ∷ []) }
    {
        let mut cells = open_cells(alloc, nodes)?;
        cells[root as usize] = 0;
        let mut found = Vec::new(alloc);
        found.push(root)?;
        Ok(Search { cells, found })
    }

    // Gives a node a level, if it has none.
    fn mark(&mut self, node: u32, level: u32) -> Result<(), NoMemory>
        requires node { node < length self.old.cells.items }
        requires level { level < 4294967295 }
        ensures { OnOk result (AreMarked (node ∷ []) level self.old self.new) }
    {
        if self.cells[node as usize] == NONE {
            self.cells[node as usize] = level;
            self.found.push(node)?;
        }
        Ok(())
    }

    // Gives the targets of a node's edges a level, where they have none.
    fn mark_targets(&mut self, graph: &Graph, node: u32, level: u32) -> Result<(), NoMemory>
        requires node { HasNode graph.now node }
        requires long { length self.old.cells.items ≡ node_count graph.now }
        requires level { level < 4294967295 }
        ensures { OnOk result (AreMarked (nodes_of (out_steps graph.now node)) level self.old self.new) }
    {
        for k in 0..graph.out_degree(node) {
            self.mark(graph.out_target(node, k), level)?;
        }
        Ok(())
    }

    // A round: gives the targets of the edges of a frontier a level, where they have none.
    fn mark_from(&mut self, graph: &Graph, frontier: &[u32], level: u32) -> Result<(), NoMemory>
        requires frontier { All (HasNode graph.now) frontier.now }
        requires long { length self.old.cells.items ≡ node_count graph.now }
        requires level { level < 4294967295 }
        ensures { OnOk result (AreMarked (targets_of graph.now frontier.now) level self.old self.new) }
    {
        for node in frontier {
            self.mark_targets(graph, *node, level)?;
        }
        Ok(())
    }
}

// Searches a graph from a root.
pub(crate) fn searched(alloc: Global, graph: &Graph, root: u32) -> Result<Reached, NoMemory>
    requires { HasNode graph.now root }
    ensures { IfOk result (AreReached graph.now root) }
{
    let mut search = Search::new(alloc, graph.node_count() as usize, root)?;
    let mut count = 0;
    while !search.found.is_empty() {
        count += 1;
        let frontier = replace(&mut search.found, Vec::new(alloc));
        search.mark_from(graph, frontier.as_slice(), count)?;
    }
    Ok(Reached {
        cells: search.cells,
        count,
    })
}
