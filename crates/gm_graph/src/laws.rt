//! A law of graphs, as a contract.

ghost use Rattle.std.specs.Prelude.{◌≡◌};
ghost use Rattle.gm_graph.specs.Builds.{IsBuiltOf};
ghost use Rattle.gm_model.specs.Graphs.{NumberedGraph};
ghost use Rattle.gm_graph.specs.declared.builds.RawGraph.{RawGraph};

/// What a graph is made of determines it: two graphs that are made of the same are the same.
pub fn graphs_are_determined()
    ensures { (raw : RawGraph) (g h : NumberedGraph) → IsBuiltOf raw g → IsBuiltOf raw h → g ≡ h }
{}
