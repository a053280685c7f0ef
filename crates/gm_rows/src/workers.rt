//! Images run by several workers: the same bytes whoever owns which node, and the gate that each of them enters.

/// The words for so many workers, and for how the nodes are dealt out among them.
pub const TEAMS: &str = "--workers 1 --partition mod
--workers 1 --partition block
--workers 1 --partition spread:9
--workers 2 --partition mod
--workers 2 --partition block
--workers 2 --partition spread:9
--workers 64 --partition mod
--workers 64 --partition block
--workers 64 --partition spread:9
";

/// The same as a program, by its image.
pub const PATHS_OF_NODES: &str =
    "Procedure shortest_paths(G: Graph, root: Node, length: E_P<Int>; distance: N_P<Int>) {
  N_P<Bool> reached;
  N_P<Int> offer;
  Bool more = True;
  G.distance = G == root ? 0 : INF;
  G.offer = G.distance;
  G.reached = G == root;
  While (more) {
    Foreach (n: G.Nodes) (n.reached) {
      Foreach (t: n.Nbrs) {
        Edge e = t.ToEdge();
        t.offer min= n.distance + e.length;
      }
    }
    more = False;
    Foreach (n: G.Nodes) {
      n.reached = n.offer < n.distance;
      n.distance min= n.offer;
      more ||= n.reached;
    }
  }
}
";
