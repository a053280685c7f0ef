//! A gate that two workers of the whole program enter: worker 0 waits in the first superstep until worker 1 has entered, and all
//! entries are counted.

/// A program over a graph of three nodes.
pub const BEST_OVER: &str = "Procedure best(G: Graph, v: N_P<Int>; best: N_P<Int>) {
  Foreach (n: G.Nodes) (n.v > 0) { n.best = Max(t: n.Nbrs) (t.v < n.v) {t.v}; }
}
%%
0 1
0 2
1 2
2 0
v 0 7
v 1 5
v 2 6
";
