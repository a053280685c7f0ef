//! The procedure that `demo` runs.

ghost use Rattle.std.specs.Prelude.{◌≡◌};
ghost use Rattle.gm_demo.specs.Programs.{sssp_text};

/// The text of the procedure `sssp`: the length of a shortest path from a node to each node, or `INF` where none leads there.
#[tactic(auto, unfolding(crate::specs::Programs::sssp_text))]
pub fn demo_program() -> &'static str
    ensures { result.now ≡ sssp_text }
{
    "\
Procedure sssp(G: Graph, root: Node, len: E_P<Int>; dist: N_P<Int>) {
  N_P<Int> next;
  N_P<Bool> on;
  Bool fin = False;
  G.dist = (G == root) ? 0 : INF;
  G.next = G.dist;
  G.on = (G == root);
  While (!fin) {
    Foreach (n: G.Nodes) (n.on) {
      Foreach (s: n.Nbrs) {
        Edge e = s.ToEdge();
        s.next min= n.dist + e.len;
      }
    }
    G.on = G.next < G.dist;
    G.dist = G.next;
    fin = !Exist(n: G.Nodes) {n.on};
  }
}
"
}
