//! Procedures that break a rule of types in their parameters or by their result, and whole ones that keep all.

use crate::types::{procedure_holds, procedures_hold};
use std::test::Fail;

const PARAMETERS: &str = "
# T2: parameters.
Procedure f(G: Graph, a: Int, a: Int) { } => T2 at 1:31
Procedure f(G: Graph, a, b, a: Int) { } => T2 at 1:29
Procedure f(G: Graph, a: Int; a: Bool) { } => T2 at 1:31
Procedure f(G: Graph; G: Graph) { } => T2 at 1:23
Procedure f(G: Graph, f: Int): Int { Return f; } => accepted
Procedure f(x: N_P<Int>(H), H: Graph, H: Int) { } => T2 at 1:39
Procedure f(G: Graph, a: Bool, a: Int) { a = True; a = 1; } => T2 at 1:32
# T3: the graph.
Procedure f() { } => T3 at 1:11
Procedure f(a: Int) { } => T3 at 1:11
Procedure f(G: Graph, H: Graph) { } => T3 at 1:11
Procedure f(G, H: DGraph) { } => T3 at 1:11
Procedure f(a: Int; G: Graph) { } => T3 at 1:11
Procedure f(a: Int, a: Int): Edge { a = y; } => T3 at 1:11
Proc f(a: Int, G: DGraph;) { a = G.NumNodes(); } => accepted
Proc f(a: Int, G: Graph) { a = True; }  => T9 at 1:30
# T4: parameters and results.
Procedure f(G: Graph; H: Graph) { } => T4 at 1:26
Procedure f(G: Graph): Graph { } => T4 at 1:24
Procedure f(G: Graph, e: Edge) { } => T4 at 1:26
Procedure f(G: Graph; e: Edge) { } => T4 at 1:26
Procedure f(G: Graph): Edge { } => T4 at 1:24
Procedure f(G: Graph): N_P<Int> { } => T4 at 1:24
Procedure f(G: Graph): E_P<Int> { } => T4 at 1:24
Procedure f(G: Graph, x: N_P<Edge>) { } => T4 at 1:30
Procedure f(G: Graph, x: E_P<Edge>) { } => T4 at 1:30
Procedure f(G: Graph, x: E_P<DGraph>) { } => T4 at 1:30
Procedure f(G: Graph, x: N_P<N_P<Int>>) { } => T4 at 1:30
Procedure f(G: Graph; x: N_P<N_P<Edge>>) { } => T4 at 1:30
Procedure f(G: Graph; x: E_P<Int>) { } => T4 at 1:26
Procedure f(G: Graph, x: E_P<Node>) { } => T4 at 1:26
Procedure f(G: Graph, x: N_P<Node>) { } => T4 at 1:26
Procedure f(G: Graph, a: Int, b: Long, c: Bool, d: Node(G), e: N_P<Int>, f: N_P<Long>(G), g: N_P<Bool>, h: E_P<Int>, i: Edge_Prop<Long>, j: Edge_Property<Bool>; k: Int, l: Long, m: Bool, n: Node, o: N_P<Node>, p: Node_Prop<Int>): Node { } => accepted
Procedure f(G: Graph, x: N_P<Node>, a: Int, a: Int) { b = 1; } => T4 at 1:26
Procedure f(G: Graph, a: Int, a: Edge) { } => T2 at 1:31
# T5 and T1: the graph of a type.
Procedure f(G: Graph, a: Int, x: N_P<Int>(a)) { } => T5 at 1:43
Procedure f(x: N_P<Int>(x), G: Graph) { } => T5 at 1:25
Procedure f(x: N_P<Int>(G), y: Node(G), G: Graph; z: N_P<Node(G)>(G)): Node(G) { } => accepted
Procedure f(G: Graph, x: E_P<Int>(x)) { } => T5 at 1:35
Procedure f(G: Graph; x: N_P<Int>(y)) { } => T1 at 1:35
Procedure f(G: Graph; x: N_P<Node(x)>(G)) { } => T5 at 1:35
Procedure f(G: Graph, a: Int): Node(a) { } => T5 at 1:37
Procedure f(G: Graph): Node(f) { } => T1 at 1:29
Procedure f(G: Graph): Node(k) { Int k; } => T1 at 1:29
";

const RESULTS: &str = "
# T9, T8 and T14: results.
Procedure f(G: Graph) { Return; } => accepted
Procedure f(G: Graph) { Return 1; } => T14 at 1:25
Procedure f(G: Graph) { Return 2147483648; } => T14 at 1:25
Procedure f(G: Graph) { Return y; } => T1 at 1:32
Procedure f(G: Graph, a: Int): Long { Return a; Return 1; Return 2147483648; Return -INF; } => accepted
Procedure f(G: Graph): Bool { Return 1; } => T14 at 1:31
Procedure f(G: Graph): Bool { Return True; Return 1 < 3000000000; } => accepted
Procedure f(G: Graph): Node { Return 0; } => T14 at 1:31
Procedure f(G: Graph): Node { Return G; } => T7 at 1:38
Procedure f(G: Graph): Node { Return NIL; } => accepted
Procedure f(G: Graph): Int { If (1 > 2) { } Else { Return; } } => T14 at 1:52
# Whole programs.
Procedure h(G: Graph, s: Node, p: N_P<Int>) : Bool { Return s != NIL && p0; } => T1 at 1:73
Procedure f(G: Graph) { Int x = True; } => T9 at 1:31
";

#[test]
fn parameters(rt: HostRuntime) -> Result<(), Fail> {
    procedures_hold(&rt, PARAMETERS, 42)
}

#[test]
fn results(rt: HostRuntime) -> Result<(), Fail> {
    procedures_hold(&rt, RESULTS, 13)
}

// The shortest paths from a node.
const SHORTEST_PATHS: &str = "\
Procedure sssp(G: Graph, root: Node, len: E_P<Int>; dist: N_P<Int>) {
  N_P<Int> next;
  N_P<Bool> on;
  Bool fin = False;
  G.dist = (G == root) ? 0 : INF;
  G.next = G.dist;
  G.on = (G == root);
  While (!fin) {
    Foreach (n: G.Nodes) (n.on) {
      Foreach (s: n.Nbrs) {
        Edge e = s.ToEdge();
        s.next min= n.dist + e.len;
      }
    }
    G.on = G.next < G.dist;
    G.dist = G.next;
    fin = !Exist(n: G.Nodes) {n.on};
  }
}";

#[test]
fn results_of_lines(rt: HostRuntime) -> Result<(), Fail> {
    procedure_holds(
        &rt,
        "Procedure f(G: Graph): Int {\n  Return 1;\n  Return True; }",
        "T14 at 3:3",
    )?;
    procedure_holds(&rt, SHORTEST_PATHS, "accepted")?;
    procedure_holds(
        &rt,
        "Procedure f(G: Graph; p: N_P<Int>) {\n  Foreach (n: G.Nodes) {\n    n.p = Sum(t: n.InNbrs) {t.p && True};\n  }\n}",
        "T8 at 3:33",
    )
}
