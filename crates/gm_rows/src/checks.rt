//! The command `check`, over a source, files and a sink in memory.

/// Program texts, and what is written of them.
pub const TEXTS: &str = "
~
Procedure f(G: Graph) { }=>
accepted
~
Procedure f(G: Graph) { Int # x; }=>
refused BadByte at 1:29
~
Procedure f(G: Graph) { Int x = 99999999999999999999; }=>
refused NumberTooLarge at 1:33
~
Procedure f(G: Graph) { /* x=>
refused OpenComment at 1:25
~
Procedure f(G: Graph) { Double d; }=>
refused U1 at 1:25
~
=>
refused Syntax at 1:1
~
Procedure f(G: Graph) {
  Foreach (n: G.=>
refused Syntax at 2:17
~
Procedure f(G: Graph) {{{{{{{{{{{{{{{{{{{{{{{{{{{{{{{{{{{{{{{{{{{{{{{{{{{{{{{{{{{{{{{{{{=>
refused TooDeep at 1:88
~
Procedure h(G: Graph, s: Node, p: N_P<Int>) : Bool { Return s != NIL && p0; }
=>
refused T1 at 1:73
~
Procedure f(G: Graph) { Int x = True; }=>
refused T9 at 1:31
~
Procedure race(G: Graph; p, q: N_P<Int>) {
  Foreach (n: G.Nodes) {
    n.p = Sum(t: n.InNbrs) {t.p};
  }
}
=>
refused R1 at 3:29
~
Procedure race(G: Graph; p, q: N_P<Int>) {
  Foreach (n: G.Nodes) {
    Foreach (t: n.Nbrs) { t.q = 1; }
    n.p = Sum(t: n.InNbrs) {t.p};
  }
}
=>
refused R4 at 3:27
~
Procedure f(G: Graph, s: Node) { Foreach (t: s.Nbrs) { } }=>
refused C1 at 1:46
~
Procedure f(G: Graph) { Foreach (n: G.Nodes) { While (True) { } } }=>
refused C4 at 1:48
~
Procedure e(G: Graph, v: N_P<Int>, w: E_P<Int>; s: N_P<Int>) {
  Foreach (n: G.Nodes) {
    Foreach (t: n.Nbrs) {
      Edge e1 = t.ToEdge();
        n.s += t.v * e1.w;
    }
  }
}
=>
refused C7 at 5:22
~
Procedure e(G: Graph, v: N_P<Int>, w: E_P<Int>; s: N_P<Int>) {
  Foreach (n: G.Nodes) {
    Foreach (t: n.InNbrs) {
      Edge e1 = t.ToEdge();
        n.s += t.v * e1.w;
    }
  }
}
=>
accepted
";
