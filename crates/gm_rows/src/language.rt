//! The worked programs of the language, with their graphs and words: what is written and the status.

/// The shortest paths, whatever the workers and the partition.
pub const WORKERS: &str = "
~ run - - root=0
0 1 4
0 2 1
2 1 2
=>
node dist
0 0
1 3
2 1
turns 3
~ run - - root=0 --workers 1 --partition mod
0 1 4
0 2 1
2 1 2
=>
node dist
0 0
1 3
2 1
turns 3
~ run - - root=0 --workers 1 --partition block
0 1 4
0 2 1
2 1 2
=>
node dist
0 0
1 3
2 1
turns 3
~ run - - root=0 --workers 1 --partition spread:9
0 1 4
0 2 1
2 1 2
=>
node dist
0 0
1 3
2 1
turns 3
~ run - - root=0 --workers 2 --partition mod
0 1 4
0 2 1
2 1 2
=>
node dist
0 0
1 3
2 1
turns 3
~ run - - root=0 --workers 2 --partition block
0 1 4
0 2 1
2 1 2
=>
node dist
0 0
1 3
2 1
turns 3
~ run - - root=0 --workers 2 --partition spread:9
0 1 4
0 2 1
2 1 2
=>
node dist
0 0
1 3
2 1
turns 3
~ run - - root=0 --workers 64 --partition mod
0 1 4
0 2 1
2 1 2
=>
node dist
0 0
1 3
2 1
turns 3
~ run - - root=0 --workers 64 --partition block
0 1 4
0 2 1
2 1 2
=>
node dist
0 0
1 3
2 1
turns 3
~ run - - root=0 --workers 64 --partition spread:9
0 1 4
0 2 1
2 1 2
=>
node dist
0 0
1 3
2 1
turns 3
";

/// Faulty and cut graphs, and faulty arguments.
pub const BAD_INPUTS: &str = "
~ run - - root=0
0 x 1
=>
graph BadLine at line 1
~ run - - root=0
0 1
=>
graph MissingColumn at line 1
~ run - - root=0
0 1 3000000000
=>
graph OutOfRange at line 1
~ run - - root=0
v 4
v 4
=>
graph NodeTwice at line 2
~ run - -
0 1 4
0 2 1
2 1 2
=>
argument Missing root
~ run - - x=1
0 1 4
0 2 1
2 1 2
=>
argument Unknown x
~ run - - root=0 root=0
0 1 4
0 2 1
2 1 2
=>
argument Twice root
~ run - - root=zero
0 1 4
0 2 1
2 1 2
=>
argument BadValue root
~ run - - root=9
0 1 4
0 2 1
2 1 2
=>
argument NoSuchNode root
~ run - - root=0
0=>
graph BadLine at line 1
~ run - - root=0
0 =>
graph BadLine at line 1
~ run - - root=0
0 1=>
graph MissingColumn at line 1
~ run - - root=0
0 1 =>
graph MissingColumn at line 1
~ run - - root=0
0 1 4=>
node dist
0 0
1 4
turns 2
~ run - - root=0
=>
argument NoSuchNode root
";

/// Programs of each kind.
pub const PROGRAMS: &str = "
~ run - -
Procedure count(G: Graph; p: N_P<Int>) : Int {
  Foreach (n: G.Nodes) { n.p = 1; }
  Return Sum(n: G.Nodes) {n.p};
}
%%
=>
return = 0
node p
turns 0
~ run - -
Procedure total(G: Graph, v: N_P<Int>; s: N_P<Int>) {
  Foreach (n: G.Nodes) { n.s = Sum(t: n.InNbrs) {t.v}; }
}
%%
0 1
0 1
1 1
v 0 5
v 1 7
=>
node s
0 0
1 17
turns 0
~ run - -
Procedure quot(G: Graph, v: N_P<Int>; q: N_P<Int>) {
  Foreach (n: G.Nodes) (n.v > 0) {
    Foreach (t: n.Nbrs) { n.q += 12 / t.v; }
  }
}
%%
0 1
2 3
v 0 0
v 1 0
v 2 1
v 3 4
=>
node q
0 0
1 0
2 3
3 0
turns 0
~ run - -
Procedure two(G: Graph, v: N_P<Int>; a, b: N_P<Int>) {
  Foreach (n: G.Nodes) {
    n.a = 6 / (n.v - 1);
    n.b = 6 / (n.v - 2);
  }
}
%%
v 0 2
v 1 1
=>
fault DivideByZero at 3:13
~ run - -
Procedure both(G: Graph, v, w: N_P<Int>; a: N_P<Int>) {
  Foreach (n: G.Nodes) {
    n.a = 6 / n.v + Sum(t: n.Nbrs) {6 / t.w};
  }
}
%%
1 0
v 0 0 0
v 1 1 1
=>
fault DivideByZero at 3:39
~ run - -
Procedure tot(G: Graph, v: N_P<Int>) : Int { Return Sum(n: G.Nodes) {n.v}; }
%%
v 0 2147483647
v 1 1
=>
fault Overflow at 1:53
~ run - -
Procedure tot(G: Graph, v: N_P<Int>) : Int { Return Sum(n: G.Nodes) {n.v}; }
%%
v 0 2147483647
v 1 2147483647
v 2 -2147483647
=>
return = 2147483647
turns 0
~ run - - s=0
Procedure depths(G: Graph, s: Node; depth, last: N_P<Int>) {
  s.depth = 1;
  InBFS (v: G.Nodes From s) (v != s) {
    v.depth = Max(w: v.UpNbrs) {w.depth + 1};
  } InReverse {
    v.last = Count(w: v.DownNbrs) (w.last == 0);
  }
}
%%
0 1
0 2
1 3
2 3
=>
node depth last
0 1 0
1 2 1
2 2 1
3 3 0
turns 6
~ run - - s=NIL
Procedure depths(G: Graph, s: Node; depth, last: N_P<Int>) {
  s.depth = 1;
  InBFS (v: G.Nodes From s) (v != s) {
    v.depth = Max(w: v.UpNbrs) {w.depth + 1};
  } InReverse {
    v.last = Count(w: v.DownNbrs) (w.last == 0);
  }
}
%%
0 1
0 2
1 3
2 3
=>
fault NilNode at 2:3
~ run - - s=0
Procedure reach(G: Graph, s: Node; seen: N_P<Bool>) {
  InBFS (v: G.Nodes From s) {
    v.seen = True;
  }
}
%%
0 1
2 3
=>
node seen
0 True
1 True
2 False
3 False
turns 2
~ run - - s=NIL
Procedure reach(G: Graph, s: Node; seen: N_P<Bool>) {
  InBFS (v: G.Nodes From s) {
    v.seen = True;
  }
}
%%
0 1
2 3
=>
fault NilNode at 2:26
~ run - - --turns 5
Procedure spin(G: Graph) : Int {
  Int k = 0;
  While (k < 6) { k += 1; }
  Return k;
}
%%
=>
cut after 5 turns
~ run - - --turns 6
Procedure spin(G: Graph) : Int {
  Int k = 0;
  While (k < 6) { k += 1; }
  Return k;
}
%%
=>
return = 6
turns 6
~ run - -
Procedure mix(G: Graph, v: N_P<Int>; a, b, c: N_P<Int>) {
  Foreach (n: G.Nodes) {
    n.c = n.v;
    If (n.c > 1) {
      n.c = 0;
      Foreach (t: n.Nbrs) {
        Int d = t.v - n.v;
        If (d > 0) { n.a += d; }
        t.b += d;
      }
      n.c = n.c + n.a;
    }
  }
}
%%
0 1
0 2
2 2
2 1
v 0 3
v 1 5
v 2 2
=>
node a b c
0 2 0 2
1 0 5 0
2 3 -1 3
turns 0
~ run - -
Procedure deg(G: Graph; d: N_P<Int>) { Foreach (n: G.Nodes) { n.d = n.OutDegree(); } }
%%
# Directed graph\r
# FromNodeId\tToNodeId\r
30\t1412\r
30\t3352\t99\r
1412\t30\r
=>
node d
30 2
1412 1
3352 0
turns 0
~ run - -
Procedure shift(G: Graph, v: N_P<Int>; p: N_P<Int>) {
  Foreach (n: G.Nodes) { n.p = n.v; }
  Foreach (n: G.Nodes) { n.p <= Sum(t: n.InNbrs) {t.p} @ n; }
}
%%
0 1
1 2
2 0
v 0 1
v 1 2
v 2 3
=>
node p
0 3
1 1
2 2
turns 0
~ run - - r=1
Procedure vote(G: Graph, r: Node; c: N_P<Int>) {
  Foreach (n: G.Nodes) { r.c += 1; }
}
%%
0 1
2 1
=>
node c
0 0
1 3
2 0
turns 0
~ run - - r=NIL
Procedure vote(G: Graph, r: Node; c: N_P<Int>) {
  Foreach (n: G.Nodes) { r.c += 1; }
}
%%
0 1
2 1
=>
fault NilNode at 2:26
~ run - -
Procedure order(G: Graph, v: N_P<Int>) : Int {
  Int h = 0;
  For (n: G.Nodes) (n.v > 0) { h = h * 10 + n.v; }
  Return h;
}
%%
v 7 1
v 3 2
v 5 0
=>
return = 21
turns 3
~ run - -
Procedure e(G: Graph, v: N_P<Int>, w: E_P<Int>; s: N_P<Int>) {
  Foreach (n: G.Nodes) {
    Foreach (t: n.InNbrs) {
      Edge e1 = t.ToEdge();
        n.s += t.v * e1.w;
    }
  }
}
%%
0 1 3
2 1 4
v 0 2
v 2 5
=>
node s
0 0
1 26
2 0
turns 0
~ run - - s=NIL
Procedure h(G: Graph, s: Node, p: N_P<Int>) : Bool { Return s != NIL && s.p > 0; }
%%
=>
fault NilNode at 1:73
~ run - - k=9
Procedure scale(G: Graph, v: N_P<Int>, k: Int; p: N_P<Int>) {
  Foreach (n: G.Nodes) { n.p = n.v * 3 - 1; }
}
%%
5 3
v 3 4
=>
node p
3 11
5 -1
turns 0
~ run - - k=9
Procedure scale(G: Graph, v: N_P<Int>, k: Int; p: N_P<Int>) {
  Foreach (n: G.Nodes) { n.p = n.v * 3 - 1; }
}
%%
v 3 3000000000
=>
graph OutOfRange at line 1
~ run - -
Procedure scale(G: Graph, v: N_P<Int>, k: Int; p: N_P<Int>) {
  Foreach (n: G.Nodes) { n.p = n.v * 3 - 1; }
}
%%
5 3
v 3 4
=>
argument Missing k
~ run - -
Procedure back(G: Graph, v: N_P<Int>; s: N_P<Int>) {
  Foreach (n: G.Nodes) {
    Foreach (t: n.InNbrs) { t.s += n.v; }
  }
}
%%
0 1
0 1
1 1
v 0 5
v 1 7
=>
node s
0 14
1 7
turns 0
~ run - -
Procedure d(G: Graph; p, q: N_P<Int>) { Foreach (n: G.Nodes) { n.p <= 5; n.q = n.p + 1; } }
%%
0 1
=>
node p q
0 5 1
1 5 1
turns 0
~ run - -
Procedure prod(G: Graph, v: N_P<Int>) : Int { Return Product(n: G.Nodes) {n.v}; }
%%
v 0 2147483647
v 1 2147483647
=>
fault Overflow at 1:54
~ run - -
Procedure prod(G: Graph, v: N_P<Int>) : Int { Return Product(n: G.Nodes) {n.v}; }
%%
v 0 2147483647
v 1 2147483647
v 2 0
=>
return = 0
turns 0
~ run - -
Procedure acc(G: Graph, v: N_P<Int>; b: N_P<Int>) {
  Foreach (n: G.Nodes) {
    Foreach (t: n.Nbrs) { t.b += n.v; t.b += 0 - n.v; }
  }
}
%%
0 2
1 2
v 0 2147483647
v 1 1
=>
fault Overflow at 3:31
~ run - -
Procedure both(G: Graph, v: N_P<Int>; b: N_P<Int>) {
  G.b = 1;
  Foreach (n: G.Nodes) {
    Foreach (t: n.Nbrs) { t.b += 0 - n.v; n.b += n.v; }
  }
}
%%
0 1
1 0
v 0 2147483647
v 1 2147483647
=>
node b
0 1
1 1
turns 0
~ demo 1
=>
demo 1 edges 4 reached 1 far 0 turns 1
~ run nofile -
=>
absent nofile
~ run - nofile
Procedure f(G: Graph) { Double d; }=>
refused U1 at 1:25
";
