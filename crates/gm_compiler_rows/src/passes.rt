//! The worked programs of the language and the programs of the folder `examples`, each over its graph: what is written is
//! the same before the passes and after each of them.

/// The words, the program, the line that parts it from its graph, the graph and what is written.
pub const ROWS: &str = "
~ run - -
Procedure add(G: Graph; p: N_P<Int>) {
  Foreach (n: G.Nodes) { n.p = n.p + 7; }
}
%%
0 1
1 2
=>
node p
0 7
1 7
2 7
turns 0
~ run - - s=NIL
Procedure reach(G: Graph, s: Node; seen: N_P<Bool>) {
  InBFS (v: G.Nodes From s) {
    v.seen = True;
  }
}
%%
0 1
2 3
=>
fault NilNode at 2:26
~ run - - s=NIL
Procedure depths(G: Graph, s: Node; depth, last: N_P<Int>) {
  s.depth = 1;
  InBFS (v: G.Nodes From s) (v != s) {
    v.depth = Max(w: v.UpNbrs) {w.depth + 1};
  } InReverse {
    v.last = Count(w: v.DownNbrs) (w.last == 0);
  }
}
%%
0 1
0 2
1 3
2 3
=>
fault NilNode at 2:3
~ run - - s=0
Procedure reach(G: Graph, s: Node; seen: N_P<Bool>) {
  InBFS (v: G.Nodes From s) {
    v.seen = True;
  }
}
%%
0 1
2 3
=>
node seen
0 True
1 True
2 False
3 False
turns 2
~ run - - s=0
Procedure depths(G: Graph, s: Node; depth, last: N_P<Int>) {
  s.depth = 1;
  InBFS (v: G.Nodes From s) (v != s) {
    v.depth = Max(w: v.UpNbrs) {w.depth + 1};
  } InReverse {
    v.last = Count(w: v.DownNbrs) (w.last == 0);
  }
}
%%
0 1
0 2
1 3
2 3
=>
node depth last
0 1 0
1 2 1
2 2 1
3 3 0
turns 6
~ run - - root=0
Procedure sssp(G: Graph, root: Node, len: E_P<Int>; dist: N_P<Int>) {
  N_P<Int> next;
  N_P<Bool> on;
  Bool fin = False;
  G.dist = (G == root) ? 0 : INF;
  G.next = G.dist;
  G.on = (G == root);
  While (!fin) {
    Foreach (n: G.Nodes) (n.on) {
      Foreach (s: n.Nbrs) {
        Edge e = s.ToEdge();
        s.next min= n.dist + e.len;
      }
    }
    G.on = G.next < G.dist;
    G.dist = G.next;
    fin = !Exist(n: G.Nodes) {n.on};
  }
}
%%
0 1 4=>
node dist
0 0
1 4
turns 2
~ run - -
Procedure shift(G: Graph, v: N_P<Int>; p: N_P<Int>) {
  Foreach (n: G.Nodes) { n.p = n.v; }
  Foreach (n: G.Nodes) { n.p <= Sum(t: n.InNbrs) {t.p} @ n; }
}
%%
0 1
1 2
2 0
v 0 1
v 1 2
v 2 3
=>
node p
0 3
1 1
2 2
turns 0
~ run - -
Procedure d(G: Graph; p, q: N_P<Int>) { Foreach (n: G.Nodes) { n.p <= 5; n.q = n.p + 1; } }
%%
0 1
=>
node p q
0 5 1
1 5 1
turns 0
~ run - -
Procedure e(G: Graph, v: N_P<Int>, w: E_P<Int>; s: N_P<Int>) {
  Foreach (n: G.Nodes) {
    Foreach (t: n.InNbrs) {
      Edge e1 = t.ToEdge();
        n.s += t.v * e1.w;
    }
  }
}
%%
0 1 3
2 1 4
v 0 2
v 2 5
=>
node s
0 0
1 26
2 0
turns 0
~ run - -
Procedure count(G: Graph; p: N_P<Int>) : Int {
  Foreach (n: G.Nodes) { n.p = 1; }
  Return Sum(n: G.Nodes) {n.p};
}
%%
=>
return = 0
node p
turns 0
~ run - -
Procedure quot(G: Graph, v: N_P<Int>; q: N_P<Int>) {
  Foreach (n: G.Nodes) (n.v > 0) {
    Foreach (t: n.Nbrs) { n.q += 12 / t.v; }
  }
}
%%
0 1
2 3
v 0 0
v 1 0
v 2 1
v 3 4
=>
node q
0 0
1 0
2 3
3 0
turns 0
~ run - -
Procedure both(G: Graph, v, w: N_P<Int>; a: N_P<Int>) {
  Foreach (n: G.Nodes) {
    n.a = 6 / n.v + Sum(t: n.Nbrs) {6 / t.w};
  }
}
%%
1 0
v 0 0 0
v 1 1 1
=>
fault DivideByZero at 3:39
~ run - - s=NIL
Procedure h(G: Graph, s: Node, p: N_P<Int>) : Bool { Return s != NIL && s.p > 0; }
%%
=>
fault NilNode at 1:73
~ run - -
Procedure two(G: Graph, v: N_P<Int>; a, b: N_P<Int>) {
  Foreach (n: G.Nodes) {
    n.a = 6 / (n.v - 1);
    n.b = 6 / (n.v - 2);
  }
}
%%
v 0 2
v 1 1
=>
fault DivideByZero at 3:13
~ run - -
Procedure mix(G: Graph, v: N_P<Int>; a, b, c: N_P<Int>) {
  Foreach (n: G.Nodes) {
    n.c = n.v;
    If (n.c > 1) {
      n.c = 0;
      Foreach (t: n.Nbrs) {
        Int d = t.v - n.v;
        If (d > 0) { n.a += d; }
        t.b += d;
      }
      n.c = n.c + n.a;
    }
  }
}
%%
0 1
0 2
2 2
2 1
v 0 3
v 1 5
v 2 2
=>
node a b c
0 2 0 2
1 0 5 0
2 3 -1 3
turns 0
~ run - -
Procedure total(G: Graph, v: N_P<Int>; s: N_P<Int>) {
  Foreach (n: G.Nodes) { n.s = Sum(t: n.InNbrs) {t.v}; }
}
%%
0 1
0 1
1 1
v 0 5
v 1 7
=>
node s
0 0
1 17
turns 0
~ run - -
Procedure prod(G: Graph, v: N_P<Int>) : Int { Return Product(n: G.Nodes) {n.v}; }
%%
v 0 2147483647
v 1 2147483647
=>
fault Overflow at 1:54
~ run - -
Procedure prod(G: Graph, v: N_P<Int>) : Int { Return Product(n: G.Nodes) {n.v}; }
%%
v 0 2147483647
v 1 2147483647
v 2 0
=>
return = 0
turns 0
~ run - -
Procedure back(G: Graph, v: N_P<Int>; s: N_P<Int>) {
  Foreach (n: G.Nodes) {
    Foreach (t: n.InNbrs) { t.s += n.v; }
  }
}
%%
0 1
0 1
1 1
v 0 5
v 1 7
=>
node s
0 14
1 7
turns 0
~ run - -
Procedure both(G: Graph, v: N_P<Int>; b: N_P<Int>) {
  G.b = 1;
  Foreach (n: G.Nodes) {
    Foreach (t: n.Nbrs) { t.b += 0 - n.v; n.b += n.v; }
  }
}
%%
0 1
1 0
v 0 2147483647
v 1 2147483647
=>
node b
0 1
1 1
turns 0
~ run - - r=1
Procedure vote(G: Graph, r: Node; c: N_P<Int>) {
  Foreach (n: G.Nodes) { r.c += 1; }
}
%%
0 1
2 1
=>
node c
0 0
1 3
2 0
turns 0
~ run - - r=NIL
Procedure vote(G: Graph, r: Node; c: N_P<Int>) {
  Foreach (n: G.Nodes) { r.c += 1; }
}
%%
0 1
2 1
=>
fault NilNode at 2:26
~ run - - k=9
Procedure scale(G: Graph, v: N_P<Int>, k: Int; p: N_P<Int>) {
  Foreach (n: G.Nodes) { n.p = n.v * 3 - 1; }
}
%%
5 3
v 3 4
=>
node p
3 11
5 -1
turns 0
~ run - -
Procedure order(G: Graph, v: N_P<Int>) : Int {
  Int h = 0;
  For (n: G.Nodes) (n.v > 0) { h = h * 10 + n.v; }
  Return h;
}
%%
v 7 1
v 3 2
v 5 0
=>
return = 21
turns 3
~ run - - root=0
Procedure sssp(G: Graph, root: Node, len: E_P<Int>; dist: N_P<Int>) {
  N_P<Int> next;
  N_P<Bool> on;
  Bool fin = False;
  G.dist = (G == root) ? 0 : INF;
  G.next = G.dist;
  G.on = (G == root);
  While (!fin) {
    Foreach (n: G.Nodes) (n.on) {
      Foreach (s: n.Nbrs) {
        Edge e = s.ToEdge();
        s.next min= n.dist + e.len;
      }
    }
    G.on = G.next < G.dist;
    G.dist = G.next;
    fin = !Exist(n: G.Nodes) {n.on};
  }
}
%%
0 1 4
0 2 1
2 1 2
=>
node dist
0 0
1 3
2 1
turns 3
~ run - -
Procedure deg(G: Graph; d: N_P<Int>) { Foreach (n: G.Nodes) { n.d = n.OutDegree(); } }
%%
# Directed graph\r
# FromNodeId\tToNodeId\r
30\t1412\r
30\t3352\t99\r
1412\t30\r
=>
node d
30 2
1412 1
3352 0
turns 0
~ run - - --turns 5
Procedure spin(G: Graph) : Int {
  Int k = 0;
  While (k < 6) { k += 1; }
  Return k;
}
%%
=>
cut after 5 turns
~ run - - --turns 6
Procedure spin(G: Graph) : Int {
  Int k = 0;
  While (k < 6) { k += 1; }
  Return k;
}
%%
=>
return = 6
turns 6
~ run - -
Procedure tot(G: Graph, v: N_P<Int>) : Int { Return Sum(n: G.Nodes) {n.v}; }
%%
v 0 2147483647
v 1 1
=>
fault Overflow at 1:53
~ run - -
Procedure tot(G: Graph, v: N_P<Int>) : Int { Return Sum(n: G.Nodes) {n.v}; }
%%
v 0 2147483647
v 1 2147483647
v 2 -2147483647
=>
return = 2147483647
turns 0
~ run - -
Procedure acc(G: Graph, v: N_P<Int>; b: N_P<Int>) {
  Foreach (n: G.Nodes) {
    Foreach (t: n.Nbrs) { t.b += n.v; t.b += 0 - n.v; }
  }
}
%%
0 2
1 2
v 0 2147483647
v 1 1
=>
fault Overflow at 3:31
~ run - -
Procedure best(G: Graph, v: N_P<Int>; m: N_P<Int>, w: N_P<Node>) {
  Foreach (n: G.Nodes) { n.m = INF; }
  Foreach (n: G.Nodes) {
    Foreach (t: n.Nbrs) { <t.m; t.w> min= <n.v; n>; }
  }
}
%%
0 3
1 3
2 3
v 0 4
v 1 2
v 2 2
=>
node m w
0 2147483647 NIL
1 2147483647 NIL
2 2147483647 NIL
3 2 1
turns 0
~ run - - root=1 --format mtx
Procedure sssp(G: Graph, root: Node, len: E_P<Int>; dist: N_P<Int>) {
  N_P<Int> next;
  N_P<Bool> on;
  Bool fin = False;
  G.dist = (G == root) ? 0 : INF;
  G.next = G.dist;
  G.on = (G == root);
  While (!fin) {
    Foreach (n: G.Nodes) (n.on) {
      Foreach (s: n.Nbrs) {
        Edge e = s.ToEdge();
        s.next min= n.dist + e.len;
      }
    }
    G.on = G.next < G.dist;
    G.dist = G.next;
    fin = !Exist(n: G.Nodes) {n.on};
  }
}
%%
%%MatrixMarket matrix coordinate integer general
% demo
3 3 3
1 2 4
1 3 1
3 2 2
=>
node dist
1 0
2 3
3 1
turns 3
";
