//! Worked programs: what is written of them over their graphs is written of their images.

/// Worked programs of the language: the words of a run, the program, the graph and what is written.
pub const PROGRAMS: &str = "
~
Procedure add(G: Graph; p: N_P<Int>) {
  Foreach (n: G.Nodes) { n.p = n.p + 7; }
}
%%
0 1
1 2
=>
node p
0 7
1 7
2 7
turns 0
~ s=NIL
Procedure reach(G: Graph, s: Node; seen: N_P<Bool>) {
  InBFS (v: G.Nodes From s) {
    v.seen = True;
  }
}
%%
0 1
2 3
=>
fault NilNode at 2:26
~ s=NIL
Procedure depths(G: Graph, s: Node; depth, last: N_P<Int>) {
  s.depth = 1;
  InBFS (v: G.Nodes From s) (v != s) {
    v.depth = Max(w: v.UpNbrs) {w.depth + 1};
  } InReverse {
    v.last = Count(w: v.DownNbrs) (w.last == 0);
  }
}
%%
0 1
0 2
1 3
2 3
=>
fault NilNode at 2:3
~ s=0
Procedure reach(G: Graph, s: Node; seen: N_P<Bool>) {
  InBFS (v: G.Nodes From s) {
    v.seen = True;
  }
}
%%
0 1
2 3
=>
node seen
0 True
1 True
2 False
3 False
turns 2
~ s=0
Procedure depths(G: Graph, s: Node; depth, last: N_P<Int>) {
  s.depth = 1;
  InBFS (v: G.Nodes From s) (v != s) {
    v.depth = Max(w: v.UpNbrs) {w.depth + 1};
  } InReverse {
    v.last = Count(w: v.DownNbrs) (w.last == 0);
  }
}
%%
0 1
0 2
1 3
2 3
=>
node depth last
0 1 0
1 2 1
2 2 1
3 3 0
turns 6
~ root=0
Procedure sssp(G: Graph, root: Node, len: E_P<Int>; dist: N_P<Int>) {
  N_P<Int> next;
  N_P<Bool> on;
  Bool fin = False;
  G.dist = (G == root) ? 0 : INF;
  G.next = G.dist;
  G.on = (G == root);
  While (!fin) {
    Foreach (n: G.Nodes) (n.on) {
      Foreach (s: n.Nbrs) {
        Edge e = s.ToEdge();
        s.next min= n.dist + e.len;
      }
    }
    G.on = G.next < G.dist;
    G.dist = G.next;
    fin = !Exist(n: G.Nodes) {n.on};
  }
}
%%
0 1 4=>
node dist
0 0
1 4
turns 2
~
Procedure shift(G: Graph, v: N_P<Int>; p: N_P<Int>) {
  Foreach (n: G.Nodes) { n.p = n.v; }
  Foreach (n: G.Nodes) { n.p <= Sum(t: n.InNbrs) {t.p} @ n; }
}
%%
0 1
1 2
2 0
v 0 1
v 1 2
v 2 3
=>
node p
0 3
1 1
2 2
turns 0
~
Procedure d(G: Graph; p, q: N_P<Int>) { Foreach (n: G.Nodes) { n.p <= 5; n.q = n.p + 1; } }
%%
0 1
=>
node p q
0 5 1
1 5 1
turns 0
~
Procedure e(G: Graph, v: N_P<Int>, w: E_P<Int>; s: N_P<Int>) {
  Foreach (n: G.Nodes) {
    Foreach (t: n.InNbrs) {
      Edge e1 = t.ToEdge();
        n.s += t.v * e1.w;
    }
  }
}
%%
0 1 3
2 1 4
v 0 2
v 2 5
=>
node s
0 0
1 26
2 0
turns 0
~
Procedure quot(G: Graph, v: N_P<Int>; q: N_P<Int>) {
  Foreach (n: G.Nodes) (n.v > 0) {
    Foreach (t: n.Nbrs) { n.q += 12 / t.v; }
  }
}
%%
0 1
2 3
v 0 0
v 1 0
v 2 1
v 3 4
=>
node q
0 0
1 0
2 3
3 0
turns 0
~
Procedure both(G: Graph, v, w: N_P<Int>; a: N_P<Int>) {
  Foreach (n: G.Nodes) {
    n.a = 6 / n.v + Sum(t: n.Nbrs) {6 / t.w};
  }
}
%%
1 0
v 0 0 0
v 1 1 1
=>
fault DivideByZero at 3:39
~
Procedure two(G: Graph, v: N_P<Int>; a, b: N_P<Int>) {
  Foreach (n: G.Nodes) {
    n.a = 6 / (n.v - 1);
    n.b = 6 / (n.v - 2);
  }
}
%%
v 0 2
v 1 1
=>
fault DivideByZero at 3:13
~
Procedure mix(G: Graph, v: N_P<Int>; a, b, c: N_P<Int>) {
  Foreach (n: G.Nodes) {
    n.c = n.v;
    If (n.c > 1) {
      n.c = 0;
      Foreach (t: n.Nbrs) {
        Int d = t.v - n.v;
        If (d > 0) { n.a += d; }
        t.b += d;
      }
      n.c = n.c + n.a;
    }
  }
}
%%
0 1
0 2
2 2
2 1
v 0 3
v 1 5
v 2 2
=>
node a b c
0 2 0 2
1 0 5 0
2 3 -1 3
turns 0
~
Procedure total(G: Graph, v: N_P<Int>; s: N_P<Int>) {
  Foreach (n: G.Nodes) { n.s = Sum(t: n.InNbrs) {t.v}; }
}
%%
0 1
0 1
1 1
v 0 5
v 1 7
=>
node s
0 0
1 17
turns 0
~
Procedure prod(G: Graph, v: N_P<Int>) : Int { Return Product(n: G.Nodes) {n.v}; }
%%
v 0 2147483647
v 1 2147483647
=>
fault Overflow at 1:54
~
Procedure prod(G: Graph, v: N_P<Int>) : Int { Return Product(n: G.Nodes) {n.v}; }
%%
v 0 2147483647
v 1 2147483647
v 2 0
=>
return = 0
turns 0
~
Procedure back(G: Graph, v: N_P<Int>; s: N_P<Int>) {
  Foreach (n: G.Nodes) {
    Foreach (t: n.InNbrs) { t.s += n.v; }
  }
}
%%
0 1
0 1
1 1
v 0 5
v 1 7
=>
node s
0 14
1 7
turns 0
~
Procedure both(G: Graph, v: N_P<Int>; b: N_P<Int>) {
  G.b = 1;
  Foreach (n: G.Nodes) {
    Foreach (t: n.Nbrs) { t.b += 0 - n.v; n.b += n.v; }
  }
}
%%
0 1
1 0
v 0 2147483647
v 1 2147483647
=>
node b
0 1
1 1
turns 0
~ r=1
Procedure vote(G: Graph, r: Node; c: N_P<Int>) {
  Foreach (n: G.Nodes) { r.c += 1; }
}
%%
0 1
2 1
=>
node c
0 0
1 3
2 0
turns 0
~ r=NIL
Procedure vote(G: Graph, r: Node; c: N_P<Int>) {
  Foreach (n: G.Nodes) { r.c += 1; }
}
%%
0 1
2 1
=>
fault NilNode at 2:26
~ k=9
Procedure scale(G: Graph, v: N_P<Int>, k: Int; p: N_P<Int>) {
  Foreach (n: G.Nodes) { n.p = n.v * 3 - 1; }
}
%%
5 3
v 3 4
=>
node p
3 11
5 -1
turns 0
~
Procedure order(G: Graph, v: N_P<Int>) : Int {
  Int h = 0;
  For (n: G.Nodes) (n.v > 0) { h = h * 10 + n.v; }
  Return h;
}
%%
v 7 1
v 3 2
v 5 0
=>
return = 21
turns 3
~ root=0
Procedure sssp(G: Graph, root: Node, len: E_P<Int>; dist: N_P<Int>) {
  N_P<Int> next;
  N_P<Bool> on;
  Bool fin = False;
  G.dist = (G == root) ? 0 : INF;
  G.next = G.dist;
  G.on = (G == root);
  While (!fin) {
    Foreach (n: G.Nodes) (n.on) {
      Foreach (s: n.Nbrs) {
        Edge e = s.ToEdge();
        s.next min= n.dist + e.len;
      }
    }
    G.on = G.next < G.dist;
    G.dist = G.next;
    fin = !Exist(n: G.Nodes) {n.on};
  }
}
%%
0 1 4
0 2 1
2 1 2
=>
node dist
0 0
1 3
2 1
turns 3
~
Procedure deg(G: Graph; d: N_P<Int>) { Foreach (n: G.Nodes) { n.d = n.OutDegree(); } }
%%
# Directed graph
# FromNodeId\tToNodeId
30\t1412
30\t3352\t99
1412\t30
=>
node d
30 2
1412 1
3352 0
turns 0
~
Procedure tot(G: Graph, v: N_P<Int>) : Int { Return Sum(n: G.Nodes) {n.v}; }
%%
v 0 2147483647
v 1 1
=>
fault Overflow at 1:53
~
Procedure tot(G: Graph, v: N_P<Int>) : Int { Return Sum(n: G.Nodes) {n.v}; }
%%
v 0 2147483647
v 1 2147483647
v 2 -2147483647
=>
return = 2147483647
turns 0
~
Procedure acc(G: Graph, v: N_P<Int>; b: N_P<Int>) {
  Foreach (n: G.Nodes) {
    Foreach (t: n.Nbrs) { t.b += n.v; t.b += 0 - n.v; }
  }
}
%%
0 2
1 2
v 0 2147483647
v 1 1
=>
fault Overflow at 3:31
~
Procedure best(G: Graph, v: N_P<Int>; m: N_P<Int>, w: N_P<Node>) {
  Foreach (n: G.Nodes) { n.m = INF; }
  Foreach (n: G.Nodes) {
    Foreach (t: n.Nbrs) { <t.m; t.w> min= <n.v; n>; }
  }
}
%%
0 3
1 3
2 3
v 0 4
v 1 2
v 2 2
=>
node m w
0 2147483647 NIL
1 2147483647 NIL
2 2147483647 NIL
3 2 1
turns 0
~ root=1 --format mtx
Procedure sssp(G: Graph, root: Node, len: E_P<Int>; dist: N_P<Int>) {
  N_P<Int> next;
  N_P<Bool> on;
  Bool fin = False;
  G.dist = (G == root) ? 0 : INF;
  G.next = G.dist;
  G.on = (G == root);
  While (!fin) {
    Foreach (n: G.Nodes) (n.on) {
      Foreach (s: n.Nbrs) {
        Edge e = s.ToEdge();
        s.next min= n.dist + e.len;
      }
    }
    G.on = G.next < G.dist;
    G.dist = G.next;
    fin = !Exist(n: G.Nodes) {n.on};
  }
}
%%
%%MatrixMarket matrix coordinate integer general
% demo
3 3 3
1 2 4
1 3 1
3 2 2
=>
node dist
1 0
2 3
3 1
turns 3
~
Procedure turns(G: Graph, v: N_P<Int>; k: N_P<Int>) {
  For (r: G.Nodes) { Foreach (n: G.Nodes) { r.k += n.v; } }
}
%%
0 1
v 0 1
v 1 2
=>
node k
0 3
1 3
turns 2
~ r=1
Procedure least(G: Graph, v: N_P<Int>, r: Node; m, q: N_P<Int>) {
  Foreach (n: G.Nodes) { r.m max= n.v; n.q = 6 / n.v; }
}
%%
0 1
v 0 2
v 1 0
=>
fault DivideByZero at 2:48
~ r=1
Procedure most(G: Graph, v: N_P<Int>, r: Node; m, k, q: N_P<Int>) {
  Foreach (n: G.Nodes) { r.m max= n.v; r.k min= 0 - n.v; n.q = 6 / n.v; }
}
%%
0 1
v 0 2
v 1 3
=>
node m k q
0 0 0 3
1 3 -3 2
turns 0
~ r=0
Procedure receive(G: Graph, v: N_P<Int>, r: Node; b, count: N_P<Int>) {
  Foreach (n: G.Nodes) {
    Foreach (t: n.Nbrs) { t.b += n.v; r.count += t.v; }
  }
}
%%
0 1
2 1
1 2
v 0 1
v 1 2
v 2 3
=>
node b count
0 0 7
1 4 0
2 2 0
turns 0
~ r=0
Procedure both(G: Graph, a: N_P<Int>, r: Node; count: N_P<Int>) {
  Foreach (n: G.Nodes) {
    Foreach (t: n.Nbrs) { t.count += 1; r.count += t.a; }
  }
}
%%
0 1
2 1
1 2
1 0
v 0 1
v 1 2
v 2 3
=>
node count
0 9
1 2
2 1
turns 0
~ r=0
Procedure edges(G: Graph, r: Node; count: N_P<Int>) {
  Foreach (n: G.Nodes) { Foreach (t: n.Nbrs) { r.count += 1; } }
}
%%
0 1
2 1
1 2
=>
node count
0 3
1 0
2 0
turns 0
~ r=1
Procedure lead(G: Graph, r: Node; b: N_P<Node>, count: N_P<Int>) {
  Foreach (n: G.Nodes) (n != r) { n.b = r; }
  Foreach (n: G.Nodes) {
    Node v = n.b;
    Foreach (t: n.Nbrs) { v.count += 1; }
  }
}
%%
0 1
2 1
2 0
=>
node b count
0 1 0
1 NIL 3
2 1 0
turns 0
~ r=1
Procedure lead(G: Graph, r: Node; b: N_P<Node>, count: N_P<Int>) {
  Foreach (n: G.Nodes) (n != r) { n.b = r; }
  Foreach (n: G.Nodes) {
    Node v = n.b;
    Foreach (t: n.Nbrs) { v.count += 1; }
  }
}
%%
0 1
1 2
=>
fault NilNode at 5:27
~ r=0
Procedure most(G: Graph, v: N_P<Int>, r: Node; top, sum: N_P<Int>) : Int {
  Int s = 0;
  Foreach (n: G.Nodes) {
    Foreach (t: n.Nbrs) (t != r) { s += n.v; r.top max= n.v; r.sum += n.v; }
  }
  Return s;
}
%%
0 1
2 1
1 2
1 0
v 0 1
v 1 2
v 2 3
=>
return = 6
node top sum
0 3 6
1 0 0
2 0 0
turns 0
~ s=1 --turns=5
Procedure p(G: Graph, s: Node; c: N_P<Int>) {
  InBFS (v: G.Nodes From s) { v.c = 1; } InReverse { v.c = 2; }
}
%%
1 2
2 3
=>
cut after 5 turns
~ --turns=2
Procedure p(G: Graph; s: Int) {
  While (s < 9) { Foreach (n: G.Nodes) { s += 1; } }
}
%%
0 1
2 3
=>
cut after 2 turns
";
