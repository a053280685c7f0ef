//! The programs of the folder `examples` with their graphs, words and what is written of them. `scripts/examples --tests`
//! writes this file. Tests of the program and of the compiler read them.
#![tactic(auto)]

// The first line of a row has an example's name and the words for its arguments. Then come its text, the line that parts
// it from its graph, its graph and what is written. (One function alone names the text, since each that does costs its
// proof the length of it.)
const EXAMPLES: &str = "
~ bipartite: root=0
// Whether what is reached from the root falls into two sides with no edge inside a side. The sides are 0, at even
// distance from the root, and 1; nodes that are not reached have -1. clashes counts the edges inside a side. The graph
// is to have each link in both directions.
//
//     gm run examples/bipartite.gm examples/bipartite.graph root=0
Procedure bipartite(G: Graph, root: Node; side: N_P<Int>, clashes: Int): Bool {
  G.side = G == root ? 0 : -1;
  InBFS (n: G.Nodes From root) (n != root) {
    n.side = 1 - Min(t: n.UpNbrs) {t.side};
  }
  clashes = Sum(n: G.Nodes) (n.side >= 0) {Count(t: n.Nbrs) {t.side == n.side}};
  Return clashes == 0;
}
%%
# A ring of six nodes and a link out of it, each link in both directions.
0 1
1 0
1 2
2 1
2 3
3 2
3 4
4 3
4 5
5 4
5 0
0 5
3 6
6 3
=>
clashes = 0
return = True
node side
0 0
1 1
2 0
3 1
4 0
5 1
6 0
turns 5
~ components:
// The weakly connected components: nodes that edges join, whichever way these lead, have one component. It is the place
// of the component's first node among all nodes, from 0. count is how many components there are.
//
//     gm run examples/components.gm examples/components.graph
Procedure components(G: Graph; component: N_P<Int>, count: Int) {
  N_P<Int> own;
  N_P<Int> least;
  Bool more = True;
  Int next = 0;
  For (n: G.Nodes) {
    n.own = next;
    next++;
  }
  G.component = G.own;
  While (more) {
    G.least = G.component;
    Foreach (n: G.Nodes) {
      Foreach (t: n.Nbrs) {
        t.least min= n.component;
      }
      Foreach (t: n.InNbrs) {
        t.least min= n.component;
      }
    }
    more = Exist(n: G.Nodes) {n.least < n.component};
    G.component = G.least;
  }
  count = Count(n: G.Nodes) {n.component == n.own};
}
%%
# An edge a line.
0 1
0 2
1 2
1 3
2 3
3 0
3 4
4 5
5 6
6 4
7 8
8 7
9 9
=>
count = 3
node component
0 0
1 0
2 0
3 0
4 0
5 0
6 0
7 7
8 7
9 9
turns 14
~ conductance:
// How much a set of nodes leaks: inner counts the edges that begin in the set, outer those that begin outside, and cut
// those that leave the set. thousandths is cut in thousandths of inner or outer, whichever is less.
//
//     gm run examples/conductance.gm examples/conductance.graph
Procedure conductance(G: Graph, member: N_P<Bool>; inner, outer, cut, thousandths: Int) {
  inner = Sum(n: G.Nodes) (n.member) {n.Degree()};
  outer = Sum(n: G.Nodes) (!n.member) {n.Degree()};
  cut = Sum(n: G.Nodes) (n.member) {Count(t: n.Nbrs) {!t.member}};
  Int fewer = inner < outer ? inner : outer;
  thousandths = fewer == 0 ? 0 : 1000 * cut / fewer;
}
%%
# The set of nodes, then the edges.
v 0 1
v 1 1
v 2 1
v 3 1
v 4 0
v 5 0
v 6 0
0 1
1 0
1 2
2 1
2 3
3 2
3 0
0 3
3 4
4 3
4 5
5 6
6 4
6 5
5 1
=>
inner = 9
outer = 6
cut = 1
thousandths = 166
turns 0
~ degrees:
// How the degrees are spread: how many nodes there are to which 0, 1, 2 and more edges lead, and from which; the
// greatest degrees, and the sums of the squares of the degrees.
//
//     gm run examples/degrees.gm examples/degrees.graph
Procedure degrees(G: Graph; in_0, in_1, in_2, in_more, out_0, out_1, out_2, out_more, most_in, most_out: Int,
                  in_squares, out_squares: Long) {
  in_0 = Count(n: G.Nodes) {n.InDegree() == 0};
  in_1 = Count(n: G.Nodes) {n.InDegree() == 1};
  in_2 = Count(n: G.Nodes) {n.InDegree() == 2};
  in_more = Count(n: G.Nodes) {n.InDegree() > 2};
  out_0 = Count(n: G.Nodes) {n.OutDegree() == 0};
  out_1 = Count(n: G.Nodes) {n.OutDegree() == 1};
  out_2 = Count(n: G.Nodes) {n.OutDegree() == 2};
  out_more = Count(n: G.Nodes) {n.OutDegree() > 2};
  most_in = Max(n: G.Nodes) {n.InDegree()};
  most_out = Max(n: G.Nodes) {n.OutDegree()};
  in_squares = Sum(n: G.Nodes) {(Long) n.InDegree() * n.InDegree()};
  out_squares = Sum(n: G.Nodes) {(Long) n.OutDegree() * n.OutDegree()};
}
%%
# Node 20 has no edge; node 3 has one to itself, and there are two from 5 to 3.
v 20
5 3
5 3
3 3
5 8
8 3
8 13
3 5
=>
in_0 = 1
in_1 = 3
in_2 = 0
in_more = 1
out_0 = 2
out_1 = 0
out_2 = 2
out_more = 1
most_in = 4
most_out = 3
in_squares = 19
out_squares = 17
turns 0
~ dependents: root=0
// How many shortest walks lead from the root to each node, and how many walks of at least one edge lead on from it,
// each edge one step farther from the root. The first are summed outwards by distance, the second back from the
// farthest nodes.
//
//     gm run examples/dependents.gm examples/dependents.graph root=0
Procedure dependents(G: Graph, root: Node; walks: N_P<Long>, below: N_P<Long>) {
  G.walks = G == root ? 1 : 0;
  G.below = 0;
  InBFS (n: G.Nodes From root) (n != root) {
    n.walks = Sum(t: n.UpNbrs) {t.walks};
  } InReverse {
    n.below = Sum(t: n.DownNbrs) {t.below + 1};
  }
}
%%
# An edge a line.
0 1
0 2
0 3
1 2
1 3
2 3
3 4
4 5
5 6
6 4
6 7
1 0
=>
node walks below
0 1 7
1 1 0
2 1 0
3 1 4
4 1 3
5 1 2
6 1 1
7 1 0
turns 12
~ hops: root=0
// How many edges the shortest walk from the root to each node has, and -1 where no walk leads; how many nodes are
// reached, and how many edges away the farthest is.
//
//     gm run examples/hops.gm examples/hops.graph root=0
Procedure hops(G: Graph, root: Node; hops: N_P<Int>, reached: Int, farthest: Int) {
  G.hops = G == root ? 0 : -1;
  InBFS (n: G.Nodes From root) (n != root) {
    n.hops = Min(t: n.UpNbrs) {t.hops} + 1;
  }
  reached = Count(n: G.Nodes) {n.hops >= 0};
  farthest = Max(n: G.Nodes) {n.hops};
}
%%
# An edge a line.
0 1
0 2
1 2
1 3
2 3
3 0
3 4
4 5
5 6
6 4
7 8
8 7
9 9
=>
reached = 7
farthest = 5
node hops
0 0
1 1
2 1
3 2
4 3
5 4
6 5
7 -1
8 -1
9 -1
turns 6
~ k_core: k=3
// The k-core: what is left of the graph when nodes with fewer than k edges, to or from nodes that are left, are taken
// away until there is none. inside says which nodes are left, and size how many.
//
//     gm run examples/k_core.gm examples/k_core.graph k=3
Procedure k_core(G: Graph, k: Int; inside: N_P<Bool>, size: Int) {
  N_P<Int> links;
  Bool more = True;
  G.inside = True;
  While (more) {
    Foreach (n: G.Nodes) {
      n.links = Count(t: n.Nbrs) {t.inside} + Count(t: n.InNbrs) {t.inside};
    }
    more = Exist(n: G.Nodes) {n.inside && n.links < k};
    Foreach (n: G.Nodes) (n.links < k) {
      n.inside = False;
    }
  }
  size = Count(n: G.Nodes) {n.inside};
}
%%
# An edge a line.
0 1
0 2
0 3
1 2
1 3
2 3
3 4
4 5
5 6
6 4
6 7
1 0
=>
size = 4
node inside
0 True
1 True
2 True
3 True
4 False
5 False
6 False
7 False
turns 3
~ ranking: rounds=5
// A ranking in whole points. Each node begins with 1,000,000. In each round it gives all its points away in equal
// shares along its edges, and then has 150,000 and 85 hundredths of what it was given. Shares and hundredths are cut to
// whole points. total is the sum of all points.
//
//     gm run examples/ranking.gm examples/ranking.graph rounds=5
Procedure ranking(G: Graph, rounds: Int; points: N_P<Long>, total: Long) {
  N_P<Long> share;
  Int round = 0;
  G.points = 1000000;
  While (round < rounds) {
    Foreach (n: G.Nodes) {
      n.share = n.Degree() == 0 ? 0 : n.points / n.Degree();
    }
    Foreach (n: G.Nodes) {
      n.points = 150000 + 85 * Sum(t: n.InNbrs) {t.share} / 100;
    }
    round++;
  }
  total = Sum(n: G.Nodes) {n.points};
}
%%
# An edge a line.
0 1
0 2
1 2
1 3
2 3
3 0
3 4
4 5
5 6
6 4
7 8
8 7
9 9
=>
total = 9999989
node points
0 529597
1 369186
2 555554
3 879305
4 1751525
5 1532723
6 1382099
7 1000000
8 1000000
9 1000000
turns 5
~ routes: root=0
// A shortest path from the root to each node: its length, INF (2147483647) where none leads, and the node before on it,
// NIL at the root and where none leads. Of several shortest paths it is the one whose node before has the least number.
// Each edge has a length above 0.
//
// The path stands in `via` from its end: with the graph beside this file 7 is reached from 4, 4 from 1 and 1 from the
// root, so the path to 7 is 0, 1, 4, 7, of length 21. (The way 0, 2, 5, 4 to 4 is as long as 0, 1, 4.)
//
//     gm run examples/routes.gm examples/routes.graph root=0
Procedure routes(G: Graph, root: Node, length: E_P<Int>; distance: N_P<Int>, via: N_P<Node>) {
  N_P<Bool> reached;
  N_P<Int> offer;
  N_P<Node> source;
  Bool more = True;
  G.distance = G == root ? 0 : INF;
  G.offer = G.distance;
  G.reached = G == root;
  While (more) {
    Foreach (n: G.Nodes) (n.reached) {
      Foreach (t: n.Nbrs) {
        Edge e = t.ToEdge();
        <t.offer; t.source> min= <n.distance + e.length; n>;
      }
    }
    more = False;
    Foreach (n: G.Nodes) {
      n.reached = n.offer < n.distance;
      <n.distance; n.via> min= <n.offer; n.source>;
      more ||= n.reached;
    }
  }
}
%%
# From, to, length.
0 1 7
0 2 9
0 5 14
1 2 10
1 3 15
1 4 13
2 3 11
2 5 2
3 4 6
5 4 9
6 0 3
4 7 1
7 4 1
=>
node distance via
0 0 NIL
1 7 0
2 9 0
3 20 2
4 20 1
5 11 2
6 2147483647 NIL
7 21 4
turns 4
~ shortest_paths: root=0
// The length of a shortest path from the root to each node, and INF (2147483647) where no path leads. Each edge has a
// length.
//
//     gm run examples/shortest_paths.gm examples/shortest_paths.graph root=0
Procedure shortest_paths(G: Graph, root: Node, length: E_P<Int>; distance: N_P<Int>) {
  N_P<Bool> reached;
  N_P<Int> offer;
  Bool more = True;
  G.distance = G == root ? 0 : INF;
  G.offer = G.distance;
  G.reached = G == root;
  While (more) {
    Foreach (n: G.Nodes) (n.reached) {
      Foreach (t: n.Nbrs) {
        Edge e = t.ToEdge();
        t.offer min= n.distance + e.length;
      }
    }
    more = False;
    Foreach (n: G.Nodes) {
      n.reached = n.offer < n.distance;
      n.distance min= n.offer;
      more ||= n.reached;
    }
  }
}
%%
# From, to, length.
0 1 7
0 2 9
0 5 14
1 2 10
1 3 15
2 3 11
2 5 2
3 4 6
5 4 9
6 0 3
4 7 1
7 4 1
=>
node distance
0 0
1 7
2 9
3 20
4 20
5 11
6 2147483647
7 21
turns 5
~ spread_labels: rounds=2
// Labels that spread for a number of rounds: in each round a node takes the greatest label of the nodes that lead to
// it, where that is greater than its own. All nodes read the labels of the round before. changed counts the nodes that
// took another label in the last round.
//
//     gm run examples/spread_labels.gm examples/spread_labels.graph rounds=2
Procedure spread_labels(G: Graph, start: N_P<Int>, rounds: Int; label: N_P<Int>, changed: Int) {
  Int round = 0;
  G.label = G.start;
  While (round < rounds) {
    changed = 0;
    Foreach (n: G.Nodes) {
      Int most = Max(t: n.InNbrs) {t.label};
      If (most > n.label) {
        n.label <= most;
        changed += 1;
      }
    }
    round++;
  }
}
%%
# The first labels, then the edges.
v 0 10
v 1 3
v 2 8
v 3 1
v 4 20
v 5 0
0 1
1 2
2 3
3 4
4 5
5 0
2 5
=>
changed = 2
node label
0 20
1 10
2 10
3 8
4 20
5 20
turns 2
~ triangles:
// The triangles: for each node a, how many edges lead from one of the nodes that a leads to, to another of them; and
// how many there are in all. Edges from a to b and to c and one from b to c count once, at a.
//
//     gm run examples/triangles.gm examples/triangles.graph
Procedure triangles(G: Graph; at: N_P<Int>, all: Int) {
  N_P<Bool> near;
  For (a: G.Nodes) {
    Foreach (n: G.Nodes) {
      n.near = Exist(t: n.InNbrs) {t == a};
    }
    a.at = Sum(n: G.Nodes) (n.near) {Count(t: n.Nbrs) {t.near && t != n}};
  }
  all = Sum(n: G.Nodes) {n.at};
}
%%
# An edge a line.
0 1
0 2
0 3
1 2
1 3
2 3
3 4
4 5
5 6
6 4
6 7
1 0
=>
all = 6
node at
0 3
1 3
2 0
3 0
4 0
5 0
6 0
7 0
turns 8
~ two_hops: root=0
// The nodes that are at most two edges away from the root, the root itself among them, and how many they are.
//
//     gm run examples/two_hops.gm examples/two_hops.graph root=0
Procedure two_hops(G: Graph, root: Node; near: N_P<Bool>, count: Int) {
  N_P<Bool> before;
  Int hop = 0;
  G.near = G == root;
  While (hop < 2) {
    G.before = G.near;
    Foreach (n: G.Nodes) (n.before) {
      Foreach (t: n.Nbrs) {
        t.near ||= True;
      }
    }
    hop++;
  }
  count = Count(n: G.Nodes) {n.near};
}
%%
# An edge a line.
0 1
0 2
1 2
1 3
2 3
3 0
3 4
4 5
5 6
6 4
7 8
8 7
9 9
=>
count = 4
node near
0 True
1 True
2 True
3 True
4 False
5 False
6 False
7 False
8 False
9 False
turns 2
";

/// The table of the examples.
pub fn examples() -> &'static str {
    EXAMPLES
}

/// How many they are.
pub const COUNT: usize = 13;
