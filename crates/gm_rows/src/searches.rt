//! Searches: levels over cycles, self-loops, parallel edges and nodes that are not reached: programs with the outcomes that the
//! rules of `docs/MEANING.md` give them, worked out by hand.

/// Levels and the two parts of a search.
pub const SEARCHES: &str = "
~ levels: run - - s=1
Procedure p(G: Graph, s: Node; d: N_P<Int>) { G.d = -1; s.d = 0; InBFS (v: G.Nodes From s) (v != s) { v.d = Min(w: v.UpNbrs) {w.d} + 1; } }
%%
1 2
2 3
3 1
3 3
3 4
5 1
1 4
=>
node d
1 0
2 1
3 2
4 1
5 -1
turns 3
~ level_widths: run - - s=1
Procedure p(G: Graph, s: Node; a, b: Int) { Int k; InBFS (v: G.Nodes From s) { a += 1; k += 1; } InReverse { b += k; } }
%%
1 2
1 3
2 4
3 4
4 1
=>
a = 4
b = 16
turns 6
~ down_and_up: run - - s=1
Procedure p(G: Graph, s: Node; u, d: N_P<Int>) { InBFS (v: G.Nodes From s) { v.u = Count(w: v.UpNbrs); v.d = Count(w: v.DownNbrs); } }
%%
1 2
1 2
1 3
2 3
2 4
3 4
4 4
=>
node u d
1 0 3
2 2 1
3 1 1
4 2 0
turns 3
~ reverse_alone_filtered: run - - s=1
Procedure p(G: Graph, s: Node; c: N_P<Int>) { InBFS (v: G.Nodes From s) (False) { v.c = 9; } InReverse (v != s) { v.c = 1 + Sum(w: v.DownNbrs) {w.c}; } }
%%
1 2
2 3
2 4
=>
node c
1 0
2 3
3 1
4 1
turns 6
~ search_of_one: run - - s=2
Procedure p(G: Graph, s: Node; c: N_P<Int>) { InBFS (v: G.Nodes From s) { v.c = 1; } }
%%
1 2
=>
node c
1 0
2 1
turns 1
~ search_faults_by_level: run - - s=1
Procedure p(G: Graph, s: Node, v: N_P<Int>; c: N_P<Int>) { InBFS (n: G.Nodes From s) { n.c = 6 / n.v; } }
%%
1 2
v 1 3
=>
fault DivideByZero at 1:96
~ search_in_a_while: run - - s=2
Procedure p(G: Graph, s: Node; k: Int) { While (k < 4) { InBFS (v: G.Nodes From s) { k += 1; } } }
%%
1 2
2 3
=>
k = 4
turns 6
";

/// Roots, neighbours by level, filters and scalars.
pub const MORE_SEARCHES: &str = "
~ root_behind_a_semicolon: run - - s=2
Procedure p(G: Graph, s: Node; c: N_P<Int>) { Node r = s; InBFS (v: G.Nodes; r) { v.c = 1 + v.Degree(); } }
%%
1 2
2 3
=>
node c
1 0
2 2
3 1
turns 2
~ pushed_down: run - - s=1
Procedure p(G: Graph, s: Node; c: N_P<Int>) { s.c = 1; InBFS (v: G.Nodes From s) { Foreach (t: v.DownNbrs) { t.c += 1; } } }
%%
1 2
1 3
2 4
3 4
3 4
4 1
4 4
4 2
=>
node c
1 1
2 1
3 1
4 3
turns 3
~ pushed_back: run - - s=1
Procedure p(G: Graph, s: Node; c: N_P<Int>) { InBFS (v: G.Nodes From s) { ; } InReverse { Foreach (t: v.UpNbrs) { t.c += 1 + v.OutDegree(); } } }
%%
1 2
1 3
2 4
3 4
4 1
5 1
=>
node c
1 4
2 2
3 2
4 0
5 0
turns 6
~ levels_and_plain_neighbours: run - - s=1
Procedure p(G: Graph, s: Node; a, b, c: N_P<Int>) { InBFS (v: G.Nodes From s) { v.a = Count(t: v.Nbrs); v.b = Count(t: v.DownNbrs) + 10 * Count(t: v.UpNbrs); v.c = Count(t: v.InNbrs); } }
%%
1 2
2 3
3 1
2 2
1 3
4 2
=>
node a b c
1 2 2 1
2 2 10 3
3 1 10 2
4 0 0 0
turns 2
~ cycle_of_three: run - - s=3
Procedure p(G: Graph, s: Node; d: N_P<Int>) { InBFS (v: G.Nodes From s) (v != s) { v.d = 1 + Max(t: v.UpNbrs) {t.d}; } InReverse { v.d = v.d * 10; } }
%%
1 2
2 3
3 1
=>
node d
1 10
2 20
3 0
turns 6
~ root_of_a_for: run - -
Procedure p(G: Graph; c: N_P<Int>) { For (r: G.Nodes) { InBFS (v: G.Nodes From r) { v.c += 1; } } }
%%
1 2
2 3
=>
node c
1 1
2 2
3 3
turns 9
~ filters_of_both_parts: run - - s=1
Procedure p(G: Graph, s: Node, v: N_P<Int>; a, b: N_P<Int>) { InBFS (n: G.Nodes From s) (n.v > 0) { n.a = n.v; } InReverse (n.a == 0) { n.b = 1 + Sum(t: n.DownNbrs) {t.a + t.v}; } }
%%
1 2
1 3
2 4
3 4
v 1 0
v 2 5
v 3 0
v 4 7
=>
node a b
1 0 11
2 5 0
3 0 15
4 7 0
turns 6
~ longest_is_not_taken: run - - s=1
Procedure p(G: Graph, s: Node; d: N_P<Int>) { InBFS (v: G.Nodes From s) { v.d = v.InDegree() * 10 + Count(t: v.UpNbrs); } }
%%
1 2
2 3
3 4
1 4
4 5
=>
node d
1 0
2 11
3 11
4 21
5 11
turns 3
~ search_over_one_loop: run - - s=1
Procedure p(G: Graph, s: Node; a: N_P<Int>) { InBFS (v: G.Nodes From s) { v.a = Count(t: v.UpNbrs) * 10 + Count(t: v.DownNbrs); } InReverse { v.a = v.a + 5; } }
%%
1 1
1 1
=>
node a
1 5
turns 2
~ nil_root_of_an_empty_graph: run - - s=NIL
Procedure p(G: Graph, s: Node; a: N_P<Int>) { InBFS (v: G.Nodes From s) { v.a = 1; } }
%%
=>
fault NilNode at 1:70
~ scalar_of_a_search: run - - s=1
Procedure p(G: Graph, s: Node, v: N_P<Int>; a: Int, b: Bool) : Int { a = 2147483640; InBFS (n: G.Nodes From s) { a += n.v; b ||= n.v == 9; } Return a; }
%%
1 2
1 3
2 4
v 1 7
v 2 4
v 3 -5
v 4 1
=>
a = 2147483647
b = False
return = 2147483647
turns 3
~ scalar_past_int_in_a_level: run - - s=1
Procedure p(G: Graph, s: Node, v: N_P<Int>; a: Int) { a = 2147483640; InBFS (n: G.Nodes From s) { a += n.v; } }
%%
1 2
2 3
v 1 7
v 2 1
v 3 -5
=>
fault Overflow at 1:101
~ pulled_up: run - - s=1
Procedure p(G: Graph, s: Node; d: N_P<Int>) { InBFS (v: G.Nodes From s) (v != s) { Int most; Foreach (t: v.UpNbrs) { most max= t.d; } v.d = most + 1; } }
%%
1 2
2 3
1 3
3 4
=>
node d
1 0
2 1
3 1
4 2
turns 3
~ edge_values_on_the_way_down: run - - s=1
Procedure p(G: Graph, s: Node, w: E_P<Int>; d: N_P<Int>) { InBFS (v: G.Nodes From s) { Foreach (t: v.DownNbrs) { Edge e = t.ToEdge(); t.d max= e.w; } } }
%%
1 2 5
2 3 6
1 3 7
3 4 8
4 4 9
2 1 9
=>
node d
1 0
2 5
3 7
4 8
turns 3
";
