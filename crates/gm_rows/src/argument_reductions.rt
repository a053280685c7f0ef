//! Argument reductions, which keep what belongs to a least or greatest value: programs with the outcomes that the rules
//! of `docs/MEANING.md` give them, worked out by hand.

/// Each node is offered the values of its in-neighbours with their names.
pub const OFFERS: &str = "
~ least_with_its_node: run - -
Procedure best(G: Graph, v: N_P<Int>; m: N_P<Int>, w: N_P<Node>) {
  Foreach (n: G.Nodes) { n.m = INF; }
  Foreach (n: G.Nodes) {
    Foreach (t: n.Nbrs) { <t.m; t.w> min= <n.v; n>; }
  }
}

%%
0 3
1 3
2 3
v 0 4
v 1 2
v 2 2
=>
node m w
0 2147483647 NIL
1 2147483647 NIL
2 2147483647 NIL
3 2 1
turns 0
~ parallel_edges_offer_the_same: run - -
Procedure p(G: Graph, v: N_P<Int>; m: N_P<Int>, w: N_P<Node>) { G.m = INF; Foreach (n: G.Nodes) { Foreach (t: n.Nbrs) { <t.m; t.w> min= <n.v; n>; } } }
%%
1 2
1 2
v 1 4
=>
node m w
1 2147483647 NIL
2 4 1
turns 0
~ nil_is_below_all_nodes: run - - a=2
Procedure p(G: Graph, a: Node; m: N_P<Int>, w: N_P<Node>) { G.m = INF; Foreach (n: G.Nodes) { Foreach (t: n.Nbrs) { <t.m; t.w> min= <1; (n == a ? NIL : n)>; } } }
%%
1 3
2 3
=>
node m w
1 2147483647 NIL
2 2147483647 NIL
3 1 NIL
turns 0
~ greatest_with_the_least_rest: run - -
Procedure p(G: Graph, v: N_P<Int>; m: N_P<Int>, w: N_P<Node>) { Foreach (n: G.Nodes) { Foreach (t: n.Nbrs) { <t.m; t.w> max= <n.v; n>; } } }
%%
1 4
2 4
3 4
v 1 3
v 2 5
v 3 5
=>
node m w
1 0 NIL
2 0 NIL
3 0 NIL
4 5 2
turns 0
~ what_is_held_takes_part: run - -
Procedure p(G: Graph, v: N_P<Int>; m: N_P<Int>, w: N_P<Node>) { G.m = 5; Foreach (n: G.Nodes) { Foreach (t: n.Nbrs) { <t.m; t.w> max= <n.v; n>; } } }
%%
1 4
2 4
3 4
v 1 3
v 2 5
v 3 5
=>
node m w
1 5 NIL
2 5 NIL
3 5 NIL
4 5 NIL
turns 0
~ false_is_below_true: run - -
Procedure p(G: Graph, v: N_P<Int>; m: N_P<Int>, f: N_P<Bool>) { G.m = INF; G.f = True; Foreach (n: G.Nodes) { Foreach (t: n.Nbrs) { <t.m; t.f> min= <1; (n.v > 3)>; } } }
%%
1 3
2 3
v 1 9
v 2 1
=>
node m f
1 2147483647 True
2 2147483647 True
3 1 False
turns 0
~ three_entries: run - -
Procedure p(G: Graph, v: N_P<Int>; a, b: N_P<Int>, c: N_P<Node>) { G.a = INF; Foreach (n: G.Nodes) { Foreach (t: n.Nbrs) { <t.a; t.b, t.c> min= <1; n.v, n>; } } }
%%
1 4
2 4
3 4
v 1 5
v 2 3
v 3 3
=>
node a b c
1 2147483647 0 NIL
2 2147483647 0 NIL
3 2147483647 0 NIL
4 1 3 2
turns 0
~ long_lengths: run - -
Procedure p(G: Graph, v: N_P<Long>; m: N_P<Long>, w: N_P<Node>) { G.m = INF; Foreach (n: G.Nodes) { Foreach (t: n.Nbrs) { <t.m; t.w> min= <n.v; n>; } } }
%%
1 2
v 1 9000000000
=>
node m w
1 9223372036854775807 NIL
2 9000000000 1
turns 0
~ two_statements_at_one_place: run - -
Procedure p(G: Graph, v: N_P<Int>; m: N_P<Int>, w: N_P<Node>) { G.m = INF; Foreach (n: G.Nodes) { Foreach (t: n.Nbrs) { <t.m; t.w> min= <n.v; n>; <t.m; t.w> min= <n.v - 1; NIL>; } } }
%%
1 2
v 1 4
=>
node m w
1 2147483647 NIL
2 3 NIL
turns 0
";

/// When they take effect, and through what.
pub const EFFECTS: &str = "
~ with_the_inner_loop: run - -
Procedure p(G: Graph, v: N_P<Int>; m: N_P<Int>, w: N_P<Node>, z: N_P<Int>) { Foreach (n: G.Nodes) { n.m = INF; Foreach (t: n.InNbrs) { <n.m; n.w> min= <t.v; t>; } n.z = n.m - 1; } }
%%
1 3
2 3
v 1 6
v 2 2
=>
node m w z
1 2147483647 NIL 2147483646
2 2147483647 NIL 2147483646
3 2 2 1
turns 0
~ at_once_in_an_outer_body: run - -
Procedure p(G: Graph, v: N_P<Int>; m, k, z: N_P<Int>) { Foreach (n: G.Nodes) { <n.m; n.k> min= <n.v; 7>; n.z = n.m + n.k; } }
%%
v 1 -3
v 2 0
v 3 4
=>
node m k z
1 -3 7 4
2 0 0 0
3 0 0 0
turns 0
~ at_once_in_a_phase: run - -
Procedure p(G: Graph; x, y, a, b: Int) { x = 5; y = 1; <x; y> min= <5; 0>; a = 10 * x + y; <x; y> max= <5; 3>; b = 10 * x + y; <x; y> max= <6; 9>; }
%%
1 2
=>
x = 6
y = 9
a = 50
b = 50
turns 0
~ through_a_node_in_a_phase: run - - s=2
Procedure p(G: Graph, s: Node; m: N_P<Int>, w: N_P<Node>) { s.m = 4; <s.m; s.w> min= <3; s>; }
%%
1 2
=>
node m w
1 0 NIL
2 3 2
turns 0
~ through_a_node_in_a_loop: run - - s=2
Procedure p(G: Graph, s: Node, v: N_P<Int>; m: N_P<Int>, w: N_P<Node>) { G.m = INF; Foreach (n: G.Nodes) { <s.m; s.w> min= <n.v; n>; } }
%%
1 2
v 1 4
v 2 9
=>
node m w
1 2147483647 NIL
2 4 1
turns 0
~ scalars_of_the_procedure: run - -
Procedure p(G: Graph, v: N_P<Int>; most: Int, who: Node) { most = -1; Foreach (n: G.Nodes) { <most; who> max= <n.v; n>; } }
%%
1 2
2 3
v 1 4
v 2 7
v 3 7
=>
most = 7
who = 2
turns 0
~ locals_of_the_outer_body: run - -
Procedure p(G: Graph, v: N_P<Int>; m: N_P<Int>, w: N_P<Node>) { Foreach (n: G.Nodes) { Int a = INF; Node b; Foreach (t: n.Nbrs) { <a; b> min= <t.v; t>; } n.m = a; n.w = b; } }
%%
1 2
1 3
v 2 8
v 3 5
=>
node m w
1 5 3
2 2147483647 NIL
3 2147483647 NIL
turns 0
~ locals_of_the_inner_body: run - -
Procedure p(G: Graph, v: N_P<Int>; s: N_P<Int>) { Foreach (n: G.Nodes) { Foreach (t: n.Nbrs) { Int c = 5; Int d = 0; <c; d> min= <t.v; 1>; n.s += 10 * c + d; } } }
%%
1 2
1 3
v 2 3
v 3 9
=>
node s
1 81
2 0
3 0
turns 0
~ own_and_offered_ones_end_together: run - -
Procedure p(G: Graph, v: N_P<Int>; m: N_P<Int>, w: N_P<Node>) { G.m = INF; Foreach (n: G.Nodes) { Foreach (t: n.Nbrs) { <n.m; n.w> min= <n.v; n>; <t.m; t.w> min= <n.v + 1; n>; } } }
%%
1 2
2 1
v 1 3
v 2 9
=>
node m w
1 3 1
2 4 1
turns 0
";

/// Faults on the way to a tuple.
pub const FAULTS: &str = "
~ no_node_before_the_entries: run - -
Procedure p(G: Graph; m, k: N_P<Int>) {
  Node s;
  Int z = 0;
  <s.m; s.k> min= <1 / z; 2>;
}
%%
1 2
=>
fault NilNode at 4:4
~ a_later_entry: run - -
Procedure p(G: Graph, v: N_P<Int>; m, k: N_P<Int>) {
  Foreach (n: G.Nodes) {
    Foreach (t: n.Nbrs) {
      <t.m; t.k> max= <1; 6 / n.v>;
    }
  }
}
%%
1 2
=>
fault DivideByZero at 4:29
~ the_entries_in_their_order: run - -
Procedure p(G: Graph, v: N_P<Int>; m, k: N_P<Int>) {
  Foreach (n: G.Nodes) {
    Foreach (t: n.Nbrs) {
      <t.m; t.k> max= <n.v + 1; 6 / (n.v - n.v)>;
    }
  }
}
%%
1 2
v 1 2147483647
=>
fault Overflow at 4:28
";
