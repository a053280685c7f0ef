//! Totals that fit in the end, and totals that do not: programs with the outcomes that the
//! rules of `docs/MEANING.md` give them, worked out by hand.

/// Contributions to a target, statement by statement.
pub const TOTALS: &str = "
~ push_on_the_way: run - -
Procedure p(G: Graph, v: N_P<Int>; s: N_P<Int>) { Foreach (n: G.Nodes) { Foreach (t: n.Nbrs) { t.s += n.v; } } }
%%
1 4
2 4
3 4
v 1 2147483647
v 2 1
v 3 -1
=>
node s
1 0
2 0
3 0
4 2147483647
turns 0
~ push_in_the_end: run - -
Procedure p(G: Graph, v: N_P<Int>; s: N_P<Int>) { Foreach (n: G.Nodes) { Foreach (t: n.Nbrs) { t.s += n.v; } } }
%%
1 4
2 4
3 4
v 1 2147483647
v 2 2
v 3 -1
=>
fault Overflow at 1:100
~ push_onto_what_was: run - -
Procedure p(G: Graph, v: N_P<Int>; s: N_P<Int>) { G.s = 2147483647; Foreach (n: G.Nodes) { Foreach (t: n.Nbrs) { t.s += n.v; } } }
%%
1 4
v 1 1
=>
fault Overflow at 1:118
~ push_onto_what_was_written: run - -
Procedure p(G: Graph, v: N_P<Int>; s: N_P<Int>) { G.s = 2147483647; Foreach (n: G.Nodes) { Foreach (t: n.Nbrs) { t.s += n.v; } } }
%%
1 4
2 4
v 1 1
v 2 -5
=>
node s
1 2147483647
2 2147483647
4 2147483643
turns 0
~ pull_on_the_way: run - -
Procedure p(G: Graph, v: N_P<Int>; s: N_P<Int>) { Foreach (n: G.Nodes) { Foreach (t: n.Nbrs) { n.s += t.v; } } }
%%
4 1
4 2
4 3
v 1 2147483647
v 2 1
v 3 -1
=>
node s
1 0
2 0
3 0
4 2147483647
turns 0
~ local_in_the_end: run - -
Procedure p(G: Graph, v: N_P<Int>; s: N_P<Int>) { Foreach (n: G.Nodes) { Int d = 2147483646; Foreach (t: n.Nbrs) { d += 1; } n.s = d; } }
%%
1 2
1 3
=>
fault Overflow at 1:118
~ local_at_the_greatest: run - -
Procedure p(G: Graph, v: N_P<Int>; s: N_P<Int>) { Foreach (n: G.Nodes) { Int d = 2147483645; Foreach (t: n.Nbrs) { d += 1; } n.s = d; } }
%%
1 2
1 3
=>
node s
1 2147483647
2 2147483645
3 2147483645
turns 0
~ inner_local_at_once: run - -
Procedure p(G: Graph, v: N_P<Int>; s: N_P<Int>) { Foreach (n: G.Nodes) { Foreach (t: n.Nbrs) { Int d = t.v; d += 1; d += -1; n.s += d; } } }
%%
1 2
v 2 2147483647
=>
fault Overflow at 1:111
~ product_on_the_way: run - -
Procedure p(G: Graph, v: N_P<Int>; s: N_P<Int>) { G.s = 3; Foreach (n: G.Nodes) { Foreach (t: n.Nbrs) { t.s *= n.v; } } }
%%
1 4
2 4
3 4
v 1 2147483647
v 2 2147483647
=>
node s
1 3
2 3
3 3
4 0
turns 0
~ product_in_the_end: run - -
Procedure p(G: Graph, v: N_P<Int>; s: N_P<Int>) { G.s = 3; Foreach (n: G.Nodes) { Foreach (t: n.Nbrs) { t.s *= n.v; } } }
%%
1 4
2 4
v 1 2147483647
v 2 -1
=>
fault Overflow at 1:109
~ product_of_what_was: run - -
Procedure p(G: Graph, v: N_P<Int>; a, b: Int) { a = 2; b = 0; Foreach (n: G.Nodes) { b *= n.v; a *= n.v; } }
%%
v 1 32768
v 2 -32768
=>
a = -2147483648
b = 0
turns 0
~ long_scalar_of_ints: run - -
Procedure p(G: Graph, v: N_P<Int>; a: Long) { Foreach (n: G.Nodes) { a += n.v; a += n.v; } }
%%
v 1 2147483647
v 2 2147483647
=>
a = 8589934588
turns 0
~ counted_up_in_parallel: run - -
Procedure p(G: Graph; a: Int) { a = 2147483645; Foreach (n: G.Nodes) { a++; } }
%%
1 2
3 3
=>
fault Overflow at 1:73
~ counted_up_at_once: run - -
Procedure p(G: Graph, v: N_P<Int>; s: N_P<Int>) { Foreach (n: G.Nodes) { n.s = n.v; n.s++; n.s = 0; } }
%%
1 2
v 2 2147483647
=>
fault Overflow at 1:88
~ through_a_node_in_the_end: run - - s=2
Procedure p(G: Graph, s: Node, v: N_P<Int>; q: N_P<Int>) { Foreach (n: G.Nodes) { s.q += n.v; } }
%%
1 2
v 1 2147483647
v 2 1
=>
fault Overflow at 1:87
~ least_needs_no_room: run - -
Procedure p(G: Graph, v: N_P<Int>; s: N_P<Int>, a, b: Int) { G.s = -INF; b = INF; Foreach (n: G.Nodes) { a min= n.v; b min= n.v; Foreach (t: n.Nbrs) { t.s max= n.v; t.s max= -INF; } } }
%%
1 2
2 1
v 1 2147483647
v 2 -2147483648
=>
a = -2147483648
b = -2147483648
node s
1 -2147483648
2 2147483647
turns 0
~ taken_by_statements: run - -
Procedure p(G: Graph, v: N_P<Int>; s: N_P<Int>) { Foreach (n: G.Nodes) { Foreach (t: n.Nbrs) { t.s += 0 - n.v; t.s += n.v; t.s += n.v; } } }
%%
1 3
2 3
v 1 2147483647
v 2 1
=>
fault Overflow at 1:128
";
