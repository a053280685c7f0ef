//! Parallel loops: own writes, pushes, pulls and what stays at home: programs with the outcomes that the
//! rules of `docs/MEANING.md` give them, worked out by hand.

/// Own writes, filters and contributions to scalars.
pub const OWN: &str = "
~ group_sees_the_store_before: run - -
Procedure p(G: Graph, v: N_P<Int>; p, q: N_P<Int>) { G.p = G.v + 1; G.q = G.p * 2; G.p = G.q; }
%%
1 2
v 1 4
=>
node p q
1 10 10
2 2 2
turns 0
~ group_faults: run - -
Procedure p(G: Graph, v: N_P<Int>; p: N_P<Int>) { G.p = 6 / G.v; }
%%
1 2
v 1 4
=>
fault DivideByZero at 1:59
~ locals_begin_anew: run - -
Procedure p(G: Graph; p: N_P<Int>) { Foreach (n: G.Nodes) { Int d; d = d + 1; d += 10; n.p = d; } }
%%
1 2
=>
node p
1 11
2 11
turns 0
~ own_writes_seen: run - -
Procedure p(G: Graph, v: N_P<Int>; p: N_P<Int>) { Foreach (n: G.Nodes) { n.p = n.v; n.p = n.p * 2; n.p += 1; n.p++; } }
%%
1 2
v 2 5
=>
node p
1 2
2 12
turns 0
~ filter_keeps_what_was: run - -
Procedure p(G: Graph, v: N_P<Int>; p: N_P<Int>) { G.p = 7; Foreach (n: G.Nodes) (n.v > 1) { n.p = n.v; } }
%%
1 2
v 2 5
=>
node p
1 7
2 5
turns 0
~ filter_faults_first: run - -
Procedure p(G: Graph, v: N_P<Int>; p: N_P<Int>) {
  Foreach (n: G.Nodes) (6 / n.v > 1) { n.p = 6 % n.v; }
}
%%
1 2
v 2 5
=>
fault DivideByZero at 2:27
~ scalar_from_a_loop: run - -
Procedure p(G: Graph, v: N_P<Int>; a, b, c: Int, d: Bool) { a = 100; b = 50; c = -9; d = False; Foreach (n: G.Nodes) { a += n.v; b min= n.v; c max= n.v; d ||= n.v == 3; } }
%%
1 2
v 1 3
v 2 4
=>
a = 107
b = 3
c = 4
d = True
turns 0
~ scalar_past_int_in_the_end: run - -
Procedure p(G: Graph, v: N_P<Int>; a: Int) { a = 2147483640; Foreach (n: G.Nodes) { a += n.v; } }
%%
1 2
v 1 3
v 2 5
=>
fault Overflow at 1:87
~ scalar_past_int_on_the_way: run - -
Procedure p(G: Graph, v: N_P<Int>; a: Int) { a = 2147483640; Foreach (n: G.Nodes) { a += n.v; } }
%%
1 2
v 1 30
v 2 -25
=>
a = 2147483645
turns 0
~ statement_by_statement: run - -
Procedure p(G: Graph, v: N_P<Int>; a: Int) { a = 2147483640; Foreach (n: G.Nodes) { a += n.v; a += 0 - n.v; } }
%%
1 2
v 1 30
=>
fault Overflow at 1:87
~ scalar_product: run - -
Procedure p(G: Graph, v: N_P<Int>; a: Int) { a = 2; Foreach (n: G.Nodes) { a *= n.v; } }
%%
1 2
3 3
v 1 2147483647
v 2 2147483647
=>
a = 0
turns 0
";

/// Loops over neighbours, deferred writes and writes through node variables.
pub const NEIGHBOURS: &str = "
~ pushes: run - -
Procedure p(G: Graph, v: N_P<Int>; s: N_P<Int>, m: N_P<Int>, o: N_P<Bool>) { G.m = 99; Foreach (n: G.Nodes) { Foreach (t: n.Nbrs) { t.s += n.v; t.m min= n.v; t.o ||= n.v > 2; } } }
%%
1 2
1 2
1 3
3 3
v 1 2
v 3 4
=>
node s m o
1 0 99 False
2 4 2 False
3 6 2 True
turns 0
~ pushes_backwards: run - -
Procedure p(G: Graph, v: N_P<Int>; s: N_P<Int>) { Foreach (n: G.Nodes) { Foreach (t: n.InNbrs) (t.v < n.v) { t.s += n.v; } } }
%%
1 2
1 3
3 3
3 1
v 1 2
v 2 5
v 3 4
=>
node s
1 9
2 0
3 0
turns 0
~ pulls: run - -
Procedure p(G: Graph, v: N_P<Int>; s, k: N_P<Int>) { Foreach (n: G.Nodes) { Foreach (t: n.InNbrs) { n.s += t.v; } n.k = n.s * 2; } }
%%
1 2
1 2
3 2
3 3
v 1 2
v 3 4
=>
node s k
1 0 0
2 8 16
3 4 8
turns 0
~ home: run - -
Procedure p(G: Graph, v: N_P<Int>; s: N_P<Int>) { Foreach (n: G.Nodes) { Int d = 1; Foreach (t: n.Nbrs) { d += n.v; } n.s = d; } }
%%
1 2
1 2
3 2
v 1 2
v 3 4
=>
node s
1 5
2 1
3 5
turns 0
~ inner_locals: run - -
Procedure p(G: Graph, v: N_P<Int>; s: N_P<Int>) { Foreach (n: G.Nodes) { Foreach (t: n.Nbrs) { Int d = t.v - n.v; Int e; If (d < 0) { d = 0 - d; e += 1; } e += d; n.s += e; } } }
%%
1 2
1 3
2 1
v 1 5
v 2 2
v 3 9
=>
node s
1 8
2 3
3 0
turns 0
~ inner_loop_sees_own_writes: run - -
Procedure p(G: Graph, v: N_P<Int>; a, s: N_P<Int>) { Foreach (n: G.Nodes) { n.a = n.v + 1; Foreach (t: n.Nbrs) (n.a > 2) { t.s += n.a; } n.a = 0; } }
%%
1 2
3 2
v 1 1
v 3 7
=>
node a s
1 0 0
2 0 8
3 0 0
turns 0
~ inner_sum_past_int: run - -
Procedure p(G: Graph, v: N_P<Int>; s: N_P<Int>) { Foreach (n: G.Nodes) { Foreach (t: n.Nbrs) { n.s += t.v; } n.s = 1 / n.v; } }
%%
1 2
1 3
v 2 2147483647
v 3 1
=>
fault Overflow at 1:100
~ edge_values_pushed: run - -
Procedure p(G: Graph, w: E_P<Int>; s: N_P<Int>) { Foreach (n: G.Nodes) { Foreach (t: n.Nbrs) { Edge e = t.ToEdge(); If (e.w > 1) { t.s += e.w; } } } }
%%
1 2 5
1 2 1
2 2 7
=>
node s
1 0
2 12
turns 0
~ edge_values_pulled: run - -
Procedure p(G: Graph, w: E_P<Int>, v: N_P<Int>; s: N_P<Int>) { Foreach (n: G.Nodes) { Foreach (t: n.InNbrs) { Edge e = t.ToEdge(); n.s += e.w * t.v; } } }
%%
1 2 5
1 2 1
2 2 7
v 1 2
v 2 3
=>
node s
1 0
2 33
turns 0
~ reductions_of_neighbours: run - -
Procedure p(G: Graph, v: N_P<Int>; a, b, c: N_P<Int>, d: N_P<Bool>) { Foreach (n: G.Nodes) { n.a = Sum(t: n.Nbrs) {t.v}; n.b = Max(t: n.InNbrs) (t.v != n.v) {t.v + n.a}; n.c = Count(t: n.Nbrs) (t.v > n.v); n.d = All(t: n.Nbrs) {t.v > 0}; } }
%%
1 2
2 3
2 1
v 1 4
v 2 1
v 3 0
=>
node a b c d
1 1 2 0 True
2 4 8 1 False
3 0 1 0 True
turns 0
~ deferred_swap: run - -
Procedure p(G: Graph; a, b: N_P<Int>) { G.a = 1; G.b = 2; Foreach (n: G.Nodes) { n.a <= n.b; n.b <= n.a; n.b <= n.a + 10; } }
%%
1 2
=>
node a b
1 2 11
2 2 11
turns 0
~ deferred_for_neighbours: run - -
Procedure p(G: Graph, v: N_P<Int>; a: N_P<Int>) { G.a = G.v; Foreach (n: G.Nodes) { n.a <= Max(t: n.InNbrs) {t.a}; } }
%%
1 2
2 3
3 1
v 1 5
v 2 6
v 3 7
=>
node a
1 7
2 5
3 6
turns 0
~ deferred_where_filtered: run - -
Procedure p(G: Graph, v: N_P<Int>; a: N_P<Int>) { G.a = 4; Foreach (n: G.Nodes) { If (n.v > 0) { n.a <= n.v; } } }
%%
1 2
v 2 9
=>
node a
1 4
2 9
turns 0
~ through_a_node_variable: run - - s=3
Procedure p(G: Graph, s: Node, v: N_P<Int>; c: N_P<Int>) { Foreach (n: G.Nodes) (n.v > 0) { s.c += n.v; } }
%%
1 2
3 3
v 1 2
v 2 5
=>
node c
1 0
2 0
3 7
turns 0
~ through_nil_in_parallel: run - - s=NIL
Procedure p(G: Graph, s: Node, v: N_P<Int>; c: N_P<Int>) { Foreach (n: G.Nodes) (n.v > 3) { s.c += 1 / (n.v - 5); } }
%%
1 2
3 3
v 1 2
v 2 5
=>
fault NilNode at 1:93
~ through_nil_where_nobody_asks: run - - s=NIL
Procedure p(G: Graph, s: Node, v: N_P<Int>; c: N_P<Int>) { Foreach (n: G.Nodes) (n.v > 9) { s.c += 1; } }
%%
1 2
=>
node c
1 0
2 0
turns 0
~ edges_counted: run - -
Procedure p(G: Graph, v: N_P<Int>; e: Int) { Foreach (n: G.Nodes) { Foreach (t: n.Nbrs) (t.v == n.v) { e += 1; } } }
%%
1 2
2 2
2 1
3 1
v 1 4
v 2 4
=>
e = 3
turns 0
~ int_to_a_long_target: run - -
Procedure p(G: Graph, v: N_P<Int>; s: N_P<Long>) { G.s = 4000000000; Foreach (n: G.Nodes) { Foreach (t: n.Nbrs) { t.s += n.v; } } }
%%
1 2
v 1 2147483647
=>
node s
1 4000000000
2 6147483647
turns 0
~ named_iterator: run - -
Procedure p(G: Graph, v: N_P<Int>; s: N_P<Int>, a: Int) { Foreach (n: G.Nodes) { a += n.v @ n; Foreach (t: n.Nbrs) { t.s += 1 @ n; } } }
%%
1 2
v 1 3
=>
a = 3
node s
1 0
2 1
turns 0
";

/// The other operations, ranges and types.
pub const MORE_LOOPS: &str = "
~ pushes_of_each_kind: run - -
Procedure p(G: Graph, v: N_P<Int>; m, q: N_P<Int>, b: N_P<Bool>) { G.m = -9; G.q = 1; G.b = True; Foreach (n: G.Nodes) { Foreach (t: n.OutNbrs) { t.m max= n.v; t.q *= n.v; t.b &= n.v > 2; } } }
%%
1 3
2 3
2 3
3 1
v 1 2
v 2 3
v 3 5
=>
node m q b
1 5 5 True
2 -9 1 True
3 3 18 False
turns 0
~ reductions_over_in_neighbours: run - -
Procedure p(G: Graph, v: N_P<Int>; a, b: N_P<Int>, c: N_P<Bool>, d: N_P<Int>) { Foreach (n: G.Nodes) { n.a = Product(t: n.InNbrs) {t.v}; n.b = Min(t: n.InNbrs) {t.v}; n.c = Exist(t: n.InNbrs) {t.v == 3}; n.d = Count(t: n.InNbrs); } }
%%
1 3
2 3
2 3
3 1
v 1 2
v 2 3
v 3 5
=>
node a b c d
1 5 5 False 1
2 1 2147483647 False 0
3 18 2 True 3
turns 0
~ reductions_over_no_neighbours: run - -
Procedure p(G: Graph, v: N_P<Int>, w: N_P<Long>; a, b, c, d, e: N_P<Int>, f, g: N_P<Bool>, h, i: N_P<Long>) { Foreach (n: G.Nodes) { n.a = Sum(t: n.Nbrs) {t.v}; n.b = Product(t: n.Nbrs) {t.v}; n.c = Min(t: n.Nbrs) {t.v}; n.d = Max(t: n.Nbrs) {t.v}; n.e = Count(t: n.Nbrs); n.f = Exist(t: n.Nbrs); n.g = All(t: n.Nbrs) {False}; n.h = Min(t: n.InNbrs) {t.w}; n.i = Max(t: n.InNbrs) {t.w}; } }
%%
v 4 1 1
=>
node a b c d e f g h i
4 0 1 2147483647 -2147483648 0 False True 9223372036854775807 -9223372036854775808
turns 0
~ pulled_into_a_local: run - -
Procedure p(G: Graph, v: N_P<Int>; s: N_P<Int>) { Foreach (n: G.Nodes) { Int d = 100; Foreach (t: n.InNbrs) { d += t.v; } n.s = d * 2; } }
%%
1 3
2 3
2 3
3 1
v 1 2
v 2 3
v 3 5
=>
node s
1 210
2 200
3 216
turns 0
~ two_inner_loops: run - -
Procedure p(G: Graph, v: N_P<Int>; s: N_P<Int>) { Foreach (n: G.Nodes) { Int c; Foreach (t: n.Nbrs) { c += 1; } Foreach (t: n.InNbrs) { n.s += c * 10 + t.v; } n.s += 1000; } }
%%
1 3
2 3
2 3
3 1
v 1 2
v 2 3
v 3 5
=>
node s
1 1015
2 1000
3 1038
turns 0
~ push_pull_and_home: run - -
Procedure p(G: Graph, v: N_P<Int>; a, b, c: N_P<Int>, k: Int) { Foreach (n: G.Nodes) { Foreach (t: n.Nbrs) (t.v != 2) { t.a += n.v; n.b += t.v; n.c += n.v; k += t.v * n.v; } } }
%%
1 3
2 3
2 3
3 1
v 1 2
v 2 3
v 3 5
=>
k = 40
node a b c
1 0 5 2
2 0 10 6
3 8 0 0
turns 0
~ branches_of_an_inner_body: run - -
Procedure p(G: Graph, v: N_P<Int>; a, b: N_P<Int>) { Foreach (n: G.Nodes) { Foreach (t: n.Nbrs) { If (n.v < t.v) { t.a += 1; } Else { t.b += n.v; If (t.v == 2) t.b += 100; } } } }
%%
1 3
2 3
2 3
3 1
v 1 2
v 2 3
v 3 5
=>
node a b
1 0 105
2 0 0
3 3 0
turns 0
~ branches_around_inner_loops: run - -
Procedure p(G: Graph, v: N_P<Int>; a: N_P<Int>) { Foreach (n: G.Nodes) { If (n.v == 3) { Foreach (t: n.Nbrs) { t.a += 1; } } Else If (n.v == 5) { Foreach (t: n.InNbrs) { t.a += 10; } } } }
%%
1 3
2 3
2 3
3 1
v 1 2
v 2 3
v 3 5
=>
node a
1 10
2 20
3 2
turns 0
~ edges_with_values_of_each_type: run - -
Procedure p(G: Graph, far: E_P<Long>, on: E_P<Bool>, w: E_P<Int>; s: N_P<Long>, c: N_P<Int>) { Foreach (n: G.Nodes) { Foreach (t: n.Nbrs) { Edge e = (t.ToEdge()); If (e.on) { t.s += e.far; } Else { t.c max= e.w; } } } }
%%
1 2 5000000000 true -4
1 2 1 1 9
2 2 7 0 6
2 1 8 False 3
=>
node s c
1 0 3
2 5000000001 6
turns 0
~ own_node_as_a_value: run - - s=2
Procedure p(G: Graph, s: Node; a: N_P<Bool>, b: N_P<Node>) { Foreach (n: G.Nodes) { Node d = n; n.a = d == s; n.b = d; } }
%%
1 2
=>
node a b
1 False 1
2 True 2
turns 0
~ neighbours_compared: run - - s=3
Procedure p(G: Graph, s: Node; a: N_P<Int>, b: N_P<Bool>) { Foreach (n: G.Nodes) { n.a = Count(t: n.Nbrs) {t == s}; n.b = Exist(t: n.InNbrs) {t == n}; } }
%%
2 3
2 3
1 3
1 1
=>
node a b
1 1 True
2 2 False
3 0 False
turns 0
~ degrees_of_neighbours: run - -
Procedure p(G: Graph; a, b: N_P<Int>) { Foreach (n: G.Nodes) { n.a = Sum(t: n.Nbrs) {t.InDegree() * 10 + n.OutDegree()}; Foreach (t: n.Nbrs) { t.b += n.Degree(); } } }
%%
1 2
1 3
2 3
=>
node a b
1 34 0
2 21 2
3 0 3
turns 0
~ scalars_from_inner_loops: run - -
Procedure p(G: Graph, v: N_P<Int>; a, b, c: Int, d, e: Bool) { b = 50; e = True; Foreach (n: G.Nodes) { Foreach (t: n.Nbrs) { a max= t.v - n.v; b min= t.v * n.v; c += 1; d ||= t.v < n.v; e &&= t.v != 3; } } }
%%
1 3
2 3
2 3
3 1
v 1 2
v 2 3
v 3 5
=>
a = 3
b = 10
c = 4
d = True
e = True
turns 0
~ rounds: run - -
Procedure p(G: Graph; a: N_P<Int>) { Int k; G.a = 1; While (k < 3) { Foreach (n: G.Nodes) { n.a <= n.a + Sum(t: n.InNbrs) {t.a}; } k++; } }
%%
1 2
2 3
3 1
3 3
=>
node a
1 13
2 9
3 20
turns 3
~ filter_of_a_written_property: run - -
Procedure p(G: Graph; a: N_P<Int>) { Int k; While (k < 3) { Foreach (n: G.Nodes) (n.a < n.Degree()) { n.a = n.a + 1; } k++; } }
%%
1 2
1 3
3 1
=>
node a
1 2
2 0
3 1
turns 3
~ deferred_past_what_is_added: run - -
Procedure p(G: Graph, v: N_P<Int>; a, b: N_P<Int>) { Foreach (n: G.Nodes) { Int d; Foreach (t: n.InNbrs) { d max= t.v; } n.a <= d; n.b = n.a + d; } }
%%
1 3
2 3
2 3
3 1
v 1 2
v 2 3
v 3 5
=>
node a b
1 5 5
2 0 0
3 3 3
turns 0
~ scalar_of_the_phase_is_read: run - - k=5
Procedure p(G: Graph, k: Int; a: N_P<Int>) { k = k + 1; Foreach (n: G.Nodes) { n.a = k * n.NumNbrs(); } k = 0; }
%%
1 2
1 1
=>
node a
1 12
2 0
turns 0
~ parallel_choice_leaves_out: run - -
Procedure p(G: Graph, v: N_P<Int>; a: N_P<Int>, b: N_P<Bool>) { Foreach (n: G.Nodes) { n.a = n.v == 0 ? -1 : 12 / n.v; n.b = n.v != 0 && 12 / n.v > 3; } }
%%
1 2
v 1 4
=>
node a b
1 3 False
2 -1 False
turns 0
~ truth_is_pulled: run - -
Procedure p(G: Graph, v: N_P<Int>; a, b: N_P<Bool>) { G.b = True; Foreach (n: G.Nodes) { Foreach (t: n.InNbrs) { n.a ||= t.v == 3; n.b &&= t.v > 2; } } }
%%
1 3
2 3
2 3
3 1
v 1 2
v 2 3
v 3 5
=>
node a b
1 False True
2 False True
3 True False
turns 0
";
