//! Sequential phases: statements, what is hoisted, turns, and `Return`: programs with the outcomes that the
//! rules of `docs/MEANING.md` give them, worked out by hand.

/// Statements one after another.
pub const PHASES: &str = "
~ while_turns: run - -
Procedure p(G: Graph; s: Int) { Int i; While (i < 5) { i++; s += i; } }
%%
=>
s = 15
turns 5
~ while_none: run - -
Procedure p(G: Graph; s: Int) { While (s > 0) { s = 1 / 0; } }
%%
=>
s = 0
turns 0
~ nested_whiles: run - -
Procedure p(G: Graph; s: Int) { Int i; While (i < 3) { Int j; While (j < i) { j++; s++; } i++; } }
%%
=>
s = 3
turns 6
~ do_while: run - -
Procedure p(G: Graph; s: Int) { Do { s++; } While (s < 3); Do { s += 10; } While (False); }
%%
=>
s = 13
turns 4
~ for_in_order: run - -
Procedure p(G: Graph, v: N_P<Int>; s: Int, last: Node) { For (n: G.Nodes) (n.v > 0) { s = s * 10 + n.v; last = n; } }
%%
9 4
7 4
v 4 1
v 7 0
v 9 3
=>
s = 13
last = 9
turns 3
~ if_else: run - - x=-4
Procedure p(G: Graph, x: Int; a: Int) { If (x > 0) a = 1; Else If (x < 0) a = 2; Else a = 3; }
%%
=>
a = 2
turns 0
~ else_of_the_nearest: run - - x=-4
Procedure p(G: Graph, x: Int; a: Int) { If (x > 0) If (x > 10) a = 1; Else a = 2; }
%%
=>
a = 0
turns 0
~ returns_early: run - -
Procedure p(G: Graph; i: Int) : Int { While (True) { i++; If (i == 4) { Return i * 10; } } Return 1; }
%%
=>
i = 4
return = 40
turns 4
~ returns_first_int: run - -
Procedure p(G: Graph) : Int { }
%%
=>
return = 0
turns 0
~ returns_first_bool: run - -
Procedure p(G: Graph) : Bool { Int x = 1; }
%%
=>
return = False
turns 0
~ returns_first_node: run - -
Procedure p(G: Graph) : Node { }
%%
=>
return = NIL
turns 0
~ returns_a_node: run - - s=12
Procedure p(G: Graph, s: Node) : Node { Return s; }
%%
12 5
=>
return = 12
turns 0
~ returns_nothing: run - -
Procedure p(G: Graph; a: Int) { a = 1; Return; a = 2; }
%%
=>
a = 1
turns 0
~ inputs_written: run - - k=1
Procedure p(G: Graph, k: Int, v: N_P<Int>; a: Int, p: N_P<Int>) { k = k + 1; G.v = G.v + k; a = k; G.p = G.v; }
%%
1 2
v 2 5
=>
a = 2
node p
1 2
2 7
turns 0
~ counts: run - -
Procedure p(G: Graph; n, e: Int, o, i, d, b: N_P<Int>) { n = G.NumNodes(); e = G.NumEdges(); G.o = G.OutDegree(); G.i = G.InDegree(); G.d = G.Degree(); G.b = G.NumNbrs(); }
%%
1 2
1 2
2 2
3 1
=>
n = 3
e = 4
node o i d b
1 2 1 2 2
2 1 3 1 1
3 1 0 1 1
turns 0
~ declared_anew: run - -
Procedure p(G: Graph; s: Int) { Int i; While (i < 3) { N_P<Int> q; Int k; Foreach (n: G.Nodes) { n.q = n.q + 1; } k++; s += k + Sum(n: G.Nodes) {n.q}; i++; } }
%%
1 2
=>
s = 9
turns 3
";

/// What is evaluated first, and writes through node variables.
pub const HOISTED: &str = "
~ hoisted_before_the_rest: run - - s=NIL z=0
Procedure p(G: Graph, s: Node, v: N_P<Int>, z: Int; a: Int) { a = 1 / z + s.v; }
%%
1 2
=>
fault NilNode at 1:75
~ hoisted_from_the_left: run - - s=NIL r=1
Procedure p(G: Graph, s, r: Node, v: N_P<Int>; a: Int) { a = r.v + s.v + Sum(n: G.Nodes) {1 / n.v}; }
%%
1 2
=>
fault NilNode at 1:68
~ degree_of_nil: run - - s=NIL
Procedure p(G: Graph, s: Node; a: Int) { a = s.Degree(); }
%%
1 2
=>
fault NilNode at 1:46
~ node_reads: run - - s=1
Procedure p(G: Graph, s: Node, v: N_P<Int>; a, b: Int) { a = s.v; b = s.OutDegree() * 10 + s.InDegree(); }
%%
1 2
1 3
2 1
v 1 8
=>
a = 8
b = 21
turns 0
~ node_write: run - - s=2
Procedure p(G: Graph, s: Node; p: N_P<Int>) { s.p = 5; s.p += 2; s.p++; s.p min= 7; s.p max= 3; }
%%
1 2
=>
node p
1 0
2 7
turns 0
~ node_write_checked_before_the_rest: run - - s=NIL z=0
Procedure p(G: Graph, s: Node, z: Int; p: N_P<Int>) { s.p = 1 / z; }
%%
1 2
=>
fault NilNode at 1:55
~ node_write_checked_after_what_is_hoisted: run - - s=NIL r=NIL
Procedure p(G: Graph, s, r: Node, q: N_P<Int>; p: N_P<Int>) { s.p = r.q; }
%%
1 2
=>
fault NilNode at 1:69
~ node_reduction_reads_first: run - - s=NIL r=NIL
Procedure p(G: Graph, s, r: Node, q: N_P<Int>; p: N_P<Int>) { s.p += r.q; }
%%
1 2
=>
fault NilNode at 1:63
~ at_once_and_leaves_out: run - - z=0
Procedure p(G: Graph, z: Int; b, c: Bool) { c = True; b &&= 1 / z > 0; c ||= 1 / z > 0; }
%%
=>
b = False
c = True
turns 0
~ at_once_and_asks: run - - z=0
Procedure p(G: Graph, z: Int; b: Bool) { b ||= 1 / z > 0; }
%%
=>
fault DivideByZero at 1:50
~ at_once_and_hoists: run - - s=NIL
Procedure p(G: Graph, s: Node, v: N_P<Bool>; b: Bool) { b &&= s.v; }
%%
1 2
=>
fault NilNode at 1:63
~ at_once_overflows: run - -
Procedure p(G: Graph; a: Int) { a = INF; a ++; }
%%
=>
fault Overflow at 1:44
~ at_once_product: run - -
Procedure p(G: Graph; a: Int) { a = 65536; a *= 3; a *= 65536; }
%%
=>
fault Overflow at 1:54
~ contribution_always_asks: run - - z=0
Procedure p(G: Graph, z: Int; b: Bool) { Foreach (n: G.Nodes) { b &&= 1 / z > 0; } }
%%
1 2
=>
fault DivideByZero at 1:73
";

/// Scopes, loops over all nodes, hoisting in each kind of statement, and NIL.
pub const MORE_PHASES: &str = "
~ scopes: run - -
Procedure p(G: Graph; a, b: Int) { { Int d = 1; a = d; } ; { Int d; b = d + 2; } }
%%
=>
a = 1
b = 2
turns 0
~ declared_together: run - -
Procedure p(G: Graph; a: Int) { Int x, y; x = 1; y += x + 1; a = y; }
%%
=>
a = 2
turns 0
~ initial_values_anew: run - -
Procedure p(G: Graph; s: Int) { Int i; While (i < 3) { Int k = i; i++; s = s * 10 + k; } }
%%
=>
s = 12
turns 3
~ for_writes: run - -
Procedure p(G: Graph; p: N_P<Int>, k: Int) { For (n: G.Nodes) { n.p = k; k++; } }
%%
9 4
6 6
=>
k = 3
node p
4 0
6 1
9 2
turns 3
~ for_sees_what_was_written: run - -
Procedure p(G: Graph, v: N_P<Int>; p: N_P<Int>) { Int sum; For (n: G.Nodes) { n.p = sum; sum = sum + n.v; } }
%%
1 2
3 1
v 1 5
v 2 6
v 3 7
=>
node p
1 0
2 5
3 11
turns 3
~ for_filters_as_it_goes: run - -
Procedure p(G: Graph; a: Int) { For (n: G.Nodes) (a < 2) { a++; } }
%%
1 2
3 4
=>
a = 2
turns 4
~ for_over_nothing: run - - --turns=0
Procedure p(G: Graph; a: Int) { For (n: G.Nodes) { a = 1 / 0; } }
%%
=>
a = 0
turns 0
~ for_through_other_nodes: run - - s=2
Procedure p(G: Graph, s: Node, v: N_P<Int>; q: N_P<Int>) { For (n: G.Nodes) { s.q = s.q * 10 + n.v; n.q += 1; } }
%%
1 2
3 1
v 1 4
v 2 5
v 3 6
=>
node q
1 1
2 466
3 1
turns 3
~ returns_from_a_for: run - -
Procedure p(G: Graph, v: N_P<Int>) : Node { For (n: G.Nodes) { If (n.v == 2) { Return n; } } Return NIL; }
%%
3 5
8 8
v 3 1
v 5 2
v 8 2
=>
return = 5
turns 2
~ returns_widened: run - -
Procedure p(G: Graph) : Long { Int x = 3; Return x; }
%%
=>
return = 3
turns 0
~ returns_the_greatest: run - -
Procedure p(G: Graph) : Long { Return INF; }
%%
=>
return = 9223372036854775807
turns 0
~ returns_a_truth: run - - k=3
Procedure p(G: Graph, k: Int; a: Int) : Bool { a = 1; Return k > 2; a = 2; }
%%
=>
a = 1
return = True
turns 0
~ returns_a_reduction: run - -
Procedure p(G: Graph, v: N_P<Int>) : Int { Return Max(n: G.Nodes) (n.v < 9) {n.v} - Min(n: G.Nodes) {n.v}; }
%%
1 2
3 4
v 1 9
v 2 4
v 3 -2
v 4 8
=>
return = 10
turns 0
~ conditions_hoist: run - - s=NIL
Procedure p(G: Graph, s: Node, v: N_P<Int>; a: Int) { While (s != NIL && s.v > 0) { a = 1; } }
%%
1 2
=>
fault NilNode at 1:74
~ conditions_guard: run - - s=NIL
Procedure p(G: Graph, s: Node, v: N_P<Int>; a: Int) { If (s != NIL) { a = s.v; } Else { a = -1; } }
%%
1 2
=>
a = -1
turns 0
~ choices_hoist: run - - s=NIL
Procedure p(G: Graph, s: Node, v: N_P<Int>; a: Int) { a = s == NIL ? 0 : s.v; }
%%
1 2
=>
fault NilNode at 1:74
~ reductions_hoist: run - - z=0
Procedure p(G: Graph, z: Int; b: Bool) { b = z != 0 && Sum(n: G.Nodes) {1 / z} > 0; }
%%
1 2
=>
fault DivideByZero at 1:75
~ reductions_over_nothing_hoist: run - - z=0
Procedure p(G: Graph, z: Int; b: Bool) { b = z != 0 && Sum(n: G.Nodes) {1 / z} > 0; }
%%
=>
b = False
turns 0
~ initial_values_hoist: run - - s=NIL z=0
Procedure p(G: Graph, s: Node, z: Int, v: N_P<Int>; a: Int) { Int d = 1 / z + s.v; a = d; }
%%
1 2
=>
fault NilNode at 1:79
~ returns_hoist: run - - s=NIL z=0
Procedure p(G: Graph, s: Node, z: Int, v: N_P<Int>) : Int { Return 1 / z + s.v; }
%%
1 2
=>
fault NilNode at 1:76
~ second_turn_faults: run - -
Procedure p(G: Graph; a: Int) { a = 1; While (6 / a > 0) { a = a - 1; } }
%%
=>
fault DivideByZero at 1:49
~ do_asks_behind: run - - z=0
Procedure p(G: Graph, z: Int; a: Int) { Do { a = a + 1; } While (1 / z > 0); }
%%
=>
fault DivideByZero at 1:68
~ nodes_are_values: run - - s=1
Procedure p(G: Graph, s: Node, v: N_P<Int>; a: Int, r: Node, b: Bool) { Node t = s; s = NIL; a = t.v; r = t; b = s == NIL; }
%%
1 2
v 1 6
=>
a = 6
r = 1
b = True
turns 0
~ nil_scalar_output: run - -
Procedure p(G: Graph; s, t: Node) { For (n: G.Nodes) { t = n; } }
%%
1 2
=>
s = NIL
t = 2
turns 2
~ nil_at_nodes: run - - s=2
Procedure p(G: Graph, s: Node; q, r: N_P<Node>) { s.q = s; G.r = G; s.r = NIL; }
%%
1 2
3 3
=>
node q r
1 NIL 1
2 2 NIL
3 NIL 3
turns 0
~ through_a_node_that_was_read: run - - s=1
Procedure p(G: Graph, s: Node, v: N_P<Int>; a: Int) { N_P<Node> to; s.to = s; Node t = s.to; a = t.v; t = t.to; s.to = NIL; t = t.to; a = a + t.v; }
%%
1 2
v 1 6
=>
fault NilNode at 1:143
~ nil_written_through: run - -
Procedure p(G: Graph; q: N_P<Int>) { Node s; s.q += 1; }
%%
1 2
=>
fault NilNode at 1:46
~ nil_in_degree: run - -
Procedure p(G: Graph; a: Int) { Node s; a = s.InDegree(); }
%%
1 2
=>
fault NilNode at 1:45
~ group_of_counts: run - - s=2
Procedure p(G: Graph, s: Node; q, r: N_P<Int>) { G.q = G.Degree() * 100 + G.InDegree() * 10 + G.NumNodes(); G.r = G == s ? G.NumEdges() : -G.q; }
%%
1 2
3 2
1 3
=>
node q r
1 203 -203
2 23 3
3 113 -113
turns 0
~ group_after_a_write: run - - s=2
Procedure p(G: Graph, s: Node; q, r: N_P<Int>) { s.q = 4; G.r = G.q + 1; s.q = 9; }
%%
1 2
=>
node q r
1 0 1
2 9 5
turns 0
~ degrees_one_by_one: run - -
Procedure p(G: Graph; a: Int) { For (n: G.Nodes) { a = a * 10 + n.Degree(); } }
%%
1 2
1 3
3 1
3 3
=>
a = 202
turns 3
";
