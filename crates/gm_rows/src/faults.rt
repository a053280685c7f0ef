//! Which fault is shown where there are several: programs with the outcomes that the
//! rules of `docs/MEANING.md` give them, worked out by hand.

/// By statement, part and place.
pub const COMPETING: &str = "
~ least_by_statement: run - -
Procedure p(G: Graph, v: N_P<Int>; a, b: N_P<Int>) {
  Foreach (n: G.Nodes) {
    If (n.v > 0) { n.a = 1 / (n.v - 5); }
    n.b = 2147483647 + n.v;
  }
}
%%
1 2
2 3
v 1 5
v 2 1
=>
fault DivideByZero at 3:28
~ least_by_place: run - -
Procedure p(G: Graph, v: N_P<Int>; a: N_P<Int>) {
  Foreach (n: G.Nodes) {
    n.a = (n.v > 4 ? 1 / (n.v - 5) : 3) + (n.v < 2 ? 1 / (n.v - 1) : 3);
  }
}
%%
1 2
v 1 1
v 2 5
=>
fault DivideByZero at 3:24
~ reduction_before_operators: run - -
Procedure p(G: Graph, v: N_P<Int>; a: N_P<Int>) {
  Foreach (n: G.Nodes) {
    n.a = 1 / n.v + Sum(t: n.Nbrs) {1 / t.v};
  }
}
%%
2 1
1 3
v 1 0
v 2 1
v 3 1
=>
fault DivideByZero at 3:39
~ total_after_elements: run - -
Procedure p(G: Graph, v: N_P<Int>; s: N_P<Int>) {
  Foreach (n: G.Nodes) {
    Foreach (t: n.Nbrs) { t.s += 2147483647 / n.v; }
  }
}
%%
1 3
2 3
4 3
v 1 1
v 2 1
=>
fault DivideByZero at 3:45
";

/// By each part of the order, in loops and in searches.
pub const MORE_FAULTS: &str = "
~ least_by_kind: run - -
Procedure p(G: Graph, v, w: N_P<Int>; a: N_P<Int>) { Foreach (n: G.Nodes) { n.a = n.v / n.w; } }
%%
v 1 -2147483648 -1
v 2 1 0
=>
fault DivideByZero at 1:87
~ overflow_alone: run - -
Procedure p(G: Graph, v, w: N_P<Int>; a: N_P<Int>) { Foreach (n: G.Nodes) { n.a = n.v / n.w; } }
%%
v 1 -2147483648 -1
v 2 1 1
=>
fault Overflow at 1:87
~ filter_before_body: run - -
Procedure p(G: Graph, v: N_P<Int>; a: N_P<Int>) {
  Foreach (n: G.Nodes) (6 / n.v > 0) {
    n.a = 6 / (n.v - 1);
  }
}
%%
v 1 1
v 2 0
=>
fault DivideByZero at 2:27
~ condition_before_branch: run - -
Procedure p(G: Graph, v: N_P<Int>; a: N_P<Int>) { Foreach (n: G.Nodes) { If (6 / n.v > 0) { n.a = 6 / (n.v - 1); } } }
%%
v 1 1
v 2 0
=>
fault DivideByZero at 1:80
~ branch_before_what_follows: run - -
Procedure p(G: Graph, v: N_P<Int>; a: N_P<Int>) { Foreach (n: G.Nodes) { If (n.v > 0) { n.a = 6 / (n.v - 2); } n.a = 2147483647 - (n.v - 1); } }
%%
v 1 2
v 2 0
=>
fault DivideByZero at 1:97
~ contributions_before_a_fault: run - -
Procedure p(G: Graph, v: N_P<Int>; a: Int, q: N_P<Int>) { Foreach (n: G.Nodes) { a += n.v; n.q = 1 / (n.v - 1); } }
%%
v 1 2147483647
v 2 1
=>
fault Overflow at 1:84
~ total_of_an_earlier_loop: run - -
Procedure p(G: Graph, v: N_P<Int>; a: Int, q: N_P<Int>) { Foreach (n: G.Nodes) { a += n.v; } Foreach (n: G.Nodes) { n.q = 1 / (n.v - 1); } }
%%
v 1 2147483647
v 2 1
=>
fault Overflow at 1:84
~ operator_before_the_total_of_its_statement: run - -
Procedure p(G: Graph, v, w: N_P<Int>; s: N_P<Int>) { Foreach (n: G.Nodes) { Foreach (t: n.Nbrs) { n.s += t.v / t.w; } } }
%%
1 2
1 2
3 4
v 2 2147483647 1
v 4 1 0
=>
fault DivideByZero at 1:110
~ at_once_before_its_operators: run - -
Procedure p(G: Graph, v, w: N_P<Int>; s: N_P<Int>) { G.s = 1; Foreach (n: G.Nodes) { n.s += n.v / n.w; } }
%%
v 1 2147483647 1
v 2 1 0
=>
fault Overflow at 1:90
~ inner_filter_before_inner_body: run - -
Procedure p(G: Graph, v: N_P<Int>; s: N_P<Int>) { Foreach (n: G.Nodes) { Foreach (t: n.Nbrs) (6 / t.v > 0) { n.s += 6 / (t.v - 1); } } }
%%
1 2
3 4
v 2 1
v 4 0
=>
fault DivideByZero at 1:97
~ inner_total_before_operators: run - -
Procedure p(G: Graph, v, z: N_P<Int>; a: N_P<Int>) { Foreach (n: G.Nodes) { n.a = 1 / n.z + Sum(t: n.Nbrs) {t.v}; } }
%%
1 2
1 2
3 4
v 1 0 1
v 2 1073741824 1
v 3 0 0
v 4 0 1
=>
fault Overflow at 1:93
~ first_reduction_before_the_second: run - -
Procedure p(G: Graph, v, w: N_P<Int>; a: N_P<Int>) { Foreach (n: G.Nodes) { n.a = Sum(t: n.Nbrs) {1 / t.v} + Sum(t: n.Nbrs) {t.w}; } }
%%
1 2
1 2
3 4
v 1 1 0
v 2 1 1073741824
v 3 1 0
v 4 0 0
=>
fault DivideByZero at 1:101
~ operator_before_the_closing_brace: run - -
Procedure p(G: Graph, v, w: N_P<Int>; a: N_P<Int>) { Foreach (n: G.Nodes) { n.a = Sum(t: n.Nbrs) {t.w / t.v}; } }
%%
1 2
1 2
3 4
v 1 1 0
v 2 1 1073741824
v 3 1 0
v 4 0 0
=>
fault DivideByZero at 1:103
~ closing_brace_before_the_second: run - -
Procedure p(G: Graph, v, w: N_P<Int>; a: N_P<Int>) { Foreach (n: G.Nodes) { n.a = Sum(t: n.Nbrs) {t.w} + Sum(t: n.Nbrs) {1 / t.v}; } }
%%
1 2
1 2
3 4
v 1 1 0
v 2 1 1073741824
v 3 1 0
v 4 0 0
=>
fault Overflow at 1:83
~ nil_before_operators_by_place: run - - s=NIL
Procedure p(G: Graph, s: Node, v: N_P<Int>; q: N_P<Int>) { Foreach (n: G.Nodes) { s.q += 1 / n.v; } }
%%
v 1 1
v 2 0
=>
fault NilNode at 1:83
~ nil_of_a_later_statement: run - - s=NIL
Procedure p(G: Graph, s: Node, v: N_P<Int>; q, r: N_P<Int>) { Foreach (n: G.Nodes) { n.r = 1 / n.v; s.q += 1; } }
%%
v 1 1
v 2 0
=>
fault DivideByZero at 1:94
~ one_iteration_its_first: run - -
Procedure p(G: Graph, v: N_P<Int>; a: N_P<Int>) { Foreach (n: G.Nodes) { n.a = 2147483647 + (n.v > 0 ? 1 / (n.v - 1) : 0); } }
%%
v 1 1
=>
fault DivideByZero at 1:106
~ loop_before_loop: run - -
Procedure p(G: Graph, v: N_P<Int>; a: N_P<Int>) { G.a = 1 / (G.v - 1); G.a = 1 / G.v; }
%%
v 1 1
v 2 0
=>
fault DivideByZero at 1:59
~ in_a_search_level_by_level: run - - s=1
Procedure p(G: Graph, s: Node, v: N_P<Int>; a, b: N_P<Int>) { InBFS (n: G.Nodes From s) { n.a = 1 / (n.v - 1); n.b = 1 / n.v; } }
%%
1 2
2 3
v 1 5
v 2 0
v 3 1
=>
fault DivideByZero at 1:120
~ in_a_level_the_least: run - - s=1
Procedure p(G: Graph, s: Node, v: N_P<Int>; a, b: N_P<Int>) { InBFS (n: G.Nodes From s) { n.a = 1 / (n.v - 1); n.b = 1 / n.v; } }
%%
1 2
1 3
v 1 5
v 2 0
v 3 1
=>
fault DivideByZero at 1:99
~ on_the_way_back: run - - s=1
Procedure p(G: Graph, s: Node, v: N_P<Int>; a, b: N_P<Int>) { InBFS (n: G.Nodes From s) { n.a = 1; } InReverse { n.b = 1 / n.v; } }
%%
1 2
1 3
v 1 5
v 2 0
v 3 1
=>
fault DivideByZero at 1:122
~ unreached_nodes_do_not_fault: run - - s=1
Procedure p(G: Graph, s: Node, v: N_P<Int>; a: N_P<Int>) { InBFS (n: G.Nodes From s) { n.a = 6 / n.v; } InReverse { n.a = n.a + 6 / n.v; } }
%%
1 2
3 1
v 1 2
v 2 3
=>
node a
1 6
2 4
3 0
turns 4
~ deferred_values_fault: run - -
Procedure p(G: Graph, v: N_P<Int>; a: N_P<Int>) { Foreach (n: G.Nodes) { n.a <= 6 / n.v; n.a <= 1; } }
%%
v 1 2
v 2 0
=>
fault DivideByZero at 1:83
~ nothing_is_written_of_a_fault: run - -
Procedure p(G: Graph, v: N_P<Int>; a: Int, q: N_P<Int>) : Int { a = 4; G.q = 7; Return 1 / (a - 4); }
%%
1 2
=>
fault DivideByZero at 1:90
";
