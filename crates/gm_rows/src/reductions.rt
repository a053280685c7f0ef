//! Reductions as values, also over nothing, and their totals: programs with the outcomes that the
//! rules of `docs/MEANING.md` give them, worked out by hand.

/// Over all nodes.
pub const REDUCTIONS: &str = "
~ reductions: run - -
Procedure p(G: Graph, v: N_P<Int>; a, b, c, d, e: Int, f, g: Bool) {
  a = Sum(n: G.Nodes) {n.v}; b = Product(n: G.Nodes) (n.v != 0) {n.v}; c = Min(n: G.Nodes) {n.v}; d = Max(n: G.Nodes) {n.v};
  e = Count(n: G.Nodes) (n.v > 0); f = Exist(n: G.Nodes) {n.v == -3}; g = All(n: G.Nodes) {n.v < 5};
}
%%
1 2
3 4
v 1 2
v 2 -3
v 3 4
=>
a = 3
b = -24
c = -3
d = 4
e = 2
f = True
g = True
turns 0
~ reductions_over_nothing: run - -
Procedure p(G: Graph, v: N_P<Int>; a, b, c, d, e: Int, f, g: Bool) {
  a = Sum(n: G.Nodes) (n.v > 9) {n.v}; b = Product(n: G.Nodes) (n.v > 9) {n.v}; c = Min(n: G.Nodes) (n.v > 9) {n.v}; d = Max(n: G.Nodes) (n.v > 9) {n.v};
  e = Count(n: G.Nodes) (n.v > 9); f = Exist(n: G.Nodes) (n.v > 9) {True}; g = All(n: G.Nodes) (n.v > 9) {False};
}
%%
1 2
=>
a = 0
b = 1
c = 2147483647
d = -2147483648
e = 0
f = False
g = True
turns 0
~ long_reductions_over_nothing: run - -
Procedure p(G: Graph, v: N_P<Long>; a, b: Long) { a = Min(n: G.Nodes) {n.v}; b = Max(n: G.Nodes) {n.v}; }
%%
=>
a = 9223372036854775807
b = -9223372036854775808
turns 0
~ count_as_one_condition: run - -
Procedure p(G: Graph, v: N_P<Int>; a, b, c: Int) { a = Count(n: G.Nodes) (n.v != 0) {6 / n.v > 1}; b = Count(n: G.Nodes) {n.v == 0}; c = Count(n: G.Nodes); }
%%
1 2
v 1 3
=>
a = 1
b = 1
c = 2
turns 0
~ sum_of_sums: run - -
Procedure p(G: Graph, v: N_P<Int>; a: Int) { a = Sum(n: G.Nodes) {n.v * Sum(t: n.Nbrs) {t.v}}; }
%%
1 2
1 3
2 3
v 1 2
v 2 3
v 3 5
=>
a = 31
turns 0
~ sum_past_int_in_the_end: run - -
Procedure p(G: Graph, v: N_P<Int>; a: Int) {
  a = Sum(n: G.Nodes) {n.v};
}
%%
1 2
v 1 2147483647
v 2 1
=>
fault Overflow at 2:7
~ sum_past_int_on_the_way: run - -
Procedure p(G: Graph, v: N_P<Int>; a: Int) { a = Sum(n: G.Nodes) {n.v}; }
%%
1 2
3 3
v 1 2147483647
v 2 1
v 3 -1
=>
a = 2147483647
turns 0
~ long_sums: run - -
Procedure p(G: Graph, v: N_P<Long>; a: Long, s: N_P<Long>) { a = Sum(n: G.Nodes) {n.v}; Foreach (n: G.Nodes) { Foreach (t: n.Nbrs) { t.s += n.v; } } }
%%
1 2
2 1
v 1 9223372036854775807
v 2 -5
=>
a = 9223372036854775802
node s
1 -5
2 9223372036854775807
turns 0
~ long_sum_past: run - -
Procedure p(G: Graph, v: N_P<Long>; a: Long) { a = Sum(n: G.Nodes) {n.v}; }
%%
1 2
v 1 9223372036854775807
v 2 5
=>
fault Overflow at 1:52
";

/// Filters, limits and reductions in one another.
pub const MORE_REDUCTIONS: &str = "
~ exist_asks_all: run - -
Procedure p(G: Graph, v: N_P<Int>; b: Bool) { b = Exist(n: G.Nodes) {6 / n.v > 1}; }
%%
1 2
v 1 1
=>
fault DivideByZero at 1:72
~ all_asks_all: run - -
Procedure p(G: Graph, v: N_P<Int>; b: Bool) { b = All(n: G.Nodes) {6 / n.v > 9}; }
%%
1 2
v 1 1
=>
fault DivideByZero at 1:70
~ exist_by_filter: run - -
Procedure p(G: Graph, v: N_P<Int>; a, b, c: Bool) { a = Exist(n: G.Nodes) (n.v > 1); b = Exist(n: G.Nodes) (n.v > 1) {n.v < 1}; c = Exist(n: G.Nodes); }
%%
1 2
v 1 3
=>
a = True
b = False
c = True
turns 0
~ all_by_filter: run - -
Procedure p(G: Graph, v: N_P<Int>; a, b: Bool) { a = All(n: G.Nodes) (n.v > 1) {n.v == 3}; b = All(n: G.Nodes) {n.v == 3}; }
%%
1 2
v 1 3
=>
a = True
b = False
turns 0
~ long_reductions_over_none: run - -
Procedure p(G: Graph, v: N_P<Long>; a, b, c, d: Long) { a = Sum(n: G.Nodes) (False) {n.v}; b = Product(n: G.Nodes) (False) {n.v}; c = Min(n: G.Nodes) (False) {n.v}; d = Max(n: G.Nodes) (False) {n.v}; }
%%
1 2
=>
a = 0
b = 1
c = 9223372036854775807
d = -9223372036854775808
turns 0
~ long_sum_on_the_way: run - -
Procedure p(G: Graph, v: N_P<Long>; a: Long) { a = Sum(n: G.Nodes) {n.v}; }
%%
v 1 9223372036854775807
v 2 9223372036854775807
v 3 -9223372036854775808
=>
a = 9223372036854775806
turns 0
~ sum_below: run - -
Procedure p(G: Graph, v: N_P<Int>; a: Int) { a = Sum(n: G.Nodes) {n.v}; }
%%
v 1 -2147483648
v 2 -1
=>
fault Overflow at 1:50
~ sum_at_the_least: run - -
Procedure p(G: Graph, v: N_P<Int>; a: Int) { a = Sum(n: G.Nodes) {n.v}; }
%%
v 1 -2147483647
v 2 -1
=>
a = -2147483648
turns 0
~ sum_of_ints_for_a_long: run - -
Procedure p(G: Graph, v: N_P<Int>; a: Long) { a = Sum(n: G.Nodes) {n.v}; }
%%
v 1 2147483647
v 2 1
=>
fault Overflow at 1:51
~ sum_of_casts: run - -
Procedure p(G: Graph, v: N_P<Int>; a: Long) { a = Sum(n: G.Nodes) {(Long) n.v}; }
%%
v 1 2147483647
v 2 1
=>
a = 2147483648
turns 0
~ product_to_the_least: run - -
Procedure p(G: Graph, v: N_P<Long>; a: Long) { a = Product(n: G.Nodes) {n.v}; }
%%
v 1 4294967296
v 2 2147483648
v 3 -1
=>
a = -9223372036854775808
turns 0
~ product_one_too_great: run - -
Procedure p(G: Graph, v: N_P<Long>; a: Long) { a = Product(n: G.Nodes) {n.v}; }
%%
v 1 4294967296
v 2 -2147483648
v 3 -1
=>
fault Overflow at 1:52
~ product_by_zero_at_last: run - -
Procedure p(G: Graph, v: N_P<Long>; a: Long) { a = Product(n: G.Nodes) {n.v}; }
%%
v 1 9223372036854775807
v 2 9223372036854775807
v 3 9223372036854775807
v 4 0
=>
a = 0
turns 0
~ int_product_to_the_least: run - -
Procedure p(G: Graph, v: N_P<Int>; a: Int) { a = Product(n: G.Nodes) {n.v}; }
%%
v 1 65536
v 2 -32768
=>
a = -2147483648
turns 0
~ int_product_past: run - -
Procedure p(G: Graph, v: N_P<Int>; a: Int) { a = Product(n: G.Nodes) {n.v}; }
%%
v 1 65536
v 2 32768
=>
fault Overflow at 1:50
~ least_and_greatest: run - -
Procedure p(G: Graph, v: N_P<Int>; a, b: Int, c, d: Long) { a = Min(n: G.Nodes) {n.v * n.v}; b = Max(n: G.Nodes) (n.v < 0) {n.v}; c = Max(n: G.Nodes) {INF}; d = Min(n: G.Nodes) {-INF}; }
%%
v 1 -3
v 2 2
v 3 -7
=>
a = 4
b = -3
c = 2147483647
d = -2147483648
turns 0
~ reductions_in_one_statement: run - -
Procedure p(G: Graph, v: N_P<Int>; a: Int) { a = Sum(n: G.Nodes) {n.v} * 100 + Count(n: G.Nodes) * 10 + Max(m: G.Nodes) {m.v}; }
%%
v 1 3
v 2 4
=>
a = 724
turns 0
~ reductions_in_conditions: run - -
Procedure p(G: Graph, v: N_P<Int>; a: Int) { While (Sum(n: G.Nodes) {n.v} > a) { a += 3; If (Exist(n: G.Nodes) {n.v == a}) { a += 100; } } }
%%
v 1 6
v 2 4
=>
a = 106
turns 2
~ inner_reductions_of_a_filter: run - -
Procedure p(G: Graph; a: Int, q: N_P<Int>) { a = Sum(n: G.Nodes) (Count(t: n.Nbrs) {t != n} > 1) {n.OutDegree()}; Foreach (n: G.Nodes) (Exist(t: n.Nbrs) {t == n}) { n.q = 1; } }
%%
1 2
1 3
2 2
2 3
3 3
3 1
3 2
=>
a = 5
node q
1 0
2 1
3 1
turns 0
~ reduction_of_a_total: run - -
Procedure p(G: Graph, v: N_P<Int>; a: Int) { a = Sum(n: G.Nodes) {n.v * Count(t: n.Nbrs)}; }
%%
1 2
1 2
3 3
v 1 1073741823
v 3 2
=>
fault Overflow at 1:50
~ inner_total_faults_first: run - -
Procedure p(G: Graph, v: N_P<Int>; a: Int) { a = Sum(n: G.Nodes) {Sum(t: n.Nbrs) {t.v}}; }
%%
1 2
1 2
3 3
v 2 1073741824
v 3 2147483647
=>
fault Overflow at 1:67
";
