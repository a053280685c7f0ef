//! Operators, literals, casts and values of each type: programs with the outcomes that the
//! rules of `docs/MEANING.md` give them, worked out by hand.

/// What operators and literals give.
pub const VALUES: &str = "
~ arithmetic: run - -
Procedure p(G: Graph; a, b, c, d, e: Int) { a = 7 / 2; b = -7 / 2; c = -7 % 2; d = 7 - 9; e = -(3) * 4; }
%%
=>
a = 3
b = -3
c = -1
d = -2
e = -12
turns 0
~ remainders: run - -
Procedure p(G: Graph; a, b, c: Int) { a = 7 % -2; b = 6 % 3; c = -INF; c = c % -1; }
%%
=>
a = 1
b = 0
c = 0
turns 0
~ comparisons: run - -
Procedure p(G: Graph; a, b, c, d, e, f: Bool) { a = 1 < 2; b = 2 <= 1; c = 3 == 3; d = 3 != 3; e = 2 >= 2; f = 2 > 2; }
%%
=>
a = True
b = False
c = True
d = False
e = True
f = False
turns 0
~ truth: run - -
Procedure p(G: Graph; a, b, c, d: Bool) { a = !False; b = True && False; c = False || True; d = a == c; }
%%
=>
a = True
b = False
c = True
d = True
turns 0
~ left_out: run - - z=0
Procedure p(G: Graph, z: Int; a, b: Bool, c: Int) { a = False && 1 / z > 0; b = True || 1 / z > 0; c = z == 0 ? 5 : 1 / z; }
%%
=>
a = False
b = True
c = 5
turns 0
~ not_left_out: run - - z=0
Procedure p(G: Graph, z: Int; a: Bool) { a = True && 1 / z > 0; }
%%
=>
fault DivideByZero at 1:56
~ divides_by_zero: run - - z=0
Procedure p(G: Graph, z: Int; a: Int) {
  a = 2 + 1 / z;
}
%%
=>
fault DivideByZero at 2:13
~ remainder_by_zero: run - - z=0
Procedure p(G: Graph, z: Long; a: Long) { a = 5 % z; }
%%
=>
fault DivideByZero at 1:49
~ first_of_two: run - - z=0
Procedure p(G: Graph, z: Int; a: Int) { a = (2147483647 + 1 - z) / z; }
%%
=>
fault Overflow at 1:57
~ sum_past_int: run - -
Procedure p(G: Graph; a: Int) { a = 2147483647; a = a + 1; }
%%
=>
fault Overflow at 1:55
~ difference_past_int: run - -
Procedure p(G: Graph; a: Int) { a = -INF; a = a - 1; }
%%
=>
fault Overflow at 1:49
~ product_past_long: run - -
Procedure p(G: Graph; a: Long) { a = 4294967296; a = a * 2147483648; }
%%
=>
fault Overflow at 1:56
~ product_fits_long: run - -
Procedure p(G: Graph; a: Long) { a = 4294967296; a = a * 2147483647; }
%%
=>
a = 9223372032559808512
turns 0
~ minus_past_int: run - -
Procedure p(G: Graph; a: Int) { a = -INF; a = -a; }
%%
=>
fault Overflow at 1:47
~ quotient_past_int: run - -
Procedure p(G: Graph; a: Int) { a = -INF; a = a / -1; }
%%
=>
fault Overflow at 1:49
~ cast_past_int: run - -
Procedure p(G: Graph; a: Int) { Long l = 2147483648; a = (Int) l; }
%%
=>
fault Overflow at 1:58
~ casts: run - -
Procedure p(G: Graph; a: Int, b: Long) { Long l = 2147483647; a = (Int) l; b = (Long) a + 1; }
%%
=>
a = 2147483647
b = 2147483648
turns 0
~ widened: run - - a=-1 k=2147483648
Procedure p(G: Graph, a: Int, k: Long; b: Long, c: Bool) { b = a + k; c = a < b; }
%%
=>
b = 2147483647
c = True
turns 0
~ infinite: run - -
Procedure p(G: Graph; a: Int, b: Long, c: Int, d: Long) { a = INF; b = INF; c = -INF; d = -INF; }
%%
=>
a = 2147483647
b = 9223372036854775807
c = -2147483648
d = -9223372036854775808
turns 0
~ truth_at_nodes: run - -
Procedure p(G: Graph, b: N_P<Bool>; a: N_P<Bool>, x: Bool) { G.a = !G.b; x = All(n: G.Nodes) {n.a || n.b}; }
%%
1 2
v 1 True
=>
x = True
node a
1 False
2 True
turns 0
~ nodes_compare: run - - s=6 r=NIL
Procedure p(G: Graph, s, r: Node; a, b, c: Bool, p: N_P<Bool>) { a = s == r; b = r == NIL; c = s != NIL; G.p = G == s; }
%%
4 6
=>
a = False
b = True
c = True
node p
4 False
6 True
turns 0
~ nil_from_the_start: run - -
Procedure p(G: Graph; a: Bool) { Node s; a = s == NIL; }
%%
1 2
=>
a = True
turns 0
";

/// Signs, limits of the types, spellings, arguments and columns.
pub const MORE_VALUES: &str = "
~ mixed_types: run - - a=-7 k=2
Procedure p(G: Graph, a: Int, k: Long; b, c, d, e: Long, f, g: Bool) { b = a / k; c = a % k; d = a * k; e = k - a; f = a < k; g = a == k; }
%%
=>
b = -3
c = -1
d = -14
e = 9
f = True
g = False
turns 0
~ signs: run - -
Procedure p(G: Graph; a, b, c, d, e, f, g: Int) { a = 7 % 2; b = 7 % -2; c = -7 % 2; d = -7 % -2; e = -6 / 4; f = 6 / -4; g = -6 / -4; }
%%
=>
a = 1
b = 1
c = -1
d = -1
e = -1
f = -1
g = 1
turns 0
~ precedence: run - -
Procedure p(G: Graph; a, b, c, d, e: Int, f, g, h: Bool) { a = 2 + 3 * 4 - 6 / 4 * 2; b = 10 - 4 - 3; c = 100 / 10 / 5; d = 7 - -3; e = -2 * -3; f = !(1 < 2) || 3 >= 3 && 2 != 2; g = 1 < 2 == True; h = !False == True; }
%%
=>
a = 12
b = 3
c = 2
d = 10
e = 6
f = False
g = True
h = True
turns 0
~ choices: run - - x=4 r=2 k=-1
Procedure p(G: Graph, x: Int, r: Node, k: Long; a, b: Int, c: Bool, d: Long, s, t: Node) { a = x > 0 ? x > 5 ? 3 : 2 : 1; b = x < 0 ? 1 : x < 5 ? 2 : 3; c = x > 0 ? x == 4 : False; d = x > 0 ? x : k; s = x > 0 ? NIL : r; t = x < 0 ? NIL : r; }
%%
1 2
=>
a = 2
b = 2
c = True
d = 4
s = NIL
t = 2
turns 0
~ long_least_values: run - -
Procedure p(G: Graph; a, b: Long) { a = -INF; b = a % -1; a = a / -1; }
%%
=>
fault Overflow at 1:65
~ long_minus: run - -
Procedure p(G: Graph; a: Long) { a = -INF; a = -a; }
%%
=>
fault Overflow at 1:48
~ long_plus: run - -
Procedure p(G: Graph; a: Long) { a = INF; a = a + 1; }
%%
=>
fault Overflow at 1:49
~ long_difference: run - -
Procedure p(G: Graph; a: Long) { a = -INF; a = a - 1; }
%%
=>
fault Overflow at 1:50
~ long_one_more: run - -
Procedure p(G: Graph; a: Long) { a = INF; a++; }
%%
=>
fault Overflow at 1:44
~ least_products: run - -
Procedure p(G: Graph; a: Int, b: Long) { a = -65536; a = a * 32768; b = -4294967296; b = b * 2147483648; }
%%
=>
a = -2147483648
b = -9223372036854775808
turns 0
~ product_one_past: run - -
Procedure p(G: Graph; a: Int) { a = 65536; a = a * 32768; }
%%
=>
fault Overflow at 1:50
~ cast_of_the_least: run - -
Procedure p(G: Graph; a: Int) { Long l = -2147483648; a = (Int) l; }
%%
=>
a = -2147483648
turns 0
~ cast_below_the_least: run - -
Procedure p(G: Graph; a: Int) { Long l = -2147483649; a = (Int) l; }
%%
=>
fault Overflow at 1:59
~ casts_to_the_same_type: run - - a=-2147483648 k=9223372036854775807
Procedure p(G: Graph, a: Int, k: Long; b: Int, c: Long) { b = (Int) a; c = (Long) k; }
%%
=>
b = -2147483648
c = 9223372036854775807
turns 0
~ cast_before_the_product: run - - a=2147483647
Procedure p(G: Graph, a: Int; b: Long) { b = (Long) a * a; }
%%
=>
b = 4611686014132420609
turns 0
~ cast_after_the_product: run - - a=2147483647
Procedure p(G: Graph, a: Int; b: Long) { b = (Long) (a * a); }
%%
=>
fault Overflow at 1:56
~ flexible_numbers: run - - k=0
Procedure p(G: Graph, k: Long; a: Int, b, c, d: Long, e: Bool) { a = (Int) (3000000000 - 2999999999); b = 3000000000 + 1; c = (Long) INF; d = k + INF; e = 1 < 3000000000; }
%%
=>
a = 1
b = 3000000001
c = 2147483647
d = 9223372036854775807
e = True
turns 0
~ infinite_by_the_letter: run - -
Procedure p(G: Graph; a, b, c: Int) { a = +INF; b = -(INF); c = - /* least */ INF; }
%%
=>
a = 2147483647
b = -2147483647
c = -2147483648
turns 0
~ other_spellings: run - -
Proc p(G: DGraph, v: Node_Prop<Int>(G); a: Bool, b: Bool, c: Int, q: Node_Property<Int>) { a |= True; b &= True; c = 0012; G.q = G.v; }
%%
1 1
v 1 08
=>
a = True
b = False
c = 12
node q
1 8
turns 0
~ at_once_least_and_greatest: run - -
Procedure p(G: Graph; a, b: Int, c: Long) { a = 5; a min= 3; a max= -2; b max= 4; c += a; c *= 10; }
%%
=>
a = 3
b = 4
c = 30
turns 0
~ comparisons_of_longs: run - - k=-9223372036854775808 l=9223372036854775807
Procedure p(G: Graph, k, l: Long; a, b, c, d, e, f: Bool) { a = k < l; b = l <= k; c = k == l; d = k != l; e = k >= k; f = l > l; }
%%
=>
a = True
b = False
c = False
d = True
e = True
f = False
turns 0
~ comparisons_of_truth: run - - x=1 y=False
Procedure p(G: Graph, x, y: Bool; a, b, c: Bool) { a = x == y; b = x != y; c = !x || y; }
%%
=>
a = False
b = True
c = False
turns 0
~ arguments_of_each_type: run - - i=-0 l=-9223372036854775808 b=true n=NIL m=007
Procedure p(G: Graph, i: Int, l: Long, b: Bool, n, m: Node; a: Int, c: Long, d: Bool, e, f: Node) { a = i; c = l; d = b; e = n; f = m; }
%%
7 8
=>
a = 0
c = -9223372036854775808
d = True
e = NIL
f = 7
turns 0
~ columns_of_each_type: run - -
Procedure p(G: Graph, i: N_P<Int>, l: N_P<Long>, b: N_P<Bool>; x: N_P<Int>, y: N_P<Long>, z: N_P<Bool>) { G.x = G.i; G.y = G.l; G.z = G.b; }
%%
# numbers, then values
5 3
v 3 -2147483648 9223372036854775807 1
v 4 2147483647 -9223372036854775808 False
=>
node x y z
3 -2147483648 9223372036854775807 True
4 2147483647 -9223372036854775808 False
5 0 0 False
turns 0
";
