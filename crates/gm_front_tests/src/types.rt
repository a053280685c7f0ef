//! Texts and their verdicts, by scanning, parsing and typing. Each row has a text and its answer: that it is accepted, or
//! the rule that is broken with its place. The answers were worked out by hand from the rules in `docs/LANGUAGE.md`.

use crate::rows::{all_read, is_row, parts_of, same};
use crate::tokens::tokens_of;
use gm_ast::forms::Typed;
use gm_ast::surface::SpelledProcedure;
use gm_base::{Refusal, Stop};
use gm_parse::parse;
use gm_token::Tokens;
use gm_types::typed;
use std::alloc::{AllocError, Global};
use std::process::Abort;
use std::test::Fail;

// The line before the statements of the tables, which begin in line 2.
const HEAD: &str =
    "Procedure f(G: Graph, a: Int, b: Long, c: Bool, s: Node, v: N_P<Int>, w: E_P<Int>; p: N_P<Int>, q: N_P<Long>, r: N_P<Bool>, t: N_P<Node>): Int {";

// All of them, rule by rule.
const STATEMENTS: &str = "
# T1: names that are not known.
a = y; => T1 at 2:5
y = 1; => T1 at 2:1
y.p = 1; => T1 at 2:1
s.y = 1; => T1 at 2:3
G.y = 1; => T1 at 2:3
a = s.y; => T1 at 2:7
a = y.p; => T1 at 2:5
a = y.z; => T1 at 2:5
a = y.Degree(); => T1 at 2:5
y++; => T1 at 2:1
s.y += 1; => T1 at 2:3
a += y; => T1 at 2:6
c += y; => T1 at 2:6
Foreach (n: y.Nodes) { } => T1 at 2:13
For (n: y.Nbrs) { } => T1 at 2:9
a = Sum(n: y.Nodes) {1}; => T1 at 2:12
InBFS (n: y.Nodes From s) { } => T1 at 2:11
InBFS (n: G.Nodes From y) { } => T1 at 2:24
N_P<Int>(y) k; => T1 at 2:10
Node(y) k; => T1 at 2:6
Foreach (n: G.Nodes) { n.p <= 1 @ y; } => T1 at 2:35
a += 1 @ y; => T1 at 2:10
Edge e = y.ToEdge(); => T1 at 2:10
a = f; => T1 at 2:5
a = Nodes; => T1 at 2:5
If (y) { } => T1 at 2:5
Return y; => T1 at 2:8
a = c ? y : True; => T1 at 2:9
a = (Int) y; => T1 at 2:11
# Where names are known.
Int k = k; => T1 at 2:9
Edge e = e.ToEdge(); => T1 at 2:10
N_P<Int>(k) k; => T1 at 2:10
k = 1; Int k; => T1 at 2:1
Int k = 1; a = k; => accepted
{ Int k; } k = 1; => T1 at 2:12
{ Int k; { k = 1; } k = 2; } => accepted
Foreach (n: n.Nbrs) { } => T1 at 2:13
Foreach (n: G.Nodes) (n.v > 0) { n.p = n.v; s = n; } => accepted
Foreach (n: G.Nodes) { Int k; } k = 1; => T1 at 2:33
Foreach (n: G.Nodes) Int k; k = 1; => T1 at 2:29
Foreach (n: G.Nodes) { } s = n; => T1 at 2:30
If (c) Int k = 1; Else k = 2; => T1 at 2:24
If (c) Int k = 1; k = 2; => T1 at 2:19
If (c) a = 1; Else Int k = 2; k = 2; => T1 at 2:31
While (c) Int k = 1; k = 2; => T1 at 2:22
Do { Bool k; } While (k); => T1 at 2:23
a = Sum(n: n.Nbrs) {1}; => T1 at 2:12
a = Sum(n: G.Nodes) (n.r) {n.v} + n.v; => T1 at 2:35
InBFS (n: G.Nodes From n) { } => T1 at 2:24
InBFS (n: G.Nodes From s) (n.r) { Int k; } InReverse (n.r) { n.p = 1; k = 1; } => T1 at 2:71
InBFS (n: G.Nodes From s) { } InReverse { } s = n; => T1 at 2:49
# T2: names that are known already.
Int a; => T2 at 2:5
Bool G; => T2 at 2:6
Node p; => T2 at 2:6
N_P<Int> w; => T2 at 2:10
Int k; Bool k; => T2 at 2:13
Int k, l, k; => T2 at 2:11
Int a = 1; => T2 at 2:5
Int k; { Int k; } => T2 at 2:14
Int k; While (c) Int k; => T2 at 2:22
{ Int k; } { Bool k; } Node k; => accepted
If (c) Int k = 1; Else Bool k = True; => accepted
Int f; f = 1; => accepted
Foreach (a: G.Nodes) { } => T2 at 2:10
For (s: G.Nodes) { } => T2 at 2:6
Foreach (G: G.Nodes) { } => T2 at 2:10
Foreach (n: G.Nodes) { Foreach (n: n.Nbrs) { } } => T2 at 2:33
Foreach (n: G.Nodes) { Int n; } => T2 at 2:28
Foreach (n: G.Nodes) { } Foreach (n: G.Nodes) { } Int n; => accepted
InBFS (s: G.Nodes From s) { } => T2 at 2:8
a = Sum(a: G.Nodes) {1}; => T2 at 2:9
a = Sum(n: G.Nodes) {Sum(n: n.Nbrs) {1}}; => T2 at 2:26
c = Sum(c: G.Nodes) {1}; => T9 at 2:3
a = Sum(a: G.Nodes) {NIL}; => T8 at 2:5
Edge a = s.ToEdge(); => T2 at 2:6
# T4: types where they may not stand.
Graph k; => T4 at 2:1
DGraph k; => T4 at 2:1
Graph k = 1; => T4 at 2:1
Int k; Long l; Bool m; Node n; N_P<Int> i; Node_Prop<Long> j; Node_Property<Bool> o; N_P<Node> u; => accepted
Node(G) k; N_P<Node(G)>(G) l; Foreach (n: G.Nodes) { Edge(G) e = n.ToEdge(); } => accepted
E_P<Int> k; => T4 at 2:1
Edge_Prop<Int> k; => T4 at 2:1
E_P<Node> k; => T4 at 2:1
N_P<Edge> k; => T4 at 2:5
N_P<Graph> k; => T4 at 2:5
N_P<N_P<Int>> k; => T4 at 2:5
N_P<E_P<Int>> k; => T4 at 2:5
Foreach (n: G.Nodes) { N_P<Int> k; } => T4 at 2:24
Foreach (n: G.Nodes) { Foreach (m: n.Nbrs) N_P<Int> k; } => T4 at 2:44
InBFS (n: G.Nodes From s) { N_P<Int> k; } => T4 at 2:29
InBFS (n: G.Nodes From s) { } InReverse { N_P<Int> k; } => T4 at 2:43
While (c) { N_P<Int> k; } For (n: G.Nodes) { N_P<Int> l; } => accepted
# T5: a name after a type that is not the graph.
Node(s) k; => T5 at 2:6
N_P<Int>(a) k; => T5 at 2:10
N_P<Node(p)>(G) k; => T5 at 2:10
Foreach (n: G.Nodes) { Edge(n) e = n.ToEdge(); } => T5 at 2:29
# T6: ranges and roots.
Foreach (n: s.Nodes) { } => T6 at 2:13
For (n: v.Nodes) { } => T6 at 2:9
Foreach (n: G.Nbrs) { } => T6 at 2:13
Foreach (n: G.InNbrs) { } => T6 at 2:13
Foreach (n: a.OutNbrs) { } => T6 at 2:13
For (n: c.UpNbrs) { } => T6 at 2:9
Foreach (n: p.DownNbrs) { } => T6 at 2:13
Foreach (n: s.Nbrs) { } Foreach (n: s.OutNbrs) { } Foreach (n: s.InNbrs) { } For (n: s.UpNbrs) { } For (n: s.DownNbrs) { } => accepted
Foreach (n: G.Nodes) { Foreach (m: n.Nbrs) { Foreach (l: m.Nbrs) { } } } => accepted
Foreach (n: G.Nodes) { Edge e = n.ToEdge(); Foreach (m: e.Nbrs) { } } => T6 at 2:57
a = Count(n: b.Nbrs); => T6 at 2:14
a = Count(n: s.Nodes); => T6 at 2:14
G.p = Count(n: G.Nbrs); => T6 at 2:16
G.p = Count(n: G.Nodes); => accepted
InBFS (n: s.Nodes From s) { } => T6 at 2:11
InBFS (n: G.Nodes From a) { } => T6 at 2:24
InBFS (n: G.Nodes ; G) { } => T6 at 2:21
InBFS (n: a.Nodes From b) { } => T6 at 2:11
InBFS (n: G.Nodes ; s) { } => accepted
b = Sum(n: a.Nbrs) {True}; => T6 at 2:12
# T7: properties and methods.
a = a.p; => T7 at 2:5
a = s.a; => T7 at 2:5
a = s.w; => T7 at 2:5
a = p.v; => T7 at 2:5
a = s.G; => T7 at 2:5
a = G.p; => T7 at 2:5
a = s.v; => accepted
a = p; => T7 at 2:5
a = w; => T7 at 2:5
s = G; => T7 at 2:5
a = s.Foo(); => T7 at 2:5
a = s.degree(); => T7 at 2:5
a = a.Degree(); => T7 at 2:5
a = G.Degree(); => T7 at 2:5
a = p.InDegree(); => T7 at 2:5
a = s.NumNodes(); => T7 at 2:5
a = s.NumEdges(); => T7 at 2:5
a = G.NumNodes() + G.NumEdges(); => accepted
a = s.Degree() + s.NumNbrs() + s.OutDegree() + s.InDegree(); => accepted
a = s.ToEdge(); => T7 at 2:5
Int k = s.ToEdge(); => T7 at 2:9
s.p += s.ToEdge(); => T7 at 2:8
Foreach (n: G.Nodes) { Edge e; e = n.ToEdge(); } => T9 at 2:29
Foreach (n: G.Nodes) { Edge e = ((n.ToEdge())); a = e.w; } => accepted
Edge e = a.ToEdge(); => T7 at 2:10
Edge e = G.ToEdge(); => T7 at 2:10
Foreach (n: G.Nodes) { Edge e = c ? n.ToEdge() : n.ToEdge(); } => T7 at 2:37
Foreach (n: G.Nodes) { Edge e = n.ToEdge(); a = e.p; } => T7 at 2:49
Foreach (n: G.Nodes) { Edge e = n.ToEdge(); a = e.Degree(); } => T7 at 2:49
a.p = 1; => T7 at 2:1
s.a = 1; => T7 at 2:1
s.w = 1; => T7 at 2:1
s.G = 1; => T7 at 2:1
a.p = y; => T7 at 2:1
Foreach (n: G.Nodes) { n.w <= 1 @ n; } => T7 at 2:24
Foreach (n: G.Nodes) { Edge e = n.ToEdge(); e.p = 1; } => T7 at 2:45
a.p++; => T7 at 2:1
# Group assignments, in which the graph stands for the node.
G.p = G.v + G.Degree() * G.InDegree() - G.NumNbrs(); G.q = G.NumNodes(); G.t = G; G.r = G == s && !G.r; => accepted
G.p = v; => T7 at 2:7
G.p = G.w; => T7 at 2:7
G.p = G.a; => T7 at 2:7
G.p = a.v; => T7 at 2:7
G.p = G; => T9 at 2:5
G.w = 1; => T7 at 2:1
G.a = 1; => T7 at 2:1
G.a = y; => T7 at 2:1
G.p += 1; => T7 at 2:1
G.p <= 1; => T7 at 2:1
G.p++; => T7 at 2:1
G.r &&= True; => T7 at 2:1
G.p = Sum(n: G.Nodes) (n != G) {n.v * G.v}; => accepted
G.p = G.v; a = G.v; => T7 at 2:16
G.t = G.ToEdge(); => T7 at 2:7
# T8: operands.
a = a + True; => T8 at 2:7
a = c - a; => T8 at 2:7
a = s * 2; => T8 at 2:7
a = 1 / NIL; => T8 at 2:7
a = c % c; => T8 at 2:7
a = -c; => T8 at 2:5
a = -s; => T8 at 2:5
c = c < c; => T8 at 2:7
c = s >= s; => T8 at 2:7
c = a <= True; => T8 at 2:7
c = NIL > 1; => T8 at 2:9
c = a < b && b <= 1 && a > 2 || b >= a; => accepted
c = a && c; => T8 at 2:7
c = c || 1; => T8 at 2:7
c = 1 && 2; => T8 at 2:7
c = !a; => T8 at 2:5
c = !1; => T8 at 2:5
c = !!c; => accepted
c = c == a; => T8 at 2:7
c = s != c; => T8 at 2:7
c = 1 == True; => T8 at 2:7
c = 0 == NIL; => T8 at 2:7
c = s != b; => T8 at 2:7
c = a == b && c != True && s == NIL && NIL == NIL && 1 != a; => accepted
Foreach (n: G.Nodes) { Edge e = n.ToEdge(); c = e == e; } => T8 at 2:51
a = c ? 1 : True; => T8 at 2:7
a = c ? NIL : a; => T8 at 2:7
s = c ? s : NIL; c = c ? c : False; b = c ? a : b; a = c ? a : 1; => accepted
a = Sum(n: G.Nodes) {True}; => T8 at 2:5
a = Product(n: G.Nodes) {n}; => T8 at 2:5
a = Min(n: G.Nodes) {n.r}; => T8 at 2:5
a = Max(n: G.Nodes) {NIL}; => T8 at 2:5
a = Sum(n: G.Nodes) {n.v} + Product(n: G.Nodes) {2} - Min(n: G.Nodes) {a} * Max(n: G.Nodes) {INF}; => accepted
a = (Int) c; => T8 at 2:5
b = (Long) NIL; => T8 at 2:5
a = (Int) b; b = (Long) a; a = (Int) (Long) (Int) 1; => accepted
a = (a + True) + 1; => T8 at 2:8
a = a + True + y; => T8 at 2:7
a = (y + True) + (a + True); => T1 at 2:6
b = Sum(n: G.Nodes) (1) {True}; => T10 at 2:22
# Literals and INF.
a = 2147483647; a = -2147483647; a = INF; a = +INF; a = -INF; a = -(INF); => accepted
a = 2147483648; => T8 at 2:5
a = -2147483648; => T8 at 2:6
a = 9223372036854775807; => T8 at 2:5
b = 2147483648; b = -2147483648; b = 9223372036854775807; b = -9223372036854775807; b = INF; b = -INF; => accepted
a = a + 2147483648; => T8 at 2:9
a = 2147483648 - a; => T8 at 2:5
b = a * 2147483648; => T8 at 2:9
b = b + 2147483648 * 2; => accepted
a = b + 2147483648; => T9 at 2:3
a = a * (1 + 3000000000 * 4000000000); => T8 at 2:14
a = INF - 2147483648; => T8 at 2:11
a = c ? 1 : 2147483648; => T8 at 2:13
b = c ? 1 : 2147483648; => accepted
b = c ? a : 2147483648; => T8 at 2:13
a = 1 < 3000000000 ? 1 : 2; => accepted
c = 1 < 3000000000; c = INF > 3000000000; c = 3000000000 == -1; c = b < 3000000000; => accepted
c = a < 3000000000; => T8 at 2:9
c = 3000000000 != a; => T8 at 2:5
c = 3000000000 + True < 1; => T8 at 2:16
a = (Int) 3000000000; a = a + (Int) 3000000000; b = (Long) 3000000000; => accepted
a = (Int) (a + 3000000000); => T8 at 2:16
a = a + (Long) 1; => T9 at 2:3
b = Sum(n: G.Nodes) {3000000000}; => accepted
a = Sum(n: G.Nodes) {3000000000}; => T9 at 2:3
a = Max(n: G.Nodes) {n.v + 3000000000}; => T8 at 2:28
s.p = 2147483648; => T8 at 2:7
s.q = 2147483648; s.q += 2147483648; G.q = -INF; => accepted
G.p = 2147483648; => T8 at 2:7
a += 2147483648; => T8 at 2:6
s.p min= 2147483648; => T8 at 2:10
Foreach (n: G.Nodes) { n.p <= 2147483648 @ n; } => T8 at 2:31
Int k = 2147483648; => T8 at 2:9
Long k = 2147483648; Int l = 2147483647; => accepted
c = 0; => T9 at 2:3
c = INF; => T9 at 2:3
s = 0; => T9 at 2:3
c = 3000000000; => T9 at 2:3
b = -9223372036854775808; => NumberTooLarge at 2:6
# T9: values and their targets.
a = True; => T9 at 2:3
a = b; => T9 at 2:3
b = a; b = s.v; a = s.v; => accepted
b = c; => T9 at 2:3
c = a; => T9 at 2:3
c = NIL; => T9 at 2:3
s = c; => T9 at 2:3
a = s; => T9 at 2:3
a = c ? a : b; => T9 at 2:3
a = Count(n: G.Nodes) > 1; => T9 at 2:3
c = Count(n: G.Nodes); => T9 at 2:3
a = Count(n: G.Nodes) + Count(n: G.Nodes) (n.r) {n.v > 1}; c = Exist(n: G.Nodes) || All(n: G.Nodes) {n.r}; => accepted
a = Exist(n: G.Nodes); => T9 at 2:3
a = Max(n: G.Nodes) {n.q}; => T9 at 2:3
Foreach (n: G.Nodes) { Edge e = n.ToEdge(); a = e; } => T9 at 2:47
s.p = b; => T9 at 2:5
s.p = True; => T9 at 2:5
s.r = 1; => T9 at 2:5
s.t = 0; => T9 at 2:5
s.q = a; s.p = a; s.r = c; s.t = s; s.t = NIL; => accepted
G.p = b; => T9 at 2:5
G.r = G.v; => T9 at 2:5
G.t = 1; => T9 at 2:5
Foreach (n: G.Nodes) { n.p <= b @ n; } => T9 at 2:28
Foreach (n: G.Nodes) { n.r <= 1; } => T9 at 2:28
Foreach (n: G.Nodes) { n.q <= a @ n; n.p <= a; } => accepted
Int k = True; => T9 at 2:7
Int k = b; => T9 at 2:7
Bool k = 1; => T9 at 2:8
Node k = 1; => T9 at 2:8
Long k = a; Node l = NIL; Node m = s; Bool n = a < b; Int o = a; => accepted
Edge k; => T9 at 2:6
Edge k, l; => T9 at 2:6
Edge k = s; => T9 at 2:8
Edge k = 1; => T9 at 2:8
Foreach (n: G.Nodes) { Edge e = n.ToEdge(); Edge d = e; } => T9 at 2:52
Edge k = y; => T1 at 2:10
p = 1; => T9 at 2:3
p = y; => T1 at 2:5
r = True; => T9 at 2:3
p <= 1; => T9 at 2:3
p += 1; => T9 at 2:3
a += True; => T9 at 2:3
a += b; => T9 at 2:3
b += a; b *= 2; a min= 1; a max= INF; c &&= a < b; c ||= True; c &= c; c |= False; s.q += s.v; s.r |= c; => accepted
s.p max= b; => T9 at 2:5
s.p min= NIL; => T9 at 2:5
c += 1; => T9 at 2:3
c &&= 1; => T9 at 2:3
c |= a; => T9 at 2:3
a &&= True; => T9 at 2:3
s += 1; => T9 at 2:3
# T10: conditions.
If (a) { } => T10 at 2:5
If ((a)) { } => T10 at 2:5
If (a + 1) { } => T10 at 2:5
If (-a) { } Else { } => T10 at 2:5
If ((Int) 1) { } => T10 at 2:5
If (NIL) { } => T10 at 2:5
If (s.p) { } => T10 at 2:5
If (Sum(n: G.Nodes) {1}) { } => T10 at 2:5
If ((c)) { } While (!c) { } Do { } While (a < 1); => accepted
While (1) { } => T10 at 2:8
Do { } While (s); => T10 at 2:15
Foreach (n: G.Nodes) (n.v) { } => T10 at 2:23
For (n: G.Nodes) (INF) { } => T10 at 2:19
InBFS (n: G.Nodes From s) (n) { } => T10 at 2:28
InBFS (n: G.Nodes From s) { } InReverse (n.v + 1) { } => T10 at 2:42
a = Count(n: G.Nodes) (n.v); => T10 at 2:24
a = Count(n: G.Nodes) {n.v}; => T10 at 2:24
a = Count(n: G.Nodes) (n.r) {1}; => T10 at 2:30
c = Exist(n: G.Nodes) {(n.v)}; => T10 at 2:24
c = All(n: G.Nodes) {n}; => T10 at 2:22
c = All(n: G.Nodes) (a) {True}; => T10 at 2:22
a = Min(n: G.Nodes) (n.v) {1}; => T10 at 2:22
a = a ? 1 : 2; => T10 at 2:5
a = 1 ? 1 : True; => T10 at 2:5
If (1 ? 2 : 3) { } => T10 at 2:5
If (c ? 1 : True) { } => T8 at 2:7
Foreach (n: G.Nodes) { Edge e = n.ToEdge(); If (e) { } } => T10 at 2:49
# T11: reductions and their targets.
c += True; => T11 at 2:3
c *= c; => T11 at 2:3
c min= False; => T11 at 2:3
s max= s; => T11 at 2:3
s.r += True; => T11 at 2:5
s.t min= NIL; => T11 at 2:5
a &&= 1; => T11 at 2:3
a ||= a; => T11 at 2:3
b &= 1; => T11 at 2:3
s.p |= 1; => T11 at 2:5
s &&= s; => T11 at 2:3
c++; => T11 at 2:2
s++; => T11 at 2:2
s.r++; => T11 at 2:4
s.t++; => T11 at 2:4
p++; => T11 at 2:2
a++; b++; s.p++; s.q++; => accepted
# T12: targets that may not be assigned.
Foreach (n: G.Nodes) { n = s; } => T12 at 2:24
For (n: G.Nodes) { n = s; } => T12 at 2:20
InBFS (n: G.Nodes From s) { n = s; } => T12 at 2:29
InBFS (n: G.Nodes From s) { } InReverse { n = s; } => T12 at 2:43
Foreach (n: G.Nodes) { Foreach (m: n.Nbrs) { n = m; } } => T12 at 2:46
Foreach (n: G.Nodes) { n = y; } => T12 at 2:24
Foreach (n: G.Nodes) { n = 1; } => T12 at 2:24
Foreach (n: G.Nodes) { n++; } => T12 at 2:24
Foreach (n: G.Nodes) { n += 1; } => T12 at 2:24
Foreach (n: G.Nodes) { n <= s @ n; } => T12 at 2:24
G = s; => T12 at 2:1
G++; => T12 at 2:1
G <= 1; => T12 at 2:1
Foreach (n: G.Nodes) { Edge e = n.ToEdge(); e = e; } => T12 at 2:45
Foreach (n: G.Nodes) { Edge e = n.ToEdge(); e = n.ToEdge(); } => T12 at 2:45
Foreach (n: G.Nodes) { Edge e = n.ToEdge(); e.w = 1; } => T12 at 2:45
Foreach (n: G.Nodes) { Edge e = n.ToEdge(); e.w max= 1; } => T12 at 2:45
Foreach (n: G.Nodes) { Edge e = n.ToEdge(); e.w++; } => T12 at 2:45
w = 1; => T12 at 2:1
w++; => T12 at 2:1
a <= 1; => T12 at 2:1
Foreach (n: G.Nodes) { s <= n @ n; } => T12 at 2:24
c <= y; => T12 at 2:1
N_P<Int> k = 1; => T12 at 2:10
N_P<Int> k = y; => T12 at 2:10
N_P<Bool> k = 1; => T12 at 2:11
# T13: names after @.
Foreach (n: G.Nodes) { n.p <= 1 @ a; } => T13 at 2:35
Foreach (n: G.Nodes) { n.p <= 1 @ s; } => T13 at 2:35
Foreach (n: G.Nodes) { a += 1 @ G; } => T13 at 2:33
s.p += 1 @ p; => T13 at 2:12
Foreach (n: G.Nodes) { } a += 1 @ n; => T1 at 2:35
Foreach (n: G.Nodes) { Foreach (m: n.Nbrs) { m.p += 1 @ n; m.q min= 1 @ m; } n.p <= 1 @ n; } => accepted
For (n: G.Nodes) { a += 1 @ n; } InBFS (n: G.Nodes From s) { a += 1 @ n; } InReverse { a += 1 @ n; } => accepted
a += True @ s; => T9 at 2:3
# Argument reductions.
<a; s> min= <1; s>; => accepted
<s.p; s.q, s.r, s.t> max= <a; a, c, NIL>; => accepted
<b; a> min= <a; Count(n: G.Nodes)>; => accepted
<a; c, b> max= <INF; (a < b), -INF>; => accepted
Foreach (n: G.Nodes) { Foreach (m: n.Nbrs) { <m.p; m.t> min= <n.v; n> @ n; } } => accepted
For (n: G.Nodes) { <a; s> max= <n.v; n> @ n; } => accepted
<s.q; s.p> min= <2147483648; 1>; => accepted
# T1, T7 and T8: the parts by themselves.
<a; y> min= <1; 2>; => T1 at 2:5
<a; b> min= <1; y>; => T1 at 2:17
<s.y; s.p> min= <1; 2>; => T1 at 2:4
<a; b> min= <1; 2> @ y; => T1 at 2:22
<a; b> min= <k; 2>; Int k; => T1 at 2:14
<G.p; G.q> min= <1; 2>; => T7 at 2:2
<s.p; s.a> min= <1; 2>; => T7 at 2:7
<a; b> min= <1; a + c>; => T8 at 2:19
<a; b> min= <2147483648; 1>; => T8 at 2:14
# T9: a value does not fit its target, or the lists differ in length.
<a; b> min= <b; 1>; => T9 at 2:8
<a; s> min= <1; 2>; => T9 at 2:8
<a; c> max= <1; a>; => T9 at 2:8
<a; s, b> max= <1; NIL, True>; => T9 at 2:11
<s.p; s.q> min= <s.q; 1>; => T9 at 2:12
<a; b> min= <1; 2, 3>; => T9 at 2:8
<a; b, c> min= <1; 2>; => T9 at 2:11
<p; q> min= <1; 2>; => T9 at 2:8
<c; a> min= <1; 1>; => T9 at 2:8
# T11: the first target is no number.
<c; a> min= <True; 1>; => T11 at 2:8
<s; a> max= <s; 1>; => T11 at 2:8
<s.r; s.p> min= <True; 1>; => T11 at 2:12
<s.t; s.p> max= <NIL; 1>; => T11 at 2:12
# T12: the targets do not belong together, or one may not be assigned.
<s.p; a> min= <1; 2>; => T12 at 2:7
<a; s.p> min= <1; 2>; => T12 at 2:5
<a; b, a> min= <1; 2, 3>; => T12 at 2:8
<s.p; s.p> min= <1; 2>; => T12 at 2:7
<s.p; s.q, s.q, a> min= <1; 2, 3, 4>; => T12 at 2:12
Node k = s; <s.p; k.q> min= <1; 2>; => T12 at 2:19
Foreach (n: G.Nodes) { Foreach (m: n.Nbrs) { <n.p; m.q> min= <1; 2>; } } => T12 at 2:52
Foreach (n: G.Nodes) { <a; n> min= <1; n>; } => T12 at 2:28
<a; w> max= <1; 2>; => T12 at 2:5
Foreach (n: G.Nodes) { Edge e = n.ToEdge(); <e.w; e.w> min= <1; 2>; } => T12 at 2:46
<a; a> min= <True; y>; => T12 at 2:5
# T13: the name after @ is no iterator around the statement.
<a; b> min= <1; 2> @ s; => T13 at 2:22
<a; b> min= <1; True> @ s; => T9 at 2:8
# T14: values that are returned.
Return 1; => accepted
Return a; Return INF; Return c ? a : 2; => accepted
Return; => T14 at 2:1
Return True; => T14 at 2:1
Return b; => T14 at 2:1
Return NIL; => T14 at 2:1
Return 2147483648; => T8 at 2:8
Return b + 2147483648; => T14 at 2:1
Return a + True; => T8 at 2:10
Foreach (n: G.Nodes) { Edge e = n.ToEdge(); Return e; } => T14 at 2:45
# A second violation before, and a second one after.
a = y; a = z; => T1 at 2:5
a = True + y; a = True; => T1 at 2:12
a = True; Int a; => T9 at 2:3
Int a; a = True; => T2 at 2:5
a = y; Graph k; => T1 at 2:5
Graph k; a = y; => T4 at 2:1
y = 1; Node(s) k; => T1 at 2:1
Node(s) k; y = 1; => T5 at 2:6
If (1) { Foreach (n: s.Nodes) { } } => T10 at 2:5
Foreach (n: s.Nodes) (1) { y = 1; } => T6 at 2:13
c = a + c < a.p; => T8 at 2:7
a = a.p + y; => T7 at 2:5
a = a.p; a = True; => T7 at 2:5
a = True; a = s + 1; => T9 at 2:3
a = s + 1; a = True; => T8 at 2:7
c = (a + c < 1) || (c && b); => T8 at 2:8
Int a = True; => T2 at 2:5
c++; a = True; => T11 at 2:2
a = True; If (1) { } => T9 at 2:3
While (a) { c++; a = True; } => T10 at 2:8
a = b; c++; => T9 at 2:3
c++; G = 1; => T11 at 2:2
G = 1; c++; => T12 at 2:1
Foreach (n: G.Nodes) { n.p <= True @ a; n = s; } => T9 at 2:28
Foreach (n: G.Nodes) { n <= 1 @ a; } => T12 at 2:24
Foreach (n: G.Nodes) { n.p <= 1 @ a; n.p <= True; } => T13 at 2:35
c++; Return; => T11 at 2:2
Return; c++; => T14 at 2:1
Do { c++; } While (1); => T11 at 2:7
E_P<Edge> a; => T4 at 2:1
";

/// The tree of tokens, by a call that promises nothing.
pub(crate) fn tree_of(alloc: Global, tokens: &Tokens) -> Result<SpelledProcedure, Stop> {
    parse(alloc, tokens)
}

// The tree of a text.
fn spelled(alloc: Global, text: &[u8]) -> Result<SpelledProcedure, Stop> {
    let tokens = tokens_of(alloc, text)?;
    tree_of(alloc, &tokens)
}

/// The program of a text, by scanning, parsing and typing.
pub(crate) fn program_of(alloc: Global, text: &[u8]) -> Result<Typed, Stop> {
    let procedure = spelled(alloc, text)?;
    typed(alloc, procedure)
}

// Whether a text has a program, without it.
fn judge(alloc: Global, text: &[u8]) -> Result<(), Stop> {
    match program_of(alloc, text) {
        Ok(_) => Ok(()),
        Err(stop) => Err(stop),
    }
}

fn verdict(alloc: Global, text: &[u8]) -> Result<String, AllocError> {
    match judge(alloc, text) {
        Ok(()) => String::from_str(alloc, "accepted"),
        Err(Stop::Refused(Refusal { rule, place })) => format!(in alloc; "{rule} at {place}"),
        Err(stop) => format!(in alloc; "{stop}"),
    }
}

/// Compares the answer of a procedure.
pub(crate) fn procedure_holds(
    rt: &(impl Abort + AllocGlobal),
    text: &str,
    want: &str,
) -> Result<(), Fail> {
    let answer = verdict(rt.alloc(), text.as_bytes())?;
    same(rt, answer.as_str(), want, text);
    Ok(())
}

// The same of a row.
fn procedure_row_holds(rt: &(impl Abort + AllocGlobal), row: &str) -> Result<(), Fail> {
    let (text, want) = parts_of(row)?;
    procedure_holds(rt, text, want)
}

/// Compares the answers of the procedures of so many rows.
pub(crate) fn procedures_hold(
    rt: &(impl Abort + AllocGlobal),
    rows: &str,
    count: usize,
) -> Result<(), Fail> {
    let mut read = 0usize;
    for line in rows.lines() {
        if is_row(line) {
            procedure_row_holds(rt, line)?;
            read = read.saturating_add(1);
        }
    }
    all_read(rt, read, count);
    Ok(())
}

// The answer of statements behind the head.
fn answer_behind(alloc: Global, statements: &str) -> Result<String, AllocError> {
    let text = format!(in alloc; "{HEAD}\n{statements}\n}}")?;
    verdict(alloc, text.as_str().as_bytes())
}

// Compares the answer of statements behind the head.
fn statement_holds(
    rt: &(impl Abort + AllocGlobal),
    statements: &str,
    want: &str,
) -> Result<(), Fail> {
    let answer = answer_behind(rt.alloc(), statements)?;
    same(rt, answer.as_str(), want, statements);
    Ok(())
}

// The same of a row.
fn statement_row_holds(rt: &(impl Abort + AllocGlobal), row: &str) -> Result<(), Fail> {
    let (statements, want) = parts_of(row)?;
    statement_holds(rt, statements, want)
}

// Compares the answers of the statements of so many rows.
fn statements_hold(rt: &(impl Abort + AllocGlobal), rows: &str, count: usize) -> Result<(), Fail> {
    let mut read = 0usize;
    for line in rows.lines() {
        if is_row(line) {
            statement_row_holds(rt, line)?;
            read = read.saturating_add(1);
        }
    }
    all_read(rt, read, count);
    Ok(())
}

#[test]
fn texts(rt: HostRuntime) -> Result<(), Fail> {
    statements_hold(&rt, STATEMENTS, 460)
}

#[test]
fn texts_of_lines(rt: HostRuntime) -> Result<(), Fail> {
    statement_holds(
        &rt,
        "a = 1;\n  Foreach (n: G.Nodes) {\n    n.p = n.v + n.r;\n  }",
        "T8 at 4:15",
    )?;
    statement_holds(
        &rt,
        "If (c) {\n  a = 1;\n} Else {\n\n  a = NIL; }",
        "T9 at 6:5",
    )
}
