//! Procedures that are not canonical and near misses that are. Each row has the statements of a procedure and its
//! verdict, worked out by hand from the rules in `docs/LANGUAGE.md`.

use crate::verdicts::statements_hold;
use std::test::Fail;

// The line before the statements of the tables, which begin in line 2.
const HEAD: &str =
    "Procedure f(G: Graph, a: Int, b: Long, c: Bool, s: Node, v: N_P<Int>, w: E_P<Int>; p: N_P<Int>, q: N_P<Int>, r: N_P<Bool>): Int {";

// All of them, rule by rule.
const STATEMENTS: &str = "
# C1: loops of a sequential phase run over all nodes.
Foreach (n: s.Nbrs) { } => C1 at 2:13
For (n: s.OutNbrs) { } => C1 at 2:9
a = Sum(n: s.InNbrs) {1}; => C1 at 2:12
a = Count(n: s.UpNbrs) {True}; => C1 at 2:14
While (Exist(n: s.Nbrs) {n.r}) { } => C1 at 2:17
If (c) { } Else { Foreach (n: s.DownNbrs) { } } => C1 at 2:31
Do { } While (Count(n: s.Nbrs) > 0); => C1 at 2:24
Int k = Count(n: s.Nbrs); => C1 at 2:18
Return Count(n: s.Nbrs); => C1 at 2:17
s.p += Count(n: s.Nbrs); => C1 at 2:17
For (n: G.Nodes) { Foreach (t: n.Nbrs) { } } => C1 at 2:32
For (n: G.Nodes) (Count(t: n.Nbrs) > 0) { } => C1 at 2:28
Foreach (n: G.Nodes) { } For (m: G.Nodes) { } a = Count(k: G.Nodes); => accepted
For (n: G.Nodes) { Foreach (m: G.Nodes) { m.p = 1; } } => accepted
# C2: loops directly in parallel code run over neighbours of the outer iterator.
Foreach (n: G.Nodes) { Foreach (m: G.Nodes) { } } => C2 at 2:36
Foreach (n: G.Nodes) { n.p = Sum(m: G.Nodes) {m.v}; } => C2 at 2:37
Foreach (n: G.Nodes) { Foreach (t: s.Nbrs) { } } => C2 at 2:36
Foreach (n: G.Nodes) { n.p = Count(t: s.Nbrs); } => C2 at 2:39
Foreach (n: G.Nodes) { Node k = n; Foreach (t: k.Nbrs) { } } => C2 at 2:48
Foreach (n: G.Nodes) (Count(t: s.Nbrs) > 0) { } => C2 at 2:32
a = Sum(n: G.Nodes) {Count(t: s.Nbrs)}; => C2 at 2:31
a = Sum(n: G.Nodes) (Exist(m: G.Nodes) {m.r}) {1}; => C2 at 2:31
G.p = Count(t: s.Nbrs); => C2 at 2:16
G.p = Sum(n: G.Nodes) {n.v}; => C2 at 2:14
InBFS (n: G.Nodes From s) { Foreach (t: s.Nbrs) { } } => C2 at 2:41
InBFS (n: G.Nodes From s) { } InReverse { Foreach (t: G.Nodes) { } } => C2 at 2:55
InBFS (n: G.Nodes From s) { Foreach (t: s.UpNbrs) { } } => C2 at 2:41
InBFS (n: G.Nodes From s) (Count(t: s.Nbrs) > 0) { } => C2 at 2:37
Foreach (n: G.Nodes) { Foreach (t: n.Nbrs) { } n.p = Sum(t: n.InNbrs) {t.v} + Count(t: n.OutNbrs); } => accepted
a = Sum(n: G.Nodes) {Sum(t: n.Nbrs) {t.v}}; => accepted
InBFS (n: G.Nodes From s) { Foreach (t: n.Nbrs) { } Foreach (t: n.UpNbrs) { } Foreach (t: n.DownNbrs) { } } => accepted
# C3: no loop stands in an inner loop or reduction.
Foreach (n: G.Nodes) { Foreach (t: n.Nbrs) { n.p += Count(u: t.Nbrs); } } => C3 at 2:62
Foreach (n: G.Nodes) { Foreach (t: n.Nbrs) { n.p += Count(u: n.Nbrs); } } => C3 at 2:62
Foreach (n: G.Nodes) { Foreach (t: n.Nbrs) { n.p += Count(u: G.Nodes); } } => C3 at 2:62
Foreach (n: G.Nodes) { Foreach (t: n.Nbrs) (Exist(u: t.Nbrs) {u.r}) { } } => C3 at 2:54
Foreach (n: G.Nodes) { n.p = Sum(t: n.Nbrs) {Sum(u: t.Nbrs) {u.v}}; } => C3 at 2:53
Foreach (n: G.Nodes) { n.p = Sum(t: n.Nbrs) (Exist(u: t.Nbrs) {u.r}) {1}; } => C3 at 2:55
a = Sum(n: G.Nodes) {Sum(t: n.Nbrs) {Count(u: t.Nbrs)}}; => C3 at 2:47
Foreach (n: G.Nodes) { Foreach (t: n.Nbrs) { Int k = Count(u: t.Nbrs); } } => C3 at 2:63
InBFS (n: G.Nodes From s) { Foreach (t: n.Nbrs) { n.p += Count(u: t.UpNbrs); } } => C3 at 2:67
# C4: what stands in a sequential phase alone, or in parallel code alone.
Foreach (n: G.Nodes) { While (c) { } } => C4 at 2:24
Foreach (n: G.Nodes) { Do { } While (c); } => C4 at 2:24
Foreach (n: G.Nodes) { For (t: n.Nbrs) { } } => C4 at 2:24
Foreach (n: G.Nodes) { For (m: G.Nodes) { } } => C4 at 2:24
Foreach (n: G.Nodes) { InBFS (m: G.Nodes From s) { } } => C4 at 2:24
Foreach (n: G.Nodes) { InBFS (m: G.Nodes From s) { } InReverse { } } => C4 at 2:24
Foreach (n: G.Nodes) { Return 1; } => C4 at 2:24
Foreach (n: G.Nodes) { If (c) { } Else { Return 1; } } => C4 at 2:42
InBFS (n: G.Nodes From s) { While (c) { } } => C4 at 2:29
InBFS (n: G.Nodes From s) { } InReverse { Return 1; } => C4 at 2:43
Foreach (n: G.Nodes) { Foreach (t: n.Nbrs) { While (c) { } } } => C4 at 2:46
Foreach (n: G.Nodes) { Foreach (t: n.Nbrs) { For (u: t.Nbrs) { } } } => C4 at 2:46
Foreach (n: G.Nodes) { Foreach (t: n.Nbrs) { Return 1; } } => C4 at 2:46
For (n: G.Nodes) { n.p <= 1 @ n; } => C4 at 2:20
s.p <= 1; => C4 at 2:1
While (c) { s.p <= 1; } => C4 at 2:13
While (c) { Do { } While (c); For (n: G.Nodes) { InBFS (m: G.Nodes From n) { } } Return 1; } => accepted
While (c) { G.p = 1; } => accepted
Foreach (n: G.Nodes) { n.p <= 1; } => accepted
# C5: in parallel code properties and degrees are read through the iterators.
Foreach (n: G.Nodes) { n.p = s.v; } => C5 at 2:30
Foreach (n: G.Nodes) { n.p = s.Degree(); } => C5 at 2:30
Foreach (n: G.Nodes) { n.p = s.InDegree(); } => C5 at 2:30
Foreach (n: G.Nodes) (s.r) { } => C5 at 2:23
a = Sum(n: G.Nodes) {s.v}; => C5 at 2:22
a = Sum(n: G.Nodes) (s.r) {1}; => C5 at 2:22
Foreach (n: G.Nodes) { Node k = n; n.p = k.v; } => C5 at 2:42
G.p = s.v; => C5 at 2:7
G.p = G.v + s.Degree(); => C5 at 2:13
Foreach (n: G.Nodes) { Foreach (t: n.Nbrs) { n.p += t.v + s.v; } } => C5 at 2:59
Foreach (n: G.Nodes) { Foreach (t: n.Nbrs) (s.r) { } } => C5 at 2:45
Foreach (n: G.Nodes) { If (s.r) { } } => C5 at 2:28
Foreach (n: G.Nodes) { n.p <= s.v; } => C5 at 2:31
Foreach (n: G.Nodes) { s.p += s.v; } => C5 at 2:31
InBFS (n: G.Nodes From s) (s.r) { } => C5 at 2:28
InBFS (n: G.Nodes From s) { n.p = s.v; } => C5 at 2:35
InBFS (n: G.Nodes From s) { } InReverse (s.r) { } => C5 at 2:42
Foreach (n: G.Nodes) { Int k = s.v; } => C5 at 2:32
For (m: G.Nodes) { Foreach (n: G.Nodes) { n.p = m.v; } } => C5 at 2:49
Foreach (n: G.Nodes) { n.p = c ? 1 : (Int) (b * s.v); } => C5 at 2:49
a = s.v + s.Degree(); => accepted
For (n: G.Nodes) { a = n.v + n.Degree() + s.v; } => accepted
Foreach (n: G.Nodes) { Foreach (t: n.Nbrs) { n.p += n.v + t.v + n.Degree() + t.InDegree(); } } => accepted
G.p = G.v + G.Degree() + G.NumNodes(); => accepted
Foreach (n: G.Nodes) { s.p += n.v; } => accepted
Foreach (n: G.Nodes) { n.p = G.NumNodes() + G.NumEdges(); } => accepted
# C6: what stands in an inner body.
Foreach (n: G.Nodes) { Foreach (t: n.Nbrs) { n.p = 1; } } => C6 at 2:46
Foreach (n: G.Nodes) { Foreach (t: n.Nbrs) { n.p <= 1 @ n; } } => C6 at 2:46
Foreach (n: G.Nodes) { Foreach (t: n.Nbrs) { Foreach (u: t.Nbrs) { } } } => C6 at 2:46
Foreach (n: G.Nodes) { Foreach (t: n.Nbrs) { If (c) { n.p = t.v; } } } => C6 at 2:55
Foreach (n: G.Nodes) { Foreach (t: n.Nbrs) { { { n.q = 1; } } } } => C6 at 2:50
InBFS (n: G.Nodes From s) { Foreach (t: n.Nbrs) { n.p = 1; } } => C6 at 2:51
Foreach (n: G.Nodes) { Foreach (t: n.Nbrs) { ; { } If (c) { ; } Else { } n.p += 1; Int k; Int m = t.v; k = m; t.q += k; a += 1; s.p += 1; Edge e = t.ToEdge(); } } => accepted
Foreach (n: G.Nodes) { Foreach (t: n.Nbrs) { If (c) { Int k = 1; k = 2; n.p += k; } } } => accepted
Foreach (n: G.Nodes) { Foreach (t: n.Nbrs) { n.p++; a++; } } => accepted
# C7: edge properties are read along the way of the message.
Foreach (n: G.Nodes) { Foreach (t: n.Nbrs) { Edge e = t.ToEdge(); n.p += t.v + e.w; } } => C7 at 2:80
Foreach (n: G.Nodes) { Foreach (t: n.Nbrs) { Edge e = t.ToEdge(); n.p += e.w * t.v; } } => C7 at 2:74
Foreach (n: G.Nodes) { Foreach (t: n.Nbrs) { Edge e = t.ToEdge(); n.p += e.w + t.Degree(); } } => C7 at 2:74
Foreach (n: G.Nodes) { Foreach (t: n.Nbrs) { Edge e = t.ToEdge(); a += t.v + e.w; } } => C7 at 2:78
Foreach (n: G.Nodes) { Foreach (t: n.Nbrs) { Edge e = t.ToEdge(); s.p += t.v + e.w; } } => C7 at 2:80
Foreach (n: G.Nodes) { Foreach (t: n.Nbrs) { Edge e = t.ToEdge(); If (e.w > 0) { n.p += t.v; } } } => C7 at 2:71
Foreach (n: G.Nodes) { Foreach (t: n.Nbrs) { Edge e = t.ToEdge(); If (t.r) { n.p += e.w; } } } => C7 at 2:85
Foreach (n: G.Nodes) { Foreach (t: n.Nbrs) { Edge e = t.ToEdge(); If (c) { } Else { If (t.r) { n.p += e.w; } } } } => C7 at 2:103
Foreach (n: G.Nodes) { Foreach (t: n.Nbrs) (t.r) { Edge e = t.ToEdge(); n.p += e.w; } } => C7 at 2:80
Foreach (n: G.Nodes) { Foreach (t: n.Nbrs) { Edge e = t.ToEdge(); Int k = e.w; n.p += t.v + k; } } => C7 at 2:75
Foreach (n: G.Nodes) { Foreach (t: n.Nbrs) { Edge e = t.ToEdge(); Int k = t.v; n.p += k + e.w; } } => C7 at 2:91
Foreach (n: G.Nodes) { Foreach (t: n.Nbrs) { Edge e = t.ToEdge(); Int k = 0; k = e.w; n.p += t.v + k; } } => C7 at 2:82
Foreach (n: G.Nodes) { Foreach (t: n.Nbrs) { Edge e = t.ToEdge(); Int k = 0; n.p += t.v + k; k = e.w; } } => C7 at 2:98
Foreach (n: G.Nodes) { Foreach (t: n.Nbrs) { Edge e = t.ToEdge(); Int k = e.w; Int m = k; Int o = m; n.p += t.v + o; } } => C7 at 2:75
Foreach (n: G.Nodes) { Foreach (t: n.Nbrs) { Edge e = t.ToEdge(); Int o = 0; Int m = 0; Int k = 0; o = m; m = k; k = e.w; n.p += t.v + o; } } => C7 at 2:118
Foreach (n: G.Nodes) { Foreach (t: n.Nbrs) { Edge e = t.ToEdge(); Int k = 0; If (t.r) { k = 1; } n.p += k + e.w; } } => C7 at 2:109
Foreach (n: G.Nodes) { Foreach (t: n.Nbrs) { Edge e = t.ToEdge(); Int k = 0; If (e.w > 0) { k = 1; } n.p += k + t.v; } } => C7 at 2:82
Foreach (n: G.Nodes) { Foreach (t: n.Nbrs) { Edge e = t.ToEdge(); Int k = 0; k += e.w; n.p += t.v + k; } } => C7 at 2:83
Foreach (n: G.Nodes) { Foreach (t: n.Nbrs) { Edge e = t.ToEdge(); Bool k = t.r; If (k) { n.p += e.w; } } } => C7 at 2:97
Foreach (n: G.Nodes) { Foreach (t: n.Nbrs) { Edge e = t.ToEdge(); Node k = s; If (e.w > 0) { k = t; } k.p += t.v; } } => C7 at 2:83
Foreach (n: G.Nodes) { Foreach (t: n.Nbrs) { Edge e = t.ToEdge(); Node k = s; If (t.r) { k = t; } k.p += e.w; } } => C7 at 2:106
Foreach (n: G.Nodes) { Foreach (t: n.InNbrs) { Edge e = t.ToEdge(); t.p += e.w; } } => C7 at 2:76
Foreach (n: G.Nodes) { Foreach (t: n.InNbrs) { Edge e = t.ToEdge(); t.p += n.v + e.w; } } => C7 at 2:82
Foreach (n: G.Nodes) { Foreach (t: n.InNbrs) { Edge e = t.ToEdge(); Int k = e.w; t.p += k; } } => C7 at 2:77
InBFS (n: G.Nodes From s) { Foreach (t: n.DownNbrs) { Edge e = t.ToEdge(); n.p += e.w; } } => C7 at 2:83
InBFS (n: G.Nodes From s) { Foreach (t: n.UpNbrs) { Edge e = t.ToEdge(); t.p += e.w; } } => C7 at 2:81
InBFS (n: G.Nodes From s) { } InReverse { Foreach (t: n.DownNbrs) { Edge e = t.ToEdge(); a += e.w; } } => C7 at 2:95
Foreach (n: G.Nodes) { Foreach (t: n.Nbrs) { Edge e = t.ToEdge(); n.q += e.w; n.p += t.v + e.w; } } => C7 at 2:92
Foreach (n: G.Nodes) { Foreach (t: n.Nbrs) { Edge e = t.ToEdge(); n.p += t.v + e.w; n.q += e.w * t.v; } } => C7 at 2:80
Foreach (n: G.Nodes) { Foreach (t: n.Nbrs) { Edge e = t.ToEdge(); t.p += n.v + e.w; } } => accepted
Foreach (n: G.Nodes) { Foreach (t: n.Nbrs) { Edge e = t.ToEdge(); t.p += e.w; } } => accepted
Foreach (n: G.Nodes) { Foreach (t: n.Nbrs) { Edge e = t.ToEdge(); t.p += t.v + e.w; } } => accepted
Foreach (n: G.Nodes) { Foreach (t: n.Nbrs) { Edge e = t.ToEdge(); n.p += e.w; } } => accepted
Foreach (n: G.Nodes) { Foreach (t: n.Nbrs) { Edge e = t.ToEdge(); n.p += e.w + n.v; a += e.w; } } => accepted
Foreach (n: G.Nodes) { Foreach (t: n.Nbrs) { Edge e = t.ToEdge(); n.p += t.v; n.q += e.w; } } => accepted
Foreach (n: G.Nodes) { Foreach (t: n.Nbrs) { Edge e = t.ToEdge(); t.p += n.v; n.q += t.v; } } => accepted
Foreach (n: G.Nodes) { Foreach (t: n.Nbrs) { Edge e = t.ToEdge(); Int k = e.w; n.p += t.v; } } => accepted
Foreach (n: G.Nodes) { Foreach (t: n.Nbrs) { Edge e = t.ToEdge(); Int k = e.w; Int m = t.v; n.p += k; n.q += m; } } => accepted
Foreach (n: G.Nodes) { Foreach (t: n.Nbrs) { Edge e = t.ToEdge(); Int k = 0; k += t.v; k += e.w; } } => accepted
Foreach (n: G.Nodes) { Foreach (t: n.InNbrs) { Edge e = t.ToEdge(); n.p += e.w; } } => accepted
Foreach (n: G.Nodes) { Foreach (t: n.InNbrs) { Edge e = t.ToEdge(); n.p += t.v * e.w; a += e.w; } } => accepted
Foreach (n: G.Nodes) { Foreach (t: n.InNbrs) { Edge e = t.ToEdge(); t.p += n.v; n.q += e.w; } } => accepted
InBFS (n: G.Nodes From s) { Foreach (t: n.DownNbrs) { Edge e = t.ToEdge(); t.p += e.w; } } => accepted
InBFS (n: G.Nodes From s) { Foreach (t: n.UpNbrs) { Edge e = t.ToEdge(); n.p += e.w; } } => accepted
Foreach (n: G.Nodes) { Foreach (t: n.Nbrs) { Edge e = t.ToEdge(); Node k = s; k = t; k.p += e.w; } } => accepted
# Argument reductions, which rest on all their values.
Foreach (n: G.Nodes) { Foreach (t: n.Nbrs) { Edge e = t.ToEdge(); <t.p; t.q> min= <n.v; e.w>; } } => accepted
Foreach (n: G.Nodes) { Foreach (t: n.Nbrs) { Edge e = t.ToEdge(); <n.p; n.q> max= <e.w; n.v>; } } => accepted
Foreach (n: G.Nodes) { Foreach (t: n.InNbrs) { Edge e = t.ToEdge(); <n.p; n.q> max= <t.v; e.w>; } } => accepted
Foreach (n: G.Nodes) { Foreach (t: n.Nbrs) { Int k = t.v; <a; s> min= <k; t>; } } => accepted
Foreach (n: G.Nodes) { Foreach (t: n.Nbrs) { Edge e = t.ToEdge(); <n.p; n.q> max= <t.v; e.w>; } } => C7 at 2:89
Foreach (n: G.Nodes) { Foreach (t: n.Nbrs) { Edge e = t.ToEdge(); <n.p; n.q> max= <e.w; t.v>; } } => C7 at 2:84
Foreach (n: G.Nodes) { Foreach (t: n.Nbrs) { Edge e = t.ToEdge(); Int k = e.w; <n.p; n.q> max= <k; t.v>; } } => C7 at 2:75
Foreach (n: G.Nodes) { Foreach (t: n.InNbrs) { Edge e = t.ToEdge(); <t.p; t.q> min= <n.v; e.w>; } } => C7 at 2:91
Foreach (n: G.Nodes) { <n.p; n.q> min= <1; s.v>; } => C5 at 2:44
Foreach (n: G.Nodes) { <n.p; n.q> min= <1; Count(t: s.Nbrs)>; } => C2 at 2:53
Foreach (n: G.Nodes) { Foreach (t: n.Nbrs) { <t.p; t.q> min= <1; Count(u: t.Nbrs)>; } } => C3 at 2:75
# Tuples that are kept are compared: each local rests on all that they held.
Foreach (n: G.Nodes) { Foreach (t: n.Nbrs) { Edge e = t.ToEdge(); Int x = e.w; Int y = 0; <x; y> min= <t.v; 3>; n.p += y; } } => C7 at 2:75
Foreach (n: G.Nodes) { Foreach (t: n.Nbrs) { Edge e = t.ToEdge(); Int x = t.v; Int y = 0; <x; y> min= <e.w; 3>; n.p += y; } } => C7 at 2:104
Foreach (n: G.Nodes) { Foreach (t: n.Nbrs) { Edge e = t.ToEdge(); Int x = 0; Int y = 0; x = e.w; <y; x> max= <3; 4>; n.p += y + t.v; } } => C7 at 2:93
Foreach (n: G.Nodes) { Foreach (t: n.Nbrs) { Edge e = t.ToEdge(); Int x = e.w; Int y = 0; Int z = 0; <x; y, z> max= <1; 2, 3>; If (z > 0) { n.p += t.v; } } } => C7 at 2:75
Foreach (n: G.Nodes) { Foreach (t: n.Nbrs) { Edge e = t.ToEdge(); Int x = e.w; Int y = t.v; x min= 3; y min= 4; n.p += x; n.q += y; } } => accepted
Foreach (n: G.Nodes) { Foreach (t: n.Nbrs) { Edge e = t.ToEdge(); Int x = e.w; Int y = 0; <x; y> min= <n.v; 3>; n.p += y; } } => accepted
Foreach (n: G.Nodes) { Foreach (t: n.Nbrs) { Edge e = t.ToEdge(); Int x = e.w; Int y = 0; <x; y> min= <n.v; 3>; n.p += y; n.q += t.v; } } => accepted
Foreach (n: G.Nodes) { Foreach (t: n.Nbrs) { Edge e = t.ToEdge(); Int x = e.w; Int y = 0; <x; y> min= <n.v; 3>; t.p += y; } } => accepted
# C8: levels are asked of the iterator of a search, in its body.
Foreach (n: G.Nodes) { Foreach (t: n.UpNbrs) { } } => C8 at 2:36
Foreach (n: G.Nodes) { n.p = Count(t: n.DownNbrs); } => C8 at 2:39
a = Sum(n: G.Nodes) {Count(t: n.UpNbrs)}; => C8 at 2:31
InBFS (n: G.Nodes From s) (Count(t: n.UpNbrs) > 0) { } => C8 at 2:37
InBFS (n: G.Nodes From s) { } InReverse (Count(t: n.DownNbrs) > 0) { } => C8 at 2:51
InBFS (n: G.Nodes From s) { n.p = Count(t: n.UpNbrs) + Count(t: n.DownNbrs); } InReverse { Foreach (t: n.DownNbrs) { n.q += 1; } } => accepted
# C9: an edge is asked of the iterator of the inner loop.
Foreach (n: G.Nodes) { Edge e = n.ToEdge(); } => C9 at 2:33
Edge e = s.ToEdge(); => C9 at 2:10
Foreach (n: G.Nodes) { Foreach (t: n.Nbrs) { Edge e = n.ToEdge(); } } => C9 at 2:55
Foreach (n: G.Nodes) { Foreach (t: n.Nbrs) { Edge e = s.ToEdge(); } } => C9 at 2:55
Foreach (n: G.Nodes) { Foreach (t: n.Nbrs) { Node k = t; Edge e = k.ToEdge(); } } => C9 at 2:67
InBFS (n: G.Nodes From s) { Edge e = n.ToEdge(); } => C9 at 2:38
For (n: G.Nodes) { Edge e = n.ToEdge(); } => C9 at 2:29
Foreach (n: G.Nodes) { Foreach (t: n.Nbrs) { If (c) { Edge e = (t.ToEdge()); n.p += e.w; } } } => accepted
InBFS (n: G.Nodes From s) { Foreach (t: n.UpNbrs) { Edge e = t.ToEdge(); } } => accepted
# The least place counts, at one place the lower rule.
Foreach (n: G.Nodes) { n.p = Count(t: s.Nbrs); n.q = s.v; While (c) { } } => C2 at 2:39
Foreach (n: G.Nodes) { n.q = s.v; n.p = Count(t: s.Nbrs); } => C5 at 2:30
Foreach (n: G.Nodes) { While (s.r) { Foreach (t: s.Nbrs) { } } } => C4 at 2:24
Foreach (n: s.UpNbrs) { n.p = s.v; } => C1 at 2:13
Foreach (n: G.Nodes) { Foreach (t: n.Nbrs) { n.p = Count(u: t.Nbrs); } } => C6 at 2:46
Foreach (n: G.Nodes) { n.p = s.v; } Foreach (n: s.Nbrs) { } => C5 at 2:30
";

#[test]
fn canonical_form(rt: HostRuntime) -> Result<(), Fail> {
    statements_hold(&rt, HEAD, STATEMENTS, 179)
}
