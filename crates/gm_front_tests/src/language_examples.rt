//! The examples of `docs/LANGUAGE.md` on races and canonical form: what breaks each rule, and how it is mended.

use crate::verdicts::statements_hold;
use std::test::Fail;

// The line before the statements of the tables, which begin in line 2.
const HEAD: &str =
    "Procedure f(G: Graph, a: Int, b: Int, c: Bool, s: Node, v: N_P<Int>, w: E_P<Int>; p: N_P<Int>, q: N_P<Int>, r: N_P<Bool>): Int {";

// Each rule, and after it the usual ways to mend it.
const EXAMPLES: &str = "
Foreach (n: G.Nodes) { n.p = Sum(t: n.Nbrs) {t.p}; } => R1 at 2:46
Foreach (n: G.Nodes) { n.p <= Sum(t: n.Nbrs) {t.p}; } => accepted
Foreach (n: G.Nodes) { a += n.v; n.p = a; } => R2 at 2:40
Foreach (n: G.Nodes) { a += n.v; } Foreach (n: G.Nodes) { n.p = a; } => accepted
Foreach (n: G.Nodes) { Foreach (t: n.Nbrs) { n.p += n.p; } } => R2 at 2:53
Foreach (n: G.Nodes) { Int d = n.p; Foreach (t: n.Nbrs) { n.p += d; } } => accepted
Foreach (n: G.Nodes) { a += n.v; a *= 2; } => R3 at 2:34
Foreach (n: G.Nodes) { a += n.v; b *= 2; } => accepted
Foreach (n: G.Nodes) { Foreach (t: n.Nbrs) { t.p = n.v; } } => R4 at 2:46
Foreach (n: G.Nodes) { Foreach (t: n.Nbrs) { t.p max= n.v; } } => accepted
Foreach (n: G.Nodes) { s.p = n.v; } => R4 at 2:24
Foreach (n: G.Nodes) { s.p max= n.v; } => accepted
Foreach (n: G.Nodes) { a = n.v; } => R5 at 2:24
Foreach (n: G.Nodes) { a max= n.v; } => accepted
Foreach (n: G.Nodes) { Int e = n.v; } => accepted
Foreach (n: G.Nodes) { n.p <= 1; n.p = 2; } => R6 at 2:34
Foreach (n: G.Nodes) { n.p <= 1; } Foreach (n: G.Nodes) { n.p = 2; } => accepted
Foreach (n: s.Nbrs) { n.p = 1; } => C1 at 2:13
Foreach (n: G.Nodes) { If (Exist(t: n.InNbrs) {t == s}) { n.p = 1; } } => accepted
Foreach (n: G.Nodes) { n.p = Sum(m: G.Nodes) {m.v}; } => C2 at 2:37
Int e = Sum(m: G.Nodes) {m.v}; Foreach (n: G.Nodes) { n.p = e; } => accepted
Foreach (n: G.Nodes) { Foreach (t: n.Nbrs) { n.p += Count(u: t.Nbrs); } } => C3 at 2:62
Foreach (t: G.Nodes) { t.q = Count(u: t.Nbrs); } Foreach (n: G.Nodes) { Foreach (t: n.Nbrs) { n.p += t.q; } } => accepted
Foreach (n: G.Nodes) { While (c) { } } => C4 at 2:24
s.p <= 1; => C4 at 2:1
While (c) { Foreach (n: G.Nodes) { } } s.p = 1; => accepted
Foreach (n: G.Nodes) { n.p = s.v; } => C5 at 2:30
Int e = s.v; Foreach (n: G.Nodes) { n.p = e; } => accepted
Foreach (n: G.Nodes) { Foreach (t: n.Nbrs) { n.p = t.v; } } => C6 at 2:46
Foreach (n: G.Nodes) { Foreach (t: n.Nbrs) { n.p max= t.v; } } => accepted
Foreach (n: G.Nodes) { Foreach (t: n.Nbrs) { Edge e = t.ToEdge(); n.p += t.v * e.w; } } => C7 at 2:80
Foreach (n: G.Nodes) { Foreach (t: n.InNbrs) { Edge e = t.ToEdge(); n.p += t.v * e.w; } } => accepted
Foreach (n: G.Nodes) { Foreach (t: n.Nbrs) { Edge e = t.ToEdge(); t.p += n.v * e.w; } } => accepted
Foreach (n: G.Nodes) { Foreach (t: n.Nbrs) { Edge e = t.ToEdge(); Int x = e.w; Int y = 0; <x; y> min= <t.v; 3>; n.p += y; } } => C7 at 2:75
Foreach (n: G.Nodes) { Foreach (t: n.InNbrs) { Edge e = t.ToEdge(); Int x = e.w; Int y = 0; <x; y> min= <t.v; 3>; n.p += y; } } => accepted
Foreach (n: G.Nodes) { n.p = Count(t: n.UpNbrs); } => C8 at 2:39
InBFS (n: G.Nodes From s) { n.p = Count(t: n.UpNbrs); } => accepted
Foreach (n: G.Nodes) { Edge e = n.ToEdge(); } => C9 at 2:33
Foreach (n: G.Nodes) { Foreach (t: n.Nbrs) { Edge e = t.ToEdge(); } } => accepted
Foreach (n: G.Nodes) { Foreach (t: n.Nbrs) { <t.p; t.q> min= <n.v; n.q>; } } => R2 at 2:68
N_P<Int> d; G.d = G.q; Foreach (n: G.Nodes) { Foreach (t: n.Nbrs) { <t.p; t.q> min= <n.v; n.d>; } } => accepted
Foreach (n: G.Nodes) { Foreach (t: n.Nbrs) { <t.p; t.q> min= <n.v; 1>; t.p min= 0; } } => R3 at 2:72
Foreach (n: G.Nodes) { Foreach (t: n.Nbrs) { <t.p; t.q> min= <n.v; 1>; <t.p; t.q> min= <0; 0>; } } => accepted
Foreach (n: G.Nodes) { Foreach (t: n.Nbrs) { Edge e = t.ToEdge(); <n.p; n.q> min= <t.v; e.w>; } } => C7 at 2:89
Foreach (n: G.Nodes) { Foreach (t: n.InNbrs) { Edge e = t.ToEdge(); <n.p; n.q> min= <t.v; e.w>; } } => accepted
";

#[test]
fn examples(rt: HostRuntime) -> Result<(), Fail> {
    statements_hold(&rt, HEAD, EXAMPLES, 45)
}
