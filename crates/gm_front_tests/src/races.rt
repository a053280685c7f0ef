//! Loops that race and near misses that do not. Each row has the statements of a procedure and its verdict, worked out
//! by hand from the rules in `docs/LANGUAGE.md`.

use crate::verdicts::statements_hold;
use std::test::Fail;

// The line before the statements of the tables, which begin in line 2.
pub const HEAD: &str =
    "Procedure f(G: Graph, a: Int, b: Long, c: Bool, s: Node, v: N_P<Int>, w: E_P<Int>; p: N_P<Int>, q: N_P<Int>, r: N_P<Bool>): Int {";

// All of them, rule by rule.
const STATEMENTS: &str = "
# R1: a neighbour's value is read where each node's own may change.
Foreach (n: G.Nodes) { n.p = Sum(t: n.Nbrs) {t.p}; } => R1 at 2:46
Foreach (n: G.Nodes) { n.p = Sum(t: n.OutNbrs) {t.p}; } => R1 at 2:49
Foreach (n: G.Nodes) { n.p = Max(t: n.InNbrs) {t.p}; } => R1 at 2:48
Foreach (n: G.Nodes) { n.p = 1; n.q = Sum(t: n.Nbrs) {t.p}; } => R1 at 2:55
Foreach (n: G.Nodes) { n.q = Sum(t: n.Nbrs) {t.p}; n.p = 1; } => R1 at 2:46
Foreach (n: G.Nodes) { n.p = 1; Foreach (t: n.Nbrs) { n.q += t.p; } } => R1 at 2:62
Foreach (n: G.Nodes) { Foreach (t: n.Nbrs) { n.q += t.p; } n.p = 1; } => R1 at 2:53
Foreach (n: G.Nodes) { n.p = 1; Foreach (t: n.Nbrs) (t.p > 0) { n.q += 1; } } => R1 at 2:54
Foreach (n: G.Nodes) { n.p = Count(t: n.Nbrs) (t.p > 0); } => R1 at 2:48
Foreach (n: G.Nodes) { Foreach (t: n.Nbrs) { n.p += t.p; } } => R1 at 2:53
Foreach (n: G.Nodes) { Foreach (t: n.Nbrs) { n.p max= t.v; } n.q = Sum(u: n.Nbrs) {u.p}; } => R1 at 2:84
Foreach (n: G.Nodes) { n.p += Sum(t: n.Nbrs) {t.p}; } => R1 at 2:47
Foreach (n: G.Nodes) { n.p++; n.q = Sum(t: n.Nbrs) {t.p}; } => R1 at 2:53
Foreach (n: G.Nodes) (Exist(t: n.Nbrs) {t.r}) { n.r = True; } => R1 at 2:41
Foreach (n: G.Nodes) { If (c) { n.p = 1; } Else { n.q = Sum(t: n.Nbrs) {t.p}; } } => R1 at 2:73
InBFS (n: G.Nodes From s) { n.p = Sum(t: n.Nbrs) {t.p}; } => R1 at 2:51
InBFS (n: G.Nodes From s) { } InReverse { n.p = Sum(t: n.InNbrs) {t.p}; } => R1 at 2:67
InBFS (n: G.Nodes From s) (Exist(t: n.Nbrs) {t.r}) { n.r = True; } => R1 at 2:46
Foreach (n: G.Nodes) { n.p = 1; n.q = Sum(t: n.Nbrs) {t.p} + Sum(t: n.Nbrs) {t.p}; } => R1 at 2:55
Foreach (n: G.Nodes) { n.p = Sum(t: n.Nbrs) {t.q}; } => accepted
Foreach (n: G.Nodes) { n.p = 1; } Foreach (n: G.Nodes) { n.q = Sum(t: n.Nbrs) {t.p}; } => accepted
Foreach (n: G.Nodes) { n.p <= Sum(t: n.Nbrs) {t.p} @ n; } => accepted
Foreach (n: G.Nodes) { n.p = Sum(t: n.Nbrs) {n.p}; } => accepted
Foreach (n: G.Nodes) { n.p = 1; Foreach (t: n.Nbrs) { n.q += n.p; } } => accepted
InBFS (n: G.Nodes From s) { n.p = Sum(t: n.UpNbrs) {t.p}; } => accepted
InBFS (n: G.Nodes From s) { n.p = Sum(t: n.DownNbrs) {t.p}; } => accepted
InBFS (n: G.Nodes From s) { n.p = 1; } InReverse { n.q = Sum(t: n.Nbrs) {t.p}; } => accepted
InBFS (n: G.Nodes From s) { n.q = Sum(t: n.Nbrs) {t.p}; } InReverse { n.p = 1; } => accepted
G.p = G.p + 1; => accepted
s.p = Sum(n: G.Nodes) {n.p}; => accepted
# R2: what others reduce to is read or written in the loop, or what an inner loop reduces to is read in it.
Foreach (n: G.Nodes) { a += n.v; n.p = a; } => R2 at 2:40
Foreach (n: G.Nodes) { n.p = a; a += n.v; } => R2 at 2:30
Foreach (n: G.Nodes) { a += a; } => R2 at 2:29
Foreach (n: G.Nodes) { a++; b += a; } => R2 at 2:34
Foreach (n: G.Nodes) (n.v > a) { a += 1; } => R2 at 2:29
Foreach (n: G.Nodes) { a += Sum(t: n.Nbrs) {a}; } => R2 at 2:45
Foreach (n: G.Nodes) { If (a > 0) { a max= n.v; } } => R2 at 2:28
Foreach (n: G.Nodes) { c ||= n.r; n.r = c; } => R2 at 2:41
Foreach (n: G.Nodes) { Foreach (t: n.Nbrs) { a += a; } } => R2 at 2:51
Foreach (n: G.Nodes) { Foreach (t: n.Nbrs) { a += t.v; } n.q = a; } => R2 at 2:64
Foreach (n: G.Nodes) { Foreach (t: n.Nbrs) { t.p += n.v; } n.q = n.p; } => R2 at 2:66
Foreach (n: G.Nodes) { Foreach (t: n.Nbrs) { t.p += n.p; } } => R2 at 2:53
Foreach (n: G.Nodes) { Foreach (t: n.Nbrs) { t.p += t.p; } } => R2 at 2:53
Foreach (n: G.Nodes) { Foreach (t: n.Nbrs) { t.p += n.v; } n.q = Sum(u: n.InNbrs) {u.p}; } => R2 at 2:84
Foreach (n: G.Nodes) { Foreach (t: n.Nbrs) { t.p += n.v; } n.p = 1; } => R2 at 2:60
Foreach (n: G.Nodes) { n.p = 1; Foreach (t: n.Nbrs) { t.p += n.v; } } => R2 at 2:24
Foreach (n: G.Nodes) { Foreach (t: n.Nbrs) { t.p += n.v; } n.p += 1; } => R2 at 2:60
Foreach (n: G.Nodes) { Foreach (t: n.Nbrs) { t.p += n.v; } n.p++; } => R2 at 2:60
Foreach (n: G.Nodes) { s.p += n.v; n.q = n.p; } => R2 at 2:42
Foreach (n: G.Nodes) { s.p += n.v; n.p = 1; } => R2 at 2:36
Foreach (n: G.Nodes) { s.p += Sum(t: n.Nbrs) {t.p}; } => R2 at 2:47
InBFS (n: G.Nodes From s) { Foreach (t: n.DownNbrs) { t.p += n.v; } n.q = Sum(t: n.UpNbrs) {t.p}; } => R2 at 2:93
Foreach (n: G.Nodes) { Foreach (t: n.Nbrs) (t.p > 0) { t.p += 1; } } => R2 at 2:45
Foreach (n: G.Nodes) (n.p > 0) { Foreach (t: n.Nbrs) { t.p += 1; } } => R2 at 2:23
Foreach (n: G.Nodes) { Foreach (t: n.Nbrs) { n.p += n.p; } } => R2 at 2:53
Foreach (n: G.Nodes) { Foreach (t: n.Nbrs) (n.p > 0) { n.p += t.v; } } => R2 at 2:45
Foreach (n: G.Nodes) { Foreach (t: n.Nbrs) { n.p min= t.v; If (n.p > 0) { n.q += 1; } } } => R2 at 2:64
Foreach (n: G.Nodes) { Int k = 0; Foreach (t: n.Nbrs) { k += k; } n.p = k; } => R2 at 2:62
Foreach (n: G.Nodes) { Int k = 0; Foreach (t: n.Nbrs) (t.v > k) { k += 1; } } => R2 at 2:62
Foreach (n: G.Nodes) { Int k = 0; Foreach (t: n.Nbrs) { k += 1; n.p += k; } } => R2 at 2:72
Foreach (n: G.Nodes) { Foreach (t: n.Nbrs) { n.p += t.v; } n.q = n.p; } => accepted
Foreach (n: G.Nodes) { Foreach (t: n.Nbrs) { n.p += t.v; } Foreach (u: n.Nbrs) { n.q += n.p; } } => accepted
Foreach (n: G.Nodes) { Foreach (t: n.Nbrs) { n.p += t.v; } n.p = 1; } => accepted
Foreach (n: G.Nodes) { Int k = 0; k += n.v; n.p = k; } => accepted
Foreach (n: G.Nodes) { Int k = 0; Foreach (t: n.Nbrs) { k += t.v; } n.p = k; } => accepted
Foreach (n: G.Nodes) { Int k = 0; Foreach (t: n.Nbrs) { k += t.v; } Foreach (u: n.Nbrs) { n.p += k; } } => accepted
Foreach (n: G.Nodes) { Foreach (t: n.Nbrs) { Int k = t.v; k += k; n.p += k; } } => accepted
Foreach (n: G.Nodes) { n.p += n.p; } => accepted
Foreach (n: G.Nodes) { a += n.v; } a = a + 1; => accepted
Foreach (n: G.Nodes) { a += n.v; } Foreach (n: G.Nodes) { n.p = a; } => accepted
a = Sum(n: G.Nodes) {n.v + a}; => accepted
Foreach (n: G.Nodes) { a += n.v; b += n.v; } => accepted
Foreach (n: G.Nodes) { s.p += 1; n.q = n.v; } => accepted
Foreach (n: G.Nodes) { Foreach (t: n.Nbrs) { t.p += t.q; } } => accepted
For (n: G.Nodes) { a += a; } => accepted
# R3: two operations reduce to one variable, at the one that stands behind.
Foreach (n: G.Nodes) { a += n.v; a *= n.v; } => R3 at 2:34
Foreach (n: G.Nodes) { a max= n.v; a min= n.v; } => R3 at 2:36
Foreach (n: G.Nodes) { a++; a max= 3; } => R3 at 2:29
Foreach (n: G.Nodes) { c ||= n.r; c &&= n.r; } => R3 at 2:35
Foreach (n: G.Nodes) { a += n.v; a += 1; a *= 2; a max= 1; } => R3 at 2:42
Foreach (n: G.Nodes) { Foreach (t: n.Nbrs) { a += t.v; } a *= n.v; } => R3 at 2:58
Foreach (n: G.Nodes) { Foreach (t: n.Nbrs) { t.p += 1; t.p max= 2; } } => R3 at 2:56
Foreach (n: G.Nodes) { Foreach (t: n.Nbrs) { t.r ||= True; t.r &&= c; } } => R3 at 2:60
Foreach (n: G.Nodes) { Foreach (t: n.Nbrs) { t.p += 1; } Foreach (u: n.Nbrs) { u.p *= 2; } } => R3 at 2:80
Foreach (n: G.Nodes) { Foreach (t: n.Nbrs) { t.p += 1; n.p *= 2; } } => R3 at 2:56
Foreach (n: G.Nodes) { Foreach (t: n.Nbrs) { n.p += 1; t.p *= 2; } } => R3 at 2:56
Foreach (n: G.Nodes) { Foreach (t: n.Nbrs) { n.p += 1; } Foreach (u: n.Nbrs) { u.p *= 2; } } => R3 at 2:80
Foreach (n: G.Nodes) { s.p += 1; Foreach (t: n.Nbrs) { n.p max= t.v; } } => R3 at 2:56
Foreach (n: G.Nodes) { s.p += 1; Foreach (t: n.Nbrs) { t.p max= t.v; } } => R3 at 2:56
Foreach (n: G.Nodes) { Foreach (t: n.Nbrs) { n.p += t.v; n.p *= t.v; } } => R3 at 2:58
Foreach (n: G.Nodes) { Foreach (t: n.Nbrs) { n.p += t.v; If (c) { n.p min= 1; } } } => R3 at 2:67
Foreach (n: G.Nodes) { Int k = 0; Foreach (t: n.Nbrs) { k += 1; k *= 2; } } => R3 at 2:65
InBFS (n: G.Nodes From s) { a += n.v; a *= n.v; } => R3 at 2:39
Foreach (n: G.Nodes) { Foreach (t: n.Nbrs) { n.p += t.v; } Foreach (u: n.Nbrs) { n.p *= u.v; } } => accepted
Foreach (n: G.Nodes) { Foreach (t: n.Nbrs) { t.p += 1; n.p += 2; } } => accepted
Foreach (n: G.Nodes) { a++; a += 2; } => accepted
Foreach (n: G.Nodes) { a += 1; b *= 2; } => accepted
Foreach (n: G.Nodes) { a += 1; } Foreach (n: G.Nodes) { a *= 2; } => accepted
InBFS (n: G.Nodes From s) { a += 1; } InReverse { a *= 2; } => accepted
Foreach (n: G.Nodes) { n.p += 1; n.p *= 2; } => accepted
Foreach (n: G.Nodes) { Int k = 1; k += 1; k *= 2; } => accepted
Foreach (n: G.Nodes) { Int k = 0; Foreach (t: n.Nbrs) { k += 1; } Foreach (u: n.Nbrs) { k *= 2; } } => accepted
Foreach (n: G.Nodes) { Foreach (t: n.Nbrs) { Int k = 1; k += 1; k *= 2; n.p += k; } } => accepted
Foreach (n: G.Nodes) { c &= n.r; c &&= n.r; } => accepted
# R4 and R5: a property or a scalar is written from where it is not the iteration's own.
Foreach (n: G.Nodes) { Foreach (t: n.Nbrs) { t.p = 1; } } => R4 at 2:46
Foreach (n: G.Nodes) { s.p = 1; } => R4 at 2:24
Foreach (n: G.Nodes) { Foreach (t: n.Nbrs) { s.p = 1; } } => R4 at 2:46
Foreach (n: G.Nodes) { Foreach (t: n.Nbrs) { t.p <= 1 @ n; } } => R4 at 2:46
Foreach (n: G.Nodes) { s.p <= 1 @ n; } => R4 at 2:24
Foreach (n: G.Nodes) { Foreach (m: G.Nodes) { m.p = 1; } } => R4 at 2:47
Foreach (n: G.Nodes) { Node k = n; k.p = 1; } => R4 at 2:36
Foreach (n: G.Nodes) { G.p = 1; } => R4 at 2:24
InBFS (n: G.Nodes From s) { Foreach (t: n.DownNbrs) { t.p = 1; } } => R4 at 2:55
InBFS (n: G.Nodes From s) { } InReverse { s.p = 1; } => R4 at 2:43
Foreach (n: G.Nodes) { For (t: n.Nbrs) { t.p = 1; } } => R4 at 2:42
Foreach (n: G.Nodes) { a = 1; } => R5 at 2:24
Foreach (n: G.Nodes) { s = n; } => R5 at 2:24
Foreach (n: G.Nodes) { Foreach (t: n.Nbrs) { a = t.v; } } => R5 at 2:46
Foreach (n: G.Nodes) { If (c) { } Else { b = 1; } } => R5 at 2:42
InBFS (n: G.Nodes From s) { a = 1; } => R5 at 2:29
InBFS (n: G.Nodes From s) { } InReverse { a = 1; } => R5 at 2:43
Foreach (n: G.Nodes) { Int k = 0; Foreach (t: n.Nbrs) { k = t.v; } } => R5 at 2:57
Foreach (n: G.Nodes) { While (c) { c = False; } } => R5 at 2:36
Foreach (n: G.Nodes) { n.p = 1; } => accepted
Foreach (n: G.Nodes) { n.p <= 1 @ n; } => accepted
InBFS (n: G.Nodes From s) { n.p = 1; } => accepted
s.p = 1; a = 2; => accepted
For (n: G.Nodes) { a = n.v; n.p = a; } => accepted
While (c) { a = 1; c = False; } => accepted
Foreach (n: G.Nodes) { Int k = 0; k = 1; n.p = k; } => accepted
Foreach (n: G.Nodes) { Node k = n; k = s; } => accepted
Foreach (n: G.Nodes) { Foreach (t: n.Nbrs) { Int k = 0; k = t.v; n.p += k; } } => accepted
Foreach (n: G.Nodes) { If (c) { Int k = 0; k = n.v; n.p = k; } } => accepted
G.p = 1; => accepted
# R6: a write that ends with the loop beside another change, at the one that stands behind.
Foreach (n: G.Nodes) { n.p <= 1 @ n; n.p = 2; } => R6 at 2:38
Foreach (n: G.Nodes) { n.p = 2; n.p <= 1 @ n; } => R6 at 2:33
Foreach (n: G.Nodes) { n.p <= 1 @ n; n.p += 1; } => R6 at 2:38
Foreach (n: G.Nodes) { n.p++; n.p <= 1 @ n; } => R6 at 2:31
Foreach (n: G.Nodes) { n.p <= 1 @ n; Foreach (t: n.Nbrs) { n.p += t.v; } } => R6 at 2:60
Foreach (n: G.Nodes) { Foreach (t: n.Nbrs) { n.p += t.v; } n.p <= 1 @ n; } => R6 at 2:60
Foreach (n: G.Nodes) { n.p <= 1 @ n; Foreach (t: n.Nbrs) { t.p += 1; } } => R6 at 2:60
Foreach (n: G.Nodes) { Foreach (t: n.Nbrs) { t.p += 1; } n.p <= 1 @ n; } => R6 at 2:58
Foreach (n: G.Nodes) { s.p += 1; n.p <= 1 @ n; } => R6 at 2:34
Foreach (n: G.Nodes) { n.p <= 1 @ n; n.p <= 2 @ n; n.p = 3; } => R6 at 2:52
InBFS (n: G.Nodes From s) { n.p <= 1 @ n; n.p = 2; } => R6 at 2:43
Foreach (n: G.Nodes) { If (c) { n.p <= 1 @ n; } Else { n.p = 2; } } => R6 at 2:56
Foreach (n: G.Nodes) { n.p <= n.p + 1 @ n; } => accepted
Foreach (n: G.Nodes) { n.p <= Sum(t: n.Nbrs) {t.p} @ n; } => accepted
Foreach (n: G.Nodes) { n.p <= 1 @ n; n.p <= 2 @ n; } => accepted
Foreach (n: G.Nodes) { n.p <= 1 @ n; n.q = 2; } => accepted
Foreach (n: G.Nodes) { n.p <= 1 @ n; } Foreach (n: G.Nodes) { n.p = 2; } => accepted
InBFS (n: G.Nodes From s) { n.p <= 1 @ n; } InReverse { n.p = 2; } => accepted
# The least place counts, at one place the lower rule; races are judged before canonical form.
Foreach (n: G.Nodes) { a = 1; n.p = Sum(t: n.Nbrs) {t.p}; } => R5 at 2:24
Foreach (n: G.Nodes) { n.p = Sum(t: n.Nbrs) {t.p}; a = 1; } => R1 at 2:46
Foreach (n: G.Nodes) { Foreach (t: n.Nbrs) { n.p += 1; t.p += t.p; } } => R1 at 2:63
Foreach (n: G.Nodes) { Foreach (t: n.Nbrs) { t.p += 1; n.q += t.p; } s.q = 1; } => R2 at 2:63
Foreach (n: G.Nodes) { Foreach (t: n.Nbrs) { t.p = 1; t.p = 2; } s.q = 1; } => R4 at 2:46
Foreach (n: G.Nodes) { b += a; a += 1; a *= 2; } => R2 at 2:29
Foreach (n: G.Nodes) { While (c) { } a = 1; } => R5 at 2:38
Foreach (n: s.Nbrs) { a = 1; } => R5 at 2:23
Foreach (n: G.Nodes) { n.p = Sum(t: n.Nbrs) {t.p}; } Foreach (n: G.Nodes) { a = 1; } => R1 at 2:46
Foreach (n: G.Nodes) { a = 1; } Foreach (n: G.Nodes) { n.p = Sum(t: n.Nbrs) {t.p}; } => R5 at 2:24
Foreach (n: G.Nodes) { If (c) { s.p = 1; } Else { a = 1; } } => R4 at 2:33
";

#[test]
fn races(rt: HostRuntime) -> Result<(), Fail> {
    statements_hold(&rt, HEAD, STATEMENTS, 163)
}
