//! Compound assignments as assignments.

use crate::runs::all_desugar_same;
use std::test::Fail;

const BODIES: &str = "
# In phases.
x += 2; x *= 3; x++; y min= x - 9; y max= 4;
q ||= 1 / x == 1;
q &&= 1 / x == 1; q ||= True; q ||= 1 / x == 1;
x = INF; x += 1;
nil.a += 1 / x;
s = nil; <x; s> min= <3; nil>;
x += Sum(n: G.Nodes){n.OutDegree()}; x *= 2 + Count(n: G.Nodes)(n.OutDegree() > 1);
# In parallel loops and searches.
Foreach (n: G.Nodes) { Int i = 2; i *= n.OutDegree(); n.a += i; n.f ||= i > 2; n.b max= i; x += i; }
Foreach (n: G.Nodes) { <n.a; n.r> min= <n.OutDegree() - 3; n>; }
Foreach (n: G.Nodes) { Int i; Foreach (t: n.Nbrs) { Int j = 1; j += t.OutDegree(); j *= j; i += j; t.c += j; n.b min= j; } n.a = i; }
Foreach (n: G.Nodes) { n.a = INF; If (n.OutDegree() == 2) { n.a += 1; } Else { n.a *= 2; } }
Foreach (n: G.Nodes) { n.a += 1 / n.b; }
Node m; For (n: G.Nodes) { m = n; x += 1; } InBFS (n: G.Nodes From m) { n.a += 1; Foreach (t: n.Nbrs) { t.b += n.OutDegree(); } } InReverse { n.a *= 2; }
";

#[test]
fn compounds_run_the_same(rt: HostRuntime) -> Result<(), Fail> {
    all_desugar_same(&rt, rt.alloc(), BODIES, 13)
}
