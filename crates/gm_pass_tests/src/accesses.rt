//! Reads and writes of the sequential phase through node variables, as checks and loops over all nodes.

use crate::runs::all_desugar_same;
use std::test::Fail;

const BODIES: &str = "
# Without faults, but for one at most.
For (n: G.Nodes) { s = n; s.a = n.OutDegree() + 1; x = s.a; n.b = s.InDegree() - x; y = n.b; }
For (n: G.Nodes) { n.a = -7; x = n.a; s = n; s.a = x * 2; Int i = s.a; y = i; }
For (n: G.Nodes) { n.l = -9; z = n.l; n.l = z * 4611686018427387904; }
For (n: G.Nodes) { n.f = n.OutDegree() > 1; q = n.f; If (q) { x += 1; } }
For (n: G.Nodes) { s = n.r; n.r = n; s = n.r; s.c = 5; x = s.c; s = nil; n.r = s; s = n.r; If (s == NIL) { y += 1; } }
For (n: G.Nodes)(n.a == 0) { s = n; s.a += 3; n.a *= 2; x = x + s.a; }
q = False; q &&= 1 / x > 0; y = 1;
q = True; q &&= 1 / x > 0; y = 1;
q = False; q &&= nil.f; y = 1;
For (n: G.Nodes) { q = n.f; q &&= 1 / n.a > 0; n.f = True; }
Do { x += 1; For (n: G.Nodes) { n.a += x; y = n.a; } } While (1 / (x - 2) > -1);
Do { x += 1; s = nil; } While (s.a > 0);
# With faults.
x = nil.a;
nil.a = 1;
x = nil.OutDegree();
s = nil; Int i = s.b; x = i;
nil.a = 1 / x;
For (n: G.Nodes) { n.a = 1 / x; }
nil.a = Sum(n: G.Nodes){1 / n.b};
nil.a = nil.b + 1 / x;
x = 6 / x + Sum(n: G.Nodes){1 / n.a};
x = 6 / x + nil.a;
y = 1 / x; nil.a = y;
nil.a = 1; y = 1 / x;
For (n: G.Nodes) { s = n.r; s.a = n.a / x; }
For (n: G.Nodes) { n.r = n; s = n.r; s.a = 2147483647; x = s.a + n.OutDegree(); }
";

#[test]
fn accesses_run_the_same(rt: HostRuntime) -> Result<(), Fail> {
    all_desugar_same(&rt, rt.alloc(), BODIES, 26)
}
