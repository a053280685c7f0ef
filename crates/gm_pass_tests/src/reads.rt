//! Reads of the sequential phase, each set to a variable of its own.

use crate::runs::all_desugar_same;
use std::test::Fail;

const BODIES: &str = "
# Reads among others, and alone.
x = Sum(n: G.Nodes){n.OutDegree()} + Count(n: G.Nodes)(n.OutDegree() > 1);
For (n: G.Nodes) { s = n; x = n.a + s.b * 2 + n.OutDegree(); y = x; n.a = n.b + 1; s.c = s.a; }
x = 6 / x + nil.a;
x = nil.a + 6 / x;
x = Sum(n: G.Nodes){1 / n.a} + nil.a;
x = nil.a + Sum(n: G.Nodes){1 / n.a};
q = x == 0 || Exist(n: G.Nodes){1 / n.a > 0};
q = x != 0 && 6 / Sum(n: G.Nodes){n.a} > 0;
Int i = 2 + Max(n: G.Nodes){n.OutDegree()}; x = i > 2 ? Sum(n: G.Nodes){i} : Min(n: G.Nodes){n.a};
nil.a = Sum(n: G.Nodes){1 / n.b};
nil.a = 1 / x;
# In turns.
While (Sum(n: G.Nodes){n.a} + x < 9) { x = Count(n: G.Nodes)(n.a < x) + x + 1; Foreach (n: G.Nodes) { n.a += x; } }
Do { x = x + 1; y = Sum(n: G.Nodes){x} + Sum(n: G.Nodes){y}; } While (y < 30 && x < 6);
For (n: G.Nodes) { If (n.a + n.b == 0) { n.a = n.b + Sum(t: G.Nodes){t.a + 1}; } Else { Return; } }
";

#[test]
fn reads_run_the_same(rt: HostRuntime) -> Result<(), Fail> {
    all_desugar_same(&rt, rt.alloc(), BODIES, 14)
}
