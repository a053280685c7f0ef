//! Negative literals as constants.

use crate::runs::all_desugar_same;
use std::test::Fail;

const BODIES: &str = "
# Minuses before literals, and before what is none.
x = -1; y = -(-3); x += -x; q = -x > -2;
x = -INF; y = -2147483647 - 1;
y = -2147483647; y += -2;
x = -2147483647 - 1; y = -x;
G.a = -1; If (-1 < x) { G.b = -G.a; }
Foreach (n: G.Nodes)(n.OutDegree() > -1) { Int i = -4; n.a = i * -2; n.b min= -n.a; Foreach (t: n.Nbrs)(-1 < x) { t.c += -1; } }
x = Sum(n: G.Nodes)(n.OutDegree() > -1){-1}; y = x > -3 ? -5 : -6;
While (x > -3) { x += -1; } Do { y += -1; } While (y > -2);
";

#[test]
fn literals_run_the_same(rt: HostRuntime) -> Result<(), Fail> {
    all_desugar_same(&rt, rt.alloc(), BODIES, 8)
}
