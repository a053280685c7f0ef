//! Group assignments as loops.

use crate::runs::all_desugar_same;
use std::test::Fail;

const BODIES: &str = "
# Group assignments in phases.
G.a = 1; G.b = G.a + 1; G.a = G.b * G.b;
If (x == 0) { G.a = 2; } Else { G.a = 3; }
G.a = 4; While (x < 3) { G.a = G.a + x; x = x + 1; } Do { G.b = x; x = x + 1; } While (x < 5);
For (n: G.Nodes) { x = n.OutDegree(); G.a = G.a + x; }
G.a = G.OutDegree(); G.b = 6 / G.a;
";

#[test]
fn groups_run_the_same(rt: HostRuntime) -> Result<(), Fail> {
    all_desugar_same(&rt, rt.alloc(), BODIES, 5)
}
