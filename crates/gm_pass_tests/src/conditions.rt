//! Conditions set to a variable before they are asked.

use crate::runs::all_desugar_same;
use std::test::Fail;

const BODIES: &str = "
# Conditions of Ifs and filters of Fors.
If (Sum(n: G.Nodes){n.OutDegree()} > 4) { x = 1; } Else { x = 2; }
If (x == 0 && 6 / x > Sum(n: G.Nodes){1}) { y = 1; }
If (x == 0 || Exist(n: G.Nodes){1 / n.a > 0}) { y = 1; }
If (nil.a > 0) { x = 1; } Else { If (x == 0) { x = 2; } }
For (n: G.Nodes)(n.OutDegree() > 1) { x += n.OutDegree(); If (n.a == 0) { n.a = 1; } }
For (n: G.Nodes)(1 / n.b > 0) { x += 1; }
s = nil; If (s.a == x) { Return; }
# Conditions of Whiles and Dos.
While (Exist(n: G.Nodes){n.a < 3}) { Foreach (n: G.Nodes) { n.a += 1; } x += 1; }
Do { x += 1; } While (Sum(n: G.Nodes){x} < 9);
While (x < 3) { x += 1; While (Count(n: G.Nodes)(n.b < x) > 0) { G.b = x; y += 1; } }
While (Sum(n: G.Nodes){1} / (3 - x) < 9) { x += 1; }
Do { x += 1; } While (nil.a > 0);
Do { Do { y += 1; } While (Count(n: G.Nodes)(n.a < y) == 0); x += 1; } While (All(n: G.Nodes){n.b < x} && x < 4);
";

#[test]
fn conditions_run_the_same(rt: HostRuntime) -> Result<(), Fail> {
    all_desugar_same(&rt, rt.alloc(), BODIES, 13)
}
