//! Conditions of what is cut, saved in locals.

use crate::passes::CUTTING;
use crate::runs::{Frame, all_run_same};
use std::test::Fail;

/// Conditions of what has inner loops and reductions through node variables, and of what has none.
pub const BODIES: &str = "
Foreach (n: G.Nodes) { If (n.a == 0) { n.a = 1; Foreach (t: n.Nbrs) { t.b += 1; } } Else { n.c = 2; } }
Foreach (n: G.Nodes) { If (6 / n.OutDegree() > 2) { Foreach (t: n.Nbrs) { t.b += n.a; } } n.a = 1 / n.OutDegree(); }
Foreach (n: G.Nodes) { n.r = n; } Foreach (n: G.Nodes) { Node u = n.r; If (n.a == 0) { n.a = 5; u.b += 1; } }
Foreach (n: G.Nodes) { Int m = 0; If (n.OutDegree() > 0) { Foreach (t: n.Nbrs) { m += 1; } If (m > 1) { Foreach (t: n.InNbrs) { t.b max= 9; } } Else { n.c = m; } } n.a = m; }
Foreach (n: G.Nodes) { If (n.a == 0) { n.b = 1; If (n.b == 1) { n.b = 0; Foreach (t: n.Nbrs) { t.c += n.b + 3; } } } }
Do { Foreach (n: G.Nodes)(n.b <= x) { If (n.a < x) { n.a = x; Foreach (t: n.Nbrs) { t.c max= x; } } } x = x + 1; } While (x < 4);
Foreach (n: G.Nodes) { If (1 / n.a > 0) { Foreach (t: n.Nbrs) { t.b += 1 / n.c; } } }
Foreach (n: G.Nodes) { If (n.OutDegree() > 1) { Foreach (t: n.Nbrs) { t.b += 1 / n.a; } } Else { n.c = 1 / n.a; } }
Foreach (n: G.Nodes) { If (n.a == 0) { Foreach (t: n.Nbrs) { Edge e = t.ToEdge(); t.b += e.w; n.c += e.w; } } }
Foreach (n: G.Nodes) { If (n.a == 0) { Foreach (t: n.InNbrs) { Edge e = t.ToEdge(); If (e.w > 1) { n.b min= e.w - 7; } } } }
Foreach (n: G.Nodes) { Bool m = n.OutDegree() == 1; If (m) { m = False; Foreach (t: n.Nbrs) { t.a += 4; } } n.f = m; }
Foreach (n: G.Nodes) { If (n.f) { x += 1; } Else { n.f = True; Foreach (t: n.Nbrs)(t != n) { x += 2; q ||= n.f; } } }
Foreach (n: G.Nodes) { If (n.b == 0 && nil == NIL) { n.b = 1; nil.a += 1; } }
Foreach (n: G.Nodes) { If (n.OutDegree() > 1 && 3 / n.OutDegree() > 0) { Foreach (t: n.Nbrs) { t.a max= 2147483647 - n.b; } Foreach (t: n.InNbrs) { t.c += 2147483647; } } }
Foreach (n: G.Nodes) { If (n.a == 0) { Foreach (t: n.Nbrs) { <t.b; t.c> max= <n.OutDegree(); n.a + 2>; } } }
For (n: G.Nodes) { x = x + 1; Foreach (t: G.Nodes) { If (t.a < x) { t.a = x; Foreach (u: t.Nbrs) { u.b += 1; } } } }
";

#[test]
fn saved_conditions_run_the_same(rt: HostRuntime) -> Result<(), Fail> {
    all_run_same(&rt, rt.alloc(), Frame::Cut, BODIES, 16, &CUTTING)
}
