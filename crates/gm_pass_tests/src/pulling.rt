//! Loops that pull become the loops of their other ends.

use crate::flips::all_flip_as;
use std::test::Fail;

const BODIES: &str = "
# Sums and picks.
Foreach (n: G.Nodes) { Foreach (t: n.InNbrs) { n.x += t.a; } }
Foreach (n: G.Nodes) { Foreach (t: n.Nbrs) { n.x += t.a; } }
Foreach (n: G.Nodes)(n.f) { Foreach (t: n.InNbrs) { n.x += t.a; } }
Foreach (n: G.Nodes)(n.g) { Foreach (t: n.Nbrs)(t.f || n.f) { n.x max= t.a - n.b; } }
Foreach (n: G.Nodes) { Foreach (t: n.InNbrs) { n.x += t.a; n.y max= t.b; s += t.a; q ||= t.f && n.g; } }
Foreach (n: G.Nodes) { Foreach (t: n.InNbrs) { n.g &&= t.f; } }
Foreach (n: G.Nodes) { Foreach (t: n.Nbrs) { n.g ||= t.f; n.x min= t.InDegree() - 9; } }
Foreach (n: G.Nodes) { Foreach (t: n.InNbrs) { <n.x; n.r> min= <t.a - 9; t>; } }
Foreach (n: G.Nodes)(n.f) { Foreach (t: n.InNbrs)(t.g) { <n.x; n.r> max= <t.a; t>; s += t.b; } }
# Masks.
Foreach (n: G.Nodes)(n.a > 1) { Foreach (t: n.InNbrs) { n.x += t.a; } }
Foreach (n: G.Nodes)(n.f && n.InDegree() < 2 || n.r != n) { Foreach (t: n.Nbrs)(t.g) { n.x += t.a; s += t.b; } }
s = 2; Foreach (n: G.Nodes)(n.a > s) { Foreach (t: n.InNbrs) { n.x += 6 / (t.b + 1); } }
Node m = NIL; Foreach (n: G.Nodes)(n != m && !n.g) { Foreach (t: n.InNbrs) { n.y max= t.b - n.a; } }
# Edges and locals.
Foreach (n: G.Nodes) { Foreach (t: n.InNbrs) { Edge e = t.ToEdge(); n.x += e.w * t.a; } }
Foreach (n: G.Nodes) { Foreach (t: n.InNbrs) { Edge e = t.ToEdge(); <n.y; n.r> min= <e.w - 9; t>; } }
Foreach (n: G.Nodes)(n.f) { Foreach (t: n.InNbrs) { Edge e = t.ToEdge(); s += e.w; } }
Foreach (n: G.Nodes) { Foreach (t: n.InNbrs) { Int i = t.a * 2; If (i > 3) { n.x += i; } Else { n.y += n.a; } } }
Foreach (n: G.Nodes) { Foreach (t: n.Nbrs) { Int i; Int j = t.a; If (t.f) { i = j; j = j - 1; } n.x += i * j; } }
Foreach (n: G.Nodes) { Foreach (t: n.InNbrs) { If (t.f) { If (n.g) { n.x += 1; } } Else { n.x += t.b; s max= t.a; } } }
# Faults.
Foreach (n: G.Nodes) { Foreach (t: n.InNbrs) { n.x += 6 / t.b; } }
Foreach (n: G.Nodes) { Foreach (t: n.InNbrs)(t.b != 0) { n.x += 6 / t.b; } }
Foreach (n: G.Nodes)(n.f) { Foreach (t: n.InNbrs) { n.x += 6 / (t.a - n.a); } }
Foreach (n: G.Nodes)(n.f) { Foreach (t: n.Nbrs)(6 / (t.a + 2) > 0) { n.x += 1; } }
Foreach (n: G.Nodes)(n.g) { Foreach (t: n.Nbrs)(6 / t.b > 0) { n.x += 1; } }
Foreach (n: G.Nodes) { Foreach (t: n.InNbrs) { n.x += t.a * 2147483647; } }
Foreach (n: G.Nodes) { Foreach (t: n.InNbrs) { n.x += 6 / t.b; n.y += t.a * 2147483647; } }
Foreach (n: G.Nodes) { Foreach (t: n.InNbrs) { n.y += t.a * 2147483647; n.x += 6 / t.b; } }
Foreach (n: G.Nodes) { Foreach (t: n.InNbrs) { n.x += 1073741823 + t.a; s += 1000000000; } }
Foreach (n: G.Nodes) { n.x = 2147483646; } Foreach (n: G.Nodes)(n.g) { Foreach (t: n.InNbrs) { n.x += t.a; } }
Foreach (n: G.Nodes) { Foreach (t: n.InNbrs) { If (t.b == 0) { n.x += 6 / t.b; } } }
# In phases.
While (s < 3) { Foreach (n: G.Nodes) { Foreach (t: n.InNbrs) { n.x += t.a; } } Foreach (n: G.Nodes) { n.a = n.x; } s = s + 1; }
Do { Foreach (n: G.Nodes)(n.f) { Foreach (t: n.Nbrs) { n.x += t.b; } } s = s + 1; } While (s < 4);
If (s == 0) { Foreach (n: G.Nodes) { Foreach (t: n.InNbrs) { n.x += t.a; } } } Else { Foreach (n: G.Nodes) { Foreach (t: n.InNbrs) { n.x += t.b; } } }
For (m: G.Nodes) { Foreach (n: G.Nodes) { Foreach (t: n.InNbrs) { n.x += t.a; } } }
Foreach (n: G.Nodes) { Foreach (t: n.InNbrs) { n.x += t.a; } } Foreach (n: G.Nodes) { Foreach (t: n.Nbrs) { n.y += t.x; } } s = 1 / s;
";

#[test]
fn loops_that_pull_are_turned_round(rt: HostRuntime) -> Result<(), Fail> {
    all_flip_as(&rt, rt.alloc(), BODIES, 35, true)
}
