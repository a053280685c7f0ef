//! Loops that do not pull stay as they are.

use crate::flips::all_flip_as;
use std::test::Fail;

const BODIES: &str = "
# Loops that go out, or are evaluated at home.
Foreach (n: G.Nodes) { n.x = n.a; n.y += n.b; s += n.a; }
Foreach (n: G.Nodes)(n.f) { Foreach (t: n.Nbrs) { t.x += n.a; } }
Foreach (n: G.Nodes) { Foreach (t: n.InNbrs)(t.f) { t.x max= n.a - t.b; s += t.a; } }
Foreach (n: G.Nodes) { Foreach (t: n.Nbrs) { Edge e = t.ToEdge(); t.x += e.w * n.a; } }
Foreach (n: G.Nodes) { Foreach (t: n.Nbrs) { Edge e = t.ToEdge(); n.x += e.w; } }
Foreach (n: G.Nodes)(n.f) { Foreach (t: n.InNbrs) { n.x += n.a; s += 1; } }
Foreach (n: G.Nodes)(n.f) { Foreach (t: n.InNbrs) { s += t.a; q ||= t.f; } }
Foreach (n: G.Nodes) { Foreach (t: n.Nbrs) { <t.x; t.r> min= <n.a - 9; n>; } }
s = 3; While (s > 0) { s = s - 1; } If (q) { s = 1 / s; }
";

#[test]
fn loops_that_go_out_stay(rt: HostRuntime) -> Result<(), Fail> {
    all_flip_as(&rt, rt.alloc(), BODIES, 9, false)
}
